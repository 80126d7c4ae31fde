// Number 11: a list's types compared with the widest ones, which stand in the slots.
#![tactic(auto)]

ghost use Rattle.type_match.specs.Alike.{BodyIs, Matched};

use answers::{Check, File};

// The bytes of the type at a place of a list; none where they are not all there.
fn type_body<'a>(list: &'a [u8], at: u32) -> &'a [u8]
    ensures { BodyIs list.now at result.now }
{
    list.get(list::body_range(list, at)).unwrap_or(&[])
}

// The first of the list's types that differs from the one in its slot; else the smaller number of symbols, where they differ.
pub fn check_alike(list: &[u8], work: &[u8], n: u8) -> Check
    ensures { Matched list.now work.now n result }
{
    let m = list::symbol_count(list);
    let both = m.min(n);
    let mut at = 8;
    for i in 0..both {
        if type_body(list, at) != type_lists::slot_type(work, i) {
            return answers::refuse(11, File::List, i as usize);
        }
        at += base::byte_at(list, at as usize) as u32 + 1;
    }
    if m == n {
        return Ok(());
    }
    answers::refuse(11, File::List, both as usize)
}
