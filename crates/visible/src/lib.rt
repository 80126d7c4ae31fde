// The visible types of values: a walk along the type's bytes. Values may share their parts, so that nothing follows a value alone.
#![tactic(auto)]

ghost use Rattle.std.specs.Prelude.{◌≡◌};
ghost use Rattle.value_table.specs.Values.{tag_at, part_at};
ghost use Rattle.visible.specs.Seen.{atom_of, leaf_of, Seen};

use arrayvec::ArrayVec;

// A value of this tag and first number is an atom that has the basic type of code b: 1 Name, 2 Channel, 3 ShKey.
// Codes and tags are bytes of the files, known or not, so that they are numbers here and below.
fn is_atom_of(b: u8, tag: u8, kind: u16) -> bool
    ensures { result ≡ atom_of b tag kind }
{
    tag == 0 && (b == 1 || kind as u32 + 1 == b as u32)
}

// Value v visibly has a type that starts with code b and is no pair: the inside of a ciphertext is unseen.
fn leaf_seen(b: u8, values: &[u8], count: u16, v: u16) -> bool
    ensures { result ≡ leaf_of b (tag_at values.now count v) (part_at values.now count v 0) }
{
    match b {
        0 => true,
        5 => value_table::tag_at(values, count, v) == 2,
        _ => {
            let tag = value_table::tag_at(values, count, v);
            is_atom_of(b, tag, value_table::part_at(values, count, v, 0))
        }
    }
}

// Value v of the first so many visibly has the type at p of types, if one of at most 255 bytes stands there: both parts of a pair
// visibly have theirs.
pub fn visible_at(types: &[u8], p: usize, values: &[u8], count: u16, v: u16) -> bool
    ensures { Seen types.now p values.now count v result }
{
    // The values still to be looked at, the next one last. A type of at most 255 bytes never leaves more than 128.
    let mut pending: ArrayVec<u16, 128> = ArrayVec::new();
    pending.push(v);
    let mut at = p;
    while let Some(x) = pending.pop() {
        let Some(&b) = types.get(at) else {
            return false;
        };
        if b == 4 {
            if value_table::tag_at(values, count, x) != 1 {
                return false;
            }
            if pending.remaining_capacity() < 2 {
                return false;
            }
            pending.push(value_table::part_at(values, count, x, 1));
            pending.push(value_table::part_at(values, count, x, 0));
            at += 1;
        } else {
            if !leaf_seen(b, values, count, x) {
                return false;
            }
            at = type_bytes::past(types, at);
        }
    }
    true
}
