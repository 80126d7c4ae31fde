// The symbols' types in slots of one lent array, and a wanted type pushed down a term of a role table.
// There are 96 slots of 129 bytes, each with a type at its start; a type shows its own end, so a slot has no length byte.
// They stand flat in a slice of any length: the public functions here, of `typing`, `type_lists` and `type_match` ask no length of it, as
// `[[u8; 129]; 96]` would.
#![tactic(auto)]

ghost use Rattle.std.specs.Prelude.{◌≡◌, [], ◌∷◌, ◌+◌, ◌*◌, ◌<◌, length, MatchOption};
ghost use Rattle.types.specs.Version1.{bytes};
ghost use Rattle.slots.specs.Terms.{code_at, part_at};
ghost use Rattle.slots.specs.Slots.{slot_of, Met, widest_of, Started, StartedAll};
ghost use Rattle.slots.specs.Push.{Pushed};

use arrayvec::ArrayVec;
use codes::Kind;
use type_bytes::{CIPHERTEXT, MESSAGE, NAME, PAIR};

// The code of term t, and its part j. Past the end stands symbol 0, as in the meaning of a table. A code is a byte of it, known or not.
pub fn term_code(table: &[u8], t: u8) -> u8
    ensures { result ≡ code_at table.now t }
{
    if t < table_layout::term_count(table) {
        entries::code_at(table, Kind::Term, table_layout::terms_at(table), t as u16)
    } else {
        0
    }
}

pub fn term_part(table: &[u8], t: u8, j: u8) -> u8
    ensures { result ≡ part_at table.now t j }
{
    if t < table_layout::term_count(table) {
        table_layout::term_field(table, t, j)
    } else {
        0
    }
}

// The widest type that the sort of symbol x allows: Name for a name, Message for a variable. It is written as the slot's first byte.
fn widest_code(table: &[u8], x: u8) -> u8
    ensures { bytes (widest_of table.now x) ≡ result ∷ [] }
{
    if x < table_layout::symbol_count(table) && table_layout::sort_at(table, x) == 0 {
        NAME
    } else {
        MESSAGE
    }
}

// Where slot x begins.
fn slot_at(x: u8) -> usize
    ensures { result ≡ x * 129 }
{
    base::wide(x) * 129
}

// The bytes of slot x, if there is one.
pub fn slot(work: &[u8], x: u8) -> Option<&[u8]>
    ensures { MatchOption result (length work.now < x * 129 + 129) (λ slot. slot.now ≡ slot_of work.now x) }
{
    let at = slot_at(x);
    work.get(at..at + 129)
}

// Starts slot x.
fn start_slot(work: &mut [u8], table: &[u8], x: u8)
    ensures { Started table.now x work.old work.new }
{
    let at = slot_at(x);
    if at < work.len() {
        work[at] = widest_code(table, x);
    }
}

// Writes the widest types that the sorts allow.
pub fn start(work: &mut [u8], table: &[u8])
    ensures { StartedAll table.now 96 work.old work.new }
{
    for x in 0..96 {
        start_slot(work, table, x);
    }
}

// Meets the type in slot s with the type at p of ty; none where no lower bound fits the slot.
// It cuts the slot out itself: `slot` lends it to be read, and here it is read and then written.
fn slot_meet(work: &mut [u8], s: u8, ty: &[u8], p: usize) -> Option<()>
    ensures { Met work.old s ty.now p work.new result }
{
    let at = slot_at(s);
    let e = at + 129;
    if work.len() < e {
        return None;
    }
    let mut low = [0u8; 129];
    let n = type_bytes::meet(&mut low, &work[at..e], 0, ty, p)?;
    buffers::copy(&mut work[at..e], &low[..n]);
    Some(())
}

// Pushes the type of at most 259 bytes at p of ty down term t: what each symbol in reach has to be is met into its slot. None where
// there is no such typing. The walk follows the type's bytes, and not the term: the terms that have still to take a type are
// pending, the next one last. A type of at most 259 bytes never leaves more than 130.
pub fn push(work: &mut [u8], table: &[u8], t: u8, ty: &[u8], p: usize) -> Option<()>
    ensures { Pushed work.old table.now t ty.now p work.new result }
{
    let mut pending: ArrayVec<u8, 130> = ArrayVec::new();
    pending.push(t);
    let mut at = p;
    while let Some(u) = pending.pop() {
        let b = *ty.get(at)?;
        let part = term_part(table, u, 0);
        match term_code(table, u) {
            _ if b == MESSAGE => at = type_bytes::past(ty, at),
            0 => {
                slot_meet(work, part, ty, at)?;
                at = type_bytes::past(ty, at);
            }
            1 if b == PAIR => {
                pending.push(term_part(table, u, 1));
                pending.try_push(part).ok()?;
                at += 1;
            }
            2 if b == CIPHERTEXT => {
                pending.push(part);
                at += 1;
            }
            _ => return None,
        }
    }
    Some(())
}
