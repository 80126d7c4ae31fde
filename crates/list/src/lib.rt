// The statement list: numbers 1 to 5, and the part of a list that holds a symbol's type.
// Nothing is asked of the caller: a list that is too short reads as zeros, and number 4 turns it down.
// A list, a base and an index stay apart, as in `entries`: the specs name them so, and a struct of them would lengthen each clause.
#![tactic(auto)]

ghost use Rattle.std.specs.Prelude.{◌≡◌, [], ◌∷◌, ◌+◌, ◌≤◌, ◌<◌};
ghost use Rattle.answers.specs.Ladder.{least};
ghost use Rattle.entries.specs.Fields.{field};
ghost use Rattle.list.specs.Layout.{symbols, statements, past_type, body_range, type_at, statements_at, counts_ok, length_ok, wants, type_ok_at, gives, statement_ok_at};
ghost use Rattle.list.specs.Faults.{frame_rungs, type_rung, type_rungs, statement_rung, list_rungs};
ghost use Rattle.list.specs.TypeOf.{type_bytes, part_of};

use answers::{Check, File};
use codes::Kind;
use std::ops::Range;

// The counts: symbols and statements. Each names its place; one function for counts of a byte is `base::byte_at`.
pub fn symbol_count(s: &[u8]) -> u8
    ensures { result ≡ symbols s.now }
{
    base::byte_at(s, 5)
}

#[tactic(auto, unfolding(base::specs::Bytes::word, base::specs::Bytes::byte))]
pub fn statement_count(s: &[u8]) -> u16
    ensures { result ≡ statements s.now }
{
    base::word_at(s, 6) as u16
}

// The place after the type at a place. The types of a list stand in its first 65,536 bytes.
fn past_type(s: &[u8], at: u32) -> u32
    requires { at < 65536 }
    ensures place { result ≡ past_type s.now at }
    ensures near { result ≤ at + 256 }
{
    at + 1 + base::byte_at(s, at as usize) as u32
}

// Where the bytes of the type at a place are: after its length byte.
pub fn body_range(s: &[u8], at: u32) -> Range<usize>
    ensures { result ≡ body_range s.now at }
{
    let start = at as usize + 1;
    start..start + base::byte_at(s, at as usize) as usize
}

// Where type i stands.
#[tactic(auto, using(crate::proofs::Walks::type_at_steps))]
pub fn type_at(s: &[u8], i: u8) -> u32
    ensures { result ≡ type_at s.now i }
{
    let mut at = 8;
    for _ in 0..i {
        at = past_type(s, at);
    }
    at
}

// Where the statements begin.
pub fn statements_at(s: &[u8]) -> u32
    ensures { result ≡ statements_at s.now }
{
    type_at(s, symbol_count(s))
}

// Numbers 1 to 4. Three functions alike in the three files, and no trait: it would want the file, its counts, limits and length, and
// their definitions as items, all for one call.
#[tactic(auto, unfolding(crate::specs::Layout::counts_ok))]
fn counts_ok(s: &[u8]) -> bool
    ensures { result ≡ counts_ok s.now }
{
    symbol_count(s) <= 96 && statement_count(s) <= 512
}

#[tactic(auto, unfolding(crate::specs::Layout::length_ok))]
fn length_ok(s: &[u8]) -> bool
    ensures { result ≡ length_ok s.now }
{
    s.len() == statements_at(s) as usize + 4 * statement_count(s) as usize
}

fn check_frame(s: &[u8]) -> Check
    ensures { result ≡ least (frame_rungs s.now) }
{
    opening::check_frame(s, File::List as u8, counts_ok(s), length_ok(s))
}

// The bytes are exactly one type. One is wanted at first; each code takes one off, and adds those that follow it.
// `type_bytes::type_end` counts alike, but asks no version and says where a type ends; their laws are two (docs/DECISIONS.md 67).
#[tactic(auto, using(crate::proofs::Wanted::wanted_steps))]
fn is_type(t: &[u8], version: usize) -> bool
    ensures { result ≡ wants version 1 t.now }
{
    let mut wanted: usize = 1;
    for &code in t {
        if wanted == 0 || !codes::type_known(version, code) {
            return false;
        }
        wanted = wanted - 1 + codes::type_parts(code);
    }
    wanted == 0
}

// The type at a place is in order. Not by `get` and a closure, by which `type_of` takes a quarter longer (docs/LOOK-BACK.md).
#[tactic(auto, unfolding(crate::specs::Layout::type_ok_at))]
fn type_ok(s: &[u8], at: u32) -> bool
    ensures { result ≡ type_ok_at s.now at }
{
    let part = body_range(s, at);
    part.end <= s.len() && is_type(&s[part], base::word_at(s, 3))
}

// Number 5 of the types. A `for` and no `find`, since the place is carried along.
#[tactic(auto, using(crate::proofs::Walks::walk_steps), unfolding(crate::specs::Layout::type_ok))]
fn walk_types(s: &[u8]) -> Check
    ensures { result ≡ least (type_rung s.now ∷ []) }
{
    let mut at = 8;
    for _ in 0..symbol_count(s) {
        if !type_ok(s, at) {
            return answers::refuse(5, File::List, at as usize);
        }
        at = past_type(s, at);
    }
    Ok(())
}

// Numbers 1 to 4, and 5 of the types.
fn check_types(s: &[u8]) -> Check
    ensures { result ≡ least (type_rungs s.now) }
{
    check_frame(s)?;
    walk_types(s)
}

// Field j of statement i, of those from a base offset on: p, q or s.
#[tactic(auto, using(crate::proofs::Operands::statement_field_byte))]
pub fn operand_at(s: &[u8], base: u32, i: u16, j: u8) -> u8
    ensures { result ≡ field s.now 2 base i j }
{
    base::byte_at(s, base as usize + i as usize * 4 + 1 + j as usize)
}

// Whether statement i gives a register: 1 or 0, a cell of `codes`' table, which the count of registers adds up.
#[tactic(auto, unfolding(crate::specs::Layout::gives))]
pub fn gives_at(s: &[u8], base: u32, i: u16) -> u8
    ensures { result ≡ gives s.now base i }
{
    codes::cell_at(
        Kind::Statement as u8,
        entries::code_at(s, Kind::Statement, base, i),
        4,
    )
}

// Statement i is in order where so many registers are given.
#[tactic(auto, unfolding(crate::specs::Layout::statement_ok_at))]
fn statement_ok(s: &[u8], base: u32, i: u16, registers: usize) -> bool
    ensures { result ≡ statement_ok_at s.now base i registers }
{
    let limits = codes::limits(0, symbol_count(s) as usize, 0, 0, registers);
    entries::entry_ok(s, Kind::Statement, base::word_at(s, 3), base, i, &limits)
}

// Number 5 of the statements. The registers are counted along, hence a `for` and no `find`.
#[tactic(auto, using(crate::proofs::Walks::walk_steps), unfolding(crate::specs::Layout::statement_ok))]
fn walk_statements(s: &[u8], free: u16) -> Check
    ensures { result ≡ least (statement_rung s.now free ∷ []) }
{
    let base = statements_at(s);
    let mut registers = free as usize;
    for i in 0..statement_count(s) {
        if !statement_ok(s, base, i, registers) {
            return answers::refuse(5, File::List, entries::place_of(Kind::Statement, base, i));
        }
        registers += gives_at(s, base, i) as usize;
    }
    Ok(())
}

// The list by itself, numbers 1 to 5, where the table has so many free symbols.
pub fn check_list(s: &[u8], free: u16) -> Check
    ensures { result ≡ least (list_rungs s.now free) }
{
    check_types(s)?;
    walk_statements(s, free)
}

// The part of a list that holds a symbol's type. Document 01 asks for let else here. The cast stands behind its test: `try_from` would add
// an answer that never comes.
#[tactic(auto, using(crate::proofs::Parts::part_steps))]
pub fn type_part(list: &[u8], symbol: usize) -> Option<Range<usize>>
    ensures { result ≡ part_of list.now symbol }
{
    let Ok(()) = check_types(list) else {
        return None;
    };
    if symbol < symbol_count(list) as usize {
        return Some(body_range(list, type_at(list, symbol as u8)));
    }
    None
}

// The bytes of a symbol's type, as the part of the list that holds them; document 01 asks for an empty part where there is none.
#[tactic(auto, using(crate::proofs::Parts::part_steps))]
pub fn type_of<'a>(list: &'a [u8], symbol: usize) -> &'a [u8]
    ensures { result.now ≡ type_bytes list.now symbol }
{
    let Some(part) = type_part(list, symbol) else {
        return &[];
    };
    &list[part]
}
