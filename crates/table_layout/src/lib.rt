// The role table's layout: its parts read by index, and numbers 1 to 5.
// A table and an index stay two parameters, here and in the crates above: the specs name them so, and a struct of them would lengthen
// each clause by its fields and each call by its making.
#![tactic(auto)]

ghost use Rattle.std.specs.Prelude.{◌≡◌, [], ◌∷◌};
ghost use Rattle.answers.specs.Ladder.{least};
ghost use Rattle.entries.specs.Fields.{code};
ghost use Rattle.table_layout.specs.Layout.{symbols, terms, steps, terms_at, steps_at, sort, term_field, term_role, step_field, step_role, counts_ok, length_ok, sort_ok, step_in_range, step_ok};
ghost use Rattle.table_layout.specs.Faults.{frame_rungs, symbol_rung, term_rung, step_rung, entry_rungs};

use answers::{Check, File};
use codes::Kind;

// The counts: symbols, terms, steps. Each names its byte; one function for all of them is `base::byte_at`.
pub fn symbol_count(s: &[u8]) -> u8
    ensures { result ≡ symbols s.now }
{
    base::byte_at(s, 5)
}

pub fn term_count(s: &[u8]) -> u8
    ensures { result ≡ terms s.now }
{
    base::byte_at(s, 6)
}

pub fn step_count(s: &[u8]) -> u8
    ensures { result ≡ steps s.now }
{
    base::byte_at(s, 7)
}

// Where the terms and the steps begin.
pub fn terms_at(s: &[u8]) -> u32
    ensures { result ≡ terms_at s.now }
{
    8 + symbol_count(s) as u32
}

fn steps_at(s: &[u8]) -> u32
    ensures { result ≡ steps_at s.now }
{
    8 + symbol_count(s) as u32 + 3 * term_count(s) as u32
}

// The sort of a symbol: the byte as it is read, 0 of a name, 1 of a variable, and any other until number 5 is decided.
pub fn sort_at(s: &[u8], x: u8) -> u8
    ensures { result ≡ sort s.now x }
{
    base::byte_at(s, 8 + base::wide(x))
}

// The fields of a term and of a step, their roles and their codes, as bytes that may be unknown. One function for any kind is `entries`'
// own: these name the kind and where it begins, which each caller would else write.
pub fn term_role(s: &[u8], i: u8, j: u8) -> u8
    ensures { result ≡ term_role s.now i j }
{
    entries::role_at(s, Kind::Term, terms_at(s), i as u16, j)
}

pub fn step_role(s: &[u8], k: u8, j: u8) -> u8
    ensures { result ≡ step_role s.now k j }
{
    entries::role_at(s, Kind::Step, steps_at(s), k as u16, j)
}

pub fn term_field(s: &[u8], i: u8, j: u8) -> u8
    ensures { result ≡ term_field s.now i j }
{
    base::byte_at(
        s,
        terms_at(s) as usize + base::wide(i) * 3 + 1 + base::wide(j),
    )
}

pub fn step_field(s: &[u8], k: u8, j: u8) -> u8
    ensures { result ≡ step_field s.now k j }
{
    base::byte_at(
        s,
        steps_at(s) as usize + base::wide(k) * 5 + 1 + base::wide(j),
    )
}

pub fn term_code(s: &[u8], i: u8) -> u8
    ensures { result ≡ code s.now 0 (terms_at s.now) i }
{
    entries::code_at(s, Kind::Term, terms_at(s), i as u16)
}

pub fn step_code(s: &[u8], k: u8) -> u8
    ensures { result ≡ code s.now 1 (steps_at s.now) k }
{
    entries::code_at(s, Kind::Step, steps_at(s), k as u16)
}

// Numbers 1 to 4. Three functions alike in the three files, and no trait: it would want the file, its counts, limits and length, and
// their definitions as items, all for one call.
fn counts_ok(s: &[u8]) -> bool
    ensures { result ≡ counts_ok s.now }
{
    symbol_count(s) <= 96 && term_count(s) <= 128 && step_count(s) <= 64
}

fn length_ok(s: &[u8]) -> bool
    ensures { result ≡ length_ok s.now }
{
    s.len() == steps_at(s) as usize + 5 * base::wide(step_count(s))
}

pub fn check_frame(s: &[u8]) -> Check
    ensures { result ≡ least (frame_rungs s.now) }
{
    opening::check_frame(s, File::Table as u8, counts_ok(s), length_ok(s))
}

// Number 5: symbols, terms, steps.
fn check_symbols(s: &[u8]) -> Check
    ensures { result ≡ least (symbol_rung s.now ∷ []) }
{
    match (0..symbol_count(s)).find(|&i| 2 <= sort_at(s, i)) {
        None => Ok(()),
        Some(i) => answers::refuse(5, File::Table, 8 + base::wide(i)),
    }
}

// Field j of step k binds a symbol of its sort, or none. Sorts are compared as bytes, since any byte may stand there.
fn sort_ok(s: &[u8], k: u8, j: u8) -> bool
    ensures { result ≡ sort_ok s.now k j }
{
    match step_role(s, k, j) {
        codes::NAME => sort_at(s, step_field(s, k, j)) == 0,
        codes::VARIABLE => sort_at(s, step_field(s, k, j)) == 1,
        _ => true,
    }
}

// The code of step k is known, and its fields are in range.
fn step_in_range(s: &[u8], k: u8) -> bool
    ensures { result ≡ step_in_range s.now k }
{
    let limits = codes::limits(
        0,
        base::wide(symbol_count(s)),
        0,
        base::wide(term_count(s)),
        0,
    );
    entries::entry_ok(
        s,
        Kind::Step,
        base::word_at(s, 3),
        steps_at(s),
        k as u16,
        &limits,
    )
}

fn step_ok(s: &[u8], k: u8) -> bool
    ensures { result ≡ step_ok s.now k }
{
    step_in_range(s, k) && sort_ok(s, k, 2) && sort_ok(s, k, 3)
}

fn check_steps(s: &[u8]) -> Check
    ensures { result ≡ least (step_rung s.now ∷ []) }
{
    match (0..step_count(s)).find(|&k| !step_ok(s, k)) {
        None => Ok(()),
        Some(k) => answers::refuse(
            5,
            File::Table,
            entries::place_of(Kind::Step, steps_at(s), k as u16),
        ),
    }
}

fn check_terms(s: &[u8]) -> Check
    ensures { result ≡ least (term_rung s.now ∷ []) }
{
    let version = base::word_at(s, 3);
    let symbols = base::wide(symbol_count(s));
    let count = term_count(s) as u16;
    entries::check_nodes(
        s,
        Kind::Term,
        File::Table,
        version,
        terms_at(s),
        symbols,
        count,
    )
}

pub fn check_entries(s: &[u8]) -> Check
    ensures { result ≡ least (entry_rungs s.now) }
{
    check_symbols(s)?;
    check_terms(s)?;
    check_steps(s)
}
