// The trace: its counts, its values, its starting values and its supply by index, and numbers 1 to 6.
#![tactic(auto)]

ghost use Rattle.std.specs.Prelude.{◌≡◌, [], ◌∷◌};
ghost use Rattle.answers.specs.Files.{file_number};
ghost use Rattle.answers.specs.Ladder.{least};
ghost use Rattle.trace.specs.Layout.{values, supplies, startings, starts_at, supplies_at, index_place, index, starting, supply, counts_ok, length_ok};
ghost use Rattle.trace.specs.Faults.{frame_rungs, index_rung, held_rungs, entry_rungs, trace_rungs};

use answers::{Check, File};
use codes::Kind;

// Where the values begin.
const VALUES_AT: u32 = 10;

// The number of values, V. The three counts each name their place; one function for them is `base::word_at`, or `byte_at`.
#[tactic(auto, unfolding(base::specs::Bytes::word, base::specs::Bytes::byte))]
pub fn value_count(s: &[u8]) -> u16
    ensures { result ≡ values s.now }
{
    base::word_at(s, 5) as u16
}

// The number of supplied values, K.
#[tactic(auto, unfolding(base::specs::Bytes::word, base::specs::Bytes::byte))]
pub fn supply_count(s: &[u8]) -> u16
    ensures { result ≡ supplies s.now }
{
    base::word_at(s, 7) as u16
}

// The number of starting values, F.
pub fn starting_count(s: &[u8]) -> u8
    ensures { result ≡ startings s.now }
{
    base::byte_at(s, 9)
}

// Where the starting values begin.
fn starts_at(s: &[u8]) -> u32
    ensures { result ≡ starts_at s.now }
{
    VALUES_AT + 5 * value_count(s) as u32
}

// Where the supply begins.
#[tactic(auto, unfolding(base::specs::Bytes::word, base::specs::Bytes::byte))]
fn supplies_at(s: &[u8]) -> u32
    ensures { result ≡ supplies_at s.now }
{
    starts_at(s) + 2 * starting_count(s) as u32
}

// Where 16-bit index i stands, of those from a base offset on. `entries::place_of` goes by a kind of entry, which an index is not.
fn index_place(base: u32, i: u16) -> usize
    ensures { result ≡ index_place base i }
{
    base as usize + 2 * i as usize
}

// 16-bit index i, of those from a base offset on.
#[tactic(auto, unfolding(crate::specs::Layout::index))]
fn index_at(s: &[u8], base: u32, i: u16) -> usize
    ensures { result ≡ index s.now base i }
{
    base::word_at(s, index_place(base, i))
}

// Starting value i, an index of a value. This and `supply_at` name where the indexes begin; one function for both is `index_at`.
pub fn starting_at(s: &[u8], i: u16) -> usize
    ensures { result ≡ starting s.now i }
{
    index_at(s, starts_at(s), i)
}

// Supplied value i, an index of a value.
pub fn supply_at(s: &[u8], i: u16) -> usize
    ensures { result ≡ supply s.now i }
{
    index_at(s, supplies_at(s), i)
}

// No count is over its limit. This, `length_ok` and `check_frame` are alike in the three files, and no trait: it would want the file, its
// counts, its limits, its length and their definitions as items, all for one call.
#[tactic(auto, unfolding(crate::specs::Layout::counts_ok))]
fn counts_ok(s: &[u8]) -> bool
    ensures { result ≡ counts_ok s.now }
{
    value_count(s) <= 1024 && supply_count(s) <= 128 && starting_count(s) <= 96
}

// The file ends with its supply.
#[tactic(auto, unfolding(crate::specs::Layout::length_ok))]
fn length_ok(s: &[u8]) -> bool
    ensures { result ≡ length_ok s.now }
{
    s.len() == index_place(supplies_at(s), supply_count(s))
}

// Number 5 of 16-bit indexes from a base offset on: each lies below the limit.
fn check_indexes(s: &[u8], file: File, base: u32, limit: u16, count: u16) -> Check
    ensures { result ≡ least (index_rung s.now (file_number file) base limit count ∷ []) }
{
    match (0..count).find(|&i| limit as usize <= index_at(s, base, i)) {
        None => Ok(()),
        Some(i) => answers::refuse(5, file, index_place(base, i)),
    }
}

// Number 5 of the starting values and of the supply.
fn check_held(s: &[u8]) -> Check
    ensures { result ≡ least (held_rungs s.now) }
{
    let n = value_count(s);
    check_indexes(s, File::Trace, starts_at(s), n, starting_count(s) as u16)?;
    check_indexes(s, File::Trace, supplies_at(s), n, supply_count(s))
}

// Number 5.
fn check_entries(s: &[u8]) -> Check
    ensures { result ≡ least (entry_rungs s.now) }
{
    entries::check_nodes(
        s,
        Kind::Value,
        File::Trace,
        base::word_at(s, 3),
        VALUES_AT,
        0,
        value_count(s),
    )?;
    check_held(s)
}

// Numbers 1 to 4: the parts of the trace are there.
fn check_frame(s: &[u8]) -> Check
    ensures { result ≡ least (frame_rungs s.now) }
{
    opening::check_frame(s, File::Trace as u8, counts_ok(s), length_ok(s))
}

// Numbers 1 to 6 of a trace.
pub fn check_trace(s: &[u8]) -> Check
    ensures { result ≡ least (trace_rungs s.now) }
{
    check_frame(s)?;
    check_entries(s)?;
    filing::check_unlike(s, Kind::Value, File::Trace, VALUES_AT, value_count(s))
}
