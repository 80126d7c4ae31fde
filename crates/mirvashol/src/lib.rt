// The static library: the readers and services as C functions over slices, for tests and for programs in other languages.
// Each answers the refusal number, 0 for none, and gives eight entries: number, file, place, then what was read.
#![tactic(auto)]

ghost use Rattle.std.specs.Prelude.{[], ◌∷◌, ◌≡◌, leb};
ghost use Rattle.base.specs.Pick.{pick};
ghost use Rattle.type_service.specs.Services.{Answered, types_file};
ghost use Rattle.compile_service.specs.Files.{list_file};
ghost use Rattle.shelf_service.specs.Shelf.{ShelfAnswered};
ghost use Rattle.run_service.specs.Runs.{RunAnswered};
ghost use Rattle.mirvashol.specs.Given.{EntriesGiven};
ghost use Rattle.mirvashol.specs.Served.{Served, JudgeServed, RunServed};
ghost use Rattle.mirvashol.specs.Entries.{refusal_entries, entries_of, written_entries, table_entries, list_entries, trace_entries, type_of_entries, run_entries};

use answers::{Check, Refusal};
use machine::Ran;

// Gives the entries, where there is room for them.
fn give(
    answer: &mut [u64],
    number: u8,
    file: u8,
    place: u64,
    a: u64,
    b: u64,
    c: u64,
    d: u64,
    e: u64,
) -> u8
    ensures { EntriesGiven answer.old answer.new result (number ∷ file ∷ place ∷ a ∷ b ∷ c ∷ d ∷ e ∷ []) }
{
    let Some(entries) = answer.first_chunk_mut::<8>() else {
        return 255;
    };
    *entries = [number as u64, file as u64, place, a, b, c, d, e];
    number
}

// Gives a refusal: what was read is 0.
fn give_refusal(answer: &mut [u64], x: Refusal) -> u8
    ensures { EntriesGiven answer.old answer.new result (refusal_entries x) }
{
    give(answer, x.number, x.file, x.place, 0, 0, 0, 0, 0)
}

// Gives what a reader answers.
fn give_check(answer: &mut [u64], check: Check, a: u64, b: u64, c: u64) -> u8
    ensures { EntriesGiven answer.old answer.new result (entries_of check a b c) }
{
    match check {
        Ok(()) => give(answer, 0, 0, 0, a, b, c, 0, 0),
        Err(x) => give_refusal(answer, x),
    }
}

// Gives what a service that writes answers: the number of bytes.
fn give_written(answer: &mut [u64], written: Result<usize, Refusal>) -> u8
    ensures { EntriesGiven answer.old answer.new result (written_entries written) }
{
    match written {
        Ok(n) => give(answer, 0, 0, 0, n as u64, 0, 0, 0, 0),
        Err(x) => give_refusal(answer, x),
    }
}

// Reads a table: numbers 1 to 9, or S, T and P.
#[unsafe(no_mangle)]
pub extern "C" fn mirvashol_check_table(table: &[u8], answer: &mut [u64]) -> u8
    ensures { EntriesGiven answer.old answer.new result (table_entries table.now) }
{
    let check = table::check_table(table);
    let a = table_layout::symbol_count(table) as u64;
    let b = table_layout::term_count(table) as u64;
    let c = table_layout::step_count(table) as u64;
    give_check(answer, check, a, b, c)
}

// Reads a list by itself, where the table has so many free symbols: numbers 1 to 5, or S, N and where the statements begin.
#[unsafe(no_mangle)]
pub extern "C" fn mirvashol_check_list(list: &[u8], free: usize, answer: &mut [u64]) -> u8
    ensures { EntriesGiven answer.old answer.new result (list_entries list.now free) }
{
    let check = list::check_list(list, at_most(free));
    let a = list::symbol_count(list) as u64;
    let b = list::statement_count(list) as u64;
    let c = list::statements_at(list) as u64;
    give_check(answer, check, a, b, c)
}

// Reads a trace: numbers 1 to 6, or V, K and F.
#[unsafe(no_mangle)]
pub extern "C" fn mirvashol_check_trace(trace: &[u8], answer: &mut [u64]) -> u8
    ensures { EntriesGiven answer.old answer.new result (trace_entries trace.now) }
{
    let check = trace::check_trace(trace);
    let a = trace::value_count(trace) as u64;
    let b = trace::supply_count(trace) as u64;
    let c = trace::starting_count(trace) as u64;
    give_check(answer, check, a, b, c)
}

// The part of a list that holds a symbol's type: where it starts and how long it is.
#[unsafe(no_mangle)]
pub extern "C" fn mirvashol_type_of(list: &[u8], symbol: usize, answer: &mut [u64]) -> u8
    ensures { EntriesGiven answer.old answer.new result (type_of_entries list.now symbol) }
{
    let Some(part) = list::type_part(list, symbol) else {
        return give(answer, 0, 0, 0, 0, 0, 0, 0, 0);
    };
    let start = part.start as u64;
    let count = part.len() as u64;
    give(answer, 0, 0, 0, start, count, 0, 0, 0)
}

// The widest types of a table: a refusal, or the bytes written.
#[unsafe(no_mangle)]
pub extern "C" fn mirvashol_type(table: &[u8], out: &mut [u8], answer: &mut [u64]) -> u8
    ensures { Served (Answered (types_file table.now) table.now out.old) out.old out.new answer.old answer.new result }
{
    if answer.len() < 8 {
        return 255;
    }
    let written = type_service::type_table(table, out);
    give_written(answer, written)
}

// The list of a table: a refusal, or the bytes written.
#[unsafe(no_mangle)]
pub extern "C" fn mirvashol_compile(table: &[u8], out: &mut [u8], answer: &mut [u64]) -> u8
    ensures { Served (Answered (list_file table.now) table.now out.old) out.old out.new answer.old answer.new result }
{
    if answer.len() < 8 {
        return 255;
    }
    let written = compile_service::compile(table, out);
    give_written(answer, written)
}

// Judges a list against a table: a refusal, or none where the list is accepted.
#[unsafe(no_mangle)]
pub extern "C" fn mirvashol_judge(table: &[u8], list: &[u8], answer: &mut [u64]) -> u8
    ensures { JudgeServed table.now list.now answer.old answer.new result }
{
    let check = judge_service::judge_list(table, list);
    give_check(answer, check, 0, 0, 0)
}

// Judges up to 64 lists, laid end to end with their lengths, against a table: a refusal, or the bytes written, four for each list: number,
// file, and the place as two bytes, high first; four zeros where the list is accepted.
#[unsafe(no_mangle)]
pub extern "C" fn mirvashol_judge_shelf(
    table: &[u8],
    lists: &[u8],
    lengths: &[u64],
    verdicts: &mut [u8],
    answer: &mut [u64],
) -> u8
    ensures { Served (ShelfAnswered table.now lists.now lengths.now verdicts.old) verdicts.old verdicts.new answer.old answer.new result }
{
    if answer.len() < 8 {
        return 255;
    }
    let written = shelf_service::judge_shelf(table, lists, lengths, verdicts);
    give_written(answer, written)
}

// Runs a list on a trace: a refusal; or ending, statement index, supplies used, messages logged, and values in the table.
#[unsafe(no_mangle)]
pub extern "C" fn mirvashol_run(
    table: &[u8],
    list: &[u8],
    trace: &[u8],
    values: &mut [u8],
    log: &mut [u8],
    answer: &mut [u64],
) -> u8
    ensures { RunServed (RunAnswered table.now list.now trace.now values.old log.old) values.old values.new log.old log.new answer.old answer.new result }
{
    if answer.len() < 8 {
        return 255;
    }
    let ran = run_service::run(table, list, trace, values, log);
    give_run(answer, ran)
}

// Gives what a run answers.
fn give_run(answer: &mut [u64], ran: Result<Ran, Refusal>) -> u8
    ensures { EntriesGiven answer.old answer.new result (run_entries ran) }
{
    match ran {
        Ok(r) => {
            let ending = r.ending as u64;
            let place = r.place as u64;
            let used = r.used as u64;
            let logged = r.logged as u64;
            give(answer, 0, 0, 0, ending, place, used, logged, r.count as u64)
        }
        Err(x) => give_refusal(answer, x),
    }
}

// A number of free symbols in 16 bits.
fn at_most(free: usize) -> u16
    ensures { result ≡ pick (leb free 65535) free 65535 }
{
    if free <= 65535 {
        return free as u16;
    }
    65535
}
