// The shelf service: one table and up to 64 lists, laid end to end with their lengths; for each list what judging it by itself gives.
// The table is checked and typed once.
#![tactic(auto)]

ghost use Rattle.std.specs.Prelude.{◌≡◌, ◌*◌, ◌≤◌, eqb, length};
ghost use Rattle.shelf_service.specs.Shelf.{total, ShelfChecked, VerdictPut, ListJudged, ListsJudged, ShelfAnswered};

use answers::{Check, File, Refusal};

// Whether the lengths add up to so many bytes. Each is taken from what is left of them; the first that is longer ends it, so that no
// sum wraps.
#[tactic(auto, using(crate::proofs::Totals::add_up_steps))]
fn add_up(lengths: &[u64], bytes: usize) -> bool
    ensures { result ≡ eqb (total lengths.now) bytes }
{
    let mut left = bytes as u64;
    for &n in lengths {
        let Some(rest) = left.checked_sub(n) else {
            return false;
        };
        left = rest;
    }
    left == 0
}

// Numbers 3, 4 and 15.
fn check_shelf(lists: &[u8], lengths: &[u64], verdicts: &[u8]) -> Check
    ensures { ShelfChecked lists.now lengths.now (length verdicts.now) result }
{
    let n = lengths.len();
    if 64 < n {
        return answers::refuse(3, File::List, 0);
    }
    if add_up(lengths, lists.len()) {
        return type_service::check_room(verdicts, 4 * n);
    }
    answers::refuse(4, File::List, 0)
}

// Writes a verdict: number, file, and the place as two bytes, high first; four zeros where the list is accepted.
fn put_verdict(out: &mut [u8], verdict: Check)
    ensures { VerdictPut verdict out.old out.new }
{
    let Err(x) = verdict else {
        buffers::copy(out, &[0, 0, 0, 0]);
        return;
    };
    let high = (x.place / 256 % 256) as u8;
    let low = (x.place % 256) as u8;
    buffers::copy(out, &[x.number, x.file, high, low]);
}

// Judges one list beside the typed table, and writes the verdict.
fn judge_one(table: &[u8], work: &[u8], list: &[u8], out: &mut [u8])
    ensures { ListJudged table.now work.now list.now out.old out.new }
{
    let verdict = judge_service::judge_typed(table, work, list);
    put_verdict(out, verdict);
}

// Judges the lists one after the other. Each verdict is written through a part that starts where the one before it ends.
fn judge_each(table: &[u8], work: &[u8], lists: &[u8], lengths: &[u64], verdicts: &mut [u8])
    requires { (total lengths.now ≡ length lists.now) × (4 * length lengths.now ≤ length verdicts.old) }
    ensures { ListsJudged table.now work.now lists.now lengths.now verdicts.old verdicts.new }
{
    let mut at = 0;
    for (i, &n) in lengths.iter().enumerate() {
        let end = at + n as usize;
        judge_one(table, work, &lists[at..end], &mut verdicts[4 * i..]);
        at = end;
    }
}

// The table's 1 to 10, then 3, 4 and 15 of the shelf, and only then the lists: a refusal, or the number of bytes written.
pub fn judge_shelf(
    table: &[u8],
    lists: &[u8],
    lengths: &[u64],
    verdicts: &mut [u8],
) -> Result<usize, Refusal>
    ensures { ShelfAnswered table.now lists.now lengths.now verdicts.old verdicts.new result }
{
    let mut work = [0u8; 12384];
    type_service::type_slots(table, &mut work)?;
    check_shelf(lists, lengths, verdicts)?;
    judge_each(table, &work, lists, lengths, verdicts);
    Ok(4 * lengths.len())
}
