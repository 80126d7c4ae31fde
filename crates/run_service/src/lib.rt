// The run service: a list run on a trace. All the judge's refusals come first, then the trace's 1 to 6, 14, and 15 for the two lent
// buffers; only then a byte is written.
#![tactic(auto)]

ghost use Rattle.run_service.specs.Runs.{RunChecked, RunAnswered};

use answers::{Check, Refusal};
use machine::Ran;

// All refusals of a run, in order.
fn check_run(table: &[u8], list: &[u8], trace: &[u8], values: &[u8], log: &[u8]) -> Check
    ensures { RunChecked table.now list.now trace.now values.now log.now result }
{
    judge_service::judge_list(table, list)?;
    trace::check_trace(trace)?;
    starting::check_starts(table, list, trace)?;
    let made = trace::value_count(trace) as usize + room_counts::build_count(list) as usize;
    type_service::check_room(values, 5 * made)?;
    type_service::check_room(log, 5 * room_counts::message_count(list) as usize)
}

// Runs a list on a trace: a refusal, or how it went.
pub fn run(
    table: &[u8],
    list: &[u8],
    trace: &[u8],
    values: &mut [u8],
    log: &mut [u8],
) -> Result<Ran, Refusal>
    ensures { RunAnswered table.now list.now trace.now values.old log.old values.new log.new result }
{
    check_run(table, list, trace, values, log)?;
    Ok(machine::run_statements(list, trace, values, log))
}
