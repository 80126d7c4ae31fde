// Number 14: a starting value for each free symbol, and each visibly has its symbol's type. The values are read in the trace itself,
// since nothing is written before 15 passes.
#![tactic(auto)]

ghost use Rattle.starting.specs.Fourteen.{StartSeen, StartsChecked};

use answers::{Check, File};

// Starting value i visibly has the type of symbol x. A trace without a whole header has none.
fn start_seen(list: &[u8], trace: &[u8], x: u8, i: u8) -> bool
    ensures { StartSeen list.now trace.now x i result }
{
    if trace.len() < 10 {
        return false;
    }
    let at = list::type_at(list, x) as usize + 1;
    let n = trace::value_count(trace);
    let v = trace::starting_at(trace, i as u16) as u16;
    visible::visible_at(list, at, &trace[10..], n, v)
}

// As many starting values as free symbols, and the first of them that lacks its type.
pub fn check_starts(table: &[u8], list: &[u8], trace: &[u8]) -> Check
    ensures { StartsChecked table.now list.now trace.now result }
{
    let mut free = [0u8; 256];
    let n = free_symbols::list_free(table, &mut free);
    let count = trace::starting_count(trace);
    if count != n {
        return answers::refuse(14, File::Trace, count.min(n) as usize);
    }
    for i in 0..count {
        if !start_seen(list, trace, free[i as usize], i) {
            return answers::refuse(14, File::Trace, i as usize);
        }
    }
    Ok(())
}
