// The judge service: accepts a list exactly if it is a faithful rendering of a role table with its widest types. The table itself is
// taken, never a claim about it.
#![tactic(auto)]

ghost use Rattle.judge_service.specs.Judged.{VerdictGiven, Judged, TypedJudged};

use answers::{Check, File};
use judging::Unfaithful;

// Numbers 12 and 13.
fn check_statements(table: &[u8], list: &[u8]) -> Check
    ensures { VerdictGiven table.now list.now result }
{
    match judging::judge_statements(table, list) {
        Ok(()) => Ok(()),
        Err(Unfaithful::NotDue(i)) => answers::refuse(12, File::List, i as usize),
        Err(Unfaithful::Unfinished(k)) => answers::refuse(13, File::List, k as usize),
    }
}

// List 1 to 5, then 11, 12 and 13, beside a table that is typed already: the slots hold its widest types.
pub fn judge_typed(table: &[u8], work: &[u8], list: &[u8]) -> Check
    ensures { TypedJudged table.now work.now list.now result }
{
    list::check_list(list, free_symbols::free_count(table))?;
    type_match::check_alike(list, work, table_layout::symbol_count(table))?;
    check_statements(table, list)
}

// Table 1 to 10, then the list.
pub fn judge_list(table: &[u8], list: &[u8]) -> Check
    ensures { Judged table.now list.now result }
{
    let mut work = [0u8; 12384];
    type_service::type_slots(table, &mut work)?;
    judge_typed(table, &work, list)
}
