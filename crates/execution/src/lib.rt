// One statement of a judged list, executed: its code decides what is done, its fields with what and into which symbol.
// Nothing is asked of the caller: registers that are not given hold value 0, and what has no room is not written.
#![tactic(auto)]

ghost use Rattle.effects.specs.Effects.{Same, RunDoes};
ghost use Rattle.execution.specs.Execution.{builds_at, messages_at, executing_at};

use codes::Kind;
use effects::{Ending, Run};

// Executes statement k, of those from a base offset on. An unknown code is read as the fresh name of symbol 0.
pub fn execute(run: &mut Run<'_>, base: u32, k: u16) -> Result<(), Ending>
    ensures same { Same run.old run.new }
    ensures does { RunDoes (builds_at run.old.list.now base k) (messages_at run.old.list.now base k) (executing_at run.old.list.now base k) run.old run.new result }
{
    let list = run.list;
    let v = run.value_in(list::operand_at(list, base, k, 0));
    let w = run.value_in(list::operand_at(list, base, k, 1));
    let x = list::operand_at(list, base, k, 2);
    let op = entries::code_at(list, Kind::Statement, base, k);
    // By the number, since the code is a byte of the list, and the arm of an unknown one stands beside the others.
    match op {
        0 => run.send(v, w),
        1 => run.receive(v, x),
        2 => run.fresh(x),
        3 => run.compare(v, w),
        4 => run.half(0, v),
        5 => run.half(1, v),
        6 => run.decrypt(v, w, x),
        7 => run.build(1, v, w),
        8 => run.build(2, v, w),
        9..=255 => run.fresh(0),
    }
}
