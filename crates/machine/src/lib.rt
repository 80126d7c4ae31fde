// The machine that runs a judged list on a trace: statement after statement, until one ends the run.
// The values go to one lent buffer, after a copy of the trace's, and the messages to another; bytes beyond keep their values.
#![tactic(auto)]

ghost use Rattle.std.specs.Prelude.{◌≡◌};
ghost use Rattle.trace.specs.Layout.{starting};
ghost use Rattle.effects.specs.Effects.{ending_number, Same};
ghost use Rattle.machine.specs.Running.{ended_as, Started, RunFrom};
ghost use Rattle.machine.specs.Statements.{StatementsRun};

use effects::{Ending, Run, State};

// How a run ended: the ending's number, the statement's index, supplies used, messages logged, values in the table.
// C is given these five numbers: so the ending is one, and three are copied out of a `State`, which counts registers too.
// Nothing copies or compares a `Ran`.
#[derive(Drop)]
pub struct Ran {
    pub ending: u8,
    pub place: u16,
    pub used: u16,
    pub logged: u16,
    pub count: u16,
}

// The answer where a run has come so far.
fn ended(ending: Ending, place: u16, s: State) -> Ran
    ensures { result ≡ ended_as (ending_number ending) place s }
{
    Ran {
        ending: ending as u8,
        place,
        used: s.used,
        logged: s.logged,
        count: s.count,
    }
}

// Starting value i.
fn starting_at(trace: &[u8], i: u8) -> u16
    ensures { result ≡ starting trace.now i }
{
    trace::starting_at(trace, i as u16) as u16
}

// Gives the registers of the free symbols: the starting values, in order.
fn start(trace: &[u8], registers: &mut [u32; 608]) -> u16
    ensures { Started trace.now registers.old registers.new result }
{
    let n = trace::starting_count(trace);
    let mut given = 0;
    for i in 0..n {
        given = run_parts::give(registers, given, 2 * starting_at(trace, i) as u32 + 1);
    }
    given
}

// Runs the statements from the start, until one ends the run.
fn run_all(run: &mut Run<'_>) -> Ran
    ensures same { Same run.old run.new }
    ensures ran { RunFrom run.old.list.now run.old.trace.now run.old.values.now run.new.values.now run.old.log.now run.new.log.now run.old.registers.now run.old.state result }
{
    let n = list::statement_count(run.list);
    let base = list::statements_at(run.list);
    for k in 0..n {
        if let Err(ending) = execution::execute(run, base, k) {
            return ended(ending, k, run.state);
        }
    }
    ended(Ending::Finished, n, run.state)
}

// Runs a list on a trace.
pub fn run_statements(list: &[u8], trace: &[u8], values: &mut [u8], log: &mut [u8]) -> Ran
    ensures { StatementsRun list.now trace.now values.old values.new log.old log.new result }
{
    value_table::copy_values(values, trace);
    let mut registers = [0u32; 608];
    let given = start(trace, &mut registers);
    let mut run = Run {
        list,
        trace,
        values,
        log,
        registers: &mut registers,
        state: State {
            used: 0,
            logged: 0,
            count: trace::value_count(trace),
            registers: given,
        },
    };
    run_all(&mut run)
}
