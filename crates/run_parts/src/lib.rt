// What a statement of a run works on, part by part: the registers in a lent array, the messages in a lent buffer, the trace's supply,
// and the test of a value by a symbol's type.
// A register is one number: twice the index of its value, and 1 more where it means a symbol. Document 01 names records in a lent slice
// for them, which come with request n) (docs/DECISIONS.md 37).
// Nothing is asked of the caller: registers that are not given hold value 0, and what has no room is not written.
// So none of these public functions can fail, and none answers an `Option` (docs/DECISIONS.md 12): a count stays where it is full.
#![tactic(auto)]

ghost use Rattle.std.specs.Prelude.{◌≡◌};
ghost use Rattle.trace.specs.Layout.{supply};
ghost use Rattle.run_parts.specs.Registers.{value_in, Gives};
ghost use Rattle.run_parts.specs.Messages.{Says};
ghost use Rattle.run_parts.specs.Types.{Passes};

// ── Registers ──

// As many as a run can have: one for each of 96 symbols, and one for each of 512 statements.
pub type Registers = [u32; 608];

// What register p holds; 0 where it is not given.
pub fn value_in(registers: &Registers, given: u16, p: u8) -> u16
    ensures { result ≡ value_in registers.now given p }
{
    if (p as u16) < given {
        return (registers[base::wide(p)] / 2 % 65536) as u16;
    }
    0
}

// Gives the next register.
pub fn give(registers: &mut Registers, given: u16, number: u32) -> u16
    ensures { Gives registers.old given number registers.new result }
{
    if given < 608 {
        registers[given as usize] = number;
        return given + 1;
    }
    given
}

// ── Messages, types, supply ──

// Logs a message: 0 sent or 1 received, channel, value.
// The direction is the byte that is written. C lends the buffer, whose bytes beyond keep their values: so the count stands beside it.
pub fn say(log: &mut [u8], logged: u16, direction: u8, c: u16, v: u16) -> u16
    ensures { Says log.old logged direction c v log.new result }
{
    if logged == u16::MAX {
        return logged;
    }
    value_table::append(log, logged, direction, c, v);
    logged + 1
}

// Value v visibly has the type of symbol x; a symbol that the list lacks is a Message.
pub fn passes(list: &[u8], x: u8, values: &[u8], count: u16, v: u16) -> bool
    ensures { Passes list.now x values.now count v result }
{
    list::symbol_count(list) <= x
        || visible::visible_at(list, list::type_at(list, x) as usize + 1, values, count, v)
}

// Supplied value i.
pub fn supplied(trace: &[u8], i: u16) -> u16
    ensures { result ≡ supply trace.now i }
{
    trace::supply_at(trace, i) as u16
}
