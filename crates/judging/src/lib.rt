// The judge's walk over a list's statements: numbers 12 and 13.
// What a register means is one byte: symbol x is x, and compound term i is 255 - i, so that equal meanings are equal bytes.
// Registers above 255 can't be named, so what they mean is not kept.
#![tactic(auto)]

ghost use Rattle.std.specs.Prelude.{◌≡◌, not, ◌+◌, ◌<◌};
ghost use Rattle.base.specs.Search.{first};
ghost use Rattle.table_layout.specs.Layout.{terms};
ghost use Rattle.judging.specs.Meanings.{meant_at, Gives};
ghost use Rattle.judging.specs.Due.{BindsNext, due_op, operands_due, is_due, fits_at};
ghost use Rattle.judging.specs.Turns.{found_as, Next, BuildTurns, SayTurns, Turns};
ghost use Rattle.judging.specs.Verdicts.{at_end_of, StatementsJudged};

use codes::Kind;

// What is due next: a statement of a step; where the left half of a split is done, the right half.
#[derive(Clone, Copy)]
pub struct State {
    pub step: u8,
    pub half: bool,
}

// What the registers mean that are given so far.
// Any byte is looked up in the meanings: they are fixed memory with a place for every byte; an `ArrayVec` would want a bound there.
#[derive(Drop)]
pub struct Registers {
    pub meanings: [u8; 256],
    pub given: usize,
}

// A statement as it is judged: its op, what its registers mean, and its symbol.
// The op is a byte of the list, known or not, so that it stays a number, here and in `bind` and `after`.
#[derive(Clone, Copy)]
struct Statement {
    op: u8,
    p: u8,
    q: u8,
    x: u8,
}

// What is wrong: a statement that is neither the next one due nor a permitted build; a step that is not finished at the end.
#[derive(Clone, Copy, PartialEq, Eq)]
pub enum Unfaithful {
    NotDue(u16),
    Unfinished(u8),
}

// What term i means.
#[tactic(auto, unfolding(crate::specs::Meanings::meant_at))]
fn meant(s: &[u8], i: u8) -> u8
    ensures { result ≡ meant_at s.now i }
{
    if table_layout::term_code(s, i) == 0 {
        table_layout::term_field(s, i, 0)
    } else {
        255 - i
    }
}

impl Registers {
    // Gives the next register, if it can be named.
    fn give(&mut self, meaning: u8)
        ensures { Gives meaning self.old self.new }
    {
        if self.given < 256 {
            self.meanings[self.given] = meaning;
            self.given += 1;
        }
    }

    // Gives the next register the meaning of symbol x, if a statement of this op gives one.
    fn bind(&mut self, op: u8, x: u8)
        ensures { BindsNext op x self.old self.new }
    {
        if codes::cell_at(Kind::Statement as u8, op, 4) != 0 {
            self.give(x);
        }
    }
}

// Term i is of that kind, and its parts mean p and q.
// A kind is a term's code, a byte of the table, here and below. Each part is compared as it is read: no entry is there for a derived `==`.
#[tactic(auto, unfolding(crate::specs::Due::fits_at))]
fn fits(s: &[u8], i: u8, kind: u8, p: u8, q: u8) -> bool
    ensures { result ≡ fits_at s.now kind p q i }
{
    table_layout::term_code(s, i) == kind
        && meant(s, table_layout::term_field(s, i, 0)) == p
        && meant(s, table_layout::term_field(s, i, 1)) == q
}

// The first such term.
fn find(s: &[u8], kind: u8, p: u8, q: u8) -> Option<u8>
    ensures { found_as result ≡ first (λ i. not (fits_at s.now kind p q i)) 0 (terms s.now) }
{
    (0..table_layout::term_count(s)).find(|&i| fits(s, i, kind, p, q))
}

// The op of the statement that a step makes due.
// By the step's code, a byte of the table; `half` comes beside it and no `State`, whose step is an index. An unknown step has op 9, which
// `operands_due` turns down as it does every such op: an `Option` would be a second test of the same.
#[tactic(auto, unfolding(crate::specs::Due::due_op))]
fn due_op(step: u8, half: bool) -> u8
    ensures { result ≡ due_op step half }
{
    match step {
        0..=3 => step,
        4 if half => 5,
        4 => 4,
        5 => 6,
        6..=255 => 9,
    }
}

// The registers of a statement mean the terms of step k, and its symbol is the one bound.
#[tactic(auto, unfolding(crate::specs::Due::operands_due))]
fn operands_due(s: &[u8], k: u8, statement: Statement) -> bool
    ensures { result ≡ operands_due s.now k statement.op statement.p statement.q statement.x }
{
    let Statement { op, p, q, x } = statement;
    let first = meant(s, table_layout::step_field(s, k, 0)) == p;
    let second = meant(s, table_layout::step_field(s, k, 1)) == q;
    let symbol = table_layout::step_field(s, k, 2) == x;
    // By the op, a byte of the list: document 01 asks for a match here, with a range for unknown codes.
    match op {
        0 => first && second,
        1 => first && symbol,
        2 => symbol,
        3 => first && second,
        4 => first && symbol,
        5 => first && table_layout::step_field(s, k, 3) == x,
        6 => first && second && symbol,
        7..=255 => false,
    }
}

// The statement is the one that step k makes due.
#[tactic(auto, unfolding(crate::specs::Due::is_due))]
fn is_due(s: &[u8], k: u8, half: bool, statement: Statement) -> bool
    ensures { result ≡ is_due s.now k half statement.op statement.p statement.q statement.x }
{
    statement.op == due_op(table_layout::step_code(s, k), half) && operands_due(s, k, statement)
}

// What is due after a statement of step k.
// One test gives both fields, where a `match` would write the `State` twice; that k has room is asked here alone.
fn after(op: u8, k: u8) -> State
    requires { k < 255 }
    ensures { Next op k result }
{
    let half = op == 4;
    State {
        step: if half { k } else { k + 1 },
        half,
    }
}

// A build of two parts: permitted if the term that it makes is in the table.
fn build(
    s: &[u8],
    kind: u8,
    statement: Statement,
    registers: &mut Registers,
    state: State,
) -> Option<State>
    ensures { BuildTurns s.now kind statement.p statement.q registers.old registers.new state result }
{
    let i = find(s, kind, statement.p, statement.q)?;
    registers.give(255 - i);
    Some(state)
}

// Any other statement: it has to be the next one due.
fn say(s: &[u8], statement: Statement, registers: &mut Registers, state: State) -> Option<State>
    ensures { SayTurns s.now statement.op statement.p statement.q statement.x registers.old registers.new state result }
{
    let k = state.step;
    if k < table_layout::step_count(s) && is_due(s, k, state.half, statement) {
        registers.bind(statement.op, statement.x);
        return Some(after(statement.op, k));
    }
    None
}

// One statement: what is due after it, if it was the next one due or a permitted build.
fn take_turn(
    table: &[u8],
    list: &[u8],
    base: u32,
    i: u16,
    registers: &mut Registers,
    state: State,
) -> Option<State>
    ensures { Turns table.now list.now base i registers.old registers.new state result }
{
    let statement = Statement {
        op: entries::code_at(list, Kind::Statement, base, i),
        p: marks::get(&registers.meanings, list::operand_at(list, base, i, 0)),
        q: marks::get(&registers.meanings, list::operand_at(list, base, i, 1)),
        x: list::operand_at(list, base, i, 2),
    };
    match statement.op {
        7 => build(table, 1, statement, registers, state),
        8 => build(table, 2, statement, registers, state),
        _ => say(table, statement, registers, state),
    }
}

// After the last statement.
#[tactic(auto, unfolding(crate::specs::Verdicts::at_end_of))]
fn at_end(s: &[u8], state: State) -> Result<(), Unfaithful>
    ensures { result ≡ at_end_of s.now state }
{
    if state.step < table_layout::step_count(s) {
        return Err(Unfaithful::Unfinished(state.step));
    }
    Ok(())
}

// The verdict on a list's statements.
// The table and the list stay two arguments, as C lends them to the services.
pub fn judge_statements(table: &[u8], list: &[u8]) -> Result<(), Unfaithful>
    ensures { StatementsJudged table.now list.now result }
{
    let mut meanings = [0u8; 256];
    let given = base::wide(free_symbols::list_free(table, &mut meanings));
    let mut registers = Registers { meanings, given };
    let mut state = State {
        step: 0,
        half: false,
    };
    let base = list::statements_at(list);
    for i in 0..list::statement_count(list) {
        let turn = take_turn(table, list, base, i, &mut registers, state);
        state = turn.ok_or(Unfaithful::NotDue(i))?;
    }
    at_end(table, state)
}
