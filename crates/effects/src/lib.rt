// What each kind of statement does to a run: over the list's types, the trace's supply, a value table and messages in lent buffers, and
// registers. A register's number is even where it means a compound term, odd where it means a symbol (`run_parts`).
// Nothing is asked of the caller: what has no room is not written.
#![tactic(auto)]

ghost use Rattle.std.specs.Prelude.{◌≡◌, List, ℕ};
ghost use Rattle.calculus.specs.Signature.{Two};
ghost use Rattle.calculus.specs.Terms.{Side, send as sends, receive as receives, fresh as freshens, compare as compares, decrypt as decrypts};
ghost use Rattle.calculus.specs.Version1.{Seal1, encryption};
ghost use Rattle.decoded.specs.Table.{two_code};
ghost use Rattle.run_parts.specs.Registers.{value_in as held_in};
ghost use Rattle.effects.specs.Effects.{Same, Supplied, Binds, Does, RunDoes, acting, side_number, halving, building};

// How far a run has come: supplies used, messages logged, values in the table, registers given.
#[derive(Clone, Copy)]
pub struct State {
    pub used: u16,
    pub logged: u16,
    pub count: u16,
    pub registers: u16,
}

// How a run ends: document 01's endings from 0 on, in order, then two with which no accepted list ends.
#[derive(Clone, Copy, PartialEq, Eq)]
pub enum Ending {
    Finished,
    NoSupply,
    NotEqual,
    WrongKey,
    ReceivedLacks,
    OpenedLacks,
    NotFresh,
    FreshLacks,
    NoPair,
    NoCiphertext,
}

// A run: the list and the trace, the value table and the messages in lent buffers, the registers in a lent array, and how far it has come.
#[derive(Drop)]
pub struct Run<'a> {
    pub list: &'a [u8],
    pub trace: &'a [u8],
    pub values: &'a mut [u8],
    pub log: &'a mut [u8],
    pub registers: &'a mut [u32; 608],
    pub state: State,
}

// The next supplied value, if supply is left.
fn next_supplied(trace: &[u8], used: u16) -> Result<u16, Ending>
    ensures { Supplied trace.now used result }
{
    if trace::supply_count(trace) <= used {
        return Err(Ending::NoSupply);
    }
    Ok(run_parts::supplied(trace, used))
}

// Symbol x gets v, if v has its type; else the run ends.
fn bind(
    list: &[u8],
    values: &[u8],
    registers: &mut [u32; 608],
    state: &mut State,
    x: u8,
    v: u16,
    lacks: Ending,
) -> Result<(), Ending>
    ensures { Binds list.now values.now registers.old registers.new state.old state.new x v lacks result }
{
    if !run_parts::passes(list, x, values, state.count, v) {
        return Err(lacks);
    }
    let number = 2 * v as u32 + 1;
    state.registers = run_parts::give(registers, state.registers, number);
    Ok(())
}

// The statements, each over just what it works on. One that ends the run answers an `Err`.

// Sends v on c.
pub fn send(log: &mut [u8], state: &mut State, c: u16, v: u16) -> Result<(), Ending>
    ensures { (l tr w g : List ℕ) → Does 0 1 (acting (sends c v)) l tr w w log.old log.new g g state.old state.new result }
{
    state.logged = run_parts::say(log, state.logged, 0, c, v);
    Ok(())
}

// Receives the next supplied value on c into symbol x: supply left, taken, logged, then its type.
pub fn receive(
    list: &[u8],
    trace: &[u8],
    values: &[u8],
    log: &mut [u8],
    registers: &mut [u32; 608],
    state: &mut State,
    c: u16,
    x: u8,
) -> Result<(), Ending>
    ensures { Does 0 1 (acting (receives c x)) list.now trace.now values.now values.now log.old log.new registers.old registers.new state.old state.new result }
{
    let v = next_supplied(trace, state.used)?;
    state.used += 1;
    state.logged = run_parts::say(log, state.logged, 1, c, v);
    bind(list, values, registers, state, x, v, Ending::ReceivedLacks)
}

// Takes the next supplied value as the fresh name x: supply left, taken, an atom and fresh, then its type.
pub fn fresh(
    list: &[u8],
    trace: &[u8],
    values: &[u8],
    registers: &mut [u32; 608],
    state: &mut State,
    x: u8,
) -> Result<(), Ending>
    ensures { (o : List ℕ) → Does 0 0 (acting (freshens x)) list.now trace.now values.now values.now o o registers.old registers.new state.old state.new result }
{
    let v = next_supplied(trace, state.used)?;
    state.used += 1;
    if value_table::tag_at(values, state.count, v) != 0
        || !freshness::is_fresh(values, state.count, registers, state.registers, v)
    {
        return Err(Ending::NotFresh);
    }
    bind(list, values, registers, state, x, v, Ending::FreshLacks)
}

// Compares v with w.
pub fn compare(v: u16, w: u16) -> Result<(), Ending>
    ensures { (l tr z o g : List ℕ) (s : State) → Does 0 0 (acting (compares v w)) l tr z z o o g g s s result }
{
    if v != w {
        return Err(Ending::NotEqual);
    }
    Ok(())
}

// The left (0) or right (1) part of v.
// The number here and the tag in `build` are what `value_table` takes: an enum would be made in `execution` and undone here.
pub fn half(
    values: &[u8],
    registers: &mut [u32; 608],
    state: &mut State,
    j: u8,
    v: u16,
) -> Result<(), Ending>
    ensures { (d : Side) (l tr o : List ℕ) → side_number d ≡ j → Does 0 0 (halving d v) l tr values.now values.now o o registers.old registers.new state.old state.new result }
{
    if value_table::tag_at(values, state.count, v) != 1 {
        return Err(Ending::NoPair);
    }
    let w = value_table::part_at(values, state.count, v, j);
    let number = 2 * w as u32 + 1;
    state.registers = run_parts::give(registers, state.registers, number);
    Ok(())
}

// Decrypts v with key w into symbol x: a ciphertext, its key, then the type of its inside.
pub fn decrypt(
    list: &[u8],
    values: &[u8],
    registers: &mut [u32; 608],
    state: &mut State,
    v: u16,
    w: u16,
    x: u8,
) -> Result<(), Ending>
    ensures { (tr o : List ℕ) → Does 0 0 (acting (decrypts encryption v w x)) list.now tr values.now values.now o o registers.old registers.new state.old state.new result }
{
    if value_table::tag_at(values, state.count, v) != 2 {
        return Err(Ending::NoCiphertext);
    }
    if value_table::part_at(values, state.count, v, 1) != w {
        return Err(Ending::WrongKey);
    }
    let part = value_table::part_at(values, state.count, v, 0);
    bind(list, values, registers, state, x, part, Ending::OpenedLacks)
}

// Makes a value of v and w: tag 1 a pair, 2 v encrypted under w.
pub fn build(
    values: &mut [u8],
    registers: &mut [u32; 608],
    state: &mut State,
    tag: u8,
    v: u16,
    w: u16,
) -> Result<(), Ending>
    ensures { (k : Two Seal1) (l tr o : List ℕ) → two_code k ≡ tag → Does 1 0 (building k v w) l tr values.old values.new o o registers.old registers.new state.old state.new result }
{
    let m = value_table::make(values, state.count, tag, v, w);
    state.count = m.count;
    let number = 2 * m.index as u32;
    state.registers = run_parts::give(registers, state.registers, number);
    Ok(())
}

// The statements of a run: its fields are named here, so that `execution` names only what a statement acts on.
// Values that are only read are lent by `&mut` all the same: through one `&mut self` the borrow checker has no rule yet for a field lent by `&`
// beside one lent by `&mut`.
impl Run<'_> {
    // The value in register p.
    pub fn value_in(&self, p: u8) -> u16
        ensures { result ≡ held_in self.now.registers.now self.now.state.registers p }
    {
        run_parts::value_in(self.registers, self.state.registers, p)
    }

    pub fn send(&mut self, c: u16, v: u16) -> Result<(), Ending>
        ensures same { Same self.old self.new }
        ensures kept { (self.new.values.now ≡ self.old.values.now) × (self.new.registers.now ≡ self.old.registers.now) }
        ensures does { RunDoes 0 1 (acting (sends c v)) self.old self.new result }
    {
        send(self.log, &mut self.state, c, v)
    }

    pub fn receive(&mut self, c: u16, x: u8) -> Result<(), Ending>
        ensures same { Same self.old self.new }
        ensures kept { self.new.values.now ≡ self.old.values.now }
        ensures does { RunDoes 0 1 (acting (receives c x)) self.old self.new result }
    {
        receive(
            self.list,
            self.trace,
            &mut *self.values,
            self.log,
            self.registers,
            &mut self.state,
            c,
            x,
        )
    }

    pub fn fresh(&mut self, x: u8) -> Result<(), Ending>
        ensures same { Same self.old self.new }
        ensures kept { (self.new.values.now ≡ self.old.values.now) × (self.new.log.now ≡ self.old.log.now) }
        ensures does { RunDoes 0 0 (acting (freshens x)) self.old self.new result }
    {
        fresh(
            self.list,
            self.trace,
            &mut *self.values,
            self.registers,
            &mut self.state,
            x,
        )
    }

    pub fn compare(&self, v: u16, w: u16) -> Result<(), Ending>
        ensures { RunDoes 0 0 (acting (compares v w)) self.now self.now result }
    {
        compare(v, w)
    }

    pub fn half(&mut self, j: u8, v: u16) -> Result<(), Ending>
        ensures same { Same self.old self.new }
        ensures kept { (self.new.values.now ≡ self.old.values.now) × (self.new.log.now ≡ self.old.log.now) }
        ensures does { (d : Side) → side_number d ≡ j → RunDoes 0 0 (halving d v) self.old self.new result }
    {
        half(&mut *self.values, self.registers, &mut self.state, j, v)
    }

    pub fn decrypt(&mut self, v: u16, w: u16, x: u8) -> Result<(), Ending>
        ensures same { Same self.old self.new }
        ensures kept { (self.new.values.now ≡ self.old.values.now) × (self.new.log.now ≡ self.old.log.now) }
        ensures does { RunDoes 0 0 (acting (decrypts encryption v w x)) self.old self.new result }
    {
        decrypt(
            self.list,
            &mut *self.values,
            self.registers,
            &mut self.state,
            v,
            w,
            x,
        )
    }

    pub fn build(&mut self, tag: u8, v: u16, w: u16) -> Result<(), Ending>
        ensures same { Same self.old self.new }
        ensures kept { self.new.log.now ≡ self.old.log.now }
        ensures does { (k : Two Seal1) → two_code k ≡ tag → RunDoes 1 0 (building k v w) self.old self.new result }
    {
        build(self.values, self.registers, &mut self.state, tag, v, w)
    }
}
