// The translation of a checked role table into statements: their bytes in a lent buffer.
// A term is built once, just before its first use; the two arrays of `registers` say where it is then, so that a shared term is looked at
// once for each place that names it.
#![tactic(auto)]

ghost use Rattle.std.specs.Prelude.{◌≡◌, Ok, ◌+◌, ◌*◌, ◌<◌, ◌≤◌, length};
ghost use Rattle.answers.specs.Ladder.{least};
ghost use Rattle.entries.specs.Fields.{code};
ghost use Rattle.table_layout.specs.Layout.{terms as terms_of, steps, terms_at, steps_at};
ghost use Rattle.table.specs.Faults.{table_rungs};
ghost use Rattle.calculus.specs.Version1.{signature1};
ghost use Rattle.rendering.specs.Rendering.{halves};
ghost use Rattle.rendering.specs.Translation.{translation};
ghost use Rattle.decoded.specs.Table.{table_of};
ghost use Rattle.buffers.specs.Over.{over, Appended};
ghost use Rattle.decoded_list.specs.Bytes.{statements_bytes};
ghost use Rattle.registers.specs.Held.{at_start, register_in};
ghost use Rattle.rendering.specs.Judge.{symbol, term};
ghost use Rattle.translate.specs.Stepwise.{built, operands_built, step_made, steps_made, wrote_if};
ghost use Rattle.translate.specs.Making.{AllReady, SomeReady, Makes, Gives, BindsStep, make_bytes, step_stated_bytes};

use answers::Check;

// How far the translation has come: the marks of the symbols and of the compound terms that have registers, how many registers are given,
// and where the next statement goes.
// How much room there is, for registers and in out, is no invariant of it: each function asks for what it is about to make, another amount
// each time (`SomeReady`, `AllReady`, a count below 255 or 254), and at the end there may be none.
#[derive(Drop)]
struct Progress {
    symbols: [u8; 256],
    terms: [u8; 256],
    registers: u8,
    at: usize,
}

// The register of term i, the next one where there is none.
fn register_of(s: &[u8], i: u8, progress: &Progress) -> u8
    ensures { result ≡ register_in s.now i progress.now.symbols progress.now.terms progress.now.registers }
{
    registers::register_of(s, i, &progress.symbols, &progress.terms, progress.registers)
}

// The statement that makes term i of its parts; the next register is its.
#[tactic(auto, unfolding(crate::specs::Making::make_bytes))]
fn make_term(s: &[u8], i: u8, progress: &mut Progress, out: &mut [u8])
    requires { (code s.now 0 (terms_at s.now) i < 3) × (progress.old.registers < 255) × (progress.old.at + 4 ≤ length out.old) }
    ensures written { Appended (make_bytes s.now i progress.old.symbols progress.old.terms progress.old.registers) progress.old.at out.old out.new progress.new.at }
    ensures given { Gives (term i) progress.old progress.new }
{
    let p = register_of(s, table_layout::term_field(s, i, 0), progress);
    let q = register_of(s, table_layout::term_field(s, i, 1), progress);
    let op = table_layout::term_code(s, i) + 6;
    progress.at = buffers::append(out, progress.at, &[op, p, q, 0]);
    progress.registers += 1;
    registers::note(&mut progress.terms, i, progress.registers);
}

// Builds term i, unless it is built: its parts first.
// That the table has passed stays a clause here and below: with a struct that says so, each `s.now` would be `table.now.s.now`.
fn build_term(s: &[u8], i: u8, progress: &mut Progress, out: &mut [u8])
    requires { (least (table_rungs s.now) ≡ Ok tt) × (i < terms_of s.now) × SomeReady (built s.now i) progress.old out.old }
    ensures { Makes (built s.now i) progress.old progress.new out.old out.new }
{
    if registers::is_settled(s, i, &progress.terms) {
        return;
    }
    let left = table_layout::term_field(s, i, 0);
    let right = table_layout::term_field(s, i, 1);
    build_term(s, left, progress, out);
    build_term(s, right, progress, out);
    make_term(s, i, progress, out);
}

// Builds the terms of step k.
fn build_operands(s: &[u8], k: u8, progress: &mut Progress, out: &mut [u8])
    requires { (least (table_rungs s.now) ≡ Ok tt) × (k < steps s.now) × SomeReady (operands_built s.now k) progress.old out.old }
    ensures { Makes (operands_built s.now k) progress.old progress.new out.old out.new }
{
    let a = table_layout::step_field(s, k, 0);
    let b = table_layout::step_field(s, k, 1);
    match table_layout::step_code(s, k) {
        2 => {}
        1 | 4 => build_term(s, a, progress, out),
        _ => {
            build_term(s, a, progress, out);
            build_term(s, b, progress, out);
        }
    }
}

// Writes the statements of step k, whose terms are built. Answers the place after them.
#[tactic(auto, using(crate::proofs::StepLaws::state_none), unfolding(crate::specs::Making::state_bytes, crate::specs::Making::step_stated_bytes, buffers::specs::Over::over))]
fn state_step(s: &[u8], k: u8, progress: &Progress, out: &mut [u8]) -> usize
    requires { progress.now.at + length (step_stated_bytes s.now k progress.now.symbols progress.now.terms progress.now.registers) ≤ length out.old }
    ensures { Appended (step_stated_bytes s.now k progress.now.symbols progress.now.terms progress.now.registers) progress.now.at out.old out.new result }
{
    let p = register_of(s, table_layout::step_field(s, k, 0), progress);
    let q = register_of(s, table_layout::step_field(s, k, 1), progress);
    let x = table_layout::step_field(s, k, 2);
    let y = table_layout::step_field(s, k, 3);
    let at = progress.at;
    // By the code, a byte of the table: document 01 asks for a match here, with a range for unknown codes.
    // Each arm appends: bytes lent out of an arm are past the borrow checker.
    match table_layout::step_code(s, k) {
        0 => buffers::append(out, at, &[0, p, q, 0]),
        1 => buffers::append(out, at, &[1, p, 0, x]),
        2 => buffers::append(out, at, &[2, 0, 0, x]),
        3 => buffers::append(out, at, &[3, p, q, 0]),
        4 => buffers::append(out, at, &[4, p, 0, x, 5, p, 0, y]),
        5 => buffers::append(out, at, &[6, p, q, x]),
        6..=255 => at,
    }
}

// The next register is symbol x's.
fn bind(progress: &mut Progress, x: u8)
    requires { progress.old.registers < 255 }
    ensures given { Gives (symbol x) progress.old progress.new }
    ensures at { progress.new.at ≡ progress.old.at }
{
    progress.registers += 1;
    registers::note(&mut progress.symbols, x, progress.registers);
}

// The next registers are those of the symbols that step k binds.
fn bind_step(s: &[u8], k: u8, progress: &mut Progress)
    requires { (code s.now 1 (steps_at s.now) k < 6) × (progress.old.registers < 254) }
    ensures bound { BindsStep s.now k progress.old progress.new }
    ensures at { progress.new.at ≡ progress.old.at }
{
    let x = table_layout::step_field(s, k, 2);
    match table_layout::step_code(s, k) {
        0 | 3 => {}
        4 => {
            bind(progress, x);
            bind(progress, table_layout::step_field(s, k, 3));
        }
        _ => bind(progress, x),
    }
}

// Step k: its terms are built, then come its statements.
fn write_step(s: &[u8], k: u8, progress: &mut Progress, out: &mut [u8])
    requires { (least (table_rungs s.now) ≡ Ok tt) × (k < steps s.now) × SomeReady (step_made s.now k) progress.old out.old }
    ensures { Makes (step_made s.now k) progress.old progress.new out.old out.new }
{
    build_operands(s, k, progress, out);
    progress.at = state_step(s, k, progress, out);
    bind_step(s, k, progress);
}

// All steps.
fn write_steps(s: &[u8], progress: &mut Progress, out: &mut [u8])
    requires { (least (table_rungs s.now) ≡ Ok tt) × AllReady (steps_made s.now 0 (steps s.now)) (at_start s.now) progress.old out.old }
    ensures { out.new ≡ over (statements_bytes (steps_made s.now 0 (steps s.now) (at_start s.now)).0) out.old }
{
    for k in 0..table_layout::step_count(s) {
        write_step(s, k, progress, out);
    }
}

// Writes the statements of a table without faults 1 to 9 into a buffer that has room for them.
fn put_statements(s: &[u8], out: &mut [u8])
    requires { (least (table_rungs s.now) ≡ Ok tt) × (4 * length (translation signature1 halves (table_of s.now)) ≤ length out.old) }
    ensures { out.new ≡ over (statements_bytes (translation signature1 halves (table_of s.now))) out.old }
{
    let mut symbols = [0; 256];
    let registers = registers::note_free(s, &mut symbols);
    let mut progress = Progress {
        symbols,
        terms: [0; 256],
        registers,
        at: 0,
    };
    write_steps(s, &mut progress, out);
}

// Writes the statements of a table without faults 1 to 9 into a buffer that has room for them, else nothing.
pub fn write_statements(s: &[u8], out: &mut [u8])
    ensures { out.new ≡ wrote_if (least (table_rungs s.now)) (statements_bytes (translation signature1 halves (table_of s.now))) out.old }
{
    let a = table::check_table(s);
    let Ok(()) = a else {
        return;
    };
    if 4 * statement_counts::statement_count(s) <= out.len() {
        put_statements(s, out);
    }
}
