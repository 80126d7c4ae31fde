// The inference over a role table's bytes: what each step wants of its terms, the keys of the terms that stand in it, and all
// steps from the last to the first. A shared term is visited once a step, and a wanted type is pushed along its own bytes.
#![tactic(auto)]

ghost use Rattle.typing.specs.Marking.{PartsPut, DownPut, StepMarked};
ghost use Rattle.typing.specs.Stages.{KeyPut, KeysPut, SlotPut, PairPut, CipherPut, SplitPut, OpenPut, WantsPut, StepPut, Inferred};
ghost use Rattle.typing.specs.Answers.{TableInferred};

use type_bytes::{CHANNEL, CIPHERTEXT, PAIR, SHKEY};

// The steps from this one on have no typing, and those behind it have one.
#[derive(Clone, Copy, Debug, PartialEq, Eq)]
pub struct NoTyping {
    pub place: u8,
}

// ── The terms that stand in a step ──

// Marks the parts of term u, if it is marked.
// A mark is 0 or 1 and still a byte: `table_naming` writes into the same array, and elsewhere `marks` holds steps and registers.
fn mark_parts(marks: &mut [u8; 256], table: &[u8], u: u8)
    ensures { PartsPut table.now u marks.old marks.new }
{
    if marks::get(marks, u) == 1 && 0 < slots::term_code(table, u) {
        marks::put(marks, true, slots::term_part(table, u, 1), 1);
        marks::put(marks, true, slots::term_part(table, u, 0), 1);
    }
}

// Marks all that stands in a marked term.
fn mark_down(marks: &mut [u8; 256], table: &[u8])
    ensures { DownPut table.now marks.old marks.new }
{
    for u in (0..table_layout::term_count(table)).rev() {
        mark_parts(marks, table, u);
    }
}

// The marks of all that stands in step k.
fn mark_step(table: &[u8], k: u8) -> [u8; 256]
    ensures { StepMarked table.now k result }
{
    let mut marks = [0u8; 256];
    table_naming::mark_use(&mut marks, table, k, 1);
    table_naming::mark_use(&mut marks, table, k, 0);
    mark_down(&mut marks, table);
    marks
}

// ── The keys of what stands in a step ──

// Wants the key of term u as a key, if u is marked and an encryption. None where it cannot be one, and so below.
fn need_key(work: &mut [u8], table: &[u8], u: u8, marked: bool) -> Option<()>
    ensures { KeyPut work.old table.now u marked work.new result }
{
    if marked && slots::term_code(table, u) == 2 {
        slots::push(work, table, slots::term_part(table, u, 1), &[SHKEY], 0)
    } else {
        Some(())
    }
}

// Wants the keys of all marked terms as keys.
fn need_keys(work: &mut [u8], table: &[u8], marks: &[u8; 256]) -> Option<()>
    ensures { KeysPut work.old table.now marks.now work.new result }
{
    for u in 0..table_layout::term_count(table) {
        let marked = marks::get(marks, u) == 1;
        need_key(work, table, u, marked)?;
    }
    Some(())
}

// ── What a step wants of its terms ──

// Copies the type in slot x to the start of out; how many bytes it has.
// Without such a slot that is 0 and no `None`: `put_pair` goes on behind what was written, and would open an `Option` to the same 0.
fn put_slot(out: &mut [u8], work: &[u8], x: u8) -> usize
    ensures { SlotPut work.now x out.old out.new result }
{
    let Some(slot) = slots::slot(work, x) else {
        return 0;
    };
    type_bytes::copy_type(out, slot, 0).unwrap_or(0)
}

// Writes the pair type of the types in slots x and y to the start of out, each through a part that starts behind what stands before it.
fn put_pair(out: &mut [u8; 259], work: &[u8], x: u8, y: u8)
    ensures { PairPut work.now x y out.new }
{
    out[0] = PAIR;
    let n = put_slot(&mut out[1..], work, x);
    put_slot(&mut out[n + 1..], work, y);
}

// Writes the ciphertext type of the type in slot x to the start of out.
fn put_cipher(out: &mut [u8; 259], work: &[u8], x: u8)
    ensures { CipherPut work.now x out.new }
{
    out[0] = CIPHERTEXT;
    put_slot(&mut out[1..], work, x);
}

// A split wants a pair of what it binds.
fn want_pair(work: &mut [u8], table: &[u8], k: u8) -> Option<()>
    ensures { SplitPut work.old table.now k work.new result }
{
    let x = table_layout::step_field(table, k, 2);
    let y = table_layout::step_field(table, k, 3);
    let mut want = [0u8; 259];
    put_pair(&mut want, work, x, y);
    slots::push(work, table, table_layout::step_field(table, k, 0), &want, 0)
}

// A decryption wants a ciphertext of what it binds, and a key.
fn want_cipher(work: &mut [u8], table: &[u8], k: u8) -> Option<()>
    ensures { OpenPut work.old table.now k work.new result }
{
    let mut want = [0u8; 259];
    put_cipher(&mut want, work, table_layout::step_field(table, k, 2));
    slots::push(work, table, table_layout::step_field(table, k, 0), &want, 0)?;
    slots::push(
        work,
        table,
        table_layout::step_field(table, k, 1),
        &[SHKEY],
        0,
    )
}

// Pushes what step k wants of its terms.
fn put_wants(work: &mut [u8], table: &[u8], k: u8) -> Option<()>
    ensures { WantsPut work.old table.now k work.new result }
{
    // By the code, a byte of the table: document 01 asks for a match here, with a range for unknown codes.
    match table_layout::step_code(table, k) {
        0 | 1 => slots::push(
            work,
            table,
            table_layout::step_field(table, k, 0),
            &[CHANNEL],
            0,
        ),
        2 | 3 => Some(()),
        4 => want_pair(work, table, k),
        5 => want_cipher(work, table, k),
        6..=255 => Some(()),
    }
}

// ── A step, and all steps ──

// Step k: what it wants of its terms, then the keys of the terms that stand in it.
fn at_step(work: &mut [u8], table: &[u8], k: u8) -> Option<()>
    ensures { StepPut work.old table.now k work.new result }
{
    put_wants(work, table, k)?;
    let marks = mark_step(table, k);
    need_keys(work, table, &marks)
}

// The steps from the last to the first, below the slots' types.
fn infer_steps(work: &mut [u8], table: &[u8]) -> Result<(), NoTyping>
    ensures { Inferred work.old table.now work.new result }
{
    for k in (0..table_layout::step_count(table)).rev() {
        at_step(work, table, k).ok_or(NoTyping { place: k })?;
    }
    Ok(())
}

// The widest typing of a table without faults 1 to 9, left in the slots; or the place of number 10.
pub fn infer_table(table: &[u8], work: &mut [u8]) -> Result<(), NoTyping>
    ensures { TableInferred table.now work.old work.new result }
{
    slots::start(work, table);
    infer_steps(work, table)
}
