// Freshness over a run's value table: a supplied value is fresh if it occurs in no value that a register holds for a symbol.
// Values are shared, so none is unfolded: there is one mark a value. Held values are marked, then, from the last value down, the parts of
// marked ones, since parts are lower.
#![tactic(auto)]

ghost use Rattle.std.specs.Prelude.{◌≡◌, ◌+◌, ◌*◌, ◌<◌, ◌≤◌, length};
ghost use Rattle.base.specs.Bytes.{byte, word};
ghost use Rattle.freshness.specs.Marks.{OneMarked, PartsMarked, DownMarked, RegisterMarked, HeldMarked};
ghost use Rattle.freshness.specs.Fresh.{FreshBy};

use run_parts::Registers;

// One mark a value. A run has at most 1,536 values: 1,024 of the trace, and one for each of 512 statements.
// A name and no struct: nothing stands beside the array, and that a place lies inside is said of the values.
type Marks = [bool; 1536];

// The values of a run: no more than there are marks, and the table has room for them. These bounds are tested once, before the passes,
// which then read without a test, where `value_table` tests each read: the passes are the longest part of a fresh name.
// That an index lies below the count stays a clause of each: a type of such indexes would be made anew at each read.
#[derive(Clone, Copy)]
struct Values<'a> {
    table: &'a [u8],
    count: u16,
    ghost few: { count ≤ 1536 },
    ghost whole: { 5 * count ≤ length table.now },
}

impl Values<'_> {
    // The tag of value i.
    fn tag(&self, i: u16) -> u8
        requires { i < self.now.count }
        ensures { result ≡ byte self.now.table.now (5 * i) }
    {
        self.table[5 * i as usize]
    }

    // Its number j.
    fn part(&self, i: u16, j: usize) -> u16
        requires value { i < self.now.count }
        requires number { j < 2 }
        ensures { result ≡ word self.now.table.now (5 * i + 1 + 2 * j) }
    {
        let at = 5 * i as usize + 1 + 2 * j;
        u16::from_be_bytes([self.table[at], self.table[at + 1]])
    }
}

// Marks value w, if it is one of the first so many.
// The marking functions are like those of `typing`, over terms, and stay apart: those read through `slots`, which tests each place.
fn mark(marks: &mut Marks, below: u16, w: u16)
    requires { below ≤ 1536 }
    ensures { OneMarked below w marks.old marks.new }
{
    if w < below {
        marks[w as usize] = true;
    }
}

// Marks the parts of value u, if it is marked.
fn mark_parts(marks: &mut Marks, values: &Values, u: u16)
    requires { u < values.now.count }
    ensures { PartsMarked values.now.table.now u marks.old marks.new }
{
    if !marks[u as usize] {
        return;
    }
    let tag = values.tag(u);
    if 0 < tag && tag < 3 {
        mark(marks, u, values.part(u, 0));
        mark(marks, u, values.part(u, 1));
    }
}

// Marks all that lies above v and occurs in a marked value, and v if it does.
fn mark_down(marks: &mut Marks, values: &Values, v: u16)
    requires { v < values.now.count }
    ensures { DownMarked values.now.table.now values.now.count v marks.old marks.new }
{
    for u in (v + 1..values.count).rev() {
        mark_parts(marks, values, u);
    }
}

// Marks the value in a register of this number, if that means a symbol.
fn mark_register(marks: &mut Marks, values: &Values, number: u32)
    ensures { RegisterMarked number values.now.count marks.old marks.new }
{
    if number % 2 == 1 {
        mark(marks, values.count, (number / 2 % 65536) as u16);
    }
}

// Marks the values in registers that mean symbols.
fn mark_held(marks: &mut Marks, values: &Values, registers: &Registers, given: u16)
    requires { given ≤ 608 }
    ensures { HeldMarked registers.now given values.now.count marks.old marks.new }
{
    for &number in &registers[..given as usize] {
        mark_register(marks, values, number);
    }
}

// v occurs in no value that a register holds for a symbol. Where there are more values or registers than a run can have, the answer is no.
pub fn is_fresh(values: &[u8], count: u16, registers: &Registers, given: u16, v: u16) -> bool
    ensures { FreshBy values.now count registers.now given v result }
{
    if count <= v {
        return true;
    }
    if 1536 < count || 608 < given || values.len() < 5 * count as usize {
        return false;
    }
    let values = Values {
        table: values,
        count,
    };
    let mut marks = [false; 1536];
    mark_held(&mut marks, &values, registers, given);
    mark_down(&mut marks, &values, v);
    !marks[v as usize]
}
