// The value table of a run: values of five bytes from the start of a lent buffer on, and bytes beyond keep their values.
// Past the first so many values, and where a tag is unknown, the plain atom 0 is read, so that no reader asks for a bound.
// A tag is a byte of the value, known or not: 0 an atom, 1 a pair, 2 a ciphertext. It stays a number, since `append` writes messages too,
// whose first byte is a direction, and `find` compares it with bytes.
#![tactic(auto)]

ghost use Rattle.std.specs.Prelude.{◌≡◌};
ghost use Rattle.buffers.specs.Over.{over_if};
ghost use Rattle.value_table.specs.Values.{known, tag_at, part_at, five_bytes};
ghost use Rattle.value_table.specs.Kept.{Appended, Copied, same_at, place_in, Makes};

use codes::Kind;

// A made value: its index, and how many values there are now.
#[derive(Clone, Copy, PartialEq, Eq)]
pub struct Made {
    pub index: u16,
    pub count: u16,
}

// Value i is one of the first so many, and its tag is known.
fn is_known(values: &[u8], count: u16, i: u16) -> bool
    ensures { result ≡ known values.now count i }
{
    i < count && entries::code_at(values, Kind::Value, 0, i) < 3
}

// The tag of value i.
pub fn tag_at(values: &[u8], count: u16, i: u16) -> u8
    ensures { result ≡ tag_at values.now count i }
{
    if is_known(values, count, i) {
        return entries::code_at(values, Kind::Value, 0, i);
    }
    0
}

// Its number j: an atom's kind and number, or the two parts.
pub fn part_at(values: &[u8], count: u16, i: u16, j: u8) -> u16
    ensures { result ≡ part_at values.now count i j }
{
    if is_known(values, count, i) {
        return entries::field_at(values, Kind::Value, 0, i, j) as u16;
    }
    0
}

// Writes a byte and two 16-bit numbers, high byte first.
fn put_numbers(out: &mut [u8], tag: u8, a: u16, b: u16)
    ensures { out.new ≡ over_if (five_bytes tag a b) out.old }
{
    let [a_high, a_low] = a.to_be_bytes();
    let [b_high, b_low] = b.to_be_bytes();
    buffers::copy(out, &[tag, a_high, a_low, b_high, b_low]);
}

// Writes them after n others of five bytes.
// Through a part that starts mid-buffer, the form that document 01 names for types and statements.
pub fn append(out: &mut [u8], n: u16, tag: u8, a: u16, b: u16)
    ensures { Appended out.old n tag a b out.new }
{
    let at = 5 * n as usize;
    if at <= out.len() {
        put_numbers(&mut out[at..], tag, a, b);
    }
}

// Copies the values of a trace.
pub fn copy_values(values: &mut [u8], trace: &[u8])
    ensures { Copied trace.now values.old values.new }
{
    let end = 10 + 5 * trace::value_count(trace) as usize;
    if end <= trace.len() {
        buffers::copy(values, &trace[10..end]);
    }
}

// Value i has this tag and these numbers. One of another tag is passed over at once: a search comes to many such.
// So they are read and compared one by one: a derived `==` would read the whole value first.
fn is_same(values: &[u8], count: u16, i: u16, tag: u8, a: u16, b: u16) -> bool
    ensures { result ≡ same_at values.now count tag a b i }
{
    if 0 < tag && entries::code_at(values, Kind::Value, 0, i) != tag {
        return false;
    }
    tag_at(values, count, i) == tag
        && part_at(values, count, i, 0) == a
        && part_at(values, count, i, 1) == b
}

// The first value that is so.
fn find(values: &[u8], count: u16, tag: u8, a: u16, b: u16) -> Option<u16>
    ensures { result ≡ place_in values.now count tag a b }
{
    (0..count).find(|&i| is_same(values, count, i, tag, a, b))
}

// The index of a value that is made of others, which is appended if it is not yet present.
// This cannot fail: where the count is full it stays, and nothing is written.
pub fn make(values: &mut [u8], count: u16, tag: u8, a: u16, b: u16) -> Made
    ensures { Makes values.old count tag a b values.new result }
{
    if let Some(index) = find(values, count, tag, a, b) {
        return Made { index, count };
    }
    if count == u16::MAX {
        return Made {
            index: count,
            count,
        };
    }
    append(values, count, tag, a, b);
    Made {
        index: count,
        count: count + 1,
    }
}
