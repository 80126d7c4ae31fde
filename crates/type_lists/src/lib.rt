// The types in the slots as a list has them: a length byte and the type's bytes, one after the other. Their bytes are counted
// before the first is written.
#![tactic(auto)]

ghost use Rattle.type_lists.specs.Lists.{TypeIs, SizeIs, TypePut, TypesPut};

// The bytes of the type in slot x, as the part of the slots that holds them; none where there is no slot x.
// An empty part says none, since no type has 0 bytes: each caller would open an `Option` to the empty part.
pub fn slot_type<'a>(work: &'a [u8], x: u8) -> &'a [u8]
    ensures { TypeIs work.now x result.now }
{
    let Some(slot) = slots::slot(work, x) else {
        return &[];
    };
    let Some(n) = type_bytes::type_end(slot, 0) else {
        return &[];
    };
    // The end lies inside, since `type_end` found it: `get` would add an answer that never comes.
    &slot[..n]
}

// How many bytes the types of the first n slots have, with their length bytes.
pub fn types_size(work: &[u8], n: u8) -> usize
    ensures { SizeIs work.now n result }
{
    let mut size = 0;
    for x in 0..n {
        size += slot_type(work, x).len() + 1;
    }
    size
}

// Writes the type in slot x with its length byte. Answers how many bytes were written; none where they do not fit.
// None is 0 and no `None`: `put_types` adds up what was written.
fn put_type(out: &mut [u8], work: &[u8], x: u8) -> usize
    ensures { TypePut work.now x out.old out.new result }
{
    let t = slot_type(work, x);
    let m = t.len() + 1;
    if out.len() < m {
        return 0;
    }
    // A type in a slot has at most 129 bytes: `try_from` would add an answer that never comes.
    out[0] = t.len() as u8;
    buffers::copy(&mut out[1..], t);
    m
}

// Writes the types of the first n slots, each through a part that starts where the one before it ends.
// Document 01 asks for that form by name, here and in `put_type`; so the place is carried along.
pub fn put_types(out: &mut [u8], work: &[u8], n: u8)
    ensures { TypesPut work.now n out.old out.new }
{
    let mut at = 0;
    for x in 0..n {
        at += put_type(&mut out[at..], work, x);
    }
}
