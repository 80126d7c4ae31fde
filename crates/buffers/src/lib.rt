// Writers at the start of a lent buffer: bytes beyond what is written keep their values.
// A writer that finds its buffer too short answers false and writes nothing. To write mid-buffer, lend a part that starts there.
#![tactic(auto)]

ghost use Rattle.std.specs.Prelude.{◌≡◌, ◌+◌, ◌<◌, ◌≤◌, leb, length};
ghost use Rattle.buffers.specs.Over.{over_if, Appended};

// Copies bytes. Byte by byte: with `copy_from_slice` the archive for C would need `memmove` from outside, and it asks for `memcpy` and
// `memset` alone.
pub fn copy(out: &mut [u8], bytes: &[u8]) -> bool
    ensures fits { result ≡ leb (length bytes.now) (length out.old) }
    ensures written { out.new ≡ over_if bytes.now out.old }
{
    if bytes.len() > out.len() {
        return false;
    }
    for i in 0..bytes.len() {
        out[i] = bytes[i];
    }
    true
}

// Copies bytes to a place, and answers the place after them. Bytes that do not fit there are not copied, and the place is answered.
// The part that starts mid-buffer is document 01's form; buffer and place stay two, since callers promise things of the whole buffer.
#[tactic(auto, using(crate::proofs::OverLaws::part_appended))]
pub fn append(out: &mut [u8], at: usize, bytes: &[u8]) -> usize
    ensures appended { at + length bytes.now ≤ length out.old → Appended bytes.now at out.old out.new result }
    ensures short { length out.old < at + length bytes.now → (out.new ≡ out.old) × (result ≡ at) }
{
    if at > out.len() || bytes.len() > out.len() - at {
        return at;
    }
    copy(&mut out[at..], bytes);
    at + bytes.len()
}
