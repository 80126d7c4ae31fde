// What every reader shares: reads that answer at any place.
// A byte past the end reads as 0, so no reader asks its caller for a bound; that a file is long enough is a test of its own.
#![tactic(auto)]

ghost use Rattle.std.specs.Prelude.{◌≡◌};
ghost use Rattle.base.specs.Bytes.{byte, word};

// A byte as a number that can be an index.
pub fn wide(x: u8) -> usize
    ensures { result ≡ x }
{
    x as usize
}

// The byte at a place.
pub fn byte_at(s: &[u8], at: usize) -> u8
    ensures { result ≡ byte s.now at }
{
    if at < s.len() {
        return s[at];
    }
    0
}

// The 16-bit number at a place, high byte first.
pub fn word_at(s: &[u8], at: usize) -> usize
    ensures { result ≡ word s.now at }
{
    if at < s.len() {
        return wide(byte_at(s, at)) * 256 + wide(byte_at(s, at + 1));
    }
    0
}
