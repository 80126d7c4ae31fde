// Types in prefix order: where one ends, a copy of one, and the greatest lower bound of two.
// Each reader starts at a place of any list; nothing is asked of the bytes. What is written goes to the start of a lent buffer.
// The place stands beside the bytes here, in `slots` and in `visible`: a part `&s[p..]` would ask the caller that p lies inside.
#![tactic(auto)]

ghost use Rattle.std.specs.Prelude.{◌≡◌};
ghost use Rattle.types.specs.Prefix.{EndIs};
ghost use Rattle.types.specs.Version1.{codes1};
ghost use Rattle.type_bytes.specs.Ends.{end_of, Past};
ghost use Rattle.type_bytes.specs.Meets.{Copied, Meets, how_of};

use How::{Apart, Ciphertexts, First, Pairs, Second};

// The codes of types: each type starts with one.
pub const MESSAGE: u8 = 0;

pub const NAME: u8 = 1;

pub const CHANNEL: u8 = 2;

pub const SHKEY: u8 = 3;

pub const PAIR: u8 = 4;

pub const CIPHERTEXT: u8 = 5;

// Where the type that starts at p ends, if there is one. One type is wanted at first; each code takes one off, and adds those that follow it.
pub fn type_end(s: &[u8], p: usize) -> Option<usize>
    ensures { EndIs codes1 s.now p (end_of result) }
{
    let mut wanted: usize = 1;
    let mut at = p;
    while 0 < wanted {
        let b = *s.get(at)?;
        at += 1;
        // By the code: it is a byte of any list, and the arm of the unknown ones stands beside the others.
        match b {
            MESSAGE..=SHKEY => wanted -= 1,
            PAIR => wanted += 1,
            CIPHERTEXT => {}
            6..=255 => return None,
        }
    }
    Some(at)
}

// Where the type at p ends; the end of s where there is none.
pub fn past(s: &[u8], p: usize) -> usize
    ensures { Past s.now p result }
{
    type_end(s, p).unwrap_or(s.len())
}

// Copies the type at p of s to the start of out. Answers how many bytes it has; none where there is no type, or it does not fit.
pub fn copy_type(out: &mut [u8], s: &[u8], p: usize) -> Option<usize>
    ensures { Copied s.now p out.old out.new result }
{
    let e = type_end(s, p)?;
    // Both ends lie inside, since `type_end` found them: `get` would add an answer that never comes.
    if buffers::copy(out, &s[p..e]) {
        Some(e - p)
    } else {
        None
    }
}

// How two types meet: the second or the first is the lower bound, there is none, or it goes part by part.
#[derive(Clone, Copy)]
enum How {
    Second,
    First,
    Apart,
    Pairs,
    Ciphertexts,
}

// A row for each code of the first type.
const HOWS: [[How; 6]; 6] = [
    [Second, Second, Second, Second, Second, Second], // Message
    [First, Second, Second, Second, Apart, Apart], // Name
    [First, First, Second, Apart, Apart, Apart], // Channel
    [First, First, Apart, Second, Apart, Apart], // ShKey
    [First, Apart, Apart, Apart, Pairs, Apart], // pair
    [First, Apart, Apart, Apart, Apart, Ciphertexts], // ciphertext
];

// By the codes of two types; unknown codes do not meet.
#[tactic(auto, unfolding(crate::specs::Meets::how_of))]
fn how_codes_meet(x: u8, y: u8) -> How
    ensures { result ≡ how_of x y }
{
    if x < 6 && y < 6 {
        HOWS[base::wide(x)][base::wide(y)]
    } else {
        Apart
    }
}

// Writes the greatest lower bound of the types at p of a and at q of b to the start of out. Answers how many bytes it has; none where
// there is no such bound, or it does not fit. Each piece is written through a part of out that starts behind the one before it, the form
// that document 01 names for types and statements.
pub fn meet(out: &mut [u8], a: &[u8], p: usize, b: &[u8], q: usize) -> Option<usize>
    ensures { Meets a.now p b.now q out.old out.new result }
{
    let code = *a.get(p)?;
    let other = *b.get(q)?;
    if out.is_empty() {
        return None;
    }
    match how_codes_meet(code, other) {
        Second => copy_type(out, b, q),
        First => copy_type(out, a, p),
        Apart => None,
        Pairs => {
            out[0] = code;
            let m = meet(&mut out[1..], a, p + 1, b, q + 1)? + 1;
            let i = past(a, p + 1);
            let j = past(b, q + 1);
            Some(m + meet(&mut out[m..], a, i, b, j)?)
        }
        Ciphertexts => {
            out[0] = code;
            Some(meet(&mut out[1..], a, p + 1, b, q + 1)? + 1)
        }
    }
}
