// What the programs write: a refusal as one line, `refused`, number, file, place in decimal with single spaces and a final line feed;
// or `accepted`.
#![tactic(auto)]

ghost use Rattle.std.specs.Prelude.{◌+◌, ◌≤◌, length};
ghost use Rattle.lines.specs.Lines.{NumberPut, LinePut, CheckPut};

use answers::{Check, Refusal};

// Writes a space and a number in decimal at a place, and answers the place after them.
fn put_number(out: &mut [u8], at: usize, n: u64) -> usize
    requires { at + 21 ≤ length out.old }
    ensures { NumberPut n at out.old out.new result }
{
    let mut digits = [0; 20];
    let k = io::decimal(n, &mut digits);
    let after = buffers::append(out, at, b" ");
    buffers::append(out, after, &digits[..k])
}

// The line of a refusal at the start of a buffer of 71 bytes or more, and its length.
// Not by `write!`: it says what is written if it succeeds, and not that it succeeds where there is room.
pub fn put_refusal(out: &mut [u8], x: Refusal) -> usize
    ensures { LinePut x out.old out.new result }
{
    if out.len() < 71 {
        return 0;
    }
    let a = buffers::append(out, 0, b"refused");
    let b = put_number(out, a, x.number as u64);
    let c = put_number(out, b, x.file as u64);
    let d = put_number(out, c, x.place);
    buffers::append(out, d, b"\n")
}

// The line of a check at the start of a buffer of 71 bytes or more, and its length.
pub fn put_check(out: &mut [u8], check: Check) -> usize
    ensures { CheckPut check out.old out.new result }
{
    let Err(x) = check else {
        if out.len() < 71 {
            return 0;
        }
        return buffers::append(out, 0, b"accepted\n");
    };
    put_refusal(out, x)
}
