// The compile program: a role table on standard input, its list or one refusal line on standard output.
#![tactic(auto)]

ghost use Rattle.std.specs.Io.KnownBytes.{Consumes, IsAtEnd};
ghost use Rattle.std.specs.Prelude.{◌<◌, ◌≤◌, IfOk, length, take};
ghost use Rattle.compile.specs.Printed.{ListPrinted};

use std::io::{self, Read, Write};

// What is written for a table, at the start of a buffer of 16,384 bytes, and its length.
fn print(table: &[u8], out: &mut [u8]) -> usize
    ensures { ListPrinted table.now out.old out.new result }
{
    match compile_service::compile(table, out) {
        Ok(n) => n,
        Err(x) => lines::put_refusal(out, x),
    }
}

// Reads until the buffer is full or the input ends, and answers how many bytes there are.
fn read_full<R: Read>(from: &mut R, bytes: &mut [u8]) -> io::Result<usize>
    ensures room { IfOk result (λ n. n ≤ length bytes.new) }
    ensures read { IfOk result (λ n. Consumes (R.remaining from.old) (R.remaining from.new) (take n bytes.new)) }
    ensures whole { IfOk result (λ n. n < length bytes.new → IsAtEnd (R.remaining from.new)) }
{
    let mut done = 0;
    while done < bytes.len() {
        let n = from.read(&mut bytes[done..])?;
        if n == 0 {
            break;
        }
        done += n;
    }
    Ok(done)
}

// One byte past the longest table is read, and no more: a longer file has number 4 at the latest, whatever follows.
fn main(rt: HostRuntime) -> io::Result<()> {
    let mut table = [0u8; 809];
    let n = read_full(&mut rt.stdin(), &mut table)?;
    let mut out = [0u8; 16384];
    let k = print(&table[..n], &mut out);
    rt.stdout().write_all(&out[..k])
}
