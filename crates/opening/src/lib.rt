// How each of the three files is framed: numbers 1 to 4.
#![tactic(auto)]

ghost use Rattle.std.specs.Prelude.{◌≡◌, Err};
ghost use Rattle.answers.specs.Ladder.{refusal, least};
ghost use Rattle.opening.specs.Opening.{marked, open_rungs, framed};

use answers::{Check, Refusal};

// The whole header is there, and the mark is the file's.
#[tactic(auto, unfolding(crate::specs::Opening::marked))]
fn is_marked(s: &[u8], file: u8) -> bool
    ensures { result ≡ marked file s.now }
{
    codes::header_bytes(file) <= s.len()
        && base::byte_at(s, 0) == codes::mark_byte(file, 0)
        && base::byte_at(s, 1) == codes::mark_byte(file, 1)
        && base::byte_at(s, 2) == codes::mark_byte(file, 2)
}

// A fault of the whole file.
fn refuse(number: u8, file: u8) -> Check
    ensures { result ≡ Err (refusal number file 0) }
{
    Err(Refusal {
        number,
        file,
        place: 0,
    })
}

// Numbers 1 and 2 of a file.
fn opened(s: &[u8], file: u8) -> Check
    ensures { result ≡ least (open_rungs file s.now) }
{
    if !is_marked(s, file) {
        return refuse(1, file);
    }
    if base::word_at(s, 3) == 1 {
        return Ok(());
    }
    refuse(2, file)
}

// Numbers 1 to 4 of a file: its reader says whether the counts are within their limits, and whether the length is what they say.
// Two bools: what is tested is each file's own, and a closure or a trait in their place would be called here once and say no more.
pub fn check_frame(s: &[u8], file: u8, counts: bool, size: bool) -> Check
    ensures { result ≡ least (framed file s.now counts size) }
{
    opened(s, file)?;
    if !counts {
        return refuse(3, file);
    }
    if !size {
        return refuse(4, file);
    }
    Ok(())
}
