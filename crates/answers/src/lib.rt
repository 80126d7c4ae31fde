// The refusal: one number with its file and place. Each layer of a reader answers a `Check`, and `?` passes a refusal on whole.
#![tactic(auto)]

ghost use Rattle.std.specs.Prelude.{◌≡◌, Err};
ghost use Rattle.answers.specs.Ladder.{refusal};
ghost use Rattle.answers.specs.Files.{file_number};

// The three files, and a lent buffer. A refusal names one by its number, which C is given too: 0 to 3 in this order.
#[derive(Clone, Copy, PartialEq, Eq)]
pub enum File {
    Table,
    List,
    Trace,
    Buffer,
}

// Three numbers and no enum: document 01 has a refusal as a number with its file and place, and C is given it so (docs/DECISIONS.md 100).
#[derive(Clone, Copy, PartialEq, Eq)]
pub struct Refusal {
    pub number: u8,
    pub file: u8,
    pub place: u64,
}

// What a layer of tests answers: go on, or the refusal.
pub type Check = Result<(), Refusal>;

// Each call writes its number out, since it is document 01's, by which the rungs of specs/ and the theorems name the test too.
pub fn refuse(number: u8, file: File, place: usize) -> Check
    ensures { result ≡ Err (refusal number (file_number file) place) }
{
    Err(Refusal {
        number,
        file: file as u8,
        place: place as u64,
    })
}
