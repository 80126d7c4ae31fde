// N, the number of statements of a table's translation, known before anything is written: the statements that the steps make due, and
// one for each compound term. Nothing is asked of the caller; what is said of a translation is said where 1 to 9 pass.
#![tactic(auto)]

ghost use Rattle.std.specs.Prelude.{◌≡◌, Ok, ◌+◌, ◌<◌, length};
ghost use Rattle.answers.specs.Ladder.{least};
ghost use Rattle.table.specs.Faults.{table_rungs};
ghost use Rattle.calculus.specs.Version1.{signature1};
ghost use Rattle.rendering.specs.Rendering.{halves};
ghost use Rattle.rendering.specs.Translation.{translation};
ghost use Rattle.decoded.specs.Table.{table_of};
ghost use Rattle.statement_counts.specs.Counts.{due_of, due_count, is_compound, compound_count};

// How many statements step k makes due.
// One test with two answers: a `match` on the code would say no more.
#[tactic(auto, using(crate::proofs::Counts::due_by_code))]
fn due_of(s: &[u8], k: u8) -> usize
    ensures { result ≡ due_of s.now k }
{
    if table_layout::step_code(s, k) == 4 {
        2
    } else {
        1
    }
}

// The number of statements due.
fn due_count(s: &[u8]) -> usize
    ensures counted { result ≡ due_count s.now }
    ensures small { result < 512 }
{
    (0..table_layout::step_count(s)).map(|k| due_of(s, k)).sum()
}

// Term i is compound.
#[tactic(auto, using(crate::proofs::Counts::compound_by_code))]
fn is_compound(s: &[u8], i: u8) -> bool
    ensures { result ≡ is_compound s.now i }
{
    matches!(table_layout::term_code(s, i), 1 | 2)
}

// The number of compound terms.
fn compound_count(s: &[u8]) -> usize
    ensures counted { result ≡ compound_count s.now }
    ensures small { result < 256 }
{
    (0..table_layout::term_count(s))
        .filter(|&i| is_compound(s, i))
        .count()
}

// N, known before anything is written.
#[tactic(auto, using(crate::proofs::Ranged::count_known))]
pub fn statement_count(s: &[u8]) -> usize
    ensures due { result ≡ due_count s.now + compound_count s.now }
    ensures known { least (table_rungs s.now) ≡ Ok tt → result ≡ length (translation signature1 halves (table_of s.now)) }
{
    due_count(s) + compound_count(s)
}
