// The role table: numbers 1 to 9, layer by layer, and what was read.
#![tactic(auto)]

ghost use Rattle.std.specs.Prelude.{◌≡◌};
ghost use Rattle.answers.specs.Ladder.{least};
ghost use Rattle.table.specs.Faults.{table_rungs};
ghost use Rattle.table.specs.Read.{table_read};

use answers::{Check, Refusal};

// The counts of symbols, terms and steps. The parts themselves are read by index, in `table_layout`.
#[derive(Clone, Copy, PartialEq, Eq)]
pub struct Counts {
    pub symbols: u8,
    pub terms: u8,
    pub steps: u8,
}

// Numbers 1 to 9.
pub fn check_table(s: &[u8]) -> Check
    ensures { result ≡ least (table_rungs s.now) }
{
    table_layout::check_frame(s)?;
    table_layout::check_entries(s)?;
    table_naming::check_terms(s)?;
    table_binding::check_binding(s)
}

// The least fault, or what was read.
pub fn read_table(s: &[u8]) -> Result<Counts, Refusal>
    ensures { result ≡ table_read s.now }
{
    check_table(s)?;
    Ok(Counts {
        symbols: table_layout::symbol_count(s),
        terms: table_layout::term_count(s),
        steps: table_layout::step_count(s),
    })
}
