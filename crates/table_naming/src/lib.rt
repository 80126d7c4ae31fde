// Terms that equal an earlier one, and terms that nothing names: numbers 6 and 7.
// Naming is found in one pass over the terms and one over the steps, which leave a mark for each term that they name.
// The two passes are alike and stay apart: they share no reader, so that one function for both would take each call as a closure.
#![tactic(auto)]

ghost use Rattle.std.specs.Prelude.{◌≡◌, [], ◌∷◌};
ghost use Rattle.answers.specs.Ladder.{least};
ghost use Rattle.base.specs.Search.{some};
ghost use Rattle.marks.specs.Put.{Put, blank};
ghost use Rattle.table_layout.specs.Layout.{terms, steps};
ghost use Rattle.table_naming.specs.Naming.{part_at, has_part, use_at, uses_term, named, idle_rung, term_rungs};

use answers::{Check, File};
use codes::Kind;

// Marks the part in field j of term e.
fn mark_part(marks: &mut [u8; 256], s: &[u8], e: u8, j: u8)
    ensures { Put marks.old marks.new (part_at s.now e j) 1 }
{
    let wanted = table_layout::term_role(s, e, j) == codes::PART;
    marks::put(marks, wanted, table_layout::term_field(s, e, j), 1);
}

// Marks the parts of term e.
fn mark_parts(marks: &mut [u8; 256], s: &[u8], e: u8)
    ensures { Put marks.old marks.new (has_part s.now e) 1 }
{
    mark_part(marks, s, e, 0);
    mark_part(marks, s, e, 1);
}

// Marks the parts of all terms.
fn mark_all_parts(marks: &mut [u8; 256], s: &[u8])
    ensures { Put marks.old marks.new (λ i. some (λ e. has_part s.now e i) (terms s.now)) 1 }
{
    for e in 0..table_layout::term_count(s) {
        mark_parts(marks, s, e);
    }
}

// Marks the term in field j of step k.
pub fn mark_use(marks: &mut [u8; 256], s: &[u8], k: u8, j: u8)
    ensures { Put marks.old marks.new (use_at s.now k j) 1 }
{
    let wanted = table_layout::step_role(s, k, j) == codes::IN_TERM;
    marks::put(marks, wanted, table_layout::step_field(s, k, j), 1);
}

// Marks the terms of step k.
fn mark_uses(marks: &mut [u8; 256], s: &[u8], k: u8)
    ensures { Put marks.old marks.new (uses_term s.now k) 1 }
{
    mark_use(marks, s, k, 0);
    mark_use(marks, s, k, 1);
}

// Marks the terms of all steps.
fn mark_all_uses(marks: &mut [u8; 256], s: &[u8])
    ensures { Put marks.old marks.new (λ i. some (λ k. uses_term s.now k i) (steps s.now)) 1 }
{
    for k in 0..table_layout::step_count(s) {
        mark_uses(marks, s, k);
    }
}

// The first term without a mark. A mark is a byte, 0 or 1, since `marks` and its law serve arrays of steps too; made generic for bools they
// would be no plainer.
fn first_idle(marks: &[u8; 256], s: &[u8]) -> Check
    requires { Put blank marks.now (named s.now) 1 }
    ensures { result ≡ least (idle_rung s.now ∷ []) }
{
    match (0..table_layout::term_count(s)).find(|&i| marks::get(marks, i) == 0) {
        None => Ok(()),
        Some(i) => answers::refuse(7, File::Table, base::wide(i)),
    }
}

// Number 7.
fn check_named(s: &[u8]) -> Check
    ensures { result ≡ least (idle_rung s.now ∷ []) }
{
    let mut marks = [0u8; 256];
    mark_all_parts(&mut marks, s);
    mark_all_uses(&mut marks, s);
    first_idle(&marks, s)
}

// Numbers 6 and 7.
pub fn check_terms(s: &[u8]) -> Check
    ensures { result ≡ least (term_rungs s.now) }
{
    let count = table_layout::term_count(s) as u16;
    filing::check_unlike(s, Kind::Term, File::Table, table_layout::terms_at(s), count)?;
    check_named(s)
}
