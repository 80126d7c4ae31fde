// Symbols bound again, and symbols used before they are bound: numbers 8 and 9.
// One pass over the steps finds each symbol's binding step, one over the terms the latest binding step inside each term,
// and one more over the steps compares. A shared term is looked at once, however often it is used.
// The arrays, one by symbol and one by term, hold 0 for none, or a step and 1, so that the later one is `max`: they are fixed memory, which
// `Option<u8>` would double. What they hold stands in clauses: how far an array has come (step k, term i, all) differs from clause to
// clause, so that each would ask a struct for it again. Only two functions take both.
#![tactic(auto)]

ghost use Rattle.std.specs.Prelude.{◌≡◌, [], ◌∷◌, ◌+◌, ◌<◌};
ghost use Rattle.answers.specs.Ladder.{least};
ghost use Rattle.marks.specs.Put.{Put, blank};
ghost use Rattle.table_layout.specs.Layout.{terms, steps};
ghost use Rattle.table_binding.specs.Binding.{is_binder, binds_at, binds, again, twice, binds_new, field_latest, latest, field_in_scope, in_scope, bind_rung, scope_rung, bind_rungs};
ghost use Rattle.table_binding.specs.Tables.{Binders, BindersIf, Latest};

use answers::{Check, File};

// Field j of step k binds a symbol.
pub fn is_binder(s: &[u8], k: u8, j: u8) -> bool
    ensures { result ≡ is_binder s.now k j }
{
    let role = table_layout::step_role(s, k, j);
    role == codes::NAME || role == codes::VARIABLE
}

// Notes step k as the binding step of the symbol in its field j, if that binds one. That k + 1 fits is asked here and in `bind_step` alone:
// a type for such steps would be made for these two.
fn bind_field(binders: &mut [u8; 256], s: &[u8], k: u8, j: u8)
    requires { k < 255 }
    ensures { Put binders.old binders.new (binds_at s.now k j) (k + 1) }
{
    marks::put(
        binders,
        is_binder(s, k, j),
        table_layout::step_field(s, k, j),
        k + 1,
    );
}

// Notes step k as the binding step of its symbols.
fn bind_step(binders: &mut [u8; 256], s: &[u8], k: u8)
    requires { k < 255 }
    ensures { Put binders.old binders.new (binds s.now k) (k + 1) }
{
    bind_field(binders, s, k, 2);
    bind_field(binders, s, k, 3);
}

// Field j of step k binds a symbol that is bound already.
fn binds_again(binders: &[u8; 256], s: &[u8], k: u8, j: u8) -> bool
    requires { Binders s.now k binders.now }
    ensures { result ≡ again s.now k j }
{
    is_binder(s, k, j) && marks::get(binders, table_layout::step_field(s, k, j)) != 0
}

// Step k binds one symbol twice.
fn binds_twice(s: &[u8], k: u8) -> bool
    ensures { result ≡ twice s.now k }
{
    is_binder(s, k, 2)
        && is_binder(s, k, 3)
        && table_layout::step_field(s, k, 2) == table_layout::step_field(s, k, 3)
}

// Step k binds no symbol that is bound already.
fn binds_new(binders: &[u8; 256], s: &[u8], k: u8) -> bool
    requires { Binders s.now k binders.now }
    ensures { result ≡ binds_new s.now k }
{
    !binds_again(binders, s, k, 2) && !binds_again(binders, s, k, 3) && !binds_twice(s, k)
}

// Number 8, and the binding step of each symbol where there is no fault. A `for` and no `find`, since the steps are noted on the way.
fn bind_all(binders: &mut [u8; 256], s: &[u8]) -> Check
    requires { binders.old ≡ blank }
    ensures number { result ≡ least (bind_rung s.now ∷ []) }
    ensures noted { BindersIf s.now binders.new result }
{
    for k in 0..table_layout::step_count(s) {
        if !binds_new(binders, s, k) {
            return answers::refuse(8, File::Table, base::wide(k));
        }
        bind_step(binders, s, k);
    }
    Ok(())
}

// The latest binding step inside field j of term i, given those of the lower terms. A `match` with a guard was tried: it leaves a goal
// under a name of Rattle's own, which no answer may cite.
fn field_latest(binders: &[u8; 256], late: &[u8; 256], s: &[u8], i: u8, j: u8) -> u8
    requires { (Binders s.now (steps s.now) binders.now) × Latest s.now i late.now }
    ensures { result ≡ field_latest s.now (latest s.now i) i j }
{
    let role = table_layout::term_role(s, i, j);
    let v = table_layout::term_field(s, i, j);
    if role == codes::SYMBOL {
        marks::get(binders, v)
    } else if role == codes::PART && v < i {
        marks::get(late, v)
    } else {
        0
    }
}

// The latest binding step inside each term.
fn all_latest(binders: &[u8; 256], late: &mut [u8; 256], s: &[u8])
    requires { (Binders s.now (steps s.now) binders.now) × (late.old ≡ blank) }
    ensures { Latest s.now (terms s.now) late.new }
{
    for i in 0..table_layout::term_count(s) {
        let a = field_latest(binders, late, s, i, 0);
        let b = field_latest(binders, late, s, i, 1);
        marks::put(late, true, i, a.max(b));
    }
}

// Field j of step k is no term, or all that the term holds is bound before step k.
fn field_in_scope(late: &[u8; 256], s: &[u8], k: u8, j: u8) -> bool
    requires { Latest s.now (terms s.now) late.now }
    ensures { result ≡ field_in_scope s.now k j }
{
    let t = table_layout::step_field(s, k, j);
    table_layout::step_role(s, k, j) != codes::IN_TERM
        || table_layout::term_count(s) <= t
        || marks::get(late, t) <= k
}

fn in_scope(late: &[u8; 256], s: &[u8], k: u8) -> bool
    requires { Latest s.now (terms s.now) late.now }
    ensures { result ≡ in_scope s.now k }
{
    field_in_scope(late, s, k, 0) && field_in_scope(late, s, k, 1)
}

// Number 9.
fn check_scope(late: &[u8; 256], s: &[u8]) -> Check
    requires { Latest s.now (terms s.now) late.now }
    ensures { result ≡ least (scope_rung s.now ∷ []) }
{
    match (0..table_layout::step_count(s)).find(|&k| !in_scope(late, s, k)) {
        None => Ok(()),
        Some(k) => answers::refuse(9, File::Table, base::wide(k)),
    }
}

// Numbers 8 and 9.
pub fn check_binding(s: &[u8]) -> Check
    ensures { result ≡ least (bind_rungs s.now) }
{
    let mut binders = [0u8; 256];
    bind_all(&mut binders, s)?;
    let mut late = [0u8; 256];
    all_latest(&binders, &mut late, s);
    check_scope(&late, s)
}
