// The free symbols of a role table, by index: those that no step binds. Nothing is asked of the caller; what is said of a table
// is said where 1 to 9 pass.
#![tactic(auto)]

ghost use Rattle.std.specs.Prelude.{◌≡◌, Ok};
ghost use Rattle.answers.specs.Ladder.{least};
ghost use Rattle.marks.specs.Put.{Put};
ghost use Rattle.table.specs.Faults.{table_rungs};
ghost use Rattle.table_binding.specs.Binding.{binds_at, binds};
ghost use Rattle.decoded.specs.Table.{free_count};
ghost use Rattle.free_symbols.specs.Free.{is_bound, FreeListed};

// Marks the symbol that field j of step k binds, if it binds one.
// The marking functions are like those of `table_binding` and `table_naming` and stay apart: the former note steps and require k < 255,
// where nothing is asked here; with the latter they share no reader. A mark is 0 or 1 and still a byte, and the array has a place for every
// byte: `marks` takes such arrays, for steps and registers too, and a struct around one would be opened at each call.
#[tactic(auto, using(marks::proofs::PutLaws::put_as))]
fn mark_field(s: &[u8], k: u8, j: u8, bound: &mut [u8; 256])
    ensures { Put bound.old bound.new (binds_at s.now k j) 1 }
{
    marks::put(
        bound,
        table_binding::is_binder(s, k, j),
        table_layout::step_field(s, k, j),
        1,
    );
}

// Marks the symbols that step k binds.
#[tactic(auto, using(marks::proofs::PutLaws::put_both), unfolding(table_binding::specs::Binding::binds))]
fn mark_step(s: &[u8], k: u8, bound: &mut [u8; 256])
    ensures { Put bound.old bound.new (binds s.now k) 1 }
{
    mark_field(s, k, 2, bound);
    mark_field(s, k, 3, bound);
}

// Marks all symbols that a step binds.
fn mark_bound(s: &[u8], bound: &mut [u8; 256])
    ensures { Put bound.old bound.new (is_bound s.now) 1 }
{
    for k in 0..table_layout::step_count(s) {
        mark_step(s, k, bound);
    }
}

// Lists the free symbols, by index. Answers how many there are. The lent array is fixed memory with a place for every byte, so that a
// caller may index it by any byte; an `ArrayVec` would want a bound there.
pub fn list_free(s: &[u8], list: &mut [u8; 256]) -> u8
    ensures { FreeListed s.now list.old list.new result }
{
    let mut bound = [0u8; 256];
    mark_bound(s, &mut bound);
    let mut count = 0;
    for x in 0..table_layout::symbol_count(s) {
        let is_free = marks::get(&bound, x) == 0;
        if is_free {
            list[base::wide(count)] = x;
            count += 1;
        }
    }
    count
}

// The number of free symbols.
pub fn free_count(s: &[u8]) -> u16
    ensures { least (table_rungs s.now) ≡ Ok tt → result ≡ free_count s.now }
{
    let mut list = [0u8; 256];
    u16::from(list_free(s, &mut list))
}
