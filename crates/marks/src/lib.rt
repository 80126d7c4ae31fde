// Marks in an array that has a place for every byte, so that no index can be out of range.
// It is a plain array, lent as it is: a struct with these as methods would put its field's name into each clause of the callers.
#![tactic(auto)]

ghost use Rattle.std.specs.Prelude.{◌≡◌, eqb, get_or};
ghost use Rattle.base.specs.Pick.{both};
ghost use Rattle.marks.specs.Put.{Put};

// Puts a value at a place, if that is wanted.
pub fn put(marks: &mut [u8; 256], wanted: bool, at: u8, value: u8)
    ensures { Put marks.old marks.new (λ i. both wanted (eqb at i)) value }
{
    if wanted {
        marks[base::wide(at)] = value;
    }
}

// What stands at a place.
pub fn get(marks: &[u8; 256], at: u8) -> u8
    ensures { result ≡ get_or marks.now at 0 }
{
    marks[base::wide(at)]
}
