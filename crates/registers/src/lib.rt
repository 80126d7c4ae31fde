// Which register holds each symbol and each compound term: two arrays. An array holds the mark of each thing of its sort: one more than
// its register, and 0 where it has none yet. Nothing is asked of the caller.
// A mark is a byte and no `Option<u8>`, which takes two: the arrays are fixed memory.
#![tactic(auto)]

ghost use Rattle.std.specs.Prelude.{◌≡◌};
ghost use Rattle.registers.specs.Held.{held_at, register_in, settled, Noted, FreeNoted};

// Notes a mark at a place; an earlier one stays.
#[tactic(auto, using(marks::proofs::PutLaws::put_one, marks::proofs::PutLaws::put_none))]
pub fn note(array: &mut [u8; 256], at: u8, mark: u8)
    ensures { Noted array.old array.new at mark }
{
    let place = base::wide(at);
    if array[place] == 0 {
        array[place] = mark;
    }
}

// The mark of term i.
#[tactic(auto, unfolding(crate::specs::Held::held_at))]
fn held_at(s: &[u8], i: u8, symbols: &[u8; 256], terms: &[u8; 256]) -> u8
    ensures { result ≡ held_at s.now i symbols.now terms.now }
{
    if table_layout::term_code(s, i) == 0 {
        marks::get(symbols, table_layout::term_field(s, i, 0))
    } else {
        marks::get(terms, i)
    }
}

// The register of term i, the next one where there is none.
#[tactic(auto, unfolding(crate::specs::Held::register_in))]
pub fn register_of(s: &[u8], i: u8, symbols: &[u8; 256], terms: &[u8; 256], registers: u8) -> u8
    ensures { result ≡ register_in s.now i symbols.now terms.now registers }
{
    match held_at(s, i, symbols, terms) {
        0 => registers,
        mark => mark - 1,
    }
}

// Nothing is to be built: the term is a symbol, or it is built.
#[tactic(auto, unfolding(crate::specs::Held::settled))]
pub fn is_settled(s: &[u8], i: u8, terms: &[u8; 256]) -> bool
    ensures { result ≡ settled s.now i terms.now }
{
    table_layout::term_code(s, i) == 0 || marks::get(terms, i) != 0
}

// Notes the registers of the free symbols, by index. Answers how many there are.
pub fn note_free(s: &[u8], symbols: &mut [u8; 256]) -> u8
    ensures { FreeNoted s.now symbols.old symbols.new result }
{
    let mut free = [0u8; 256];
    let registers = free_symbols::list_free(s, &mut free);
    for i in 0..registers {
        note(symbols, marks::get(&free, i), i + 1);
    }
    registers
}
