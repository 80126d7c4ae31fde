// Number 6 of entries of two fields in time that grows with their count: each is filed by its key, so that an equal one is found
// without comparing all. Whatever the keys, the answer is that of comparing all.
#![tactic(auto)]

ghost use Rattle.std.specs.Prelude.{◌≡◌, [], ◌∷◌};
ghost use Rattle.answers.specs.Files.{file_number};
ghost use Rattle.answers.specs.Ladder.{least};
ghost use Rattle.codes.specs.Kinds.{kind_number};
ghost use Rattle.entries.specs.Faults.{twin_rung};
ghost use Rattle.filing.specs.Filing.{key_of, way_of, AllFree};

use answers::{Check, File};
use codes::Kind;

// An entry of two fields as one number of 40 bits: its code, then its fields. They are numbers already, which `from_be_bytes` would want
// taken apart first.
fn key_at(s: &[u8], kind: Kind, base: u32, i: u16) -> u64
    ensures { result ≡ key_of s.now (kind_number kind) base i }
{
    let op = entries::code_at(s, kind, base, i);
    let left = entries::field_at(s, kind, base, i, 0);
    let right = entries::field_at(s, kind, base, i, 1);
    op as u64 * 4294967296 + left as u64 * 65536 + right as u64
}

// The slots of up to 1,024 filed entries: two below each entry, then the roots. There is no heap, so no map, and no `Box` for the tree.
const SLOTS: usize = 3069;

// Where the way of a key ends: at a slot that is free, or at an entry of that key. A way that is too long or leaves the slots is lost.
// It derives no more: nothing copies, compares or prints it.
#[derive(Drop)]
pub enum Way {
    Free(usize),
    Twin,
    Lost,
}

// The way of a key from its root. A slot holds 0, or an entry's index and 1; below an entry the key's next bit chooses the slot.
// A key has 40 bits, so that 41 entries are enough. Slots are fixed memory, which `Option<u16>` would double.
fn way_of(s: &[u8], kind: Kind, base: u32, slots: &[u16], own: u64) -> Way
    ensures { result ≡ way_of s.now (kind_number kind) base slots.now own }
{
    let mut key = own;
    let mut slot = 2048 + (own % 1021) as usize;
    for _ in 0..41u8 {
        if slots.len() <= slot {
            return Way::Lost;
        }
        let held = slots[slot];
        if held == 0 {
            return Way::Free(slot);
        }
        let at = held - 1;
        if key_at(s, kind, base, at) == own {
            return Way::Twin;
        }
        slot = 2 * at as usize + (key % 2) as usize;
        key /= 2;
    }
    Way::Lost
}

// Number 6 of entries of two fields, over free slots: each entry is filed at the end of its way.
// Where a way is lost, all entries are compared.
fn check_filed(s: &[u8], kind: Kind, file: File, base: u32, slots: &mut [u16], count: u16) -> Check
    requires { AllFree slots.old }
    ensures { result ≡ least (twin_rung s.now (kind_number kind) (file_number file) base count ∷ []) }
{
    for i in 0..count {
        match way_of(s, kind, base, slots, key_at(s, kind, base, i)) {
            Way::Free(slot) => slots[slot] = i + 1,
            Way::Twin => return answers::refuse(6, file, i as usize),
            Way::Lost => return entries::check_twins(s, kind, file, base, count),
        }
    }
    Ok(())
}

// Number 6 of entries of two fields; up to 1,024 of them in time that grows with their count.
pub fn check_unlike(s: &[u8], kind: Kind, file: File, base: u32, count: u16) -> Check
    ensures { result ≡ least (twin_rung s.now (kind_number kind) (file_number file) base count ∷ []) }
{
    let mut slots = [0u16; SLOTS];
    check_filed(s, kind, file, base, &mut slots, count)
}
