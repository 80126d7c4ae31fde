// Entries of a code and its fields, of any kind, read from a base offset on. That a file is long enough is its reader's test.
// Terms and values are checked here, since they differ only in their rows: parts are lower, and no entry equals an earlier one.
// Bytes, kind and base stay three parameters, and limits beside them: the specs name them so, and a struct of them would lengthen each
// clause by its fields and each call from outside by its making.
#![tactic(auto)]

ghost use Rattle.std.specs.Prelude.{◌≡◌, [], ◌∷◌};
ghost use Rattle.answers.specs.Files.{file_number};
ghost use Rattle.answers.specs.Ladder.{least};
ghost use Rattle.codes.specs.Kinds.{kind_number};
ghost use Rattle.entries.specs.Fields.{number, place_of, code, field, role, field_ok, fields_ok, entry_ok, same_entry};
ghost use Rattle.entries.specs.Faults.{node_ok, node_rung, alone, twin_rung};

use answers::{Check, File};
use codes::Kind;

// A number of one byte or of two. The size is a cell of `codes`' table, a byte: a `match` on it would want a third arm.
fn number_at(s: &[u8], at: usize, size: u8) -> usize
    ensures { result ≡ number s.now at size }
{
    if size == 2 {
        return base::word_at(s, at);
    }
    base::wide(base::byte_at(s, at))
}

// Where entry i stands.
pub fn place_of(kind: Kind, base: u32, i: u16) -> usize
    ensures { result ≡ place_of (kind_number kind) base i }
{
    base as usize + i as usize * codes::entry_bytes(kind)
}

// Its code. Like a role, it is the byte as it is read, known or not.
pub fn code_at(s: &[u8], kind: Kind, base: u32, i: u16) -> u8
    ensures { result ≡ code s.now (kind_number kind) base i }
{
    base::byte_at(s, place_of(kind, base, i))
}

// Its field j.
pub fn field_at(s: &[u8], kind: Kind, base: u32, i: u16, j: u8) -> usize
    ensures { result ≡ field s.now (kind_number kind) base i j }
{
    let size = codes::field_bytes(kind);
    let at = place_of(kind, base, i) + 1 + base::wide(j) * base::wide(size);
    number_at(s, at, size)
}

// The role of its field j.
pub fn role_at(s: &[u8], kind: Kind, base: u32, i: u16, j: u8) -> u8
    ensures { result ≡ role s.now (kind_number kind) base i j }
{
    codes::cell_at(kind.number(), code_at(s, kind, base, i), j as u16 + 1)
}

// All fields lie below the limits of their roles. A `for` and no `all`, in whose closure what is the same for each field is read for each.
fn fields_ok(s: &[u8], kind: Kind, base: u32, i: u16, limits: &[usize]) -> bool
    ensures { result ≡ fields_ok s.now (kind_number kind) base i limits.now }
{
    let n = codes::field_count(kind.number());
    for j in 0..n {
        if !field_ok(s, kind, base, i, limits, j) {
            return false;
        }
    }
    true
}

// Field j lies below the limit of its role.
fn field_ok(s: &[u8], kind: Kind, base: u32, i: u16, limits: &[usize], j: u8) -> bool
    ensures { result ≡ field_ok s.now (kind_number kind) base i limits.now j }
{
    let role = base::wide(role_at(s, kind, base, i, j));
    role < limits.len() && field_at(s, kind, base, i, j) < limits[role]
}

// An entry whose code the version knows, and whose fields are in range.
pub fn entry_ok(s: &[u8], kind: Kind, version: usize, base: u32, i: u16, limits: &[usize]) -> bool
    ensures { result ≡ entry_ok s.now (kind_number kind) version base i limits.now }
{
    codes::code_known(kind.number(), version, code_at(s, kind, base, i))
        && fields_ok(s, kind, base, i, limits)
}

// A term or a value: its parts are lower.
fn node_ok(s: &[u8], kind: Kind, version: usize, base: u32, symbols: usize, i: u16) -> bool
    ensures { result ≡ node_ok s.now (kind_number kind) version base symbols i }
{
    let limits = codes::limits(i as usize, symbols, codes::atom_kinds(version), 0, 0);
    entry_ok(s, kind, version, base, i, &limits)
}

// Number 5 of the terms or of the values.
pub fn check_nodes(
    s: &[u8],
    kind: Kind,
    file: File,
    version: usize,
    base: u32,
    symbols: usize,
    count: u16,
) -> Check
    ensures { result ≡ least (node_rung s.now (kind_number kind) (file_number file) version base symbols count ∷ []) }
{
    match (0..count).find(|&i| !node_ok(s, kind, version, base, symbols, i)) {
        None => Ok(()),
        Some(i) => answers::refuse(5, file, place_of(kind, base, i)),
    }
}

// Two entries of two fields are equal. They are compared by field and not as two parts of `s`: past its end a field is 0, and `check_twins`
// promises its answer there too.
fn same_entry(s: &[u8], kind: Kind, base: u32, i: u16, j: u16) -> bool
    ensures { result ≡ same_entry s.now (kind_number kind) base i j }
{
    code_at(s, kind, base, i) == code_at(s, kind, base, j)
        && field_at(s, kind, base, i, 0) == field_at(s, kind, base, j, 0)
        && field_at(s, kind, base, i, 1) == field_at(s, kind, base, j, 1)
}

// No earlier entry is equal to entry i.
fn is_alone(s: &[u8], kind: Kind, base: u32, i: u16) -> bool
    ensures { result ≡ alone s.now (kind_number kind) base i }
{
    (0..i).all(|j| !same_entry(s, kind, base, i, j))
}

// Number 6 of the terms or of the values.
pub fn check_twins(s: &[u8], kind: Kind, file: File, base: u32, count: u16) -> Check
    ensures { result ≡ least (twin_rung s.now (kind_number kind) (file_number file) base count ∷ []) }
{
    match (0..count).find(|&i| !is_alone(s, kind, base, i)) {
        None => Ok(()),
        Some(i) => answers::refuse(6, file, i as usize),
    }
}
