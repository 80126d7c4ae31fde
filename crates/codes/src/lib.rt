// The codes of the three files as tables that every reader consults: marks and headers, and for each code of an entry the
// version that knows it and the role of each field. Request a), e) and h) of document 02 add rows, and no reader changes.
#![tactic(auto)]

ghost use Rattle.std.specs.Prelude.{◌≡◌};
ghost use Rattle.codes.specs.Rows.{cell, fields, field_bytes, width, known, atom_kinds, limits_of};
ghost use Rattle.codes.specs.Types.{type_parts, type_known};
ghost use Rattle.codes.specs.Marks.{mark, header};
ghost use Rattle.codes.specs.Kinds.{kind_number};

// The mark of each file, and the bytes of its header. These and the tables below are flat arrays of bytes: document 01 asks for constant
// tables, and they stand as specs/ has them. `cell_at` promises the byte of any code and column, past a row's end too, which an array of
// rows does not give.
const MARKS: [u8; 9] = *b"SPTSPLSPX";

const HEADERS: [u8; 3] = [8, 8, 10];

// Byte j of a file's mark.
#[tactic(auto, unfolding(crate::specs::Marks::mark))]
pub fn mark_byte(file: u8, j: u8) -> u8
    ensures { result ≡ mark file j }
{
    base::byte_at(&MARKS, file as usize * 3 + j as usize)
}

// The bytes of a file's header.
#[tactic(auto, unfolding(crate::specs::Marks::header))]
pub fn header_bytes(file: u8) -> usize
    ensures { result ≡ header file }
{
    base::byte_at(&HEADERS, file as usize) as usize
}

// The four kinds of entries, in the order of their rows.
#[derive(Clone, Copy, PartialEq, Eq)]
pub enum Kind {
    Term,
    Step,
    Statement,
    Value,
}

impl Kind {
    // Its number: the place of its rows, and of its columns in the tables below.
    pub fn number(self) -> u8
        ensures { result ≡ kind_number self }
    {
        self as u8
    }
}

// The roles of a field: not used; a lower entry; a symbol; an atom's kind; any number; a term; a name that is bound; a variable
// that is bound; a register. Each is an index into the limits of an entry. They are bytes and no enum, as cells of `ROWS`, the table that
// document 01 asks for; beside them it has versions, and 0 or 1.
pub const NONE: u8 = 0;

pub const PART: u8 = 1;

pub const SYMBOL: u8 = 2;

pub const KIND: u8 = 3;

pub const NUMBER: u8 = 4;

pub const IN_TERM: u8 = 5;

pub const NAME: u8 = 6;

pub const VARIABLE: u8 = 7;

pub const REGISTER: u8 = 8;

// A row for each code of each kind of entry: the first version that knows it, then the role of each field.
// A statement's last column says whether it gives a register.
const ROWS: [u8; 105] = [
    1, 2, 0, 0, 0, // term 0, a symbol
    1, 1, 1, 0, 0, // term 1, a pair
    1, 1, 1, 0, 0, // term 2, an encryption
    1, 5, 5, 0, 0, // step 0, output b on a
    1, 5, 0, 7, 0, // step 1, input on a, binds x
    1, 0, 0, 6, 0, // step 2, restriction, binds x
    1, 5, 5, 0, 0, // step 3, match a with b
    1, 5, 0, 7, 7, // step 4, split a, binds x and y
    1, 5, 5, 7, 0, // step 5, decrypt a with b, binds x
    1, 8, 8, 0, 0, // statement 0, send q on p
    1, 8, 0, 2, 1, // statement 1, receive on p into s
    1, 0, 0, 2, 1, // statement 2, fresh name s
    1, 8, 8, 0, 0, // statement 3, compare p, q
    1, 8, 0, 2, 1, // statement 4, left part of p into s
    1, 8, 0, 2, 1, // statement 5, right part of p into s
    1, 8, 8, 2, 1, // statement 6, decrypt p with q into s
    1, 8, 8, 0, 1, // statement 7, pair of p, q
    1, 8, 8, 0, 1, // statement 8, encrypt p under q
    1, 3, 4, 0, 0, // value 0, an atom
    1, 1, 1, 0, 0, // value 1, a pair
    1, 1, 1, 0, 0, // value 2, a ciphertext
];

// For each kind of entry: its first row, its number of fields, the bytes of a field, and those of the entry.
const FIRST: [u8; 4] = [0, 3, 9, 18];

const FIELDS: [u8; 4] = [2, 4, 3, 2];

const FIELD_BYTES: [u8; 4] = [1, 1, 1, 2];

const ENTRY_BYTES: [u8; 4] = [3, 5, 4, 5];

// A column of the row of a code. Code and cell are bytes: a file may hold any code, and a cell is a version, a role, or 0 or 1.
#[tactic(auto, unfolding(crate::specs::Rows::cell))]
pub fn cell_at(kind: u8, op: u8, column: u16) -> u8
    ensures { result ≡ cell kind op column }
{
    let row = base::byte_at(&FIRST, kind as usize) as usize + op as usize;
    base::byte_at(&ROWS, row * 5 + column as usize)
}

// The number of fields of an entry. This, `field_bytes`, `entry_bytes` and `header_bytes` each name a table: one function for them would
// take it from each caller, and is `base::byte_at`.
#[tactic(auto, unfolding(crate::specs::Rows::fields))]
pub fn field_count(kind: u8) -> u8
    ensures { result ≡ fields kind }
{
    base::byte_at(&FIELDS, kind as usize)
}

// The bytes of a field of an entry.
#[tactic(auto, unfolding(crate::specs::Rows::field_bytes))]
pub fn field_bytes(kind: Kind) -> u8
    ensures { result ≡ field_bytes (kind_number kind) }
{
    base::byte_at(&FIELD_BYTES, kind as usize)
}

// The bytes of an entry: its code, then its fields.
#[tactic(auto, unfolding(crate::specs::Rows::width))]
pub fn entry_bytes(kind: Kind) -> usize
    ensures { result ≡ width (kind_number kind) }
{
    base::byte_at(&ENTRY_BYTES, kind as usize) as usize
}

// Whether a version knows the code of an entry of a kind. A known code has a row, whose first column says since which version.
// Document 01 asks for a match here, with a range for unknown codes. The kind is a byte, as at `cell_at`: of one that is none, `kind_none`
// says that no code is known.
#[tactic(auto, unfolding(crate::specs::Rows::known, crate::specs::Rows::rows, base::specs::Bytes::byte))]
pub fn code_known(kind: u8, version: usize, op: u8) -> bool
    ensures { result ≡ known kind version op }
{
    match (kind, op) {
        (0 | 3, 0..=2) | (1, 0..=5) | (2, 0..=8) => cell_at(kind, op, 0) as usize <= version,
        (0..=255, 0..=255) => false,
    }
}

// The atom kinds that a version knows.
const ATOM_KINDS: [u8; 2] = [0, 3];

#[tactic(auto, unfolding(crate::specs::Rows::atom_kinds))]
pub fn atom_kinds(version: usize) -> usize
    ensures { result ≡ atom_kinds version }
{
    base::byte_at(&ATOM_KINDS, version) as usize
}

// The limit of each role's number: a field is in range if it lies below the limit of its role. An unused field is 0.
pub fn limits(
    parts: usize,
    symbols: usize,
    kinds: usize,
    terms: usize,
    registers: usize,
) -> [usize; 9]
    ensures { result ≡ limits_of parts symbols kinds terms registers }
{
    [
        1, parts, symbols, kinds, 65536, terms, symbols, symbols, registers,
    ]
}

// For each type code, the version that knows it and how many types follow it.
const TYPES: [u8; 12] = [
    1, 0, // Message
    1, 0, // Name
    1, 0, // Channel
    1, 0, // ShKey
    1, 2, // pair
    1, 1, // ciphertext
];

// How many types follow a type code, which is any byte of a file; none follow an unknown one.
#[tactic(auto, unfolding(crate::specs::Types::type_parts))]
pub fn type_parts(code: u8) -> usize
    ensures { result ≡ type_parts code }
{
    base::byte_at(&TYPES, code as usize * 2 + 1) as usize
}

// Whether a version knows the type code: a match, as at `code_known`.
#[tactic(auto, unfolding(crate::specs::Types::type_known))]
pub fn type_known(version: usize, code: u8) -> bool
    ensures { result ≡ type_known version code }
{
    match code {
        0..=5 => base::byte_at(&TYPES, code as usize * 2) as usize <= version,
        6..=255 => false,
    }
}
