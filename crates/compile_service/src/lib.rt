// The compile service: the statement list of a role table, or a refusal, which writes nothing. The bytes needed are known before
// the first is written. Each part of the list is written through a part of the lent buffer that starts mid-buffer.
#![tactic(auto)]

ghost use Rattle.std.specs.Prelude.{◌≡◌, ◌≤◌, ◌<◌, length};
ghost use Rattle.buffers.specs.Over.{over};
ghost use Rattle.decoded_list.specs.Bytes.{header_bytes};
ghost use Rattle.type_service.specs.Services.{Answered};
ghost use Rattle.compile_service.specs.Files.{list_file};

use answers::{File, Refusal};

// Writes the header of a list: mark, version 1, S, and N with its high byte first.
fn put_header(out: &mut [u8], symbols: u8, statements: usize)
    requires { (statements < 65536) × (8 ≤ length out.old) }
    ensures { out.new ≡ over (header_bytes symbols statements) out.old }
{
    let header = [
        codes::mark_byte(File::List as u8, 0),
        codes::mark_byte(File::List as u8, 1),
        codes::mark_byte(File::List as u8, 2),
        0,
        1,
        symbols,
        (statements / 256) as u8,
        (statements % 256) as u8,
    ];
    buffers::copy(out, &header);
}

// The statement list of a table: a refusal, or the number of bytes written.
pub fn compile(table: &[u8], out: &mut [u8]) -> Result<usize, Refusal>
    ensures { Answered (list_file table.now) table.now out.old out.new result }
{
    let mut work = [0u8; 12384];
    type_service::type_slots(table, &mut work)?;
    let s = table_layout::symbol_count(table);
    let n = statement_counts::statement_count(table);
    let at = 8 + type_lists::types_size(&work, s);
    let need = at + 4 * n;
    type_service::check_room(out, need)?;
    put_header(out, s, n);
    type_lists::put_types(&mut out[8..], &work, s);
    translate::write_statements(table, &mut out[at..]);
    Ok(need)
}
