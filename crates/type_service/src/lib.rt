// The type service: the widest types of a role table, each with its length byte; or a refusal, which writes nothing.
// The stages that other services share stand here too: numbers 1 to 10 of a table, and number 15.
#![tactic(auto)]

ghost use Rattle.std.specs.Prelude.{length};
ghost use Rattle.type_service.specs.Services.{SlotsPut, RoomChecked, Answered, types_file};

use answers::{Check, File, Refusal};

// Numbers 1 to 10 of a table: its widest types are left in 96 slots of 129 bytes.
pub fn type_slots(table: &[u8], work: &mut [u8]) -> Check
    ensures { SlotsPut table.now work.old work.new result }
{
    table::check_table(table)?;
    match typing::infer_table(table, work) {
        Ok(()) => Ok(()),
        Err(e) => answers::refuse(10, File::Table, e.place as usize),
    }
}

// Number 15: a lent buffer is too short for the bytes needed.
pub fn check_room(out: &[u8], need: usize) -> Check
    ensures { RoomChecked need (length out.now) result }
{
    if need <= out.len() {
        return Ok(());
    }
    answers::refuse(15, File::Buffer, need)
}

// The widest types of a table: a refusal, or the number of bytes written.
pub fn type_table(table: &[u8], out: &mut [u8]) -> Result<usize, Refusal>
    ensures { Answered (types_file table.now) table.now out.old out.new result }
{
    let mut work = [0u8; 12384];
    type_slots(table, &mut work)?;
    let n = table_layout::symbol_count(table);
    let need = type_lists::types_size(&work, n);
    check_room(out, need)?;
    type_lists::put_types(out, &work, n);
    Ok(need)
}
