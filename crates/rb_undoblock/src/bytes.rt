//! The bytes of an undo record. What changes rows puts them to their place in an undo block.
ghost use Rattle.std.specs.Prelude.{◌≡◌};
ghost use Rattle.rb_undoblock.specs.Undo.{undo_bytes, IsUndoRecord};

use crate::record::{
    CELL_AT, CELL_BEFORE_AT, CELL_BEFORE_BYTES, ENTRY_AT, ENTRY_BEFORE_AT, HOME_AT, KEY_AT,
    KIND_AT, NUMBER_AT, PREVIOUS_AT, SLOT_AT, TABLE_AT, UNDO_BYTES, UndoRecord,
};
use rb_base::{put_u16, put_u32, put_u64, put_uba};

/// The bytes of a record. Those that have no meaning are 0.
// For the proof: each field of what is passed by value is a number of its type.
pub fn undo_bytes(undo: UndoRecord) -> [u8; UNDO_BYTES]
    ensures bytes { result ≡ undo_bytes undo }
    ensures sound { IsUndoRecord undo }
{
    let mut bytes = [0; UNDO_BYTES];
    put_u64(&mut bytes, 0, undo.wrap);
    put_u64(&mut bytes, KEY_AT, undo.key);
    put_u32(&mut bytes, NUMBER_AT, undo.number);
    put_u32(&mut bytes, HOME_AT, undo.home);
    put_u16(&mut bytes, TABLE_AT, undo.table);
    bytes[SLOT_AT] = undo.slot;
    bytes[KIND_AT] = undo.kind;
    bytes[ENTRY_AT] = undo.entry;
    bytes[CELL_AT] = undo.cell;
    put_uba(&mut bytes, PREVIOUS_AT, undo.previous);
    bytes[ENTRY_BEFORE_AT..CELL_BEFORE_AT].copy_from_slice(&undo.entry_before);
    bytes[CELL_BEFORE_AT..CELL_BEFORE_AT + CELL_BEFORE_BYTES].copy_from_slice(&undo.cell_before);
    bytes
}
