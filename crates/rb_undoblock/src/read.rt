//! Reads the records of an undo block. What takes a change back, and what reads a row as it was, calls it.
ghost use Rattle.std.specs.Prelude.{◌≡◌, ◌+◌, ◌<◌, ◌≤◌, length};
ghost use Rattle.rb_base.specs.Fields.{part};
ghost use Rattle.rb_undoblock.specs.Undo.{undo_at};

use crate::record::{
    CELL_AT, CELL_BEFORE_AT, ENTRY_AT, ENTRY_BEFORE_AT, HOME_AT, KEY_AT, KIND_AT, NUMBER_AT,
    PREVIOUS_AT, SLOT_AT, TABLE_AT, UNDO_BYTES, UNDO_RECORDS, UndoRecord, undo_place,
};
use rb_base::{UNIT, u16_at, u32_at, u64_at, uba_at};

/// The bytes from `at` on, as many as the array has.
fn array_at<const COUNT: usize>(bytes: &[u8], at: usize) -> [u8; COUNT]
    requires { at + COUNT ≤ length bytes.now }
    ensures { result ≡ part bytes.now at COUNT }
{
    let mut array = [0; COUNT];
    array.copy_from_slice(&bytes[at..at + COUNT]);
    array
}

/// The record at place `r`, 0 to 9, of a block of 2,048 bytes. Bytes that have no meaning in a record aren't looked at.
#[tactic(auto, unfolding(crate::specs::Undo::undo_at))]
pub fn undo_at(block: &[u8], r: u8) -> UndoRecord
    requires block { length block.now ≡ UNIT }
    requires place { r < UNDO_RECORDS }
    ensures { result ≡ undo_at block.now r }
{
    let place = undo_place(r);
    let bytes = &block[place..place + UNDO_BYTES];
    UndoRecord {
        wrap: u64_at(bytes, 0),
        key: u64_at(bytes, KEY_AT),
        number: u32_at(bytes, NUMBER_AT),
        home: u32_at(bytes, HOME_AT),
        table: u16_at(bytes, TABLE_AT),
        slot: bytes[SLOT_AT],
        kind: bytes[KIND_AT],
        entry: bytes[ENTRY_AT],
        cell: bytes[CELL_AT],
        previous: uba_at(bytes, PREVIOUS_AT),
        entry_before: array_at(bytes, ENTRY_BEFORE_AT),
        cell_before: array_at(bytes, CELL_BEFORE_AT),
    }
}
