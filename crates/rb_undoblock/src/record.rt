//! What an undo record says. Readers and writers of undo blocks use it.
ghost use Rattle.std.specs.Prelude.{◌≡◌, ◌<◌};
ghost use Rattle.rb_undoblock.specs.Undo.{undo_place};

use rb_base::{BLOCK_HEAD, BlockNo, Uba};

/// The records of an undo block. They stand behind its head.
pub const UNDO_RECORDS: u8 = 10;

/// The bytes of a record.
pub const UNDO_BYTES: usize = 192;

/// The bytes of the slot entry that a record keeps.
pub const ENTRY_BEFORE_BYTES: usize = 48;

/// The bytes of the cell that a record keeps.
pub const CELL_BEFORE_BYTES: usize = 92;

/// Where in its record the key stands.
pub const KEY_AT: usize = 8;

/// Where in its record the number in the transaction stands.
pub const NUMBER_AT: usize = 16;

/// Where in its record the number of the heap block stands.
pub const HOME_AT: usize = 20;

/// Where in its record the table stands.
pub const TABLE_AT: usize = 24;

/// Where in its record the table slot stands.
pub const SLOT_AT: usize = 26;

/// Where in its record the kind of the change stands.
pub const KIND_AT: usize = 27;

/// Where in its record the index of the slot entry stands.
pub const ENTRY_AT: usize = 28;

/// Where in its record the index of the cell stands.
pub const CELL_AT: usize = 29;

/// Where in its record the address of the transaction's record before stands.
pub const PREVIOUS_AT: usize = 32;

/// Where in its record the slot entry stands as it was before.
pub const ENTRY_BEFORE_AT: usize = 48;

/// Where in its record the cell stands as it was before.
pub const CELL_BEFORE_AT: usize = 96;

/// The kind of a change that gave the row a value.
pub const PUT: u8 = 1;

/// The kind of a change that took the row away.
pub const GONE: u8 = 2;

/// The kind of a change that held the row as it was.
pub const HELD: u8 = 3;

/// An undo record: a change of a row, and the bytes of the slot entry and of the cell that it found.
#[derive(Clone, Copy, Debug, PartialEq, Eq)]
pub struct UndoRecord {
    /// How often the table slot of the change's transaction had been taken.
    pub wrap: u64,
    /// The key of the row.
    pub key: u64,
    /// The place of the change among the transaction's live changes, from 1 on.
    pub number: u32,
    /// The heap block of the row.
    pub home: BlockNo,
    /// The table of the row.
    pub table: u16,
    /// The transaction's table slot, 0 to 15.
    pub slot: u8,
    /// `PUT`, `GONE` or `HELD`.
    pub kind: u8,
    /// The slot entry that the transaction has in the heap block, 0 to 7.
    pub entry: u8,
    /// The cell of the row in the heap block, 0 to 15.
    pub cell: u8,
    /// The live record that the transaction made before this one, in whatever block.
    pub previous: Uba,
    /// The whole slot entry before the change.
    pub entry_before: [u8; ENTRY_BEFORE_BYTES],
    /// The whole cell before the change.
    pub cell_before: [u8; CELL_BEFORE_BYTES],
}

/// The byte of its block at which record `r`, 0 to 9, begins.
pub fn undo_place(r: u8) -> usize
    requires { r < UNDO_RECORDS }
    ensures { result ≡ undo_place r }
{
    BLOCK_HEAD + UNDO_BYTES * r as usize
}
