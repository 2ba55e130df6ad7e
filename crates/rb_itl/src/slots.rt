//! What a slot entry says, and where it stands in its block. Readers and writers of heap blocks use both.
ghost use Rattle.std.specs.Prelude.{◌≡◌, ◌<◌};
ghost use Rattle.rb_itl.specs.Entries.{entry_place};

use rb_base::{BLOCK_HEAD, Uba, Xid};

/// The slot entries of a block. They stand behind its head.
pub const ENTRIES: u8 = 8;

/// The bytes of an entry.
pub const ENTRY_BYTES: usize = 48;

/// The most undo records that a transaction has for a block.
pub const CHAIN_RECORDS: u32 = 320;

/// The kind of an entry of no transaction.
pub const FREE: u8 = 0;

/// The kind of an entry whose transaction has no outcome recorded here.
pub const OPEN: u8 = 1;

/// The kind of an entry whose transaction committed, and its number is here.
pub const EXACT: u8 = 2;

/// The kind of an entry whose transaction committed, at the number here or at one before.
pub const BOUND: u8 = 3;

/// A slot entry of a heap block: a transaction that changed the block, and where its changes begin. Each field of a
/// free one is 0.
#[derive(Clone, Copy, Debug, Default, PartialEq, Eq)]
pub struct Entry {
    /// `FREE`, `OPEN`, `EXACT` or `BOUND`.
    pub kind: u8,
    /// The transaction.
    pub xid: Xid,
    /// The commit number of an exact entry, the greatest that it can be of a bound one, else 0.
    pub number: u64,
    /// The transaction's newest live undo record for this block.
    pub newest: Uba,
    /// How many live undo records the transaction has for this block.
    pub length: u32,
}

/// The byte of its block at which entry `i`, 0 to 7, begins: 32 to 368.
pub fn entry_place(i: u8) -> usize
    requires { i < ENTRIES }
    ensures { result ≡ entry_place i }
{
    BLOCK_HEAD + ENTRY_BYTES * i as usize
}
