//! Reads the slot entries of a block. rb_heap and rb_sound call it.
ghost use Rattle.std.specs.Prelude.{◌≡◌, ◌<◌, length};
ghost use Rattle.rb_itl.specs.Entries.{entry_at, entry_of};

use crate::slots::{ENTRIES, ENTRY_BYTES, Entry, entry_place};
use rb_base::{UNIT, Xid, u16_at, u32_at, u64_at, uba_at};

/// The entry that 48 bytes say, as an undo record keeps them. Bytes that have no meaning in an entry aren't looked at.
pub fn entry_from(bytes: &[u8]) -> Entry
    requires { length bytes.now ≡ ENTRY_BYTES }
    ensures { result ≡ entry_of bytes.now }
{
    Entry {
        kind: bytes[0],
        xid: Xid {
            seg: u16_at(bytes, 4),
            slot: u16_at(bytes, 6),
            wrap: u64_at(bytes, 8),
        },
        number: u64_at(bytes, 16),
        newest: uba_at(bytes, 24),
        length: u32_at(bytes, 40),
    }
}

/// The entry at place `i`, 0 to 7, of a block of 2,048 bytes.
pub fn entry(block: &[u8], i: u8) -> Entry
    requires block { length block.now ≡ UNIT }
    requires place { i < ENTRIES }
    ensures { result ≡ entry_at block.now i }
{
    let place = entry_place(i);
    entry_from(&block[place..place + ENTRY_BYTES])
}
