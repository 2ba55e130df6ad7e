//! The bytes of a slot entry. What changes an entry of a block puts them to its place there.
ghost use Rattle.std.specs.Prelude.{◌≡◌};
ghost use Rattle.rb_itl.specs.Entries.{entry_bytes, IsEntry};

use crate::slots::{ENTRY_BYTES, Entry};
use rb_base::{put_u16, put_u32, put_u64, put_uba};

/// The bytes of an entry. Those that have no meaning are 0.
// For the proof: each field of what is passed by value is a number of its type.
pub fn entry_bytes(entry: Entry) -> [u8; ENTRY_BYTES]
    ensures bytes { result ≡ entry_bytes entry }
    ensures sound { IsEntry entry }
{
    let mut bytes = [0; ENTRY_BYTES];
    bytes[0] = entry.kind;
    put_u16(&mut bytes, 4, entry.xid.seg);
    put_u16(&mut bytes, 6, entry.xid.slot);
    put_u64(&mut bytes, 8, entry.xid.wrap);
    put_u64(&mut bytes, 16, entry.number);
    put_uba(&mut bytes, 24, entry.newest);
    put_u32(&mut bytes, 40, entry.length);
    bytes
}
