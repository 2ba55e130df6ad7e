//! The bytes of a table slot. What begins, changes or ends a transaction puts them to their place in a header.
ghost use Rattle.std.specs.Prelude.{◌≡◌};
ghost use Rattle.rb_txntable.specs.Slots.{slot_bytes, IsTableSlot};

use crate::slots::{BEFORE_AT, LIVE_AT, NEWEST_AT, RECORD_AT, START_AT, TableSlot, WRAP_AT};
use rb_base::{FIRST_AT, SLOT_BYTES, TOUCHED_AT, put_u32, put_u64, put_uba};

/// The bytes of a table slot. Those that have no meaning are 0.
// For the proof: each field of what is passed by value is a number of its type.
pub fn slot_bytes(slot: TableSlot) -> [u8; SLOT_BYTES]
    ensures bytes { result ≡ slot_bytes slot }
    ensures sound { IsTableSlot slot }
{
    let mut bytes = [0; SLOT_BYTES];
    bytes[0] = slot.state;
    bytes[TOUCHED_AT] = slot.touched;
    put_u32(&mut bytes, LIVE_AT, slot.live);
    put_u64(&mut bytes, WRAP_AT, slot.wrap);
    put_u64(&mut bytes, NEWEST_AT, slot.newest);
    put_u64(&mut bytes, BEFORE_AT, slot.before);
    put_uba(&mut bytes, RECORD_AT, slot.newest_at);
    put_u64(&mut bytes, FIRST_AT, slot.first);
    put_u64(&mut bytes, START_AT, slot.start);
    bytes
}
