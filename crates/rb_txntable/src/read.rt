//! Reads whole table slots of a segment's header. What must know more of a transaction than its state and its commit
//! number calls it.
ghost use Rattle.std.specs.Prelude.{◌≡◌, ◌<◌, length};
ghost use Rattle.rb_txntable.specs.Slots.{slot_at};

use crate::slots::{
    LIVE_AT, RECORD_AT, START_AT, TableSlot, slot_before, slot_newest, slot_place, slot_state,
    slot_wrap,
};
use rb_base::{FIRST_AT, SLOTS, TOUCHED_AT, UNIT, u32_at, u64_at, uba_at};

/// What the header says of table slot `i`, 0 to 15. The two bytes that have no meaning aren't looked at.
pub fn slot_at(header: &[u8], i: u8) -> TableSlot
    requires header { length header.now ≡ UNIT }
    requires place { i < SLOTS }
    ensures { result ≡ slot_at header.now i }
{
    let i = i as usize;
    let place = slot_place(i);
    TableSlot {
        state: slot_state(header, i),
        touched: header[place + TOUCHED_AT],
        live: u32_at(header, place + LIVE_AT),
        wrap: slot_wrap(header, i),
        newest: slot_newest(header, i),
        before: slot_before(header, i),
        newest_at: uba_at(header, place + RECORD_AT),
        first: u64_at(header, place + FIRST_AT),
        start: u64_at(header, place + START_AT),
    }
}
