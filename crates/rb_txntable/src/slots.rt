//! Reads the table slots of a segment's header, and tests one. rb_segment reads the commit number and the wraps of a
//! file by them, and rb_sound asks whether each is in order.
ghost use Rattle.std.specs.Prelude.{IsTrue, ◌≡◌, ◌↔◌, ℕ, ◌<◌, length, slice_index};
ghost use Rattle.rb_base.specs.Addresses.{slot_place};
ghost use Rattle.rb_txntable.specs.Slots.{newest_place, slot_state, slot_wrap, slot_newest, slot_before};
ghost use Rattle.rb_txntable.specs.Slots.{header_newest, IsSlot};

use rb_base::{BLOCK_HEAD, SLOT_BYTES, SLOTS, Scn, UNIT, Uba, u64_at};

/// Where in its slot the number of live records stands.
pub const LIVE_AT: usize = 4;

/// Where in its slot the wrap stands, how often the slot had been taken.
pub const WRAP_AT: usize = 8;

/// Where in its slot the greatest commit number stands that was given in it.
pub const NEWEST_AT: usize = 16;

/// Where in its slot the commit number before that one stands.
pub const BEFORE_AT: usize = 24;

/// Where in its slot the address of the newest live record stands.
pub const RECORD_AT: usize = 32;

/// Where in its slot the number of records stands that the segment had as the slot was taken.
pub const START_AT: usize = 56;

/// The state of a table slot whose transaction committed, with live records.
pub const COMMITTED: u8 = 2;

/// The state of a table slot whose transaction ended by a rollback, or without a change. It is the last of the states.
pub const ENDED: u8 = 3;

/// A table slot: one transaction at a time has it, and it keeps what became of the last one. Each field of one that was
/// never taken is 0.
#[derive(Clone, Copy, Debug, Default, PartialEq, Eq)]
pub struct TableSlot {
    /// 0 as long as it was never taken, then `ACTIVE`, `COMMITTED` or `ENDED`.
    pub state: u8,
    /// Bit e tells that extent e holds a record of the transaction.
    pub touched: u8,
    /// How many live records the transaction has.
    pub live: u32,
    /// How often the slot had been taken.
    pub wrap: u64,
    /// The greatest commit number given in it.
    pub newest: Scn,
    /// The commit number that was the newest as the transaction took the slot.
    pub before: Scn,
    /// The newest live record of the transaction.
    pub newest_at: Uba,
    /// The number of the extent that holds the transaction's first record.
    pub first: u64,
    /// How many records the segment had as the transaction took the slot.
    pub start: u64,
}

/// The byte of a header at which table slot `i`, 0 to 15, begins.
pub fn slot_place(i: usize) -> usize
    requires { i < SLOTS }
    ensures { result ≡ slot_place i }
{
    BLOCK_HEAD + SLOT_BYTES * i
}

/// The byte of a header at which the newest commit number of table slot `i`, 0 to 15, stands.
fn newest_place(i: usize) -> usize
    requires { i < SLOTS }
    ensures { result ≡ newest_place i }
{
    slot_place(i) + NEWEST_AT
}

/// The state of table slot `i`, 0 to 15.
#[tactic(auto, unfolding(crate::specs::Slots::slot_state))]
pub fn slot_state(header: &[u8], i: usize) -> u8
    requires header { length header.now ≡ UNIT }
    requires place { i < SLOTS }
    ensures { result ≡ slot_state header.now i }
{
    header[slot_place(i)]
}

/// How often table slot `i`, 0 to 15, had been taken.
#[tactic(auto, unfolding(crate::specs::Slots::slot_wrap))]
pub fn slot_wrap(header: &[u8], i: usize) -> u64
    requires header { length header.now ≡ UNIT }
    requires place { i < SLOTS }
    ensures { result ≡ slot_wrap header.now i }
{
    u64_at(header, slot_place(i) + WRAP_AT)
}

/// The greatest commit number given in table slot `i`, 0 to 15.
#[tactic(auto, unfolding(crate::specs::Slots::slot_newest))]
pub fn slot_newest(header: &[u8], i: usize) -> Scn
    requires header { length header.now ≡ UNIT }
    requires place { i < SLOTS }
    ensures { result ≡ slot_newest header.now i }
{
    u64_at(header, newest_place(i))
}

/// The commit number before the newest one of table slot `i`, 0 to 15.
#[tactic(auto, unfolding(crate::specs::Slots::slot_before))]
pub fn slot_before(header: &[u8], i: usize) -> Scn
    requires header { length header.now ≡ UNIT }
    requires place { i < SLOTS }
    ensures { result ≡ slot_before header.now i }
{
    u64_at(header, slot_place(i) + BEFORE_AT)
}

/// Whether table slot `i`, 0 to 15, is in order.
pub fn slot_sound(header: &[u8], i: usize) -> bool
    requires header { length header.now ≡ UNIT }
    requires place { i < SLOTS }
    ensures { IsTrue result ↔ IsSlot header.now i }
{
    slot_state(header, i) <= ENDED && slot_before(header, i) <= slot_newest(header, i)
}

/// The greatest commit number given in a table slot of the header.
pub fn newest_in(header: &[u8]) -> Scn
    requires { length header.now ≡ UNIT }
    ensures { result ≡ header_newest header.now }
{
    let mut newest: Scn = 0;
    for i in 0..SLOTS {
        newest = newest.max(slot_newest(header, i));
    }
    newest
}

/// How often each table slot of the header had been taken.
pub fn wraps_in(header: &[u8]) -> [u64; SLOTS]
    requires { length header.now ≡ UNIT }
    ensures { (i : ℕ) → i < SLOTS → slice_index result i ≡ slot_wrap header.now i }
{
    let mut wraps = [0; SLOTS];
    for i in 0..SLOTS {
        wraps[i] = slot_wrap(header, i);
    }
    wraps
}
