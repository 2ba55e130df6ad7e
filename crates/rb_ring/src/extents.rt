//! Reads what a segment's header says of its extents. rb_sound calls it as it tests a header, and `turns` as it looks
//! for the extent of the next turn.
ghost use Rattle.std.specs.Prelude.{◌≡◌, ◌<◌, length};
ghost use Rattle.rb_ring.specs.Ring.{extent_place, extent_ord, extent_newest, extent_at};
ghost use Rattle.rb_ring.specs.Ring.{head_extent, head_records, record_count, lost_number};

use rb_base::{Scn, UNIT, u16_at, u64_at};

/// The extents of a segment.
pub const EXTENTS: usize = 8;

/// The undo blocks of an extent.
pub const EXTENT_BLOCKS: u32 = 4;

/// The most records of an extent.
pub const EXTENT_RECORDS: u16 = 40;

/// Where a header has its extents, behind the table slots.
pub const EXTENTS_AT: usize = 1056;

/// The bytes that a header has for each extent.
pub const EXTENT_BYTES: usize = 32;

/// Where in these bytes the newest commit number of the extent stands.
pub const NEWEST_AT: usize = 8;

/// Where a header says which extent is the head.
pub const HEAD_AT: usize = 1312;

/// Where a header says how many records the head has.
pub const RECORDS_AT: usize = 1314;

/// Where a header says how many records were made.
pub const WRITES_AT: usize = 1320;

/// Where a header has the greatest commit number that was lost.
pub const LOST_AT: usize = 1328;

/// An extent of a segment, as its header has it. Each field of one that was never in the ring is 0.
#[derive(Clone, Copy, Debug, Default, PartialEq, Eq)]
pub struct Extent {
    /// The number of its turn, which is 0 outside of the ring.
    pub ord: u64,
    /// The greatest commit number with a record in it.
    pub newest: Scn,
}

/// The byte of a header at which extent `e`, 0 to 7, begins.
pub fn extent_place(e: usize) -> usize
    requires { e < EXTENTS }
    ensures { result ≡ extent_place e }
{
    EXTENTS_AT + EXTENT_BYTES * e
}

/// The number of extent `e`, 0 to 7, which is 0 outside of the ring.
#[tactic(auto, unfolding(crate::specs::Ring::extent_ord))]
pub fn extent_ord(header: &[u8], e: usize) -> u64
    requires header { length header.now ≡ UNIT }
    requires place { e < EXTENTS }
    ensures { result ≡ extent_ord header.now e }
{
    u64_at(header, extent_place(e))
}

/// The newest commit number of extent `e`, 0 to 7.
#[tactic(auto, unfolding(crate::specs::Ring::extent_newest))]
pub fn extent_newest(header: &[u8], e: usize) -> Scn
    requires header { length header.now ≡ UNIT }
    requires place { e < EXTENTS }
    ensures { result ≡ extent_newest header.now e }
{
    u64_at(header, extent_place(e) + NEWEST_AT)
}

/// Extent `e`, 0 to 7. The bytes that have no meaning in an extent aren't looked at.
pub fn extent_at(header: &[u8], e: u8) -> Extent
    requires header { length header.now ≡ UNIT }
    requires place { e < EXTENTS }
    ensures { result ≡ extent_at header.now e }
{
    Extent {
        ord: extent_ord(header, e as usize),
        newest: extent_newest(header, e as usize),
    }
}

/// The extent that is the head.
#[tactic(auto, unfolding(crate::specs::Ring::head_extent))]
pub fn head_extent(header: &[u8]) -> u16
    requires { length header.now ≡ UNIT }
    ensures { result ≡ head_extent header.now }
{
    u16_at(header, HEAD_AT)
}

/// How many records the head has.
#[tactic(auto, unfolding(crate::specs::Ring::head_records))]
pub fn head_records(header: &[u8]) -> u16
    requires { length header.now ≡ UNIT }
    ensures { result ≡ head_records header.now }
{
    u16_at(header, RECORDS_AT)
}

/// How many records were made in the segment.
#[tactic(auto, unfolding(crate::specs::Ring::record_count))]
pub fn writes(header: &[u8]) -> u64
    requires { length header.now ≡ UNIT }
    ensures { result ≡ record_count header.now }
{
    u64_at(header, WRITES_AT)
}

/// The greatest commit number whose records were lost.
#[tactic(auto, unfolding(crate::specs::Ring::lost_number))]
pub fn lost(header: &[u8]) -> Scn
    requires { length header.now ≡ UNIT }
    ensures { result ≡ lost_number header.now }
{
    u64_at(header, LOST_AT)
}
