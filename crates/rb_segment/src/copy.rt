//! Changes a part of a header's copy, and adds the same bytes to a group as one patch. The calls of this crate are made
//! of these.
ghost use Rattle.std.specs.Prelude.{◌≡◌, ◌+◌, ◌<◌, ◌≤◌, [], ◌∷◌, ◌++◌, length, set};
ghost use Rattle.rb_base.specs.Blocks.{written_to};
ghost use Rattle.rb_base.specs.Groups.{group_length};
ghost use Rattle.rb_ring.specs.Ring.{extent_patch, head_patch, record_count_patch, lost_patch};
ghost use Rattle.rb_segment.specs.Header.{extent_in, header_of, slot_in};
ghost use Rattle.rb_txntable.specs.Slots.{slot_patch};

use rb_base::{BlockNo, GROUP_BYTES, GROUP_PATCHES, Group, SLOT_BYTES, SLOTS, Scn, UNIT, set};
use rb_ring::{
    EXTENTS, Extent, HEAD_AT, LOST_AT, WRITES_AT, extent_bytes, extent_place, head_bytes,
    number_bytes,
};
use rb_txntable::{TableSlot, slot_bytes, slot_place};

/// Table slot `i`, 0 to 15, becomes `slot`.
pub fn set_slot(header: &mut [u8], no: BlockNo, group: &mut Group, i: u8, slot: &TableSlot)
    requires header { length header.old ≡ UNIT }
    requires place { i < SLOTS }
    requires count { length group.old < GROUP_PATCHES }
    requires room { group_length group.old + (8 + SLOT_BYTES) ≤ GROUP_BYTES }
    ensures patch { group.new ≡ group.old ++ slot_patch no i slot.now ∷ [] }
    ensures copy { header.new ≡ written_to no (slot_patch no i slot.now ∷ []) header.old }
    ensures length { length header.new ≡ UNIT }
    ensures means { header_of header.new
        ≡ record (header_of header.old) { slots = set (header_of header.old).slots i slot.now } }
    ensures read { slot_in (header_of header.new) i ≡ slot.now }
{
    let at = slot_place(i as usize);
    set(header, no, group, at, &slot_bytes(*slot));
}

/// Extent `e`, 0 to 7, becomes `extent`.
pub fn set_extent(header: &mut [u8], no: BlockNo, group: &mut Group, e: u8, extent: &Extent)
    requires header { length header.old ≡ UNIT }
    requires place { e < EXTENTS }
    requires count { length group.old < GROUP_PATCHES }
    requires room { group_length group.old + (8 + 16) ≤ GROUP_BYTES }
    ensures patch { group.new ≡ group.old ++ extent_patch no e extent.now ∷ [] }
    ensures copy { header.new ≡ written_to no (extent_patch no e extent.now ∷ []) header.old }
    ensures length { length header.new ≡ UNIT }
    ensures means { header_of header.new
        ≡ record (header_of header.old) { extents = set (header_of header.old).extents e extent.now } }
    ensures read { extent_in (header_of header.new) e ≡ extent.now }
{
    let at = extent_place(e as usize);
    set(header, no, group, at, &extent_bytes(*extent));
}

/// Extent `head` becomes the head, with so many records.
pub fn set_head(header: &mut [u8], no: BlockNo, group: &mut Group, head: u16, records: u16)
    requires header { length header.old ≡ UNIT }
    requires count { length group.old < GROUP_PATCHES }
    requires room { group_length group.old + (8 + 4) ≤ GROUP_BYTES }
    ensures patch { group.new ≡ group.old ++ head_patch no head records ∷ [] }
    ensures copy { header.new ≡ written_to no (head_patch no head records ∷ []) header.old }
    ensures length { length header.new ≡ UNIT }
    ensures means { header_of header.new ≡ record (header_of header.old) { head = head; records = records } }
{
    set(header, no, group, HEAD_AT, &head_bytes(head, records));
}

/// So many records were made.
pub fn set_writes(header: &mut [u8], no: BlockNo, group: &mut Group, writes: u64)
    requires header { length header.old ≡ UNIT }
    requires count { length group.old < GROUP_PATCHES }
    requires room { group_length group.old + (8 + 8) ≤ GROUP_BYTES }
    ensures patch { group.new ≡ group.old ++ record_count_patch no writes ∷ [] }
    ensures copy { header.new ≡ written_to no (record_count_patch no writes ∷ []) header.old }
    ensures length { length header.new ≡ UNIT }
    ensures means { header_of header.new ≡ record (header_of header.old) { writes = writes } }
{
    set(header, no, group, WRITES_AT, &number_bytes(writes));
}

/// The greatest commit number that was given up.
pub fn set_lost(header: &mut [u8], no: BlockNo, group: &mut Group, lost: Scn)
    requires header { length header.old ≡ UNIT }
    requires count { length group.old < GROUP_PATCHES }
    requires room { group_length group.old + (8 + 8) ≤ GROUP_BYTES }
    ensures patch { group.new ≡ group.old ++ lost_patch no lost ∷ [] }
    ensures copy { header.new ≡ written_to no (lost_patch no lost ∷ []) header.old }
    ensures length { length header.new ≡ UNIT }
    ensures means { header_of header.new ≡ record (header_of header.old) { lost = lost } }
{
    set(header, no, group, LOST_AT, &number_bytes(lost));
}
