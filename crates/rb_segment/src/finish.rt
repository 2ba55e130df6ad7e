//! A record is put back, and a transaction ends, with a number or without. Rollbacks and commits call it.
ghost use Rattle.std.specs.Prelude.{◌≡◌, ◌+◌, ◌*◌, ◌<◌, ◌≤◌, ◌++◌, length};
ghost use Rattle.rb_base.specs.Blocks.{header_block, written_to, IsShape};
ghost use Rattle.rb_base.specs.Groups.{group_length};
ghost use Rattle.rb_segment.specs.Calls.{commit_patches, slot_patches, Runs};
ghost use Rattle.rb_segment.specs.Header.{header_of, slot_in};
ghost use Rattle.rb_segment.specs.Moves.{committed, ended, taken_back};

use crate::copy::set_slot;
use crate::stamp::stamp;
use rb_base::{GROUP_BYTES, GROUP_PATCHES, Group, SLOT_BYTES, Scn, Shape, UNIT, Uba, Xid};
use rb_ring::EXTENTS;
use rb_txntable::{COMMITTED, ENDED, TableSlot, slot_at};

/// The newest live record of a transaction is put back: it has one less, and the newest is the one at `previous`. The
/// transaction runs and has a live record.
pub fn take_back(header: &mut [u8], shape: &Shape, xid: Xid, previous: Uba, group: &mut Group)
    requires header { length header.old ≡ UNIT }
    requires in_range { IsShape shape.now }
    requires there { xid.seg < shape.now.segments }
    requires runs { Runs (header_of header.old) xid }
    requires live { 1 ≤ (slot_in (header_of header.old) xid.slot).live }
    requires count { length group.old < GROUP_PATCHES }
    requires room { group_length group.old + (8 + SLOT_BYTES) ≤ GROUP_BYTES }
    ensures patches { group.new
        ≡ group.old ++ slot_patches (header_block shape.now xid.seg) xid.slot (header_of header.new) }
    ensures copy { header.new ≡ written_to (header_block shape.now xid.seg)
        (slot_patches (header_block shape.now xid.seg) xid.slot (header_of header.new)) header.old }
    ensures length { length header.new ≡ UNIT }
    ensures moved { header_of header.new ≡ taken_back xid.slot previous (header_of header.old) }
{
    let i = xid.slot as u8;
    let slot = slot_at(header, i);
    let left = TableSlot {
        live: slot.live - 1,
        newest_at: previous,
        ..slot
    };
    set_slot(header, shape.header_block(xid.seg), group, i, &left);
}

/// A transaction commits at `scn`: its slot tells that number, and so does each extent with a record of it, also one
/// that was put back. The transaction runs and has a live record.
pub fn commit(header: &mut [u8], shape: &Shape, xid: Xid, scn: Scn, group: &mut Group)
    requires header { length header.old ≡ UNIT }
    requires in_range { IsShape shape.now }
    requires there { xid.seg < shape.now.segments }
    requires runs { Runs (header_of header.old) xid }
    requires live { 1 ≤ (slot_in (header_of header.old) xid.slot).live }
    requires count { length group.old + (1 + EXTENTS) ≤ GROUP_PATCHES }
    requires room { group_length group.old + (8 + SLOT_BYTES) + EXTENTS * (8 + 16) ≤ GROUP_BYTES }
    ensures patches { group.new
        ≡ group.old ++ commit_patches (header_block shape.now xid.seg) xid.slot (header_of header.new) }
    ensures copy { header.new ≡ written_to (header_block shape.now xid.seg)
        (commit_patches (header_block shape.now xid.seg) xid.slot (header_of header.new)) header.old }
    ensures length { length header.new ≡ UNIT }
    ensures moved { header_of header.new ≡ committed scn xid.slot (header_of header.old) }
{
    let block = shape.header_block(xid.seg);
    let i = xid.slot as u8;
    let slot = slot_at(header, i);
    let done = TableSlot {
        state: COMMITTED,
        newest: scn,
        ..slot
    };
    set_slot(header, block, group, i, &done);
    stamp(header, block, group, slot.touched, scn);
}

/// A transaction ends without a number: it was rolled back, or changed nothing. It runs and has no live record.
pub fn end(header: &mut [u8], shape: &Shape, xid: Xid, group: &mut Group)
    requires header { length header.old ≡ UNIT }
    requires in_range { IsShape shape.now }
    requires there { xid.seg < shape.now.segments }
    requires runs { Runs (header_of header.old) xid }
    requires live { (slot_in (header_of header.old) xid.slot).live ≡ 0 }
    requires count { length group.old < GROUP_PATCHES }
    requires room { group_length group.old + (8 + SLOT_BYTES) ≤ GROUP_BYTES }
    ensures patches { group.new
        ≡ group.old ++ slot_patches (header_block shape.now xid.seg) xid.slot (header_of header.new) }
    ensures copy { header.new ≡ written_to (header_block shape.now xid.seg)
        (slot_patches (header_block shape.now xid.seg) xid.slot (header_of header.new)) header.old }
    ensures length { length header.new ≡ UNIT }
    ensures moved { header_of header.new ≡ ended xid.slot (header_of header.old) }
{
    let i = xid.slot as u8;
    let done = TableSlot {
        state: ENDED,
        ..slot_at(header, i)
    };
    set_slot(header, shape.header_block(xid.seg), group, i, &done);
}
