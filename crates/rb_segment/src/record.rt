//! A record is added to a segment. Each write of a row adds one.
ghost use Rattle.std.specs.Prelude.{◌≡◌, ◌+◌, ◌^◌, ◌<◌, ◌≤◌, List, ◌++◌, length, IfErr};
ghost use Rattle.std.specs.Prelude.{IfOk, OnOk, ℕ};
ghost use Rattle.std.specs.List.{AllByRecursion};
ghost use Rattle.rb_base.specs.Blocks.{header_block, written_to, AreWithin, IsShape};
ghost use Rattle.rb_base.specs.Copies.{SamePatches};
ghost use Rattle.rb_base.specs.Groups.{Patch, group_length};
ghost use Rattle.rb_segment.specs.Calls.{record_patches, AddedAs, IsNextAddress, IsSince, IsYoungAt, Recorded};
ghost use Rattle.rb_segment.specs.Calls.{Runs};
ghost use Rattle.rb_segment.specs.Header.{head_turn, header_of, slot_in};
ghost use Rattle.rb_segment.specs.Moves.{added_slot, Also, NoneMayTurn};
ghost use Rattle.rb_undoblock.specs.Undo.{IsUndoRecord};

use crate::copy::{set_head, set_slot, set_writes};
use crate::turn::{RollbackFull, head, make_room};
use rb_base::{
    BlockNo, GROUP_BYTES, GROUP_PATCHES, Group, SEGMENT_BLOCKS, SLOT_BYTES, SLOTS, Shape, UNIT,
    Uba, Xid,
};
use rb_ring::{EXTENT_RECORDS, EXTENTS, extent_ord, head_records, writes};
use rb_txntable::{TableSlot, slot_at};
use rb_undoblock::{UNDO_BYTES, UNDO_RECORDS, UndoRecord, undo_bytes, undo_place};

/// The bytes that the patches of a turn take in a group.
pub const TURN_BYTES: usize = (8 + 16) + (8 + 4) + (8 + 8);

/// The bytes that the patches of a record take in a group, behind those of a turn.
pub const RECORD_BYTES: usize = (8 + SLOT_BYTES) + (8 + 4) + (8 + 8) + (8 + UNDO_BYTES);

/// The address of the next record of the head, which has room. `block` is the header's.
fn next_address(header: &[u8], block: BlockNo) -> Uba
    requires header { length header.now ≡ UNIT }
    requires in_file { block < 2 ^ 31 }
    requires room { (header_of header.now).records < EXTENT_RECORDS }
    ensures place { IsNextAddress block (header_of header.now) result }
    ensures turn { (header_of header.now).head < EXTENTS → result.ord ≡ head_turn (header_of header.now) }
    ensures behind { block < result.block }
    ensures within { result.block < block + SEGMENT_BLOCKS }
    ensures record { result.rec < UNDO_RECORDS }
{
    let head = head(header);
    let place = EXTENT_RECORDS * head as u16 + head_records(header);
    Uba {
        block: block + 1 + (place / UNDO_RECORDS as u16) as u32,
        rec: place % UNDO_RECORDS as u16,
        ord: extent_ord(header, head as usize),
    }
}

/// The slot with one live record more, at that address, in extent `e`.
fn added_slot(slot: TableSlot, address: Uba, e: u8) -> TableSlot
    requires { e < EXTENTS }
    ensures bits { Also slot.touched e result.touched }
    ensures slot { slot.live < 2 ^ 31 → result ≡ added_slot address.ord address result.touched slot }
{
    TableSlot {
        touched: slot.touched | 1 << e,
        live: slot.live.saturating_add(1),
        newest_at: address,
        first: if slot.touched == 0 {
            address.ord
        } else {
            slot.first
        },
        ..slot
    }
}

/// Puts a record behind the last one of the head, which has room: table slot `i`, 0 to 15, has one live record more.
/// `block` is the header's.
fn append(header: &mut [u8], block: BlockNo, i: u8, undo: &UndoRecord, group: &mut Group) -> Uba
    requires header { length header.old ≡ UNIT }
    requires in_file { block < 2 ^ 31 }
    requires place { i < SLOTS }
    requires room { (header_of header.old).records < EXTENT_RECORDS }
    requires count { length group.old + 4 ≤ GROUP_PATCHES }
    requires fits { group_length group.old + RECORD_BYTES ≤ GROUP_BYTES }
    ensures length { length header.new ≡ UNIT }
    ensures patches { group.new ≡ group.old ++ record_patches block i (header_of header.new) result undo.now }
    ensures copy { header.new
        ≡ written_to block (record_patches block i (header_of header.new) result undo.now) header.old }
    ensures few { length group.new ≤ length group.old + 4 }
    ensures short { group_length group.new ≤ group_length group.old + RECORD_BYTES }
    ensures within { (limit : ℕ) → block + SEGMENT_BLOCKS ≤ limit
        → AllByRecursion (λ p. p.block < limit) group.old → AllByRecursion (λ p. p.block < limit) group.new }
    ensures sound { IsUndoRecord undo.now }
    ensures address { IsNextAddress block (header_of header.old) result }
    ensures added { (header_of header.old).head < EXTENTS → (header_of header.old).writes < 2 ^ 63
        → (slot_in (header_of header.old) i).live < 2 ^ 31
        → AddedAs i result (header_of header.old) (header_of header.new) }
{
    let address = next_address(header, block);
    let head = head(header);
    let slot = added_slot(slot_at(header, i), address, head);
    let records = head_records(header) + 1;
    let made = writes(header).saturating_add(1);
    set_slot(header, block, group, i, &slot);
    set_head(header, block, group, head as u16, records);
    set_writes(header, block, group, made);
    let place = undo_place(address.rec as u8) as u16;
    group.push(address.block, place, &undo_bytes(*undo));
    address
}

/// Adds a record to the segment of a transaction that runs, of whose header this is a copy, and answers its address.
/// It goes behind the last record of the head, or where that is full into an extent that takes the next turn: the
/// oldest, whose records are lost, if no transaction that runs began in it, else one that joins the ring. The copy is
/// changed, and the group has the same bytes as patches, with the record's own. `RollbackFull` where all eight
/// extents are in use, and nothing is changed. (Oracle7 Server Concepts, *Rollback Segments*.)
pub fn add_record(
    header: &mut [u8],
    shape: &Shape,
    xid: Xid,
    undo: &UndoRecord,
    group: &mut Group,
) -> Result<Uba, RollbackFull>
    requires header { length header.old ≡ UNIT }
    requires in_range { IsShape shape.now }
    requires there { xid.seg < shape.now.segments }
    requires runs { Runs (header_of header.old) xid }
    requires count { length group.old + 7 ≤ GROUP_PATCHES }
    requires room { group_length group.old + TURN_BYTES + RECORD_BYTES ≤ GROUP_BYTES }
    ensures length { length header.new ≡ UNIT }
    ensures patches { OnOk result ((patches : List Patch)
        × SamePatches (header_block shape.now xid.seg) header.old header.new group.old group.new patches) }
    ensures few { length group.new ≤ length group.old + 7 }
    ensures short { group_length group.new ≤ group_length group.old + TURN_BYTES + RECORD_BYTES }
    ensures within { OnOk result (AreWithin shape.now group.old → AreWithin shape.now group.new) }
    ensures sound { OnOk result (IsUndoRecord undo.now) }
    ensures recorded { IfOk result (λ address. IsYoungAt (header_of header.old) xid.slot → (patches : List Patch)
        × SamePatches (header_block shape.now xid.seg) header.old header.new group.old group.new patches
        × Recorded shape.now xid undo.now (header_of header.old) (header_of header.new) address patches) }
    ensures full { IfErr result (λ full. (full.seg ≡ xid.seg) × NoneMayTurn (header_of header.old)
        × IsSince (header_of header.old) full.since × (header.new ≡ header.old) × (group.new ≡ group.old)) }
{
    let block = shape.header_block(xid.seg);
    make_room(header, block, group, xid.seg)?;
    Ok(append(header, block, xid.slot as u8, undo, group))
}
