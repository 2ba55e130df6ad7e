//! What a store tells of its segments: the record of a place, how a transaction stands, and what was given up. A
//! rebuild over a store asks for them.
ghost use Rattle.std.specs.Prelude.{◌≡◌, ◌<◌, ◌≤◌, ◌+◌, ◌*◌, ◌-◌, ◌/◌, ◌%◌};
ghost use Rattle.std.specs.Prelude.{◌^◌, ℕ, false, not, [], length, get_or};
ghost use Rattle.std.specs.Prelude.{Some, None, IfSome, IfNone, IfOk};
ghost use Rattle.std.specs.Result.{is_err};
ghost use Rattle.rb_base.specs.Blocks.{AreBlocks, IsShape};
ghost use Rattle.rb_base.specs.Logs.{Logs};
ghost use Rattle.rb_cr.specs.Records.{walk_found};
ghost use Rattle.rb_ring.specs.Ring.{record_count};
ghost use Rattle.rb_segment.specs.Header.{Segment, extent_with, header_of, record_in};
ghost use Rattle.law_blocks.specs.Says.{place_of};
ghost use Rattle.law_blocks.specs.Standing.{env_of, segments_of};
ghost use Rattle.rb_txntable.specs.Looks.{slot_look};
ghost use Rattle.rb_txntable.specs.Slots.{no_slot};
ghost use Rattle.rb_undoblock.specs.Undo.{no_undo};

use crate::records::SegmentRecord;
use rb_base::{Failed, SEGMENT_BLOCKS, SLOTS, Scn, Shape, Store, UNIT, Uba, Xid};
use rb_ring::{EXTENT_BLOCKS, EXTENT_RECORDS, EXTENTS, extent_ord, lost, writes};
use rb_txntable::{Look, look};
use rb_undoblock::{UNDO_RECORDS, UndoRecord, undo_at};

/// The records of an extent.
const TURN_RECORDS: u64 = EXTENT_RECORDS as u64;

/// The number of a record, counted from 1, in front of which so many turns and then so many records of its own turn
/// were made; none where no count reaches it.
fn record_number(turns: u64, records: u64) -> Option<u64>
    requires { records < 2 ^ 32 }
    ensures some { IfSome result (λ index. index ≡ EXTENT_RECORDS * turns + records + 1) }
    ensures none { IfNone result (2 ^ 64 ≤ EXTENT_RECORDS * turns + records + 1) }
{
    match turns.checked_mul(TURN_RECORDS) {
        Some(before) => before.checked_add(records + 1),
        None => None,
    }
}

/// Which extent has a turn, 0 to 7.
fn extent_of(header: &[u8], turn: u64) -> Option<usize>
    requires { length header.now ≡ UNIT }
    ensures extent { result ≡ extent_with (header_of header.now).extents turn }
    ensures within { IfSome result (λ e. e < EXTENTS) }
{
    for e in 0..EXTENTS {
        if extent_ord(header, e) == turn {
            return Some(e);
        }
    }
    None
}

/// Where a segment has its record number `index`, which was made, of the 320 places for records: none where its extent
/// has another turn by now.
fn record_place(header: &[u8], index: u64) -> Option<u64>
    requires header { length header.now ≡ UNIT }
    requires first { 1 ≤ index }
    requires made { index ≤ record_count header.now }
    ensures some { IfSome result (λ at. (at < 320) × ((s : Segment) → s.header ≡ header_of header.now
        → record_in s index ≡ Some (get_or s.undo at no_undo))) }
    ensures none { IfNone result ((s : Segment) → s.header ≡ header_of header.now → record_in s index ≡ None) }
{
    let before = index - 1;
    match extent_of(header, 2 + before / TURN_RECORDS) {
        Some(e) => Some(TURN_RECORDS * e as u64 + before % TURN_RECORDS),
        None => None,
    }
}

/// The segment of an address, where it is one of the file.
fn segment_of(shape: &Shape, address: Uba) -> Option<u16>
    requires { IsShape shape.now }
    ensures some { IfSome result (λ seg. (seg < shape.now.segments) × ((place_of shape.now address).seg ≡ seg)) }
    ensures none { IfNone result (shape.now.segments ≤ (place_of shape.now address).seg) }
{
    let seg = address.block.saturating_sub(shape.table_blocks()) / SEGMENT_BLOCKS;
    if seg < u32::from(shape.segments) {
        Some(seg as u16)
    } else {
        None
    }
}

/// The number of the record that an address names, counted from 1, where so many were made.
fn number_of(shape: &Shape, address: Uba, made: u64) -> Option<u64>
    requires { IsShape shape.now }
    ensures some { IfSome result (λ index. (index ≡ (place_of shape.now address).index) × (index ≤ made)) }
    ensures none { IfNone result (made < (place_of shape.now address).index) }
{
    let block = address.block.saturating_sub(shape.table_blocks()) % SEGMENT_BLOCKS;
    let part = block.saturating_sub(1) % EXTENT_BLOCKS;
    let records = UNDO_RECORDS as u64 * u64::from(part) + u64::from(address.rec);
    match record_number(address.ord.saturating_sub(2), records) {
        Some(index) if index <= made => Some(index),
        _ => None,
    }
}

/// How a transaction stands of which no slot tells: it counts as one that is still to take its slot.
fn untold(wrap: u64) -> Look
    ensures { result ≡ slot_look no_slot wrap }
{
    if wrap > 0 {
        Look::Active
    } else {
        Look::Before(0)
    }
}

/// Where a segment has the record that an address names, of its 320 places for records.
fn find_place<S: Store>(
    store: &mut S,
    shape: &Shape,
    seg: u16,
    address: Uba,
) -> Result<Option<u64>, Failed>
    requires going { S.failed store.old ≡ false }
    requires shape { shape.now ≡ S.shape_of store.old }
    requires in_range { IsShape shape.now }
    requires there { seg < shape.now.segments }
    ensures logs { Logs S.Store store.old store.new [] (not (is_err result)) }
    ensures some { S.tells → IfOk result (λ found. IfSome found (λ at. (at < 320)
        × (record_in (segments_of shape.now (S.blocks store.old) seg) (place_of shape.now address).index
        ≡ Some (get_or (segments_of shape.now (S.blocks store.old) seg).undo at no_undo)))) }
    ensures none { S.tells → IfOk result (λ found. IfNone found
        (record_in (segments_of shape.now (S.blocks store.old) seg) (place_of shape.now address).index ≡ None)) }
    ensures within { IfOk result (λ found. IfSome found (λ at. at < 320)) }
{
    store.load(shape.header_block(seg))?;
    let header = store.block();
    match number_of(shape, address, writes(header)) {
        Some(index) => Ok(record_place(header, index)),
        None => Ok(None),
    }
}

/// The record at a place of a segment, 0 to 319.
fn read_place<S: Store>(
    store: &mut S,
    shape: &Shape,
    seg: u16,
    place: u64,
) -> Result<UndoRecord, Failed>
    requires going { S.failed store.old ≡ false }
    requires shape { shape.now ≡ S.shape_of store.old }
    requires in_range { IsShape shape.now }
    requires there { seg < shape.now.segments }
    requires within { place < 320 }
    ensures logs { Logs S.Store store.old store.new [] (not (is_err result)) }
    ensures told { S.tells → IfOk result (λ undo.
        undo ≡ get_or (segments_of shape.now (S.blocks store.old) seg).undo place no_undo) }
{
    let records = u64::from(UNDO_RECORDS);
    store.load(shape.header_block(seg) + 1 + (place / records) as u32)?;
    Ok(undo_at(store.block(), (place % records) as u8))
}

/// The record of the place that an address names, if it is still there.
pub fn read_record<S: Store>(store: &mut S, address: Uba) -> Result<Option<SegmentRecord>, Failed>
    requires going { S.failed store.old ≡ false }
    requires whole { S.tells → AreBlocks (S.shape_of store.old) (S.blocks store.old) }
    ensures logs { Logs S.Store store.old store.new [] (not (is_err result)) }
    ensures told { S.tells → IfOk result (λ found. walk_found (S.shape_of store.old) found
        ≡ (env_of (S.shape_of store.old) (S.blocks store.old)).store (place_of (S.shape_of store.old) address)) }
{
    let shape = store.shape();
    let Some(seg) = segment_of(&shape, address) else {
        return Ok(None);
    };
    let Some(place) = find_place(store, &shape, seg, address)? else {
        return Ok(None);
    };
    let undo = read_place(store, &shape, seg, place)?;
    Ok(Some(SegmentRecord { seg, undo }))
}

/// How a transaction stands, as far as its segment still tells.
pub fn read_look<S: Store>(store: &mut S, xid: Xid) -> Result<Look, Failed>
    requires going { S.failed store.old ≡ false }
    requires whole { S.tells → AreBlocks (S.shape_of store.old) (S.blocks store.old) }
    ensures logs { Logs S.Store store.old store.new [] (not (is_err result)) }
    ensures told { S.tells
        → IfOk result (λ look. look ≡ (env_of (S.shape_of store.old) (S.blocks store.old)).look xid) }
{
    let shape = store.shape();
    if xid.seg >= shape.segments || xid.slot as usize >= SLOTS {
        return Ok(untold(xid.wrap));
    }
    store.load(shape.header_block(xid.seg))?;
    Ok(look(store.block(), xid))
}

/// The greatest commit number of which a segment has given something up.
pub fn read_lost<S: Store>(store: &mut S, seg: u16) -> Result<Scn, Failed>
    requires going { S.failed store.old ≡ false }
    requires whole { S.tells → AreBlocks (S.shape_of store.old) (S.blocks store.old) }
    ensures logs { Logs S.Store store.old store.new [] (not (is_err result)) }
    ensures told { S.tells
        → IfOk result (λ lost. lost ≡ (env_of (S.shape_of store.old) (S.blocks store.old)).lost seg) }
{
    let shape = store.shape();
    if seg >= shape.segments {
        return Ok(0);
    }
    store.load(shape.header_block(seg))?;
    Ok(lost(store.block()))
}
