//! Tests the live records of each Active table slot, one after another. `blocks` calls it once for a file.
ghost use Rattle.std.specs.Prelude.{IsTrue, ◌≡◌, ◌↔◌, ℕ, ◌+◌, ◌<◌, ◌≤◌, true, false, not};
ghost use Rattle.std.specs.Prelude.{[], length, IfNone, IfOk, IfSome};
ghost use Rattle.std.specs.Result.{is_err};
ghost use Rattle.rb_base.specs.Blocks.{block_of, header_block, IsShape};
ghost use Rattle.rb_base.specs.Logs.{Logs};
ghost use Rattle.rb_segment.specs.Header.{header_of, ord_in, segment_of, slot_in};
ghost use Rattle.rb_sound.specs.Active.{AreActive, Chain, Fits, HasBegun, IsActive, IsLive, IsValid};

use crate::home::{Limits, cell_sound, entry_sound};
use rb_base::{
    ACTIVE, Failed, SEGMENT_BLOCKS, SLOTS, Shape, Store, UNIT, Uba, VALUE_BYTES, Xid, copy_block,
    u16_at,
};
use rb_cell::{CELLS, cell_from};
use rb_itl::{ENTRIES, entry_from};
use rb_ring::{EXTENT_BLOCKS, EXTENTS, extent_ord, head_extent, head_records, writes};
use rb_txntable::{TableSlot, slot_at};
use rb_undoblock::{UNDO_RECORDS, UndoRecord, undo_at};

/// The byte of a cell at which the length of its value begins.
const LENGTH_AT: usize = 2;

/// Whether extent `e`, 0 to 7, has that turn and a record at that position, 0 to 39: the head has no more than the
/// header counts, and each other one is full.
fn has_record(header: &[u8], e: usize, turn: u64, position: u32) -> bool
    requires header { length header.now ≡ UNIT }
    requires place { e < EXTENTS }
    ensures { IsTrue result ↔ ((ord_in (header_of header.now) e ≡ turn)
        × (e ≡ (header_of header.now).head → position < (header_of header.now).records)) }
{
    if e == head_extent(header) as usize && position >= head_records(header) as u32 {
        return false;
    }
    extent_ord(header, e) == turn
}

/// Whether an address is that of a record which segment `g` has, by the segment's header.
fn is_valid(shape: Shape, g: u16, header: &[u8], at: Uba) -> bool
    requires in_range { IsShape shape }
    requires there { g < shape.segments }
    requires header { length header.now ≡ UNIT }
    ensures { IsTrue result ↔ IsValid shape g (header_of header.now) at }
{
    let block = shape.header_block(g);
    if at.ord == 0 || at.block <= block || at.rec >= UNDO_RECORDS as u16 {
        return false;
    }
    let behind = at.block - block - 1;
    if behind >= SEGMENT_BLOCKS - 1 {
        return false;
    }
    let position = UNDO_RECORDS as u32 * (behind % EXTENT_BLOCKS) + at.rec as u32;
    has_record(header, (behind / EXTENT_BLOCKS) as usize, at.ord, position)
}

/// Whether a record is that of number `n` of a transaction's live ones, and names a block of rows, an entry and a cell
/// that there are.
fn is_of(shape: Shape, xid: Xid, n: u32, undo: &UndoRecord) -> bool
    requires { IsShape shape }
    ensures { IsTrue result ↔ IsLive shape xid n undo.now }
{
    undo.slot as u16 == xid.slot
        && undo.wrap == xid.wrap
        && undo.number == n
        && undo.home < shape.table_blocks()
        && undo.entry < ENTRIES
        && undo.cell < CELLS
}

/// Whether what a record keeps could stand in its block.
fn could_stand(undo: &UndoRecord, limits: &Limits) -> bool
    requires { IsShape limits.now.shape }
    ensures { IsTrue result ↔ Fits limits.now undo.now }
{
    if u16_at(&undo.cell_before, LENGTH_AT) as usize > VALUE_BYTES {
        return false;
    }
    entry_sound(&entry_from(&undo.entry_before), limits)
        && cell_sound(
            &cell_from(&undo.cell_before),
            limits.shape,
            undo.home % limits.shape.blocks,
        )
}

/// The same as `is_of`, and what the record keeps could stand in its block, by the numbers of the file.
fn is_live(shape: Shape, xid: Xid, n: u32, undo: &UndoRecord, limits: &Limits) -> bool
    requires shape { IsShape shape }
    requires limits { IsShape limits.now.shape }
    ensures { IsTrue result ↔ (IsLive shape xid n undo.now × Fits limits.now undo.now) }
{
    is_of(shape, xid, n, undo) && could_stand(undo, limits)
}

/// The address that the record at an address keeps of the one before it, where that is number `n` of a transaction's
/// live ones, from 1 on. The transaction's segment has that header. `Failed` where the record's block can't be loaded.
fn previous<S: Store>(
    store: &mut S,
    shape: Shape,
    header: &[u8],
    xid: Xid,
    n: u32,
    at: Uba,
    limits: &Limits,
) -> Result<Option<Uba>, Failed>
    requires going { S.failed store.old ≡ false }
    requires shape { shape ≡ S.shape_of store.old }
    requires in_range { IsShape shape }
    requires limits { IsShape limits.now.shape }
    requires there { xid.seg < shape.segments }
    requires header { length header.now ≡ UNIT }
    requires told { S.tells → header.now ≡ block_of (S.blocks store.old) (header_block shape xid.seg) }
    requires some { 1 ≤ n }
    ensures logs { Logs S.Store store.old store.new [] (not (is_err result)) }
    ensures some { S.tells → IfOk result (λ found. IfSome found (λ before. (k : ℕ) → n ≡ k + 1
        → Chain (Fits limits.now) shape (segment_of shape (S.blocks store.old) xid.seg) xid n at
        ↔ Chain (Fits limits.now) shape (segment_of shape (S.blocks store.old) xid.seg) xid k before)) }
    ensures none { S.tells → IfOk result (λ found. IfNone found
        (¬ Chain (Fits limits.now) shape (segment_of shape (S.blocks store.old) xid.seg) xid n at)) }
{
    if !is_valid(shape, xid.seg, header, at) {
        return Ok(None);
    }
    store.load(at.block)?;
    let undo = undo_at(store.block(), at.rec as u8);
    if is_live(shape, xid, n, &undo, limits) {
        Ok(Some(undo.previous))
    } else {
        Ok(None)
    }
}

/// Whether there are exactly `live` records of a transaction from an address on, numbered down to 1. The transaction's
/// segment has that header. However many a file claims, it ends after at most 320: no place has two numbers.
fn chain_sound<S: Store>(
    store: &mut S,
    shape: Shape,
    header: &[u8],
    xid: Xid,
    live: u32,
    newest: Uba,
    limits: &Limits,
) -> Result<bool, Failed>
    requires going { S.failed store.old ≡ false }
    requires shape { shape ≡ S.shape_of store.old }
    requires in_range { IsShape shape }
    requires limits { IsShape limits.now.shape }
    requires there { xid.seg < shape.segments }
    requires header { length header.now ≡ UNIT }
    requires told { S.tells → header.now ≡ block_of (S.blocks store.old) (header_block shape xid.seg) }
    ensures logs { Logs S.Store store.old store.new [] (not (is_err result)) }
    ensures told { S.tells → IfOk result (λ sound. sound ≡ true
        ↔ Chain (Fits limits.now) shape (segment_of shape (S.blocks store.old) xid.seg) xid live newest) }
{
    let mut at = newest;
    for done in 0..live {
        let Some(before) = previous(store, shape, header, xid, live - done, at, limits)? else {
            return Ok(false);
        };
        at = before;
    }
    Ok(at.ord == 0)
}

/// Whether an extent has that turn.
fn has_turn(header: &[u8], turn: u64) -> bool
    requires { length header.now ≡ UNIT }
    ensures { IsTrue result ↔ ((e : ℕ) × (e < EXTENTS) × (ord_in (header_of header.now) e ≡ turn)) }
{
    for e in 0..EXTENTS {
        if extent_ord(header, e) == turn {
            return true;
        }
    }
    false
}

/// Whether the turn of a slot's first record is in the ring, and the slot wasn't taken behind the last record.
fn has_begun(header: &[u8], slot: &TableSlot) -> bool
    requires { length header.now ≡ UNIT }
    ensures { IsTrue result ↔ HasBegun (header_of header.now) slot.now }
{
    if slot.first == 0 || slot.start > writes(header) {
        return false;
    }
    has_turn(header, slot.first)
}

/// Whether table slot `i` of segment `g`, which has that header, isn't Active or has its live records.
fn slot_sound<S: Store>(
    store: &mut S,
    shape: Shape,
    g: u16,
    header: &[u8],
    i: u8,
    limits: &Limits,
) -> Result<bool, Failed>
    requires going { S.failed store.old ≡ false }
    requires shape { shape ≡ S.shape_of store.old }
    requires in_range { IsShape shape }
    requires limits { IsShape limits.now.shape }
    requires there { g < shape.segments }
    requires header { length header.now ≡ UNIT }
    requires told { S.tells → header.now ≡ block_of (S.blocks store.old) (header_block shape g) }
    requires place { i < SLOTS }
    ensures logs { Logs S.Store store.old store.new [] (not (is_err result)) }
    ensures told { S.tells → IfOk result (λ sound. sound ≡ true
        ↔ ((slot_in (segment_of shape (S.blocks store.old) g).header i).state ≡ ACTIVE
        → IsActive (Fits limits.now) shape g (segment_of shape (S.blocks store.old) g) i)) }
{
    let slot = slot_at(header, i);
    if slot.state != ACTIVE {
        return Ok(true);
    }
    if !has_begun(header, &slot) {
        return Ok(false);
    }
    let xid = Xid {
        seg: g,
        slot: i as u16,
        wrap: slot.wrap,
    };
    chain_sound(store, shape, header, xid, slot.live, slot.newest_at, limits)
}

/// The same for each table slot of segment `g`.
fn slots_sound<S: Store>(
    store: &mut S,
    shape: Shape,
    g: u16,
    limits: &Limits,
) -> Result<bool, Failed>
    requires going { S.failed store.old ≡ false }
    requires shape { shape ≡ S.shape_of store.old }
    requires in_range { IsShape shape }
    requires limits { IsShape limits.now.shape }
    requires there { g < shape.segments }
    ensures logs { Logs S.Store store.old store.new [] (not (is_err result)) }
    ensures told { S.tells → IfOk result (λ sound. sound ≡ true ↔ ((i : ℕ) → i < SLOTS
        → (slot_in (segment_of shape (S.blocks store.old) g).header i).state ≡ ACTIVE
        → IsActive (Fits limits.now) shape g (segment_of shape (S.blocks store.old) g) i)) }
{
    let mut header = [0; UNIT];
    copy_block(store, shape.header_block(g), &mut header)?;
    for i in 0..SLOTS as u8 {
        if !slot_sound(store, shape, g, &header, i, limits)? {
            return Ok(false);
        }
    }
    Ok(true)
}

/// Whether each Active table slot of the file has its live records, in whatever state the headers are.
pub fn active_sound<S: Store>(store: &mut S, limits: &Limits) -> Result<bool, Failed>
    requires going { S.failed store.old ≡ false }
    requires limits { IsShape limits.now.shape }
    ensures logs { Logs S.Store store.old store.new [] (not (is_err result)) }
    ensures told { S.tells → IfOk result (λ sound. sound ≡ true
        ↔ AreActive (Fits limits.now) (S.shape_of store.old) (S.blocks store.old)) }
{
    let shape = store.shape();
    for g in 0..shape.segments {
        if !slots_sound(store, shape, g, limits)? {
            return Ok(false);
        }
    }
    Ok(true)
}
