//! Finds the undo record of the newest live change of a transaction. `back` calls it.
ghost use Rattle.std.specs.Prelude.{IsTrue, ◌≡◌, ◌↔◌, ◌<◌, ◌≤◌, false, not, [], length};
ghost use Rattle.std.specs.Prelude.{IfNone, IfOk, IfSome};
ghost use Rattle.std.specs.Result.{is_err};
ghost use Rattle.rb_base.specs.Blocks.{block_of, header_block, shape_blocks, table_blocks, IsShape};
ghost use Rattle.rb_base.specs.Logs.{Logs};
ghost use Rattle.rb_segment.specs.Calls.{Runs};
ghost use Rattle.rb_segment.specs.Header.{header_of, slot_in};
ghost use Rattle.rb_undo.specs.Backs.{newest_record, CanBack};

use rb_base::{Failed, SLOTS, Shape, Store, UNIT, Uba, Xid};
use rb_cell::CELLS;
use rb_itl::ENTRIES;
use rb_txntable::running;
use rb_undoblock::{UNDO_RECORDS, UndoRecord, undo_at};

/// The address of the newest live record of a transaction, as its segment's header says. None exactly where it doesn't
/// run or has no live record.
fn newest_at(header: &[u8], xid: Xid) -> Option<Uba>
    requires header { length header.now ≡ UNIT }
    requires slot { xid.slot < SLOTS }
    ensures some { IfSome result (λ at. Runs (header_of header.now) xid
        × (1 ≤ (slot_in (header_of header.now) xid.slot).live)
        × (at ≡ (slot_in (header_of header.now) xid.slot).newest_at)) }
    ensures none { IfNone result (Runs (header_of header.now) xid
        → (slot_in (header_of header.now) xid.slot).live ≡ 0) }
{
    match running(header, xid) {
        Some(slot) if slot.live > 0 => Some(slot.newest_at),
        _ => None,
    }
}

/// Whether the address is one, and of a place for a record in a block of the file.
fn is_place(shape: &Shape, at: Uba) -> bool
    requires { IsShape shape.now }
    ensures { IsTrue result ↔ ((1 ≤ at.ord) × (at.block < shape_blocks shape.now) × (at.rec < UNDO_RECORDS)) }
{
    at.ord > 0 && at.block < shape.block_count() && at.rec < u16::from(UNDO_RECORDS)
}

/// Whether the record names a block of rows, an entry and a cell that there are.
fn has_home(shape: &Shape, undo: &UndoRecord) -> bool
    requires { IsShape shape.now }
    ensures { IsTrue result ↔ ((undo.now.home < table_blocks shape.now) × (undo.now.entry < ENTRIES)
        × (undo.now.cell < CELLS)) }
{
    undo.home < shape.table_blocks() && undo.entry < ENTRIES && undo.cell < CELLS
}

/// The record of the newest live change of a transaction, whose segment has that header, where it is found: the
/// transaction runs and has a live record, the address is of a place in the file, and the record there names a block of
/// rows, an entry and a cell that there are. The store is given no group, and its block is loaded. `Failed` where it
/// can't be loaded.
pub fn newest<S: Store>(
    store: &mut S,
    shape: &Shape,
    header: &[u8],
    xid: Xid,
) -> Result<Option<UndoRecord>, Failed>
    requires going { S.failed store.old ≡ false }
    requires shape { shape.now ≡ S.shape_of store.old }
    requires in_range { IsShape shape.now }
    requires header { length header.now ≡ UNIT }
    requires slot { xid.slot < SLOTS }
    requires told { S.tells → header.now ≡ block_of (S.blocks store.old) (header_block shape.now xid.seg) }
    ensures logs { Logs S.Store store.old store.new [] (not (is_err result)) }
    ensures live { IfOk result (λ found. IfSome found (λ _. Runs (header_of header.now) xid
        × (1 ≤ (slot_in (header_of header.now) xid.slot).live))) }
    ensures home { IfOk result (λ found. IfSome found (λ undo. (undo.home < table_blocks shape.now)
        × (undo.entry < ENTRIES) × (undo.cell < CELLS))) }
    ensures found { S.tells → IfOk result (λ found. IfSome found (λ undo.
        CanBack shape.now (S.blocks store.old) xid × (undo ≡ newest_record shape.now (S.blocks store.old) xid))) }
    ensures none { S.tells → IfOk result (λ found. IfNone found (¬ CanBack shape.now (S.blocks store.old) xid)) }
{
    let Some(at) = newest_at(header, xid) else {
        return Ok(None);
    };
    if !is_place(shape, at) {
        return Ok(None);
    }
    store.load(at.block)?;
    let undo = undo_at(store.block(), at.rec as u8);
    if !has_home(shape, &undo) {
        return Ok(None);
    }
    Ok(Some(undo))
}
