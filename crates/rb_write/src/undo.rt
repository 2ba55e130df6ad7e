//! What a change adds to a group: its undo record, which keeps what the change finds, and the cell and the slot entry.
//! `attempt` calls it.
ghost use Rattle.std.specs.Prelude.{◌≡◌, ◌+◌, ◌^◌, ◌<◌, ◌≤◌, ℕ, length, IfErr, OnOk};
ghost use Rattle.rb_write.specs.Asks.{kind_of, IsShort};
ghost use Rattle.rb_write.specs.Making.{Changes, IsUndoOf};
ghost use Rattle.rb_base.specs.Blocks.{table_blocks, AreWithin, IsShape};
ghost use Rattle.rb_base.specs.Fields.{part};
ghost use Rattle.rb_base.specs.Groups.{group_length, IsGroup};
ghost use Rattle.rb_cell.specs.Cells.{cell_place};
ghost use Rattle.rb_heap.specs.Homes.{home_entry, home_of};
ghost use Rattle.rb_itl.specs.Entries.{entry_place};
ghost use Rattle.rb_segment.specs.Calls.{IsSince, IsYoungAt, Runs};
ghost use Rattle.rb_segment.specs.Header.{header_of};
ghost use Rattle.rb_segment.specs.Moves.{NoneMayTurn};
ghost use Rattle.law_blocks.specs.Says.{sort_by};
ghost use Rattle.law_home.specs.Kinds.{sort_of};

use crate::ask::{Ask, AttemptFault};
use crate::home::{Place, new_cell, new_entry};
use rb_base::{BLOCK_HEAD, GROUP_BYTES, GROUP_PATCHES, Group, SLOTS, Shape, UNIT, Xid};
use rb_cell::{CELL_BYTES, CELLS, CELLS_AT, cells};
use rb_heap::change;
use rb_itl::{ENTRIES, ENTRY_BYTES, OPEN, entry};
use rb_model::Op;
use rb_segment::{RECORD_BYTES, TURN_BYTES, add_record};
use rb_txntable::slot_at;
use rb_undoblock::{GONE, HELD, PUT, UndoRecord};

/// The kind of the change, as an undo record tells it.
fn kind(ask: &Ask<'_>) -> u8
    ensures { sort_by result ≡ sort_of (kind_of ask.now.op) }
{
    match ask.op {
        Some(Op::Insert(_) | Op::Update(_) | Op::Put(_)) => PUT,
        Some(Op::Delete) => GONE,
        None => HELD,
    }
}

/// The bytes of slot entry `i`, 0 to 7.
fn entry_bytes(home: &[u8], i: u8) -> [u8; ENTRY_BYTES]
    requires block { length home.now ≡ UNIT }
    requires place { i < ENTRIES }
    ensures { result ≡ part home.now (entry_place i) ENTRY_BYTES }
{
    let at = BLOCK_HEAD + ENTRY_BYTES * i as usize;
    let mut bytes = [0; ENTRY_BYTES];
    bytes.copy_from_slice(&home[at..at + ENTRY_BYTES]);
    bytes
}

/// The bytes of cell `c`, 0 to 15.
fn cell_bytes(home: &[u8], c: u8) -> [u8; CELL_BYTES]
    requires block { length home.now ≡ UNIT }
    requires place { c < CELLS }
    ensures { result ≡ part home.now (cell_place c) CELL_BYTES }
{
    let at = CELLS_AT + CELL_BYTES * c as usize;
    let mut bytes = [0; CELL_BYTES];
    bytes.copy_from_slice(&home[at..at + CELL_BYTES]);
    bytes
}

/// The record of a change that the transaction makes at that place. The copy of the home is as the change finds it, and
/// the copy of the header has the transaction's slot.
fn undo_for(home: &[u8], header: &[u8], ask: &Ask<'_>, xid: Xid, place: Place) -> UndoRecord
    requires home { length home.now ≡ UNIT }
    requires header { length header.now ≡ UNIT }
    requires slot { xid.slot < SLOTS }
    requires entry { place.entry < ENTRIES }
    requires cell { place.cell < CELLS }
    ensures { IsUndoOf home.now (header_of header.now) ask.now xid place result }
{
    let slot = slot_at(header, xid.slot as u8);
    UndoRecord {
        wrap: xid.wrap,
        key: ask.key,
        number: slot.live.saturating_add(1),
        home: place.block,
        table: ask.table,
        slot: xid.slot as u8,
        kind: kind(ask),
        entry: place.entry,
        cell: place.cell,
        previous: slot.newest_at,
        entry_before: entry_bytes(home, place.entry),
        cell_before: cell_bytes(home, place.cell),
    }
}

/// Puts a change at that place into the group: its record, and then the cell and the slot entry. The copy of the home
/// is as the change finds it. That of the header has the transaction's slot, and then the record. `RollbackFull` where
/// the segment has no room for the record.
pub fn put_change(
    home: &[u8],
    header: &mut [u8],
    shape: &Shape,
    ask: &Ask<'_>,
    xid: Xid,
    place: Place,
    group: &mut Group,
) -> Result<(), AttemptFault>
    requires home { length home.now ≡ UNIT }
    requires header { length header.old ≡ UNIT }
    requires in_range { IsShape shape.now }
    requires there { xid.seg < shape.now.segments }
    requires runs { Runs (header_of header.old) xid }
    requires block { place.block < table_blocks shape.now }
    requires entry { place.entry < ENTRIES }
    requires cell { place.cell < CELLS }
    requires short { IsShort ask.now.op }
    requires count { length group.old + 9 ≤ GROUP_PATCHES }
    requires room { group_length group.old + TURN_BYTES + RECORD_BYTES + (8 + CELL_BYTES) + (8 + ENTRY_BYTES)
        ≤ GROUP_BYTES }
    ensures some { OnOk result (0 < length group.new) }
    ensures valid { OnOk result (IsGroup group.new) }
    ensures within { OnOk result (AreWithin shape.now group.old → AreWithin shape.now group.new) }
    ensures made { OnOk result (IsYoungAt (header_of header.old) xid.slot
        → ((home_entry (home_of home.now) place.entry).kind ≡ OPEN
        → (home_entry (home_of home.now) place.entry).length < 2 ^ 31)
        → Changes shape.now ask.now xid place home.now header.old header.new group.old group.new) }
    ensures full { IfErr result (λ fault. (since : ℕ) × (fault ≡ AttemptFault.RollbackFull xid.seg since)
        × NoneMayTurn (header_of header.old) × IsSince (header_of header.old) since) }
{
    let undo = undo_for(home, header, ask, xid, place);
    let address = match add_record(header, shape, xid, &undo, group) {
        Ok(address) => address,
        Err(full) => {
            return Err(AttemptFault::RollbackFull {
                seg: full.seg,
                since: full.since,
            });
        }
    };
    let cell = new_cell(ask, cells(home, place.cell), place.entry);
    let entry = new_entry(xid, address, entry(home, place.entry));
    change(group, place.block, place.cell, &cell, place.entry, &entry);
    // For the proof: what a group holds is a group of patches.
    let _count = group.patches();
    Ok(())
}
