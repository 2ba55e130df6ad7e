//! One attempt of a write: what stands in its way, and the group that makes it. rb_steps calls it.
ghost use Rattle.std.specs.Prelude.{◌≡◌, ◌*◌, ◌+◌, ◌<◌, ◌≤◌, List, [], true, false, not};
ghost use Rattle.std.specs.Prelude.{length, Some, IfOk, IfErr, OnErr, OnOk};
ghost use Rattle.rb_write.specs.Asks.{adds_for, kind_of, AreYoung, IsShort, IsWriterOf, MayWrite};
ghost use Rattle.rb_write.specs.Making.{IsMade, MakesIfAny};
ghost use Rattle.rb_write.specs.Refusals.{has_failed, HasCause, TakesAsk};
ghost use Rattle.rb_base.specs.Blocks.{after_group, home_block, AreWithin};
ghost use Rattle.rb_base.specs.Groups.{Patch};
ghost use Rattle.rb_base.specs.Logs.{Logs, group_of};
ghost use Rattle.rb_base.specs.declared.ids.Uba.{Uba};
ghost use Rattle.rb_base.specs.declared.ids.Xid.{Xid};
ghost use Rattle.rb_segment.specs.Header.{Header};
ghost use Rattle.law_blocks.specs.Standing.{logged_of};
ghost use Rattle.law_blocks.specs.Writing.{IsWritten};
ghost use Rattle.rb_undoblock.specs.declared.record.UndoRecord.{UndoRecord};

use crate::ask::{Ask, AttemptFault};
use crate::home::{Place, are_open, cell_for, clean_home};
use crate::segment::writer;
use crate::undo::put_change;
use rb_base::{SLOTS, Store, WORN, Workspace, Xid};
use rb_heap::choose;

/// Puts the write that is asked for into the group, or refuses to. The store is given no group by it, and only loads
/// blocks. The key is looked for once more here: who holds it was asked of its block as it is (`holder_of`), since a
/// write that waits for another transaction, or comes too late, leaves no group and so cleans nothing, while this one
/// is made in the cleaned block. A transaction that is still to be has no entry of its own there, so whether it finds
/// one is asked before it takes a table slot.
fn prepare<S: Store>(
    store: &mut S,
    ask: &Ask<'_>,
    workspace: &mut Workspace,
) -> Result<Xid, AttemptFault>
    requires going { S.failed store.old ≡ false }
    requires table { (1 ≤ ask.now.table) × (ask.now.table ≤ (S.shape_of store.old).tables) }
    requires short { IsShort ask.now.op }
    requires own { (x : Xid) → ask.now.own ≡ Some x
        → (x.seg < (S.shape_of store.old).segments) × (x.slot < SLOTS) }
    ensures logs { Logs S.Store store.old store.new [] (not (has_failed result)) }
    ensures there { IfOk result (λ x. (x.seg < (S.shape_of store.old).segments) × (x.slot < SLOTS)) }
    ensures some { OnOk result (0 < length workspace.new.group) }
    ensures within { OnOk result (AreWithin (S.shape_of store.old) workspace.new.group) }
    ensures made { S.tells → AreYoung (S.shape_of store.old) (S.blocks store.old)
        → IfOk result (IsMade (S.shape_of store.old) (S.blocks store.old)
        (after_group (logged_of (S.shape_of store.old) (S.blocks store.old) + 1) workspace.new.group
        (S.blocks store.old)) ask.now) }
    ensures takes { S.tells → AreYoung (S.shape_of store.old) (S.blocks store.old)
        → OnOk result (TakesAsk (S.shape_of store.old) (S.blocks store.old) ask.now) }
    ensures cause { S.tells → AreYoung (S.shape_of store.old) (S.blocks store.old)
        → MayWrite (S.shape_of store.old) (S.blocks store.old) ask.now.own → has_failed result ≡ false
        → IfErr result (HasCause (S.shape_of store.old) (S.blocks store.old) ask.now (S.lsn store.old)) }
    ensures numbers { OnOk result (S.lsn store.old < WORN) }
{
    let shape = store.shape();
    let block = shape.home_block(ask.table, ask.key);
    let Workspace {
        group,
        home,
        header,
    } = workspace;
    group.clear();
    clean_home(store, block, home, group)?;
    let cell = cell_for(home, ask)?;
    if ask.own.is_none() && are_open(home) {
        return Err(AttemptFault::SlotsFull);
    }
    let xid = writer(store, ask.own, header, group)?;
    let Some(entry) = choose(home, xid) else {
        return Err(AttemptFault::SlotsFull);
    };
    let place = Place { block, entry, cell };
    put_change(home, header, &shape, ask, xid, place, group)?;
    if store.logged() >= WORN {
        return Err(AttemptFault::WornOut);
    }
    Ok(xid)
}

/// Writes a key of a table by one group, or refuses to and logs none. The transaction runs, or takes a table slot of
/// the segment with the fewest that run. Its block is cleaned; the change takes a slot entry and a cell of it, and what
/// they were is kept in an undo record. The tests come in this order: whether the key has a row, a cell for a row that
/// is added, an entry, a table slot, room for the record, and the log's numbers. `Failed` only where a call of the
/// store failed. What the workspace has afterwards is open. In a damaged file, where the transaction that is asked with
/// doesn't run, it is `RollbackFull`. The key is no other's. (Oracle7 Server Concepts, *Rollback Segments*.)
pub fn attempt<S: Store>(
    store: &mut S,
    ask: &Ask<'_>,
    workspace: &mut Workspace,
) -> Result<Xid, AttemptFault>
    requires going { S.failed store.old ≡ false }
    requires table { (1 ≤ ask.now.table) × (ask.now.table ≤ (S.shape_of store.old).tables) }
    requires short { IsShort ask.now.op }
    requires own { (x : Xid) → ask.now.own ≡ Some x
        → (x.seg < (S.shape_of store.old).segments) × (x.slot < SLOTS) }
    ensures logs { (patches : List Patch)
        × Logs S.Store store.old store.new (group_of patches) (not (has_failed result)) }
    ensures refused { has_failed result ≡ false → OnErr result (Logs S.Store store.old store.new [] true) }
    ensures there { IfOk result (λ x. (x.seg < (S.shape_of store.old).segments) × (x.slot < SLOTS)) }
    ensures group { S.tells → S.lsn store.old ≡ logged_of (S.shape_of store.old) (S.blocks store.old)
        → AreYoung (S.shape_of store.old) (S.blocks store.old)
        → (patches : List Patch) × Logs S.Store store.old store.new (group_of patches) (not (has_failed result))
        × MakesIfAny (S.shape_of store.old) (S.blocks store.old) ask.now (S.lsn store.old) patches }
    ensures written { S.tells → S.lsn store.old ≡ logged_of (S.shape_of store.old) (S.blocks store.old)
        → AreYoung (S.shape_of store.old) (S.blocks store.old)
        → IfOk result (λ x. (address : Uba) × (u : UndoRecord) × (ready : Header)
        × IsWriterOf (S.shape_of store.old) (S.blocks store.old) ask.now.own x ready
        × (u.table ≡ ask.now.table) × (u.key ≡ ask.now.key) × (u.wrap ≡ x.wrap)
        × (u.home ≡ home_block (S.shape_of store.old) ask.now.table ask.now.key)
        × IsWritten (S.shape_of store.old) (16 * x.seg + x.slot)
        (adds_for (S.shape_of store.old) (S.blocks store.old) ask.now) (kind_of ask.now.op) address u
        (S.blocks store.old) (S.blocks store.new)) }
    ensures takes { S.tells → AreYoung (S.shape_of store.old) (S.blocks store.old)
        → OnOk result (TakesAsk (S.shape_of store.old) (S.blocks store.old) ask.now) }
    ensures cause { S.tells → AreYoung (S.shape_of store.old) (S.blocks store.old)
        → MayWrite (S.shape_of store.old) (S.blocks store.old) ask.now.own → has_failed result ≡ false
        → IfErr result (HasCause (S.shape_of store.old) (S.blocks store.old) ask.now (S.lsn store.old)) }
    ensures numbers { OnOk result (S.lsn store.old < WORN) }
{
    let xid = prepare(store, ask, workspace)?;
    store.apply(&workspace.group)?;
    Ok(xid)
}
