//! Puts back one change. Rollbacks call it, one call for each change.
ghost use Rattle.std.specs.Prelude.{◌≡◌, ◌⊎◌, ◌+◌, ◌^◌, ◌<◌, ◌≤◌, false, true, not};
ghost use Rattle.std.specs.Prelude.{List, [], ◌∷◌, length, OnOk};
ghost use Rattle.std.specs.Result.{is_err};
ghost use Rattle.rb_base.specs.Groups.{Patch};
ghost use Rattle.rb_base.specs.Logs.{Logs};
ghost use Rattle.rb_undo.specs.Backs.{back_patches, header_for, newest_record, ArePutBack, CanBack, TakesBack};

use crate::find::newest;
use rb_base::{Failed, SLOTS, Store, Workspace, Xid, copy_block};
use rb_cell::cell_from;
use rb_heap::change;
use rb_itl::entry_from;
use rb_segment::take_back;

/// Puts back the newest live change of a transaction, by one group: the cell and the slot entry of its block become
/// what the change's undo record kept, and the transaction has one live record less. What the workspace has is open.
/// Nothing is done where the transaction doesn't run or has no live change, and where no record of the change is found,
/// as in a damaged file. `Failed` only where a call of the store failed. (Oracle7 Server Concepts, *Rollback Segments*:
/// how a transaction is rolled back.)
pub fn back<S: Store>(store: &mut S, xid: Xid, workspace: &mut Workspace) -> Result<(), Failed>
    requires going { S.failed store.old ≡ false }
    requires there { xid.seg < (S.shape_of store.old).segments }
    requires slot { xid.slot < SLOTS }
    requires few { S.lsn store.old < 2 ^ 62 }
    ensures logs { (groups : List (List Patch)) × Logs S.Store store.old store.new groups (not (is_err result))
        × (S.tells → (groups ≡ [])
        ⊎ ArePutBack (S.shape_of store.old) xid (S.lsn store.old) (S.blocks store.old) groups)
        × (length groups ≤ 1) }
    ensures put_back { S.tells → CanBack (S.shape_of store.old) (S.blocks store.old) xid
        → OnOk result (Logs S.Store store.old store.new (back_patches (S.shape_of store.old) xid
        (newest_record (S.shape_of store.old) (S.blocks store.old) xid)
        (header_for (S.shape_of store.old) (S.blocks store.old) xid) ∷ []) true) }
    ensures means { S.tells → CanBack (S.shape_of store.old) (S.blocks store.old) xid
        → OnOk result (TakesBack (S.shape_of store.old) xid
        (newest_record (S.shape_of store.old) (S.blocks store.old) xid) (S.blocks store.old) (S.blocks store.new)) }
    ensures nothing { S.tells → ¬ CanBack (S.shape_of store.old) (S.blocks store.old) xid
        → OnOk result (Logs S.Store store.old store.new [] true) }
{
    let shape = store.shape();
    copy_block(store, shape.header_block(xid.seg), &mut workspace.header)?;
    let Some(undo) = newest(store, &shape, &workspace.header, xid)? else {
        return Ok(());
    };
    let group = &mut workspace.group;
    group.clear();
    let cell = cell_from(&undo.cell_before);
    let entry = entry_from(&undo.entry_before);
    change(group, undo.home, undo.cell, &cell, undo.entry, &entry);
    take_back(&mut workspace.header, &shape, xid, undo.previous, group);
    store.apply(group)
}
