//! Rolls back all that is under way. rb_recovery calls it.
ghost use Rattle.std.specs.Prelude.{◌≡◌, ◌+◌, ◌*◌, ◌^◌, ◌<◌, ◌≤◌, ℕ, List, length};
ghost use Rattle.std.specs.Prelude.{false, not, OnOk};
ghost use Rattle.std.specs.Result.{is_err};
ghost use Rattle.rb_base.specs.Blocks.{IsShape};
ghost use Rattle.rb_base.specs.Groups.{Patch};
ghost use Rattle.rb_base.specs.Logs.{Logs};
ghost use Rattle.rb_model.specs.Rows.{TableRow};
ghost use Rattle.rb_restart.specs.Rollback.{RolledBack, StaySound};
ghost use Rattle.rb_restart.specs.Steps.{IsIdle, Rolls};
ghost use Rattle.law_blocks.specs.Standing.{SoundAs, logged_of};

use crate::ending::end_slot;
use crate::transaction::roll_back;
use rb_base::{ACTIVE, Failed, SLOTS, Shape, Store, Workspace, Xid};
use rb_txntable::slot_at;

/// Puts back the transaction of table slot `i` of segment `seg`, if one runs, and ends the slot.
fn roll_back_slot<S: Store>(
    store: &mut S,
    shape: Shape,
    seg: u16,
    i: u16,
    workspace: &mut Workspace,
) -> Result<(), Failed>
    requires going { S.failed store.old ≡ false }
    requires shape { shape ≡ S.shape_of store.old }
    requires in_range { IsShape shape }
    requires there { seg < shape.segments }
    requires slot { i < SLOTS }
    requires few { S.lsn store.old + 2 ^ 32 < 2 ^ 62 }
    ensures { Rolls S.Store shape store.old store.new (2 ^ 32) (not (is_err result))
        (λ now. IsIdle shape now (16 * seg + i)) }
{
    store.load(shape.header_block(seg))?;
    let slot = slot_at(store.block(), i as u8);
    if slot.state != ACTIVE {
        return Ok(());
    }
    let xid = Xid {
        seg,
        slot: i,
        wrap: slot.wrap,
    };
    roll_back(store, shape, xid, slot.live, workspace)?;
    end_slot(store, shape, xid, workspace)
}

/// Puts back the transactions of segment `seg` that run, slot by slot.
fn roll_back_segment<S: Store>(
    store: &mut S,
    shape: Shape,
    seg: u16,
    workspace: &mut Workspace,
) -> Result<(), Failed>
    requires going { S.failed store.old ≡ false }
    requires shape { shape ≡ S.shape_of store.old }
    requires in_range { IsShape shape }
    requires there { seg < shape.segments }
    requires few { S.lsn store.old + 2 ^ 36 < 2 ^ 62 }
    ensures { Rolls S.Store shape store.old store.new (2 ^ 36) (not (is_err result))
        (λ now. (i : ℕ) → i < SLOTS → IsIdle shape now (16 * seg + i)) }
{
    for i in 0..SLOTS as u16 {
        roll_back_slot(store, shape, seg, i, workspace)?;
    }
    Ok(())
}

/// Puts back every live change of every transaction that runs, each transaction's newest first, and ends its table
/// slot: one group for each change and one for each slot. It may be stopped at any moment and begun again. In a damaged
/// file it does what it can. `Failed` only where a call of the store failed. (Oracle7 Server Concepts, *Database
/// Recovery*: rolling back after rolling forward.)
pub fn roll_back_all<S: Store>(store: &mut S, workspace: &mut Workspace) -> Result<(), Failed>
    requires going { S.failed store.old ≡ false }
    requires few { S.lsn store.old ≤ 2 ^ 61 + 2 ^ 60 }
    ensures rolled_back { (groups : List (List Patch))
        × Logs S.Store store.old store.new groups (not (is_err result))
        × (length groups ≤ 2 ^ 40)
        × ((number : ℕ) (rows : List TableRow) → S.tells
        → S.lsn store.old ≡ logged_of (S.shape_of store.old) (S.blocks store.old)
        → SoundAs (S.shape_of store.old) (S.blocks store.old) number rows
        → StaySound (S.shape_of store.old) number rows (S.lsn store.old) groups (S.blocks store.old)
        × OnOk result (RolledBack (S.shape_of store.old) groups (S.blocks store.old) (S.blocks store.new))) }
{
    let shape = store.shape();
    for seg in 0..shape.segments {
        roll_back_segment(store, shape, seg, workspace)?;
    }
    Ok(())
}
