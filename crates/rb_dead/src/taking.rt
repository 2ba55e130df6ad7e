//! Changes of a dead transaction taken back, its newest first. What clears a home or a segment, and a sweep, call it.
ghost use Rattle.std.specs.Prelude.{◌≡◌, ◌<◌, ◌≤◌, ◌+◌, ◌-◌, ◌*◌, ◌^◌, ℕ, List};
ghost use Rattle.std.specs.Prelude.{length, min, true, false, not, Some, IfOk};
ghost use Rattle.std.specs.Result.{is_err};
ghost use Rattle.rb_base.specs.Groups.{Patch};
ghost use Rattle.rb_base.specs.Logs.{Logs};
ghost use Rattle.rb_base.specs.declared.ids.Xid.{Xid};
ghost use Rattle.rb_dead.specs.Takes.{FoundDead, Gives, HasDead, Takes};
ghost use Rattle.rb_model.specs.State.{State};

use crate::slot::{Dead, dead_in_slot};
use rb_base::{Failed, SLOTS, Store, Workspace};
use rb_rollback::{put_all_back, put_back};
use rb_sessions::Sessions;

/// Puts back up to `most` changes of a dead transaction, its newest first, and ends its slot where none is left.
/// Answers how many.
fn take<T: Store>(
    store: &mut T,
    workspace: &mut Workspace,
    found: Dead,
    most: u32,
) -> Result<u32, Failed>
    requires going { T.failed store.old ≡ false }
    requires there { found.xid.seg < (T.shape_of store.old).segments }
    requires slot { found.xid.slot < SLOTS }
    requires few { T.lsn store.old + min most found.live < 2 ^ 62 - 1 }
    ensures logs { (groups : List (List Patch)) × Logs T.Store store.old store.new groups (not (is_err result))
        × (length groups ≤ min most found.live + 1) }
    ensures most { IfOk result (λ n. n ≡ min most found.live) }
    ensures took { T.tells → (h : State) (xids : List Xid) (sessions : _) (owed left : ℕ)
        → HasDead T.Store h xids sessions owed store.old
        → FoundDead h (T.blocks store.old) (SLOTS * found.xid.seg + found.xid.slot) (Some found)
        → (not (is_err result) ≡ true → T.lsn store.new + left ≡ T.lsn store.old + owed)
        → Takes T.Store h xids sessions most (SLOTS * found.xid.seg + found.xid.slot) left
        store.old store.new result }
{
    if most < found.live {
        put_back(store, workspace, found.xid, most)?;
        return Ok(most);
    }
    put_all_back(store, workspace, found.xid, found.live)?;
    Ok(found.live)
}

/// Puts back up to `most` changes of the dead transaction that slot `i` of segment `seg` has, and ends the slot where
/// none is left. Answers how many: 0 where no dead one has the slot. `owed` is how many groups put back what all the
/// dead have, and falls by those that were given. `Failed` only where a call of the store failed. What the workspace
/// has afterwards is open.
pub fn take_dead<T: Store>(
    sessions: &Sessions,
    owed: &mut u64,
    store: &mut T,
    workspace: &mut Workspace,
    seg: u16,
    i: u16,
    most: u32,
) -> Result<u32, Failed>
    requires going { T.failed store.old ≡ false }
    requires there { seg < (T.shape_of store.old).segments }
    requires slot { i < SLOTS }
    requires few { T.lsn store.old + owed.old < 2 ^ 62 }
    ensures gives { Gives T.Store owed.old owed.new store.old store.new (not (is_err result)) }
    ensures most { IfOk result (λ n. n ≤ most) }
    ensures took { T.tells → (h : State) (xids : List Xid)
        → HasDead T.Store h xids sessions.now owed.old store.old
        → Takes T.Store h xids sessions.now most (SLOTS * seg + i) owed.new store.old store.new result }
{
    // Where the blocks are damaged the dead may have more than is owed.
    let Some(most_owed) = owed.checked_sub(1) else {
        return Ok(0);
    };
    let Some(found) = dead_in_slot(sessions, store, seg, i)? else {
        return Ok(0);
    };
    let before = store.logged();
    let taken = take(
        store,
        workspace,
        found,
        most.min(u32::try_from(most_owed).unwrap_or(u32::MAX)),
    )?;
    *owed = owed.saturating_sub(store.logged() - before);
    Ok(taken)
}
