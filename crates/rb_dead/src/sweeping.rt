//! Dead transactions put back by the slots that they have: all of a segment, or the changes of so many, in the order of
//! the slots.
ghost use Rattle.std.specs.Prelude.{◌≡◌, ◌<◌, ◌≤◌, ◌+◌, ◌^◌, ℕ, List, false, not, IfOk};
ghost use Rattle.std.specs.Result.{is_err};
ghost use Rattle.rb_base.specs.declared.ids.Xid.{Xid};
ghost use Rattle.rb_model.specs.Dead.{segment_cleared};
ghost use Rattle.rb_dead.specs.Takes.{Gives, HasDead, LeadsTo, Sweeps};
ghost use Rattle.rb_model.specs.State.{State};

use crate::taking::take_dead;
use rb_base::{Failed, SLOTS, Store, Workspace};
use rb_sessions::Sessions;

/// Puts back whole all dead transactions of segment `seg`. `owed` is how many groups put back what all the dead have,
/// and falls by those that were given. `Failed` only where a call of the store failed. What the workspace has
/// afterwards is open.
pub fn clear_segment<T: Store>(
    sessions: &Sessions,
    owed: &mut u64,
    store: &mut T,
    workspace: &mut Workspace,
    seg: u16,
) -> Result<(), Failed>
    requires going { T.failed store.old ≡ false }
    requires there { seg < (T.shape_of store.old).segments }
    requires few { T.lsn store.old + owed.old < 2 ^ 62 }
    ensures gives { Gives T.Store owed.old owed.new store.old store.new (not (is_err result)) }
    ensures cleared { T.tells → (h : State) (xids : List Xid)
        → HasDead T.Store h xids sessions.now owed.old store.old
        → LeadsTo T.Store h (segment_cleared seg h) xids sessions.now owed.new store.old store.new
        (not (is_err result)) }
{
    for i in 0..SLOTS as u16 {
        take_dead(sessions, owed, store, workspace, seg, i, u32::MAX)?;
    }
    Ok(())
}

/// Puts back up to `most` changes of dead transactions, in the order of their slots, each one's newest first, and ends
/// each slot of which no change is left. Answers how many. `owed` is how many groups put back what all the dead have,
/// and falls by those that were given. `Failed` only where a call of the store failed. What the workspace has
/// afterwards is open.
pub fn sweep<T: Store>(
    sessions: &Sessions,
    owed: &mut u64,
    store: &mut T,
    workspace: &mut Workspace,
    most: u32,
) -> Result<u32, Failed>
    requires going { T.failed store.old ≡ false }
    requires few { T.lsn store.old + owed.old < 2 ^ 62 }
    ensures gives { Gives T.Store owed.old owed.new store.old store.new (not (is_err result)) }
    ensures most { IfOk result (λ n. n ≤ most) }
    ensures swept { T.tells → (h : State) (xids : List Xid)
        → HasDead T.Store h xids sessions.now owed.old store.old
        → Sweeps T.Store h xids sessions.now most owed.new store.old store.new result }
{
    let slots = store.shape().segments * SLOTS as u16;
    let mut left = most;
    for t in 0..slots {
        left -= take_dead(
            sessions,
            owed,
            store,
            workspace,
            t / SLOTS as u16,
            t % SLOTS as u16,
            left,
        )?;
    }
    Ok(most - left)
}
