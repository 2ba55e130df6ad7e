//! The newest change of a session's transaction put back. The engine's rollback calls it for each.
ghost use Rattle.std.specs.Prelude.{◌≡◌, ◌^◌, ◌<◌, ◌≤◌, ℕ, List, [], ◌∷◌, ◌++◌};
ghost use Rattle.std.specs.Prelude.{true, false, not, length, OnOk};
ghost use Rattle.std.specs.Result.{is_err};
ghost use Rattle.rb_write.specs.Asks.{header_in};
ghost use Rattle.rb_base.specs.Groups.{Patch};
ghost use Rattle.rb_base.specs.Logs.{Logs};
ghost use Rattle.rb_base.specs.declared.ids.Xid.{Xid};
ghost use Rattle.law_crash.specs.Made.{BackMade, GivesOne};
ghost use Rattle.rb_model.specs.Calls.{Owned};
ghost use Rattle.rb_model.specs.Change.{Change};
ghost use Rattle.rb_model.specs.State.{State, session_own};
ghost use Rattle.rb_segment.specs.Calls.{Runs};
ghost use Rattle.law_blocks.specs.Standing.{logged_of};
ghost use Rattle.law_blocks.specs.States.{BlocksStand};
ghost use Rattle.rb_undo.specs.Backs.{CanBack};

use rb_base::{Failed, SLOTS, Store, Workspace, Xid};
use rb_undo::back;

/// Puts back the newest live change of the transaction, by one group. What the workspace has afterwards is open.
/// Nothing is done where the transaction doesn't run or has no live change, and in a damaged file, where no record of
/// the change is found. `Failed` only where a call of the store failed. It is `back`, and what it adds is its contract,
/// which speaks of the machine's state: the group makes the session's changes those in front of the newest.
pub fn back_step<S: Store>(store: &mut S, xid: Xid, workspace: &mut Workspace) -> Result<(), Failed>
    requires going { S.failed store.old ≡ false }
    requires there { xid.seg < (S.shape_of store.old).segments }
    requires slot { xid.slot < SLOTS }
    requires few { S.lsn store.old < 2 ^ 62 }
    ensures logs { (groups : List (List Patch))
        × Logs S.Store store.old store.new groups (not (is_err result)) × (length groups ≤ 1) }
    ensures gives { S.tells → (h : State) (xids : List Xid) (s : ℕ) (front : List Change) (c : Change)
        → BlocksStand h xids (S.blocks store.old) → S.shape_of store.old ≡ h.shape → Owned h s xid.seg xid.slot
        → Runs (header_in h.shape (S.blocks store.old) xid.seg) xid
        → session_own h s ≡ front ++ c ∷ [] → S.lsn store.old ≡ logged_of h.shape (S.blocks store.old)
        → GivesOne S.Store store.old store.new (not (is_err result)) (BackMade h xids s front (S.blocks store.old)) }
    ensures nothing { S.tells → ¬ CanBack (S.shape_of store.old) (S.blocks store.old) xid
        → OnOk result (Logs S.Store store.old store.new [] true) }
{
    back(store, xid, workspace)
}
