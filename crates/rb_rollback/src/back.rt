//! A transaction's changes put back, its newest first, each by one group. The engine calls it for a rollback, to a
//! savepoint too, and for the end of a transaction of which no change is left.
ghost use Rattle.std.specs.Prelude.{◌≡◌, ◌≤◌, ◌<◌, ◌+◌, ◌-◌, ◌^◌, ℕ, List, length};
ghost use Rattle.std.specs.Prelude.{false, not, Some, OnOk};
ghost use Rattle.std.specs.Result.{is_err};
ghost use Rattle.rb_base.specs.Counts.{IsCounted};
ghost use Rattle.rb_base.specs.Groups.{Patch};
ghost use Rattle.rb_base.specs.Logs.{Logs};
ghost use Rattle.rb_base.specs.declared.ids.Xid.{Xid};
ghost use Rattle.law_blocks.specs.Standing.{env_of};
ghost use Rattle.law_crash.specs.Holds.{Holds};
ghost use Rattle.law_write.specs.Verdict.{IsOwnId};
ghost use Rattle.rb_model.specs.State.{State, session_own};
ghost use Rattle.rb_rollback.specs.Backs.{PutsAllBack, PutsBack, SameStore};

use rb_base::{Failed, SLOTS, Store, Workspace, Xid};
use rb_steps::{back_step, end_step};

/// Puts back so many changes of a transaction, its newest first.
pub fn put_back<T: Store>(
    store: &mut T,
    workspace: &mut Workspace,
    xid: Xid,
    count: u32,
) -> Result<(), Failed>
    requires going { T.failed store.old ≡ false }
    requires there { xid.seg < (T.shape_of store.old).segments }
    requires slot { xid.slot < SLOTS }
    requires few { T.lsn store.old + count < 2 ^ 62 }
    ensures puts_back { T.tells → (h : State) (xids : List Xid) (who kept : ℕ) → T.shape_of store.old ≡ h.shape
        → Holds T.Store h xids store.old → 1 ≤ who → who ≤ length h.sessions
        → IsOwnId h (env_of h.shape (T.blocks store.old)) who (Some xid) → h.stopped ≡ false
        → count ≡ length (session_own h who) - kept
        → PutsBack T.Store h xids who kept xid store.old store.new (not (is_err result)) }
    ensures logs { (groups : List (List Patch))
        × Logs T.Store store.old store.new groups (not (is_err result)) × (length groups ≤ count) }
    ensures lsn { OnOk result (T.lsn store.new ≤ T.lsn store.old + count) }
    ensures same { SameStore T.Store store.old store.new }
    ensures failed { T.failed store.new ≡ is_err result }
    ensures counted { IsCounted (T.faults store.old) (T.faults store.new) result }
{
    for _change in 0..count {
        back_step(store, xid, workspace)?;
    }
    Ok(())
}

/// Puts back so many changes of a transaction, its newest first, and ends its table slot.
pub fn put_all_back<T: Store>(
    store: &mut T,
    workspace: &mut Workspace,
    xid: Xid,
    count: u32,
) -> Result<(), Failed>
    requires going { T.failed store.old ≡ false }
    requires there { xid.seg < (T.shape_of store.old).segments }
    requires slot { xid.slot < SLOTS }
    requires few { T.lsn store.old + count < 2 ^ 62 - 1 }
    ensures puts_back { T.tells → (h : State) (xids : List Xid) (who : ℕ) → T.shape_of store.old ≡ h.shape
        → Holds T.Store h xids store.old → 1 ≤ who → who ≤ length h.sessions
        → IsOwnId h (env_of h.shape (T.blocks store.old)) who (Some xid) → h.stopped ≡ false
        → length (session_own h who) ≡ count
        → PutsAllBack T.Store h xids who xid store.old store.new (not (is_err result)) }
    ensures logs { (groups : List (List Patch))
        × Logs T.Store store.old store.new groups (not (is_err result)) × (length groups ≤ count + 1) }
    ensures holds_back { OnOk result (T.holds_back store.old store.new) }
    ensures lsn { OnOk result (T.lsn store.new ≤ T.lsn store.old + count + 1) }
    ensures same { SameStore T.Store store.old store.new }
    ensures failed { T.failed store.new ≡ is_err result }
    ensures counted { IsCounted (T.faults store.old) (T.faults store.new) result }
{
    put_back(store, workspace, xid, count)?;
    end_step(store, xid, workspace)
}
