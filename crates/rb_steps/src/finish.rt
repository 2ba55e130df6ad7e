//! The end of a session's transaction, with a number or without. The engine's commit and its rollback call it.
ghost use Rattle.std.specs.Prelude.{IsTrue, ◌↔◌, ◌≡◌, ◌≢◌, ◌+◌, ◌^◌, ◌<◌, ◌≤◌, ℕ};
ghost use Rattle.std.specs.Prelude.{List, [], true, false, not, length, OnOk};
ghost use Rattle.std.specs.Result.{is_err};
ghost use Rattle.rb_write.specs.Asks.{header_in};
ghost use Rattle.rb_base.specs.Groups.{Patch};
ghost use Rattle.rb_base.specs.Logs.{Logs};
ghost use Rattle.rb_base.specs.declared.ids.Xid.{Xid};
ghost use Rattle.law_crash.specs.Made.{CommitMade, EndMade, GivesOne};
ghost use Rattle.rb_model.specs.Calls.{Owned};
ghost use Rattle.rb_model.specs.State.{State, session_own};
ghost use Rattle.rb_model.specs.Rows.{last_scn};
ghost use Rattle.rb_segment.specs.Calls.{Runs};
ghost use Rattle.rb_segment.specs.Header.{header_of, slot_in};
ghost use Rattle.law_blocks.specs.Standing.{logged_of};
ghost use Rattle.law_blocks.specs.States.{BlocksStand};

use rb_base::{Failed, SLOTS, Scn, Store, UNIT, Workspace, Xid, copy_block};
use rb_restart::is_rolled_back;
use rb_segment::{commit, end};
use rb_txntable::running;

/// Whether the transaction runs and has a live record.
fn has_live(header: &[u8], xid: Xid) -> bool
    requires header { length header.now ≡ UNIT }
    requires slot { xid.slot < SLOTS }
    ensures { IsTrue result ↔ (Runs (header_of header.now) xid
        × ((slot_in (header_of header.now) xid.slot).live ≢ 0)) }
{
    matches!(running(header, xid), Some(slot) if slot.live != 0)
}

/// Commits the transaction at `scn` by one group, which waits. What the workspace has afterwards is open. Nothing
/// is done where the transaction doesn't run or has no live change. `Failed` only where a call of the store failed.
pub fn commit_step<S: Store>(
    store: &mut S,
    xid: Xid,
    scn: Scn,
    workspace: &mut Workspace,
) -> Result<(), Failed>
    requires going { S.failed store.old ≡ false }
    requires there { xid.seg < (S.shape_of store.old).segments }
    requires slot { xid.slot < SLOTS }
    requires few { S.lsn store.old < 2 ^ 62 }
    ensures logs { (groups : List (List Patch))
        × Logs S.Store store.old store.new groups (not (is_err result)) × (length groups ≤ 1) }
    ensures gives { S.tells → (h : State) (xids : List Xid) (s : ℕ) → BlocksStand h xids (S.blocks store.old)
        → S.shape_of store.old ≡ h.shape → Owned h s xid.seg xid.slot
        → Runs (header_in h.shape (S.blocks store.old) xid.seg) xid → 1 ≤ length (session_own h s)
        → S.lsn store.old ≡ logged_of h.shape (S.blocks store.old) → scn ≡ last_scn h.commits + 1
        → GivesOne S.Store store.old store.new (not (is_err result)) (CommitMade h xids s xid (S.blocks store.old)) }
    ensures nothing { S.tells
        → ¬ (Runs (header_in (S.shape_of store.old) (S.blocks store.old) xid.seg) xid
        × ((slot_in (header_in (S.shape_of store.old) (S.blocks store.old) xid.seg) xid.slot).live ≢ 0))
        → OnOk result (Logs S.Store store.old store.new [] true) }
{
    let shape = store.shape();
    let header = &mut workspace.header;
    copy_block(store, shape.header_block(xid.seg), header)?;
    if !has_live(header, xid) {
        return Ok(());
    }
    let group = &mut workspace.group;
    group.clear();
    commit(header, &shape, xid, scn, group);
    // For the proof: what a group holds is a group of patches.
    let _count = group.patches();
    store.apply(group)
}

/// Ends the slot of the transaction by one group. What the workspace has afterwards is open. Nothing is done where the
/// transaction doesn't run or has a live change. `Failed` only where a call of the store failed.
pub fn end_step<S: Store>(store: &mut S, xid: Xid, workspace: &mut Workspace) -> Result<(), Failed>
    requires going { S.failed store.old ≡ false }
    requires there { xid.seg < (S.shape_of store.old).segments }
    requires slot { xid.slot < SLOTS }
    requires few { S.lsn store.old < 2 ^ 62 }
    ensures logs { (groups : List (List Patch))
        × Logs S.Store store.old store.new groups (not (is_err result)) × (length groups ≤ 1) }
    ensures gives { S.tells → (h : State) (xids : List Xid) (s : ℕ) → BlocksStand h xids (S.blocks store.old)
        → S.shape_of store.old ≡ h.shape → Owned h s xid.seg xid.slot
        → Runs (header_in h.shape (S.blocks store.old) xid.seg) xid → session_own h s ≡ []
        → S.lsn store.old ≡ logged_of h.shape (S.blocks store.old)
        → GivesOne S.Store store.old store.new (not (is_err result)) (EndMade h xids s xid (S.blocks store.old)) }
    ensures nothing { S.tells
        → ¬ (Runs (header_in (S.shape_of store.old) (S.blocks store.old) xid.seg) xid
        × ((slot_in (header_in (S.shape_of store.old) (S.blocks store.old) xid.seg) xid.slot).live ≡ 0))
        → OnOk result (Logs S.Store store.old store.new [] true) }
{
    let shape = store.shape();
    let header = &mut workspace.header;
    copy_block(store, shape.header_block(xid.seg), header)?;
    if !is_rolled_back(header, xid) {
        return Ok(());
    }
    let group = &mut workspace.group;
    group.clear();
    end(header, &shape, xid, group);
    // For the proof: what a group holds is a group of patches.
    let _count = group.patches();
    store.apply(group)
}
