//! The dead transactions that have live changes in a home: found by its entries, and put back.
ghost use Rattle.std.specs.Prelude.{◌≡◌, ◌<◌, ◌≤◌, ◌+◌, ◌^◌, ℕ, List, []};
ghost use Rattle.std.specs.Prelude.{false, true, not, Some, None, IfOk, IfSome};
ghost use Rattle.std.specs.Result.{is_err};
ghost use Rattle.rb_base.specs.Blocks.{block_of, home_block, table_blocks};
ghost use Rattle.rb_base.specs.Logs.{Logs};
ghost use Rattle.rb_base.specs.declared.ids.Xid.{Xid};
ghost use Rattle.rb_model.specs.Dead.{home_cleared};
ghost use Rattle.rb_dead.specs.Entries.{IsDeadEntry, entry_at};
ghost use Rattle.rb_dead.specs.Takes.{Gives, HasDead, LeadsTo};
ghost use Rattle.rb_heap.specs.Homes.{home_of};
ghost use Rattle.rb_model.specs.State.{State};

use crate::taking::take_dead;
use rb_base::{BlockNo, Failed, SLOTS, Store, Workspace, Xid};
use rb_cleanout::look_up;
use rb_itl::{ENTRIES, Entry, OPEN, entry};
use rb_sessions::Sessions;
use rb_txntable::Look;

/// Whether the entry is Open, of a slot that there is, whose transaction runs and is no session's.
fn is_dead<S: Store>(sessions: &Sessions, store: &mut S, found: Entry) -> Result<bool, Failed>
    requires going { S.failed store.old ≡ false }
    ensures logs { Logs S.Store store.old store.new [] (not (is_err result)) }
    ensures place { IfOk result (λ is. is ≡ true
        → (found.xid.seg < (S.shape_of store.old).segments) × (found.xid.slot < SLOTS)) }
    ensures dead { S.tells → IfOk result (λ is. (is ≡ true
        → IsDeadEntry sessions.now (S.shape_of store.old) (S.blocks store.old) found)
        × (is ≡ false → ¬ IsDeadEntry sessions.now (S.shape_of store.old) (S.blocks store.old) found)) }
{
    let xid = found.xid;
    let is_there = xid.seg < store.shape().segments && xid.slot < SLOTS as u16;
    if found.kind != OPEN || !is_there || sessions.owner(xid).is_some() {
        return Ok(false);
    }
    Ok(matches!(look_up(store, xid)?, Look::Active))
}

/// The transaction of entry `i` of block `no` where that is Open, runs and is no session's.
fn dead_entry<S: Store>(
    sessions: &Sessions,
    store: &mut S,
    no: BlockNo,
    i: u8,
) -> Result<Option<Xid>, Failed>
    requires going { S.failed store.old ≡ false }
    requires there { no < table_blocks (S.shape_of store.old) }
    requires place { i < ENTRIES }
    ensures logs { Logs S.Store store.old store.new [] (not (is_err result)) }
    ensures place { IfOk result (λ first. IfSome first (λ x.
        (x.seg < (S.shape_of store.old).segments) × (x.slot < SLOTS))) }
    ensures some { S.tells → IfOk result (λ first. IfSome first (λ x.
        IsDeadEntry sessions.now (S.shape_of store.old) (S.blocks store.old) (entry_at (S.blocks store.old) no i)
        × ((entry_at (S.blocks store.old) no i).xid ≡ x))) }
    ensures none { S.tells → IfOk result (λ first. first ≡ None
        → ¬ IsDeadEntry sessions.now (S.shape_of store.old) (S.blocks store.old)
        (entry_at (S.blocks store.old) no i)) }
{
    store.load(no)?;
    let found = entry(store.block(), i);
    if is_dead(sessions, store, found)? {
        return Ok(Some(found.xid));
    }
    Ok(None)
}

/// The transaction of the first entry of block `no` that is Open, of a slot that there is, runs and is no session's.
/// `Failed` only where a call of the store failed.
pub fn first_dead<S: Store>(
    sessions: &Sessions,
    store: &mut S,
    no: BlockNo,
) -> Result<Option<Xid>, Failed>
    requires going { S.failed store.old ≡ false }
    requires there { no < table_blocks (S.shape_of store.old) }
    ensures logs { Logs S.Store store.old store.new [] (not (is_err result)) }
    ensures place { IfOk result (λ first. IfSome first (λ x.
        (x.seg < (S.shape_of store.old).segments) × (x.slot < SLOTS))) }
    ensures some { S.tells → IfOk result (λ first. IfSome first (λ x. (i : ℕ) × (i < ENTRIES)
        × IsDeadEntry sessions.now (S.shape_of store.old) (S.blocks store.old) (entry_at (S.blocks store.old) no i)
        × ((entry_at (S.blocks store.old) no i).xid ≡ x))) }
    ensures none { S.tells → IfOk result (λ first. first ≡ None → (i : ℕ) → i < ENTRIES
        → ¬ IsDeadEntry sessions.now (S.shape_of store.old) (S.blocks store.old)
        (entry_at (S.blocks store.old) no i)) }
{
    for i in 0..ENTRIES {
        let first = dead_entry(sessions, store, no, i)?;
        if first.is_some() {
            return Ok(first);
        }
    }
    Ok(None)
}

/// Puts back whole the dead transactions that have a live change in the home of block `no`. `owed` is how many groups
/// put back what all the dead have, and falls by those that were given. `Failed` only where a call of the store failed.
/// What the workspace has afterwards is open.
pub fn clear_home<T: Store>(
    sessions: &Sessions,
    owed: &mut u64,
    store: &mut T,
    workspace: &mut Workspace,
    no: BlockNo,
) -> Result<(), Failed>
    requires going { T.failed store.old ≡ false }
    requires there { no < table_blocks (T.shape_of store.old) }
    requires few { T.lsn store.old + owed.old < 2 ^ 62 }
    ensures gives { Gives T.Store owed.old owed.new store.old store.new (not (is_err result)) }
    ensures cleared { T.tells → (h : State) (xids : List Xid) (table key : ℕ)
        → 1 ≤ table → table ≤ h.shape.tables → no ≡ home_block h.shape table key
        → HasDead T.Store h xids sessions.now owed.old store.old
        → LeadsTo T.Store h (home_cleared table key h) xids sessions.now owed.new store.old store.new
        (not (is_err result)) }
{
    while *owed > 0 {
        let before = *owed;
        let Some(xid) = first_dead(sessions, store, no)? else {
            return Ok(());
        };
        take_dead(
            sessions,
            owed,
            store,
            workspace,
            xid.seg,
            xid.slot,
            u32::MAX,
        )?;
        // In damaged blocks an entry may name a transaction that its slot doesn't have.
        if *owed >= before {
            return Ok(());
        }
    }
    Ok(())
}
