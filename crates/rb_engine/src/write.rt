//! A write of a session. `Engine::write`, `Engine::lock` and `resume` call it.
ghost use Rattle.std.specs.Prelude.{◌≡◌, ◌≢◌, ◌≤◌, ℕ, List, []};
ghost use Rattle.std.specs.Prelude.{true, false, not, None, Some, IfErr, IfOk, IfSome, OnOk};
ghost use Rattle.std.specs.Result.{is_err};
ghost use Rattle.rb_base.specs.Counts.{IsCountedAs, err_is};
ghost use Rattle.rb_base.specs.Logs.{Logs};
ghost use Rattle.rb_base.specs.declared.ids.Xid.{Xid};
ghost use Rattle.rb_engine.specs.Behind.{Behind, HasClearHome, Tried};
ghost use Rattle.rb_engine.specs.Checks.{NotOld};
ghost use Rattle.rb_engine.specs.Does.{IsInStep, Stands, StopsIf};
ghost use Rattle.rb_engine.specs.Scanning.{OtherHolds};
ghost use Rattle.rb_model.specs.Answers.{action_by, write_answer, action_of};
ghost use Rattle.rb_model.specs.Calls.{early_tests, is_disk_fault, is_too_long, none_applies};
ghost use Rattle.rb_model.specs.Clearing.{ClearsTo, Readies};
ghost use Rattle.rb_model.specs.Tests.{holder};
ghost use Rattle.rb_model.specs.Calls as machine;
ghost use Rattle.rb_model.specs.Queue.{ready_count};
ghost use Rattle.rb_model.specs.State.{State};
ghost use Rattle.rb_sessions.specs.declared.sessions.TheConstants.{SESSIONS};
ghost use Rattle.law_blocks.specs.Standing.{env_of};
ghost use Rattle.law_blocks.specs.States.{BlocksStand};
ghost use Rattle.rb_steps.specs.Steps.{MayWrite, refusal_of};
ghost use Rattle.law_sessions.specs.Views.{Remembers};
ghost use Rattle.rb_rollback.specs.Backs.{SameStore};

use crate::checks::check_write;
use crate::dead::{free_home, free_segment};
use crate::engine::Engine;
use crate::late::check_late;
use crate::memory::Memory;
use crate::queue::wait_for;
use rb_base::{Store, Workspace};
use rb_cr::Scratch;
use rb_model::{Op, Refusal, Wrote};
use rb_sessions::Pending;
use rb_steps::write_step;
use rb_write::{Ask, AttemptFault, holder_of};

/// What a write that wasn't made is refused by. Where a call of the store failed, the engine is stopped.
fn refusal(memory: &mut Memory, fault: AttemptFault) -> Refusal
    ensures why { result ≡ refusal_of fault }
    ensures stops { StopsIf (is_disk_fault result) memory.old memory.new }
{
    match fault {
        AttemptFault::Failed => memory.fail(),
        AttemptFault::Duplicate => Refusal::Duplicate,
        AttemptFault::NotFound => Refusal::NotFound,
        AttemptFault::BlockFull => Refusal::BlockFull,
        AttemptFault::SlotsFull => Refusal::SlotsFull,
        AttemptFault::NoSlot { seg } => Refusal::RollbackFull { seg, since: 0 },
        AttemptFault::RollbackFull { seg, since } => Refusal::RollbackFull { seg, since },
        AttemptFault::WornOut => Refusal::WornOut,
    }
}

/// Another session that holds the key, by its block as it is. Where a call of the store failed, the engine is stopped.
fn other_holder<T: Store>(
    memory: &mut Memory,
    store: &mut T,
    s: u16,
    table: u16,
    key: u64,
) -> Result<Option<u16>, Refusal>
    requires going { T.failed store.old ≡ false }
    requires table { (1 ≤ table) × (table ≤ (T.shape_of store.old).tables) }
    ensures other { T.tells → (h : State) (xids : List Xid) → BlocksStand h xids (T.blocks store.old)
        → T.shape_of store.old ≡ h.shape
        → Remembers h xids (env_of h.shape (T.blocks store.old)) memory.old.sessions
        → ((u : ℕ) → holder h table key ≡ Some u → u ≤ SESSIONS)
        → IfOk result (OtherHolds h s table key) }
    ensures logs { Logs T.Store store.old store.new [] (not (is_err result)) }
    ensures fault { IfErr result (λ why. why ≡ Refusal.DiskFault) }
    ensures stops { StopsIf (is_err result) memory.old memory.new }
{
    let xid = match holder_of(store, table, key) {
        Ok(Some(xid)) => xid,
        Ok(None) => return Ok(None),
        Err(_) => return Err(memory.fail()),
    };
    match memory.sessions.owner(xid) {
        Some(on) if on != s => Ok(Some(on)),
        _ => Ok(None),
    }
}

/// Makes a write that waits for no session and comes not too late, by one group, or refuses it and changes nothing.
/// Where no slot of its segment is left for its transaction, it is refused as one of which no record was made since
/// then. What the workspace has afterwards is open.
fn write_once<T: Store>(
    memory: &mut Memory,
    store: &mut T,
    workspace: &mut Workspace,
    s: u16,
    table: u16,
    key: u64,
    op: Option<Op<'_>>,
) -> Result<Wrote, Refusal>
    requires step { IsInStep T.Store memory.old store.old }
    requires going { memory.old.stopped ≡ false }
    requires session { (1 ≤ s) × (s ≤ SESSIONS) }
    requires table { (1 ≤ table) × (table ≤ (T.shape_of store.old).tables) }
    requires short { is_too_long (action_by op) ≡ false }
    ensures step { IsInStep T.Store memory.new store.new }
    ensures did { (h : State) → Stands T.Store h (record { memory = memory.old; store = store.old })
        → none_applies (early_tests h (machine.Write s table key (action_by op.entry))) ≡ true
        → MayWrite h s table key → Tried T.Store h s table key (action_by op.entry) result
        (record { memory = memory.old; store = store.old }) (record { memory = memory.new; store = store.new }) }
    ensures stays { IfErr result (λ why. is_disk_fault why ≡ false
        → (memory.new ≡ memory.old) × Logs T.Store store.old store.new [] true) }
    ensures young { IfErr result NotOld }
    ensures holds_back { err_is is_disk_fault result ≡ false → T.holds_back store.old store.new }
    ensures ready { ready_count memory.new.waits ≡ ready_count memory.old.waits }
    ensures same { SameStore T.Store store.old store.new }
    ensures disk { IsCountedAs (T.faults store.old) (T.faults store.new) (err_is is_disk_fault result) }
{
    let ask = Ask {
        own: memory.sessions.session(s).own,
        table,
        key,
        op,
    };
    match write_step(store, &ask, workspace) {
        Ok(xid) => {
            memory.sessions.wrote(s, xid);
            Ok(Wrote::Done)
        }
        Err(fault) => Err(refusal(memory, fault)),
    }
}

/// The segment that has no room, where a write was refused for that.
fn full_segment(why: Refusal) -> Option<u16>
    ensures some { IfSome result (λ seg. (since : ℕ) × (why ≡ Refusal.RollbackFull seg since)) }
    ensures none { result ≡ None → (seg since : ℕ) → why ≢ Refusal.RollbackFull seg since }
{
    match why {
        Refusal::RollbackFull { seg, .. } => Some(seg),
        _ => None,
    }
}

/// Makes such a write. Where its segment has no room for it, all dead transactions of the segment are put back, and it
/// is tried once more. What the workspace has afterwards is open.
fn write_with_room<T: Store>(
    memory: &mut Memory,
    store: &mut T,
    workspace: &mut Workspace,
    s: u16,
    table: u16,
    key: u64,
    op: Option<Op<'_>>,
) -> Result<Wrote, Refusal>
    requires step { IsInStep T.Store memory.old store.old }
    requires going { memory.old.stopped ≡ false }
    requires session { (1 ≤ s) × (s ≤ SESSIONS) }
    requires table { (1 ≤ table) × (table ≤ (T.shape_of store.old).tables) }
    requires short { is_too_long (action_by op) ≡ false }
    ensures step { IsInStep T.Store memory.new store.new }
    ensures did { (h : State) → Stands T.Store h (record { memory = memory.old; store = store.old })
        → none_applies (early_tests h (machine.Write s table key (action_by op.entry))) ≡ true
        → MayWrite h s table key → HasClearHome h table key
        → Behind T.Store (Readies s h (write_answer result)) h (machine.Write s table key (action_by op.entry))
        (write_answer result) (record { memory = memory.old; store = store.old })
        (record { memory = memory.new; store = store.new }) }
    ensures holds_back { err_is is_disk_fault result ≡ false → T.holds_back store.old store.new }
    ensures ready { ready_count memory.new.waits ≡ ready_count memory.old.waits }
    ensures same { SameStore T.Store store.old store.new }
    ensures disk { IsCountedAs (T.faults store.old) (T.faults store.new) (err_is is_disk_fault result) }
{
    let why = match write_once(memory, store, workspace, s, table, key, op) {
        Ok(wrote) => return Ok(wrote),
        Err(why) => why,
    };
    let Some(seg) = full_segment(why) else {
        return Err(why);
    };
    if memory.dead == 0 || seg >= store.shape().segments {
        return Err(why);
    }
    free_segment(memory, store, workspace, seg)?;
    write_once(memory, store, workspace, s, table, key, op)
}

/// Inserts, updates or deletes the row of a key, or holds it as it is. The dead transactions that have a change in the
/// key's home are put back before it, also where it is refused then, and those of its segment where that has no room
/// for it. Where another session holds the key, this one waits for it. What is refused changes nothing else. What
/// `scratch` and `workspace` hold afterwards is open.
pub fn do_write<T: Store>(
    memory: &mut Memory,
    scratch: &mut Scratch,
    store: &mut T,
    workspace: &mut Workspace,
    s: u16,
    table: u16,
    key: u64,
    op: Option<Op<'_>>,
) -> Result<Wrote, Refusal>
    requires step { IsInStep T.Store memory.old store.old }
    ensures step { IsInStep T.Store memory.new store.new }
    ensures did { (h : State) → Stands T.Store h (record { memory = memory.old; store = store.old })
        → Behind T.Store (ClearsTo h (machine.Write s table key (action_by op.entry)) (write_answer result)) h
        (machine.Write s table key (action_by op.entry)) (write_answer result)
        (record { memory = memory.old; store = store.old }) (record { memory = memory.new; store = store.new }) }
    ensures holds_back { err_is is_disk_fault result ≡ false → T.holds_back store.old store.new }
    ensures ready { ready_count memory.new.waits ≡ ready_count memory.old.waits }
    ensures same { SameStore T.Store store.old store.new }
    ensures disk { IsCountedAs (T.faults store.old) (T.faults store.new) (err_is is_disk_fault result) }
{
    check_write(memory, store.shape(), s, table, op)?;
    free_home(memory, store, workspace, table, key)?;
    if let Some(on) = other_holder(memory, store, s, table, key)? {
        return wait_for(memory, s, on, Pending::new(table, key, op));
    }
    check_late(memory, scratch, store, s, table, key)?;
    write_with_room(memory, store, workspace, s, table, key, op)
}

impl<T: Store> Engine<T> {
    /// Inserts, updates or deletes the row of a key. Where another session holds the key, the answer is `Waits`, and
    /// the session waits until that one's transaction ends: then `resume` tries the write again. It may be refused, and
    /// then nothing is changed but that dead transactions were put back, unless a call of the store failed; where it
    /// would wait in a ring it is refused with `Deadlock`. The dead transactions with a change in the key's home are
    /// put back before it, and where its segment has no room for it, all dead ones of the segment. A serializable
    /// transaction is refused with `CantSerialize` where a commit above its snapshot has changed the row, and may be
    /// with `TooOld` where that can't be told any more. A write that is done cleans the row's block of transactions
    /// that have ended: their slot entries tell what the headers said of them as the call began. (Oracle7 Server
    /// Concepts, *Transaction Management* and *Data Concurrency*.)
    pub fn write(&mut self, s: u16, table: u16, key: u64, op: Op<'_>) -> Result<Wrote, Refusal>
        ensures did { (h : State) → Stands T.Store h self.old → Behind T.Store
            (ClearsTo h (machine.Write s table key (action_of op.entry)) (write_answer result)) h
            (machine.Write s table key (action_of op.entry)) (write_answer result) self.old self.new }
        ensures holds_back { err_is is_disk_fault result ≡ false
            → T.holds_back self.old.store self.new.store }
        ensures same { SameStore T.Store self.old.store self.new.store }
        ensures disk { IsCountedAs (T.faults self.old.store) (T.faults self.new.store)
            (err_is is_disk_fault result) }
    {
        do_write(
            &mut self.memory,
            &mut self.scratch,
            &mut self.store,
            &mut self.workspace,
            s,
            table,
            key,
            Some(op),
        )
    }

    /// Holds the row of a key as it is, for the session's transaction: a write that changes no row. It answers as
    /// `write`.
    pub fn lock(&mut self, s: u16, table: u16, key: u64) -> Result<Wrote, Refusal>
        ensures did { (h : State) → Stands T.Store h self.old → Behind T.Store
            (ClearsTo h (machine.Write s table key machine.Lock) (write_answer result)) h
            (machine.Write s table key machine.Lock) (write_answer result) self.old self.new }
        ensures holds_back { err_is is_disk_fault result ≡ false
            → T.holds_back self.old.store self.new.store }
        ensures same { SameStore T.Store self.old.store self.new.store }
        ensures disk { IsCountedAs (T.faults self.old.store) (T.faults self.new.store)
            (err_is is_disk_fault result) }
    {
        do_write(
            &mut self.memory,
            &mut self.scratch,
            &mut self.store,
            &mut self.workspace,
            s,
            table,
            key,
            None,
        )
    }
}
