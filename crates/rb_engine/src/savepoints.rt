//! Savepoints: positions in a transaction's live changes. `Engine::savepoint` and `Engine::rollback_to` call it.
ghost use Rattle.std.specs.Prelude.{◌≡◌, ◌≢◌, ◌≤◌, ℕ, false, Some, IfErr};
ghost use Rattle.rb_base.specs.Counts.{IsCountedAs, err_is};
ghost use Rattle.rb_engine.specs.Does.{Does, IsInStep, Stands};
ghost use Rattle.rb_engine.specs.Makes.{Makes};
ghost use Rattle.rb_model.specs.Answers.{plain_answer};
ghost use Rattle.rb_model.specs.Calls.{is_disk_fault};
ghost use Rattle.rb_model.specs.Calls as machine;
ghost use Rattle.rb_model.specs.Names.{name_text};
ghost use Rattle.rb_model.specs.Queue.{is_queued};
ghost use Rattle.rb_model.specs.State.{State, savepoint_named};
ghost use Rattle.rb_sessions.specs.Kept.{kept_at, kept_by};
ghost use Rattle.rb_rollback.specs.Backs.{SameStore};

use crate::checks::check_session;
use crate::engine::Engine;
use crate::memory::Memory;
use rb_base::{Store, Workspace, Xid};
use rb_model::{Name, Refusal};
use rb_rollback::put_back;
use rb_sessions::{SAVEPOINTS, SESSIONS};

/// Sets a savepoint of the session behind its present changes, or moves the one of that name there.
pub fn do_savepoint<T: Store>(
    memory: &mut Memory,
    store: &T,
    s: u16,
    name: &Name,
) -> Result<(), Refusal>
    requires step { IsInStep T.Store memory.old store.now }
    ensures step { IsInStep T.Store memory.new store.now }
    ensures did { (h : State) → Stands T.Store h (record { memory = memory.old; store = store.now })
        → Does T.Store h (machine.SetSavepoint s (name_text name.now)) (plain_answer result)
        (record { memory = memory.old; store = store.now }) (record { memory = memory.new; store = store.now }) }
    ensures other { IfErr result (λ why. why ≢ Refusal.DiskFault) }
{
    check_session(memory, s)?;
    let count = memory.sessions.session(s).savepoints as usize;
    if count >= SAVEPOINTS && memory.sessions.savepoint(s, name).is_none() {
        return Err(Refusal::TooManySavepoints);
    }
    memory.sessions.set_savepoint(s, name);
    Ok(())
}

/// Puts back the changes of a session's transaction behind the savepoint of that name, which keeps so many.
fn roll_back_later<T: Store>(
    memory: &mut Memory,
    store: &mut T,
    workspace: &mut Workspace,
    s: u16,
    xid: Xid,
    name: &Name,
    kept: u32,
) -> Result<(), Refusal>
    requires step { IsInStep T.Store memory.old store.old }
    requires going { memory.old.stopped ≡ false }
    requires session { (1 ≤ s) × (s ≤ SESSIONS) }
    requires own { (kept_at memory.old.sessions s).own ≡ Some xid }
    requires named { kept_by (savepoint_named (name_text name.now) (kept_at memory.old.sessions s).savepoints)
        ≡ Some kept }
    requires free { is_queued s memory.old.waits ≡ false }
    ensures step { IsInStep T.Store memory.new store.new }
    ensures did { (h : State) → Stands T.Store h (record { memory = memory.old; store = store.old })
        → Does T.Store h (machine.RollbackTo s (name_text name.now)) (plain_answer result)
        (record { memory = memory.old; store = store.old }) (record { memory = memory.new; store = store.new }) }
    ensures holds_back { err_is is_disk_fault result ≡ false → T.holds_back store.old store.new }
    ensures makes { (h : State) → Stands T.Store h (record { memory = memory.old; store = store.old })
        → err_is is_disk_fault result ≡ false
        → Makes h (machine.RollbackTo s (name_text name.now)) (plain_answer result)
        (T.lsn store.new) (T.blocks store.old) (T.blocks store.new) }
    ensures same { SameStore T.Store store.old store.new }
    ensures disk { IsCountedAs (T.faults store.old) (T.faults store.new) (err_is is_disk_fault result) }
{
    let count = memory.sessions.session(s).length.saturating_sub(kept);
    match put_back(store, workspace, xid, count) {
        Ok(()) => {
            memory.sessions.rollback_to(s, name);
            Ok(())
        }
        Err(_) => Err(memory.fail()),
    }
}

/// Puts back the session's changes behind the savepoint of that name, erases the later savepoints, and closes the
/// cursors that saw one of those changes. The transaction keeps its table slot, also without a change left.
pub fn do_rollback_to<T: Store>(
    memory: &mut Memory,
    store: &mut T,
    workspace: &mut Workspace,
    s: u16,
    name: &Name,
) -> Result<(), Refusal>
    requires step { IsInStep T.Store memory.old store.old }
    ensures step { IsInStep T.Store memory.new store.new }
    ensures did { (h : State) → Stands T.Store h (record { memory = memory.old; store = store.old })
        → Does T.Store h (machine.RollbackTo s (name_text name.now)) (plain_answer result)
        (record { memory = memory.old; store = store.old }) (record { memory = memory.new; store = store.new }) }
    ensures holds_back { err_is is_disk_fault result ≡ false → T.holds_back store.old store.new }
    ensures makes { (h : State) → Stands T.Store h (record { memory = memory.old; store = store.old })
        → err_is is_disk_fault result ≡ false
        → Makes h (machine.RollbackTo s (name_text name.now)) (plain_answer result)
        (T.lsn store.new) (T.blocks store.old) (T.blocks store.new) }
    ensures same { SameStore T.Store store.old store.new }
    ensures disk { IsCountedAs (T.faults store.old) (T.faults store.new) (err_is is_disk_fault result) }
{
    check_session(memory, s)?;
    let Some(kept) = memory.sessions.savepoint(s, name) else {
        return Err(Refusal::NoSavepoint);
    };
    match memory.sessions.session(s).own {
        Some(xid) => roll_back_later(memory, store, workspace, s, xid, name, kept),
        None => {
            memory.sessions.rollback_to(s, name);
            Ok(())
        }
    }
}

impl<T: Store> Engine<T> {
    /// Marks the present place in the session's live changes. A name that is set again moves there. (Oracle7 Server
    /// Concepts, *Transaction Management*.)
    pub fn savepoint(&mut self, s: u16, name: &Name) -> Result<(), Refusal>
        ensures did { (h : State) → Stands T.Store h self.old → Does T.Store h
            (machine.SetSavepoint s (name_text name.now)) (plain_answer result) self.old self.new }
        ensures holds_back { err_is is_disk_fault result ≡ false
            → T.holds_back self.old.store self.new.store }
        ensures makes { (h : State) → Stands T.Store h self.old → err_is is_disk_fault result ≡ false
            → Makes h (machine.SetSavepoint s (name_text name.now)) (plain_answer result)
            (T.lsn self.new.store) (T.blocks self.old.store) (T.blocks self.new.store) }
        ensures same { SameStore T.Store self.old.store self.new.store }
        ensures disk { IsCountedAs (T.faults self.old.store) (T.faults self.new.store)
            (err_is is_disk_fault result) }
    {
        do_savepoint(&mut self.memory, &self.store, s, name)
    }

    /// Puts back the session's changes behind a savepoint, one by one: the rows that they alone held are free at once.
    /// It erases the later savepoints, and closes the cursors that saw one of those changes. The transaction goes on.
    pub fn rollback_to(&mut self, s: u16, name: &Name) -> Result<(), Refusal>
        ensures did { (h : State) → Stands T.Store h self.old → Does T.Store h
            (machine.RollbackTo s (name_text name.now)) (plain_answer result) self.old self.new }
        ensures holds_back { err_is is_disk_fault result ≡ false
            → T.holds_back self.old.store self.new.store }
        ensures makes { (h : State) → Stands T.Store h self.old → err_is is_disk_fault result ≡ false
            → Makes h (machine.RollbackTo s (name_text name.now)) (plain_answer result)
            (T.lsn self.new.store) (T.blocks self.old.store) (T.blocks self.new.store) }
        ensures same { SameStore T.Store self.old.store self.new.store }
        ensures disk { IsCountedAs (T.faults self.old.store) (T.faults self.new.store)
            (err_is is_disk_fault result) }
    {
        do_rollback_to(
            &mut self.memory,
            &mut self.store,
            &mut self.workspace,
            s,
            name,
        )
    }
}
