//! The mode of a transaction, set before it begins. `Engine::set` calls it.
ghost use Rattle.std.specs.Prelude.{◌≡◌, ◌≢◌, IfErr, false};
ghost use Rattle.rb_engine.specs.Checks.{is_idle};
ghost use Rattle.rb_engine.specs.Does.{Does, IsInStep, Stands};
ghost use Rattle.rb_model.specs.Answers.{plain_answer};
ghost use Rattle.rb_model.specs.Calls as machine;
ghost use Rattle.rb_model.specs.State.{State};
ghost use Rattle.rb_base.specs.Counts.{IsCountedAs, err_is};
ghost use Rattle.rb_engine.specs.Makes.{Makes};
ghost use Rattle.rb_model.specs.Calls.{is_disk_fault};
ghost use Rattle.rb_rollback.specs.Backs.{SameStore};

use crate::checks::check_session;
use crate::engine::Engine;
use crate::memory::Memory;
use rb_base::Store;
use rb_model::{Isolation, Mode, Refusal};
use rb_sessions::{Session, isolation_at};

/// Whether a session's transaction has neither a mode of its own nor changes nor savepoints.
pub fn is_unbegun(session: Session) -> bool
    ensures { result ≡ is_idle session }
{
    matches!(session.isolation, Isolation::ReadCommitted)
        && session.length == 0
        && session.savepoints == 0
}

/// Sets how the session's next transaction reads. Read only and serializable take the last commit number for all its
/// queries. (Oracle7 Server Concepts, *Data Concurrency*.)
pub fn do_set<T: Store>(memory: &mut Memory, store: &T, s: u16, mode: Mode) -> Result<(), Refusal>
    requires step { IsInStep T.Store memory.old store.now }
    ensures step { IsInStep T.Store memory.new store.now }
    ensures did { (h : State) → Stands T.Store h (record { memory = memory.old; store = store.now })
        → Does T.Store h (machine.SetMode s mode) (plain_answer result)
        (record { memory = memory.old; store = store.now }) (record { memory = memory.new; store = store.now }) }
    ensures other { IfErr result (λ why. why ≢ Refusal.DiskFault) }
{
    check_session(memory, s)?;
    if !is_unbegun(memory.sessions.session(s)) {
        return Err(Refusal::NotFirst);
    }
    memory
        .sessions
        .set_isolation(s, isolation_at(mode, memory.scn));
    Ok(())
}

impl<T: Store> Engine<T> {
    /// Sets how the session's next transaction reads, until it ends. In read committed each cursor has its own
    /// snapshot. A read-only or serializable one has the last commit number for all its cursors, and the first makes no
    /// writes.
    /// `NotFirst` where the transaction has a mode of its own already, or changes, or savepoints; a query before it
    /// doesn't matter. (Oracle7 Server Concepts, *Data Concurrency*.)
    pub fn set(&mut self, s: u16, mode: Mode) -> Result<(), Refusal>
        ensures did { (h : State) → Stands T.Store h self.old → Does T.Store h
            (machine.SetMode s mode) (plain_answer result) self.old self.new }
        ensures holds_back { err_is is_disk_fault result ≡ false
            → T.holds_back self.old.store self.new.store }
        ensures makes { (h : State) → Stands T.Store h self.old → err_is is_disk_fault result ≡ false
            → Makes h (machine.SetMode s mode) (plain_answer result)
            (T.lsn self.new.store) (T.blocks self.old.store) (T.blocks self.new.store) }
        ensures same { SameStore T.Store self.old.store self.new.store }
        ensures disk { IsCountedAs (T.faults self.old.store) (T.faults self.new.store)
            (err_is is_disk_fault result) }
    {
        do_set(&mut self.memory, &self.store, s, mode)
    }
}
