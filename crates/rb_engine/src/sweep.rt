//! Dead transactions put back by a sweep, in the order of their slots. `Engine::sweep` is here.
ghost use Rattle.std.specs.Prelude.{◌≡◌, ◌≤◌, ℕ, false, IfOk};
ghost use Rattle.rb_base.specs.Counts.{IsCountedAs, err_is};
ghost use Rattle.rb_engine.specs.Does.{Does, IsInStep, Stands};
ghost use Rattle.rb_engine.specs.Makes.{Makes};
ghost use Rattle.rb_model.specs.Answers.{sweep_answer};
ghost use Rattle.rb_model.specs.Calls.{is_disk_fault};
ghost use Rattle.rb_model.specs.Calls as machine;
ghost use Rattle.rb_model.specs.State.{State};
ghost use Rattle.rb_rollback.specs.Backs.{SameStore};

use crate::engine::Engine;
use crate::memory::Memory;
use rb_base::{Store, Workspace};
use rb_dead::sweep;
use rb_model::Refusal;

/// Puts back up to so many changes of dead transactions.
pub fn do_sweep<T: Store>(
    memory: &mut Memory,
    store: &mut T,
    workspace: &mut Workspace,
    changes: u32,
) -> Result<u32, Refusal>
    requires step { IsInStep T.Store memory.old store.old }
    ensures step { IsInStep T.Store memory.new store.new }
    ensures did { (h : State) → Stands T.Store h (record { memory = memory.old; store = store.old })
        → Does T.Store h (machine.Sweep changes) (sweep_answer result)
        (record { memory = memory.old; store = store.old }) (record { memory = memory.new; store = store.new }) }
    ensures makes { (h : State) → Stands T.Store h (record { memory = memory.old; store = store.old })
        → err_is is_disk_fault result ≡ false
        → Makes h (machine.Sweep changes) (sweep_answer result)
        (T.lsn store.new) (T.blocks store.old) (T.blocks store.new) }
    ensures most { IfOk result (λ n. n ≤ changes) }
    ensures holds_back { err_is is_disk_fault result ≡ false → T.holds_back store.old store.new }
    ensures same { SameStore T.Store store.old store.new }
    ensures disk { IsCountedAs (T.faults store.old) (T.faults store.new) (err_is is_disk_fault result) }
{
    if memory.stopped {
        return Err(Refusal::Stopped);
    }
    let mut owed = memory.dead;
    match sweep(&memory.sessions, &mut owed, store, workspace, changes) {
        Ok(swept) => {
            memory.dead = owed;
            Ok(swept)
        }
        Err(_) => Err(memory.fail()),
    }
}

impl<T: Store> Engine<T> {
    /// Puts back up to `changes` changes of dead transactions: those that had a table slot as the store was opened. The
    /// slots are gone through in their order, each transaction's newest change first, and a slot of whose transaction
    /// no change is left is ended. Answers how many changes, which is `changes` or all that there are. Nothing is made
    /// last by it. Refused with `Stopped`, or `DiskFault` where a call of the store failed. (Oracle7 Server Concepts,
    /// *Recovering a Database*: transactions that an instance failure left are rolled back behind the opening.)
    pub fn sweep(&mut self, changes: u32) -> Result<u32, Refusal>
        ensures did { (h : State) → Stands T.Store h self.old → Does T.Store h
            (machine.Sweep changes) (sweep_answer result) self.old self.new }
        ensures makes { (h : State) → Stands T.Store h self.old → err_is is_disk_fault result ≡ false
            → Makes h (machine.Sweep changes) (sweep_answer result)
            (T.lsn self.new.store) (T.blocks self.old.store) (T.blocks self.new.store) }
        ensures most { IfOk result (λ n. n ≤ changes) }
        ensures holds_back { err_is is_disk_fault result ≡ false
            → T.holds_back self.old.store self.new.store }
        ensures same { SameStore T.Store self.old.store self.new.store }
        ensures disk { IsCountedAs (T.faults self.old.store) (T.faults self.new.store)
            (err_is is_disk_fault result) }
    {
        do_sweep(
            &mut self.memory,
            &mut self.store,
            &mut self.workspace,
            changes,
        )
    }
}
