//! Sessions that wait: how one begins to, and how one gives up. A write calls the first, `Engine::cancel` the second.
ghost use Rattle.std.specs.Prelude.{◌≡◌, ◌≢◌, ◌≤◌, true, false, IfErr, IfOk};
ghost use Rattle.rb_engine.specs.Checks.{NotOld};
ghost use Rattle.rb_engine.specs.Does.{Does, IsInStep, IsQueue, Stands};
ghost use Rattle.rb_model.specs.Answers.{plain_answer};
ghost use Rattle.rb_model.specs.Calls as machine;
ghost use Rattle.rb_model.specs.Queue.{closes, is_queued, waiting};
ghost use Rattle.rb_model.specs.State.{State};
ghost use Rattle.rb_sessions.specs.Kept.{asked_of_pending, holding, kept_at, with_kept};
ghost use Rattle.rb_base.specs.Counts.{IsCountedAs, err_is};
ghost use Rattle.rb_engine.specs.Makes.{Makes};
ghost use Rattle.rb_model.specs.Calls.{is_disk_fault};
ghost use Rattle.rb_rollback.specs.Backs.{SameStore};

use crate::checks::check_number;
use crate::engine::Engine;
use crate::memory::Memory;
use rb_base::Store;
use rb_model::{Refusal, Wrote};
use rb_sessions::{Pending, SESSIONS};

/// Lets a session wait, with its write, for another one that holds its key. Where that one waits for this one, perhaps
/// through others, it is refused instead. (Oracle7 Server Concepts, *Data Concurrency*.)
pub fn wait_for(memory: &mut Memory, s: u16, on: u16, pending: Pending) -> Result<Wrote, Refusal>
    requires queue { IsQueue memory.old }
    requires session { (1 ≤ s) × (s ≤ SESSIONS) }
    requires free { is_queued s memory.old.waits ≡ false }
    ensures ring { IfErr result (λ why. (why ≡ Refusal.Deadlock on) × (closes memory.old.waits s on ≡ true)
        × (memory.new ≡ memory.old)) }
    ensures young { IfErr result NotOld }
    ensures waits { IfOk result (λ wrote. (wrote ≡ Wrote.Waits on) × (closes memory.old.waits s on ≡ false)
        × (memory.new ≡ record memory.old {
          sessions = with_kept memory.old.sessions s
              (holding (asked_of_pending pending) (kept_at memory.old.sessions s));
          waits = waiting s on memory.old.waits;
        })) }
{
    if memory.waits.would_close(s, on) {
        return Err(Refusal::Deadlock { on });
    }
    memory.sessions.hold(s, pending);
    memory.waits.wait(s, on);
    Ok(Wrote::Waits { on })
}

/// Takes a session out of the queue: its write is given up, and its transaction goes on.
pub fn do_cancel<T: Store>(memory: &mut Memory, store: &T, s: u16) -> Result<(), Refusal>
    requires step { IsInStep T.Store memory.old store.now }
    ensures step { IsInStep T.Store memory.new store.now }
    ensures did { (h : State) → Stands T.Store h (record { memory = memory.old; store = store.now })
        → Does T.Store h (machine.Cancel s) (plain_answer result)
        (record { memory = memory.old; store = store.now }) (record { memory = memory.new; store = store.now }) }
    ensures other { IfErr result (λ why. why ≢ Refusal.DiskFault) }
{
    check_number(memory, s)?;
    if !memory.waits.waits(s) {
        return Err(Refusal::NotWaiting);
    }
    memory.waits.leave(s);
    Ok(())
}

impl<T: Store> Engine<T> {
    /// Takes a session that waits, or is ready, out of the queue: its write is given up, and its transaction goes on.
    pub fn cancel(&mut self, s: u16) -> Result<(), Refusal>
        ensures did { (h : State) → Stands T.Store h self.old → Does T.Store h
            (machine.Cancel s) (plain_answer result) self.old self.new }
        ensures holds_back { err_is is_disk_fault result ≡ false
            → T.holds_back self.old.store self.new.store }
        ensures makes { (h : State) → Stands T.Store h self.old → err_is is_disk_fault result ≡ false
            → Makes h (machine.Cancel s) (plain_answer result)
            (T.lsn self.new.store) (T.blocks self.old.store) (T.blocks self.new.store) }
        ensures same { SameStore T.Store self.old.store self.new.store }
        ensures disk { IsCountedAs (T.faults self.old.store) (T.faults self.new.store)
            (err_is is_disk_fault result) }
    {
        do_cancel(&mut self.memory, &self.store, s)
    }
}
