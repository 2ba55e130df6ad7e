//! A write of a session that had to wait, tried again. `Engine::resume` calls it.
ghost use Rattle.std.specs.Prelude.{◌≤◌, ◌≡◌, ◌<◌, false, None, IfSome};
ghost use Rattle.std.specs.Option.{is_some};
ghost use Rattle.rb_base.specs.Counts.{IsCountedAs};
ghost use Rattle.rb_engine.specs.Behind.{Resumes};
ghost use Rattle.rb_engine.specs.Does.{IsInStep, Stands, resume_fault};
ghost use Rattle.rb_model.specs.Queue.{first_ready, ready_count};
ghost use Rattle.rb_model.specs.State.{State};
ghost use Rattle.rb_sessions.specs.declared.sessions.TheConstants.{SESSIONS};
ghost use Rattle.rb_rollback.specs.Backs.{SameStore};

use crate::engine::Engine;
use crate::memory::Memory;
use crate::write::do_write;
use rb_base::{Store, Workspace};
use rb_cr::Scratch;
use rb_model::{Refusal, Wrote};

/// Tries the write of the ready session that came first once more, and tells whose it is and what it answers: the
/// session leaves the queue, and where it has to wait again, it does so behind all others. None where no session is
/// ready. A stopped engine tries none.
pub fn do_resume<T: Store>(
    memory: &mut Memory,
    scratch: &mut Scratch,
    store: &mut T,
    workspace: &mut Workspace,
) -> Option<(u16, Result<Wrote, Refusal>)>
    requires step { IsInStep T.Store memory.old store.old }
    ensures step { IsInStep T.Store memory.new store.new }
    ensures did { (h : State) → Stands T.Store h (record { memory = memory.old; store = store.old })
        → Resumes T.Store h result (record { memory = memory.old; store = store.old })
        (record { memory = memory.new; store = store.new }) }
    ensures holds_back { resume_fault result ≡ false → T.holds_back store.old store.new }
    ensures fewer { IfSome result (λ r. ready_count memory.new.waits < ready_count memory.old.waits) }
    ensures idle { first_ready memory.old.waits ≡ None
        → (result ≡ None) × (memory.new ≡ memory.old) × (store.new ≡ store.old) }
    ensures same { SameStore T.Store store.old store.new }
    ensures disk { IsCountedAs (T.faults store.old) (T.faults store.new) (resume_fault result) }
{
    if memory.stopped {
        return None;
    }
    let s = memory.waits.ready()?;
    let pending = memory.sessions.held(s)?;
    memory.waits.leave(s);
    let outcome = do_write(
        memory,
        scratch,
        store,
        workspace,
        s,
        pending.table,
        pending.key,
        pending.op(),
    );
    Some((s, outcome))
}

impl<T: Store> Engine<T> {
    /// Whether a session is ready to try its write again.
    pub fn has_ready(&self) -> bool
        ensures { result ≡ is_some (first_ready self.now.memory.waits) }
    {
        self.memory.waits.ready().is_some()
    }

    /// Tries the write of the ready session that came first once more, and tells whose it is and what it answers. Each
    /// session that waited for one whose transaction has ended is ready. The session leaves the queue; where it has to
    /// wait again, it does so behind all others. None where no session is ready, and of a stopped engine.
    pub fn resume(&mut self) -> Option<(u16, Result<Wrote, Refusal>)>
        ensures did { (h : State) → Stands T.Store h self.old → Resumes T.Store h result self.old self.new }
        ensures fewer { IfSome result (λ r. ready_count self.new.memory.waits < ready_count self.old.memory.waits) }
        ensures few { ready_count self.old.memory.waits ≤ SESSIONS }
        ensures idle { first_ready self.old.memory.waits ≡ None → (result ≡ None) × (self.new ≡ self.old) }
        ensures holds_back { resume_fault result ≡ false → T.holds_back self.old.store self.new.store }
        ensures same { SameStore T.Store self.old.store self.new.store }
        ensures disk { IsCountedAs (T.faults self.old.store) (T.faults self.new.store) (resume_fault result) }
    {
        do_resume(
            &mut self.memory,
            &mut self.scratch,
            &mut self.store,
            &mut self.workspace,
        )
    }
}
