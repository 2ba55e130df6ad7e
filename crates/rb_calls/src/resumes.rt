//! The writes of sessions that a command has made ready, tried again. The shell and the generator do so behind each
//! command, and hear the answers.
ghost use Rattle.std.specs.Prelude.{◌≡◌, ◌+◌, ◌≤◌, ℕ, None, false};
ghost use Rattle.std.specs.Result.{is_err};
ghost use Rattle.rb_base.specs.Counts.{IsCounted};
ghost use Rattle.rb_calls.specs.Resumes.{HasResumed, HeardFew};
ghost use Rattle.rb_calls.specs.Since.{IsSince, StandsAs, engine_outside};
ghost use Rattle.rb_lines.specs.Ran.{Did};
ghost use Rattle.rb_model.specs.Answers.{write_answer};
ghost use Rattle.rb_model.specs.Calls.{Answer, is_fault};
ghost use Rattle.rb_model.specs.Out.{Logged};
ghost use Rattle.rb_model.specs.Queue.{first_ready};
ghost use Rattle.rb_rollback.specs.Backs.{SameStore};

use rb_base::{Failed, Store};
use rb_engine::Engine;
use rb_model::{Refusal, Wrote};

/// How many writes are ready at most: one of each session.
pub const MOST_READY: usize = 16;

/// Hears how the writes came out that were tried again.
pub trait Listener {
    /// How many more it has room for.
    ghost room: { Self → ℕ };

    /// What it is after it has heard the answer to a session's write.
    ghost heard: { Self → ℕ → Answer → Self → Type 0 };

    /// Hears how the write of session `s` came out.
    fn hear(&mut self, s: u16, outcome: Result<Wrote, Refusal>)
        requires { 1 ≤ room self.old }
        ensures heard { heard self.old s (write_answer outcome) self.new }
        ensures room { room self.old ≤ room self.new + 1 };
}

/// Whether a write failed with the disk.
fn has_failed(outcome: Result<Wrote, Refusal>) -> bool
    ensures { result ≡ is_fault (write_answer outcome) }
{
    match outcome {
        Err(why) => why == Refusal::DiskFault,
        Ok(_) => false,
    }
}

/// Tries the writes of ready sessions again, that of the session that came first each time, until none is ready or the
/// disk failed. The listener has room for sixteen answers.
pub fn resume_ready<T: Store, L: Listener>(
    engine: &mut Engine<T>,
    listener: &mut L,
) -> Result<(), Failed>
    requires { MOST_READY ≤ L.room listener.old }
    ensures did { (m : Logged) → StandsAs T.Store engine.old m → m.state.stopped ≡ false
        → Did (StandsAs T.Store) (IsSince T.Store) engine.old engine.new m (λ now. HasResumed L.heard m
        engine_outside now listener.old listener.new (is_err result)) }
    ensures few { HeardFew L.heard MOST_READY listener.old listener.new }
    ensures idle { first_ready engine.old.memory.waits ≡ None
        → (engine.new ≡ engine.old) × (listener.new ≡ listener.old) × (is_err result ≡ false) }
    ensures same { SameStore T.Store engine.old.store engine.new.store }
    ensures disk { IsCounted (T.faults engine.old.store) (T.faults engine.new.store) result }
{
    // A write that was tried again leaves fewer sessions ready.
    for _turn in 0..MOST_READY {
        if !engine.has_ready() {
            return Ok(());
        }
        let Some((s, outcome)) = engine.resume() else {
            return Ok(());
        };
        listener.hear(s, outcome);
        if has_failed(outcome) {
            return Err(Failed);
        }
    }
    Ok(())
}
