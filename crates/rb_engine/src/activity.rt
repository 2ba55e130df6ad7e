//! What a session has under way. The shell asks it of each.
ghost use Rattle.std.specs.Prelude.{◌≡◌, ◌≢◌, IfErr};
ghost use Rattle.rb_engine.specs.Checks as checks;
ghost use Rattle.rb_engine.specs.Does.{Does, Stands};
ghost use Rattle.rb_model.specs.Answers.{activity_answer};
ghost use Rattle.rb_model.specs.Calls as machine;
ghost use Rattle.rb_model.specs.State.{State};

use crate::checks::check_number;
use crate::engine::Engine;
use crate::modes::is_unbegun;
use rb_base::Store;
use rb_model::{Activity, Refusal, Wait};
use rb_sessions::Session;

/// Whether a session has nothing under way.
fn has_nothing(session: Session, wait: Wait) -> bool
    ensures { result ≡ checks.has_nothing session wait }
{
    is_unbegun(session) && session.cursors == 0 && matches!(wait, Wait::Free)
}

impl<T: Store> Engine<T> {
    /// What session `s` has under way: its changes, cursors and mode, and for whom it waits. None where it has nothing
    /// of these, and no savepoint. It changes nothing. `Stopped` or `NoSession`. (As Oracle7's V$SESSION, V$TRANSACTION
    /// and V$LOCK.)
    pub fn activity(&self, s: u16) -> Result<Option<Activity>, Refusal>
        ensures did { (h : State) → Stands T.Store h self.now → Does T.Store h
            (machine.Show s) (activity_answer s result) self.now self.now }
        ensures other { IfErr result (λ why. why ≢ Refusal.DiskFault) }
    {
        check_number(&self.memory, s)?;
        let session = self.memory.sessions.session(s);
        let wait = self.memory.waits.wait_of(s);
        if has_nothing(session, wait) {
            return Ok(None);
        }
        Ok(Some(Activity {
            changes: session.length,
            cursors: session.cursors,
            mode: session.isolation.mode(),
            wait,
        }))
    }
}
