//! What the engine has in memory. It takes no more of it however many changes are made.
use rb_base::Scn;
use rb_copies::Copies;
use rb_model::Refusal;
use rb_sessions::Sessions;
use rb_waits::Waits;
use std::marker::Model;

/// The sessions, those of them that wait, the last commit number, whether the disk has failed, the homes that are kept
/// for readers, and how many groups put back the dead transactions: 0 says that there are none.
#[derive(Drop)]
pub struct Memory {
    pub(crate) sessions: Sessions,
    pub(crate) waits: Waits,
    pub(crate) scn: Scn,
    pub(crate) stopped: bool,
    pub(crate) copies: Copies,
    pub(crate) dead: u64,
}

impl Model for Memory {
    ghost use Rattle.rb_engine.specs.Does.{Kept};

    ghost Value = { Kept };

    ghost view = { λ a. record {
      sessions = a.sessions;
      waits = a.waits;
      scn = a.scn;
      stopped = a.stopped;
      copies = a.copies;
      dead = a.dead;
    } };
}

impl Memory {
    ghost use Rattle.std.specs.Prelude.{◌≡◌, true};
    ghost use Rattle.rb_model.specs.declared.refusal.Refusal.TheVariants.{DiskFault};

    /// A call of the store failed: the engine is stopped, so that no later call does anything, and this is the answer.
    pub(crate) fn fail(&mut self) -> Refusal
        ensures stopped { self.new ≡ record self.old { stopped = true } }
        ensures answer { result ≡ DiskFault }
    {
        self.stopped = true;
        Refusal::DiskFault
    }
}
