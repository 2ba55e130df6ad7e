//! A key that is watched while records are taken back, the newest first. A rebuild tells it of each record and of each
//! commit: whoever asks which commit was the first to change a row reads that here.
ghost use Rattle.std.specs.Prelude.{◌≡◌, ◌||◌, ℕ, false, None, Some};
ghost use Rattle.rb_base.specs.declared.shape.Shape.{Shape};
ghost use Rattle.rb_cr.specs.Watches.{Stays};
ghost use Rattle.law_read.specs.Late.{seen_at, touches};
ghost use Rattle.law_blocks.specs.Says.{walk_undo};

use crate::scratch::holds;
use rb_base::Scn;
use rb_undoblock::UndoRecord;

/// What was seen of a key.
#[derive(Clone, Copy)]
pub struct Watch {
    /// The key; none where nobody asks.
    key: Option<u64>,
    /// Whether the chain that is taken back has changed its row.
    seen: bool,
    /// The last commit taken back that changed its row. It was the first that did.
    pub(crate) first: Option<Scn>,
}

impl Watch {
    /// A watch of a key, or of none. Nothing was taken back yet.
    pub(crate) fn of(key: Option<u64>) -> Watch
        ensures key { result.key ≡ key }
        ensures first { result.first ≡ None }
    {
        Watch {
            key,
            seen: false,
            first: None,
        }
    }

    /// A chain is to be taken back.
    pub(crate) fn begin(&mut self)
        ensures seen { self.new.seen ≡ false }
        ensures stays { Stays self.old self.new }
    {
        self.seen = false;
    }

    /// A record was taken back. A lock changes nothing.
    pub(crate) fn note(&mut self, undo: &UndoRecord)
        ensures seen { (shape : Shape) (seg key : ℕ) → self.old.key ≡ Some key
            → self.new.seen ≡ self.old.seen || touches key (Some (walk_undo shape seg undo.now)) }
        ensures stays { Stays self.old self.new }
    {
        if self.key == Some(undo.key) && !holds(undo.kind) {
            self.seen = true;
        }
    }

    /// The whole chain of a commit was taken back.
    pub(crate) fn end(&mut self, number: Scn)
        ensures key { self.new.key ≡ self.old.key }
        ensures first { self.new.first ≡ seen_at number self.old.seen self.old.first }
    {
        if self.seen {
            self.first = Some(number);
        }
    }
}
