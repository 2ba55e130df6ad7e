//! The counts of answers that a run of the generator tells. Each of its calls notes its answer in them.
ghost use Rattle.std.specs.Prelude.{◌≡◌, ◌+◌, ◌≤◌, ◌<◌, ◌^◌, [], ◌∷◌};
ghost use Rattle.std.specs.Result.{is_err};
ghost use Rattle.rb_generator.specs.Counted.{counts_of, no_counts, plus, told};
ghost use Rattle.rb_model.specs.Answers.{answer_of};
ghost use Rattle.rb_model.specs.Calls.{is_fault};

use rb_base::Failed;
use rb_calls::{Listener, answer_to_write};
use rb_model::{Outcome, Refusal, Row, Wrote};

/// How many answers of each kind there were. All others, as `ok`, `end` and `flushed`, are in none of them.
#[derive(Clone, Copy, Debug, PartialEq, Eq)]
pub struct Counts {
    /// Commits that took a number.
    pub committed: u64,
    /// Rows that fetches gave.
    pub rows: u64,
    /// Writes that had to wait.
    pub waits: u64,
    /// Calls that were refused.
    pub refused: u64,
}

impl Counts {
    /// The counts of no answers.
    pub(crate) fn none() -> Counts
        ensures { result ≡ no_counts }
    {
        Counts {
            committed: 0,
            rows: 0,
            waits: 0,
            refused: 0,
        }
    }

    /// Counts one answer more.
    fn count(&mut self, answer: Outcome)
        requires { told self.old < 2 ^ 62 }
        ensures counted { (row : Row) → self.new ≡ plus self.old (counts_of (answer_of answer row ∷ [])) }
        ensures few { told self.new ≤ told self.old + 1 }
    {
        match answer {
            Outcome::Committed { .. } | Outcome::Numbered { .. } => self.committed += 1,
            Outcome::Row => self.rows += 1,
            Outcome::Waits { on: _ } => self.waits += 1,
            Outcome::Refused { why: _ } => self.refused += 1,
            _ => {}
        }
    }

    /// Counts one answer more, and fails where it tells of a fault of the disk.
    pub(crate) fn note(&mut self, answer: Outcome) -> Result<(), Failed>
        requires { told self.old < 2 ^ 62 }
        ensures counted { (row : Row) → self.new ≡ plus self.old (counts_of (answer_of answer row ∷ [])) }
        ensures few { told self.new ≤ told self.old + 1 }
        ensures fault { (row : Row) → is_err result ≡ is_fault (answer_of answer row) }
    {
        self.count(answer);
        match answer {
            Outcome::Refused {
                why: Refusal::DiskFault,
            } => Err(Failed),
            _ => Ok(()),
        }
    }
}

/// It counts how the writes came out that were tried again.
impl Listener for Counts {
    ghost use Rattle.std.specs.Prelude.{◌-◌, ◌^◌};
    ghost use Rattle.rb_generator.specs.Counted.{HasCountedOne, told};

    ghost room = { λ counts. 2 ^ 62 - told counts };

    ghost heard = { HasCountedOne };

    fn hear(&mut self, _s: u16, outcome: Result<Wrote, Refusal>) {
        self.count(answer_to_write(outcome));
    }
}
