//! What the results of the engine's calls are as answers. `answer` makes each of its calls' results one.
ghost use Rattle.std.specs.Prelude.{◌≡◌, ℕ, Option, None, Some};
ghost use Rattle.rb_model.specs.Out as lines;
ghost use Rattle.rb_base.specs.Counts.{err_is};
ghost use Rattle.rb_calls.specs.Fits.{FitsCaller};
ghost use Rattle.rb_model.specs.Answers.{answer_of, write_answer, plain_answer, commit_answer, fetch_answer};
ghost use Rattle.rb_model.specs.Answers.{activity_answer, flush_answer, get_answer, marks_answer, sweep_answer};
ghost use Rattle.rb_model.specs.Calls as machine;
ghost use Rattle.rb_model.specs.Calls.{is_disk_fault as is_fault_of_disk, is_fault};

use rb_model::{Activity, Fetched, Marks, Outcome, Refusal, Row, Wrote};

/// The answer of a write.
pub fn answer_to_write(outcome: Result<Wrote, Refusal>) -> Outcome
    ensures answer { (row : Row) → answer_of result row ≡ write_answer outcome }
    ensures fault { (row : Row) → is_fault (answer_of result row) ≡ err_is is_fault_of_disk outcome }
    ensures fits { (s : ℕ) → FitsCaller (Some s) result }
{
    match outcome {
        Ok(Wrote::Done) => Outcome::Done,
        Ok(Wrote::Waits { on }) => Outcome::Waits { on },
        Err(why) => Outcome::Refused { why },
    }
}

/// The answer of a commit that lasts.
pub fn answer_to_commit(outcome: Result<Option<u64>, Refusal>) -> Outcome
    ensures answer { (row : Row) → answer_of result row ≡ commit_answer machine.Committed outcome }
    ensures fault { (row : Row) → is_fault (answer_of result row) ≡ err_is is_fault_of_disk outcome }
    ensures fits { (s : ℕ) → FitsCaller (Some s) result }
{
    match outcome {
        Ok(None) => Outcome::Done,
        Ok(Some(number)) => Outcome::Committed { number },
        Err(why) => Outcome::Refused { why },
    }
}

/// The answer of a commit that waits to be made last.
pub fn answer_to_commit_later(outcome: Result<Option<u64>, Refusal>) -> Outcome
    ensures answer { (row : Row) → answer_of result row ≡ commit_answer machine.Numbered outcome }
    ensures fault { (row : Row) → is_fault (answer_of result row) ≡ err_is is_fault_of_disk outcome }
    ensures fits { (s : ℕ) → FitsCaller (Some s) result }
{
    match outcome {
        Ok(None) => Outcome::Done,
        Ok(Some(number)) => Outcome::Numbered { number },
        Err(why) => Outcome::Refused { why },
    }
}

/// The answer of a flush.
pub fn answer_to_flush(outcome: Result<u64, Refusal>) -> Outcome
    ensures answer { (row : Row) → answer_of result row ≡ flush_answer outcome }
    ensures fault { (row : Row) → is_fault (answer_of result row) ≡ err_is is_fault_of_disk outcome }
    ensures fits { FitsCaller None result }
{
    match outcome {
        Ok(number) => Outcome::Flushed { number },
        Err(why) => Outcome::Refused { why },
    }
}

/// The answer of a sweep.
pub fn answer_to_sweep(outcome: Result<u32, Refusal>) -> Outcome
    ensures answer { (row : Row) → answer_of result row ≡ sweep_answer outcome }
    ensures fault { (row : Row) → is_fault (answer_of result row) ≡ err_is is_fault_of_disk outcome }
    ensures fits { FitsCaller None result }
{
    match outcome {
        Ok(changes) => Outcome::Swept { changes },
        Err(why) => Outcome::Refused { why },
    }
}

/// The answer of a call that gives nothing but that it was done.
pub fn answer_to_call(outcome: Result<(), Refusal>) -> Outcome
    ensures answer { (row : Row) → answer_of result row ≡ plain_answer outcome }
    ensures fault { (row : Row) → is_fault (answer_of result row) ≡ err_is is_fault_of_disk outcome }
    ensures fits { (s : Option ℕ) → FitsCaller s result }
{
    match outcome {
        Ok(()) => Outcome::Done,
        Err(why) => Outcome::Refused { why },
    }
}

/// The answer of a fetch, beside its row.
pub fn answer_to_fetch(outcome: Result<Fetched, Refusal>) -> Outcome
    ensures answer { (row : Row) → answer_of result row ≡ fetch_answer outcome row }
    ensures fault { (row : Row) → is_fault (answer_of result row) ≡ err_is is_fault_of_disk outcome }
    ensures fits { (s : ℕ) → FitsCaller (Some s) result }
{
    match outcome {
        Ok(Fetched::Row) => Outcome::Row,
        Ok(Fetched::End) => Outcome::End,
        Err(why) => Outcome::Refused { why },
    }
}

/// The answer of a read of one key, beside its row.
pub fn answer_to_get(outcome: Result<Fetched, Refusal>) -> Outcome
    ensures answer { (row : Row) → answer_of result row ≡ get_answer outcome row }
    ensures fault { (row : Row) → is_fault (answer_of result row) ≡ err_is is_fault_of_disk outcome }
    ensures fits { (s : ℕ) → FitsCaller (Some s) result }
{
    match outcome {
        Ok(Fetched::Row) => Outcome::Row,
        Ok(Fetched::End) => Outcome::Absent,
        Err(why) => Outcome::Refused { why },
    }
}

/// The answer of what a session has under way.
pub fn answer_to_activity(session: u16, outcome: Result<Option<Activity>, Refusal>) -> Outcome
    ensures answer { (row : Row) → answer_of result row ≡ activity_answer session outcome }
    ensures fault { (row : Row) → is_fault (answer_of result row) ≡ err_is is_fault_of_disk outcome }
    ensures fits { FitsCaller None result }
{
    match outcome {
        Ok(Some(activity)) => Outcome::Shown { session, activity },
        Ok(None) => Outcome::Idle,
        Err(why) => Outcome::Refused { why },
    }
}

/// The answer of what a segment tells of itself.
pub fn answer_to_marks(seg: u16, outcome: Result<Marks, Refusal>) -> Outcome
    ensures answer { (row : Row) → answer_of result row ≡ marks_answer seg outcome }
    ensures fault { (row : Row) → is_fault (answer_of result row) ≡ err_is is_fault_of_disk outcome }
    ensures fits { FitsCaller None result }
{
    match outcome {
        Ok(Marks { writes, lost }) => Outcome::Marked { seg, writes, lost },
        Err(why) => Outcome::Refused { why },
    }
}

/// Whether a command makes its next call after that answer: it gave a row, or what a segment or a session tells of
/// itself.
pub fn goes_on(answer: Outcome) -> bool
    ensures { (row : Row) → result ≡ lines.goes_on (answer_of answer row) }
{
    matches!(
        answer,
        Outcome::Row | Outcome::Marked { .. } | Outcome::Shown { .. } | Outcome::Idle
    )
}
