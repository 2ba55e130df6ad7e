//! The calls of a command on the engine. The shell makes those of a line, and the generator those of the commands that
//! it draws.
ghost use Rattle.std.specs.Prelude.{◌≡◌, ◌<◌, ℕ, suc, None, Some};
ghost use Rattle.rb_calls.specs.Fits.{FitsCaller};
ghost use Rattle.rb_calls.specs.Made.{Made};
ghost use Rattle.rb_engine.specs.Ahead.{IsAhead};
ghost use Rattle.rb_model.specs.Answers.{answer_of};
ghost use Rattle.rb_model.specs.Calls as machine;
ghost use Rattle.rb_model.specs.Lines.{call_of, caller, most_calls};
ghost use Rattle.rb_model.specs.Names.{name_text};
ghost use Rattle.rb_script.specs.Commands.{asked_by, command_of};

use crate::answers::{
    answer_to_activity, answer_to_call, answer_to_commit, answer_to_commit_later, answer_to_fetch,
    answer_to_flush, answer_to_get, answer_to_marks, answer_to_sweep, answer_to_write,
};
use rb_base::{Shape, Store};
use rb_engine::{Ahead, Engine};
use rb_model::{Name, Outcome, Row};
use rb_script::{Command, Request};

/// How many sessions there are.
const SESSIONS: u32 = 16;

/// How many calls a command makes at most over a file of that shape.
pub fn calls_of(command: &Command<'_>, shape: Shape) -> u32
    ensures { result ≡ most_calls shape (command_of command.now) }
{
    match command {
        Command::Session {
            s: _,
            request: Request::Fetch { name: _, n },
        } => *n,
        Command::Marks => u32::from(shape.segments),
        Command::Sessions => SESSIONS,
        _ => 1,
    }
}

/// Asks what segment `k` has made and given up.
fn answer_of_segment<T: Store>(engine: &mut Engine<T>, k: u32) -> Outcome
    requires { k < (T.shape_of engine.old.store).segments }
    ensures made { (row : Row) → Made T.Store (machine.Marks k) (answer_of result row) engine.old engine.new }
    ensures fits { FitsCaller None result }
{
    prove!(k < u32::from(engine.shape().segments));
    let seg = k as u16;
    answer_to_marks(seg, engine.marks(seg))
}

/// Asks what the k-th session has under way, from 0 on.
fn answer_of_session<T: Store>(engine: &Engine<T>, k: u32) -> Outcome
    requires { k < SESSIONS }
    ensures made { (row : Row) → Made T.Store (machine.Show (suc k)) (answer_of result row) engine.now engine.now }
    ensures fits { FitsCaller None result }
{
    let s = k as u16 + 1;
    answer_to_activity(s, engine.activity(s))
}

/// Makes the call that session `s` asks for. A row that it gives is in `row` then.
fn answer_to_request<T: Store>(
    engine: &mut Engine<T>,
    s: u16,
    request: &Request<'_>,
    row: &mut Row,
) -> Outcome
    ensures made { (k : ℕ) → Made T.Store (call_of (asked_by s request.now) k) (answer_of result row.new)
        engine.old engine.new }
    ensures fits { FitsCaller (Some s) result }
{
    match request {
        Request::Write { t, k, op } => answer_to_write(engine.write(s, *t, *k, *op)),
        Request::Lock { t, k } => answer_to_write(engine.lock(s, *t, *k)),
        Request::Commit => answer_to_commit(engine.commit(s)),
        Request::CommitLater => answer_to_commit_later(engine.commit_later(s)),
        Request::Rollback => answer_to_call(engine.rollback(s)),
        Request::Set { mode } => answer_to_call(engine.set(s, *mode)),
        Request::Savepoint { name } => answer_to_call(engine.savepoint(s, name)),
        Request::RollbackTo { name } => answer_to_call(engine.rollback_to(s, name)),
        Request::OpenCursor { name, t, lo, hi } => {
            answer_to_call(engine.open_cursor(s, name, *t, *lo, *hi))
        }
        Request::Fetch { name, n: _ } => answer_to_fetch(engine.fetch(s, name, row)),
        Request::CloseCursor { name } => answer_to_call(engine.close_cursor(s, name)),
        Request::Get { t, k } => answer_to_get(engine.get(s, *t, *k, row)),
        Request::Cancel => answer_to_call(engine.cancel(s)),
    }
}

/// Fetches a row of a session's cursor as one of many, with what is known ahead. A row that it gives is in `row` then.
pub fn answer_ahead<T: Store>(
    engine: &mut Engine<T>,
    s: u16,
    name: &Name,
    ahead: &mut Ahead,
    row: &mut Row,
) -> Outcome
    requires ahead { IsAhead T.Store engine.old s (name_text name.now) ahead.old }
    ensures ahead { IsAhead T.Store engine.new s (name_text name.now) ahead.new }
    ensures made { Made T.Store (machine.Fetch s (name_text name.now)) (answer_of result row.new)
        engine.old engine.new }
    ensures fits { FitsCaller (Some s) result }
{
    answer_to_fetch(engine.fetch_ahead(s, name, ahead, row))
}

/// Makes the k-th call of a command, from 0 on. A row that it gives is in `row` then.
pub fn answer<T: Store>(
    engine: &mut Engine<T>,
    command: &Command<'_>,
    k: u32,
    row: &mut Row,
) -> Outcome
    requires { k < most_calls (T.shape_of engine.old.store) (command_of command.now) }
    ensures made { Made T.Store (call_of (command_of command.now) k) (answer_of result row.new)
        engine.old engine.new }
    ensures fits { FitsCaller (caller (command_of command.now)) result }
{
    match command {
        Command::Session { s, request } => answer_to_request(engine, *s, request, row),
        Command::Marks => answer_of_segment(engine, k),
        Command::Sessions => answer_of_session(engine, k),
        Command::Flush => answer_to_flush(engine.flush()),
        Command::Sweep { changes } => answer_to_sweep(engine.sweep(*changes)),
        Command::Checkpoint => answer_to_call(engine.checkpoint()),
    }
}
