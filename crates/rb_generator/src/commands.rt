//! One command on the engine, and the writes that it has made ready, with their answers counted. `generate` makes each
//! of its commands by `run_command`.
ghost use Rattle.std.specs.Prelude.{◌≡◌, ◌+◌, ◌≤◌, ◌^◌, false};
ghost use Rattle.std.specs.Result.{is_err};
ghost use Rattle.rb_base.specs.Counts.{IsCounted};
ghost use Rattle.rb_calls.specs.Since.{IsSince, StandsAs, engine_outside};
ghost use Rattle.rb_generator.specs.Answered.{CallsAnswered, CommandAnswered};
ghost use Rattle.rb_generator.specs.Counted.{told};
ghost use Rattle.rb_generator.specs.Ends.{HasCounted};
ghost use Rattle.rb_lines.specs.Ran.{Did};
ghost use Rattle.rb_model.specs.Lines.{most_calls};
ghost use Rattle.rb_model.specs.Out.{Logged};
ghost use Rattle.rb_script.specs.Commands.{command_of};
ghost use Rattle.rb_rollback.specs.Backs.{SameStore};

use crate::counts::Counts;
use arrayvec::ArrayVec;
use rb_base::{Failed, Store};
use rb_calls::{MOST_READY, answer, calls_of, goes_on, resume_ready};
use rb_engine::Engine;
use rb_model::Row;
use rb_script::Command;

/// Makes a command's calls, up to the first answer after which it doesn't go on.
fn make_calls<T: Store>(
    engine: &mut Engine<T>,
    command: &Command<'_>,
    counts: &mut Counts,
) -> Result<(), Failed>
    requires { told counts.old + most_calls (T.shape_of engine.old.store) (command_of command.now) ≤ 2 ^ 62 }
    ensures did { (m : Logged) → StandsAs T.Store engine.old m → m.state.stopped ≡ false
        → Did (StandsAs T.Store) (IsSince T.Store) engine.old engine.new m (λ now. HasCounted (CallsAnswered m
        engine_outside (command_of command.now) (most_calls m.state.shape (command_of command.now)) 0) now
        counts.old counts.new (is_err result)) }
    ensures few { told counts.new
        ≤ told counts.old + most_calls (T.shape_of engine.old.store) (command_of command.now) }
    ensures same { SameStore T.Store engine.old.store engine.new.store }
    ensures disk { IsCounted (T.faults engine.old.store) (T.faults engine.new.store) result }
{
    let mut row = Row {
        key: 0,
        value: ArrayVec::new(),
    };
    for k in 0..calls_of(command, engine.shape()) {
        let answer = answer(engine, command, k, &mut row);
        counts.note(answer)?;
        if !goes_on(answer) {
            return Ok(());
        }
    }
    Ok(())
}

/// Makes a command's calls, and tries the writes again that it has made ready. It counts at most sixteen answers more
/// than there are calls.
pub fn run_command<T: Store>(
    engine: &mut Engine<T>,
    command: &Command<'_>,
    counts: &mut Counts,
) -> Result<(), Failed>
    requires { told counts.old + most_calls (T.shape_of engine.old.store) (command_of command.now) + MOST_READY
        ≤ 2 ^ 62 }
    ensures did { (m : Logged) → StandsAs T.Store engine.old m → m.state.stopped ≡ false
        → Did (StandsAs T.Store) (IsSince T.Store) engine.old engine.new m (λ now. HasCounted (CommandAnswered m
        engine_outside (command_of command.now)) now counts.old counts.new (is_err result)) }
    ensures few { told counts.new
        ≤ told counts.old + most_calls (T.shape_of engine.old.store) (command_of command.now) + MOST_READY }
    ensures same { SameStore T.Store engine.old.store engine.new.store }
    ensures disk { IsCounted (T.faults engine.old.store) (T.faults engine.new.store) result }
{
    make_calls(engine, command, counts)?;
    resume_ready(engine, counts)
}
