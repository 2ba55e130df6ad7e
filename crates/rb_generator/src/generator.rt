//! `generate`: a number of drawn commands, one after another, on the engine. The shell calls it.
ghost use Rattle.std.specs.Prelude.{◌≡◌, ◌+◌, ◌<◌, ◌≤◌, ◌^◌, false};
ghost use Rattle.std.specs.Fmt.{decimal};
ghost use Rattle.std.specs.Result.{is_err};
ghost use Rattle.rb_base.specs.Counts.{IsCounted};
ghost use Rattle.rb_calls.specs.Since.{IsSince, StandsAs, engine_outside};
ghost use Rattle.rb_generator.specs.Answered.{CommandAnswered};
ghost use Rattle.rb_generator.specs.Counted.{told};
ghost use Rattle.rb_generator.specs.Draws.{drawn, next};
ghost use Rattle.rb_generator.specs.Ends.{HasCounted, HasGenerated};
ghost use Rattle.rb_lines.specs.Ran.{Did};
ghost use Rattle.rb_model.specs.Out.{Logged};
ghost use Rattle.rb_rollback.specs.Backs.{SameStore};

use crate::commands::run_command;
use crate::counts::Counts;
use crate::draws::Draws;
use itoa::Buffer;
use rb_base::{Failed, Store};
use rb_engine::Engine;
use rb_stream::Sink;

// After how many commands the progress is shown again: few enough that a slow device makes them within a second, and
// enough that a quick run seldom asks what time it is.
const SHOWN_EACH: u32 = 256;

/// Draws the next command, which is command `i` from 0 on, and makes it.
fn turn<T: Store>(
    engine: &mut Engine<T>,
    draws: &mut Draws,
    i: u32,
    counts: &mut Counts,
) -> Result<(), Failed>
    requires few { i < 1000000 }
    requires room { told counts.old + 20 ≤ 2 ^ 62 }
    ensures drawn { draws.new.state ≡ next (next (next (next draws.old.state))) }
    ensures did { (m : Logged) → StandsAs T.Store engine.old m → m.state.stopped ≡ false
        → Did (StandsAs T.Store) (IsSince T.Store) engine.old engine.new m (λ now. HasCounted (CommandAnswered m
        engine_outside (drawn (T.shape_of engine.old.store) draws.old.state (decimal (i + 1)))) now
        counts.old counts.new (is_err result)) }
    ensures few { told counts.new ≤ told counts.old + 20 }
    ensures same { SameStore T.Store engine.old.store engine.new.store }
    ensures disk { IsCounted (T.faults engine.old.store) (T.faults engine.new.store) result }
{
    let mut digits = Buffer::new();
    let value = digits.format(i + 1).as_bytes();
    let command = draws.command(engine.shape(), value);
    run_command(engine, &command, counts)
}

/// Shows how far the run is, where it is time for that again.
fn show_some<K: Sink>(sink: &K, done: u32, all: u32) {
    if done.is_multiple_of(SHOWN_EACH) {
        sink.show_progress(done, all);
    }
}

/// Makes the commands of a run of so many on the engine, each with the writes that it has made ready, and gives the
/// counts of their answers. It fails where the disk does, and makes no call then. Whoever watches the sink is shown how
/// many are made; the sink stays as it is.
pub fn generate<T: Store, K: Sink>(
    engine: &mut Engine<T>,
    commands: u32,
    sink: &K,
) -> Result<Counts, Failed>
    requires { commands ≤ 1000000 }
    // For every state that the engine stands for: the answers to the commands and to the writes that were tried again,
    // and the state after them. A crash may leave no more than these states.
    ensures did { (m : Logged) → StandsAs T.Store engine.old m → m.state.stopped ≡ false
        → Did (StandsAs T.Store) (IsSince T.Store) engine.old engine.new m (λ now. HasGenerated m
        engine_outside commands now result) }
    ensures same { SameStore T.Store engine.old.store engine.new.store }
    ensures disk { IsCounted (T.faults engine.old.store) (T.faults engine.new.store) result }
{
    let mut draws = Draws {
        state: u64::from(commands),
    };
    let mut counts = Counts::none();
    for i in 0..commands {
        show_some(sink, i, commands);
        turn(engine, &mut draws, i, &mut counts)?;
    }
    Ok(counts)
}
