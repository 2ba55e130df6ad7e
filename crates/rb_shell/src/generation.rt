//! Runs the generator over a store: its commands through the engine, and one line of their counts to the sink. `run`
//! calls it.
ghost use Rattle.std.specs.Prelude.{◌≡◌, ◌≢◌, ◌⊎◌, ℕ, ◌≤◌, Bool, false};
ghost use Rattle.rb_base.specs.Counts.{IsCounted, IsCountedAs};
ghost use Rattle.rb_calls.specs.Since.{StandsAs, engine_outside};
ghost use Rattle.rb_generator.specs.Summary.{summary_text};
ghost use Rattle.rb_model.specs.Out.{Logged};
ghost use Rattle.rb_shell.specs.Generation.{HasTold, MadeOn, MadeOver};
ghost use Rattle.rb_shell.specs.Statuses.{EndsCommands, EndsGenerator, TellsCounts};
ghost use Rattle.rb_shell.specs.Generation.{WasNotTold};
ghost use Rattle.rb_shell.specs.Runs.{Endures, IsSound, IsStore, Lasts};
ghost use Rattle.rb_store.specs.Openings.{LeftAlone};
ghost use Rattle.rb_shell.specs.Statuses.{AsksNothing};
ghost use Rattle.rb_shell.specs.Runs.{LastsBehind, LeftBehind, OpensSame, WasStopped};
ghost use Rattle.rb_shell.specs.Statuses.{by_disk, by_sink};
ghost use Rattle.rb_stream.specs.StreamModel.{Puts};

use crate::script::{make_last, open_engine, status_of_fault};
use crate::status::Status;
use arrayvec::ArrayVec;
use rb_base::{Failed, Scn, Store};
use rb_disk::Disk;
use rb_engine::Engine;
use rb_generator::{Counts, generate, print_summary};
use rb_stream::Sink;
use std::alloc::Global;

/// Through how many frames the generator has its blocks.
const FRAMES: u32 = 64;

/// Puts the line that tells of a run of so many commands.
fn put_summary<K: Sink>(
    commands: u32,
    counts: &Counts,
    now: Scn,
    sink: &mut K,
) -> Result<(), Failed>
    ensures put { K.tells → Puts (K.held sink.old) (K.held sink.new) (summary_text commands counts.now now) result }
    ensures counted { IsCounted (K.faults sink.old) (K.faults sink.new) result }
{
    let mut line = ArrayVec::new();
    print_summary(commands, counts, now, &mut line);
    sink.put(line.as_slice())
}

/// Makes the commands over an engine, makes last what waits, puts the line that tells of them, and gives the store
/// back.
fn make_commands<K: Sink, T: Store>(
    mut engine: Engine<T>,
    commands: u32,
    sink: &mut K,
) -> (Status, T)
    requires { commands ≤ 1000000 }
    ensures did { (m : Logged) → StandsAs T.Store engine m → m.state.stopped ≡ false
        → MadeOn T.Store engine.store result.1 engine_outside commands m K.tells (K.held sink.old)
        (K.held sink.new) result.0 }
    ensures ends { EndsCommands result.0 }
    ensures no_line { result.0 ≡ Status.DiskFault → sink.new ≡ sink.old }
    ensures disk { IsCountedAs (T.faults engine.store) (T.faults result.1) (by_disk result.0) }
    ensures sink { IsCountedAs (K.faults sink.old) (K.faults sink.new) (by_sink result.0) }
{
    let Ok(counts) = generate(&mut engine, commands, sink) else {
        return (Status::DiskFault, engine.close());
    };
    let now = engine.now();
    match make_last(&mut engine) {
        Status::Done => {}
        fault => return (fault, engine.close()),
    }
    match put_summary(commands, &counts, now, sink) {
        Ok(()) => (Status::Done, engine.close()),
        Err(_) => (Status::SinkFault, engine.close()),
    }
}

/// Opens the store of a disk, makes the commands of a run of so many over it, and puts the one line that tells of them.
/// All memory is taken before the first command.
pub fn run_generator<K: Sink, D: Disk>(
    alloc: Global,
    commands: u32,
    sink: &mut K,
    disk: D,
) -> (Status, D)
    requires { commands ≤ 1000000 }
    ensures ends { EndsGenerator result.0 }

    // All commands were made, and what waited was made last before the line was put.
    ensures done { D.tells → result.0 ≡ Status.Done → (sound : IsSound (D.content disk))
        → HasTold sound commands K.tells (K.held sink.old) (K.held sink.new) (Lasts D.Disk disk result.1) }
    ensures cut_off { D.tells → K.tells → result.0 ≡ Status.SinkFault → (sound : IsSound (D.content disk))
        → WasNotTold sound commands (K.held sink.old) (K.held sink.new) (Lasts D.Disk disk result.1) }

    // The disk failed in the opening, in a command, or behind them all.
    ensures disk_done { D.tells → result.0 ≡ Status.DiskFault → WasStopped D.Disk disk result.1
        ⊎ ((sound : IsSound (D.content disk)) → (fault : Bool)
        × MadeOver sound commands fault (Endures D.Disk disk result.1)) }
    ensures no_line { result.0 ≡ Status.DiskFault → sink.new ≡ sink.old }

    // What a crash leaves, whatever the sink tells.
    ensures endures { D.tells → TellsCounts result.0 → (sound : IsSound (D.content disk))
        → LastsBehind D.Disk disk result.1 sound }
    ensures endures_disk { D.tells → result.0 ≡ Status.DiskFault → (sound : IsSound (D.content disk))
        → OpensSame D.Disk disk result.1 sound ⊎ LeftBehind D.Disk disk result.1 sound }

    // No command was made.
    ensures sink_same { AsksNothing result.0 → sink.new ≡ sink.old }
    ensures untouched { D.tells → AsksNothing result.0 → LeftAlone D.Disk disk result.1 }
    ensures not_a_store { D.tells → result.0 ≡ Status.NotAStore → ¬ IsStore (D.content disk) }
    ensures store { D.tells → TellsCounts result.0 → IsStore (D.content disk) }

    // It ends by a fault only where that count rose, and else the count is as before.
    ensures disk { IsCountedAs (D.faults disk) (D.faults result.1) (by_disk result.0) }
    ensures sink { IsCountedAs (K.faults sink.old) (K.faults sink.new) (by_sink result.0) }
{
    match open_engine(alloc, disk, FRAMES) {
        Ok(engine) => {
            let (status, store) = make_commands(engine, commands, sink);
            (status, store.close())
        }
        Err((fault, disk)) => (status_of_fault(fault), disk),
    }
}
