//! Runs a script over a store: its lines, one after another, through the engine to the sink. `run` calls it.
ghost use Rattle.std.specs.Prelude.{◌≡◌, ◌≢◌, ◌⊎◌, ℕ, ◌<◌, ◌≤◌, List, [], ◌++◌};
ghost use Rattle.std.specs.Prelude.{length, false, true, IfErr, IfOk, OnOk};
ghost use Rattle.rb_base.specs.Counts.{IsCountedAs, is_failed};
ghost use Rattle.rb_calls.specs.Since.{IsSince, StandsAs, engine_outside};
ghost use Rattle.rb_lines.specs.Faults.{IsCountedBeside};
ghost use Rattle.rb_lines.specs.Whole.{whole_lines};
ghost use Rattle.rb_model.specs.Lines.{lines_of};
ghost use Rattle.rb_model.specs.Out.{Logged};
ghost use Rattle.rb_shell.specs.Runs.{IsSound, IsStore, HasHalted, HasOpened, HasRun, HasRunOut, RanOn, WasCutOff};
ghost use Rattle.rb_shell.specs.Runs.{WasStopped, WasTaken};
ghost use Rattle.rb_store.specs.Openings.{LeftAlone};
ghost use Rattle.rb_shell.specs.Statuses.{EndsRun, AsksScript, AsksNothing};
ghost use Rattle.rb_shell.specs.Runs.{Endures, EnduresCounted, EndsBy, Lasts, LeftBehind, MadeLast};
ghost use Rattle.rb_shell.specs.Runs.{LastsBehind, OpensSame, PassedOn};
ghost use Rattle.rb_shell.specs.Statuses.{by_disk, by_sink, by_source, status_of, status_of_opening};

use crate::line::do_line;
use crate::replies::Waiting;
use crate::status::Status;
use rb_base::{OpenFault, Store};
use rb_disk::Disk;
use rb_engine::Engine;
use rb_fill::zero_bytes;
use rb_lines::{LineRunner, LinesEnd, StepFault, run_lines};
use rb_model::Refusal;
use rb_store::LogStore;
use rb_stream::{Sink, Source};
use std::alloc::Global;

/// How many bytes of the script are asked for at once.
pub const SCRIPT_BYTES: usize = 65_536;

/// The engine as what does the lines of a script, with room for the replies of a line.
#[derive(Drop)]
struct Interpreter<T: Store> {
    engine: Engine<T>,
    waiting: Waiting,
}

impl<T: Store> LineRunner for Interpreter<T> {
    ghost use Rattle.rb_calls.specs.Since.{BackOf, MakesOf, since_same, since_joined};
    ghost use Rattle.rb_engine.specs.Worn.{IsWorn};

    ghost stands = { λ r m. StandsAs T.Store r.engine m };

    ghost worn = { IsWorn };

    ghost back = { BackOf };

    ghost makes = { MakesOf };

    ghost faults = { λ r. T.faults r.engine.store };

    ghost since = { λ a b m n. IsSince T.Store a.engine b.engine m n };

    ghost since_same = { λ r m stands going. since_same r.engine m (λ kept. record {
      stable_left = λ store b n i told stable here. T.stable_left store b n i told stable here;
      stable_numbered = λ store b n told stable. T.stable_numbered store b n told stable;
      stable_patched = λ store b n told stable. T.stable_patched store b n told stable;
      now_counts = λ store t i told le here. T.now_counts store t i told le here;
      only_now = λ store i told left. T.only_now store i told left;
      holds_back_same = λ store. T.holds_back_same store;
      holds_back_joined = λ a b c first second. T.holds_back_joined a b c first second;
    }) stands going };

    ghost since_joined = { λ a b c m n k. since_joined a.engine b.engine c.engine m n k };

    fn run_line<K: Sink>(&mut self, line: &[u8], sink: &mut K) -> Result<(), StepFault> {
        do_line(&mut self.engine, line, &mut self.waiting, sink)
    }
}

/// The status of a store that wasn't opened.
pub fn status_of_fault(fault: OpenFault) -> Status
    ensures is { result ≡ status_of_opening fault }
    ensures ends { EndsRun result }
    ensures no_script { ¬ AsksScript result }
    ensures asks_nothing { result ≢ Status.DiskFault → AsksNothing result }
    ensures not_asked { fault ≡ OpenFault.Failed → ¬ AsksNothing result }
    ensures none { result ≡ Status.NotAStore → fault ≡ OpenFault.NotAStore }
    ensures by_disk { by_disk result ≡ is_failed fault }
    ensures by_source { by_source result ≡ false }
    ensures by_sink { by_sink result ≡ false }
{
    match fault {
        OpenFault::Failed => Status::DiskFault,
        OpenFault::NotAStore => Status::NotAStore,
        OpenFault::NoMemory => Status::NoMemory,
    }
}

/// Makes last what waits at the end of the script, so that the next opening finds it and puts it back. No reply tells
/// of it: what is acknowledged was made last before.
pub fn make_last<T: Store>(engine: &mut Engine<T>) -> Status
    ensures is { EndsBy LinesEnd.Done result }
    ensures lasts { (m : Logged) → StandsAs T.Store engine.old m → m.state.stopped ≡ false
        → MadeLast T.Store engine.old.store engine.new.store m result }
    ensures disk { IsCountedAs (T.faults engine.old.store) (T.faults engine.new.store) (by_disk result) }
{
    let Err(why) = engine.checkpoint() else {
        return Status::Done;
    };
    if why == Refusal::DiskFault {
        return Status::DiskFault;
    }
    // A stopped engine makes nothing last any more.
    Status::Done
}

/// The status of a script that was asked for. Where it came to its end, what waits is made last.
fn end_script<T: Store>(engine: &mut Engine<T>, end: LinesEnd) -> Status
    ensures is { EndsBy end result }
    ensures lasts { end ≡ LinesEnd.Done → (m : Logged) → StandsAs T.Store engine.old m
        → m.state.stopped ≡ false → MadeLast T.Store engine.old.store engine.new.store m result }
    ensures disk { end ≡ LinesEnd.Done
        → IsCountedAs (T.faults engine.old.store) (T.faults engine.new.store) (by_disk result) }
    ensures same { end ≢ LinesEnd.Done → (result ≡ status_of end) × (engine.new ≡ engine.old) }
{
    match end {
        LinesEnd::Done => make_last(engine),
        LinesEnd::SourceFault => Status::SourceFault,
        LinesEnd::DiskFault => Status::DiskFault,
        LinesEnd::SinkFault => Status::SinkFault,
        LinesEnd::TooLong => Status::TooLong,
    }
}

/// Runs the script over an engine, and gives its store back.
fn run_engine<S: Source, K: Sink, T: Store>(
    engine: Engine<T>,
    source: &mut S,
    sink: &mut K,
    buffer: &mut [u8],
) -> (Status, T)
    requires buffer { length buffer.old ≡ SCRIPT_BYTES }
    ensures did { S.tells → (m : Logged) → StandsAs T.Store engine m → m.state.stopped ≡ false
        → RanOn T.Store engine.store result.1 engine_outside SCRIPT_BYTES m (S.left source.old)
        (S.left source.new) K.tells (K.held sink.old) (K.held sink.new) result.0 }
    ensures passed { (m : Logged) → StandsAs T.Store engine m → m.state.stopped ≡ false
        → PassedOn T.Store engine.store result.1 m result.0 }
    ensures ends { EndsRun result.0 }
    ensures asks { ¬ AsksNothing result.0 }
    ensures at_end { result.0 ≡ Status.Done → S.tells → S.left source.new ≡ [] }
    ensures few { result.0 ≡ Status.Done → S.tells → length (S.left source.old) < 1000000000 }
    ensures source { IsCountedAs (S.faults source.old) (S.faults source.new) (by_source result.0) }
    ensures disk { IsCountedBeside (T.faults engine.store) (T.faults result.1) (by_disk result.0) (by_sink result.0) }
    ensures sink { IsCountedAs (K.faults sink.old) (K.faults sink.new) (by_sink result.0) }
{
    let mut interpreter = Interpreter {
        engine,
        waiting: Waiting::none(),
    };
    let end = run_lines(&mut interpreter, source, sink, buffer);
    let Interpreter {
        mut engine,
        waiting: _,
    } = interpreter;
    let status = end_script(&mut engine, end);
    (status, engine.close())
}

/// Opens the engine over the store of a disk, through 16 to 4,096 frames. An Err gives the disk back.
pub fn open_engine<D: Disk>(
    alloc: Global,
    disk: D,
    frames: u32,
) -> Result<Engine<LogStore<D>>, (OpenFault, D)>
    requires some { 16 ≤ frames }
    requires few { frames ≤ 4096 }
    ensures opened { D.tells → (sound : IsSound (D.content disk)) → IfOk result
        (λ e. HasOpened D.Disk ⟦<LogStore<D> as Store>⟧ disk e sound) }
    ensures store { D.tells → OnOk result (IsStore (D.content disk)) }
    ensures none { D.tells → IfErr result (λ r. r.0 ≡ OpenFault.NotAStore → ¬ IsStore (D.content disk)) }
    ensures images { D.tells → IfErr result (λ r. WasStopped D.Disk disk r.1) }
    ensures left_alone { D.tells → IfErr result
        (λ r. r.0 ≢ OpenFault.Failed → LeftAlone D.Disk disk r.1) }
    ensures counted_ok { IfOk result (λ e. D.faults e.store.disk ≡ D.faults disk) }
    ensures counted_err { IfErr result (λ r. IsCountedAs (D.faults disk) (D.faults r.1) (is_failed r.0)) }
{
    let store = LogStore::open(alloc, disk, frames)?;
    match Engine::open(alloc, store) {
        Ok(engine) => Ok(engine),
        Err((fault, store)) => Err((fault, store.close())),
    }
}

/// Opens the store of a disk through 16 to 4,096 frames and does the lines of a script, each as soon as it is whole.
/// All memory is taken before the script is asked for.
pub fn run_script<S: Source, K: Sink, D: Disk>(
    alloc: Global,
    frames: u32,
    source: &mut S,
    sink: &mut K,
    disk: D,
) -> (Status, D)
    requires some { 16 ≤ frames }
    requires few { frames ≤ 4096 }
    ensures ends { EndsRun result.0 }

    // The script was done to its end, to a fault, or as far as it may be long.
    ensures done { D.tells → S.tells → result.0 ≡ Status.Done
        → (sound : IsSound (D.content disk)) → HasRun sound (lines_of (S.left source.old))
        K.tells (K.held sink.old) (K.held sink.new) (Lasts D.Disk disk result.1) }
    ensures at_end { S.tells → result.0 ≡ Status.Done → S.left source.new ≡ [] }
    ensures few { S.tells → result.0 ≡ Status.Done → length (S.left source.old) < 1000000000 }
    ensures source_done { D.tells → S.tells → result.0 ≡ Status.SourceFault
        → (sound : IsSound (D.content disk))
        → ((taken : List ℕ) × WasTaken taken (S.left source.old) (S.left source.new)
        × HasRun sound (whole_lines taken) K.tells (K.held sink.old) (K.held sink.new)
        (Endures D.Disk disk result.1)) }
    ensures too_long { D.tells → S.tells → result.0 ≡ Status.TooLong → (sound : IsSound (D.content disk)) →
        ((taken : List ℕ) × (length taken ≡ 1000000000) × WasTaken taken (S.left source.old) (S.left source.new)
        × HasRun sound (whole_lines taken) K.tells (K.held sink.old) (K.held sink.new)
        (Endures D.Disk disk result.1)) }
    ensures disk_done { D.tells → S.tells → result.0 ≡ Status.DiskFault →
        ((source.new ≡ source.old) × (sink.new ≡ sink.old)
        × WasStopped D.Disk disk result.1)
        ⊎ ((sound : IsSound (D.content disk)) → HasHalted sound (S.left source.old) (S.left source.new) K.tells
        (K.held sink.old) (K.held sink.new) (Endures D.Disk disk result.1)
        ⊎ HasRunOut sound (S.left source.old) (S.left source.new) K.tells (K.held sink.old) (K.held sink.new)
        (Endures D.Disk disk result.1)) }
    ensures cut_off { D.tells → S.tells → K.tells → result.0 ≡ Status.SinkFault
        → (sound : IsSound (D.content disk)) → WasCutOff sound (S.left source.old) (S.left source.new)
        (K.held sink.old) (K.held sink.new) (EnduresCounted D.Disk disk result.1) }

    // What a crash leaves, whatever the source tells.
    ensures endures { D.tells → AsksScript result.0 → (sound : IsSound (D.content disk))
        → LeftBehind D.Disk disk result.1 sound }
    ensures endures_done { D.tells → result.0 ≡ Status.Done → (sound : IsSound (D.content disk))
        → LastsBehind D.Disk disk result.1 sound }
    ensures endures_disk { D.tells → result.0 ≡ Status.DiskFault → (sound : IsSound (D.content disk))
        → OpensSame D.Disk disk result.1 sound ⊎ LeftBehind D.Disk disk result.1 sound }

    // Nothing was asked for.
    ensures source_same { AsksNothing result.0 → source.new ≡ source.old }
    ensures sink_same { AsksNothing result.0 → sink.new ≡ sink.old }
    ensures untouched { D.tells → AsksNothing result.0 → LeftAlone D.Disk disk
        result.1 }
    ensures not_a_store { D.tells → result.0 ≡ Status.NotAStore → ¬ IsStore (D.content disk) }
    ensures store { D.tells → AsksScript result.0 → IsStore (D.content disk) }

    // It ends by a fault only where that count rose, and else the count is as before. A fault of the sink may hide one
    // of the disk.
    ensures source { IsCountedAs (S.faults source.old) (S.faults source.new) (by_source result.0) }
    ensures disk { IsCountedBeside (D.faults disk) (D.faults result.1) (by_disk result.0) (by_sink result.0) }
    ensures sink { IsCountedAs (K.faults sink.old) (K.faults sink.new) (by_sink result.0) }
{
    let Ok(mut buffer) = zero_bytes(alloc, SCRIPT_BYTES) else {
        return (Status::NoMemory, disk);
    };
    match open_engine(alloc, disk, frames) {
        Ok(engine) => {
            let (status, store) = run_engine(engine, source, sink, &mut buffer);
            (status, store.close())
        }
        Err((fault, disk)) => (status_of_fault(fault), disk),
    }
}
