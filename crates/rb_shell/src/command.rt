//! `run`: the program over a source, a sink and a disk. `main` calls it.
ghost use Rattle.std.specs.Prelude.{◌≡◌, ◌≢◌, ◌⊎◌, ℕ, ◌<◌, ◌≤◌, Bool, true, false};
ghost use Rattle.std.specs.Prelude.{List, [], ◌++◌, length};
ghost use Rattle.rb_base.specs.Counts.{IsCountedAs, Rose};
ghost use Rattle.rb_disk.specs.DiskModel.{Only};
ghost use Rattle.rb_disk.specs.Moments.{Rests};
ghost use Rattle.rb_layout.specs.declared.layout.Layout.{Layout};
ghost use Rattle.rb_layout.specs.Regions.{fresh_file};
ghost use Rattle.rb_lines.specs.Faults.{IsCountedBeside};
ghost use Rattle.rb_lines.specs.Whole.{whole_lines};
ghost use Rattle.rb_model.specs.Lines.{lines_of};
ghost use Rattle.rb_shell.specs.Generation.{HasTold, MadeOver, WasNotTold};
ghost use Rattle.rb_shell.specs.Statuses.{EndsGenerator, TellsCounts};
ghost use Rattle.rb_shell.specs.Runs.{IsSound, IsStore, HasHalted, HasRun, WasCutOff, Endures};
ghost use Rattle.rb_store.specs.Openings.{LeftAlone};
ghost use Rattle.rb_shell.specs.Runs.{EnduresCounted, HasRunOut, Lasts, LastsBehind, LeftBehind, OpensSame, WasStopped};
ghost use Rattle.rb_shell.specs.Runs.{WasTaken};
ghost use Rattle.rb_shell.specs.Statuses.{EndsRun, AsksScript, AsksNothing, IsDoneOrNoMemory};
ghost use Rattle.rb_shell.specs.Statuses.{EndsFormat, by_disk, by_sink, by_source};
ghost use Rattle.rb_model.specs.State.{State, opened};
ghost use Rattle.rb_layout.specs.Regions.{shape_of};
ghost use Rattle.rb_shell.specs.Left.{Left};
ghost use Rattle.rb_shell.specs.NewBooks.{new_books};
ghost use Rattle.rb_shell.specs.Over.{HaltsOver, IsCutOver, LeavesAll, LeavesSame, LeavesSome, RunsOver, RunsToEnd};
ghost use Rattle.rb_words.specs.Words.{AsksFormat, AsksGen, AsksRun, IsUsage};

use crate::generation::run_generator;
use crate::script::run_script;
use crate::status::Status;
use rb_base::NoMemory;
use rb_disk::Disk;
use rb_layout::{Layout, VERSION};
use rb_store::{FormatFault, format};
use rb_stream::{Sink, Source};
use rb_words::{Request, parse_words};
use std::alloc::Global;

/// Does what the words after the program's name ask for, and hands the disk back: `FILE format ...` makes a new
/// file on the disk; `FILE run frames=N` does the source's lines over the store of the disk, of which N blocks are in
/// memory at a time, and puts each reply as soon as its line is done; `FILE gen N` makes N drawn commands over the
/// store of the disk, and puts one line that tells of them.
pub fn run<S: Source, K: Sink, D: Disk>(
    alloc: Global,
    words: &[String],
    source: &mut S,
    sink: &mut K,
    disk: D,
) -> (Status, D)
    // Other words are refused before anything is touched, unless memory runs out as they are read.
    ensures usage { result.0 ≡ Status.Usage → IsUsage words.now }
    ensures other_words { IsUsage words.now → (result.0 ≡ Status.Usage) ⊎ (result.0 ≡ Status.NoMemory) }
    ensures usage_disk { IsUsage words.now → result.1 ≡ disk }
    ensures format_ends { (l : Layout) → AsksFormat words.now l → EndsFormat result.0 }
    ensures format_memory { (l : Layout) → AsksFormat words.now l → result.0 ≡ Status.NoMemory
        → result.1 ≡ disk }
    ensures run_ends { (n : ℕ) → AsksRun words.now n → EndsRun result.0 }
    ensures gen_ends { (n : ℕ) → AsksGen words.now n → EndsGenerator result.0 }

    // A new file.
    ensures formatted { D.tells → (l : Layout) → AsksFormat words.now l → result.0 ≡ Status.Done
        → D.content result.1 ≡ fresh_file VERSION l }
    ensures durable { D.tells → (l : Layout) → AsksFormat words.now l → result.0 ≡ Status.Done
        → Only (fresh_file VERSION l) (D.image result.1) }
    ensures was_empty { D.tells → (l : Layout) → AsksFormat words.now l → result.0 ≡ Status.Done
        → length (D.content disk) ≡ 0 }
    ensures not_empty { D.tells → result.0 ≡ Status.NotEmpty → 0 < length (D.content disk) }
    ensures format_unchanged { D.tells → (l : Layout) → AsksFormat words.now l → 0 < length (D.content disk)
        → Rests D.Disk disk result.1 }
    ensures format_source { ((n : ℕ) → ¬ AsksRun words.now n) → source.new ≡ source.old }
    ensures format_sink { ((n : ℕ) → ¬ AsksRun words.now n) → ((n : ℕ) → ¬ AsksGen words.now n)
        → sink.new ≡ sink.old }

    // A run to its end: the replies are those that the machine opened with the file's rows allows for the lines
    // of the whole source, and what wasn't committed was made last too. Here and below `Endures` says what a crash may
    // leave at any moment of the run, and at its end.
    ensures replies { D.tells → S.tells → (n : ℕ) → AsksRun words.now n → result.0 ≡ Status.Done →
        (sound : IsSound (D.content disk)) → HasRun sound (lines_of (S.left source.old)) K.tells (K.held sink.old)
        (K.held sink.new) (Lasts D.Disk disk result.1) }
    ensures at_end { S.tells → (n : ℕ) → AsksRun words.now n → result.0 ≡ Status.Done
        → S.left source.new ≡ [] }
    ensures few { S.tells → (n : ℕ) → AsksRun words.now n → result.0 ≡ Status.Done
        → length (S.left source.old) < 1000000000 }

    // A run that ends at a fault of the source, or is too long: the whole lines of what was taken are done.
    ensures source_done { D.tells → S.tells → result.0 ≡ Status.SourceFault
        → (sound : IsSound (D.content disk))
        → ((taken : List ℕ) × WasTaken taken (S.left source.old) (S.left source.new)
        × HasRun sound (whole_lines taken) K.tells (K.held sink.old) (K.held sink.new)
        (Endures D.Disk disk result.1)) }
    ensures too_long { D.tells → S.tells → result.0 ≡ Status.TooLong → (sound : IsSound (D.content disk)) →
        ((taken : List ℕ) × (length taken ≡ 1000000000) × WasTaken taken (S.left source.old) (S.left source.new)
        × HasRun sound (whole_lines taken) K.tells (K.held sink.old) (K.held sink.new)
        (Endures D.Disk disk result.1)) }

    // At a fault of the disk in the opening nothing was asked for, and a crash leaves what restarts to the state that a
    // sound file opens to; a file that opens to nothing is as it was. Else the reply that tells of the fault is the
    // last, and nothing was asked for after it; or all lines were done, and the fault came as what waited was made
    // last. At a fault of the sink the replies are cut off in one line, and none was begun after it.
    ensures disk_done { D.tells → S.tells → (n : ℕ) → AsksRun words.now n → result.0 ≡ Status.DiskFault →
        ((source.new ≡ source.old) × (sink.new ≡ sink.old)
        × WasStopped D.Disk disk result.1)
        ⊎ ((sound : IsSound (D.content disk)) → HasHalted sound (S.left source.old) (S.left source.new) K.tells
        (K.held sink.old) (K.held sink.new) (Endures D.Disk disk result.1)
        ⊎ HasRunOut sound (S.left source.old) (S.left source.new) K.tells (K.held sink.old) (K.held sink.new)
        (Endures D.Disk disk result.1)) }
    ensures cut_off { D.tells → S.tells → K.tells → (n : ℕ) → AsksRun words.now n
        → result.0 ≡ Status.SinkFault → (sound : IsSound (D.content disk))
        → WasCutOff sound (S.left source.old) (S.left source.new) (K.held sink.old) (K.held sink.new)
        (EnduresCounted D.Disk disk result.1) }

    // Whatever the source tells: a crash leaves a state of the machine's, from that to which the file opens on; and
    // where all is well, all that it did.
    ensures endures { D.tells → (n : ℕ) → AsksRun words.now n → AsksScript result.0
        → (sound : IsSound (D.content disk)) → LeftBehind D.Disk disk result.1 sound }
    ensures endures_done { D.tells → (n : ℕ) → AsksRun words.now n → result.0 ≡ Status.Done
        → (sound : IsSound (D.content disk)) → LastsBehind D.Disk disk result.1 sound }
    ensures endures_disk { D.tells → (n : ℕ) → AsksRun words.now n → result.0 ≡ Status.DiskFault
        → (sound : IsSound (D.content disk))
        → OpensSame D.Disk disk result.1 sound ⊎ LeftBehind D.Disk disk result.1 sound }

    // A run of the generator: all commands were made, with answers that the machine opened with the file's rows allows,
    // and what wasn't committed was made last too before the line was put. A fault of the sink leaves a front of it,
    // and one of the disk, in the opening, in a command or behind them all, nothing of it.
    ensures generated { D.tells → (n : ℕ) → AsksGen words.now n → result.0 ≡ Status.Done
        → (sound : IsSound (D.content disk)) → HasTold sound n K.tells (K.held sink.old) (K.held sink.new)
        (Lasts D.Disk disk result.1) }
    ensures not_told { D.tells → K.tells → (n : ℕ) → AsksGen words.now n → result.0 ≡ Status.SinkFault
        → (sound : IsSound (D.content disk)) → WasNotTold sound n (K.held sink.old) (K.held sink.new)
        (Lasts D.Disk disk result.1) }
    ensures gen_disk { D.tells → (n : ℕ) → AsksGen words.now n → result.0 ≡ Status.DiskFault →
        WasStopped D.Disk disk result.1 ⊎ ((sound : IsSound (D.content disk)) → (fault : Bool)
        × MadeOver sound n fault (Endures D.Disk disk result.1)) }
    ensures no_line { (n : ℕ) → AsksGen words.now n → result.0 ≡ Status.DiskFault → sink.new ≡ sink.old }
    ensures gen_untouched { D.tells → (n : ℕ) → AsksGen words.now n → AsksNothing result.0
        → LeftAlone D.Disk disk result.1 }
    ensures gen_store { D.tells → (n : ℕ) → AsksGen words.now n → TellsCounts result.0
        → IsStore (D.content disk) }

    // The same without a word of what a sound file is: a new file is `Left`, and over each such file the replies are
    // those of the machine that opens with its state and log number, and each file that is left behind is such a one
    // again, with the rows of a state that comes of this one.
    ensures left_new { D.tells → (l : Layout) → AsksFormat words.now l → result.0 ≡ Status.Done
        → (file : List ℕ) → D.image result.1 file
        → Left l.log file (opened (shape_of l) 0 [] (new_books (shape_of l)) []) 0 }
    ensures left { D.tells → S.tells → (n : ℕ) → AsksRun words.now n → result.0 ≡ Status.Done
        → (slots : ℕ) (h : State) (lsn : ℕ) → Left slots (D.content disk) h lsn
        → RunsToEnd D.Disk disk result.1 slots h lsn (lines_of (S.left source.old)) K.tells (K.held sink.old)
        (K.held sink.new) }
    ensures left_source { D.tells → S.tells → result.0 ≡ Status.SourceFault
        → (slots : ℕ) (h : State) (lsn : ℕ) → Left slots (D.content disk) h lsn
        → ((taken : List ℕ) × (S.left source.old ≡ taken ++ S.left source.new)
        × RunsOver D.Disk disk result.1 slots h lsn false (whole_lines taken) K.tells (K.held sink.old)
        (K.held sink.new)) }
    ensures left_long { D.tells → S.tells → result.0 ≡ Status.TooLong
        → (slots : ℕ) (h : State) (lsn : ℕ) → Left slots (D.content disk) h lsn
        → ((taken : List ℕ) × (length taken ≡ 1000000000) × (S.left source.old ≡ taken ++ S.left source.new)
        × RunsOver D.Disk disk result.1 slots h lsn false (whole_lines taken) K.tells (K.held sink.old)
        (K.held sink.new)) }
    // A fault of the disk came in the opening, in a line, or behind all lines.
    ensures left_disk { D.tells → S.tells → (n : ℕ) → AsksRun words.now n → result.0 ≡ Status.DiskFault
        → (slots : ℕ) (h : State) (lsn : ℕ) → Left slots (D.content disk) h lsn
        → ((source.new ≡ source.old) × (sink.new ≡ sink.old) × LeavesSame D.Disk disk result.1 slots h)
        ⊎ (HaltsOver D.Disk disk result.1 slots h lsn (S.left source.old) (S.left source.new) K.tells
        (K.held sink.old) (K.held sink.new)
        ⊎ ((S.left source.new ≡ []) × RunsOver D.Disk disk result.1 slots h lsn false
        (lines_of (S.left source.old)) K.tells (K.held sink.old) (K.held sink.new))) }
    ensures left_cut { D.tells → S.tells → K.tells → (n : ℕ) → AsksRun words.now n
        → result.0 ≡ Status.SinkFault
        → (slots : ℕ) (h : State) (lsn : ℕ) → Left slots (D.content disk) h lsn
        → IsCutOver D.Disk disk result.1 slots h lsn (S.left source.old) (S.left source.new) (K.held sink.old)
        (K.held sink.new) }
    // Whatever the source and the sink tell.
    ensures left_some { D.tells → (n : ℕ) → AsksRun words.now n → AsksScript result.0
        → (slots : ℕ) (h : State) (lsn : ℕ) → Left slots (D.content disk) h lsn
        → LeavesSome D.Disk disk result.1 slots h }
    ensures left_done { D.tells → (n : ℕ) → AsksRun words.now n → result.0 ≡ Status.Done
        → (slots : ℕ) (h : State) (lsn : ℕ) → Left slots (D.content disk) h lsn
        → LeavesAll D.Disk disk result.1 slots h }
    ensures left_gen { D.tells → (n : ℕ) → AsksGen words.now n → TellsCounts result.0
        → (slots : ℕ) (h : State) (lsn : ℕ) → Left slots (D.content disk) h lsn
        → LeavesAll D.Disk disk result.1 slots h }
    ensures left_fault { D.tells → result.0 ≡ Status.DiskFault → ((l : Layout) → ¬ AsksFormat words.now l)
        → (slots : ℕ) (h : State) (lsn : ℕ) → Left slots (D.content disk) h lsn
        → LeavesSame D.Disk disk result.1 slots h ⊎ LeavesSome D.Disk disk result.1 slots h }
    // Where nothing was asked for, whatever the words. Such a file is always a store; and where no fault comes, all
    // is done, unless memory runs out.
    ensures left_alone { D.tells → AsksNothing result.0
        → (slots : ℕ) (h : State) (lsn : ℕ) → Left slots (D.content disk) h lsn
        → LeavesSame D.Disk disk result.1 slots h }
    ensures left_store { D.tells → result.0 ≡ Status.NotAStore
        → (slots : ℕ) (h : State) (lsn : ℕ) → ¬ Left slots (D.content disk) h lsn }
    ensures left_complete { D.tells → S.tells → (n : ℕ) → AsksRun words.now n
        → (slots : ℕ) (h : State) (lsn : ℕ) → Left slots (D.content disk) h lsn
        → length (S.left source.old) < 1000000000
        → ¬ Rose (S.faults source.old) (S.faults source.new) → ¬ Rose (D.faults disk) (D.faults result.1)
        → ¬ Rose (K.faults sink.old) (K.faults sink.new)
        → IsDoneOrNoMemory result.0 }
    ensures left_complete_gen { D.tells → (n : ℕ) → AsksGen words.now n
        → (slots : ℕ) (h : State) (lsn : ℕ) → Left slots (D.content disk) h lsn
        → ¬ Rose (D.faults disk) (D.faults result.1) → ¬ Rose (K.faults sink.old) (K.faults sink.new)
        → IsDoneOrNoMemory result.0 }

    // Where the script isn't asked for, the file opens as before. It is asked for just where the file is a store.
    ensures source_same { AsksNothing result.0 → source.new ≡ source.old }
    ensures sink_same { AsksNothing result.0 → sink.new ≡ sink.old }
    ensures untouched { D.tells → (n : ℕ) → AsksRun words.now n → AsksNothing result.0
        → LeftAlone D.Disk disk result.1 }
    ensures not_a_store { D.tells → result.0 ≡ Status.NotAStore → ¬ IsStore (D.content disk) }
    ensures store { D.tells → (n : ℕ) → AsksRun words.now n → AsksScript result.0 → IsStore (D.content disk) }

    // It ends by a fault only where that count rose, and else the count is as before. A fault of the sink may hide one
    // of the disk, but not in a run of the generator, which calls the sink last. Where none rises, all is done.
    ensures source { IsCountedAs (S.faults source.old) (S.faults source.new) (by_source result.0) }
    ensures disk { IsCountedBeside (D.faults disk) (D.faults result.1) (by_disk result.0) (by_sink result.0) }
    ensures sink { IsCountedAs (K.faults sink.old) (K.faults sink.new) (by_sink result.0) }
    ensures gen_count { (n : ℕ) → AsksGen words.now n
        → IsCountedAs (D.faults disk) (D.faults result.1) (by_disk result.0) }
    ensures complete_format { D.tells → (l : Layout) → AsksFormat words.now l → length (D.content disk) ≡ 0
        → ¬ Rose (D.faults disk) (D.faults result.1) → IsDoneOrNoMemory result.0 }
    ensures complete { D.tells → S.tells → (n : ℕ) → AsksRun words.now n → IsSound (D.content disk)
        → length (S.left source.old) < 1000000000
        → ¬ Rose (S.faults source.old) (S.faults source.new) → ¬ Rose (D.faults disk) (D.faults result.1)
        → ¬ Rose (K.faults sink.old) (K.faults sink.new)
        → IsDoneOrNoMemory result.0 }
    ensures complete_gen { D.tells → (n : ℕ) → AsksGen words.now n → IsSound (D.content disk)
        → ¬ Rose (D.faults disk) (D.faults result.1) → ¬ Rose (K.faults sink.old) (K.faults sink.new)
        → IsDoneOrNoMemory result.0 }
{
    match parse_words(alloc, words) {
        Ok(Some(Request::Format(layout))) => run_format(&layout, disk),
        Ok(Some(Request::Run { frames })) => run_script(alloc, frames, source, sink, disk),
        Ok(Some(Request::Gen { commands })) => run_generator(alloc, commands, sink, disk),
        Ok(None) => (Status::Usage, disk),
        Err(NoMemory) => (Status::NoMemory, disk),
    }
}

// Makes a new file.
fn run_format<D: Disk>(layout: &Layout, mut disk: D) -> (Status, D)
    ensures ends { EndsFormat result.0 }
    ensures memory { result.0 ≢ Status.NoMemory }
    ensures formatted { D.tells → result.0 ≡ Status.Done → D.content result.1 ≡ fresh_file VERSION layout.now }
    ensures durable { D.tells → result.0 ≡ Status.Done → Only (fresh_file VERSION layout.now) (D.image result.1) }
    ensures was_empty { D.tells → result.0 ≡ Status.Done → length (D.content disk) ≡ 0 }
    ensures not_empty { D.tells → result.0 ≡ Status.NotEmpty → 0 < length (D.content disk) }
    ensures unchanged { D.tells → 0 < length (D.content disk)
        → Rests D.Disk disk result.1 }
    ensures disk { IsCountedAs (D.faults disk) (D.faults result.1) (by_disk result.0) }
{
    match format(&mut disk, layout) {
        Ok(()) => (Status::Done, disk),
        Err(FormatFault::Failed) => (Status::DiskFault, disk),
        Err(FormatFault::NotEmpty) => (Status::NotEmpty, disk),
    }
}
