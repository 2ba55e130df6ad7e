//! The run over a whole source. The shell's `run` calls it with the script.
ghost use Rattle.std.specs.Prelude.{ℕ, ◌≡◌, ◌≤◌, ◌<◌, false, List, [], ◌++◌, length, take, IfOk};
ghost use Rattle.std.specs.Prelude.{OnErr};
ghost use Rattle.rb_base.specs.Counts.{IsCounted, IsCountedAs};
ghost use Rattle.rb_model.specs.Out.{Logged, outside_by};
ghost use Rattle.rb_lines.specs.Ends.{EndsAs, ends_by_disk, ends_by_sink, ends_by_source, end_of};
ghost use Rattle.rb_lines.specs.Faults.{IsCountedBeside};
ghost use Rattle.rb_lines.specs.Ran.{Did};

use crate::partial::{Partial, feed, finish};
use crate::{LineRunner, StepFault};
use arrayvec::ArrayVec;
use rb_base::Failed;
use rb_stream::{Sink, Source};

const MAX_BYTES: usize = 1_000_000_000;

/// How a run of lines ended.
#[derive(Clone, Copy, Debug, PartialEq, Eq)]
pub enum LinesEnd {
    /// The source was read to its end, and each line was done.
    Done,
    /// A call of the source failed.
    SourceFault,
    /// A call of the runner's disk failed.
    DiskFault,
    /// A call of the sink failed.
    SinkFault,
    /// 1,000,000,000 bytes were taken without an end.
    TooLong,
}

impl From<StepFault> for LinesEnd {
    ghost from_gives = { λ fault end. end ≡ end_of fault };

    fn from(fault: StepFault) -> LinesEnd {
        match fault {
            StepFault::Disk => LinesEnd::DiskFault,
            StepFault::Sink => LinesEnd::SinkFault,
        }
    }
}

// Takes at most so many bytes into the front of the buffer, and tells how many; 0 at the end.
fn take_bytes<S: Source>(source: &mut S, buffer: &mut [u8], room: usize) -> Result<usize, Failed>
    requires buffer { 0 < length buffer.old }
    requires room { 0 < room }
    ensures buffer { IfOk result (λ n. n ≤ length buffer.new) }
    ensures room { IfOk result (λ n. n ≤ room) }
    ensures taken { IfOk result (λ n. S.tells → S.left source.old ≡ take n buffer.new ++ S.left source.new) }
    ensures end { IfOk result (λ n. S.tells → n ≡ 0 → S.left source.old ≡ []) }
    ensures none { OnErr result (S.tells → S.left source.new ≡ S.left source.old) }
    ensures counted { IsCounted (S.faults source.old) (S.faults source.new) result }
{
    let size = buffer.len().min(room);
    source.take(&mut buffer[..size])
}

/// Takes a source's bytes by the buffer, hands each line to the runner as soon as it is whole, and asks for more
/// only when all bytes taken are handed on. A last line without LF is handed on at the end.
pub fn run_lines<M: LineRunner, S: Source, K: Sink>(
    runner: &mut M,
    source: &mut S,
    sink: &mut K,
    buffer: &mut [u8],
) -> LinesEnd
    requires buffer { 0 < length buffer.old }

    // Which lines were done, and what became of the runner's file.
    ensures did { S.tells → (m : Logged) → M.stands runner.old m → m.state.stopped ≡ false
        → Did M.stands M.since runner.old runner.new m
        (λ now. EndsAs (outside_by M.worn M.back M.makes) (length buffer.old) m now
        (S.left source.old) (S.left source.new) K.tells (K.held sink.old) (K.held sink.new) result) }

    // What became of its file, also where the source doesn't tell.
    ensures passed { (m : Logged) → M.stands runner.old m → m.state.stopped ≡ false
        → Did M.stands M.since runner.old runner.new m
        (λ now. result ≡ LinesEnd.Done → now.state.stopped ≡ false) }
    ensures at_end { result ≡ LinesEnd.Done → S.tells → S.left source.new ≡ [] }
    ensures few { result ≡ LinesEnd.Done → S.tells → length (S.left source.old) < 1000000000 }

    // However it ends, at most 1,000,000,000 bytes were taken.
    ensures took { S.tells
        → ((taken : List ℕ) × (length taken ≤ 1000000000)
        × (S.left source.old ≡ taken ++ S.left source.new)) }

    // It ends by a fault only where that count rose, and else the count is as before.
    ensures source { IsCountedAs (S.faults source.old) (S.faults source.new) (ends_by_source result) }
    ensures disk { IsCountedBeside (M.faults runner.old) (M.faults runner.new) (ends_by_disk result)
        (ends_by_sink result) }
    ensures sink { IsCountedAs (K.faults sink.old) (K.faults sink.new) (ends_by_sink result) }
{
    let mut partial = ArrayVec::new();
    let mut room = MAX_BYTES;
    while room > 0 {
        let Ok(count) = take_bytes(source, buffer, room) else {
            return LinesEnd::SourceFault;
        };
        if count == 0 {
            return match finish(runner, sink, &partial) {
                Ok(()) => LinesEnd::Done,
                Err(fault) => LinesEnd::from(fault),
            };
        }
        if let Err(fault) = feed(runner, sink, &mut partial, &buffer[..count]) {
            return LinesEnd::from(fault);
        }
        room -= count;
    }
    LinesEnd::TooLong
}
