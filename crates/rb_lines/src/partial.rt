//! The line under way: the bytes that came for it, fed to a line runner where it ends. `run_lines` calls it.
ghost use Rattle.std.specs.Prelude.{ℕ, ◌≡◌, false, List, [], ◌∷◌, ◌++◌, take, OnOk};
ghost use Rattle.rb_base.specs.Counts.{IsCountedAs, err_is};
ghost use Rattle.rb_model.specs.Out.{Logged, outside_by};
ghost use Rattle.rb_lines.specs.Faults.{IsCountedBeside, is_disk, is_sink};
ghost use Rattle.rb_lines.specs.Ran.{Did, RanAs};
ghost use Rattle.rb_lines.specs.Pieces.{lines_from, rest_from, last_of};

use crate::{LineRunner, StepFault};
use arrayvec::ArrayVec;
use memchr::memchr;
use rb_stream::Sink;

// A line of more than 512 bytes is bad whatever it has, so its first 513 bytes serve.
pub type Partial = ArrayVec<u8, 513>;

// Adds bytes to the line under way, as far as its first 513 go.
fn keep(partial: &mut Partial, bytes: &[u8])
    ensures { (line : List ℕ) → partial.old.items ≡ take 513 line
        → partial.new.items ≡ take 513 (line ++ bytes.now) }
{
    let size = partial.remaining_capacity().min(bytes.len());
    let fits = partial.try_extend_from_slice(&bytes[..size]).is_ok();
    prove!(fits);
}

// Does the line under way, of which these bytes are the last. Where it has no others it is handed on as it lies.
fn end_line<M: LineRunner, K: Sink>(
    runner: &mut M,
    sink: &mut K,
    partial: &mut Partial,
    bytes: &[u8],
) -> Result<(), StepFault>
    ensures did { (m : Logged) (line : List ℕ) → M.stands runner.old m → m.state.stopped ≡ false
        → partial.old.items ≡ take 513 line → Did M.stands M.since runner.old runner.new m
        (λ now. RanAs (outside_by M.worn M.back M.makes) m now ((line ++ bytes.now) ∷ []) K.tells (K.held sink.old)
        (K.held sink.new) result) }
    ensures kept { OnOk result (partial.new.items ≡ []) }
    ensures disk { IsCountedBeside (M.faults runner.old) (M.faults runner.new) (err_is is_disk result)
        (err_is is_sink result) }
    ensures sink { IsCountedAs (K.faults sink.old) (K.faults sink.new) (err_is is_sink result) }
{
    if partial.is_empty() {
        return runner.run_line(bytes, sink);
    }
    keep(partial, bytes);
    let done = runner.run_line(partial.as_slice(), sink);
    partial.clear();
    done
}

/// Does each line that the bytes end, and keeps the one under way.
pub fn feed<M: LineRunner, K: Sink>(
    runner: &mut M,
    sink: &mut K,
    partial: &mut Partial,
    bytes: &[u8],
) -> Result<(), StepFault>
    ensures did { (m : Logged) (line : List ℕ) → M.stands runner.old m → m.state.stopped ≡ false
        → partial.old.items ≡ take 513 line → Did M.stands M.since runner.old runner.new m
        (λ now. RanAs (outside_by M.worn M.back M.makes) m now (lines_from line bytes.now) K.tells (K.held sink.old)
        (K.held sink.new) result) }
    ensures kept { OnOk result ((line : List ℕ) → partial.old.items ≡ take 513 line
        → partial.new.items ≡ take 513 (rest_from line bytes.now)) }
    ensures disk { IsCountedBeside (M.faults runner.old) (M.faults runner.new) (err_is is_disk result)
        (err_is is_sink result) }
    ensures sink { IsCountedAs (K.faults sink.old) (K.faults sink.new) (err_is is_sink result) }
{
    let mut rest = bytes;
    while let Some(size) = memchr(b'\n', rest) {
        end_line(runner, sink, partial, &rest[..size])?;
        rest = &rest[size + 1..];
    }
    keep(partial, rest);
    Ok(())
}

/// Does the line under way as the input's last one, where it has any bytes.
pub fn finish<M: LineRunner, K: Sink>(
    runner: &mut M,
    sink: &mut K,
    partial: &Partial,
) -> Result<(), StepFault>
    ensures did { (m : Logged) (line : List ℕ) → M.stands runner.old m → m.state.stopped ≡ false
        → partial.now.items ≡ take 513 line → Did M.stands M.since runner.old runner.new m
        (λ now. RanAs (outside_by M.worn M.back M.makes) m now (last_of line) K.tells (K.held sink.old)
        (K.held sink.new) result) }
    ensures disk { IsCountedBeside (M.faults runner.old) (M.faults runner.new) (err_is is_disk result)
        (err_is is_sink result) }
    ensures sink { IsCountedAs (K.faults sink.old) (K.faults sink.new) (err_is is_sink result) }
{
    if partial.is_empty() {
        return Ok(());
    }
    runner.run_line(partial.as_slice(), sink)
}
