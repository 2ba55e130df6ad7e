//! `LineRunner`: what does a line. The shell implements it over an engine, and `run_lines` calls it.
ghost use Rattle.std.specs.Prelude.{ℕ, ◌≡◌, false, List};
ghost use Rattle.rb_base.specs.Counts.{IsCountedAs, err_is};
ghost use Rattle.rb_model.specs.Calls.{Answer, Call};
ghost use Rattle.rb_model.specs.Out.{Logged, outside_by};
ghost use Rattle.rb_model.specs.State.{State};
ghost use Rattle.rb_lines.specs.Faults.{IsCountedBeside, is_disk, is_sink};
ghost use Rattle.rb_lines.specs.Ran.{Did, LineRanAs};

use rb_stream::Sink;
use thiserror::Error;

/// Why a line wasn't done to its end.
#[derive(Clone, Copy, Debug, PartialEq, Eq, Error)]
pub enum StepFault {
    /// A call of the runner's disk failed.
    #[error("a call of the disk failed")]
    Disk,
    /// A put to the sink failed.
    #[error("a call of the sink failed")]
    Sink,
}

/// What does lines. It stands for states of the abstract machine, each with the last log number given and the blocks
/// from which the state is read: nothing that it holds need tell them, so what it does is said of each state that it
/// stands for.
pub trait LineRunner {
    /// It stands for this state, with its last log number and its blocks.
    ghost stands: { Self → Logged → Type 0 };

    /// Whether what a call in a state reads at a snapshot is worn in these blocks, by a number of which something was
    /// given up.
    ghost worn: { State → List (List ℕ) → Call → ℕ → ℕ → Type 0 };

    /// What so many groups that put back the dead make of the machine's blocks.
    ghost back: { Logged → ℕ → Logged → Type 0 };

    /// What a call in a state with an answer makes of the machine's blocks.
    ghost makes: { Logged → Call → Answer → Logged → Type 0 };

    /// How often its disk has failed, up to 2^64 - 1.
    ghost faults: { Self → ℕ };

    /// What may have become of its file from an earlier runner and state to later ones.
    ghost since: { Self → Self → Logged → Logged → Type 0 };

    /// Does one line and puts its replies. The line comes without its LF. Of a line of more than 512 bytes any
    /// 513 or more of its first bytes serve. A fault of the disk is the line's last reply.
    fn run_line<K: Sink>(&mut self, line: &[u8], sink: &mut K) -> Result<(), StepFault>
        ensures did { (m : Logged) → stands self.old m → m.state.stopped ≡ false
            → Did stands since self.old self.new m
            (λ now. LineRanAs (outside_by worn back makes) m now line.now K.tells (K.held sink.old)
            (K.held sink.new) result) }
        ensures disk { IsCountedBeside (faults self.old) (faults self.new) (err_is is_disk result)
            (err_is is_sink result) }
        ensures sink { IsCountedAs (K.faults sink.old) (K.faults sink.new) (err_is is_sink result) };

    /// Where nothing is done, nothing becomes of it.
    ghost since_same: { (a : Self) (m : Logged) → stands a m → m.state.stopped ≡ false → since a a m m };

    /// What becomes of it over some lines and then over others. A stopped runner does no line more.
    ghost since_joined: { (a b c : Self) (m n k : Logged) → n.state.stopped ≡ false → since a b m n
        → since b c n k
        → since a c m k };
}
