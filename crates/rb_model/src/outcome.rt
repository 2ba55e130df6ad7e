//! What a call of the engine answers, whichever call it is. The shell makes one of each result, and prints it.
use crate::activity::Activity;
use crate::refusal::Refusal;

/// An answer, without the row that a fetch gives.
#[derive(Clone, Copy, Debug, PartialEq, Eq)]
pub enum Outcome {
    /// It was done, and there is nothing more to say.
    Done,
    /// A write waits for that session.
    Waits { on: u16 },
    /// A commit took this number, and is in the file.
    Committed { number: u64 },
    /// A commit took this number, and waits to be made last.
    Numbered { number: u64 },
    /// All commits are in the file, up to that of this number.
    Flushed { number: u64 },
    /// So many changes of dead transactions were put back.
    Swept { changes: u32 },
    /// A fetch gave the next row, or a read of one key its row.
    Row,
    /// A fetch gave none: all rows were given before.
    End,
    /// The key that was read has no row.
    Absent,
    /// What a segment has made and given up.
    Marked { seg: u16, writes: u64, lost: u64 },
    /// What a session has under way.
    Shown { session: u16, activity: Activity },
    /// A session has nothing under way.
    Idle,
    /// It was refused.
    Refused { why: Refusal },
}
