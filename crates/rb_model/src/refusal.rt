//! Why a call of the engine was refused. The engine answers it, and the shell prints it.
ghost use Rattle.std.specs.Prelude.{◌≡◌, ◌≤◌, length};
ghost use Rattle.rb_model.specs.Calls.{refusal_words};

use thiserror::Error;

/// A refused call changes nothing that its caller sees, but for `DiskFault`, which stops the engine.
#[derive(Clone, Copy, Debug, PartialEq, Eq, Error)]
#[error("refused")]
pub enum Refusal {
    /// The number isn't that of a session.
    NoSession,
    /// The session waits for another one, or is ready to try its write again.
    Waiting,
    /// The transaction has a mode already, or has changes or savepoints.
    NotFirst,
    /// The transaction is read only.
    ReadOnly,
    /// The number isn't that of a table of the file.
    NoTable,
    /// The value has more than 80 bytes.
    ValueTooLong,
    /// The key's holder waits, perhaps through others, for this session: they would wait in a ring.
    Deadlock {
        /// The session that holds the key.
        on: u16,
    },
    /// What the snapshot needs was given up (Oracle7's "snapshot too old").
    TooOld {
        /// The snapshot.
        scn: u64,
        /// The greatest commit number of which the segment concerned has given something up, above the snapshot.
        lost: u64,
    },
    /// A serializable transaction can't write the row: a commit above its snapshot has changed it.
    CantSerialize {
        /// The snapshot.
        scn: u64,
        /// The least number above it whose commit has changed the row, also where the row was changed back.
        by: u64,
    },
    /// The key is there already.
    Duplicate,
    /// The key has no row.
    NotFound,
    /// Sixteen other keys of the key's block are in use.
    BlockFull,
    /// Eight other sessions have changes in the key's block.
    SlotsFull,
    /// The transaction's segment has no room for one more undo record.
    RollbackFull {
        /// The segment, from 0 on.
        seg: u16,
        /// How many records it has made since its oldest transaction began, 281 to 320.
        since: u64,
    },
    /// No savepoint of the session's transaction has that name.
    NoSavepoint,
    /// Sixteen savepoints of other names are set.
    TooManySavepoints,
    /// No open cursor of the session has that name.
    NoCursor,
    /// A cursor of that name is open.
    CursorThere,
    /// Sixteen cursors of the session are open.
    TooManyCursors,
    /// 2^60 groups or more are logged.
    WornOut,
    /// The session neither waits nor is ready.
    NotWaiting,
    /// A call of the disk failed. The engine is stopped.
    DiskFault,
    /// An earlier call answered `DiskFault`.
    Stopped,
}

impl Refusal {
    /// Its words in a reply, at most 32 bytes, without the numbers that it tells.
    pub fn words(self) -> &'static [u8]
        ensures words { result.now ≡ refusal_words self }
        ensures short { length result.now ≤ 32 }
    {
        match self {
            Refusal::NoSession => b"no session",
            Refusal::Waiting => b"waiting",
            Refusal::NotFirst => b"not first",
            Refusal::ReadOnly => b"read only",
            Refusal::NoTable => b"no table",
            Refusal::ValueTooLong => b"value too long",
            Refusal::Deadlock { on: _ } => b"deadlock",
            Refusal::TooOld { scn: _, lost: _ } => b"too old",
            Refusal::CantSerialize { scn: _, by: _ } => b"cannot serialize",
            Refusal::Duplicate => b"duplicate",
            Refusal::NotFound => b"not found",
            Refusal::BlockFull => b"block full",
            Refusal::SlotsFull => b"slots full",
            Refusal::RollbackFull { seg: _, since: _ } => b"rollback full",
            Refusal::NoSavepoint => b"no savepoint",
            Refusal::TooManySavepoints => b"too many savepoints",
            Refusal::NoCursor => b"no cursor",
            Refusal::CursorThere => b"cursor there",
            Refusal::TooManyCursors => b"too many cursors",
            Refusal::WornOut => b"worn out",
            Refusal::NotWaiting => b"not waiting",
            Refusal::DiskFault => b"disk fault",
            Refusal::Stopped => b"stopped",
        }
    }
}
