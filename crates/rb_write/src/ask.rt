//! What a write is asked for, and why it isn't made. Callers of `attempt` use both.
ghost use Rattle.std.specs.Prelude.{◌≡◌};

use rb_base::{Failed, Xid};
use rb_model::Op;
use thiserror::Error;

/// A write of one key.
#[derive(Clone, Copy, Debug)]
pub struct Ask<'a> {
    /// The transaction that writes, where it has a table slot. Else it takes one.
    pub own: Option<Xid>,
    /// The table, from 1 on.
    pub table: u16,
    /// The key, any number.
    pub key: u64,
    /// What is done. None needs the key's row, and holds it as it is.
    pub op: Option<Op<'a>>,
}

/// Why a write isn't made.
#[derive(Clone, Copy, Debug, PartialEq, Eq, Error)]
pub enum AttemptFault {
    /// A call of the store failed.
    #[error("a call of the store failed")]
    Failed,
    /// An insert of a key that has a row.
    #[error("the key has a row")]
    Duplicate,
    /// An update, a delete or a lock of a key that has no row.
    #[error("the key has no row")]
    NotFound,
    /// An insert or a put of a key without a row, where no cell of the key's block is free.
    #[error("no cell of the key's block is free")]
    BlockFull,
    /// Each slot entry of the key's block is another transaction's, of which no outcome is known.
    #[error("no slot entry of the key's block is free")]
    SlotsFull,
    /// No table slot is idle in the segment in which the transaction would begin.
    #[error("segment {seg} has no slot for one more transaction")]
    NoSlot {
        /// The segment, the one with the fewest transactions that run.
        seg: u16,
    },
    /// The segment has no room for one more record.
    #[error("segment {seg} has no room, {since} records since its oldest transaction began")]
    RollbackFull {
        /// The segment.
        seg: u16,
        /// How many records were made in it since its oldest transaction that runs began.
        since: u64,
    },
    /// 2^60 groups or more are logged.
    #[error("the log numbers are used up")]
    WornOut,
}

impl From<Failed> for AttemptFault {
    ghost use Rattle.rb_write.specs.declared.ask.AttemptFault.TheVariants.{Failed};

    ghost from_gives = { λ _ fault. fault ≡ Failed };

    fn from(_failed: Failed) -> AttemptFault {
        AttemptFault::Failed
    }
}
