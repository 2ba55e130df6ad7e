//! The write with which a session waits, as it lies in memory. The engine tries it again once the session is ready.
ghost use Rattle.std.specs.Prelude.{◌≡◌, false};
ghost use Rattle.rb_model.specs.Answers.{action_by};
ghost use Rattle.rb_model.specs.Calls.{is_too_long};
ghost use Rattle.rb_sessions.specs.Kept.{asked_of_pending, pending_action};

use arrayvec::ArrayVec;
use rb_base::{VALUE_BYTES, array_of};
use rb_model::Op;

/// What such a write does to its key.
#[derive(Debug, Drop)]
pub enum PendingOp {
    /// Makes a row of this value where the key has none.
    Insert(ArrayVec<u8, VALUE_BYTES>),
    /// Gives the key's row this value.
    Update(ArrayVec<u8, VALUE_BYTES>),
    /// Gives the key's row this value, or makes a row of it where the key has none.
    Put(ArrayVec<u8, VALUE_BYTES>),
    /// Takes the key's row away.
    Delete,
    /// Holds the key's row as it is.
    Lock,
}

/// A write of a session that waits.
#[derive(Debug, Drop)]
pub struct Pending {
    /// The table, from 1 on.
    pub table: u16,
    pub key: u64,
    pub op: PendingOp,
}

/// The operation with a copy of its value. None is a lock.
fn kept_op(op: Option<Op<'_>>) -> PendingOp
    requires { is_too_long (action_by op) ≡ false }
    ensures { pending_action result ≡ action_by op.entry }
{
    match op {
        Some(Op::Insert(value)) => PendingOp::Insert(array_of(value)),
        Some(Op::Update(value)) => PendingOp::Update(array_of(value)),
        Some(Op::Put(value)) => PendingOp::Put(array_of(value)),
        Some(Op::Delete) => PendingOp::Delete,
        None => PendingOp::Lock,
    }
}

impl Pending {
    /// That operation on a key, or a lock where there is none. Its value has at most 80 bytes.
    pub fn new(table: u16, key: u64, op: Option<Op<'_>>) -> Pending
        requires { is_too_long (action_by op) ≡ false }
        ensures { asked_of_pending result ≡ record { table = table; key = key; action = action_by op.entry } }
    {
        Pending {
            table,
            key,
            op: kept_op(op),
        }
    }

    /// Its operation, whose value has at most 80 bytes. None is a lock.
    pub fn op(&self) -> Option<Op<'_>>
        ensures op { action_by result ≡ (asked_of_pending self.now).action }
        ensures short { is_too_long (action_by result) ≡ false }
    {
        match &self.op {
            PendingOp::Insert(value) => Some(Op::Insert(value.as_slice())),
            PendingOp::Update(value) => Some(Op::Update(value.as_slice())),
            PendingOp::Put(value) => Some(Op::Put(value.as_slice())),
            PendingOp::Delete => Some(Op::Delete),
            PendingOp::Lock => None,
        }
    }
}
