//! How a session's transaction reads. The engine's callers choose it, and the table of sessions keeps it.
ghost use Rattle.std.specs.Prelude.{◌≡◌};

use rb_base::Scn;

/// What a session asks for as its transaction begins.
#[derive(Clone, Copy, Debug, PartialEq, Eq)]
pub enum Mode {
    /// Each query sees what was committed as it began.
    ReadCommitted,
    /// All queries see what was committed as the mode was set, and no write is made.
    ReadOnly,
    /// All queries see what was committed as the mode was set, and no row is written that a later commit has changed.
    Serializable,
}

/// What a transaction has of its mode until it ends.
#[derive(Clone, Copy, Debug, PartialEq, Eq)]
pub enum Isolation {
    /// Each query has a snapshot of its own.
    ReadCommitted,
    /// All queries have one snapshot, and no write is made.
    ReadOnly {
        /// The last commit number that the queries see.
        snapshot: Scn,
    },
    /// All queries have one snapshot, and no row is written that a commit above it has changed.
    Serializable {
        /// The last commit number that the queries see.
        snapshot: Scn,
    },
}

impl Isolation {
    ghost use Rattle.rb_model.specs.Isolation.{mode_of};

    /// The mode that the transaction has asked for.
    pub fn mode(self) -> Mode
        ensures { result ≡ mode_of self }
    {
        match self {
            Isolation::ReadCommitted => Mode::ReadCommitted,
            Isolation::ReadOnly { .. } => Mode::ReadOnly,
            Isolation::Serializable { .. } => Mode::Serializable,
        }
    }
}
