//! A savepoint as it lies in memory. A session keeps up to sixteen, each under a name.

/// The most savepoints of a session.
pub const SAVEPOINTS: usize = 16;

/// A position in a transaction's live changes.
#[derive(Clone, Copy, Debug, Default, PartialEq, Eq)]
pub(crate) struct Mark {
    /// How many of them there were as it was set.
    pub kept: u32,
}
