//! A cursor as it lies in memory. The engine reads by it, and a session keeps up to sixteen, each under a name.
use rb_base::{Scn, Xid};

/// The most cursors of a session that are open.
pub(crate) const CURSORS: usize = 16;

/// An open cursor: a query that gives its rows one at a time, as they were at its opening. (Oracle7 Server Concepts,
/// *Multiversion Consistency Model*.)
#[derive(Clone, Copy, Debug, Default, PartialEq, Eq)]
pub struct Cursor {
    /// The table, from 1 on.
    pub table: u16,
    /// The least key that it asks for.
    pub lo: u64,
    /// The greatest one.
    pub hi: u64,
    /// Its snapshot: the last commit number as it was opened.
    pub scn: Scn,
    /// The transaction of its session as it was opened, if there was one.
    pub own: Option<Xid>,
    /// How many of that transaction's changes it sees.
    pub upto: u32,
    /// The key of the last row that it gave.
    pub last: Option<u64>,
    /// Whether it was opened in the present transaction.
    pub present: bool,
}
