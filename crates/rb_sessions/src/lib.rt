//! The table of sessions: what the engine keeps in memory of each one's transaction, savepoints and cursors, and the
//! write with which it waits. It knows no block and no row; the engine notes here what it has done to the store.
#![tactic(auto)]

mod cursor;
mod isolation;
mod named;
mod pending;
mod row;
mod savepoint;
mod sessions;

pub use cursor::Cursor;
pub use isolation::{isolation_at, snapshot_at};
pub use pending::{Pending, PendingOp};
pub use row::Session;
pub use savepoint::SAVEPOINTS;
pub use sessions::{SESSIONS, Sessions};
