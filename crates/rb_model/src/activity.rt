//! What a session has under way. The engine answers it, and the shell prints it.
use crate::mode::Mode;

/// Whether a session's write waits.
#[derive(Clone, Copy, Debug, PartialEq, Eq)]
pub enum Wait {
    /// The session has no write that waits.
    Free,
    /// Its write waits for the end of that session's transaction.
    On { session: u16 },
    /// Its write is to be tried again.
    Ready,
}

/// What a session has under way, where it has something: a change, a savepoint, a cursor, a mode other than read
/// committed, or a write that waits.
#[derive(Clone, Copy, Debug, PartialEq, Eq)]
pub struct Activity {
    /// How many changes its transaction has made and not put back, 0 to 320.
    pub changes: u32,
    /// How many of its cursors are open, 0 to 16.
    pub cursors: u8,
    pub mode: Mode,
    pub wait: Wait,
}
