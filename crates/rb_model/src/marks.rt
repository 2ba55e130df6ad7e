//! What a rollback segment tells of itself. The engine answers it, and the shell prints it.

/// How many undo records a segment has made, and the greatest commit number of which it gave something up.
#[derive(Clone, Copy, Debug, PartialEq, Eq)]
pub struct Marks {
    pub writes: u64,
    pub lost: u64,
}
