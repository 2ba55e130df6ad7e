//! The calls that a memory disk records. `MemDisk` writes them, and its contracts speak of them.

/// One call of a memory disk, as its record has it.
#[derive(Clone, Copy, Debug, PartialEq, Eq)]
pub enum Call {
    Length,
    Read,
    /// A piece of `count` bytes for the bytes from `at`; `done` is whether they were written.
    Write { at: usize, count: usize, done: bool },
    /// `done` is whether it succeeded.
    Sync { done: bool },
}
