//! What an accepted write answers. The engine answers it, and the shell prints it.

/// Whether a write was made.
#[derive(Clone, Copy, Debug, PartialEq, Eq)]
pub enum Wrote {
    /// It was made.
    Done,
    /// Another session holds the key, and this one waits until that one's transaction ends.
    Waits { on: u16 },
}
