//! What a write does to its key. Lines are parsed to it, the engine is asked for it, and `attempt` makes it.

/// An operation on one key.
#[derive(Clone, Copy, Debug)]
pub enum Op<'a> {
    /// Makes a row of this value, of at most 80 bytes, where the key has none.
    Insert(&'a [u8]),
    /// Gives the key's row this value, of at most 80 bytes.
    Update(&'a [u8]),
    /// Gives the key's row this value, of at most 80 bytes, or makes a row of it where the key has none.
    Put(&'a [u8]),
    /// Takes the key's row away.
    Delete,
}
