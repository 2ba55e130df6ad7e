//! What a fetch or a read of one key gives. The engine fills it, and the shell prints it.
use arrayvec::ArrayVec;
use rb_base::VALUE_BYTES;

/// A key and its value of at most 80 bytes.
#[derive(Debug, Drop)]
pub struct Row {
    pub key: u64,
    pub value: ArrayVec<u8, VALUE_BYTES>,
}

/// Whether a fetch, or a read of one key, gave a row.
#[derive(Clone, Copy, Debug, PartialEq, Eq)]
pub enum Fetched {
    /// It gave the next row, or that of the key.
    Row,
    /// All rows were given before, or the key has none.
    End,
}
