//! How much one call of the disk takes where all blocks of a file are read or written. `format` and the test of heads
//! ask it.
use rb_base::UNIT;

/// How many blocks are a piece.
pub const PIECE: u32 = 32;

/// How many bytes these have.
pub const PIECE_BYTES: usize = UNIT * PIECE as usize;
