//! The cells of a heap block, read from its bytes; and the place and the bytes of each, which go into a block. Each row
//! of a table stands in one.
#![tactic(auto)]

mod bytes;
mod cell;
mod laws;
mod read;

pub use bytes::cell_bytes;
pub use cell::{CELL_BYTES, CELLS, CELLS_AT, Cell, EMPTY, ROW, STUB, cell_place, lock_place};
pub use laws::{cell_in_block, cell_sizes, lock_in_block};
pub use read::{CellFront, cell_from, cells, front, value_length};
