//! A cell in memory, and where it stands in its block. What reads cells and what writes them use both.
ghost use Rattle.std.specs.Prelude.{◌≡◌, ◌+◌, ◌<◌};
ghost use Rattle.rb_cell.specs.Cells.{cell_place};

use arrayvec::ArrayVec;
use rb_base::VALUE_BYTES;

/// The cells of a block.
pub const CELLS: u8 = 16;

/// The bytes of a cell.
pub const CELL_BYTES: usize = 92;

/// Where a block has its cells, behind its slot entries.
pub const CELLS_AT: usize = 416;

/// Where in its cell the length of a value stands.
pub const LENGTH_AT: usize = 2;

/// Where in its cell the key stands.
pub const KEY_AT: usize = 4;

/// The bytes of a cell in front of its value: the state, the lock, the value's length and the key.
pub const HEAD_BYTES: usize = 12;

/// The state of a cell that holds nothing.
pub const EMPTY: u8 = 0;

/// The state of a cell that holds a row.
pub const ROW: u8 = 1;

/// The state of a cell whose row was deleted.
pub const STUB: u8 = 2;

/// One of the 16 cells of a heap block. It has room for one row.
#[derive(Debug, Drop)]
pub struct Cell {
    /// `EMPTY`, `ROW` or `STUB` in a sound block.
    pub state: u8,
    /// 0 where nothing has the cell locked, else 1 plus the index of the slot entry that has.
    pub lock: u8,
    /// The key of the row that the cell holds or held.
    pub key: u64,
    /// The row's value, 0 to 80 bytes.
    pub value: ArrayVec<u8, VALUE_BYTES>,
}

/// The byte of its block at which cell `c`, 0 to 15, begins: 416 to 1,796.
pub fn cell_place(c: u8) -> usize
    requires { c < CELLS }
    ensures { result ≡ cell_place c }
{
    CELLS_AT + CELL_BYTES * c as usize
}

/// The byte of its block at which the lock of cell `c`, 0 to 15, stands.
pub fn lock_place(c: u8) -> usize
    requires { c < CELLS }
    ensures { result ≡ cell_place c + 1 }
{
    cell_place(c) + 1
}
