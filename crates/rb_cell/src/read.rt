//! Reads the cells of a block. rb_heap, rb_sound, rb_write and the engine's opening call it.
ghost use Rattle.std.specs.Prelude.{◌≡◌, ◌<◌, length};
ghost use Rattle.rb_base.specs.Fields.{part};
ghost use Rattle.rb_cell.specs.Cells.{cell_place, cell_of, cell_at, value_length, IsCell};

use crate::cell::{CELL_BYTES, CELLS, Cell, HEAD_BYTES, KEY_AT, LENGTH_AT, cell_place};
use rb_base::{UNIT, VALUE_BYTES, array_of, u16_at, u64_at};

/// What a cell says but for its value, which isn't copied: enough to search cells by.
#[derive(Clone, Copy, Debug, PartialEq, Eq)]
pub struct CellFront {
    /// `EMPTY`, `ROW` or `STUB` in a sound block.
    pub state: u8,
    /// 0 where nothing has the cell locked, else 1 plus the index of the slot entry that has.
    pub lock: u8,
    /// The key of the row that the cell holds or held.
    pub key: u64,
}

/// The front of the cell that 92 bytes say.
fn read_front(bytes: &[u8]) -> CellFront
    requires { length bytes.now ≡ CELL_BYTES }
    ensures state { result.state ≡ (cell_of bytes.now).state }
    ensures lock { result.lock ≡ (cell_of bytes.now).lock }
    ensures key { result.key ≡ (cell_of bytes.now).key }
{
    CellFront {
        state: bytes[0],
        lock: bytes[1],
        key: u64_at(bytes, KEY_AT),
    }
}

/// The cell that 92 bytes say, as an undo record keeps them. Where the length says more than 80, the value is all 80
/// bytes.
pub fn cell_from(bytes: &[u8]) -> Cell
    requires { length bytes.now ≡ CELL_BYTES }
    ensures { result ≡ cell_of bytes.now }
{
    let front = read_front(bytes);
    let length = u16_at(bytes, LENGTH_AT) as usize;
    Cell {
        state: front.state,
        lock: front.lock,
        key: front.key,
        value: array_of(&bytes[HEAD_BYTES..HEAD_BYTES + length.min(VALUE_BYTES)]),
    }
}

/// The bytes of cell `c`, 0 to 15.
fn bytes_at(block: &[u8], c: u8) -> &[u8]
    requires length { length block.now ≡ UNIT }
    requires within { c < CELLS }
    ensures part { result.now ≡ part block.now (cell_place c) CELL_BYTES }
    ensures count { length result.now ≡ CELL_BYTES }
{
    let at = cell_place(c);
    &block[at..at + CELL_BYTES]
}

/// Cell `c`, 0 to 15, of a block of 2,048 bytes, whatever they are. Where the length says more than 80, the value is
/// all 80 bytes.
pub fn cells(block: &[u8], c: u8) -> Cell
    requires length { length block.now ≡ UNIT }
    requires within { c < CELLS }
    ensures cell { result ≡ cell_at block.now c }
    ensures sound { IsCell result }
{
    cell_from(bytes_at(block, c))
}

/// The state, the lock and the key of cell `c`, 0 to 15, of a block of 2,048 bytes, whatever they are. Its value isn't
/// copied, so this costs less.
pub fn front(block: &[u8], c: u8) -> CellFront
    requires length { length block.now ≡ UNIT }
    requires within { c < CELLS }
    ensures state { result.state ≡ (cell_at block.now c).state }
    ensures lock { result.lock ≡ (cell_at block.now c).lock }
    ensures key { result.key ≡ (cell_at block.now c).key }
{
    read_front(bytes_at(block, c))
}

/// The length of the value of cell `c`, 0 to 15, as the block says it. It may be more than there is room for.
#[tactic(auto, unfolding(crate::specs::Cells::value_length))]
pub fn value_length(block: &[u8], c: u8) -> u16
    requires length { length block.now ≡ UNIT }
    requires within { c < CELLS }
    ensures { result ≡ value_length block.now c }
{
    u16_at(block, cell_place(c) + LENGTH_AT)
}
