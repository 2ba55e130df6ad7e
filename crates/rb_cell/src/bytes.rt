//! The bytes of a cell. What changes a cell of a block puts them to its place there.
ghost use Rattle.std.specs.Prelude.{◌≡◌};
ghost use Rattle.rb_cell.specs.Cells.{cell_bytes, IsCell};

use crate::cell::{CELL_BYTES, Cell, HEAD_BYTES, KEY_AT, LENGTH_AT};
use rb_base::{put_u16, put_u64};

/// The bytes of a cell, with zeros behind its value.
pub fn cell_bytes(cell: &Cell) -> [u8; CELL_BYTES]
    ensures bytes { result ≡ cell_bytes cell.now }
    ensures sound { IsCell cell.now }
{
    // For the proof: a field that is read is a number of its type.
    let key = cell.key;
    let value = cell.value.as_slice();
    let mut bytes = [0; CELL_BYTES];
    bytes[0] = cell.state;
    bytes[1] = cell.lock;
    put_u16(&mut bytes, LENGTH_AT, value.len() as u16);
    put_u64(&mut bytes, KEY_AT, key);
    bytes[HEAD_BYTES..HEAD_BYTES + value.len()].copy_from_slice(value);
    bytes
}
