//! Finds a cell of a block by its key, or one that is free. Readers and writers of rows call it.
ghost use Rattle.std.specs.Prelude.{◌≡◌, ◌<◌, length, IfSome, IfNone};
ghost use Rattle.rb_cell.specs.Cells.{cell_at};
ghost use Rattle.rb_heap.specs.Homes.{home_of, is_keyed, is_free, IsFirst, IsNowhere};

use rb_base::UNIT;
use rb_cell::{CELLS, EMPTY, ROW, STUB, front};

/// Whether cell `c`, 0 to 15, is a row or locked, and has that key.
fn has_key(block: &[u8], c: u8, key: u64) -> bool
    requires block { length block.now ≡ UNIT }
    requires within { c < CELLS }
    ensures { result ≡ is_keyed key (cell_at block.now c) }
{
    let cell = front(block, c);
    (cell.state == ROW || cell.lock != 0) && cell.key == key
}

/// Whether cell `c`, 0 to 15, is empty, or a stub that nothing has locked.
fn has_room(block: &[u8], c: u8) -> bool
    requires block { length block.now ≡ UNIT }
    requires within { c < CELLS }
    ensures { result ≡ is_free (cell_at block.now c) }
{
    let cell = front(block, c);
    cell.state == EMPTY || cell.state == STUB && cell.lock == 0
}

/// The first cell, 0 to 15, of a block of 2,048 bytes that is a row or locked and has the key. None exactly where
/// there is none.
pub fn find(block: &[u8], key: u64) -> Option<u8>
    requires { length block.now ≡ UNIT }
    ensures found { IfSome result (λ c. IsFirst (is_keyed key) (home_of block.now).cells c) }
    ensures none { IfNone result (IsNowhere (is_keyed key) (home_of block.now).cells) }
{
    for c in 0..CELLS {
        if has_key(block, c, key) {
            return Some(c);
        }
    }
    None
}

/// The lowest cell, 0 to 15, of a block of 2,048 bytes that is empty, or a stub that nothing has locked. An empty
/// cell's lock isn't looked at. None exactly where no cell is free.
pub fn free_cell(block: &[u8]) -> Option<u8>
    requires { length block.now ≡ UNIT }
    ensures found { IfSome result (λ c. IsFirst is_free (home_of block.now).cells c) }
    ensures none { IfNone result (IsNowhere is_free (home_of block.now).cells) }
{
    for c in 0..CELLS {
        if has_room(block, c) {
            return Some(c);
        }
    }
    None
}
