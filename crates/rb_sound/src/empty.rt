//! Whether a block of rows holds nothing, as most blocks of a new file do. `home` asks it first: such a block is in
//! order, and need not be tested part by part.
ghost use Rattle.std.specs.Prelude.{IsTrue, ◌≡◌, ℕ, ◌<◌, length};
ghost use Rattle.rb_cell.specs.Cells.{cell_at};
ghost use Rattle.rb_itl.specs.Entries.{entry_at};
ghost use Rattle.rb_sound.specs.Empty.{IsEmptyCell, IsEmptyHome};

use rb_base::UNIT;
use rb_cell::{CELLS, EMPTY, front, value_length};
use rb_itl::{ENTRIES, FREE, entry};

/// Whether cell `c`, 0 to 15, has no row, no lock and no value.
fn cell_is_empty(block: &[u8], c: u8) -> bool
    requires block { length block.now ≡ UNIT }
    requires place { c < CELLS }
    ensures { IsTrue result → IsEmptyCell block.now c }
{
    let front = front(block, c);
    front.state == EMPTY && front.lock == 0 && value_length(block, c) == 0
}

/// Whether each cell of a block is so.
fn cells_are_empty(block: &[u8]) -> bool
    requires { length block.now ≡ UNIT }
    ensures { IsTrue result → (c : ℕ) → c < CELLS → IsEmptyCell block.now c }
{
    for c in 0..CELLS {
        if !cell_is_empty(block, c) {
            return false;
        }
    }
    true
}

/// Whether each entry of a block is free.
fn entries_are_free(block: &[u8]) -> bool
    requires { length block.now ≡ UNIT }
    ensures { IsTrue result → (i : ℕ) → i < ENTRIES → (entry_at block.now i).kind ≡ FREE }
{
    for i in 0..ENTRIES {
        if entry(block, i).kind != FREE {
            return false;
        }
    }
    true
}

/// Whether each entry of a block is free, and each cell has no row, no lock and no value.
pub(crate) fn home_is_empty(block: &[u8]) -> bool
    requires { length block.now ≡ UNIT }
    ensures { IsTrue result → IsEmptyHome block.now }
{
    entries_are_free(block) && cells_are_empty(block)
}
