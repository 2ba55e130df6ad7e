//! What a cell's patch makes of the block that it is applied to. Whoever reads a block that a group was applied to will
//! cite these laws.
ghost use Rattle.std.specs.Prelude.{◌≡◌, ◌≢◌, ℕ, ◌+◌, ◌<◌, List, length};
ghost use Rattle.rb_base.specs.Fields.{part, AreApart};
ghost use Rattle.rb_cell.specs.declared.cell.Cell.{Cell};
ghost use Rattle.rb_cell.specs.Cells.{cell_place, cell_bytes, cell_at, IsCell, with_cell, with_lock, locked_by};

use crate::cell::{CELL_BYTES, CELLS, CELLS_AT, EMPTY, HEAD_BYTES, KEY_AT, LENGTH_AT, ROW, STUB};
use rb_base::UNIT;

/// Where the bytes of a cell stand, that cell is read. A block that a cell is written to has that cell there, every
/// other cell as before, and every byte outside of the cell's 92 as before.
pub fn cell_in_block()
    ensures read { (block : List ℕ) (c : ℕ) (cell : Cell) → IsCell cell
        → part block (cell_place c) CELL_BYTES ≡ cell_bytes cell → cell_at block c ≡ cell }
    ensures length { (cell : Cell) → IsCell cell → length (cell_bytes cell) ≡ CELL_BYTES }
    ensures same { (block : List ℕ) (c : ℕ) (cell : Cell) → length block ≡ UNIT → c < CELLS → IsCell cell
        → cell_at (with_cell block c cell) c ≡ cell }
    ensures others { (block : List ℕ) (c other : ℕ) (cell : Cell) → length block ≡ UNIT → c < CELLS
        → IsCell cell → other ≢ c → cell_at (with_cell block c cell) other ≡ cell_at block other }
    ensures outside { (block : List ℕ) (c at count : ℕ) (cell : Cell) → length block ≡ UNIT → c < CELLS
        → IsCell cell → AreApart at count (cell_place c) CELL_BYTES
        → part (with_cell block c cell) at count ≡ part block at count }
    ensures size { (block : List ℕ) (c : ℕ) (cell : Cell) → length block ≡ UNIT → c < CELLS → IsCell cell
        → length (with_cell block c cell) ≡ UNIT }
{}

/// A block that a cell's lock is written to has the same cell with that lock there, every other cell as before, and
/// every other byte as before.
pub fn lock_in_block()
    ensures same { (block : List ℕ) (c lock : ℕ) → length block ≡ UNIT → c < CELLS
        → cell_at (with_lock block c lock) c ≡ locked_by (cell_at block c) lock }
    ensures others { (block : List ℕ) (c other lock : ℕ) → length block ≡ UNIT → c < CELLS → other ≢ c
        → cell_at (with_lock block c lock) other ≡ cell_at block other }
    ensures outside { (block : List ℕ) (c at count lock : ℕ) → length block ≡ UNIT → c < CELLS
        → AreApart at count (cell_place c + 1) 1 → part (with_lock block c lock) at count ≡ part block at count }
    ensures size { (block : List ℕ) (c lock : ℕ) → length block ≡ UNIT → c < CELLS
        → length (with_lock block c lock) ≡ UNIT }
{}

/// How many cells a block has, where they stand, and where the parts of one are, as docs/FORMAT.md has them.
pub fn cell_sizes()
    ensures count { CELLS ≡ 16 }
    ensures bytes { CELL_BYTES ≡ 92 }
    ensures first { CELLS_AT ≡ 416 }
    ensures length { LENGTH_AT ≡ 2 }
    ensures key { KEY_AT ≡ 4 }
    ensures value { HEAD_BYTES ≡ 12 }
    ensures states { (EMPTY ≡ 0) × (ROW ≡ 1) × (STUB ≡ 2) }
{}
