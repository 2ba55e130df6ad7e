//! The rows of a home as its cells stand, in the order of their keys. `next_told` and `next_at` read them so where no
//! change of the block is above the snapshot, and `next_at` from a home that is kept at the snapshot.
ghost use Rattle.std.specs.Prelude.{◌≡◌, ◌<◌, ◌≤◌, ◌+◌, ℕ, List, true, false};
ghost use Rattle.std.specs.Prelude.{get_or, length, None, IfSome};
ghost use Rattle.rb_base.specs.declared.sizes.TheConstants.{UNIT};
ghost use Rattle.rb_cr.specs.Rows.{IsNext, IsWanted, NoneLesser, ShowsWanted, cell_rows};
ghost use Rattle.rb_cell.specs.Cells.{cell_at};
ghost use Rattle.rb_cell.specs.declared.cell.Cell.{Cell};
ghost use Rattle.rb_heap.specs.Homes.{empty_cell, home_of};

use crate::rows::Wanted;
use arrayvec::ArrayVec;
use rb_base::{UNIT, VALUE_BYTES};
use rb_cell::{CELL_BYTES, CELLS, Cell, CellFront, ROW, cell_place, front, value_length};
use rb_model::Row;

/// A cell with a row, and the key of that.
#[derive(Clone, Copy, Default)]
pub struct KeyCell {
    /// The cell, 0 to 15.
    pub cell: usize,
    /// The key of its row.
    pub key: u64,
}

/// Cells whose rows are read as they stand.
pub(crate) trait PlainCells {
    /// They can be read.
    ghost ready: { Self → Type 0 };

    /// All of them, in their order.
    ghost all: { Self → List Cell };

    /// How many there are.
    fn count(&self) -> usize
        requires { ready self.now }
        ensures { result ≡ length (all self.now) };

    /// What cell `c` begins with.
    fn front(&self, c: usize) -> CellFront
        requires ready { ready self.now }
        requires within { c < length (all self.now) }
        ensures state { result.state ≡ (get_or (all self.now) c empty_cell).state }
        ensures key { result.key ≡ (get_or (all self.now) c empty_cell).key };

    /// The bytes of the value of cell `c`.
    fn value(&self, c: usize) -> &[u8]
        requires ready { ready self.now }
        requires within { c < length (all self.now) }
        ensures bytes { result.now ≡ (get_or (all self.now) c empty_cell).value.items }
        ensures short { length result.now ≤ VALUE_BYTES };
}

/// The bytes of the value of cell `c` of a block, in their place. Where the length says more than 80, they are all 80.
fn value_at(block: &[u8], c: u8) -> &[u8]
    requires length { length block.now ≡ UNIT }
    requires within { c < CELLS }
    ensures bytes { result.now ≡ (cell_at block.now c).value.items }
    ensures short { length result.now ≤ VALUE_BYTES }
{
    let length = (value_length(block, c) as usize).min(VALUE_BYTES);
    let at = cell_place(c) + CELL_BYTES - VALUE_BYTES;
    &block[at..at + length]
}

/// A block of rows as its cells.
#[derive(Drop)]
pub(crate) struct BlockCells<'a> {
    pub(crate) block: &'a [u8],
}

impl<'a> PlainCells for BlockCells<'a> {
    ghost ready = { λ cells. length cells.block.now ≡ UNIT };

    ghost all = { λ cells. (home_of cells.block.now).cells };

    fn count(&self) -> usize {
        CELLS as usize
    }

    fn front(&self, c: usize) -> CellFront {
        front(self.block, c as u8)
    }

    fn value(&self, c: usize) -> &[u8] {
        value_at(self.block, c as u8)
    }
}

/// The cells of a home that is in memory.
#[derive(Drop)]
pub(crate) struct HomeCells<'a> {
    pub(crate) cells: &'a [Cell],
}

impl<'a> PlainCells for HomeCells<'a> {
    ghost ready = { λ _. Unit {0} };

    ghost all = { λ home. home.cells.now };

    fn count(&self) -> usize {
        self.cells.len()
    }

    fn front(&self, c: usize) -> CellFront {
        let cell = &self.cells[c];
        CellFront {
            state: cell.state,
            lock: cell.lock,
            key: cell.key,
        }
    }

    fn value(&self, c: usize) -> &[u8] {
        self.cells[c].value.as_slice()
    }
}

/// The cell with the row of the least key from `from` on and up to `hi`, the first where more than one has it. Each row
/// that is found leaves fewer keys that are looked for.
fn least_from<C: PlainCells>(cells: &C, from: u64, hi: u64) -> Option<KeyCell>
    requires { C.ready cells.now }
    ensures found { IfSome result (ShowsWanted None from hi (C.all cells.now)) }
    ensures lesser { NoneLesser None from hi (C.all cells.now) (length (C.all cells.now)) result }
{
    let mut found = None;
    let mut up_to = hi;
    for c in 0..cells.count() {
        let head = cells.front(c);
        if head.state != ROW || head.key < from || head.key > up_to {
            continue;
        }
        let one = KeyCell {
            cell: c,
            key: head.key,
        };
        if one.key == from {
            return Some(one);
        }
        found = Some(one);
        up_to = one.key - 1;
    }
    found
}

/// The cell with the row of the least key that is asked for.
fn least_at<C: PlainCells>(cells: &C, wanted: Wanted) -> Option<KeyCell>
    requires { C.ready cells.now }
    ensures found { IfSome result (ShowsWanted wanted.after wanted.lo wanted.hi (C.all cells.now)) }
    ensures lesser { NoneLesser wanted.after wanted.lo wanted.hi (C.all cells.now) (length (C.all cells.now)) result }
{
    let from = wanted.from()?;
    least_from(cells, from, wanted.hi)
}

/// Puts bytes in place of a value. As many as before are written over it, which most rows of a scan are.
pub(crate) fn put_value(value: &mut ArrayVec<u8, VALUE_BYTES>, bytes: &[u8])
    requires { length bytes.now ≤ VALUE_BYTES }
    ensures { value.new.items ≡ bytes.now }
{
    if value.len() == bytes.len() {
        value.as_mut_slice().copy_from_slice(bytes);
        return;
    }
    value.clear();
    if value.try_extend_from_slice(bytes).is_err() {
        unreachable!()
    }
}

/// Puts the row of the least key that is asked for into `row`. False where the cells show none, and the row stays as it
/// was.
pub(crate) fn next_plain<C: PlainCells>(cells: &C, wanted: Wanted, row: &mut Row) -> bool
    requires { C.ready cells.now }
    ensures given { result ≡ true
        → IsNext wanted.after wanted.lo wanted.hi (cell_rows (C.all cells.now)) row.new }
    ensures none { result ≡ false → (k : ℕ) → IsWanted wanted.after wanted.lo wanted.hi k
        → cell_rows (C.all cells.now) k ≡ None }
    ensures kept { result ≡ false → row.new ≡ row.old }
{
    let Some(least) = least_at(cells, wanted) else {
        return false;
    };
    row.key = least.key;
    put_value(&mut row.value, cells.value(least.cell));
    true
}
