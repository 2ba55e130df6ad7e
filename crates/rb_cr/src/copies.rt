//! Kept homes: one is taken into the scratch, where a build begins at it, or is made of what the scratch has; and
//! whether a reader has changes of its own in a home, as it can't use a kept one then. `shared` calls it.
ghost use Rattle.std.specs.Prelude.{◌≡◌, ◌≢◌, ◌⊎◌, [], ℕ, true, false, not};
ghost use Rattle.std.specs.Prelude.{◌<◌, None, Some, IfNone, IfOk, IfSome, slice_index_or};
ghost use Rattle.std.specs.Result.{is_err};
ghost use Rattle.rb_base.specs.declared.shape.Shape.{Shape};
ghost use Rattle.rb_cr.specs.Copies.{home_kept};
ghost use Rattle.rb_cr.specs.Reads.{Reads};
ghost use Rattle.rb_cr.specs.Scratches.{scratch_home};
ghost use Rattle.rb_heap.specs.Homes.{empty_cell};
ghost use Rattle.law_read.specs.Chains.{is_own};
ghost use Rattle.law_read.specs.Copies.{IsAway};
ghost use Rattle.law_home.specs.Walk.{entry_at};

use crate::kept::copied;
use crate::scratch::{Scratch, Snapshot, is_own};
use crate::segments::Segments;
use rb_base::{BlockNo, Failed, Lsn, Xid};
use rb_cell::{CELLS, Cell};
use rb_copies::KeptHome;
use rb_txntable::Look;
use std::array;

/// A cell once more.
fn copied_cell(cell: &Cell) -> Cell
    ensures { result ≡ cell.now }
{
    Cell {
        state: cell.state,
        lock: cell.lock,
        key: cell.key,
        value: copied(&cell.value),
    }
}

/// The cells of a home once more.
fn copied_cells(cells: &[Cell; CELLS as usize]) -> [Cell; CELLS as usize]
    ensures { result ≡ cells.now }
{
    array::from_fn(
        |c|
            requires { c < CELLS }
            ensures { result ≡ slice_index_or cells.entry.now c empty_cell }
        { copied_cell(&cells[c]) },
    )
}

impl Scratch {
    /// Takes a home that was kept of a block, in the place of the one that it had. Beside it no row is kept.
    pub(crate) fn take(&mut self, block: BlockNo, home: &KeptHome)
        ensures home { (shape : Shape) → scratch_home shape self.new ≡ home_kept shape block home.now }
        ensures kept { self.new.kept ≡ [] }
        ensures block { self.new.block ≡ block }
    {
        self.block = block;
        self.entries = home.entries;
        self.cells = copied_cells(&home.cells);
        self.kept.clear();
    }

    /// Its home, to be kept with this log number of the block.
    pub(crate) fn home(&self, number: Lsn) -> KeptHome
        ensures home { (shape : Shape) → home_kept shape self.now.block result ≡ scratch_home shape self.now }
        ensures number { result.number ≡ number }
    {
        KeptHome {
            number,
            entries: self.entries,
            cells: copied_cells(&self.cells),
        }
    }
}

impl Snapshot {
    /// The reader's transaction, where the snapshot shows changes of it.
    pub(crate) fn seen(&self) -> Option<Xid>
        ensures some { IfSome result (λ x. (self.now.own ≡ Some x) × (self.now.upto ≢ 0)) }
        ensures none { IfNone result ((self.now.own ≡ None) ⊎ (self.now.upto ≡ 0)) }
    {
        if self.upto == 0 {
            return None;
        }
        self.own
    }
}

/// Whether an entry of a home is this transaction's, which was still to commit.
fn has_entry(scratch: &Scratch, xid: Xid) -> bool
    ensures some { result ≡ true → (shape : Shape)
        → (j : ℕ) × (is_own xid (entry_at (scratch_home shape scratch.now) j) ≡ true) }
    ensures none { result ≡ false → (shape : Shape) (j : ℕ)
        → is_own xid (entry_at (scratch_home shape scratch.now) j) ≡ false }
{
    for i in 0..scratch.entries.len() {
        if is_own(&scratch.entries[i], xid) {
            return true;
        }
    }
    false
}

/// Whether this transaction goes on, and no entry of a home is its. Then the home has no change of it.
pub(crate) fn is_away<S: Segments>(
    segments: &mut S,
    scratch: &Scratch,
    xid: Xid,
) -> Result<bool, Failed>
    requires { S.ready segments.old }
    ensures away { S.tells → IfOk result (λ away. away ≡ true → IsAway (S.says segments.old).env
        (scratch_home (S.says segments.old).shape scratch.now) xid) }
    ensures here { S.tells → IfOk result (λ away. away ≡ false → IsAway (S.says segments.old).env
        (scratch_home (S.says segments.old).shape scratch.now) xid → ⊥) }
    ensures reads { Reads S.Segments segments.old segments.new (not (is_err result)) }
{
    if has_entry(scratch, xid) {
        return Ok(false);
    }
    match segments.look(xid)? {
        Look::Active => Ok(true),
        _ => Ok(false),
    }
}
