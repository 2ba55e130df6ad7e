//! The rows of a home that was rebuilt, or is kept, in the order of their keys. Whoever reads a block as it was at a
//! snapshot asks for them one by one.
ghost use Rattle.std.specs.Prelude.{◌≡◌, ◌<◌, ◌≤◌, ◌↔◌, ℕ, IsTrue, true, false, length, map};
ghost use Rattle.std.specs.Prelude.{slice_index_or, None, IfNone, IfSome};
ghost use Rattle.rb_cr.specs.Records.{row_items};
ghost use Rattle.rb_cr.specs.Rows.{IsNext, IsWanted, IsFound, Reaches, kept_key};
ghost use Rattle.rb_heap.specs.Homes.{empty_cell};
ghost use Rattle.rb_cr.specs.Scratches.{shown_by, shown_over};
ghost use Rattle.law_read.specs.Reading.{rows_in};
ghost use Rattle.law_blocks.specs.Says.{walk_cell};

use crate::kept::KeptRows;
use crate::scratch::{Scratch, row_in};
use arrayvec::ArrayVec;
use rb_base::VALUE_BYTES;
use rb_cell::Cell;
use rb_model::Row;

/// Which keys are asked for.
#[derive(Clone, Copy)]
pub struct Wanted {
    /// Those behind this one, where there is one.
    pub after: Option<u64>,
    /// From this one on.
    pub lo: u64,
    /// Up to this one.
    pub hi: u64,
}

impl Wanted {
    /// Whether a key is asked for.
    pub(crate) fn has(self, key: u64) -> bool
        ensures { IsTrue result ↔ IsWanted self.after self.lo self.hi key }
    {
        match self.after {
            Some(after) if key <= after => false,
            _ => self.lo <= key && key <= self.hi,
        }
    }

    /// The key from which on up to the greatest one all are asked for. None where none is.
    pub(crate) fn from(self) -> Option<u64>
        ensures within { IfSome result (λ from. (key : ℕ) → IsWanted self.after self.lo self.hi key
            → from ≤ key) }
        ensures all { IfSome result (λ from. (key : ℕ) → from ≤ key → key ≤ self.hi
            → IsWanted self.after self.lo self.hi key) }
        ensures none { IfNone result ((key : ℕ) → IsWanted self.after self.lo self.hi key → ⊥) }
    {
        let Some(after) = self.after else {
            return Some(self.lo);
        };
        let behind = after.checked_add(1)?;
        Some(self.lo.max(behind))
    }
}

/// The row of a key, as the first cell with one shows it.
fn value_of(cells: &[Cell], key: u64) -> Option<ArrayVec<u8, VALUE_BYTES>>
    ensures { row_items result ≡ rows_in (map walk_cell cells.now) key }
{
    for i in 0..cells.len() {
        let value = row_in(&cells[i], key);
        if value.is_some() {
            return value;
        }
    }
    None
}

/// The row of a key, as these cells show it, with what is kept over them.
fn value(cells: &[Cell], kept: &KeptRows, key: u64) -> Option<ArrayVec<u8, VALUE_BYTES>>
    ensures { row_items result ≡ shown_over cells.now kept.now key }
{
    match kept.row(key) {
        Some(row) => row,
        None => value_of(cells, key),
    }
}

/// The lesser of a key that was found and another one, where that is asked for and has a row.
fn lesser(
    cells: &[Cell],
    kept: &KeptRows,
    least: Option<u64>,
    key: u64,
    wanted: Wanted,
) -> Option<u64>
    ensures found { IfSome least (λ k. IsFound wanted.after wanted.lo wanted.hi (shown_over cells.now kept.now) k)
        → IfSome result (λ k. IsFound wanted.after wanted.lo wanted.hi (shown_over cells.now kept.now) k) }
    ensures stays { (k : ℕ) → Reaches least k → Reaches result k }
    ensures lower { IsFound wanted.after wanted.lo wanted.hi (shown_over cells.now kept.now) key
        → Reaches result key }
{
    if !wanted.has(key) {
        return least;
    }
    if let Some(found) = least {
        if found <= key {
            return least;
        }
    }
    if value(cells, kept, key).is_none() {
        return least;
    }
    Some(key)
}

/// The least key of a cell that is asked for and has a row.
fn least_cell(cells: &[Cell], kept: &KeptRows, wanted: Wanted) -> Option<u64>
    ensures found { IfSome result (λ k.
        IsFound wanted.after wanted.lo wanted.hi (shown_over cells.now kept.now) k) }
    ensures reached { (i : ℕ) → i < length cells.now
        → IsFound wanted.after wanted.lo wanted.hi (shown_over cells.now kept.now)
        (slice_index_or cells.now i empty_cell).key
        → Reaches result (slice_index_or cells.now i empty_cell).key }
{
    let mut least = None;
    for i in 0..cells.len() {
        least = lesser(cells, kept, least, cells[i].key, wanted);
    }
    least
}

/// The lesser of that and the least key of a row that is kept.
fn least_kept(cells: &[Cell], kept: &KeptRows, least: Option<u64>, wanted: Wanted) -> Option<u64>
    ensures found { IfSome least (λ k. IsFound wanted.after wanted.lo wanted.hi (shown_over cells.now kept.now) k)
        → IfSome result (λ k. IsFound wanted.after wanted.lo wanted.hi (shown_over cells.now kept.now) k) }
    ensures stays { (k : ℕ) → Reaches least k → Reaches result k }
    ensures reached { (i : ℕ) → i < length kept.now
        → IsFound wanted.after wanted.lo wanted.hi (shown_over cells.now kept.now) (kept_key kept.now i)
        → Reaches result (kept_key kept.now i) }
{
    let mut least = least;
    for i in 0..kept.len() {
        least = lesser(cells, kept, least, kept.key(i), wanted);
    }
    least
}

/// Puts the row of the least key that is asked for, as these cells show it with what is kept over them, into `row`.
/// False where they show none, and the row stays as it was.
pub(crate) fn next_over(cells: &[Cell], kept: &KeptRows, wanted: Wanted, row: &mut Row) -> bool
    ensures given { result ≡ true
        → IsNext wanted.after wanted.lo wanted.hi (shown_over cells.now kept.now) row.new }
    ensures none { result ≡ false → (k : ℕ) → IsWanted wanted.after wanted.lo wanted.hi k
        → shown_over cells.now kept.now k ≡ None }
    ensures kept { result ≡ false → row.new ≡ row.old }
{
    let Some(key) = least_kept(cells, kept, least_cell(cells, kept, wanted), wanted) else {
        return false;
    };
    let Some(value) = value(cells, kept, key) else {
        return false;
    };
    row.key = key;
    row.value = value;
    true
}

impl Scratch {
    /// Puts the row of the least key behind `after`, where there is one, from `lo` on and up to `hi` into `row`. False
    /// where the home that was rebuilt has none, and the row stays as it was.
    pub fn next(&self, after: Option<u64>, lo: u64, hi: u64, row: &mut Row) -> bool
        ensures given { result ≡ true → IsNext after lo hi (shown_by self.now) row.new }
        ensures none { result ≡ false → (k : ℕ) → IsWanted after lo hi k → shown_by self.now k ≡ None }
        ensures kept { result ≡ false → row.new ≡ row.old }
    {
        next_over(&self.cells, &self.kept, Wanted { after, lo, hi }, row)
    }
}
