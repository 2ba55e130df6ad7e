//! Tests a block of rows. `blocks` calls it for each one of a file.
ghost use Rattle.std.specs.Prelude.{IsTrue, ◌≡◌, ◌↔◌, ℕ, ◌<◌, ◌≤◌, length};
ghost use Rattle.rb_base.specs.Blocks.{IsShape};
ghost use Rattle.rb_cell.specs.Cells.{cell_at, value_length};
ghost use Rattle.rb_itl.specs.Entries.{entry_at};
ghost use Rattle.rb_heap.specs.Homes.{is_keyed};
ghost use Rattle.rb_heap.specs.Soundness.{IsTaken, IsEntrySound, IsLock, IsCellSound, AreCellsSound, IsHomeSound};
ghost use Rattle.rb_heap.specs.Soundness.{IsFirstKeyed, AreKeysApart};
ghost use Rattle.rb_segment.specs.Segments.{wrap_in};

use crate::empty::home_is_empty;
use rb_base::{SLOTS, Scn, Shape, UNIT, VALUE_BYTES};
use rb_cell::{CELLS, Cell, EMPTY, ROW, STUB, cells, front, value_length};
use rb_heap::find;
use rb_itl::{BOUND, CHAIN_RECORDS, ENTRIES, Entry, FREE, entry};
use rb_segment::SEGMENTS;

/// How far the numbers of a file go.
#[derive(Clone, Copy, Debug, PartialEq, Eq)]
pub struct Limits {
    /// The tables, their blocks and the segments.
    pub shape: Shape,
    /// The file's commit number.
    pub commit: Scn,
    /// How often each slot of each segment had been taken. Those of a segment that isn't there aren't looked at.
    pub wraps: [[u64; SLOTS]; SEGMENTS],
}

/// Whether what an entry names is there, and its numbers are ones that were given.
fn entry_taken(entry: &Entry, limits: &Limits) -> bool
    requires { IsShape limits.now.shape }
    ensures { IsTrue result ↔ IsTaken limits.now.shape limits.now.commit (wrap_in limits.now.wraps) entry.now }
{
    let xid = entry.xid;
    if xid.seg >= limits.shape.segments || xid.slot as usize >= SLOTS {
        return false;
    }
    let wrap = limits.wraps[xid.seg as usize][xid.slot as usize];
    1 <= xid.wrap
        && xid.wrap <= wrap
        && 1 <= entry.length
        && entry.length <= CHAIN_RECORDS
        && entry.number <= limits.commit
}

/// Whether an entry is in order.
pub(crate) fn entry_sound(entry: &Entry, limits: &Limits) -> bool
    requires { IsShape limits.now.shape }
    ensures { IsTrue result ↔ IsEntrySound limits.now.shape limits.now.commit (wrap_in limits.now.wraps) entry.now }
{
    entry.kind <= BOUND && (entry.kind == FREE || entry_taken(entry, limits))
}

/// Whether each entry of a block is in order.
fn entries_sound(block: &[u8], limits: &Limits) -> bool
    requires block { length block.now ≡ UNIT }
    requires shape { IsShape limits.now.shape }
    ensures { IsTrue result ↔ ((i : ℕ) → i < ENTRIES → IsEntrySound limits.now.shape limits.now.commit
        (wrap_in limits.now.wraps) (entry_at block.now i)) }
{
    for i in 0..ENTRIES {
        if !entry_sound(&entry(block, i), limits) {
            return false;
        }
    }
    true
}

/// Whether a cell is in order, but for its value and its lock.
pub(crate) fn cell_sound(cell: &Cell, shape: Shape, home: u32) -> bool
    requires { IsShape shape }
    ensures { IsTrue result ↔ IsCellSound shape home cell.now }
{
    if cell.state == EMPTY {
        return cell.lock == 0;
    }
    cell.state <= STUB && cell.key % shape.blocks as u64 == home as u64
}

/// Whether each cell of a block is, for a block of that home.
fn cells_sound(block: &[u8], shape: Shape, home: u32) -> bool
    requires block { length block.now ≡ UNIT }
    requires shape { IsShape shape }
    ensures { IsTrue result ↔ ((c : ℕ) → c < CELLS → IsCellSound shape home (cell_at block.now c)) }
{
    for c in 0..CELLS {
        if !cell_sound(&cells(block, c), shape, home) {
            return false;
        }
    }
    true
}

/// Whether there is room for each cell's value.
fn values_sound(block: &[u8]) -> bool
    requires { length block.now ≡ UNIT }
    ensures { IsTrue result ↔ ((c : ℕ) → c < CELLS → value_length block.now c ≤ VALUE_BYTES) }
{
    for c in 0..CELLS {
        if value_length(block, c) as usize > VALUE_BYTES {
            return false;
        }
    }
    true
}

/// Whether a cell with this lock is unlocked, or locked by an entry that isn't free.
fn lock_sound(block: &[u8], lock: u8) -> bool
    requires { length block.now ≡ UNIT }
    ensures { IsTrue result ↔ IsLock block.now lock }
{
    if lock == 0 {
        return true;
    }
    lock <= ENTRIES && entry(block, lock - 1).kind != FREE
}

/// Whether each cell is unlocked, or locked by an entry that isn't free.
fn locks_sound(block: &[u8]) -> bool
    requires { length block.now ≡ UNIT }
    ensures { IsTrue result ↔ ((c : ℕ) → c < CELLS → IsLock block.now (cell_at block.now c).lock) }
{
    for c in 0..CELLS {
        if !lock_sound(block, front(block, c).lock) {
            return false;
        }
    }
    true
}

/// Whether cell `c`, 0 to 15, is a row or locked, so that no other one may have its key.
fn has_own_key(block: &[u8], c: u8) -> bool
    requires block { length block.now ≡ UNIT }
    requires place { c < CELLS }
    ensures { result ≡ is_keyed (cell_at block.now c).key (cell_at block.now c) }
{
    let front = front(block, c);
    front.state == ROW || front.lock != 0
}

/// Whether cell `c`, 0 to 15, is neither a row nor locked, or is the first one of those that are with its key.
fn key_is_first(block: &[u8], c: u8) -> bool
    requires block { length block.now ≡ UNIT }
    requires place { c < CELLS }
    ensures { IsTrue result ↔ IsFirstKeyed block.now c }
{
    !has_own_key(block, c) || find(block, front(block, c).key) == Some(c)
}

/// Whether of the cells that are rows or locked no two have one key.
fn keys_apart(block: &[u8]) -> bool
    requires { length block.now ≡ UNIT }
    ensures { IsTrue result ↔ AreKeysApart block.now }
{
    for c in 0..CELLS {
        if !key_is_first(block, c) {
            return false;
        }
    }
    true
}

/// Whether the cells of a block are in order, as those of the block of `home` in its table.
fn all_cells_sound(block: &[u8], shape: Shape, home: u32) -> bool
    requires block { length block.now ≡ UNIT }
    requires shape { IsShape shape }
    ensures { IsTrue result ↔ AreCellsSound shape home block.now }
{
    cells_sound(block, shape, home)
        && values_sound(block)
        && locks_sound(block)
        && keys_apart(block)
}

/// Whether a block of rows, 2,048 bytes, is in order, as the block of `home` in its table.
#[tactic(auto, using(crate::proofs::EmptyHomes::empty_sound))]
pub fn home_sound(block: &[u8], home: u32, limits: &Limits) -> bool
    requires block { length block.now ≡ UNIT }
    requires shape { IsShape limits.now.shape }
    ensures { IsTrue result ↔ IsHomeSound limits.now.shape limits.now.commit (wrap_in limits.now.wraps) home
        block.now }
{
    if home_is_empty(block) {
        return true;
    }
    entries_sound(block, limits) && all_cells_sound(block, limits.shape, home)
}
