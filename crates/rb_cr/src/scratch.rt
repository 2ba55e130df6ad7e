//! A home decoded once, in which records are taken back, and what the reader keeps of it. A rebuild works on it.
ghost use Rattle.std.specs.Prelude.{◌≡◌, ◌||◌, ◌<◌, ℕ, None, Some, true, false, length, IfOk};
ghost use Rattle.rb_base.specs.declared.shape.Shape.{Shape};
ghost use Rattle.rb_cr.specs.Records.{maker_of, names_at, record_of, row_items};
ghost use Rattle.rb_cr.specs.Scratches.{kept_with, scratch_home, shown_by, shown_in};
ghost use Rattle.rb_cr.specs.Watches.{Stays};
ghost use Rattle.rb_heap.specs.Homes.{empty_cell, home_of};
ghost use Rattle.law_read.specs.Chains.{fits, is_own, leads_back, number_falls, same_xid};
ghost use Rattle.law_read.specs.Keeping.{is_first, is_held, kept_room};
ghost use Rattle.law_read.specs.Late.{touches};
ghost use Rattle.law_blocks.specs.Says.{walk_cell, walk_entry, sort_by};
ghost use Rattle.law_home.specs.Walk.{row_of, back as taken_back};

use crate::kept::{KeptRows, copied};
use crate::records::SegmentRecord;
use crate::watch::Watch;
use arrayvec::ArrayVec;
use rb_base::{BlockNo, NoMemory, Scn, UNIT, VALUE_BYTES, Xid};
use rb_cell::{CELLS, Cell, EMPTY, ROW, cell_from, cells};
use rb_itl::{ENTRIES, EXACT, Entry, OPEN, entry, entry_from};
use rb_undoblock::{GONE, PUT, UndoRecord};
use std::alloc::Global;
use std::{array, mem};

/// What a reader sees: the commits up to a number, and over them the first changes of a transaction of its own.
#[derive(Clone, Copy, Debug, PartialEq, Eq)]
pub struct Snapshot {
    /// The last commit number that it sees.
    pub scn: Scn,
    /// Its transaction, where it has one. It may have committed since.
    pub own: Option<Xid>,
    /// How many of the changes of that transaction it sees.
    pub upto: u32,
}

/// The entries and cells of a home, its block's number, the reader's own rows that were taken back from it, and a key
/// that is watched meanwhile.
#[derive(Drop)]
pub struct Scratch {
    pub(crate) block: BlockNo,
    pub(crate) entries: [Entry; ENTRIES as usize],
    pub(crate) cells: [Cell; CELLS as usize],
    pub(crate) kept: KeptRows,
    pub(crate) watch: Watch,
}

/// The cell that holds nothing.
fn empty_cell() -> Cell
    ensures { result ≡ empty_cell }
{
    Cell {
        state: EMPTY,
        lock: 0,
        key: 0,
        value: ArrayVec::new(),
    }
}

impl Scratch {
    /// One that no home was decoded into, and so shows no row. Its room is taken here; `NoMemory` where there is none.
    pub fn new(alloc: Global) -> Result<Scratch, NoMemory>
        ensures { IfOk result (λ scratch. (key : ℕ) → shown_by scratch key ≡ None) }
    {
        Ok(Scratch {
            block: 0,
            entries: [Entry::default(); ENTRIES as usize],
            cells: array::from_fn(|_| empty_cell()),
            kept: KeptRows::new(alloc)?,
            watch: Watch::of(None),
        })
    }

    /// Decodes the slot entries of a block.
    pub(crate) fn decode_entries(&mut self, block: &[u8])
        requires { length block.now ≡ UNIT }
        ensures entries { self.new.entries ≡ (home_of block.now).entries }
        ensures cells { self.new.cells ≡ self.old.cells }
        ensures number { self.new.block ≡ self.old.block }
        ensures watch { self.new.watch ≡ self.old.watch }
    {
        for i in 0..ENTRIES {
            self.entries[i as usize] = entry(block, i);
        }
    }

    /// Decodes the cells of a block.
    fn decode_cells(&mut self, block: &[u8])
        requires { length block.now ≡ UNIT }
        ensures entries { self.new.entries ≡ self.old.entries }
        ensures cells { self.new.cells ≡ (home_of block.now).cells }
        ensures number { self.new.block ≡ self.old.block }
        ensures watch { self.new.watch ≡ self.old.watch }
    {
        for c in 0..CELLS {
            self.cells[c as usize] = cells(block, c);
        }
    }

    /// Decodes the home that the bytes of block `no` say, in the place of the one that it had.
    pub(crate) fn decode(&mut self, no: BlockNo, block: &[u8])
        requires { length block.now ≡ UNIT }
        ensures entries { self.new.entries ≡ (home_of block.now).entries }
        ensures cells { self.new.cells ≡ (home_of block.now).cells }
        ensures number { self.new.block ≡ no }
        ensures watch { self.new.watch ≡ self.old.watch }
    {
        self.block = no;
        self.decode_entries(block);
        self.decode_cells(block);
    }
}

/// Whether two ids are one.
fn same(a: Xid, b: Xid) -> bool
    ensures { result ≡ same_xid a b }
{
    a.seg == b.seg && a.slot == b.slot && a.wrap == b.wrap
}

/// The transaction that made a record.
fn maker(found: &SegmentRecord) -> Xid
    ensures { result ≡ maker_of found.now }
{
    Xid {
        seg: found.seg,
        slot: u16::from(found.undo.slot),
        wrap: found.undo.wrap,
    }
}

/// Whether a record is of one of the reader's first changes.
fn is_first_of(snapshot: &Snapshot, found: &SegmentRecord) -> bool
    ensures { result
        ≡ is_first snapshot.now.own snapshot.now.upto (maker_of found.now) found.now.undo.number }
{
    match snapshot.own {
        None => false,
        Some(own) => same(own, maker(found)) && found.undo.number <= snapshot.upto,
    }
}

/// Whether a change of this kind held its row as it was.
pub(crate) fn holds(kind: u8) -> bool
    ensures { result ≡ is_held (sort_by kind) }
{
    kind != PUT && kind != GONE
}

/// The row that a cell shows for this key.
pub(crate) fn row_in(cell: &Cell, key: u64) -> Option<ArrayVec<u8, VALUE_BYTES>>
    ensures { row_items result ≡ row_of (walk_cell cell.now) key }
{
    if cell.state == ROW && key == cell.key {
        return Some(copied(&cell.value));
    }
    None
}

/// Whether an entry is this transaction's, which was still to commit.
pub(crate) fn is_own(entry: &Entry, xid: Xid) -> bool
    ensures { (shape : Shape) → result ≡ is_own xid (walk_entry shape entry.now) }
{
    entry.kind == OPEN && same(entry.xid, xid)
}

/// Whether the entry before has a lower number, where both say one.
fn number_falls(entry: &Entry, before: &Entry) -> bool
    ensures { (shape : Shape) → result
        ≡ number_falls (walk_entry shape before.now).status (walk_entry shape entry.now).status }
{
    before.kind != EXACT || entry.kind != EXACT || before.number < entry.number
}

/// Whether the entry before is the transaction's own, with a chain shorter by one; or another's, below it, where this
/// was the last record of the chain.
fn leads_back(entry: &Entry, before: &Entry, xid: Xid) -> bool
    ensures { (shape : Shape) → result ≡ leads_back xid (walk_entry shape entry.now) (walk_entry shape before.now) }
{
    if is_own(before, xid) {
        u64::from(before.length) + 1 == u64::from(entry.length)
    } else {
        entry.length == 1 && number_falls(entry, before)
    }
}

/// Whether a record is of this entry, transaction and block, and its cell is there.
fn names(found: &SegmentRecord, i: usize, block: BlockNo, xid: Xid) -> bool
    ensures { result ≡ names_at i block xid found.now }
{
    found.undo.entry as usize == i
        && same(maker(found), xid)
        && found.undo.home == block
        && found.undo.cell < CELLS
}

/// The same, and whether it leads back. One that doesn't stands where another was. So over whatever bytes, a chain that
/// is taken back gets shorter by each record.
pub(crate) fn fits(scratch: &Scratch, found: &SegmentRecord, i: usize, xid: Xid) -> bool
    requires there { i < ENTRIES }
    requires cells { length scratch.now.cells ≡ CELLS }
    ensures told { (shape : Shape) → result
        ≡ fits i xid (scratch_home shape scratch.now) (record_of shape found.now) }
    ensures entry { result ≡ true → found.now.undo.entry < ENTRIES }
    ensures cell { result ≡ true → found.now.undo.cell < CELLS }
{
    names(found, i, scratch.block, xid)
        && leads_back(
            &scratch.entries[i],
            &entry_from(&found.undo.entry_before),
            xid,
        )
}

/// Puts back the entry and the cell that a record kept, and answers the cell as it was before.
fn back(scratch: &mut Scratch, undo: &UndoRecord) -> Cell
    requires entry { undo.now.entry < ENTRIES }
    requires cell { undo.now.cell < CELLS }
    ensures home { (shape : Shape) (seg : ℕ) → scratch_home shape scratch.new
        ≡ taken_back (record_of shape (record { seg = seg; undo = undo.now })) (scratch_home shape scratch.old) }
    ensures block { scratch.new.block ≡ scratch.old.block }
    ensures kept { scratch.new.kept ≡ scratch.old.kept }
    ensures watch { scratch.new.watch ≡ scratch.old.watch }
    ensures cell { (key : ℕ) → row_of (walk_cell result) key ≡ shown_in scratch.old undo.now.cell key }
{
    scratch.entries[undo.entry as usize] = entry_from(&undo.entry_before);
    mem::replace(
        &mut scratch.cells[undo.cell as usize],
        cell_from(&undo.cell_before),
    )
}

/// Takes one record back, tells the watch of it, and keeps the reader's row before it. False where the room for rows is
/// used up.
pub(crate) fn take_back(scratch: &mut Scratch, found: &SegmentRecord, snapshot: &Snapshot) -> bool
    requires entry { found.now.undo.entry < ENTRIES }
    requires cell { found.now.undo.cell < CELLS }
    ensures home { (shape : Shape) → scratch_home shape scratch.new
        ≡ taken_back (record_of shape found.now) (scratch_home shape scratch.old) }
    ensures block { scratch.new.block ≡ scratch.old.block }
    ensures kept { result ≡ true → scratch.new.kept ≡ kept_with snapshot.now found.now scratch.old }
    ensures full { result ≡ false → kept_room < length (kept_with snapshot.now found.now scratch.old) }
    ensures seen { (shape : Shape) (key : ℕ) → scratch.old.watch.key ≡ Some key → scratch.new.watch.seen
        ≡ scratch.old.watch.seen || touches key (Some (record_of shape found.now)) }
    ensures stays { Stays scratch.old.watch scratch.new.watch }
{
    let key = found.undo.key;
    let wanted = is_first_of(snapshot, found) && !holds(found.undo.kind) && !scratch.kept.has(key);
    let cell = back(scratch, &found.undo);
    scratch.watch.note(&found.undo);
    if wanted {
        return scratch.kept.add(key, row_in(&cell, key));
    }
    true
}
