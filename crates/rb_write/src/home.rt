//! The block of rows that a write changes: its cleaned copy, the cell of the key there, and the cell and the slot entry
//! that the change makes. `attempt` calls it.
ghost use Rattle.std.specs.Prelude.{◌≡◌, ◌<◌, ◌≤◌, ◌+◌, ◌^◌, false, true, not, [], length};
ghost use Rattle.std.specs.Prelude.{IfErr, IfOk, OnErr, OnOk};
ghost use Rattle.std.specs.List.{AllByRecursion};
ghost use Rattle.rb_write.specs.Asks.{adds_in, adds_row, kind_of, AreYoung, IsShort};
ghost use Rattle.rb_write.specs.Refusals.{has_failed, AreOpen, HomeRefuses, TakesWrite};
ghost use Rattle.rb_base.specs.Blocks.{block_of, table_blocks, written_to, AreBlocks};
ghost use Rattle.rb_base.specs.Groups.{group_length};
ghost use Rattle.rb_base.specs.Logs.{Logs};
ghost use Rattle.rb_heap.specs.Cleaning.{cleaned_home, IsCleanPatch};
ghost use Rattle.rb_heap.specs.Homes.{home_entry, home_of};
ghost use Rattle.law_blocks.specs.Standing.{env_of};
ghost use Rattle.law_blocks.specs.Writing.{cell_after, entry_after, IsCellChoice};

use crate::ask::{Ask, AttemptFault};
use arrayvec::ArrayVec;
use rb_base::{BlockNo, Group, Store, UNIT, Uba, VALUE_BYTES, Xid, array_of};
use rb_cell::{CELLS, Cell, ROW, STUB, front};
use rb_cleanout::{CLEAN_BYTES, CLEAN_PATCHES, clean_copy};
use rb_heap::{find, free_cell};
use rb_itl::{ENTRIES, Entry, OPEN, entry};
use rb_model::Op;

/// Where a change is made.
#[derive(Clone, Copy, Debug)]
pub struct Place {
    /// The block, which is one of rows.
    pub block: BlockNo,
    /// The slot entry of the transaction, 0 to 7.
    pub entry: u8,
    /// The cell of the row, 0 to 15.
    pub cell: u8,
}

/// Loads block `no`, which is one of rows, into a copy, and cleans that. The group, which had none, has the patches.
pub fn clean_home<S: Store>(
    store: &mut S,
    no: BlockNo,
    home: &mut [u8],
    group: &mut Group,
) -> Result<(), AttemptFault>
    requires going { S.failed store.old ≡ false }
    requires there { no < table_blocks (S.shape_of store.old) }
    requires block { length home.old ≡ UNIT }
    requires begun { group.old ≡ [] }
    ensures logs { Logs S.Store store.old store.new [] (not (has_failed result)) }
    ensures failed { OnErr result (has_failed result ≡ true) }
    ensures length { length home.new ≡ UNIT }
    ensures few { length group.new ≤ CLEAN_PATCHES }
    ensures short { group_length group.new ≤ 2 + CLEAN_BYTES }
    ensures patches { OnOk result (AllByRecursion (IsCleanPatch no) group.new) }
    ensures whole { S.tells → OnOk result (AreBlocks (S.shape_of store.old) (S.blocks store.old)) }
    ensures copy { S.tells → OnOk result (home.new ≡ written_to no group.new (block_of (S.blocks store.old) no)) }
    ensures cleaned { S.tells → AreYoung (S.shape_of store.old) (S.blocks store.old) → OnOk result (home_of home.new
        ≡ cleaned_home (env_of (S.shape_of store.old) (S.blocks store.old)).look
        (home_of (block_of (S.blocks store.old) no))) }
{
    let Ok(()) = store.load(no) else {
        return Err(AttemptFault::Failed);
    };
    home.copy_from_slice(store.block());
    match clean_copy(store, no, home, group) {
        Ok(()) => Ok(()),
        Err(_) => Err(AttemptFault::Failed),
    }
}

/// Whether the write adds a row, by whether its key has one.
fn makes_row(ask: &Ask<'_>, present: bool) -> bool
    ensures { result ≡ adds_row ask.now.op present }
{
    match ask.op {
        Some(Op::Insert(_)) => true,
        Some(Op::Put(_)) => !present,
        Some(Op::Update(_) | Op::Delete) | None => false,
    }
}

/// The cell, 0 to 15, of a cleaned home that the write takes: that of its key, or a free one for a row that it adds
/// where no cell has the key. An insert needs a key without a row, a put takes either, and each other write one with a
/// row.
pub fn cell_for(home: &[u8], ask: &Ask<'_>) -> Result<u8, AttemptFault>
    requires { length home.now ≡ UNIT }
    ensures cell { IfOk result (λ c. IsCellChoice (home_of home.now)
        (adds_in (home_of home.now) ask.now) ask.now.key c) }
    ensures within { IfOk result (λ c. c < CELLS) }
    ensures takes { OnOk result (TakesWrite (home_of home.now) (adds_in (home_of home.now) ask.now) ask.now.key) }
    ensures refused { IfErr result (λ fault. HomeRefuses fault (home_of home.now)
        (adds_in (home_of home.now) ask.now) ask.now.key) }
    ensures going { has_failed result ≡ false }
{
    let Some(c) = find(home, ask.key) else {
        return if makes_row(ask, false) {
            free_cell(home).ok_or(AttemptFault::BlockFull)
        } else {
            Err(AttemptFault::NotFound)
        };
    };
    let present = front(home, c).state == ROW;
    match (makes_row(ask, present), present) {
        (true, true) => Err(AttemptFault::Duplicate),
        (false, false) => Err(AttemptFault::NotFound),
        _ => Ok(c),
    }
}

/// Whether each slot entry is Open. A transaction that is still to be, which has none of its own, finds none then.
pub fn are_open(home: &[u8]) -> bool
    requires { length home.now ≡ UNIT }
    ensures open { result ≡ true → AreOpen (home_entry (home_of home.now)) }
    ensures other { result ≡ false → ¬ AreOpen (home_entry (home_of home.now)) }
{
    for i in 0..ENTRIES {
        if entry(home, i).kind != OPEN {
            return false;
        }
    }
    true
}

/// A locked cell with that row.
fn row(key: u64, lock: u8, bytes: &[u8]) -> Cell
    requires { length bytes.now ≤ VALUE_BYTES }
    ensures { result ≡ record { state = ROW; lock = lock; key = key; value = record { items = bytes.now } } }
{
    Cell {
        state: ROW,
        lock,
        key,
        value: array_of(bytes),
    }
}

/// The cell that the write leaves where it found `old`, locked by entry `i`, 0 to 7.
pub fn new_cell(ask: &Ask<'_>, old: Cell, i: u8) -> Cell
    requires short { IsShort ask.now.op }
    requires place { i < ENTRIES }
    ensures { result ≡ cell_after (kind_of ask.now.op) ask.now.key i old }
{
    match ask.op {
        Some(Op::Insert(value) | Op::Update(value) | Op::Put(value)) => row(ask.key, i + 1, value),
        Some(Op::Delete) => Cell {
            state: STUB,
            lock: i + 1,
            key: ask.key,
            value: ArrayVec::new(),
        },
        None => Cell { lock: i + 1, ..old },
    }
}

/// The entry of the transaction once its newest record for the block has that address. A chain at its end stays there.
pub fn new_entry(xid: Xid, address: Uba, old: Entry) -> Entry
    ensures { (old.kind ≡ OPEN → old.length < 2 ^ 31) → result ≡ entry_after xid address old }
{
    Entry {
        kind: OPEN,
        xid,
        number: 0,
        newest: address,
        length: if old.kind == OPEN {
            old.length.saturating_add(1)
        } else {
            1
        },
    }
}
