//! Transactions of a small file: their changes are put back one by one, a block is cleaned of those that have ended,
//! and an opening rolls back those that haven't.
use crate::segment::live_of;
use crate::writers::{SHAPE, Writers, copy_of};
use rb_base::{Failed, Lsn, Store, Uba, Workspace};
use rb_cell::{CELLS, EMPTY, cells, front};
use rb_cleanout::clean;
use rb_itl::{BOUND, ENTRIES, EXACT, Entry, OPEN, entry};
use rb_model::Op;
use rb_plainstore::PlainStore;
use rb_restart::roll_back_all;
use rb_txntable::{COMMITTED, ENDED, slot_at};
use rb_undo::back;
use std::test::Fail;

/// Puts back the newest change of a session's transaction, and answers how many are left.
fn put_back(writers: &mut Writers, s: u16) -> Result<Option<u32>, Failed> {
    let Some(xid) = writers.id(s) else {
        return Err(Failed);
    };
    let store = &mut writers.store;
    let header = store.shape().header_block(0);
    if store.logged() > 1_000_000 {
        return Err(Failed);
    }
    store.load(header)?;
    match live_of(store.block(), xid) {
        Some(live) if live > 0 => back(store, xid, &mut Workspace::new())?,
        _ => return Err(Failed),
    }
    Ok(live_of(&copy_of(store, header)?, xid))
}

/// Cleans block 0 of rows, and answers the last log number.
fn cleaned(store: &mut PlainStore) -> Result<Lsn, Failed> {
    let there = 0 < store.shape().table_blocks();
    if !there || store.logged() > 1_000_000 {
        return Err(Failed);
    }
    clean(store, 0, &mut Workspace::new())?;
    Ok(store.logged())
}

/// Rolls back what is under way, and answers the last log number.
fn rolled_back(store: &mut PlainStore) -> Result<Lsn, Failed> {
    if store.logged() > 1_000_000 {
        return Err(Failed);
    }
    roll_back_all(store, &mut Workspace::new())?;
    Ok(store.logged())
}

// What is left of the transaction is its first record: that one, in undo block 3.
#[test]
fn change_put_back(rt: HostRuntime) -> Result<(), Fail> {
    let mut writers = Writers::new(rt.alloc(), SHAPE)?;
    assert!(rt; writers.lines(b"insert 1 1 6 a\nupdate 1 1 6 bc\n"));
    assert!(rt; put_back(&mut writers, 1) == Ok(Some(1)));
    let block = copy_of(&mut writers.store, 0)?;
    let left = entry(&block, 0);
    let first = Uba {
        block: 3,
        rec: 0,
        ord: 2,
    };
    assert!(rt; left.kind == OPEN && Some(left.xid) == writers.id(1) && left.number == 0);
    assert!(rt; left.newest == first && left.length == 1);
    assert!(rt; cells(&block, 0).value.as_slice() == b"a".as_slice());
    assert!(rt; put_back(&mut writers, 1) == Ok(Some(0)));
    let block = copy_of(&mut writers.store, 0)?;
    assert!(rt; entry(&block, 0) == Entry::default());
    assert!(rt; front(&block, 0).state == EMPTY);
    Ok(())
}

/// Whether an entry of block 0 has this kind and number, and the cell of the same place this lock.
fn has_ended(writers: &mut Writers, i: u8, kind: u8, number: u64, lock: u8) -> bool {
    let Ok(block) = copy_of(&mut writers.store, 0) else {
        return false;
    };
    if i >= ENTRIES || i >= CELLS {
        return false;
    }
    let entry = entry(&block, i);
    entry.kind == kind && entry.number == number && front(&block, i).lock == lock
}

// The second time there is nothing to clean.
#[test]
fn ended_transactions_cleaned(rt: HostRuntime) -> Result<(), Fail> {
    let mut writers = Writers::new(rt.alloc(), SHAPE)?;
    assert!(rt; writers.lines(b"insert 1 1 6 a\ninsert 2 1 8 b\ncommit 1\n"));
    assert!(rt; cleaned(&mut writers.store) == Ok(4));
    assert!(rt; cleaned(&mut writers.store) == Ok(4));
    assert!(rt; has_ended(&mut writers, 0, EXACT, 1, 0));
    assert!(rt; has_ended(&mut writers, 1, OPEN, 0, 2));
    Ok(())
}

// Sixteen transactions later, all of the other block, the slot is taken again, and tells no more when its first one
// committed.
#[test]
fn slot_taken_again(rt: HostRuntime) -> Result<(), Fail> {
    let mut writers = Writers::new(rt.alloc(), SHAPE)?;
    assert!(rt; writers.lines(b"insert 1 1 6 a\ncommit 1\ninsert 2 1 1 b\ncommit 2\n"));
    for _ in 1..16 {
        assert!(rt; writers.write(2, 1, 1, Some(Op::Update(b"c"))).is_ok());
        assert!(rt; writers.commit(2).is_ok());
    }
    assert!(rt; cleaned(&mut writers.store) == Ok(35));
    assert!(rt; has_ended(&mut writers, 0, BOUND, 1, 0));
    Ok(())
}

/// Whether the first three slots of the segment have these states.
fn are_slots(writers: &mut Writers, states: [u8; 3]) -> bool {
    let Ok(header) = copy_of(&mut writers.store, 2) else {
        return false;
    };
    states
        == [
            slot_at(&header, 0).state,
            slot_at(&header, 1).state,
            slot_at(&header, 2).state,
        ]
}

// Three groups put back a change each, and two end a slot. The second time there is nothing to roll back.
#[test]
fn rolled_back_at_an_opening(rt: HostRuntime) -> Result<(), Fail> {
    let lines = b"insert 1 1 2 a\ncommit 1\ninsert 2 1 4 b\ninsert 3 1 6 c\nupdate 2 1 2 d\n";
    let mut writers = Writers::new(rt.alloc(), SHAPE)?;
    assert!(rt; writers.lines(lines) && writers.store.logged() == 5);
    assert!(rt; rolled_back(&mut writers.store) == Ok(10));
    assert!(rt; rolled_back(&mut writers.store) == Ok(10));
    let block = copy_of(&mut writers.store, 0)?;
    assert!(rt; cells(&block, 0).value.as_slice() == b"a".as_slice());
    assert!(rt; front(&block, 1).state == EMPTY && front(&block, 2).state == EMPTY);
    assert!(rt; are_slots(&mut writers, [COMMITTED, ENDED, ENDED]));
    Ok(())
}
