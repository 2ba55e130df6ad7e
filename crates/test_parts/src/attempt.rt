//! Writes with undo over a small file in memory: which slot, entry and cell they take, what refuses them, and who holds
//! a key then.
use crate::cell::reads;
use crate::writers::{Writers, copy_of};
use rb_base::{Shape, Store, Workspace, Xid};
use rb_cell::{ROW, STUB};
use rb_model::Op;
use rb_write::{Ask, AttemptFault, attempt, holder_of};
use std::test::Fail;

/// Two tables of one block each, 0 and 1, and two segments.
const SHAPE: Shape = Shape {
    tables: 2,
    blocks: 1,
    segments: 2,
};

/// The first transaction of a segment.
fn first_of(seg: u16) -> Xid {
    Xid {
        seg,
        slot: 0,
        wrap: 1,
    }
}

/// Whether a cell of the first table's block reads so.
fn has_cell(writers: &mut Writers, c: u8, state: u8, lock: u8, key: u64, value: &[u8]) -> bool {
    match copy_of(&mut writers.store, 0) {
        Ok(block) => reads(&block, c, state, lock, key, value),
        Err(_) => false,
    }
}

#[test]
fn one_transaction(rt: HostRuntime) -> Result<(), Fail> {
    let rows: [(&[u8], u16, u8, u8, u8, u64, &[u8]); 6] = [
        (b"insert 1 1 7 ab", 0, 0, ROW, 1, 7, b"ab"),
        (b"update 1 1 7 c", 0, 0, ROW, 1, 7, b"c"),
        (b"lock 1 1 7", 0, 0, ROW, 1, 7, b"c"),
        (b"delete 1 1 7", 0, 0, STUB, 1, 7, b""),
        // The stub keeps its cell for its key while the transaction runs.
        (b"insert 1 1 9 d", 0, 1, ROW, 1, 9, b"d"),
        // Another one takes a slot of the other segment, and the next slot entry.
        (b"insert 2 1 11 e", 1, 2, ROW, 2, 11, b"e"),
    ];
    let mut writers = Writers::new(rt.alloc(), SHAPE)?;
    for (line, seg, c, state, lock, key, value) in rows {
        assert!(rt; writers.line(line) == Ok(first_of(seg)));
        assert!(rt; has_cell(&mut writers, c, state, lock, key, value));
    }
    assert!(rt; writers.store.logged() == 6);
    Ok(())
}

#[test]
fn refusals(rt: HostRuntime) -> Result<(), Fail> {
    let mut writers = Writers::new(rt.alloc(), SHAPE)?;
    for key in 0..16 {
        let inserted = writers.write(1, 1, key, Some(Op::Insert(b"a")));
        assert!(rt; inserted == Ok(first_of(0)));
    }
    let rows: [(&[u8], AttemptFault); 4] = [
        (b"insert 1 1 15 b", AttemptFault::Duplicate),
        (b"insert 1 1 16 b", AttemptFault::BlockFull),
        (b"update 1 1 16 b", AttemptFault::NotFound),
        (b"lock 1 1 16", AttemptFault::NotFound),
    ];
    for (line, fault) in rows {
        assert!(rt; writers.line(line) == Err(fault));
    }
    assert!(rt; writers.store.logged() == 16);
    Ok(())
}

// So many records are in the eight extents of a segment.
#[test]
fn rollback_full(rt: HostRuntime) -> Result<(), Fail> {
    let mut writers = Writers::new(rt.alloc(), SHAPE)?;
    assert!(rt; writers.line(b"insert 1 1 0 a").is_ok());
    for _ in 1..320 {
        assert!(rt; writers.write(1, 1, 0, None).is_ok());
    }
    let full = AttemptFault::RollbackFull { seg: 0, since: 320 };
    assert!(rt; writers.line(b"lock 1 1 0") == Err(full));
    Ok(())
}

/// Inserts a row by a transaction that begins with it.
fn begin(writers: &mut Writers, table: u16, key: u64) -> Result<Xid, AttemptFault> {
    if table == 0 || table > writers.store.shape().tables {
        return Err(AttemptFault::Failed);
    }
    let ask = Ask {
        own: None,
        table,
        key,
        op: Some(Op::Insert(b"a")),
    };
    attempt(&mut writers.store, &ask, &mut Workspace::new())
}

// The sixteen transactions of a segment have each slot entry of two blocks. A block without one is told before that.
#[test]
fn no_slot(rt: HostRuntime) -> Result<(), Fail> {
    let shape = Shape {
        tables: 3,
        blocks: 1,
        segments: 1,
    };
    let mut writers = Writers::new(rt.alloc(), shape)?;
    for table in 1..3 {
        for key in 0..8 {
            assert!(rt; begin(&mut writers, table, key).is_ok());
        }
    }
    assert!(rt; begin(&mut writers, 1, 8) == Err(AttemptFault::SlotsFull));
    assert!(rt; begin(&mut writers, 3, 0) == Err(AttemptFault::NoSlot { seg: 0 }));
    assert!(rt; writers.store.logged() == 16);
    Ok(())
}

/// Whether a key of the first table is held by the session's transaction. Session 0 is none.
fn is_held(writers: &mut Writers, key: u64, s: u16) -> bool {
    let holder = writers.id(s);
    if writers.store.shape().tables == 0 {
        return false;
    }
    holder_of(&mut writers.store, 1, key) == Ok(holder)
}

// Who holds keys 7 and 9 of one block. A row that is deleted is held until the transaction ends.
#[test]
fn holders(rt: HostRuntime) -> Result<(), Fail> {
    let rows: [(&[u8], u16, u16); 3] = [
        (b"insert 1 1 7 a", 1, 0),
        (b"insert 2 1 9 b", 1, 2),
        (b"delete 1 1 7", 1, 2),
    ];
    let mut writers = Writers::new(rt.alloc(), SHAPE)?;
    assert!(rt; is_held(&mut writers, 7, 0));
    for (line, seven, nine) in rows {
        assert!(rt; writers.line(line).is_ok());
        assert!(rt; is_held(&mut writers, 7, seven));
        assert!(rt; is_held(&mut writers, 9, nine));
    }
    Ok(())
}
