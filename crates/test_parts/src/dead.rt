//! Dead transactions of a small file: what no session has is put back by a home, by a segment, or up to so many
//! changes.
use crate::writers::{SHAPE, Writers, copy_of};
use rb_base::{Failed, Store, Workspace, Xid};
use rb_dead::{clear_home, clear_segment, first_dead, sweep};
use rb_plainstore::PlainStore;
use rb_sessions::Sessions;
use rb_txntable::{ENDED, slot_at};
use std::test::Fail;

/// Three transactions run: those of slots 0 and 2 have two changes and one in block 0, and that of slot 1 has one in
/// block 1. Seven groups put them back.
const LINES: &[u8] = b"insert 1 1 6 a\nupdate 1 1 6 b\ninsert 2 1 1 c\ninsert 3 1 2 d\n";

const OWED: u64 = 7;

/// Sweeps up to so many changes, and answers how many went.
fn swept(
    sessions: &Sessions,
    owed: &mut u64,
    store: &mut PlainStore,
    most: u32,
) -> Result<u32, Failed> {
    if store.logged() > 1_000_000 || *owed > 1_000_000 {
        return Err(Failed);
    }
    sweep(sessions, owed, store, &mut Workspace::new(), most)
}

/// Clears the home of a block of rows, and answers whose entry in the other block is dead then.
fn home_cleared(
    sessions: &Sessions,
    owed: &mut u64,
    store: &mut PlainStore,
    no: u32,
) -> Result<Option<Xid>, Failed> {
    let rows = store.shape().table_blocks();
    if no >= rows || rows < 2 || store.logged() > 1_000_000 || *owed > 1_000_000 {
        return Err(Failed);
    }
    clear_home(sessions, owed, store, &mut Workspace::new(), no)?;
    first_dead(sessions, store, 1 - no.min(1))
}

/// Clears the segment.
fn segment_cleared(
    sessions: &Sessions,
    owed: &mut u64,
    store: &mut PlainStore,
) -> Result<(), Failed> {
    if store.shape().segments == 0 || store.logged() > 1_000_000 || *owed > 1_000_000 {
        return Err(Failed);
    }
    clear_segment(sessions, owed, store, &mut Workspace::new(), 0)
}

/// Which of the first three slots of the segment have ended.
fn ended(store: &mut PlainStore) -> Result<[bool; 3], Failed> {
    let header = copy_of(store, 2)?;
    let has_ended = |i| slot_at(&header, i).state == ENDED;
    Ok([has_ended(0), has_ended(1), has_ended(2)])
}

// The newest change of slot 0 goes first, and each slot ends as its last change goes. Then nothing is left.
#[test]
fn dead_are_swept(rt: HostRuntime) -> Result<(), Fail> {
    let mut writers = Writers::new(rt.alloc(), SHAPE)?;
    assert!(rt; writers.lines(LINES));
    let (store, sessions, mut owed) = (&mut writers.store, Sessions::new(rt.alloc())?, OWED);
    assert!(rt; swept(&sessions, &mut owed, store, 1) == Ok(1) && owed == OWED - 1);
    assert!(rt; ended(store) == Ok([false; 3]));
    assert!(rt; swept(&sessions, &mut owed, store, 2) == Ok(2) && owed == 2);
    assert!(rt; ended(store) == Ok([true, true, false]));
    assert!(rt; swept(&sessions, &mut owed, store, 9) == Ok(1) && owed == 0);
    assert!(rt; swept(&sessions, &mut owed, store, 9) == Ok(0));
    assert!(rt; ended(store) == Ok([true; 3]));
    Ok(())
}

// Block 0 has entries of slots 0 and 2, so that of slot 1 is left.
#[test]
fn home_is_cleared_of_the_dead(rt: HostRuntime) -> Result<(), Fail> {
    let mut writers = Writers::new(rt.alloc(), SHAPE)?;
    assert!(rt; writers.lines(LINES));
    let other = writers.id(2);
    let (store, sessions, mut owed) = (&mut writers.store, Sessions::new(rt.alloc())?, OWED);
    assert!(rt; home_cleared(&sessions, &mut owed, store, 0) == Ok(other) && owed == 2);
    assert!(rt; ended(store) == Ok([true, false, true]));
    Ok(())
}

// A session has the transaction of slot 1, which stays.
#[test]
fn segment_keeps_who_lives(rt: HostRuntime) -> Result<(), Fail> {
    let mut writers = Writers::new(rt.alloc(), SHAPE)?;
    assert!(rt; writers.lines(LINES));
    let lives = writers.id(2);
    let (store, mut sessions, mut owed) = (
        &mut writers.store,
        Sessions::new(rt.alloc())?,
        OWED - 2,
    );
    let Some(xid) = lives else {
        return Err(Fail::new("no transaction"));
    };
    sessions.wrote(2, xid);
    assert!(rt; segment_cleared(&sessions, &mut owed, store) == Ok(()) && owed == 0);
    assert!(rt; ended(store) == Ok([true, false, true]));
    Ok(())
}
