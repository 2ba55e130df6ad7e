//! Headers and blocks of rows by their bytes, written by hand, each with one byte changed; and the blocks of a store.
use rb_base::{BlockNo, Failed, Group, Shape, Store};
use rb_plainstore::PlainStore;
use rb_segment::commit_scn_of;
use rb_sound::{Limits, blocks_sound, home_sound, segment_sound};
use std::alloc::Global;
use std::test::Fail;

pub(crate) const SHAPE: Shape = Shape {
    tables: 1,
    blocks: 10,
    segments: 2,
};

/// A ring of extents 0 to 2 with the numbers 5, 3 and 4 and 40 records in the head, and table slot 15 as it stands
/// after two commits, at 6 and at 7.
fn header() -> [u8; 2048] {
    let mut header = [0; 2048];
    header[1063] = 5;
    header[1095] = 3;
    header[1127] = 4;
    header[1315] = 40;
    header[1335] = 7;
    header[1135] = 7;
    header[992] = 3;
    header[1007] = 9;
    header[1015] = 7;
    header[1023] = 6;
    header
}

/// A block of home 3 with an open entry at 0 and a committed one at 7, a row of key 13 in cell 0, which entry 7 has
/// locked, and a deleted one of the same key in cell 15.
fn rows() -> [u8; 2048] {
    let mut block = [0; 2048];
    block[32] = 1;
    block[37] = 1;
    block[39] = 15;
    block[47] = 4;
    block[74] = 1;
    block[75] = 0x40;
    block[368] = 2;
    block[383] = 1;
    block[391] = 9;
    block[411] = 1;
    block[416] = 1;
    block[417] = 8;
    block[419] = 80;
    block[427] = 13;
    block[1796] = 2;
    block[1807] = 13;
    block
}

#[test]
fn headers(rt: HostRuntime) {
    let header = header();
    assert!(rt; segment_sound(&header, 7));
    assert!(rt; !segment_sound(&header, 6));
    // A new file's header, and no header at all.
    let mut fresh = [0; 2048];
    assert!(rt; !segment_sound(&fresh, 0));
    fresh[1063] = 2;
    fresh[1095] = 1;
    assert!(rt; segment_sound(&fresh, 0));
}

#[test]
fn changed_headers(rt: HostRuntime) {
    let cases: [(usize, u8, bool); 16] = [
        (1007, 255, true), // a wrap
        (992, 4, false), // a state
        (1023, 7, true), // before, up to newest
        (1023, 8, false), // and above it
        (1335, 8, false), // lost
        (1135, 8, false), // the newest of an extent in the ring
        (1295, 8, false), // and of one outside
        (1315, 41, false), // the records of the head
        (1313, 1, false), // the head isn't the newest,
        (1313, 3, false), // or isn't in the ring
        (1312, 1, false), //
        (1159, 2, true), // a fourth extent
        (1159, 1, false), // which doesn't follow
        (1191, 2, false), // one behind a gap
        (1095, 4, false), // a number that stands twice
        (1095, 0, false), // a ring of one
    ];
    for (at, byte, sound) in cases {
        let mut changed = header();
        assert!(rt; at < 2048);
        changed[at] = byte;
        assert!(rt; segment_sound(&changed, 7) == sound, "at {at}");
    }
}

#[test]
fn changed_rows(rt: HostRuntime) {
    let cases: [(usize, u8, bool); 22] = [
        (0, 1, true), // the block's head isn't looked at
        (32, 4, false), // a kind
        (32, 0, true), // a free entry's bytes aren't looked at
        (37, 2, false), // a segment
        (39, 16, false), // a slot
        (47, 5, false), // a wrap
        (47, 0, false), //
        (75, 0x41, false), // a chain
        (411, 0, false), //
        (391, 10, false), // a number
        (368, 0, false), // the entry that has the lock is free
        (416, 3, false), // a state
        (416, 0, false), // an empty cell with a lock
        (417, 9, false), // a lock that names no entry
        (417, 2, false), // or a free one
        (419, 81, false), // a value's length
        (418, 1, false), //
        (427, 23, true), // another key of this home
        (427, 14, false), // a key of another home
        (1796, 1, false), // two rows of one key
        (1797, 1, false), // a row and a locked cell of one key
        (1796, 0, true), // an empty cell's key isn't looked at
    ];
    let mut limits = Limits {
        shape: SHAPE,
        commit: 9,
        wraps: [[0; 16]; 16],
    };
    limits.wraps[0][0] = 1;
    limits.wraps[1][15] = 4;
    for (at, byte, sound) in cases {
        let mut changed = rows();
        assert!(rt; at < 2048);
        changed[at] = byte;
        assert!(rt; home_sound(&changed, 3, &limits) == sound, "at {at}");
    }
    assert!(rt; !home_sound(&rows(), 4, &limits));
    assert!(rt; home_sound(&[0; 2048], 4, &limits));
}

/// Whether the blocks of a store are in order, and their commit number.
fn state_of(store: &mut PlainStore) -> Result<(bool, u64), Failed> {
    let sound = blocks_sound(store)?;
    Ok((sound, commit_scn_of(store)?))
}

/// Patches one byte of a block. It answers Failed where the store can't take that.
pub(crate) fn patch(store: &mut PlainStore, no: BlockNo, at: u16, byte: u8) -> Result<(), Failed> {
    let count = store.shape().block_count();
    let within = no < count && at >= 32 && at < 2048;
    if !within || store.logged() > 1_000_000 {
        return Err(Failed);
    }
    let mut group = Group::new();
    group.push(no, at, &[byte]);
    store.apply(&group)
}

// A new file is in order. Its commit number is what the last header says, and a cell of an unknown state isn't in
// order.
#[test]
fn blocks_of_a_store(rt: HostRuntime) -> Result<(), Fail> {
    let mut store = PlainStore::new(rt.alloc(), SHAPE)?;
    assert!(rt; state_of(&mut store) == Ok((true, 0)));
    patch(&mut store, 43, 55, 9)?;
    assert!(rt; state_of(&mut store) == Ok((true, 9)));
    patch(&mut store, 9, 416, 3)?;
    assert!(rt; state_of(&mut store) == Ok((false, 9)));
    Ok(())
}

/// A new file in which slot 15 of segment 1 runs, with two live records in the head: block 44 has them, block 43 is the
/// header.
pub(crate) fn running(store: &mut PlainStore) -> Result<(), Failed> {
    let bytes: [(BlockNo, u16, u8); 17] = [
        (43, 992, 1), // the slot: it is Active,
        (43, 999, 2), // has two live records,
        (43, 1007, 1), // wrap 1,
        (43, 1027, 44), // the newest in block 44,
        (43, 1029, 1), // as record 1
        (43, 1039, 2), // of turn 2,
        (43, 1047, 2), // and its first one in that turn
        (43, 1315, 2), // the head has two records
        (43, 1327, 2), // of two that were made
        (44, 39, 1), // record 0: the wrap,
        (44, 51, 1), // number 1
        (44, 58, 15), // and the slot
        (44, 231, 1), // record 1: the wrap,
        (44, 243, 2), // number 2,
        (44, 250, 15), // the slot,
        (44, 259, 44), // and before it record 0 of block 44
        (44, 271, 2), // in turn 2
    ];
    for (no, at, byte) in bytes {
        patch(store, no, at, byte)?;
    }
    Ok(())
}

/// Whether such a file is in order with a byte changed, where it is in order before.
fn is_sound_with(alloc: Global, no: BlockNo, at: u16, byte: u8) -> Result<bool, Fail> {
    let mut store = PlainStore::new(alloc, SHAPE)?;
    running(&mut store)?;
    if !blocks_sound(&mut store)? {
        return Err(Fail::new("not in order"));
    }
    patch(&mut store, no, at, byte)?;
    Ok(blocks_sound(&mut store)?)
}

#[test]
fn changed_live_records(rt: HostRuntime) -> Result<(), Fail> {
    let cases: [(BlockNo, u16, u8, bool); 20] = [
        (43, 999, 1, false), // one live record less
        (43, 999, 3, false), // one more
        (43, 1039, 1, false), // the turn of another extent
        (43, 1029, 2, false), // a record that wasn't made
        (43, 1315, 1, false), //
        (43, 1315, 40, true), // a head that is full
        (43, 1047, 1, true), // the first turn in another extent
        (43, 1047, 3, false), // and in none
        (43, 1047, 0, false), //
        (43, 1055, 2, true), // a start up to the last record
        (43, 1055, 3, false), // and behind it
        (43, 1027, 43, false), // a header for an undo block
        (44, 243, 1, false), // a number
        (44, 250, 14, false), // another slot
        (44, 231, 2, false), // another wrap
        (44, 247, 10, false), // a header for a block of rows
        (44, 252, 8, false), // an entry
        (44, 253, 16, false), // a cell
        (44, 79, 2, false), // the last record leads on
        (43, 992, 2, true), // of a slot that isn't Active nothing of it is looked at
    ];
    for (no, at, byte, sound) in cases {
        let found = is_sound_with(rt.alloc(), no, at, byte)?;
        assert!(rt; found == sound, "at {at} of block {no}");
    }
    Ok(())
}
