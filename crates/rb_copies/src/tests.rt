//! The table of kept homes by hand: which one goes from a full table, which number serves a reader, and the table that
//! keeps nothing.

use crate::{COPIES, Copies, CopyKey, KeptHome};
use arrayvec::ArrayVec;
use rb_base::{BlockNo, Lsn, Scn};
use rb_cell::{Cell, EMPTY};
use rb_itl::{ENTRIES, Entry};
use std::array;
use std::test::Fail;

/// The home of a block that no group has patched, with a log number by which it is told from others.
fn home(number: Lsn) -> KeptHome {
    KeptHome {
        number,
        entries: [Entry::default(); ENTRIES as usize],
        cells: array::from_fn(|_| Cell {
            state: EMPTY,
            lock: 0,
            key: 0,
            value: ArrayVec::new(),
        }),
    }
}

/// Keeps a home of that block at commit 1, with the block's number as its log number.
fn keep(copies: &mut Copies, block: BlockNo) {
    copies.keep(CopyKey { block, scn: 1 }, home(u64::from(block)));
}

/// Whether the home that was so kept of that block is there.
fn has(copies: &Copies, block: BlockNo) -> bool {
    match copies.peek(CopyKey { block, scn: 1 }) {
        Some(kept) => kept.number == u64::from(block),
        None => false,
    }
}

// 32 have room. The 33rd takes the place of the one used longest ago.
#[test]
fn oldest_goes(rt: HostRuntime) -> Result<(), Fail> {
    let mut copies = Copies::new(rt.alloc(), COPIES)?;
    for block in 0..33 {
        keep(&mut copies, block);
    }
    for block in 0..33 {
        assert!(rt; has(&copies, block) == (block != 0), "block {block}");
    }
    // Block 1 is used, so block 2 goes next.
    assert!(rt; copies.touch(CopyKey { block: 1, scn: 1 }));
    keep(&mut copies, 33);
    for block in 0..34 {
        assert!(rt;
            has(&copies, block) == (block != 0 && block != 2),
            "block {block}"
        );
    }
    Ok(())
}

/// The homes of a table: their blocks, commit numbers and log numbers.
const KEPT: [(BlockNo, Scn, Lsn); 4] = [(7, 5, 9), (7, 8, 9), (7, 6, 4), (8, 5, 9)];

/// A block, its log number, and the commit number that is asked for, with the one that is to be told.
const ASKED: [(BlockNo, Lsn, Scn, Option<Scn>); 7] = [
    (7, 9, 0, Some(5)),
    (7, 9, 5, Some(5)),
    (7, 9, 6, Some(8)),
    (7, 9, 9, None),
    (7, 4, 0, Some(6)),
    (8, 9, 6, None),
    (9, 9, 0, None),
];

#[test]
fn least_number_serves(rt: HostRuntime) -> Result<(), Fail> {
    let mut copies = Copies::new(rt.alloc(), COPIES)?;
    for (block, scn, number) in KEPT {
        copies.keep(CopyKey { block, scn }, home(number));
    }
    for (block, number, scn, told) in ASKED {
        assert!(rt;
            copies.least(block, number, scn) == told,
            "from {scn} on of block {block} at {number}"
        );
    }
    Ok(())
}

#[test]
fn none_keeps_nothing(rt: HostRuntime) -> Result<(), Fail> {
    let mut copies = Copies::none();
    keep(&mut copies, 7);
    assert!(rt; !has(&copies, 7));
    assert!(rt; copies.least(7, 7, 0) == None);
    assert!(rt; !copies.touch(CopyKey { block: 7, scn: 1 }));
    Ok(())
}
