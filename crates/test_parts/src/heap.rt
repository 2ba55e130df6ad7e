//! Cells found by the bytes of a block, and a change's two patches by theirs.
use crate::patches::are_patches;
use arrayvec::ArrayVec;
use rb_base::{Group, Uba, Xid};
use rb_cell::{Cell, EMPTY, ROW, STUB};
use rb_heap::{change, find, free_cell};
use rb_itl::{Entry, OPEN};

/// The bytes in front of the zeros of a row: its key in 8 bytes after the length 3.
const ROW_BYTES: &[u8; 15] = b"\x01\0\0\x03\x01\x02\x03\x04\x05\x06\x07\x08abc";

/// The same of a deleted row that entry 7 has locked.
const STUB_BYTES: &[u8; 12] = b"\x02\x08\0\0\xff\xff\xff\xff\xff\xff\xff\xfe";

const ROW_KEY: u64 = 0x0102030405060708;

const STUB_KEY: u64 = u64::MAX - 1;

#[test]
fn fresh_block(rt: HostRuntime) {
    let block = [0; 2048];
    assert!(rt; find(&block, 0) == None);
    assert!(rt; free_cell(&block) == Some(0));
}

/// A block with a row of one key in cells 0 and 15 and a locked stub in cell 1, whose cell 0 has this state.
fn block_with(first: u8) -> [u8; 2048] {
    let mut block = [0; 2048];
    block[416..431].copy_from_slice(ROW_BYTES);
    block[508..520].copy_from_slice(STUB_BYTES);
    block[1796..1811].copy_from_slice(ROW_BYTES);
    block[416] = first;
    block
}

#[test]
fn worked_block(rt: HostRuntime) {
    let rows = [
        (ROW, ROW_KEY, Some(0), Some(2)),
        (ROW, STUB_KEY, Some(1), Some(2)),
        (ROW, ROW_KEY + 1, None, Some(2)),
        // The first row is deleted, and its transaction's lock is gone.
        (STUB, ROW_KEY, Some(15), Some(0)),
    ];
    for (first, key, found, free) in rows {
        let block = block_with(first);
        assert!(rt;
            find(&block, key) == found && free_cell(&block) == free,
            "key {key}"
        );
    }
}

#[test]
fn each_state(rt: HostRuntime) {
    let rows = [
        (EMPTY, 0, None, Some(15)),
        (EMPTY, 1, Some(15), Some(15)),
        (ROW, 0, Some(15), None),
        (ROW, 8, Some(15), None),
        (STUB, 0, None, Some(15)),
        (STUB, 255, Some(15), None),
        (3, 0, None, None),
    ];
    // Fifteen rows of key 0, and one cell of key 7.
    let mut block = [0; 2048];
    for c in 0..15 {
        block[416 + 92 * c] = ROW;
    }
    block[1807] = 7;
    for (state, lock, found, free) in rows {
        block[1796] = state;
        block[1797] = lock;
        assert!(rt; find(&block, 7) == found);
        assert!(rt; free_cell(&block) == free);
        assert!(rt; find(&block, 0) == Some(0));
    }
}

const CELL_BYTES: &[u8; 15] = b"\x01\x03\0\x03\x01\x02\x03\x04\x05\x06\x07\x08abc";

const ENTRY: Entry = Entry {
    kind: OPEN,
    xid: Xid {
        seg: 1,
        slot: 2,
        wrap: 3,
    },
    number: 0,
    newest: Uba {
        block: 4,
        rec: 5,
        ord: 6,
    },
    length: 7,
};

const ENTRY_BYTES: [u8; 48] = [
    1, 0, 0, 0, 0, 1, 0, 2, 0, 0, 0, 0, 0, 0, 0, 3, //
    0, 0, 0, 0, 0, 0, 0, 0, 0, 0, 0, 4, 0, 5, 0, 0, //
    0, 0, 0, 0, 0, 0, 0, 6, 0, 0, 0, 7, 0, 0, 0, 0, //
];

#[test]
fn cell_and_entry(rt: HostRuntime) {
    let mut value = ArrayVec::new();
    let _ = value.try_extend_from_slice(b"abc");
    let cell = Cell {
        state: ROW,
        lock: 3,
        key: ROW_KEY,
        value,
    };
    let mut bytes = [0; 92];
    bytes[..15].copy_from_slice(CELL_BYTES);
    let mut group = Group::new();
    group.push(1, 32, b"a");
    change(&mut group, 9, 15, &cell, 2, &ENTRY);
    let patches: [(u32, usize, &[u8]); 3] = [
        (1, 32, b"a"),
        (9, 1796, &bytes),
        (9, 128, &ENTRY_BYTES),
    ];
    assert!(rt; are_patches(&group, &patches));
}
