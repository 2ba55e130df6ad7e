//! Cells by their bytes, written out by hand.
use crate::patches::are_patches;
use arrayvec::ArrayVec;
use rb_base::{BlockNo, Group};
use rb_cell::{CELLS, Cell, EMPTY, ROW, STUB, cell_bytes, cell_place, cells, lock_place};

/// The bytes in front of the zeros of an unlocked row: its key in 8 bytes after the length 3.
const ROW_BYTES: &[u8; 15] = b"\x01\0\0\x03\x01\x02\x03\x04\x05\x06\x07\x08abc";

/// The same of a deleted row that entry 7 has locked.
const STUB_BYTES: &[u8; 12] = b"\x02\x08\0\0\xff\xff\xff\xff\xff\xff\xff\xfe";

const ROW_KEY: u64 = 0x0102030405060708;

const STUB_KEY: u64 = u64::MAX - 1;

/// Whether a cell of a block reads so.
pub(crate) fn reads(
    block: &[u8; 2048],
    c: u8,
    state: u8,
    lock: u8,
    key: u64,
    value: &[u8],
) -> bool {
    if c >= CELLS {
        return false;
    }
    let cell = cells(block, c);
    cell.state == state && cell.lock == lock && cell.key == key && cell.value.as_slice() == value
}

#[test]
fn three_states_read(rt: HostRuntime) {
    let mut block = [0; 2048];
    block[508..523].copy_from_slice(ROW_BYTES);
    block[1796..1808].copy_from_slice(STUB_BYTES);
    let rows: [(u8, u8, u8, u64, &[u8]); 3] = [
        (1, ROW, 0, ROW_KEY, b"abc"),
        (15, STUB, 8, STUB_KEY, b""),
        (0, EMPTY, 0, 0, b""),
    ];
    for (c, state, lock, key, value) in rows {
        assert!(rt; reads(&block, c, state, lock, key, value), "cell {c}");
    }
}

#[test]
fn lengths_read(rt: HostRuntime) {
    // The 80 value bytes of cell 0 begin and end with an x, and cell 1 begins with a z.
    let mut block = [0; 2048];
    block[428] = b'x';
    block[507] = b'x';
    block[508] = b'z';
    let rows: [(u8, u8, usize); 6] = [
        (0, 0, 0),
        (0, 1, 1),
        (0, 80, 80),
        (0, 81, 80),
        (1, 0, 80),
        (255, 255, 80),
    ];
    for (high, low, expected) in rows {
        block[418] = high;
        block[419] = low;
        let cell = cells(&block, 0);
        assert!(rt; cell.value.as_slice() == &block[428..428 + expected]);
    }
}

/// Whether a cell of this state, lock, key and value is written as one patch from a byte on: these bytes, and zeros or
/// what else fills the 92 of it.
fn is_written(block: BlockNo, c: u8, cell: &Cell, at: usize, front: &[u8], fill: u8) -> bool {
    let mut bytes = [fill; 92];
    if c >= CELLS || front.len() > 92 {
        return false;
    }
    bytes[..front.len()].copy_from_slice(front);
    let mut group = Group::new();
    group.push(block, cell_place(c) as u16, &cell_bytes(cell));
    are_patches(&group, &[(block, at, &bytes)])
}

fn cell_with(state: u8, lock: u8, key: u64, bytes: &[u8]) -> Cell {
    let mut value = ArrayVec::new();
    let _ = value.try_extend_from_slice(bytes);
    Cell {
        state,
        lock,
        key,
        value,
    }
}

// The last one has the longest value.
#[test]
fn states_written(rt: HostRuntime) {
    let row = cell_with(ROW, 0, ROW_KEY, b"abc");
    assert!(rt; is_written(7, 1, &row, 508, ROW_BYTES, 0));
    let stub = cell_with(STUB, 8, STUB_KEY, b"");
    assert!(rt; is_written(0, 15, &stub, 1796, STUB_BYTES, 0));
    let empty = cell_with(EMPTY, 0, 0, b"");
    assert!(rt; is_written(u32::MAX, 0, &empty, 416, b"", 0));
    let long = cell_with(ROW, 1, 3, &[b'v'; 80]);
    let front = b"\x01\x01\0\x50\0\0\0\0\0\0\0\x03";
    assert!(rt; is_written(1, 2, &long, 600, front, b'v'));
}

#[test]
fn lock_written(rt: HostRuntime) {
    let mut group = Group::new();
    group.push(9, lock_place(15) as u16, &[8]);
    assert!(rt; are_patches(&group, &[(9, 1797, &[8])]));
}
