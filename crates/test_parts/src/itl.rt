//! Entries by their bytes, worked by hand.
use crate::patches::are_patches;
use rb_base::{Group, Uba, Xid};
use rb_itl::{BOUND, ENTRIES, EXACT, Entry, FREE, OPEN, entry, entry_bytes, entry_place};

/// Segment 2, slot 15, the 7th transaction there: open, with 3 records, the newest in block 0x01020304 at place 9.
const OPEN_ENTRY: Entry = Entry {
    kind: OPEN,
    xid: Xid {
        seg: 2,
        slot: 15,
        wrap: 7,
    },
    number: 0,
    newest: Uba {
        block: 0x0102_0304,
        rec: 9,
        ord: 0x0506_0708_090a_0b0c,
    },
    length: 3,
};

const OPEN_BYTES: [u8; 48] = [
    1, 0, 0, 0, 0, 2, 0, 15, // kind, segment, slot
    0, 0, 0, 0, 0, 0, 0, 7, // wrap
    0, 0, 0, 0, 0, 0, 0, 0, // number
    1, 2, 3, 4, 0, 9, 0, 0, // undo block, record
    5, 6, 7, 8, 9, 10, 11, 12, // extent's number
    0, 0, 0, 3, 0, 0, 0, 0, // chain's length
];

/// The first commit of all: segment 0, slot 0, the first transaction there, at number 1.
const EXACT_ENTRY: Entry = Entry {
    kind: EXACT,
    xid: Xid {
        seg: 0,
        slot: 0,
        wrap: 1,
    },
    number: 1,
    newest: Uba {
        block: 16,
        rec: 0,
        ord: 1,
    },
    length: 1,
};

const EXACT_BYTES: [u8; 48] = [
    2, 0, 0, 0, 0, 0, 0, 0, //
    0, 0, 0, 0, 0, 0, 0, 1, //
    0, 0, 0, 0, 0, 0, 0, 1, //
    0, 0, 0, 16, 0, 0, 0, 0, //
    0, 0, 0, 0, 0, 0, 0, 1, //
    0, 0, 0, 1, 0, 0, 0, 0, //
];

/// At 0x0102 or before.
const BOUND_ENTRY: Entry = Entry {
    kind: BOUND,
    xid: Xid {
        seg: 0x0a0b,
        slot: 0x0c0d,
        wrap: 0x0e0f,
    },
    number: 0x0102,
    newest: Uba {
        block: 0x1112,
        rec: 0x1314,
        ord: 0x1516,
    },
    length: 0x1718_191a,
};

const BOUND_BYTES: [u8; 48] = [
    3, 0, 0, 0, 10, 11, 12, 13, //
    0, 0, 0, 0, 0, 0, 14, 15, //
    0, 0, 0, 0, 0, 0, 1, 2, //
    0, 0, 17, 18, 19, 20, 0, 0, //
    0, 0, 0, 0, 0, 0, 21, 22, //
    23, 24, 25, 26, 0, 0, 0, 0, //
];

/// The greatest value of each field.
const GREATEST_ENTRY: Entry = Entry {
    kind: u8::MAX,
    xid: Xid {
        seg: u16::MAX,
        slot: u16::MAX,
        wrap: u64::MAX,
    },
    number: u64::MAX,
    newest: Uba {
        block: u32::MAX,
        rec: u16::MAX,
        ord: u64::MAX,
    },
    length: u32::MAX,
};

const GREATEST_BYTES: [u8; 48] = [
    255, 0, 0, 0, 255, 255, 255, 255, //
    255, 255, 255, 255, 255, 255, 255, 255, //
    255, 255, 255, 255, 255, 255, 255, 255, //
    255, 255, 255, 255, 255, 255, 0, 0, //
    255, 255, 255, 255, 255, 255, 255, 255, //
    255, 255, 255, 255, 0, 0, 0, 0, //
];

/// Whether an entry has these bytes at its place, and is read of them.
fn is_spelled(i: u8, value: &Entry, bytes: &[u8; 48]) -> bool {
    if i >= ENTRIES {
        return false;
    }
    let place = 32 + 48 * i as usize;
    let mut block = [9; 2048];
    block[place..place + 48].copy_from_slice(bytes);
    entry_place(i) == place && entry_bytes(*value) == *bytes && entry(&block, i) == *value
}

#[test]
fn worked_entries(rt: HostRuntime) {
    assert!(rt; is_spelled(0, &Entry::default(), &[0; 48]));
    assert!(rt; is_spelled(1, &OPEN_ENTRY, &OPEN_BYTES));
    assert!(rt; is_spelled(4, &EXACT_ENTRY, &EXACT_BYTES));
    assert!(rt; is_spelled(6, &BOUND_ENTRY, &BOUND_BYTES));
    assert!(rt; is_spelled(7, &GREATEST_ENTRY, &GREATEST_BYTES));
    assert!(rt; Entry::default().kind == FREE);
}

#[test]
fn meaningless_bytes(rt: HostRuntime) {
    let mut block = [9; 2048];
    block[368..416].copy_from_slice(&OPEN_BYTES);
    for at in [369, 370, 371, 398, 399, 412, 413, 414, 415] {
        block[at] = 1;
    }
    assert!(rt; entry(&block, 7) == OPEN_ENTRY);
    assert!(rt; entry(&block, 6).number == 0x0909_0909_0909_0909);
}

#[test]
fn entries_behind_others(rt: HostRuntime) {
    let mut group = Group::new();
    group.push(1, 416, &[1]);
    group.push(u32::MAX, entry_place(0) as u16, &entry_bytes(OPEN_ENTRY));
    group.push(0, entry_place(7) as u16, &entry_bytes(EXACT_ENTRY));
    let patches: [(u32, usize, &[u8]); 3] = [
        (1, 416, &[1]),
        (u32::MAX, 32, &OPEN_BYTES),
        (0, 368, &EXACT_BYTES),
    ];
    assert!(rt; are_patches(&group, &patches));
}
