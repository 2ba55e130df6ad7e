//! Table slots by their bytes, how a transaction stands by its slot, and which slot the next one takes.
use crate::patches::are_patches;
use rb_base::{ACTIVE, Group, SLOTS, Uba, Xid, set};
use rb_txntable::{
    COMMITTED, ENDED, Look, TableSlot, active, choose, look, running, slot_at, slot_bytes,
    slot_place,
};

/// The seventh transaction of its slot, as it committed at 9 with three live records, in extents 0 and 2.
const SLOT: TableSlot = TableSlot {
    state: COMMITTED,
    touched: 0b101,
    live: 3,
    wrap: 7,
    newest: 9,
    before: 4,
    newest_at: Uba {
        block: 5,
        rec: 3,
        ord: 2,
    },
    first: 2,
    start: 41,
};

const SLOT_BYTES: [u8; 64] = [
    2, 5, 0, 0, 0, 0, 0, 3, // state, touched extents, live records
    0, 0, 0, 0, 0, 0, 0, 7, // wrap
    0, 0, 0, 0, 0, 0, 0, 9, // newest commit number
    0, 0, 0, 0, 0, 0, 0, 4, // the one before
    0, 0, 0, 5, 0, 3, 0, 0, // undo block, record
    0, 0, 0, 0, 0, 0, 0, 2, // extent's number
    0, 0, 0, 0, 0, 0, 0, 2, // the first record's extent
    0, 0, 0, 0, 0, 0, 0, 41, // records before it
];

/// Whether a slot is written as these bytes at a place, into a header and as one patch, and read of them.
fn is_spelled(i: u8, place: usize, slot: &TableSlot, bytes: &[u8; 64]) -> bool {
    if i as usize >= SLOTS || place > 1984 {
        return false;
    }
    let mut expected = [0; 2048];
    expected[place..place + 64].copy_from_slice(bytes);
    let mut header = [0; 2048];
    let mut group = Group::new();
    let at = slot_place(i as usize);
    set(&mut header, 10, &mut group, at, &slot_bytes(*slot));
    header == expected && slot_at(&header, i) == *slot && are_patches(&group, &[(10, place, bytes)])
}

#[test]
fn worked_slots(rt: HostRuntime) {
    assert!(rt; is_spelled(0, 32, &TableSlot::default(), &[0; 64]));
    assert!(rt; is_spelled(1, 96, &SLOT, &SLOT_BYTES));
    assert!(rt; is_spelled(15, 992, &SLOT, &SLOT_BYTES));
}

// By the slot's state and the wrap that is asked for, where the slot's own is 7.
#[test]
fn looks(rt: HostRuntime) {
    let rows = [
        (0, 8, Look::Active),
        (ACTIVE, 8, Look::Active),
        (COMMITTED, 8, Look::Active),
        (ENDED, 8, Look::Active),
        (ACTIVE, 7, Look::Active),
        (COMMITTED, 7, Look::At(9)),
        (ENDED, 7, Look::Before(9)),
        (ACTIVE, 6, Look::Before(9)),
        (COMMITTED, 6, Look::Before(4)),
        (ENDED, 6, Look::Before(9)),
        (COMMITTED, 0, Look::Before(4)),
    ];
    for (state, wrap, expected) in rows {
        let xid = Xid {
            seg: 0,
            slot: 1,
            wrap,
        };
        let mut header = [0; 2048];
        header[96..160].copy_from_slice(&slot_bytes(TableSlot { state, ..SLOT }));
        assert!(rt; look(&header, xid) == expected, "{state}, {wrap}");
        let runs = state == ACTIVE && wrap == 7;
        assert!(rt; running(&header, xid).is_some() == runs, "{state}, {wrap}");
    }
}

/// A header of sixteen slots like this one.
fn header_of_slots(slot: &TableSlot) -> [u8; 2048] {
    let mut header = [0; 2048];
    for i in 0..16 {
        let at = slot_place(i);
        header[at..at + 64].copy_from_slice(&slot_bytes(*slot));
    }
    header
}

#[test]
fn chosen_slots(rt: HostRuntime) {
    // One slot after another is changed: those that run, and the one that is taken next.
    let rows = [
        (7, COMMITTED, 9, 0, 0),
        (5, COMMITTED, 3, 0, 5),
        (11, ENDED, 3, 0, 5),
        (5, ACTIVE, 3, 1, 11),
        (2, ENDED, 3, 1, 2),
        (2, COMMITTED, 10, 1, 11),
        (11, ACTIVE, 0, 2, 0),
        (0, ACTIVE, 9, 3, 1),
        (15, 0, 0, 3, 15),
    ];
    let mut header = header_of_slots(&SLOT);
    for (i, state, newest, running, chosen) in rows {
        let slot = TableSlot {
            state,
            newest,
            ..SLOT
        };
        let at = slot_place(i);
        header[at..at + 64].copy_from_slice(&slot_bytes(slot));
        assert!(rt;
            active(&header) == running && choose(&header) == Some(chosen),
            "slot {i}"
        );
    }
    let full = header_of_slots(&TableSlot {
        state: ACTIVE,
        ..SLOT
    });
    assert!(rt; active(&full) == 16 && choose(&full) == None);
    assert!(rt; choose(&[0; 2048]) == Some(0));
}
