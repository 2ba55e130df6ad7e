//! Extents and the numbers of a ring by their bytes, and where the next record of a segment goes.
use crate::patches::are_patches;
use rb_base::{Group, set};
use rb_ring::{
    EXTENTS, Extent, HEAD_AT, LOST_AT, Turn, WRITES_AT, extent_at, extent_bytes, extent_place,
    head_bytes, head_extent, head_records, lost, next, number_bytes, writes,
};

const EXTENT: Extent = Extent {
    ord: 0x0102_0304_0506_0708,
    newest: 0x090a_0b0c_0d0e_0f10,
};

const EXTENT_BYTES: &[u8; 16] = b"\x01\x02\x03\x04\x05\x06\x07\x08\x09\x0a\x0b\x0c\x0d\x0e\x0f\x10";

/// Whether an extent is written as its bytes at a place, into a header and as one patch, and read of them.
fn is_spelled(e: u8, place: usize) -> bool {
    if e as usize >= EXTENTS || place > 2032 {
        return false;
    }
    let mut expected = [9; 2048];
    expected[place..place + 16].copy_from_slice(EXTENT_BYTES);
    let mut header = [9; 2048];
    let mut group = Group::new();
    let at = extent_place(e as usize);
    set(&mut header, 10, &mut group, at, &extent_bytes(EXTENT));
    header == expected
        && extent_at(&header, e) == EXTENT
        && are_patches(&group, &[(10, place, EXTENT_BYTES)])
}

#[test]
fn worked_extents(rt: HostRuntime) {
    for (e, place) in [(0, 1056), (1, 1088), (6, 1248), (7, 1280)] {
        assert!(rt; is_spelled(e, place), "extent {e}");
    }
}

#[test]
fn worked_numbers(rt: HostRuntime) {
    let bytes = [
        1, 2, 3, 4, 9, 9, 9, 9, // head, its records
        5, 6, 7, 8, 9, 10, 11, 12, // records
        13, 14, 15, 16, 17, 18, 19, 20, // lost
    ];
    let mut expected = [9; 2048];
    expected[1312..1336].copy_from_slice(&bytes);
    let mut header = [9; 2048];
    let mut group = Group::new();
    set(
        &mut header,
        10,
        &mut group,
        HEAD_AT,
        &head_bytes(0x0102, 0x0304),
    );
    set(
        &mut header,
        10,
        &mut group,
        WRITES_AT,
        &number_bytes(0x0506_0708_090a_0b0c),
    );
    set(
        &mut header,
        10,
        &mut group,
        LOST_AT,
        &number_bytes(0x0d0e_0f10_1112_1314),
    );
    assert!(rt; header == expected);
    let patches: [(u32, usize, &[u8]); 3] = [
        (10, 1312, &bytes[..4]),
        (10, 1320, &bytes[8..16]),
        (10, 1328, &bytes[16..]),
    ];
    assert!(rt; are_patches(&group, &patches));
    assert!(rt; head_extent(&header) == 0x0102 && head_records(&header) == 0x0304);
    assert!(rt; writes(&header) == 0x0506_0708_090a_0b0c);
    assert!(rt; lost(&header) == 0x0d0e_0f10_1112_1314);
}

// A transaction of table slot 0 began in turn 1, that of extent 1, and runs or not, by its state.
#[test]
fn turns(rt: HostRuntime) {
    let rows = [
        (39, 1, 0, Turn::Same),
        (40, 2, 0, Turn::Reuse { extent: 1 }),
        (40, 1, 0, Turn::Grow { extent: 2 }),
        (40, 1, 5, Turn::Full),
        (40, 3, 5, Turn::Reuse { extent: 1 }),
        (41, 2, 5, Turn::Reuse { extent: 1 }),
    ];
    for (records, state, more, expected) in rows {
        let mut header = [0; 2048];
        header[32] = state;
        header[33] = 2;
        header[87] = 1;
        header[1063] = 2;
        header[1095] = 1;
        for byte in [1127, 1159, 1191, 1223, 1255, 1287] {
            header[byte] = more;
        }
        header[1312..1316].copy_from_slice(&head_bytes(0, records));
        assert!(rt; next(&header) == expected, "{records} records");
    }
}
