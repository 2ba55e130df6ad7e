//! Groups by their bytes, and bytes that are those of no group.
use crate::patches::are_patches;
use rb_base::{BlockNo, Group};
use rb_group::{decode, encode};

/// One patch of block 0: the byte 1 at 416.
const ONE: &[u8; 11] = b"\0\x01\0\0\0\0\x01\xa0\0\x01\x01";

/// Whether these bytes are those of a group of these patches, and are written of it again, and nothing behind them.
fn spells(bytes: &[u8], patches: &[(BlockNo, usize, &[u8])]) -> bool {
    let mut group = Group::new();
    if !decode(bytes, &mut group) || group.patches() == 0 {
        return false;
    }
    let mut again = [9; 2000];
    let length = encode(&group, &mut again);
    are_patches(&group, patches)
        && length == bytes.len()
        && again.starts_with(bytes)
        && again.get(length).copied() == Some(9)
}

/// Whether these bytes are those of a group.
fn is_group(bytes: &[u8]) -> bool {
    decode(bytes, &mut Group::new())
}

#[test]
fn spelled_groups(rt: HostRuntime) {
    assert!(rt; spells(ONE, &[(0, 416, &[1])]));
    let two = b"\0\x02\xff\xff\xff\xff\x07\xff\0\x01a\0\0\0\x02\0\x20\0\x03bcd";
    assert!(rt; spells(two, &[(u32::MAX, 2047, b"a"), (2, 32, b"bcd")]));
}

#[test]
fn groups_and_others(rt: HostRuntime) {
    let rows: [(&[u8], bool); 15] = [
        (ONE, true),
        (b"", false),
        (b"\0", false),
        (b"\0\0", false),
        (b"\0\0\0\0\0\0\x01\xa0\0\x01\x01", false),
        (b"\0\x02\0\0\0\0\x01\xa0\0\x01\x01", false),
        (b"\x01\0\0\0\0\0\x01\xa0\0\x01\x01", false),
        (b"\0\x01\0\0\0\0\x01\xa0\0\0", false),
        (b"\0\x01\0\0\0\0\0\x20\0\x01\x01", true),
        (b"\0\x01\0\0\0\0\0\x1f\0\x01\x01", false),
        (b"\0\x01\0\0\0\0\x07\xff\0\x01\x01", true),
        (b"\0\x01\0\0\0\0\x08\0\0\x01\x01", false),
        (b"\0\x01\0\0\0\0\x07\xff\0\x02\x01\x01", false),
        (b"\0\x01\0\0\0\0\x01\xa0\0\x01\x01\0", false),
        (b"\0\x01\0\0\0\0\x01\xa0\0\x01", false),
    ];
    for (bytes, expected) in rows {
        assert!(rt; is_group(bytes) == expected, "{bytes:?}");
    }
}

#[test]
fn longest_patch(rt: HostRuntime) {
    // One patch from 32 on, of 1,990 bytes and of 1,991.
    let mut long = [0; 2001];
    long[1] = 1;
    long[7] = 32;
    long[8] = 0x07;
    long[9] = 0xc6;
    assert!(rt; is_group(&long[..2000]));
    long[9] = 0xc7;
    assert!(rt; !is_group(&long));
}

/// The bytes of 41 patches, each of one byte, after a count.
fn small_patches(count: u8) -> [u8; 371] {
    let mut bytes = [0; 371];
    bytes[1] = count;
    for i in 0..41 {
        let patch = 2 + 9 * i;
        bytes[patch + 5] = 32;
        bytes[patch + 7] = 1;
    }
    bytes
}

#[test]
fn most_patches(rt: HostRuntime) {
    assert!(rt; is_group(&small_patches(40)[..362]));
    assert!(rt; !is_group(&small_patches(41)));
}
