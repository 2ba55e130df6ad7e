//! Texts that are numbers and texts that are none, and each field written and read again.
use crate::patches::are_patches;
use rb_base::{Group, Shape, parse_decimal, put_u16, put_u32, put_u64, u16_at, u32_at, u64_at};

#[test]
fn decimals(rt: HostRuntime) {
    let rows: [(&[u8], Option<u64>); 15] = [
        (b"0", Some(0)),
        (b"9", Some(9)),
        (b"10", Some(10)),
        (b"18446744073709551615", Some(u64::MAX)),
        (b"", None),
        (b"00", None),
        (b"01", None),
        (b"+1", None),
        (b"-1", None),
        (b"1 ", None),
        (b"18446744073709551616", None),
        (b"18446744073709551620", None),
        (b"99999999999999999999", None),
        (b"1a", None),
        (b"\xff", None),
    ];
    for (text, number) in rows {
        assert!(rt; parse_decimal(text) == number, "{text:?}");
    }
}

#[test]
fn fields(rt: HostRuntime) {
    let mut bytes = [9; 16];
    put_u16(&mut bytes, 1, 0x0102);
    put_u32(&mut bytes, 3, 0x0304_0506);
    put_u64(&mut bytes, 7, 0x0708_090a_0b0c_0d0e);
    assert!(rt; bytes == *b"\x09\x01\x02\x03\x04\x05\x06\x07\x08\x09\x0a\x0b\x0c\x0d\x0e\x09");
    assert!(rt; u16_at(&bytes, 1) == 0x0102);
    assert!(rt; u32_at(&bytes, 3) == 0x0304_0506);
    assert!(rt; u64_at(&bytes, 7) == 0x0708_090a_0b0c_0d0e);
}

#[test]
fn one_group(rt: HostRuntime) {
    let mut group = Group::new();
    assert!(rt; are_patches(&group, &[]));
    group.push(7, 32, b"ab");
    group.push(u32::MAX, 2047, b"c");
    let patches: [(u32, usize, &[u8]); 2] = [(7, 32, b"ab"), (u32::MAX, 2047, b"c")];
    assert!(rt; are_patches(&group, &patches));
    assert!(rt; are_patches(&group.copied(), &patches));
    group.clear();
    assert!(rt; are_patches(&group, &[]));
    group.push(7, 33, b"d");
    assert!(rt; are_patches(&group, &[(7, 33, b"d")]));
}

#[test]
fn room_of_a_group(rt: HostRuntime) {
    let mut many = Group::new();
    for at in 32..72 {
        assert!(rt; many.fits(1));
        many.push(0, at, b"a");
    }
    assert!(rt; !many.fits(0));
    let mut long = Group::new();
    assert!(rt; long.fits(1990));
    assert!(rt; !long.fits(1991));
    assert!(rt; !long.fits(usize::MAX));
    long.push(0, 58, &[1; 1981]);
    assert!(rt; long.fits(1));
    assert!(rt; !long.fits(2));
    long.push(0, 57, b"a");
    assert!(rt; !long.fits(0));
}

#[test]
fn homes(rt: HostRuntime) {
    let shape = Shape {
        tables: 2,
        blocks: 2,
        segments: 1,
    };
    for (table, key, block) in [(1, 0, 0), (1, 1, 1), (2, 0, 2), (2, u64::MAX, 3)] {
        assert!(rt; shape.home_block(table, key) == block);
    }
}
