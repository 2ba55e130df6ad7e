//! Blocks of a small file by their bytes, worked by hand, fresh and patched. Each call goes through the trait.
ghost use Rattle.std.specs.Prelude.{◌≡◌, ◌+◌, ◌<◌, ◌≤◌, ◌^◌, OnOk, false, length};
ghost use Rattle.rb_base.specs.Blocks.{AreWithin};

use rb_base::{BlockNo, Failed, Group, Lsn, Shape, Store, UNIT};
use rb_plainstore::PlainStore;
use std::test::Fail;

/// A table of one block, 0, and a segment: its header, 1, and undo blocks 2 to 33.
const SMALL: Shape = Shape {
    tables: 1,
    blocks: 1,
    segments: 1,
};

/// Two tables of three blocks, 0 to 5, and two segments with the headers 6 and 39.
const LARGER: Shape = Shape {
    tables: 2,
    blocks: 3,
    segments: 2,
};

/// A block of these bytes at these places, and else zeros.
fn block_of(places: &[(usize, u8)]) -> [u8; UNIT] {
    let mut block = [0; UNIT];
    for (place, byte) in places {
        if let Some(at) = block.get_mut(*place) {
            *at = *byte;
        }
    }
    block
}

/// Whether a block of the file reads as these bytes at these places, and else zeros.
fn reads<S: Store>(store: &mut S, no: BlockNo, places: &[(usize, u8)]) -> bool
    requires { S.failed store.old ≡ false }
{
    no < store.shape().block_count()
        && store.load(no).is_ok()
        && store.block() == block_of(places).as_slice()
}

/// Applies a group, and answers its log number.
fn applied<S: Store>(store: &mut S, group: &Group) -> Result<Lsn, Failed>
    requires going { S.failed store.old ≡ false }
    requires some { 0 < length group.now }
    requires within { AreWithin (S.shape_of store.old) group.now }
    requires few { S.lsn store.old < 2 ^ 62 }
    ensures shape { S.shape_of store.new ≡ S.shape_of store.old }
    ensures number { OnOk result (S.lsn store.new ≡ S.lsn store.old + 1) }
{
    store.apply(group)?;
    Ok(store.logged())
}

/// Flushes twice, and answers the last log number.
fn flushed<S: Store>(store: &mut S) -> Result<Lsn, Failed>
    requires { S.failed store.old ≡ false }
{
    store.flush()?;
    store.checkpoint()?;
    Ok(store.logged())
}

#[test]
fn fresh(rt: HostRuntime) -> Result<(), Fail> {
    let mut store = PlainStore::new(rt.alloc(), SMALL)?;
    let rows: [(BlockNo, &[(usize, u8)]); 4] = [
        (0, &[(8, 1)]),
        (1, &[(8, 2), (15, 1), (1063, 2), (1095, 1)]),
        (2, &[(8, 3), (15, 2)]),
        (33, &[(8, 3), (15, 33)]),
    ];
    for (no, places) in rows {
        assert!(rt; reads(&mut store, no, places), "block {no}");
    }
    Ok(())
}

#[test]
fn fresh_segments(rt: HostRuntime) -> Result<(), Fail> {
    let mut store = PlainStore::new(rt.alloc(), LARGER)?;
    let rows: [(BlockNo, &[(usize, u8)]); 5] = [
        (5, &[(8, 1), (15, 5)]),
        (6, &[(8, 2), (15, 6), (1063, 2), (1095, 1)]),
        (38, &[(8, 3), (15, 38)]),
        (39, &[(8, 2), (15, 39), (1063, 2), (1095, 1)]),
        (71, &[(8, 3), (15, 71)]),
    ];
    for (no, places) in rows {
        assert!(rt; reads(&mut store, no, places), "block {no}");
    }
    Ok(())
}

#[test]
fn patched(rt: HostRuntime) -> Result<(), Fail> {
    let mut store = PlainStore::new(rt.alloc(), SMALL)?;
    let mut group = Group::new();
    group.push(0, 32, b"ab");
    group.push(33, 2046, b"yz");
    group.push(0, 33, b"c");
    assert!(rt; applied(&mut store, &group) == Ok(1));
    let mut group = Group::new();
    group.push(33, 2045, b"xY");
    assert!(rt; applied(&mut store, &group) == Ok(2));
    let rows: [(BlockNo, &[(usize, u8)]); 3] = [
        (0, &[(7, 1), (8, 1), (32, b'a'), (33, b'c')]),
        (2, &[(8, 3), (15, 2)]),
        (
            33,
            &[
                (7, 2),
                (8, 3),
                (15, 33),
                (2045, b'x'),
                (2046, b'Y'),
                (2047, b'z'),
            ],
        ),
    ];
    for (no, places) in rows {
        assert!(rt; reads(&mut store, no, places), "block {no}");
    }
    assert!(rt; flushed(&mut store) == Ok(2));
    Ok(())
}
