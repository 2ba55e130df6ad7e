//! What `MemDisk` leaves of a written file, call by call, and where it fails.
use rb_base::Failed;
use rb_disk::Disk;
use rb_memdisk::{MemDisk, Pick};
use std::alloc::Global;
use std::test::Fail;

const DOT: Pick = Pick::Fill(b'.');

fn put(disk: &mut MemDisk, at: u64, bytes: &[u8]) -> Result<(), Failed> {
    if at > disk.bytes().len() as u64 {
        return Err(Failed);
    }
    disk.write_at(at, bytes)
}

// Whether a stop after a call may leave these bytes, picked so.
fn leaves(alloc: Global, disk: &MemDisk, k: u64, pick: Pick, bytes: &[u8]) -> bool {
    if k > disk.calls() {
        return false;
    }
    match disk.image(alloc, k, pick) {
        Ok(image) => image.as_slice() == bytes,
        Err(_) => false,
    }
}

// Call 4 fails, and the record ends with call 5.
fn worked(alloc: Global) -> Result<MemDisk, Fail> {
    let mut disk = MemDisk::new(alloc, b"abcd", 16, 5, &[4])?;
    put(&mut disk, 1, b"XY")?;
    disk.sync()?;
    put(&mut disk, 4, b"EF")?;
    let _ = put(&mut disk, 0, b"QQQ");
    disk.sync()?;
    Ok(disk)
}

#[test]
fn three_picks(rt: HostRuntime) -> Result<(), Fail> {
    let alloc = rt.alloc();
    let disk = worked(alloc)?;
    let table: [(u64, &[u8], &[u8], &[u8]); 6] = [
        (0, b"abcd", b"abcd", b"abcd"),
        (1, b"abcd", b"aXYd", b"a..d"),
        (2, b"aXYd", b"aXYd", b"aXYd"),
        (3, b"aXYd", b"aXYdEF", b"aXYd.."),
        (4, b"aXYd", b"aXYdEF", b"...d.."),
        (5, b"aXYdEF", b"aXYdEF", b"aXYdEF"),
    ];
    for (k, old, new, filled) in table {
        assert!(rt; leaves(alloc, &disk, k, Pick::Old, old), "call {k}");
        assert!(rt; leaves(alloc, &disk, k, Pick::New, new), "call {k}");
        assert!(rt; leaves(alloc, &disk, k, DOT, filled), "call {k}");
    }
    Ok(())
}

#[test]
fn fails_past_its_calls(rt: HostRuntime) -> Result<(), Fail> {
    let mut disk = worked(rt.alloc())?;
    assert!(rt; disk.calls() == 5);
    assert!(rt; disk.syncs() == 2);
    assert!(rt; disk.len() == Err(Failed));
    assert!(rt; disk.calls() == 5);
    Ok(())
}

#[test]
fn fails_past_its_room(rt: HostRuntime) -> Result<(), Fail> {
    let mut disk = MemDisk::new(rt.alloc(), b"abcd", 6, 9, &[])?;
    assert!(rt; put(&mut disk, 4, b"ef") == Ok(()));
    assert!(rt; put(&mut disk, 0, b"g") == Err(Failed));
    assert!(rt; disk.bytes() == b"abcdef".as_slice());
    assert!(rt; disk.len() == Ok(6));
    assert!(rt; disk.calls() == 3);
    Ok(())
}
