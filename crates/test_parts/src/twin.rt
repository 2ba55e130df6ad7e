//! The bytes of a twin area, and what a stop at each call of a batch's write leaves.
ghost use Rattle.std.specs.Prelude.{◌≡◌, ◌<◌, [], length, IfOk};

use crate::untold::{Untold, disk_of};
use rb_base::{Failed, OpenFault, UNIT};
use rb_layout::Layout;
use rb_memdisk::{MemDisk, Pick};
use rb_twin::Twin;
use std::alloc::Global;
use std::test::Fail;

/// The bytes of a file of 64 log slots and 34 blocks.
const FILE: usize = 227_328;

/// Where its twin area begins.
const AREA: usize = 139_264;

/// The unit of its first block.
const FIRST: usize = 77;

/// A batch of blocks 33 and 5 in the header: the gate, the count, and from byte 8 on the numbers.
const HEADER: &[u8; 16] = b"\x01\x02\0\0\0\0\0\0\0\0\0\x21\0\0\0\x05";

/// An empty batch.
fn new_twin(alloc: Global) -> Result<Twin, Fail>
    ensures empty { IfOk result (λ twin. twin.batch ≡ []) }
    ensures tables { IfOk result (λ twin. twin.layout.tables ≡ 1) }
    ensures blocks { IfOk result (λ twin. twin.layout.blocks ≡ 1) }
    ensures segments { IfOk result (λ twin. twin.layout.segments ≡ 1) }
{
    let layout = Layout::new(1, 1, 1, 64).ok_or("a layout")?;
    let twin = Twin::new(alloc, &layout)?;
    Ok(twin)
}

/// Whether each byte of a unit is this one.
fn is_filled(bytes: &[u8], unit: usize, byte: u8) -> bool
    requires { unit < 111 }
{
    let from = UNIT * unit;
    match bytes.get(from..from + UNIT) {
        Some(part) => part == [byte; UNIT].as_slice(),
        None => false,
    }
}

/// Fills an empty batch with blocks 33 and 5.
fn put_two(twin: &mut Twin)
    requires empty { twin.old.batch ≡ [] }
    requires tables { twin.old.layout.tables ≡ 1 }
    requires blocks { twin.old.layout.blocks ≡ 1 }
    requires segments { twin.old.layout.segments ≡ 1 }
    ensures two { length twin.new.batch ≡ 2 }
    ensures layout { twin.new.layout ≡ twin.old.layout }
{
    twin.put(33, &[10; UNIT]);
    twin.put(5, &[11; UNIT]);
}

/// Writes a batch to a disk that fails in between.
fn write_in_part(twin: &mut Twin, disk: &mut Untold) -> Result<(), Fail>
    requires { 0 < length twin.old.batch }
{
    match twin.write(disk) {
        Err(Failed) => Ok(()),
        Ok(()) => Err(Fail::new("nothing failed")),
    }
}

#[test]
fn bytes_of_a_batch(rt: HostRuntime) -> Result<(), Fail> {
    let zeros = vec![in rt.alloc(); 0; FILE]?;
    // Call 5 writes the first block home.
    let mut disk = disk_of(rt.alloc(), &zeros, &[5])?;
    let mut twin = new_twin(rt.alloc())?;
    put_two(&mut twin);
    write_in_part(&mut twin, &mut disk)?;
    let bytes = disk.disk.bytes();
    assert!(rt; bytes.get(AREA..AREA + 16) == Some(HEADER.as_slice()));
    assert!(rt; bytes.get(AREA + 16..AREA + UNIT) == Some([0; UNIT - 16].as_slice()));
    assert!(rt; is_filled(bytes, 69, 10));
    assert!(rt; is_filled(bytes, 70, 11));
    assert!(rt; is_filled(bytes, FIRST + 33, 0));
    Ok(())
}

/// The header of a batch of block 1, which is written after one of two blocks.
const NEXT_HEADER: &[u8; 12] = b"\x01\x01\0\0\0\0\0\0\0\0\0\x01";

#[test]
fn bytes_of_the_next_batch(rt: HostRuntime) -> Result<(), Fail> {
    let zeros = vec![in rt.alloc(); 0; FILE]?;
    // The first batch takes nine calls.
    let mut disk = disk_of(rt.alloc(), &zeros, &[14])?;
    let mut twin = new_twin(rt.alloc())?;
    put_two(&mut twin);
    twin.write(&mut disk)?;
    twin.put(1, &[12; UNIT]);
    write_in_part(&mut twin, &mut disk)?;
    let bytes = disk.disk.bytes();
    assert!(rt; bytes.get(AREA..AREA + 12) == Some(NEXT_HEADER.as_slice()));
    assert!(rt; bytes.get(AREA + 12..AREA + UNIT) == Some([0; UNIT - 12].as_slice()));
    assert!(rt; is_filled(bytes, 69, 12));
    assert!(rt; is_filled(bytes, FIRST + 33, 10));
    assert!(rt; is_filled(bytes, FIRST + 5, 11));
    Ok(())
}

/// What a file keeps after a repair: its blocks as they were, as the batch has them, or neither, or an open gate.
#[derive(Clone, Copy, Debug, PartialEq, Eq)]
enum Kept {
    Old,
    New,
    Neither,
}

/// What a repair of an image keeps of the blocks 33 and 5.
fn kept_by(alloc: Global, image: &[u8]) -> Result<Kept, Fail> {
    let mut disk = disk_of(alloc, image, &[])?;
    let mut twin = new_twin(alloc)?;
    if twin.repair(&mut disk).is_err() {
        return Ok(Kept::Neither);
    }
    let bytes = disk.disk.bytes();
    let is_shut = bytes.get(AREA) != Some(&1);
    if is_shut && is_filled(bytes, FIRST + 33, 10) && is_filled(bytes, FIRST + 5, 11) {
        Ok(Kept::New)
    } else if is_shut && is_filled(bytes, FIRST + 33, 0) && is_filled(bytes, FIRST + 5, 0) {
        Ok(Kept::Old)
    } else {
        Ok(Kept::Neither)
    }
}

/// What is kept where the disk stops after a call, picked so.
fn kept_after(alloc: Global, disk: &MemDisk, k: u64, pick: Pick) -> Result<Kept, Fail> {
    if k > disk.calls() {
        return Ok(Kept::Neither);
    }
    let image = disk.image(alloc, k, pick)?;
    kept_by(alloc, &image)
}

#[test]
fn stop_at_each_call(rt: HostRuntime) -> Result<(), Fail> {
    let alloc = rt.alloc();
    let zeros = vec![in alloc; 0; FILE]?;
    let mut disk = disk_of(alloc, &zeros, &[])?;
    let mut twin = new_twin(alloc)?;
    put_two(&mut twin);
    twin.write(&mut disk)?;
    // Two images and the header, and a sync; the gate, and a sync; two blocks, and a sync; the gate, and a sync.
    assert!(rt; disk.disk.calls() == 9);
    for k in 0..10 {
        let later = if k < 3 { Kept::Old } else { Kept::New };
        let earlier = if k < 4 { Kept::Old } else { Kept::New };
        assert!(rt;
            kept_after(alloc, &disk.disk, k, Pick::Old)? == earlier,
            "call {k}"
        );
        assert!(rt;
            kept_after(alloc, &disk.disk, k, Pick::New)? == later,
            "call {k}"
        );
        assert!(rt;
            kept_after(alloc, &disk.disk, k, Pick::Fill(1))? == later,
            "call {k}"
        );
    }
    Ok(())
}

/// What a repair answers of a file whose twin area begins so, and how many syncs it makes.
fn repaired(alloc: Global, area: &[u8; 16]) -> Result<(Result<(), OpenFault>, u64), Fail> {
    let mut file = vec![in alloc; 0u8; FILE]?;
    file[AREA..AREA + 16].copy_from_slice(area);
    let mut disk = disk_of(alloc, &file, &[])?;
    let mut twin = new_twin(alloc)?;
    let answer = twin.repair(&mut disk);
    if answer.is_err() && disk.disk.bytes() != file.as_slice() {
        return Err(Fail::new("a refused file was written to"));
    }
    Ok((answer, disk.disk.syncs()))
}

#[test]
fn foreign_areas(rt: HostRuntime) -> Result<(), Fail> {
    let none = (Err(OpenFault::NotAStore), 0);
    assert!(rt;
        repaired(rt.alloc(), b"\x01\0\0\0\0\0\0\0\0\0\0\0\0\0\0\0")? == none,
        "no image"
    );
    assert!(rt;
        repaired(rt.alloc(), b"\x01\x09\0\0\0\0\0\0\0\0\0\0\0\0\0\x01")? == none,
        "nine"
    );
    assert!(rt;
        repaired(rt.alloc(), b"\x01\x02\0\0\0\0\0\0\0\0\0\x05\0\0\0\x05")? == none,
        "twice"
    );
    assert!(rt;
        repaired(rt.alloc(), b"\x01\x02\0\0\0\0\0\0\0\0\0\x22\0\0\0\x05")? == none,
        "outside"
    );
    assert!(rt; repaired(rt.alloc(), b"\x02\x02\0\0\0\0\0\0\0\0\0\x05\0\0\0\x05")? == (Ok(()), 0));
    assert!(rt; repaired(rt.alloc(), HEADER)? == (Ok(()), 2));
    Ok(())
}
