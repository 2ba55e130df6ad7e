//! What a store over a cache reads, and what its file opens to.
ghost use Rattle.std.specs.Prelude.{◌≡◌, ◌≤◌, false, IfOk};

use crate::groups::{GROUPS, SHAPE, SLOTS, give_all, in_memory, new_file, read_the_same};
use rb_base::{NoMemory, OpenFault, Store};
use rb_layout::Layout;
use rb_memdisk::{MemDisk, Pick};
use rb_store::LogStore;
use std::alloc::Global;
use std::test::Fail;

/// More calls of a disk than any test makes.
const CALLS: usize = 5_000;

/// Room for what a disk writes in a test.
const WRITTEN: u64 = 8_000_000;

/// The store of a file's bytes through so many frames, on a disk that fails behind so many calls; or the disk.
fn open_file(
    alloc: Global,
    file: &[u8],
    frames: u32,
    calls: usize,
) -> Result<Result<LogStore<MemDisk>, (OpenFault, MemDisk)>, NoMemory>
    requires some { 16 ≤ frames }
    requires few { frames ≤ 4096 }
    ensures { IfOk result (λ opened. IfOk opened (λ store. store.failed ≡ false)) }
{
    if file.len() as u64 > WRITTEN {
        return Err(NoMemory);
    }
    let disk = MemDisk::new(alloc, file, WRITTEN, calls, &[])?;
    Ok(LogStore::open(alloc, disk, frames))
}

/// A new file of the layout that the tests have.
fn fresh(alloc: Global) -> Result<Vec<u8>, Fail> {
    let layout = Layout::new(SHAPE.tables, SHAPE.blocks, SHAPE.segments, SLOTS).ok_or("a layout")?;
    Ok(new_file(alloc, &layout)?)
}

#[test]
fn same_as_in_memory(rt: HostRuntime) -> Result<(), Fail> {
    let file = fresh(rt.alloc())?;
    for frames in [16, 17, 64, 4096] {
        let mut plain = in_memory(rt.alloc(), GROUPS)?;
        let Ok(mut store) = open_file(rt.alloc(), &file, frames, CALLS)? else {
            return Err(Fail::new("no store"));
        };
        assert!(rt; give_all(&mut store, 0, GROUPS).is_ok());
        assert!(rt; read_the_same(&mut store, &mut plain), "{frames} frames");
    }
    Ok(())
}

/// What a run left that was stopped: how many groups were made last by an Ok, and the disk.
#[derive(Drop)]
struct Stopped {
    last: u64,
    disk: MemDisk,
}

/// Gives the groups to the store of a file with sixteen frames, up to a call of the disk.
fn stop_after(alloc: Global, file: &[u8], calls: usize) -> Result<Stopped, NoMemory> {
    let mut store = match open_file(alloc, file, 16, calls)? {
        Ok(store) => store,
        Err((_, disk)) => return Ok(Stopped { last: 0, disk }),
    };
    let mut last = 0;
    for part in 0..GROUPS / 8 {
        if give_all(&mut store, 8 * part, 8 * part + 8).is_err() {
            break;
        }
        last = 8 * u64::from(part) + 8;
    }
    Ok(Stopped {
        last,
        disk: store.close(),
    })
}

/// Whether a file opens to the blocks after the first of the groups, at least so many of them.
fn opens_to_front(alloc: Global, file: &[u8], least: u64) -> Result<bool, NoMemory> {
    let Ok(mut store) = open_file(alloc, file, 16, CALLS)? else {
        return Ok(false);
    };
    let groups = store.logged();
    if groups < least || groups > u64::from(GROUPS) {
        return Ok(false);
    }
    let mut plain = in_memory(alloc, groups as u32)?;
    Ok(read_the_same(&mut store, &mut plain))
}

/// Whether it does so behind an opening of it that was stopped after so many calls.
fn opens_again(alloc: Global, file: &[u8], least: u64, calls: usize) -> Result<bool, NoMemory> {
    let disk = match open_file(alloc, file, 16, calls)? {
        Ok(store) => store.close(),
        Err((_, disk)) => disk,
    };
    let left = disk.image(alloc, disk.calls(), Pick::Old)?;
    opens_to_front(alloc, &left, least)
}

// The stops lie between the first call of the disk and the last, as many calls apart.
const STOPS: u64 = 36;

#[test]
fn behind_stops(rt: HostRuntime) -> Result<(), Fail> {
    let file = fresh(rt.alloc())?;
    let whole = stop_after(rt.alloc(), &file, CALLS)?;
    assert!(rt; whole.last == u64::from(GROUPS));
    for stop in 0..STOPS {
        let calls = (whole.disk.calls() / STOPS).saturating_mul(stop);
        let stopped = stop_after(rt.alloc(), &file, calls as usize)?;
        let pick = match stop % 3 {
            0 => Pick::Old,
            1 => Pick::New,
            _ => Pick::Fill(1),
        };
        let left = stopped.disk.image(rt.alloc(), stopped.disk.calls(), pick)?;
        assert!(rt;
            opens_to_front(rt.alloc(), &left, stopped.last)?,
            "{calls} calls"
        );
        let again = 5 + stop as usize;
        assert!(rt;
            opens_again(rt.alloc(), &left, stopped.last, again)?,
            "{calls} calls"
        );
    }
    Ok(())
}

/// A file with another byte at a place.
fn with_byte(alloc: Global, file: &[u8], at: usize, byte: u8) -> Result<Vec<u8>, NoMemory> {
    let mut other = file.to_vec(alloc).map_err(|_| NoMemory)?;
    if let Some(place) = other.get_mut(at) {
        *place = byte;
    }
    Ok(other)
}

/// Whether a file is refused as no store, and left as it is.
fn is_refused(alloc: Global, file: &[u8]) -> Result<bool, NoMemory> {
    match open_file(alloc, file, 16, CALLS)? {
        Err((OpenFault::NotAStore, disk)) => Ok(disk.bytes() == file),
        _ => Ok(false),
    }
}

#[test]
fn files_that_open_to_nothing(rt: HostRuntime) -> Result<(), Fail> {
    let file = fresh(rt.alloc())?;
    // The identity's mark, its version, which was 104 before the log went round, the slot of the head in the copy that
    // is chosen, a gate of the log with no group, one of the twin area with no batch, and a block's kind.
    let rows = [
        (0, b'S'),
        (11, 104),
        (2_048, 1),
        (8_192, 1),
        (139_264, 1),
        (157_704, 9),
    ];
    for (at, byte) in rows {
        let other = with_byte(rt.alloc(), &file, at, byte)?;
        assert!(rt; is_refused(rt.alloc(), &other)?, "byte {at}");
    }
    Ok(())
}
