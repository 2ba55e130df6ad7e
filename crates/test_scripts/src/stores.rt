//! Both stores under one list of calls, and the store of a file over what a crash leaves of three commits.
ghost use Rattle.std.specs.Prelude.{◌≡◌, ◌≤◌, ◌<◌, false, IfOk, OnOk};

use crate::doubles::{CALLS, FRAMES, SCRIPT_ROOM};
use crate::stories::{PICKS, image_now};
use rb_base::{BlockNo, Failed, Group, NoMemory, Shape, Store};
use rb_layout::Layout;
use rb_memdisk::MemDisk;
use rb_plainstore::PlainStore;
use rb_store::{LogStore, format};
use std::alloc::Global;
use std::process::Abort;
use std::test::Fail;

// One table of one block, one segment and 64 log slots.
const SHAPE: Shape = Shape {
    tables: 1,
    blocks: 1,
    segments: 1,
};

const SLOTS: u32 = 64;

// The block of rows, and the header of the segment, which each commit patches.
const ROWS: BlockNo = 0;

const COMMITS: BlockNo = 1;

// The last byte of the number that a commit writes.
const NUMBER_AT: u16 = 55;

// Where the commits patch the block of rows: the second one makes 40 patches, each a group, and the others one.
const FIRST_AT: u16 = 416;

const LAST_AT: u16 = 455;

/// A new file.
fn new_file(alloc: Global) -> Result<Vec<u8>, NoMemory> {
    let mut disk = MemDisk::new(alloc, b"", SCRIPT_ROOM, CALLS, &[])?;
    if let Some(layout) = Layout::new(SHAPE.tables, SHAPE.blocks, SHAPE.segments, SLOTS) {
        let _ = format(&mut disk, &layout);
    }
    disk.bytes().to_vec(alloc).map_err(|_| NoMemory)
}

/// Applies a group of one patch of one byte. It answers Failed where the store can't take it.
fn patch_byte<S: Store>(store: &mut S, block: BlockNo, at: u16, byte: u8) -> Result<(), Failed>
    requires going { S.failed store.old ≡ false }
    requires within { (32 ≤ at) × (at < 2048) }
    ensures going { OnOk result (S.failed store.new ≡ false) }
{
    let shape = store.shape();
    if block >= shape.block_count() || store.logged() > 1_000_000 {
        return Err(Failed);
    }
    let mut group = Group::new();
    group.push(block, at, &[byte]);
    store.apply(&group)
}

/// A byte of a block.
fn byte_of<S: Store>(store: &mut S, block: BlockNo, at: u16) -> Result<u8, Failed>
    requires going { S.failed store.old ≡ false }
    requires within { at < 2048 }
    ensures going { OnOk result (S.failed store.new ≡ false) }
{
    let shape = store.shape();
    if block >= shape.block_count() {
        return Err(Failed);
    }
    store.load(block)?;
    Ok(store.block()[at as usize])
}

/// Patches the block of rows from `FIRST_AT` on, each byte by a group of its own.
fn patch_rows<S: Store>(store: &mut S, count: u16, byte: u8) -> Result<(), Failed>
    requires going { S.failed store.old ≡ false }
    requires few { count ≤ 40 }
    ensures going { OnOk result (S.failed store.new ≡ false) }
{
    for i in 0..count {
        patch_byte(store, ROWS, FIRST_AT + i, byte)?;
    }
    Ok(())
}

/// Makes the commit of a number, and flushes it.
fn commit<S: Store>(store: &mut S, number: u8) -> Result<(), Failed>
    requires going { S.failed store.old ≡ false }
    ensures going { OnOk result (S.failed store.new ≡ false) }
{
    patch_rows(store, if number == 2 { 40 } else { 1 }, number)?;
    patch_byte(store, COMMITS, NUMBER_AT, number)?;
    store.flush()
}

/// Makes three commits, up to one that fails. It answers how many were made.
fn make_commits<S: Store>(store: &mut S) -> u8
    requires { S.failed store.old ≡ false }
{
    if commit(store, 1).is_err() {
        return 0;
    }
    if commit(store, 2).is_err() {
        return 1;
    }
    if commit(store, 3).is_err() {
        return 2;
    }
    3
}

/// What the commits left: the number, the first byte that they patch and the last one.
#[derive(Clone, Copy, Debug, PartialEq, Eq)]
struct Left {
    number: u8,
    first: u8,
    last: u8,
}

/// What so many commits leave. The second one takes two runs of the log.
fn left_by(commits: u8) -> Left {
    let (number, first, last) = match commits {
        0 => (0, 0, 0),
        1 => (1, 1, 0),
        2 => (2, 2, 2),
        _ => (3, 3, 2),
    };
    Left {
        number,
        first,
        last,
    }
}

fn left_in<S: Store>(store: &mut S) -> Result<Left, Failed>
    requires { S.failed store.old ≡ false }
{
    let number = byte_of(store, COMMITS, NUMBER_AT)?;
    let first = byte_of(store, ROWS, FIRST_AT)?;
    let last = byte_of(store, ROWS, LAST_AT)?;
    Ok(Left {
        number,
        first,
        last,
    })
}

/// One list of calls, and what they answer: bytes of blocks and log numbers.
fn answers<S: Store>(store: &mut S) -> Result<[u64; 6], Failed>
    requires { S.failed store.old ≡ false }
{
    commit(store, 1)?;
    let first = byte_of(store, ROWS, FIRST_AT)?;
    patch_rows(store, 33, 7)?;
    let waiting = store.logged();
    let patched = byte_of(store, ROWS, FIRST_AT + 32)?;
    let behind = byte_of(store, ROWS, FIRST_AT + 33)?;
    patch_byte(store, COMMITS, NUMBER_AT, 2)?;
    store.checkpoint()?;
    let number = byte_of(store, COMMITS, NUMBER_AT)?;
    Ok([
        u64::from(first),
        waiting,
        u64::from(patched),
        u64::from(behind),
        u64::from(number),
        store.logged(),
    ])
}

/// The store of a file's bytes, on a disk that fails behind so many calls; or the disk, where it isn't opened.
pub fn open_file(
    alloc: Global,
    file: &[u8],
    calls: usize,
) -> Result<Result<LogStore<MemDisk>, MemDisk>, NoMemory>
    ensures { IfOk result (λ opened. IfOk opened (λ store. store.failed ≡ false)) }
{
    let room = file.len() as u64 + SCRIPT_ROOM;
    let disk = MemDisk::new(alloc, file, room, calls, &[])?;
    match LogStore::open(alloc, disk, FRAMES) {
        Ok(store) => Ok(Ok(store)),
        Err((_, disk)) => Ok(Err(disk)),
    }
}

/// How many commits were made, and the disk.
#[derive(Drop)]
struct Stopped {
    commits: u8,
    disk: MemDisk,
}

/// Makes the commits over a file, up to a call of the disk.
fn stop_after(alloc: Global, file: &[u8], calls: usize) -> Result<Stopped, NoMemory> {
    match open_file(alloc, file, calls)? {
        Ok(mut store) => {
            let commits = make_commits(&mut store);
            Ok(Stopped {
                commits,
                disk: store.close(),
            })
        }
        Err(disk) => Ok(Stopped { commits: 0, disk }),
    }
}

/// What a file opens to, if it does.
fn found(alloc: Global, file: &[u8]) -> Result<Option<Left>, NoMemory> {
    match open_file(alloc, file, CALLS)? {
        Ok(mut store) => Ok(left_in(&mut store).ok()),
        Err(_) => Ok(None),
    }
}

#[test]
fn one_list_of_calls(rt: HostRuntime) -> Result<(), Fail> {
    let file = new_file(rt.alloc())?;
    let mut plain = PlainStore::new(rt.alloc(), SHAPE)?;
    let expected = [1, 35, 7, 0, 2, 36];
    assert!(rt; answers(&mut plain) == Ok(expected));
    let Ok(mut logged) = open_file(rt.alloc(), &file, CALLS)? else {
        return Err(Fail::from(Failed));
    };
    assert!(rt; answers(&mut logged) == Ok(expected));
    Ok(())
}

/// After a stop behind so many calls each image has the commits that were made, and the next one whole or not at all.
/// Answers whether an image has it.
fn check_stop(rt: &impl Abort, alloc: Global, file: &[u8], calls: usize) -> Result<bool, NoMemory> {
    let stopped = stop_after(alloc, file, calls)?;
    let made = stopped.commits;
    let kept = Some(left_by(made));
    let next = Some(left_by(made.saturating_add(1)));
    let mut ahead = false;
    for pick in PICKS {
        if let Some(left) = image_now(alloc, &stopped.disk, pick)? {
            let found = found(alloc, &left)?;
            let right = found == kept || found == next;
            assert!(rt; right, "{calls}, {pick:?}: {made} made, {found:?} found");
            ahead |= found != kept;
        }
    }
    Ok(ahead)
}

#[test]
fn stops_of_a_store(rt: HostRuntime) -> Result<(), Fail> {
    let file = new_file(rt.alloc())?;
    let good = stop_after(rt.alloc(), &file, CALLS)?;
    assert!(rt; good.commits == 3);
    assert!(rt; found(rt.alloc(), good.disk.bytes()) == Ok(Some(left_by(3))));
    let mut ahead = false;
    for calls in 1..=good.disk.calls() as usize {
        ahead |= check_stop(&rt, rt.alloc(), &file, calls)?;
    }
    assert!(rt; ahead);
    Ok(())
}

/// A commit, and a group behind it that is flushed without one.
fn commit_and_go_on<S: Store>(store: &mut S) -> Result<(), Failed>
    requires { S.failed store.old ≡ false }
{
    commit(store, 1)?;
    patch_byte(store, ROWS, FIRST_AT, 9)?;
    store.flush()
}

/// The disk of a file after a commit and a group behind it.
fn gone_on(alloc: Global, file: &[u8]) -> Result<MemDisk, Fail> {
    let Ok(mut store) = open_file(alloc, file, CALLS)? else {
        return Err(Fail::from(Failed));
    };
    commit_and_go_on(&mut store)?;
    if store.logged() != 3 {
        return Err(Fail::new("not three groups"));
    }
    Ok(store.close())
}

// An opening takes the group too, leaves the file as it is, and the next commit follows.
#[test]
fn groups_behind_the_last_commit(rt: HostRuntime) -> Result<(), Fail> {
    let disk = gone_on(rt.alloc(), &new_file(rt.alloc())?)?;
    let Ok(mut second) = open_file(rt.alloc(), disk.bytes(), CALLS)? else {
        return Err(Fail::from(Failed));
    };
    assert!(rt; second.logged() == 3);
    let taken = Left {
        first: 9,
        ..left_by(1)
    };
    assert!(rt; left_in(&mut second) == Ok(taken));
    let reopened = second.close();
    assert!(rt; reopened.bytes() == disk.bytes());
    let again = stop_after(rt.alloc(), reopened.bytes(), CALLS)?;
    assert!(rt; again.commits == 3);
    assert!(rt; found(rt.alloc(), again.disk.bytes()) == Ok(Some(left_by(3))));
    Ok(())
}
