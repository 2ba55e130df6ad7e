//! The tables of openings behind a stop, which put back what was under way and make that last at the end of an empty
//! script: a stop after any call of one, and of one behind that, and each call failing alone.
ghost use Rattle.std.specs.Prelude.{◌≤◌};

use crate::doubles::{
    FORMAT_SMALL, FORMAT_STOPS, Failing, NONE, RUN, formatted, run_over, run_stopped,
};
use crate::mixtures::add_mixed;
use crate::stories::{Story, image_now, shown};
use crate::under_way::{four_transactions, long_transaction};
use rb_base::NoMemory;
use rb_memdisk::{MemDisk, Pick};
use rb_shell::Status;
use std::alloc::Global;
use std::process::Abort;
use std::test::Fail;

// What a stop may leave of an opening: all that was written, or bytes of which each is 1.
const PICKS: [Pick; 2] = [Pick::New, Pick::Fill(1)];

// Of the stops of an opening each fourth is followed to the openings behind it.
const EVERY: usize = 4;

// Adds what a stop after the last call of a disk may leave of a file, by these picks, but for the file itself.
fn add_left(
    alloc: Global,
    file: &[u8],
    disk: &MemDisk,
    picks: &[Pick],
    images: &mut Vec<Vec<u8>>,
) -> Result<(), NoMemory> {
    for pick in picks {
        let left = image_now(alloc, disk, *pick)?;
        if let Some(left) = left.filter(|left| left.as_slice() != file) {
            images.push(left).map_err(|_| NoMemory)?;
        }
    }
    Ok(())
}

// What a stop after any call of a run may leave of a file, by these picks, but for the file itself; and behind these
// images mixtures, where they are wanted. A call that doesn't write leaves nothing more; nor does the pick Old, as what
// was synced last is what the disk read as then.
fn left_by(
    alloc: Global,
    file: &[u8],
    script: &[u8],
    picks: &[Pick],
    mixed: bool,
) -> Result<Vec<Vec<u8>>, NoMemory> {
    let good = run_over(alloc, RUN, file, script, NONE)?;
    let mut images = Vec::new(alloc);
    let mut mixtures = Vec::new(alloc);
    let mut syncs = 0;
    for call in 1..=good.disk.calls() {
        let stopped = run_stopped(alloc, file, script, call)?;
        if stopped.disk.syncs() == syncs {
            add_left(alloc, file, &stopped.disk, picks, &mut images)?;
            if mixed {
                add_mixed(alloc, &stopped.disk, &mut mixtures)?;
            }
        }
        syncs = stopped.disk.syncs();
    }
    images.append(&mut mixtures).map_err(|_| NoMemory)?;
    Ok(images)
}

// Checks that a stop after any call of an opening of a file leaves what shows so many flushes, also mixed where that is
// wanted, and answers what it may leave.
fn check_stops(
    rt: &impl Abort,
    alloc: Global,
    story: &Story,
    file: &[u8],
    flushes: Option<usize>,
    mixed: bool,
) -> Result<Vec<Vec<u8>>, NoMemory> {
    let images = left_by(alloc, file, b"", &PICKS, mixed)?;
    for image in &images {
        assert!(rt; shown(alloc, story, image)? == flushes);
    }
    Ok(images)
}

// Checks that a run of an empty script ends where a call of the disk fails, and leaves what shows so many flushes.
fn check_failure(
    rt: &impl Abort,
    alloc: Global,
    story: &Story,
    file: &[u8],
    call: u64,
    flushes: Option<usize>,
) -> Result<(), NoMemory> {
    let failing = Failing {
        disk: &[call],
        ..NONE
    };
    let end = run_over(alloc, RUN, file, b"", failing)?;
    assert!(rt; end.status == Status::DiskFault, "call {call}");
    assert!(rt; end.sink.bytes().is_empty(), "call {call}");
    assert!(rt; end.disk.calls() == call);
    let found = shown(alloc, story, end.disk.bytes())?;
    assert!(rt; found == flushes, "call {call}");
    Ok(())
}

// Each call of an opening of a file fails.
fn check_failures(
    rt: &impl Abort,
    alloc: Global,
    story: &Story,
    file: &[u8],
    flushes: Option<usize>,
) -> Result<(), NoMemory> {
    let good = run_over(alloc, RUN, file, b"", NONE)?;
    assert!(rt; good.status == Status::Done);
    for call in 1..=good.disk.calls() {
        check_failure(rt, alloc, story, file, call, flushes)?;
    }
    Ok(())
}

/// The stops of the opening behind a stop that left this file, also mixed, and of the openings behind each so manieth
/// of those. Answers whether the first opening wrote anything.
pub fn check_stops_behind(
    rt: &impl Abort,
    alloc: Global,
    story: &Story,
    file: &[u8],
    every: usize,
) -> Result<bool, NoMemory>
    requires { 1 ≤ every }
{
    let flushes = shown(alloc, story, file)?;
    assert!(rt; flushes.is_some());
    let images = check_stops(rt, alloc, story, file, flushes, true)?;
    for (at, image) in images.iter().enumerate() {
        if at % every == 0 {
            let _ = check_stops(rt, alloc, story, image, flushes, false)?;
        }
    }
    Ok(!images.is_empty())
}

/// Each call failing of the opening behind a stop that left this file.
pub fn check_failures_behind(
    rt: &impl Abort,
    alloc: Global,
    story: &Story,
    file: &[u8],
) -> Result<(), NoMemory> {
    let flushes = shown(alloc, story, file)?;
    assert!(rt; flushes.is_some());
    check_failures(rt, alloc, story, file, flushes)
}

// Each call failing of the openings behind each so manieth stop of that opening. Answers whether that wrote anything.
fn check_failures_later(
    rt: &impl Abort,
    alloc: Global,
    story: &Story,
    file: &[u8],
) -> Result<bool, NoMemory> {
    let flushes = shown(alloc, story, file)?;
    let images = left_by(alloc, file, b"", &PICKS, false)?;
    for (at, image) in images.iter().enumerate() {
        if at % EVERY == 0 {
            check_failures(rt, alloc, story, image, flushes)?;
        }
    }
    Ok(!images.is_empty())
}

// What stops of a run over a new file leave, by these picks.
fn first_left(
    alloc: Global,
    line: &str,
    story: &Story,
    picks: &[Pick],
) -> Result<Vec<Vec<u8>>, NoMemory> {
    let file = formatted(alloc, line)?;
    left_by(alloc, &file, story.script.as_bytes(), picks, false)
}

// Of the images that stops of the four transactions leave, by a pick: the stops of the openings behind them.
fn check_all_stops(rt: &impl Abort, alloc: Global, pick: Pick) -> Result<(), NoMemory> {
    let story = four_transactions(alloc)?;
    let mut wrote = false;
    for image in &first_left(alloc, FORMAT_SMALL, &story, &[pick])? {
        wrote |= check_stops_behind(rt, alloc, &story, image, EVERY)?;
    }
    assert!(rt; wrote);
    Ok(())
}

#[test]
fn stops(rt: HostRuntime) -> Result<(), NoMemory> {
    check_all_stops(&rt, rt.alloc(), Pick::New)
}

#[test]
fn stops_behind_torn_writes(rt: HostRuntime) -> Result<(), NoMemory> {
    check_all_stops(&rt, rt.alloc(), Pick::Fill(1))
}

#[test]
fn failures(rt: HostRuntime) -> Result<(), Fail> {
    let story = four_transactions(rt.alloc())?;
    for image in &first_left(rt.alloc(), FORMAT_SMALL, &story, &PICKS)? {
        check_failures_behind(&rt, rt.alloc(), &story, image)?;
    }
    Ok(())
}

// The same of the failures of the openings behind those.
fn check_later_failures(rt: &impl Abort, alloc: Global, pick: Pick) -> Result<(), NoMemory> {
    let story = four_transactions(alloc)?;
    let mut wrote = false;
    for image in &first_left(alloc, FORMAT_SMALL, &story, &[pick])? {
        wrote |= check_failures_later(rt, alloc, &story, image)?;
    }
    assert!(rt; wrote);
    Ok(())
}

#[test]
fn later_failures(rt: HostRuntime) -> Result<(), NoMemory> {
    check_later_failures(&rt, rt.alloc(), Pick::New)
}

#[test]
fn later_failures_behind_torn_writes(rt: HostRuntime) -> Result<(), NoMemory> {
    check_later_failures(&rt, rt.alloc(), Pick::Fill(1))
}

// The stops of openings behind those stops of the long transaction that left its flush. The records of its 41 changes
// lie in two extents, and what puts them back takes two runs of the log.
#[test]
fn stops_behind_a_long_transaction(rt: HostRuntime) -> Result<(), NoMemory> {
    let story = long_transaction(rt.alloc())?;
    let mut wrote = false;
    for image in &first_left(rt.alloc(), FORMAT_STOPS, &story, &[Pick::New])? {
        if shown(rt.alloc(), &story, image)? == Some(1) {
            wrote |= check_stops_behind(&rt, rt.alloc(), &story, image, EVERY)?;
        }
    }
    assert!(rt; wrote);
    Ok(())
}
