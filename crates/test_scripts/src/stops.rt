//! The tables of stops: a crash after any call of the disk, in a run of five commits, in one in which a transaction is
//! under way at nearly each call, in one of two transactions beside a cursor, in one of rollbacks to savepoints, and in
//! one of sessions that wait in a queue.
use crate::commits::five_commits;
use crate::doubles::{FORMAT_SMALL, FORMAT_STOPS, NONE, RUN, formatted, run_over, run_stopped};
use crate::stories::{PICKS, Story, check_left};
use crate::under_way::{four_transactions, queues, savepoints, two_sessions};
use rb_base::NoMemory;
use rb_memdisk::Pick;
use rb_shell::Status;
use std::alloc::Global;
use std::process::Abort;
use std::test::Fail;

// All stops of a script over a file, by each of the picks.
fn check_stops(
    rt: &impl Abort,
    alloc: Global,
    story: &Story,
    file: &[u8],
    picks: &[Pick],
) -> Result<(), NoMemory> {
    let script = story.script.as_bytes();
    let good = run_over(alloc, RUN, file, script, NONE)?;
    assert!(rt; good.status == Status::Done);
    assert!(rt; good.sink.bytes() == story.replies.as_slice());
    let mut syncs = 0;
    for call in 1..=good.disk.calls() {
        let stopped = run_stopped(alloc, file, script, call)?;
        assert!(rt; stopped.disk.calls() == call);
        // Before a write, and after a sync, each pick leaves what the disk reads as.
        let writes = stopped.disk.syncs() == syncs;
        check_left(
            rt,
            alloc,
            story,
            &stopped,
            if writes { picks } else { &[Pick::New] },
        )?;
        syncs = stopped.disk.syncs();
    }
    Ok(())
}

/// All stops of a script over a new file.
pub fn check_new(
    rt: &impl Abort,
    alloc: Global,
    story: &Story,
    format: &str,
) -> Result<(), NoMemory> {
    check_stops(rt, alloc, story, &formatted(alloc, format)?, &PICKS)
}

#[test]
fn stops(rt: HostRuntime) -> Result<(), NoMemory> {
    let story = five_commits(rt.alloc())?;
    check_new(&rt, rt.alloc(), &story, FORMAT_STOPS)
}

#[test]
fn stops_under_way(rt: HostRuntime) -> Result<(), NoMemory> {
    let story = four_transactions(rt.alloc())?;
    check_new(&rt, rt.alloc(), &story, FORMAT_SMALL)
}

#[test]
fn stops_of_two_sessions(rt: HostRuntime) -> Result<(), NoMemory> {
    let story = two_sessions(rt.alloc())?;
    check_new(&rt, rt.alloc(), &story, FORMAT_SMALL)
}

#[test]
fn stops_of_savepoints(rt: HostRuntime) -> Result<(), NoMemory> {
    let story = savepoints(rt.alloc())?;
    check_new(&rt, rt.alloc(), &story, FORMAT_SMALL)
}

// A restart has no waiting sessions, and the rows of the commits.
#[test]
fn stops_with_a_queue(rt: HostRuntime) -> Result<(), NoMemory> {
    let story = queues(rt.alloc())?;
    check_new(&rt, rt.alloc(), &story, FORMAT_SMALL)
}

// The log slots of the file: 96 of 2,048 bytes.
const LOG_BEGIN: usize = 8_192;

const LOG_END: usize = 204_800;

// The log may hold anything behind the closed gate of its first slot, open gates too.
#[test]
fn stops_over_old_bytes(rt: HostRuntime) -> Result<(), Fail> {
    let mut file = formatted(rt.alloc(), FORMAT_STOPS)?;
    assert!(rt; file.len() > LOG_END);
    file[LOG_BEGIN + 1..LOG_END].fill(1);
    let story = five_commits(rt.alloc())?;
    check_stops(&rt, rt.alloc(), &story, &file, &[Pick::New, Pick::Old])?;
    Ok(())
}
