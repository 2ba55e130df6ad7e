//! The tables of failures: each call of the disk, the source and the sink fails alone, in a run of five commits, and
//! each call of the disk in a run in which a transaction is under way at nearly each, in one of two transactions
//! beside a cursor, in one of rollbacks to savepoints, and in one of sessions that wait in a queue.
use crate::commits::five_commits;
use crate::doubles::{Ended, FORMAT_SMALL, FORMAT_STOPS, Failing, NONE, RUN, formatted, run_over};
use crate::stories::{Story, answered, are_faulty, check_left};
use crate::under_way::{four_transactions, queues, savepoints, two_sessions};
use rb_base::NoMemory;
use rb_memdisk::Pick;
use rb_shell::Status;
use std::alloc::Global;
use std::process::Abort;
use std::test::Fail;

// A write that fails may be cut short. What else may be left behind a call that failed, a stop before it leaves too.
const TORN: [Pick; 2] = [Pick::New, Pick::Fill(1)];

// How many bytes of the source the program takes at once.
const TAKEN: usize = 65_536;

// The first lines of a text, or all of it where it has fewer.
fn first_lines(text: &[u8], count: usize) -> &[u8] {
    let mut left = count;
    for (at, byte) in text.iter().enumerate() {
        if left == 0 {
            return &text[..at];
        }
        if *byte == b'\n' {
            left -= 1;
        }
    }
    text
}

fn count_lines(text: &[u8]) -> usize {
    text.iter().filter(|byte| **byte == b'\n').count()
}

// Checks how a run ended whose last call of the disk failed: one of the opening, where nothing is answered, or another.
fn check_fault(rt: &impl Abort, story: &Story, end: &Ended, call: u64, is_opening: bool) {
    let held = end.sink.bytes();
    let right = if is_opening {
        held.is_empty()
    } else {
        are_faulty(held, &story.replies)
    };
    assert!(rt; end.status == Status::DiskFault, "call {call}");
    assert!(rt; right, "call {call}");
    assert!(rt; end.disk.calls() == call);
}

/// Each call of the disk fails in a run over a new file.
pub fn check_disk_calls(
    rt: &impl Abort,
    alloc: Global,
    story: &Story,
    format: &str,
) -> Result<(), NoMemory> {
    let file = &formatted(alloc, format)?;
    let script = story.script.as_bytes();
    let calls = run_over(alloc, RUN, file, script, NONE)?.disk.calls();
    let opening = run_over(alloc, RUN, file, b"", NONE)?.disk.calls();
    assert!(rt; 0 < opening && opening < calls);
    let mut syncs = 0;
    for call in 1..=calls {
        let failing = Failing {
            disk: &[call],
            ..NONE
        };
        let end = run_over(alloc, RUN, file, script, failing)?;
        let is_opening = call <= opening;
        check_fault(rt, story, &end, call, is_opening);
        let writes = !is_opening && end.disk.syncs() == syncs;
        check_left(
            rt,
            alloc,
            story,
            &end,
            if writes { &TORN } else { &[Pick::New] },
        )?;
        syncs = end.disk.syncs();
    }
    Ok(())
}

#[test]
fn each_disk_call_fails(rt: HostRuntime) -> Result<(), NoMemory> {
    let story = five_commits(rt.alloc())?;
    check_disk_calls(&rt, rt.alloc(), &story, FORMAT_STOPS)
}

#[test]
fn each_disk_call_fails_under_way(rt: HostRuntime) -> Result<(), NoMemory> {
    let story = four_transactions(rt.alloc())?;
    check_disk_calls(&rt, rt.alloc(), &story, FORMAT_SMALL)
}

#[test]
fn each_disk_call_fails_in_two_sessions(rt: HostRuntime) -> Result<(), NoMemory> {
    let story = two_sessions(rt.alloc())?;
    check_disk_calls(&rt, rt.alloc(), &story, FORMAT_SMALL)
}

#[test]
fn each_disk_call_fails_with_savepoints(rt: HostRuntime) -> Result<(), NoMemory> {
    let story = savepoints(rt.alloc())?;
    check_disk_calls(&rt, rt.alloc(), &story, FORMAT_SMALL)
}

// Behind a fault no session is resumed: none of those that wait for the transaction whose commit failed.
#[test]
fn each_disk_call_fails_with_a_queue(rt: HostRuntime) -> Result<(), NoMemory> {
    let story = queues(rt.alloc())?;
    check_disk_calls(&rt, rt.alloc(), &story, FORMAT_SMALL)
}

// Lines that are skipped, so that the first take ends with a front of the script, and then the script.
fn behind_empty_lines(alloc: Global, script: &[u8], front: usize) -> Result<Vec<u8>, NoMemory> {
    let count = TAKEN.saturating_sub(front);
    let mut text = vec![in alloc; b'\n'; count].map_err(|_| NoMemory)?;
    text.extend_from_slice(script).map_err(|_| NoMemory)?;
    Ok(text)
}

// Three takes: empty lines with a front of the script, the bytes behind it, and the end. The whole lines of those
// before the failed one are done, and no other.
#[test]
fn each_take_fails(rt: HostRuntime) -> Result<(), Fail> {
    let file = formatted(rt.alloc(), FORMAT_STOPS)?;
    let story = five_commits(rt.alloc())?;
    let script = story.script.as_bytes();
    let rows: [(u64, usize); 10] = [
        (1, 100),
        (2, 0),
        (2, 1),
        (2, 20),
        (2, 21),
        (2, 22),
        (2, 68),
        (2, 69),
        (2, 200),
        (3, 100),
    ];
    for (take, front) in rows {
        let text = behind_empty_lines(rt.alloc(), script, front)?;
        let failing = Failing {
            source: &[take],
            ..NONE
        };
        let end = run_over(rt.alloc(), RUN, &file, &text, failing)?;
        let done = match take {
            1 => b"".as_slice(),
            2 => script.get(..front).unwrap_or(script),
            _ => script,
        };
        let held = first_lines(&story.replies, count_lines(done));
        assert!(rt;
            end.status == Status::SourceFault,
            "take {take}, byte {front}"
        );
        assert!(rt; end.sink.bytes() == held, "take {take}, byte {front}");
        check_left(&rt, rt.alloc(), &story, &end, &[Pick::New])?;
    }
    Ok(())
}

// Each line's reply is one put. What puts leave is checked once where they leave the same: as many calls of the disk,
// and as many commits answered.
#[test]
fn each_put_fails(rt: HostRuntime) -> Result<(), Fail> {
    let file = formatted(rt.alloc(), FORMAT_STOPS)?;
    let story = five_commits(rt.alloc())?;
    let mut checked = (0, 0);
    for before in 0..count_lines(&story.replies) {
        let failing = Failing {
            sink: &[before as u64 + 1],
            ..NONE
        };
        let end = run_over(rt.alloc(), RUN, &file, story.script.as_bytes(), failing)?;
        let held = first_lines(&story.replies, before);
        assert!(rt; end.status == Status::SinkFault, "put behind {before}");
        assert!(rt; end.sink.bytes() == held, "put behind {before}");
        let left = (end.disk.calls(), answered(&story, held));
        if left != checked {
            check_left(&rt, rt.alloc(), &story, &end, &[Pick::New])?;
            checked = left;
        }
    }
    Ok(())
}
