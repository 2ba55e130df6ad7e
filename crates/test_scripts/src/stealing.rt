//! A run in which three sessions have changes in more blocks than there are frames, so that blocks go home with changes
//! that aren't committed: a stop after each call of the disk, each of these calls failing, and stops of the openings
//! behind stops. What a stop leaves is also mixed of what the picks leave.
ghost use Rattle.std.specs.Prelude.{◌≤◌};

use crate::doubles::{Failing, NONE, RUN, formatted, run_over, run_stopped};
use crate::mixtures::{add_mixed, check_mixed, seeds_behind};
use crate::restarts::{check_failures_behind, check_stops_behind};
use crate::stories::{PICKS, Story, are_faulty, check_left, image_now};
use rb_base::NoMemory;
use rb_memdisk::Pick;
use rb_shell::Status;
use std::alloc::Global;
use std::process::Abort;
use std::test::Fail;

// Makes a file of twenty blocks of rows and three segments: the run touches more than sixteen of its 119 blocks.
const FORMAT: &str = "f format tables=1 blocks=20 segments=3 log=96";

// One key for each block of rows.
const KEYS: u64 = 20;

// Where the blocks begin in the file.
const HOMES: usize = 2_048 * (4 + 96 + 9);

// A write that was cut short, and one that was not.
const TORN: [Pick; 2] = [Pick::New, Pick::Fill(1)];

/// Shows the rows, and goes on with one more commit.
pub const SECOND: &[u8] = b"\
open 1 c 1 0 98
fetch 1 c 99
insert 1 1 99 z
commit 1
";

// Whose row a key is, once all are there: that of session 1, 2 or 3.
fn owner(key: u64) -> u64 {
    key % 3 + 1
}

// The value of a key after so many commits. The first makes all rows, and each later one changes those of session 1.
fn value_of(commits: u64, key: u64) -> &'static str {
    match (commits, owner(key)) {
        (2, 1) => "b",
        (3, 1) => "c",
        _ => "a",
    }
}

// What the second run answers after so many commits.
fn second_replies(alloc: Global, commits: u64) -> Result<String, NoMemory> {
    let mut replies = String::from_str(alloc, "1 ok\n").map_err(|_| NoMemory)?;
    let rows = if commits == 0 { 0 } else { KEYS };
    for key in 0..rows {
        let value = value_of(commits, key);
        write!(replies, "1 row {key} {value}\n").map_err(|_| NoMemory)?;
    }
    let next = commits.saturating_add(1);
    write!(replies, "1 end\n1 ok\n1 committed {next}\n").map_err(|_| NoMemory)?;
    Ok(replies)
}

/// A script with its replies.
#[derive(Drop)]
pub struct Lines {
    pub script: String,
    pub replies: String,
}

// The lines by which the first session makes all rows.
fn add_inserts(lines: &mut Lines) -> Result<(), NoMemory> {
    for key in 0..KEYS {
        write!(lines.script, "insert 1 1 {key} a\n").map_err(|_| NoMemory)?;
        lines.replies.push_str("1 ok\n").map_err(|_| NoMemory)?;
    }
    Ok(())
}

// The lines by which the sessions from `first` to `last` change their rows, in the order of the keys.
fn add_updates(lines: &mut Lines, first: u64, last: u64, value: &str) -> Result<(), NoMemory> {
    for key in 0..KEYS {
        let session = owner(key);
        if first <= session && session <= last {
            write!(lines.script, "update {session} 1 {key} {value}\n").map_err(|_| NoMemory)?;
            write!(lines.replies, "{session} ok\n").map_err(|_| NoMemory)?;
        }
    }
    Ok(())
}

/// A line, and its reply.
pub fn add_line(lines: &mut Lines, line: &str, reply: &str) -> Result<(), NoMemory> {
    lines.script.push_str(line).map_err(|_| NoMemory)?;
    lines.replies.push_str(reply).map_err(|_| NoMemory)
}

// All rows are made and committed. Then each session changes its rows, the third one is rolled back, and the first one
// commits; again so, and the second and the third are under way at the end.
fn add_all(lines: &mut Lines) -> Result<(), NoMemory> {
    add_inserts(lines)?;
    add_line(lines, "commit 1\n", "1 committed 1\n")?;
    add_updates(lines, 1, 3, "b")?;
    add_line(lines, "rollback 3\n", "3 ok\n")?;
    add_line(lines, "commit 1\n", "1 committed 2\n")?;
    add_updates(lines, 1, 1, "c")?;
    add_updates(lines, 3, 3, "d")?;
    add_line(lines, "commit 1\n", "1 committed 3\n")
}

// The run, and what a second one shows after each of its commits.
fn three_sessions(alloc: Global) -> Result<Story, NoMemory> {
    let mut lines = Lines {
        script: String::new(alloc),
        replies: String::new(alloc),
    };
    add_all(&mut lines)?;
    let mut told = Vec::new(alloc);
    for commits in 0..=3 {
        told.push(second_replies(alloc, commits)?)
            .map_err(|_| NoMemory)?;
    }
    let Lines { script, replies } = lines;
    Ok(Story {
        script,
        replies: replies.as_bytes().to_vec(alloc).map_err(|_| NoMemory)?,
        second: SECOND,
        told,
        tells_checkpoints: false,
    })
}

// What stops after each so many calls of the run leave, by these picks and, where that is wanted, mixed.
fn images_left(
    alloc: Global,
    story: &Story,
    file: &[u8],
    step: u64,
    picks: &[Pick],
    mixed: bool,
) -> Result<Vec<Vec<u8>>, NoMemory>
    requires { 1 ≤ step }
{
    let script = story.script.as_bytes();
    let good = run_over(alloc, RUN, file, script, NONE)?;
    let mut images = Vec::new(alloc);
    for call in 1..=good.disk.calls() {
        if call % step == 0 {
            let stopped = run_stopped(alloc, file, script, call)?;
            for pick in picks {
                if let Some(left) = image_now(alloc, &stopped.disk, *pick)? {
                    images.push(left).map_err(|_| NoMemory)?;
                }
            }
            if mixed {
                add_mixed(alloc, &stopped.disk, &mut images)?;
            }
        }
    }
    Ok(images)
}

// Whether a block at home has the value that no commit has: 428 bytes into it is that of its first cell.
fn has_stolen(file: &[u8]) -> bool {
    for block in 0..KEYS as usize {
        if file.get(HOMES + 2_048 * block + 428) == Some(&b'd') {
            return true;
        }
    }
    false
}

/// Over a new file the replies are the same whatever the frames, and so are the rows that are left.
pub fn check_frames(
    rt: &impl Abort,
    alloc: Global,
    story: &Story,
    format: &str,
) -> Result<(), NoMemory> {
    let file = formatted(alloc, format)?;
    let lines = [
        "f run frames=16",
        "f run frames=17",
        "f run frames=64",
        "f run frames=4096",
    ];
    for line in lines {
        let end = run_over(alloc, line, &file, story.script.as_bytes(), NONE)?;
        assert!(rt; end.status == Status::Done, "{line}");
        assert!(rt; end.sink.bytes() == story.replies.as_slice(), "{line}");
        check_left(rt, alloc, story, &end, &PICKS)?;
    }
    Ok(())
}

#[test]
fn whatever_the_frames(rt: HostRuntime) -> Result<(), NoMemory> {
    let story = three_sessions(rt.alloc())?;
    check_frames(&rt, rt.alloc(), &story, FORMAT)
}

// After each call of the disk.
#[test]
fn stops(rt: HostRuntime) -> Result<(), Fail> {
    let story = three_sessions(rt.alloc())?;
    let file = formatted(rt.alloc(), FORMAT)?;
    let script = story.script.as_bytes();
    let good = run_over(rt.alloc(), RUN, &file, script, NONE)?;
    let mut stolen = false;
    let mut mixed = false;
    for call in 1..=good.disk.calls() {
        let stopped = run_stopped(rt.alloc(), &file, script, call)?;
        check_left(&rt, rt.alloc(), &story, &stopped, &PICKS)?;
        mixed |= check_mixed(&rt, rt.alloc(), &story, &stopped, seeds_behind(call))?;
        stolen |= has_stolen(stopped.disk.bytes());
    }
    assert!(rt; stolen);
    assert!(rt; mixed);
    Ok(())
}

// Each call fails alone: one of the opening, where nothing is answered, or another.
#[test]
fn failures(rt: HostRuntime) -> Result<(), Fail> {
    let story = three_sessions(rt.alloc())?;
    let file = formatted(rt.alloc(), FORMAT)?;
    let script = story.script.as_bytes();
    let good = run_over(rt.alloc(), RUN, &file, script, NONE)?;
    let mut mixed = false;
    for call in 1..=good.disk.calls() {
        let failing = Failing {
            disk: &[call],
            ..NONE
        };
        let end = run_over(rt.alloc(), RUN, &file, script, failing)?;
        assert!(rt; end.status == Status::DiskFault, "call {call}");
        let held = end.sink.bytes();
        assert!(rt;
            held.is_empty() || are_faulty(held, &story.replies),
            "call {call}"
        );
        check_left(&rt, rt.alloc(), &story, &end, &TORN)?;
        mixed |= check_mixed(&rt, rt.alloc(), &story, &end, seeds_behind(call))?;
    }
    assert!(rt; mixed);
    Ok(())
}

/// Stops of the openings behind stops of a run over a new file after each so many calls, by these picks or mixed, and
/// of the openings behind those.
pub fn check_behind(
    rt: &impl Abort,
    alloc: Global,
    story: &Story,
    format: &str,
    step: u64,
    picks: &[Pick],
    mixed: bool,
) -> Result<(), NoMemory>
    requires { 1 ≤ step }
{
    let file = formatted(alloc, format)?;
    let mut wrote = false;
    for image in &images_left(alloc, story, &file, step, picks, mixed)? {
        wrote |= check_stops_behind(rt, alloc, story, image, 50)?;
    }
    assert!(rt; wrote);
    Ok(())
}

#[test]
fn stops_behind(rt: HostRuntime) -> Result<(), NoMemory> {
    let story = three_sessions(rt.alloc())?;
    check_behind(&rt, rt.alloc(), &story, FORMAT, 61, &TORN, false)
}

#[test]
fn stops_behind_mixtures(rt: HostRuntime) -> Result<(), NoMemory> {
    let story = three_sessions(rt.alloc())?;
    check_behind(&rt, rt.alloc(), &story, FORMAT, 20, &[], true)
}

/// Each call failing of the openings behind stops of a run over a new file after each so many calls.
pub fn check_failing_behind(
    rt: &impl Abort,
    alloc: Global,
    story: &Story,
    format: &str,
    step: u64,
) -> Result<(), NoMemory>
    requires { 1 ≤ step }
{
    let file = formatted(alloc, format)?;
    for image in &images_left(alloc, story, &file, step, &[Pick::New], false)? {
        check_failures_behind(rt, alloc, story, image)?;
    }
    Ok(())
}

#[test]
fn failures_behind(rt: HostRuntime) -> Result<(), NoMemory> {
    let story = three_sessions(rt.alloc())?;
    check_failing_behind(&rt, rt.alloc(), &story, FORMAT, 17)
}
