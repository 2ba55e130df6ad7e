//! A run in which the log goes round more than three times, while two sessions have transactions that last longer than
//! a lap: a stop after each call of the disk, each of these calls failing, and both in the openings behind stops.
use crate::doubles::{CALLS, FORMAT_SMALL, NONE, RUN, formatted, run_over};
use crate::failures::check_disk_calls;
use crate::stealing::{Lines, SECOND, add_line, check_behind, check_failing_behind, check_frames};
use crate::stops::check_new;
use crate::stores::open_file;
use crate::stories::Story;
use rb_base::{Failed, NoMemory, Store};
use rb_memdisk::Pick;
use std::alloc::Global;
use std::test::Fail;

// How many turns there are, of 12 groups each.
const TURNS: u64 = 16;

// How many changes sessions 1 and 2 make of their rows in a turn, before session 3 commits one of its own.
const CHANGES: u64 = 5;

// What stands behind a turn, with its reply. By the first commit of session 1 a lap has gone over what it began with,
// and so it is with what session 2 puts back. Both are under way again at the end, with more changes than a lap has.
const BEHIND: [(u64, &str, &str); 3] = [
    (FIRST_TURNS, "commit 1\n", "1 committed 8\n"),
    (9, "rollback 2\n", "2 ok\n"),
    (12, "checkpoint\n", "ok\n"),
];

// Behind so many turns session 1 commits, by the commit of this number.
const FIRST_TURNS: u64 = 6;

const FIRST_COMMIT: u64 = 8;

// The number of the commit of session 3 in a turn. The first of all makes the rows.
fn commit_in(turn: u64) -> u64 {
    turn.saturating_add(if turn <= FIRST_TURNS { 1 } else { 2 })
}

// The values of the rows of sessions 1 and 3 after so many commits, of which the first makes them. That of session 2
// stays 0, as it never commits.
fn values_after(commits: u64) -> (u64, u64) {
    if commits < FIRST_COMMIT {
        (0, commits.saturating_sub(1))
    } else {
        (FIRST_TURNS, commits.saturating_sub(2))
    }
}

// What the second run answers after so many commits.
fn second_replies(alloc: Global, commits: u64) -> Result<String, NoMemory> {
    let mut replies = String::from_str(alloc, "1 ok\n").map_err(|_| NoMemory)?;
    if commits > 0 {
        let (first, third) = values_after(commits);
        write!(replies, "1 row 1 {first}\n1 row 2 0\n1 row 3 {third}\n").map_err(|_| NoMemory)?;
    }
    let next = commits.saturating_add(1);
    write!(replies, "1 end\n1 ok\n1 committed {next}\n").map_err(|_| NoMemory)?;
    Ok(replies)
}

// The lines of a turn.
fn add_turn(lines: &mut Lines, turn: u64) -> Result<(), NoMemory> {
    for _ in 0..CHANGES {
        write!(lines.script, "update 1 1 1 {turn}\nupdate 2 1 2 {turn}\n").map_err(|_| NoMemory)?;
        lines
            .replies
            .push_str("1 ok\n2 ok\n")
            .map_err(|_| NoMemory)?;
    }
    let number = commit_in(turn);
    write!(lines.script, "update 3 1 3 {turn}\ncommit 3\n").map_err(|_| NoMemory)?;
    write!(lines.replies, "3 ok\n3 committed {number}\n").map_err(|_| NoMemory)
}

// All lines: the first commit makes the rows.
fn add_all(lines: &mut Lines) -> Result<(), NoMemory> {
    for key in 1..=3 {
        write!(lines.script, "insert 3 1 {key} 0\n").map_err(|_| NoMemory)?;
        lines.replies.push_str("3 ok\n").map_err(|_| NoMemory)?;
    }
    add_line(lines, "commit 3\n", "3 committed 1\n")?;
    for turn in 1..=TURNS {
        add_turn(lines, turn)?;
        for (at, line, reply) in BEHIND {
            if at == turn {
                add_line(lines, line, reply)?;
            }
        }
    }
    Ok(())
}

// The run, and what a second one shows after each of its commits.
fn laps(alloc: Global) -> Result<Story, NoMemory> {
    let mut lines = Lines {
        script: String::new(alloc),
        replies: String::new(alloc),
    };
    add_all(&mut lines)?;
    let mut told = Vec::new(alloc);
    for commits in 0..=TURNS + 2 {
        told.push(second_replies(alloc, commits)?)
            .map_err(|_| NoMemory)?;
    }
    let Lines { script, replies } = lines;
    Ok(Story {
        script,
        replies: replies.as_bytes().to_vec(alloc).map_err(|_| NoMemory)?,
        second: SECOND,
        told,
        tells_checkpoints: false,
    })
}

// The last log number of what the run leaves tells how often the log went round: it has no more than 63 groups at once.
#[test]
fn goes_round(rt: HostRuntime) -> Result<(), Fail> {
    let story = laps(rt.alloc())?;
    let file = formatted(rt.alloc(), FORMAT_SMALL)?;
    let end = run_over(rt.alloc(), RUN, &file, story.script.as_bytes(), NONE)?;
    let Ok(store) = open_file(rt.alloc(), end.disk.bytes(), CALLS)? else {
        return Err(Fail::from(Failed));
    };
    assert!(rt; store.logged() > 3 * 63);
    Ok(())
}

#[test]
fn whatever_the_frames(rt: HostRuntime) -> Result<(), Fail> {
    let story = laps(rt.alloc())?;
    check_frames(&rt, rt.alloc(), &story, FORMAT_SMALL)?;
    Ok(())
}

// After each call, also those by which a full log is made free: a stop among these leaves 63 groups.
#[test]
fn stops(rt: HostRuntime) -> Result<(), NoMemory> {
    let story = laps(rt.alloc())?;
    check_new(&rt, rt.alloc(), &story, FORMAT_SMALL)
}

#[test]
fn failures(rt: HostRuntime) -> Result<(), NoMemory> {
    let story = laps(rt.alloc())?;
    check_disk_calls(&rt, rt.alloc(), &story, FORMAT_SMALL)
}

// The openings behind some of the stops put back more than a lap has, and are stopped after each of their calls.
#[test]
fn stops_behind(rt: HostRuntime) -> Result<(), NoMemory> {
    let story = laps(rt.alloc())?;
    check_behind(
        &rt,
        rt.alloc(),
        &story,
        FORMAT_SMALL,
        41,
        &[Pick::New],
        false,
    )
}

#[test]
fn stops_behind_mixtures(rt: HostRuntime) -> Result<(), NoMemory> {
    let story = laps(rt.alloc())?;
    check_behind(&rt, rt.alloc(), &story, FORMAT_SMALL, 5, &[], true)
}

// Each call failing of the openings behind stops.
#[test]
fn failures_behind(rt: HostRuntime) -> Result<(), NoMemory> {
    let story = laps(rt.alloc())?;
    check_failing_behind(&rt, rt.alloc(), &story, FORMAT_SMALL, 17)
}
