//! Scripts whose replies are known, with what a second run answers after each of their flushes; and whether a file that
//! a crash left shows what it must. The tables of stops and of failures stand on them.
use crate::doubles::{Ended, NONE, RUN, run_over};
use rb_base::NoMemory;
use rb_memdisk::{MemDisk, Pick};
use rb_shell::Status;
use std::alloc::Global;
use std::process::Abort;

/// A script, its replies where no call fails, and what the second script answers behind it.
#[derive(Drop)]
pub struct Story {
    pub script: String,
    pub replies: Vec<u8>,
    pub second: &'static [u8],
    /// Of a file without any of the flushes first, then of one with the first, and so on to the last.
    pub told: Vec<String>,
    /// Whether `told` has the flushes of checkpoints too. Else the second script shows nothing of these, and `told` has
    /// those of commits alone.
    pub tells_checkpoints: bool,
}

/// What a crash may leave, as it is picked in the tables: 1 is the byte that opens a gate.
pub const PICKS: [Pick; 4] = [Pick::New, Pick::Old, Pick::Fill(1), Pick::Fill(0x7f)];

// Whether a reply tells of a commit that has a number.
fn is_committed(reply: &[u8]) -> bool {
    let mut words = reply.split(|byte| *byte == b' ');
    let _session = words.next();
    words.next() == Some(b"committed".as_slice())
}

/// How many flushes the replies tell of: those of commits, and of checkpoints if `told` has these.
pub fn answered(story: &Story, replies: &[u8]) -> usize {
    let commits = replies
        .split(|byte| *byte == b'\n')
        .filter(|reply| is_committed(reply))
        .count();
    if !story.tells_checkpoints {
        return commits;
    }
    let checkpoints = replies
        .split(|byte| *byte == b'\n')
        .filter(|reply| *reply == b"ok".as_slice())
        .count();
    commits.saturating_add(checkpoints)
}

/// How many flushes the file of a run must have: all where the run was done, as what waits is made last at its end.
pub fn owed(story: &Story, end: &Ended) -> usize {
    if end.status == Status::Done {
        return story.told.len().saturating_sub(1);
    }
    answered(story, end.sink.bytes())
}

/// How many of the flushes the replies to the second script tell of. None where they are those after none of them.
pub fn told_by(story: &Story, replies: &[u8]) -> Option<usize> {
    for (flushes, told) in story.told.iter().enumerate() {
        if replies == told.as_bytes() {
            return Some(flushes);
        }
    }
    None
}

/// How many of the flushes a file shows to a second run. None where that answers otherwise than after one of them.
pub fn shown(alloc: Global, story: &Story, file: &[u8]) -> Result<Option<usize>, NoMemory> {
    let end = run_over(alloc, RUN, file, story.second, NONE)?;
    if end.status != Status::Done {
        return Ok(None);
    }
    Ok(told_by(story, end.sink.bytes()))
}

/// Whether a file shows each flush that it must have, and at most the one under way besides.
pub fn is_kept(shown: Option<usize>, owed: usize) -> bool {
    match shown {
        Some(flushes) => owed <= flushes && flushes - owed <= 1,
        None => false,
    }
}

// Whether a text ends where a reply begins, or behind the number of its session.
fn ends_before_reply(text: &[u8]) -> bool {
    let fronts = [b"1 ", b"2 ", b"3 ", b"4 "];
    let mut front = text;
    for session in fronts {
        front = front.strip_suffix(session.as_slice()).unwrap_or(front);
    }
    front.is_empty() || front.ends_with(b"\n")
}

/// Whether the replies are right where the disk failed behind the opening: those of the good run up to one, and a fault
/// in its place; or those of all lines, where that was at the end of the script.
pub fn are_faulty(replies: &[u8], good: &[u8]) -> bool {
    match replies.strip_suffix(b"disk fault\n") {
        Some(done) => {
            ends_before_reply(done) && done.len() < good.len() && good.starts_with(done)
        }
        None => replies == good,
    }
}

/// An image after a call that the disk made, picked so.
pub fn image(alloc: Global, disk: &MemDisk, k: u64, pick: Pick) -> Result<Vec<u8>, NoMemory> {
    if k > disk.calls() {
        return Err(NoMemory);
    }
    disk.image(alloc, k, pick)
}

/// What a crash after the last call of a disk may leave, picked so. None where another pick than New leaves what New
/// does.
pub fn image_now(alloc: Global, disk: &MemDisk, pick: Pick) -> Result<Option<Vec<u8>>, NoMemory> {
    if pick == Pick::New {
        let read = disk.bytes().to_vec(alloc).map_err(|_| NoMemory)?;
        return Ok(Some(read));
    }
    let left = image(alloc, disk, disk.calls(), pick)?;
    Ok((left.as_slice() != disk.bytes()).then_some(left))
}

/// Checks what a crash after the last call of a run may leave, by these picks.
pub fn check_left(
    rt: &impl Abort,
    alloc: Global,
    story: &Story,
    end: &Ended,
    picks: &[Pick],
) -> Result<(), NoMemory> {
    let call = end.disk.calls();
    let owed = owed(story, end);
    for pick in picks {
        if let Some(left) = image_now(alloc, &end.disk, *pick)? {
            let found = shown(alloc, story, &left)?;
            assert!(rt;
                is_kept(found, owed),
                "{call}, {pick:?}: {found:?} of {owed}"
            );
        }
    }
    Ok(())
}
