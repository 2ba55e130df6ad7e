//! Five commits of inserts, updates and deletes, and what a second run shows of them. The tables of stops and of
//! failures run them.
use crate::stories::Story;
use rb_base::NoMemory;
use std::alloc::Global;

// How many commits there are.
const COMMITS: u8 = 5;

/// What a line does to its key.
#[derive(Clone, Copy)]
enum Change {
    Insert(&'static str),
    Update(&'static str),
    Delete,
}

// The lines in order: the number of their commit, how many times they stand there, the key and what is done to it.
const LINES: [(u8, u8, u64, Change); 15] = [
    (1, 1, 30, Change::Insert("thirty")),
    (1, 1, 10, Change::Insert("ten")),
    (1, 1, 20, Change::Insert("twenty")),
    (2, 1, 5, Change::Insert("five")),
    (2, 1, 10, Change::Update(LONG)),
    (2, 1, 30, Change::Delete),
    (3, 1, 98, Change::Insert("gone")),
    (3, 1, 98, Change::Delete),
    (3, 1, 5, Change::Delete),
    (3, 1, 5, Change::Insert("again")),
    (3, 1, 30, Change::Insert("~")),
    // Two runs of the log: the first has 32 groups and no commit.
    (4, 1, 24, Change::Insert("!")),
    (4, 32, 20, Change::Update("many")),
    (4, 1, 10, Change::Delete),
    (5, 1, 0, Change::Insert("nought")),
];

// As long as a value may be.
const LONG: &str =
    "vvvvvvvvvvvvvvvvvvvvvvvvvvvvvvvvvvvvvvvvvvvvvvvvvvvvvvvvvvvvvvvvvvvvvvvvvvvvvvvv";

// Shows the rows, and goes on with one more commit.
const SECOND: &[u8] = b"\
open 1 c 1 0 99
fetch 1 c 99
insert 1 1 99 z
commit 1
";

// The line of a change.
fn add_line(script: &mut String, key: u64, change: Change) -> Result<(), NoMemory> {
    let added = match change {
        Change::Insert(value) => write!(script, "insert 1 1 {key} {value}\n"),
        Change::Update(value) => write!(script, "update 1 1 {key} {value}\n"),
        Change::Delete => write!(script, "delete 1 1 {key}\n"),
    };
    added.map_err(|_| NoMemory)
}

// A line as often as it stands there, and its replies.
fn add_lines(
    script: &mut String,
    replies: &mut String,
    times: u8,
    key: u64,
    change: Change,
) -> Result<(), NoMemory> {
    for _ in 0..times {
        add_line(script, key, change)?;
        replies.push_str("1 ok\n").map_err(|_| NoMemory)?;
    }
    Ok(())
}

// The lines of a commit, and their replies.
fn add_changes(script: &mut String, replies: &mut String, number: u8) -> Result<(), NoMemory> {
    for (commit, times, key, change) in LINES {
        if commit == number {
            add_lines(script, replies, times, key, change)?;
        }
    }
    Ok(())
}

// The value of a key after so many commits: the last of its changes gives it, or takes it away.
fn value_of(commits: u8, key: u64) -> Option<&'static str> {
    let mut found = None;
    for (commit, _times, at, change) in LINES {
        if commit <= commits && at == key {
            found = match change {
                Change::Insert(value) | Change::Update(value) => Some(value),
                Change::Delete => None,
            };
        }
    }
    found
}

// What the second run answers after so many commits.
fn second_replies(alloc: Global, commits: u8) -> Result<String, NoMemory> {
    let mut replies = String::from_str(alloc, "1 ok\n").map_err(|_| NoMemory)?;
    for key in 0..=99 {
        if let Some(value) = value_of(commits, key) {
            write!(replies, "1 row {key} {value}\n").map_err(|_| NoMemory)?;
        }
    }
    let next = u64::from(commits) + 1;
    write!(replies, "1 end\n1 ok\n1 committed {next}\n").map_err(|_| NoMemory)?;
    Ok(replies)
}

/// The commits. Each line has one reply, and each commit is a flush.
pub fn five_commits(alloc: Global) -> Result<Story, NoMemory> {
    let mut script = String::new(alloc);
    let mut replies = String::new(alloc);
    let mut told = Vec::new(alloc);
    told.push(second_replies(alloc, 0)?).map_err(|_| NoMemory)?;
    for number in 1..=COMMITS {
        add_changes(&mut script, &mut replies, number)?;
        script.push_str("commit 1\n").map_err(|_| NoMemory)?;
        write!(replies, "1 committed {number}\n").map_err(|_| NoMemory)?;
        told.push(second_replies(alloc, number)?)
            .map_err(|_| NoMemory)?;
    }
    Ok(Story {
        script,
        replies: replies.as_bytes().to_vec(alloc).map_err(|_| NoMemory)?,
        second: SECOND,
        told,
        tells_checkpoints: true,
    })
}
