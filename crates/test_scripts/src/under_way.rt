//! Runs in which a transaction is under way at nearly each call of the disk, and what a second run shows of them. The
//! tables of stops, of failures and of openings run them.
use crate::dialogues::replies_of;
use crate::stories::Story;
use rb_base::NoMemory;
use std::alloc::Global;

// The first transaction commits. The second is put back, when a checkpoint has made a part of it last. The third
// commits, after a checkpoint made last both that put back and a part of the third. The fourth is under way at the end.
const TRANSACTIONS: &str = "\
insert 1 1 1 a
#> 1 ok
insert 1 1 2 b
#> 1 ok
commit 1
#> 1 committed 1
update 1 1 1 c
#> 1 ok
delete 1 1 2
#> 1 ok
checkpoint
#> ok
insert 1 1 3 d
#> 1 ok
rollback 1
#> 1 ok
update 1 1 2 e
#> 1 ok
insert 1 1 4 f
#> 1 ok
checkpoint
#> ok
delete 1 1 1
#> 1 ok
commit 1
#> 1 committed 2
update 1 1 4 g
#> 1 ok
insert 1 1 1 h
#> 1 ok
";

// The rows of a commit, how many records were made and the number of the next commit, after each flush: the commit, two
// checkpoints, the commit, and the end.
const LEFT: [(&str, u64, u64); 6] = [
    ("", 0, 1),
    (FIRST_ROWS, 2, 2),
    (FIRST_ROWS, 4, 2),
    (FIRST_ROWS, 7, 2),
    (SECOND_ROWS, 8, 3),
    (SECOND_ROWS, 10, 3),
];

const FIRST_ROWS: &str = "1 row 1 a\n1 row 2 b\n";

const SECOND_ROWS: &str = "1 row 2 e\n1 row 4 f\n";

// Two transactions are under way, one of them serializable, beside a cursor of a read-only one that was opened before
// both. One commits, which the cursor doesn't see and the other may not write over; this one is put back. Then both
// sessions have one under way again, of the same modes, at the end.
const TWO_SESSIONS: &str = "\
insert 1 1 1 a
#> 1 ok
insert 1 1 2 b
#> 1 ok
commit 1
#> 1 committed 1
set 2 serializable
#> 2 ok
set 3 read-only
#> 3 ok
open 3 all 1 0 99
#> 3 ok
update 2 1 1 x
#> 2 ok
insert 1 1 3 c
#> 1 ok
delete 1 1 1
#> 1 waits 2
cancel 1
#> 1 ok
fetch 3 all 1
#> 3 row 1 a
checkpoint
#> ok
delete 2 1 2
#> 2 ok
update 1 1 3 d
#> 1 ok
commit 1
#> 1 committed 2
update 2 1 3 y
#> 2 cannot serialize 1 2
fetch 3 all 9
#> 3 row 2 b
#> 3 end
rollback 2
#> 2 ok
update 1 1 2 z
#> 1 ok
set 2 serializable
#> 2 ok
insert 2 1 4 w
#> 2 ok
";

// The same after each flush: the commit, the checkpoint, the commit, and the end.
const TWO_LEFT: [(&str, u64, u64); 5] = [
    ("", 0, 1),
    (FIRST_ROWS, 2, 2),
    (FIRST_ROWS, 4, 2),
    (BESIDE_ROWS, 6, 3),
    (BESIDE_ROWS, 8, 3),
];

const BESIDE_ROWS: &str = "1 row 1 a\n1 row 2 b\n1 row 3 d\n";

// A lock, and two changes behind a savepoint, are under way at a checkpoint. The changes are put back to it, and the
// lock stays; so are all of another session, whose slot is left without a change. Both are so at a second checkpoint.
// Then the first one changes its row and commits, the other ends without a number, and a third holds a row at the
// end.
const SAVEPOINTS: &str = "\
insert 1 1 1 a
#> 1 ok
insert 1 1 2 b
#> 1 ok
commit 1
#> 1 committed 1
lock 1 1 1
#> 1 ok
savepoint 1 p
#> 1 ok
update 1 1 1 x
#> 1 ok
insert 1 1 3 c
#> 1 ok
checkpoint
#> ok
rollback 1 p
#> 1 ok
update 2 1 1 y
#> 2 waits 1
cancel 2
#> 2 ok
savepoint 2 q
#> 2 ok
delete 2 1 2
#> 2 ok
insert 2 1 3 y
#> 2 ok
rollback 2 q
#> 2 ok
checkpoint
#> ok
update 1 1 1 z
#> 1 ok
commit 1
#> 1 committed 2
commit 2
#> 2 ok
lock 3 1 2
#> 3 ok
";

// The same after each flush: the commit, two checkpoints, the commit, and the end.
const SAVEPOINTS_LEFT: [(&str, u64, u64); 6] = [
    ("", 0, 1),
    (FIRST_ROWS, 2, 2),
    (FIRST_ROWS, 5, 2),
    (FIRST_ROWS, 7, 2),
    (CHANGED_ROWS, 8, 3),
    (CHANGED_ROWS, 9, 3),
];

const CHANGED_ROWS: &str = "1 row 1 z\n1 row 2 b\n";

// Three sessions wait at the first checkpoint, two of them for the first one and one for the second. By the commit of
// the first one the second has what it waited for, as a change behind that commit, and the third waits for it in its
// turn. Again three wait at the second checkpoint. Then the second puts all back, and the two that waited for it have
// their changes, the one that came before the other first. The last one has its lock behind the last commit.
const QUEUE: &str = "\
insert 1 1 1 a
#> 1 ok
insert 1 1 2 b
#> 1 ok
commit 1
#> 1 committed 1
lock 1 1 1
#> 1 ok
update 2 1 2 x
#> 2 ok
update 2 1 1 y
#> 2 waits 1
delete 3 1 1
#> 3 waits 1
update 4 1 2 z
#> 4 waits 2
checkpoint
#> ok
commit 1
#> 1 committed 2
#> 2 ok
#> 3 waits 2
insert 1 1 3 c
#> 1 ok
lock 5 1 3
#> 5 waits 1
checkpoint
#> ok
rollback 2
#> 2 ok
#> 4 ok
#> 3 ok
commit 1
#> 1 committed 3
#> 5 ok
";

// The same after each flush: the commit, the checkpoint, the commit, the checkpoint, the commit, and the end.
const QUEUE_LEFT: [(&str, u64, u64); 7] = [
    ("", 0, 1),
    (FIRST_ROWS, 2, 2),
    (FIRST_ROWS, 4, 2),
    (FIRST_ROWS, 4, 3),
    (FIRST_ROWS, 6, 3),
    (QUEUE_ROWS, 8, 4),
    (QUEUE_ROWS, 9, 4),
];

const QUEUE_ROWS: &str = "1 row 1 a\n1 row 2 b\n1 row 3 c\n";

// A transaction of more changes than one run of the log has, whose records lie in two extents: 40 and 1.
const LONG: usize = 41;

// The same after nothing, and after its flush, which takes two runs of the log.
const LONG_LEFT: [(&str, u64, u64); 2] = [("", 0, 1), ("", 41, 1)];

// Shows the rows, the marks and that a session doesn't wait which may have done so, and goes on with one more commit,
// which has the next number.
const SECOND: &[u8] = b"\
open 1 c 1 0 99
fetch 1 c 99
marks
cancel 3
insert 1 1 99 z
commit 1
";

// What the second run answers.
fn second_replies(alloc: Global, rows: &str, writes: u64, next: u64) -> Result<String, NoMemory> {
    let mut replies = String::from_str(alloc, "1 ok\n").map_err(|_| NoMemory)?;
    replies.push_str(rows).map_err(|_| NoMemory)?;
    write!(
        replies,
        "1 end\nsegment 0 writes {writes} lost 0\n3 not waiting\n1 ok\n1 committed {next}\n"
    )
    .map_err(|_| NoMemory)?;
    Ok(replies)
}

// The story of a dialogue that leaves these.
fn story_of(alloc: Global, script: String, left: &[(&str, u64, u64)]) -> Result<Story, NoMemory> {
    let mut told = Vec::new(alloc);
    for (rows, writes, next) in left {
        told.push(second_replies(alloc, rows, *writes, *next)?)
            .map_err(|_| NoMemory)?;
    }
    let replies = replies_of(alloc, script.as_bytes())?;
    Ok(Story {
        script,
        replies,
        second: SECOND,
        told,
        tells_checkpoints: true,
    })
}

/// Four transactions, of which two commit.
pub fn four_transactions(alloc: Global) -> Result<Story, NoMemory> {
    let script = String::from_str(alloc, TRANSACTIONS).map_err(|_| NoMemory)?;
    story_of(alloc, script, &LEFT)
}

/// Two sessions with a transaction each, beside a cursor of a third.
pub fn two_sessions(alloc: Global) -> Result<Story, NoMemory> {
    let script = String::from_str(alloc, TWO_SESSIONS).map_err(|_| NoMemory)?;
    story_of(alloc, script, &TWO_LEFT)
}

/// Two sessions that roll back to a savepoint, behind which the one has a lock left and the other nothing.
pub fn savepoints(alloc: Global) -> Result<Story, NoMemory> {
    let script = String::from_str(alloc, SAVEPOINTS).map_err(|_| NoMemory)?;
    story_of(alloc, script, &SAVEPOINTS_LEFT)
}

/// Sessions that wait for others, three of them at a time, and have what they waited for behind the ends of these.
pub fn queues(alloc: Global) -> Result<Story, NoMemory> {
    let script = String::from_str(alloc, QUEUE).map_err(|_| NoMemory)?;
    story_of(alloc, script, &QUEUE_LEFT)
}

/// One transaction that takes two runs of the log and two extents, and is under way at the end.
pub fn long_transaction(alloc: Global) -> Result<Story, NoMemory> {
    let mut script = String::from_str(alloc, "insert 1 1 1 a\n#> 1 ok\n").map_err(|_| NoMemory)?;
    for _ in 1..LONG {
        script
            .push_str("update 1 1 1 b\n#> 1 ok\n")
            .map_err(|_| NoMemory)?;
    }
    story_of(alloc, script, &LONG_LEFT)
}
