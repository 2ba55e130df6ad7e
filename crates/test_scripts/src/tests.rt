//! The worked rows: dialogues, and what a run leaves for the next one. What is expected stands in the rows, and is no
//! output of the program.
use crate::dialogues::{check, check_each, repeated, replies_of};
use crate::doubles::{
    FORMAT_LARGE, FORMAT_SMALL, FORMAT_TWO_BLOCKS, FRAMES, Failing, NONE, RUN, formatted, run_over,
};
use crate::stories::{PICKS, image};
use rb_base::NoMemory;
use rb_engine::Engine;
use rb_memdisk::{MemDisk, Pick};
use rb_model::{Op, Refusal, Wrote};
use rb_store::LogStore;
use std::alloc::Global;
use std::test::Fail;

// Over a fresh file each. The last line of a script may lack its end, and its reply stands above it then.
#[test]
fn replies(rt: HostRuntime) -> Result<(), Fail> {
    let rows: [(&str, &[u8]); 7] = [
        ("empty script", b""),
        (
            "a sweep takes nothing of those that live",
            b"\
sweep 1
#> swept 0
insert 1 1 1 a
#> 1 ok
sweep 1000000
#> swept 0
sweep 0
#> bad line
sweep 1000001
#> bad line
commit 1
#> 1 committed 1
sweep 9
#> swept 0
",
        ),
        (
            "insert, commit, fetch",
            b"\
insert 1 1 1 a
#> 1 ok
commit 1
#> 1 committed 1
open 1 c 1 0 9
#> 1 ok
fetch 1 c 5
#> 1 row 1 a
#> 1 end
commit 1
#> 1 ok
close 1 c
#> 1 ok
",
        ),
        (
            "closed cursors",
            b"\
insert 1 1 1 a
#> 1 ok
open 1 first 1 0 9
#> 1 ok
open 1 second 1 0 9
#> 1 ok
close 1 first
#> 1 ok
fetch 1 first 1
#> 1 no cursor
close 1 first
#> 1 no cursor
fetch 1 second 1
#> 1 row 1 a
close 2 second
#> 2 no cursor
open 1 first 1 0 9
#> 1 ok
fetch 1 first 1
#> 1 row 1 a
",
        ),
        (
            "frozen own changes",
            b"\
insert 1 1 1 a
#> 1 ok
open 1 c 1 0 9
#> 1 ok
insert 1 1 2 b
#> 1 ok
fetch 1 c 5
#> 1 row 1 a
#> 1 end
",
        ),
        (
            "last line without its end",
            b"\
insert 1 1 1 a
#> 1 ok
#> 1 committed 1
commit 1",
        ),
        (
            "one row at a time",
            b"\
insert 1 1 1 a
#> 1 ok
open 1 c 1 0 9
#> 1 ok
fetch 1 c 1
#> 1 row 1 a
fetch 1 c 1
#> 1 end
fetch 1 c 1
#> 1 end
open 1 d 1 5 4
#> 1 ok
fetch 1 d 1
#> 1 end
",
        ),
    ];
    let file = formatted(rt.alloc(), FORMAT_LARGE)?;
    check_each(&rt, rt.alloc(), &file, &rows)?;
    Ok(())
}

// Two sessions and more, over a fresh file each.
#[test]
fn several_sessions(rt: HostRuntime) -> Result<(), Fail> {
    let rows: [(&str, &[u8]); 5] = [
        (
            "snapshot before update",
            b"\
insert 1 1 1 a
#> 1 ok
commit 1
#> 1 committed 1
open 1 c 1 0 9
#> 1 ok
update 2 1 1 b
#> 2 ok
commit 2
#> 2 committed 2
fetch 1 c 1
#> 1 row 1 a
",
        ),
        (
            "snapshot across deletes",
            b"\
insert 1 1 1 a
#> 1 ok
insert 1 1 2 b
#> 1 ok
insert 1 1 3 c
#> 1 ok
commit 1
#> 1 committed 1
open 2 c 1 0 9
#> 2 ok
fetch 2 c 1
#> 2 row 1 a
delete 1 1 2
#> 1 ok
delete 1 1 3
#> 1 ok
commit 1
#> 1 committed 2
fetch 2 c 5
#> 2 row 2 b
#> 2 row 3 c
#> 2 end
",
        ),
        (
            "cursor across commits",
            b"\
insert 1 1 1 a
#> 1 ok
commit 1
#> 1 committed 1
update 1 1 1 b
#> 1 ok
open 1 c 1 0 9
#> 1 ok
commit 1
#> 1 committed 2
update 2 1 1 z
#> 2 ok
commit 2
#> 2 committed 3
fetch 1 c 5
#> 1 row 1 b
#> 1 end
",
        ),
        ("slots full", EIGHT_SESSIONS),
        ("keys of another session", TWO_SESSIONS),
    ];
    let file = formatted(rt.alloc(), FORMAT_LARGE)?;
    check_each(&rt, rt.alloc(), &file, &rows)?;
    Ok(())
}

// A home has room for the changes of eight sessions.
const EIGHT_SESSIONS: &[u8] = b"\
insert 1 1 1 a
#> 1 ok
insert 2 1 2 a
#> 2 ok
insert 3 1 3 a
#> 3 ok
insert 4 1 4 a
#> 4 ok
insert 5 1 5 a
#> 5 ok
insert 6 1 6 a
#> 6 ok
insert 7 1 7 a
#> 7 ok
insert 8 1 8 a
#> 8 ok
insert 9 1 9 a
#> 9 slots full
insert 8 1 9 b
#> 8 ok
commit 1
#> 1 committed 1
insert 9 1 9 a
#> 9 waits 8
cancel 9
#> 9 ok
insert 9 1 10 a
#> 9 ok
";

// A key belongs to the session that changed it until its transaction ends: also one that it deleted, or inserted and
// deleted. That another one waits is told after a value too long, and before whether there is a row. No row is changed
// by it, and nothing is left of a wait that is cancelled.
const TWO_SESSIONS: &[u8] = b"\
insert 1 1 1 a
#> 1 ok
insert 1 1 2 a
#> 1 ok
delete 1 1 2
#> 1 ok
insert 2 1 1 b
#> 2 waits 1
cancel 2
#> 2 ok
update 2 1 2 b
#> 2 waits 1
cancel 2
#> 2 ok
delete 16 1 1
#> 16 waits 1
cancel 16
#> 16 ok
insert 2 2 1 b
#> 2 no table
commit 2
#> 2 ok
open 2 c 1 0 9
#> 2 ok
fetch 2 c 9
#> 2 end
rollback 1
#> 1 ok
update 2 1 1 b
#> 2 not found
insert 2 1 1 b
#> 2 ok
insert 1 1 1 a
#> 1 waits 2
open 2 d 1 0 9
#> 2 ok
commit 2
#> 2 committed 1
#> 1 duplicate
rollback 2
#> 2 ok
fetch 2 d 9
#> 2 row 1 b
#> 2 end
";

// Values of 80 and 81 bytes.
const LINE_BOUNDS: &[u8] = b"\
insert 1 1 18446744073709551615 vvvvvvvvvvvvvvvvvvvvvvvvvvvvvvvvvvvvvvvvvvvvvvvvvvvvvvvvvvvvvvvvvvvvvvvvvvvvvvvv
#> 1 ok
insert 1 1 2 vvvvvvvvvvvvvvvvvvvvvvvvvvvvvvvvvvvvvvvvvvvvvvvvvvvvvvvvvvvvvvvvvvvvvvvvvvvvvvvvv
#> 1 value too long
insert 1 1 18446744073709551616 a
#> bad line
insert 1 1 01 a
#> bad line
insert 1  1 1 a
#> bad line
INSERT 1 1 1 a
#> bad line
commit 1\r
#> 1 committed 1
";

#[test]
fn line_bounds(rt: HostRuntime) -> Result<(), Fail> {
    let file = formatted(rt.alloc(), FORMAT_LARGE)?;
    let _ = check(&rt, rt.alloc(), "line bounds", &file, LINE_BOUNDS)?;
    let mut dialogue = LINE_BOUNDS.to_vec(rt.alloc())?;
    // The last line has no end.
    dialogue.extend_from_slice(b"#> segment 0 writes 1 lost 0\nmarks")?;
    let _ = check(&rt, rt.alloc(), "last line", &file, &dialogue)?;
    Ok(())
}

// Refusals, over a fresh file each.
#[test]
fn refusals(rt: HostRuntime) -> Result<(), Fail> {
    let rows: [(&str, &[u8]); 3] = [
        (
            "sessions and tables",
            b"\
commit 65535
#> 65535 no session
commit 0
#> 0 no session
commit 16
#> 16 ok
commit 17
#> 17 no session
rollback 17
#> 17 no session
insert 17 1 1 a
#> 17 no session
open 17 c 1 0 9
#> 17 no session
fetch 17 c 1
#> 17 no session
update 17 1 1 a
#> 17 no session
delete 17 1 1
#> 17 no session
close 17 c
#> 17 no session
cancel 0
#> 0 no session
cancel 17
#> 17 no session
insert 1 2 1 a
#> 1 no table
insert 1 0 1 a
#> 1 no table
update 1 2 1 a
#> 1 no table
delete 1 2 1
#> 1 no table
open 1 c 2 0 9
#> 1 no table
",
        ),
        (
            "keys and cursors",
            b"\
insert 1 1 1 a
#> 1 ok
insert 1 1 1 b
#> 1 duplicate
fetch 1 c 1
#> 1 no cursor
open 1 c 1 0 9
#> 1 ok
open 1 c 1 0 9
#> 1 cursor there
open 1 c 2 0 9
#> 1 no table
commit 1
#> 1 committed 1
insert 1 1 1 b
#> 1 duplicate
",
        ),
        (
            "one session, one that reads and one that waits",
            b"\
set 17 serializable
#> 17 no session
insert 1 2 1 a
#> 1 no table
update 1 1 1 a
#> 1 not found
insert 1 1 1 a
#> 1 ok
insert 1 1 1 b
#> 1 duplicate
set 1 read-only
#> 1 not first
fetch 1 c 1
#> 1 no cursor
open 1 c 1 0 9
#> 1 ok
open 1 c 1 0 9
#> 1 cursor there
rollback 1 p
#> 1 no savepoint
cancel 1
#> 1 not waiting
set 2 read-only
#> 2 ok
delete 2 1 1
#> 2 read only
lock 3 1 1
#> 3 waits 1
commit 3
#> 3 waiting
rollback 1
#> 1 ok
#> 3 not found
fetch 1 c 1
#> 1 no cursor
",
        ),
    ];
    let file = formatted(rt.alloc(), FORMAT_SMALL)?;
    check_each(&rt, rt.alloc(), &file, &rows)?;
    Ok(())
}

// Each line is a bad one.
const BAD_LINES: &[u8] = b"\
fetch 1 c 0
open 1 C 1 0 9
savepoint 1 abcdefghijklmnopq
insert 1 1 1\x20
insert 1 1 1 a\x20
insert 1\t1 1 a
insert 1 1 1 a\x80
marks 1
marks 0
flush 1
flush 0
checkpoint 1
rollback
rollback 1 \x20
rollback 01
rollback 1 A
rollback 1 a b
rollback 1 abcdefghijklmnopq
rollback 65536 a
commit 65536
\r\r
\x20
 commit 1
commit
commit 1 1
commit 1 now
commit 1 later 1
commit 1  later
commit later
commit 65536 later
commit +1
commit -1
commit 1\r\r
set 1 READ-ONLY
set 1
set 1 read_only
set 1 read-only\x20
set 1 serializable 2
set 65536 read-committed
fetch 1 c 1000001
fetch 1 c 00
open 1 c 1 0
lock 1 1 1 a
lock 1 1
lock 1 1 01
LOCK 1 1 1
delete 1 1 1 a
insert 1 1 1 a\0
commit 1\0
savepoint 1\x20
savepoint 1
savepoint 1 a b
savepoint 01 a
cancel
cancel 1 1
cancel 01
cancel 65536
CANCEL 1
apply 1
fetch 1 c 01
update 1 1 1
update 1 1 1 a b
delete 1 1
";

// Remarks, and lines that look like bad ones.
const OTHER_LINES: &[u8] = b"\
\r

#
# x\r
insert 1 1 1 #
#> 1 ok
open 1 abcdefghijklmnop 1 0 9
#> 1 ok
open 1 _0 1 0 9
#> 1 ok
fetch 1 c 1000000
#> 1 no cursor
savepoint 1 abcdefghijklmnop
#> 1 ok
savepoint 1 _0
#> 1 ok
rollback 1 0
#> 1 no savepoint
rollback 1 abcdefghijklmnop
#> 1 ok
lock 1 1 18446744073709551615
#> 1 not found
";

#[test]
fn bad_lines(rt: HostRuntime) -> Result<(), Fail> {
    let mut dialogue = Vec::new(rt.alloc());
    for line in BAD_LINES.split_inclusive(|byte| *byte == b'\n') {
        dialogue.extend_from_slice(line)?;
        dialogue.extend_from_slice(b"#> bad line\n")?;
    }
    let file = formatted(rt.alloc(), FORMAT_SMALL)?;
    let _ = check(&rt, rt.alloc(), "bad lines", &file, &dialogue)?;
    let _ = check(&rt, rt.alloc(), "other lines", &file, OTHER_LINES)?;
    Ok(())
}

// A line has at most 512 bytes, its CR among them. Here the reply stands above the line, which may have no end.
#[test]
fn long_lines(rt: HostRuntime) -> Result<(), Fail> {
    let rows: [(&str, &[u8], usize, &[u8]); 5] = [
        ("511, CR", b"", 511, b"\r\n"),
        ("512", b"", 512, b"\n"),
        ("512, CR", b"#> bad line\n", 512, b"\r\n"),
        ("513", b"#> bad line\n", 513, b"\n"),
        ("100,000", b"#> bad line\n", 100_000, b""),
    ];
    let file = formatted(rt.alloc(), FORMAT_SMALL)?;
    for (name, reply, count, end) in rows {
        let mut dialogue = reply.to_vec(rt.alloc())?;
        dialogue.extend_from_slice(&repeated(rt.alloc(), b"#", count)?)?;
        dialogue.extend_from_slice(end)?;
        let _ = check(&rt, rt.alloc(), name, &file, &dialogue)?;
    }
    Ok(())
}

// Updates and deletes, over a fresh file each.
#[test]
fn updates_and_deletes(rt: HostRuntime) -> Result<(), Fail> {
    let rows: [(&str, &[u8]); 7] = [
        (
            "keys without a row",
            b"\
update 1 1 1 a
#> 1 not found
delete 1 1 1
#> 1 not found
insert 1 1 1 a
#> 1 ok
insert 1 1 1 b
#> 1 duplicate
delete 1 1 1
#> 1 ok
update 1 1 1 b
#> 1 not found
delete 1 1 1
#> 1 not found
commit 1
#> 1 committed 1
update 1 1 1 b
#> 1 not found
delete 1 1 1
#> 1 not found
",
        ),
        (
            "an update, and a new cursor",
            b"\
insert 1 1 1 a
#> 1 ok
commit 1
#> 1 committed 1
update 1 1 1 b
#> 1 ok
open 1 own 1 0 9
#> 1 ok
commit 1
#> 1 committed 2
open 1 late 1 0 9
#> 1 ok
fetch 1 own 5
#> 1 row 1 b
#> 1 end
fetch 1 late 5
#> 1 row 1 b
#> 1 end
",
        ),
        (
            "a delete, and a new cursor",
            b"\
insert 1 1 1 a
#> 1 ok
insert 1 1 2 b
#> 1 ok
commit 1
#> 1 committed 1
delete 1 1 1
#> 1 ok
open 1 own 1 0 9
#> 1 ok
commit 1
#> 1 committed 2
open 1 late 1 0 9
#> 1 ok
fetch 1 own 5
#> 1 row 2 b
#> 1 end
fetch 1 late 5
#> 1 row 2 b
#> 1 end
",
        ),
        (
            "a cursor opened before them",
            b"\
insert 1 1 1 a
#> 1 ok
insert 1 1 2 b
#> 1 ok
commit 1
#> 1 committed 1
open 1 early 1 0 9
#> 1 ok
fetch 1 early 1
#> 1 row 1 a
update 1 1 1 c
#> 1 ok
delete 1 1 2
#> 1 ok
insert 1 1 3 d
#> 1 ok
fetch 1 early 1
#> 1 row 2 b
commit 1
#> 1 committed 2
fetch 1 early 1
#> 1 end
close 1 early
#> 1 ok
open 1 early 1 0 9
#> 1 ok
fetch 1 early 5
#> 1 row 1 c
#> 1 row 3 d
#> 1 end
",
        ),
        (
            "a key deleted and made again",
            b"\
insert 1 1 1 a
#> 1 ok
commit 1
#> 1 committed 1
open 1 early 1 0 9
#> 1 ok
delete 1 1 1
#> 1 ok
open 1 between 1 0 9
#> 1 ok
insert 1 1 1 b
#> 1 ok
insert 1 1 1 c
#> 1 duplicate
open 1 own 1 0 9
#> 1 ok
commit 1
#> 1 committed 2
fetch 1 early 5
#> 1 row 1 a
#> 1 end
fetch 1 between 5
#> 1 end
fetch 1 own 5
#> 1 row 1 b
#> 1 end
",
        ),
        (
            "changes of one transaction that cancel out",
            b"\
insert 1 1 1 a
#> 1 ok
delete 1 1 1
#> 1 ok
open 1 c 1 0 9
#> 1 ok
fetch 1 c 5
#> 1 end
commit 1
#> 1 committed 1
commit 1
#> 1 ok
",
        ),
        ("values", LONG_UPDATES),
    ];
    let file = formatted(rt.alloc(), FORMAT_SMALL)?;
    check_each(&rt, rt.alloc(), &file, &rows)?;
    Ok(())
}

// Values of 80 and 81 bytes. That a value is too long is told before whether there is a row.
const LONG_UPDATES: &[u8] = b"\
update 1 1 1 vvvvvvvvvvvvvvvvvvvvvvvvvvvvvvvvvvvvvvvvvvvvvvvvvvvvvvvvvvvvvvvvvvvvvvvvvvvvvvvvv
#> 1 value too long
insert 1 1 1 a
#> 1 ok
update 1 1 1 vvvvvvvvvvvvvvvvvvvvvvvvvvvvvvvvvvvvvvvvvvvvvvvvvvvvvvvvvvvvvvvvvvvvvvvvvvvvvvvvv
#> 1 value too long
update 1 1 1 vvvvvvvvvvvvvvvvvvvvvvvvvvvvvvvvvvvvvvvvvvvvvvvvvvvvvvvvvvvvvvvvvvvvvvvvvvvvvvvv
#> 1 ok
open 1 long 1 0 9
#> 1 ok
update 1 1 1 b
#> 1 ok
open 1 short 1 0 9
#> 1 ok
fetch 1 long 5
#> 1 row 1 vvvvvvvvvvvvvvvvvvvvvvvvvvvvvvvvvvvvvvvvvvvvvvvvvvvvvvvvvvvvvvvvvvvvvvvvvvvvvvvv
#> 1 end
fetch 1 short 5
#> 1 row 1 b
#> 1 end
";

// What a first run leaves for a second one.
#[test]
fn second_runs(rt: HostRuntime) -> Result<(), Fail> {
    let rows: [(&str, &[u8]); 7] = [
        (
            "nothing",
            b"\
#--
open 1 c 1 0 9
#> 1 ok
fetch 1 c 5
#> 1 end
",
        ),
        (
            "a row without its commit",
            b"\
insert 1 1 1 a
#> 1 ok
#--
open 1 c 1 0 9
#> 1 ok
fetch 1 c 5
#> 1 end
",
        ),
        (
            "a row, and one without its commit",
            b"\
insert 1 1 1 a
#> 1 ok
commit 1
#> 1 committed 1
insert 1 1 2 b
#> 1 ok
#--
open 1 c 1 0 9
#> 1 ok
fetch 1 c 5
#> 1 row 1 a
#> 1 end
",
        ),
        (
            "a key that is there",
            b"\
insert 1 1 1 a
#> 1 ok
commit 1
#> 1 committed 1
#--
insert 1 1 1 b
#> 1 duplicate
insert 1 1 2 b
#> 1 ok
commit 1
#> 1 committed 2
",
        ),
        (
            "an update and a delete",
            b"\
insert 1 1 1 a
#> 1 ok
insert 1 1 2 b
#> 1 ok
commit 1
#> 1 committed 1
update 1 1 1 c
#> 1 ok
delete 1 1 2
#> 1 ok
commit 1
#> 1 committed 2
#--
open 1 c 1 0 9
#> 1 ok
fetch 1 c 5
#> 1 row 1 c
#> 1 end
",
        ),
        (
            "an update and a delete without their commit",
            b"\
insert 1 1 1 a
#> 1 ok
insert 1 1 2 b
#> 1 ok
commit 1
#> 1 committed 1
update 1 1 1 c
#> 1 ok
delete 1 1 2
#> 1 ok
#--
open 1 c 1 0 9
#> 1 ok
fetch 1 c 5
#> 1 row 1 a
#> 1 row 2 b
#> 1 end
",
        ),
        (
            "a key that is gone",
            b"\
insert 1 1 1 a
#> 1 ok
commit 1
#> 1 committed 1
delete 1 1 1
#> 1 ok
commit 1
#> 1 committed 2
#--
update 1 1 1 b
#> 1 not found
insert 1 1 1 b
#> 1 ok
commit 1
#> 1 committed 3
",
        ),
    ];
    let file = formatted(rt.alloc(), FORMAT_SMALL)?;
    check_each(&rt, rt.alloc(), &file, &rows)?;
    Ok(())
}

// A log of 64 slots that goes round.
#[test]
fn logs_go_round(rt: HostRuntime) -> Result<(), Fail> {
    let rows: [(&str, &[u8]); 5] = [
        ("log goes round by commits", LAPS_OF_COMMITS),
        ("log goes round by one transaction", LAPS_OF_CHANGES),
        ("rollback behind a lap", ROLLBACK_BEHIND_A_LAP),
        (
            "rollback behind a lap, second run",
            ROLLBACK_BEHIND_A_LAP_LATER,
        ),
        ("log goes round from run to run", LAPS_OF_RUNS),
    ];
    let file = formatted(rt.alloc(), FORMAT_SMALL)?;
    check_each(&rt, rt.alloc(), &file, &rows)?;
    Ok(())
}

// Commits of two groups each: 500 of them are nearly sixteen laps. The next run has the last of them, and goes on.
const LAPS_OF_COMMITS: &[u8] = b"\
insert 1 1 1 1
#> 1 ok
commit 1
#> 1 committed 1
#* 2 500
update 1 1 1 @
#> 1 ok
commit 1
#> 1 committed @
#.
marks
#> segment 0 writes 500 lost 484
#--
open 1 c 1 0 9
#> 1 ok
fetch 1 c 5
#> 1 row 1 500
#> 1 end
marks
#> segment 0 writes 500 lost 484
update 1 1 1 b
#> 1 ok
commit 1
#> 1 committed 501
#--
open 1 c 1 0 9
#> 1 ok
fetch 1 c 5
#> 1 row 1 b
#> 1 end
";

// The changes of one transaction are more than three laps. The log has none of its first ones as it commits.
const LAPS_OF_CHANGES: &[u8] = b"\
insert 1 1 1 a
#> 1 ok
#* 1 200
update 1 1 1 @
#> 1 ok
#.
commit 1
#> 1 committed 1
#--
open 1 c 1 0 9
#> 1 ok
fetch 1 c 5
#> 1 row 1 200
#> 1 end
";

// What a transaction did over more than two laps is put back over two more: a row that is changed, one that is deleted
// and one that is made. Behind it there is room for another transaction.
const ROLLBACK_BEHIND_A_LAP: &[u8] = b"\
insert 1 1 1 a
#> 1 ok
insert 1 1 2 b
#> 1 ok
commit 1
#> 1 committed 1
delete 1 1 2
#> 1 ok
insert 1 1 3 c
#> 1 ok
#* 1 150
update 1 1 1 @
#> 1 ok
#.
rollback 1
#> 1 ok
open 1 c 1 0 9
#> 1 ok
fetch 1 c 5
#> 1 row 1 a
#> 1 row 2 b
#> 1 end
insert 1 1 3 d
#> 1 ok
commit 1
#> 1 committed 2
#--
open 1 c 1 0 9
#> 1 ok
fetch 1 c 5
#> 1 row 1 a
#> 1 row 2 b
#> 1 row 3 d
#> 1 end
";

// The next opening puts the same back, where the script ends before that. Its log goes round too.
const ROLLBACK_BEHIND_A_LAP_LATER: &[u8] = b"\
insert 1 1 1 a
#> 1 ok
insert 1 1 2 b
#> 1 ok
commit 1
#> 1 committed 1
delete 1 1 2
#> 1 ok
insert 1 1 3 c
#> 1 ok
#* 1 150
update 1 1 1 @
#> 1 ok
#.
#--
open 1 c 1 0 9
#> 1 ok
fetch 1 c 5
#> 1 row 1 a
#> 1 row 2 b
#> 1 end
insert 1 1 3 d
#> 1 ok
commit 1
#> 1 committed 2
#--
open 1 c 1 0 9
#> 1 ok
fetch 1 c 5
#> 1 row 1 a
#> 1 row 2 b
#> 1 row 3 d
#> 1 end
";

// Runs of 45 groups each: the second begins in the middle of the log and goes on at its front.
const LAPS_OF_RUNS: &[u8] = b"\
insert 1 1 1 a
#> 1 ok
#* 1 43
update 1 1 1 @
#> 1 ok
#.
commit 1
#> 1 committed 1
#--
#* 44 87
update 1 1 1 @
#> 1 ok
#.
commit 1
#> 1 committed 2
#--
#* 88 131
update 1 1 1 @
#> 1 ok
#.
commit 1
#> 1 committed 3
#--
open 1 c 1 0 9
#> 1 ok
fetch 1 c 5
#> 1 row 1 131
#> 1 end
";

// What the undo keeps and gives up, and full blocks.
#[test]
fn undo_and_restarts(rt: HostRuntime) -> Result<(), Fail> {
    let rows: [(&str, &[u8]); 10] = [
        ("rollback full", ROLLBACK_FULL),
        ("restart rolls back", RESTART),
        ("restart rolls back, marks", RESTART_MARKS),
        ("undo turns", UNDO_TURNS),
        ("undo extents", UNDO_EXTENTS),
        ("undo slots", UNDO_SLOTS),
        ("undo ring reuse", UNDO_RING_REUSE),
        ("frozen changes, a copy", FROZEN_BESIDE_A_COPY),
        ("block full until commit", BLOCK_FULL_UNTIL_COMMIT),
        ("block full", BLOCK_FULL),
    ];
    let file = formatted(rt.alloc(), FORMAT_LARGE)?;
    check_each(&rt, rt.alloc(), &file, &rows)?;
    Ok(())
}

// One transaction fills the eight extents of its segment, is refused one record more, and is put back.
const ROLLBACK_FULL: &[u8] = b"\
insert 1 1 1 a
#> 1 ok
#* 1 319
update 1 1 1 u
#> 1 ok
#.
update 1 1 1 u
#> 1 rollback full 0 320
rollback 1
#> 1 ok
open 1 c 1 0 9
#> 1 ok
fetch 1 c 1
#> 1 end
";

// A commit, and an update without one that a checkpoint writes. A second run puts that back; its record stays counted.
const RESTART: &[u8] = b"\
insert 1 1 1 a
#> 1 ok
commit 1
#> 1 committed 1
update 1 1 1 x
#> 1 ok
checkpoint
#> ok
#--
open 1 c 1 0 9
#> 1 ok
fetch 1 c 5
#> 1 row 1 a
#> 1 end
#--
marks
#> segment 0 writes 2 lost 0
";

// The same where the second run shows the marks.
const RESTART_MARKS: &[u8] = b"\
insert 1 1 1 a
#> 1 ok
commit 1
#> 1 committed 1
update 1 1 1 x
#> 1 ok
checkpoint
#> ok
#--
marks
#> segment 0 writes 2 lost 0
";

// Transactions of one row, each so many updates and what follows them. Two extents have 40 records each: they are
// filled, take new turns, and a third one joins. A second run finds the same marks.
const UNDO_TURNS: &[u8] = b"\
marks
#> segment 0 writes 0 lost 0
insert 1 1 1 a
#> 1 ok
#* 1 39
update 1 1 1 a
#> 1 ok
#.
marks
#> segment 0 writes 40 lost 0
commit 1
#> 1 committed 1
update 1 1 1 a
#> 1 ok
marks
#> segment 0 writes 41 lost 0
commit 1
#> 1 committed 2
#* 1 39
update 1 1 1 a
#> 1 ok
#.
marks
#> segment 0 writes 80 lost 0
commit 1
#> 1 committed 3
# The first extent takes a new turn: the records of commit 1 are given up.
update 1 1 1 a
#> 1 ok
marks
#> segment 0 writes 81 lost 1
commit 1
#> 1 committed 4
#* 1 39
update 1 1 1 a
#> 1 ok
#.
marks
#> segment 0 writes 120 lost 1
commit 1
#> 1 committed 5
# One transaction takes both, those of the commits 2 and 3 and then those of 4 and 5.
#* 1 40
update 1 1 1 a
#> 1 ok
#.
marks
#> segment 0 writes 160 lost 3
#* 1 40
update 1 1 1 a
#> 1 ok
#.
marks
#> segment 0 writes 200 lost 5
# Its own first records are the oldest now, so an extent joins, and nothing is given up.
update 1 1 1 a
#> 1 ok
marks
#> segment 0 writes 201 lost 5
commit 1
#> 1 committed 6
#* 1 39
update 1 1 1 a
#> 1 ok
#.
marks
#> segment 0 writes 240 lost 5
commit 1
#> 1 committed 7
update 1 1 1 a
#> 1 ok
marks
#> segment 0 writes 241 lost 6
commit 1
#> 1 committed 8
# What is put back stays counted.
#* 1 2
update 1 1 1 a
#> 1 ok
#.
rollback 1
#> 1 ok
marks
#> segment 0 writes 243 lost 6
#--
open 1 c 1 0 9
#> 1 ok
fetch 1 c 5
#> 1 row 1 a
#> 1 end
marks
#> segment 0 writes 243 lost 6
";

// The same of one transaction that began in the oldest turn: an extent joins for each 40 records, up to eight. Once it
// is committed, others of 40 records take the next turns.
const UNDO_EXTENTS: &[u8] = b"\
marks
#> segment 0 writes 0 lost 0
insert 1 1 1 a
#> 1 ok
#* 1 39
update 1 1 1 a
#> 1 ok
#.
marks
#> segment 0 writes 40 lost 0
update 1 1 1 a
#> 1 ok
marks
#> segment 0 writes 41 lost 0
#* 1 39
update 1 1 1 a
#> 1 ok
#.
marks
#> segment 0 writes 80 lost 0
# The third extent.
update 1 1 1 a
#> 1 ok
marks
#> segment 0 writes 81 lost 0
#* 1 39
update 1 1 1 a
#> 1 ok
#.
marks
#> segment 0 writes 120 lost 0
update 1 1 1 a
#> 1 ok
marks
#> segment 0 writes 121 lost 0
#* 1 39
update 1 1 1 a
#> 1 ok
#.
marks
#> segment 0 writes 160 lost 0
update 1 1 1 a
#> 1 ok
marks
#> segment 0 writes 161 lost 0
#* 1 39
update 1 1 1 a
#> 1 ok
#.
marks
#> segment 0 writes 200 lost 0
update 1 1 1 a
#> 1 ok
marks
#> segment 0 writes 201 lost 0
#* 1 39
update 1 1 1 a
#> 1 ok
#.
marks
#> segment 0 writes 240 lost 0
update 1 1 1 a
#> 1 ok
marks
#> segment 0 writes 241 lost 0
#* 1 39
update 1 1 1 a
#> 1 ok
#.
marks
#> segment 0 writes 280 lost 0
# The eighth.
update 1 1 1 a
#> 1 ok
marks
#> segment 0 writes 281 lost 0
#* 1 39
update 1 1 1 a
#> 1 ok
#.
marks
#> segment 0 writes 320 lost 0
update 1 1 1 a
#> 1 rollback full 0 320
commit 1
#> 1 committed 1
marks
#> segment 0 writes 320 lost 0
# The first turn of commit 1 is given up, and then the others.
update 1 1 1 a
#> 1 ok
marks
#> segment 0 writes 321 lost 1
#* 1 39
update 1 1 1 a
#> 1 ok
#.
marks
#> segment 0 writes 360 lost 1
commit 1
#> 1 committed 2
#* 1 40
update 1 1 1 a
#> 1 ok
#.
marks
#> segment 0 writes 400 lost 1
commit 1
#> 1 committed 3
#* 1 40
update 1 1 1 a
#> 1 ok
#.
marks
#> segment 0 writes 440 lost 1
commit 1
#> 1 committed 4
#* 1 40
update 1 1 1 a
#> 1 ok
#.
marks
#> segment 0 writes 480 lost 1
commit 1
#> 1 committed 5
#* 1 40
update 1 1 1 a
#> 1 ok
#.
marks
#> segment 0 writes 520 lost 1
commit 1
#> 1 committed 6
#* 1 40
update 1 1 1 a
#> 1 ok
#.
marks
#> segment 0 writes 560 lost 1
commit 1
#> 1 committed 7
#* 1 40
update 1 1 1 a
#> 1 ok
#.
marks
#> segment 0 writes 600 lost 1
commit 1
#> 1 committed 8
#* 1 40
update 1 1 1 a
#> 1 ok
#.
marks
#> segment 0 writes 640 lost 1
commit 1
#> 1 committed 9
# Each of the eight extents has a later turn now: that of commit 2 is given up, and then that of commit 3.
update 1 1 1 a
#> 1 ok
marks
#> segment 0 writes 641 lost 2
#* 1 39
update 1 1 1 a
#> 1 ok
#.
marks
#> segment 0 writes 680 lost 2
commit 1
#> 1 committed 10
update 1 1 1 a
#> 1 ok
marks
#> segment 0 writes 681 lost 3
commit 1
#> 1 committed 11
#--
open 1 c 1 0 9
#> 1 ok
fetch 1 c 5
#> 1 row 1 a
#> 1 end
marks
#> segment 0 writes 681 lost 3
";

// Some commits of one record each, and what is lost after them: the sixteen table slots are taken again before an
// extent takes a new turn.
const UNDO_SLOTS: &[u8] = b"\
insert 1 1 1 a
#> 1 ok
commit 1
#> 1 committed 1
marks
#> segment 0 writes 1 lost 0
#* 2 16
update 1 1 1 a
#> 1 ok
commit 1
#> 1 committed @
#.
marks
#> segment 0 writes 16 lost 0
update 1 1 1 a
#> 1 ok
commit 1
#> 1 committed 17
marks
#> segment 0 writes 17 lost 1
#* 18 40
update 1 1 1 a
#> 1 ok
commit 1
#> 1 committed @
#.
marks
#> segment 0 writes 40 lost 24
update 1 1 1 a
#> 1 ok
commit 1
#> 1 committed 41
marks
#> segment 0 writes 41 lost 25
#* 42 80
update 1 1 1 a
#> 1 ok
commit 1
#> 1 committed @
#.
marks
#> segment 0 writes 80 lost 64
update 1 1 1 a
#> 1 ok
commit 1
#> 1 committed 81
marks
#> segment 0 writes 81 lost 65
";

// 79 records lead back to the snapshot. Record 81 takes the place of the first one, and its transaction the table slot
// of commit 65: so the other cursor, at the same snapshot, is too old.
const UNDO_RING_REUSE: &[u8] = b"\
insert 1 1 1 a
#> 1 ok
commit 1
#> 1 committed 1
open 2 c 1 0 9
#> 2 ok
open 2 d 1 0 9
#> 2 ok
#* 2 80
update 1 1 1 u
#> 1 ok
commit 1
#> 1 committed @
#.
fetch 2 c 1
#> 2 row 1 a
update 1 1 1 u
#> 1 ok
fetch 2 d 1
#> 2 too old 1 65
marks
#> segment 0 writes 81 lost 65
fetch 2 d 9
#> 2 too old 1 65
close 2 d
#> 2 ok
open 2 d 1 0 9
#> 2 ok
fetch 2 d 9
#> 2 row 1 u
#> 2 end
";

// The copy that is made for `r` has no row. `c` has frozen a change of its own, which was committed since, and sees it.
const FROZEN_BESIDE_A_COPY: &[u8] = b"\
insert 1 1 1 a
#> 1 ok
open 2 r 1 0 9
#> 2 ok
open 1 c 1 0 9
#> 1 ok
commit 1
#> 1 committed 1
fetch 2 r 1
#> 2 end
fetch 1 c 5
#> 1 row 1 a
#> 1 end
";

// Sixteen keys of one home. The cell of a deleted row is free once its delete is committed.
const BLOCK_FULL_UNTIL_COMMIT: &[u8] = b"\
#* 0 15
insert 1 1 @ a
#> 1 ok
#.
commit 1
#> 1 committed 1
delete 1 1 0
#> 1 ok
insert 1 1 16 a
#> 1 block full
commit 1
#> 1 committed 2
insert 1 1 16 a
#> 1 ok
";

// The same for another session: keys that one has changed are in use for all.
const BLOCK_FULL: &[u8] = b"\
#* 0 15
insert 1 1 @ a
#> 1 ok
#.
insert 1 1 16 a
#> 1 block full
insert 2 1 16 a
#> 2 block full
commit 1
#> 1 committed 1
delete 1 1 0
#> 1 ok
insert 2 1 16 a
#> 2 block full
commit 1
#> 1 committed 2
insert 2 1 16 a
#> 2 ok
";

#[test]
fn two_blocks(rt: HostRuntime) -> Result<(), Fail> {
    let rows: [(&str, &[u8]); 4] = [
        ("two blocks", TWO_BLOCKS),
        ("bound above snapshot", BOUND_ABOVE_SNAPSHOT),
        ("reader cleans", READER_CLEANS),
        ("copy outlives undo", COPY_OUTLIVES_UNDO),
    ];
    let file = formatted(rt.alloc(), FORMAT_TWO_BLOCKS)?;
    check_each(&rt, rt.alloc(), &file, &rows)?;
    Ok(())
}

// Rows come by the remainder of their keys.
const TWO_BLOCKS: &[u8] = b"\
insert 1 1 3 c
#> 1 ok
insert 1 1 0 a
#> 1 ok
commit 1
#> 1 committed 1
insert 1 1 2 d
#> 1 ok
insert 1 1 1 b
#> 1 ok
open 1 c 1 0 9
#> 1 ok
fetch 1 c 9
#> 1 row 0 a
#> 1 row 2 d
#> 1 row 1 b
#> 1 row 3 c
#> 1 end
open 1 d 1 1 2
#> 1 ok
fetch 1 d 9
#> 1 row 2 d
#> 1 row 1 b
#> 1 end
";

// Commit 17 takes the table slot of commit 1, whose home nobody wrote or read since: only a bound is known of its
// number.
const BOUND_ABOVE_SNAPSHOT: &[u8] = b"\
open 2 c 1 0 9
#> 2 ok
insert 1 1 0 a
#> 1 ok
commit 1
#> 1 committed 1
insert 1 1 1 b
#> 1 ok
commit 1
#> 1 committed 2
#* 3 17
update 1 1 1 b
#> 1 ok
commit 1
#> 1 committed @
#.
fetch 2 c 1
#> 2 too old 0 1
open 2 d 1 0 9
#> 2 ok
fetch 2 d 5
#> 2 row 0 a
#> 2 row 1 b
#> 2 end
marks
#> segment 0 writes 17 lost 1
";

// The same, where a reader came to that home in between: it has left the number there.
const READER_CLEANS: &[u8] = b"\
open 2 c 1 0 9
#> 2 ok
insert 1 1 0 a
#> 1 ok
commit 1
#> 1 committed 1
open 3 e 1 0 0
#> 3 ok
fetch 3 e 1
#> 3 row 0 a
insert 1 1 1 b
#> 1 ok
commit 1
#> 1 committed 2
#* 3 17
update 1 1 1 b
#> 1 ok
commit 1
#> 1 committed @
#.
fetch 2 c 1
#> 2 end
marks
#> segment 0 writes 17 lost 1
";

// Key 1 is of another home, so home 0 stays as it was when its copy was made for `c`. Record 81 takes the place of
// record 2, but `d` at the same snapshot needs it no more.
const COPY_OUTLIVES_UNDO: &[u8] = b"\
insert 1 1 0 a
#> 1 ok
commit 1
#> 1 committed 1
open 2 c 1 0 9
#> 2 ok
open 2 d 1 0 9
#> 2 ok
update 1 1 0 b
#> 1 ok
commit 1
#> 1 committed 2
fetch 2 c 1
#> 2 row 0 a
insert 1 1 1 z
#> 1 ok
commit 1
#> 1 committed 3
#* 4 81
update 1 1 1 z
#> 1 ok
commit 1
#> 1 committed @
#.
fetch 2 d 1
#> 2 row 0 a
";

// A reader comes as the log is full: 63 of its 64 slots have groups. It cleans the home all the same, by one more.
#[test]
fn reader_has_room(rt: HostRuntime) -> Result<(), Fail> {
    let file = formatted(rt.alloc(), FORMAT_TWO_BLOCKS)?;
    let rows: [(&str, &[u8]); 1] = [("reader has room", READER_BESIDE_CHANGES)];
    check_each(&rt, rt.alloc(), &file, &rows)?;
    Ok(())
}

const READER_BESIDE_CHANGES: &[u8] = b"\
open 2 c 1 0 9
#> 2 ok
insert 1 1 0 a
#> 1 ok
commit 1
#> 1 committed 1
insert 4 1 1 b
#> 4 ok
#* 1 60
update 4 1 1 b
#> 4 ok
#.
open 3 e 1 0 0
#> 3 ok
fetch 3 e 1
#> 3 row 0 a
commit 4
#> 4 committed 2
#* 3 17
update 1 1 1 c
#> 1 ok
commit 1
#> 1 committed @
#.
fetch 2 c 1
#> 2 end
";

// A commit, and an update without one that a checkpoint writes.
const COMMIT_AND_CHECKPOINT: &[u8] = b"\
insert 1 1 1 a
#> 1 ok
commit 1
#> 1 committed 1
update 1 1 1 x
#> 1 ok
checkpoint
#> ok
";

// The same rows where an earlier second run was stopped after any of its calls, by each pick.
#[test]
fn restart_rolls_back_behind_stops(rt: HostRuntime) -> Result<(), Fail> {
    let file = formatted(rt.alloc(), FORMAT_SMALL)?;
    let left = check(&rt, rt.alloc(), "first", &file, COMMIT_AND_CHECKPOINT)?;
    let second = check(&rt, rt.alloc(), "second", left.bytes(), ONE_ROW)?;
    for call in 1..=second.calls() {
        for pick in PICKS {
            let stopped = image(rt.alloc(), &second, call, pick)?;
            let _ = check(&rt, rt.alloc(), "behind a stop", &stopped, ONE_ROW)?;
        }
    }
    Ok(())
}

const INSERT_ONE: &[u8] = b"insert 1 1 1 a\n#> 1 ok\n";

// A file of that version.
fn of_version(alloc: Global, file: &[u8], version: u8) -> Result<Vec<u8>, NoMemory> {
    with_byte(alloc, file, 11, version)
}

// A file with another byte at a place.
fn with_byte(alloc: Global, file: &[u8], at: usize, byte: u8) -> Result<Vec<u8>, NoMemory> {
    let mut bytes = file.to_vec(alloc).map_err(|_| NoMemory)?;
    if let Some(place) = bytes.get_mut(at) {
        *place = byte;
    }
    Ok(bytes)
}

// Each line leaves the file as it is and answers nothing.
#[test]
fn bad_files_and_words(rt: HostRuntime) -> Result<(), Fail> {
    let file = formatted(rt.alloc(), FORMAT_LARGE)?;
    let Some((_last, cut)) = file.split_last() else {
        return Err(Fail::new("no file"));
    };
    let records = of_version(rt.alloc(), &file, 101)?;
    let one_lap = of_version(rt.alloc(), &file, 104)?;
    let open_gate = with_byte(rt.alloc(), &file, 8_192, 1)?;
    let format_none = "f format tables=0 blocks=1 segments=1 log=64";
    let rows: [(&str, &[u8], u8); 18] = [
        (RUN, b"", 5),
        (RUN, b"x", 5),
        (RUN, cut, 5),
        (RUN, &records, 5),
        (RUN, &one_lap, 5),
        (RUN, &open_gate, 5),
        (FORMAT_LARGE, &file, 7),
        ("run", &file, 1),
        ("f run frames=15", &file, 1),
        ("f run frames=4097", &file, 1),
        (format_none, &file, 1),
        (format_none, b"", 1),
        ("f gen 5", b"", 5),
        ("f gen 5", cut, 5),
        ("f gen", &file, 1),
        ("f gen 05", &file, 1),
        ("f gen 1000001", &file, 1),
        ("f gen 5 more", &file, 1),
    ];
    for (line, bytes, code) in rows {
        let end = run_over(rt.alloc(), line, bytes, b"commit 1\n", NONE)?;
        assert!(rt; end.status.code() == code, "{line}");
        assert!(rt; end.sink.bytes() == b"".as_slice(), "{line}");
        assert!(rt; end.disk.bytes() == bytes, "{line}");
    }
    Ok(())
}

// Shows the row of key 1, whose value is a.
const ONE_ROW: &[u8] = b"\
open 1 c 1 0 9
#> 1 ok
fetch 1 c 5
#> 1 row 1 a
#> 1 end
";

// Shows that there is no row.
const NO_ROW: &[u8] = b"\
open 1 c 1 0 9
#> 1 ok
fetch 1 c 5
#> 1 end
";

// One commit over a small file. Its last three calls are a sync of the groups, the gate that makes them count, and a
// sync. Behind them its blocks go home and the head of the log moves, at the end of the run.
const ONE_COMMIT: &[u8] = b"\
insert 1 1 1 a
#> 1 ok
commit 1
#> 1 committed 1
commit 1
#> 1 ok
";

// How many calls bring the three blocks of one row home: the images, the gate, each block, the gate, and a sync behind
// each of these four. And so many move the head of the log behind its groups: which copy is chosen is read, and then
// the other copy and what chooses it are written, with a sync behind each.
const HOME_CALLS: u64 = 10 + 5;

// The same lines, where the disk fails in the commit.
const FAULTY_COMMIT: &[u8] = b"\
insert 1 1 1 a
#> 1 ok
commit 1
#> 1 disk fault
commit 1
";

// The engine over the store of a disk.
fn opened(alloc: Global, disk: MemDisk) -> Result<Engine<LogStore<MemDisk>>, Fail> {
    let Ok(store) = LogStore::open(alloc, disk, FRAMES) else {
        return Err(Fail::new("no store"));
    };
    let Ok(engine) = Engine::open(alloc, store) else {
        return Err(Fail::new("no engine"));
    };
    Ok(engine)
}

// What an engine over the store of a disk answers a write, its commit, and three calls behind a failed one.
fn answers_behind_a_fault(alloc: Global, disk: MemDisk) -> Result<bool, Fail> {
    let mut engine = opened(alloc, disk)?;
    Ok(
        engine.write(1, 1, 1, Op::Insert(b"a")) == Ok(Wrote::Done)
            && engine.commit(1) == Err(Refusal::DiskFault)
            && engine.commit(1) == Err(Refusal::Stopped)
            && engine.write(1, 1, 1, Op::Delete) == Err(Refusal::Stopped)
            && engine.sweep(1) == Err(Refusal::Stopped),
    )
}

// The first sync of the commit fails, and no row is found. The engine does nothing more.
#[test]
fn failed_sync(rt: HostRuntime) -> Result<(), Fail> {
    let file = formatted(rt.alloc(), FORMAT_SMALL)?;
    let good = check(&rt, rt.alloc(), "no fault", &file, ONE_COMMIT)?;
    let sync = [good.calls().saturating_sub(HOME_CALLS + 2)];
    let failing = Failing {
        disk: &sync,
        ..NONE
    };
    let end = run_over(rt.alloc(), RUN, &file, FAULTY_COMMIT, failing)?;
    let replies = replies_of(rt.alloc(), FAULTY_COMMIT)?;
    assert!(rt; end.status.code() == 3);
    assert!(rt; end.sink.bytes() == replies.as_slice());
    let _ = check(&rt, rt.alloc(), "rows", end.disk.bytes(), NO_ROW)?;
    let room = file.len() as u64 + 10_000;
    let disk = MemDisk::new(rt.alloc(), &file, room, 1_000, &sync)?;
    assert!(rt; answers_behind_a_fault(rt.alloc(), disk)?);
    Ok(())
}

// The disk fails as what waits is made last at the end of the script: all lines are answered, no reply tells of it, and
// nothing of it is found.
#[test]
fn failed_end(rt: HostRuntime) -> Result<(), Fail> {
    let file = formatted(rt.alloc(), FORMAT_SMALL)?;
    let good = check(&rt, rt.alloc(), "no fault", &file, INSERT_ONE)?;
    let replies = replies_of(rt.alloc(), INSERT_ONE)?;
    // The groups, a sync, the gate and a sync; and what brings the blocks home and moves the head.
    for behind in 0..HOME_CALLS + 4 {
        let call = [good.calls().saturating_sub(behind)];
        let failing = Failing {
            disk: &call,
            ..NONE
        };
        let end = run_over(rt.alloc(), RUN, &file, INSERT_ONE, failing)?;
        assert!(rt; end.status.code() == 3);
        assert!(rt; end.sink.bytes() == replies.as_slice());
        let _ = check(&rt, rt.alloc(), "rows", end.disk.bytes(), NO_ROW)?;
    }
    Ok(())
}

// A stop between the write of a flush's gate and its sync.
#[test]
fn gate_images(rt: HostRuntime) -> Result<(), Fail> {
    let file = formatted(rt.alloc(), FORMAT_SMALL)?;
    let good = check(&rt, rt.alloc(), "one commit", &file, ONE_COMMIT)?;
    let before_sync = good.calls().saturating_sub(HOME_CALLS + 1);
    let rows: [(&str, Pick, &[u8]); 4] = [
        ("the new gate", Pick::New, ONE_ROW),
        ("an open gate", Pick::Fill(1), ONE_ROW),
        ("a closed gate", Pick::Fill(0x7f), NO_ROW),
        ("the old gate", Pick::Old, NO_ROW),
    ];
    for (name, pick, found) in rows {
        let stopped = image(rt.alloc(), &good, before_sync, pick)?;
        let _ = check(&rt, rt.alloc(), name, &stopped, found)?;
    }
    Ok(())
}
