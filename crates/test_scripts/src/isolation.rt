//! What transactions see of each other: a dialogue for each case of docs/ISOLATION.md in each of its modes, over a file
//! with two rows; and what a mode refuses.
use crate::dialogues::{check, check_each};
use crate::doubles::{FORMAT_LARGE, formatted};
use std::test::Fail;

// The two rows that each case begins with. Its dialogue is a later run, in which the next commit is the second one.
const ROWS: &[u8] = b"\
insert 1 1 1 10
#> 1 ok
insert 1 1 2 20
#> 1 ok
commit 1
#> 1 committed 1
";

// Where no mode is set.
#[test]
fn read_committed(rt: HostRuntime) -> Result<(), Fail> {
    let rows: [(&str, &[u8]); 19] = [
        ("dirty write", DIRTY_WRITE),
        ("dirty read", DIRTY_READ),
        ("aborted read", ABORTED_READ),
        ("intermediate read", INTERMEDIATE_READ),
        ("circular information flow", CIRCULAR_FLOW),
        ("observed transaction vanishes", VANISHES),
        ("lost update", LOST_UPDATE),
        ("lost update behind a commit", LATE_UPDATE),
        ("predicate-many-preceders", MANY_PRECEDERS),
        ("predicate-many-preceders, for a write", DELETE_BY_QUERY),
        ("read skew", READ_SKEW),
        ("read skew within a cursor", ONE_CURSOR),
        ("write skew", WRITE_SKEW),
        ("write skew, with locks", WRITE_SKEW_LOCKED),
        ("write skew of a range", RANGE_SKEW),
        (
            "write skew of a range, by a row that stands for it",
            RANGE_ROW,
        ),
        ("a lock is no change", RANGE_LOCK),
        ("the read-only anomaly", ANOMALY),
        ("the read-only anomaly, with a lock", ANOMALY_LOCKED),
    ];
    let file = formatted(rt.alloc(), FORMAT_LARGE)?;
    let start = check(&rt, rt.alloc(), "rows", &file, ROWS)?;
    check_each(&rt, rt.alloc(), start.bytes(), &rows)?;
    Ok(())
}

// Where sessions 2 and 3 are serializable.
#[test]
fn serializable(rt: HostRuntime) -> Result<(), Fail> {
    let rows: [(&str, &[u8]); 19] = [
        ("dirty write", DIRTY_WRITE_SERIALIZABLE),
        ("dirty read", DIRTY_READ_SERIALIZABLE),
        ("aborted read", ABORTED_READ_SERIALIZABLE),
        ("intermediate read", INTERMEDIATE_READ_SERIALIZABLE),
        ("circular information flow", CIRCULAR_FLOW_SERIALIZABLE),
        ("observed transaction vanishes", VANISHES_SERIALIZABLE),
        ("lost update", LOST_UPDATE_SERIALIZABLE),
        ("lost update behind a commit", LATE_UPDATE_SERIALIZABLE),
        ("predicate-many-preceders", MANY_PRECEDERS_SERIALIZABLE),
        (
            "predicate-many-preceders, for a write",
            DELETE_BY_QUERY_SERIALIZABLE,
        ),
        ("read skew", READ_SKEW_SERIALIZABLE),
        ("read skew within a cursor", ONE_CURSOR_SERIALIZABLE),
        ("write skew", WRITE_SKEW_SERIALIZABLE),
        ("write skew, with locks", WRITE_SKEW_LOCKED_SERIALIZABLE),
        ("write skew of a range", RANGE_SKEW_SERIALIZABLE),
        (
            "write skew of a range, by a row that stands for it",
            RANGE_ROW_SERIALIZABLE,
        ),
        ("a lock is no change", RANGE_LOCK_SERIALIZABLE),
        ("the read-only anomaly", ANOMALY_SERIALIZABLE),
        (
            "the read-only anomaly, with a lock",
            ANOMALY_LOCKED_SERIALIZABLE,
        ),
    ];
    let file = formatted(rt.alloc(), FORMAT_LARGE)?;
    let start = check(&rt, rt.alloc(), "rows", &file, ROWS)?;
    check_each(&rt, rt.alloc(), start.bytes(), &rows)?;
    Ok(())
}

// Session 4 reports, without a mode and read only.
#[test]
fn read_only(rt: HostRuntime) -> Result<(), Fail> {
    let rows: [(&str, &[u8]); 4] = [
        ("a report of one moment", REPORT),
        ("a report of one moment, read only", REPORT_READ_ONLY),
        ("cursors from before", CURSORS_BEFORE),
        ("cursors from before, read only", CURSORS_BEFORE_READ_ONLY),
    ];
    let file = formatted(rt.alloc(), FORMAT_LARGE)?;
    let start = check(&rt, rt.alloc(), "rows", &file, ROWS)?;
    check_each(&rt, rt.alloc(), start.bytes(), &rows)?;
    Ok(())
}

// Worked rows of the modes, over a fresh file each.
#[test]
fn modes(rt: HostRuntime) -> Result<(), Fail> {
    let rows: [(&str, &[u8]); 5] = [
        ("serializable and too old", TOO_OLD),
        ("own entry is not the end", OWN_ENTRY),
        ("changed back", CHANGED_BACK),
        ("read-only snapshot", READ_ONLY_SNAPSHOT),
        ("first of all", FIRST_OF_ALL),
    ];
    let file = formatted(rt.alloc(), FORMAT_LARGE)?;
    check_each(&rt, rt.alloc(), &file, &rows)?;
    Ok(())
}

// The commits above the snapshot have changed the row, and what tells of the first of them was given up.
const TOO_OLD: &[u8] = b"\
insert 1 1 1 a
#> 1 ok
commit 1
#> 1 committed 1
set 2 serializable
#> 2 ok
#* 2 81
update 1 1 1 b
#> 1 ok
commit 1
#> 1 committed @
#.
update 2 1 1 x
#> 2 too old 1 65
";

// Eight commits above the snapshot changed the other row of the block, and the session's own change stands over them.
const OWN_ENTRY: &[u8] = b"\
insert 1 1 1 a
#> 1 ok
insert 1 1 2 b
#> 1 ok
commit 1
#> 1 committed 1
set 2 serializable
#> 2 ok
update 3 1 2 z
#> 3 ok
commit 3
#> 3 committed 2
update 3 1 2 z
#> 3 ok
commit 3
#> 3 committed 3
update 3 1 2 z
#> 3 ok
commit 3
#> 3 committed 4
update 3 1 2 z
#> 3 ok
commit 3
#> 3 committed 5
update 3 1 2 z
#> 3 ok
commit 3
#> 3 committed 6
update 3 1 2 z
#> 3 ok
commit 3
#> 3 committed 7
update 3 1 2 z
#> 3 ok
commit 3
#> 3 committed 8
update 3 1 2 z
#> 3 ok
commit 3
#> 3 committed 9
update 2 1 1 x
#> 2 ok
open 2 c 1 0 9
#> 2 ok
fetch 2 c 5
#> 2 row 1 x
#> 2 row 2 b
#> 2 end
";

// The row is again what it was at the snapshot. The first change is told, not the last one.
const CHANGED_BACK: &[u8] = b"\
insert 1 1 1 a
#> 1 ok
commit 1
#> 1 committed 1
set 2 serializable
#> 2 ok
update 1 1 1 b
#> 1 ok
commit 1
#> 1 committed 2
update 1 1 1 a
#> 1 ok
commit 1
#> 1 committed 3
update 2 1 1 c
#> 2 cannot serialize 1 2
";

const READ_ONLY_SNAPSHOT: &[u8] = b"\
insert 1 1 1 a
#> 1 ok
commit 1
#> 1 committed 1
set 2 read-only
#> 2 ok
update 1 1 1 b
#> 1 ok
commit 1
#> 1 committed 2
open 2 c 1 0 9
#> 2 ok
fetch 2 c 5
#> 2 row 1 a
#> 2 end
commit 2
#> 2 ok
open 2 d 1 0 9
#> 2 ok
fetch 2 d 5
#> 2 row 1 b
#> 2 end
";

// A mode is set before the first change and the first savepoint, and ends with the transaction. Other tests of a
// write come before that of its table, or behind it.
const FIRST_OF_ALL: &[u8] = b"\
savepoint 1 p
#> 1 ok
set 1 read-committed
#> 1 not first
rollback 1 p
#> 1 ok
set 1 serializable
#> 1 not first
commit 1
#> 1 ok
set 1 read-committed
#> 1 ok
set 1 read-only
#> 1 ok
set 1 read-committed
#> 1 not first
open 1 c 1 0 9
#> 1 ok
rollback 1
#> 1 ok
set 1 serializable
#> 1 ok
fetch 1 c 1
#> 1 end
savepoint 1 p
#> 1 ok
insert 1 1 1 a
#> 1 ok
rollback 1 p
#> 1 ok
set 1 serializable
#> 1 not first
insert 2 1 1 b
#> 2 ok
commit 2
#> 2 committed 1
lock 1 1 1
#> 1 cannot serialize 0 1
commit 1
#> 1 ok
lock 1 1 1
#> 1 ok
set 1 read-only
#> 1 not first
set 2 serializable
#> 2 ok
update 2 1 1 c
#> 2 waits 1
set 2 read-only
#> 2 waiting
commit 1
#> 1 committed 2
#> 2 ok
commit 2
#> 2 committed 3
set 3 read-only
#> 3 ok
insert 3 9 1 vvvvvvvvvvvvvvvvvvvvvvvvvvvvvvvvvvvvvvvvvvvvvvvvvvvvvvvvvvvvvvvvvvvvvvvvvvvvvvvvv
#> 3 read only
lock 3 1 2
#> 3 read only
set 4 serializable
#> 4 ok
insert 4 9 1 a
#> 4 no table
update 4 1 2 a
#> 4 not found
";

// Two transactions write the same two rows. If neither waited, the first row could be left by one of them and the
// second row by the other.
const DIRTY_WRITE: &[u8] = b"\
update 2 1 1 11
#> 2 ok
update 3 1 1 12
#> 3 waits 2
update 2 1 2 21
#> 2 ok
commit 2
#> 2 committed 2
#> 3 ok
update 3 1 2 22
#> 3 ok
commit 3
#> 3 committed 3
open 1 c 1 0 9
#> 1 ok
fetch 1 c 9
#> 1 row 1 12
#> 1 row 2 22
#> 1 end
";

const DIRTY_WRITE_SERIALIZABLE: &[u8] = b"\
set 2 serializable
#> 2 ok
set 3 serializable
#> 3 ok
update 2 1 1 11
#> 2 ok
update 3 1 1 12
#> 3 waits 2
update 2 1 2 21
#> 2 ok
commit 2
#> 2 committed 2
#> 3 cannot serialize 1 2
rollback 3
#> 3 ok
open 1 c 1 0 9
#> 1 ok
fetch 1 c 9
#> 1 row 1 11
#> 1 row 2 21
#> 1 end
";

// A transaction reads a row that another one has changed and will commit.
const DIRTY_READ: &[u8] = b"\
update 2 1 1 11
#> 2 ok
open 3 c 1 0 9
#> 3 ok
fetch 3 c 9
#> 3 row 1 10
#> 3 row 2 20
#> 3 end
commit 2
#> 2 committed 2
open 3 d 1 0 9
#> 3 ok
fetch 3 d 9
#> 3 row 1 11
#> 3 row 2 20
#> 3 end
";

const DIRTY_READ_SERIALIZABLE: &[u8] = b"\
set 2 serializable
#> 2 ok
set 3 serializable
#> 3 ok
update 2 1 1 11
#> 2 ok
open 3 c 1 0 9
#> 3 ok
fetch 3 c 9
#> 3 row 1 10
#> 3 row 2 20
#> 3 end
commit 2
#> 2 committed 2
open 3 d 1 0 9
#> 3 ok
fetch 3 d 9
#> 3 row 1 10
#> 3 row 2 20
#> 3 end
";

// A transaction reads a row that another one has changed and then puts back.
const ABORTED_READ: &[u8] = b"\
update 2 1 1 11
#> 2 ok
open 3 c 1 0 9
#> 3 ok
fetch 3 c 9
#> 3 row 1 10
#> 3 row 2 20
#> 3 end
rollback 2
#> 2 ok
open 3 d 1 0 9
#> 3 ok
fetch 3 d 9
#> 3 row 1 10
#> 3 row 2 20
#> 3 end
";

const ABORTED_READ_SERIALIZABLE: &[u8] = b"\
set 2 serializable
#> 2 ok
set 3 serializable
#> 3 ok
update 2 1 1 11
#> 2 ok
open 3 c 1 0 9
#> 3 ok
fetch 3 c 9
#> 3 row 1 10
#> 3 row 2 20
#> 3 end
rollback 2
#> 2 ok
open 3 d 1 0 9
#> 3 ok
fetch 3 d 9
#> 3 row 1 10
#> 3 row 2 20
#> 3 end
";

// A transaction reads a row between two changes of another one, of which only the second lasts.
const INTERMEDIATE_READ: &[u8] = b"\
update 2 1 1 11
#> 2 ok
open 3 c 1 1 1
#> 3 ok
fetch 3 c 1
#> 3 row 1 10
update 2 1 1 12
#> 2 ok
commit 2
#> 2 committed 2
open 3 d 1 1 1
#> 3 ok
fetch 3 d 1
#> 3 row 1 12
";

const INTERMEDIATE_READ_SERIALIZABLE: &[u8] = b"\
set 2 serializable
#> 2 ok
set 3 serializable
#> 3 ok
update 2 1 1 11
#> 2 ok
open 3 c 1 1 1
#> 3 ok
fetch 3 c 1
#> 3 row 1 10
update 2 1 1 12
#> 2 ok
commit 2
#> 2 committed 2
open 3 d 1 1 1
#> 3 ok
fetch 3 d 1
#> 3 row 1 10
";

// Each of two transactions reads the row that the other one has changed.
const CIRCULAR_FLOW: &[u8] = b"\
update 2 1 1 11
#> 2 ok
update 3 1 2 22
#> 3 ok
open 2 c 1 2 2
#> 2 ok
fetch 2 c 1
#> 2 row 2 20
open 3 c 1 1 1
#> 3 ok
fetch 3 c 1
#> 3 row 1 10
commit 2
#> 2 committed 2
commit 3
#> 3 committed 3
";

const CIRCULAR_FLOW_SERIALIZABLE: &[u8] = b"\
set 2 serializable
#> 2 ok
set 3 serializable
#> 3 ok
update 2 1 1 11
#> 2 ok
update 3 1 2 22
#> 3 ok
open 2 c 1 2 2
#> 2 ok
fetch 2 c 1
#> 2 row 2 20
open 3 c 1 1 1
#> 3 ok
fetch 3 c 1
#> 3 row 1 10
commit 2
#> 2 committed 2
commit 3
#> 3 committed 3
";

const VANISHES: &[u8] = b"\
update 2 1 1 11
#> 2 ok
update 2 1 2 21
#> 2 ok
update 3 1 1 12
#> 3 waits 2
commit 2
#> 2 committed 2
#> 3 ok
open 4 c 1 1 1
#> 4 ok
fetch 4 c 1
#> 4 row 1 11
update 3 1 2 22
#> 3 ok
open 4 d 1 2 2
#> 4 ok
fetch 4 d 1
#> 4 row 2 21
commit 3
#> 3 committed 3
open 4 e 1 0 9
#> 4 ok
fetch 4 e 9
#> 4 row 1 12
#> 4 row 2 22
#> 4 end
";

const VANISHES_SERIALIZABLE: &[u8] = b"\
set 2 serializable
#> 2 ok
set 3 serializable
#> 3 ok
update 2 1 1 11
#> 2 ok
update 2 1 2 21
#> 2 ok
update 3 1 1 12
#> 3 waits 2
commit 2
#> 2 committed 2
#> 3 cannot serialize 1 2
rollback 3
#> 3 ok
set 3 serializable
#> 3 ok
update 3 1 1 12
#> 3 ok
set 4 serializable
#> 4 ok
open 4 c 1 1 1
#> 4 ok
fetch 4 c 1
#> 4 row 1 11
update 3 1 2 22
#> 3 ok
open 4 d 1 2 2
#> 4 ok
fetch 4 d 1
#> 4 row 2 21
commit 3
#> 3 committed 3
open 4 e 1 0 9
#> 4 ok
fetch 4 e 9
#> 4 row 1 11
#> 4 row 2 21
#> 4 end
";

// Two transactions read a row, session 2 to add 1 to it and session 3 to add 2, and each writes its sum.
const LOST_UPDATE: &[u8] = b"\
open 2 c 1 1 1
#> 2 ok
fetch 2 c 1
#> 2 row 1 10
open 3 c 1 1 1
#> 3 ok
fetch 3 c 1
#> 3 row 1 10
update 2 1 1 11
#> 2 ok
update 3 1 1 12
#> 3 waits 2
commit 2
#> 2 committed 2
#> 3 ok
commit 3
#> 3 committed 3
open 1 c 1 1 1
#> 1 ok
fetch 1 c 1
#> 1 row 1 12
";

const LOST_UPDATE_SERIALIZABLE: &[u8] = b"\
set 2 serializable
#> 2 ok
set 3 serializable
#> 3 ok
open 2 c 1 1 1
#> 2 ok
fetch 2 c 1
#> 2 row 1 10
open 3 c 1 1 1
#> 3 ok
fetch 3 c 1
#> 3 row 1 10
update 2 1 1 11
#> 2 ok
update 3 1 1 12
#> 3 waits 2
commit 2
#> 2 committed 2
#> 3 cannot serialize 1 2
rollback 3
#> 3 ok
set 3 serializable
#> 3 ok
open 3 d 1 1 1
#> 3 ok
fetch 3 d 1
#> 3 row 1 11
update 3 1 1 13
#> 3 ok
commit 3
#> 3 committed 3
open 1 c 1 1 1
#> 1 ok
fetch 1 c 1
#> 1 row 1 13
";

// The same, where the first one has ended before the second one writes.
const LATE_UPDATE: &[u8] = b"\
open 3 c 1 1 1
#> 3 ok
fetch 3 c 1
#> 3 row 1 10
update 2 1 1 11
#> 2 ok
commit 2
#> 2 committed 2
update 3 1 1 12
#> 3 ok
commit 3
#> 3 committed 3
";

const LATE_UPDATE_SERIALIZABLE: &[u8] = b"\
set 2 serializable
#> 2 ok
set 3 serializable
#> 3 ok
open 3 c 1 1 1
#> 3 ok
fetch 3 c 1
#> 3 row 1 10
update 2 1 1 11
#> 2 ok
commit 2
#> 2 committed 2
update 3 1 1 12
#> 3 cannot serialize 1 2
commit 3
#> 3 ok
";

// A transaction asks twice for the rows of a range, while another one inserts a row there.
const MANY_PRECEDERS: &[u8] = b"\
open 2 c 1 0 9
#> 2 ok
fetch 2 c 9
#> 2 row 1 10
#> 2 row 2 20
#> 2 end
insert 3 1 3 30
#> 3 ok
commit 3
#> 3 committed 2
open 2 d 1 0 9
#> 2 ok
fetch 2 d 9
#> 2 row 1 10
#> 2 row 2 20
#> 2 row 3 30
#> 2 end
insert 2 1 3 31
#> 2 duplicate
";

const MANY_PRECEDERS_SERIALIZABLE: &[u8] = b"\
set 2 serializable
#> 2 ok
set 3 serializable
#> 3 ok
open 2 c 1 0 9
#> 2 ok
fetch 2 c 9
#> 2 row 1 10
#> 2 row 2 20
#> 2 end
insert 3 1 3 30
#> 3 ok
commit 3
#> 3 committed 2
open 2 d 1 0 9
#> 2 ok
fetch 2 d 9
#> 2 row 1 10
#> 2 row 2 20
#> 2 end
insert 2 1 3 31
#> 2 cannot serialize 1 2
";

// A transaction raises all rows by 10, and another one deletes the rows of 20.
const DELETE_BY_QUERY: &[u8] = b"\
update 2 1 1 20
#> 2 ok
update 2 1 2 30
#> 2 ok
open 3 c 1 0 9
#> 3 ok
fetch 3 c 9
#> 3 row 1 10
#> 3 row 2 20
#> 3 end
delete 3 1 2
#> 3 waits 2
commit 2
#> 2 committed 2
#> 3 ok
commit 3
#> 3 committed 3
open 1 c 1 0 9
#> 1 ok
fetch 1 c 9
#> 1 row 1 20
#> 1 end
";

const DELETE_BY_QUERY_SERIALIZABLE: &[u8] = b"\
set 2 serializable
#> 2 ok
set 3 serializable
#> 3 ok
update 2 1 1 20
#> 2 ok
update 2 1 2 30
#> 2 ok
open 3 c 1 0 9
#> 3 ok
fetch 3 c 9
#> 3 row 1 10
#> 3 row 2 20
#> 3 end
delete 3 1 2
#> 3 waits 2
commit 2
#> 2 committed 2
#> 3 cannot serialize 1 2
commit 3
#> 3 ok
open 1 c 1 0 9
#> 1 ok
fetch 1 c 9
#> 1 row 1 20
#> 1 row 2 30
#> 1 end
";

// A transaction reads one row, and another one behind a commit that changed both.
const READ_SKEW: &[u8] = b"\
open 2 c 1 1 1
#> 2 ok
fetch 2 c 1
#> 2 row 1 10
update 3 1 1 12
#> 3 ok
update 3 1 2 18
#> 3 ok
commit 3
#> 3 committed 2
open 2 d 1 2 2
#> 2 ok
fetch 2 d 1
#> 2 row 2 18
delete 2 1 2
#> 2 ok
";

const READ_SKEW_SERIALIZABLE: &[u8] = b"\
set 2 serializable
#> 2 ok
set 3 serializable
#> 3 ok
open 2 c 1 1 1
#> 2 ok
fetch 2 c 1
#> 2 row 1 10
update 3 1 1 12
#> 3 ok
update 3 1 2 18
#> 3 ok
commit 3
#> 3 committed 2
open 2 d 1 2 2
#> 2 ok
fetch 2 d 1
#> 2 row 2 20
delete 2 1 2
#> 2 cannot serialize 1 2
";

// The same, with both rows in one cursor.
const ONE_CURSOR: &[u8] = b"\
open 2 c 1 0 9
#> 2 ok
fetch 2 c 1
#> 2 row 1 10
update 3 1 1 12
#> 3 ok
update 3 1 2 18
#> 3 ok
commit 3
#> 3 committed 2
fetch 2 c 9
#> 2 row 2 20
#> 2 end
";

const ONE_CURSOR_SERIALIZABLE: &[u8] = b"\
set 2 serializable
#> 2 ok
set 3 serializable
#> 3 ok
open 2 c 1 0 9
#> 2 ok
fetch 2 c 1
#> 2 row 1 10
update 3 1 1 12
#> 3 ok
update 3 1 2 18
#> 3 ok
commit 3
#> 3 committed 2
fetch 2 c 9
#> 2 row 2 20
#> 2 end
";

// The rows are two accounts, of 10 and 20, which together may not be below 0. Two transactions look at both, and one
// takes 25 from the first, the other one from the second.
const WRITE_SKEW: &[u8] = b"\
open 2 c 1 0 9
#> 2 ok
fetch 2 c 9
#> 2 row 1 10
#> 2 row 2 20
#> 2 end
open 3 c 1 0 9
#> 3 ok
fetch 3 c 9
#> 3 row 1 10
#> 3 row 2 20
#> 3 end
update 2 1 1 -15
#> 2 ok
update 3 1 2 -5
#> 3 ok
commit 2
#> 2 committed 2
commit 3
#> 3 committed 3
";

const WRITE_SKEW_SERIALIZABLE: &[u8] = b"\
set 2 serializable
#> 2 ok
set 3 serializable
#> 3 ok
open 2 c 1 0 9
#> 2 ok
fetch 2 c 9
#> 2 row 1 10
#> 2 row 2 20
#> 2 end
open 3 c 1 0 9
#> 3 ok
fetch 3 c 9
#> 3 row 1 10
#> 3 row 2 20
#> 3 end
update 2 1 1 -15
#> 2 ok
update 3 1 2 -5
#> 3 ok
commit 2
#> 2 committed 2
commit 3
#> 3 committed 3
";

// The same, where each locks the rows that its decision rests on, the lowest key first, before it decides.
const WRITE_SKEW_LOCKED: &[u8] = b"\
lock 2 1 1
#> 2 ok
lock 2 1 2
#> 2 ok
lock 3 1 1
#> 3 waits 2
open 2 c 1 0 9
#> 2 ok
fetch 2 c 9
#> 2 row 1 10
#> 2 row 2 20
#> 2 end
update 2 1 1 -15
#> 2 ok
commit 2
#> 2 committed 2
#> 3 ok
open 3 c 1 0 9
#> 3 ok
fetch 3 c 9
#> 3 row 1 -15
#> 3 row 2 20
#> 3 end
rollback 3
#> 3 ok
";

const WRITE_SKEW_LOCKED_SERIALIZABLE: &[u8] = b"\
set 2 serializable
#> 2 ok
set 3 serializable
#> 3 ok
lock 2 1 1
#> 2 ok
lock 2 1 2
#> 2 ok
lock 3 1 1
#> 3 waits 2
open 2 c 1 0 9
#> 2 ok
fetch 2 c 9
#> 2 row 1 10
#> 2 row 2 20
#> 2 end
update 2 1 1 -15
#> 2 ok
commit 2
#> 2 committed 2
#> 3 cannot serialize 1 2
rollback 3
#> 3 ok
";

// No more than three rows may be in a range. Two transactions count two, and each inserts one.
const RANGE_SKEW: &[u8] = b"\
open 2 c 1 0 9
#> 2 ok
fetch 2 c 9
#> 2 row 1 10
#> 2 row 2 20
#> 2 end
open 3 c 1 0 9
#> 3 ok
fetch 3 c 9
#> 3 row 1 10
#> 3 row 2 20
#> 3 end
insert 2 1 3 30
#> 2 ok
insert 3 1 4 40
#> 3 ok
commit 2
#> 2 committed 2
commit 3
#> 3 committed 3
";

const RANGE_SKEW_SERIALIZABLE: &[u8] = b"\
set 2 serializable
#> 2 ok
set 3 serializable
#> 3 ok
open 2 c 1 0 9
#> 2 ok
fetch 2 c 9
#> 2 row 1 10
#> 2 row 2 20
#> 2 end
open 3 c 1 0 9
#> 3 ok
fetch 3 c 9
#> 3 row 1 10
#> 3 row 2 20
#> 3 end
insert 2 1 3 30
#> 2 ok
insert 3 1 4 40
#> 3 ok
commit 2
#> 2 committed 2
commit 3
#> 3 committed 3
";

// The same, where each first writes row 1, with the value that it has.
const RANGE_ROW: &[u8] = b"\
update 2 1 1 10
#> 2 ok
update 3 1 1 10
#> 3 waits 2
open 2 c 1 0 9
#> 2 ok
fetch 2 c 9
#> 2 row 1 10
#> 2 row 2 20
#> 2 end
insert 2 1 3 30
#> 2 ok
commit 2
#> 2 committed 2
#> 3 ok
open 3 c 1 0 9
#> 3 ok
fetch 3 c 9
#> 3 row 1 10
#> 3 row 2 20
#> 3 row 3 30
#> 3 end
rollback 3
#> 3 ok
";

const RANGE_ROW_SERIALIZABLE: &[u8] = b"\
set 2 serializable
#> 2 ok
set 3 serializable
#> 3 ok
update 2 1 1 10
#> 2 ok
update 3 1 1 10
#> 3 waits 2
open 2 c 1 0 9
#> 2 ok
fetch 2 c 9
#> 2 row 1 10
#> 2 row 2 20
#> 2 end
insert 2 1 3 30
#> 2 ok
commit 2
#> 2 committed 2
#> 3 cannot serialize 1 2
rollback 3
#> 3 ok
";

// The same, where each only locks row 1.
const RANGE_LOCK: &[u8] = b"\
lock 2 1 1
#> 2 ok
lock 3 1 1
#> 3 waits 2
open 2 c 1 0 9
#> 2 ok
fetch 2 c 9
#> 2 row 1 10
#> 2 row 2 20
#> 2 end
insert 2 1 3 30
#> 2 ok
commit 2
#> 2 committed 2
#> 3 ok
open 3 c 1 0 9
#> 3 ok
fetch 3 c 9
#> 3 row 1 10
#> 3 row 2 20
#> 3 row 3 30
#> 3 end
";

const RANGE_LOCK_SERIALIZABLE: &[u8] = b"\
set 2 serializable
#> 2 ok
set 3 serializable
#> 3 ok
lock 2 1 1
#> 2 ok
lock 3 1 1
#> 3 waits 2
open 2 c 1 0 9
#> 2 ok
fetch 2 c 9
#> 2 row 1 10
#> 2 row 2 20
#> 2 end
insert 2 1 3 30
#> 2 ok
commit 2
#> 2 committed 2
#> 3 ok
open 3 c 1 0 9
#> 3 ok
fetch 3 c 9
#> 3 row 1 10
#> 3 row 2 20
#> 3 end
";

// Session 4 reads one row after the other while session 2 moves 2 between them.
const REPORT: &[u8] = b"\
open 4 c 1 1 1
#> 4 ok
fetch 4 c 1
#> 4 row 1 10
update 2 1 1 12
#> 2 ok
update 2 1 2 18
#> 2 ok
commit 2
#> 2 committed 2
open 4 d 1 2 2
#> 4 ok
fetch 4 d 1
#> 4 row 2 18
lock 4 1 1
#> 4 ok
commit 4
#> 4 committed 3
open 4 e 1 0 9
#> 4 ok
fetch 4 e 9
#> 4 row 1 12
#> 4 row 2 18
#> 4 end
";

const REPORT_READ_ONLY: &[u8] = b"\
set 4 read-only
#> 4 ok
open 4 c 1 1 1
#> 4 ok
fetch 4 c 1
#> 4 row 1 10
update 2 1 1 12
#> 2 ok
update 2 1 2 18
#> 2 ok
commit 2
#> 2 committed 2
open 4 d 1 2 2
#> 4 ok
fetch 4 d 1
#> 4 row 2 20
lock 4 1 1
#> 4 read only
commit 4
#> 4 ok
open 4 e 1 0 9
#> 4 ok
fetch 4 e 9
#> 4 row 1 12
#> 4 row 2 18
#> 4 end
";

// Session 4 sets the mode while a cursor is open.
const CURSORS_BEFORE: &[u8] = b"\
open 4 c 1 0 9
#> 4 ok
update 2 1 1 11
#> 2 ok
commit 2
#> 2 committed 2
update 2 1 1 12
#> 2 ok
commit 2
#> 2 committed 3
open 4 d 1 0 9
#> 4 ok
fetch 4 c 9
#> 4 row 1 10
#> 4 row 2 20
#> 4 end
fetch 4 d 9
#> 4 row 1 12
#> 4 row 2 20
#> 4 end
commit 4
#> 4 ok
open 4 e 1 0 9
#> 4 ok
fetch 4 e 9
#> 4 row 1 12
#> 4 row 2 20
#> 4 end
";

const CURSORS_BEFORE_READ_ONLY: &[u8] = b"\
open 4 c 1 0 9
#> 4 ok
update 2 1 1 11
#> 2 ok
commit 2
#> 2 committed 2
set 4 read-only
#> 4 ok
update 2 1 1 12
#> 2 ok
commit 2
#> 2 committed 3
open 4 d 1 0 9
#> 4 ok
fetch 4 c 9
#> 4 row 1 10
#> 4 row 2 20
#> 4 end
fetch 4 d 9
#> 4 row 1 11
#> 4 row 2 20
#> 4 end
commit 4
#> 4 ok
open 4 e 1 0 9
#> 4 ok
fetch 4 e 9
#> 4 row 1 12
#> 4 row 2 20
#> 4 end
";

// From the first of the two accounts session 2 takes 35, and 1 more as a fee where both together have less than that:
// it sees 30. Session 3 pays 20 into the second one, and session 4 makes a report in between.
const ANOMALY: &[u8] = b"\
open 2 c 1 0 9
#> 2 ok
fetch 2 c 9
#> 2 row 1 10
#> 2 row 2 20
#> 2 end
update 3 1 2 40
#> 3 ok
commit 3
#> 3 committed 2
open 4 c 1 0 9
#> 4 ok
fetch 4 c 9
#> 4 row 1 10
#> 4 row 2 40
#> 4 end
commit 4
#> 4 ok
update 2 1 1 -26
#> 2 ok
commit 2
#> 2 committed 3
";

const ANOMALY_SERIALIZABLE: &[u8] = b"\
set 2 serializable
#> 2 ok
set 3 serializable
#> 3 ok
open 2 c 1 0 9
#> 2 ok
fetch 2 c 9
#> 2 row 1 10
#> 2 row 2 20
#> 2 end
update 3 1 2 40
#> 3 ok
commit 3
#> 3 committed 2
set 4 read-only
#> 4 ok
open 4 c 1 0 9
#> 4 ok
fetch 4 c 9
#> 4 row 1 10
#> 4 row 2 40
#> 4 end
commit 4
#> 4 ok
update 2 1 1 -26
#> 2 ok
commit 2
#> 2 committed 3
";

// The same, where session 2 locks the row that it reads and doesn't write.
const ANOMALY_LOCKED: &[u8] = b"\
open 2 c 1 0 9
#> 2 ok
fetch 2 c 9
#> 2 row 1 10
#> 2 row 2 20
#> 2 end
update 3 1 2 40
#> 3 ok
commit 3
#> 3 committed 2
open 4 c 1 0 9
#> 4 ok
fetch 4 c 9
#> 4 row 1 10
#> 4 row 2 40
#> 4 end
commit 4
#> 4 ok
lock 2 1 2
#> 2 ok
open 2 d 1 0 9
#> 2 ok
fetch 2 d 9
#> 2 row 1 10
#> 2 row 2 40
#> 2 end
rollback 2
#> 2 ok
";

const ANOMALY_LOCKED_SERIALIZABLE: &[u8] = b"\
set 2 serializable
#> 2 ok
set 3 serializable
#> 3 ok
open 2 c 1 0 9
#> 2 ok
fetch 2 c 9
#> 2 row 1 10
#> 2 row 2 20
#> 2 end
update 3 1 2 40
#> 3 ok
commit 3
#> 3 committed 2
set 4 read-only
#> 4 ok
open 4 c 1 0 9
#> 4 ok
fetch 4 c 9
#> 4 row 1 10
#> 4 row 2 40
#> 4 end
commit 4
#> 4 ok
lock 2 1 2
#> 2 cannot serialize 1 2
rollback 2
#> 2 ok
";
