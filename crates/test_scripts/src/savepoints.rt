//! Savepoints and locks: dialogues over a fresh file each, what a rollback to a savepoint leaves of cursors, rows and
//! the room of a segment, and what a lock holds.
use crate::dialogues::check_each;
use crate::doubles::{FORMAT_LARGE, FORMAT_SMALL, formatted};
use std::test::Fail;

#[test]
fn savepoints(rt: HostRuntime) -> Result<(), Fail> {
    let rows: [(&str, &[u8]); 8] = [
        ("sixteen names", SIXTEEN_NAMES),
        ("a savepoint frees a row", FREED_ROW),
        ("moved names", MOVED_NAMES),
        ("the ends of a transaction", ENDS),
        ("cursors", CURSORS),
        ("again and again", AGAIN),
        ("a slot without changes", SLOT_WITHOUT_CHANGES),
        ("the turn of records put back", TURN_OF_RECORDS_PUT_BACK),
    ];
    let file = formatted(rt.alloc(), FORMAT_LARGE)?;
    check_each(&rt, rt.alloc(), &file, &rows)?;
    Ok(())
}

// Sixteen savepoints stand. A name that stands is set again all the same, and is the latest then: so a rollback to the
// next one erases fifteen, and leaves room.
const SIXTEEN_NAMES: &[u8] = b"\
savepoint 1 a
#> 1 ok
savepoint 1 b
#> 1 ok
savepoint 1 c
#> 1 ok
savepoint 1 d
#> 1 ok
savepoint 1 e
#> 1 ok
savepoint 1 f
#> 1 ok
savepoint 1 g
#> 1 ok
savepoint 1 h
#> 1 ok
savepoint 1 i
#> 1 ok
savepoint 1 j
#> 1 ok
savepoint 1 k
#> 1 ok
savepoint 1 l
#> 1 ok
savepoint 1 m
#> 1 ok
savepoint 1 n
#> 1 ok
savepoint 1 o
#> 1 ok
savepoint 1 p
#> 1 ok
savepoint 1 q
#> 1 too many savepoints
savepoint 1 a
#> 1 ok
open 1 a 1 0 9
#> 1 ok
open 1 b 1 0 9
#> 1 ok
open 1 c 1 0 9
#> 1 ok
open 1 d 1 0 9
#> 1 ok
open 1 e 1 0 9
#> 1 ok
open 1 f 1 0 9
#> 1 ok
open 1 g 1 0 9
#> 1 ok
open 1 h 1 0 9
#> 1 ok
open 1 i 1 0 9
#> 1 ok
open 1 j 1 0 9
#> 1 ok
open 1 k 1 0 9
#> 1 ok
open 1 l 1 0 9
#> 1 ok
open 1 m 1 0 9
#> 1 ok
open 1 n 1 0 9
#> 1 ok
open 1 o 1 0 9
#> 1 ok
open 1 p 1 0 9
#> 1 ok
open 1 q 1 0 9
#> 1 too many cursors
savepoint 1 q
#> 1 too many savepoints
rollback 1 q
#> 1 no savepoint
savepoint 2 q
#> 2 ok
rollback 1 b
#> 1 ok
rollback 1 a
#> 1 no savepoint
rollback 1 c
#> 1 no savepoint
savepoint 1 q
#> 1 ok
rollback 1 q
#> 1 ok
";

// What is put back to a savepoint holds its row no longer, and the transaction goes on. So who waits for it waits on,
// and another session may take the row before.
const FREED_ROW: &[u8] = b"\
insert 1 1 1 a
#> 1 ok
commit 1
#> 1 committed 1
savepoint 1 p
#> 1 ok
update 1 1 1 b
#> 1 ok
update 2 1 1 c
#> 2 waits 1
rollback 1 p
#> 1 ok
update 3 1 1 d
#> 3 ok
commit 1
#> 1 ok
#> 2 waits 3
commit 3
#> 3 committed 2
#> 2 ok
commit 2
#> 2 committed 3
";

// A name that is set again moves, and is later than all others then.
const MOVED_NAMES: &[u8] = b"\
savepoint 1 a
#> 1 ok
insert 1 1 1 x
#> 1 ok
savepoint 1 b
#> 1 ok
insert 1 1 2 x
#> 1 ok
savepoint 1 a
#> 1 ok
insert 1 1 3 x
#> 1 ok
rollback 1 a
#> 1 ok
open 1 at_a 1 0 9
#> 1 ok
fetch 1 at_a 9
#> 1 row 1 x
#> 1 row 2 x
#> 1 end
rollback 1 b
#> 1 ok
rollback 1 a
#> 1 no savepoint
open 1 at_b 1 0 9
#> 1 ok
fetch 1 at_b 9
#> 1 row 1 x
#> 1 end
insert 1 1 4 y
#> 1 ok
rollback 1 b
#> 1 ok
commit 1
#> 1 committed 1
open 1 last 1 0 9
#> 1 ok
fetch 1 last 9
#> 1 row 1 x
#> 1 end
";

// Savepoints go with their transaction, also where it has no change; and each session has its own.
const ENDS: &[u8] = b"\
rollback 1 a
#> 1 no savepoint
savepoint 17 a
#> 17 no session
rollback 17 a
#> 17 no session
savepoint 1 a
#> 1 ok
rollback 2 a
#> 2 no savepoint
commit 1
#> 1 ok
rollback 1 a
#> 1 no savepoint
savepoint 1 a
#> 1 ok
rollback 1
#> 1 ok
rollback 1 a
#> 1 no savepoint
insert 1 1 1 x
#> 1 ok
savepoint 1 a
#> 1 ok
commit 1
#> 1 committed 1
rollback 1 a
#> 1 no savepoint
update 1 1 1 y
#> 1 ok
savepoint 1 a
#> 1 ok
rollback 1
#> 1 ok
rollback 1 a
#> 1 no savepoint
";

// A rollback to a savepoint closes the cursors that saw more changes than it keeps, and no others: not those that saw
// as many, or that were opened in an earlier transaction, or that are another session's.
const CURSORS: &[u8] = b"\
insert 1 1 1 a
#> 1 ok
insert 1 1 2 a
#> 1 ok
open 1 before 1 0 9
#> 1 ok
commit 1
#> 1 committed 1
open 1 none 1 0 9
#> 1 ok
update 1 1 1 b
#> 1 ok
open 1 one 1 0 9
#> 1 ok
savepoint 1 p
#> 1 ok
insert 1 1 3 b
#> 1 ok
open 1 two 1 0 9
#> 1 ok
open 2 two 1 0 9
#> 2 ok
fetch 1 two 1
#> 1 row 1 b
delete 1 1 2
#> 1 ok
rollback 1 p
#> 1 ok
fetch 1 two 1
#> 1 no cursor
fetch 1 before 9
#> 1 row 1 a
#> 1 row 2 a
#> 1 end
fetch 1 none 9
#> 1 row 1 a
#> 1 row 2 a
#> 1 end
fetch 1 one 9
#> 1 row 1 b
#> 1 row 2 a
#> 1 end
fetch 2 two 9
#> 2 row 1 a
#> 2 row 2 a
#> 2 end
insert 1 1 3 c
#> 1 ok
open 1 two 1 0 9
#> 1 ok
fetch 1 two 9
#> 1 row 1 b
#> 1 row 2 a
#> 1 row 3 c
#> 1 end
close 1 before
#> 1 ok
commit 1
#> 1 committed 2
savepoint 1 p
#> 1 ok
delete 1 1 3
#> 1 ok
rollback 1 p
#> 1 ok
open 1 before 1 0 9
#> 1 ok
delete 1 1 1
#> 1 ok
rollback 1 p
#> 1 ok
fetch 1 two 1
#> 1 end
fetch 1 before 9
#> 1 row 1 b
#> 1 row 2 a
#> 1 row 3 c
#> 1 end
";

// To one savepoint again and again, and on from there. Records that are put back stay counted.
const AGAIN: &[u8] = b"\
insert 1 1 1 a
#> 1 ok
savepoint 1 p
#> 1 ok
rollback 1 p
#> 1 ok
update 1 1 1 b
#> 1 ok
update 1 1 1 c
#> 1 ok
rollback 1 p
#> 1 ok
rollback 1 p
#> 1 ok
insert 1 1 2 d
#> 1 ok
savepoint 1 q
#> 1 ok
delete 1 1 1
#> 1 ok
insert 1 1 1 e
#> 1 ok
rollback 1 q
#> 1 ok
open 1 c 1 0 9
#> 1 ok
fetch 1 c 9
#> 1 row 1 a
#> 1 row 2 d
#> 1 end
rollback 1 p
#> 1 ok
fetch 1 c 9
#> 1 no cursor
insert 1 1 2 f
#> 1 ok
marks
#> segment 0 writes 7 lost 0
commit 1
#> 1 committed 1
open 1 c 1 0 9
#> 1 ok
fetch 1 c 9
#> 1 row 1 a
#> 1 row 2 f
#> 1 end
";

#[test]
fn locks(rt: HostRuntime) -> Result<(), Fail> {
    let rows: [(&str, &[u8]); 6] = [
        ("refusals of a lock", REFUSED_LOCKS),
        ("a lock is a change", LOCK_AND_COMMIT),
        ("cursors over locks", LOCKED_CURSORS),
        ("locks put back", LOCKS_BACK),
        ("a lock below an update", LOCK_KEPT),
        ("slots full of locks", EIGHT_LOCKS),
    ];
    let file = formatted(rt.alloc(), FORMAT_LARGE)?;
    check_each(&rt, rt.alloc(), &file, &rows)?;
    Ok(())
}

// Only a row that is there is locked, its session's own changes counted.
const REFUSED_LOCKS: &[u8] = b"\
lock 17 1 1
#> 17 no session
lock 1 0 1
#> 1 no table
lock 1 2 1
#> 1 no table
lock 1 1 1
#> 1 not found
insert 1 1 1 a
#> 1 ok
lock 1 1 1
#> 1 ok
lock 2 1 1
#> 2 waits 1
delete 1 1 1
#> 1 ok
lock 1 1 1
#> 1 not found
lock 3 1 1
#> 3 waits 1
rollback 1
#> 1 ok
#> 2 not found
#> 3 not found
marks
#> segment 0 writes 3 lost 0
";

// A lock makes a record, and its commit takes a number; no row is changed, and one of a cursor neither. It may be
// made of a row that the session holds.
const LOCK_AND_COMMIT: &[u8] = b"\
insert 1 1 1 a
#> 1 ok
commit 1
#> 1 committed 1
open 2 early 1 0 9
#> 2 ok
lock 1 1 1
#> 1 ok
marks
#> segment 0 writes 2 lost 0
insert 1 1 1 b
#> 1 duplicate
update 2 1 1 b
#> 2 waits 1
delete 3 1 1
#> 3 waits 1
insert 4 1 1 b
#> 4 waits 1
lock 5 1 1
#> 5 waits 1
open 1 own 1 0 9
#> 1 ok
fetch 1 own 9
#> 1 row 1 a
#> 1 end
lock 1 1 1
#> 1 ok
commit 1
#> 1 committed 2
#> 2 ok
#> 3 waits 2
#> 4 waits 2
#> 5 waits 2
commit 1
#> 1 ok
cancel 3
#> 3 ok
lock 2 1 1
#> 2 ok
commit 2
#> 2 committed 3
#> 4 duplicate
#> 5 ok
fetch 2 early 9
#> 2 row 1 a
#> 2 end
open 1 late 1 0 9
#> 1 ok
fetch 1 late 9
#> 1 row 1 b
#> 1 end
marks
#> segment 0 writes 6 lost 0
";

// A cursor sees the row of its opening, whether its transaction had locked it as it was, or changed and then locked it,
// also behind later changes and behind the commit.
const LOCKED_CURSORS: &[u8] = b"\
insert 1 1 1 a
#> 1 ok
insert 1 1 2 a
#> 1 ok
commit 1
#> 1 committed 1
lock 1 1 1
#> 1 ok
update 1 1 2 b
#> 1 ok
lock 1 1 2
#> 1 ok
open 1 own 1 0 9
#> 1 ok
open 2 other 1 0 9
#> 2 ok
update 1 1 1 c
#> 1 ok
update 1 1 2 c
#> 1 ok
fetch 1 own 1
#> 1 row 1 a
commit 1
#> 1 committed 2
lock 3 1 2
#> 3 ok
fetch 1 own 9
#> 1 row 2 b
#> 1 end
fetch 2 other 9
#> 2 row 1 a
#> 2 row 2 a
#> 2 end
";

// By a rollback, and to a savepoint.
const LOCKS_BACK: &[u8] = b"\
insert 1 1 1 a
#> 1 ok
insert 1 1 2 a
#> 1 ok
commit 1
#> 1 committed 1
lock 1 1 1
#> 1 ok
update 2 1 1 b
#> 2 waits 1
rollback 1
#> 1 ok
#> 2 ok
rollback 2
#> 2 ok
lock 1 1 1
#> 1 ok
savepoint 1 p
#> 1 ok
lock 1 1 2
#> 1 ok
open 1 c 1 0 9
#> 1 ok
rollback 1 p
#> 1 ok
fetch 1 c 9
#> 1 no cursor
update 2 1 2 b
#> 2 ok
update 2 1 1 b
#> 2 waits 1
commit 1
#> 1 committed 2
#> 2 ok
commit 2
#> 2 committed 3
";

// What is put back above a lock leaves the row locked: an update, and another lock. So does a lock that is put back
// above an update.
const LOCK_KEPT: &[u8] = b"\
insert 1 1 1 a
#> 1 ok
insert 1 1 2 a
#> 1 ok
commit 1
#> 1 committed 1
lock 1 1 1
#> 1 ok
update 1 1 2 b
#> 1 ok
savepoint 1 p
#> 1 ok
update 1 1 1 c
#> 1 ok
lock 1 1 1
#> 1 ok
lock 1 1 2
#> 1 ok
delete 1 1 2
#> 1 ok
rollback 1 p
#> 1 ok
update 2 1 1 x
#> 2 waits 1
update 3 1 2 x
#> 3 waits 1
open 1 c 1 0 9
#> 1 ok
fetch 1 c 9
#> 1 row 1 a
#> 1 row 2 b
#> 1 end
commit 1
#> 1 committed 2
#> 2 ok
#> 3 ok
commit 2
#> 2 committed 3
";

// A home has room for the changes of eight sessions, locks among them. One that is put back to a savepoint gives its
// room back, though its transaction keeps its slot of the segment.
const EIGHT_LOCKS: &[u8] = b"\
insert 9 1 1 a
#> 9 ok
insert 9 1 2 a
#> 9 ok
insert 9 1 3 a
#> 9 ok
insert 9 1 4 a
#> 9 ok
insert 9 1 5 a
#> 9 ok
insert 9 1 6 a
#> 9 ok
insert 9 1 7 a
#> 9 ok
insert 9 1 8 a
#> 9 ok
insert 9 1 9 a
#> 9 ok
commit 9
#> 9 committed 1
savepoint 1 p
#> 1 ok
lock 1 1 1
#> 1 ok
lock 2 1 2
#> 2 ok
lock 3 1 3
#> 3 ok
lock 4 1 4
#> 4 ok
lock 5 1 5
#> 5 ok
lock 6 1 6
#> 6 ok
lock 7 1 7
#> 7 ok
lock 8 1 8
#> 8 ok
lock 9 1 9
#> 9 slots full
update 9 1 9 b
#> 9 slots full
lock 9 1 8
#> 9 waits 8
cancel 9
#> 9 ok
rollback 1 p
#> 1 ok
lock 9 1 9
#> 9 ok
lock 1 1 1
#> 1 slots full
commit 9
#> 9 committed 2
lock 1 1 1
#> 1 ok
";

// Forty records fill the first turn of a segment, and are put back to a savepoint. Their transaction keeps that turn,
// as it keeps its slot: so another one finds the ring full. Its end takes no number, and the turn is given up.
const SLOT_WITHOUT_CHANGES: &[u8] = b"\
savepoint 1 p
#> 1 ok
insert 1 1 1 a
#> 1 ok
#* 1 39
update 1 1 1 a
#> 1 ok
#.
rollback 1 p
#> 1 ok
insert 2 1 1 b
#> 2 ok
#* 1 279
update 2 1 1 b
#> 2 ok
#.
update 2 1 1 c
#> 2 rollback full 0 320
insert 1 1 2 c
#> 1 rollback full 0 320
commit 1
#> 1 ok
rollback 1 p
#> 1 no savepoint
update 2 1 1 c
#> 2 ok
marks
#> segment 0 writes 321 lost 0
commit 2
#> 2 committed 1
commit 1
#> 1 ok
#--
open 1 c 1 0 9
#> 1 ok
fetch 1 c 9
#> 1 row 1 c
#> 1 end
";

// A record that is put back to a savepoint is one of its transaction all the same: its turn has the number of the
// commit. Record 40 is of commit 2 and the last of the first turn, and record 81 gives that turn up.
const TURN_OF_RECORDS_PUT_BACK: &[u8] = b"\
insert 1 1 1 a
#> 1 ok
#* 1 38
update 1 1 1 a
#> 1 ok
#.
commit 1
#> 1 committed 1
savepoint 1 p
#> 1 ok
update 1 1 1 b
#> 1 ok
rollback 1 p
#> 1 ok
lock 1 1 1
#> 1 ok
commit 1
#> 1 committed 2
#* 1 39
lock 1 1 1
#> 1 ok
#.
commit 1
#> 1 committed 3
marks
#> segment 0 writes 80 lost 0
lock 1 1 1
#> 1 ok
marks
#> segment 0 writes 81 lost 2
";

// A log of 64 slots goes round twice behind a savepoint, and twice again as all is put back to it. The log has none of
// the changes then that the transaction keeps.
#[test]
fn log_goes_round_behind_a_savepoint(rt: HostRuntime) -> Result<(), Fail> {
    let file = formatted(rt.alloc(), FORMAT_SMALL)?;
    let rows: [(&str, &[u8]); 1] = [("log goes round behind a savepoint", SAVEPOINT_BEHIND_A_LAP)];
    check_each(&rt, rt.alloc(), &file, &rows)?;
    Ok(())
}

const SAVEPOINT_BEHIND_A_LAP: &[u8] = b"\
insert 1 1 1 a
#> 1 ok
savepoint 1 p
#> 1 ok
#* 1 150
update 1 1 1 @
#> 1 ok
#.
insert 1 1 2 b
#> 1 ok
savepoint 1 q
#> 1 ok
rollback 1 p
#> 1 ok
rollback 1 q
#> 1 no savepoint
lock 1 1 1
#> 1 ok
commit 1
#> 1 committed 1
#--
open 1 c 1 0 9
#> 1 ok
fetch 1 c 9
#> 1 row 1 a
#> 1 end
";
