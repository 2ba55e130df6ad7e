//! Sessions that wait in a queue: dialogues over a fresh file each. Who is tried again when, in what order, with what
//! answer; and where a wait would close a ring.
use crate::dialogues::check_each;
use crate::doubles::{FORMAT_LARGE, formatted};
use std::test::Fail;

#[test]
fn queues(rt: HostRuntime) -> Result<(), Fail> {
    let rows: [(&str, &[u8]); 12] = [
        ("queue order", QUEUE_ORDER),
        ("what waits takes no call", NO_CALL),
        ("one leaves from the middle", CANCELLED),
        ("refused when tried again", REFUSED_AGAIN),
        ("waits again behind all", BEHIND_ALL),
        ("ends and rollbacks to savepoints", WHO_IS_READY),
        ("free, and waited for", FREE_AND_WAITED_FOR),
        ("a deadlock of two", DEADLOCK_OF_TWO),
        ("a deadlock of three", DEADLOCK_OF_THREE),
        ("a ring of eight, and a chain", RING_OF_EIGHT),
        ("a ring that was", RING_THAT_WAS),
        ("a deadlock when tried again", DEADLOCK_AGAIN),
    ];
    let file = formatted(rt.alloc(), FORMAT_LARGE)?;
    check_each(&rt, rt.alloc(), &file, &rows)?;
    Ok(())
}

const QUEUE_ORDER: &[u8] = b"\
insert 1 1 1 a
#> 1 ok
commit 1
#> 1 committed 1
lock 1 1 1
#> 1 ok
delete 2 1 1
#> 2 waits 1
update 3 1 1 x
#> 3 waits 1
update 4 1 1 y
#> 4 waits 1
cancel 2
#> 2 ok
commit 1
#> 1 committed 2
#> 3 ok
#> 4 waits 3
commit 3
#> 3 committed 3
#> 4 ok
open 1 c 1 5 4
#> 1 ok
fetch 1 c 1
#> 1 end
";

// All of its calls are refused, before any other test but that of its number; lines of no session are done. Behind the
// cancel its savepoint, its cursor and its change are those of before.
const NO_CALL: &[u8] = b"\
insert 1 1 1 a
#> 1 ok
savepoint 2 p
#> 2 ok
insert 2 1 2 b
#> 2 ok
open 2 c 1 0 9
#> 2 ok
insert 2 1 1 b
#> 2 waits 1
insert 2 9 1 vvvvvvvvvvvvvvvvvvvvvvvvvvvvvvvvvvvvvvvvvvvvvvvvvvvvvvvvvvvvvvvvvvvvvvvvvvvvvvvvv
#> 2 waiting
update 2 1 2 c
#> 2 waiting
delete 2 1 2
#> 2 waiting
lock 2 1 2
#> 2 waiting
commit 2
#> 2 waiting
rollback 2
#> 2 waiting
savepoint 2 p
#> 2 waiting
rollback 2 p
#> 2 waiting
rollback 2 q
#> 2 waiting
open 2 d 9 0 9
#> 2 waiting
fetch 2 c 9
#> 2 waiting
close 2 d
#> 2 waiting
marks
#> segment 0 writes 2 lost 0
checkpoint
#> ok
cancel 2
#> 2 ok
cancel 2
#> 2 not waiting
fetch 2 c 9
#> 2 row 2 b
#> 2 end
rollback 2 p
#> 2 ok
fetch 2 c 9
#> 2 no cursor
commit 2
#> 2 ok
commit 1
#> 1 committed 1
";

// Session 3 leaves, and comes back behind all others.
const CANCELLED: &[u8] = b"\
insert 1 1 1 a
#> 1 ok
update 2 1 1 b
#> 2 waits 1
update 3 1 1 c
#> 3 waits 1
update 4 1 1 d
#> 4 waits 1
update 5 1 1 e
#> 5 waits 1
cancel 3
#> 3 ok
insert 3 1 3 c
#> 3 ok
lock 3 1 1
#> 3 waits 1
commit 1
#> 1 committed 1
#> 2 ok
#> 4 waits 2
#> 5 waits 2
#> 3 waits 2
commit 2
#> 2 committed 2
#> 4 ok
#> 5 waits 4
#> 3 waits 4
cancel 5
#> 5 ok
rollback 4
#> 4 ok
#> 3 ok
commit 3
#> 3 committed 3
commit 5
#> 5 ok
";

// Whoever is refused is in the queue no more, and its transaction goes on; the next one is tried all the same. A lock
// and an update find no row, an insert makes one, an insert finds that it is held, and the first one's key is in use.
const REFUSED_AGAIN: &[u8] = b"\
insert 2 1 2 b
#> 2 ok
insert 1 1 1 a
#> 1 ok
lock 2 1 1
#> 2 waits 1
update 3 1 1 c
#> 3 waits 1
insert 4 1 1 d
#> 4 waits 1
insert 5 1 1 e
#> 5 waits 1
rollback 1
#> 1 ok
#> 2 not found
#> 3 not found
#> 4 ok
#> 5 waits 4
cancel 2
#> 2 not waiting
cancel 3
#> 3 not waiting
commit 3
#> 3 ok
commit 2
#> 2 committed 1
commit 4
#> 4 committed 2
#> 5 duplicate
insert 5 1 5 e
#> 5 ok
commit 5
#> 5 committed 3
";

// Session 3 came before session 4. It is tried again once, waits again, and stands behind it then.
const BEHIND_ALL: &[u8] = b"\
insert 1 1 1 a
#> 1 ok
insert 2 1 2 b
#> 2 ok
update 2 1 1 b
#> 2 waits 1
delete 3 1 1
#> 3 waits 1
delete 4 1 2
#> 4 waits 2
commit 1
#> 1 committed 1
#> 2 ok
#> 3 waits 2
commit 2
#> 2 committed 2
#> 4 ok
#> 3 ok
commit 3
#> 3 committed 3
commit 4
#> 4 committed 4
";

// The end of a transaction makes ready who waits for it and no other, also where it has no change left. A rollback to
// a savepoint makes nobody ready.
const WHO_IS_READY: &[u8] = b"\
insert 1 1 1 a
#> 1 ok
savepoint 2 p
#> 2 ok
insert 2 1 2 a
#> 2 ok
insert 3 1 1 b
#> 3 waits 1
insert 4 1 2 b
#> 4 waits 2
insert 5 1 2 b
#> 5 waits 2
insert 6 1 1 b
#> 6 waits 1
rollback 2 p
#> 2 ok
commit 4
#> 4 waiting
commit 7
#> 7 ok
rollback 7
#> 7 ok
commit 2
#> 2 ok
#> 4 ok
#> 5 waits 4
commit 3
#> 3 waiting
commit 4
#> 4 committed 1
#> 5 duplicate
rollback 1
#> 1 ok
#> 3 ok
#> 6 waits 3
rollback 3
#> 3 ok
#> 6 ok
commit 6
#> 6 committed 2
";

// Behind the rollback to the savepoint the key is free, and has its row of before. Who waits for session 1 has it where
// it asks anew, and session 1 may wait for that one in its turn. Session 2 waits until session 1 has ended.
const FREE_AND_WAITED_FOR: &[u8] = b"\
insert 1 1 1 a
#> 1 ok
commit 1
#> 1 committed 1
savepoint 1 p
#> 1 ok
delete 1 1 1
#> 1 ok
insert 2 1 1 b
#> 2 waits 1
update 3 1 1 c
#> 3 waits 1
rollback 1 p
#> 1 ok
cancel 3
#> 3 ok
update 3 1 1 c
#> 3 ok
update 1 1 1 d
#> 1 waits 3
commit 3
#> 3 committed 2
#> 1 ok
rollback 1
#> 1 ok
#> 2 duplicate
";

const DEADLOCK_OF_TWO: &[u8] = b"\
insert 1 1 1 a
#> 1 ok
insert 1 1 2 b
#> 1 ok
commit 1
#> 1 committed 1
update 1 1 1 x
#> 1 ok
update 2 1 2 y
#> 2 ok
update 1 1 2 x
#> 1 waits 2
update 2 1 1 y
#> 2 deadlock 1
rollback 2
#> 2 ok
#> 1 ok
";

const DEADLOCK_OF_THREE: &[u8] = b"\
insert 1 1 1 a
#> 1 ok
insert 2 1 2 a
#> 2 ok
insert 3 1 3 a
#> 3 ok
update 1 1 2 x
#> 1 waits 2
update 2 1 3 x
#> 2 waits 3
update 3 1 1 x
#> 3 deadlock 1
commit 3
#> 3 committed 1
#> 2 ok
";

// The eighth session would close the ring by any of the others. It may ask for each all the same, and nothing is
// changed by that; a ninth may wait behind the chain. Where one leaves from the middle, there is no ring.
const RING_OF_EIGHT: &[u8] = b"\
insert 1 1 1 a
#> 1 ok
insert 2 1 2 a
#> 2 ok
insert 3 1 3 a
#> 3 ok
insert 4 1 4 a
#> 4 ok
insert 5 1 5 a
#> 5 ok
insert 6 1 6 a
#> 6 ok
insert 7 1 7 a
#> 7 ok
insert 8 1 8 a
#> 8 ok
lock 1 1 2
#> 1 waits 2
lock 2 1 3
#> 2 waits 3
lock 3 1 4
#> 3 waits 4
lock 4 1 5
#> 4 waits 5
lock 5 1 6
#> 5 waits 6
lock 6 1 7
#> 6 waits 7
lock 7 1 8
#> 7 waits 8
lock 8 1 1
#> 8 deadlock 1
delete 8 1 7
#> 8 deadlock 7
lock 9 1 1
#> 9 waits 1
update 8 1 8 b
#> 8 ok
insert 8 1 4 b
#> 8 deadlock 4
cancel 4
#> 4 ok
lock 8 1 4
#> 8 waits 4
lock 4 1 7
#> 4 deadlock 7
rollback 4
#> 4 ok
#> 3 not found
#> 8 not found
commit 8
#> 8 committed 1
#> 7 ok
";

// Session 2 waited for session 3, which waits for session 1 in its next transaction. That wait has ended: there is no
// ring where session 1 waits for session 2.
const RING_THAT_WAS: &[u8] = b"\
insert 1 1 1 a
#> 1 ok
insert 2 1 2 a
#> 2 ok
insert 3 1 3 a
#> 3 ok
update 2 1 3 b
#> 2 waits 3
commit 3
#> 3 committed 1
#> 2 ok
update 3 1 1 b
#> 3 waits 1
update 1 1 2 b
#> 1 waits 2
update 2 1 1 b
#> 2 deadlock 1
commit 2
#> 2 committed 2
#> 1 ok
commit 1
#> 1 committed 3
#> 3 ok
";

// Behind a rollback to a savepoint session 3 takes the key that session 2 waits for, and then waits for session 2. When
// that is tried again, its wait would close a ring.
const DEADLOCK_AGAIN: &[u8] = b"\
insert 2 1 2 b
#> 2 ok
savepoint 1 p
#> 1 ok
insert 1 1 1 a
#> 1 ok
insert 2 1 1 b
#> 2 waits 1
rollback 1 p
#> 1 ok
insert 3 1 1 c
#> 3 ok
update 3 1 2 c
#> 3 waits 2
rollback 1
#> 1 ok
#> 2 deadlock 3
update 2 1 2 d
#> 2 ok
commit 2
#> 2 committed 1
#> 3 ok
commit 3
#> 3 committed 2
";
