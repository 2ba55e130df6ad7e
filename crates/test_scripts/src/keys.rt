//! Reads of one key, puts, and what sessions have under way: dialogues over a fresh file each, with each reply and each
//! refusal.
use crate::dialogues::check_each;
use crate::doubles::{FORMAT_SMALL, FORMAT_TWO_BLOCKS, formatted};
use std::test::Fail;

#[test]
fn one_key_and_sessions(rt: HostRuntime) -> Result<(), Fail> {
    let rows: [(&str, &[u8]); 13] = [
        ("get, rows and refusals", GET_REFUSALS),
        ("get, at a transaction's snapshot", GET_SNAPSHOT),
        ("get, beside sixteen cursors", GET_CURSORS),
        ("put, a row made or changed", PUT_ROWS),
        ("put, refusals in their order", PUT_REFUSALS),
        ("put, behind a wait, absent and present", PUT_WAITS),
        ("put, a full block", PUT_FULL),
        ("put, a full block behind a wait", PUT_WAITS_FULL),
        ("put, eight other sessions", PUT_SLOTS),
        ("put, a full rollback segment", PUT_ROLLBACK),
        ("put, serializable", PUT_SERIALIZABLE),
        ("sessions, what each has under way", SESSIONS),
        ("sessions, rollbacks to savepoints and locks", SESSIONS_BACK),
    ];
    let file = formatted(rt.alloc(), FORMAT_SMALL)?;
    check_each(&rt, rt.alloc(), &file, &rows)?;
    Ok(())
}

#[test]
fn homes_of_one_key(rt: HostRuntime) -> Result<(), Fail> {
    let rows: [(&str, &[u8]); 3] = [
        ("get, too old by the key's home alone", GET_TOO_OLD),
        ("no get, and a home that isn't cleaned in time", NO_GET),
        ("get, which cleans the home that it reads", GET_CLEANS),
    ];
    let file = formatted(rt.alloc(), FORMAT_TWO_BLOCKS)?;
    check_each(&rt, rt.alloc(), &file, &rows)?;
    Ok(())
}

const GET_REFUSALS: &[u8] = b"\
get 1 1 1
#> 1 not found
insert 1 1 1 a
#> 1 ok
get 1 1 1
#> 1 row 1 a
get 2 1 1
#> 2 not found
commit 1
#> 1 committed 1
get 2 1 1
#> 2 row 1 a
update 1 1 1 b
#> 1 ok
get 1 1 1
#> 1 row 1 b
delete 1 1 1
#> 1 ok
get 1 1 1
#> 1 not found
get 2 1 1
#> 2 row 1 a
lock 2 1 1
#> 2 waits 1
get 2 1 1
#> 2 waiting
get 17 2 1
#> 17 no session
get 0 1 1
#> 0 no session
get 1 2 1
#> 1 no table
get 1 0 1
#> 1 no table
get 1 1 18446744073709551615
#> 1 not found
get 1 1 18446744073709551616
#> bad line
get 1 1
#> bad line
get 1 1 1 1
#> bad line
get 1 1 01
#> bad line
rollback 1
#> 1 ok
#> 2 ok
get 1 1 1
#> 1 row 1 a
get 2 1 1
#> 2 row 1 a
";

const GET_SNAPSHOT: &[u8] = b"\
insert 1 1 1 a
#> 1 ok
insert 1 1 2 b
#> 1 ok
commit 1
#> 1 committed 1
set 2 read-only
#> 2 ok
set 3 serializable
#> 3 ok
update 3 1 2 c
#> 3 ok
update 1 1 1 d
#> 1 ok
insert 1 1 3 e
#> 1 ok
commit 1
#> 1 committed 2
get 1 1 1
#> 1 row 1 d
get 2 1 1
#> 2 row 1 a
get 2 1 3
#> 2 not found
get 3 1 1
#> 3 row 1 a
get 3 1 2
#> 3 row 2 c
get 2 1 2
#> 2 row 2 b
commit 2
#> 2 ok
get 2 1 1
#> 2 row 1 d
get 2 1 3
#> 2 row 3 e
rollback 3
#> 3 ok
get 3 1 2
#> 3 row 2 b
";

const GET_CURSORS: &[u8] = b"\
insert 1 1 1 a
#> 1 ok
commit 1
#> 1 committed 1
#* 1 16
open 1 c@ 1 0 9
#> 1 ok
#.
open 1 d 1 0 9
#> 1 too many cursors
get 1 1 1
#> 1 row 1 a
update 1 1 1 b
#> 1 ok
get 1 1 1
#> 1 row 1 b
get 1 1 2
#> 1 not found
fetch 1 c16 9
#> 1 row 1 a
#> 1 end
sessions
#> session 1 changes 1 cursors 16 mode read-committed
rollback 1
#> 1 ok
sessions
#> session 1 changes 0 cursors 16 mode read-committed
";

const PUT_ROWS: &[u8] = b"\
put 1 1 1 a
#> 1 ok
get 1 1 1
#> 1 row 1 a
put 1 1 1 b
#> 1 ok
commit 1
#> 1 committed 1
get 2 1 1
#> 2 row 1 b
put 1 1 1 c
#> 1 ok
put 1 1 2 d
#> 1 ok
delete 1 1 2
#> 1 ok
put 1 1 2 e
#> 1 ok
marks
#> segment 0 writes 6 lost 0
sessions
#> session 1 changes 4 cursors 0 mode read-committed
savepoint 1 p
#> 1 ok
put 1 1 3 f
#> 1 ok
put 1 1 1 g
#> 1 ok
rollback 1 p
#> 1 ok
get 1 1 1
#> 1 row 1 c
get 1 1 3
#> 1 not found
commit 1
#> 1 committed 2
open 2 c 1 0 9
#> 2 ok
fetch 2 c 9
#> 2 row 1 c
#> 2 row 2 e
#> 2 end
put 1 1 1 h
#> 1 ok
rollback 1
#> 1 ok
get 1 1 1
#> 1 row 1 c
";

const PUT_REFUSALS: &[u8] = b"\
put 17 2 1 aaaaaaaaaaaaaaaaaaaaaaaaaaaaaaaaaaaaaaaaaaaaaaaaaaaaaaaaaaaaaaaaaaaaaaaaaaaaaaaaa
#> 17 no session
set 2 read-only
#> 2 ok
put 2 2 1 aaaaaaaaaaaaaaaaaaaaaaaaaaaaaaaaaaaaaaaaaaaaaaaaaaaaaaaaaaaaaaaaaaaaaaaaaaaaaaaaa
#> 2 read only
put 1 2 1 aaaaaaaaaaaaaaaaaaaaaaaaaaaaaaaaaaaaaaaaaaaaaaaaaaaaaaaaaaaaaaaaaaaaaaaaaaaaaaaaa
#> 1 no table
put 1 1 1 aaaaaaaaaaaaaaaaaaaaaaaaaaaaaaaaaaaaaaaaaaaaaaaaaaaaaaaaaaaaaaaaaaaaaaaaaaaaaaaaa
#> 1 value too long
put 1 1 1 a
#> 1 ok
put 3 1 1 aaaaaaaaaaaaaaaaaaaaaaaaaaaaaaaaaaaaaaaaaaaaaaaaaaaaaaaaaaaaaaaaaaaaaaaaaaaaaaaaa
#> 3 value too long
put 3 1 3 c
#> 3 ok
put 3 1 1 c
#> 3 waits 1
put 3 1 1 c
#> 3 waiting
put 1 1 3 a
#> 1 deadlock 3
cancel 3
#> 3 ok
put 1 1 3 a
#> 1 waits 3
rollback 3
#> 3 ok
#> 1 ok
put 1 1 1
#> bad line
put 1 1 1 a b
#> bad line
put 1 1 1 
#> bad line
commit 1
#> 1 committed 1
";

const PUT_WAITS: &[u8] = b"\
insert 1 1 1 a
#> 1 ok
commit 1
#> 1 committed 1
delete 1 1 1
#> 1 ok
put 2 1 1 b
#> 2 waits 1
commit 1
#> 1 committed 2
#> 2 ok
get 2 1 1
#> 2 row 1 b
get 1 1 1
#> 1 not found
rollback 2
#> 2 ok
get 2 1 1
#> 2 not found
insert 1 1 1 c
#> 1 ok
put 2 1 1 d
#> 2 waits 1
put 3 1 1 e
#> 3 waits 1
commit 1
#> 1 committed 3
#> 2 ok
#> 3 waits 2
get 2 1 1
#> 2 row 1 d
rollback 2
#> 2 ok
#> 3 ok
get 2 1 1
#> 2 row 1 c
get 3 1 1
#> 3 row 1 e
commit 3
#> 3 committed 4
insert 1 1 2 f
#> 1 ok
put 2 1 2 g
#> 2 waits 1
rollback 1
#> 1 ok
#> 2 ok
commit 2
#> 2 committed 5
get 1 1 2
#> 1 row 2 g
";

const PUT_FULL: &[u8] = b"\
#* 1 16
put 1 1 @ a
#> 1 ok
#.
put 1 1 17 a
#> 1 block full
put 1 1 16 b
#> 1 ok
commit 1
#> 1 committed 1
put 2 1 17 b
#> 2 block full
put 2 1 16 c
#> 2 ok
delete 2 1 16
#> 2 ok
put 3 1 17 c
#> 3 block full
put 2 1 16 d
#> 2 ok
delete 2 1 16
#> 2 ok
commit 2
#> 2 committed 2
put 3 1 17 c
#> 3 ok
put 2 1 16 d
#> 2 block full
";

const PUT_WAITS_FULL: &[u8] = b"\
savepoint 1 p
#> 1 ok
insert 1 1 1 a
#> 1 ok
put 2 1 1 b
#> 2 waits 1
#* 2 16
insert 3 1 @ c
#> 3 ok
#.
rollback 1 p
#> 1 ok
insert 3 1 17 c
#> 3 ok
commit 1
#> 1 ok
#> 2 block full
sessions
#> session 3 changes 16 cursors 0 mode read-committed
";

const PUT_SLOTS: &[u8] = b"\
insert 1 1 1 a
#> 1 ok
commit 1
#> 1 committed 1
#* 2 9
put @ 1 @ b
#> @ ok
#.
put 1 1 1 c
#> 1 slots full
put 1 1 10 c
#> 1 slots full
put 2 1 1 c
#> 2 ok
commit 3
#> 3 committed 2
put 1 1 10 c
#> 1 ok
";

const PUT_ROLLBACK: &[u8] = b"\
#* 1 320
put 1 1 1 v@
#> 1 ok
#.
put 1 1 1 w
#> 1 rollback full 0 320
put 2 1 2 w
#> 2 rollback full 0 320
commit 1
#> 1 committed 1
put 2 1 2 w
#> 2 ok
";

const PUT_SERIALIZABLE: &[u8] = b"\
put 1 1 1 a
#> 1 ok
commit 1
#> 1 committed 1
set 2 serializable
#> 2 ok
put 1 1 1 b
#> 1 ok
put 1 1 2 b
#> 1 ok
commit 1
#> 1 committed 2
put 2 1 1 c
#> 2 cannot serialize 1 2
put 2 1 2 c
#> 2 cannot serialize 1 2
put 2 1 3 c
#> 2 ok
put 1 1 3 d
#> 1 waits 2
rollback 2
#> 2 ok
#> 1 ok
set 2 serializable
#> 2 ok
put 2 1 3 e
#> 2 waits 1
commit 1
#> 1 committed 3
#> 2 cannot serialize 2 3
#* 4 83
put 1 1 3 v@
#> 1 ok
commit 1
#> 1 committed @
#.
put 2 1 4 e
#> 2 too old 2 67
rollback 2
#> 2 ok
put 2 1 4 e
#> 2 ok
";

const SESSIONS: &[u8] = b"\
sessions
get 1 1 1
#> 1 not found
close 9 c
#> 9 no cursor
sessions
savepoint 16 p
#> 16 ok
sessions
#> session 16 changes 0 cursors 0 mode read-committed
insert 1 1 1 a
#> 1 ok
insert 1 1 2 b
#> 1 ok
open 1 c 1 0 9
#> 1 ok
open 3 c 1 0 9
#> 3 ok
open 3 d 1 0 9
#> 3 ok
set 4 read-only
#> 4 ok
set 5 serializable
#> 5 ok
set 6 read-committed
#> 6 ok
put 7 1 1 c
#> 7 waits 1
put 5 1 2 c
#> 5 waits 1
sessions
#> session 1 changes 2 cursors 1 mode read-committed
#> session 3 changes 0 cursors 2 mode read-committed
#> session 4 changes 0 cursors 0 mode read-only
#> session 5 changes 0 cursors 0 mode serializable waits 1
#> session 7 changes 0 cursors 0 mode read-committed waits 1
#> session 16 changes 0 cursors 0 mode read-committed
lock 8 1 1
#> 8 waits 1
commit 1
#> 1 committed 1
#> 7 ok
#> 5 cannot serialize 0 1
#> 8 waits 7
sessions
#> session 1 changes 0 cursors 1 mode read-committed
#> session 3 changes 0 cursors 2 mode read-committed
#> session 4 changes 0 cursors 0 mode read-only
#> session 5 changes 0 cursors 0 mode serializable
#> session 7 changes 1 cursors 0 mode read-committed
#> session 8 changes 0 cursors 0 mode read-committed waits 7
#> session 16 changes 0 cursors 0 mode read-committed
cancel 8
#> 8 ok
close 1 c
#> 1 ok
close 3 c
#> 3 ok
close 3 d
#> 3 ok
commit 4
#> 4 ok
rollback 5
#> 5 ok
rollback 16
#> 16 ok
sessions
#> session 7 changes 1 cursors 0 mode read-committed
commit 7
#> 7 committed 2
sessions
sessions 1
#> bad line
sessions 
#> bad line
";

const SESSIONS_BACK: &[u8] = b"\
put 1 1 1 a
#> 1 ok
savepoint 1 p
#> 1 ok
lock 1 1 1
#> 1 ok
put 1 1 1 b
#> 1 ok
sessions
#> session 1 changes 3 cursors 0 mode read-committed
open 1 c 1 0 9
#> 1 ok
rollback 1 p
#> 1 ok
sessions
#> session 1 changes 1 cursors 0 mode read-committed
open 1 c 1 0 9
#> 1 ok
commit 1 later
#> 1 numbered 1
sessions
#> session 1 changes 0 cursors 1 mode read-committed
put 2 1 1 c
#> 2 ok
lock 1 1 1
#> 1 waits 2
savepoint 2 p
#> 2 ok
rollback 2 p
#> 2 ok
sessions
#> session 1 changes 0 cursors 1 mode read-committed waits 2
#> session 2 changes 1 cursors 0 mode read-committed
#--
sessions
get 1 1 1
#> 1 row 1 a
";

const GET_TOO_OLD: &[u8] = b"\
insert 1 1 1 a
#> 1 ok
insert 1 1 2 b
#> 1 ok
commit 1
#> 1 committed 1
set 2 read-only
#> 2 ok
get 2 1 2
#> 2 row 2 b
#* 2 81
update 1 1 1 v@
#> 1 ok
commit 1
#> 1 committed @
#.
get 2 1 1
#> 2 too old 1 65
get 2 1 3
#> 2 too old 1 65
get 2 1 2
#> 2 row 2 b
get 2 1 4
#> 2 not found
open 2 c 1 0 9
#> 2 ok
fetch 2 c 9
#> 2 row 2 b
#> 2 too old 1 65
get 3 1 1
#> 3 row 1 v81
commit 2
#> 2 ok
get 2 1 1
#> 2 row 1 v81
";

const NO_GET: &[u8] = b"\
insert 1 1 1 a
#> 1 ok
commit 1
#> 1 committed 1
open 2 c 1 1 1
#> 2 ok
#* 2 81
put 1 1 2 v@
#> 1 ok
commit 1
#> 1 committed @
#.
fetch 2 c 1
#> 2 too old 1 65
";

const GET_CLEANS: &[u8] = b"\
insert 1 1 1 a
#> 1 ok
commit 1
#> 1 committed 1
open 2 c 1 1 1
#> 2 ok
get 3 1 3
#> 3 not found
#* 2 81
put 1 1 2 v@
#> 1 ok
commit 1
#> 1 committed @
#.
fetch 2 c 1
#> 2 row 1 a
";
