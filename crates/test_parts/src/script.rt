//! Lines and replies, worked by hand.
use arrayvec::ArrayVec;
use rb_model::{Activity, Mode, Op, Refusal, Wait};
use rb_script::{Command, Reply, Request, parse, print};

// Each line is a bad one.
const BAD_LINES: &[u8] = b"\
fetch 1 c 0
fetch 1 c 00
fetch 1 c 01
fetch 1 c 1000001
open 1 C 1 0 9
open 1 c 1 0
open 1 c 1 0\x20
open 1 abcdefghijklmnopq 1 0 9
open 1  1 0 9
insert 1 1 1\x20
insert 1 1 1
insert 1 1 1 a\x20
insert 1 1 1 a b
insert 1  1 1 a
insert 1\t1 1 a
insert 1 1 1 a\x80
insert 1 1 18446744073709551616 a
insert 01 1 1 a
INSERT 1 1 1 a
insert
inserts 1 1 1 a
update 1 1 1
update 1 1 1\x20
update 1  1 1 a
update 1 1 1  a
delete 1 1
delete 1 1\x20
delete 1 1  1
delete 1 1 1 x
delete 1 1 1\x20
\x20commit 1
commit
commit\x20
commit 1\x20
commit 1 1
commit 1 LATER
commit 1 late
commit 1 later\x20
commit 1 later 1
commit 1  later
commit later
commit later 1
commit 65536 later
commit +1
commit -1
close 1
close 1\x20
close 1 C
close 1 c\x20
close 65536 c
commit 65536
lock 1 1
lock 1 1\x20
lock 1 1 01
lock 1 1 1 a
locks 1 1 1
savepoint
savepoint 1
savepoint 1\x20
savepoint 1 A
savepoint 1 a\x20
savepoint 1 abcdefghijklmnopq
savepoint 65536 a
rollback
rollback 1\x20
rollback 1 A
rollback 1 a b
rollback 1  a
rollback 1 abcdefghijklmnopq
rollback 65536 a
cancel
cancel\x20
cancel 01
cancel 1\x20
cancel 1 1
cancel 65536
cancels 1
set
set 1
set 1\x20
set 1 read
set 1 read only
set 1 READ-ONLY
set 1 read-only\x20
set 1 read-onlys
set 1 serializable 1
set 1  serializable
set 01 serializable
set 65536 read-committed
sets 1 read-only
marks\x20
marks 0
flush 1
flush\x20
flushes
sweep
sweep\x20
sweep 0
sweep 01
sweep 1000001
sweep 1 1
sweep 1\x20
sweep  1
sweep a
sweeps 1
sessions 1
sessions\x20
put 1 1 1
put 1 1 a b
puts 1 1 1 a
get 1 1
get 1 1 1 a
get 1 1 1\x20
gets 1 1 1
checkpoint 1
\x20
";

#[test]
fn lines_that_spell_no_command(rt: HostRuntime) {
    for line in BAD_LINES.split_inclusive(|byte| *byte == b'\n') {
        let line = line.strip_suffix(b"\n").unwrap_or(line);
        assert!(rt; parse(line).is_none(), "{line:?}");
    }
}

/// A letter for what a session asks for, and the numbers of its line behind that of the session.
fn numbers_of_request(request: &Request<'_>) -> (u8, [u64; 3]) {
    match request {
        Request::Write { t, k, op } => {
            let letter = match op {
                Op::Insert(_) => b'i',
                Op::Update(_) => b'u',
                Op::Put(_) => b'a',
                Op::Delete => b'd',
            };
            (letter, [u64::from(*t), *k, 0])
        }
        Request::Lock { t, k } => (b'l', [u64::from(*t), *k, 0]),
        Request::Commit => (b'c', [0; 3]),
        Request::CommitLater => (b'w', [0; 3]),
        Request::Rollback => (b'r', [0; 3]),
        Request::Set { .. } => (b'e', [0; 3]),
        Request::Savepoint { .. } => (b's', [0; 3]),
        Request::RollbackTo { .. } => (b't', [0; 3]),
        Request::OpenCursor { t, lo, hi, .. } => (b'o', [u64::from(*t), *lo, *hi]),
        Request::Fetch { n, .. } => (b'f', [u64::from(*n), 0, 0]),
        Request::CloseCursor { .. } => (b'x', [0; 3]),
        Request::Get { t, k } => (b'g', [u64::from(*t), *k, 0]),
        Request::Cancel => (b'n', [0; 3]),
    }
}

/// A letter for a command, and its numbers in the order of the line.
fn numbers_of(command: &Command<'_>) -> (u8, [u64; 4]) {
    match command {
        Command::Session { s, request } => {
            let (letter, [first, second, third]) = numbers_of_request(request);
            (letter, [u64::from(*s), first, second, third])
        }
        Command::Marks => (b'm', [0; 4]),
        Command::Sessions => (b'y', [0; 4]),
        Command::Flush => (b'h', [0; 4]),
        Command::Sweep { changes } => (b'b', [u64::from(*changes), 0, 0, 0]),
        Command::Checkpoint => (b'p', [0; 4]),
    }
}

/// The mode of that word.
fn mode_of(text: &[u8]) -> Option<Mode> {
    match text {
        b"read-committed" => Some(Mode::ReadCommitted),
        b"read-only" => Some(Mode::ReadOnly),
        b"serializable" => Some(Mode::Serializable),
        _ => None,
    }
}

/// Whether what a session asks for has this value, name or mode, or none where that is empty.
fn request_has_text(request: &Request<'_>, text: &[u8]) -> bool {
    match request {
        Request::Write { op, .. } => match op {
            Op::Insert(value) | Op::Update(value) | Op::Put(value) => *value == text,
            Op::Delete => text.is_empty(),
        },
        Request::Set { mode } => mode_of(text) == Some(*mode),
        Request::Savepoint { name }
        | Request::RollbackTo { name }
        | Request::OpenCursor { name, .. }
        | Request::Fetch { name, .. }
        | Request::CloseCursor { name } => name.as_bytes() == text,
        _ => text.is_empty(),
    }
}

/// Whether a command has this value, name or mode, or none where that is empty.
fn has_text(command: &Command<'_>, text: &[u8]) -> bool {
    match command {
        Command::Session { request, .. } => request_has_text(request, text),
        _ => text.is_empty(),
    }
}

/// Whether a line spells the command of this letter, with these numbers and this value or name.
fn spells(line: &[u8], letter: u8, numbers: [u64; 4], text: &[u8]) -> bool {
    match parse(line) {
        Some(command) => numbers_of(&command) == (letter, numbers) && has_text(&command, text),
        None => false,
    }
}

#[test]
fn lines_that_spell_a_command(rt: HostRuntime) {
    let rows: [(&[u8], u8, [u64; 4], &[u8]); 24] = [
        (
            b"insert 1 2 18446744073709551615 #!",
            b'i',
            [1, 2, u64::MAX, 0],
            b"#!",
        ),
        (b"update 65535 2 0 ~", b'u', [65535, 2, 0, 0], b"~"),
        (b"put 65535 2 0 ~", b'a', [65535, 2, 0, 0], b"~"),
        (b"get 1 2 9", b'g', [1, 2, 9, 0], b""),
        (
            b"delete 1 2 18446744073709551615",
            b'd',
            [1, 2, u64::MAX, 0],
            b"",
        ),
        (
            b"lock 1 2 18446744073709551615",
            b'l',
            [1, 2, u64::MAX, 0],
            b"",
        ),
        (b"commit 65535", b'c', [65535, 0, 0, 0], b""),
        (b"commit 65535 later", b'w', [65535, 0, 0, 0], b""),
        (b"rollback 65535", b'r', [65535, 0, 0, 0], b""),
        (
            b"set 1 read-committed",
            b'e',
            [1, 0, 0, 0],
            b"read-committed",
        ),
        (b"set 0 read-only", b'e', [0, 0, 0, 0], b"read-only"),
        (
            b"set 65535 serializable",
            b'e',
            [65535, 0, 0, 0],
            b"serializable",
        ),
        (
            b"savepoint 65535 abcdefghijklmnop",
            b's',
            [65535, 0, 0, 0],
            b"abcdefghijklmnop",
        ),
        (b"rollback 0 1", b't', [0, 0, 0, 0], b"1"),
        (b"cancel 65535", b'n', [65535, 0, 0, 0], b""),
        (b"marks", b'm', [0, 0, 0, 0], b""),
        (b"sessions", b'y', [0, 0, 0, 0], b""),
        (b"flush", b'h', [0, 0, 0, 0], b""),
        (b"sweep 1", b'b', [1, 0, 0, 0], b""),
        (b"sweep 1000000", b'b', [1_000_000, 0, 0, 0], b""),
        (b"checkpoint", b'p', [0, 0, 0, 0], b""),
        (b"open 1 _0 65535 9 0", b'o', [1, 65535, 9, 0], b"_0"),
        (
            b"fetch 0 abcdefghijklmnop 1000000",
            b'f',
            [0, 1_000_000, 0, 0],
            b"abcdefghijklmnop",
        ),
        (b"close 1 c", b'x', [1, 0, 0, 0], b"c"),
    ];
    for (line, letter, numbers, text) in rows {
        assert!(rt; spells(line, letter, numbers, text), "{line:?}");
    }
}

/// Whether a reply is written so.
fn prints(reply: &Reply<'_>, text: &[u8]) -> bool {
    if let Reply::Row { value, .. } = reply {
        if value.len() > 80 {
            return false;
        }
    }
    let mut line = ArrayVec::<u8, 512>::new();
    print(reply, &mut line);
    line.as_slice() == text
}

#[test]
fn texts_of_replies(rt: HostRuntime) {
    let value = [b'~'; 80];
    let longest =
        b"1 row 1 ~~~~~~~~~~~~~~~~~~~~~~~~~~~~~~~~~~~~~~~~~~~~~~~~~~~~~~~~~~~~~~~~~~~~~~~~~~~~~~~~\n";
    let rows: [(Reply<'_>, &[u8]); 15] = [
        (Reply::Done { s: Some(1) }, b"1 ok\n"),
        (Reply::Done { s: None }, b"ok\n"),
        (
            Reply::Committed {
                s: 65535,
                number: u64::MAX,
            },
            b"65535 committed 18446744073709551615\n",
        ),
        (
            Reply::Numbered {
                s: 65535,
                number: u64::MAX,
            },
            b"65535 numbered 18446744073709551615\n",
        ),
        (
            Reply::Flushed { number: u64::MAX },
            b"flushed 18446744073709551615\n",
        ),
        (Reply::Swept { changes: 0 }, b"swept 0\n"),
        (Reply::Swept { changes: 1_000_000 }, b"swept 1000000\n"),
        (
            Reply::Row {
                s: 1,
                key: 0,
                value: b"a",
            },
            b"1 row 0 a\n",
        ),
        (
            Reply::Row {
                s: 1,
                key: 1,
                value: value.as_slice(),
            },
            longest,
        ),
        (Reply::End { s: 0 }, b"0 end\n"),
        (Reply::Waits { s: 2, on: 10 }, b"2 waits 10\n"),
        (
            Reply::Marks {
                seg: 15,
                writes: u64::MAX,
                lost: 0,
            },
            b"segment 15 writes 18446744073709551615 lost 0\n",
        ),
        (Reply::Absent { s: 2 }, b"2 not found\n"),
        (Reply::Nothing, b""),
        (Reply::BadLine, b"bad line\n"),
    ];
    for (reply, text) in &rows {
        assert!(rt; prints(reply, text), "{reply:?}");
    }
}

/// Whether what session 2 has under way is written so, in that mode and with that wait.
fn prints_session(mode: Mode, wait: Wait, text: &[u8]) -> bool {
    let activity = Activity {
        changes: 320,
        cursors: 16,
        mode,
        wait,
    };
    prints(
        &Reply::Shown {
            session: 2,
            activity,
        },
        text,
    )
}

#[test]
fn texts_of_sessions(rt: HostRuntime) {
    let rows: [(Mode, Wait, &[u8]); 3] = [
        (
            Mode::Serializable,
            Wait::On { session: 16 },
            b"session 2 changes 320 cursors 16 mode serializable waits 16\n",
        ),
        (
            Mode::ReadOnly,
            Wait::Ready,
            b"session 2 changes 320 cursors 16 mode read-only ready\n",
        ),
        (
            Mode::ReadCommitted,
            Wait::Free,
            b"session 2 changes 320 cursors 16 mode read-committed\n",
        ),
    ];
    for (mode, wait, text) in rows {
        assert!(rt; prints_session(mode, wait, text), "{mode:?} {wait:?}");
    }
}

#[test]
fn texts_of_refusals(rt: HostRuntime) {
    let rows: [(Option<u16>, Refusal, &[u8]); 14] = [
        (Some(2), Refusal::Deadlock { on: 10 }, b"2 deadlock 10\n"),
        (Some(1), Refusal::Waiting, b"1 waiting\n"),
        (Some(1), Refusal::NotFirst, b"1 not first\n"),
        (Some(1), Refusal::ReadOnly, b"1 read only\n"),
        (
            Some(2),
            Refusal::CantSerialize {
                scn: 0,
                by: u64::MAX,
            },
            b"2 cannot serialize 0 18446744073709551615\n",
        ),
        (Some(65535), Refusal::NotWaiting, b"65535 not waiting\n"),
        (Some(1), Refusal::TooManyCursors, b"1 too many cursors\n"),
        (Some(1), Refusal::NoSavepoint, b"1 no savepoint\n"),
        (
            Some(65535),
            Refusal::TooManySavepoints,
            b"65535 too many savepoints\n",
        ),
        (Some(1), Refusal::NotFound, b"1 not found\n"),
        (Some(1), Refusal::BlockFull, b"1 block full\n"),
        (Some(1), Refusal::WornOut, b"1 worn out\n"),
        (
            Some(65535),
            Refusal::RollbackFull {
                seg: 15,
                since: 320,
            },
            b"65535 rollback full 15 320\n",
        ),
        (None, Refusal::DiskFault, b"disk fault\n"),
    ];
    for (s, why, text) in rows {
        assert!(rt; prints(&Reply::Refused { s, why }, text), "{why:?}");
    }
}
