//! Engines over both stores under one list of calls: they answer alike, and as the list says. A list is a dialogue, as
//! a script is. A line is one call, so that `fetch` gives one row; `resume` has the first session that is ready try its
//! write again, and is answered `0 end` where none is; the value `-` has no bytes.
use crate::dialogues::replies_of;
use crate::doubles::{CALLS, FRAMES, SCRIPT_ROOM};
use arrayvec::ArrayVec;
use rb_base::{NoMemory, Shape, Store};
use rb_engine::Engine;
use rb_layout::Layout;
use rb_memdisk::MemDisk;
use rb_model::{Fetched, Marks, Op, Refusal, Row, Wrote};
use rb_plainstore::PlainStore;
use rb_script::{Command, Reply, Request, parse, print};
use rb_store::{LogStore, format};
use std::alloc::Global;
use std::test::Fail;

// Two tables of two blocks, one segment and 64 log slots.
const SHAPE: Shape = Shape {
    tables: 2,
    blocks: 2,
    segments: 1,
};

const SLOTS: u32 = 64;

// The reply to a call of a session that tells nothing but that it was done.
fn done(s: u16, answer: Result<(), Refusal>) -> Reply<'static> {
    match answer {
        Ok(()) => Reply::Done { s: Some(s) },
        Err(why) => Reply::Refused { s: Some(s), why },
    }
}

// The reply to a write, also to one that is tried again.
fn wrote(s: u16, answer: Result<Wrote, Refusal>) -> Reply<'static> {
    match answer {
        Ok(Wrote::Done) => Reply::Done { s: Some(s) },
        Ok(Wrote::Waits { on }) => Reply::Waits { s, on },
        Err(why) => Reply::Refused { s: Some(s), why },
    }
}

// The reply to a commit, one that lasts or a later one.
fn committed(s: u16, answer: Result<Option<u64>, Refusal>, lasts: bool) -> Reply<'static> {
    match answer {
        Ok(Some(number)) if lasts => Reply::Committed { s, number },
        Ok(Some(number)) => Reply::Numbered { s, number },
        Ok(None) => Reply::Done { s: Some(s) },
        Err(why) => Reply::Refused { s: Some(s), why },
    }
}

// The reply to a fetch, with the row that it filled.
fn fetched(s: u16, answer: Result<Fetched, Refusal>, row: &Row) -> Reply<'_> {
    match answer {
        Ok(Fetched::Row) => Reply::Row {
            s,
            key: row.key,
            value: row.value.as_slice(),
        },
        Ok(Fetched::End) => Reply::End { s },
        Err(why) => Reply::Refused { s: Some(s), why },
    }
}

// The reply to a read of one key, with the row that it filled.
fn got(s: u16, answer: Result<Fetched, Refusal>, row: &Row) -> Reply<'_> {
    match answer {
        Ok(Fetched::End) => Reply::Absent { s },
        other => fetched(s, other, row),
    }
}

// The reply to `sessions` that tells of the first session, with no line where that has nothing under way.
fn shown<S: Store>(engine: &Engine<S>) -> Reply<'static> {
    match engine.activity(1) {
        Ok(Some(activity)) => Reply::Shown {
            session: 1,
            activity,
        },
        Ok(None) => Reply::Nothing,
        Err(why) => Reply::Refused { s: None, why },
    }
}

// The reply to `flush`.
fn flushed<S: Store>(engine: &mut Engine<S>) -> Reply<'static> {
    match engine.flush() {
        Ok(number) => Reply::Flushed { number },
        Err(why) => Reply::Refused { s: None, why },
    }
}

// The reply to `sweep`.
fn swept<S: Store>(engine: &mut Engine<S>, changes: u32) -> Reply<'static> {
    match engine.sweep(changes) {
        Ok(changes) => Reply::Swept { changes },
        Err(why) => Reply::Refused { s: None, why },
    }
}

// The reply to `checkpoint`.
fn checkpointed<S: Store>(engine: &mut Engine<S>) -> Reply<'static> {
    match engine.checkpoint() {
        Ok(()) => Reply::Done { s: None },
        Err(why) => Reply::Refused { s: None, why },
    }
}

// The reply to `marks` of the only segment.
fn marked<S: Store>(engine: &mut Engine<S>) -> Reply<'static> {
    if engine.shape().segments == 0 {
        return Reply::BadLine;
    }
    match engine.marks(0) {
        Ok(Marks { writes, lost }) => Reply::Marks {
            seg: 0,
            writes,
            lost,
        },
        Err(why) => Reply::Refused { s: None, why },
    }
}

// A write, whose value `-` has no bytes.
fn op_of(op: Op<'_>) -> Op<'_> {
    match op {
        Op::Update(b"-") => Op::Update(b""),
        op => op,
    }
}

// Calls an engine as a session asks. A row is given into `row`.
fn asked<'a, S: Store>(
    engine: &mut Engine<S>,
    s: u16,
    request: &Request<'_>,
    row: &'a mut Row,
) -> Reply<'a> {
    match request {
        Request::Write { t, k, op } => wrote(s, engine.write(s, *t, *k, op_of(*op))),
        Request::Lock { t, k } => wrote(s, engine.lock(s, *t, *k)),
        Request::Commit => committed(s, engine.commit(s), true),
        Request::CommitLater => committed(s, engine.commit_later(s), false),
        Request::Rollback => done(s, engine.rollback(s)),
        Request::Set { mode } => done(s, engine.set(s, *mode)),
        Request::Savepoint { name } => done(s, engine.savepoint(s, name)),
        Request::RollbackTo { name } => done(s, engine.rollback_to(s, name)),
        Request::OpenCursor { name, t, lo, hi } => {
            done(s, engine.open_cursor(s, name, *t, *lo, *hi))
        }
        Request::Fetch { name, .. } => {
            let answer = engine.fetch(s, name, row);
            fetched(s, answer, row)
        }
        Request::CloseCursor { name } => done(s, engine.close_cursor(s, name)),
        Request::Get { t, k } => {
            let answer = engine.get(s, *t, *k, row);
            got(s, answer, row)
        }
        Request::Cancel => done(s, engine.cancel(s)),
    }
}

// Calls an engine as a line says. A row is given into `row`.
fn called<'a, S: Store>(engine: &mut Engine<S>, line: &[u8], row: &'a mut Row) -> Reply<'a> {
    if line == b"resume".as_slice() {
        return match engine.resume() {
            Some((s, answer)) => wrote(s, answer),
            None => Reply::End { s: 0 },
        };
    }
    match parse(line) {
        Some(Command::Session { s, request }) => asked(engine, s, &request, row),
        Some(Command::Marks) => marked(engine),
        Some(Command::Sessions) => shown(engine),
        Some(Command::Flush) => flushed(engine),
        Some(Command::Sweep { changes }) => swept(engine, changes),
        Some(Command::Checkpoint) => checkpointed(engine),
        None => Reply::BadLine,
    }
}

// Adds the text of what a line is answered.
fn add_reply<S: Store>(
    engine: &mut Engine<S>,
    line: &[u8],
    replies: &mut Vec<u8>,
) -> Result<(), NoMemory> {
    let mut row = Row {
        key: 0,
        value: ArrayVec::new(),
    };
    let mut text = ArrayVec::<u8, 512>::new();
    let reply = called(engine, line, &mut row);
    if let Reply::Row { value, .. } = &reply {
        if value.len() > 80 {
            return Err(NoMemory);
        }
    }
    print(&reply, &mut text);
    replies
        .extend_from_slice(text.as_slice())
        .map_err(|_| NoMemory)
}

// What an engine answers the lines of a dialogue.
fn answered<S: Store>(
    alloc: Global,
    engine: &mut Engine<S>,
    dialogue: &[u8],
) -> Result<Vec<u8>, NoMemory> {
    let mut replies = Vec::new(alloc);
    for line in dialogue.split(|byte| *byte == b'\n') {
        if !line.is_empty() && !line.starts_with(b"#") {
            add_reply(engine, line, &mut replies)?;
        }
    }
    Ok(replies)
}

// The engine over a new store that keeps its blocks alone.
fn plain_engine(alloc: Global) -> Result<Engine<PlainStore>, Fail> {
    let store = PlainStore::new(alloc, SHAPE)?;
    match Engine::open(alloc, store) {
        Ok(engine) => Ok(engine),
        Err(_) => Err(Fail::new("no engine")),
    }
}

// The engine over the store of a new file.
fn log_engine(alloc: Global) -> Result<Engine<LogStore<MemDisk>>, Fail> {
    let Some(layout) = Layout::new(SHAPE.tables, SHAPE.blocks, SHAPE.segments, SLOTS) else {
        return Err(Fail::new("no layout"));
    };
    let mut disk = MemDisk::new(alloc, b"", SCRIPT_ROOM, CALLS, &[])?;
    if format(&mut disk, &layout).is_err() {
        return Err(Fail::new("no file"));
    }
    let Ok(store) = LogStore::open(alloc, disk, FRAMES) else {
        return Err(Fail::new("no store"));
    };
    match Engine::open(alloc, store) {
        Ok(engine) => Ok(engine),
        Err(_) => Err(Fail::new("no engine")),
    }
}

#[test]
fn one_list_of_calls(rt: HostRuntime) -> Result<(), Fail> {
    let rows: [(&str, &[u8]); 11] = [
        ("writes", WRITES),
        ("one key", ONE_KEY),
        ("later commits", LATER_COMMITS),
        ("cursors", CURSORS),
        ("rollbacks", ROLLBACKS),
        ("savepoints", SAVEPOINTS),
        ("waits", WAITS),
        ("modes", MODES),
        ("full homes", FULL_HOMES),
        ("many cursors", MANY_CURSORS),
        ("many savepoints", MANY_SAVEPOINTS),
    ];
    for (name, dialogue) in rows {
        let expected = replies_of(rt.alloc(), dialogue)?;
        let plain = answered(rt.alloc(), &mut plain_engine(rt.alloc())?, dialogue)?;
        assert!(rt; plain.as_slice() == expected.as_slice(), "{name}");
        let lap = answered(rt.alloc(), &mut log_engine(rt.alloc())?, dialogue)?;
        assert!(rt; lap.as_slice() == expected.as_slice(), "{name}");
    }
    Ok(())
}

// Reads of one key see the session's own changes and its transaction's snapshot; puts insert or update, also once they
// have waited; and what session 1 has under way.
const ONE_KEY: &[u8] = b"\
sessions
get 1 1 1
#> 1 not found
get 17 1 1
#> 17 no session
get 1 3 1
#> 1 no table
put 1 1 1 a
#> 1 ok
get 1 1 1
#> 1 row 1 a
get 2 1 1
#> 2 not found
sessions
#> session 1 changes 1 cursors 0 mode read-committed
put 2 1 1 b
#> 2 waits 1
get 2 1 1
#> 2 waiting
commit 1
#> 1 committed 1
resume
#> 2 ok
set 3 read-only
#> 3 ok
put 3 1 1 z
#> 3 read only
commit 2
#> 2 committed 2
get 3 1 1
#> 3 row 1 a
get 1 1 1
#> 1 row 1 b
delete 1 1 1
#> 1 ok
get 1 1 1
#> 1 not found
put 1 1 1 c
#> 1 ok
get 1 1 1
#> 1 row 1 c
savepoint 1 p
#> 1 ok
open 1 c 1 0 9
#> 1 ok
sessions
#> session 1 changes 2 cursors 1 mode read-committed
set 4 serializable
#> 4 ok
commit 1
#> 1 committed 3
put 4 1 1 d
#> 4 cannot serialize 2 3
sessions
#> session 1 changes 0 cursors 1 mode read-committed
close 1 c
#> 1 ok
sessions
savepoint 1 p
#> 1 ok
sessions
#> session 1 changes 0 cursors 0 mode read-committed
rollback 1
#> 1 ok
set 1 serializable
#> 1 ok
lock 2 1 1
#> 2 ok
put 1 1 1 e
#> 1 waits 2
sessions
#> session 1 changes 0 cursors 0 mode serializable waits 2
rollback 2
#> 2 ok
sessions
#> session 1 changes 0 cursors 0 mode serializable ready
resume
#> 1 ok
resume
#> 0 end
";

// A later commit is seen at once and frees who waits, a commit behind it takes the next number, and a flush tells the
// last one, also where nothing waits. A sweep takes nothing of sessions that live.
const LATER_COMMITS: &[u8] = b"\
flush
#> flushed 0
commit 1 later
#> 1 ok
commit 17 later
#> 17 no session
insert 1 1 1 a
#> 1 ok
update 2 1 1 b
#> 2 waits 1
sweep 9
#> swept 0
commit 2 later
#> 2 waiting
commit 1 later
#> 1 numbered 1
resume
#> 2 ok
commit 2
#> 2 committed 2
lock 1 1 1
#> 1 ok
commit 1 later
#> 1 numbered 3
flush
#> flushed 3
checkpoint
#> ok
flush
#> flushed 3
open 1 c 1 0 9
#> 1 ok
fetch 1 c 1
#> 1 row 1 b
";

// Values of 80 and 81 bytes, and of none.
const WRITES: &[u8] = b"\
commit 1
#> 1 ok
commit 17
#> 17 no session
insert 0 1 1 a
#> 0 no session
delete 17 3 1
#> 17 no session
insert 1 0 1 vvvvvvvvvvvvvvvvvvvvvvvvvvvvvvvvvvvvvvvvvvvvvvvvvvvvvvvvvvvvvvvvvvvvvvvvvvvvvvvvv
#> 1 no table
delete 1 3 1
#> 1 no table
insert 1 1 1 vvvvvvvvvvvvvvvvvvvvvvvvvvvvvvvvvvvvvvvvvvvvvvvvvvvvvvvvvvvvvvvvvvvvvvvvvvvvvvvvv
#> 1 value too long
update 1 1 1 vvvvvvvvvvvvvvvvvvvvvvvvvvvvvvvvvvvvvvvvvvvvvvvvvvvvvvvvvvvvvvvvvvvvvvvvvvvvvvvvv
#> 1 value too long
update 1 1 1 a
#> 1 not found
delete 1 1 1
#> 1 not found
insert 1 1 1 vvvvvvvvvvvvvvvvvvvvvvvvvvvvvvvvvvvvvvvvvvvvvvvvvvvvvvvvvvvvvvvvvvvvvvvvvvvvvvvv
#> 1 ok
insert 1 1 1 b
#> 1 duplicate
update 1 2 1 b
#> 1 not found
update 1 1 3 b
#> 1 not found
commit 1
#> 1 committed 1
commit 1
#> 1 ok
insert 1 1 1 b
#> 1 duplicate
update 1 1 1 -
#> 1 ok
update 1 1 1 c
#> 1 ok
delete 1 1 1
#> 1 ok
delete 1 1 1
#> 1 not found
insert 1 1 1 d
#> 1 ok
insert 1 2 1 e
#> 1 ok
commit 1
#> 1 committed 2
delete 1 2 1
#> 1 ok
commit 1
#> 1 committed 3
";

// A cursor gives the rows of its opening: the even keys' home first, and then the odd ones'.
const CURSORS: &[u8] = b"\
insert 1 1 1 a
#> 1 ok
insert 1 1 2 b
#> 1 ok
insert 1 2 2 c
#> 1 ok
commit 1
#> 1 committed 1
open 17 early 1 0 9
#> 17 no session
open 1 early 3 0 9
#> 1 no table
open 1 early 0 0 9
#> 1 no table
fetch 1 early 1
#> 1 no cursor
close 1 early
#> 1 no cursor
open 1 early 1 0 9
#> 1 ok
open 1 early 2 0 9
#> 1 cursor there
fetch 17 early 1
#> 17 no session
close 17 early
#> 17 no session
fetch 1 early 1
#> 1 row 2 b
update 1 1 1 d
#> 1 ok
delete 1 1 2
#> 1 ok
insert 1 1 4 e
#> 1 ok
open 1 own 1 0 9
#> 1 ok
delete 1 1 4
#> 1 ok
insert 1 1 2 f
#> 1 ok
commit 1
#> 1 committed 2
fetch 1 early 1
#> 1 row 1 a
fetch 1 early 1
#> 1 end
fetch 1 early 1
#> 1 end
fetch 1 own 1
#> 1 row 4 e
fetch 1 own 1
#> 1 row 1 d
fetch 1 own 1
#> 1 end
open 1 late 1 0 9
#> 1 ok
fetch 1 late 1
#> 1 row 2 f
fetch 1 late 1
#> 1 row 1 d
fetch 1 late 1
#> 1 end
open 1 other 2 0 9
#> 1 ok
fetch 1 other 1
#> 1 row 2 c
fetch 1 other 1
#> 1 end
open 1 none 1 3 2
#> 1 ok
fetch 1 none 1
#> 1 end
close 1 early
#> 1 ok
fetch 1 early 1
#> 1 no cursor
close 1 early
#> 1 no cursor
open 1 early 1 1 1
#> 1 ok
fetch 1 early 1
#> 1 row 1 d
fetch 1 early 1
#> 1 end
";

// A rollback puts every change back and closes the cursors that have some of them. The records stay counted.
const ROLLBACKS: &[u8] = b"\
marks
#> segment 0 writes 0 lost 0
rollback 1
#> 1 ok
rollback 0
#> 0 no session
rollback 17
#> 17 no session
checkpoint
#> ok
insert 1 1 1 a
#> 1 ok
insert 1 1 2 b
#> 1 ok
commit 1
#> 1 committed 1
marks
#> segment 0 writes 2 lost 0
open 1 early 1 0 9
#> 1 ok
update 1 1 1 c
#> 1 ok
delete 1 1 2
#> 1 ok
insert 1 1 2 d
#> 1 ok
insert 1 2 5 e
#> 1 ok
checkpoint
#> ok
open 1 own 1 0 9
#> 1 ok
fetch 1 own 1
#> 1 row 2 d
marks
#> segment 0 writes 6 lost 0
rollback 1
#> 1 ok
rollback 1
#> 1 ok
marks
#> segment 0 writes 6 lost 0
fetch 1 own 1
#> 1 no cursor
fetch 1 early 1
#> 1 row 2 b
fetch 1 early 1
#> 1 row 1 a
fetch 1 early 1
#> 1 end
commit 1
#> 1 ok
open 1 own 1 0 9
#> 1 ok
fetch 1 own 1
#> 1 row 2 b
open 1 other 2 0 9
#> 1 ok
fetch 1 other 1
#> 1 end
insert 1 1 2 f
#> 1 duplicate
update 1 2 5 f
#> 1 not found
insert 1 2 5 g
#> 1 ok
commit 1
#> 1 committed 2
rollback 1
#> 1 ok
fetch 1 own 1
#> 1 row 1 a
marks
#> segment 0 writes 7 lost 0
";

// A rollback to a savepoint puts back the changes behind it, locks among them, and frees their keys. Without a change
// left a transaction ends by a commit of no number.
const SAVEPOINTS: &[u8] = b"\
savepoint 0 p
#> 0 no session
rollback 17 p
#> 17 no session
lock 17 1 1
#> 17 no session
lock 1 3 1
#> 1 no table
lock 1 1 1
#> 1 not found
rollback 1 p
#> 1 no savepoint
insert 1 1 1 a
#> 1 ok
insert 1 1 2 b
#> 1 ok
commit 1
#> 1 committed 1
lock 1 1 1
#> 1 ok
savepoint 1 p
#> 1 ok
update 1 1 1 c
#> 1 ok
lock 1 1 2
#> 1 ok
savepoint 1 q
#> 1 ok
open 1 own 1 0 9
#> 1 ok
lock 2 1 2
#> 2 waits 1
rollback 1 p
#> 1 ok
cancel 2
#> 2 ok
rollback 1 q
#> 1 no savepoint
fetch 1 own 1
#> 1 no cursor
savepoint 2 p
#> 2 ok
lock 2 1 1
#> 2 waits 1
cancel 2
#> 2 ok
lock 2 1 2
#> 2 ok
delete 2 1 2
#> 2 ok
lock 2 1 2
#> 2 not found
rollback 2 p
#> 2 ok
marks
#> segment 0 writes 7 lost 0
commit 2
#> 2 ok
rollback 2 p
#> 2 no savepoint
rollback 1 p
#> 1 ok
commit 1
#> 1 committed 2
savepoint 1 p
#> 1 ok
checkpoint
#> ok
update 1 1 2 d
#> 1 ok
rollback 1 p
#> 1 ok
rollback 1
#> 1 ok
open 1 own 1 0 9
#> 1 ok
fetch 1 own 1
#> 1 row 2 b
fetch 1 own 1
#> 1 row 1 a
fetch 1 own 1
#> 1 end
marks
#> segment 0 writes 8 lost 0
";

// The calls of a session that waits or is ready are refused, but for its cancel. No session is resumed before it is
// ready, and each only when that is called for: so another one may take its key before. One that is ready waits for
// nobody, so it may be waited for by the one that it has waited for.
const WAITS: &[u8] = b"\
resume
#> 0 end
cancel 0
#> 0 no session
cancel 17
#> 17 no session
cancel 1
#> 1 not waiting
insert 1 1 1 a
#> 1 ok
insert 2 1 2 b
#> 2 ok
update 2 1 1 c
#> 2 waits 1
lock 3 1 1
#> 3 waits 1
delete 4 1 2
#> 4 waits 2
insert 2 9 1 vvvvvvvvvvvvvvvvvvvvvvvvvvvvvvvvvvvvvvvvvvvvvvvvvvvvvvvvvvvvvvvvvvvvvvvvvvvvvvvvv
#> 2 waiting
lock 2 1 2
#> 2 waiting
commit 2
#> 2 waiting
rollback 2
#> 2 waiting
savepoint 2 p
#> 2 waiting
rollback 2 p
#> 2 waiting
open 2 c 9 0 9
#> 2 waiting
fetch 2 c 1
#> 2 waiting
close 2 c
#> 2 waiting
resume
#> 0 end
lock 1 1 2
#> 1 deadlock 2
marks
#> segment 0 writes 2 lost 0
commit 1
#> 1 committed 1
commit 2
#> 2 waiting
lock 1 1 2
#> 1 waits 2
resume
#> 2 ok
commit 3
#> 3 waiting
resume
#> 3 waits 2
resume
#> 0 end
rollback 2
#> 2 ok
cancel 4
#> 4 ok
delete 4 1 1
#> 4 ok
resume
#> 1 not found
resume
#> 3 waits 4
resume
#> 0 end
cancel 1
#> 1 not waiting
savepoint 5 p
#> 5 ok
insert 5 1 5 d
#> 5 ok
insert 4 1 5 e
#> 4 waits 5
rollback 5 p
#> 5 ok
resume
#> 0 end
insert 6 1 5 f
#> 6 ok
lock 6 1 1
#> 6 waits 4
commit 5
#> 5 ok
resume
#> 4 deadlock 6
commit 4
#> 4 committed 2
resume
#> 3 not found
resume
#> 6 not found
resume
#> 0 end
commit 6
#> 6 committed 3
cancel 6
#> 6 not waiting
checkpoint
#> ok
resume
#> 0 end
";

// A mode is set first of all, and ends with the transaction. The session that waits is refused for what it waited for.
const MODES: &[u8] = b"\
set 0 read-only
#> 0 no session
set 17 serializable
#> 17 no session
insert 1 1 1 a
#> 1 ok
set 1 read-only
#> 1 not first
commit 1
#> 1 committed 1
set 2 read-committed
#> 2 ok
set 2 serializable
#> 2 ok
set 2 read-committed
#> 2 not first
set 3 read-only
#> 3 ok
update 1 1 1 b
#> 1 ok
update 2 1 1 c
#> 2 waits 1
set 2 read-only
#> 2 waiting
delete 3 9 1
#> 3 read only
commit 1
#> 1 committed 2
resume
#> 2 cannot serialize 1 2
lock 2 1 1
#> 2 cannot serialize 1 2
insert 2 1 2 d
#> 2 ok
open 2 c 1 0 9
#> 2 ok
fetch 2 c 1
#> 2 row 2 d
fetch 2 c 1
#> 2 row 1 a
fetch 2 c 1
#> 2 end
open 3 c 1 0 9
#> 3 ok
fetch 3 c 1
#> 3 row 1 a
fetch 3 c 1
#> 3 end
commit 2
#> 2 committed 3
set 2 read-only
#> 2 ok
commit 3
#> 3 ok
open 3 d 1 0 9
#> 3 ok
fetch 3 d 1
#> 3 row 2 d
fetch 3 d 1
#> 3 row 1 b
fetch 3 d 1
#> 3 end
marks
#> segment 0 writes 3 lost 0
";

// A home has sixteen keys, and a deleted one is in use until its commit.
const FULL_HOMES: &[u8] = b"\
insert 1 1 0 a
#> 1 ok
insert 1 1 2 a
#> 1 ok
insert 1 1 4 a
#> 1 ok
insert 1 1 6 a
#> 1 ok
insert 1 1 8 a
#> 1 ok
insert 1 1 10 a
#> 1 ok
insert 1 1 12 a
#> 1 ok
insert 1 1 14 a
#> 1 ok
insert 1 1 16 a
#> 1 ok
insert 1 1 18 a
#> 1 ok
insert 1 1 20 a
#> 1 ok
insert 1 1 22 a
#> 1 ok
insert 1 1 24 a
#> 1 ok
insert 1 1 26 a
#> 1 ok
insert 1 1 28 a
#> 1 ok
insert 1 1 30 a
#> 1 ok
insert 1 1 32 a
#> 1 block full
insert 1 1 30 a
#> 1 duplicate
insert 1 1 1 a
#> 1 ok
insert 1 2 32 a
#> 1 ok
commit 1
#> 1 committed 1
insert 1 1 32 a
#> 1 block full
delete 1 1 0
#> 1 ok
insert 1 1 32 a
#> 1 block full
insert 1 1 0 b
#> 1 ok
delete 1 1 0
#> 1 ok
commit 1
#> 1 committed 2
insert 1 1 32 c
#> 1 ok
insert 1 1 0 c
#> 1 block full
";

const MANY_CURSORS: &[u8] = b"\
open 1 a 1 0 9
#> 1 ok
open 1 b 1 0 9
#> 1 ok
open 1 c 1 0 9
#> 1 ok
open 1 d 1 0 9
#> 1 ok
open 1 e 1 0 9
#> 1 ok
open 1 f 1 0 9
#> 1 ok
open 1 g 1 0 9
#> 1 ok
open 1 h 1 0 9
#> 1 ok
open 1 i 1 0 9
#> 1 ok
open 1 j 1 0 9
#> 1 ok
open 1 k 1 0 9
#> 1 ok
open 1 l 1 0 9
#> 1 ok
open 1 m 1 0 9
#> 1 ok
open 1 n 1 0 9
#> 1 ok
open 1 o 1 0 9
#> 1 ok
open 1 p 1 0 9
#> 1 ok
open 1 q 1 0 9
#> 1 too many cursors
open 1 p 1 0 9
#> 1 cursor there
close 1 c
#> 1 ok
open 1 q 1 0 9
#> 1 ok
open 1 c 1 0 9
#> 1 too many cursors
fetch 1 q 1
#> 1 end
";

// A savepoint of a name that stands is set again though sixteen stand. It is the latest then.
const MANY_SAVEPOINTS: &[u8] = b"\
savepoint 1 a
#> 1 ok
savepoint 1 b
#> 1 ok
savepoint 1 c
#> 1 ok
savepoint 1 d
#> 1 ok
savepoint 1 e
#> 1 ok
savepoint 1 f
#> 1 ok
savepoint 1 g
#> 1 ok
savepoint 1 h
#> 1 ok
savepoint 1 i
#> 1 ok
savepoint 1 j
#> 1 ok
savepoint 1 k
#> 1 ok
savepoint 1 l
#> 1 ok
savepoint 1 m
#> 1 ok
savepoint 1 n
#> 1 ok
savepoint 1 o
#> 1 ok
savepoint 1 p
#> 1 ok
savepoint 1 q
#> 1 too many savepoints
savepoint 1 c
#> 1 ok
savepoint 2 q
#> 2 ok
rollback 1 p
#> 1 ok
rollback 1 c
#> 1 no savepoint
savepoint 1 q
#> 1 ok
rollback 1 p
#> 1 ok
rollback 1 q
#> 1 no savepoint
";
