//! Commits that wait to be made last: rows of their replies, what a stop leaves at each call of the disk, those of the
//! flush too, what is left where any call fails, and how many syncs a flush makes.
ghost use Rattle.std.specs.Prelude.{◌≤◌};

use crate::dialogues::{check_each, replies_of};
use crate::doubles::{
    CALLS, Ended, FORMAT_LARGE, FORMAT_SMALL, FORMAT_STOPS, FRAMES, Failing, NONE, RUN,
    SCRIPT_ROOM, formatted, run_over, run_stopped,
};
use crate::stories::{PICKS, Story, are_faulty, image_now, shown};
use rb_base::{NoMemory, parse_decimal};
use rb_engine::Engine;
use rb_layout::Layout;
use rb_memdisk::{MemDisk, Pick};
use rb_model::{Op, Wrote};
use rb_shell::Status;
use rb_store::{LogStore, format};
use std::alloc::Global;
use std::process::Abort;
use std::test::Fail;

// Over a fresh file each.
#[test]
fn replies(rt: HostRuntime) -> Result<(), Fail> {
    let rows: [(&str, &[u8]); 4] = [
        ("numbered, then flushed", FLUSHED),
        ("numbered, and the end of the script", ENDED),
        ("a later commit frees who waits", FREED),
        ("nothing to number", NOTHING),
    ];
    let file = formatted(rt.alloc(), FORMAT_LARGE)?;
    check_each(&rt, rt.alloc(), &file, &rows)?;
    Ok(())
}

const FLUSHED: &[u8] = b"\
insert 1 1 1 a
#> 1 ok
commit 1 later
#> 1 numbered 1
insert 2 1 2 b
#> 2 ok
commit 2 later
#> 2 numbered 2
open 3 c 1 0 9
#> 3 ok
fetch 3 c 5
#> 3 row 1 a
#> 3 row 2 b
#> 3 end
flush
#> flushed 2
";

// What was numbered is there behind the end of a script, as the end makes all last.
const ENDED: &[u8] = b"\
insert 1 1 1 a
#> 1 ok
commit 1 later
#> 1 numbered 1
insert 2 1 2 b
#> 2 ok
commit 2 later
#> 2 numbered 2
#--
open 3 c 1 0 9
#> 3 ok
fetch 3 c 5
#> 3 row 1 a
#> 3 row 2 b
#> 3 end
flush
#> flushed 2
insert 3 1 3 c
#> 3 ok
commit 3 later
#> 3 numbered 3
";

// A snapshot from before it doesn't see it, one from behind does; and a commit that lasts takes the next number.
const FREED: &[u8] = b"\
insert 1 1 1 a
#> 1 ok
open 3 before 1 0 9
#> 3 ok
update 2 1 1 b
#> 2 waits 1
commit 2 later
#> 2 waiting
commit 1 later
#> 1 numbered 1
#> 2 ok
set 4 serializable
#> 4 ok
commit 2 later
#> 2 numbered 2
fetch 3 before 5
#> 3 end
update 4 1 1 c
#> 4 cannot serialize 1 2
rollback 4
#> 4 ok
delete 4 1 1
#> 4 ok
commit 4
#> 4 committed 3
open 3 behind 1 0 9
#> 3 ok
fetch 3 behind 5
#> 3 end
";

// Without a change there is no number, also where a rollback to a savepoint has left a slot; a held row is a change.
const NOTHING: &[u8] = b"\
flush
#> flushed 0
commit 1 later
#> 1 ok
commit 17 later
#> 17 no session
savepoint 1 p
#> 1 ok
insert 1 1 1 a
#> 1 ok
rollback 1 p
#> 1 ok
commit 1 later
#> 1 ok
insert 1 1 1 a
#> 1 ok
commit 1
#> 1 committed 1
lock 1 1 1
#> 1 ok
commit 1 later
#> 1 numbered 2
commit 1
#> 1 ok
checkpoint
#> ok
flush
#> flushed 2
";

// ---- What a crash leaves

// Sixteen commits wait and are flushed, by one run of the log; four wait behind them, and a fifth makes all last. Then
// a checkpoint does so of one, and two are left to the end of the script.
const WAITING: [(u64, &str); 4] = [(16, "flush"), (4, "commit"), (1, "checkpoint"), (2, "")];

// Twenty commits of two groups each wait: their flush takes two runs of the log.
const TWO_RUNS: [(u64, &str); 2] = [(20, "flush"), (1, "")];

// Shows the rows, and goes on with one more commit.
const SECOND: &[u8] = b"\
open 1 c 1 0 99
fetch 1 c 99
insert 1 1 99 z
commit 1
";

// What the second run answers after so many commits, each of which updates the only row, but for the first.
fn second_replies(alloc: Global, commits: u64) -> Result<String, NoMemory> {
    let mut replies = String::from_str(alloc, "1 ok\n").map_err(|_| NoMemory)?;
    if commits > 0 {
        write!(replies, "1 row 1 {commits}\n").map_err(|_| NoMemory)?;
    }
    let next = commits.saturating_add(1);
    write!(replies, "1 end\n1 ok\n1 committed {next}\n").map_err(|_| NoMemory)?;
    Ok(replies)
}

// A commit with the number that its value tells, by one of the first two sessions.
fn add_commit(script: &mut String, number: u64, lasts: bool) -> Result<(), NoMemory> {
    let s = 1 + number % 2;
    let word = if number == 1 { "insert" } else { "update" };
    let (later, told) = if lasts {
        ("", "committed")
    } else {
        (" later", "numbered")
    };
    write!(
        script,
        "{word} {s} 1 1 {number}\n#> {s} ok\ncommit {s}{later}\n#> {s} {told} {number}\n"
    )
    .map_err(|_| NoMemory)
}

// The line that makes all last which waits.
fn add_end(script: &mut String, number: u64, end: &str) -> Result<u64, NoMemory> {
    match end {
        "commit" => {
            add_commit(script, number.saturating_add(1), true)?;
            return Ok(number.saturating_add(1));
        }
        "flush" => write!(script, "flush\n#> flushed {number}\n").map_err(|_| NoMemory)?,
        "checkpoint" => script
            .push_str("checkpoint\n#> ok\n")
            .map_err(|_| NoMemory)?,
        _ => {}
    }
    Ok(number)
}

// The story of so many commits in front of each end. `told` has what is shown after each number of commits.
fn story_of(alloc: Global, parts: &[(u64, &str)]) -> Result<Story, NoMemory> {
    let mut script = String::new(alloc);
    let mut number: u64 = 0;
    for (count, end) in parts {
        let first = number.saturating_add(1);
        number = number.saturating_add(*count);
        for commit in first..number.saturating_add(1) {
            add_commit(&mut script, commit, false)?;
        }
        number = add_end(&mut script, number, end)?;
    }
    let mut told = Vec::new(alloc);
    for commits in 0..number.saturating_add(1) {
        told.push(second_replies(alloc, commits)?)
            .map_err(|_| NoMemory)?;
    }
    let replies = replies_of(alloc, script.as_bytes())?;
    Ok(Story {
        script,
        replies,
        second: SECOND,
        told,
        tells_checkpoints: true,
    })
}

// The number behind a word in a reply, with or without a session before it.
fn number_behind(reply: &[u8], word: &[u8]) -> Option<u64> {
    let mut parts = reply.split(|byte| *byte == b' ');
    let first = parts.next()?;
    if first != word && parts.next()? != word {
        return None;
    }
    parse_decimal(parts.next()?)
}

// From which number on, and up to which, commits may be in what a crash leaves behind these replies: all that are
// acknowledged are there, and of those behind them the first, up to one whose reply is missing.
fn bounds(replies: &[u8]) -> (u64, u64) {
    let mut safe = 0;
    let mut last = 0;
    for reply in replies.split(|byte| *byte == b'\n') {
        if let Some(number) = number_behind(reply, b"numbered") {
            last = number;
        }
        if let Some(number) = number_behind(reply, b"committed") {
            (safe, last) = (number, number);
        }
        if reply == b"ok".as_slice() || number_behind(reply, b"flushed").is_some() {
            safe = last;
        }
    }
    (safe, last.saturating_add(1))
}

// Checks what a crash after the last call of a run may leave, by these picks. Answers how many images had a number that
// nobody had acknowledged, and lacked none that was.
fn check_left(
    rt: &impl Abort,
    alloc: Global,
    story: &Story,
    end: &Ended,
    picks: &[Pick],
) -> Result<usize, NoMemory> {
    let call = end.disk.calls();
    let (safe, most) = bounds(end.sink.bytes());
    let mut ahead: usize = 0;
    for pick in picks {
        if let Some(left) = image_now(alloc, &end.disk, *pick)? {
            let found = shown(alloc, story, &left)?.map(|commits| commits as u64);
            let is_right = found.is_some_and(|commits| safe <= commits && commits <= most);
            assert!(rt; is_right, "{call}, {pick:?}: {found:?} of {safe} to {most}");
            if found != Some(safe) {
                ahead = ahead.saturating_add(1);
            }
        }
    }
    Ok(ahead)
}

// All stops of a story over a new file. Answers in how many images commits were found that nobody had acknowledged.
fn check_stops(
    rt: &impl Abort,
    alloc: Global,
    story: &Story,
    format: &str,
) -> Result<usize, NoMemory> {
    let file = formatted(alloc, format)?;
    let script = story.script.as_bytes();
    let good = run_over(alloc, RUN, &file, script, NONE)?;
    assert!(rt; good.status == Status::Done);
    assert!(rt; good.sink.bytes() == story.replies.as_slice());
    let mut ahead: usize = 0;
    for call in 1..=good.disk.calls() {
        let stopped = run_stopped(alloc, &file, script, call)?;
        ahead = ahead.saturating_add(check_left(rt, alloc, story, &stopped, &PICKS)?);
    }
    Ok(ahead)
}

// At each call of the flush all that waited is there or nothing of it, and a commit or a checkpoint makes all last.
#[test]
fn stops(rt: HostRuntime) -> Result<(), NoMemory> {
    let story = story_of(rt.alloc(), &WAITING)?;
    let ahead = check_stops(&rt, rt.alloc(), &story, FORMAT_SMALL)?;
    assert!(rt; ahead > 0);
    Ok(())
}

// A stop in a flush of two runs leaves all twenty commits or none of them. The last one is flushed at the end.
fn check_whole(
    rt: &impl Abort,
    alloc: Global,
    story: &Story,
    file: &[u8],
    call: u64,
) -> Result<(), NoMemory> {
    let stopped = run_stopped(alloc, file, story.script.as_bytes(), call)?;
    for pick in PICKS {
        if let Some(left) = image_now(alloc, &stopped.disk, pick)? {
            let found = shown(alloc, story, &left)?;
            let is_whole = matches!(found, Some(0 | 20 | 21));
            assert!(rt; is_whole, "{call}, {pick:?}: {found:?}");
        }
    }
    Ok(())
}

#[test]
fn stops_in_two_runs(rt: HostRuntime) -> Result<(), NoMemory> {
    let story = story_of(rt.alloc(), &TWO_RUNS)?;
    let ahead = check_stops(&rt, rt.alloc(), &story, FORMAT_STOPS)?;
    assert!(rt; ahead > 0);
    let file = formatted(rt.alloc(), FORMAT_STOPS)?;
    let good = run_over(rt.alloc(), RUN, &file, story.script.as_bytes(), NONE)?;
    for call in 1..=good.disk.calls() {
        check_whole(&rt, rt.alloc(), &story, &file, call)?;
    }
    Ok(())
}

// Each call of the disk fails.
#[test]
fn each_disk_call_fails(rt: HostRuntime) -> Result<(), NoMemory> {
    let story = story_of(rt.alloc(), &WAITING)?;
    let file = formatted(rt.alloc(), FORMAT_SMALL)?;
    let script = story.script.as_bytes();
    let calls = run_over(rt.alloc(), RUN, &file, script, NONE)?.disk.calls();
    for call in 1..=calls {
        let failing = Failing {
            disk: &[call],
            ..NONE
        };
        let end = run_over(rt.alloc(), RUN, &file, script, failing)?;
        let held = end.sink.bytes();
        let is_right = held.is_empty() || are_faulty(held, &story.replies);
        assert!(rt; end.status == Status::DiskFault, "call {call}");
        assert!(rt; is_right, "call {call}");
        let _ = check_left(&rt, rt.alloc(), &story, &end, &[Pick::New, Pick::Fill(1)])?;
    }
    Ok(())
}

// ---- How many syncs there are

// The syncs of a file on which so many groups wait, and of one on which they were flushed.
fn syncs_of(alloc: Global, groups: u64) -> Result<(u64, u64), Fail> {
    let waiting = syncs_behind(alloc, groups, false)?;
    let flushed = syncs_behind(alloc, groups, true)?;
    Ok((waiting, flushed))
}

// How many syncs were made of a file, from its format on. A later commit of one change has two groups, and the last of
// an odd number is that of a change which isn't committed.
fn syncs_behind(alloc: Global, groups: u64, flushes: bool) -> Result<u64, Fail> {
    let commits = groups / 2;
    let Some(layout) = Layout::new(1, 1, 1, 96) else {
        return Err(Fail::new("no layout"));
    };
    let mut disk = MemDisk::new(alloc, b"", SCRIPT_ROOM, CALLS, &[])?;
    if format(&mut disk, &layout).is_err() {
        return Err(Fail::new("no file"));
    }
    let Ok(store) = LogStore::open(alloc, disk, FRAMES) else {
        return Err(Fail::new("no store"));
    };
    let Ok(mut engine) = Engine::open(alloc, store) else {
        return Err(Fail::new("no engine"));
    };
    for key in 0..commits {
        let written = engine.write(1, 1, key % 16, op_of(key));
        if written != Ok(Wrote::Done) || engine.commit_later(1) != Ok(Some(key.saturating_add(1))) {
            return Err(Fail::new("no commit"));
        }
    }
    if groups % 2 == 1 && engine.write(1, 1, commits % 16, op_of(commits)) != Ok(Wrote::Done) {
        return Err(Fail::new("no change"));
    }
    if flushes && engine.flush() != Ok(commits) {
        return Err(Fail::new("no flush"));
    }
    Ok(engine.close().close().syncs())
}

// A key of the sixteen that a block has is made first, and changed then.
fn op_of(key: u64) -> Op<'static> {
    if key < 16 {
        Op::Insert(b"a")
    } else {
        Op::Update(b"b")
    }
}

// Of 1 to 32 groups, which one run of the log has, and of more, a flush makes two syncs, and none where nothing waits.
// A later commit makes none.
#[test]
fn a_flush_is_two_syncs(rt: HostRuntime) -> Result<(), Fail> {
    let (open, nothing) = syncs_of(rt.alloc(), 0)?;
    assert!(rt; nothing == open);
    for groups in 1..=80 {
        let (waiting, flushed) = syncs_of(rt.alloc(), groups)?;
        assert!(rt; waiting == open, "{groups}");
        assert!(rt; flushed == open.saturating_add(2), "{groups}");
    }
    Ok(())
}
