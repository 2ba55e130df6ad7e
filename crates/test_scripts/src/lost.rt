//! The tables of failures over a file whose syncs lose what was written where they fail, as those of systems do: each
//! call of the file fails alone, or one of its run or of the next with it. The next runs are over the same file, and
//! what the last of them shows outlasts a loss of power.
use crate::doubles::{FORMAT_SMALL, RUN, SINK_ROOM, formatted, split};
use crate::stories::{Story, answered, is_kept, shown, told_by};
use rb_base::NoMemory;
use rb_filedisk::FileDisk;
use rb_memfile::MemFile;
use rb_shell::{Status, run};
use rb_stream::{MemSink, MemSource};
use std::alloc::{AllocError, Global};
use std::process::Abort;
use std::test::Fail;

// More syncs than the runs over a file make.
const SYNCS: usize = 60;

// Of the calls each so manieth fails with each call of the next run's opening.
const EVERY: u64 = 10;

const SCRIPT: &str = "\
insert 1 1 1 one
commit 1
insert 1 1 2 two
commit 1
";

const REPLIES: &str = "\
1 ok
1 committed 1
1 ok
1 committed 2
";

const SECOND: &[u8] = b"\
open 1 c 1 0 9
fetch 1 c 9
";

// What the second script is answered after none of the commits, one and both.
const TOLD: [&str; 3] = [
    "1 ok\n1 end\n",
    "1 ok\n1 row 1 one\n1 end\n",
    "1 ok\n1 row 1 one\n1 row 2 two\n1 end\n",
];

// How a run over a file ended, and what it left.
#[derive(Drop)]
struct Ran {
    status: Status,
    sink: MemSink,
    file: MemFile,
}

fn two_commits(alloc: Global) -> Result<Story, AllocError> {
    let mut told = Vec::new(alloc);
    for replies in TOLD {
        told.push(String::from_str(alloc, replies)?)?;
    }
    Ok(Story {
        script: String::from_str(alloc, SCRIPT)?,
        replies: REPLIES.as_bytes().to_vec(alloc)?,
        second: SECOND,
        told,
        tells_checkpoints: false,
    })
}

fn run_disk(alloc: Global, script: &[u8], disk: FileDisk<MemFile>) -> Result<Ran, NoMemory> {
    let words = split(alloc, RUN).map_err(|_| NoMemory)?;
    let mut source = MemSource::new(alloc, script, &[])?;
    let mut sink = MemSink::new(alloc, SINK_ROOM, &[])?;
    let (status, disk) = run(alloc, &words, &mut source, &mut sink, disk);
    Ok(Ran {
        status,
        sink,
        file: disk.into_file(),
    })
}

// The run of a script over a file of these bytes that fails at these calls.
fn run_first(alloc: Global, script: &[u8], file: &[u8], failing: &[u64]) -> Result<Ran, NoMemory> {
    let file = MemFile::new(alloc, file, file.len() as u64, SYNCS, failing)?;
    run_disk(alloc, script, FileDisk::over(file))
}

// The run of the second script over a file as a run left it. None where a place of it is lost, as none is behind one
// call that failed.
fn run_next(alloc: Global, story: &Story, file: MemFile) -> Result<Option<Ran>, NoMemory> {
    if file.has_lost() {
        return Ok(None);
    }
    Ok(Some(run_disk(alloc, story.second, FileDisk::over(file))?))
}

// The same, and once more where a call of that run fails.
fn run_done(alloc: Global, story: &Story, file: MemFile) -> Result<Option<Ran>, NoMemory> {
    let Some(end) = run_next(alloc, story, file)? else {
        return Ok(None);
    };
    if end.status == Status::Done {
        return Ok(Some(end));
    }
    run_next(alloc, story, end.file)
}

// How many flushes the file of the first run must have.
fn owed(story: &Story, end: &Ran) -> usize {
    if end.status == Status::Done {
        return story.told.len().saturating_sub(1);
    }
    answered(story, end.sink.bytes())
}

// Checks the runs over a file that fails at these calls: what a loss of power leaves behind the first of them, and what
// the last one shows, which outlasts a loss of power too. Answers whether no place was lost.
fn check_failing(
    rt: &impl Abort,
    alloc: Global,
    story: &Story,
    file: &[u8],
    failing: &[u64],
) -> Result<bool, NoMemory> {
    let first = run_first(alloc, story.script.as_bytes(), file, failing)?;
    let owed = owed(story, &first);
    let left = shown(alloc, story, first.file.device())?;
    assert!(rt; is_kept(left, owed), "{failing:?}: {left:?} of {owed}");
    let Some(last) = run_done(alloc, story, first.file)? else {
        return Ok(false);
    };
    let found = told_by(story, last.sink.bytes());
    assert!(rt; last.status == Status::Done, "{failing:?}");
    assert!(rt; is_kept(found, owed), "{failing:?}: {found:?} of {owed}");
    // All that is read is on the device.
    assert!(rt; last.file.device() == last.file.bytes(), "{failing:?}");
    Ok(true)
}

#[test]
fn each_call_fails(rt: HostRuntime) -> Result<(), Fail> {
    let story = two_commits(rt.alloc())?;
    let file = formatted(rt.alloc(), FORMAT_SMALL)?;
    let good = run_first(rt.alloc(), story.script.as_bytes(), &file, &[])?;
    assert!(rt; good.status == Status::Done);
    assert!(rt; good.sink.bytes() == story.replies.as_slice());
    for call in 1..=good.file.calls() {
        let mended = check_failing(&rt, rt.alloc(), &story, &file, &[call])?;
        assert!(rt; mended, "call {call}");
    }
    Ok(())
}

#[test]
fn two_calls_fail(rt: HostRuntime) -> Result<(), Fail> {
    let story = two_commits(rt.alloc())?;
    let file = formatted(rt.alloc(), FORMAT_SMALL)?;
    let good = run_first(rt.alloc(), story.script.as_bytes(), &file, &[])?;
    let mut some_lost = false;
    for call in 1..good.file.calls() {
        some_lost |= !check_failing(&rt, rt.alloc(), &story, &file, &[call, call + 1])?;
    }
    assert!(rt; some_lost);
    Ok(())
}

// Each call of an opening fails behind a run in which this call failed.
fn check_openings(
    rt: &impl Abort,
    alloc: Global,
    story: &Story,
    file: &[u8],
    call: u64,
) -> Result<(), NoMemory> {
    let first = run_first(alloc, story.script.as_bytes(), file, &[call])?;
    let opening = run_first(alloc, b"", file, &[])?;
    for next in 1..=opening.file.calls() {
        let failing = [call, first.file.calls().saturating_add(next)];
        let mended = check_failing(rt, alloc, story, file, &failing)?;
        assert!(rt; mended, "{failing:?}");
    }
    Ok(())
}

#[test]
fn the_next_opening_fails(rt: HostRuntime) -> Result<(), Fail> {
    let story = two_commits(rt.alloc())?;
    let file = formatted(rt.alloc(), FORMAT_SMALL)?;
    let good = run_first(rt.alloc(), story.script.as_bytes(), &file, &[])?;
    for call in 1..=good.file.calls() {
        if call % EVERY == 0 {
            check_openings(&rt, rt.alloc(), &story, &file, call)?;
        }
    }
    Ok(())
}
