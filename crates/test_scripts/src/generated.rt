//! Runs of the generator over new files: the one line that each writes, and that the same run writes it again. The
//! counts are those that `tests/model.py` gives for the drawn commands as lines.
use crate::doubles::{Ended, NONE, formatted, run_over};
use rb_base::NoMemory;
use std::alloc::Global;
use std::test::Fail;

// What runs over a new file of two tables of two blocks end with.
fn run_new(alloc: Global, words: &str) -> Result<Ended, NoMemory> {
    let format = "f format tables=2 blocks=2 segments=2 log=1024";
    run_over(alloc, words, &formatted(alloc, format)?, b"", NONE)
}

fn writes(alloc: Global, words: &str, line: &[u8]) -> Result<bool, NoMemory> {
    let end = run_new(alloc, words)?;
    Ok(end.status.code() == 0 && end.sink.bytes() == line)
}

#[test]
fn tells_its_answers(rt: HostRuntime) -> Result<(), Fail> {
    let rows = [
        (
            "f gen 0",
            b"commands 0 committed 0 rows 0 waits 0 refused 0 now 0\n".as_slice(),
        ),
        (
            "f gen 1",
            b"commands 1 committed 0 rows 0 waits 0 refused 0 now 0\n".as_slice(),
        ),
        (
            "f gen 400",
            b"commands 400 committed 15 rows 10 waits 30 refused 260 now 15\n".as_slice(),
        ),
        (
            "f gen 1000",
            b"commands 1000 committed 38 rows 12 waits 57 refused 735 now 38\n".as_slice(),
        ),
    ];
    for (words, line) in rows {
        assert!(rt; writes(rt.alloc(), words, line)?, "{words}");
    }
    Ok(())
}

#[test]
fn says_the_same_again(rt: HostRuntime) -> Result<(), Fail> {
    let first = run_new(rt.alloc(), "f gen 3000")?;
    let again = run_new(rt.alloc(), "f gen 3000")?;
    assert!(rt; first.sink.bytes().starts_with(b"commands 3000 committed "));
    assert!(rt; first.sink.bytes() == again.sink.bytes());
    Ok(())
}
