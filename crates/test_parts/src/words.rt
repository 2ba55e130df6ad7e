//! Command lines, and what their words ask for.
use rb_layout::Layout;
use rb_words::{Request, parse_words};
use std::alloc::{AllocError, Global};

// Each line asks for nothing. The first is empty: a command line without a word.
const NO_REQUESTS: &str = "
f
f help
help
--help
--version
run
f run
f run 16
f run frames=
f run frames=15
f run frames=4097
f run frames=016
f run frames=+16
f run frames=16 frames=16
f run frames=16 -h
f RUN frames=16
f -- run frames=16
-f run frames=16
f --run frames=16
f  run frames=16
f gen
f gen 00
f gen 01
f gen -1
f gen +1
f gen 1000001
f gen 18446744073709551616
f gen commands=1
f gen 1 1
f gen 1 --
- gen 1
f format
f format tables=1 blocks=1 segments=1
f format tables=1 blocks=1 segments=1 log=64 log=64
f format blocks=1 tables=1 segments=1 log=64
f format tables=0 blocks=1 segments=1 log=64
f format tables=1 blocks=1 segments=1 log=63
f format tables=1 blocks=1 segments=1 log=064
f format tables=1 blocks=1 segments=65537 log=64";

/// The words of a line, parted by single spaces. An empty line has none.
fn words_of(alloc: Global, line: &str) -> Result<Vec<String>, AllocError> {
    let mut words = Vec::new(alloc);
    if line.is_empty() {
        return Ok(words);
    }
    for word in line.split(' ') {
        words.push(String::from_str(alloc, word)?)?;
    }
    Ok(words)
}

/// Whether a line asks for this, or for nothing where it is none.
fn asks(alloc: Global, line: &str, wanted: Option<Request>) -> bool {
    let Ok(words) = words_of(alloc, line) else {
        return false;
    };
    parse_words(alloc, &words) == Ok(wanted)
}

#[test]
fn lines_that_ask_for_nothing(rt: HostRuntime) {
    for line in NO_REQUESTS.split('\n') {
        assert!(rt; asks(rt.alloc(), line, None), "{line:?}");
    }
}

#[test]
fn lines_that_ask_for_a_run(rt: HostRuntime) {
    let rows: [(&str, u32); 3] = [
        ("f run frames=16", 16),
        ("help run frames=4096", 4096),
        ("f=1 run frames=100", 100),
    ];
    for (line, frames) in rows {
        let run = Some(Request::Run { frames });
        assert!(rt; asks(rt.alloc(), line, run), "{line:?}");
    }
}

#[test]
fn lines_that_ask_for_drawn_commands(rt: HostRuntime) {
    let rows: [(&str, u32); 3] = [
        ("f gen 0", 0),
        ("gen gen 9", 9),
        ("f gen 1000000", 1_000_000),
    ];
    for (line, commands) in rows {
        let drawn = Some(Request::Gen { commands });
        assert!(rt; asks(rt.alloc(), line, drawn), "{line:?}");
    }
}

#[test]
fn lines_that_ask_for_a_file(rt: HostRuntime) {
    let least = Layout::new(1, 1, 1, 64).map(Request::Format);
    let line = "f format tables=1 blocks=1 segments=1 log=64";
    assert!(rt; asks(rt.alloc(), line, least));
    let most = Layout::new(16, 4096, 15, 4096).map(Request::Format);
    let line = "f format tables=16 blocks=4096 segments=15 log=4096";
    assert!(rt; asks(rt.alloc(), line, most));
}
