//! Command lines over a disk in memory, without a script: one that makes a file, some that make commands, and those
//! that end otherwise.
use crate::doubles::{FORMAT_LARGE, FORMAT_SMALL, Failing, NONE, formatted, run_on, run_over};
use rb_memdisk::MemDisk;
use std::test::Fail;

#[test]
fn makes_a_file(rt: HostRuntime) -> Result<(), Fail> {
    let disk = MemDisk::new(rt.alloc(), b"", 227_328, 113, &[])?;
    let line = "store.rb format tables=1 blocks=1 segments=1 log=64";
    let end = run_on(rt.alloc(), line, b"", NONE, disk)?;
    let made = end.disk;
    assert!(rt; end.status.code() == 0);
    assert!(rt; made.bytes().len() == 227_328);
    let front = b"RBS7FILE\0\0\0\x01\0\x01\0\x01\0\0\0\x01\0\0\0\x40\0";
    assert!(rt; made.bytes().starts_with(front));
    assert!(rt; made.syncs() == 1);
    assert!(rt; end.sink.bytes() == b"".as_slice());
    Ok(())
}

// The source isn't asked for anything.
#[test]
fn makes_commands(rt: HostRuntime) -> Result<(), Fail> {
    let file = formatted(rt.alloc(), FORMAT_LARGE)?;
    let rows: [(&str, &[u8]); 2] = [
        (
            "f gen 0",
            b"commands 0 committed 0 rows 0 waits 0 refused 0 now 0\n",
        ),
        (
            "f gen 1",
            b"commands 1 committed 0 rows 0 waits 0 refused 0 now 0\n",
        ),
    ];
    for (line, told) in rows {
        let failing = Failing {
            source: &[1],
            ..NONE
        };
        let end = run_over(rt.alloc(), line, &file, b"commit 1\n", failing)?;
        assert!(rt; end.status.code() == 0, "{line}");
        assert!(rt; end.sink.bytes() == told, "{line}");
    }
    Ok(())
}

// One line over two new files, whose logs go round, and which have the same bytes then. Where the disk fails there is
// no line.
#[test]
fn makes_the_same_commands(rt: HostRuntime) -> Result<(), Fail> {
    let line = "f gen 3000";
    let file = formatted(rt.alloc(), FORMAT_SMALL)?;
    let first = run_over(rt.alloc(), line, &file, b"", NONE)?;
    let second = run_over(rt.alloc(), line, &file, b"", NONE)?;
    assert!(rt; first.status.code() == 0);
    assert!(rt; first.sink.bytes().starts_with(b"commands 3000 committed "));
    assert!(rt; first.sink.bytes() == second.sink.bytes());
    assert!(rt; first.disk.bytes() == second.disk.bytes());
    let last = [first.disk.calls()];
    let failing = Failing {
        disk: &last,
        ..NONE
    };
    let end = run_over(rt.alloc(), line, &file, b"", failing)?;
    assert!(rt; end.status.name() == "DiskFault");
    assert!(rt; end.sink.bytes() == b"".as_slice());
    let failing = Failing { sink: &[1], ..NONE };
    let end = run_over(rt.alloc(), line, &file, b"", failing)?;
    assert!(rt; end.status.name() == "SinkFault");
    assert!(rt; end.disk.bytes() == first.disk.bytes());
    Ok(())
}

#[test]
fn ends_otherwise(rt: HostRuntime) -> Result<(), Fail> {
    let format = "f format tables=1 blocks=1 segments=1 log=64";
    let cases = [
        ("", 1),
        ("run", 1),
        ("gen 1", 1),
        ("f gen +1", 1),
        ("-f gen 1", 1),
        ("f format tables=0 blocks=1 segments=1 log=64", 1),
        (format, 7),
    ];
    for (line, code) in cases {
        let disk = MemDisk::new(rt.alloc(), b"x", 1, 1, &[])?;
        let end = run_on(rt.alloc(), line, b"", NONE, disk)?;
        assert!(rt; end.status.code() == code);
        assert!(rt; end.disk.bytes() == b"x".as_slice());
        assert!(rt; end.sink.bytes() == b"".as_slice());
    }
    let disk = MemDisk::new(rt.alloc(), b"", 227_328, 113, &[7])?;
    let end = run_on(rt.alloc(), format, b"", NONE, disk)?;
    assert!(rt; end.status.name() == "DiskFault");
    assert!(rt; end.sink.bytes() == b"".as_slice());
    Ok(())
}
