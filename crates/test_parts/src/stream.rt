//! Each stream on its happy path, failing calls, a sink past its room, a watched one, and streams of std that are
//! interrupted.
use rb_base::{Failed, NoMemory};
use rb_stream::{MemSink, MemSource, Sink, Source, StdSink, StdSource, Watcher};
use std::cell::Cell;
use std::io::{self, ErrorKind, Read, Write};

#[test]
fn source_in_memory(rt: HostRuntime) -> Result<(), NoMemory> {
    let mut source = MemSource::new(rt.alloc(), b"abcdef", &[2])?;
    let mut into = [0; 4];
    assert!(rt; source.take(&mut into) == Ok(4));
    assert!(rt; into == *b"abcd");
    let calls = [Err(Failed), Ok(2), Ok(0)];
    for answer in calls {
        assert!(rt; source.take(&mut into) == answer);
    }
    assert!(rt; into == *b"efcd");
    Ok(())
}

#[test]
fn sink_in_memory(rt: HostRuntime) -> Result<(), NoMemory> {
    let mut sink = MemSink::new(rt.alloc(), 5, &[2])?;
    let calls = [
        ("ab", Ok(())),
        ("c", Err(Failed)),
        ("cdef", Err(Failed)),
        ("cde", Ok(())),
    ];
    for (piece, answer) in calls {
        assert!(rt; sink.put(piece.as_bytes()) == answer);
    }
    assert!(rt; sink.bytes() == b"abcde".as_slice());
    Ok(())
}

#[test]
fn source_of_std(rt: HostRuntime) {
    let mut source = StdSource::new(b"abc".as_slice());
    let mut into = [0; 2];
    for answer in [Ok(2), Ok(1), Ok(0)] {
        assert!(rt; source.take(&mut into) == answer);
    }
    assert!(rt; into == *b"cb");
}

#[test]
fn sink_of_std(rt: HostRuntime) {
    let mut held = Vec::new(rt.alloc());
    let mut sink = StdSink::new(&mut held);
    assert!(rt; sink.put(b"ab") == Ok(()));
    assert!(rt; sink.put(b"c") == Ok(()));
    assert!(rt; held.as_slice() == b"abc".as_slice());
}

// Keeps what it was shown last.
#[derive(Drop)]
struct Looking {
    last: Cell<(u32, u32)>,
}

impl Watcher for Looking {
    fn see(&self, done: u32, all: u32) {
        self.last.set((done, all));
    }
}

#[test]
fn watched_sink_of_std(rt: HostRuntime) {
    let mut held = Vec::new(rt.alloc());
    let looking = Looking {
        last: Cell::new((0, 0)),
    };
    let mut sink = StdSink::watched(&mut held, &looking);
    assert!(rt; sink.put(b"ab") == Ok(()));
    sink.show_progress(1, 2);
    assert!(rt; looking.last.get() == (1, 2));
    assert!(rt; held.as_slice() == b"ab".as_slice());
}

// A reader that is interrupted at its first call, fails at the third, and gives a byte at each other.
#[derive(Drop)]
struct Shaky {
    reads: u32,
}

impl Read for Shaky {
    fn read(&mut self, into: &mut [u8]) -> io::Result<usize> {
        self.reads = self.reads.saturating_add(1);
        if self.reads == 1 {
            return Err(io::Error::from(ErrorKind::Interrupted));
        }
        if self.reads == 3 || into.is_empty() {
            return Err(io::Error::from(ErrorKind::NotFound));
        }
        into[0] = b'a';
        Ok(1)
    }
}

#[test]
fn interrupted_source_of_std(rt: HostRuntime) {
    let mut source = StdSource::new(Shaky { reads: 0 });
    let mut into = [0; 2];
    assert!(rt; source.take(&mut into) == Ok(1));
    assert!(rt; into == *b"a\0");
    // A call that failed is answered as one, and isn't made again.
    assert!(rt; source.take(&mut into) == Err(Failed));
    assert!(rt; source.take(&mut into) == Ok(1));
}

// A writer whose flush is interrupted at its first call, fails at the third, and succeeds at each other.
#[derive(Drop)]
struct Held {
    flushes: u32,
}

impl Write for Held {
    fn write(&mut self, bytes: &[u8]) -> io::Result<usize> {
        Ok(bytes.len())
    }

    fn flush(&mut self) -> io::Result<()> {
        self.flushes = self.flushes.saturating_add(1);
        match self.flushes {
            1 => Err(io::Error::from(ErrorKind::Interrupted)),
            3 => Err(io::Error::from(ErrorKind::NotFound)),
            _ => Ok(()),
        }
    }
}

#[test]
fn each_put_of_std_is_flushed(rt: HostRuntime) {
    let mut writer = Held { flushes: 0 };
    let mut sink = StdSink::new(&mut writer);
    assert!(rt; sink.put(b"a") == Ok(()));
    assert!(rt; sink.put(b"b") == Err(Failed));
    assert!(rt; writer.flushes == 3);
}
