//! A reader and a writer of std as a source and a sink. The command line runs the shell over them.
ghost use Rattle.std.specs.Io.KnownBytes.{Appends, Keeps, ReadConsumes};
ghost use Rattle.std.specs.Prelude.{◌≡◌, ◌≤◌, [], length, None, IsSome, IfOk, OnOk, OnErr};
ghost use Rattle.rb_base.specs.Counts.{IsCounted};
ghost use Rattle.rb_stream.specs.FaultPlan.{next_count};

use crate::{Nobody, Sink, Source, Watcher};
use rb_base::Failed;
use std::io::{self, ErrorKind, Read, Write};
use std::marker::Model;

/// A source that reads. Its clauses speak of the reader's bytes, where those are known.
#[derive(Drop)]
pub struct StdSource<R: Read> {
    reader: R,
    faults: u64,
    // why the last call that failed did so
    error: Option<io::Error>,
}

impl<R: Read> Model for StdSource<R> {
    ghost use Rattle.rb_stream.specs.StandardModel.{StandardState};

    ghost Value = { StandardState };

    ghost view = { λ s. record { known = R.remaining s.reader; faults = s.faults; error = s.error } };
}

impl<R: Read> StdSource<R> {
    /// A source over a reader, with no fault yet.
    pub fn new(reader: R) -> StdSource<R>
        ensures known { result.known ≡ R.remaining reader }
        ensures faults { result.faults ≡ 0 }
        ensures no_error { result.error ≡ None }
    {
        StdSource {
            reader,
            faults: 0,
            error: None,
        }
    }

    /// Why the last call that failed did so; None where none has.
    pub fn error(&self) -> Option<io::Error>
        ensures { result ≡ self.now.error }
    {
        self.error
    }
}

// What one read gave, tried again while it is interrupted.
fn read_once<R: Read>(reader: &mut R, into: &mut [u8]) -> io::Result<usize>
    ensures within { IfOk result (λ n. n ≤ length into.old) }
    ensures bytes { ReadConsumes (R.remaining reader.old) (R.remaining reader.new) result into.new }
{
    for _ in 0..u64::MAX {
        match reader.read(into) {
            Ok(count) => return Ok(count),
            Err(e) if e.kind() == ErrorKind::Interrupted => {}
            Err(e) => return Err(e),
        }
    }
    Err(io::Error::from(ErrorKind::Interrupted))
}

impl<R: Read> Source for StdSource<R> {
    ghost tells = { ⊥ };

    ghost left = { λ _. [] };

    ghost faults = { λ s. s.faults };

    /// What one read gives; 0 at the end.
    fn take(&mut self, into: &mut [u8]) -> Result<usize, Failed>
        ensures within { IfOk result (λ n. n ≤ length into.old) }
        ensures bytes { ReadConsumes self.old.known self.new.known result into.new }
        ensures counted { IsCounted self.old.faults self.new.faults result }
        ensures err { OnErr result (self.new.faults ≡ next_count self.old.faults) }
        ensures told { OnErr result (IsSome self.new.error) }
        ensures untold { OnOk result (self.new.error ≡ self.old.error) }
    {
        let taken = read_once(&mut self.reader, into);
        if let Err(error) = taken {
            self.faults = self.faults.saturating_add(1);
            self.error = Some(error);
        }
        taken.map_err(|_| Failed)
    }
}

/// A sink that writes, and has a watcher. Its clauses speak of the writer's bytes, where those are known.
#[derive(Drop)]
pub struct StdSink<W: Write, P: Watcher = Nobody> {
    writer: W,
    watcher: P,
    faults: u64,
    // why the last call that failed did so
    error: Option<io::Error>,
}

impl<W: Write, P: Watcher> Model for StdSink<W, P> {
    ghost use Rattle.rb_stream.specs.StandardModel.{StandardState};

    ghost Value = { StandardState };

    ghost view = { λ s. record { known = W.contents s.writer; faults = s.faults; error = s.error } };
}

impl<W: Write> StdSink<W> {
    /// A sink over a writer, with no fault yet. Nobody sees its progress.
    pub fn new(writer: W) -> StdSink<W>
        ensures known { result.known ≡ W.contents writer }
        ensures faults { result.faults ≡ 0 }
        ensures no_error { result.error ≡ None }
    {
        StdSink::watched(writer, Nobody)
    }
}

impl<W: Write, P: Watcher> StdSink<W, P> {
    /// A sink over a writer, with no fault yet, which shows the watcher its progress.
    pub fn watched(writer: W, watcher: P) -> StdSink<W, P>
        ensures known { result.known ≡ W.contents writer }
        ensures faults { result.faults ≡ 0 }
        ensures no_error { result.error ≡ None }
    {
        StdSink {
            writer,
            watcher,
            faults: 0,
            error: None,
        }
    }

    /// Why the last call that failed did so; None where none has.
    pub fn error(&self) -> Option<io::Error>
        ensures { result ≡ self.now.error }
    {
        self.error
    }
}

// Flushes, and tries again while it is interrupted.
fn flush_once<W: Write>(writer: &mut W) -> io::Result<()>
    ensures { Keeps (W.contents writer.old) (W.contents writer.new) }
{
    for _ in 0..u64::MAX {
        match writer.flush() {
            Ok(()) => return Ok(()),
            Err(e) if e.kind() == ErrorKind::Interrupted => {}
            Err(e) => return Err(e),
        }
    }
    Err(io::Error::from(ErrorKind::Interrupted))
}

// Writes all the bytes, and flushes.
fn write_through<W: Write>(writer: &mut W, bytes: &[u8]) -> io::Result<()>
    ensures { OnOk result (Appends (W.contents writer.old) (W.contents writer.new) bytes.now) }
{
    // `write_all` goes on after a short write and after an interrupted one.
    writer.write_all(bytes)?;
    flush_once(writer)
}

impl<W: Write, P: Watcher> Sink for StdSink<W, P> {
    ghost tells = { ⊥ };

    ghost held = { λ _. [] };

    ghost faults = { λ s. s.faults };

    /// Writes the bytes and flushes.
    fn put(&mut self, bytes: &[u8]) -> Result<(), Failed>
        ensures bytes { OnOk result (Appends self.old.known self.new.known bytes.now) }
        ensures counted { IsCounted self.old.faults self.new.faults result }
        ensures err { OnErr result (self.new.faults ≡ next_count self.old.faults) }
        ensures told { OnErr result (IsSome self.new.error) }
        ensures untold { OnOk result (self.new.error ≡ self.old.error) }
    {
        let put = write_through(&mut self.writer, bytes);
        if let Err(error) = put {
            self.faults = self.faults.saturating_add(1);
            self.error = Some(error);
        }
        put.map_err(|_| Failed)
    }

    /// Shows it to the watcher.
    fn show_progress(&self, done: u32, all: u32) {
        self.watcher.see(done, all);
    }
}
