//! The program over memory: command lines that are run, and what they leave. The rows are run by it.
use rb_base::NoMemory;
use rb_memdisk::MemDisk;
use rb_shell::{Status, run};
use rb_stream::{MemSink, MemSource};
use std::alloc::{AllocError, Global};

/// Makes a file of 2,193,408 bytes.
pub const FORMAT_LARGE: &str = "f format tables=1 blocks=1 segments=1 log=1024";

/// Makes a file of 227,328 bytes.
pub const FORMAT_SMALL: &str = "f format tables=1 blocks=1 segments=1 log=64";

/// Makes a file of a table of two blocks, one of the even keys and one of the odd ones.
pub const FORMAT_TWO_BLOCKS: &str = "f format tables=1 blocks=2 segments=1 log=64";

/// Makes a file of 292,864 bytes, whose log has room for a transaction of more groups than one run.
pub const FORMAT_STOPS: &str = "f format tables=1 blocks=1 segments=1 log=96";

/// Through how few frames a store may have its blocks, and those of the rows have them.
pub const FRAMES: u32 = 16;

/// Runs a script.
pub const RUN: &str = "f run frames=16";

// More than the largest file of the rows.
const FORMAT_ROOM: u64 = 2_500_000;

// More bytes than any script of the rows writes: none makes more than 1,100 groups, and their laps.
pub const SCRIPT_ROOM: u64 = 4_000_000;

// More calls than any line of the rows makes.
pub const CALLS: usize = 5_000;

/// More bytes than any script of the rows answers.
pub const SINK_ROOM: usize = 20_000;

/// How a line ended, and what it left.
#[derive(Drop)]
pub struct Ended {
    pub status: Status,
    pub sink: MemSink,
    pub disk: MemDisk,
}

/// The numbers of the calls that are to fail.
#[derive(Clone, Copy)]
pub struct Failing<'a> {
    pub source: &'a [u64],
    pub sink: &'a [u64],
    pub disk: &'a [u64],
}

/// No call fails.
pub const NONE: Failing<'static> = Failing {
    source: &[],
    sink: &[],
    disk: &[],
};

/// The words of a line.
pub fn split(alloc: Global, line: &str) -> Result<Vec<String>, AllocError> {
    let mut words = Vec::new(alloc);
    for word in line.split_whitespace() {
        words.push(String::from_str(alloc, word)?)?;
    }
    Ok(words)
}

/// Runs a line over a disk, with a script.
pub fn run_on(
    alloc: Global,
    line: &str,
    script: &[u8],
    failing: Failing<'_>,
    disk: MemDisk,
) -> Result<Ended, NoMemory> {
    let words = split(alloc, line).map_err(|_| NoMemory)?;
    let mut source = MemSource::new(alloc, script, failing.source)?;
    let mut sink = MemSink::new(alloc, SINK_ROOM, failing.sink)?;
    let (status, disk) = run(alloc, &words, &mut source, &mut sink, disk);
    Ok(Ended { status, sink, disk })
}

/// Runs a line over a file of these bytes, with a script.
pub fn run_over(
    alloc: Global,
    line: &str,
    file: &[u8],
    script: &[u8],
    failing: Failing<'_>,
) -> Result<Ended, NoMemory> {
    let room = file.len() as u64 + SCRIPT_ROOM;
    let disk = MemDisk::new(alloc, file, room, CALLS, failing.disk)?;
    run_on(alloc, line, script, failing, disk)
}

/// Runs a script over a file of these bytes up to a call of the disk: all behind it fail, and aren't recorded.
pub fn run_stopped(
    alloc: Global,
    file: &[u8],
    script: &[u8],
    call: u64,
) -> Result<Ended, NoMemory> {
    let room = file.len() as u64 + SCRIPT_ROOM;
    let disk = MemDisk::new(alloc, file, room, call as usize, &[])?;
    run_on(alloc, RUN, script, NONE, disk)
}

/// The file that a `format` line makes.
pub fn formatted(alloc: Global, line: &str) -> Result<Vec<u8>, NoMemory> {
    let words = split(alloc, line).map_err(|_| NoMemory)?;
    let mut source = MemSource::new(alloc, b"", &[])?;
    let mut sink = MemSink::new(alloc, 0, &[])?;
    let disk = MemDisk::new(alloc, b"", FORMAT_ROOM, CALLS, &[])?;
    let (_status, disk) = run(alloc, &words, &mut source, &mut sink, disk);
    disk.bytes().to_vec(alloc).map_err(|_| NoMemory)
}
