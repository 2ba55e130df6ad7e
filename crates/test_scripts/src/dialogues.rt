//! Scripts with their replies in one text, `#> REPLY` under each line. The rows check runs by it, and give the program
//! the whole text, whose remarks it skips. Two remarks more are read in a row's text, each as a line of its own: what
//! stands between `#* FIRST LAST` and `#.` is there once for each of these numbers, with the number in the place of
//! each `@`; and behind `#--` stands what a next run is given, over the file that the one before left.
use crate::doubles::{NONE, RUN, run_over};
use rb_base::{NoMemory, parse_decimal};
use rb_memdisk::MemDisk;
use std::alloc::Global;
use std::process::Abort;

/// The replies that a dialogue has, each with its LF.
pub fn replies_of(alloc: Global, dialogue: &[u8]) -> Result<Vec<u8>, NoMemory> {
    let mut replies = Vec::new(alloc);
    for line in dialogue.split_inclusive(|byte| *byte == b'\n') {
        if let Some(reply) = line.strip_prefix(b"#> ") {
            replies.extend_from_slice(reply).map_err(|_| NoMemory)?;
        }
    }
    Ok(replies)
}

/// So many times the same piece.
pub fn repeated(alloc: Global, piece: &[u8], count: usize) -> Result<Vec<u8>, NoMemory> {
    let mut bytes = Vec::new(alloc);
    for _ in 0..count {
        bytes.extend_from_slice(piece).map_err(|_| NoMemory)?;
    }
    Ok(bytes)
}

/// Runs a dialogue over a file of these bytes, and checks that it is done and that the program gives just its replies.
/// The disk is as the run leaves it.
pub fn check(
    rt: &impl Abort,
    alloc: Global,
    name: &str,
    file: &[u8],
    dialogue: &[u8],
) -> Result<MemDisk, NoMemory> {
    let end = run_over(alloc, RUN, file, dialogue, NONE)?;
    let replies = replies_of(alloc, dialogue)?;
    assert!(rt; end.status.code() == 0, "{name}");
    assert!(rt; end.sink.bytes() == replies.as_slice(), "{name}");
    Ok(end.disk)
}

// The numbers of a line that begins a part which is repeated.
fn range_of(line: &[u8]) -> Option<(u64, u64)> {
    let numbers = line.strip_prefix(b"#* ")?.strip_suffix(b"\n")?;
    let mut parts = numbers.split(|byte| *byte == b' ');
    Some((parse_decimal(parts.next()?)?, parse_decimal(parts.next()?)?))
}

// Adds a part with a number in the place of each `@`.
fn add_numbered(
    alloc: Global,
    into: &mut Vec<u8>,
    part: &[u8],
    number: u64,
) -> Result<(), NoMemory> {
    let digits = format!(in alloc; "{number}").map_err(|_| NoMemory)?;
    for byte in part {
        if *byte == b'@' {
            into.extend_from_slice(digits.as_bytes())
                .map_err(|_| NoMemory)?;
        } else {
            into.push(*byte).map_err(|_| NoMemory)?;
        }
    }
    Ok(())
}

// A row's text with its repeated parts written out.
fn expanded(alloc: Global, text: &[u8]) -> Result<Vec<u8>, NoMemory> {
    let mut whole = Vec::new(alloc);
    let mut part = Vec::new(alloc);
    let mut range = None;
    for line in text.split_inclusive(|byte| *byte == b'\n') {
        if let Some(numbers) = range_of(line) {
            range = Some(numbers);
        } else if line == b"#.\n".as_slice() {
            let (first, last) = range.unwrap_or((1, 0));
            for number in first..last.saturating_add(1) {
                add_numbered(alloc, &mut whole, &part, number)?;
            }
            part.clear();
            range = None;
        } else if range.is_some() {
            part.extend_from_slice(line).map_err(|_| NoMemory)?;
        } else {
            whole.extend_from_slice(line).map_err(|_| NoMemory)?;
        }
    }
    Ok(whole)
}

// Checks the runs of a text, the first one over a file of these bytes.
fn check_runs(
    rt: &impl Abort,
    alloc: Global,
    name: &str,
    file: &[u8],
    text: &[u8],
) -> Result<(), NoMemory> {
    let mut left = file.to_vec(alloc).map_err(|_| NoMemory)?;
    let mut run = Vec::new(alloc);
    for line in text.split_inclusive(|byte| *byte == b'\n') {
        if line == b"#--\n".as_slice() {
            let disk = check(rt, alloc, name, &left, &run)?;
            left = disk.bytes().to_vec(alloc).map_err(|_| NoMemory)?;
            run.clear();
        } else {
            run.extend_from_slice(line).map_err(|_| NoMemory)?;
        }
    }
    let _ = check(rt, alloc, name, &left, &run)?;
    Ok(())
}

/// Checks rows by their names, each over a file of these bytes.
pub fn check_each(
    rt: &impl Abort,
    alloc: Global,
    file: &[u8],
    rows: &[(&str, &[u8])],
) -> Result<(), NoMemory> {
    for (name, text) in rows {
        check_runs(rt, alloc, name, file, &expanded(alloc, text)?)?;
    }
    Ok(())
}
