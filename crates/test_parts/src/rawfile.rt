//! A file disk over a file in memory whose syncs fail as systems' do: what was written isn't on its device, and the
//! next sync answers Ok without writing it.
ghost use Rattle.std.specs.Prelude.{◌*◌, ◌^◌, ◌<◌, ◌≤◌, length};
ghost use Rattle.rb_filedisk.specs.FileDisk.{file_of};
ghost use Rattle.rb_memfile.specs.MemFile.{bytes_of};

use rb_base::Failed;
use rb_disk::Disk;
use rb_filedisk::FileDisk;
use rb_memfile::MemFile;
use rb_rawfile::RawFile;
use std::alloc::Global;
use std::process::Abort;
use std::test::Fail;

const SIZE: usize = 300;

// Writes four bytes to a disk over a file that fails at these calls, and syncs until that answers Ok: so many times.
// Then the device has them.
fn settles_at(rt: &impl Abort, alloc: Global, failing: &[u64], syncs: u64) -> Result<(), Fail> {
    let mut disk = FileDisk::over(MemFile::new(alloc, b"", 300, 9, failing)?);
    disk.write_at(0, b"abcd")?;
    for _ in 1..syncs {
        assert!(rt; disk.sync().is_err());
    }
    disk.sync()?;
    let mut bytes = [0; 4];
    disk.read_at(0, &mut bytes)?;
    assert!(rt; bytes == *b"abcd");
    assert!(rt; disk.len()? == 4);
    assert!(rt; disk.into_file().device() == b"abcd".as_slice());
    Ok(())
}

#[test]
fn settles_what_a_sync_lost(rt: HostRuntime) -> Result<(), Fail> {
    let table: [(&[u64], u64); 8] = [
        // A sync asks for the length, as no sync went well before, and syncs all.
        (&[], 1),
        (&[2], 2),
        (&[3], 2),
        // Then it writes again: it asks for the length, reads and writes. Where one of them fails, the next sync does.
        (&[3, 4], 2),
        (&[3, 5], 2),
        (&[3, 6], 2),
        (&[3, 5, 7], 3),
        (&[3, 5, 10], 3),
    ];
    for (failing, syncs) in table {
        settles_at(&rt, rt.alloc(), failing, syncs)?;
    }
    Ok(())
}

#[test]
fn syncs_the_data_alone_within_the_length(rt: HostRuntime) -> Result<(), Fail> {
    let file = MemFile::new(rt.alloc(), b"", 300, 9, &[5])?;
    let mut disk = FileDisk::over(file);
    disk.write_at(0, b"abcd")?;
    disk.sync()?;
    disk.write_at(1, b"XY")?;
    // The sync is one call, which fails, and three write again. The next one is one call too.
    assert!(rt; disk.sync().is_err());
    disk.sync()?;
    let file = disk.into_file();
    assert!(rt; file.calls() == 9);
    assert!(rt; file.device() == b"aXYd".as_slice());
    Ok(())
}

#[test]
fn settles_what_was_written_before(rt: HostRuntime) -> Result<(), Fail> {
    // A run is killed behind its write, and the first sync of the next one fails.
    let mut file = MemFile::new(rt.alloc(), b"", 300, 9, &[3])?;
    assert!(rt; file.write_at(0, b"abcd").is_ok());
    let mut disk = FileDisk::over(file);
    assert!(rt; disk.sync().is_err());
    disk.sync()?;
    assert!(rt; disk.into_file().device() == b"abcd".as_slice());
    Ok(())
}

// Writes so many bytes with one between.
fn write_with_gaps(disk: &mut FileDisk<MemFile>, count: u64) -> Result<(), Failed>
    requires few { count < 2 ^ 32 }
    requires within { 2 * count ≤ length (bytes_of (file_of disk.old)) }
{
    for i in 0..count {
        disk.write_at(2 * i, b"x")?;
    }
    Ok(())
}

#[test]
fn settles_more_writes_than_it_has_ranges(rt: HostRuntime) -> Result<(), Fail> {
    let file = MemFile::new(rt.alloc(), b"", 300, 9, &[144])?;
    let mut disk = FileDisk::over(file);
    disk.write_at(0, &[b'a'; SIZE])?;
    disk.sync()?;
    // Of 140 bytes with one between, the last twelve and the gaps between them are one range.
    write_with_gaps(&mut disk, 140)?;
    assert!(rt; disk.sync().is_err());
    disk.sync()?;
    for (place, byte) in disk.into_file().device().iter().enumerate() {
        let wanted = if place < 280 && place % 2 == 0 {
            b'x'
        } else {
            b'a'
        };
        assert!(rt; *byte == wanted);
    }
    Ok(())
}
