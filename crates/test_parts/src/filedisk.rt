//! A file disk over a real file, in the folder that the test runs in.
use rb_disk::Disk;
use rb_filedisk::FileDisk;
use std::fs;
use std::test::Fail;

#[test]
fn keeps_its_bytes(rt: HostRuntime) -> Result<(), Fail> {
    // An earlier run may have left it.
    let _ = fs::remove_file(&rt, "disk.bin");
    let mut made = FileDisk::at(&rt, "disk.bin");
    assert!(rt; made.len()? == 0);
    made.write_at(0, b"abcd")?;
    made.write_at(2, b"XYZ")?;
    made.sync()?;
    let mut second = FileDisk::at(&rt, "disk.bin");
    assert!(rt; second.len().is_err());
    assert!(rt; second.write_at(0, b"-").is_err());
    assert!(rt; second.sync().is_err());
    drop(made);
    let mut bytes = [0; 3];
    second.read_at(1, &mut bytes)?;
    assert!(rt; bytes == *b"bXY");
    assert!(rt; second.len()? == 5);
    second.sync()?;
    fs::remove_file(&rt, "disk.bin")?;
    Ok(())
}

#[test]
fn reads_no_file_as_an_empty_one(rt: HostRuntime) -> Result<(), Fail> {
    let _ = fs::remove_file(&rt, "none.bin");
    let mut disk = FileDisk::at(&rt, "none.bin");
    assert!(rt; disk.len()? == 0);
    disk.read_at(0, &mut [])?;
    assert!(rt; disk.read_at(0, &mut [0]).is_err());
    disk.sync()?;
    assert!(rt; !fs::exists(&rt, "none.bin")?);
    // What another one makes meanwhile is not written over.
    fs::write(&rt, "none.bin", "abc")?;
    assert!(rt; disk.len()? == 0);
    assert!(rt; disk.write_at(0, b"-").is_err());
    assert!(rt; fs::read(&rt, "none.bin")?.as_slice() == b"abc".as_slice());
    fs::remove_file(&rt, "none.bin")?;
    disk.write_at(0, b"-")?;
    assert!(rt; disk.len()? == 1);
    fs::remove_file(&rt, "none.bin")?;
    Ok(())
}

#[test]
fn fails_past_the_end_and_over_no_file(rt: HostRuntime) -> Result<(), Fail> {
    let _ = fs::remove_file(&rt, "short.bin");
    let mut file = FileDisk::at(&rt, "short.bin");
    file.write_at(0, b"-")?;
    assert!(rt; file.read_at(0, &mut [0; 2]).is_err());
    for path in [".", "/dev/null"] {
        assert!(rt; FileDisk::at(&rt, path).len().is_err());
    }
    let mut nowhere = FileDisk::at(&rt, "no/such/folder.bin");
    assert!(rt; nowhere.write_at(0, b"-").is_err());
    assert!(rt; nowhere.sync().is_err());
    fs::remove_file(&rt, "short.bin")?;
    Ok(())
}
