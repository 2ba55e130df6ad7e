//! How the file of a path is found or made, and how its name is made durable. `SystemFile` calls it.
ghost use Rattle.std.specs.Prelude.{◌≡◌, true};
ghost use Rattle.std.specs.Fs.{new_options, with_read, with_write};
ghost use Rattle.rb_filedisk.specs.Folders.{folder_name};

use crate::Hold;
use rb_rawfile::Cause;
use std::fs::{Files, OpenFile, OpenOptions};
use std::io;
use std::path::Path;

// Opens the file for this run alone, or tells that there is none. It makes nothing.
pub fn find_held<R: Files>(runtime: &R, path: &str) -> Result<Option<R::File>, Cause>
where
    R::File: Hold,
{
    match reading_and_writing().open(runtime, path) {
        Ok(file) => Ok(Some(held(file)?)),
        Err(error) if error.kind() == io::ErrorKind::NotFound => Ok(None),
        Err(error) => Err(Cause::System(error)),
    }
}

// Makes the file, for this run alone. It fails where the path names anything: that was put there by somebody else.
pub fn make_held<R: Files>(runtime: &R, path: &str) -> Result<R::File, Cause>
where
    R::File: Hold,
{
    let mut options = reading_and_writing();
    options.create_new(true);
    held(options.open(runtime, path)?)
}

// Opens what is there, and makes nothing.
fn reading_and_writing() -> OpenOptions
    ensures { result ≡ with_write (with_read new_options true) true }
{
    let mut options = OpenOptions::new();
    options.read(true);
    options.write(true);
    options
}

// Takes a file that was just opened for this run alone.
fn held<F: OpenFile + Hold + Drop>(opened: F) -> Result<F, Cause> {
    // A closed standard stream leaves its number free, and the first opening would take it: replies would go into
    // the store. The copy's number is above theirs.
    let file = opened.try_clone()?;
    // Of a device the length is 0, whatever it holds, so it would count as a new file.
    if !file.metadata()?.is_file() {
        return Err(Cause::NotRegular);
    }
    file.hold().map_err(Cause::of_lock)?;
    Ok(file)
}

// Makes durable what the folder has under the file's name, if anything.
pub fn sync_folder<R: Files>(runtime: &R, path: &str) -> io::Result<()> {
    let mut options = OpenOptions::new();
    options.read(true);
    options.open(runtime, folder_of(path))?.sync_all()
}

fn folder_of(path: &str) -> &str
    ensures { result.now ≡ folder_name path.now }
{
    match Path::new(path).parent() {
        Some(folder) if !folder.as_str().is_empty() => folder.as_str(),
        _ => ".",
    }
}
