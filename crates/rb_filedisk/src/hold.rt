//! `Hold`: a file that one run at a time may have. `FileDisk` takes its file by it.
use std::fs::File;
use std::io;

/// A file that can be taken for one run alone.
pub trait Hold {
    /// Takes the file, for this opening of it and its copies, until the last of them is closed. Where another opening
    /// has it, the call fails at once.
    fn hold(&self) -> io::Result<()>;
}

impl Hold for File {
    fn hold(&self) -> io::Result<()> {
        Ok(self.try_lock()?)
    }
}
