//! `SystemFile`: the file of a path as a raw file. It is all that is trusted of what a file gives and keeps.
ghost use Rattle.std.specs.Prelude.{◌≡◌, ◌↔◌, ℕ, List, [], IsSome, IfSome};

use crate::Hold;
use crate::open::{find_held, make_held, sync_folder};
use rb_rawfile::{Cause, RawFile};
use std::fs::{Files, OpenFile};
use std::os::unix::fs::FileExt;

// What is known of the file of a path.
#[derive(Drop)]
enum Found<F> {
    // It wasn't looked for yet.
    Unknown,
    // It wasn't there when it was looked for, and wasn't written since.
    Missing,
    // It is open, for this run alone.
    Open(F),
}

/// The file of a path, which its first call looks for and opens. No second run may have it. One that isn't there reads
/// as an empty one, until its first write makes it; that fails where somebody else has made it since. It tells nothing
/// of its bytes: what a file gives or keeps is outside of any proof.
#[derive(Drop)]
pub struct SystemFile<'a, R: Files> {
    runtime: &'a R,
    path: &'a str,
    found: Found<R::File>,
    // Whether it was written to since the last sync of all, so that its folder has to keep its name.
    written: bool,
}

impl<'a, R: Files> SystemFile<'a, R>
where
    R::File: FileExt + Hold,
{
    ghost use Rattle.rb_filedisk.specs.FileDisk.{IsMissing, path_of};

    /// The file of this path.
    pub fn at(runtime: &'a R, path: &'a str) -> Self
        ensures path { path_of result ≡ path.now }
        ensures unknown { ¬ IsMissing result }
    {
        SystemFile {
            runtime,
            path,
            found: Found::Unknown,
            written: false,
        }
    }

    /// Why there are no bytes to read, where a call has looked for the file, found none and no write made it since.
    pub fn absence(&self) -> Option<Cause>
        ensures missing { IsSome result ↔ IsMissing self.now }
        ensures cause { IfSome result (λ cause. cause ≡ Cause.Missing) }
    {
        match self.found {
            Found::Missing => Some(Cause::Missing),
            _ => None,
        }
    }

    // Looks for the file, if that wasn't done yet.
    fn look(&mut self) -> Result<(), Cause>
        ensures stays { IsMissing self.old → self.new ≡ self.old }
    {
        if let Found::Unknown = self.found {
            self.found = match find_held(self.runtime, self.path)? {
                Some(file) => Found::Open(file),
                None => Found::Missing,
            };
        }
        Ok(())
    }

    // The open file, or None where there is none.
    fn file(&mut self) -> Result<Option<&R::File>, Cause> {
        self.look()?;
        match &self.found {
            Found::Open(file) => Ok(Some(file)),
            _ => Ok(None),
        }
    }

    // The open file, which is made here if it isn't there.
    fn opened(&mut self) -> Result<&R::File, Cause> {
        if self.file()?.is_none() {
            self.found = Found::Open(make_held(self.runtime, self.path)?);
        }
        self.file()?.ok_or(Cause::Missing)
    }
}

impl<'a, R: Files> RawFile for SystemFile<'a, R>
where
    R::File: FileExt + Hold,
{
    ghost tells = { ⊥ };

    ghost content = { λ file. [] };

    ghost image = { λ file c. ⊥ };

    ghost moment = { λ file. 0 };

    ghost image_since = { λ file t c. ⊥ };

    ghost unsettled = { λ file place. ⊥ };

    ghost lost = { λ file place. ⊥ };

    ghost faults = { λ file. 0 };

    ghost loses_unsettled = { λ file place told gone. absurd told };

    ghost fits = { λ file told. absurd told };

    ghost reads_an_image = { λ file told. absurd told };

    ghost now_counts = { λ file t c told le here. absurd told };

    ghost only_now = { λ file c told since. absurd told };

    fn len(&mut self) -> Result<u64, Cause> {
        match self.file()? {
            Some(file) => Ok(file.metadata()?.len()),
            None => Ok(0),
        }
    }

    fn read_at(&mut self, at: u64, into: &mut [u8]) -> Result<(), Cause> {
        match self.file()? {
            Some(file) => Ok(file.read_exact_at(into, at)?),
            None if into.is_empty() => Ok(()),
            None => Err(Cause::Missing),
        }
    }

    fn write_at(&mut self, at: u64, bytes: &[u8]) -> Result<(), Cause> {
        self.written = true;
        Ok(self.opened()?.write_all_at(bytes, at)?)
    }

    fn sync(&mut self) -> Result<(), Cause> {
        match self.file()? {
            Some(file) => Ok(file.sync_data()?),
            None => Ok(()),
        }
    }

    // Of a file that isn't there the folder keeps that: else a crash could bring one back that was removed before.
    fn sync_all(&mut self) -> Result<(), Cause> {
        if let Some(file) = self.file()? {
            file.sync_all()?;
            if !self.written {
                return Ok(());
            }
        }
        sync_folder(self.runtime, self.path)?;
        self.written = false;
        Ok(())
    }
}
