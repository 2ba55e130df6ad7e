//! `SyncedFile`: a raw file that knows what a sync of it has to write. `FileDisk` counts its faults.
ghost use Rattle.std.specs.Prelude.{◌≡◌, ◌+◌, ◌<◌, ◌≤◌, ℕ, Some, None, false, length};
ghost use Rattle.std.specs.Prelude.{IsTrue, IfOk, OnOk, OnErr, is_ok};
ghost use Rattle.rb_base.specs.Fields.{part, overwritten};
ghost use Rattle.rb_base.specs.Moments.{NoMore, Passes};
ghost use Rattle.rb_disk.specs.DiskModel.{Torn, Follows, Only};
ghost use Rattle.rb_rawfile.specs.RawModel.{HasLength};
ghost use Rattle.rb_filedisk.specs.Faults.{FailedOnce, Tells};

use crate::unsynced::Unsynced;
use rb_rawfile::{Cause, RawFile};
use std::io;

/// A raw file, with what may have been written to it since the last sync that succeeded.
#[derive(Drop)]
pub struct SyncedFile<F: RawFile> {
    file: F,
    // The length at the last sync of all that succeeded, if there was one.
    synced: Option<u64>,
    unsynced: Unsynced,
    // Whether a sync failed, and not all of them could be written again.
    stale: bool,
}

impl<F: RawFile> SyncedFile<F> {
    ghost use Rattle.rb_filedisk.specs.Keeps.{HasNone, IsKept, IsSameBesides, IsSynced};
    ghost use Rattle.rb_filedisk.specs.Rests.{Rests, Stays};
    ghost use Rattle.rb_filedisk.specs.Unsynced.{ranges_of, HasOne, IsNothing, IsWhole, IsWith};

    /// A file, none of whose places is lost. Any of them may be unsettled.
    pub fn over(file: F) -> Self
        requires { F.tells → (place : ℕ) → F.lost file place → ⊥ }
        ensures in_step { F.tells → IsKept F.RawFile result }
        ensures file { result.file ≡ file }
        ensures unsynced { IsWhole result.unsynced }
        ensures fresh { result.stale ≡ false }
    {
        SyncedFile {
            file,
            synced: None,
            unsynced: Unsynced::whole(),
            stale: false,
        }
    }

    /// The file, as it is.
    pub fn into_file(self) -> F
        ensures { result ≡ self.file }
    {
        self.file
    }

    /// How many bytes there are.
    pub fn len(&mut self) -> Result<u64, Cause>
        requires { F.tells → IsKept F.RawFile self.old }
        ensures in_step { F.tells → IsKept F.RawFile self.new }
        ensures value { F.tells → IfOk result (λ n. n ≡ length (F.content self.old.file)) }
        ensures rests { F.tells → Rests F.RawFile self.old.file self.new.file }
        ensures same { IsSameBesides self.old self.new }
    {
        self.file.len()
    }

    /// Reads as many bytes as `into` has, from `at`.
    pub fn read_at(&mut self, at: u64, into: &mut [u8]) -> Result<(), Cause>
        requires { F.tells → IsKept F.RawFile self.old }
        ensures in_step { F.tells → IsKept F.RawFile self.new }
        ensures value { F.tells → OnOk result (into.new ≡ part (F.content self.old.file) at (length into.old)) }
        ensures rests { F.tells → Rests F.RawFile self.old.file self.new.file }
        ensures same { IsSameBesides self.old self.new }
    {
        self.file.read_at(at, into)
    }

    /// Writes the bytes over what is there and past the end.
    pub fn write_at(&mut self, at: u64, bytes: &[u8]) -> Result<(), Cause>
        requires in_step { F.tells → IsKept F.RawFile self.old }
        requires begins { F.tells → at ≤ length (F.content self.old.file) }
        ensures in_step { F.tells → IsKept F.RawFile self.new }
        ensures written { F.tells → OnOk result (F.content self.new.file
            ≡ overwritten (F.content self.old.file) at bytes.now) }
        ensures torn { F.tells → Torn at (length bytes.now) (F.content self.old.file) (F.content self.new.file) }
        ensures images { F.tells → Follows (Torn at (length bytes.now)) (F.image self.old.file)
            (F.image self.new.file) }
        ensures time { F.tells → Passes (F.moment self.old.file) (F.moment self.new.file)
            (F.image_since self.old.file) (F.image_since self.new.file) (F.image self.new.file) }
        ensures remembered { IsWith at (length bytes.now) self.old.unsynced self.new.unsynced }
    {
        self.unsynced.add(at, bytes.len());
        self.file.write_at(at, bytes)
    }

    /// Syncs the file. Where that fails, what it may have lost is written again, now or before the next sync: the
    /// system would answer Ok to that one without writing it.
    pub fn sync(&mut self) -> Result<(), Cause>
        requires { F.tells → IsKept F.RawFile self.old }
        ensures in_step { F.tells → IsKept F.RawFile self.new }
        ensures stays { F.tells → Stays F.RawFile self.old.file self.new.file }
        ensures durable { F.tells → OnOk result (Only (F.content self.old.file) (F.image self.new.file)) }
        ensures forgotten { OnOk result (IsNothing self.new.unsynced) }
        ensures fresh { OnOk result (self.new.stale ≡ false) }
        ensures kept { OnErr result (self.new.unsynced ≡ self.old.unsynced) }
        ensures mended { F.tells → OnErr result
            (FailedOnce (F.faults self.old.file) (F.faults self.new.file)
            → HasNone (F.content self.old.file) (F.lost self.new.file)) }
    {
        let answer = self.flush();
        if answer.is_ok() {
            self.unsynced.forget();
            self.stale = false;
        } else {
            self.stale = !self.write_again();
        }
        answer
    }

    // Where nothing was written past the length of the last sync of all, the file's data is all that there is to sync.
    fn flush(&mut self) -> Result<(), Cause>
        requires { F.tells → IsKept F.RawFile self.old }
        ensures stays { F.tells → Stays F.RawFile self.old.file self.new.file }
        ensures places { F.tells → OnErr result (NoMore (F.unsettled self.old.file) (F.unsettled self.new.file)) }
        ensures synced { F.tells → OnOk result (IsSynced F.RawFile (F.content self.old.file) self.new.file) }
        ensures long { F.tells → OnOk result ((count : ℕ) → self.new.synced ≡ Some count
            → HasLength count (F.image self.new.file)) }
        ensures length { OnErr result (self.new.synced ≡ self.old.synced) }
        ensures unsynced { self.new.unsynced ≡ self.old.unsynced }
        ensures counted { F.tells → Tells (F.faults self.old.file) (F.faults self.new.file) (is_ok result) }
    {
        self.recover()?;
        if let Some(len) = self.synced
            && self.unsynced.is_within(len)
        {
            return self.file.sync();
        }
        let len = self.file.len()?;
        self.file.sync_all()?;
        self.synced = Some(len);
        Ok(())
    }

    // Writes again what a sync may have lost, if it wasn't yet.
    fn recover(&mut self) -> Result<(), Cause>
        requires { F.tells → IsKept F.RawFile self.old }
        ensures idle { self.old.stale ≡ false → self.new ≡ self.old }
        ensures rests { F.tells → Rests F.RawFile self.old.file self.new.file }
        ensures whole { F.tells → OnOk result (HasNone (F.content self.old.file) (F.lost self.new.file)) }
        ensures same { IsSameBesides self.old self.new }
        ensures counted { F.tells → Tells (F.faults self.old.file) (F.faults self.new.file) (is_ok result) }
    {
        if self.stale && !self.write_again() {
            return Err(Cause::System(io::Error::from(io::ErrorKind::Other)));
        }
        Ok(())
    }

    // Whether all that is remembered is written again.
    fn write_again(&mut self) -> bool
        ensures rests { F.tells → Rests F.RawFile self.old.file self.new.file }
        ensures found { F.tells → IsTrue result → (place : ℕ) → HasOne (ranges_of self.old.unsynced) place
            → place < length (F.content self.old.file) → F.lost self.new.file place → ⊥ }
        ensures same { IsSameBesides self.old self.new }
        ensures counted { F.tells → Tells (F.faults self.old.file) (F.faults self.new.file) result }
    {
        let Ok(len) = self.file.len() else {
            return false;
        };
        self.unsynced.write_again(len, &mut self.file)
    }
}
