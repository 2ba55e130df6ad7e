//! `FileDisk`: a raw file as a disk. The program's `main` makes it over the file of a path.
ghost use Rattle.std.specs.Prelude.{◌≡◌, ◌↔◌, ◌+◌, ◌-◌, ◌^◌, ◌≤◌, ℕ, min, max, []};
ghost use Rattle.std.specs.Prelude.{length, IsOk, IfOk, OnOk, OnErr, IfErr, None, Some, IsNone, IsSome, IfSome};
ghost use Rattle.rb_base.specs.Counts.{IsCounted};
ghost use Rattle.rb_base.specs.Fields.{part, overwritten};
ghost use Rattle.rb_base.specs.Moments.{NoMore, Passes};
ghost use Rattle.rb_disk.specs.DiskModel.{Torn, Follows, Only};
ghost use Rattle.rb_filedisk.specs.FileDisk.{FileState, IsMissing, cause_of, faults_of, file_of};
ghost use Rattle.rb_filedisk.specs.FileDisk.{path_of, unsynced_of};
ghost use Rattle.rb_filedisk.specs.Faults.{FailedOnce};
ghost use Rattle.rb_filedisk.specs.Keeps.{HasNone};
ghost use Rattle.rb_filedisk.specs.Unsynced.{IsNothing, IsWhole, IsWith, RemembersAll, RemembersNoOther};

use crate::Hold;
use crate::synced::SyncedFile;
use crate::system::SystemFile;
use rb_base::Failed;
use rb_disk::Disk;
use rb_rawfile::{Cause, RawFile};
use std::fs::Files;
use std::marker::Model;
use std::os::unix::fs::FileExt;

/// A disk over a raw file, which tells its bytes where the file does.
#[derive(Drop)]
pub struct FileDisk<F: RawFile> {
    file: SyncedFile<F>,
    faults: u64,
    // Why the last call that failed did so.
    cause: Option<Cause>,
}

impl<F: RawFile> Model for FileDisk<F> {
    ghost use Rattle.rb_filedisk.specs.FileDisk.{FileState};
    ghost use Rattle.rb_filedisk.specs.Keeps.{IsKept};

    ghost Value = { FileState F };

    ghost view = { λ disk. record { file = disk.file; faults = disk.faults; cause = disk.cause } };

    ghost invariant = { λ disk. F.tells → IsKept F.RawFile disk.file };
}

impl<'a, R: Files> FileDisk<SystemFile<'a, R>>
where
    R::File: FileExt + Hold,
{
    /// The file of this path, which its first call looks for and opens. No second run may have it. One that isn't there
    /// counts as an empty one, until its first write makes it.
    pub fn at(runtime: &'a R, path: &'a str) -> Self
        ensures path { path_of (file_of result) ≡ path.now }
        ensures faults { faults_of result ≡ 0 }
        ensures no_cause { cause_of result ≡ None }
        ensures unsynced { IsWhole (unsynced_of result) }
    {
        FileDisk::over(SystemFile::at(runtime, path))
    }

    /// Why the last call that failed did so. Where none has, that there is no file, if that is known.
    pub fn into_cause(self) -> Option<Cause>
        ensures failed { IsSome (cause_of self.entry) → result ≡ cause_of self.entry }
        ensures missing { IsNone (cause_of self.entry) → (IsSome result ↔ IsMissing (file_of self.entry)) }
        ensures told { IsNone (cause_of self.entry) → IfSome result (λ cause. cause ≡ Cause.Missing) }
    {
        self.cause.or(self.into_file().absence())
    }
}

impl<F: RawFile> FileDisk<F> {
    /// A disk over a file, none of whose places is lost. What was written to it before may still be unsettled, so the
    /// first sync that fails writes the whole file again.
    pub fn over(file: F) -> Self
        requires { F.tells → (place : ℕ) → F.lost file place → ⊥ }
        ensures file { file_of result ≡ file }
        ensures faults { faults_of result ≡ 0 }
        ensures no_cause { cause_of result ≡ None }
        ensures unsynced { IsWhole (unsynced_of result) }
    {
        FileDisk {
            file: SyncedFile::over(file),
            faults: 0,
            cause: None,
        }
    }

    /// The file, as it is.
    pub fn into_file(self) -> F
        ensures { result ≡ file_of self }
    {
        self.file.into_file()
    }

    // Counts a fault where the answer is one, and keeps its cause.
    fn count_fault<T>(&mut self, answer: Result<T, Cause>) -> Result<T, Failed>
        ensures same { IsOk result ↔ IsOk answer }
        ensures value { IfOk answer (λ value. IfOk result (λ given. given ≡ value)) }
        ensures counted { IsCounted (faults_of self.old) (faults_of self.new) result }
        ensures faulted { OnErr result (faults_of self.new ≡ min (faults_of self.old + 1) (2 ^ 64 - 1)) }
        ensures no_fault { OnOk result (faults_of self.new ≡ faults_of self.old) }
        ensures caused { IfErr answer (λ cause. cause_of self.new ≡ Some cause) }
        ensures no_cause { OnOk result (cause_of self.new ≡ cause_of self.old) }
        ensures kept { self.new.file ≡ self.old.file }
    {
        match answer {
            Ok(value) => Ok(value),
            Err(cause) => {
                self.faults = self.faults.saturating_add(1);
                self.cause = Some(cause);
                Err(Failed)
            }
        }
    }
}

impl<F: RawFile> Disk for FileDisk<F> {
    ghost tells = { F.tells };

    ghost content = { λ disk. F.content disk.file.file };

    ghost image = { λ disk c. F.image disk.file.file c };

    ghost moment = { λ disk. F.moment disk.file.file };

    ghost image_since = { λ disk t c. F.image_since disk.file.file t c };

    ghost faults = { λ disk. disk.faults };

    ghost reads_an_image = { λ disk told. F.reads_an_image disk.file.file told };

    ghost now_counts = { λ disk t c told le here. F.now_counts disk.file.file t c told le here };

    ghost only_now = { λ disk c told since. F.only_now disk.file.file c told since };

    fn len(&mut self) -> Result<u64, Failed>
        ensures value { F.tells → IfOk result (λ n. n ≡ length (F.content (file_of self.old))) }
        ensures content { F.tells → F.content (file_of self.new) ≡ F.content (file_of self.old) }
        ensures images { F.tells → NoMore (F.image (file_of self.old)) (F.image (file_of self.new)) }
        ensures time { F.tells → Passes (F.moment (file_of self.old)) (F.moment (file_of self.new))
            (F.image_since (file_of self.old)) (F.image_since (file_of self.new)) (F.image (file_of self.new)) }
        ensures counted { IsCounted (faults_of self.old) (faults_of self.new) result }
        ensures faulted { OnErr result (faults_of self.new ≡ min (faults_of self.old + 1) (2 ^ 64 - 1)) }
        ensures no_fault { OnOk result (faults_of self.new ≡ faults_of self.old) }
        ensures caused { OnErr result (IsSome (cause_of self.new)) }
        ensures no_cause { OnOk result (cause_of self.new ≡ cause_of self.old) }
        ensures kept { unsynced_of self.new ≡ unsynced_of self.old }
    {
        let answer = self.file.len();
        self.count_fault(answer)
    }

    fn read_at(&mut self, at: u64, into: &mut [u8]) -> Result<(), Failed>
        ensures value { F.tells → OnOk result
            (into.new ≡ part (F.content (file_of self.old)) at (length into.old)) }
        ensures content { F.tells → F.content (file_of self.new) ≡ F.content (file_of self.old) }
        ensures images { F.tells → NoMore (F.image (file_of self.old)) (F.image (file_of self.new)) }
        ensures time { F.tells → Passes (F.moment (file_of self.old)) (F.moment (file_of self.new))
            (F.image_since (file_of self.old)) (F.image_since (file_of self.new)) (F.image (file_of self.new)) }
        ensures counted { IsCounted (faults_of self.old) (faults_of self.new) result }
        ensures faulted { OnErr result (faults_of self.new ≡ min (faults_of self.old + 1) (2 ^ 64 - 1)) }
        ensures no_fault { OnOk result (faults_of self.new ≡ faults_of self.old) }
        ensures caused { OnErr result (IsSome (cause_of self.new)) }
        ensures no_cause { OnOk result (cause_of self.new ≡ cause_of self.old) }
        ensures kept { unsynced_of self.new ≡ unsynced_of self.old }
    {
        let answer = self.file.read_at(at, into);
        self.count_fault(answer)
    }

    fn write_at(&mut self, at: u64, bytes: &[u8]) -> Result<(), Failed>
        requires { F.tells → at ≤ length (F.content (file_of self.old)) }
        ensures written { F.tells → OnOk result (F.content (file_of self.new)
            ≡ overwritten (F.content (file_of self.old)) at bytes.now) }
        ensures torn { F.tells → OnErr result (Torn at (length bytes.now) (F.content (file_of self.old))
            (F.content (file_of self.new))) }
        ensures images { F.tells → Follows (Torn at (length bytes.now)) (F.image (file_of self.old))
            (F.image (file_of self.new)) }
        ensures time { F.tells → Passes (F.moment (file_of self.old)) (F.moment (file_of self.new))
            (F.image_since (file_of self.old)) (F.image_since (file_of self.new)) (F.image (file_of self.new)) }
        ensures counted { IsCounted (faults_of self.old) (faults_of self.new) result }
        ensures faulted { OnErr result (faults_of self.new ≡ min (faults_of self.old + 1) (2 ^ 64 - 1)) }
        ensures no_fault { OnOk result (faults_of self.new ≡ faults_of self.old) }
        ensures caused { OnErr result (IsSome (cause_of self.new)) }
        ensures no_cause { OnOk result (cause_of self.new ≡ cause_of self.old) }
        ensures remembered { IsWith at (length bytes.now) (unsynced_of self.old) (unsynced_of self.new) }
        ensures every { RemembersAll at (length bytes.now) (unsynced_of self.old) (unsynced_of self.new) }
        ensures no_other { RemembersNoOther at (length bytes.now) (unsynced_of self.old) (unsynced_of self.new) }
    {
        let answer = self.file.write_at(at, bytes);
        self.count_fault(answer)
    }

    fn sync(&mut self) -> Result<(), Failed>
        ensures durable { F.tells → OnOk result (Only (F.content (file_of self.old)) (F.image (file_of self.new))) }
        ensures content { F.tells → F.content (file_of self.new) ≡ F.content (file_of self.old) }
        ensures images { F.tells → NoMore (F.image (file_of self.old)) (F.image (file_of self.new)) }
        ensures time { F.tells → Passes (F.moment (file_of self.old)) (F.moment (file_of self.new))
            (F.image_since (file_of self.old)) (F.image_since (file_of self.new)) (F.image (file_of self.new)) }
        ensures counted { IsCounted (faults_of self.old) (faults_of self.new) result }
        ensures faulted { OnErr result (faults_of self.new ≡ min (faults_of self.old + 1) (2 ^ 64 - 1)) }
        ensures no_fault { OnOk result (faults_of self.new ≡ faults_of self.old) }
        ensures caused { OnErr result (IsSome (cause_of self.new)) }
        ensures no_cause { OnOk result (cause_of self.new ≡ cause_of self.old) }
        ensures forgotten { OnOk result (IsNothing (unsynced_of self.new)) }
        ensures kept { OnErr result (unsynced_of self.new ≡ unsynced_of self.old) }
        ensures mended { F.tells → OnErr result
            (FailedOnce (F.faults (file_of self.old)) (F.faults (file_of self.new))
            → HasNone (F.content (file_of self.old)) (F.lost (file_of self.new))) }
    {
        let answer = self.file.sync();
        self.count_fault(answer)
    }
}
