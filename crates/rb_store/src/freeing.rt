//! How a store makes its log short: it brings all blocks home, and moves the head of the log behind its groups. The
//! store's `checkpoint` does it, and its `apply` where the log is full.
ghost use Rattle.std.specs.Prelude.{◌≡◌, ◌+◌, ◌<◌, [], List, ℕ, length, false, OnOk, is_err};
ghost use Rattle.rb_base.specs.Counts.{IsCounted};
ghost use Rattle.rb_cache.specs.Frames.{NoneDirty};
ghost use Rattle.rb_layout.specs.Regions.{shape_of};
ghost use Rattle.rb_store.specs.Meaning.{Opens};
ghost use Rattle.rb_store.specs.StoreStates.{HeldBack, IsStable, LeavesGiven, SettlesGiven, StoreLeaves, blocks_in};

use crate::store::LogStore;
use rb_base::Failed;
use rb_disk::Disk;

impl<D: Disk> LogStore<D> {
    // Makes what waits last, and brings each dirty block home.
    fn bring_home(&mut self) -> Result<(), Failed>
        requires going { self.old.failed ≡ false }
        ensures flushed { OnOk result (self.new.pending ≡ []) }
        ensures clean { OnOk result (NoneDirty self.new.held) }
        ensures used { OnOk result (self.new.used ≡ self.old.used + length self.old.pending) }
        ensures count { length self.new.held ≡ length self.old.held }
        ensures frames { self.new.frames ≡ self.old.frames }
        ensures layout { self.new.layout ≡ self.old.layout }
        ensures head { self.new.head ≡ self.old.head }
        ensures lsn { self.new.number ≡ self.old.number }
        ensures forced { self.new.forced ≡ self.old.forced }
        ensures blocks { D.tells → OnOk result (blocks_in D.Disk self.new ≡ blocks_in D.Disk self.old) }
        ensures settles { D.tells → OnOk result (SettlesGiven D.Disk self.old self.new self.old.pending) }
        ensures any_moment { D.tells → LeavesGiven D.Disk self.old self.new self.old.pending }
        ensures failed { self.new.failed ≡ is_err result }
        ensures counted { IsCounted (D.faults self.old.disk) (D.faults self.new.disk) result }
    {
        self.loaded = None;
        match self.cache.clean_all(&mut self.disk) {
            Ok(()) => Ok(()),
            Err(fault) => {
                self.failed = true;
                Err(fault)
            }
        }
    }

    // Moves the head behind the groups of the log, where all blocks are at home.
    fn move_log(&mut self) -> Result<(), Failed>
        requires going { self.old.failed ≡ false }
        requires flushed { self.old.pending ≡ [] }
        requires clean { NoneDirty self.old.held }
        ensures pending { self.new.pending ≡ self.old.pending }
        ensures no_groups { OnOk result (self.new.used ≡ 0) }
        ensures moved { OnOk result (self.new.head.number ≡ self.old.head.number + self.old.used) }
        ensures count { length self.new.held ≡ length self.old.held }
        ensures frames { self.new.frames ≡ self.old.frames }
        ensures layout { self.new.layout ≡ self.old.layout }
        ensures lsn { self.new.number ≡ self.old.number }
        ensures forced { self.new.forced ≡ self.old.forced }
        ensures blocks { D.tells → OnOk result (blocks_in D.Disk self.new ≡ blocks_in D.Disk self.old) }
        ensures stays { D.tells → OnOk result ((b : List (List ℕ)) (n : ℕ) → IsStable D.Disk self.old b n
            → IsStable D.Disk self.new b n) }
        ensures any_moment { D.tells → (b : List (List ℕ)) (n : ℕ) → IsStable D.Disk self.old b n
            → StoreLeaves D.Disk self.old self.new
            (λ c. Opens (shape_of self.old.layout) (Some self.old.layout.log) c b n) }
        ensures failed { self.new.failed ≡ is_err result }
        ensures counted { IsCounted (D.faults self.old.disk) (D.faults self.new.disk) result }
    {
        if self.cache.used() == 0 {
            return Ok(());
        }
        match self.cache.move_head(&mut self.disk) {
            Ok(()) => Ok(()),
            Err(fault) => {
                self.failed = true;
                Err(fault)
            }
        }
    }

    /// Makes what waits last, brings each dirty block home, and frees all slots of the log.
    pub(crate) fn clear_log(&mut self) -> Result<(), Failed>
        requires going { self.old.failed ≡ false }
        ensures flushed { OnOk result (self.new.pending ≡ []) }
        ensures no_groups { OnOk result (self.new.used ≡ 0) }
        ensures moved { OnOk result (self.new.head.number
            ≡ self.old.head.number + (self.old.used + length self.old.pending)) }
        ensures count { length self.new.held ≡ length self.old.held }
        ensures frames { self.new.frames ≡ self.old.frames }
        ensures layout { self.new.layout ≡ self.old.layout }
        ensures lsn { self.new.number ≡ self.old.number }
        ensures forced { self.new.forced ≡ self.old.forced }
        ensures blocks { D.tells → OnOk result (blocks_in D.Disk self.new ≡ blocks_in D.Disk self.old) }
        ensures settles { D.tells → OnOk result (SettlesGiven D.Disk self.old self.new self.old.pending) }
        ensures any_moment { D.tells → LeavesGiven D.Disk self.old self.new self.old.pending }
        ensures failed { self.new.failed ≡ is_err result }
        ensures counted { IsCounted (D.faults self.old.disk) (D.faults self.new.disk) result }
    {
        self.bring_home()?;
        self.move_log()
    }

    /// Sees to it that the log has room for one more group: where it is full, that is cleared.
    pub(crate) fn make_room(&mut self) -> Result<(), Failed>
        requires going { self.old.failed ≡ false }
        ensures room { OnOk result (self.new.used + length self.new.pending + 1 < self.new.layout.log) }
        ensures layout { self.new.layout ≡ self.old.layout }
        ensures lsn { self.new.number ≡ self.old.number }
        ensures holds_back { OnOk result (HeldBack self.old self.new) }
        ensures blocks { D.tells → OnOk result (blocks_in D.Disk self.new ≡ blocks_in D.Disk self.old) }
        ensures settles { D.tells → OnOk result (SettlesGiven D.Disk self.old self.new self.old.pending) }
        ensures any_moment { D.tells → LeavesGiven D.Disk self.old self.new self.old.pending }
        ensures failed { self.new.failed ≡ is_err result }
        ensures counted { IsCounted (D.faults self.old.disk) (D.faults self.new.disk) result }
    {
        if self.cache.room() {
            return Ok(());
        }
        self.forced = self.forced.saturating_add(1);
        self.clear_log()
    }
}
