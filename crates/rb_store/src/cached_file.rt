//! `CachedFile`: the cache, the log and the twin area of a file, whose calls take all three. The store has one, and
//! its opening.
ghost use Rattle.std.specs.Prelude.{◌≡◌, ◌≢◌, ◌<◌, ◌≤◌, ◌+◌, ◌^◌, ◌++◌, ◌∷◌};
ghost use Rattle.std.specs.Prelude.{◌↔◌, [], ℕ, List, length, Some, OnOk, OnErr, IsTrue, true};
ghost use Rattle.rb_base.specs.Blocks.{AreWithin};
ghost use Rattle.rb_base.specs.Counts.{IsCounted};
ghost use Rattle.rb_base.specs.Groups.{Patch};
ghost use Rattle.rb_base.specs.declared.sizes.TheConstants.{UNIT};
ghost use Rattle.rb_control.specs.Heads.{head_of, Advanced};
ghost use Rattle.rb_disk.specs.DiskModel.{Only};
ghost use Rattle.rb_disk.specs.Moments.{Leaves};
ghost use Rattle.rb_disk.specs.Ranges.{SameBut};
ghost use Rattle.rb_layout.specs.Regions.{block_count, file_length, log_offset, shape_of};
ghost use Rattle.law_redo.specs.Rolled.{step};
ghost use Rattle.rb_cache.specs.declared.frame.Frame.{Frame};
ghost use Rattle.rb_cache.specs.Frames.{seen, AreClean, NoneDirty, has_number, numbers_of};
ghost use Rattle.rb_cache.specs.OnDisk.{IsCalm};
ghost use Rattle.rb_log.specs.GroupSlots.{GroupsAre, KeptLog};
ghost use Rattle.rb_log.specs.Slots.{head_at};
ghost use Rattle.rb_store.specs.CachedFiles.{IsCachedMemory, Done, Keeps, Leaving, SameNumbers, SeenAt, Settled};
ghost use Rattle.rb_store.specs.CachedFiles.{first_of, FlushesFull, IsShutBehind, LeavesLog, StaysOrNone};

use rb_base::{BlockNo, Failed, Group, Lsn, UNIT};
use rb_cache::Cache;
use rb_control::advance;
use rb_disk::Disk;
use rb_layout::Layout;
use rb_log::Log;
use rb_twin::Twin;
use std::marker::Model;

/// The cache, the log and the twin area of a file.
#[derive(Drop)]
pub struct CachedFile {
    pub(crate) layout: Layout,
    pub(crate) cache: Cache,
    pub(crate) log: Log,
    pub(crate) twin: Twin,
}

impl Model for CachedFile {
    ghost use Rattle.rb_store.specs.CachedFiles.{CachedState, IsCachedFile};

    ghost Value = { CachedState };

    ghost view = { λ a. record {
      layout = a.layout;
      head = a.log.head;
      used = a.log.used;
      pending = a.log.pending;
      frames = a.cache.frames;
      held = a.cache.held;
      batch = a.twin.batch;
    } };

    ghost invariant = { λ a. IsCachedFile a.layout a.log a.twin (record {
      layout = a.layout;
      head = a.log.head;
      used = a.log.used;
      pending = a.log.pending;
      frames = a.cache.frames;
      held = a.cache.held;
      batch = a.twin.batch;
    }) };
}

impl CachedFile {
    /// The layout of the file.
    pub fn layout(&self) -> Layout
        ensures { result ≡ self.now.layout }
    {
        self.layout
    }

    /// How many groups the slots of its log have.
    pub fn used(&self) -> u32
        ensures { result ≡ self.now.used }
    {
        self.log.used()
    }

    /// Whether its log has room for one more group.
    pub fn room(&self) -> bool
        ensures { IsTrue result ↔ (self.now.used + length self.now.pending + 1 < self.now.layout.log) }
    {
        self.log.room()
    }

    /// Brings a block into a frame, so that `front` gives it. It flushes the log at most where no frame holds the
    /// block, none is free, and some are dirty. Failed where a call of the disk failed.
    pub fn get<D: Disk>(&mut self, disk: &mut D, no: BlockNo) -> Result<(), Failed>
        requires there { no < block_count self.old.layout }
        requires batch { self.old.batch ≡ [] }
        requires calm { D.tells → IsCalm (D.image disk.old) self.old.layout (D.content disk.old) }
        requires clean { D.tells → AreClean self.old.layout (D.content disk.old) self.old.held }
        ensures first { OnOk result (first_of self.new.held ≡ Some no) }
        ensures seen { D.tells → OnOk result ((k : ℕ) → k < block_count self.old.layout
            → seen self.old.layout (D.content disk.new) self.new.held k
            ≡ seen self.old.layout (D.content disk.old) self.old.held k) }
        ensures keeps { Keeps self.old self.new }
        ensures memory { IsCachedMemory self.new }
        ensures batch { OnOk result (self.new.batch ≡ []) }
        ensures numbers { OnOk result (SameNumbers self.old self.new) }
        ensures waits { OnOk result (StaysOrNone self.old self.new) }
        ensures fills { OnOk result (FlushesFull self.old self.new) }
        ensures held { has_number no (numbers_of self.old.held) ≡ true → LeavesLog self.old self.new }
        ensures quiet { NoneDirty self.old.held → LeavesLog self.old self.new }
        ensures done { D.tells → OnOk result ((groups : List (List Patch)) → length groups ≡ self.old.used
            → GroupsAre self.old.layout self.old.head (D.content disk.old) 0 groups
            → Done D.Disk self.old self.new disk.old disk.new groups
            (SeenAt self.old (D.content disk.old))) }
        ensures settled { D.tells → OnOk result (Settled D.Disk self.old self.new disk.old disk.new) }
        ensures any_moment { D.tells → (groups : List (List Patch)) → length groups ≡ self.old.used
            → GroupsAre self.old.layout self.old.head (D.content disk.old) 0 groups
            → Leaving D.Disk self.old disk.old disk.new groups (SeenAt self.old (D.content disk.old)) }
        ensures counted { IsCounted (D.faults disk.old) (D.faults disk.new) result }
    {
        self.cache
            .get(disk, &self.layout, &mut self.log, &mut self.twin, no)
    }

    /// The block that was used last.
    pub fn front(&self) -> &[u8]
        requires some { self.now.held ≢ [] }
        ensures length { length result.now ≡ UNIT }
        ensures bytes { (f : Frame) (rest : List Frame) → self.now.held ≡ f ∷ rest → result.now ≡ f.bytes }
    {
        self.cache.front()
    }

    /// Takes a group into its log, which waits there.
    pub fn append(&mut self, group: &Group)
        requires room { self.old.used + length self.old.pending + 1 < self.old.layout.log }
        requires some { 0 < length group.now }
        requires within { AreWithin (shape_of self.old.layout) group.now }
        requires number { self.old.head.number + (self.old.used + length self.old.pending) < 2 ^ 63 }
        ensures after { self.new ≡ record self.old { pending = self.old.pending ++ group.now ∷ [] } }
        ensures memory { IsCachedMemory self.new }
    {
        // For the proof: the count's contract says that it is a group.
        let _ = group.patches();
        self.log.append(group);
    }

    /// Patches a block by those of the group that are of it, where its log number is below the group's. It flushes the
    /// log at most where `get` does.
    pub fn patch<D: Disk>(
        &mut self,
        disk: &mut D,
        no: BlockNo,
        group: &Group,
        number: Lsn,
    ) -> Result<(), Failed>
        requires there { no < block_count self.old.layout }
        requires batch { self.old.batch ≡ [] }
        requires calm { D.tells → IsCalm (D.image disk.old) self.old.layout (D.content disk.old) }
        requires clean { D.tells → AreClean self.old.layout (D.content disk.old) self.old.held }
        ensures own { D.tells → OnOk result (seen self.old.layout (D.content disk.new) self.new.held no
            ≡ step number group.now no (seen self.old.layout (D.content disk.old) self.old.held no)) }
        ensures others { D.tells → OnOk result ((k : ℕ) → k < block_count self.old.layout → k ≢ no
            → seen self.old.layout (D.content disk.new) self.new.held k
            ≡ seen self.old.layout (D.content disk.old) self.old.held k) }
        ensures keeps { Keeps self.old self.new }
        ensures memory { IsCachedMemory self.new }
        ensures batch { OnOk result (self.new.batch ≡ []) }
        ensures numbers { OnOk result (SameNumbers self.old self.new) }
        ensures waits { OnOk result (StaysOrNone self.old self.new) }
        ensures fills { OnOk result (FlushesFull self.old self.new) }
        ensures held { has_number no (numbers_of self.old.held) ≡ true → LeavesLog self.old self.new }
        ensures quiet { NoneDirty self.old.held → LeavesLog self.old self.new }
        ensures done { D.tells → OnOk result ((groups : List (List Patch)) → length groups ≡ self.old.used
            → GroupsAre self.old.layout self.old.head (D.content disk.old) 0 groups
            → Done D.Disk self.old self.new disk.old disk.new groups
            (SeenAt self.old (D.content disk.old))) }
        ensures settled { D.tells → OnOk result (Settled D.Disk self.old self.new disk.old disk.new) }
        ensures any_moment { D.tells → (groups : List (List Patch)) → length groups ≡ self.old.used
            → GroupsAre self.old.layout self.old.head (D.content disk.old) 0 groups
            → Leaving D.Disk self.old disk.old disk.new groups (SeenAt self.old (D.content disk.old)) }
        ensures counted { IsCounted (D.faults disk.old) (D.faults disk.new) result }
    {
        self.cache.patch(
            disk,
            &self.layout,
            &mut self.log,
            &mut self.twin,
            no,
            group,
            number,
        )
    }

    /// Makes the groups that wait in its log last.
    pub fn flush<D: Disk>(&mut self, disk: &mut D) -> Result<(), Failed>
        requires batch { self.old.batch ≡ [] }
        requires only { D.tells → Only (D.content disk.old) (D.image disk.old) }
        requires calm { D.tells → IsCalm (D.image disk.old) self.old.layout (D.content disk.old) }
        requires clean { D.tells → AreClean self.old.layout (D.content disk.old) self.old.held }
        ensures held { OnOk result (self.new.held ≡ self.old.held) }
        ensures flushed { OnOk result (self.new.pending ≡ []) }
        ensures seen { D.tells → OnOk result ((k : ℕ) → k < block_count self.old.layout
            → seen self.old.layout (D.content disk.new) self.new.held k
            ≡ seen self.old.layout (D.content disk.old) self.old.held k) }
        ensures keeps { Keeps self.old self.new }
        ensures memory { IsCachedMemory self.new }
        ensures batch { OnOk result (self.new.batch ≡ []) }
        ensures numbers { OnOk result (SameNumbers self.old self.new) }
        ensures done { D.tells → OnOk result ((groups : List (List Patch)) → length groups ≡ self.old.used
            → GroupsAre self.old.layout self.old.head (D.content disk.old) 0 groups
            → Done D.Disk self.old self.new disk.old disk.new groups
            (SeenAt self.old (D.content disk.old))) }
        ensures settled { D.tells → OnOk result (Settled D.Disk self.old self.new disk.old disk.new) }
        ensures any_moment { D.tells → (groups : List (List Patch)) → length groups ≡ self.old.used
            → GroupsAre self.old.layout self.old.head (D.content disk.old) 0 groups
            → Leaving D.Disk self.old disk.old disk.new groups (SeenAt self.old (D.content disk.old)) }
        ensures counted { IsCounted (D.faults disk.old) (D.faults disk.new) result }
    {
        self.log.flush(disk)?;
        Ok(())
    }

    /// Does that, and brings each dirty block home.
    pub fn clean_all<D: Disk>(&mut self, disk: &mut D) -> Result<(), Failed>
        requires batch { self.old.batch ≡ [] }
        requires calm { D.tells → IsCalm (D.image disk.old) self.old.layout (D.content disk.old) }
        requires clean { D.tells → AreClean self.old.layout (D.content disk.old) self.old.held }
        ensures flushed { OnOk result (self.new.pending ≡ []) }
        ensures all_clean { OnOk result (NoneDirty self.new.held) }
        ensures count { length self.new.held ≡ length self.old.held }
        ensures frames { self.new.frames ≡ self.old.frames }
        ensures seen { D.tells → OnOk result ((k : ℕ) → k < block_count self.old.layout
            → seen self.old.layout (D.content disk.new) self.new.held k
            ≡ seen self.old.layout (D.content disk.old) self.old.held k) }
        ensures keeps { Keeps self.old self.new }
        ensures memory { IsCachedMemory self.new }
        ensures batch { OnOk result (self.new.batch ≡ []) }
        ensures numbers { OnOk result (SameNumbers self.old self.new) }
        ensures done { D.tells → OnOk result ((groups : List (List Patch)) → length groups ≡ self.old.used
            → GroupsAre self.old.layout self.old.head (D.content disk.old) 0 groups
            → Done D.Disk self.old self.new disk.old disk.new groups
            (SeenAt self.old (D.content disk.old))) }
        ensures settled { D.tells → OnOk result (Settled D.Disk self.old self.new disk.old disk.new) }
        ensures any_moment { D.tells → (groups : List (List Patch)) → length groups ≡ self.old.used
            → GroupsAre self.old.layout self.old.head (D.content disk.old) 0 groups
            → Leaving D.Disk self.old disk.old disk.new groups (SeenAt self.old (D.content disk.old)) }
        ensures counted { IsCounted (D.faults disk.old) (D.faults disk.new) result }
    {
        self.cache
            .clean_all(disk, &self.layout, &mut self.log, &mut self.twin)
    }

    /// Moves the head of the log behind its groups, so that their slots are free. A crash leaves the old head or the
    /// new one.
    pub fn move_head<D: Disk>(&mut self, disk: &mut D) -> Result<(), Failed>
        requires whole { D.tells → length (D.content disk.old) ≡ file_length self.old.layout }
        requires only { D.tells → Only (D.content disk.old) (D.image disk.old) }
        ensures moved { OnOk result (self.new ≡ record self.old
            { head = head_at self.old.layout self.old.head self.old.used; used = 0 }) }
        ensures stays { OnErr result (self.new ≡ self.old) }
        ensures memory { IsCachedMemory self.new }
        ensures head { D.tells → OnOk result (head_of (D.content disk.new)
            ≡ head_at self.old.layout self.old.head self.old.used) }
        ensures outside { D.tells → SameBut UNIT (log_offset 0) (D.content disk.old) (D.content disk.new) }
        ensures only { D.tells → OnOk result (Only (D.content disk.new) (D.image disk.new)) }
        ensures any_moment { D.tells → Leaves D.Disk disk.old disk.new (Advanced (D.image disk.old)
            (head_of (D.content disk.old)) (head_at self.old.layout self.old.head self.old.used)) }
        ensures counted { IsCounted (D.faults disk.old) (D.faults disk.new) result }
    {
        let head = self.log.next();
        advance(disk, &self.layout, head)?;
        self.log.release(head);
        Ok(())
    }

    /// Sees to it that the gate behind the groups of the log is shut, as the next ones ask for: where the log is full,
    /// its scan ended by their count, and the gate is closed now. A crash leaves the same groups.
    pub fn shut_behind<D: Disk>(&mut self, disk: &mut D) -> Result<(), Failed>
        requires whole { D.tells → length (D.content disk.old) ≡ file_length self.old.layout }
        requires only { D.tells → Only (D.content disk.old) (D.image disk.old) }
        ensures shut { D.tells → OnOk result ((groups : List (List Patch)) → length groups ≡ self.old.used
            → GroupsAre self.old.layout self.old.head (D.content disk.old) 0 groups
            → IsShutBehind self.old (D.content disk.new)) }
        ensures only { D.tells → OnOk result (Only (D.content disk.new) (D.image disk.new)) }
        ensures any_moment { D.tells → (groups : List (List Patch)) → length groups ≡ self.old.used
            → GroupsAre self.old.layout self.old.head (D.content disk.old) 0 groups
            → Leaves D.Disk disk.old disk.new
            (KeptLog (D.image disk.old) self.old.layout self.old.head groups) }
        ensures stays { self.new ≡ self.old }
        ensures counted { IsCounted (D.faults disk.old) (D.faults disk.new) result }
    {
        if self.log.used() + 1 < self.layout.log {
            return Ok(());
        }
        self.log.shut(disk)
    }
}
