//! `Cache`: the blocks of a file that were used last. A store reads and patches blocks through it, and it makes their
//! groups last before a block goes home.
ghost use Rattle.std.specs.Prelude.{◌≡◌, ◌≢◌, ◌<◌, ◌≤◌, ◌∷◌, [], ℕ, List, length};
ghost use Rattle.std.specs.Prelude.{IfOk, OnOk, true};
ghost use Rattle.rb_base.specs.Counts.{IsCounted};
ghost use Rattle.rb_base.specs.Groups.{Patch};
ghost use Rattle.rb_layout.specs.Regions.{block_count};
ghost use Rattle.law_redo.specs.Rolled.{step};
ghost use Rattle.rb_cache.specs.Calls.{IsDone, Leaving, SeenAt, Settled, StaysOrFlushes, flushed};
ghost use Rattle.rb_cache.specs.Frames.{AreBelow, AreClean, IsCacheMemory, IsLastClean, NoneDirty};
ghost use Rattle.rb_cache.specs.Frames.{brought, has_number, numbers_of, seen};
ghost use Rattle.rb_cache.specs.OnDisk.{IsCalm};
ghost use Rattle.rb_cache.specs.Slots.{cache_of, held_in};
ghost use Rattle.rb_cache.specs.declared.frame.Frame.{Frame};

use crate::frames::Frames;
use rb_base::{BlockNo, Failed, Group, Lsn, NoMemory, UNIT};
use rb_disk::Disk;
use rb_layout::Layout;
use rb_log::Log;
use rb_twin::Twin;
use std::alloc::Global;
use std::marker::Model;

/// Blocks in memory, each in a frame. A block that isn't held takes the frame of the one used longest ago, which goes
/// home first where it is dirty.
#[derive(Drop)]
pub struct Cache {
    frames: Frames,
}

impl Model for Cache {
    ghost use Rattle.rb_cache.specs.Frames.{CacheState};
    ghost use Rattle.rb_cache.specs.Slots.{cache_of};

    ghost Value = { CacheState };

    ghost view = { λ a. cache_of a.frames };
}

/// Sees to it that the block which gives way next is at home: else its groups are made to last, and it goes home with
/// up to seven others. With a frame free or none dirty it leaves the log alone.
fn make_room<D: Disk>(
    frames: &mut Frames,
    disk: &mut D,
    layout: &Layout,
    log: &mut Log,
    twin: &mut Twin,
) -> Result<(), Failed>
    requires log { log.old.layout ≡ layout.now }
    requires head { log.old.head.slot < layout.now.log }
    requires twin { twin.old.layout ≡ layout.now }
    requires batch { twin.old.batch ≡ [] }
    requires within { AreBelow (block_count layout.now) (held_in frames.old) }
    requires calm { D.tells → IsCalm (D.image disk.old) layout.now (D.content disk.old) }
    requires clean { D.tells → AreClean layout.now (D.content disk.old) (held_in frames.old) }
    ensures last { OnOk result (IsLastClean (length frames.new.slots) (held_in frames.new)) }
    ensures order { numbers_of (held_in frames.new) ≡ numbers_of (held_in frames.old) }
    ensures seen { D.tells → OnOk result ((k : ℕ) → seen layout.now (D.content disk.new) (held_in frames.new) k
        ≡ seen layout.now (D.content disk.old) (held_in frames.old) k) }
    ensures done { D.tells → OnOk result (IsDone D.Disk layout.now log.old log.new disk.old disk.new
        (SeenAt layout.now (D.content disk.old) (held_in frames.old))) }
    ensures settled { D.tells → OnOk result (Settled D.Disk layout.now log.old log.new (held_in frames.new) disk.old
        disk.new) }
    ensures any_moment { D.tells → Leaving D.Disk layout.now log.old disk.old disk.new
        (SeenAt layout.now (D.content disk.old) (held_in frames.old)) }
    ensures log { StaysOrFlushes log.old log.new }
    ensures room { length (held_in frames.old) < length frames.old.slots → log.new ≡ log.old }
    ensures quiet { NoneDirty (held_in frames.old) → log.new ≡ log.old }
    ensures twin { twin.new.layout ≡ twin.old.layout }
    ensures batch { OnOk result (twin.new.batch ≡ []) }
    ensures count { length frames.new.slots ≡ length frames.old.slots }
    ensures memory { IsCacheMemory (cache_of frames.new) }
    ensures counted { IsCounted (D.faults disk.old) (D.faults disk.new) result }
{
    if !frames.last_is_dirty() {
        return Ok(());
    }
    // For the proof: the contract tells that the log has a place behind all its groups.
    let _ = log.used();
    log.flush(disk)?;
    frames.gather_old(twin);
    twin.write(disk)
}

impl Cache {
    /// A cache of so many frames, 16 to 4,096, that holds no block. It takes all the memory that it needs, 2,056 bytes
    /// for each frame and 132 kB, or NoMemory where there isn't as much.
    pub fn new(alloc: Global, frames: u32) -> Result<Cache, NoMemory>
        requires some { 16 ≤ frames }
        requires few { frames ≤ 4096 }
        ensures { IfOk result (λ cache. cache ≡ record { frames = frames; held = [] }) }
    {
        Ok(Cache {
            frames: Frames::new(alloc, frames as u16)?,
        })
    }

    /// Brings a block into a frame, so that `front` gives it. A crash meanwhile leaves each block as it was at home or,
    /// all groups that waited being in the log, as it was seen. The log is flushed at most where the block isn't held,
    /// all frames hold one, and some of them are dirty.
    pub fn get<D: Disk>(
        &mut self,
        disk: &mut D,
        layout: &Layout,
        log: &mut Log,
        twin: &mut Twin,
        no: BlockNo,
    ) -> Result<(), Failed>
        requires there { no < block_count layout.now }
        requires log { log.old.layout ≡ layout.now }
        requires head { log.old.head.slot < layout.now.log }
        requires twin { twin.old.layout ≡ layout.now }
        requires batch { twin.old.batch ≡ [] }
        requires within { AreBelow (block_count layout.now) self.old.held }
        requires calm { D.tells → IsCalm (D.image disk.old) layout.now (D.content disk.old) }
        requires clean { D.tells → AreClean layout.now (D.content disk.old) self.old.held }
        ensures order { OnOk result (numbers_of self.new.held
            ≡ brought self.old.frames no (numbers_of self.old.held)) }
        ensures seen { D.tells → OnOk result ((k : ℕ) → seen layout.now (D.content disk.new) self.new.held k
            ≡ seen layout.now (D.content disk.old) self.old.held k) }
        ensures done { D.tells → OnOk result (IsDone D.Disk layout.now log.old log.new disk.old disk.new
            (SeenAt layout.now (D.content disk.old) self.old.held)) }
        ensures settled { D.tells → OnOk result (Settled D.Disk layout.now log.old log.new self.new.held disk.old
            disk.new) }
        ensures any_moment { D.tells → Leaving D.Disk layout.now log.old disk.old disk.new
            (SeenAt layout.now (D.content disk.old) self.old.held) }
        ensures log { StaysOrFlushes log.old log.new }
        ensures room { length self.old.held < self.old.frames → log.new ≡ log.old }
        ensures quiet { NoneDirty self.old.held → log.new ≡ log.old }
        ensures held { has_number no (numbers_of self.old.held) ≡ true → log.new ≡ log.old }
        ensures twin { twin.new.layout ≡ twin.old.layout }
        ensures batch { OnOk result (twin.new.batch ≡ []) }
        ensures within { AreBelow (block_count layout.now) self.new.held }
        ensures frames { self.new.frames ≡ self.old.frames }
        ensures memory { IsCacheMemory self.new }
        ensures counted { IsCounted (D.faults disk.old) (D.faults disk.new) result }
    {
        if self.frames.touch(no) {
            return Ok(());
        }
        make_room(&mut self.frames, disk, layout, log, twin)?;
        self.frames.bring(disk, layout, no)
    }

    /// The block that was used last.
    pub fn front(&self) -> &[u8]
        requires some { self.now.held ≢ [] }
        ensures length { length result.now ≡ UNIT }
        ensures bytes { (f : Frame) (rest : List Frame) → self.now.held ≡ f ∷ rest → result.now ≡ f.bytes }
    {
        self.frames.front()
    }

    /// Brings a block into a frame, and patches it by the group of this log number where its own number is below. The
    /// block is dirty then. The group need not be in the log yet, but a flush of the log has to write it. The log is
    /// flushed at most where `get` says.
    pub fn patch<D: Disk>(
        &mut self,
        disk: &mut D,
        layout: &Layout,
        log: &mut Log,
        twin: &mut Twin,
        no: BlockNo,
        group: &Group,
        number: Lsn,
    ) -> Result<(), Failed>
        requires there { no < block_count layout.now }
        requires log { log.old.layout ≡ layout.now }
        requires head { log.old.head.slot < layout.now.log }
        requires twin { twin.old.layout ≡ layout.now }
        requires batch { twin.old.batch ≡ [] }
        requires within { AreBelow (block_count layout.now) self.old.held }
        requires calm { D.tells → IsCalm (D.image disk.old) layout.now (D.content disk.old) }
        requires clean { D.tells → AreClean layout.now (D.content disk.old) self.old.held }
        ensures order { OnOk result (numbers_of self.new.held
            ≡ brought self.old.frames no (numbers_of self.old.held)) }
        ensures own { D.tells → OnOk result (seen layout.now (D.content disk.new) self.new.held no
            ≡ step number group.now no (seen layout.now (D.content disk.old) self.old.held no)) }
        ensures others { D.tells → OnOk result ((k : ℕ) → k ≢ no
            → seen layout.now (D.content disk.new) self.new.held k
            ≡ seen layout.now (D.content disk.old) self.old.held k) }
        ensures done { D.tells → OnOk result (IsDone D.Disk layout.now log.old log.new disk.old disk.new
            (SeenAt layout.now (D.content disk.old) self.old.held)) }
        ensures settled { D.tells → OnOk result (Settled D.Disk layout.now log.old log.new self.new.held disk.old
            disk.new) }
        ensures any_moment { D.tells → Leaving D.Disk layout.now log.old disk.old disk.new
            (SeenAt layout.now (D.content disk.old) self.old.held) }
        ensures log { StaysOrFlushes log.old log.new }
        ensures room { length self.old.held < self.old.frames → log.new ≡ log.old }
        ensures quiet { NoneDirty self.old.held → log.new ≡ log.old }
        ensures held { has_number no (numbers_of self.old.held) ≡ true → log.new ≡ log.old }
        ensures twin { twin.new.layout ≡ twin.old.layout }
        ensures batch { OnOk result (twin.new.batch ≡ []) }
        ensures within { AreBelow (block_count layout.now) self.new.held }
        ensures frames { self.new.frames ≡ self.old.frames }
        ensures memory { IsCacheMemory self.new }
        ensures counted { IsCounted (D.faults disk.old) (D.faults disk.new) result }
    {
        self.get(disk, layout, log, twin, no)?;
        self.frames.patch_front(group, number);
        Ok(())
    }

    /// Makes the groups that wait last, and brings each dirty block home.
    pub fn clean_all<D: Disk>(
        &mut self,
        disk: &mut D,
        layout: &Layout,
        log: &mut Log,
        twin: &mut Twin,
    ) -> Result<(), Failed>
        requires log { log.old.layout ≡ layout.now }
        requires head { log.old.head.slot < layout.now.log }
        requires twin { twin.old.layout ≡ layout.now }
        requires batch { twin.old.batch ≡ [] }
        requires within { AreBelow (block_count layout.now) self.old.held }
        requires calm { D.tells → IsCalm (D.image disk.old) layout.now (D.content disk.old) }
        requires clean { D.tells → AreClean layout.now (D.content disk.old) self.old.held }
        ensures all_clean { OnOk result (NoneDirty self.new.held) }
        ensures flushed { OnOk result (log.new ≡ flushed log.old) }
        ensures order { numbers_of self.new.held ≡ numbers_of self.old.held }
        ensures seen { D.tells → OnOk result ((k : ℕ) → seen layout.now (D.content disk.new) self.new.held k
            ≡ seen layout.now (D.content disk.old) self.old.held k) }
        ensures done { D.tells → OnOk result (IsDone D.Disk layout.now log.old log.new disk.old disk.new
            (SeenAt layout.now (D.content disk.old) self.old.held)) }
        ensures settled { D.tells → OnOk result (Settled D.Disk layout.now log.old log.new self.new.held disk.old
            disk.new) }
        ensures any_moment { D.tells → Leaving D.Disk layout.now log.old disk.old disk.new
            (SeenAt layout.now (D.content disk.old) self.old.held) }
        ensures log { StaysOrFlushes log.old log.new }
        ensures twin { twin.new.layout ≡ twin.old.layout }
        ensures batch { OnOk result (twin.new.batch ≡ []) }
        ensures within { AreBelow (block_count layout.now) self.new.held }
        ensures frames { self.new.frames ≡ self.old.frames }
        ensures memory { IsCacheMemory self.new }
        ensures counted { IsCounted (D.faults disk.old) (D.faults disk.new) result }
    {
        // For the proof: the count's contract tells what always holds of frames.
        let _ = self.frames.count();
        // And the log's that there is a place behind all its groups.
        let _ = log.used();
        log.flush(disk)?;
        let mut next = 0;
        while let Some(dirty) = self.frames.dirty_from(next) {
            next = self.frames.gather_from(dirty, twin);
            twin.write(disk)?;
        }
        Ok(())
    }
}
