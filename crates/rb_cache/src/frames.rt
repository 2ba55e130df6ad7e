//! `Frames`: the blocks that a cache holds, and in which order they were used. `Cache` asks it which block gives way.
ghost use Rattle.std.specs.Prelude.{◌≡◌, ◌≢◌, ◌-◌, ◌<◌, ◌≤◌, ◌∷◌, [], ℕ};
ghost use Rattle.std.specs.Prelude.{List, true, false, length, IfOk, IfSome, IfNone};
ghost use Rattle.std.specs.Prelude.{OnOk, OnErr, slice_index_or};
ghost use Rattle.std.specs.Map.{keys_of};
ghost use Rattle.rb_base.specs.Counts.{IsCounted};
ghost use Rattle.rb_disk.specs.Moments.{Rests};
ghost use Rattle.rb_layout.specs.Regions.{block_count, file_length};
ghost use Rattle.rb_twin.specs.Twins.{home};
ghost use Rattle.rb_cache.specs.Frames.{AreBelow, Gathered, IsBrought, IsCacheMemory, IsLastClean, NoneDirty};
ghost use Rattle.rb_cache.specs.Frames.{frame_in, has_number, numbers_of, others_of, room_made};
ghost use Rattle.rb_cache.specs.Slots.{AreCleanFrom, GatheredSoFar, IsGathering, IsPatched, cache_of, frame_at};
ghost use Rattle.rb_cache.specs.Slots.{held_in, last_of, no_frame};
ghost use Rattle.rb_cache.specs.declared.frame.Frame.{Frame};

use crate::frame::{BLOCKS, Frame, NO_BLOCK};
use crate::order::{all_numbers, empty_frames};
use lru::LruCache;
use rb_base::{BlockNo, Failed, Group, Lsn, NoMemory, UNIT};
use rb_disk::Disk;
use rb_fill::zero_numbers;
use rb_layout::Layout;
use rb_twin::{TWIN_IMAGES, Twin};
use std::alloc::Global;
use std::marker::Model;

/// How many frames from the old end an eviction looks at for dirty ones that go home with its victim.
const LOOKS: usize = 64;

/// A number of frames, some of which hold a block each.
#[derive(Drop)]
pub struct Frames {
    slots: Vec<Frame>,
    // The numbers of the frames, the most recently used first. Its keys are always the same, so that no use of a
    // block takes memory. Frames that hold no block stand behind all others.
    order: LruCache<u16, ()>,
    // For each block number the frame that holds the block, if one does.
    places: Vec<u16>,
}

impl Model for Frames {
    ghost use Rattle.std.specs.Map.{keys_of};
    ghost use Rattle.rb_cache.specs.Slots.{AreFrames, FramesState};

    ghost Value = { FramesState };

    ghost view = { λ a. record { slots = a.slots.items; order = keys_of a.order.entries } };

    ghost invariant = { λ a. AreFrames a.slots.items (keys_of a.order.entries) a.places.items };
}

/// Puts dirty frames from the old end on into a batch, up to eight. They count as clean from here on.
fn gather_more(slots: &mut [Frame], order: &LruCache<u16, ()>, twin: &mut Twin)
    requires begun { IsGathering slots.old (keys_of order.now.entries) twin.old }
    ensures gathered { (before : List Frame) (places : List ℕ)
        → GatheredSoFar before slots.old (keys_of order.now.entries) places twin.old.batch
        → GatheredSoFar before slots.new (keys_of order.now.entries) places twin.new.batch }
    ensures cleaner { (k : ℕ) → (frame_at slots.old k).dirty ≡ false → (frame_at slots.new k).dirty ≡ false }
    ensures more { length twin.old.batch ≤ length twin.new.batch }
    ensures layout { twin.new.layout ≡ twin.old.layout }
    ensures count { length slots.new ≡ length slots.old }
{
    for (&frame, _) in order.iter().rev().take(LOOKS) {
        if twin.len() == TWIN_IMAGES {
            break;
        }
        slots[usize::from(frame)].put_home(twin);
    }
}

impl Frames {
    /// So many frames, at least one and at most 4,096, that hold nothing.
    pub fn new(alloc: Global, count: u16) -> Result<Frames, NoMemory>
        requires some { 1 ≤ count }
        requires few { count ≤ 4096 }
        ensures { IfOk result (λ frames. cache_of frames ≡ record { frames = count; held = [] }) }
    {
        let slots = empty_frames(alloc, count)?;
        let order = all_numbers(alloc, count)?;
        let places = zero_numbers(alloc, BLOCKS)?;
        Ok(Frames {
            slots,
            order,
            places,
        })
    }

    /// How many frames there are.
    pub fn count(&self) -> usize
        ensures count { result ≡ length self.now.slots }
        ensures some { 1 ≤ result }
        ensures memory { IsCacheMemory (cache_of self.now) }
    {
        self.slots.len()
    }

    /// Whether a frame holds that block, which goes to the front then.
    pub fn touch(&mut self, no: BlockNo) -> bool
        requires there { no < BLOCKS }
        ensures held { result ≡ has_number no (numbers_of (held_in self.old)) }
        ensures moved { result ≡ true → held_in self.new
            ≡ frame_in no no_frame (held_in self.old) ∷ others_of no (held_in self.old) }
        ensures stays { result ≡ false → self.new ≡ self.old }
        ensures slots { self.new.slots ≡ self.old.slots }
        ensures memory { IsCacheMemory (cache_of self.new) }
    {
        let frame = self.places[no as usize];
        if self.slots[usize::from(frame)].block != no {
            return false;
        }
        if self.front_number() != frame {
            self.order.promote(&frame);
        }
        true
    }

    /// The frame that was used last.
    fn front_number(&self) -> u16
        ensures { result ≡ slice_index_or self.now.order 0 0 }
    {
        let Some((&frame, _)) = self.order.peek_mru() else {
            unreachable!()
        };
        frame
    }

    /// The frame that was used longest ago.
    fn last_number(&self) -> u16
        ensures { result ≡ slice_index_or self.now.order (length self.now.order - 1) 0 }
    {
        let Some((&frame, _)) = self.order.peek_lru() else {
            unreachable!()
        };
        frame
    }

    /// The block that was used last.
    pub fn front(&self) -> &[u8]
        requires some { held_in self.now ≢ [] }
        ensures length { length result.now ≡ UNIT }
        ensures bytes { (f : Frame) (rest : List Frame) → held_in self.now ≡ f ∷ rest → result.now ≡ f.bytes }
    {
        &self.slots[usize::from(self.front_number())].bytes
    }

    /// Patches that block by the group of this log number, where its own number is below.
    pub fn patch_front(&mut self, group: &Group, number: Lsn)
        requires some { held_in self.old ≢ [] }
        ensures patched { (f : Frame) (rest : List Frame) → held_in self.old ≡ f ∷ rest
            → IsPatched number group.now f rest (held_in self.new) }
        ensures count { length self.new.slots ≡ length self.old.slots }
        ensures memory { IsCacheMemory (cache_of self.new) }
    {
        let front = self.front_number();
        self.slots[usize::from(front)].patch(group, number);
    }

    /// Whether the block that gives way next has to go home first.
    pub fn last_is_dirty(&self) -> bool
        ensures dirty { result ≡ (last_of self.now).dirty }
        ensures clean { result ≡ false → IsLastClean (length self.now.slots) (held_in self.now) }
        ensures full { result ≡ true → length (held_in self.now) ≡ length self.now.slots }
        ensures some { result ≡ true → ¬ NoneDirty (held_in self.now) }
        ensures memory { IsCacheMemory (cache_of self.now) }
    {
        self.slots[usize::from(self.last_number())].dirty
    }

    /// Puts the block that gives way next into an empty batch, and up to seven other dirty ones from the old end on.
    /// They count as clean from here on.
    pub fn gather_old(&mut self, twin: &mut Twin)
        requires dirty { (last_of self.old).dirty ≡ true }
        requires empty { twin.old.batch ≡ [] }
        requires within { AreBelow (block_count twin.old.layout) (held_in self.old) }
        ensures gathered { Gathered (held_in self.old) (held_in self.new) twin.new.batch }
        ensures some { 0 < length twin.new.batch }
        ensures clean { IsLastClean (length self.new.slots) (held_in self.new) }
        ensures layout { twin.new.layout ≡ twin.old.layout }
        ensures count { length self.new.slots ≡ length self.old.slots }
        ensures memory { IsCacheMemory (cache_of self.new) }
    {
        let last = self.last_number();
        self.slots[usize::from(last)].put_home(twin);
        gather_more(self.slots.as_mut_slice(), &self.order, twin);
    }

    /// The first dirty frame from a number on.
    pub fn dirty_from(&self, from: usize) -> Option<usize>
        ensures found { IfSome result (λ k. (frame_at self.now.slots k).dirty ≡ true) }
        ensures after { IfSome result (λ k. from ≤ k) }
        ensures below { IfSome result (λ k. k < length self.now.slots) }
        ensures clean { IfSome result (λ k. AreCleanFrom from k self.now.slots) }
        ensures none { IfNone result (AreCleanFrom 0 from self.now.slots → NoneDirty (held_in self.now)) }
    {
        for number in from..self.slots.len() {
            if self.slots[number].dirty {
                return Some(number);
            }
        }
        None
    }

    /// Puts the dirty frames from a number on into an empty batch, up to eight. They count as clean from here on.
    /// Answers the number behind the last one that it saw.
    pub fn gather_from(&mut self, from: usize, twin: &mut Twin) -> usize
        requires from { from < length self.old.slots }
        requires empty { twin.old.batch ≡ [] }
        requires within { AreBelow (block_count twin.old.layout) (held_in self.old) }
        ensures on { from < result }
        ensures end { result ≤ length self.new.slots }
        ensures gathered { Gathered (held_in self.old) (held_in self.new) twin.new.batch }
        ensures clean { AreCleanFrom 0 from self.old.slots → AreCleanFrom 0 result self.new.slots }
        ensures some { (frame_at self.old.slots from).dirty ≡ true → 0 < length twin.new.batch }
        ensures layout { twin.new.layout ≡ twin.old.layout }
        ensures count { length self.new.slots ≡ length self.old.slots }
        ensures memory { IsCacheMemory (cache_of self.new) }
    {
        let mut next = from;
        while next < self.slots.len() && twin.len() < TWIN_IMAGES {
            self.slots[next].put_home(twin);
            next += 1;
        }
        next
    }

    /// Reads a block that no frame holds from its home. The one that was used longest ago gives way, where no frame is
    /// free.
    pub fn bring<D: Disk>(
        &mut self,
        disk: &mut D,
        layout: &Layout,
        no: BlockNo,
    ) -> Result<(), Failed>
        requires there { no < block_count layout.now }
        requires absent { has_number no (numbers_of (held_in self.old)) ≡ false }
        requires whole { D.tells → length (D.content disk.old) ≡ file_length layout.now }
        ensures brought { OnOk result (IsBrought D.tells no (home layout.now (D.content disk.old) no)
            (room_made (length self.old.slots) (held_in self.old)) (held_in self.new)) }
        ensures failed { OnErr result (held_in self.new ≡ room_made (length self.old.slots) (held_in self.old)) }
        ensures same { D.tells → Rests D.Disk disk.old disk.new }
        ensures count { length self.new.slots ≡ length self.old.slots }
        ensures memory { IsCacheMemory (cache_of self.new) }
        ensures counted { IsCounted (D.faults disk.old) (D.faults disk.new) result }
    {
        let last = self.last_number();
        let slot = &mut self.slots[usize::from(last)];
        slot.block = NO_BLOCK;
        slot.dirty = false;
        disk.read_at(layout.block_at(no), &mut slot.bytes)?;
        slot.block = no;
        self.places[no as usize] = last;
        self.order.promote(&last);
        Ok(())
    }
}
