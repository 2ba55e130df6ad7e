//! `Frame`: one block in memory, and what a group makes of it. `Frames` has as many as its cache was made with.
ghost use Rattle.std.specs.Prelude.{◌≡◌, ◌+◌, ◌++◌, ◌∷◌, [], ◌<◌, ◌≤◌, true};
ghost use Rattle.std.specs.Prelude.{false, length, slice_index_or};
ghost use Rattle.rb_base.specs.Fields.{overwritten};
ghost use Rattle.rb_base.specs.Groups.{IsGroup, Patch};
ghost use Rattle.rb_layout.specs.Regions.{block_count};
ghost use Rattle.rb_base.specs.Blocks.{written_to};
ghost use Rattle.law_redo.specs.Rolled.{has_block, step};
ghost use Rattle.rb_twin.specs.Batches.{IsNoneOf};
ghost use Rattle.rb_twin.specs.declared.batch.TheConstants.{TWIN_IMAGES};

use rb_base::{BlockNo, Group, Lsn, UNIT, put_u64, u64_at};
use rb_twin::Twin;

/// The block number of a frame that holds none.
pub const NO_BLOCK: BlockNo = BlockNo::MAX;

/// The most blocks that a file has: 16 tables of 4,096, and 16 segments of 33.
pub const BLOCKS: usize = 66_064;

/// A block in memory.
#[derive(Drop)]
pub struct Frame {
    /// Whether what stands at home may be older.
    pub dirty: bool,
    /// Its number.
    pub block: BlockNo,
    /// What it is.
    pub bytes: [u8; UNIT],
}

/// Writes bytes over those from a place on.
fn overwrite(bytes: &mut [u8], at: usize, patch: &[u8])
    requires within { at + length patch.now ≤ length bytes.old }
    ensures { bytes.new ≡ overwritten bytes.old at patch.now }
{
    bytes[at..at + patch.len()].copy_from_slice(patch);
}

/// Writes the patch at a place of a group over a block, where it is of it. Answers whether it is.
fn write_patch(bytes: &mut [u8], no: BlockNo, group: &Group, place: u32) -> bool
    requires unit { length bytes.old ≡ UNIT }
    requires place { place < length group.now }
    requires valid { IsGroup group.now }
    ensures written { (d : Patch) → bytes.new ≡ written_to no (slice_index_or group.now place d ∷ []) bytes.old }
    ensures own { (d : Patch) → result ≡ has_block no (slice_index_or group.now place d ∷ []) }
    ensures unit { length bytes.new ≡ UNIT }
{
    if group.patch_block(place) != no {
        return false;
    }
    let at = usize::from(group.patch_at(place));
    overwrite(bytes, at, group.patch_bytes(place));
    true
}

/// Writes those patches of a group over a block that are of it. Answers whether there is one.
fn write_patches(bytes: &mut [u8], no: BlockNo, group: &Group) -> bool
    requires unit { length bytes.old ≡ UNIT }
    ensures written { bytes.new ≡ written_to no group.now bytes.old }
    ensures any { result ≡ has_block no group.now }
    ensures unit { length bytes.new ≡ UNIT }
{
    let mut any = false;
    for place in 0..group.patches() {
        any = write_patch(bytes, no, group, place) || any;
    }
    any
}

impl Frame {
    /// Patches the block by the group of that log number, where its own number is below. It is dirty then.
    pub fn patch(&mut self, group: &Group, number: Lsn)
        ensures block { self.new.block ≡ self.old.block }
        ensures bytes { self.new.bytes ≡ step number group.now self.old.block self.old.bytes }
        ensures clean { self.new.dirty ≡ false → self.new ≡ self.old }
        ensures unit { length self.new.bytes ≡ UNIT }
    {
        if u64_at(&self.bytes, 0) >= number {
            return;
        }
        if write_patches(&mut self.bytes, self.block, group) {
            put_u64(&mut self.bytes, 0, number);
            self.dirty = true;
        }
    }

    /// Puts the block into a batch that goes home next, where it is dirty. It counts as clean from here on.
    pub fn put_home(&mut self, twin: &mut Twin)
        requires room { length twin.old.batch < TWIN_IMAGES }
        requires differs { self.old.dirty ≡ true → IsNoneOf self.old.block twin.old.batch }
        requires within { self.old.dirty ≡ true → self.old.block < block_count twin.old.layout }
        ensures clean { self.new ≡ record self.old { dirty = false } }
        ensures stays { self.old.dirty ≡ false → twin.new ≡ twin.old }
        ensures put { self.old.dirty ≡ true → twin.new ≡ record twin.old
            { batch = twin.old.batch ++ record { no = self.old.block; unit = self.old.bytes } ∷ [] } }
        ensures layout { twin.new.layout ≡ twin.old.layout }
    {
        if self.dirty {
            twin.put(self.block, &self.bytes);
            self.dirty = false;
        }
    }
}
