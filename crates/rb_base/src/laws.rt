//! What holds of the blocks of every file, as clauses for proofs to cite. Nothing calls them.
ghost use Rattle.std.specs.Prelude.{◌≡◌, ◌≢◌, ◌+◌, ◌*◌, ◌^◌, ◌≤◌, ℕ, List, length};
ghost use Rattle.rb_base.specs.Blocks.{OneBlock};
ghost use Rattle.rb_base.specs.Fields.{overwritten, part, AreApart};

use crate::sizes::{
    ACTIVE, BLOCK_HEAD, FIRST_AT, GROUP_BYTES, GROUP_PATCHES, SEGMENT_BLOCKS, SLOT_BYTES, SLOTS,
    TOUCHED_AT, UNIT, VALUE_BYTES, WORN,
};

/// What a group makes of one block: the patches of it that are of the block, written over it in order, behind its head.
/// So a call that patches a copy of a block knows what the store's block reads as after its group.
pub fn one_block()
    ensures { OneBlock }
{}

/// What was written over bytes is read there, every part apart from it is read as before, and there are as many bytes.
/// In a row of places of one size each is apart from the others.
pub fn parts_written()
    ensures own { (old bytes : List ℕ) (at : ℕ) → at + length bytes ≤ length old
        → part (overwritten old at bytes) at (length bytes) ≡ bytes }
    ensures others { (old bytes : List ℕ) (at from count : ℕ) → at + length bytes ≤ length old
        → AreApart from count at (length bytes)
        → part (overwritten old at bytes) from count ≡ part old from count }
    ensures length { (old bytes : List ℕ) (at : ℕ) → at + length bytes ≤ length old
        → length (overwritten old at bytes) ≡ length old }
    ensures places { (first size i j : ℕ) → j ≢ i → AreApart (first + size * j) size (first + size * i) size }
{}

/// The sizes and limits of the form of a file, as docs/FORMAT.md has them.
pub fn form_sizes()
    ensures unit { UNIT ≡ 2048 }
    ensures block_head { BLOCK_HEAD ≡ 32 }
    ensures segment { SEGMENT_BLOCKS ≡ 33 }
    ensures slots { (SLOTS ≡ 16) × (SLOT_BYTES ≡ 64) }
    ensures slot_parts { (ACTIVE ≡ 1) × (TOUCHED_AT ≡ 1) × (FIRST_AT ≡ 48) }
    ensures patches { GROUP_PATCHES ≡ 40 }
    ensures group { GROUP_BYTES ≡ 2000 }
    ensures value { VALUE_BYTES ≡ 80 }
    ensures worn { WORN ≡ 2 ^ 60 }
{}
