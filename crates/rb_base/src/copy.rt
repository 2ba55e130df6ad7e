//! A copy of a block, and a change of it: of the copy, and the same as a patch of a group. Whatever changes a block by
//! a group calls it.
ghost use Rattle.std.specs.Prelude.{◌≡◌, ◌+◌, ◌<◌, ◌≤◌, [], ◌∷◌, ◌++◌};
ghost use Rattle.std.specs.Prelude.{length, false, not, OnErr, OnOk};
ghost use Rattle.std.specs.Result.{is_err};
ghost use Rattle.rb_base.specs.Blocks.{block_of, shape_blocks, AreBlocks};
ghost use Rattle.rb_base.specs.Fields.{overwritten};
ghost use Rattle.rb_base.specs.Groups.{patch, group_length};
ghost use Rattle.rb_base.specs.Logs.{Logs};

use crate::faults::Failed;
use crate::group::Group;
use crate::ids::BlockNo;
use crate::sizes::{BLOCK_HEAD, GROUP_BYTES, GROUP_PATCHES, UNIT};
use crate::store::Store;

/// Loads block `no` of the store, and copies it. Where the load fails the copy stays as it was.
pub fn copy_block<S: Store>(store: &mut S, no: BlockNo, copy: &mut [u8]) -> Result<(), Failed>
    requires going { S.failed store.old ≡ false }
    requires there { no < shape_blocks (S.shape_of store.old) }
    requires unit { length copy.old ≡ UNIT }
    ensures logs { Logs S.Store store.old store.new [] (not (is_err result)) }
    ensures length { length copy.new ≡ UNIT }
    ensures copy { S.tells → OnOk result (copy.new ≡ block_of (S.blocks store.old) no) }
    ensures same { OnErr result (copy.new ≡ copy.old) }
    ensures whole { S.tells → OnOk result (AreBlocks (S.shape_of store.old) (S.blocks store.old)) }
{
    store.load(no)?;
    copy.copy_from_slice(store.block());
    Ok(())
}

/// Writes these bytes, one at least, over those from `at` on of a copy of block `no`, and puts the same as one patch at
/// the end of the group, which has room. They stand behind the block's first 32 bytes and within its 2,048.
pub fn set(copy: &mut [u8], no: BlockNo, group: &mut Group, at: usize, bytes: &[u8])
    requires copy { length copy.old ≡ UNIT }
    requires count { length group.old < GROUP_PATCHES }
    requires room { group_length group.old + (8 + length bytes.now) ≤ GROUP_BYTES }
    requires some { 1 ≤ length bytes.now }
    requires behind_head { BLOCK_HEAD ≤ at }
    requires within_block { at + length bytes.now ≤ UNIT }
    ensures patch { group.new ≡ group.old ++ patch no at bytes.now ∷ [] }
    ensures copy { copy.new ≡ overwritten copy.old at bytes.now }
    ensures length { length copy.new ≡ UNIT }
{
    copy[at..at + bytes.len()].copy_from_slice(bytes);
    group.push(no, at as u16, bytes);
}
