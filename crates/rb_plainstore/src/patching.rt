//! Patches blocks in memory by a group. `PlainStore::apply` calls it.
ghost use Rattle.std.specs.Prelude.{◌≡◌, ◌+◌, ◌<◌, ◌≤◌, length};
ghost use Rattle.std.specs.List.{AllByRecursion};
ghost use Rattle.rb_base.specs.Blocks.{after_patch, after_group};
ghost use Rattle.rb_base.specs.Groups.{patch, IsGroup};

use rb_base::{Group, Lsn, UNIT, put_u64};

/// Writes bytes over those of a block from its byte `at` on, and the log number in front of it.
fn patch_one(blocks: &mut [[u8; UNIT]], no: usize, at: usize, bytes: &[u8], lsn: Lsn)
    requires block { no < length blocks.old }
    requires within { at + length bytes.now ≤ 2048 }
    ensures { blocks.new ≡ after_patch lsn (patch no at bytes.now) blocks.old }
{
    let block = &mut blocks[no];
    block[at..at + bytes.len()].copy_from_slice(bytes);
    put_u64(block, 0, lsn);
}

/// Patches blocks by each patch of the group, which has this log number.
pub(crate) fn patch(blocks: &mut [[u8; UNIT]], group: &Group, lsn: Lsn)
    requires within { AllByRecursion (λ p. p.block < length blocks.old) group.now }
    ensures patched { blocks.new ≡ after_group lsn group.now blocks.old }
    ensures valid { IsGroup group.now }
{
    let count = group.patches();
    for i in 0..count {
        patch_one(
            blocks,
            group.patch_block(i) as usize,
            group.patch_at(i) as usize,
            group.patch_bytes(i),
            lsn,
        );
    }
}
