//! What a group holds, as one answer: the tests of those who add patches to a group compare it with a list.
use rb_base::{BlockNo, Group};

/// Whether the group's patch at a place has this block, this first byte there and these bytes.
fn is_patch(group: &Group, i: u32, block: BlockNo, at: usize, bytes: &[u8]) -> bool {
    i < group.patches()
        && group.patch_block(i) == block
        && group.patch_at(i) as usize == at
        && group.patch_bytes(i) == bytes
}

/// Whether the patches of a group are exactly these, in this order: the block, the first byte there and the bytes.
pub(crate) fn are_patches(group: &Group, patches: &[(BlockNo, usize, &[u8])]) -> bool {
    let mut count: u32 = 0;
    for (block, at, bytes) in patches {
        if !is_patch(group, count, *block, *at, bytes) {
            return false;
        }
        count = count.wrapping_add(1);
    }
    count == group.patches()
}
