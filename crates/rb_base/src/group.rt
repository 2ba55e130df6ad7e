//! A group of patches: bytes that take the place of others in blocks. rb_write makes one for each write of a row,
//! and rb_sound for each commit; rb_group writes and reads their bytes.
ghost use Rattle.std.specs.Prelude.{IsTrue, ◌≡◌, ◌↔◌, ◌+◌, ◌<◌, ◌≤◌, [], ◌∷◌, ◌++◌};
ghost use Rattle.std.specs.Prelude.{length, true, slice_index_or};
ghost use Rattle.rb_base.specs.Groups.{Patch, patch, patch_length, group_length, IsGroup};

use crate::bytes::array_of;
use crate::ids::BlockNo;
use crate::sizes::{BLOCK_HEAD, GROUP_BYTES, GROUP_PATCHES, UNIT};
use arrayvec::ArrayVec;
use std::marker::Model;

/// The bytes of a group's spelling in front of its patches: how many there are.
const COUNT_BYTES: usize = 2;

/// The bytes of a patch's spelling in front of its own bytes: the block, the offset and the length.
const HEAD_BYTES: usize = 8;

/// A patch without its bytes. These are the `length` bytes from `start` on of those of the whole group.
#[derive(Clone, Copy, Debug, Default)]
struct Head {
    block: BlockNo,
    at: u16,
    start: u16,
    length: u16,
}

/// Up to 40 patches in order, whose spelling has at most 2,000 bytes. It lies in one piece and takes no other memory.
#[derive(Drop)]
pub struct Group {
    heads: ArrayVec<Head, GROUP_PATCHES>,
    bytes: ArrayVec<u8, GROUP_BYTES>,
}

impl Model for Group {
    ghost use Rattle.std.specs.Prelude.{List};
    ghost use Rattle.rb_base.specs.Groups.{Patch};

    ghost Value = { List Patch };

    ghost use Rattle.rb_base.specs.Heads.{patches_of, IsKept};

    ghost view = { λ a. patches_of a.bytes.items a.heads.items };

    ghost invariant = { λ a. IsKept a.bytes.items a.heads.items };
}

// The bytes of no patch, filled apart from the heads. One fill of both is longer than 2,048 bytes, and for such a one
// the C library takes one instruction that fills byte by byte.
#[inline(never)]
fn no_bytes() -> ArrayVec<u8, GROUP_BYTES>
    ensures { result.items ≡ [] }
{
    ArrayVec::new()
}

impl Group {
    /// The group of no patch.
    pub fn new() -> Group
        ensures { result ≡ [] }
    {
        Group {
            heads: ArrayVec::new(),
            bytes: no_bytes(),
        }
    }

    /// Drops all patches. A group is used again so, since a new one is filled with zeros.
    pub fn clear(&mut self)
        ensures { self.new ≡ [] }
    {
        self.heads.clear();
        self.bytes.clear();
    }

    /// The same patches once more.
    pub fn copied(&self) -> Group
        ensures { result ≡ self.now }
    {
        let mut heads = ArrayVec::new();
        if heads.try_extend_from_slice(self.heads.as_slice()).is_err() {
            unreachable!()
        }
        Group {
            heads,
            bytes: array_of(self.bytes.as_slice()),
        }
    }

    /// How many patches there are, 0 to 40.
    pub fn patches(&self) -> u32
        ensures count { result ≡ length self.now }
        ensures valid { IsGroup self.now }
    {
        self.heads.len() as u32
    }

    /// Whether one more patch of `len` bytes has room.
    pub fn fits(&self, len: usize) -> bool
        ensures { IsTrue result ↔ ((length self.now < GROUP_PATCHES)
            × (group_length self.now + (8 + len) ≤ GROUP_BYTES)) }
    {
        let count = self.heads.len();
        let used = COUNT_BYTES + HEAD_BYTES * count + self.bytes.len();
        count < GROUP_PATCHES
            && used + HEAD_BYTES <= GROUP_BYTES
            && len <= GROUP_BYTES - HEAD_BYTES - used
    }

    /// Puts one more patch at the end, which has room (`fits`): these bytes, one at least, go into a block from its
    /// byte `at` on, behind the block's first 32 bytes and within its 2,048.
    pub fn push(&mut self, block: BlockNo, at: u16, bytes: &[u8])
        requires count { length self.old < GROUP_PATCHES }
        requires room { group_length self.old + (8 + length bytes.now) ≤ GROUP_BYTES }
        requires some { 1 ≤ length bytes.now }
        requires behind_head { BLOCK_HEAD ≤ at }
        requires within_block { at + length bytes.now ≤ UNIT }
        ensures { self.new ≡ self.old ++ patch block at bytes.now ∷ [] }
    {
        let head = Head {
            block,
            at,
            start: self.bytes.len() as u16,
            length: bytes.len() as u16,
        };
        if self.bytes.try_extend_from_slice(bytes).is_err() {
            unreachable!()
        }
        self.heads.push(head);
    }

    /// The block of the patch at place `i`, from 0 on.
    pub fn patch_block(&self, i: u32) -> BlockNo
        requires { i < length self.now }
        ensures { (d : Patch) → result ≡ (slice_index_or self.now i d).block }
    {
        self.heads[i as usize].block
    }

    /// The first byte of its block that the patch at place `i` writes, 32 to 2,047.
    pub fn patch_at(&self, i: u32) -> u16
        requires { i < length self.now }
        ensures { (d : Patch) → result ≡ (slice_index_or self.now i d).at }
    {
        self.heads[i as usize].at
    }

    /// The bytes that the patch at place `i` writes, one at least.
    pub fn patch_bytes(&self, i: u32) -> &[u8]
        requires { i < length self.now }
        ensures { (d : Patch) → result.now ≡ (slice_index_or self.now i d).bytes }
    {
        let head = self.heads[i as usize];
        let start = head.start as usize;
        &self.bytes[start..start + head.length as usize]
    }
}
