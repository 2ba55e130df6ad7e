//! Writes the bytes of a group. The log calls it.
ghost use Rattle.std.specs.Prelude.{◌≡◌, ◌+◌, ◌^◌, ◌<◌, ◌≤◌, ◌++◌, length, take, drop};
ghost use Rattle.rb_base.specs.Groups.{patch, group_length};
ghost use Rattle.rb_group.specs.Spelling.{patch_bytes, group_bytes};

use rb_base::{BlockNo, GROUP_BYTES, Group, put_u16, put_u32};

/// Writes one patch from `place` on, and nothing else. The answer is the place behind it.
fn put_patch(into: &mut [u8], place: usize, block: BlockNo, at: u16, bytes: &[u8]) -> usize
    requires short { length bytes.now < 2 ^ 16 }
    requires room { place + (8 + length bytes.now) ≤ length into.old }
    ensures place { result ≡ place + (8 + length bytes.now) }
    ensures into { into.new ≡ take place into.old ++ patch_bytes (patch block at bytes.now) ++ drop result into.old }
{
    let end = place + 8 + bytes.len();
    put_u32(into, place, block);
    put_u16(into, place + 4, at);
    put_u16(into, place + 6, bytes.len() as u16);
    into[place + 8..end].copy_from_slice(bytes);
    end
}

/// Writes the group's spelling to the front of `into`, which has 2,000 bytes or more, and nothing behind it. The answer
/// is how many bytes it has. The group has a patch.
pub fn encode(group: &Group, into: &mut [u8]) -> usize
    requires some { 0 < length group.now }
    requires room { GROUP_BYTES ≤ length into.old }
    ensures length { result ≡ group_length group.now }
    ensures into { into.new ≡ group_bytes group.now ++ drop result into.old }
{
    let count = group.patches();
    put_u16(into, 0, count as u16);
    let mut place = 2;
    for i in 0..count {
        place = put_patch(
            into,
            place,
            group.patch_block(i),
            group.patch_at(i),
            group.patch_bytes(i),
        );
    }
    place
}
