//! The number of a commit goes to the extents that hold its records. A commit calls it.
ghost use Rattle.std.specs.Prelude.{◌≡◌, ◌+◌, ◌*◌, ◌<◌, ◌≤◌, ◌++◌, length};
ghost use Rattle.std.specs.List.{flat_map, range_with_len};
ghost use Rattle.rb_base.specs.Blocks.{written_to};
ghost use Rattle.rb_base.specs.Groups.{group_length};
ghost use Rattle.rb_segment.specs.Calls.{stamp_patch};
ghost use Rattle.rb_segment.specs.Header.{has_bit, header_of};
ghost use Rattle.rb_segment.specs.Moves.{stamped};

use crate::copy::set_extent;
use rb_base::{BlockNo, GROUP_BYTES, GROUP_PATCHES, Group, Scn, UNIT};
use rb_ring::{EXTENTS, Extent, extent_at};

/// Whether bit `e`, 0 to 7, is set.
fn has_bit(bits: u8, e: u8) -> bool
    requires { e < EXTENTS }
    ensures { result ≡ has_bit bits e }
{
    bits >> e & 1 == 1
}

/// Each extent that `bits` names has the newest commit number `scn`.
pub fn stamp(header: &mut [u8], block: BlockNo, group: &mut Group, bits: u8, scn: Scn)
    requires header { length header.old ≡ UNIT }
    requires count { length group.old + EXTENTS ≤ GROUP_PATCHES }
    requires room { group_length group.old + EXTENTS * (8 + 16) ≤ GROUP_BYTES }
    ensures patches { group.new
        ≡ group.old ++ flat_map (stamp_patch block bits (header_of header.new)) (range_with_len 0 EXTENTS) }
    ensures copy { header.new ≡ written_to block
        (flat_map (stamp_patch block bits (header_of header.new)) (range_with_len 0 EXTENTS)) header.old }
    ensures length { length header.new ≡ UNIT }
    ensures means { header_of header.new ≡ record (header_of header.old) {
      extents = stamped scn bits 0 (header_of header.old).extents;
    } }
{
    for e in 0..EXTENTS as u8 {
        if has_bit(bits, e) {
            let extent = Extent {
                newest: scn,
                ..extent_at(header, e)
            };
            set_extent(header, block, group, e, &extent);
        }
    }
}
