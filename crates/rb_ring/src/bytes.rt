//! The bytes of what a segment's header says of its extents. What moves a segment puts them to their place in a header.
ghost use Rattle.std.specs.Prelude.{◌≡◌};
ghost use Rattle.byteorder.specs.Endian.{big_bytes};
ghost use Rattle.rb_ring.specs.Ring.{extent_bytes, head_bytes, IsExtent};

use crate::extents::Extent;
use rb_base::{put_u16, put_u64};

/// The bytes of an extent that have a meaning, the first 16 of its 32.
pub fn extent_bytes(extent: Extent) -> [u8; 16]
    ensures bytes { result ≡ extent_bytes extent }
    ensures in_range { IsExtent extent }
{
    let mut bytes = [0; 16];
    put_u64(&mut bytes, 0, extent.ord);
    put_u64(&mut bytes, 8, extent.newest);
    bytes
}

/// The bytes that say which extent is the head, and how many records it has.
pub fn head_bytes(head: u16, records: u16) -> [u8; 4]
    ensures { result ≡ head_bytes head records }
{
    let mut bytes = [0; 4];
    put_u16(&mut bytes, 0, head);
    put_u16(&mut bytes, 2, records);
    bytes
}

/// The bytes that say how many records were made, and so those of the greatest commit number that was lost.
pub fn number_bytes(number: u64) -> [u8; 8]
    ensures { result ≡ big_bytes 8 number }
{
    let mut bytes = [0; 8];
    put_u64(&mut bytes, 0, number);
    bytes
}
