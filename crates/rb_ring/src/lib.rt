//! The eight extents of a segment and their turns: those that are in the ring have consecutive numbers, of which the
//! head's is the greatest. They are read from the header's bytes; here are the places and the bytes of what the header
//! says of them, which rb_segment puts into a header; and here it is found which extent takes the next turn.
#![tactic(auto)]

mod bytes;
mod extents;
mod laws;
mod turns;

pub use bytes::{extent_bytes, head_bytes, number_bytes};
pub use extents::{
    EXTENT_BLOCKS, EXTENT_RECORDS, EXTENTS, Extent, HEAD_AT, LOST_AT, WRITES_AT, extent_at,
    extent_newest, extent_ord, extent_place, head_extent, head_records, lost, writes,
};
pub use laws::{ring_apart, ring_sizes};
pub use turns::{Turn, next};
