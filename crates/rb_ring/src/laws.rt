//! What holds of the extents of every header, as clauses for readers to cite. Nothing calls it.
ghost use Rattle.std.specs.Prelude.{◌≡◌};
ghost use Rattle.rb_ring.specs.Written.{ExtentWritten, HeadWritten, RecordCountWritten, LostWritten};
ghost use Rattle.rb_ring.specs.Written.{ExtentApart, HeadApart, RecordCountApart, LostApart};

use crate::extents::{
    EXTENT_BLOCKS, EXTENT_BYTES, EXTENT_RECORDS, EXTENTS, EXTENTS_AT, HEAD_AT, LOST_AT, NEWEST_AT,
    RECORDS_AT, WRITES_AT,
};

/// How many extents a header has, and where their parts and those of the head are, as docs/FORMAT.md has them.
pub fn ring_sizes()
    ensures count { EXTENTS ≡ 8 }
    ensures blocks { EXTENT_BLOCKS ≡ 4 }
    ensures records { EXTENT_RECORDS ≡ 40 }
    ensures first { EXTENTS_AT ≡ 1056 }
    ensures bytes { EXTENT_BYTES ≡ 32 }
    ensures newest { NEWEST_AT ≡ 8 }
    ensures head { HEAD_AT ≡ 1312 }
    ensures head_records { RECORDS_AT ≡ 1314 }
    ensures writes { WRITES_AT ≡ 1320 }
    ensures lost { LOST_AT ≡ 1328 }
{}

/// An extent, the head with its records, how many records were made and what was lost are each read as they were
/// written, and all else that a header says of its ring is read as before. Each of these writes changes its own bytes
/// only, so that a table slot stays as it was.
pub fn ring_apart()
    ensures extent { ExtentWritten }
    ensures head { HeadWritten }
    ensures writes { RecordCountWritten }
    ensures lost { LostWritten }
    ensures extent_apart { ExtentApart }
    ensures head_apart { HeadApart }
    ensures writes_apart { RecordCountApart }
    ensures lost_apart { LostApart }
{}
