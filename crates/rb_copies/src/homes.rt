//! What is kept, and under what. Whoever rebuilds a home makes both, and `Copies` has them.

use rb_base::{BlockNo, Lsn, Scn};
use rb_cell::{CELLS, Cell};
use rb_itl::{ENTRIES, Entry};

/// A block, and the commit number at which its home is kept.
#[derive(Clone, Copy, Debug, PartialEq, Eq, Hash)]
pub struct CopyKey {
    /// The block.
    pub block: BlockNo,
    /// The commit number. The home shows the commits up to it, and no other change.
    pub scn: Scn,
}

/// A home as it was at a commit number, and the log number that its block had as it was kept.
#[derive(Debug, Drop)]
pub struct KeptHome {
    /// The log number of the block. Where the block has another one now, it was written since.
    pub number: Lsn,
    /// The slot entries.
    pub entries: [Entry; ENTRIES as usize],
    /// The cells.
    pub cells: [Cell; CELLS as usize],
}
