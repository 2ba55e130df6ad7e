//! What holds of every entry and every block, as clauses for proofs to cite. Nothing calls it.
ghost use Rattle.std.specs.Prelude.{◌≡◌};
ghost use Rattle.rb_itl.specs.Entries.{ReadsBack, IsFreeEmpty, ReadsOwn, KeepsOthers, KeepsOutside, KeepsCells};
ghost use Rattle.rb_itl.specs.Entries.{KeepsLength};

use crate::slots::{BOUND, CHAIN_RECORDS, ENTRIES, ENTRY_BYTES, EXACT, FREE, OPEN};

/// An entry's bytes say what it is, and a free one's are 0. Written over those of its place in a block, they are read
/// there, and every other entry and every byte that isn't of this place stay as they were.
pub fn entries_apart()
    ensures reads_back { ReadsBack }
    ensures free { IsFreeEmpty }
    ensures own { ReadsOwn }
    ensures others { KeepsOthers }
    ensures outside { KeepsOutside }
    ensures cells { KeepsCells }
    ensures length { KeepsLength }
{}

/// How many entries a block has, how long one is and a chain of its records, and the kinds, as docs/FORMAT.md has them.
pub fn entry_sizes()
    ensures count { ENTRIES ≡ 8 }
    ensures bytes { ENTRY_BYTES ≡ 48 }
    ensures records { CHAIN_RECORDS ≡ 320 }
    ensures kinds { (FREE ≡ 0) × (OPEN ≡ 1) × (EXACT ≡ 2) × (BOUND ≡ 3) }
{}
