//! What holds of the table slots of every header, as clauses for readers to cite. Nothing calls it.
ghost use Rattle.std.specs.Prelude.{◌≡◌};
ghost use Rattle.rb_txntable.specs.Slots.{SlotReadsBack, SlotReadsOwn, SlotsKept, KeepsOutsideSlot};
ghost use Rattle.rb_txntable.specs.Slots.{KeepsNumbersOutside, KeepsBytesOutside, SlotLengthKept, IsNoSlotEmpty};

use crate::slots::{BEFORE_AT, COMMITTED, ENDED, LIVE_AT, NEWEST_AT, RECORD_AT, START_AT, WRAP_AT};

/// A slot's bytes say what it is, and those of one that was never taken are 0. Written over those of its place in a
/// header, they are read there, and every other slot and every byte that isn't of this place stay as they were.
pub fn slots_apart()
    ensures reads_back { SlotReadsBack }
    ensures own { SlotReadsOwn }
    ensures others { SlotsKept }
    ensures outside { KeepsOutsideSlot }
    ensures numbers { KeepsNumbersOutside }
    ensures bytes { KeepsBytesOutside }
    ensures length { SlotLengthKept }
    ensures empty { IsNoSlotEmpty }
{}

/// Where the parts of a table slot are, and its states, as docs/FORMAT.md has them.
pub fn table_sizes()
    ensures live { LIVE_AT ≡ 4 }
    ensures wrap { WRAP_AT ≡ 8 }
    ensures newest { NEWEST_AT ≡ 16 }
    ensures before { BEFORE_AT ≡ 24 }
    ensures record { RECORD_AT ≡ 32 }
    ensures start { START_AT ≡ 56 }
    ensures states { (COMMITTED ≡ 2) × (ENDED ≡ 3) }
{}
