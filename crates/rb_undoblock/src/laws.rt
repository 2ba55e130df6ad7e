//! What holds of the records of every undo block, as clauses for readers to cite. Nothing calls it.
ghost use Rattle.std.specs.Prelude.{◌≡◌};
ghost use Rattle.rb_undoblock.specs.Undo.{UndoReadsBack, UndoReadsOwn, UndoKept, KeepsOutsideUndo, UndoLengthKept};
ghost use Rattle.rb_undoblock.specs.Undo.{IsNoUndoEmpty};

use crate::record::{
    CELL_AT, CELL_BEFORE_AT, CELL_BEFORE_BYTES, ENTRY_AT, ENTRY_BEFORE_AT, ENTRY_BEFORE_BYTES,
    GONE, HELD, HOME_AT, KEY_AT, KIND_AT, NUMBER_AT, PREVIOUS_AT, PUT, SLOT_AT, TABLE_AT,
    UNDO_BYTES, UNDO_RECORDS,
};

/// A record's bytes say what it is, and those of one of which each field is 0 are 0. Written over those of its place in
/// a block, they are read there, and every other record and every byte that isn't of this place stay as they were.
pub fn undo_apart()
    ensures reads_back { UndoReadsBack }
    ensures own { UndoReadsOwn }
    ensures others { UndoKept }
    ensures outside { KeepsOutsideUndo }
    ensures length { UndoLengthKept }
    ensures empty { IsNoUndoEmpty }
{}

/// How many records an undo block has, where the parts of one are, and the kinds of a change, as docs/FORMAT.md has
/// them.
pub fn undo_sizes()
    ensures count { UNDO_RECORDS ≡ 10 }
    ensures bytes { UNDO_BYTES ≡ 192 }
    ensures saved { (ENTRY_BEFORE_BYTES ≡ 48) × (CELL_BEFORE_BYTES ≡ 92) }
    ensures numbers { (KEY_AT ≡ 8) × (NUMBER_AT ≡ 16) × (HOME_AT ≡ 20) × (TABLE_AT ≡ 24) }
    ensures small { (SLOT_AT ≡ 26) × (KIND_AT ≡ 27) × (ENTRY_AT ≡ 28) × (CELL_AT ≡ 29) }
    ensures last { (PREVIOUS_AT ≡ 32) × (ENTRY_BEFORE_AT ≡ 48) × (CELL_BEFORE_AT ≡ 96) }
    ensures kinds { (PUT ≡ 1) × (GONE ≡ 2) × (HELD ≡ 3) }
{}
