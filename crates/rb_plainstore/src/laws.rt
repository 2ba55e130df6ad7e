//! What holds of each store in memory, as a clause for proofs to cite. Nothing calls it.
ghost use Rattle.std.specs.Prelude.{Result, IsOk};
ghost use Rattle.rb_base.specs.Counts.{IsCounted};
ghost use Rattle.rb_base.specs.declared.faults.Failed.{Failed};
ghost use Rattle.rb_plainstore.specs.Plain.{PlainState};

use crate::plain::PlainStore;
use rb_base::Store;

/// No call of a `PlainStore` answers `Failed`: it counts no fault, so the clause *counted* of each call leaves only Ok.
pub fn never_fails()
    ensures { (old new : PlainState) (result : Result (Unit {0}) Failed)
        → IsCounted (⟦<PlainStore as Store>⟧.faults old) (⟦<PlainStore as Store>⟧.faults new) result
        → IsOk result }
{}
