//! A kept home taken further back. A build that begins at a kept home calls it.
ghost use Rattle.std.specs.Prelude.{[], ◌≡◌, ℕ, false, not, IfOk};
ghost use Rattle.rb_cr.specs.Faults.{is_failed};
ghost use Rattle.rb_cr.specs.Going.{GoesFrom};
ghost use Rattle.rb_cr.specs.Reads.{Reads};
ghost use Rattle.rb_cr.specs.Scratches.{scratch_home};
ghost use Rattle.law_read.specs.Heights.{Over};
ghost use Rattle.law_home.specs.Walk.{entry_at};

use crate::faults::CrFault;
use crate::restore::rewind;
use crate::scratch::{Scratch, Snapshot};
use crate::segments::Segments;
use crate::steps::Steps;
use crate::visible::{Top, greatest};
use std::sync::ledger::Ledger;

/// Takes a home that was kept at a number further back, to a snapshot at or below it: true. Where an entry of it is
/// over the snapshot by a bound nothing is done: false.
pub(crate) fn go_on<S: Segments, L: Ledger>(
    segments: &mut S,
    scratch: &mut Scratch,
    snapshot: &Snapshot,
    steps: &mut Steps<L>,
) -> Result<bool, CrFault>
    requires ready { S.ready segments.old }
    requires none { scratch.old.kept ≡ [] }
    ensures told { S.tells → GoesFrom (S.says segments.old) snapshot.now scratch.old steps.old
        result scratch.new steps.new }
    ensures over { S.tells → IfOk result (λ whole. whole ≡ false → (j : ℕ) × Over (S.says segments.old).env
        snapshot.now.scn (entry_at (scratch_home (S.says segments.old).shape scratch.old) j)) }
    ensures block { scratch.new.block ≡ scratch.old.block }
    ensures reads { Reads S.Segments segments.old segments.new (not (is_failed result)) }
{
    match greatest(segments, scratch, snapshot.scn)? {
        Top::Over { .. } => Ok(false),
        Top::At(_) => {
            rewind(segments, scratch, snapshot, steps)?;
            Ok(true)
        }
    }
}
