//! An entry's chain of records taken back, the newest first. A rebuild takes back whole chains.
ghost use Rattle.std.specs.Prelude.{◌≡◌, ◌+◌, ◌<◌, ◌≤◌, true, false, not, IfOk, OnOk};
ghost use Rattle.std.specs.Result.{is_err};
ghost use Rattle.rb_base.specs.declared.shape.Shape.{Shape};
ghost use Rattle.rb_cr.specs.Clauses.{StepsBack, Unwinds, Spends};
ghost use Rattle.rb_cr.specs.Faults.{is_fault, is_failed, Blames};
ghost use Rattle.rb_cr.specs.Late.{SeesAll, SeesChain, SeesStep};
ghost use Rattle.rb_cr.specs.Reads.{Reads};
ghost use Rattle.rb_cr.specs.Scratches.{scratch_home};
ghost use Rattle.rb_cr.specs.Watches.{Stays};
ghost use Rattle.rb_itl.specs.declared.slots.TheConstants.{ENTRIES};
ghost use Rattle.law_home.specs.Walk.{entry_at};

use crate::faults::CrFault;
use crate::scratch::{Scratch, Snapshot, fits, take_back};
use crate::segments::Segments;
use crate::steps::Steps;
use rb_base::{Failed, Scn, Xid};
use std::sync::ledger::Ledger;

/// The newest record of an entry's chain taken back; false where it is gone.
fn newest_back<S: Segments>(
    segments: &mut S,
    scratch: &mut Scratch,
    snapshot: &Snapshot,
    i: usize,
    xid: Xid,
) -> Result<bool, Failed>
    requires ready { S.ready segments.old }
    requires there { i < ENTRIES }
    ensures told { S.tells → IfOk result (StepsBack (S.says segments.old) snapshot.now i xid
        scratch.old scratch.new) }
    ensures seen { S.tells → IfOk result (SeesStep (S.says segments.old) i scratch.old scratch.new) }
    ensures stays { Stays scratch.old.watch scratch.new.watch }
    ensures block { scratch.new.block ≡ scratch.old.block }
    ensures reads { Reads S.Segments segments.old segments.new (not (is_err result)) }
{
    let Some(found) = segments.record(scratch.entries[i].newest)? else {
        return Ok(false);
    };
    if !fits(scratch, &found, i, xid) {
        return Ok(false);
    }
    Ok(take_back(scratch, &found, snapshot))
}

/// So many records of an entry's chain taken back, each of them counted; false where one is gone.
fn unwind<S: Segments, L: Ledger>(
    segments: &mut S,
    scratch: &mut Scratch,
    snapshot: &Snapshot,
    i: usize,
    xid: Xid,
    count: u32,
    steps: &mut Steps<L>,
) -> Result<bool, Failed>
    requires ready { S.ready segments.old }
    requires there { i < ENTRIES }
    ensures told { S.tells → IfOk result (Unwinds (S.says segments.old) snapshot.now count i
        xid scratch.old steps.old scratch.new steps.new) }
    ensures steps { IfOk result (λ whole. whole ≡ true → steps.new ≡ steps.old + count) }
    ensures most { steps.new ≤ steps.old + count }
    ensures seen { S.tells → IfOk result (SeesAll (S.says segments.old) count i xid scratch.old scratch.new) }
    ensures stays { Stays scratch.old.watch scratch.new.watch }
    ensures block { scratch.new.block ≡ scratch.old.block }
    ensures reads { Reads S.Segments segments.old segments.new (not (is_err result)) }
{
    for _k in 0..count {
        if !newest_back(segments, scratch, snapshot, i, xid)? {
            return Ok(false);
        }
        steps.tick();
    }
    Ok(true)
}

/// The answer where a snapshot needs what a segment has given up.
pub(crate) fn too_old<S: Segments>(segments: &mut S, seg: u16, scn: Scn) -> CrFault
    requires { S.ready segments.old }
    ensures told { S.tells → Blames scn ((S.says segments.old).env.lost seg) result }
    ensures reads { Reads S.Segments segments.old segments.new (not (is_fault result)) }
{
    match segments.lost(seg) {
        Err(_) => CrFault::Failed,
        Ok(lost) => CrFault::TooOld { scn, lost },
    }
}

/// The whole chain of an entry taken back, under the transaction and the length that it has at first.
pub(crate) fn unwind_at<S: Segments, L: Ledger>(
    segments: &mut S,
    scratch: &mut Scratch,
    snapshot: &Snapshot,
    i: usize,
    steps: &mut Steps<L>,
) -> Result<(), CrFault>
    requires ready { S.ready segments.old }
    requires there { i < ENTRIES }
    ensures told { S.tells → Spends (S.says segments.old) snapshot.now i scratch.old steps.old result
        scratch.new steps.new }
    ensures steps { (shape : Shape)
        → OnOk result (steps.new ≡ steps.old + (entry_at (scratch_home shape scratch.old) i).chain) }
    ensures most { (shape : Shape) → steps.new ≤ steps.old + (entry_at (scratch_home shape scratch.old) i).chain }
    ensures seen { S.tells → SeesChain (S.says segments.old) i scratch.old result scratch.new }
    ensures stays { Stays scratch.old.watch scratch.new.watch }
    ensures block { scratch.new.block ≡ scratch.old.block }
    ensures reads { Reads S.Segments segments.old segments.new (not (is_failed result)) }
{
    scratch.watch.begin();
    let entry = scratch.entries[i];
    let count = entry.length;
    if unwind(segments, scratch, snapshot, i, entry.xid, count, steps)? {
        return Ok(());
    }
    Err(too_old(segments, entry.xid.seg, snapshot.scn))
}
