//! A home as it was at a snapshot, by undo. `build` calls it over a store.
ghost use Rattle.std.specs.Prelude.{[], ◌≡◌, ◌+◌, ◌<◌, ◌≤◌, ℕ, true, false, not};
ghost use Rattle.std.specs.Prelude.{IfOk, IfErr, OnOk};
ghost use Rattle.std.specs.Result.{is_err};
ghost use Rattle.rb_cr.specs.Clauses.{answer_to, GoesOn, Rewinds, UndoesEntry, UndoesActive, Builds};
ghost use Rattle.rb_cr.specs.Clauses.{IsRead, IsOld};
ghost use Rattle.rb_cr.specs.Faults.{is_failed, is_fault};
ghost use Rattle.rb_cr.specs.Visible.{ActiveIs};
ghost use Rattle.rb_cr.specs.Late.{IsFresh, SeesFirst};
ghost use Rattle.rb_cr.specs.Parts.{Highest};
ghost use Rattle.rb_cr.specs.Reads.{Reads};
ghost use Rattle.rb_cr.specs.Scratches.{scratch_home, shown_by};
ghost use Rattle.rb_cr.specs.Watches.{Stays};
ghost use Rattle.rb_itl.specs.declared.slots.TheConstants.{ENTRIES};
ghost use Rattle.law_read.specs.Chains.{Counted};
ghost use Rattle.law_read.specs.Copies.{Copied};
ghost use Rattle.law_read.specs.Late.{late_above};
ghost use Rattle.law_read.specs.Reading.{needed, History};
ghost use Rattle.law_blocks.specs.Says.{walk_entry};
ghost use Rattle.law_home.specs.Walk.{last};

use crate::chains::{too_old, unwind_at};
use crate::faults::CrFault;
use crate::scratch::{Scratch, Snapshot};
use crate::segments::Segments;
use crate::steps::Steps;
use crate::visible::{HighestEntry, Top, greatest};
use rb_base::{Failed, Scn};
use rb_itl::{Entry, OPEN};
use rb_txntable::Look;
use std::sync::ledger::Ledger;

/// The entry with the greatest number above a snapshot, and that number: the snapshot's where none is above it.
pub(crate) fn highest<S: Segments>(
    segments: &mut S,
    scratch: &Scratch,
    scn: Scn,
) -> Result<HighestEntry, CrFault>
    requires { S.ready segments.old }
    ensures told { S.tells → Highest (S.says segments.old).env scn
        (scratch_home (S.says segments.old).shape scratch.now) result }
    ensures within { IfOk result (λ top. top.entry < ENTRIES) }
    ensures reads { Reads S.Segments segments.old segments.new (not (is_failed result)) }
{
    match greatest(segments, scratch, scn)? {
        Top::At(top) => Ok(top),
        Top::Over { seg } => Err(too_old(segments, seg, scn)),
    }
}

/// The commits above the snapshot taken back, the greatest number first.
pub(crate) fn rewind<S: Segments, L: Ledger>(
    segments: &mut S,
    scratch: &mut Scratch,
    snapshot: &Snapshot,
    steps: &mut Steps<L>,
) -> Result<(), CrFault>
    requires { S.ready segments.old }
    ensures told { S.tells → Rewinds (S.says segments.old) snapshot.now scratch.old steps.old
        result scratch.new steps.new }
    ensures first { S.tells → SeesFirst (S.says segments.old) snapshot.now.scn scratch.old result scratch.new }
    ensures block { scratch.new.block ≡ scratch.old.block }
    ensures reads { Reads S.Segments segments.old segments.new (not (is_failed result)) }
{
    let mut limit = u64::MAX;
    loop {
        let top = highest(segments, scratch, snapshot.scn)?;
        if top.number <= snapshot.scn {
            return Ok(());
        }
        // Over blocks that stand the numbers fall. Over others this ends the loop.
        if limit <= top.number {
            let seg = scratch.entries[top.entry].xid.seg;
            return Err(too_old(segments, seg, snapshot.scn));
        }
        limit = top.number;
        unwind_at(segments, scratch, snapshot, top.entry, steps)?;
        scratch.watch.end(top.number);
    }
}

/// Whether the transaction of an entry goes on.
fn is_active<S: Segments>(segments: &mut S, entry: &Entry) -> Result<bool, Failed>
    requires { S.ready segments.old }
    ensures told { S.tells → IfOk result (λ active.
        ActiveIs (S.says segments.old).env (walk_entry (S.says segments.old).shape entry.now) active) }
    ensures reads { Reads S.Segments segments.old segments.new (not (is_err result)) }
{
    if entry.kind != OPEN {
        return Ok(false);
    }
    match segments.look(entry.xid)? {
        Look::Active => Ok(true),
        _ => Ok(false),
    }
}

/// The changes of an entry taken back, if its transaction goes on.
fn undo_entry<S: Segments, L: Ledger>(
    segments: &mut S,
    scratch: &mut Scratch,
    snapshot: &Snapshot,
    i: usize,
    steps: &mut Steps<L>,
) -> Result<(), CrFault>
    requires ready { S.ready segments.old }
    requires there { i < ENTRIES }
    ensures told { S.tells → UndoesEntry (S.says segments.old) snapshot.now i scratch.old
        steps.old result scratch.new steps.new }
    ensures goes { S.tells
        → OnOk result (GoesOn (S.says segments.old) scratch.old steps.old scratch.new steps.new) }
    ensures stays { Stays scratch.old.watch scratch.new.watch }
    ensures block { scratch.new.block ≡ scratch.old.block }
    ensures reads { Reads S.Segments segments.old segments.new (not (is_failed result)) }
{
    let entry = scratch.entries[i];
    if !is_active(segments, &entry)? {
        return Ok(());
    }
    unwind_at(segments, scratch, snapshot, i, steps)
}

/// All live changes taken back, one entry after another.
pub(crate) fn undo_active<S: Segments, L: Ledger>(
    segments: &mut S,
    scratch: &mut Scratch,
    snapshot: &Snapshot,
    steps: &mut Steps<L>,
) -> Result<(), CrFault>
    requires { S.ready segments.old }
    ensures told { S.tells → UndoesActive (S.says segments.old) snapshot.now scratch.old
        steps.old result scratch.new steps.new }
    ensures goes { S.tells
        → OnOk result (GoesOn (S.says segments.old) scratch.old steps.old scratch.new steps.new) }
    ensures stays { Stays scratch.old.watch scratch.new.watch }
    ensures block { scratch.new.block ≡ scratch.old.block }
    ensures reads { Reads S.Segments segments.old segments.new (not (is_failed result)) }
{
    for i in 0..scratch.entries.len() {
        undo_entry(segments, scratch, snapshot, i, steps)?;
    }
    Ok(())
}

/// Takes back the live changes first, and then the commits above the snapshot.
fn take_all_back<S: Segments, L: Ledger>(
    segments: &mut S,
    scratch: &mut Scratch,
    snapshot: &Snapshot,
    steps: &mut Steps<L>,
) -> Result<(), CrFault>
    requires ready { S.ready segments.old }
    requires none { scratch.old.kept ≡ [] }
    ensures told { S.tells → Builds (S.says segments.old) snapshot.now scratch.old steps.old
        result scratch.new steps.new }
    ensures first { S.tells → (h : History) (key : ℕ) → IsRead (S.says segments.old) h snapshot.now scratch.old
        → IsFresh scratch.old.watch key
        → OnOk result (scratch.new.watch.first ≡ late_above snapshot.now.scn key h.list) }
    ensures block { scratch.new.block ≡ scratch.old.block }
    ensures reads { Reads S.Segments segments.old segments.new (not (is_failed result)) }
{
    undo_active(segments, scratch, snapshot, steps)?;
    rewind(segments, scratch, snapshot, steps)
}

/// Makes of a decoded home what it was at a snapshot, and keeps the reader's own first changes beside it. For each
/// history that the home stands for, the rows are those at the snapshot with these changes over them. Each record that
/// is taken back is counted: as many as changes stand above the snapshot; or, where one of them is gone, those that
/// were taken back before it and no more. What is left, entries and cells, is a home that can be kept at the snapshot.
/// `TooOld` only where what that needs was given up by a segment, above the snapshot; `Failed` only where a call
/// failed. Where a key is watched, the watch tells the first commit above the snapshot that changed its row. (Oracle7
/// Server Concepts, *Multiversion Consistency Model*: older versions are rebuilt from rollback segments. The order is
/// this project's choice: what isn't committed first, and then the greatest number.)
pub fn rebuild<S: Segments, L: Ledger>(
    segments: &mut S,
    scratch: &mut Scratch,
    snapshot: &Snapshot,
    steps: &mut Steps<L>,
) -> Result<(), CrFault>
    requires { S.ready segments.old }
    ensures rows { S.tells → (h : History) → IsRead (S.says segments.old) h snapshot.now
        scratch.old → OnOk result ((k : ℕ) → shown_by scratch.new k ≡ answer_to h snapshot.now k) }
    ensures count { S.tells → (h : History) → IsRead (S.says segments.old) h snapshot.now
        scratch.old → OnOk result (steps.new ≡ steps.old + needed h snapshot.now.scn) }
    ensures most { S.tells → (h : History) → IsRead (S.says segments.old) h snapshot.now
        scratch.old → steps.new ≤ steps.old + needed h snapshot.now.scn }
    ensures counted { S.tells → (h : History) → IsRead (S.says segments.old) h snapshot.now
        scratch.old → IfErr result (λ fault. is_fault fault ≡ false → Counted (S.says segments.old).env
        (scratch_home (S.says segments.old).shape scratch.old) steps.old steps.new) }
    ensures left { S.tells → (h : History) → IsRead (S.says segments.old) h snapshot.now
        scratch.old → snapshot.now.scn ≤ last h.base h.list → OnOk result (Copied (S.says segments.old).env h.base
        h.rows h.list snapshot.now.scn (scratch_home (S.says segments.old).shape scratch.new)) }
    ensures old { S.tells → (h : History) → IsRead (S.says segments.old) h snapshot.now
        scratch.old → IfErr result (IsOld (S.says segments.old) h snapshot.now scratch.old) }
    ensures first { S.tells → (h : History) (key : ℕ) → IsRead (S.says segments.old) h snapshot.now scratch.old
        → IsFresh scratch.old.watch key
        → OnOk result (scratch.new.watch.first ≡ late_above snapshot.now.scn key h.list) }
    ensures block { scratch.new.block ≡ scratch.old.block }
    ensures reads { Reads S.Segments segments.old segments.new (not (is_failed result)) }
{
    scratch.kept.clear();
    take_all_back(segments, scratch, snapshot, steps)
}
