//! The home of a block of a store as it was at a snapshot. Whoever reads by a rebuild calls it.
ghost use Rattle.std.specs.Prelude.{[], ◌≡◌, ◌+◌, ◌<◌, ◌≤◌, ℕ, false, not};
ghost use Rattle.std.specs.Prelude.{IfErr, OnOk};
ghost use Rattle.rb_base.specs.Blocks.{shape_blocks};
ghost use Rattle.rb_base.specs.Logs.{Logs};
ghost use Rattle.rb_cr.specs.Builds.{IsHomeRead, IsHomeOld};
ghost use Rattle.rb_cr.specs.Clauses.{answer_to};
ghost use Rattle.rb_cr.specs.Faults.{is_failed, is_fault};
ghost use Rattle.rb_cr.specs.Late.{IsFresh};
ghost use Rattle.rb_cr.specs.Scratches.{scratch_home, shown_by};
ghost use Rattle.law_read.specs.Chains.{Counted};
ghost use Rattle.law_read.specs.Copies.{Copied};
ghost use Rattle.law_read.specs.Late.{late_above};
ghost use Rattle.law_read.specs.Reading.{needed, History};
ghost use Rattle.law_blocks.specs.Standing.{env_of, homes_of};
ghost use Rattle.law_home.specs.Walk.{last};

use crate::faults::CrFault;
use crate::restore::rebuild;
use crate::scratch::{Scratch, Snapshot};
use crate::steps::Steps;
use rb_base::{BlockNo, Store};
use std::sync::ledger::Ledger;

/// Makes of a scratch the home of a block as it was at a snapshot, and keeps the reader's own first changes beside it.
/// What the scratch had is forgotten, and what it has after a refusal is open. For each history that the home stands
/// for, the rows are those at the snapshot with these changes over them. Each record that is taken back is counted: as
/// many as changes stand above the snapshot; or, where one of them is gone, those that were taken back before it and no
/// more. What is left in the scratch, entries and cells, is a home that can be kept at the snapshot. Where a key is
/// watched, the watch tells the first commit above the snapshot that changed its row. `TooOld` only where what that
/// needs was given up by a segment, above the snapshot; `Failed` only where a call failed. The store is given no group.
/// (Oracle7 Server Concepts, *Multiversion Consistency Model*.)
pub fn build<S: Store, L: Ledger>(
    store: &mut S,
    block: BlockNo,
    snapshot: &Snapshot,
    scratch: &mut Scratch,
    steps: &mut Steps<L>,
) -> Result<(), CrFault>
    requires going { S.failed store.old ≡ false }
    requires there { block < shape_blocks (S.shape_of store.old) }
    ensures rows { S.tells → (h : History) → IsHomeRead (S.shape_of store.old) (S.blocks store.old) block h
        snapshot.now → OnOk result ((k : ℕ) → shown_by scratch.new k ≡ answer_to h snapshot.now k) }
    ensures count { S.tells → (h : History) → IsHomeRead (S.shape_of store.old) (S.blocks store.old) block h
        snapshot.now → OnOk result (steps.new ≡ steps.old + needed h snapshot.now.scn) }
    ensures most { S.tells → (h : History) → IsHomeRead (S.shape_of store.old) (S.blocks store.old) block h
        snapshot.now → steps.new ≤ steps.old + needed h snapshot.now.scn }
    ensures counted { S.tells → (h : History) → IsHomeRead (S.shape_of store.old) (S.blocks store.old) block h
        snapshot.now → IfErr result (λ fault. is_fault fault ≡ false
        → Counted (env_of (S.shape_of store.old) (S.blocks store.old))
        (homes_of (S.shape_of store.old) (S.blocks store.old) block) steps.old steps.new) }
    ensures left { S.tells → (h : History) → IsHomeRead (S.shape_of store.old) (S.blocks store.old) block h
        snapshot.now → snapshot.now.scn ≤ last h.base h.list
        → OnOk result (Copied (env_of (S.shape_of store.old) (S.blocks store.old)) h.base h.rows h.list
        snapshot.now.scn (scratch_home (S.shape_of store.old) scratch.new)) }
    ensures old { S.tells → (h : History) → IsHomeRead (S.shape_of store.old) (S.blocks store.old) block h
        snapshot.now → IfErr result (IsHomeOld (S.shape_of store.old) (S.blocks store.old) block h snapshot.now) }
    ensures first { S.tells → (h : History) (key : ℕ)
        → IsHomeRead (S.shape_of store.old) (S.blocks store.old) block h snapshot.now
        → IsFresh scratch.old.watch key
        → OnOk result (scratch.new.watch.first ≡ late_above snapshot.now.scn key h.list) }
    ensures block { OnOk result (scratch.new.block ≡ block) }
    ensures logs { Logs S.Store store.old store.new [] (not (is_failed result)) }
{
    store.load(block)?;
    scratch.decode(block, store.block());
    rebuild(store, scratch, snapshot, steps)
}
