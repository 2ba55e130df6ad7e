//! The home of a block of a store as it was at a snapshot, begun at a kept home where one serves, and kept for later
//! readers. `next_at` builds by it what a fetch can't read in the block as it stands.
ghost use Rattle.std.specs.Prelude.{[], ◌≡◌, ◌≢◌, ◌+◌, ◌<◌, ◌≤◌, ℕ, false, not};
ghost use Rattle.std.specs.Prelude.{Some, IfErr, IfNone, IfOk, IfSome, IsSome, OnOk};
ghost use Rattle.std.specs.Result.{is_err};
ghost use Rattle.rb_base.specs.Blocks.{AreBlocks, shape_blocks};
ghost use Rattle.rb_base.specs.Logs.{Logs};
ghost use Rattle.rb_copies.specs.Copies.{IsLeast, Serves, copy_key, kept_under, used};
ghost use Rattle.rb_copies.specs.declared.homes.CopyKey.{CopyKey};
ghost use Rattle.rb_cr.specs.Builds.{IsHomeOld};
ghost use Rattle.rb_cr.specs.Clauses.{answer_to};
ghost use Rattle.rb_cr.specs.Copies.{BuiltAt, HasNoneIn, IsFree, IsReadWith, IsUnserved, IsWhole};
ghost use Rattle.rb_cr.specs.Copies.{Keeps, ServesAt, Turns, begun, lsn_at};
ghost use Rattle.rb_cr.specs.Faults.{is_failed, is_fault};
ghost use Rattle.rb_cr.specs.Scratches.{shown_by};
ghost use Rattle.law_read.specs.Reading.{History, count_above, needed};

use crate::blocks::build;
use crate::copies::is_away;
use crate::faults::CrFault;
use crate::going::go_on;
use crate::scratch::{Scratch, Snapshot};
use crate::steps::Steps;
use rb_base::{BlockNo, Failed, Lsn, Scn, Store, u64_at};
use rb_copies::{Copies, CopyKey};
use std::sync::ledger::Ledger;

/// The log number of a block, where the reader has no changes of its own in it, as far as it tells: then the reader
/// sees there what all see. None where it may have some. The home that the scratch has afterwards is open.
pub(crate) fn shared_number<S: Store>(
    store: &mut S,
    block: BlockNo,
    snapshot: &Snapshot,
    scratch: &mut Scratch,
) -> Result<Option<Lsn>, Failed>
    requires going { S.failed store.old ≡ false }
    requires there { block < shape_blocks (S.shape_of store.old) }
    ensures some { S.tells → IfOk result (λ found. IfSome found (λ number.
        (number ≡ lsn_at (S.blocks store.old) block)
        × HasNoneIn (S.shape_of store.old) (S.blocks store.old) block snapshot.now)) }
    ensures none { S.tells → IfOk result (λ found. IfNone found
        (HasNoneIn (S.shape_of store.old) (S.blocks store.old) block snapshot.now → ⊥)) }
    ensures whole { S.tells → IfOk result (λ found. AreBlocks (S.shape_of store.new) (S.blocks store.new)) }
    ensures logs { Logs S.Store store.old store.new [] (not (is_err result)) }
{
    store.load(block)?;
    let number = u64_at(store.block(), 0);
    let Some(own) = snapshot.seen() else {
        return Ok(Some(number));
    };
    scratch.decode_entries(store.block());
    if is_away(store, scratch, own)? {
        Ok(Some(number))
    } else {
        Ok(None)
    }
}

/// The build that begins at a kept home, for a reader without changes of its own in the block.
fn build_from<S: Store, L: Ledger>(
    store: &mut S,
    key: CopyKey,
    snapshot: &Snapshot,
    scratch: &mut Scratch,
    copies: &mut Copies,
    steps: &mut Steps<L>,
) -> Result<(), CrFault>
    requires going { S.failed store.old ≡ false }
    requires there { key.block < shape_blocks (S.shape_of store.old) }
    requires whole { S.tells → AreBlocks (S.shape_of store.old) (S.blocks store.old) }
    requires kept { IsSome (kept_under copies.old.kept key) }
    requires high { snapshot.now.scn ≤ key.scn }
    ensures told { S.tells → (h : History)
        → IsReadWith (S.shape_of store.old) (S.blocks store.old) copies.old.kept key.block h snapshot.now
        → HasNoneIn (S.shape_of store.old) (S.blocks store.old) key.block snapshot.now
        → BuiltAt (S.shape_of store.old) (S.blocks store.old) key.block h snapshot.now steps.old result
        scratch.new steps.new }
    ensures spared { S.tells → (h : History)
        → IsReadWith (S.shape_of store.old) (S.blocks store.old) copies.old.kept key.block h snapshot.now
        → HasNoneIn (S.shape_of store.old) (S.blocks store.old) key.block snapshot.now
        → IsFree (S.shape_of store.old) (S.blocks store.old) copies.old.kept key.block snapshot.now.scn key.scn
        → OnOk result (steps.new + count_above key.scn h.list ≡ steps.old + count_above snapshot.now.scn h.list) }
    ensures served { IfErr result (λ fault. key.scn ≢ snapshot.now.scn) }
    ensures at_once { key.scn ≡ snapshot.now.scn → OnOk result (steps.new ≡ steps.old) }
    ensures block { OnOk result (scratch.new.block ≡ key.block) }
    ensures used { copies.new ≡ used copies.old key }
    ensures same { (k : CopyKey) → kept_under copies.new.kept k ≡ kept_under copies.old.kept k }
    ensures logs { Logs S.Store store.old store.new [] (not (is_failed result)) }
{
    copies.touch(key);
    let Some(home) = copies.peek(key) else {
        unreachable!()
    };
    scratch.take(key.block, home);
    if key.scn == snapshot.scn {
        return Ok(());
    }
    if go_on(store, scratch, snapshot, steps)? {
        return Ok(());
    }
    build(store, key.block, snapshot, scratch, steps)
}

/// The build that begins at the home that is kept at `first`, or at the block where there is none, for a reader without
/// changes of its own in the block.
fn build_first<S: Store, L: Ledger>(
    store: &mut S,
    block: BlockNo,
    first: Option<Scn>,
    snapshot: &Snapshot,
    scratch: &mut Scratch,
    copies: &mut Copies,
    steps: &mut Steps<L>,
) -> Result<(), CrFault>
    requires going { S.failed store.old ≡ false }
    requires there { block < shape_blocks (S.shape_of store.old) }
    requires whole { S.tells → AreBlocks (S.shape_of store.old) (S.blocks store.old) }
    requires kept { IfSome first (λ k. IsSome (kept_under copies.old.kept (copy_key block k))
        × (snapshot.now.scn ≤ k)) }
    ensures told { S.tells → (h : History)
        → IsReadWith (S.shape_of store.old) (S.blocks store.old) copies.old.kept block h snapshot.now
        → HasNoneIn (S.shape_of store.old) (S.blocks store.old) block snapshot.now
        → BuiltAt (S.shape_of store.old) (S.blocks store.old) block h snapshot.now steps.old result
        scratch.new steps.new }
    ensures spared { S.tells → (h : History)
        → IsReadWith (S.shape_of store.old) (S.blocks store.old) copies.old.kept block h snapshot.now
        → HasNoneIn (S.shape_of store.old) (S.blocks store.old) block snapshot.now
        → IfSome first (λ k.
        IsFree (S.shape_of store.old) (S.blocks store.old) copies.old.kept block snapshot.now.scn k
        → OnOk result (steps.new + count_above k h.list ≡ steps.old + count_above snapshot.now.scn h.list)) }
    ensures whole { S.tells → (h : History)
        → IsReadWith (S.shape_of store.old) (S.blocks store.old) copies.old.kept block h snapshot.now
        → IfNone first (IsWhole (S.shape_of store.old) (S.blocks store.old) block h snapshot.now steps.old result
        steps.new) }
    ensures served { IfErr result (λ fault. first ≢ Some snapshot.now.scn) }
    ensures at_once { first ≡ Some snapshot.now.scn → OnOk result (steps.new ≡ steps.old) }
    ensures block { OnOk result (scratch.new.block ≡ block) }
    ensures used { copies.new ≡ begun copies.old block first }
    ensures same { (key : CopyKey) → kept_under copies.new.kept key ≡ kept_under copies.old.kept key }
    ensures logs { Logs S.Store store.old store.new [] (not (is_failed result)) }
{
    match first {
        None => build(store, block, snapshot, scratch, steps),
        Some(scn) => {
            let key = CopyKey { block, scn };
            build_from(store, key, snapshot, scratch, copies, steps)
        }
    }
}

/// The build for a reader without changes of its own in the block, which has this log number.
pub(crate) fn build_shared<S: Store, L: Ledger>(
    store: &mut S,
    block: BlockNo,
    number: Lsn,
    snapshot: &Snapshot,
    scratch: &mut Scratch,
    copies: &mut Copies,
    steps: &mut Steps<L>,
) -> Result<(), CrFault>
    requires going { S.failed store.old ≡ false }
    requires there { block < shape_blocks (S.shape_of store.old) }
    requires whole { S.tells → AreBlocks (S.shape_of store.old) (S.blocks store.old) }
    requires number { S.tells → number ≡ lsn_at (S.blocks store.old) block }
    requires none { S.tells → HasNoneIn (S.shape_of store.old) (S.blocks store.old) block snapshot.now }
    ensures told { S.tells → (h : History)
        → IsReadWith (S.shape_of store.old) (S.blocks store.old) copies.old.kept block h snapshot.now
        → BuiltAt (S.shape_of store.old) (S.blocks store.old) block h snapshot.now steps.old result
        scratch.new steps.new }
    ensures spared { S.tells → (h : History) (k : ℕ)
        → IsReadWith (S.shape_of store.old) (S.blocks store.old) copies.old.kept block h snapshot.now
        → IsLeast copies.old.kept block number snapshot.now.scn k
        → IsFree (S.shape_of store.old) (S.blocks store.old) copies.old.kept block snapshot.now.scn k
        → OnOk result (steps.new + count_above k h.list ≡ steps.old + count_above snapshot.now.scn h.list) }
    ensures whole { S.tells → (h : History)
        → IsReadWith (S.shape_of store.old) (S.blocks store.old) copies.old.kept block h snapshot.now
        → ((k : ℕ) → Serves copies.old.kept block number snapshot.now.scn k → ⊥)
        → IsWhole (S.shape_of store.old) (S.blocks store.old) block h snapshot.now steps.old result steps.new }
    ensures passed_over { IfErr result (λ fault.
        Serves copies.old.kept block number snapshot.now.scn snapshot.now.scn → ⊥) }
    ensures at_once { Serves copies.old.kept block number snapshot.now.scn snapshot.now.scn
        → OnOk result (steps.new ≡ steps.old) }
    ensures turns { Turns block number snapshot.now.scn result copies.old copies.new }
    ensures keeps { S.tells → Keeps (S.shape_of store.old) (S.blocks store.old) block snapshot.now
        copies.old.kept copies.new.kept }
    ensures logs { Logs S.Store store.old store.new [] (not (is_failed result)) }
{
    let first = copies.least(block, number, snapshot.scn);
    build_first(store, block, first, snapshot, scratch, copies, steps)?;
    if first != Some(snapshot.scn) {
        let scn = snapshot.scn;
        copies.keep(CopyKey { block, scn }, scratch.home(number));
    }
    Ok(())
}

/// Makes of a scratch the home of a block as it was at a snapshot, as `build` does, with the help of the homes that are
/// kept of it. A kept home serves while no group has changed its block since, and it serves a reader that has no
/// changes of its own in the block, as far as this tells. The build begins at the one with the least number from the
/// snapshot on, and takes back what stands between the two; where an entry of it is over the snapshot by a bound, or
/// none serves, it begins at the block. What was built is kept, where there is memory for it. So no more records are
/// taken back than `build` takes; as many, where no kept home serves; and none where one serves at the snapshot itself:
/// that is never `TooOld`, whatever was given up since. Tests call it alone: the program builds by `build_shared`, of
/// which this is the whole. (The consistent-read copies of a buffer cache, Bridge and others, VLDB 1997.)
pub fn build_with<S: Store, L: Ledger>(
    store: &mut S,
    block: BlockNo,
    snapshot: &Snapshot,
    scratch: &mut Scratch,
    copies: &mut Copies,
    steps: &mut Steps<L>,
) -> Result<(), CrFault>
    requires going { S.failed store.old ≡ false }
    requires there { block < shape_blocks (S.shape_of store.old) }
    ensures rows { S.tells → (h : History)
        → IsReadWith (S.shape_of store.old) (S.blocks store.old) copies.old.kept block h snapshot.now
        → OnOk result ((k : ℕ) → shown_by scratch.new k ≡ answer_to h snapshot.now k) }
    ensures most { S.tells → (h : History)
        → IsReadWith (S.shape_of store.old) (S.blocks store.old) copies.old.kept block h snapshot.now
        → steps.new ≤ steps.old + needed h snapshot.now.scn }
    ensures whole { S.tells → (h : History)
        → IsReadWith (S.shape_of store.old) (S.blocks store.old) copies.old.kept block h snapshot.now
        → IsUnserved (S.shape_of store.old) (S.blocks store.old) copies.old.kept block snapshot.now
        → IsWhole (S.shape_of store.old) (S.blocks store.old) block h snapshot.now steps.old result steps.new }
    ensures spared { S.tells → (h : History) (k : ℕ)
        → IsReadWith (S.shape_of store.old) (S.blocks store.old) copies.old.kept block h snapshot.now
        → HasNoneIn (S.shape_of store.old) (S.blocks store.old) block snapshot.now
        → IsLeast copies.old.kept block (lsn_at (S.blocks store.old) block) snapshot.now.scn k
        → IsFree (S.shape_of store.old) (S.blocks store.old) copies.old.kept block snapshot.now.scn k
        → OnOk result (steps.new + count_above k h.list ≡ steps.old + count_above snapshot.now.scn h.list) }
    ensures old { S.tells → (h : History)
        → IsReadWith (S.shape_of store.old) (S.blocks store.old) copies.old.kept block h snapshot.now
        → IfErr result (IsHomeOld (S.shape_of store.old) (S.blocks store.old) block h snapshot.now) }
    ensures passed_over { S.tells → IfErr result (λ fault. is_fault fault ≡ false
        → ServesAt (S.shape_of store.old) (S.blocks store.old) copies.old.kept block snapshot.now
        snapshot.now.scn → ⊥) }
    ensures at_once { S.tells
        → ServesAt (S.shape_of store.old) (S.blocks store.old) copies.old.kept block snapshot.now snapshot.now.scn
        → OnOk result (steps.new ≡ steps.old) }

    // What becomes of the homes that are kept.
    ensures keeps { S.tells → Keeps (S.shape_of store.old) (S.blocks store.old) block snapshot.now
        copies.old.kept copies.new.kept }
    ensures turns { S.tells → is_failed result ≡ false
        → HasNoneIn (S.shape_of store.old) (S.blocks store.old) block snapshot.now
        → Turns block (lsn_at (S.blocks store.old) block) snapshot.now.scn result copies.old copies.new }
    ensures unshared { S.tells → (HasNoneIn (S.shape_of store.old) (S.blocks store.old) block snapshot.now → ⊥)
        → copies.new ≡ copies.old }
    ensures logs { Logs S.Store store.old store.new [] (not (is_failed result)) }
{
    match shared_number(store, block, snapshot, scratch)? {
        None => build(store, block, snapshot, scratch, steps),
        Some(number) => build_shared(store, block, number, snapshot, scratch, copies, steps),
    }
}
