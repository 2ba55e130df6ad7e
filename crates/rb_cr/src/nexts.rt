//! The next row of a block of a store as it was at a snapshot. Whoever reads rows in the order of their keys calls it.
ghost use Rattle.std.specs.Prelude.{[], ◌≡◌, ◌<◌, ℕ, true, false, not, None, Some, Ok};
ghost use Rattle.std.specs.Prelude.{IfErr, IfNone, IfOk, IfSome};
ghost use Rattle.rb_base.specs.Blocks.{AreBlocks, shape_blocks};
ghost use Rattle.rb_base.specs.Logs.{Logs};
ghost use Rattle.rb_copies.specs.Copies.{Serves, kept_under};
ghost use Rattle.rb_copies.specs.declared.homes.KeptHome.{KeptHome};
ghost use Rattle.rb_cr.specs.Builds.{IsHomeRead, IsHomeOld};
ghost use Rattle.rb_cr.specs.Clauses.{answer_to};
ghost use Rattle.rb_cr.specs.Copies.{HasNoneIn, IsQuiet, IsReadWith, Keeps, NextKept, ServesAt, Turns};
ghost use Rattle.rb_cr.specs.Copies.{lsn_at};
ghost use Rattle.rb_cr.specs.Faults.{is_failed, is_fault};
ghost use Rattle.rb_cr.specs.Pages.{AreNext, GoesOn};
ghost use Rattle.rb_cr.specs.Rows.{IsNext, IsWanted};
ghost use Rattle.law_read.specs.Reading.{History};

use crate::blocks::build;
use crate::faults::CrFault;
use crate::pages::Page;
use crate::plain::{BlockCells, HomeCells, next_plain};
use crate::rows::Wanted;
use crate::scratch::{Scratch, Snapshot};
use crate::segments::Segments;
use crate::shared::{build_shared, shared_number};
use crate::steps::Steps;
use crate::visible::changes_visible;
use rb_base::{BlockNo, Lsn, Store};
use rb_copies::{Copies, CopyKey};
use rb_model::Row;
use std::marker::Brand;
use std::sync::ledger::{Blank, Ledger};

/// The next row of a home that is rebuilt from the block.
fn next_alone<S: Store, L: Ledger>(
    store: &mut S,
    block: BlockNo,
    snapshot: &Snapshot,
    wanted: Wanted,
    scratch: &mut Scratch,
    row: &mut Row,
    steps: &mut Steps<L>,
) -> Result<bool, CrFault>
    requires going { S.failed store.old ≡ false }
    requires there { block < shape_blocks (S.shape_of store.old) }
    ensures given { S.tells → (h : History) → IsHomeRead (S.shape_of store.old) (S.blocks store.old) block h
        snapshot.now → IfOk result (λ found. found ≡ true
        → IsNext wanted.after wanted.lo wanted.hi (answer_to h snapshot.now) row.new) }
    ensures none { S.tells → (h : History) → IsHomeRead (S.shape_of store.old) (S.blocks store.old) block h
        snapshot.now → IfOk result (λ found. found ≡ false → (k : ℕ)
        → IsWanted wanted.after wanted.lo wanted.hi k → answer_to h snapshot.now k ≡ None) }
    ensures old { S.tells → (h : History) → IsHomeRead (S.shape_of store.old) (S.blocks store.old) block h
        snapshot.now → IfErr result (IsHomeOld (S.shape_of store.old) (S.blocks store.old) block h snapshot.now) }
    ensures kept { IfOk result (λ found. found ≡ false → row.new ≡ row.old) }
    ensures same { IfErr result (λ fault. row.new ≡ row.old) }
    ensures logs { Logs S.Store store.old store.new [] (not (is_failed result)) }
{
    build(store, block, snapshot, scratch, steps)?;
    Ok(scratch.next(wanted.after, wanted.lo, wanted.hi, row))
}

/// The next row of the home that is kept under a key, where it has this log number. It is read in its place. A page for
/// many rows has those behind it then.
fn next_kept(
    copies: &Copies,
    key: CopyKey,
    number: Lsn,
    wanted: Wanted,
    page: &mut Page,
    row: &mut Row,
) -> Option<bool>
    requires { page.old ≡ None }
    ensures some { IfSome result (λ found. (copy : KeptHome) × (kept_under copies.now.kept key ≡ Some copy)
        × (copy.number ≡ number) × NextKept wanted copy found row.old row.new) }
    ensures none { IfNone result ((copy : KeptHome) → kept_under copies.now.kept key ≡ Some copy
        → copy.number ≡ number → ⊥) }
    ensures same { IfNone result (row.new ≡ row.old) }
    ensures page { result ≡ Some true → (copy : KeptHome) → kept_under copies.now.kept key ≡ Some copy
        → IfSome page.new (λ left. (left.kept ≡ Some key)
        × AreNext (Some row.new.key) wanted.lo wanted.hi copy.cells left.rows) }
    ensures ended { (result ≡ Some true → ⊥) → page.new ≡ None }
{
    match copies.peek(key) {
        Some(home) if home.number == number => {
            let cells = HomeCells { cells: &home.cells };
            Some(page.begin(&cells, Some(key), wanted, row))
        }
        _ => None,
    }
}

/// The next row for a reader without changes of its own in the block, which has this log number: of the home that is
/// kept at the snapshot, or else of one that is rebuilt.
fn next_shared<S: Store, L: Ledger>(
    store: &mut S,
    block: BlockNo,
    number: Lsn,
    snapshot: &Snapshot,
    wanted: Wanted,
    scratch: &mut Scratch,
    copies: &mut Copies,
    page: &mut Page,
    row: &mut Row,
    steps: &mut Steps<L>,
) -> Result<bool, CrFault>
    requires going { S.failed store.old ≡ false }
    requires there { block < shape_blocks (S.shape_of store.old) }
    requires empty { page.old ≡ None }
    requires whole { S.tells → AreBlocks (S.shape_of store.old) (S.blocks store.old) }
    requires number { S.tells → number ≡ lsn_at (S.blocks store.old) block }
    requires none { S.tells → HasNoneIn (S.shape_of store.old) (S.blocks store.old) block snapshot.now }
    ensures given { S.tells → (h : History)
        → IsReadWith (S.shape_of store.old) (S.blocks store.old) copies.old.kept block h snapshot.now
        → IfOk result (λ found. found ≡ true
        → IsNext wanted.after wanted.lo wanted.hi (answer_to h snapshot.now) row.new) }
    ensures none { S.tells → (h : History)
        → IsReadWith (S.shape_of store.old) (S.blocks store.old) copies.old.kept block h snapshot.now
        → IfOk result (λ found. found ≡ false → (k : ℕ)
        → IsWanted wanted.after wanted.lo wanted.hi k → answer_to h snapshot.now k ≡ None) }
    ensures old { S.tells → (h : History)
        → IsReadWith (S.shape_of store.old) (S.blocks store.old) copies.old.kept block h snapshot.now
        → IfErr result (IsHomeOld (S.shape_of store.old) (S.blocks store.old) block h snapshot.now) }
    ensures kept { IfOk result (λ found. found ≡ false → row.new ≡ row.old) }
    ensures same { IfErr result (λ fault. row.new ≡ row.old) }
    ensures passed_over { IfErr result (λ fault.
        Serves copies.old.kept block number snapshot.now.scn snapshot.now.scn → ⊥) }
    ensures in_place { Serves copies.old.kept block number snapshot.now.scn snapshot.now.scn
        → scratch.new.cells ≡ scratch.old.cells }
    ensures turns { Turns block number snapshot.now.scn result copies.old copies.new }
    ensures keeps { S.tells → Keeps (S.shape_of store.old) (S.blocks store.old) block snapshot.now
        copies.old.kept copies.new.kept }
    ensures page { result ≡ Ok true → IfSome page.new (GoesOn S.Store store.new copies.new.kept block snapshot.now
        (Some row.new.key) wanted.lo wanted.hi) }
    ensures ended { (result ≡ Ok true → ⊥) → page.new ≡ None }
    ensures logs { Logs S.Store store.old store.new [] (not (is_failed result)) }
{
    let scn = snapshot.scn;
    let key = CopyKey { block, scn };
    if let Some(found) = next_kept(copies, key, number, wanted, page, row) {
        copies.touch(key);
        return Ok(found);
    }
    build_shared(store, block, number, snapshot, scratch, copies, steps)?;
    Ok(scratch.next(wanted.after, wanted.lo, wanted.hi, row))
}

/// The next row of a home in which something is above the snapshot: of one that is kept at the snapshot and serves, or
/// else of one that is rebuilt. The undo records are counted in a ledger that nobody reads.
fn next_rebuilt<S: Store, L: Ledger>(
    store: &mut S,
    block: BlockNo,
    snapshot: &Snapshot,
    wanted: Wanted,
    scratch: &mut Scratch,
    copies: &mut Copies,
    page: &mut Page,
    row: &mut Row,
    blank: Blank,
) -> Result<bool, CrFault>
    requires name { blank.name ≡ L.name }
    requires parts { blank.parts ≡ L.parts }
    requires some { 0 < blank.parts }
    requires going { S.failed store.old ≡ false }
    requires there { block < shape_blocks (S.shape_of store.old) }
    requires empty { page.old ≡ None }
    ensures given { S.tells → (h : History)
        → IsReadWith (S.shape_of store.old) (S.blocks store.old) copies.old.kept block h snapshot.now
        → IfOk result (λ found. found ≡ true
        → IsNext wanted.after wanted.lo wanted.hi (answer_to h snapshot.now) row.new) }
    ensures none { S.tells → (h : History)
        → IsReadWith (S.shape_of store.old) (S.blocks store.old) copies.old.kept block h snapshot.now
        → IfOk result (λ found. found ≡ false → (k : ℕ)
        → IsWanted wanted.after wanted.lo wanted.hi k → answer_to h snapshot.now k ≡ None) }
    ensures old { S.tells → (h : History)
        → IsReadWith (S.shape_of store.old) (S.blocks store.old) copies.old.kept block h snapshot.now
        → IfErr result (IsHomeOld (S.shape_of store.old) (S.blocks store.old) block h snapshot.now) }
    ensures kept { IfOk result (λ found. found ≡ false → row.new ≡ row.old) }
    ensures same { IfErr result (λ fault. row.new ≡ row.old) }
    ensures passed_over { S.tells → IfErr result (λ fault. is_fault fault ≡ false
        → ServesAt (S.shape_of store.old) (S.blocks store.old) copies.old.kept block snapshot.now
        snapshot.now.scn → ⊥) }
    ensures keeps { S.tells → Keeps (S.shape_of store.old) (S.blocks store.old) block snapshot.now
        copies.old.kept copies.new.kept }
    ensures turns { S.tells → is_failed result ≡ false
        → HasNoneIn (S.shape_of store.old) (S.blocks store.old) block snapshot.now
        → Turns block (lsn_at (S.blocks store.old) block) snapshot.now.scn result copies.old copies.new }
    ensures unshared { S.tells → (HasNoneIn (S.shape_of store.old) (S.blocks store.old) block snapshot.now → ⊥)
        → copies.new ≡ copies.old }
    ensures page { result ≡ Ok true → IfSome page.new (GoesOn S.Store store.new copies.new.kept block snapshot.now
        (Some row.new.key) wanted.lo wanted.hi) }
    ensures ended { (result ≡ Ok true → ⊥) → page.new ≡ None }
    ensures logs { Logs S.Store store.old store.new [] (not (is_failed result)) }
{
    let mut steps = Steps::<L>::new(blank);
    match shared_number(store, block, snapshot, scratch)? {
        None => next_alone(store, block, snapshot, wanted, scratch, row, &mut steps),
        Some(number) => next_shared(
            store, block, number, snapshot, wanted, scratch, copies, page, row, &mut steps,
        ),
    }
}

/// Puts the row of the least key that is asked for, as the block showed it at a snapshot, into `row`; false where it
/// showed none, and the row stays as it was. Where no change of the block is above the snapshot its row is read as it
/// stands, and no other is copied: that needs no kept home and makes none. Else, where a home is kept at the snapshot
/// that serves the reader, the row is read from it in its place: that is never `TooOld`, whatever was given up since,
/// and a page for many rows has those behind it then.
/// Else the home is rebuilt in the scratch, as `build_with` does it, and kept. What the scratch has afterwards is open.
/// `TooOld` only where what the rebuild needs was given up by a segment, above the snapshot; `Failed` only where a call
/// failed. The store is given no group.
// A scan comes here only where a block doesn't tell its rows by itself, and isn't to pay for it elsewhere.
#[inline(never)]
pub fn next_at<S: Store>(
    store: &mut S,
    block: BlockNo,
    snapshot: &Snapshot,
    wanted: Wanted,
    scratch: &mut Scratch,
    copies: &mut Copies,
    page: &mut Page,
    row: &mut Row,
) -> Result<bool, CrFault>
    requires going { S.failed store.old ≡ false }
    requires there { block < shape_blocks (S.shape_of store.old) }
    requires empty { page.old ≡ None }
    ensures given { S.tells → (h : History)
        → IsReadWith (S.shape_of store.old) (S.blocks store.old) copies.old.kept block h snapshot.now
        → IfOk result (λ found. found ≡ true
        → IsNext wanted.after wanted.lo wanted.hi (answer_to h snapshot.now) row.new) }
    ensures none { S.tells → (h : History)
        → IsReadWith (S.shape_of store.old) (S.blocks store.old) copies.old.kept block h snapshot.now
        → IfOk result (λ found. found ≡ false → (k : ℕ)
        → IsWanted wanted.after wanted.lo wanted.hi k → answer_to h snapshot.now k ≡ None) }
    ensures old { S.tells → (h : History)
        → IsReadWith (S.shape_of store.old) (S.blocks store.old) copies.old.kept block h snapshot.now
        → IfErr result (IsHomeOld (S.shape_of store.old) (S.blocks store.old) block h snapshot.now) }
    ensures kept { IfOk result (λ found. found ≡ false → row.new ≡ row.old) }
    ensures same { IfErr result (λ fault. row.new ≡ row.old) }
    ensures passed_over { S.tells → IfErr result (λ fault. is_fault fault ≡ false
        → ServesAt (S.shape_of store.old) (S.blocks store.old) copies.old.kept block snapshot.now
        snapshot.now.scn → ⊥) }

    // What becomes of the homes that are kept.
    ensures keeps { S.tells → Keeps (S.shape_of store.old) (S.blocks store.old) block snapshot.now
        copies.old.kept copies.new.kept }
    ensures quiet { S.tells → IsQuiet (S.shape_of store.old) (S.blocks store.old) block snapshot.now.scn
        → copies.new ≡ copies.old }
    ensures turns { S.tells → is_failed result ≡ false
        → (IsQuiet (S.shape_of store.old) (S.blocks store.old) block snapshot.now.scn → ⊥)
        → HasNoneIn (S.shape_of store.old) (S.blocks store.old) block snapshot.now
        → Turns block (lsn_at (S.blocks store.old) block) snapshot.now.scn result copies.old copies.new }
    ensures unshared { S.tells → (HasNoneIn (S.shape_of store.old) (S.blocks store.old) block snapshot.now → ⊥)
        → copies.new ≡ copies.old }
    ensures page { result ≡ Ok true → IfSome page.new (GoesOn S.Store store.new copies.new.kept block snapshot.now
        (Some row.new.key) wanted.lo wanted.hi) }
    ensures ended { (result ≡ Ok true → ⊥) → page.new ≡ None }
    ensures logs { Logs S.Store store.old store.new [] (not (is_failed result)) }
{
    if !changes_visible(store, block, snapshot.scn, scratch)? {
        let blank = Blank::new(1);
        return next_rebuilt::<S, Brand>(
            store, block, snapshot, wanted, scratch, copies, page, row, blank,
        );
    }
    // A look at a transaction may have loaded another block. The one that is read may have given way to it, and is
    // loaded once more.
    store.load(block)?;
    let cells = BlockCells {
        block: store.block(),
    };
    Ok(next_plain(&cells, wanted, row))
}
