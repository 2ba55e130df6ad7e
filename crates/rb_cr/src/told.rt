//! The next row of a block that tells by itself that a snapshot sees each of its changes. Whoever reads rows in the
//! order of their keys asks for it before anything is cleaned or rebuilt.
ghost use Rattle.std.specs.Prelude.{[], ◌≡◌, ◌<◌, ℕ, true, false, not};
ghost use Rattle.std.specs.Prelude.{None, Some, Ok, IfErr, IfOk, IfSome, OnOk};
ghost use Rattle.std.specs.Result.{is_err};
ghost use Rattle.rb_base.specs.Blocks.{block_of, shape_blocks};
ghost use Rattle.rb_base.specs.Logs.{Logs};
ghost use Rattle.rb_base.specs.declared.ids.Xid.{Xid};
ghost use Rattle.rb_cr.specs.Builds.{IsHomeRead};
ghost use Rattle.rb_cr.specs.Clauses.{answer_to};
ghost use Rattle.rb_copies.specs.Copies.{KeptHomes};
ghost use Rattle.rb_cr.specs.Pages.{GoesOn};
ghost use Rattle.rb_cr.specs.Rows.{IsNext, IsWanted};
ghost use Rattle.rb_heap.specs.Cleaning.{cleaned_home};
ghost use Rattle.rb_heap.specs.Homes.{home_of};
ghost use Rattle.rb_txntable.specs.declared.looks.Look.{Look};
ghost use Rattle.law_read.specs.Reading.{History};

use crate::pages::Page;
use crate::plain::BlockCells;
use crate::rows::Wanted;
use crate::scratch::Snapshot;
use crate::visible::all_told_visible;
use rb_base::{BlockNo, Failed, Store};
use rb_model::Row;

/// Where each entry of a block tells by itself that it isn't above a snapshot, puts the row of the least key that is
/// asked for, as the block showed it at the snapshot, into `row`: true where it showed one, and false where it showed
/// none. None where the block doesn't tell, and nothing is known of its rows. One that tells has nothing to clean.
/// Where no row is given the row stays as it was. Where one is, a page for many rows has those behind it then, and else
/// it has none. `Failed` only where the block can't be loaded. The store is given no group.
pub fn next_told<S: Store>(
    store: &mut S,
    block: BlockNo,
    snapshot: &Snapshot,
    wanted: Wanted,
    page: &mut Page,
    row: &mut Row,
) -> Result<Option<bool>, Failed>
    requires going { S.failed store.old ≡ false }
    requires there { block < shape_blocks (S.shape_of store.old) }
    ensures given { S.tells → (h : History) → IsHomeRead (S.shape_of store.old) (S.blocks store.old) block h
        snapshot.now → result ≡ Ok (Some true)
        → IsNext wanted.after wanted.lo wanted.hi (answer_to h snapshot.now) row.new }
    ensures none { S.tells → (h : History) → IsHomeRead (S.shape_of store.old) (S.blocks store.old) block h
        snapshot.now → result ≡ Ok (Some false) → (k : ℕ)
        → IsWanted wanted.after wanted.lo wanted.hi k → answer_to h snapshot.now k ≡ None }
    ensures clean { S.tells → IfOk result (λ told. IfSome told (λ found. (look : Xid → Look)
        → cleaned_home look (home_of (block_of (S.blocks store.old) block))
        ≡ home_of (block_of (S.blocks store.old) block))) }
    ensures kept { IfOk result (λ told. (told ≡ Some true → ⊥) → row.new ≡ row.old) }
    ensures same { IfErr result (λ fault. row.new ≡ row.old) }
    ensures page { result ≡ Ok (Some true) → (kept : KeptHomes) → IfSome page.new (GoesOn S.Store store.new kept
        block snapshot.now (Some row.new.key) wanted.lo wanted.hi) }
    ensures none_told { (result ≡ Ok (Some true) → ⊥) → page.new ≡ None }
    ensures loaded { OnOk result (S.loaded store.new ≡ Some block) }
    ensures logs { Logs S.Store store.old store.new [] (not (is_err result)) }
{
    page.clear();
    store.load(block)?;
    let bytes = store.block();
    if !all_told_visible(bytes, snapshot.scn) {
        return Ok(None);
    }
    let cells = BlockCells { block: bytes };
    Ok(Some(page.begin(&cells, None, wanted, row)))
}
