//! Which commit was the first above a snapshot to change a row, by undo. A write of a transaction that is to see the
//! rows of its snapshot alone asks for it.
ghost use Rattle.std.specs.Prelude.{[], ◌≡◌, ◌<◌, ◌≤◌, false, not, IfOk, IfErr};
ghost use Rattle.rb_base.specs.Blocks.{home_block, shape_blocks};
ghost use Rattle.rb_base.specs.Logs.{Logs};
ghost use Rattle.rb_cr.specs.Builds.{IsHomeRead, IsHomeOld};
ghost use Rattle.rb_cr.specs.Faults.{is_failed};
ghost use Rattle.law_read.specs.Late.{late_above};
ghost use Rattle.law_read.specs.Reading.{History};

use crate::blocks::build;
use crate::faults::CrFault;
use crate::scratch::{Scratch, Snapshot};
use crate::steps::Steps;
use crate::visible::changes_visible;
use crate::watch::Watch;
use rb_base::{BlockNo, Scn, Store};
use std::marker::Brand;
use std::mem;
use std::sync::ledger::{Blank, Ledger};

/// The number of the first commit above a snapshot that changed the row of a key in a block: the home is rebuilt for
/// nobody, and the key is watched meanwhile. The undo records are counted in a ledger that nobody reads.
fn first_rebuilt<S: Store, L: Ledger>(
    store: &mut S,
    block: BlockNo,
    key: u64,
    snapshot: &Snapshot,
    scratch: &mut Scratch,
    blank: Blank,
) -> Result<Option<Scn>, CrFault>
    requires name { blank.name ≡ L.name }
    requires parts { blank.parts ≡ L.parts }
    requires some { 0 < blank.parts }
    requires going { S.failed store.old ≡ false }
    requires there { block < shape_blocks (S.shape_of store.old) }
    ensures late { S.tells → (h : History) → IsHomeRead (S.shape_of store.old) (S.blocks store.old) block h
        snapshot.now → IfOk result (λ by. by ≡ late_above snapshot.now.scn key h.list) }
    ensures old { S.tells → (h : History) → IsHomeRead (S.shape_of store.old) (S.blocks store.old) block h
        snapshot.now → IfErr result (IsHomeOld (S.shape_of store.old) (S.blocks store.old) block h snapshot.now) }
    ensures logs { Logs S.Store store.old store.new [] (not (is_failed result)) }
{
    let nobody = Snapshot {
        scn: snapshot.scn,
        own: None,
        upto: 0,
    };
    let mut steps = Steps::<L>::new(blank);
    scratch.watch = Watch::of(Some(key));
    let built = build(store, block, &nobody, scratch, &mut steps);
    let watch = mem::replace(&mut scratch.watch, Watch::of(None));
    built?;
    Ok(watch.first)
}

/// The number of the first commit above a snapshot that gave a key of a table, from 1 on, a row or took its row away,
/// also where a later commit has put it back as it was; none where no commit did. A lock changes nothing, and nor does
/// what isn't committed. Of the snapshot only its number counts: whose it is, and how many changes that transaction
/// sees, doesn't. Where no change of the key's block is above the snapshot the answer is read from the entries of the
/// block; else the home is taken back in the scratch, as for a read. What this has afterwards is open. `TooOld` only
/// where what that needs was given up by a segment, above the snapshot; `Failed` only where a call failed. The store is
/// given no group. (Oracle7 Server Concepts, *Data Concurrency*: a serializable transaction may not write a row that
/// another one changed and committed since it began, ORA-08177. `scn` is when it began.)
pub fn changed_after<S: Store>(
    store: &mut S,
    table: u16,
    key: u64,
    snapshot: &Snapshot,
    scratch: &mut Scratch,
) -> Result<Option<Scn>, CrFault>
    requires going { S.failed store.old ≡ false }
    requires table { (1 ≤ table) × (table ≤ (S.shape_of store.old).tables) }
    ensures late { S.tells → (h : History) → IsHomeRead (S.shape_of store.old) (S.blocks store.old)
        (home_block (S.shape_of store.old) table key) h snapshot.now
        → IfOk result (λ by. by ≡ late_above snapshot.now.scn key h.list) }
    ensures old { S.tells → (h : History) → IsHomeRead (S.shape_of store.old) (S.blocks store.old)
        (home_block (S.shape_of store.old) table key) h snapshot.now
        → IfErr result (IsHomeOld (S.shape_of store.old) (S.blocks store.old)
        (home_block (S.shape_of store.old) table key) h snapshot.now) }
    ensures logs { Logs S.Store store.old store.new [] (not (is_failed result)) }
{
    let block = store.shape().home_block(table, key);
    if changes_visible(store, block, snapshot.scn, scratch)? {
        return Ok(None);
    }
    first_rebuilt::<S, Brand>(store, block, key, snapshot, scratch, Blank::new(1))
}
