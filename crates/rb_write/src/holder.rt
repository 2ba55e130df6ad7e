//! Who holds a key: by the key's block as it is, which isn't cleaned. rb_engine's write asks before it writes.
ghost use Rattle.std.specs.Prelude.{◌≡◌, ◌≤◌, not, [], false, length, IfOk};
ghost use Rattle.std.specs.Result.{is_err};
ghost use Rattle.rb_write.specs.Asks.{AreYoung};
ghost use Rattle.rb_write.specs.Holding.{cell_locker, cell_of_key, holder_in, locker};
ghost use Rattle.rb_base.specs.Logs.{Logs};
ghost use Rattle.rb_heap.specs.Homes.{home_of};

use rb_base::{Failed, Store, UNIT, Xid};
use rb_cell::front;
use rb_cleanout::look_up;
use rb_itl::{ENTRIES, OPEN, entry};
use rb_txntable::Look;

/// The transaction of the Open entry that a lock names. 0 names none, and a lock above 8 none that is there.
fn locker(block: &[u8], lock: u8) -> Option<Xid>
    requires { length block.now ≡ UNIT }
    ensures { result ≡ locker (home_of block.now) lock }
{
    if lock == 0 || lock > ENTRIES {
        return None;
    }
    let entry = entry(block, lock - 1);
    (entry.kind == OPEN).then_some(entry.xid)
}

/// The transaction whose Open entry is named by the lock of the key's cell, whether it runs or has ended.
fn locker_of_key(block: &[u8], key: u64) -> Option<Xid>
    requires { length block.now ≡ UNIT }
    ensures { result ≡ cell_locker (home_of block.now) (cell_of_key (home_of block.now) key) }
{
    let c = rb_heap::find(block, key)?;
    locker(block, front(block, c).lock)
}

/// The transaction that holds the key, which runs. A lock whose transaction has ended holds nothing, also where the
/// block isn't cleaned of it yet. Loads one block, and a second one where the key's cell is locked.
pub fn holder_of<S: Store>(store: &mut S, table: u16, key: u64) -> Result<Option<Xid>, Failed>
    requires going { S.failed store.old ≡ false }
    requires table { (1 ≤ table) × (table ≤ (S.shape_of store.old).tables) }
    ensures logs { Logs S.Store store.old store.new [] (not (is_err result)) }
    ensures holder { S.tells → AreYoung (S.shape_of store.old) (S.blocks store.old)
        → IfOk result (λ holder. holder ≡ holder_in (S.shape_of store.old) (S.blocks store.old) table key) }
{
    let shape = store.shape();
    store.load(shape.home_block(table, key))?;
    let Some(xid) = locker_of_key(store.block(), key) else {
        return Ok(None);
    };
    match look_up(store, xid)? {
        Look::Active => Ok(Some(xid)),
        _ => Ok(None),
    }
}
