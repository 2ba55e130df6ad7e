//! Puts back the live changes of one transaction. The rollback of its table slot calls it.
ghost use Rattle.std.specs.Prelude.{◌≡◌, ◌+◌, ◌^◌, ◌<◌, ◌≤◌, ℕ, List};
ghost use Rattle.std.specs.Prelude.{false, true, not, IfOk};
ghost use Rattle.std.specs.Result.{is_err};
ghost use Rattle.rb_base.specs.Blocks.{IsShape};
ghost use Rattle.rb_model.specs.Rows.{TableRow};
ghost use Rattle.rb_restart.specs.Steps.{HasLive, MayRoll, Rolls};

use rb_base::{Failed, SLOTS, Shape, Store, Workspace, Xid};
use rb_undo::back;

/// Puts back the newest live change of a transaction, and answers whether it did. It does where the transaction runs
/// and has one, but for a damaged file, in which no record is found.
fn put_back<S: Store>(
    store: &mut S,
    shape: Shape,
    xid: Xid,
    workspace: &mut Workspace,
) -> Result<bool, Failed>
    requires going { S.failed store.old ≡ false }
    requires shape { shape ≡ S.shape_of store.old }
    requires in_range { IsShape shape }
    requires there { xid.seg < shape.segments }
    requires slot { xid.slot < SLOTS }
    requires few { S.lsn store.old < 2 ^ 62 }
    ensures rolls { Rolls S.Store shape store.old store.new 1 (not (is_err result)) (λ now. Unit {0}) }
    ensures less { S.tells → IfOk result (λ done. done ≡ true → (n : ℕ)
        → HasLive shape (S.blocks store.old) xid (n + 1) → HasLive shape (S.blocks store.new) xid n) }
    ensures done { S.tells → (n number : ℕ) (rows : List TableRow)
        → HasLive shape (S.blocks store.old) xid (n + 1)
        → MayRoll shape number rows (S.lsn store.old) (S.blocks store.old) → IfOk result (λ done. done ≡ true) }
{
    let logged = store.logged();
    back(store, xid, workspace)?;
    Ok(store.logged() > logged)
}

/// Puts back the newest `live` changes of a transaction that runs, the newest first. Of one that has so many none is
/// live then. It ends where one can't be put back, as in a damaged file.
pub fn roll_back<S: Store>(
    store: &mut S,
    shape: Shape,
    xid: Xid,
    live: u32,
    workspace: &mut Workspace,
) -> Result<(), Failed>
    requires going { S.failed store.old ≡ false }
    requires shape { shape ≡ S.shape_of store.old }
    requires in_range { IsShape shape }
    requires there { xid.seg < shape.segments }
    requires slot { xid.slot < SLOTS }
    requires few { S.lsn store.old + live < 2 ^ 62 }
    ensures { Rolls S.Store shape store.old store.new live (not (is_err result))
        (λ now. HasLive shape (S.blocks store.old) xid live → HasLive shape now xid 0) }
{
    for _change in 0..live {
        if !put_back(store, shape, xid, workspace)? {
            return Ok(());
        }
    }
    Ok(())
}
