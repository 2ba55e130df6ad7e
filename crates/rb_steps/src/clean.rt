//! The cleaning of a block by a reader. The engine's fetch calls it for each block that it reads.
ghost use Rattle.std.specs.Prelude.{◌≡◌, ◌⊎◌, ◌<◌, ◌≤◌};
ghost use Rattle.std.specs.Prelude.{ℕ, List, false, not, length, OnOk};
ghost use Rattle.std.specs.Result.{is_err};
ghost use Rattle.rb_base.specs.Blocks.{block_of, table_blocks};
ghost use Rattle.rb_base.specs.Groups.{Patch};
ghost use Rattle.rb_base.specs.Logs.{Logs};
ghost use Rattle.rb_base.specs.declared.ids.Xid.{Xid};
ghost use Rattle.rb_cleanout.specs.Cleaned.{look_of};
ghost use Rattle.rb_heap.specs.Cleaning.{cleaned_home};
ghost use Rattle.rb_heap.specs.Homes.{home_of};
ghost use Rattle.law_crash.specs.Holds.{Holds};
ghost use Rattle.law_crash.specs.Made.{CleanMade, GivesAny};
ghost use Rattle.rb_model.specs.State.{State};
ghost use Rattle.law_blocks.specs.Standing.{env_of};

use rb_base::{BlockNo, Failed, Store, WORN, Workspace};
use rb_cleanout::plan_clean;

/// Cleans block `no`, which is one of rows, of the transactions that have ended: by one group, which waits, or
/// by none where there is nothing to clean, or where the log is worn out. That is asked first, as each block of such a
/// file is still read. `Failed` only where a call of the store failed.
// Most blocks that are read have nothing to clean, and aren't to pay for it.
#[inline(never)]
pub fn clean_step<S: Store>(
    store: &mut S,
    no: BlockNo,
    workspace: &mut Workspace,
) -> Result<(), Failed>
    requires going { S.failed store.old ≡ false }
    requires there { no < table_blocks (S.shape_of store.old) }
    ensures logs { (groups : List (List Patch))
        × Logs S.Store store.old store.new groups (not (is_err result)) × (length groups ≤ 1) }
    ensures gives { S.tells → (h : State) (xids : List Xid) → S.shape_of store.old ≡ h.shape
        → Holds S.Store h xids store.old → GivesAny S.Store store.old store.new (not (is_err result))
        (CleanMade h xids no (S.blocks store.old)) }
    ensures cleaned { S.tells → (h : State) (xids : List Xid) → S.shape_of store.old ≡ h.shape
        → Holds S.Store h xids store.old → S.lsn store.old < WORN
        → OnOk result (home_of (block_of (S.blocks store.new) no)
        ≡ cleaned_home (env_of h.shape (S.blocks store.old)).look (home_of (block_of (S.blocks store.old) no))) }
    // Nothing is left to clean there then, as the headers know it.
    ensures still { S.tells → S.lsn store.new < WORN → OnOk result
        (cleaned_home (look_of (S.shape_of store.new) (S.blocks store.new))
        (home_of (block_of (S.blocks store.new) no)) ≡ home_of (block_of (S.blocks store.new) no)) }
    ensures young { OnOk result ((S.lsn store.new ≤ WORN) ⊎ (S.lsn store.new ≡ S.lsn store.old)) }
{
    if store.logged() >= WORN {
        return Ok(());
    }
    if !plan_clean(store, no, workspace)? {
        return Ok(());
    }
    store.apply(&workspace.group)
}
