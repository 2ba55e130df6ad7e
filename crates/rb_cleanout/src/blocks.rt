//! Cleans a copy of a block, or a block of a store. Writes of rows and later readers call it.
ghost use Rattle.std.specs.Prelude.{◌≡◌, ◌≢◌, ◌+◌, ◌*◌, ◌^◌, ◌<◌, ◌≤◌};
ghost use Rattle.std.specs.Prelude.{ℕ, true, false, not, List, [], length, IfOk, OnOk};
ghost use Rattle.std.specs.List.{AllByRecursion};
ghost use Rattle.std.specs.Result.{is_err};
ghost use Rattle.rb_base.specs.Blocks.{block_of, table_blocks, AreBlocks};
ghost use Rattle.rb_base.specs.Copies.{SamePatches};
ghost use Rattle.rb_base.specs.Groups.{Patch, group_length};
ghost use Rattle.rb_base.specs.Logs.{Logs, group_of};
ghost use Rattle.rb_base.specs.declared.ids.Xid.{Xid};
ghost use Rattle.rb_cleanout.specs.Cleaned.{HasOpen, IsPlan, PlansClean, look_of};
ghost use Rattle.rb_heap.specs.Cleaning.{cleaned_home, IsCleanPatch};
ghost use Rattle.rb_heap.specs.Homes.{home_of};
ghost use Rattle.rb_heap.specs.Soundness.{StaysShort};
ghost use Rattle.rb_txntable.specs.declared.looks.Look.{Look};

use crate::entries::clean_entries;
use crate::locks::clear_locks;
use rb_base::{BlockNo, Failed, GROUP_BYTES, GROUP_PATCHES, Group, Store, UNIT, Workspace};
use rb_cell::CELLS;
use rb_itl::{ENTRIES, ENTRY_BYTES, OPEN, entry};

/// The most patches that a cleaning adds to a group: one for each entry and one for each lock.
pub const CLEAN_PATCHES: usize = ENTRIES as usize + CELLS as usize;

/// The most bytes that they take there.
pub const CLEAN_BYTES: usize = ENTRIES as usize * (8 + ENTRY_BYTES) + CELLS as usize * (8 + 1);

/// Cleans a copy of block `no`, which is one of rows: each Open entry whose transaction has ended becomes Exact where
/// its number is known and else Bound, the locks that name these entries are cleared, and all else stays. The group has
/// the same bytes as patches. How a transaction stands is read from the headers of the store as it is. `Failed` where a
/// header can't be loaded; copy and group then hold a part of it.
pub fn clean_copy<S: Store>(
    store: &mut S,
    no: BlockNo,
    copy: &mut [u8],
    group: &mut Group,
) -> Result<(), Failed>
    requires going { S.failed store.old ≡ false }
    requires block { length copy.old ≡ UNIT }
    requires count { length group.old + CLEAN_PATCHES ≤ GROUP_PATCHES }
    requires room { group_length group.old + CLEAN_BYTES ≤ GROUP_BYTES }
    ensures logs { Logs S.Store store.old store.new [] (not (is_err result)) }
    ensures length { length copy.new ≡ UNIT }
    ensures patches { OnOk result ((patches : List Patch)
        × SamePatches no copy.old copy.new group.old group.new patches × AllByRecursion (IsCleanPatch no) patches) }
    ensures few { length group.new ≤ length group.old + CLEAN_PATCHES }
    ensures short { group_length group.new ≤ group_length group.old + CLEAN_BYTES }
    ensures cleaned { S.tells → OnOk result (home_of copy.new
        ≡ cleaned_home (look_of (S.shape_of store.old) (S.blocks store.old)) (home_of copy.old)) }
{
    let cleaned = clean_entries(store, no, copy, group)?;
    clear_locks(copy, no, group, &cleaned);
    Ok(())
}

/// Whether some entry of a block of rows is Open: its transaction runs, or no visitor has cleaned the block since it
/// ended.
fn has_open(block: &[u8]) -> bool
    requires { length block.now ≡ UNIT }
    ensures some { result ≡ true → HasOpen (home_of block.now) }
    ensures none { result ≡ false → (look : Xid → Look)
        → cleaned_home look (home_of block.now) ≡ home_of block.now }
{
    for i in 0..ENTRIES {
        if entry(block, i).kind == OPEN {
            return true;
        }
    }
    false
}

/// Makes the group of the workspace one that cleans block `no` of the store, which is one of rows, and answers true;
/// false where there is nothing to clean, and the group is open then. The store is given no group. `Failed` only where
/// a call of the store failed.
pub fn plan_clean<S: Store>(
    store: &mut S,
    no: BlockNo,
    workspace: &mut Workspace,
) -> Result<bool, Failed>
    requires going { S.failed store.old ≡ false }
    requires there { no < table_blocks (S.shape_of store.old) }
    ensures logs { Logs S.Store store.old store.new [] (not (is_err result)) }
    ensures some { IfOk result (λ planned. planned ≡ true → IsPlan no workspace.new.group) }
    ensures plans { S.tells → IfOk result (λ planned. planned ≡ true
        → PlansClean (look_of (S.shape_of store.old) (S.blocks store.old)) no workspace.new.group
        (block_of (S.blocks store.old) no)) }
    ensures none { S.tells → IfOk result (λ planned. planned ≡ false
        → (cleaned_home (look_of (S.shape_of store.old) (S.blocks store.old))
        (home_of (block_of (S.blocks store.old) no))
        ≡ home_of (block_of (S.blocks store.old) no))) }
    ensures whole { S.tells → OnOk result (AreBlocks (S.shape_of store.old) (S.blocks store.old)) }
{
    store.load(no)?;
    // A fetch asks this for each block that doesn't tell its rows, so nothing is copied where nothing is Open.
    if !has_open(store.block()) {
        return Ok(false);
    }
    workspace.home.copy_from_slice(store.block());
    workspace.group.clear();
    clean_copy(store, no, &mut workspace.home, &mut workspace.group)?;
    Ok(workspace.group.patches() > 0)
}

/// Cleans block `no` of the store, which is one of rows, by one group of patches, or by none where there is nothing to
/// clean. What the workspace has afterwards is open. `Failed` only where a call of the store failed. (That a block is
/// cleaned by a later visitor and not by the commit is the delayed cleanout of Oracle7.)
pub fn clean<S: Store>(store: &mut S, no: BlockNo, workspace: &mut Workspace) -> Result<(), Failed>
    requires going { S.failed store.old ≡ false }
    requires there { no < table_blocks (S.shape_of store.old) }
    requires few { S.lsn store.old < 2 ^ 62 }
    ensures logs { (patches : List Patch) × AllByRecursion (IsCleanPatch no) patches
        × Logs S.Store store.old store.new (group_of patches) (not (is_err result)) }
    ensures cleaned { S.tells → OnOk result (home_of (block_of (S.blocks store.new) no)
        ≡ cleaned_home (look_of (S.shape_of store.old) (S.blocks store.old))
        (home_of (block_of (S.blocks store.old) no))) }
    ensures lengths { S.tells → OnOk result (StaysShort (block_of (S.blocks store.old) no)
        (block_of (S.blocks store.new) no)) }
    ensures others { S.tells → OnOk result ((b : ℕ) → b ≢ no
        → block_of (S.blocks store.new) b ≡ block_of (S.blocks store.old) b) }
{
    if !plan_clean(store, no, workspace)? {
        return Ok(());
    }
    store.apply(&workspace.group)
}
