//! Opens the blocks of a file: tests them, and puts back what was under way. The opening of an engine calls it.
ghost use Rattle.std.specs.Prelude.{◌≡◌, ◌+◌, ◌^◌, ◌≤◌, ℕ, false, not, List};
ghost use Rattle.std.specs.Prelude.{length};
ghost use Rattle.std.specs.Prelude.{[], IsErrOf, OnOk};
ghost use Rattle.std.specs.Result.{is_err};
ghost use Rattle.rb_base.specs.Blocks.{IsShape};
ghost use Rattle.rb_base.specs.Counts.{err_is, is_failed};
ghost use Rattle.rb_base.specs.Groups.{Patch};
ghost use Rattle.rb_base.specs.Logs.{Logs};
ghost use Rattle.rb_model.specs.State.{opened};
ghost use Rattle.rb_model.specs.Rows.{TableRow};
ghost use Rattle.rb_recovery.specs.Opens.{books_of};
ghost use Rattle.rb_restart.specs.Rollback.{RolledBack, StaySound};
ghost use Rattle.rb_sound.specs.Sound.{AreSound};
ghost use Rattle.law_blocks.specs.Standing.{SoundAs, logged_of};
ghost use Rattle.law_blocks.specs.States.{BlocksStand};

use rb_base::{OpenFault, Store, Workspace};
use rb_restart::roll_back_all;
use rb_sound::blocks_sound;

/// Tests the blocks of a store and puts back what is under way in them: each live change of each transaction that runs,
/// and then no transaction runs. Blocks that the program left then stand for the machine's first state, with the books
/// that their headers told before. It may be stopped at any moment and begun again. NotAStore exactly where the blocks
/// aren't in order, and then nothing is done; `Failed` only where a call of the store failed.
pub fn open_blocks<S: Store>(store: &mut S, workspace: &mut Workspace) -> Result<(), OpenFault>
    requires going { S.failed store.old ≡ false }
    requires few { S.lsn store.old ≤ 2 ^ 61 + 4096 }
    ensures none { S.tells → IsErrOf result OpenFault.NotAStore
        → ¬ AreSound (S.shape_of store.old) (S.blocks store.old) }
    ensures sound { S.tells → OnOk result (AreSound (S.shape_of store.old) (S.blocks store.old)) }
    ensures no_memory { ¬ IsErrOf result OpenFault.NoMemory }
    ensures untouched { S.tells
        → ¬ AreSound (S.shape_of store.old) (S.blocks store.old)
        → Logs S.Store store.old store.new [] (not (err_is is_failed result)) }
    ensures rolled_back { (groups : List (List Patch))
        × Logs S.Store store.old store.new groups (not (err_is is_failed result))
        × (IsErrOf result OpenFault.NotAStore → groups ≡ [])
        × (length groups ≤ 2 ^ 40)
        × ((number : ℕ) (rows : List TableRow) → S.tells
        → S.lsn store.old ≡ logged_of (S.shape_of store.old) (S.blocks store.old)
        → SoundAs (S.shape_of store.old) (S.blocks store.old) number rows
        → StaySound (S.shape_of store.old) number rows (S.lsn store.old) groups (S.blocks store.old)
        × OnOk result (RolledBack (S.shape_of store.old) groups (S.blocks store.old) (S.blocks store.new))) }
    ensures stands { S.tells → (number : ℕ) (rows : List TableRow) → IsShape (S.shape_of store.old)
        → S.lsn store.old ≡ logged_of (S.shape_of store.old) (S.blocks store.old)
        → SoundAs (S.shape_of store.old) (S.blocks store.old) number rows
        → OnOk result (BlocksStand (opened (S.shape_of store.old) number rows
        (books_of (S.shape_of store.old) (S.blocks store.old)) []) [] (S.blocks store.new)
        × (S.lsn store.new ≡ logged_of (S.shape_of store.old) (S.blocks store.new))) }
{
    if !blocks_sound(store)? {
        return Err(OpenFault::NotAStore);
    }
    roll_back_all(store, workspace)?;
    Ok(())
}
