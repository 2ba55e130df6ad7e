//! Dead transactions put back where they stand in the way of a write. `do_write` calls it.
ghost use Rattle.std.specs.Prelude.{◌≡◌, ◌<◌, ◌≤◌, ℕ, false, IfErr};
ghost use Rattle.rb_base.specs.Counts.{IsCountedAs};
ghost use Rattle.rb_engine.specs.Behind.{LedOr, LessDead};
ghost use Rattle.rb_engine.specs.Checks.{err_faults};
ghost use Rattle.rb_engine.specs.Does.{IsInStep, Stands};
ghost use Rattle.rb_model.specs.Dead.{home_cleared, segment_cleared};
ghost use Rattle.rb_model.specs.State.{State};
ghost use Rattle.rb_rollback.specs.Backs.{SameStore};

use crate::memory::Memory;
use rb_base::{Store, Workspace};
use rb_dead::{clear_home, clear_segment};
use rb_model::Refusal;

/// Puts back whole the dead transactions that have a live change in the home of a key. Where a call of the store
/// failed, the engine is stopped. What the workspace has afterwards is open.
pub fn free_home<T: Store>(
    memory: &mut Memory,
    store: &mut T,
    workspace: &mut Workspace,
    table: u16,
    key: u64,
) -> Result<(), Refusal>
    requires step { IsInStep T.Store memory.old store.old }
    requires going { memory.old.stopped ≡ false }
    requires table { (1 ≤ table) × (table ≤ (T.shape_of store.old).tables) }
    ensures step { IsInStep T.Store memory.new store.new }
    ensures led { (h : State) → Stands T.Store h (record { memory = memory.old; store = store.old })
        → LedOr T.Store h (home_cleared table key h) (record { memory = memory.old; store = store.old })
        (record { memory = memory.new; store = store.new }) (err_faults result) }
    ensures less { LessDead (err_faults result) memory.old memory.new }
    ensures fault { IfErr result (λ why. why ≡ Refusal.DiskFault) }
    ensures holds_back { err_faults result ≡ false → T.holds_back store.old store.new }
    ensures same { SameStore T.Store store.old store.new }
    ensures disk { IsCountedAs (T.faults store.old) (T.faults store.new) (err_faults result) }
{
    if memory.dead == 0 {
        return Ok(());
    }
    let home = store.shape().home_block(table, key);
    let mut owed = memory.dead;
    match clear_home(&memory.sessions, &mut owed, store, workspace, home) {
        Ok(()) => {
            memory.dead = owed;
            Ok(())
        }
        Err(_) => Err(memory.fail()),
    }
}

/// Puts back whole all dead transactions of segment `seg`. Where a call of the store failed, the engine is stopped.
/// What the workspace has afterwards is open.
pub fn free_segment<T: Store>(
    memory: &mut Memory,
    store: &mut T,
    workspace: &mut Workspace,
    seg: u16,
) -> Result<(), Refusal>
    requires step { IsInStep T.Store memory.old store.old }
    requires going { memory.old.stopped ≡ false }
    requires there { seg < (T.shape_of store.old).segments }
    ensures step { IsInStep T.Store memory.new store.new }
    ensures led { (h : State) → Stands T.Store h (record { memory = memory.old; store = store.old })
        → LedOr T.Store h (segment_cleared seg h) (record { memory = memory.old; store = store.old })
        (record { memory = memory.new; store = store.new }) (err_faults result) }
    ensures less { LessDead (err_faults result) memory.old memory.new }
    ensures fault { IfErr result (λ why. why ≡ Refusal.DiskFault) }
    ensures holds_back { err_faults result ≡ false → T.holds_back store.old store.new }
    ensures same { SameStore T.Store store.old store.new }
    ensures disk { IsCountedAs (T.faults store.old) (T.faults store.new) (err_faults result) }
{
    let mut owed = memory.dead;
    match clear_segment(&memory.sessions, &mut owed, store, workspace, seg) {
        Ok(()) => {
            memory.dead = owed;
            Ok(())
        }
        Err(_) => Err(memory.fail()),
    }
}
