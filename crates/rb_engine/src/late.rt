//! Whether a serializable transaction may write a row. A write of a session asks it, also one that is tried again.
ghost use Rattle.std.specs.Prelude.{◌≡◌, ◌≤◌, ℕ, List, [], false, not, None, Ok, IfErr, OnOk};
ghost use Rattle.rb_base.specs.Logs.{Logs};
ghost use Rattle.rb_base.specs.declared.ids.Xid.{Xid};
ghost use Rattle.rb_engine.specs.Checks.{err_faults};
ghost use Rattle.rb_engine.specs.Does.{StopsIf};
ghost use Rattle.rb_engine.specs.Lateness.{IsTimely, LateAs};
ghost use Rattle.rb_model.specs.State.{State};
ghost use Rattle.rb_sessions.specs.declared.sessions.TheConstants.{SESSIONS};
ghost use Rattle.law_blocks.specs.Standing.{env_of};
ghost use Rattle.law_blocks.specs.States.{BlocksStand};
ghost use Rattle.law_sessions.specs.Views.{Remembers};

use crate::memory::Memory;
use rb_base::{Scn, Store};
use rb_cr::{CrFault, Scratch, Snapshot, changed_after};
use rb_model::{Isolation, Refusal};

/// What the write of a row is refused by for which the least number above a snapshot was looked for. Where a call of
/// the store failed, the engine is stopped.
fn refusal(
    memory: &mut Memory,
    scn: Scn,
    found: Result<Option<Scn>, CrFault>,
) -> Result<(), Refusal>
    ensures none { OnOk result (found ≡ Ok None) }
    ensures why { IfErr result (LateAs scn found) }
    ensures stops { StopsIf (err_faults result) memory.old memory.new }
{
    match found {
        Ok(None) => Ok(()),
        Ok(Some(by)) => Err(Refusal::CantSerialize { scn, by }),
        Err(CrFault::TooOld { scn, lost }) => Err(Refusal::TooOld { scn, lost }),
        Err(CrFault::Failed) => Err(memory.fail()),
    }
}

/// Whether the session may write the row of a key that no other holds: not where its transaction is serializable and a
/// commit above the snapshot has changed the row, or that can't be told any more. Where a call of the store failed, the
/// engine is stopped. What `scratch` holds afterwards is open. (Oracle7 Server Concepts, *Data Concurrency*.)
pub fn check_late<T: Store>(
    memory: &mut Memory,
    scratch: &mut Scratch,
    store: &mut T,
    s: u16,
    table: u16,
    key: u64,
) -> Result<(), Refusal>
    requires going { T.failed store.old ≡ false }
    requires session { (1 ≤ s) × (s ≤ SESSIONS) }
    requires table { (1 ≤ table) × (table ≤ (T.shape_of store.old).tables) }
    ensures timely { T.tells → (h : State) (xids : List Xid) → BlocksStand h xids (T.blocks store.old)
        → T.shape_of store.old ≡ h.shape
        → Remembers h xids (env_of h.shape (T.blocks store.old)) memory.old.sessions
        → IsTimely h xids (T.blocks store.old) s table key result }
    ensures logs { Logs T.Store store.old store.new [] (not (err_faults result)) }
    ensures stops { StopsIf (err_faults result) memory.old memory.new }
{
    let Isolation::Serializable { snapshot } = memory.sessions.session(s).isolation else {
        return Ok(());
    };
    let view = Snapshot {
        scn: snapshot,
        own: None,
        upto: 0,
    };
    refusal(
        memory,
        snapshot,
        changed_after(store, table, key, &view, scratch),
    )
}
