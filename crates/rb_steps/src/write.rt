//! One write of a session, as what the machine makes of it. The engine's write calls it.
ghost use Rattle.std.specs.Prelude.{◌≡◌, ◌<◌, ◌≤◌, ℕ, List, [], true, false, not};
ghost use Rattle.std.specs.Prelude.{length, Some, IfOk, IfErr, OnErr, OnOk};
ghost use Rattle.rb_write.specs.Asks.{IsShort};
ghost use Rattle.rb_write.specs.Refusals.{has_failed};
ghost use Rattle.rb_base.specs.Groups.{Patch};
ghost use Rattle.rb_base.specs.Logs.{Logs, group_of};
ghost use Rattle.rb_base.specs.declared.ids.Xid.{Xid};
ghost use Rattle.law_crash.specs.Made.{GivesOne, WriteMade};
ghost use Rattle.rb_model.specs.State.{State};
ghost use Rattle.law_blocks.specs.Standing.{logged_of};
ghost use Rattle.rb_model.specs.Answers.{action_by};
ghost use Rattle.rb_steps.specs.Steps.{IsAbout, IsRefusedAs, MayWrite};

use rb_base::{SLOTS, Store, WORN, Workspace, Xid};
use rb_write::{Ask, AttemptFault, attempt};

/// Writes a key of a table for a session, whose transaction has the id that is asked with, if it has a table slot. The
/// answer is the transaction's id, or why nothing is written. `Failed` only where a call of the store failed. What the
/// workspace has afterwards is open. No other session holds the key, and no commit above the snapshot of a serializable
/// transaction has changed the row. It is `attempt`, and what it adds is its contract, which speaks of the machine's
/// state: a write that is done is the machine's next state, and a refusal its first test that applies. `NoSlot` is
/// behind the tests of the key and its home: no slot is left in the segment in which the session would begin.
pub fn write_step<S: Store>(
    store: &mut S,
    ask: &Ask<'_>,
    workspace: &mut Workspace,
) -> Result<Xid, AttemptFault>
    requires going { S.failed store.old ≡ false }
    requires table { (1 ≤ ask.now.table) × (ask.now.table ≤ (S.shape_of store.old).tables) }
    requires short { IsShort ask.now.op }
    requires own { (x : Xid) → ask.now.own ≡ Some x
        → (x.seg < (S.shape_of store.old).segments) × (x.slot < SLOTS) }
    ensures logs { (patches : List Patch)
        × Logs S.Store store.old store.new (group_of patches) (not (has_failed result)) }
    ensures there { IfOk result (λ x. (x.seg < (S.shape_of store.old).segments) × (x.slot < SLOTS)) }
    ensures gives { S.tells → (h : State) (xids : List Xid) (s : ℕ)
        → IsAbout h xids s ask.now.own (S.blocks store.old)
        → S.shape_of store.old ≡ h.shape → s ≤ length h.sessions → MayWrite h s ask.now.table ask.now.key
        → S.lsn store.old ≡ logged_of h.shape (S.blocks store.old)
        → IfOk result (λ x. GivesOne S.Store store.old store.new true (WriteMade h xids s ask.now.table ask.now.key
        (action_by ask.now.op) x (S.blocks store.old))) }
    ensures failed { S.tells → has_failed result ≡ true → (h : State) (xids : List Xid) (s : ℕ)
        → IsAbout h xids s ask.now.own (S.blocks store.old)
        → S.shape_of store.old ≡ h.shape → s ≤ length h.sessions → MayWrite h s ask.now.table ask.now.key
        → S.lsn store.old ≡ logged_of h.shape (S.blocks store.old)
        → (x : Xid) × GivesOne S.Store store.old store.new false (WriteMade h xids s ask.now.table ask.now.key
        (action_by ask.now.op) x (S.blocks store.old)) }
    ensures refused { S.tells → has_failed result ≡ false → (h : State) (xids : List Xid) (s : ℕ)
        → IsAbout h xids s ask.now.own (S.blocks store.old)
        → S.shape_of store.old ≡ h.shape → s ≤ length h.sessions → MayWrite h s ask.now.table ask.now.key
        → IfErr result (IsRefusedAs h (S.lsn store.old) s ask.now.table ask.now.key (action_by ask.now.op)) }
    ensures unchanged { has_failed result ≡ false → OnErr result (Logs S.Store store.old store.new [] true) }
    ensures numbers { OnOk result (S.lsn store.old < WORN) }
{
    attempt(store, ask, workspace)
}
