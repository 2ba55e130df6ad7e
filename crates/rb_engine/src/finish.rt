//! The end of a session's transaction: a commit, or a rollback. Who waits for the session is ready then.
//! `Engine::commit`, `Engine::commit_later` and `Engine::rollback` call it.
ghost use Rattle.std.specs.Prelude.{◌≡◌, ◌≤◌, ◌<◌, ◌+◌, ◌-◌, ◌^◌, ℕ, List, length};
ghost use Rattle.std.specs.Prelude.{false, not, Some, OnOk};
ghost use Rattle.std.specs.Result.{is_err};
ghost use Rattle.rb_base.specs.Counts.{IsCounted, IsCountedAs, err_is};
ghost use Rattle.rb_engine.specs.Does.{Does, IsInStep, Stands};
ghost use Rattle.rb_engine.specs.Finishing.{Commits, HasNoNumber, commit_call, number_told};
ghost use Rattle.rb_engine.specs.Makes.{Makes};
ghost use Rattle.law_crash.specs.Holds.{Holds};
ghost use Rattle.law_crash.specs.Keeps.{KeepsRows};
ghost use Rattle.rb_model.specs.Answers.{commit_answer, plain_answer};
ghost use Rattle.rb_model.specs.Calls.{is_disk_fault};
ghost use Rattle.rb_model.specs.Calls as machine;
ghost use Rattle.rb_model.specs.Queue.{is_queued};
ghost use Rattle.rb_model.specs.Rows.{last_scn};
ghost use Rattle.rb_model.specs.State.{State, session_own};
ghost use Rattle.rb_sessions.specs.Kept.{kept_at};
ghost use Rattle.law_blocks.specs.Standing.{env_of};
ghost use Rattle.law_write.specs.Verdict.{IsOwnId};
ghost use Rattle.rb_rollback.specs.Backs.{SameStore};

use crate::checks::check_session;
use crate::engine::Engine;
use crate::memory::Memory;
use rb_base::{Failed, SLOTS, Scn, Store, Workspace, Xid};
use rb_model::Refusal;
use rb_rollback::put_all_back;
use rb_sessions::SESSIONS;
use rb_steps::commit_step;

/// When a commit is made last, with all groups before it.
#[derive(Clone, Copy)]
pub enum Lasting {
    /// In its own call, before its number is answered.
    AtOnce,
    /// By a later call.
    Later,
}

/// Gives the store the group of a commit, and makes all groups last if that is to be at once.
fn give_commit<T: Store>(
    store: &mut T,
    workspace: &mut Workspace,
    xid: Xid,
    scn: Scn,
    lasting: Lasting,
) -> Result<(), Failed>
    requires going { T.failed store.old ≡ false }
    requires there { xid.seg < (T.shape_of store.old).segments }
    requires slot { xid.slot < SLOTS }
    requires few { T.lsn store.old < 2 ^ 62 }
    ensures commits { T.tells → (h : State) (xids : List Xid) (who : ℕ) → T.shape_of store.old ≡ h.shape
        → Holds T.Store h xids store.old → 1 ≤ who → who ≤ length h.sessions
        → IsOwnId h (env_of h.shape (T.blocks store.old)) who (Some xid)
        → 0 < length (session_own h who) → h.stopped ≡ false → scn ≡ last_scn h.commits + 1
        → Commits T.Store lasting h xids who xid store.old store.new (not (is_err result)) }
    ensures holds_back { lasting ≡ Lasting.Later → OnOk result (T.holds_back store.old store.new) }
    ensures lsn { OnOk result (T.lsn store.new ≤ T.lsn store.old + 1) }
    ensures same { SameStore T.Store store.old store.new }
    ensures failed { T.failed store.new ≡ is_err result }
    ensures counted { IsCounted (T.faults store.old) (T.faults store.new) result }
{
    commit_step(store, xid, scn, workspace)?;
    match lasting {
        Lasting::AtOnce => store.flush(),
        Lasting::Later => Ok(()),
    }
}

/// Commits a session's changes, of which there are some.
fn commit_changes<T: Store>(
    memory: &mut Memory,
    store: &mut T,
    workspace: &mut Workspace,
    s: u16,
    xid: Xid,
    lasting: Lasting,
) -> Result<Option<u64>, Refusal>
    requires step { IsInStep T.Store memory.old store.old }
    requires going { memory.old.stopped ≡ false }
    requires session { (1 ≤ s) × (s ≤ SESSIONS) }
    requires own { (kept_at memory.old.sessions s).own ≡ Some xid }
    requires some { 0 < (kept_at memory.old.sessions s).count }
    requires free { is_queued s memory.old.waits ≡ false }
    ensures step { IsInStep T.Store memory.new store.new }
    ensures did { (h : State) → Stands T.Store h (record { memory = memory.old; store = store.old })
        → Does T.Store h (commit_call lasting s) (commit_answer (number_told lasting) result)
        (record { memory = memory.old; store = store.old }) (record { memory = memory.new; store = store.new }) }
    ensures makes { (h : State) → Stands T.Store h (record { memory = memory.old; store = store.old })
        → err_is is_disk_fault result ≡ false
        → Makes h (commit_call lasting s) (commit_answer (number_told lasting) result) (T.lsn store.new)
        (T.blocks store.old) (T.blocks store.new) }
    ensures rows { (h : State) → Stands T.Store h (record { memory = memory.old; store = store.old })
        → OnOk result (KeepsRows h.shape (T.blocks store.old) (T.blocks store.new)) }
    ensures holds_back { HasNoNumber result → T.holds_back store.old store.new }
    ensures waits { lasting ≡ Lasting.Later → err_is is_disk_fault result ≡ false
        → T.holds_back store.old store.new }
    ensures same { SameStore T.Store store.old store.new }
    ensures disk { IsCountedAs (T.faults store.old) (T.faults store.new) (err_is is_disk_fault result) }
{
    let scn = memory.scn.saturating_add(1);
    match give_commit(store, workspace, xid, scn, lasting) {
        Ok(()) => {
            memory.sessions.commit(s);
            memory.waits.free(s);
            memory.scn = scn;
            Ok(Some(scn))
        }
        Err(_) => Err(memory.fail()),
    }
}

/// Ends the transaction of a session, of which no change is left.
fn end_without_changes<T: Store>(
    memory: &mut Memory,
    store: &mut T,
    workspace: &mut Workspace,
    s: u16,
    xid: Xid,
) -> Result<Option<u64>, Refusal>
    requires step { IsInStep T.Store memory.old store.old }
    requires going { memory.old.stopped ≡ false }
    requires session { (1 ≤ s) × (s ≤ SESSIONS) }
    requires own { (kept_at memory.old.sessions s).own ≡ Some xid }
    requires none { (kept_at memory.old.sessions s).count ≡ 0 }
    requires free { is_queued s memory.old.waits ≡ false }
    ensures step { IsInStep T.Store memory.new store.new }
    ensures did { (l : Lasting) (h : State) → Stands T.Store h (record { memory = memory.old; store = store.old })
        → Does T.Store h (commit_call l s) (commit_answer (number_told l) result)
        (record { memory = memory.old; store = store.old }) (record { memory = memory.new; store = store.new }) }
    ensures makes { (l : Lasting) (h : State)
        → Stands T.Store h (record { memory = memory.old; store = store.old })
        → err_is is_disk_fault result ≡ false → Makes h (commit_call l s) (commit_answer (number_told l) result)
        (T.lsn store.new) (T.blocks store.old) (T.blocks store.new) }
    ensures rows { (h : State) → Stands T.Store h (record { memory = memory.old; store = store.old })
        → OnOk result (KeepsRows h.shape (T.blocks store.old) (T.blocks store.new)) }
    ensures holds_back { err_is is_disk_fault result ≡ false → T.holds_back store.old store.new }
    ensures same { SameStore T.Store store.old store.new }
    ensures disk { IsCountedAs (T.faults store.old) (T.faults store.new) (err_is is_disk_fault result) }
{
    match put_all_back(store, workspace, xid, 0) {
        Ok(()) => {}
        Err(_) => return Err(memory.fail()),
    }
    memory.sessions.commit(s);
    memory.waits.free(s);
    Ok(None)
}

/// Puts back the changes of a session's transaction, and ends it.
fn roll_back_changes<T: Store>(
    memory: &mut Memory,
    store: &mut T,
    workspace: &mut Workspace,
    s: u16,
    xid: Xid,
) -> Result<(), Refusal>
    requires step { IsInStep T.Store memory.old store.old }
    requires going { memory.old.stopped ≡ false }
    requires session { (1 ≤ s) × (s ≤ SESSIONS) }
    requires own { (kept_at memory.old.sessions s).own ≡ Some xid }
    requires free { is_queued s memory.old.waits ≡ false }
    ensures step { IsInStep T.Store memory.new store.new }
    ensures did { (h : State) → Stands T.Store h (record { memory = memory.old; store = store.old })
        → Does T.Store h (machine.Rollback s) (plain_answer result)
        (record { memory = memory.old; store = store.old }) (record { memory = memory.new; store = store.new }) }
    ensures holds_back { err_is is_disk_fault result ≡ false → T.holds_back store.old store.new }
    ensures makes { (h : State) → Stands T.Store h (record { memory = memory.old; store = store.old })
        → err_is is_disk_fault result ≡ false → Makes h (machine.Rollback s) (plain_answer result)
        (T.lsn store.new) (T.blocks store.old) (T.blocks store.new) }
    ensures same { SameStore T.Store store.old store.new }
    ensures disk { IsCountedAs (T.faults store.old) (T.faults store.new) (err_is is_disk_fault result) }
{
    let count = memory.sessions.session(s).length;
    match put_all_back(store, workspace, xid, count) {
        Ok(()) => {
            memory.sessions.rollback(s);
            memory.waits.free(s);
            Ok(())
        }
        Err(_) => Err(memory.fail()),
    }
}

/// Makes the session's changes one more commit. Without changes it ends the transaction and answers None.
pub fn do_commit<T: Store>(
    memory: &mut Memory,
    store: &mut T,
    workspace: &mut Workspace,
    s: u16,
    lasting: Lasting,
) -> Result<Option<u64>, Refusal>
    requires step { IsInStep T.Store memory.old store.old }
    ensures step { IsInStep T.Store memory.new store.new }
    ensures did { (h : State) → Stands T.Store h (record { memory = memory.old; store = store.old })
        → Does T.Store h (commit_call lasting s) (commit_answer (number_told lasting) result)
        (record { memory = memory.old; store = store.old }) (record { memory = memory.new; store = store.new }) }
    ensures makes { (h : State) → Stands T.Store h (record { memory = memory.old; store = store.old })
        → err_is is_disk_fault result ≡ false
        → Makes h (commit_call lasting s) (commit_answer (number_told lasting) result) (T.lsn store.new)
        (T.blocks store.old) (T.blocks store.new) }
    ensures rows { (h : State) → Stands T.Store h (record { memory = memory.old; store = store.old })
        → OnOk result (KeepsRows h.shape (T.blocks store.old) (T.blocks store.new)) }
    ensures holds_back { HasNoNumber result → T.holds_back store.old store.new }
    ensures waits { lasting ≡ Lasting.Later → err_is is_disk_fault result ≡ false
        → T.holds_back store.old store.new }
    ensures same { SameStore T.Store store.old store.new }
    ensures disk { IsCountedAs (T.faults store.old) (T.faults store.new) (err_is is_disk_fault result) }
{
    check_session(memory, s)?;
    let session = memory.sessions.session(s);
    match session.own {
        Some(xid) if session.length > 0 => commit_changes(
            memory, store, workspace, s, xid, lasting,
        ),
        // A rollback to a savepoint may have left the slot alone.
        Some(xid) => end_without_changes(memory, store, workspace, s, xid),
        None => {
            memory.sessions.commit(s);
            memory.waits.free(s);
            Ok(None)
        }
    }
}

/// Puts the session's changes back, closes the cursors that saw them, and ends the transaction.
pub fn do_rollback<T: Store>(
    memory: &mut Memory,
    store: &mut T,
    workspace: &mut Workspace,
    s: u16,
) -> Result<(), Refusal>
    requires step { IsInStep T.Store memory.old store.old }
    ensures step { IsInStep T.Store memory.new store.new }
    ensures did { (h : State) → Stands T.Store h (record { memory = memory.old; store = store.old })
        → Does T.Store h (machine.Rollback s) (plain_answer result)
        (record { memory = memory.old; store = store.old }) (record { memory = memory.new; store = store.new }) }
    ensures holds_back { err_is is_disk_fault result ≡ false → T.holds_back store.old store.new }
    ensures makes { (h : State) → Stands T.Store h (record { memory = memory.old; store = store.old })
        → err_is is_disk_fault result ≡ false → Makes h (machine.Rollback s) (plain_answer result)
        (T.lsn store.new) (T.blocks store.old) (T.blocks store.new) }
    ensures same { SameStore T.Store store.old store.new }
    ensures disk { IsCountedAs (T.faults store.old) (T.faults store.new) (err_is is_disk_fault result) }
{
    check_session(memory, s)?;
    match memory.sessions.session(s).own {
        Some(xid) => roll_back_changes(memory, store, workspace, s, xid),
        None => {
            memory.sessions.rollback(s);
            memory.waits.free(s);
            Ok(())
        }
    }
}

impl<T: Store> Engine<T> {
    /// Makes the session's changes one more commit, which is in the file in every image once its number is answered,
    /// with all commits before it. Without changes it answers None. No block of rows is written: what a commit makes
    /// true stands in a header.
    pub fn commit(&mut self, s: u16) -> Result<Option<u64>, Refusal>
        ensures did { (h : State) → Stands T.Store h self.old → Does T.Store h
            (machine.Commit s) (commit_answer machine.Committed result) self.old self.new }
        ensures makes { (h : State) → Stands T.Store h self.old → err_is is_disk_fault result ≡ false
            → Makes h (machine.Commit s) (commit_answer machine.Committed result)
            (T.lsn self.new.store) (T.blocks self.old.store) (T.blocks self.new.store) }
        ensures rows { (h : State) → Stands T.Store h self.old
            → OnOk result (KeepsRows h.shape (T.blocks self.old.store) (T.blocks self.new.store)) }
        ensures holds_back { HasNoNumber result → T.holds_back self.old.store self.new.store }
        ensures same { SameStore T.Store self.old.store self.new.store }
        ensures disk { IsCountedAs (T.faults self.old.store) (T.faults self.new.store)
            (err_is is_disk_fault result) }
    {
        do_commit(
            &mut self.memory,
            &mut self.store,
            &mut self.workspace,
            s,
            Lasting::AtOnce,
        )
    }

    /// Makes the session's changes one more commit, which all sessions see at once. It lasts for certain once a later
    /// `commit` with changes, `flush` or `checkpoint` has answered: a crash before may lose it, with each commit behind
    /// it. So many commits can share one flush. Without changes it answers None.
    pub fn commit_later(&mut self, s: u16) -> Result<Option<u64>, Refusal>
        ensures did { (h : State) → Stands T.Store h self.old → Does T.Store h
            (machine.CommitLater s) (commit_answer machine.Numbered result) self.old self.new }
        ensures makes { (h : State) → Stands T.Store h self.old → err_is is_disk_fault result ≡ false
            → Makes h (machine.CommitLater s) (commit_answer machine.Numbered result)
            (T.lsn self.new.store) (T.blocks self.old.store) (T.blocks self.new.store) }
        ensures rows { (h : State) → Stands T.Store h self.old
            → OnOk result (KeepsRows h.shape (T.blocks self.old.store) (T.blocks self.new.store)) }
        ensures holds_back { err_is is_disk_fault result ≡ false
            → T.holds_back self.old.store self.new.store }
        ensures same { SameStore T.Store self.old.store self.new.store }
        ensures disk { IsCountedAs (T.faults self.old.store) (T.faults self.new.store)
            (err_is is_disk_fault result) }
    {
        do_commit(
            &mut self.memory,
            &mut self.store,
            &mut self.workspace,
            s,
            Lasting::Later,
        )
    }

    /// Puts back all changes of the session's transaction, one by one, closes the cursors that saw them, and ends it.
    pub fn rollback(&mut self, s: u16) -> Result<(), Refusal>
        ensures did { (h : State) → Stands T.Store h self.old → Does T.Store h
            (machine.Rollback s) (plain_answer result) self.old self.new }
        ensures holds_back { err_is is_disk_fault result ≡ false
            → T.holds_back self.old.store self.new.store }
        ensures makes { (h : State) → Stands T.Store h self.old → err_is is_disk_fault result ≡ false
            → Makes h (machine.Rollback s) (plain_answer result)
            (T.lsn self.new.store) (T.blocks self.old.store) (T.blocks self.new.store) }
        ensures same { SameStore T.Store self.old.store self.new.store }
        ensures disk { IsCountedAs (T.faults self.old.store) (T.faults self.new.store)
            (err_is is_disk_fault result) }
    {
        do_rollback(&mut self.memory, &mut self.store, &mut self.workspace, s)
    }
}
