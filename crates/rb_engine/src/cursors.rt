//! Cursors opened and closed: calls of memory alone. `Engine::open_cursor` and `Engine::close_cursor` call it.
ghost use Rattle.std.specs.Prelude.{◌≡◌, ◌≢◌, ◌≤◌, ℕ, IfErr, false};
ghost use Rattle.rb_sessions.specs.declared.sessions.TheConstants.{SESSIONS};
ghost use Rattle.rb_engine.specs.Does.{Does, IsInStep, Stands};
ghost use Rattle.rb_engine.specs.Scanning.{opened_now};
ghost use Rattle.rb_model.specs.Answers.{plain_answer};
ghost use Rattle.rb_model.specs.Calls as machine;
ghost use Rattle.rb_model.specs.Names.{name_text};
ghost use Rattle.rb_model.specs.State.{State};
ghost use Rattle.rb_base.specs.Counts.{IsCountedAs, err_is};
ghost use Rattle.rb_engine.specs.Makes.{Makes};
ghost use Rattle.rb_model.specs.Calls.{is_disk_fault};
ghost use Rattle.rb_rollback.specs.Backs.{SameStore};

use crate::checks::{check_session, check_table};
use crate::engine::Engine;
use crate::memory::Memory;
use rb_base::Store;
use rb_model::{Name, Refusal};
use rb_sessions::{Cursor, snapshot_at};

/// The most cursors of a session that are open.
const CURSORS: u8 = 16;

/// A cursor over a range of keys of a table, as session `s` opens it now: at the last commit number, or at that which
/// its transaction has for all its queries, with the changes that this has now.
pub fn cursor_over(memory: &Memory, s: u16, table: u16, lo: u64, hi: u64) -> Cursor
    requires { (1 ≤ s) × (s ≤ SESSIONS) }
    ensures { result ≡ opened_now memory.now s table lo hi }
{
    let session = memory.sessions.session(s);
    Cursor {
        table,
        lo,
        hi,
        scn: snapshot_at(session.isolation, memory.scn),
        own: session.own,
        upto: session.length,
        last: None,
        present: true,
    }
}

/// Opens a cursor over the rows as the session sees them now: it notes the last commit number, or that which the
/// session's transaction has for all its queries, and how many changes this has.
pub fn do_open_cursor<T: Store>(
    memory: &mut Memory,
    store: &T,
    s: u16,
    name: &Name,
    table: u16,
    lo: u64,
    hi: u64,
) -> Result<(), Refusal>
    requires step { IsInStep T.Store memory.old store.now }
    ensures step { IsInStep T.Store memory.new store.now }
    ensures did { (h : State) → Stands T.Store h (record { memory = memory.old; store = store.now })
        → Does T.Store h (machine.OpenCursor s (name_text name.now) table lo hi) (plain_answer result)
        (record { memory = memory.old; store = store.now }) (record { memory = memory.new; store = store.now }) }
    ensures other { IfErr result (λ why. why ≢ Refusal.DiskFault) }
{
    check_table(memory, store.shape(), s, table)?;
    if memory.sessions.cursor(s, name).is_some() {
        return Err(Refusal::CursorThere);
    }
    if memory.sessions.session(s).cursors >= CURSORS {
        return Err(Refusal::TooManyCursors);
    }
    let cursor = cursor_over(memory, s, table, lo, hi);
    memory.sessions.open_cursor(s, name, cursor);
    Ok(())
}

/// Closes the session's cursor of a name.
pub fn do_close_cursor<T: Store>(
    memory: &mut Memory,
    store: &T,
    s: u16,
    name: &Name,
) -> Result<(), Refusal>
    requires step { IsInStep T.Store memory.old store.now }
    ensures step { IsInStep T.Store memory.new store.now }
    ensures did { (h : State) → Stands T.Store h (record { memory = memory.old; store = store.now })
        → Does T.Store h (machine.CloseCursor s (name_text name.now)) (plain_answer result)
        (record { memory = memory.old; store = store.now }) (record { memory = memory.new; store = store.now }) }
    ensures other { IfErr result (λ why. why ≢ Refusal.DiskFault) }
{
    check_session(memory, s)?;
    if memory.sessions.cursor(s, name).is_none() {
        return Err(Refusal::NoCursor);
    }
    memory.sessions.close_cursor(s, name);
    Ok(())
}

impl<T: Store> Engine<T> {
    /// Opens a cursor over the rows as the session sees them now, or as its transaction does whose mode has a snapshot.
    pub fn open_cursor(
        &mut self,
        s: u16,
        name: &Name,
        table: u16,
        lo: u64,
        hi: u64,
    ) -> Result<(), Refusal>
        ensures did { (h : State) → Stands T.Store h self.old → Does T.Store h
            (machine.OpenCursor s (name_text name.now) table lo hi) (plain_answer result) self.old self.new }
        ensures holds_back { err_is is_disk_fault result ≡ false
            → T.holds_back self.old.store self.new.store }
        ensures makes { (h : State) → Stands T.Store h self.old → err_is is_disk_fault result ≡ false
            → Makes h (machine.OpenCursor s (name_text name.now) table lo hi) (plain_answer result)
            (T.lsn self.new.store) (T.blocks self.old.store) (T.blocks self.new.store) }
        ensures same { SameStore T.Store self.old.store self.new.store }
        ensures disk { IsCountedAs (T.faults self.old.store) (T.faults self.new.store)
            (err_is is_disk_fault result) }
    {
        do_open_cursor(&mut self.memory, &self.store, s, name, table, lo, hi)
    }

    /// Closes the session's cursor of a name.
    pub fn close_cursor(&mut self, s: u16, name: &Name) -> Result<(), Refusal>
        ensures did { (h : State) → Stands T.Store h self.old → Does T.Store h
            (machine.CloseCursor s (name_text name.now)) (plain_answer result) self.old self.new }
        ensures holds_back { err_is is_disk_fault result ≡ false
            → T.holds_back self.old.store self.new.store }
        ensures makes { (h : State) → Stands T.Store h self.old → err_is is_disk_fault result ≡ false
            → Makes h (machine.CloseCursor s (name_text name.now)) (plain_answer result)
            (T.lsn self.new.store) (T.blocks self.old.store) (T.blocks self.new.store) }
        ensures same { SameStore T.Store self.old.store self.new.store }
        ensures disk { IsCountedAs (T.faults self.old.store) (T.faults self.new.store)
            (err_is is_disk_fault result) }
    {
        do_close_cursor(&mut self.memory, &self.store, s, name)
    }
}
