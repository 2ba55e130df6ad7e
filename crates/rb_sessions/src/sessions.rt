//! The table itself. The engine owns one, asks it who works in which transaction, and notes each call in it.
ghost use Rattle.std.specs.Option.{option_map};
ghost use Rattle.std.specs.Prelude.{◌≡◌, ◌≢◌, ◌≤◌, ◌<◌, ℕ, List, length, replicate};
ghost use Rattle.std.specs.Prelude.{None, Some, IfOk, IfSome, IfNone, MatchOption};
ghost use Rattle.rb_model.specs.Calls.{without_savepoint};
ghost use Rattle.rb_model.specs.Names.{name_text};
ghost use Rattle.rb_model.specs.State.{savepoint_named};
ghost use Rattle.rb_sessions.specs.Kept as kept;
ghost use Rattle.rb_sessions.specs.Kept.{asked_of_pending, fresh, kept_at, with_kept};

use crate::cursor::{CURSORS, Cursor};
use crate::pending::Pending;
use crate::row::{Session, SessionRow};
use crate::savepoint::SAVEPOINTS;
use rb_base::{NoMemory, Xid};
use rb_model::{Isolation, Name};
use std::alloc::Global;
use std::marker::Model;

/// How many sessions there are.
pub const SESSIONS: usize = 16;

/// Sixteen sessions, numbered from 1.
#[derive(Drop)]
pub struct Sessions {
    // They are on the heap, so that the table, some 37 kB, is made where it stays.
    entries: Vec<SessionRow>,
}

impl Model for Sessions {
    ghost use Rattle.std.specs.Prelude.{◌≡◌, List, length, map};
    ghost use Rattle.rb_sessions.specs.Kept.{KeptSession, session_view};
    ghost use Rattle.rb_sessions.specs.declared.sessions.TheConstants.{SESSIONS};

    ghost Value = { List KeptSession };

    ghost view = { λ a. map session_view a.entries.items };

    ghost invariant = { λ a. length a.entries.items ≡ SESSIONS };
}

impl Sessions {
    /// All sessions without a transaction and without a cursor. None has ever waited.
    pub fn new(alloc: Global) -> Result<Sessions, NoMemory>
        ensures { IfOk result (λ sessions. sessions ≡ replicate SESSIONS fresh) }
    {
        let Ok(mut entries) = Vec::with_capacity(alloc, SESSIONS) else {
            return Err(NoMemory);
        };
        for _ in 0..SESSIONS {
            entries.push_reserved(SessionRow::new());
        }
        Ok(Sessions { entries })
    }

    /// What the table has of session `s`.
    pub fn session(&self, s: u16) -> Session
        requires { (1 ≤ s) × (s ≤ SESSIONS) }
        ensures isolation { result.isolation ≡ (kept_at self.now s).isolation }
        ensures own { result.own ≡ (kept_at self.now s).own }
        ensures length { result.length ≡ (kept_at self.now s).count }
        ensures savepoints { (result.savepoints ≡ length (kept_at self.now s).savepoints)
            × (result.savepoints ≤ SAVEPOINTS) }
        ensures cursors { result.cursors ≡ length (kept_at self.now s).cursors }
    {
        let entry = &self.entries[s as usize - 1];
        Session {
            isolation: entry.isolation,
            own: entry.own,
            length: entry.count,
            savepoints: entry.savepoints.as_slice().len() as u8,
            cursors: entry.cursors.as_slice().len() as u8,
        }
    }

    /// A session whose transaction has that id. None exactly where there is none.
    pub fn owner(&self, xid: Xid) -> Option<u16>
        ensures found { IfSome result (λ s. (1 ≤ s) × (s ≤ SESSIONS) × ((kept_at self.now s).own ≡ Some xid)) }
        ensures none { IfNone result ((s : ℕ) → 1 ≤ s → s ≤ SESSIONS
            → (kept_at self.now s).own ≢ Some xid) }
    {
        for i in 0..SESSIONS {
            if self.entries[i].own == Some(xid) {
                return Some(i as u16 + 1);
            }
        }
        None
    }

    /// Notes how the transaction of session `s` reads from now on.
    pub fn set_isolation(&mut self, s: u16, isolation: Isolation)
        requires { (1 ≤ s) × (s ≤ SESSIONS) }
        ensures { self.new ≡ with_kept self.old s (kept.isolated isolation (kept_at self.old s)) }
    {
        self.entries[s as usize - 1].isolate(isolation);
    }

    /// Notes one change more of session `s`, whose transaction has that id.
    pub fn wrote(&mut self, s: u16, own: Xid)
        requires { (1 ≤ s) × (s ≤ SESSIONS) }
        ensures { self.new ≡ with_kept self.old s (kept.wrote own (kept_at self.old s)) }
    {
        self.entries[s as usize - 1].write(own);
    }

    /// Notes that session `s` has committed, or ended a transaction without changes. Its cursors stay open.
    pub fn commit(&mut self, s: u16)
        requires { (1 ≤ s) × (s ≤ SESSIONS) }
        ensures { self.new ≡ with_kept self.old s (kept.committed (kept_at self.old s)) }
    {
        self.entries[s as usize - 1].commit();
    }

    /// Notes that session `s` has rolled back, and closes the cursors that saw a change of the transaction.
    pub fn rollback(&mut self, s: u16)
        requires { (1 ≤ s) × (s ≤ SESSIONS) }
        ensures { self.new ≡ with_kept self.old s (kept.rolled_back (kept_at self.old s)) }
    {
        self.entries[s as usize - 1].rollback();
    }

    /// Sets a savepoint of session `s` behind its present changes. One of that name is moved there. Fewer than sixteen
    /// of other names stand.
    pub fn set_savepoint(&mut self, s: u16, name: &Name)
        requires session { (1 ≤ s) × (s ≤ SESSIONS) }
        requires room { length (without_savepoint (name_text name.now) (kept_at self.old s).savepoints) < SAVEPOINTS }
        ensures { self.new ≡ with_kept self.old s (kept.with_savepoint (name_text name.now) (kept_at self.old s)) }
    {
        self.entries[s as usize - 1].set_savepoint(name);
    }

    /// How many changes the savepoint of that name keeps. None exactly where session `s` has no such one.
    pub fn savepoint(&self, s: u16, name: &Name) -> Option<u32>
        requires { (1 ≤ s) × (s ≤ SESSIONS) }
        ensures { result ≡ kept.kept_by (savepoint_named (name_text name.now) (kept_at self.now s).savepoints) }
    {
        self.entries[s as usize - 1].savepoint(name)
    }

    /// Notes that the changes of session `s` behind the savepoint of that name are put back, if it is set. It erases
    /// the later savepoints, and closes the cursors that saw one of those changes.
    pub fn rollback_to(&mut self, s: u16, name: &Name)
        requires { (1 ≤ s) × (s ≤ SESSIONS) }
        ensures { self.new ≡ with_kept self.old s (kept.back_at (name_text name.now)
            (savepoint_named (name_text name.now) (kept_at self.old s).savepoints) (kept_at self.old s)) }
    {
        self.entries[s as usize - 1].rollback_to(name);
    }

    /// Adds a cursor of session `s` under a name. Fewer than sixteen are open.
    pub fn open_cursor(&mut self, s: u16, name: &Name, cursor: Cursor)
        requires session { (1 ≤ s) × (s ≤ SESSIONS) }
        requires room { length (kept_at self.old s).cursors < CURSORS }
        ensures { self.new
            ≡ with_kept self.old s (kept.with_cursor (name_text name.now) cursor (kept_at self.old s)) }
    {
        self.entries[s as usize - 1].open_cursor(name, cursor);
    }

    /// The cursor of that name. None exactly where session `s` has no such one open.
    pub fn cursor(&self, s: u16, name: &Name) -> Option<Cursor>
        requires { (1 ≤ s) × (s ≤ SESSIONS) }
        ensures { result ≡ kept.named (name_text name.now) (kept_at self.now s).cursors }
    {
        self.entries[s as usize - 1].cursor(name)
    }

    /// The place of the cursor of that name among those of session `s`. None exactly where it has no such one open. Who
    /// reads the cursor and then notes a row of it seeks the name once.
    pub fn cursor_place(&self, s: u16, name: &Name) -> Option<usize>
        requires { (1 ≤ s) × (s ≤ SESSIONS) }
        ensures { MatchOption result (kept.named (name_text name.now) (kept_at self.now s).cursors ≡ None)
            (λ place. (place < length (kept_at self.now s).cursors)
            × kept.IsPlaceOf (name_text name.now) (kept_at self.now s).cursors place) }
    {
        self.entries[s as usize - 1].place(name)
    }

    /// The cursor at a place of session `s`.
    pub fn cursor_at(&self, s: u16, place: usize) -> Cursor
        requires session { (1 ≤ s) × (s ≤ SESSIONS) }
        requires place { place < length (kept_at self.now s).cursors }
        ensures { (name : List ℕ) → kept.IsPlaceOf name (kept_at self.now s).cursors place
            → kept.named name (kept_at self.now s).cursors ≡ Some result }
    {
        self.entries[s as usize - 1].cursor_at(place)
    }

    /// Notes the key of the last row that the cursor at a place of session `s` gave.
    pub fn took_at(&mut self, s: u16, place: usize, key: u64)
        requires session { (1 ≤ s) × (s ≤ SESSIONS) }
        requires place { place < length (kept_at self.old s).cursors }
        ensures { (name : List ℕ) → kept.IsPlaceOf name (kept_at self.old s).cursors place
            → self.new ≡ with_kept self.old s (kept.with_cursors (kept_at self.old s)
            (kept.with_last name key (kept_at self.old s).cursors)) }
    {
        self.entries[s as usize - 1].take_at(place, key);
    }

    /// Closes the cursor of that name, if it is open.
    pub fn close_cursor(&mut self, s: u16, name: &Name)
        requires { (1 ≤ s) × (s ≤ SESSIONS) }
        ensures { self.new ≡ with_kept self.old s (kept.with_cursors (kept_at self.old s)
            (kept.without (name_text name.now) (kept_at self.old s).cursors)) }
    {
        self.entries[s as usize - 1].close_cursor(name);
    }

    /// Keeps the write with which session `s` waits, in place of an earlier one.
    pub fn hold(&mut self, s: u16, pending: Pending)
        requires { (1 ≤ s) × (s ≤ SESSIONS) }
        ensures { self.new ≡ with_kept self.old s (kept.holding (asked_of_pending pending) (kept_at self.old s)) }
    {
        self.entries[s as usize - 1].hold(pending);
    }

    /// The write with which session `s` waits, or has waited last. None exactly where it has never waited.
    pub fn held(&self, s: u16) -> Option<Pending>
        requires { (1 ≤ s) × (s ≤ SESSIONS) }
        ensures { option_map asked_of_pending result ≡ (kept_at self.now s).asked }
    {
        self.entries[s as usize - 1].held()
    }
}
