//! One session in the table: what is told of it, and how each call changes it. `Sessions` keeps sixteen.
ghost use Rattle.std.specs.Option.{option_map};
ghost use Rattle.std.specs.Prelude.{◌≡◌, ◌<◌, ℕ, List, length, map, None, Some, MatchOption};
ghost use Rattle.rb_model.specs.Calls.{without_savepoint};
ghost use Rattle.rb_model.specs.Names.{name_text};
ghost use Rattle.rb_model.specs.State.{savepoint_named};
ghost use Rattle.rb_sessions.specs.Kept as kept;
ghost use Rattle.rb_sessions.specs.Kept.{asked_of_pending, cursor_view, savepoint_view, session_view};

use crate::cursor::{CURSORS, Cursor};
use crate::named::{Named, position_of};
use crate::pending::Pending;
use crate::savepoint::{Mark, SAVEPOINTS};
use arrayvec::ArrayVec;
use rb_base::{Xid, array_of};
use rb_model::{Isolation, Name};

/// What the table tells of a session.
#[derive(Clone, Copy, Debug, PartialEq, Eq)]
pub struct Session {
    /// How its transaction reads.
    pub isolation: Isolation,
    /// The id of its transaction, where that has a table slot.
    pub own: Option<Xid>,
    /// How many live changes its transaction has, up to 2^32 - 1.
    pub length: u32,
    /// How many savepoints its transaction has, up to 16.
    pub savepoints: u8,
    /// How many cursors it has open, up to 16.
    pub cursors: u8,
}

/// A session in the table.
#[derive(Debug, Drop)]
pub(crate) struct SessionRow {
    pub isolation: Isolation,
    pub own: Option<Xid>,
    pub count: u32,
    pub savepoints: ArrayVec<Named<Mark>, SAVEPOINTS>,
    pub cursors: ArrayVec<Named<Cursor>, CURSORS>,
    /// The write with which it waits, or has waited last.
    pub asked: Option<Pending>,
}

/// Notes the key of the last row that the cursor at a place gave.
fn mark_given(cursors: &mut [Named<Cursor>], place: usize, key: u64)
    requires { place < length cursors.old }
    ensures { (name : List ℕ) → kept.IsPlaceOf name (map cursor_view cursors.old) place
        → map cursor_view cursors.new ≡ kept.with_last name key (map cursor_view cursors.old) }
{
    cursors[place].value.last = Some(key);
}

/// Notes that the transaction ends in which the cursors were opened.
fn pass_all(cursors: &mut [Named<Cursor>])
    ensures { map cursor_view cursors.new ≡ map kept.passed (map cursor_view cursors.old) }
{
    for named in cursors.iter_mut() {
        named.value.present = false;
    }
}

/// Closes the cursors of the present transaction that see more than its first `first` changes.
fn close_seeing(cursors: &mut ArrayVec<Named<Cursor>, CURSORS>, first: u32)
    ensures { map cursor_view cursors.new.items ≡ kept.left_open first (map cursor_view cursors.old.items) }
{
    cursors.retain(|named| !(named.value.present && first < named.value.upto));
}

/// Erases the savepoints of a name.
fn erase(savepoints: &mut ArrayVec<Named<Mark>, SAVEPOINTS>, name: &[u8])
    ensures { map savepoint_view savepoints.new.items
        ≡ without_savepoint name.now (map savepoint_view savepoints.old.items) }
{
    savepoints.retain(|named| named.name.as_slice() != name);
}

impl SessionRow {
    /// One without a transaction and without a cursor, which has never waited.
    pub fn new() -> SessionRow
        ensures { session_view result ≡ kept.fresh }
    {
        SessionRow {
            isolation: Isolation::ReadCommitted,
            own: None,
            count: 0,
            savepoints: ArrayVec::new(),
            cursors: ArrayVec::new(),
            asked: None,
        }
    }

    /// Notes how the transaction reads from now on.
    pub fn isolate(&mut self, isolation: Isolation)
        ensures { session_view self.new ≡ kept.isolated isolation (session_view self.old) }
    {
        self.isolation = isolation;
    }

    /// Notes one change more, of the transaction of that id.
    pub fn write(&mut self, own: Xid)
        ensures { session_view self.new ≡ kept.wrote own (session_view self.old) }
    {
        self.own = Some(own);
        self.count = self.count.saturating_add(1);
    }

    /// Notes that the transaction has committed, or ended without changes. The cursors stay open, and the next one
    /// is read committed.
    pub fn commit(&mut self)
        ensures { session_view self.new ≡ kept.committed (session_view self.old) }
    {
        self.isolation = Isolation::ReadCommitted;
        self.own = None;
        self.count = 0;
        self.savepoints.clear();
        pass_all(self.cursors.as_mut_slice());
    }

    /// Notes that the transaction has rolled back, and closes the cursors that saw a change of it.
    pub fn rollback(&mut self)
        ensures { session_view self.new ≡ kept.rolled_back (session_view self.old) }
    {
        close_seeing(&mut self.cursors, 0);
        self.commit();
    }

    /// Sets a savepoint behind the present changes, and erases an earlier one of that name. Fewer than sixteen of other
    /// names stand.
    pub fn set_savepoint(&mut self, name: &Name)
        requires { length (without_savepoint (name_text name.now) (session_view self.old).savepoints) < SAVEPOINTS }
        ensures { session_view self.new ≡ kept.with_savepoint (name_text name.now) (session_view self.old) }
    {
        erase(&mut self.savepoints, name.as_bytes());
        self.savepoints.push(Named {
            name: array_of(name.as_bytes()),
            value: Mark { kept: self.count },
        });
    }

    /// How many changes the savepoint of that name keeps, where it is set.
    pub fn savepoint(&self, name: &Name) -> Option<u32>
        ensures { result
            ≡ kept.kept_by (savepoint_named (name_text name.now) (session_view self.now).savepoints) }
    {
        let savepoints = self.savepoints.as_slice();
        let place = position_of(savepoints, name.as_bytes())?;
        Some(savepoints[place].value.kept)
    }

    /// Notes that the changes behind the savepoint of that name are put back, if it is set: erases the later
    /// savepoints, and closes the cursors that saw one of those changes.
    pub fn rollback_to(&mut self, name: &Name)
        ensures { session_view self.new ≡ kept.back_at (name_text name.now)
            (savepoint_named (name_text name.now) (session_view self.old).savepoints) (session_view self.old) }
    {
        let savepoints = self.savepoints.as_slice();
        let Some(place) = position_of(savepoints, name.as_bytes()) else {
            return;
        };
        let kept = savepoints[place].value.kept;
        self.savepoints.truncate(place + 1);
        close_seeing(&mut self.cursors, kept);
        self.count = self.count.min(kept);
    }

    /// Adds a cursor under a name. Fewer than sixteen are open.
    pub fn open_cursor(&mut self, name: &Name, cursor: Cursor)
        requires { length self.old.cursors.items < CURSORS }
        ensures { session_view self.new ≡ kept.with_cursor (name_text name.now) cursor (session_view self.old) }
    {
        self.cursors.push(Named {
            name: array_of(name.as_bytes()),
            value: cursor,
        });
    }

    /// The cursor of that name, where it is open.
    pub fn cursor(&self, name: &Name) -> Option<Cursor>
        ensures { result ≡ kept.named (name_text name.now) (session_view self.now).cursors }
    {
        let cursors = self.cursors.as_slice();
        let place = position_of(cursors, name.as_bytes())?;
        Some(cursors[place].value)
    }

    /// The place of the first cursor of that name, where one is open.
    pub fn place(&self, name: &Name) -> Option<usize>
        ensures { MatchOption result (kept.named (name_text name.now) (session_view self.now).cursors ≡ None)
            (λ place. (place < length (session_view self.now).cursors)
            × kept.IsPlaceOf (name_text name.now) (session_view self.now).cursors place) }
    {
        position_of(self.cursors.as_slice(), name.as_bytes())
    }

    /// The cursor at a place.
    pub fn cursor_at(&self, place: usize) -> Cursor
        requires { place < length (session_view self.now).cursors }
        ensures { (name : List ℕ) → kept.IsPlaceOf name (session_view self.now).cursors place
            → kept.named name (session_view self.now).cursors ≡ Some result }
    {
        self.cursors.as_slice()[place].value
    }

    /// Notes the key of the last row that the cursor at a place gave.
    pub fn take_at(&mut self, place: usize, key: u64)
        requires { place < length (session_view self.old).cursors }
        ensures { (name : List ℕ) → kept.IsPlaceOf name (session_view self.old).cursors place
            → session_view self.new ≡ kept.with_cursors (session_view self.old)
            (kept.with_last name key (session_view self.old).cursors) }
    {
        mark_given(self.cursors.as_mut_slice(), place, key);
    }

    /// Closes the cursor of that name, if it is open.
    pub fn close_cursor(&mut self, name: &Name)
        ensures { session_view self.new ≡ kept.with_cursors (session_view self.old)
            (kept.without (name_text name.now) (session_view self.old).cursors) }
    {
        if let Some(place) = position_of(self.cursors.as_slice(), name.as_bytes()) {
            self.cursors.remove(place);
        }
    }

    /// Keeps the write with which the session waits, in place of an earlier one.
    pub fn hold(&mut self, pending: Pending)
        ensures { session_view self.new ≡ kept.holding (asked_of_pending pending) (session_view self.old) }
    {
        self.asked = Some(pending);
    }

    /// A copy of the write that is kept, if one is.
    pub fn held(&self) -> Option<Pending>
        ensures { option_map asked_of_pending result ≡ (session_view self.now).asked }
    {
        let pending = self.asked.as_ref()?;
        Some(Pending::new(pending.table, pending.key, pending.op()))
    }
}
