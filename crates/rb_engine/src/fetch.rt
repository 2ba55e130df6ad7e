//! One row of a cursor. `Engine::fetch` calls it.
ghost use Rattle.std.specs.Prelude.{◌≡◌, ◌≤◌, ℕ, Err, None, false, IfSome, MatchOption};
ghost use Rattle.std.specs.Result.{is_err};
ghost use Rattle.rb_base.specs.Counts.{IsCountedAs, err_is};
ghost use Rattle.rb_engine.specs.Ahead.{IsAhead, IsAt};
ghost use Rattle.rb_engine.specs.Cleaning.{CleansRead, HasLooked};
ghost use Rattle.rb_engine.specs.Does.{Does, IsInStep, Stands};
ghost use Rattle.rb_engine.specs.Makes.{Makes};
ghost use Rattle.rb_engine.specs.Scanning.{NeedsLost};
ghost use Rattle.rb_model.specs.Answers.{fetch_answer, LeavesRow};
ghost use Rattle.rb_model.specs.Calls.{is_disk_fault};
ghost use Rattle.rb_model.specs.Calls as machine;
ghost use Rattle.rb_model.specs.Names.{name_text};
ghost use Rattle.rb_model.specs.State.{State};
ghost use Rattle.rb_sessions.specs.Kept.{kept_at, named};
ghost use Rattle.rb_sessions.specs.declared.sessions.TheConstants.{SESSIONS};
ghost use Rattle.law_crash.specs.Made.{TellsLooks};
ghost use Rattle.rb_rollback.specs.Backs.{SameStore};

use crate::ahead::Ahead;
use crate::checks::check_session;
use crate::engine::Engine;
use crate::memory::Memory;
use crate::scan::next_row;
use rb_base::{Store, Workspace};
use rb_cr::{CrFault, Scratch};
use rb_model::{Fetched, Name, Refusal, Row};
use rb_sessions::Sessions;

/// The place of a session's cursor of that name, which isn't looked for where it is known from the fetch before. None
/// exactly where no such cursor is open.
fn place_of(sessions: &Sessions, s: u16, name: &Name, ahead: &Ahead) -> Option<usize>
    requires session { (1 ≤ s) × (s ≤ SESSIONS) }
    requires ahead { IfSome ahead.now.rows (λ rows.
        IsAt (name_text name.now) (kept_at sessions.now s).cursors ahead.now.place) }
    ensures { MatchOption result (named (name_text name.now) (kept_at sessions.now s).cursors ≡ None)
        (IsAt (name_text name.now) (kept_at sessions.now s).cursors) }
{
    if ahead.page.is_told() {
        return Some(ahead.place);
    }
    sessions.cursor_place(s, name)
}

/// Gives the next row of a cursor into `row`, or the end: as the rows were at its opening, rebuilt from undo. It may be
/// refused as too old, and then no row is changed. The blocks that it reads are cleaned on the way. (Oracle7 Server
/// Concepts, *Multiversion Consistency Model*.)
pub fn do_fetch<T: Store>(
    memory: &mut Memory,
    scratch: &mut Scratch,
    store: &mut T,
    workspace: &mut Workspace,
    s: u16,
    name: &Name,
    ahead: &mut Ahead,
    row: &mut Row,
) -> Result<Fetched, Refusal>
    requires step { IsInStep T.Store memory.old store.old }
    requires ahead { IsAhead T.Store (record { memory = memory.old; store = store.old }) s (name_text name.now)
        ahead.old }
    ensures ahead { IsAhead T.Store (record { memory = memory.new; store = store.new }) s (name_text name.now)
        ahead.new }
    ensures step { IsInStep T.Store memory.new store.new }
    ensures did { (h : State) → Stands T.Store h (record { memory = memory.old; store = store.old })
        → Does T.Store h (machine.Fetch s (name_text name.now)) (fetch_answer result row.new)
        (record { memory = memory.old; store = store.old }) (record { memory = memory.new; store = store.new }) }
    ensures makes { (h : State) → Stands T.Store h (record { memory = memory.old; store = store.old })
        → err_is is_disk_fault result ≡ false
        → Makes h (machine.Fetch s (name_text name.now)) (fetch_answer result row.new)
        (T.lsn store.new) (T.blocks store.old) (T.blocks store.new) }
    ensures lost { (h : State) → Stands T.Store h (record { memory = memory.old; store = store.old })
        → (scn lost : ℕ) → result ≡ Err (Refusal.TooOld scn lost) → NeedsLost T.Store h
        (record { memory = memory.old; store = store.old }) s (name_text name.now) scn lost }
    ensures cleans { (h : State) → Stands T.Store h (record { memory = memory.old; store = store.old })
        → HasLooked result → CleansRead T.Store h (record { memory = memory.old; store = store.old }) s
        (name_text name.now) (is_err result ≡ false) store.new }
    ensures idle { (HasLooked result → ⊥) → err_is is_disk_fault result ≡ false → store.new ≡ store.old }
    ensures holds_back { err_is is_disk_fault result ≡ false → T.holds_back store.old store.new }
    ensures row { LeavesRow result row.old row.new }
    ensures same { SameStore T.Store store.old store.new }
    ensures disk { IsCountedAs (T.faults store.old) (T.faults store.new) (err_is is_disk_fault result) }
{
    check_session(memory, s)?;
    let Some(place) = place_of(&memory.sessions, s, name, ahead) else {
        return Err(Refusal::NoCursor);
    };
    let cursor = memory.sessions.cursor_at(s, place);
    match next_row(
        store,
        workspace,
        scratch,
        &mut memory.copies,
        &cursor,
        ahead,
        row,
    ) {
        Ok(Fetched::Row) => {
            ahead.place = place;
            memory.sessions.took_at(s, place, row.key);
            Ok(Fetched::Row)
        }
        Ok(Fetched::End) => Ok(Fetched::End),
        Err(CrFault::TooOld { scn, lost }) => Err(Refusal::TooOld { scn, lost }),
        Err(CrFault::Failed) => Err(memory.fail()),
    }
}

impl<T: Store> Engine<T> {
    /// Gives the next row of a cursor into `row`, or the end. It takes no lock and waits for nobody. Where what its
    /// snapshot needs was given up, it may be refused as `TooOld`, and may be tried again: the first home that may have
    /// the next row can't be read then. Each home that it reads is cleaned of transactions that have ended, by a group
    /// that waits, unless the log is worn out: later readers and writers find the numbers of these in the block, also
    /// where the segments have forgotten them. No row changes by it. (The delayed cleanout of Oracle7.)
    pub fn fetch(&mut self, s: u16, name: &Name, row: &mut Row) -> Result<Fetched, Refusal>
        ensures did { (h : State) → Stands T.Store h self.old → Does T.Store h
            (machine.Fetch s (name_text name.now)) (fetch_answer result row.new) self.old self.new }
        ensures makes { (h : State) → Stands T.Store h self.old → err_is is_disk_fault result ≡ false
            → Makes h (machine.Fetch s (name_text name.now)) (fetch_answer result row.new)
            (T.lsn self.new.store) (T.blocks self.old.store) (T.blocks self.new.store) }
        ensures lost { (h : State) → Stands T.Store h self.old → (scn lost : ℕ)
            → result ≡ Err (Refusal.TooOld scn lost)
            → NeedsLost T.Store h self.old s (name_text name.now) scn lost }
        ensures cleans { (h : State) → Stands T.Store h self.old → HasLooked result
            → CleansRead T.Store h self.old s (name_text name.now) (is_err result ≡ false) self.new.store }
        ensures idle { (HasLooked result → ⊥) → err_is is_disk_fault result ≡ false
            → self.new.store ≡ self.old.store }
        ensures tells { (h : State) → Stands T.Store h self.old → err_is is_disk_fault result ≡ false
            → TellsLooks h.shape (T.blocks self.old.store) (T.blocks self.new.store) }
        ensures row { LeavesRow result row.old row.new }
        ensures holds_back { err_is is_disk_fault result ≡ false
            → T.holds_back self.old.store self.new.store }
        ensures same { SameStore T.Store self.old.store self.new.store }
        ensures disk { IsCountedAs (T.faults self.old.store) (T.faults self.new.store)
            (err_is is_disk_fault result) }
    {
        self.fetch_ahead(s, name, &mut Ahead::of_one(), row)
    }

    /// Does what `fetch` does. What is known ahead from the fetch before is used, and what this one sees of the rows
    /// behind its own is left for the next: no other call of the engine is to be made between. Many rows of a block are
    /// read with less work so.
    pub fn fetch_ahead(
        &mut self,
        s: u16,
        name: &Name,
        ahead: &mut Ahead,
        row: &mut Row,
    ) -> Result<Fetched, Refusal>
        requires ahead { IsAhead T.Store self.old s (name_text name.now) ahead.old }
        ensures ahead { IsAhead T.Store self.new s (name_text name.now) ahead.new }
        ensures did { (h : State) → Stands T.Store h self.old → Does T.Store h
            (machine.Fetch s (name_text name.now)) (fetch_answer result row.new) self.old self.new }
        ensures makes { (h : State) → Stands T.Store h self.old → err_is is_disk_fault result ≡ false
            → Makes h (machine.Fetch s (name_text name.now)) (fetch_answer result row.new)
            (T.lsn self.new.store) (T.blocks self.old.store) (T.blocks self.new.store) }
        ensures lost { (h : State) → Stands T.Store h self.old → (scn lost : ℕ)
            → result ≡ Err (Refusal.TooOld scn lost)
            → NeedsLost T.Store h self.old s (name_text name.now) scn lost }
        ensures cleans { (h : State) → Stands T.Store h self.old → HasLooked result
            → CleansRead T.Store h self.old s (name_text name.now) (is_err result ≡ false) self.new.store }
        ensures idle { (HasLooked result → ⊥) → err_is is_disk_fault result ≡ false
            → self.new.store ≡ self.old.store }
        ensures tells { (h : State) → Stands T.Store h self.old → err_is is_disk_fault result ≡ false
            → TellsLooks h.shape (T.blocks self.old.store) (T.blocks self.new.store) }
        ensures row { LeavesRow result row.old row.new }
        ensures holds_back { err_is is_disk_fault result ≡ false
            → T.holds_back self.old.store self.new.store }
        ensures same { SameStore T.Store self.old.store self.new.store }
        ensures disk { IsCountedAs (T.faults self.old.store) (T.faults self.new.store)
            (err_is is_disk_fault result) }
    {
        do_fetch(
            &mut self.memory,
            &mut self.scratch,
            &mut self.store,
            &mut self.workspace,
            s,
            name,
            ahead,
            row,
        )
    }
}
