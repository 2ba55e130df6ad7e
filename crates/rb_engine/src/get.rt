//! The row of one key, without a cursor. `Engine::get` calls it.
ghost use Rattle.std.specs.Prelude.{◌≡◌, ℕ, Err, false};
ghost use Rattle.rb_base.specs.Counts.{IsCountedAs, err_is};
ghost use Rattle.rb_engine.specs.Cleaning.{HasLooked};
ghost use Rattle.rb_engine.specs.Does.{Does, IsInStep, Stands};
ghost use Rattle.rb_engine.specs.Getting.{GetNeedsLost};
ghost use Rattle.rb_engine.specs.Makes.{Makes};
ghost use Rattle.law_crash.specs.Made.{TellsLooks};
ghost use Rattle.rb_model.specs.Answers.{get_answer, LeavesRow};
ghost use Rattle.rb_model.specs.Calls.{is_disk_fault};
ghost use Rattle.rb_model.specs.Calls as machine;
ghost use Rattle.rb_model.specs.State.{State};
ghost use Rattle.rb_rollback.specs.Backs.{SameStore};

use crate::ahead::Ahead;
use crate::checks::check_table;
use crate::cursors::cursor_over;
use crate::engine::Engine;
use crate::memory::Memory;
use crate::scan::{home_of, next_in};
use rb_base::{Store, Workspace};
use rb_cr::{CrFault, Scratch};
use rb_model::{Fetched, Refusal, Row};

/// Gives the row of a key into `row`, or tells that it has none: what a cursor over the key alone would give that is
/// opened now. It may be refused as too old, and then no row is changed. The key's block is cleaned on the way.
pub fn do_get<T: Store>(
    memory: &mut Memory,
    scratch: &mut Scratch,
    store: &mut T,
    workspace: &mut Workspace,
    s: u16,
    table: u16,
    key: u64,
    row: &mut Row,
) -> Result<Fetched, Refusal>
    requires step { IsInStep T.Store memory.old store.old }
    ensures step { IsInStep T.Store memory.new store.new }
    ensures did { (h : State) → Stands T.Store h (record { memory = memory.old; store = store.old })
        → Does T.Store h (machine.Get s table key) (get_answer result row.new)
        (record { memory = memory.old; store = store.old }) (record { memory = memory.new; store = store.new }) }
    ensures makes { (h : State) → Stands T.Store h (record { memory = memory.old; store = store.old })
        → err_is is_disk_fault result ≡ false
        → Makes h (machine.Get s table key) (get_answer result row.new)
        (T.lsn store.new) (T.blocks store.old) (T.blocks store.new) }
    ensures lost { (h : State) → Stands T.Store h (record { memory = memory.old; store = store.old })
        → (scn lost : ℕ) → result ≡ Err (Refusal.TooOld scn lost) → GetNeedsLost T.Store h
        (record { memory = memory.old; store = store.old }) s table key scn lost }
    ensures idle { (HasLooked result → ⊥) → err_is is_disk_fault result ≡ false → store.new ≡ store.old }
    ensures holds_back { err_is is_disk_fault result ≡ false → T.holds_back store.old store.new }
    ensures row { LeavesRow result row.old row.new }
    ensures same { SameStore T.Store store.old store.new }
    ensures disk { IsCountedAs (T.faults store.old) (T.faults store.new) (err_is is_disk_fault result) }
{
    let shape = store.shape();
    check_table(memory, shape, s, table)?;
    let cursor = cursor_over(memory, s, table, key, key);
    let home = home_of(key, shape.blocks);
    match next_in(
        store,
        workspace,
        scratch,
        &mut memory.copies,
        &cursor,
        home,
        home,
        &mut Ahead::of_one(),
        row,
    ) {
        Ok(true) => Ok(Fetched::Row),
        Ok(false) => Ok(Fetched::End),
        Err(CrFault::TooOld { scn, lost }) => Err(Refusal::TooOld { scn, lost }),
        Err(CrFault::Failed) => Err(memory.fail()),
    }
}

impl<T: Store> Engine<T> {
    /// Gives the row of a key into `row`, or tells that the key has none (`End`), as a query of the session sees it
    /// that begins now: at the last commit, or at the snapshot of a transaction that has one, with the session's own
    /// changes. It takes no lock, waits for nobody and needs no cursor. It may be refused as `TooOld`, and may clean
    /// the key's block, as a `fetch`. (Oracle7 Server Concepts, *Multiversion Consistency Model*.)
    pub fn get(&mut self, s: u16, table: u16, key: u64, row: &mut Row) -> Result<Fetched, Refusal>
        ensures did { (h : State) → Stands T.Store h self.old → Does T.Store h
            (machine.Get s table key) (get_answer result row.new) self.old self.new }
        ensures makes { (h : State) → Stands T.Store h self.old → err_is is_disk_fault result ≡ false
            → Makes h (machine.Get s table key) (get_answer result row.new)
            (T.lsn self.new.store) (T.blocks self.old.store) (T.blocks self.new.store) }
        ensures lost { (h : State) → Stands T.Store h self.old → (scn lost : ℕ)
            → result ≡ Err (Refusal.TooOld scn lost) → GetNeedsLost T.Store h self.old s table key scn lost }
        ensures idle { (HasLooked result → ⊥) → err_is is_disk_fault result ≡ false
            → self.new.store ≡ self.old.store }
        ensures tells { (h : State) → Stands T.Store h self.old → err_is is_disk_fault result ≡ false
            → TellsLooks h.shape (T.blocks self.old.store) (T.blocks self.new.store) }
        ensures row { LeavesRow result row.old row.new }
        ensures holds_back { err_is is_disk_fault result ≡ false
            → T.holds_back self.old.store self.new.store }
        ensures same { SameStore T.Store self.old.store self.new.store }
        ensures disk { IsCountedAs (T.faults self.old.store) (T.faults self.new.store)
            (err_is is_disk_fault result) }
    {
        do_get(
            &mut self.memory,
            &mut self.scratch,
            &mut self.store,
            &mut self.workspace,
            s,
            table,
            key,
            row,
        )
    }
}
