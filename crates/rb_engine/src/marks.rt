//! What a segment tells of itself, a flush and a checkpoint. `Engine::marks`, `Engine::flush` and
//! `Engine::checkpoint` call it.
ghost use Rattle.std.specs.Prelude.{◌≡◌, ◌<◌, false, [], OnOk};
ghost use Rattle.rb_base.specs.Counts.{IsCountedAs, err_is};
ghost use Rattle.rb_engine.specs.Does.{Does, IsInStep, LeavesState, Stands};
ghost use Rattle.rb_model.specs.Answers.{flush_answer, marks_answer, plain_answer};
ghost use Rattle.rb_model.specs.Calls.{is_disk_fault};
ghost use Rattle.rb_model.specs.Calls as machine;
ghost use Rattle.rb_model.specs.State.{State};
ghost use Rattle.rb_engine.specs.Makes.{Makes};
ghost use Rattle.rb_rollback.specs.Backs.{SameStore};

use crate::engine::Engine;
use crate::memory::Memory;
use rb_base::Store;
use rb_model::{Marks, Refusal};
use rb_ring::{lost, writes};

/// How many records segment `seg` has made, and the greatest commit number of which it gave something up.
pub fn do_marks<T: Store>(memory: &mut Memory, store: &mut T, seg: u16) -> Result<Marks, Refusal>
    requires step { IsInStep T.Store memory.old store.old }
    requires there { seg < (T.shape_of store.old).segments }
    ensures step { IsInStep T.Store memory.new store.new }
    ensures did { (h : State) → Stands T.Store h (record { memory = memory.old; store = store.old })
        → Does T.Store h (machine.Marks seg) (marks_answer seg result)
        (record { memory = memory.old; store = store.old }) (record { memory = memory.new; store = store.new }) }
    ensures holds_back { err_is is_disk_fault result ≡ false → T.holds_back store.old store.new }
    ensures blocks { T.tells → err_is is_disk_fault result ≡ false → T.blocks store.new ≡ T.blocks store.old }
    ensures same { SameStore T.Store store.old store.new }
    ensures disk { IsCountedAs (T.faults store.old) (T.faults store.new) (err_is is_disk_fault result) }
{
    if memory.stopped {
        return Err(Refusal::Stopped);
    }
    let header = store.shape().header_block(seg);
    if store.load(header).is_err() {
        return Err(memory.fail());
    }
    let block = store.block();
    Ok(Marks {
        writes: writes(block),
        lost: lost(block),
    })
}

/// Makes all that waits last. The number of the last commit.
pub fn do_flush<T: Store>(memory: &mut Memory, store: &mut T) -> Result<u64, Refusal>
    requires step { IsInStep T.Store memory.old store.old }
    ensures step { IsInStep T.Store memory.new store.new }
    ensures did { (h : State) → Stands T.Store h (record { memory = memory.old; store = store.old })
        → Does T.Store h machine.Flush (flush_answer result)
        (record { memory = memory.old; store = store.old }) (record { memory = memory.new; store = store.new }) }
    ensures blocks { T.tells → err_is is_disk_fault result ≡ false → T.blocks store.new ≡ T.blocks store.old }
    ensures nothing_waits { T.keeps → OnOk result (T.pending store.new ≡ []) }
    ensures same { SameStore T.Store store.old store.new }
    ensures disk { IsCountedAs (T.faults store.old) (T.faults store.new) (err_is is_disk_fault result) }
{
    if memory.stopped {
        return Err(Refusal::Stopped);
    }
    match store.flush() {
        Ok(()) => Ok(memory.scn),
        Err(_) => Err(memory.fail()),
    }
}

/// Makes all that was done last, also what isn't committed.
pub fn do_checkpoint<T: Store>(memory: &mut Memory, store: &mut T) -> Result<(), Refusal>
    requires step { IsInStep T.Store memory.old store.old }
    ensures step { IsInStep T.Store memory.new store.new }
    ensures did { (h : State) → Stands T.Store h (record { memory = memory.old; store = store.old })
        → Does T.Store h machine.Checkpoint (plain_answer result)
        (record { memory = memory.old; store = store.old }) (record { memory = memory.new; store = store.new }) }
    ensures blocks { T.tells → err_is is_disk_fault result ≡ false → T.blocks store.new ≡ T.blocks store.old }
    ensures leaves { (h : State) → Stands T.Store h (record { memory = memory.old; store = store.old })
        → h.stopped ≡ false → LeavesState T.Store h store.old store.new }
    ensures nothing_waits { T.keeps → OnOk result (T.pending store.new ≡ []) }
    ensures same { SameStore T.Store store.old store.new }
    ensures disk { IsCountedAs (T.faults store.old) (T.faults store.new) (err_is is_disk_fault result) }
{
    if memory.stopped {
        return Err(Refusal::Stopped);
    }
    match store.checkpoint() {
        Ok(()) => Ok(()),
        Err(_) => Err(memory.fail()),
    }
}

impl<T: Store> Engine<T> {
    /// What segment `seg` has made and given up.
    pub fn marks(&mut self, seg: u16) -> Result<Marks, Refusal>
        requires { seg < (T.shape_of self.old.store).segments }
        ensures did { (h : State) → Stands T.Store h self.old → Does T.Store h
            (machine.Marks seg) (marks_answer seg result) self.old self.new }
        ensures holds_back { err_is is_disk_fault result ≡ false
            → T.holds_back self.old.store self.new.store }
        ensures makes { (h : State) → Stands T.Store h self.old → err_is is_disk_fault result ≡ false
            → Makes h (machine.Marks seg) (marks_answer seg result)
            (T.lsn self.new.store) (T.blocks self.old.store) (T.blocks self.new.store) }
        ensures same { SameStore T.Store self.old.store self.new.store }
        ensures disk { IsCountedAs (T.faults self.old.store) (T.faults self.new.store)
            (err_is is_disk_fault result) }
    {
        do_marks(&mut self.memory, &mut self.store, seg)
    }

    /// Makes all commits last, with the syncs of one flush, and answers the number of the last. What is under way lasts
    /// with them, and a restart puts it back.
    pub fn flush(&mut self) -> Result<u64, Refusal>
        ensures did { (h : State) → Stands T.Store h self.old → Does T.Store h
            machine.Flush (flush_answer result) self.old self.new }
        ensures makes { (h : State) → Stands T.Store h self.old → err_is is_disk_fault result ≡ false
            → Makes h machine.Flush (flush_answer result)
            (T.lsn self.new.store) (T.blocks self.old.store) (T.blocks self.new.store) }
        ensures nothing_waits { T.keeps → OnOk result (T.pending self.new.store ≡ []) }
        ensures same { SameStore T.Store self.old.store self.new.store }
        ensures disk { IsCountedAs (T.faults self.old.store) (T.faults self.new.store)
            (err_is is_disk_fault result) }
    {
        do_flush(&mut self.memory, &mut self.store)
    }

    /// Makes all that was done last, also what isn't committed yet: a restart finds it and puts it back. Whatever it
    /// answers, a crash in it or after it leaves the state.
    pub fn checkpoint(&mut self) -> Result<(), Refusal>
        ensures did { (h : State) → Stands T.Store h self.old → Does T.Store h
            machine.Checkpoint (plain_answer result) self.old self.new }
        ensures makes { (h : State) → Stands T.Store h self.old → err_is is_disk_fault result ≡ false
            → Makes h machine.Checkpoint (plain_answer result)
            (T.lsn self.new.store) (T.blocks self.old.store) (T.blocks self.new.store) }
        ensures leaves { (h : State) → Stands T.Store h self.old → h.stopped ≡ false
            → LeavesState T.Store h self.old.store self.new.store }
        ensures nothing_waits { T.keeps → OnOk result (T.pending self.new.store ≡ []) }
        ensures same { SameStore T.Store self.old.store self.new.store }
        ensures disk { IsCountedAs (T.faults self.old.store) (T.faults self.new.store)
            (err_is is_disk_fault result) }
    {
        do_checkpoint(&mut self.memory, &mut self.store)
    }
}
