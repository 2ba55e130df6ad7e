//! Opens a store: puts back what was under way in its blocks. `Engine` is made here.
ghost use Rattle.std.specs.Prelude.{◌≡◌, ◌≢◌, ℕ, ◌+◌, ◌^◌, ◌≤◌, [], replicate, Bool};
ghost use Rattle.std.specs.Prelude.{IfOk, IfErr, OnOk, not, true, false};
ghost use Rattle.std.specs.Result.{is_err};
ghost use Rattle.rb_base.specs.Counts.{IsCountedAs, err_is, is_failed};
ghost use Rattle.rb_base.specs.Logs.{Logs};
ghost use Rattle.rb_engine.specs.Does.{IsInStep};
ghost use Rattle.rb_engine.specs.Opened.{Opened, OpensTo, StaysOpen};
ghost use Rattle.rb_model.specs.State.{State};
ghost use Rattle.rb_segment.specs.Segments.{commit_scn};
ghost use Rattle.rb_sessions.specs.Kept.{fresh};
ghost use Rattle.rb_sessions.specs.declared.sessions.TheConstants.{SESSIONS};
ghost use Rattle.rb_sound.specs.Sound.{AreSound};
ghost use Rattle.rb_rollback.specs.Backs.{SameStore};

use crate::engine::Engine;
use crate::memory::Memory;
use rb_base::{Failed, NoMemory, OpenFault, Store, Workspace};
use rb_copies::{COPIES, Copies};
use rb_cr::Scratch;
use rb_recovery::open_blocks;
use rb_segment::commit_scn_of;
use rb_sessions::Sessions;
use rb_waits::Waits;
use std::alloc::Global;

/// The table of kept homes, without any; one that never keeps any where there is no memory for it.
fn new_copies(alloc: Global) -> Copies
    ensures { result.kept ≡ [] }
{
    match Copies::new(alloc, COPIES) {
        Ok(copies) => copies,
        Err(_) => Copies::none(),
    }
}

/// A memory of those sessions, over the commits that the blocks have.
fn new_memory<T: Store>(store: &mut T, sessions: Sessions, copies: Copies) -> Result<Memory, Failed>
    requires going { T.failed store.old ≡ false }
    ensures sessions { IfOk result (λ memory. memory.sessions ≡ sessions) }
    ensures waits { IfOk result (λ memory. memory.waits ≡ []) }
    ensures scn { T.tells → IfOk result (λ memory. memory.scn
        ≡ commit_scn (T.shape_of store.old) (T.blocks store.old)) }
    ensures going { IfOk result (λ memory. memory.stopped ≡ false) }
    ensures copies { IfOk result (λ memory. memory.copies ≡ copies) }
    ensures dead { IfOk result (λ memory. memory.dead ≡ 0) }
    ensures logs { Logs T.Store store.old store.new [] (not (is_err result)) }
{
    let scn = commit_scn_of(store)?;
    Ok(Memory {
        sessions,
        waits: Waits::new(),
        scn,
        stopped: false,
        copies,
        dead: 0,
    })
}

/// What `Engine::open` does with a store: the memory of the engine over it.
fn open_memory<T: Store>(
    store: &mut T,
    workspace: &mut Workspace,
    sessions: Sessions,
    copies: Copies,
) -> Result<Memory, OpenFault>
    requires fresh { sessions ≡ replicate SESSIONS fresh }
    requires empty { copies.kept ≡ [] }
    requires going { T.failed store.old ≡ false }
    requires few { T.lsn store.old ≤ 2 ^ 61 + 4096 }
    ensures step { IfOk result (λ memory. IsInStep T.Store memory store.new) }
    ensures opened { T.tells → (h : State) → OpensTo T.Store h store.old → IfOk result (λ memory.
        Opened T.Store h store.old (record { memory = memory; store = store.new })) }
    ensures stays { T.tells → (h : State) → OpensTo T.Store h store.old
        → StaysOpen T.Store h store.old store.new }
    ensures unchanged { IfErr result (λ fault. fault ≢ OpenFault.Failed
        → Logs T.Store store.old store.new [] true) }
    ensures untouched { T.tells
        → ¬ AreSound (T.shape_of store.old) (T.blocks store.old)
        → IfErr result (λ fault. (going : Bool) × Logs T.Store store.old store.new [] going) }
    ensures sound { T.tells → OnOk result
        (AreSound (T.shape_of store.old) (T.blocks store.old)) }
    ensures none { T.tells → IfErr result (λ fault. fault ≡ OpenFault.NotAStore
        → ¬ AreSound (T.shape_of store.old) (T.blocks store.old)) }
    ensures same { SameStore T.Store store.old store.new }
    ensures counted { IsCountedAs (T.faults store.old) (T.faults store.new) (err_is is_failed result) }
{
    let memory = new_memory(store, sessions, copies)?;
    open_blocks(store, workspace)?;
    Ok(memory)
}

/// The memory of an engine that isn't a store's: sessions that have done nothing yet, room for homes that are rebuilt,
/// and room for what steps make.
#[derive(Drop)]
struct Room {
    sessions: Sessions,
    scratch: Scratch,
    workspace: Box<Workspace>,
}

/// Takes that memory; `NoMemory` where there is none.
fn take_room(alloc: Global) -> Result<Room, NoMemory>
    ensures { IfOk result (λ room. room.sessions ≡ replicate SESSIONS fresh) }
{
    let sessions = Sessions::new(alloc)?;
    let scratch = Scratch::new(alloc)?;
    let Ok(workspace) = Box::new(alloc, Workspace::new()) else {
        return Err(NoMemory);
    };
    Ok(Room {
        sessions,
        scratch,
        workspace,
    })
}

/// The engine over a store that can be opened, with that memory, and that table of kept homes.
fn open_with<T: Store>(room: Room, copies: Copies, store: T) -> Result<Engine<T>, (OpenFault, T)>
    requires fresh { room.sessions ≡ replicate SESSIONS fresh }
    requires empty { copies.kept ≡ [] }
    requires going { T.failed store ≡ false }
    requires few { T.lsn store ≤ 2 ^ 61 + 4096 }
    ensures opened { T.tells → (h : State) → OpensTo T.Store h store
        → IfOk result (λ e. Opened T.Store h store e) }
    ensures stays { T.tells → (h : State) → OpensTo T.Store h store
        → IfErr result (λ r. StaysOpen T.Store h store r.1) }
    ensures unchanged { IfErr result (λ r. r.0 ≢ OpenFault.Failed → Logs T.Store store r.1 [] true) }
    ensures untouched { T.tells
        → ¬ AreSound (T.shape_of store) (T.blocks store)
        → IfErr result (λ r. (going : Bool) × Logs T.Store store r.1 [] going) }
    ensures sound { T.tells → OnOk result
        (AreSound (T.shape_of store) (T.blocks store)) }
    ensures none { T.tells → IfErr result (λ r. r.0 ≡ OpenFault.NotAStore
        → ¬ AreSound (T.shape_of store) (T.blocks store)) }
    ensures same_ok { IfOk result (λ e. SameStore T.Store store e.store) }
    ensures same_err { IfErr result (λ r. SameStore T.Store store r.1) }
    ensures counted_ok { IfOk result (λ e. T.faults e.store ≡ T.faults store) }
    ensures counted_err { IfErr result (λ r. IsCountedAs (T.faults store) (T.faults r.1) (is_failed r.0)) }
{
    let Room {
        sessions,
        scratch,
        mut workspace,
    } = room;
    let mut store = store;
    match open_memory(&mut store, &mut workspace, sessions, copies) {
        Ok(memory) => Ok(Engine {
            memory,
            scratch,
            workspace,
            store,
        }),
        Err(fault) => Err((fault, store)),
    }
}

impl<T: Store> Engine<T> {
    /// Opens a store: puts back what was under way in its blocks, which then have the last commit's rows. It may be
    /// stopped at any moment and begun again. A refusal gives the store back: NotAStore where the blocks aren't in
    /// order, NoMemory, or Failed where a call of the store failed.
    pub fn open(alloc: Global, store: T) -> Result<Engine<T>, (OpenFault, T)>
        requires going { T.failed store ≡ false }
        requires few { T.lsn store ≤ 2 ^ 61 + 4096 }
        ensures opened { T.tells → (h : State) → OpensTo T.Store h store
            → IfOk result (λ e. Opened T.Store h store e) }
        ensures stays { T.tells → (h : State) → OpensTo T.Store h store
            → IfErr result (λ r. StaysOpen T.Store h store r.1) }
        ensures unchanged { IfErr result (λ r. r.0 ≢ OpenFault.Failed → Logs T.Store store r.1 [] true) }
        ensures untouched { T.tells
            → ¬ AreSound (T.shape_of store) (T.blocks store)
            → IfErr result (λ r. (going : Bool) × Logs T.Store store r.1 [] going) }
        ensures sound { T.tells → OnOk result
            (AreSound (T.shape_of store) (T.blocks store)) }
        ensures none { T.tells → IfErr result (λ r. r.0 ≡ OpenFault.NotAStore
            → ¬ AreSound (T.shape_of store) (T.blocks store)) }
        ensures same_ok { IfOk result (λ e. SameStore T.Store store e.store) }
        ensures same_err { IfErr result (λ r. SameStore T.Store store r.1) }
        ensures counted_ok { IfOk result (λ e. T.faults e.store ≡ T.faults store) }
        ensures counted_err { IfErr result (λ r. IsCountedAs (T.faults store) (T.faults r.1) (is_failed r.0)) }
    {
        match take_room(alloc) {
            Ok(room) => open_with(room, new_copies(alloc), store),
            Err(_) => Err((OpenFault::NoMemory, store)),
        }
    }
}
