//! The tests of a call that need memory and the file's shape alone, in the machine's order. Each call makes them first.
ghost use Rattle.std.specs.Prelude.{◌≡◌, ◌≢◌, ◌<◌, ◌≤◌, ◌&&◌, nat_le, ℕ, List, true, false};
ghost use Rattle.std.specs.Prelude.{IfErr, OnOk};
ghost use Rattle.rb_engine.specs.Checks.{NotOld, Refuses};
ghost use Rattle.rb_engine.specs.Does.{Knows, KnowsModes};
ghost use Rattle.rb_model.specs.Answers.{action_by};
ghost use Rattle.rb_model.specs.Calls.{early_tests, is_too_long, none_applies, number_tests, session_tests};
ghost use Rattle.rb_model.specs.Isolation.{is_read_only};
ghost use Rattle.rb_model.specs.Calls as machine;
ghost use Rattle.rb_model.specs.Queue.{is_queued};
ghost use Rattle.rb_model.specs.State.{State};
ghost use Rattle.rb_sessions.specs.Kept.{kept_at};

use crate::memory::Memory;
use rb_base::{Shape, VALUE_BYTES};
use rb_model::{Isolation, Op, Refusal};
use rb_sessions::SESSIONS;

/// How many bytes the value of a write has.
fn value_length(op: Option<Op<'_>>) -> usize
    ensures long { VALUE_BYTES < result → is_too_long (action_by op.entry) ≡ true }
    ensures short { result ≤ VALUE_BYTES → is_too_long (action_by op.entry) ≡ false }
{
    match op {
        Some(Op::Insert(value) | Op::Update(value) | Op::Put(value)) => value.len(),
        Some(Op::Delete) | None => 0,
    }
}

/// Whether a call that names that session goes on, or why it is refused: Stopped or NoSession.
pub fn check_number(memory: &Memory, s: u16) -> Result<(), Refusal>
    ensures refused { IfErr result (λ why. (h : State) → Knows h memory.now → Refuses (number_tests h s) why) }
    ensures granted { OnOk result ((h : State) → Knows h memory.now → none_applies (number_tests h s) ≡ true) }
    ensures other { IfErr result (λ why. why ≢ Refusal.DiskFault) }
    ensures young { IfErr result NotOld }
    ensures session { OnOk result ((1 ≤ s) × (s ≤ SESSIONS)) }
    ensures going { OnOk result (memory.now.stopped ≡ false) }
{
    if memory.stopped {
        return Err(Refusal::Stopped);
    }
    if s < 1 || s as usize > SESSIONS {
        return Err(Refusal::NoSession);
    }
    Ok(())
}

/// Whether a call of that session goes on, or why it is refused: as by `check_number`, or Waiting.
pub fn check_session(memory: &Memory, s: u16) -> Result<(), Refusal>
    ensures refused { IfErr result (λ why. (h : State) → Knows h memory.now → Refuses (session_tests h s) why) }
    ensures granted { OnOk result ((h : State) → Knows h memory.now → none_applies (session_tests h s) ≡ true) }
    ensures other { IfErr result (λ why. why ≢ Refusal.DiskFault) }
    ensures young { IfErr result NotOld }
    ensures session { OnOk result ((1 ≤ s) × (s ≤ SESSIONS)) }
    ensures going { OnOk result (memory.now.stopped ≡ false) }
    ensures free { OnOk result (is_queued s memory.now.waits ≡ false) }
{
    check_number(memory, s)?;
    if memory.waits.waits(s) {
        return Err(Refusal::Waiting);
    }
    Ok(())
}

/// Whether there is a table of that number.
fn is_table(shape: Shape, table: u16) -> bool
    ensures { result ≡ (nat_le 1 table && nat_le table shape.tables) }
{
    1 <= table && table <= shape.tables
}

/// Whether a cursor may be opened by that session over that table, or why not: as by `check_session`, or NoTable.
pub fn check_table(memory: &Memory, shape: Shape, s: u16, table: u16) -> Result<(), Refusal>
    ensures refused { IfErr result (λ why. (h : State) (name : List ℕ) (lo hi : ℕ) → Knows h memory.now
        → shape ≡ h.shape → Refuses (early_tests h (machine.OpenCursor s name table lo hi)) why) }
    ensures granted { OnOk result ((h : State) (name : List ℕ) (lo hi : ℕ) → Knows h memory.now
        → shape ≡ h.shape → none_applies (early_tests h (machine.OpenCursor s name table lo hi)) ≡ true) }
    ensures other { IfErr result (λ why. why ≢ Refusal.DiskFault) }
    ensures young { IfErr result NotOld }
    ensures session { OnOk result ((1 ≤ s) × (s ≤ SESSIONS)) }
    ensures table { OnOk result ((1 ≤ table) × (table ≤ shape.tables)) }
    ensures going { OnOk result (memory.now.stopped ≡ false) }
    ensures free { OnOk result (is_queued s memory.now.waits ≡ false) }
{
    check_session(memory, s)?;
    if !is_table(shape, table) {
        return Err(Refusal::NoTable);
    }
    Ok(())
}

/// Whether the session's transaction is read only.
fn is_reader(memory: &Memory, s: u16) -> bool
    requires { (1 ≤ s) × (s ≤ SESSIONS) }
    ensures { result ≡ is_read_only (kept_at memory.now.sessions s).isolation }
{
    matches!(
        memory.sessions.session(s).isolation,
        Isolation::ReadOnly { .. }
    )
}

/// Whether a write goes on, or why it is refused: as by `check_session`, or ReadOnly, NoTable or ValueTooLong.
pub fn check_write(
    memory: &Memory,
    shape: Shape,
    s: u16,
    table: u16,
    op: Option<Op<'_>>,
) -> Result<(), Refusal>
    ensures refused { IfErr result (λ why. (h : State) (key : ℕ) → Knows h memory.now → KnowsModes h memory.now
        → shape ≡ h.shape → Refuses (early_tests h (machine.Write s table key (action_by op.entry))) why) }
    ensures granted { OnOk result ((h : State) (key : ℕ) → Knows h memory.now → KnowsModes h memory.now
        → shape ≡ h.shape
        → none_applies (early_tests h (machine.Write s table key (action_by op.entry))) ≡ true) }
    ensures young { IfErr result NotOld }
    ensures other { IfErr result (λ why. why ≢ Refusal.DiskFault) }
    ensures session { OnOk result ((1 ≤ s) × (s ≤ SESSIONS)) }
    ensures table { OnOk result ((1 ≤ table) × (table ≤ shape.tables)) }
    ensures short { OnOk result (is_too_long (action_by op.entry) ≡ false) }
    ensures going { OnOk result (memory.now.stopped ≡ false) }
    ensures free { OnOk result (is_queued s memory.now.waits ≡ false) }
{
    check_session(memory, s)?;
    if is_reader(memory, s) {
        return Err(Refusal::ReadOnly);
    }
    if !is_table(shape, table) {
        return Err(Refusal::NoTable);
    }
    if value_length(op) > VALUE_BYTES {
        return Err(Refusal::ValueTooLong);
    }
    Ok(())
}
