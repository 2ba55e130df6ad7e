//! Chooses the slot entry that a transaction uses for its change of a block. What writes rows calls it.
ghost use Rattle.std.specs.Prelude.{IsTrue, ◌≡◌, ◌≢◌, ◌↔◌, ℕ, ◌<◌, ◌≤◌, length};
ghost use Rattle.std.specs.Prelude.{IfNone, IfSome, MatchOption};
ghost use Rattle.rb_heap.specs.Choices.{HasNoChoice, HasNoEntry, IsEntryChoice, IsOwnChoice, IsOwnEntry};
ghost use Rattle.rb_heap.specs.Choices.{IsTold};
ghost use Rattle.rb_itl.specs.Entries.{entry_at};

use rb_base::{UNIT, Xid};
use rb_itl::{ENTRIES, FREE, OPEN, entry};

/// Whether entry `i`, 0 to 7, is Open and of that transaction.
fn is_own(block: &[u8], i: u8, xid: Xid) -> bool
    requires block { length block.now ≡ UNIT }
    requires place { i < ENTRIES }
    ensures { IsTrue result ↔ IsOwnEntry xid (entry_at block.now i) }
{
    let seen = entry(block, i);
    seen.kind == OPEN && seen.xid == xid
}

/// The lowest entry, 0 to 7, that is Open and of that transaction.
fn own_entry(block: &[u8], xid: Xid) -> Option<u8>
    requires { length block.now ≡ UNIT }
    ensures within { IfSome result (λ i. i < ENTRIES) }
    ensures found { IfSome result (IsOwnChoice (entry_at block.now) xid) }
    ensures none { IfNone result (HasNoEntry (IsOwnEntry xid) (entry_at block.now)) }
{
    for i in 0..ENTRIES {
        if is_own(block, i, xid) {
            return Some(i);
        }
    }
    None
}

/// The lowest entry, 0 to 7, that is Free.
fn lowest_free(block: &[u8]) -> Option<u8>
    requires { length block.now ≡ UNIT }
    ensures within { IfSome result (λ i. i < ENTRIES) }
    ensures free { IfSome result (λ i. (entry_at block.now i).kind ≡ FREE) }
    ensures lower { IfSome result (λ i. (j : ℕ) → j < i → (entry_at block.now j).kind ≢ FREE) }
    ensures none { IfNone result (HasNoEntry (λ entry. entry.kind ≡ FREE) (entry_at block.now)) }
{
    for i in 0..ENTRIES {
        if entry(block, i).kind == FREE {
            return Some(i);
        }
    }
    None
}

/// Whether entry `i`, 0 to 7, tells a commit number, and a lesser one than the chosen entry, if there is one.
fn is_preferred(block: &[u8], i: u8, chosen: Option<u8>) -> bool
    requires block { length block.now ≡ UNIT }
    requires place { i < ENTRIES }
    requires before { IfSome chosen (λ c. c < ENTRIES) }
    ensures { IsTrue result ↔ (IsTold (entry_at block.now i)
        × IfSome chosen (λ c. (entry_at block.now i).number < (entry_at block.now c).number)) }
{
    let seen = entry(block, i);
    seen.kind != FREE
        && seen.kind != OPEN
        && chosen.is_none_or(|c| seen.number < entry(block, c).number)
}

/// Of the entries that tell a commit number the one with the least, 0 to 7, and of several such the lowest.
fn least_told(block: &[u8]) -> Option<u8>
    requires { length block.now ≡ UNIT }
    ensures within { IfSome result (λ i. i < ENTRIES) }
    ensures told { IfSome result (λ i. IsTold (entry_at block.now i)) }
    ensures least { IfSome result (λ i. (j : ℕ) → j < ENTRIES → IsTold (entry_at block.now j)
        → (entry_at block.now i).number ≤ (entry_at block.now j).number) }
    ensures lower { IfSome result (λ i. (j : ℕ) → j < i → IsTold (entry_at block.now j)
        → (entry_at block.now i).number < (entry_at block.now j).number) }
    ensures none { IfNone result (HasNoEntry IsTold (entry_at block.now)) }
{
    let mut chosen = None;
    for i in 0..ENTRIES {
        if is_preferred(block, i, chosen) {
            chosen = Some(i);
        }
    }
    chosen
}

/// The slot entry, 0 to 7, of a block of 2,048 bytes that the transaction uses for a change: its own Open one, else the
/// lowest that is Free, else of those that tell a commit number the one with the least, the lowest of these. None
/// exactly where all entries are other transactions' Open ones.
pub fn choose(block: &[u8], xid: Xid) -> Option<u8>
    requires { length block.now ≡ UNIT }
    ensures { MatchOption result (HasNoChoice (entry_at block.now) xid) (IsEntryChoice (entry_at block.now) xid) }
{
    if let Some(own) = own_entry(block, xid) {
        return Some(own);
    }
    if let Some(free) = lowest_free(block) {
        return Some(free);
    }
    least_told(block)
}
