//! Which table slot a transaction takes, and how many are taken. What begins transactions calls it.
ghost use Rattle.std.specs.Prelude.{IsTrue, ◌≡◌, ◌≢◌, ◌↔◌, ◌<◌, ℕ, length, IfSome, IfNone};
ghost use Rattle.rb_txntable.specs.Slots.{slot_at, slot_state, slot_newest, IsChosen, active_count};

use crate::slots::{slot_newest, slot_state};
use rb_base::{ACTIVE, SLOTS, UNIT};

/// Whether table slot `i` is to be taken in place of the chosen one, if there is one.
fn is_preferred(header: &[u8], i: u8, chosen: Option<u8>) -> bool
    requires header { length header.now ≡ UNIT }
    requires place { i < SLOTS }
    requires before { IfSome chosen (λ c. c < SLOTS) }
    ensures { IsTrue result ↔ ((slot_state header.now i ≢ ACTIVE)
        × IfSome chosen (λ c. slot_newest header.now i < slot_newest header.now c)) }
{
    slot_state(header, i as usize) != ACTIVE
        && chosen.is_none_or(|c| slot_newest(header, i as usize) < slot_newest(header, c as usize))
}

/// The table slot that a transaction takes: of those that no transaction has, the one with the least newest commit
/// number, and of several such the first. None where each is taken.
pub fn choose(header: &[u8]) -> Option<u8>
    requires { length header.now ≡ UNIT }
    ensures found { IfSome result (IsChosen (slot_at header.now)) }
    ensures none { IfNone result ((i : ℕ) → i < SLOTS → slot_state header.now i ≡ ACTIVE) }
{
    let mut chosen = None;
    for i in 0..SLOTS as u8 {
        if is_preferred(header, i, chosen) {
            chosen = Some(i);
        }
    }
    chosen
}

/// How many table slots transactions have that run.
pub fn active(header: &[u8]) -> u32
    requires { length header.now ≡ UNIT }
    ensures { result ≡ active_count header.now }
{
    let mut count = 0;
    for i in 0..SLOTS {
        if slot_state(header, i) == ACTIVE {
            count += 1;
        }
    }
    count
}
