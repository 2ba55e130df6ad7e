//! Where the next record of a segment goes: to the head, or to an extent that takes the next turn. Whoever makes a
//! record calls it.
ghost use Rattle.std.specs.Prelude.{IsTrue, ◌≡◌, ◌↔◌, ℕ, ◌<◌, ◌≤◌, length, MatchOption};
ghost use Rattle.rb_ring.specs.Ring.{extent_ord};
ghost use Rattle.rb_ring.specs.Turns.{PinsAt, IsOldest, IsPinned, IsOutside, TurnIs};

use crate::extents::{EXTENT_RECORDS, EXTENTS, extent_ord, head_records};
use rb_base::{ACTIVE, BLOCK_HEAD, FIRST_AT, SLOT_BYTES, SLOTS, TOUCHED_AT, UNIT, u64_at};

/// Where the next record of a segment goes.
#[derive(Clone, Copy, Debug, PartialEq, Eq)]
pub enum Turn {
    /// To the head, which isn't full.
    Same,
    /// To this extent, which has the oldest turn of the ring, and takes the next one. No transaction that runs made its
    /// first record in that turn.
    Reuse {
        /// The extent, 0 to 7.
        extent: u8,
    },
    /// To this extent, the lowest outside of the ring, which joins it, since the oldest turn can't be given up.
    Grow {
        /// The extent, 0 to 7.
        extent: u8,
    },
    /// Nowhere: every extent is in the ring, and a transaction that runs made its first record in the oldest turn.
    Full,
}

/// Whether the transaction of table slot `i`, 0 to 15, runs and made its first record in that turn.
fn slot_pins(header: &[u8], turn: u64, i: usize) -> bool
    requires header { length header.now ≡ UNIT }
    requires place { i < SLOTS }
    ensures { IsTrue result ↔ PinsAt header.now turn i }
{
    let place = BLOCK_HEAD + SLOT_BYTES * i;
    header[place] == ACTIVE
        && header[place + TOUCHED_AT] != 0
        && u64_at(header, place + FIRST_AT) == turn
}

/// Whether a transaction that runs made its first record in that turn.
fn is_pinned(header: &[u8], turn: u64) -> bool
    requires { length header.now ≡ UNIT }
    ensures { IsTrue result ↔ IsPinned (PinsAt header.now) turn }
{
    for i in 0..SLOTS {
        if slot_pins(header, turn, i) {
            return true;
        }
    }
    false
}

/// An extent that has the lowest turn of the ring, unless none is in the ring.
fn oldest(header: &[u8]) -> Option<usize>
    requires { length header.now ≡ UNIT }
    ensures { MatchOption result ((e : ℕ) → e < EXTENTS → extent_ord header.now e ≡ 0)
        (λ e. IsOldest (extent_ord header.now) e) }
{
    let mut oldest: Option<usize> = None;
    for e in 0..EXTENTS {
        let ord = extent_ord(header, e);
        if ord != 0 && oldest.is_none_or(|o| ord < extent_ord(header, o)) {
            oldest = Some(e);
        }
    }
    oldest
}

/// The lowest extent outside of the ring, unless each is in the ring.
fn outside(header: &[u8]) -> Option<usize>
    requires { length header.now ≡ UNIT }
    ensures { MatchOption result ((e : ℕ) → e < EXTENTS → 1 ≤ extent_ord header.now e)
        (λ e. IsOutside (extent_ord header.now) e) }
{
    for e in 0..EXTENTS {
        if extent_ord(header, e) == 0 {
            return Some(e);
        }
    }
    None
}

/// Where the next record goes, by what the header says. Its bytes needn't be in order.
pub fn next(header: &[u8]) -> Turn
    requires { length header.now ≡ UNIT }
    ensures { TurnIs header.now result }
{
    if head_records(header) < EXTENT_RECORDS {
        return Turn::Same;
    }
    if let Some(e) = oldest(header)
        && !is_pinned(header, extent_ord(header, e))
    {
        return Turn::Reuse { extent: e as u8 };
    }
    match outside(header) {
        Some(e) => Turn::Grow { extent: e as u8 },
        None => Turn::Full,
    }
}
