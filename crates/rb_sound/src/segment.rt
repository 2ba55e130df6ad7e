//! Tests the header of a segment. `blocks` calls it for each segment of a file.
ghost use Rattle.std.specs.Prelude.{IsTrue, ◌≡◌, ◌≢◌, ◌↔◌, ℕ, ◌<◌, ◌≤◌, true, length};
ghost use Rattle.rb_ring.specs.Ring.{extent_ord, extent_newest, head_extent, IsNear, IsRing};
ghost use Rattle.rb_txntable.specs.Slots.{IsSlot};
ghost use Rattle.rb_sound.specs.Sound.{IsSegment};

use rb_base::{SLOTS, Scn, UNIT};
use rb_ring::{
    EXTENT_RECORDS, EXTENTS, extent_newest, extent_ord, head_extent, head_records, lost,
};
use rb_txntable::slot_sound;

/// Whether each table slot is in order.
fn slots_sound(header: &[u8]) -> bool
    requires { length header.now ≡ UNIT }
    ensures { IsTrue result ↔ ((i : ℕ) → i < SLOTS → IsSlot header.now i) }
{
    for i in 0..SLOTS {
        if !slot_sound(header, i) {
            return false;
        }
    }
    true
}

/// Whether no extent's newest commit number is above `commit`.
fn extents_sound(header: &[u8], commit: Scn) -> bool
    requires { length header.now ≡ UNIT }
    ensures { IsTrue result ↔ ((e : ℕ) → e < EXTENTS → extent_newest header.now e ≤ commit) }
{
    for e in 0..EXTENTS {
        if extent_newest(header, e) > commit {
            return false;
        }
    }
    true
}

/// How many extents, from extent 0 on, have a number that isn't 0.
fn ring_length(header: &[u8]) -> usize
    requires { length header.now ≡ UNIT }
    ensures within { result ≤ EXTENTS }
    ensures positive { (e : ℕ) → e < result → 1 ≤ extent_ord header.now e }
    ensures next { result < EXTENTS → extent_ord header.now result ≡ 0 }
{
    for e in 0..EXTENTS {
        if extent_ord(header, e) == 0 {
            return e;
        }
    }
    EXTENTS
}

/// Whether the extents from `first` on, at most 8, are outside of the ring.
fn others_out(header: &[u8], first: usize) -> bool
    requires header { length header.now ≡ UNIT }
    requires within { first ≤ EXTENTS }
    ensures { IsTrue result ↔ ((e : ℕ) → first ≤ e → e < EXTENTS → extent_ord header.now e ≡ 0) }
{
    for e in first..EXTENTS {
        if extent_ord(header, e) != 0 {
            return false;
        }
    }
    true
}

/// Whether the number of extent `e`, 0 to 7, is one of the `extents` numbers up to `newest`.
fn number_near(header: &[u8], e: usize, extents: usize, newest: u64) -> bool
    requires header { length header.now ≡ UNIT }
    requires within { e < EXTENTS }
    ensures { IsTrue result ↔ IsNear extents newest (extent_ord header.now e) }
{
    let ord = extent_ord(header, e);
    ord <= newest && newest - ord < extents as u64
}

/// Whether the number of each of the first `extents`, at most 8, is one of as many up to `newest`.
fn numbers_near(header: &[u8], extents: usize, newest: u64) -> bool
    requires header { length header.now ≡ UNIT }
    requires within { extents ≤ EXTENTS }
    ensures { IsTrue result ↔ ((e : ℕ) → e < extents → IsNear extents newest (extent_ord header.now e)) }
{
    for e in 0..extents {
        if !number_near(header, e, extents, newest) {
            return false;
        }
    }
    true
}

/// Whether no extent before extent `e`, 0 to 7, has its number.
fn number_is_first(header: &[u8], e: usize) -> bool
    requires header { length header.now ≡ UNIT }
    requires within { e < EXTENTS }
    ensures { IsTrue result ↔ ((lower : ℕ) → lower < e → extent_ord header.now lower ≢ extent_ord header.now
        e) }
{
    let ord = extent_ord(header, e);
    for lower in 0..e {
        if extent_ord(header, lower) == ord {
            return false;
        }
    }
    true
}

/// Whether no two of the first `extents`, at most 8, have one number.
fn numbers_apart(header: &[u8], extents: usize) -> bool
    requires header { length header.now ≡ UNIT }
    requires within { extents ≤ EXTENTS }
    ensures { IsTrue result ↔ ((e : ℕ) → e < extents → (lower : ℕ) → lower < e
        → extent_ord header.now lower ≢ extent_ord header.now e) }
{
    for e in 0..extents {
        if !number_is_first(header, e) {
            return false;
        }
    }
    true
}

/// Whether the extents that have a number make a ring, with its head where the header says.
fn ring_sound(header: &[u8]) -> bool
    requires { length header.now ≡ UNIT }
    ensures { IsTrue result ↔ ((k : ℕ) × IsRing (extent_ord header.now) (head_extent header.now) k) }
{
    let extents = ring_length(header);
    let head = head_extent(header) as usize;
    if extents < 2 || head >= extents {
        return false;
    }
    let newest = extent_ord(header, head);
    others_out(header, extents)
        && numbers_near(header, extents, newest)
        && numbers_apart(header, extents)
}

/// Whether the header of a segment, 2,048 bytes, is in order, in a file of that commit number.
pub fn segment_sound(header: &[u8], commit: Scn) -> bool
    requires { length header.now ≡ UNIT }
    ensures { IsTrue result ↔ IsSegment commit header.now }
{
    ring_sound(header)
        && head_records(header) <= EXTENT_RECORDS
        && slots_sound(header)
        && lost(header) <= commit
        && extents_sound(header, commit)
}
