//! How a call changes what is known of each place, and what a sync writes back. `MemFile` calls these on its bytes.
ghost use Rattle.std.specs.Prelude.{◌≡◌, ◌==◌, ◌<◌, ◌≤◌, ◌+◌, ◌-◌, ◌^◌, ◌⊎◌};
ghost use Rattle.std.specs.Prelude.{ℕ, length};
ghost use Rattle.std.specs.Prelude.{get_or, max, IsOk, OnOk, vec_len, vec_capacity};
ghost use Rattle.rb_memfile.specs.Places.{IsMarked, at_place, after_write, after_sync, after_failure, written_back};

use crate::Place;
use std::alloc::AllocError;

/// Marks the places over which a piece is written, which begins within the bytes or at their end. It can fail only
/// where it passes the capacity.
pub(crate) fn mark(
    places: &mut Vec<Place>,
    bytes: &[u8],
    at: usize,
    piece: &[u8],
) -> Result<(), AllocError>
    requires begins { at ≤ length bytes.now }
    requires one_length { vec_len places.old ≡ length bytes.now }
    requires few { at + length piece.now < 2 ^ 64 }
    ensures marked { OnOk result (IsMarked at piece.now bytes.now places.old.items places.new.items) }
    ensures capacity { vec_capacity places.old ≤ vec_capacity places.new }
    ensures succeeds { max (vec_len places.old) (at + length piece.now) ≤ vec_capacity places.old → IsOk result }
{
    let inside = piece.len().min(bytes.len() - at);
    mark_over(places, bytes, at, &piece[..inside]);
    places.resize(bytes.len().max(at + piece.len()), Place::Dirty)
}

// Marks places that are there already.
fn mark_over(places: &mut [Place], bytes: &[u8], at: usize, piece: &[u8])
    requires one_length { length bytes.now ≡ length places.old }
    requires within { at + length piece.now ≤ length places.old }
    ensures over { (k : ℕ) → at ≤ k → k < at + length piece.now → at_place places.new k
        ≡ after_write (get_or bytes.now k 0 == get_or piece.now (k - at) 0) (at_place places.old k) }
    ensures outside { (k : ℕ) → (k < at) ⊎ (at + length piece.now ≤ k) → at_place places.new k
        ≡ at_place places.old k }
{
    for (i, byte) in piece.iter().enumerate() {
        places[at + i] = places[at + i].written(bytes[at + i] == *byte);
    }
}

/// Settles what is dirty.
pub(crate) fn settle(places: &mut [Place])
    ensures { (k : ℕ) → at_place places.new k ≡ after_sync (at_place places.old k) }
{
    for place in places.iter_mut() {
        *place = place.synced();
    }
}

/// Loses what is dirty.
pub(crate) fn lose(places: &mut [Place])
    ensures { (k : ℕ) → at_place places.new k ≡ after_failure (at_place places.old k) }
{
    for place in places.iter_mut() {
        *place = place.dropped();
    }
}

/// Gives the device, which is as long, the bytes of all places but the lost ones.
pub(crate) fn write_back(device: &mut [u8], bytes: &[u8], places: &[Place])
    requires bytes { length bytes.now ≡ length device.old }
    requires places { length places.now ≡ length device.old }
    ensures { (k : ℕ) → k < length device.old → get_or device.new k 0
        ≡ written_back (at_place places.now k) (get_or bytes.now k 0) (get_or device.old k 0) }
{
    for i in 0..device.len() {
        if !matches!(places[i], Place::Lost) {
            device[i] = bytes[i];
        }
    }
}
