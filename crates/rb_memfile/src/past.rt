//! What a memory file was before each sync that succeeded. `MemFile` adds to it, and its contracts speak of it.
ghost use Rattle.std.specs.Prelude.{◌≡◌, ◌+◌, ◌-◌, ◌*◌, ◌<◌, ◌≤◌, ◌↔◌, ℕ, IfOk};
ghost use Rattle.std.specs.Prelude.{List};
ghost use Rattle.std.specs.Prelude.{length, vec_len, vec_capacity, IsTrue};
ghost use Rattle.std.proofs.Props.{props};
ghost use Rattle.rb_memfile.specs.Images.{IsImage, LeftBefore, nth_snapshot};

use crate::Place;
use rb_base::NoMemory;
use std::alloc::Global;

/// Where in the past of a file one sync's part stands.
#[derive(Clone, Copy, Debug, PartialEq, Eq)]
pub struct Snapshot {
    pub start: usize,
    pub len: usize,
    pub shortest: usize,
}

/// The files before each sync that succeeded, one behind the other.
#[derive(Drop)]
pub struct Past {
    snapshots: Vec<Snapshot>,
    bytes: Vec<u8>,
    places: Vec<Place>,
    room: usize,
    limit: usize,
    ghost one_length: { vec_len places ≡ vec_len bytes },
    ghost within: { (k : ℕ) → k < vec_len snapshots
        → (nth_snapshot (record { snapshots = snapshots.items; bytes = bytes.items; places = places.items }) k).start
        + (nth_snapshot (record { snapshots = snapshots.items; bytes = bytes.items; places = places.items }) k).len
        ≤ vec_len bytes } by { Prim.hlevel props },
    ghost in_limit: { vec_len snapshots ≤ limit },
    ghost snapshots_reserved: { limit ≤ vec_capacity snapshots },
    ghost bytes_reserved: { vec_len bytes + room * (limit - vec_len snapshots) ≤ vec_capacity bytes },
    ghost places_reserved: { vec_len places + room * (limit - vec_len snapshots) ≤ vec_capacity places },
}

impl Past {
    ghost use Rattle.rb_memfile.specs.Seen.{history_of, count_of, room_in, limit_in};

    /// One of so many files at most, each of up to `room` bytes. All its memory is taken here.
    pub(crate) fn new(alloc: Global, room: usize, limit: usize) -> Result<Past, NoMemory>
        ensures none { IfOk result (λ past. count_of past ≡ 0) }
        ensures room { IfOk result (λ past. room_in past ≡ room) }
        ensures limit { IfOk result (λ past. limit_in past ≡ limit) }
    {
        let capacity = room.checked_mul(limit).ok_or(NoMemory)?;
        Ok(Past {
            snapshots: Vec::with_capacity(alloc, limit).map_err(|_| NoMemory)?,
            bytes: Vec::with_capacity(alloc, capacity).map_err(|_| NoMemory)?,
            places: Vec::with_capacity(alloc, capacity).map_err(|_| NoMemory)?,
            room,
            limit,
        })
    }

    /// Whether it has no place for one more.
    pub(crate) fn is_full(&self) -> bool
        ensures { IsTrue result ↔ limit_in self.now ≤ count_of self.now }
    {
        self.snapshots.len() >= self.limit
    }

    /// Adds a file as it is before a sync.
    pub(crate) fn add(&mut self, bytes: &[u8], places: &[Place], shortest: usize)
        requires place { count_of self.old < limit_in self.old }
        requires room { length bytes.now ≤ room_in self.old }
        requires one_length { length places.now ≡ length bytes.now }
        ensures count { count_of self.new ≡ count_of self.old + 1 }
        ensures room { room_in self.new ≡ room_in self.old }
        ensures limit { limit_in self.new ≡ limit_in self.old }
        ensures earlier { (k : ℕ) (c : List ℕ) → k < count_of self.old
            → LeftBefore (history_of self.new) k c ↔ LeftBefore (history_of self.old) k c }
        ensures last { (c : List ℕ) → LeftBefore (history_of self.new) (count_of self.old) c
            ↔ IsImage bytes.now places.now shortest c }
    {
        let _ = self.snapshots.push(Snapshot {
            start: self.bytes.len(),
            len: bytes.len(),
            shortest,
        });
        let _ = self.bytes.extend_from_slice(bytes);
        let _ = self.places.extend_from_slice(places);
    }
}
