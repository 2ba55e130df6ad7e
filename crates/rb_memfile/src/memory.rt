//! `MemFile`: a raw file in memory. Tests of the file disk stand on it.
ghost use Rattle.std.specs.Prelude.{◌≡◌, ◌+◌, ◌-◌, ◌/◌, ◌^◌, ◌<◌, ◌≤◌, ◌⊎◌};
ghost use Rattle.std.specs.Prelude.{◌↔◌, ℕ, [], min, max, replicate};
ghost use Rattle.std.specs.Prelude.{length, take, get_or, vec_len, vec_capacity};
ghost use Rattle.std.specs.Prelude.{IsTrue, false, IsOk, IsErr, IfOk, OnOk, OnErr};
ghost use Rattle.std.proofs.Props.{props};
ghost use Rattle.rb_base.specs.Fields.{part, overwritten};
ghost use Rattle.rb_base.specs.Moments.{NoMore, Passes};
ghost use Rattle.rb_disk.specs.DiskModel.{Torn, Follows};
ghost use Rattle.rb_rawfile.specs.RawModel.{Began, HasLength, IsSettled, Wrote, with_range_of};
ghost use Rattle.rb_memfile.specs.Places.{IsLost, IsUnsettled, IsMarked, IsWrittenBack, at_place};
ghost use Rattle.rb_memfile.specs.Images.{IsImage, Leaves, LeftSince, IsStored, StoresPart, IsSynced, IsDropped};
ghost use Rattle.rb_memfile.specs.Laws.{reads_what_it_has, now_counts, only_now, loses_unsettled, few};

use crate::Place;
use crate::marks::{lose, mark, settle, write_back};
use crate::past::Past;
use rb_base::NoMemory;
use rb_memdisk::{overwrite, with_room};
use rb_rawfile::{Cause, RawFile};
use std::alloc::Global;
use std::io::{self, ErrorKind};

/// A raw file in memory that counts its calls, numbered from 1, and fails at those that it was told to fail at. A sync
/// that fails drops what was written since the last one: a later sync doesn't write it.
#[derive(Drop)]
pub struct MemFile {
    bytes: Vec<u8>,
    device: Vec<u8>,
    places: Vec<Place>,
    shortest: usize,
    past: Past,
    failing: Vec<u64>,
    calls: u64,
    room: usize,
    faults: u64,
    ghost one_length: { vec_len places ≡ vec_len bytes },
    ghost left: { IsImage bytes.items places.items shortest device.items } by { Prim.hlevel props },
    ghost in_room: { vec_len bytes ≤ room },
    ghost past_room: { past.room ≡ room },
    ghost bytes_reserved: { room ≤ vec_capacity bytes },
    ghost places_reserved: { room ≤ vec_capacity places },
    ghost device_reserved: { room ≤ vec_capacity device },
}

impl MemFile {
    ghost use Rattle.rb_memfile.specs.MemFile.{bytes_of, device_of, places_of, shortest_of, calls_of, failing_of};
    ghost use Rattle.rb_memfile.specs.MemFile.{room_of, limit_of, faults_of, seen_of, syncs_of, LeavesNow, one_more};
    ghost use Rattle.rb_memfile.specs.MemFile.{IsTold, PassesEnd, PassesRoom, IsSpent, IsSameSetup, IsCalled};
    ghost use Rattle.rb_memfile.specs.MemFile.{IsUntouched, LostPlace};

    /// A file that holds these bytes, all of them settled. `room` bounds their number, `syncs` how many syncs can
    /// succeed, and `failing` lists the numbers of the calls that fail. All its memory is taken here.
    pub fn new(
        alloc: Global,
        bytes: &[u8],
        room: u64,
        syncs: usize,
        failing: &[u64],
    ) -> Result<MemFile, NoMemory>
        requires { length bytes.now ≤ room }
        ensures reads { IfOk result (λ file. bytes_of file ≡ bytes.now) }
        ensures device { IfOk result (λ file. device_of file ≡ bytes.now) }
        ensures settled { IfOk result (λ file. (place : ℕ) → at_place (places_of file) place ≡ Place.Settled) }
        ensures shortest { IfOk result (λ file. shortest_of file ≡ length bytes.now) }
        ensures no_syncs { IfOk result (λ file. syncs_of file ≡ 0) }
        ensures no_calls { IfOk result (λ file. calls_of file ≡ 0) }
        ensures no_faults { IfOk result (λ file. faults_of file ≡ 0) }
        ensures room { IfOk result (λ file. room_of file ≡ room) }
        ensures limit { IfOk result (λ file. limit_of file ≡ syncs) }
        ensures failing { IfOk result (λ file. failing_of file ≡ failing.now) }
    {
        let room = room as usize;
        Ok(MemFile {
            bytes: with_room(alloc, bytes, room)?,
            device: with_room(alloc, bytes, room)?,
            places: all_settled(alloc, bytes.len(), room)?,
            shortest: bytes.len(),
            past: Past::new(alloc, room, syncs)?,
            failing: with_room(alloc, failing, failing.len())?,
            calls: 0,
            room,
            faults: 0,
        })
    }

    /// What it reads as now.
    pub fn bytes(&self) -> &[u8]
        ensures { result.now ≡ bytes_of self.now }
    {
        &self.bytes
    }

    /// What is on the device: what a crash leaves where nothing more is written back.
    pub fn device(&self) -> &[u8]
        ensures value { result.now ≡ device_of self.now }
        ensures possible { LeavesNow self.now result.now }
    {
        &self.device
    }

    /// Whether a sync that failed has lost a place that wasn't written again since.
    pub fn has_lost(&self) -> bool
        ensures some { IsTrue result → (place : ℕ) × LostPlace self.now place }
        ensures none { result ≡ false → (place : ℕ) → LostPlace self.now place → ⊥ }
    {
        self.places.contains(&Place::Lost)
    }

    /// How many calls were made, up to 2^64 - 1.
    pub fn calls(&self) -> u64
        ensures { result ≡ calls_of self.now }
    {
        self.calls
    }

    // Counts a call, and answers whether it was told to fail.
    fn refuses(&mut self) -> bool
        ensures told { IsTrue result ↔ IsTold self.old }
        ensures called { IsCalled self.old self.new }
        ensures untouched { IsUntouched self.old self.new }
        ensures faults { faults_of self.new ≡ faults_of self.old }
    {
        self.calls = self.calls.saturating_add(1);
        self.failing.contains(&self.calls)
    }

    // Counts a fault.
    fn fail(&mut self, kind: ErrorKind) -> Cause
        ensures setup { IsSameSetup self.old self.new }
        ensures untouched { IsUntouched self.old self.new }
        ensures calls { calls_of self.new ≡ calls_of self.old }
        ensures faults { faults_of self.new ≡ one_more (faults_of self.old) }
    {
        self.faults = self.faults.saturating_add(1);
        Cause::System(io::Error::from(kind))
    }

    fn ends_before(&self, at: u64, count: usize) -> bool
        ensures { IsTrue result ↔ PassesEnd self.now at count }
    {
        let len = self.bytes.len() as u64;
        at > len || count as u64 > len - at
    }

    fn lacks_room(&self, at: usize, count: usize) -> bool
        ensures { IsTrue result ↔ PassesRoom self.now at count }
    {
        at > self.room || count > self.room - at
    }

    // Writes a piece, for which there is room.
    fn store(&mut self, at: usize, piece: &[u8])
        requires begins { at ≤ length (bytes_of self.old) }
        requires room { at + length piece.now ≤ room_of self.old }
        ensures stored { IsStored at piece.now (seen_of self.old) (seen_of self.new) }
        ensures device { device_of self.new ≡ device_of self.old }
        ensures setup { IsSameSetup self.old self.new }
        ensures calls { calls_of self.new ≡ calls_of self.old }
        ensures faults { faults_of self.new ≡ faults_of self.old }
    {
        let _ = mark(&mut self.places, &self.bytes, at, piece);
        let _ = overwrite(&mut self.bytes, at, piece);
    }

    // Writes back what is dirty and settles it, with a length that a crash leaves at least.
    fn write_all_back(&mut self, shortest: usize)
        requires place { syncs_of self.old < limit_of self.old }
        requires no_less { shortest_of self.old ≤ shortest }
        requires within { shortest ≤ length (bytes_of self.old) }
        ensures synced { IsSynced shortest (seen_of self.old) (seen_of self.new) }
        ensures device { IsWrittenBack (bytes_of self.old) (places_of self.old) (device_of self.old)
            (device_of self.new) }
        ensures setup { IsSameSetup self.old self.new }
        ensures calls { calls_of self.new ≡ calls_of self.old }
        ensures faults { faults_of self.new ≡ faults_of self.old }
    {
        self.past.add(&self.bytes, &self.places, self.shortest);
        let _ = self.device.resize(self.bytes.len(), 0);
        write_back(&mut self.device, &self.bytes, &self.places);
        settle(&mut self.places);
        self.shortest = shortest;
    }

    // Drops what is dirty.
    fn drop_dirty(&mut self)
        ensures dropped { IsDropped (seen_of self.old) (seen_of self.new) }
        ensures device { device_of self.new ≡ device_of self.old }
        ensures setup { IsSameSetup self.old self.new }
        ensures calls { calls_of self.new ≡ calls_of self.old }
        ensures faults { faults_of self.new ≡ faults_of self.old }
    {
        lose(&mut self.places);
    }
    // Writes the bytes where it can, and else a first part of them.
    fn write_part(&mut self, at: usize, bytes: &[u8]) -> Result<(), Cause>
        requires { at ≤ length (bytes_of self.old) }
        ensures refused { IsErr result ↔ (IsTold self.old ⊎ PassesRoom self.old at (length bytes.now)) }
        ensures part { StoresPart at bytes.now (seen_of self.old) (seen_of self.new) }
        ensures all { OnOk result (IsStored at bytes.now (seen_of self.old) (seen_of self.new)) }
        ensures half { IsTold self.old → at + length bytes.now ≤ room_of self.old
            → IsStored at (take (length bytes.now / 2) bytes.now) (seen_of self.old) (seen_of self.new) }
        ensures nothing { PassesRoom self.old at (length bytes.now) → IsUntouched self.old self.new }
        ensures called { IsCalled self.old self.new }
        ensures device { device_of self.new ≡ device_of self.old }
        ensures faulted { OnErr result (faults_of self.new ≡ one_more (faults_of self.old)) }
        ensures no_fault { OnOk result (faults_of self.new ≡ faults_of self.old) }
    {
        let told = self.refuses();
        if self.lacks_room(at, bytes.len()) {
            return Err(self.fail(ErrorKind::StorageFull));
        }
        if told {
            self.store(at, &bytes[..bytes.len() / 2]);
            return Err(self.fail(ErrorKind::Other));
        }
        self.store(at, bytes);
        Ok(())
    }

    // A sync, behind which a crash leaves so many bytes at least.
    fn flush(&mut self, shortest: usize) -> Result<(), Cause>
        requires no_less { shortest_of self.old ≤ shortest }
        requires within { shortest ≤ length (bytes_of self.old) }
        ensures refused { IsErr result ↔ (IsTold self.old ⊎ IsSpent self.old) }
        ensures synced { OnOk result (IsSynced shortest (seen_of self.old) (seen_of self.new)) }
        ensures back { OnOk result (IsWrittenBack (bytes_of self.old) (places_of self.old) (device_of self.old)
            (device_of self.new)) }
        ensures dropped { OnErr result (IsDropped (seen_of self.old) (seen_of self.new)) }
        ensures kept { OnErr result (device_of self.new ≡ device_of self.old) }
        ensures called { IsCalled self.old self.new }
        ensures faulted { OnErr result (faults_of self.new ≡ one_more (faults_of self.old)) }
        ensures no_fault { OnOk result (faults_of self.new ≡ faults_of self.old) }
    {
        if self.refuses() || self.past.is_full() {
            self.drop_dirty();
            return Err(self.fail(ErrorKind::Other));
        }
        self.write_all_back(shortest);
        Ok(())
    }
}

// So many settled places, with this much room.
fn all_settled(alloc: Global, count: usize, room: usize) -> Result<Vec<Place>, NoMemory>
    requires { count ≤ room }
    ensures items { IfOk result (λ v. v.items ≡ replicate count Place.Settled) }
    ensures room { IfOk result (λ v. room ≤ vec_capacity v) }
{
    let mut places = Vec::with_capacity(alloc, room).map_err(|_| NoMemory)?;
    places.resize(count, Place::Settled).map_err(|_| NoMemory)?;
    Ok(places)
}

impl RawFile for MemFile {
    ghost use Rattle.rb_memfile.specs.MemFile.{
      bytes_of,
      device_of,
      places_of,
      room_of,
      faults_of,
      seen_of,
      shortest_of,
    };
    ghost use Rattle.rb_memfile.specs.MemFile.{syncs_of, LeavesNow, LeavesSince, Unsettled, LostPlace, one_more};
    ghost use Rattle.rb_memfile.specs.MemFile.{IsTold, PassesEnd, PassesRoom, IsSpent, IsCalled, IsUntouched};

    ghost tells = { Unit {0} };

    ghost content = { λ file. file.bytes.items };

    ghost image = { λ file c. Leaves (record {
      bytes = file.bytes.items;
      places = file.places.items;
      shortest = file.shortest;
      past = record {
        snapshots = file.past.snapshots.items;
        bytes = file.past.bytes.items;
        places = file.past.places.items;
      };
    }) c };

    ghost moment = { λ file. length file.past.snapshots.items };

    ghost image_since = { λ file t c. LeftSince (record {
      bytes = file.bytes.items;
      places = file.places.items;
      shortest = file.shortest;
      past = record {
        snapshots = file.past.snapshots.items;
        bytes = file.past.bytes.items;
        places = file.past.places.items;
      };
    }) t c };

    ghost unsettled = { λ file place. IsUnsettled (at_place file.places.items place) };

    ghost lost = { λ file place. IsLost (at_place file.places.items place) };

    ghost faults = { λ file. file.faults };

    ghost loses_unsettled = { λ file place told gone. loses_unsettled (at_place file.places.items place) gone };

    ghost fits = { λ file told. few file.bytes.len file.bytes.cap (length file.bytes.items) file.bytes.ok
        file.bytes.small };

    ghost reads_an_image = { λ file told. reads_what_it_has file.bytes.items file.places.items file.shortest
        file.device.items file.left };

    ghost now_counts = { λ file t c told le here. now_counts (record {
      bytes = file.bytes.items;
      places = file.places.items;
      shortest = file.shortest;
      past = record {
        snapshots = file.past.snapshots.items;
        bytes = file.past.bytes.items;
        places = file.past.places.items;
      };
    })
        t c le here };

    ghost only_now = { λ file c told since. only_now (record {
      bytes = file.bytes.items;
      places = file.places.items;
      shortest = file.shortest;
      past = record {
        snapshots = file.past.snapshots.items;
        bytes = file.past.bytes.items;
        places = file.past.places.items;
      };
    }) c since };

    fn len(&mut self) -> Result<u64, Cause>
        ensures value { IfOk result (λ n. n ≡ length (bytes_of self.old)) }
        ensures content { bytes_of self.new ≡ bytes_of self.old }
        ensures images { NoMore (LeavesNow self.old) (LeavesNow self.new) }
        ensures time { Passes (syncs_of self.old) (syncs_of self.new) (LeavesSince self.old) (LeavesSince self.new)
            (LeavesNow self.new) }
        ensures places { NoMore (Unsettled self.old) (Unsettled self.new) }
        ensures losses { NoMore (LostPlace self.old) (LostPlace self.new) }
        ensures faulted { OnErr result (faults_of self.new ≡ min (faults_of self.old + 1) (2 ^ 64 - 1)) }
        ensures no_fault { OnOk result (faults_of self.new ≡ faults_of self.old) }

        // It fails exactly where it was told to, and changes nothing.
        ensures refused { IsErr result ↔ IsTold self.old }
        ensures called { IsCalled self.old self.new }
        ensures untouched { IsUntouched self.old self.new }
    {
        if self.refuses() {
            return Err(self.fail(ErrorKind::Other));
        }
        Ok(self.bytes.len() as u64)
    }

    fn read_at(&mut self, at: u64, into: &mut [u8]) -> Result<(), Cause>
        ensures value { OnOk result (into.new ≡ part (bytes_of self.old) at (length into.old)) }
        ensures content { bytes_of self.new ≡ bytes_of self.old }
        ensures images { NoMore (LeavesNow self.old) (LeavesNow self.new) }
        ensures time { Passes (syncs_of self.old) (syncs_of self.new) (LeavesSince self.old) (LeavesSince self.new)
            (LeavesNow self.new) }
        ensures places { NoMore (Unsettled self.old) (Unsettled self.new) }
        ensures losses { NoMore (LostPlace self.old) (LostPlace self.new) }
        ensures faulted { OnErr result (faults_of self.new ≡ min (faults_of self.old + 1) (2 ^ 64 - 1)) }
        ensures no_fault { OnOk result (faults_of self.new ≡ faults_of self.old) }

        // It fails exactly where it was told to, or passes the end, and then leaves the buffer.
        ensures refused { IsErr result ↔ (IsTold self.old ⊎ PassesEnd self.old at (length into.old)) }
        ensures called { IsCalled self.old self.new }
        ensures untouched { IsUntouched self.old self.new }
        ensures unread { OnErr result (into.new ≡ into.old) }
    {
        if self.refuses() {
            return Err(self.fail(ErrorKind::Other));
        }
        if self.ends_before(at, into.len()) {
            return Err(self.fail(ErrorKind::UnexpectedEof));
        }
        let at = at as usize;
        into.copy_from_slice(&self.bytes[at..at + into.len()]);
        Ok(())
    }

    fn write_at(&mut self, at: u64, bytes: &[u8]) -> Result<(), Cause>
        requires { at ≤ length (bytes_of self.old) }
        ensures written { OnOk result (Wrote at bytes.now (bytes_of self.old) (bytes_of self.new)
            (LostPlace self.old) (LostPlace self.new)) }
        ensures begun { OnErr result (Began at bytes.now (bytes_of self.old) (bytes_of self.new)
            (LostPlace self.old) (LostPlace self.new)) }
        ensures images { Follows (Torn at (length bytes.now)) (LeavesNow self.old) (LeavesNow self.new) }
        ensures time { Passes (syncs_of self.old) (syncs_of self.new) (LeavesSince self.old) (LeavesSince self.new)
            (LeavesNow self.new) }
        ensures places { NoMore (with_range_of at (length bytes.now) (Unsettled self.old)) (Unsettled self.new) }
        ensures same { bytes.now ≡ part (bytes_of self.old) at (length bytes.now)
            → NoMore (LeavesNow self.old) (LeavesNow self.new) }
        ensures same_places { bytes.now ≡ part (bytes_of self.old) at (length bytes.now)
            → NoMore (Unsettled self.old) (Unsettled self.new) }
        ensures faulted { OnErr result (faults_of self.new ≡ min (faults_of self.old + 1) (2 ^ 64 - 1)) }
        ensures no_fault { OnOk result (faults_of self.new ≡ faults_of self.old) }

        // It fails exactly where it was told to, or has no room: then it writes the first half, or nothing.
        ensures refused { IsErr result ↔ (IsTold self.old ⊎ PassesRoom self.old at (length bytes.now)) }
        ensures all { OnOk result (IsStored at bytes.now (seen_of self.old) (seen_of self.new)) }
        ensures half { IsTold self.old → at + length bytes.now ≤ room_of self.old
            → IsStored at (take (length bytes.now / 2) bytes.now) (seen_of self.old) (seen_of self.new) }
        ensures nothing { PassesRoom self.old at (length bytes.now) → IsUntouched self.old self.new }
        ensures called { IsCalled self.old self.new }
        ensures device { device_of self.new ≡ device_of self.old }

        // No write loses a place.
        ensures losses { NoMore (LostPlace self.old) (LostPlace self.new) }
    {
        self.write_part(at as usize, bytes)
    }

    fn sync(&mut self) -> Result<(), Cause>
        ensures settled { OnOk result (IsSettled (LostPlace self.old) (bytes_of self.old) (LeavesNow self.new)) }
        ensures content { bytes_of self.new ≡ bytes_of self.old }
        ensures images { NoMore (LeavesNow self.old) (LeavesNow self.new) }
        ensures time { Passes (syncs_of self.old) (syncs_of self.new) (LeavesSince self.old) (LeavesSince self.new)
            (LeavesNow self.new) }
        ensures places { OnOk result (NoMore (LostPlace self.old) (Unsettled self.new)) }
        ensures losses { OnOk result (NoMore (LostPlace self.old) (LostPlace self.new)) }
        ensures unsettled { OnErr result (NoMore (Unsettled self.old) (Unsettled self.new)) }
        ensures may_lose { OnErr result (NoMore (Unsettled self.old) (LostPlace self.new)) }
        ensures faulted { OnErr result (faults_of self.new ≡ min (faults_of self.old + 1) (2 ^ 64 - 1)) }
        ensures no_fault { OnOk result (faults_of self.new ≡ faults_of self.old) }

        // It fails exactly where it was told to, or can keep no more of the past.
        ensures refused { IsErr result ↔ (IsTold self.old ⊎ IsSpent self.old) }
        // What is dirty is written back and settled. What is lost stays so, and the device keeps what it had there.
        ensures synced { OnOk result (IsSynced (shortest_of self.old) (seen_of self.old) (seen_of self.new)) }
        ensures back { OnOk result (IsWrittenBack (bytes_of self.old) (places_of self.old) (device_of self.old)
            (device_of self.new)) }
        // Where it fails, what was unsettled is lost, no more and no less, and the device gets nothing.
        ensures dropped { OnErr result (IsDropped (seen_of self.old) (seen_of self.new)) }
        ensures lost { OnErr result ((place : ℕ) → LostPlace self.new place ↔ Unsettled self.old place) }
        ensures kept { OnErr result (device_of self.new ≡ device_of self.old) }
        ensures called { IsCalled self.old self.new }
    {
        let shortest = self.shortest;
        self.flush(shortest)
    }

    fn sync_all(&mut self) -> Result<(), Cause>
        ensures settled { OnOk result (IsSettled (LostPlace self.old) (bytes_of self.old) (LeavesNow self.new)) }
        ensures long { OnOk result (HasLength (length (bytes_of self.old)) (LeavesNow self.new)) }
        ensures content { bytes_of self.new ≡ bytes_of self.old }
        ensures images { NoMore (LeavesNow self.old) (LeavesNow self.new) }
        ensures time { Passes (syncs_of self.old) (syncs_of self.new) (LeavesSince self.old) (LeavesSince self.new)
            (LeavesNow self.new) }
        ensures places { OnOk result (NoMore (LostPlace self.old) (Unsettled self.new)) }
        ensures losses { OnOk result (NoMore (LostPlace self.old) (LostPlace self.new)) }
        ensures unsettled { OnErr result (NoMore (Unsettled self.old) (Unsettled self.new)) }
        ensures may_lose { OnErr result (NoMore (Unsettled self.old) (LostPlace self.new)) }
        ensures faulted { OnErr result (faults_of self.new ≡ min (faults_of self.old + 1) (2 ^ 64 - 1)) }
        ensures no_fault { OnOk result (faults_of self.new ≡ faults_of self.old) }

        // It fails exactly where it was told to, or can keep no more of the past.
        ensures refused { IsErr result ↔ (IsTold self.old ⊎ IsSpent self.old) }
        // So is the length, which is the least that a crash leaves.
        ensures synced { OnOk result (IsSynced (length (bytes_of self.old)) (seen_of self.old) (seen_of self.new)) }
        ensures back { OnOk result (IsWrittenBack (bytes_of self.old) (places_of self.old) (device_of self.old)
            (device_of self.new)) }
        // Where it fails, what was unsettled is lost, no more and no less, and the device gets nothing.
        ensures dropped { OnErr result (IsDropped (seen_of self.old) (seen_of self.new)) }
        ensures lost { OnErr result ((place : ℕ) → LostPlace self.new place ↔ Unsettled self.old place) }
        ensures kept { OnErr result (device_of self.new ≡ device_of self.old) }
        ensures called { IsCalled self.old self.new }
    {
        let shortest = self.bytes.len();
        self.flush(shortest)
    }
}
