//! `MemDisk`: a disk in memory. Tests of the layout, the log and the shell stand on it.
ghost use Rattle.std.specs.Prelude.{◌≡◌, ◌+◌, ◌<◌, ◌≤◌, ◌⊎◌, ◌↔◌, ℕ, true, []};
ghost use Rattle.std.specs.Prelude.{◌∷◌, ◌++◌, length, take, drop, count_by, vec_len, vec_capacity};
ghost use Rattle.std.specs.Prelude.{IsTrue, IsOk, IsErr, IfOk, OnOk, OnErr, is_ok};
ghost use Rattle.rb_base.specs.Counts.{IsCounted, Rose};
ghost use Rattle.rb_base.specs.Fields.{part, overwritten};
ghost use Rattle.rb_base.specs.Moments.{NoMore, Passes};
ghost use Rattle.rb_disk.specs.DiskModel.{Torn, Follows, Only};
ghost use Rattle.rb_memdisk.specs.Record.{read_after_all, left_after_all, fits, fits_one, read_after, left_after};
ghost use Rattle.rb_memdisk.specs.Record.{picked_after, picked_after_all, MayLeave, MayLeaveSince, IsIdle, IsUndone};
ghost use Rattle.rb_memdisk.specs.Record.{CanFill, is_sync};
ghost use Rattle.rb_memdisk.specs.Replays.{reads_now, now_counts, only_now};

use crate::{Call, Pick, overwrite, with_room};
use rb_base::{Failed, NoMemory};
use rb_disk::Disk;
use std::alloc::{AllocError, Global};

/// A disk in memory that records its calls, numbered from 1, and fails at those that it was told to fail at.
#[derive(Drop)]
pub struct MemDisk {
    first: Vec<u8>,
    bytes: Vec<u8>,
    calls: Vec<Call>,
    written: Vec<u8>,
    failing: Vec<u64>,
    room: u64,
    limit: usize,
    faults: u64,
    ghost reads: { bytes.items ≡ read_after_all first.items calls.items written.items },
    ghost fitting: { fits first.items calls.items written.items ≡ true },
    ghost used_up: { left_after_all calls.items written.items ≡ [] },
    ghost short: { vec_len bytes ≤ vec_len first + vec_len written },
    ghost in_room: { vec_len first + vec_len written ≤ room },
    ghost in_limit: { vec_len calls ≤ limit },
    ghost bytes_reserved: { room ≤ vec_capacity bytes },
    ghost written_reserved: { room ≤ vec_len first + vec_capacity written },
    ghost calls_reserved: { limit ≤ vec_capacity calls },
}

impl MemDisk {
    ghost use Rattle.rb_memdisk.specs.MemDisk.{bytes_of, first_bytes, record_of, written_of, bytes_room, limit_of};
    ghost use Rattle.rb_memdisk.specs.MemDisk.{failing_of, faults_of, made, IsRefused, PassesRoom, recorded, one_more};
    ghost use Rattle.rb_memdisk.specs.MemDisk.{IsSameSetup, IsUnwritten, GoesOnBy};

    /// A disk that holds these bytes, all of them synced. `room` bounds their number and that of all bytes that
    /// are written, `calls` how many calls it can record, and `failing` lists the numbers of the calls that fail.
    /// All its memory is taken here.
    pub fn new(
        alloc: Global,
        bytes: &[u8],
        room: u64,
        calls: usize,
        failing: &[u64],
    ) -> Result<MemDisk, NoMemory>
        requires { length bytes.now ≤ room }
        ensures first { IfOk result (λ disk. first_bytes disk ≡ bytes.now) }
        ensures reads { IfOk result (λ disk. bytes_of disk ≡ bytes.now) }
        ensures no_calls { IfOk result (λ disk. record_of disk ≡ []) }
        ensures none_written { IfOk result (λ disk. written_of disk ≡ []) }
        ensures no_faults { IfOk result (λ disk. faults_of disk ≡ 0) }
        ensures room { IfOk result (λ disk. bytes_room disk ≡ room) }
        ensures limit { IfOk result (λ disk. limit_of disk ≡ calls) }
        ensures failing { IfOk result (λ disk. failing_of disk ≡ failing.now) }
    {
        let capacity = room as usize;
        Ok(MemDisk {
            first: with_room(alloc, bytes, bytes.len())?,
            bytes: with_room(alloc, bytes, capacity)?,
            calls: with_room(alloc, &[], calls)?,
            written: with_room(alloc, &[], capacity - bytes.len())?,
            failing: with_room(alloc, failing, failing.len())?,
            room,
            limit: calls,
            faults: 0,
        })
    }

    /// An image that a crash after call `k` may leave.
    pub fn image(&self, alloc: Global, k: u64, pick: Pick) -> Result<Vec<u8>, NoMemory>
        requires { k ≤ made self.now }
        ensures picked { IfOk result (λ image. image.items
            ≡ picked_after_all pick (first_bytes self.now) (first_bytes self.now) (take k (record_of self.now))
            (written_of self.now)) }
        ensures possible { IfOk result (λ image. MayLeave (first_bytes self.now) (record_of self.now)
            (written_of self.now) k image.items) }
    {
        self.picked_image(alloc, k as usize, pick)
            .map_err(|_| NoMemory)
    }

    /// How many calls it has recorded: all but those past the number that it can record.
    pub fn calls(&self) -> u64
        ensures { result ≡ made self.now }
    {
        self.calls.len() as u64
    }

    /// How many of the recorded calls are syncs, those that failed too.
    pub fn syncs(&self) -> u64
        ensures { result ≡ count_by is_sync (record_of self.now) }
    {
        self.calls
            .iter()
            .filter(|call| matches!(call, Call::Sync { .. }))
            .count() as u64
    }

    /// What it reads as now.
    pub fn bytes(&self) -> &[u8]
        ensures { result.now ≡ bytes_of self.now }
    {
        &self.bytes
    }

    fn picked_image(&self, alloc: Global, k: usize, pick: Pick) -> Result<Vec<u8>, AllocError>
        requires { k ≤ made self.now }
        ensures picked { IfOk result (λ image. image.items
            ≡ picked_after_all pick (first_bytes self.now) (first_bytes self.now) (take k (record_of self.now))
            (written_of self.now)) }
    {
        let mut file = self.first.to_vec(alloc)?;
        let mut image = self.first.to_vec(alloc)?;
        let mut used = 0;
        let calls = &self.calls[..k];
        for call in calls {
            used += replay(&mut file, *call, &self.written[used..])?;
            pick_on(alloc, &mut image, pick, *call, &file)?;
        }
        Ok(image)
    }

    // Whether the next call fails, whatever it is.
    fn refuses(&self) -> bool
        ensures { IsTrue result ↔ IsRefused self.now }
    {
        self.calls.len() >= self.limit || self.failing.contains(&(self.calls.len() as u64 + 1))
    }

    fn lacks_room(&self, count: usize) -> bool
        ensures { IsTrue result ↔ PassesRoom self.now count }
    {
        count as u64 > self.room - (self.first.len() + self.written.len()) as u64
    }

    // Records a call that writes nothing.
    fn add(&mut self, call: Call)
        requires place { made self.old < limit_of self.old }
        requires idle { IsIdle (bytes_of self.old) call }
        ensures unwritten { IsUnwritten self.old self.new }
        ensures record { record_of self.new ≡ record_of self.old ++ call ∷ [] }
        ensures faults { faults_of self.new ≡ faults_of self.old }
        ensures on { GoesOnBy self.old self.new call }
    {
        let _ = self.calls.push(call);
    }

    // Records a call that failed, where there is a place for it.
    fn note(&mut self, call: Call)
        requires undone { IsUndone (bytes_of self.old) call }
        ensures unwritten { IsUnwritten self.old self.new }
        ensures record { record_of self.new ≡ recorded self.old call }
        ensures faults { faults_of self.new ≡ faults_of self.old }
        ensures on { GoesOnBy self.old self.new call }
    {
        if self.calls.len() < self.limit {
            self.add(call);
        }
    }

    // Counts a fault, and records the call that failed where there is a place for it.
    fn fail(&mut self, call: Call) -> Failed
        requires undone { IsUndone (bytes_of self.old) call }
        ensures unwritten { IsUnwritten self.old self.new }
        ensures record { record_of self.new ≡ recorded self.old call }
        ensures faults { faults_of self.new ≡ one_more (faults_of self.old) }
        ensures no_less { faults_of self.old ≤ faults_of self.new }
        ensures rose { Rose (faults_of self.old) (faults_of self.new) }
        ensures on { GoesOnBy self.old self.new call }
    {
        self.note(call);
        self.faults = self.faults.saturating_add(1);
        Failed
    }

    // Writes a piece, for which there is room, and records it.
    fn store(&mut self, at: usize, piece: &[u8])
        requires begins { at ≤ length (bytes_of self.old) }
        requires place { made self.old < limit_of self.old }
        requires room { length (first_bytes self.old) + length (written_of self.old) + length piece.now
            ≤ bytes_room self.old }
        ensures setup { IsSameSetup self.old self.new }
        ensures bytes { bytes_of self.new ≡ overwritten (bytes_of self.old) at piece.now }
        ensures written { written_of self.new ≡ written_of self.old ++ piece.now }
        ensures record { record_of self.new ≡ record_of self.old ++ Call.Write at (length piece.now) true ∷ [] }
        ensures faults { faults_of self.new ≡ faults_of self.old }
        ensures on { GoesOnBy self.old self.new (Call.Write at (length piece.now) true) }
    {
        let _ = overwrite(&mut self.bytes, at, piece);
        let _ = self.written.extend_from_slice(piece);
        let _ = self.calls.push(Call::Write {
            at,
            count: piece.len(),
            done: true,
        });
    }
}

// Does what a call did to a file, and answers how many of the written bytes it took.
fn replay(file: &mut Vec<u8>, call: Call, written: &[u8]) -> Result<usize, AllocError>
    requires { fits_one file.old.items call written.now ≡ true }
    ensures read { OnOk result (file.new.items ≡ read_after file.old.items call written.now) }
    ensures left { IfOk result (λ n. (n ≤ length written.now)
        × (drop n written.now ≡ left_after call written.now)) }
{
    match call {
        Call::Write {
            at,
            count,
            done: true,
        } => {
            overwrite(file, at, &written[..count])?;
            Ok(count)
        }
        _ => Ok(0),
    }
}

// Does what a crash might do with a call to a picked image; `file` is what is read after the call.
fn pick_on(
    alloc: Global,
    image: &mut Vec<u8>,
    pick: Pick,
    call: Call,
    file: &[u8],
) -> Result<(), AllocError>
    requires { CanFill pick call image.old.items }
    ensures { OnOk result (image.new.items ≡ picked_after pick image.old.items call file.now) }
{
    match (pick, call) {
        (Pick::New, _) | (_, Call::Sync { done: true }) => {
            image.clear();
            image.extend_from_slice(file)
        }
        (Pick::Fill(byte), Call::Write { at, count, .. }) => {
            let piece = vec![in alloc; byte; count]?;
            overwrite(image, at, &piece)
        }
        _ => Ok(()),
    }
}

impl Disk for MemDisk {
    ghost use Rattle.rb_memdisk.specs.MemDisk.{bytes_of, record_of, written_of, faults_of, made, MayLeaveNow};
    ghost use Rattle.rb_memdisk.specs.MemDisk.{LeavesSince};
    ghost use Rattle.rb_memdisk.specs.MemDisk.{IsRefused, PassesRoom, recorded, one_more, IsSameSetup, IsUnwritten};

    ghost tells = { Unit {0} };

    ghost content = { λ disk. disk.bytes.items };

    ghost image = { λ disk c. MayLeave disk.first.items disk.calls.items disk.written.items
        (length disk.calls.items) c };

    ghost moment = { λ disk. length disk.calls.items };

    ghost image_since = { λ disk t c. MayLeaveSince disk.first.items disk.calls.items disk.written.items t c };

    ghost faults = { λ disk. disk.faults };

    ghost reads_an_image = { λ disk told. reads_now disk.first.items disk.bytes.items disk.calls.items
        disk.written.items disk.reads disk.fitting };

    ghost now_counts = { λ disk t c told le here. now_counts disk.first.items disk.calls.items disk.written.items t c
        le here };

    ghost only_now = { λ disk c told since. only_now disk.first.items disk.calls.items disk.written.items c since };

    fn len(&mut self) -> Result<u64, Failed>
        ensures value { IfOk result (λ n. n ≡ length (bytes_of self.old)) }
        ensures content { bytes_of self.new ≡ bytes_of self.old }
        ensures images { NoMore (MayLeaveNow self.old) (MayLeaveNow self.new) }
        ensures time { Passes (made self.old) (made self.new) (LeavesSince self.old) (LeavesSince self.new)
            (MayLeaveNow self.new) }
        ensures counted { IsCounted (faults_of self.old) (faults_of self.new) result }

        // It fails exactly where the disk was told to, or can't record it.
        ensures refused { IsErr result ↔ IsRefused self.old }
        ensures faulted { OnErr result (faults_of self.new ≡ one_more (faults_of self.old)) }
        ensures record { record_of self.new ≡ recorded self.old Call.Length }
        ensures unwritten { IsUnwritten self.old self.new }
    {
        if self.refuses() {
            return Err(self.fail(Call::Length));
        }
        self.add(Call::Length);
        Ok(self.bytes.len() as u64)
    }

    fn read_at(&mut self, at: u64, into: &mut [u8]) -> Result<(), Failed>
        requires { at + length into.old ≤ length (bytes_of self.old) }
        ensures value { OnOk result (into.new ≡ part (bytes_of self.old) at (length into.old)) }
        ensures content { bytes_of self.new ≡ bytes_of self.old }
        ensures images { NoMore (MayLeaveNow self.old) (MayLeaveNow self.new) }
        ensures time { Passes (made self.old) (made self.new) (LeavesSince self.old) (LeavesSince self.new)
            (MayLeaveNow self.new) }
        ensures counted { IsCounted (faults_of self.old) (faults_of self.new) result }

        // It fails exactly where the disk was told to, or can't record it, and then leaves the buffer.
        ensures refused { IsErr result ↔ IsRefused self.old }
        ensures faulted { OnErr result (faults_of self.new ≡ one_more (faults_of self.old)) }
        ensures record { record_of self.new ≡ recorded self.old Call.Read }
        ensures unwritten { IsUnwritten self.old self.new }
        ensures unread { OnErr result (into.new ≡ into.old) }
    {
        if self.refuses() {
            return Err(self.fail(Call::Read));
        }
        self.add(Call::Read);
        let at = at as usize;
        into.copy_from_slice(&self.bytes[at..at + into.len()]);
        Ok(())
    }

    fn write_at(&mut self, at: u64, bytes: &[u8]) -> Result<(), Failed>
        requires { at ≤ length (bytes_of self.old) }
        ensures written { OnOk result (bytes_of self.new ≡ overwritten (bytes_of self.old) at bytes.now) }
        ensures torn { OnErr result (Torn at (length bytes.now) (bytes_of self.old) (bytes_of self.new)) }
        ensures images { Follows (Torn at (length bytes.now)) (MayLeaveNow self.old) (MayLeaveNow self.new) }
        ensures time { Passes (made self.old) (made self.new) (LeavesSince self.old) (LeavesSince self.new)
            (MayLeaveNow self.new) }
        ensures counted { IsCounted (faults_of self.old) (faults_of self.new) result }

        // It fails exactly where the disk was told to, can't record it or has no room, and then writes nothing.
        ensures refused { IsErr result ↔ (IsRefused self.old ⊎ PassesRoom self.old (length bytes.now)) }
        ensures faulted { OnErr result (faults_of self.new ≡ one_more (faults_of self.old)) }
        ensures record { record_of self.new ≡ recorded self.old (Call.Write at (length bytes.now) (is_ok result)) }
        ensures setup { IsSameSetup self.old self.new }
        ensures added { OnOk result (written_of self.new ≡ written_of self.old ++ bytes.now) }
        ensures unwritten { OnErr result (IsUnwritten self.old self.new) }
    {
        let at = at as usize;
        if self.refuses() || self.lacks_room(bytes.len()) {
            return Err(self.fail(Call::Write {
                at,
                count: bytes.len(),
                done: false,
            }));
        }
        self.store(at, bytes);
        Ok(())
    }

    fn sync(&mut self) -> Result<(), Failed>
        ensures durable { OnOk result (Only (bytes_of self.old) (MayLeaveNow self.new)) }
        ensures content { bytes_of self.new ≡ bytes_of self.old }
        ensures images { NoMore (MayLeaveNow self.old) (MayLeaveNow self.new) }
        ensures time { Passes (made self.old) (made self.new) (LeavesSince self.old) (LeavesSince self.new)
            (MayLeaveNow self.new) }
        ensures counted { IsCounted (faults_of self.old) (faults_of self.new) result }

        // It fails exactly where the disk was told to, or can't record it.
        ensures refused { IsErr result ↔ IsRefused self.old }
        ensures faulted { OnErr result (faults_of self.new ≡ one_more (faults_of self.old)) }
        ensures record { record_of self.new ≡ recorded self.old (Call.Sync (is_ok result)) }
        ensures unwritten { IsUnwritten self.old self.new }
    {
        if self.refuses() {
            return Err(self.fail(Call::Sync { done: false }));
        }
        self.add(Call::Sync { done: true });
        Ok(())
    }
}
