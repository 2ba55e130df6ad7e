//! `Log`: the groups of patches in the log slots of a file. A store scans it at opening, flushes to it what changes the
//! blocks, and frees the slots of groups that it needs no more.
ghost use Rattle.std.specs.Prelude.{◌≡◌, ◌≤◌, ◌<◌, ◌+◌, ◌-◌, ◌^◌, ◌++◌, ◌↔◌};
ghost use Rattle.std.specs.Prelude.{[], ◌∷◌, ℕ, List, true, false, length, IsTrue, IsErrOf, slice_index_or};
ghost use Rattle.std.specs.Prelude.{IfOk, IfErr, IfSome, IfNone, OnOk, OnErr};
ghost use Rattle.rb_base.specs.Blocks.{AreWithin};
ghost use Rattle.rb_base.specs.Counts.{IsCounted, IsCountedAs, err_is, is_failed};
ghost use Rattle.rb_base.specs.Groups.{Patch, IsGroup};
ghost use Rattle.rb_disk.specs.DiskModel.{Only};
ghost use Rattle.rb_disk.specs.Moments.{Leaves, Rests};
ghost use Rattle.rb_layout.specs.Regions.{file_length, shape_of};
ghost use Rattle.rb_log.specs.GroupSlots.{AreFrom, HoldsGroup, GroupsAre, IsFaultyGroup, FlushedOrNot, KeptLog};
ghost use Rattle.rb_log.specs.GroupSlots.{IsLoggable, group_unit, SameButUnits};
ghost use Rattle.rb_log.specs.Slots.{slot_of, log_unit, gate_of, head_at, OutsideFrom, SameSlots, SameOutside};

use crate::flush::write_groups;
use crate::places::slot_behind;
use crate::sizes::{FLUSH_BYTES, FLUSH_SLOTS};
use crate::unit::{group_of, read_ahead};
use crate::waiting::{put_body, reach};
use rb_base::{Failed, Group, Lsn, OpenFault, UNIT};
use rb_disk::{Disk, write_synced};
use rb_fill::zero_bytes;
use rb_layout::{Head, Layout};
use std::alloc::Global;
use std::marker::Model;

/// The log of a file. It is scanned to its end first; from then on groups are appended, and flushed some at a time.
#[derive(Drop)]
pub struct Log {
    layout: Layout,
    // Where its first group stands, and that group's number.
    head: Head,
    // How many groups are in the slots.
    used: u32,
    // Units for what waits for a flush. Their room is taken when the log is opened; one that was filled stays, and is
    // filled again.
    units: Vec<[u8; UNIT]>,
    // How many of them wait.
    waiting: u32,
    scanned: bool,
    // Units for the calls of a scan.
    buffer: Vec<u8>,
    // How many units at the buffer's end are read ahead, from place `used` on.
    ahead: u32,
}

impl Model for Log {
    ghost use Rattle.std.specs.Prelude.{◌-◌, ◌*◌, take, drop, vec_capacity};
    ghost use Rattle.rb_base.specs.declared.sizes.TheConstants.{UNIT};
    ghost use Rattle.rb_log.specs.GroupSlots.{LogState};
    ghost use Rattle.rb_log.specs.WaitingUnits.{bodies_of, groups_in, IsLogMemory};
    ghost use Rattle.rb_log.specs.declared.sizes.TheConstants.{FLUSH_BYTES};

    ghost Value = { LogState };

    ghost view = { λ a. record {
      layout = a.layout;
      head = a.head;
      used = a.used;
      pending = groups_in (take a.waiting a.units.items);
      scanned = a.scanned;
      ahead = drop (FLUSH_BYTES - UNIT * a.ahead) a.buffer.items;
    } };

    ghost invariant = { λ a. IsLogMemory a.layout a.head a.used a.waiting (bodies_of (take a.waiting a.units.items))
        (bodies_of a.units.items) a.scanned a.buffer.items a.ahead (vec_capacity a.units) };
}

impl Log {
    /// A log whose groups are yet to be scanned, from its head on. It takes all the memory that the log needs, and
    /// doesn't touch the disk. The head's number is at most 2^61, so that none behind it is near the end of its type.
    pub fn open<D: Disk>(
        alloc: Global,
        _disk: &mut D,
        layout: &Layout,
        head: Head,
    ) -> Result<Log, OpenFault>
        requires slot { head.slot < layout.now.log }
        requires number { head.number ≤ 2 ^ 61 }
        ensures opened { IfOk result (λ log. log ≡ record
            { layout = layout.now; head = head; used = 0; pending = []; scanned = false; ahead = [] }) }
        ensures memory { IfErr result (λ e. e ≡ OpenFault.NoMemory) }
        ensures untouched { _disk.new ≡ _disk.old }
    {
        let Ok(units) = Vec::with_capacity(alloc, layout.log as usize) else {
            return Err(OpenFault::NoMemory);
        };
        let Ok(buffer) = zero_bytes(alloc, FLUSH_BYTES) else {
            return Err(OpenFault::NoMemory);
        };
        Ok(Log {
            layout: *layout,
            head,
            used: 0,
            units,
            waiting: 0,
            scanned: false,
            buffer,
            ahead: 0,
        })
    }

    /// Puts the group of a number, one more than the last, into `group`. False is the end: a closed gate, or the last
    /// place, which stays free. NotAStore is an open slot without such a group. Without a group, what `group` holds
    /// then is no matter. It reads units ahead, which must be those of this file.
    pub fn scan<D: Disk>(
        &mut self,
        disk: &mut D,
        next: Lsn,
        group: &mut Group,
    ) -> Result<bool, OpenFault>
        requires before { self.old.scanned ≡ false }
        requires next { next ≡ self.old.head.number + self.old.used }
        requires small { next < 2 ^ 63 }
        requires whole { D.tells → length (D.content disk.old) ≡ file_length self.old.layout }
        requires ahead { D.tells → AreFrom (D.content disk.old)
            (slot_of self.old.layout self.old.head self.old.used) self.old.ahead }
        ensures found { D.tells → IfOk result (λ more. more ≡ true
            → HoldsGroup self.old.layout
            (log_unit self.old.layout self.old.head (D.content disk.old) self.old.used) next group.new) }
        ensures valid { IfOk result (λ more. more ≡ true → IsLoggable self.old.layout group.new) }
        ensures more { IfOk result (λ more. more ≡ true → self.old.used + 1 < self.old.layout.log) }
        ensures end { D.tells → IfOk result (λ more. more ≡ false
            → GroupsAre self.old.layout self.old.head (D.content disk.old) self.old.used []) }
        ensures faulty { D.tells → IsErrOf result OpenFault.NotAStore
            → IsFaultyGroup self.old.layout self.old.head (D.content disk.old) self.old.used }
        ensures no_memory { ¬ IsErrOf result OpenFault.NoMemory }
        ensures counted { IsCountedAs (D.faults disk.old) (D.faults disk.new) (err_is is_failed result) }
        ensures one_more { IfOk result (λ more. more ≡ true → self.new
            ≡ record self.old { used = self.old.used + 1; ahead = self.new.ahead }) }
        ensures ahead { D.tells → AreFrom (D.content disk.old)
            (slot_of self.new.layout self.new.head self.new.used) self.new.ahead }
        ensures ended { IfOk result (λ more. more ≡ false
            → self.new ≡ record self.old { scanned = true; ahead = [] }) }
        ensures stays { OnErr result (self.new ≡ self.old) }
        ensures same { D.tells → Rests D.Disk disk.old disk.new }
        ensures untouched { self.old.used + 1 ≡ self.old.layout.log → disk.new ≡ disk.old }
    {
        if self.used + 1 == self.layout.log {
            self.scanned = true;
            self.ahead = 0;
            return Ok(false);
        }
        let slot = slot_behind(&self.layout, self.head, self.used);
        let ahead = read_ahead(
            disk,
            &self.layout,
            slot,
            self.used,
            &mut self.buffer,
            self.ahead,
        )?;
        let at = UNIT * (FLUSH_SLOTS - ahead as usize);
        if !group_of(&self.layout, &self.buffer[at..at + UNIT], next, group)? {
            self.scanned = true;
            self.ahead = 0;
            return Ok(false);
        }
        self.ahead = ahead - 1;
        self.used += 1;
        Ok(true)
    }

    /// How many slots hold groups that were scanned or flushed.
    pub fn used(&self) -> u32
        ensures used { result ≡ self.now.used }
        ensures below { result + length self.now.pending < self.now.layout.log }
    {
        self.used
    }

    /// How many groups wait for a flush.
    pub fn pending(&self) -> u32
        ensures { result ≡ length self.now.pending }
    {
        self.waiting
    }

    /// Whether one more group has room: with it the slots in use stay fewer than all, so that the gate behind
    /// can be closed.
    pub fn room(&self) -> bool
        ensures { IsTrue result ↔ (self.now.used + length self.now.pending + 1 < self.now.layout.log) }
    {
        self.used() + self.pending() + 1 < self.layout.log
    }

    /// Takes a copy of a group, which has a patch and whose blocks are those of the file. The next flush writes it.
    pub fn append(&mut self, group: &Group)
        requires scanned { self.old.scanned ≡ true }
        requires room { self.old.used + length self.old.pending + 1 < self.old.layout.log }
        requires number { self.old.head.number + (self.old.used + length self.old.pending) < 2 ^ 63 }
        requires some { 0 < length group.now }
        requires within { AreWithin (shape_of self.old.layout) group.now }
        ensures { self.new ≡ record self.old { pending = self.old.pending ++ group.now ∷ [] } }
    {
        // For the proof: the count's contract says that it is a group.
        let _ = group.patches();
        let place = self.waiting as usize;
        let number = self.head.number + u64::from(self.used + self.waiting);
        reach(&mut self.units, place);
        put_body(&mut self.units[place], number, group);
        self.waiting += 1;
    }

    /// Writes the groups that wait behind those of the log, with two syncs. After an Ok every image has all of them; a
    /// crash before leaves all of them or none. Where none waits it makes no call.
    pub fn flush<D: Disk>(&mut self, disk: &mut D) -> Result<(), Failed>
        requires whole { D.tells → length (D.content disk.old) ≡ file_length self.old.layout }
        requires synced { D.tells → (c : List ℕ) → D.image disk.old c
            → SameSlots self.old.layout.log (D.content disk.old) c }
        ensures written { D.tells → OnOk result ((groups : List (List Patch)) → length groups ≡ self.old.used
            → GroupsAre self.old.layout self.old.head (D.content disk.old) 0 groups
            → GroupsAre self.old.layout self.old.head (D.content disk.new) 0 (groups ++ self.old.pending)) }
        ensures units { D.tells → OnOk result ((k : ℕ) (d : List Patch) → k < length self.old.pending
            → log_unit self.old.layout self.old.head (D.content disk.new) (self.old.used + k)
            ≡ group_unit 1 (self.old.head.number + (self.old.used + k)) (slice_index_or self.old.pending k d)) }
        ensures closed { D.tells → OnOk result (0 < length self.old.pending
            → gate_of self.old.layout self.old.head (D.content disk.new)
            (self.old.used + length self.old.pending) ≡ 0) }
        ensures others { D.tells → OnOk result (0 < length self.old.pending
            → SameButUnits self.old.layout self.old.head self.old.used (length self.old.pending) (D.content disk.old)
            (D.content disk.new)) }
        ensures none { D.tells → self.old.pending ≡ [] → OnOk result (disk.new ≡ disk.old) }
        ensures outside { D.tells → OnOk result (SameOutside self.old.layout.log (D.content disk.old)
            (D.content disk.new)) }
        ensures durable { D.tells → OnOk result ((c : List ℕ) → D.image disk.new c
            → SameSlots self.old.layout.log (D.content disk.new) c) }
        ensures only { D.tells → OnOk result (Only (D.content disk.old) (D.image disk.old)
            → Only (D.content disk.new) (D.image disk.new)) }
        ensures whole { D.tells → length (D.content disk.new) ≡ file_length self.old.layout }
        ensures images { D.tells → Leaves D.Disk disk.old disk.new
            (OutsideFrom self.old.layout.log (D.image disk.old)) }
        ensures any_moment { D.tells → (groups : List (List Patch)) → length groups ≡ self.old.used
            → GroupsAre self.old.layout self.old.head (D.content disk.old) 0 groups
            → Leaves D.Disk disk.old disk.new
            (FlushedOrNot (D.image disk.old) self.old.layout self.old.head groups self.old.pending) }
        ensures flushed { OnOk result (self.new ≡ record self.old
            { used = self.old.used + length self.old.pending; pending = [] }) }
        ensures stays { OnErr result (self.new ≡ self.old) }
        ensures counted { IsCounted (D.faults disk.old) (D.faults disk.new) result }
    {
        let count = self.waiting;
        write_groups(
            disk,
            &self.layout,
            self.head,
            self.used,
            &mut self.units,
            count as usize,
        )?;
        self.used += count;
        self.waiting = 0;
        Ok(())
    }

    /// Moves the head to a group that is in the slots, or to the place behind the last: the slots in front of it are
    /// free. It changes memory alone. From there the file has the other groups where the gate behind them is closed, as
    /// a flush leaves it; in a full log that was opened so, `shut` sees to it.
    pub fn release(&mut self, head: Head)
        requires scanned { self.old.scanned ≡ true }
        requires number { self.old.head.number ≤ head.number }
        requires flushed { head.number ≤ self.old.head.number + self.old.used }
        requires slot { head.slot ≡ slot_of self.old.layout self.old.head (head.number - self.old.head.number) }
        ensures { self.new ≡ record self.old
            { head = head; used = self.old.used - (head.number - self.old.head.number) } }
    {
        self.used -= (head.number - self.head.number) as u32;
        self.head = head;
    }

    /// Where the next group to be flushed will stand, and its number. `release` takes it: then no slot is in use.
    pub fn next(&self) -> Head
        ensures head { result ≡ head_at self.now.layout self.now.head self.now.used }
        ensures slot { result.slot < self.now.layout.log }
    {
        Head {
            slot: slot_behind(&self.layout, self.head, self.used),
            number: self.head.number + u64::from(self.used),
        }
    }

    /// Closes the gate behind the groups, and syncs, where there are as many as may be, so that none waits: they ended
    /// by their count, and a head that moves needs the gate. A crash leaves the same groups. In a file of these calls
    /// that gate is closed already.
    pub fn shut<D: Disk>(&mut self, disk: &mut D) -> Result<(), Failed>
        requires full { self.old.used + 1 ≡ self.old.layout.log }
        requires whole { D.tells → length (D.content disk.old) ≡ file_length self.old.layout }
        requires synced { D.tells → (c : List ℕ) → D.image disk.old c
            → SameSlots self.old.layout.log (D.content disk.old) c }
        ensures closed { D.tells → OnOk result
            (gate_of self.old.layout self.old.head (D.content disk.new) self.old.used ≡ 0) }
        ensures durable { D.tells → OnOk result (Only (D.content disk.new) (D.image disk.new)) }
        ensures whole { D.tells → length (D.content disk.new) ≡ file_length self.old.layout }
        ensures any_moment { D.tells → (groups : List (List Patch)) → length groups ≡ self.old.used
            → GroupsAre self.old.layout self.old.head (D.content disk.old) 0 groups
            → Leaves D.Disk disk.old disk.new
            (KeptLog (D.image disk.old) self.old.layout self.old.head groups) }
        ensures stays { self.new ≡ self.old }
        ensures counted { IsCounted (D.faults disk.old) (D.faults disk.new) result }
    {
        let slot = slot_behind(&self.layout, self.head, self.used);
        write_synced(disk, self.layout.log_at(slot), &[0])
    }
}
