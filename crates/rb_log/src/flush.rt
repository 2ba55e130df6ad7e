//! Groups of patches written to the log slots of a file, all there or none after a crash. The log calls it.
ghost use Rattle.std.specs.Prelude.{◌≡◌, ◌+◌, ◌-◌, ◌^◌, ◌++◌, ◌<◌, ◌≤◌, ℕ, List, []};
ghost use Rattle.std.specs.Prelude.{OnOk, length, take, min, slice_index_or};
ghost use Rattle.std.specs.List.{AllByRecursion};
ghost use Rattle.rb_base.specs.Counts.{IsCounted};
ghost use Rattle.rb_base.specs.Groups.{Patch};
ghost use Rattle.rb_disk.specs.DiskModel.{Follows, Only};
ghost use Rattle.rb_disk.specs.Moments.{Leaves};
ghost use Rattle.rb_layout.specs.Regions.{file_length};
ghost use Rattle.rb_log.specs.Slots.{slot_of, log_unit, gate_of, OutsideFrom, SameSlots, SameOutside};
ghost use Rattle.rb_log.specs.GroupSlots.{GroupsAre, IsLoggable, group_unit, FlushedOrNot, StagedFrom};
ghost use Rattle.rb_log.specs.GroupSlots.{SameButGate, SameButGroups, SameButUnits};
ghost use Rattle.rb_log.specs.WaitingUnits.{bodies_of, groups_in, AreSpelled, UnitsWritten};

use crate::places::slot_behind;
use crate::sizes::FLUSH_SLOTS;
use crate::waiting::set_gates;
use rb_base::{Failed, UNIT};
use rb_disk::{Disk, write_synced};
use rb_layout::{Head, Layout};

/// How many groups the run has that begins in a slot, where so many are left: up to 32, and no more than there are
/// slots from this one to the last of the file.
fn run_length(layout: &Layout, slot: u32, left: usize) -> usize
    requires { slot < layout.now.log }
    ensures { result ≡ min (min left FLUSH_SLOTS) (layout.now.log - slot) }
{
    left.min(FLUSH_SLOTS).min((layout.log - slot) as usize)
}

/// Writes a run of up to 32 units from a place on: each body, and the gate after it. The gate of that place isn't
/// touched. Where the run ends in the last slot of the file, the gate after it is the first slot's, and is written
/// alone. It doesn't sync.
fn write_run<D: Disk>(
    disk: &mut D,
    layout: &Layout,
    head: Head,
    place: u32,
    units: &[[u8; UNIT]],
) -> Result<(), Failed>
    requires slot { head.slot < layout.now.log }
    requires whole { D.tells → length (D.content disk.old) ≡ file_length layout.now }
    requires sized { D.tells → (c : List ℕ) → D.image disk.old c → length c ≡ file_length layout.now }
    requires some { 0 < length units.now }
    requires few { length units.now ≤ FLUSH_SLOTS }
    requires room { place + length units.now < layout.now.log }
    requires line { slot_of layout.now head place + length units.now ≤ layout.now.log }
    ensures written { D.tells → OnOk result
        (UnitsWritten layout.now head place units.now (D.content disk.old) (D.content disk.new)) }
    ensures images { D.tells → Follows (SameButGroups layout.now head place (length units.now))
        (D.image disk.old) (D.image disk.new) }
    ensures any_moment { D.tells → Leaves D.Disk disk.old disk.new
        (StagedFrom layout.now head place (length units.now) (D.image disk.old)) }
    ensures whole { D.tells → length (D.content disk.new) ≡ file_length layout.now }
    ensures counted { IsCounted (D.faults disk.old) (D.faults disk.new) result }
{
    let slot = slot_behind(layout, head, place);
    let at = layout.log_at(slot) + 1;
    let bytes = units.as_flattened();
    if slot + (units.len() as u32) < layout.log {
        return disk.write_at(at, bytes);
    }
    let last = bytes.len() - 1;
    disk.write_at(at, &bytes[..last])?;
    disk.write_at(layout.log_at(0), &bytes[last..])
}

/// Step one of a flush: writes the units, run by run, and syncs. The gate of the place `used`, which is closed, isn't
/// touched: the log still ends there. Only behind this sync may it be opened, since a crash may leave any part of what
/// isn't synced.
fn stage<D: Disk>(
    disk: &mut D,
    layout: &Layout,
    head: Head,
    used: u32,
    units: &[[u8; UNIT]],
) -> Result<(), Failed>
    requires slot { head.slot < layout.now.log }
    requires whole { D.tells → length (D.content disk.old) ≡ file_length layout.now }
    requires sized { D.tells → (c : List ℕ) → D.image disk.old c → length c ≡ file_length layout.now }
    requires room { used + length units.now < layout.now.log }
    ensures written { D.tells → OnOk result
        (UnitsWritten layout.now head used units.now (D.content disk.old) (D.content disk.new)) }
    ensures durable { D.tells → OnOk result (Only (D.content disk.new) (D.image disk.new)) }
    ensures whole { D.tells → length (D.content disk.new) ≡ file_length layout.now }
    ensures any_moment { D.tells → Leaves D.Disk disk.old disk.new
        (StagedFrom layout.now head used (length units.now) (D.image disk.old)) }
    ensures counted { IsCounted (D.faults disk.old) (D.faults disk.new) result }
{
    let mut done = 0;
    while done < units.len() {
        let place = used + done as u32;
        let slot = slot_behind(layout, head, place);
        let count = run_length(layout, slot, units.len() - done);
        let end = done + count;
        write_run(disk, layout, head, place, &units[done..end])?;
        done = end;
    }
    disk.sync()
}

/// Step two of a flush: opens the gate of its first place, and syncs. With it all of the groups are in the log, since
/// the gates between them are open.
fn open_gate<D: Disk>(disk: &mut D, layout: &Layout, head: Head, place: u32) -> Result<(), Failed>
    requires slot { head.slot < layout.now.log }
    requires place { place < layout.now.log }
    requires whole { D.tells → length (D.content disk.old) ≡ file_length layout.now }
    requires synced { D.tells → Only (D.content disk.old) (D.image disk.old) }
    ensures opened { D.tells → OnOk result (gate_of layout.now head (D.content disk.new) place ≡ 1) }
    ensures same { D.tells → SameButGate layout.now head place (D.content disk.old) (D.content disk.new) }
    ensures durable { D.tells → OnOk result (Only (D.content disk.new) (D.image disk.new)) }
    ensures any_moment { D.tells → Leaves D.Disk disk.old disk.new
        (SameButGate layout.now head place (D.content disk.old)) }
    ensures counted { IsCounted (D.faults disk.old) (D.faults disk.new) result }
{
    let slot = slot_behind(layout, head, place);
    write_synced(disk, layout.log_at(slot), &[1])
}

/// Writes the groups of the first `count` units to the log's places from `used` on; one slot stays free after them.
/// Each group has a patch, and its blocks are those of the file. After an Ok every image has all of them, and a crash
/// before leaves all of them or none. Of the units it sets the gates alone, which say nothing of the groups.
pub(crate) fn write_groups<D: Disk>(
    disk: &mut D,
    layout: &Layout,
    head: Head,
    used: u32,
    units: &mut [[u8; UNIT]],
    count: usize,
) -> Result<(), Failed>
    requires within { count ≤ length units.old }
    requires slot { head.slot < layout.now.log }
    requires whole { D.tells → length (D.content disk.old) ≡ file_length layout.now }
    requires room { used + length (groups_in (take count units.old)) < layout.now.log }
    requires small { head.number + (used + length (groups_in (take count units.old))) ≤ 2 ^ 63 }
    requires each { AllByRecursion (IsLoggable layout.now) (groups_in (take count units.old)) }
    requires spelled { AreSpelled (head.number + used) (bodies_of (take count units.old)) }
    requires synced { D.tells → (c : List ℕ) → D.image disk.old c
        → SameSlots layout.now.log (D.content disk.old) c }
    ensures written { D.tells → OnOk result ((before : List (List Patch)) → length before ≡ used
        → GroupsAre layout.now head (D.content disk.old) 0 before
        → GroupsAre layout.now head (D.content disk.new) 0 (before ++ groups_in (take count units.old))) }
    ensures units { D.tells → OnOk result ((k : ℕ) (d : List Patch)
        → k < length (groups_in (take count units.old))
        → log_unit layout.now head (D.content disk.new) (used + k)
        ≡ group_unit 1 (head.number + (used + k)) (slice_index_or (groups_in (take count units.old)) k d)) }
    ensures closed { D.tells → OnOk result (0 < length (groups_in (take count units.old))
        → gate_of layout.now head (D.content disk.new) (used + length (groups_in (take count units.old))) ≡ 0) }
    ensures others { D.tells → OnOk result (0 < length (groups_in (take count units.old))
        → SameButUnits layout.now head used (length (groups_in (take count units.old))) (D.content disk.old)
        (D.content disk.new)) }
    ensures none { D.tells → groups_in (take count units.old) ≡ [] → OnOk result (disk.new ≡ disk.old) }
    ensures outside { D.tells → OnOk result (SameOutside layout.now.log (D.content disk.old) (D.content disk.new)) }
    ensures durable { D.tells → OnOk result ((c : List ℕ) → D.image disk.new c
        → SameSlots layout.now.log (D.content disk.new) c) }
    ensures only { D.tells → OnOk result (Only (D.content disk.old) (D.image disk.old)
        → Only (D.content disk.new) (D.image disk.new)) }
    ensures whole { D.tells → length (D.content disk.new) ≡ file_length layout.now }
    ensures images { D.tells → Leaves D.Disk disk.old disk.new (OutsideFrom layout.now.log (D.image disk.old)) }
    ensures any_moment { D.tells → (before : List (List Patch)) → length before ≡ used
        → GroupsAre layout.now head (D.content disk.old) 0 before
        → Leaves D.Disk disk.old disk.new
        (FlushedOrNot (D.image disk.old) layout.now head before (groups_in (take count units.old))) }
    ensures bodies { bodies_of units.new ≡ bodies_of units.old }
    ensures counted { IsCounted (D.faults disk.old) (D.faults disk.new) result }
{
    if count == 0 {
        return Ok(());
    }
    let units = &mut units[..count];
    set_gates(units);
    stage(disk, layout, head, used, units)?;
    open_gate(disk, layout, head, used)
}
