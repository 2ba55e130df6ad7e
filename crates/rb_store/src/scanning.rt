//! Reads all groups of a log, in order. The opening of a store calls it, and then rolls them forward.
ghost use Rattle.std.specs.Prelude.{◌≡◌, ◌+◌, ◌≤◌, ◌<◌, ◌^◌, ℕ, List, length, true, false};
ghost use Rattle.std.specs.Prelude.{IfOk, IfErr, OnOk, IsErrOf};
ghost use Rattle.std.specs.Prelude.{vec_capacity};
ghost use Rattle.rb_base.specs.Counts.{IsCountedAs, err_is, is_failed};
ghost use Rattle.rb_base.specs.Groups.{Patch};
ghost use Rattle.rb_disk.specs.Moments.{Rests};
ghost use Rattle.rb_layout.specs.Regions.{file_length};
ghost use Rattle.rb_log.specs.GroupSlots.{GroupsAre};
ghost use Rattle.rb_store.specs.Scanned.{HasScanned, HasScannedAll};

use rb_base::{Group, OpenFault};
use rb_disk::Disk;
use rb_layout::{Head, Layout};
use rb_log::Log;
use std::alloc::Global;

/// A log as far as it is scanned, and the groups that were found. There is room for as many as a log may have.
#[derive(Drop)]
pub struct Scan {
    pub log: Log,
    pub groups: Vec<Group>,
}

/// Takes all the memory that the scan of a log needs. Nothing is read yet.
pub fn fresh_scan<D: Disk>(
    alloc: Global,
    disk: &mut D,
    layout: &Layout,
    head: Head,
) -> Result<Scan, OpenFault>
    requires slot { head.slot < layout.now.log }
    requires number { head.number ≤ 2 ^ 61 }
    ensures scanned { IfOk result (λ s. (file : List ℕ)
        → HasScanned D.tells layout.now head file s.log s.groups.items (vec_capacity s.groups)) }
    ensures memory { IfErr result (λ fault. fault ≡ OpenFault.NoMemory) }
    ensures untouched { disk.new ≡ disk.old }
{
    let log = Log::open(alloc, disk, layout, head)?;
    let Ok(groups) = Vec::with_capacity(alloc, layout.log as usize) else {
        return Err(OpenFault::NoMemory);
    };
    Ok(Scan { log, groups })
}

/// Keeps the group behind those that were read, if there is one, and says whether there was. NotAStore where the slot
/// is open and holds no such group.
fn scan_one<D: Disk>(
    scan: &mut Scan,
    disk: &mut D,
    layout: &Layout,
    head: Head,
) -> Result<bool, OpenFault>
    requires so_far { HasScanned D.tells layout.now head (D.content disk.old) scan.old.log scan.old.groups.items
        (vec_capacity scan.old.groups) }
    requires number { head.number ≤ 2 ^ 61 }
    requires whole { D.tells → length (D.content disk.old) ≡ file_length layout.now }
    ensures more { result ≡ Ok true → HasScanned D.tells layout.now head (D.content disk.old) scan.new.log
        scan.new.groups.items (vec_capacity scan.new.groups) }
    ensures used { result ≡ Ok true → scan.new.log.used ≡ scan.old.log.used + 1 }
    ensures end { result ≡ Ok false → HasScannedAll D.tells layout.now head (D.content disk.old) scan.new.log
        scan.new.groups.items }
    ensures none { D.tells → IsErrOf result OpenFault.NotAStore → (groups : List (List Patch))
        → ¬ GroupsAre layout.now head (D.content disk.old) 0 groups }
    ensures no_memory { ¬ IsErrOf result OpenFault.NoMemory }
    ensures counted { IsCountedAs (D.faults disk.old) (D.faults disk.new) (err_is is_failed result) }
    ensures same { D.tells → Rests D.Disk disk.old disk.new }
{
    let next = head.number + u64::from(scan.log.used());
    let place = scan.groups.len();
    // The group is filled where it stays. One of 2,480 bytes takes longer to move than to read.
    scan.groups.push_reserved(Group::new());
    if !scan.log.scan(disk, next, &mut scan.groups[place])? {
        scan.groups.truncate(place);
        return Ok(false);
    }
    Ok(true)
}

/// Keeps the groups of the log, up to its end.
pub fn scan_all<D: Disk>(
    scan: &mut Scan,
    disk: &mut D,
    layout: &Layout,
    head: Head,
) -> Result<(), OpenFault>
    requires so_far { HasScanned D.tells layout.now head (D.content disk.old) scan.old.log scan.old.groups.items
        (vec_capacity scan.old.groups) }
    requires number { head.number ≤ 2 ^ 61 }
    requires whole { D.tells → length (D.content disk.old) ≡ file_length layout.now }
    ensures found { OnOk result (HasScannedAll D.tells layout.now head (D.content disk.old) scan.new.log
        scan.new.groups.items) }
    ensures none { D.tells → IsErrOf result OpenFault.NotAStore → (groups : List (List Patch))
        → ¬ GroupsAre layout.now head (D.content disk.old) 0 groups }
    ensures no_memory { ¬ IsErrOf result OpenFault.NoMemory }
    ensures counted { IsCountedAs (D.faults disk.old) (D.faults disk.new) (err_is is_failed result) }
    ensures same { D.tells → Rests D.Disk disk.old disk.new }
{
    for _ in 0..layout.log {
        if !scan_one(scan, disk, layout, head)? {
            return Ok(());
        }
    }
    // Each turn takes a slot, and the last slot has no group.
    unreachable!()
}
