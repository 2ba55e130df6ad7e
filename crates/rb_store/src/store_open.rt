//! Opens a file: its log is scanned from its head on, its twin area repaired, the groups of the log rolled forward in a
//! cache, and the gate behind them shut. `LogStore::open` calls it.
ghost use Rattle.std.specs.Prelude.{◌≡◌, ◌+◌, ◌^◌, ◌≤◌, ◌<◌, ℕ, List, [], length, None};
ghost use Rattle.std.specs.Prelude.{false, IfOk, IfErr, IsErrOf, OnOk, vec_capacity};
ghost use Rattle.rb_base.specs.Counts.{IsCountedAs, err_is, is_failed};
ghost use Rattle.rb_control.specs.Heads.{head_of, IsHead};
ghost use Rattle.rb_disk.specs.DiskModel.{Only};
ghost use Rattle.rb_disk.specs.Moments.{Rests};
ghost use Rattle.rb_layout.specs.declared.layout.Layout.{Layout};
ghost use Rattle.rb_layout.specs.Regions.{HasIdentity};
ghost use Rattle.rb_store.specs.CachedFiles.{IsStoreMemory};
ghost use Rattle.rb_store.specs.Meaning.{OpensAt};
ghost use Rattle.rb_store.specs.Openings.{HasOpened, LeavesMeaning, LeftAlone};
ghost use Rattle.rb_store.specs.Scanned.{HasScanned, HasScannedAll};

use crate::cached_file::CachedFile;
use crate::opening::{repair_homes, synced_layout};
use crate::rolling::roll_forward;
use crate::scanning::{Scan, fresh_scan, scan_all};
use rb_base::{Lsn, NoMemory, OpenFault};
use rb_cache::Cache;
use rb_control::read;
use rb_disk::Disk;
use rb_layout::{Head, Layout, VERSION};
use rb_twin::Twin;
use std::alloc::Global;

/// A file that is opened, and its last log number.
#[derive(Drop)]
pub struct Opened {
    pub file: CachedFile,
    pub last: Lsn,
}

/// What an opening takes of memory.
#[derive(Drop)]
struct Memory {
    scan: Scan,
    twin: Twin,
    cache: Cache,
}

/// An empty batch and an empty cache, or NoMemory.
fn new_caches(alloc: Global, layout: &Layout, frames: u32) -> Result<(Twin, Cache), NoMemory>
    requires some { 16 ≤ frames }
    requires few { frames ≤ 4096 }
    ensures twin { IfOk result (λ both. both.0 ≡ record { layout = layout.now; batch = [] }) }
    ensures cache { IfOk result (λ both. both.1 ≡ record { frames = frames; held = [] }) }
{
    Ok((Twin::new(alloc, layout)?, Cache::new(alloc, frames)?))
}

/// Takes all the memory that a store of this layout needs. Nothing is read yet.
fn take_memory<D: Disk>(
    alloc: Global,
    disk: &mut D,
    layout: &Layout,
    head: Head,
    frames: u32,
) -> Result<Memory, OpenFault>
    requires head { IsHead layout.now head }
    requires some { 16 ≤ frames }
    requires few { frames ≤ 4096 }
    ensures scanned { IfOk result (λ m. (file : List ℕ) → HasScanned D.tells layout.now head file m.scan.log
        m.scan.groups.items (vec_capacity m.scan.groups)) }
    ensures twin { IfOk result (λ m. m.twin ≡ record { layout = layout.now; batch = [] }) }
    ensures cache { IfOk result (λ m. m.cache ≡ record { frames = frames; held = [] }) }
    ensures memory { IfErr result (λ fault. fault ≡ OpenFault.NoMemory) }
    ensures untouched { disk.new ≡ disk.old }
{
    let scan = fresh_scan(alloc, disk, layout, head)?;
    let Ok((twin, cache)) = new_caches(alloc, layout, frames) else {
        return Err(OpenFault::NoMemory);
    };
    Ok(Memory { scan, twin, cache })
}

/// Repairs a file whose log was scanned, rolls the groups of the log forward, and shuts the gate behind them. NotAStore
/// where the twin area or the head of a block is wrong, Failed where a call of the disk failed.
fn bring_up<D: Disk>(
    disk: &mut D,
    memory: Memory,
    layout: Layout,
    head: Head,
) -> Result<Opened, OpenFault>
    requires valid { IsHead layout head }
    requires head { D.tells → head ≡ head_of (D.content disk.old) }
    requires identity { D.tells → HasIdentity VERSION layout (D.content disk.old) }
    requires only { D.tells → Only (D.content disk.old) (D.image disk.old) }
    requires scanned { HasScannedAll D.tells layout head (D.content disk.old) memory.scan.log
        memory.scan.groups.items }
    requires twin { memory.twin ≡ record { layout = layout; batch = [] } }
    requires cache { memory.cache.held ≡ [] }
    ensures opened { D.tells → IfOk result (λ o. HasOpened D.Disk o.file o.last disk.old disk.new) }
    ensures memory { IfOk result (λ o. IsStoreMemory o.file o.last None false) }
    ensures layout { IfOk result (λ o. o.file.layout ≡ layout) }
    ensures pending { IfOk result (λ o. o.file.pending ≡ []) }
    ensures few { IfOk result (λ o. o.last < 2 ^ 61 + 4096) }
    ensures none { D.tells → IsErrOf result OpenFault.NotAStore → (b : List (List ℕ)) (n : ℕ)
        → ¬ OpensAt layout (D.content disk.old) b n }
    ensures left { D.tells → LeavesMeaning D.Disk layout disk.old disk.new }
    ensures no_memory { ¬ IsErrOf result OpenFault.NoMemory }
    ensures counted { IsCountedAs (D.faults disk.old) (D.faults disk.new) (err_is is_failed result) }
{
    let Memory {
        scan: Scan { log, groups },
        mut twin,
        cache,
    } = memory;
    let used = Lsn::from(log.used());
    let last = head.number - 1 + used;
    repair_homes(disk, &mut twin, &layout, last)?;
    let mut file = CachedFile {
        layout,
        cache,
        log,
        twin,
    };
    roll_forward(&mut file, disk, &groups, head.number)?;
    file.shut_behind(disk)?;
    Ok(Opened { file, last })
}

/// Opens the file of a disk through so many frames, 16 to 4,096. It begins with a sync. NotAStore where the file opens
/// to nothing. Whatever it answers, the file means what it did, at each moment.
pub fn open_file<D: Disk>(alloc: Global, disk: &mut D, frames: u32) -> Result<Opened, OpenFault>
    requires some { 16 ≤ frames }
    requires few { frames ≤ 4096 }
    ensures opened { D.tells → IfOk result (λ o. HasOpened D.Disk o.file o.last disk.old disk.new) }
    ensures memory { IfOk result (λ o. IsStoreMemory o.file o.last None false) }
    ensures pending { IfOk result (λ o. o.file.pending ≡ []) }
    ensures few { IfOk result (λ o. o.last < 2 ^ 61 + 4096) }
    ensures small { D.tells → OnOk result ((head_of (D.content disk.old)).number ≤ 2 ^ 61) }
    ensures none { D.tells → IsErrOf result OpenFault.NotAStore → (l : Layout) (b : List (List ℕ)) (n : ℕ)
        → OpensAt l (D.content disk.old) b n → 2 ^ 61 < (head_of (D.content disk.old)).number }
    ensures left { D.tells → LeftAlone D.Disk disk.old disk.new }
    ensures counted { IsCountedAs (D.faults disk.old) (D.faults disk.new) (err_is is_failed result) }
{
    let layout = synced_layout(disk)?;
    let head = read(disk, &layout)?;
    let mut memory = take_memory(alloc, disk, &layout, head, frames)?;
    scan_all(&mut memory.scan, disk, &layout, head)?;
    bring_up(disk, memory, layout, head)
}
