//! Rolls the groups of a log forward in a cache. The opening of a store calls it.
ghost use Rattle.std.specs.Prelude.{◌≡◌, ◌+◌, ◌≤◌, ℕ, ◌<◌, ◌^◌, List, [], length, OnOk};
ghost use Rattle.std.specs.List.{AllByRecursion};
ghost use Rattle.rb_base.specs.Blocks.{AreWithin};
ghost use Rattle.rb_base.specs.Counts.{IsCounted};
ghost use Rattle.rb_base.specs.Groups.{Patch};
ghost use Rattle.rb_layout.specs.Regions.{block_count, shape_of};
ghost use Rattle.law_redo.specs.Rolled.{rolled};
ghost use Rattle.rb_cache.specs.Frames.{seen, AreClean};
ghost use Rattle.rb_cache.specs.OnDisk.{IsCalm};
ghost use Rattle.rb_log.specs.GroupSlots.{GroupsAre};
ghost use Rattle.rb_store.specs.CachedFiles.{IsCachedMemory, Done, Keeps, Leaving, RollsTo, SameNumbers, Settled};
ghost use Rattle.rb_store.specs.CachedFiles.{StaysOrNone};

use crate::cached_file::CachedFile;
use crate::patching::patch_all;
use rb_base::{Failed, Group, Lsn};
use rb_disk::Disk;

/// Rolls groups forward, of which the first has that number. What comes home on the way is a block that they make the
/// same.
pub fn roll_forward<D: Disk>(
    cache: &mut CachedFile,
    disk: &mut D,
    groups: &[Group],
    number: Lsn,
) -> Result<(), Failed>
    requires within { AllByRecursion (AreWithin (shape_of cache.old.layout)) groups.now }
    requires memory { IsCachedMemory cache.old }
    requires batch { cache.old.batch ≡ [] }
    requires calm { D.tells → IsCalm (D.image disk.old) cache.old.layout (D.content disk.old) }
    requires clean { D.tells → AreClean cache.old.layout (D.content disk.old) cache.old.held }
    requires few { number + length groups.now < 2 ^ 63 }
    ensures memory { IsCachedMemory cache.new }
    ensures batch { OnOk result (cache.new.batch ≡ []) }
    ensures keeps { Keeps cache.old cache.new }
    ensures numbers { OnOk result (SameNumbers cache.old cache.new) }
    ensures waits { OnOk result (StaysOrNone cache.old cache.new) }
    ensures seen { D.tells → OnOk result ((k : ℕ) → k < block_count cache.old.layout
        → seen cache.old.layout (D.content disk.new) cache.new.held k
        ≡ rolled number groups.now k (seen cache.old.layout (D.content disk.old) cache.old.held k)) }
    ensures done { D.tells → OnOk result ((log : List (List Patch)) → length log ≡ cache.old.used
        → GroupsAre cache.old.layout cache.old.head (D.content disk.old) 0 log
        → Done D.Disk cache.old cache.new disk.old disk.new log
        (RollsTo cache.old (D.content disk.old) number groups.now)) }
    ensures settled { D.tells → OnOk result (Settled D.Disk cache.old cache.new disk.old disk.new) }
    ensures any_moment { D.tells → (log : List (List Patch)) → length log ≡ cache.old.used
        → GroupsAre cache.old.layout cache.old.head (D.content disk.old) 0 log
        → Leaving D.Disk cache.old disk.old disk.new log
        (RollsTo cache.old (D.content disk.old) number groups.now) }
    ensures counted { IsCounted (D.faults disk.old) (D.faults disk.new) result }
{
    for i in 0..groups.len() {
        patch_all(cache, disk, &groups[i], number + i as u64)?;
    }
    Ok(())
}
