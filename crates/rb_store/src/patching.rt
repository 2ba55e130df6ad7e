//! Patches the blocks of a group in a cache. The store's `apply` calls it, and its opening for each group of the log.
ghost use Rattle.std.specs.Prelude.{◌≡◌, ℕ, ◌<◌, ◌^◌, List, [], length, take};
ghost use Rattle.std.specs.Prelude.{slice_index_or, true, OnOk};
ghost use Rattle.rb_base.specs.Blocks.{AreWithin};
ghost use Rattle.rb_base.specs.Counts.{IsCounted};
ghost use Rattle.rb_base.specs.Groups.{Patch};
ghost use Rattle.rb_layout.specs.Regions.{block_count, shape_of};
ghost use Rattle.law_redo.specs.Rolled.{has_block, step};
ghost use Rattle.rb_cache.specs.Frames.{seen, AreClean};
ghost use Rattle.rb_cache.specs.OnDisk.{IsCalm};
ghost use Rattle.rb_log.specs.GroupSlots.{GroupsAre};
ghost use Rattle.rb_store.specs.CachedFiles.{IsCachedMemory, Done, Keeps, Leaving, SameNumbers, SeenOrPatched};
ghost use Rattle.rb_store.specs.CachedFiles.{FlushesFull, Settled, StaysOrNone};

use crate::cached_file::CachedFile;
use rb_base::{Failed, Group, Lsn};
use rb_disk::Disk;

/// Whether the patch before that of place `i`, or the first one of all, is of the same block. A block that is patched
/// gets all its patches at once, so it need not be found again for the others. Those of one block stand together in a
/// group, but for the home of a write, whose cleaning comes first and whose cell comes last.
fn is_patched_before(group: &Group, i: u32) -> bool
    requires { i < length group.now }
    ensures { result ≡ true → (d : Patch)
        → has_block (slice_index_or group.now i d).block (take i group.now) ≡ true }
{
    let block = group.patch_block(i);
    i > 0 && (group.patch_block(i - 1) == block || group.patch_block(0) == block)
}

/// Patches each block of the group, where its log number is below the group's. What comes home on the way is a block as
/// it was, or with the group.
pub fn patch_all<D: Disk>(
    cache: &mut CachedFile,
    disk: &mut D,
    group: &Group,
    number: Lsn,
) -> Result<(), Failed>
    requires within { AreWithin (shape_of cache.old.layout) group.now }
    requires memory { IsCachedMemory cache.old }
    requires batch { cache.old.batch ≡ [] }
    requires calm { D.tells → IsCalm (D.image disk.old) cache.old.layout (D.content disk.old) }
    requires clean { D.tells → AreClean cache.old.layout (D.content disk.old) cache.old.held }
    requires few { number < 2 ^ 63 }
    ensures memory { IsCachedMemory cache.new }
    ensures batch { OnOk result (cache.new.batch ≡ []) }
    ensures keeps { Keeps cache.old cache.new }
    ensures numbers { OnOk result (SameNumbers cache.old cache.new) }
    ensures waits { OnOk result (StaysOrNone cache.old cache.new) }
    ensures fills { OnOk result (FlushesFull cache.old cache.new) }
    ensures seen { D.tells → OnOk result ((k : ℕ) → k < block_count cache.old.layout
        → seen cache.old.layout (D.content disk.new) cache.new.held k
        ≡ step number group.now k (seen cache.old.layout (D.content disk.old) cache.old.held k)) }
    ensures done { D.tells → OnOk result ((groups : List (List Patch)) → length groups ≡ cache.old.used
        → GroupsAre cache.old.layout cache.old.head (D.content disk.old) 0 groups
        → Done D.Disk cache.old cache.new disk.old disk.new groups
        (SeenOrPatched cache.old (D.content disk.old) number group.now)) }
    ensures settled { D.tells → OnOk result (Settled D.Disk cache.old cache.new disk.old disk.new) }
    ensures any_moment { D.tells → (groups : List (List Patch)) → length groups ≡ cache.old.used
        → GroupsAre cache.old.layout cache.old.head (D.content disk.old) 0 groups
        → Leaving D.Disk cache.old disk.old disk.new groups
        (SeenOrPatched cache.old (D.content disk.old) number group.now) }
    ensures counted { IsCounted (D.faults disk.old) (D.faults disk.new) result }
{
    for i in 0..group.patches() {
        if is_patched_before(group, i) {
            continue;
        }
        cache.patch(disk, group.patch_block(i), group, number)?;
    }
    Ok(())
}
