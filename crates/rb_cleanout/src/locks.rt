//! Clears the locks of a block's copy that name an entry which was cleaned. `clean_copy` calls it.
ghost use Rattle.std.specs.Prelude.{◌≡◌, ◌+◌, ◌*◌, ◌≤◌, length};
ghost use Rattle.rb_base.specs.Groups.{group_length};
ghost use Rattle.rb_cleanout.specs.Cleaned.{is_named, Cleans, LocksCleared};
ghost use Rattle.rb_heap.specs.Homes.{home_of};

use rb_base::{BlockNo, GROUP_BYTES, GROUP_PATCHES, Group, UNIT, set};
use rb_cell::{CELLS, front, lock_place};
use rb_itl::ENTRIES;

/// Whether the lock names an entry that was cleaned. 0 names none, and a lock above 8 none that is there.
fn is_named(cleaned: &[bool; ENTRIES as usize], lock: u8) -> bool
    ensures { result ≡ is_named cleaned.now lock }
{
    lock > 0 && lock <= ENTRIES && cleaned[lock as usize - 1]
}

/// Clears each lock of the copy that names an entry which was cleaned.
pub fn clear_locks(
    copy: &mut [u8],
    no: BlockNo,
    group: &mut Group,
    cleaned: &[bool; ENTRIES as usize],
)
    requires block { length copy.old ≡ UNIT }
    requires count { length group.old + CELLS ≤ GROUP_PATCHES }
    requires room { group_length group.old + CELLS * (8 + 1) ≤ GROUP_BYTES }
    ensures length { length copy.new ≡ UNIT }
    ensures made { Cleans no copy.old copy.new group.old group.new CELLS (CELLS * (8 + 1)) }
    ensures cleared { LocksCleared cleaned.now CELLS (home_of copy.old) (home_of copy.new) }
{
    for c in 0..CELLS {
        if is_named(cleaned, front(copy, c).lock) {
            set(copy, no, group, lock_place(c), &[0]);
        }
    }
}
