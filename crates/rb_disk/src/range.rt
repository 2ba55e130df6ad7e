//! A range of a file that is written and synced in one go. The log calls it where it closes a gate.
ghost use Rattle.std.specs.Prelude.{◌≡◌, ◌+◌, ◌≤◌, ℕ, List, length, OnOk, OnErr};
ghost use Rattle.rb_base.specs.Counts.{IsCounted};
ghost use Rattle.rb_base.specs.Fields.{overwritten};
ghost use Rattle.rb_disk.specs.DiskModel.{Torn, Only};
ghost use Rattle.rb_disk.specs.Moments.{Leaves};
ghost use Rattle.rb_disk.specs.Ranges.{TornFrom};

use crate::disk::Disk;
use rb_base::Failed;

/// Writes bytes over those from `at`, all of them within the file, and syncs. After an Ok a crash leaves what is read;
/// a crash before may leave any bytes in the range.
pub fn write_synced<D: Disk>(disk: &mut D, at: u64, bytes: &[u8]) -> Result<(), Failed>
    requires within { D.tells → at + length bytes.now ≤ length (D.content disk.old) }
    ensures written { D.tells → OnOk result (D.content disk.new ≡ overwritten (D.content disk.old) at bytes.now) }
    ensures torn { D.tells → Torn at (length bytes.now) (D.content disk.old) (D.content disk.new) }
    ensures durable { D.tells → OnOk result (Only (D.content disk.new) (D.image disk.new)) }
    ensures length { D.tells → length (D.content disk.new) ≡ length (D.content disk.old) }
    ensures any_moment { D.tells → Leaves D.Disk disk.old disk.new
        (TornFrom at (length bytes.now) (D.image disk.old)) }
    ensures counted { IsCounted (D.faults disk.old) (D.faults disk.new) result }
{
    disk.write_at(at, bytes)?;
    disk.sync()
}
