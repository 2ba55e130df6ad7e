//! What an opening does before blocks are read: it syncs, reads the layout, repairs the twin area, and tests the
//! heads of all homes. `open_file` calls it.
ghost use Rattle.std.specs.Prelude.{◌≡◌, ◌≢◌, ℕ, List, [], length, IfOk, OnOk, IsErrOf};
ghost use Rattle.rb_base.specs.Counts.{IsCountedAs, err_is, is_failed};
ghost use Rattle.rb_disk.specs.DiskModel.{Only};
ghost use Rattle.rb_disk.specs.Moments.{Leaves, Rests};
ghost use Rattle.rb_layout.specs.declared.layout.Layout.{Layout};
ghost use Rattle.rb_layout.specs.Regions.{file_length, HasIdentity};
ghost use Rattle.rb_twin.specs.Twins.{IsTwin, Repaired};
ghost use Rattle.rb_store.specs.Meaning.{KeepsHeads};
ghost use Rattle.rb_store.specs.Openings.{IsRepaired};

use crate::headers::check_homes;
use rb_base::{Lsn, OpenFault};
use rb_disk::Disk;
use rb_layout::{Layout, VERSION};
use rb_twin::Twin;

/// Which layout the file has, once a sync has made the file the only one that a crash may leave.
pub fn synced_layout<D: Disk>(disk: &mut D) -> Result<Layout, OpenFault>
    ensures identity { D.tells → IfOk result (λ l. HasIdentity VERSION l (D.content disk.old)) }
    ensures none { D.tells → IsErrOf result OpenFault.NotAStore → (l : Layout)
        → ¬ HasIdentity VERSION l (D.content disk.old) }
    ensures no_memory { ¬ IsErrOf result OpenFault.NoMemory }
    ensures counted { IsCountedAs (D.faults disk.old) (D.faults disk.new) (err_is is_failed result) }
    ensures same { D.tells → Rests D.Disk disk.old disk.new }
    ensures durable { D.tells → OnOk result (Only (D.content disk.old) (D.image disk.new)) }
{
    disk.sync()?;
    Layout::read(disk)
}

/// Brings home the batch that a crash left, and tests the heads of all homes behind it. NotAStore where the gate of the
/// twin area is open and no batch stands behind it, or a block that the file keeps isn't headed. A crash leaves a file
/// that keeps the same blocks.
pub fn repair_homes<D: Disk>(
    disk: &mut D,
    twin: &mut Twin,
    layout: &Layout,
    last: Lsn,
) -> Result<(), OpenFault>
    requires layout { twin.old.layout ≡ layout.now }
    requires whole { D.tells → length (D.content disk.old) ≡ file_length layout.now }
    requires only { D.tells → Only (D.content disk.old) (D.image disk.old) }
    ensures repaired { D.tells → OnOk result (IsRepaired D.Disk layout.now last disk.old disk.new) }
    ensures none { D.tells → IsErrOf result OpenFault.NotAStore → IsTwin layout.now (D.content disk.old)
        → ¬ KeepsHeads layout.now (D.content disk.old) last }
    ensures foreign { D.tells → ¬ IsTwin layout.now (D.content disk.old) → Rests D.Disk disk.old disk.new }
    ensures any_moment { D.tells → IsTwin layout.now (D.content disk.old) → Leaves D.Disk disk.old disk.new
        (Repaired (D.image disk.old) layout.now (D.content disk.old)) }
    ensures emptied { twin.new ≡ record twin.old { batch = [] } }
    ensures no_memory { ¬ IsErrOf result OpenFault.NoMemory }
    ensures counted { IsCountedAs (D.faults disk.old) (D.faults disk.new) (err_is is_failed result) }
{
    twin.repair(disk)?;
    check_homes(disk, layout, last)
}
