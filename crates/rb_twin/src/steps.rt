//! The steps of a batch on its way home, each synced before the next one begins. `Twin` calls them for a write, and the
//! last two for a repair.
ghost use Rattle.std.specs.Prelude.{◌≡◌, ◌≢◌, ◌≤◌, ℕ, List, length, OnOk, IsErrOf};
ghost use Rattle.rb_base.specs.Counts.{IsCounted, IsCountedAs, err_is, is_failed};
ghost use Rattle.rb_disk.specs.DiskModel.{Only};
ghost use Rattle.rb_disk.specs.Moments.{Leaves, Rests};
ghost use Rattle.rb_disk.specs.Ranges.{SameBut, SamePart};
ghost use Rattle.rb_layout.specs.Regions.{file_length, twin_offset, block_offset, block_count};
ghost use Rattle.rb_twin.specs.Batches.{IsBatch, IsSpareZero, batch_in, with_batch};
ghost use Rattle.rb_twin.specs.Twins.{home, kept, twin_area, twin_gate, IsTwin, TwinSome, Repaired};
ghost use Rattle.rb_twin.specs.Twins.{SameBehindGate, SameButHomes, StagedFrom, GateFrom, HomesFrom};

use crate::batch::{AREA, GATE, image_at, image_count, is_batch, name_at};
use rb_base::{Failed, OpenFault, UNIT};
use rb_disk::{Disk, write_synced};
use rb_layout::Layout;

/// A gate that is open.
const OPEN: u8 = 1;

/// A gate that is shut.
const SHUT: u8 = 0;

/// Step one: writes the header behind the gate and the images, and syncs. The gate of before isn't touched.
fn stage<D: Disk>(disk: &mut D, layout: &Layout, area: &[u8]) -> Result<(), Failed>
    requires whole { D.tells → length (D.content disk.old) ≡ file_length layout.now }
    requires sized { D.tells → (c : List ℕ) → D.image disk.old c → length c ≡ file_length layout.now }
    requires area { length area.now ≡ AREA }
    requires few { length (batch_in area.now) ≤ 8 }
    requires spare { IsSpareZero area.now }
    ensures staged { D.tells → OnOk result
        (batch_in (twin_area layout.now (D.content disk.new)) ≡ batch_in area.now) }
    ensures spare { D.tells → OnOk result (IsSpareZero (twin_area layout.now (D.content disk.new))) }
    ensures others { D.tells → SameBut (twin_offset layout.now 0) (block_offset layout.now 0)
        (D.content disk.old) (D.content disk.new) }
    ensures durable { D.tells → OnOk result (Only (D.content disk.new) (D.image disk.new)) }
    ensures any_moment { D.tells → Leaves D.Disk disk.old disk.new (StagedFrom layout.now (D.image disk.old)) }
    ensures counted { IsCounted (D.faults disk.old) (D.faults disk.new) result }
{
    let end = UNIT * (image_count(area) + 1);
    write_synced(disk, layout.twin_at(0) + 1, &area[1..end])
}

/// Steps two and four: writes the gate, and syncs.
fn write_gate<D: Disk>(disk: &mut D, layout: &Layout, gate: u8) -> Result<(), Failed>
    requires whole { D.tells → length (D.content disk.old) ≡ file_length layout.now }
    requires sized { D.tells → (c : List ℕ) → D.image disk.old c → length c ≡ file_length layout.now }
    ensures gate { D.tells → OnOk result (twin_gate layout.now (D.content disk.new) ≡ gate) }
    ensures others { D.tells → SameBehindGate layout.now (D.content disk.old) (D.content disk.new) }
    ensures durable { D.tells → OnOk result (Only (D.content disk.new) (D.image disk.new)) }
    ensures any_moment { D.tells → Leaves D.Disk disk.old disk.new (GateFrom layout.now (D.image disk.old)) }
    ensures counted { IsCounted (D.faults disk.old) (D.faults disk.new) result }
{
    write_synced(disk, layout.twin_at(0), &[gate])
}

/// Step three: writes each block of a batch home, and syncs.
fn bring_home<D: Disk>(disk: &mut D, layout: &Layout, area: &[u8]) -> Result<(), Failed>
    requires whole { D.tells → length (D.content disk.old) ≡ file_length layout.now }
    requires sized { D.tells → (c : List ℕ) → D.image disk.old c → length c ≡ file_length layout.now }
    requires area { length area.now ≡ AREA }
    requires valid { IsBatch (block_count layout.now) (batch_in area.now) }
    ensures homes { D.tells → OnOk result ((which : ℕ) → home layout.now (D.content disk.new) which
        ≡ with_batch (batch_in area.now) which (home layout.now (D.content disk.old) which)) }
    ensures others { D.tells → SameButHomes layout.now (batch_in area.now) (D.content disk.old) (D.content disk.new) }
    ensures durable { D.tells → OnOk result (Only (D.content disk.new) (D.image disk.new)) }
    ensures any_moment { D.tells → Leaves D.Disk disk.old disk.new
        (HomesFrom layout.now (batch_in area.now) (D.image disk.old)) }
    ensures counted { IsCounted (D.faults disk.old) (D.faults disk.new) result }
{
    for place in 0..image_count(area) {
        let at = image_at(place);
        disk.write_at(layout.block_at(name_at(area, place)), &area[at..at + UNIT])?;
    }
    disk.sync()
}

/// Steps three and four, over a gate that is open in each image.
fn finish<D: Disk>(disk: &mut D, layout: &Layout, area: &[u8]) -> Result<(), Failed>
    requires whole { D.tells → length (D.content disk.old) ≡ file_length layout.now }
    requires area { length area.now ≡ AREA }
    requires valid { IsBatch (block_count layout.now) (batch_in area.now) }
    requires staged { D.tells → batch_in (twin_area layout.now (D.content disk.old)) ≡ batch_in area.now }
    requires opened { D.tells → twin_gate layout.now (D.content disk.old) ≡ 1 }
    requires synced { D.tells → (c : List ℕ) → D.image disk.old c
        → SamePart (twin_offset layout.now 0) (file_length layout.now) (D.content disk.old) c }
    ensures homes { D.tells → OnOk result ((which : ℕ) → home layout.now (D.content disk.new) which
        ≡ with_batch (batch_in area.now) which (home layout.now (D.content disk.old) which)) }
    ensures shut { D.tells → OnOk result (twin_gate layout.now (D.content disk.new) ≡ 0) }
    ensures left { D.tells → batch_in (twin_area layout.now (D.content disk.new)) ≡ batch_in area.now }
    ensures spare { D.tells → IsSpareZero (twin_area layout.now (D.content disk.old))
        → IsSpareZero (twin_area layout.now (D.content disk.new)) }
    ensures outside { D.tells → SameBut (twin_offset layout.now 0) (file_length layout.now)
        (D.content disk.old) (D.content disk.new) }
    ensures durable { D.tells → OnOk result (Only (D.content disk.new) (D.image disk.new)) }
    ensures any_moment { D.tells → Leaves D.Disk disk.old disk.new
        (Repaired (D.image disk.old) layout.now (D.content disk.old)) }
    ensures counted { IsCounted (D.faults disk.old) (D.faults disk.new) result }
{
    bring_home(disk, layout, area)?;
    write_gate(disk, layout, SHUT)
}

/// All four steps of a batch, over a gate that is shut in each image.
pub fn write_batch<D: Disk>(disk: &mut D, layout: &Layout, area: &[u8]) -> Result<(), Failed>
    requires whole { D.tells → length (D.content disk.old) ≡ file_length layout.now }
    requires area { length area.now ≡ AREA }
    requires valid { IsBatch (block_count layout.now) (batch_in area.now) }
    requires spare { IsSpareZero area.now }
    requires shut { D.tells → (c : List ℕ) → D.image disk.old c → twin_gate layout.now c ≢ 1 }
    requires synced { D.tells → (c : List ℕ) → D.image disk.old c
        → SamePart (block_offset layout.now 0) (file_length layout.now) (D.content disk.old) c }
    ensures written { D.tells → OnOk result ((which : ℕ) → home layout.now (D.content disk.new) which
        ≡ with_batch (batch_in area.now) which (home layout.now (D.content disk.old) which)) }
    ensures shut { D.tells → OnOk result (twin_gate layout.now (D.content disk.new) ≡ 0) }
    ensures left { D.tells → OnOk result
        (batch_in (twin_area layout.now (D.content disk.new)) ≡ batch_in area.now) }
    ensures spare { D.tells → OnOk result (IsSpareZero (twin_area layout.now (D.content disk.new))) }
    ensures outside { D.tells → SameBut (twin_offset layout.now 0) (file_length layout.now)
        (D.content disk.old) (D.content disk.new) }
    ensures durable { D.tells → OnOk result (Only (D.content disk.new) (D.image disk.new)) }
    ensures any_moment { D.tells → Leaves D.Disk disk.old disk.new
        (TwinSome (D.image disk.old) layout.now (batch_in area.now) (D.content disk.old)) }
    ensures counted { IsCounted (D.faults disk.old) (D.faults disk.new) result }
{
    stage(disk, layout, area)?;
    write_gate(disk, layout, OPEN)?;
    finish(disk, layout, area)
}

/// Reads the twin area into `area`, and makes the last two steps of its batch where the gate is open.
pub fn repair_file<D: Disk>(disk: &mut D, layout: &Layout, area: &mut [u8]) -> Result<(), OpenFault>
    requires whole { D.tells → length (D.content disk.old) ≡ file_length layout.now }
    requires area { length area.old ≡ AREA }
    requires synced { D.tells → (c : List ℕ) → D.image disk.old c
        → SamePart (twin_offset layout.now 0) (file_length layout.now) (D.content disk.old) c }
    ensures none { D.tells → IsErrOf result OpenFault.NotAStore → ¬ IsTwin layout.now (D.content disk.old) }
    ensures refused { D.tells → IsErrOf result OpenFault.NotAStore → Rests D.Disk disk.old disk.new }
    ensures foreign { D.tells → ¬ IsTwin layout.now (D.content disk.old) → Rests D.Disk disk.old disk.new }
    ensures untouched { D.tells → twin_gate layout.now (D.content disk.old) ≢ 1 → Rests D.Disk disk.old disk.new }
    ensures twin { D.tells → OnOk result (IsTwin layout.now (D.content disk.old)) }
    ensures shut { D.tells → OnOk result (twin_gate layout.now (D.content disk.new) ≢ 1) }
    ensures homes { D.tells → OnOk result ((which : ℕ) → home layout.now (D.content disk.new) which
        ≡ kept layout.now (D.content disk.old) which) }
    ensures outside { D.tells → SameBut (twin_offset layout.now 0) (file_length layout.now)
        (D.content disk.old) (D.content disk.new) }
    ensures only { D.tells → OnOk result (Only (D.content disk.old) (D.image disk.old)
        → Only (D.content disk.new) (D.image disk.new)) }
    ensures any_moment { D.tells → IsTwin layout.now (D.content disk.old) → Leaves D.Disk disk.old disk.new
        (Repaired (D.image disk.old) layout.now (D.content disk.old)) }
    ensures area { length area.new ≡ AREA }
    ensures no_memory { ¬ IsErrOf result OpenFault.NoMemory }
    ensures counted { IsCountedAs (D.faults disk.old) (D.faults disk.new) (err_is is_failed result) }
{
    disk.read_at(layout.twin_at(0), area)?;
    if area[GATE] != OPEN {
        return Ok(());
    }
    if !is_batch(layout, area) {
        return Err(OpenFault::NotAStore);
    }
    finish(disk, layout, area)?;
    Ok(())
}
