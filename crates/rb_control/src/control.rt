//! Where the log of a file begins, by two copies of its head and the byte that chooses one of them; and how that moves.
//! The store reads it as it opens a file, and moves it behind the groups of a log that it has brought home.
ghost use Rattle.std.specs.Prelude.{◌≡◌, ◌<◌, ◌≤◌, ◌↔◌, ℕ, List, length};
ghost use Rattle.std.specs.Prelude.{IfOk, OnOk, IsErrOf, IsTrue};
ghost use Rattle.rb_base.specs.Counts.{IsCounted, IsCountedAs, err_is, is_failed};
ghost use Rattle.rb_base.specs.declared.faults.OpenFault.TheVariants.{NoMemory, NotAStore};
ghost use Rattle.rb_disk.specs.DiskModel.{Only};
ghost use Rattle.rb_disk.specs.Moments.{Leaves, Rests};
ghost use Rattle.rb_disk.specs.Ranges.{SameBut, SamePart};
ghost use Rattle.rb_layout.specs.Regions.{file_length, log_offset};
ghost use Rattle.rb_control.specs.Heads.{head_of, chosen, copy_offset, copy_unit, moved, IsHead, Advanced};

use rb_base::{Failed, OpenFault, UNIT, put_u32, put_u64, u32_at, u64_at};
use rb_disk::{Disk, write_synced};
use rb_layout::{Head, Layout};

const UNIT_BYTES: u64 = UNIT as u64;

/// Where the byte stands that chooses a copy.
const CHOOSER: u64 = 3 * UNIT_BYTES;

/// Where the slot stands in a copy.
const SLOT_AT: usize = 0;

/// Where the number stands in a copy.
const NUMBER_AT: usize = 8;

/// How many bytes of a copy say its head, from the first on.
const COPY_BYTES: usize = 16;

/// The greatest number that the head of a file has.
const LAST_NUMBER: u64 = 1 << 61;

/// Where a copy begins.
fn copy_start(copy: u8) -> u64
    requires { copy < 2 }
    ensures { result ≡ copy_offset copy }
{
    UNIT_BYTES * (1 + u64::from(copy))
}

/// Which copy is chosen: 0 where the byte is even, 1 where it is odd.
fn chosen_copy<D: Disk>(disk: &mut D) -> Result<u8, Failed>
    requires whole { D.tells → log_offset 0 ≤ length (D.content disk.old) }
    ensures copy { D.tells → IfOk result (λ copy. copy ≡ chosen (D.content disk.old)) }
    ensures below { IfOk result (λ copy. copy < 2) }
    ensures counted { IsCounted (D.faults disk.old) (D.faults disk.new) result }
    ensures same { D.tells → Rests D.Disk disk.old disk.new }
{
    let mut chooser = [0];
    disk.read_at(CHOOSER, &mut chooser)?;
    Ok(chooser[0] % 2)
}

/// Whether the log of a file may begin there.
fn is_head(layout: &Layout, head: Head) -> bool
    ensures { IsTrue result ↔ IsHead layout.now head }
{
    head.slot < layout.log && head.number >= 1 && head.number <= LAST_NUMBER
}

/// Where the log of the file begins, as the chosen copy says it. NotAStore is a copy that says what no head is; only a
/// call of the disk can fail.
pub fn read<D: Disk>(disk: &mut D, layout: &Layout) -> Result<Head, OpenFault>
    requires whole { D.tells → length (D.content disk.old) ≡ file_length layout.now }
    ensures head { D.tells → IfOk result (λ head. head ≡ head_of (D.content disk.old)) }
    ensures valid { IfOk result (IsHead layout.now) }
    ensures none { D.tells → IsErrOf result NotAStore → ¬ IsHead layout.now (head_of (D.content disk.old)) }
    ensures no_memory { ¬ IsErrOf result NoMemory }
    ensures counted { IsCountedAs (D.faults disk.old) (D.faults disk.new) (err_is is_failed result) }
    ensures same { D.tells → Rests D.Disk disk.old disk.new }
{
    let copy = chosen_copy(disk)?;
    let mut bytes = [0; COPY_BYTES];
    disk.read_at(copy_start(copy), &mut bytes)?;
    let head = Head {
        slot: u32_at(&bytes, SLOT_AT),
        number: u64_at(&bytes, NUMBER_AT),
    };
    if is_head(layout, head) {
        Ok(head)
    } else {
        Err(OpenFault::NotAStore)
    }
}

/// The unit of a copy that says this head.
fn unit_of(head: Head) -> [u8; UNIT]
    ensures { result ≡ copy_unit head }
{
    let mut unit = [0; UNIT];
    put_u32(&mut unit, SLOT_AT, head.slot);
    put_u64(&mut unit, NUMBER_AT, head.number);
    unit
}

/// Moves the head: writes the copy that isn't chosen, and then the byte that chooses it, with a sync behind each. After
/// an Ok each image has the new head; a crash before leaves the old one or the new one, and all else as it was. It is
/// called where each image has the copies and the chooser that are read, and doesn't test the head.
pub fn advance<D: Disk>(disk: &mut D, layout: &Layout, head: Head) -> Result<(), Failed>
    requires whole { D.tells → length (D.content disk.old) ≡ file_length layout.now }
    requires synced { D.tells → (c : List ℕ) → D.image disk.old c
        → SamePart UNIT (log_offset 0) (D.content disk.old) c }
    ensures advanced { D.tells → OnOk result (head_of (D.content disk.new) ≡ head) }
    ensures written { D.tells → OnOk result (D.content disk.new ≡ moved (D.content disk.old) head) }
    ensures outside { D.tells → SameBut UNIT (log_offset 0) (D.content disk.old) (D.content disk.new) }
    ensures durable { D.tells → OnOk result (Only (D.content disk.new) (D.image disk.new)) }
    ensures any_moment { D.tells → Leaves D.Disk disk.old disk.new
        (Advanced (D.image disk.old) (head_of (D.content disk.old)) head) }
    ensures counted { IsCounted (D.faults disk.old) (D.faults disk.new) result }
{
    let other = 1 - chosen_copy(disk)?;
    let unit = unit_of(head);
    write_synced(disk, copy_start(other), &unit)?;
    write_synced(disk, CHOOSER, &[other])
}
