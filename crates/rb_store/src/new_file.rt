//! `format`: writes a new file of a layout. The shell calls it for the command of that name.
ghost use Rattle.std.specs.Prelude.{◌≡◌, ◌+◌, ◌-◌, ◌*◌, ◌<◌, ◌≤◌, ◌++◌};
ghost use Rattle.std.specs.Prelude.{length, replicate, OnOk, IsErrOf};
ghost use Rattle.std.specs.List.{concat};
ghost use Rattle.rb_base.specs.Blocks.{IsShape, fresh_from, shape_blocks};
ghost use Rattle.rb_base.specs.Counts.{IsCounted, IsCountedAs, err_is};
ghost use Rattle.rb_disk.specs.DiskModel.{Only};
ghost use Rattle.rb_disk.specs.Moments.{Rests};
ghost use Rattle.rb_layout.specs.Regions.{fresh_file, fresh_first, fresh_front};
ghost use Rattle.rb_store.specs.Formats.{is_format_failed};

use crate::pieces::{PIECE, PIECE_BYTES};
use rb_base::{BlockNo, Failed, Shape, UNIT, put_u64};
use rb_disk::Disk;
use rb_layout::{Layout, VERSION, fresh_block};
use thiserror::Error;

/// How many bytes say what the file is and where its log begins: its identity and two control copies, each a unit.
const FIRST_BYTES: usize = 3 * UNIT;

/// Where the log number of the first group stands in a control copy.
const NUMBER_AT: usize = 8;

/// Why a file wasn't made.
#[derive(Clone, Copy, Debug, PartialEq, Eq, Error)]
pub enum FormatFault {
    /// A call of the disk failed.
    #[error("a call of the disk failed")]
    Failed,
    /// The file has bytes already.
    #[error("the file isn't empty")]
    NotEmpty,
}

impl From<Failed> for FormatFault {
    ghost use Rattle.std.specs.Prelude.{◌≡◌};
    ghost use Rattle.rb_store.specs.declared.new_file.FormatFault.TheVariants.{Failed};

    ghost from_gives = { λ _ fault. fault ≡ Failed };

    fn from(_failed: Failed) -> FormatFault {
        FormatFault::Failed
    }
}

/// Makes the empty file of the disk a new file of this layout: writes its units in order and syncs. After an
/// Ok a crash leaves that file whole. A file that has bytes stays as it is.
pub fn format<D: Disk>(disk: &mut D, layout: &Layout) -> Result<(), FormatFault>
    ensures done { D.tells → OnOk result (D.content disk.new ≡ fresh_file VERSION layout.now) }
    ensures durable { D.tells → OnOk result (Only (fresh_file VERSION layout.now) (D.image disk.new)) }
    ensures was_empty { D.tells → OnOk result (length (D.content disk.old) ≡ 0) }
    ensures not_empty { D.tells → IsErrOf result FormatFault.NotEmpty → 0 < length (D.content disk.old) }
    ensures unchanged { D.tells → 0 < length (D.content disk.old)
        → Rests D.Disk disk.old disk.new }
    ensures counted { IsCountedAs (D.faults disk.old) (D.faults disk.new) (err_is is_format_failed result) }
{
    let length = disk.len()?;
    if length > 0 {
        return Err(FormatFault::NotEmpty);
    }
    write_front(disk, layout)?;
    write_blocks(disk, layout)?;
    disk.sync()?;
    Ok(())
}

// Writes all that is in front of the blocks into an empty file, in order: the first units, and then zeros in pieces.
fn write_front<D: Disk>(disk: &mut D, layout: &Layout) -> Result<(), Failed>
    requires { D.tells → length (D.content disk.old) ≡ 0 }
    ensures written { D.tells → OnOk result (D.content disk.new ≡ fresh_front VERSION layout.now) }
    ensures counted { IsCounted (D.faults disk.old) (D.faults disk.new) result }
{
    disk.write_at(0, &first_units(layout))?;
    let empty = [0; PIECE_BYTES];
    let end = layout.block_at(0);
    let mut at = FIRST_BYTES as u64;
    while at < end {
        let count = (end - at).min(PIECE_BYTES as u64);
        disk.write_at(at, &empty[..count as usize])?;
        at += count;
    }
    Ok(())
}

// Writes the blocks of a new file behind that, in pieces.
fn write_blocks<D: Disk>(disk: &mut D, layout: &Layout) -> Result<(), Failed>
    requires { D.tells → D.content disk.old ≡ fresh_front VERSION layout.now }
    ensures written { D.tells → OnOk result (D.content disk.new ≡ fresh_file VERSION layout.now) }
    ensures counted { IsCounted (D.faults disk.old) (D.faults disk.new) result }
{
    let shape = layout.shape();
    let end = shape.block_count();
    let mut piece = [0; PIECE_BYTES];
    let mut first = 0;
    while first < end {
        let count = (end - first).min(PIECE);
        let blocks = &mut piece[..UNIT * count as usize];
        put_blocks(blocks, shape, first, count);
        disk.write_at(layout.block_at(first), blocks)?;
        first += count;
    }
    Ok(())
}

// Puts so many blocks of a new file from one on where they have room, one behind the other.
fn put_blocks(into: &mut [u8], shape: Shape, first: BlockNo, count: u32)
    requires room { length into.old ≡ UNIT * count }
    requires shape { IsShape shape }
    requires there { first + count ≤ shape_blocks shape }
    ensures { into.new ≡ concat (fresh_from shape first count) }
{
    for k in 0..count {
        let at = UNIT * k as usize;
        into[at..at + UNIT].copy_from_slice(&fresh_block(shape, first + k));
    }
}

// The units that say what the file is, and where its log begins.
fn first_units(layout: &Layout) -> [u8; FIRST_BYTES]
    ensures { result ≡ fresh_first VERSION layout.now }
{
    let mut units = empty_units();
    layout.put_identity(&mut units);
    put_u64(&mut units, UNIT + NUMBER_AT, 1);
    put_u64(&mut units, 2 * UNIT + NUMBER_AT, 1);
    units
}

fn empty_units() -> [u8; FIRST_BYTES]
    ensures { result ≡ replicate FIRST_BYTES 0 }
{
    [0; FIRST_BYTES]
}
