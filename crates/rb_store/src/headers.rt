//! Whether each block at home begins as the block of its number does. The opening of a store asks it before it rolls
//! groups forward.
ghost use Rattle.std.specs.Prelude.{◌≡◌, ◌+◌, ◌*◌, ◌≤◌, ◌<◌, ◌↔◌, ℕ, List, length};
ghost use Rattle.std.specs.Prelude.{IsTrue, false, OnOk, IsErrOf};
ghost use Rattle.rb_base.specs.Blocks.{IsShape, shape_blocks};
ghost use Rattle.rb_base.specs.Counts.{IsCountedAs, err_is, is_failed};
ghost use Rattle.rb_base.specs.Fields.{part};
ghost use Rattle.rb_disk.specs.Moments.{Rests};
ghost use Rattle.rb_layout.specs.Regions.{block_count, file_length, shape_of};
ghost use Rattle.rb_twin.specs.Twins.{home};
ghost use Rattle.rb_store.specs.Meaning.{AreHomesHeaded, IsHeaded};

use crate::pieces::{PIECE, PIECE_BYTES};
use rb_base::{BLOCK_HEAD, BlockNo, Lsn, OpenFault, Shape, UNIT, u32_at, u64_at};
use rb_disk::Disk;
use rb_layout::{Layout, kind_of};

/// Whether a block tells the kind and the number of its place, and a log number of at most the last.
fn is_headed(block: &[u8], shape: Shape, no: BlockNo, last: Lsn) -> bool
    requires whole { length block.now ≡ UNIT }
    requires shape { IsShape shape }
    requires there { no < shape_blocks shape }
    ensures { IsTrue result ↔ IsHeaded shape last no block.now }
{
    let place = &block[8..BLOCK_HEAD];
    u64_at(block, 0) <= last && place[0] == kind_of(shape, no).number() && u32_at(place, 4) == no
}

/// Whether each of so many blocks from one on does. The bytes are those of these blocks, one behind the other.
fn are_headed(blocks: &[u8], shape: Shape, first: BlockNo, count: u32, last: Lsn) -> bool
    requires whole { length blocks.now ≡ UNIT * count }
    requires shape { IsShape shape }
    requires there { first + count ≤ shape_blocks shape }
    ensures { IsTrue result ↔ ((k : ℕ) → k < count
        → IsHeaded shape last (first + k) (part blocks.now (UNIT * k) UNIT)) }
{
    for k in 0..count {
        let at = UNIT * k as usize;
        if !is_headed(&blocks[at..at + UNIT], shape, first + k, last) {
            return false;
        }
    }
    true
}

/// Reads so many homes from one on into a buffer of their size. NotAStore where one of them isn't headed.
fn check_piece<D: Disk>(
    disk: &mut D,
    layout: &Layout,
    first: BlockNo,
    count: u32,
    last: Lsn,
    buffer: &mut [u8],
) -> Result<(), OpenFault>
    requires whole { D.tells → length (D.content disk.old) ≡ file_length layout.now }
    requires there { first + count ≤ block_count layout.now }
    requires some { 0 < count }
    requires buffer { length buffer.old ≡ UNIT * count }
    ensures headed { D.tells → OnOk result ((k : ℕ) → k < count
        → IsHeaded (shape_of layout.now) last (first + k) (home layout.now (D.content disk.old) (first + k))) }
    ensures none { D.tells → IsErrOf result OpenFault.NotAStore
        → ¬ AreHomesHeaded layout.now last (D.content disk.old) (block_count layout.now) }
    ensures no_memory { ¬ IsErrOf result OpenFault.NoMemory }
    ensures counted { IsCountedAs (D.faults disk.old) (D.faults disk.new) (err_is is_failed result) }
    ensures same { D.tells → Rests D.Disk disk.old disk.new }
    ensures buffer { length buffer.new ≡ length buffer.old }
{
    disk.read_at(layout.block_at(first), buffer)?;
    if !are_headed(buffer, layout.shape(), first, count, last) {
        return Err(OpenFault::NotAStore);
    }
    Ok(())
}

/// Reads all homes. NotAStore where one of them isn't headed, or has a log number above the last.
pub fn check_homes<D: Disk>(disk: &mut D, layout: &Layout, last: Lsn) -> Result<(), OpenFault>
    requires whole { D.tells → length (D.content disk.old) ≡ file_length layout.now }
    ensures headed { D.tells → OnOk result
        (AreHomesHeaded layout.now last (D.content disk.old) (block_count layout.now)) }
    ensures none { D.tells → IsErrOf result OpenFault.NotAStore
        → ¬ AreHomesHeaded layout.now last (D.content disk.old) (block_count layout.now) }
    ensures no_memory { ¬ IsErrOf result OpenFault.NoMemory }
    ensures counted { IsCountedAs (D.faults disk.old) (D.faults disk.new) (err_is is_failed result) }
    ensures same { D.tells → Rests D.Disk disk.old disk.new }
{
    let end = layout.shape().block_count();
    let mut buffer = [0; PIECE_BYTES];
    let mut first = 0;
    while first < end {
        let count = (end - first).min(PIECE);
        check_piece(
            disk,
            layout,
            first,
            count,
            last,
            &mut buffer[..UNIT * count as usize],
        )?;
        first += count;
    }
    Ok(())
}
