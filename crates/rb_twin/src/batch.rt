//! The bytes of a batch: a header that counts and names its blocks, and their images behind it. `Twin` fills and reads
//! them.
ghost use Rattle.std.specs.Prelude.{◌≡◌, ◌≢◌, ◌+◌, ◌*◌, ◌++◌, ◌<◌, ◌≤◌, ◌↔◌};
ghost use Rattle.std.specs.Prelude.{[], ◌∷◌, ℕ, length, slice_index, IsTrue};
ghost use Rattle.rb_base.specs.Fields.{number_at, part};
ghost use Rattle.rb_layout.specs.Regions.{block_count};
ghost use Rattle.rb_twin.specs.Batches.{Image, IsBatch, IsSpareZero, batch_in};

use rb_base::{BlockNo, UNIT, put_u32, u32_at};
use rb_layout::Layout;

/// The most images of a batch.
pub const TWIN_IMAGES: usize = 8;

/// The bytes of the twin area: a header and the images, a unit each.
pub const AREA: usize = UNIT * (TWIN_IMAGES + 1);

/// Where the gate stands.
pub const GATE: usize = 0;

/// Where the count of images stands.
const COUNT: usize = 1;

/// Where the block numbers begin, of four bytes each.
const NAMES: usize = 8;

/// How many images there are, by the area's count, which is over eight in no batch.
pub fn image_count(area: &[u8]) -> usize
    requires whole { length area.now ≡ AREA }
    ensures { result ≡ slice_index area.now 1 }
{
    usize::from(area[COUNT])
}

/// The number of the block of which an image is.
pub fn name_at(area: &[u8], place: usize) -> BlockNo
    requires whole { length area.now ≡ AREA }
    requires place { place < TWIN_IMAGES }
    ensures { result ≡ number_at area.now (8 + 4 * place) 4 }
{
    u32_at(area, NAMES + 4 * place)
}

/// Where an image begins.
pub fn image_at(place: usize) -> usize
    requires { place < TWIN_IMAGES }
    ensures { result ≡ UNIT * (place + 1) }
{
    UNIT * (place + 1)
}

/// Whether none of so many images is of that block.
fn is_new(area: &[u8], count: usize, block: BlockNo) -> bool
    requires whole { length area.now ≡ AREA }
    requires few { count ≤ TWIN_IMAGES }
    ensures { IsTrue result ↔ ((k : ℕ) → k < count → number_at area.now (8 + 4 * k) 4 ≢ block) }
{
    for place in 0..count {
        if name_at(area, place) == block {
            return false;
        }
    }
    true
}

/// Whether the area has a batch of blocks of that layout.
pub fn is_batch(layout: &Layout, area: &[u8]) -> bool
    requires whole { length area.now ≡ AREA }
    ensures { IsTrue result ↔ IsBatch (block_count layout.now) (batch_in area.now) }
{
    let count = image_count(area);
    if count == 0 || count > TWIN_IMAGES {
        return false;
    }
    let blocks = layout.shape().block_count();
    for place in 0..count {
        let block = name_at(area, place);
        if block >= blocks || !is_new(area, place, block) {
            return false;
        }
    }
    true
}

/// Puts one image more behind those of a batch. The spare bytes of the header stay 0.
pub fn put_image(area: &mut [u8], block: BlockNo, unit: &[u8])
    requires whole { length area.old ≡ AREA }
    requires room { length (batch_in area.old) < TWIN_IMAGES }
    requires unit { length unit.now ≡ UNIT }
    requires spare { IsSpareZero area.old }
    ensures batch { batch_in area.new ≡ batch_in area.old ++ record { no = block; unit = unit.now } ∷ [] }
    ensures spare { IsSpareZero area.new }
    ensures whole { length area.new ≡ AREA }
{
    let place = image_count(area);
    area[COUNT] += 1;
    put_u32(area, NAMES + 4 * place, block);
    let at = image_at(place);
    area[at..at + UNIT].copy_from_slice(unit);
}

/// Makes the batch empty. Its header is all 0 again.
pub fn clear_batch(area: &mut [u8])
    requires whole { length area.old ≡ AREA }
    ensures batch { batch_in area.new ≡ [] }
    ensures spare { IsSpareZero area.new }
    ensures whole { length area.new ≡ AREA }
{
    area[..UNIT].fill(0);
}
