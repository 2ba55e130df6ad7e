//! `Twin`: a batch of blocks that are written home together. A cache fills and writes it, and an opening repairs what a
//! crash left of one.
ghost use Rattle.std.specs.Prelude.{◌≡◌, ◌≢◌, ◌≤◌, ◌<◌, ◌++◌, [], ◌∷◌, ℕ, List};
ghost use Rattle.std.specs.Prelude.{length, IfOk, OnOk, OnErr, IsErrOf};
ghost use Rattle.rb_base.specs.Counts.{IsCounted, IsCountedAs, err_is, is_failed};
ghost use Rattle.rb_disk.specs.DiskModel.{Only};
ghost use Rattle.rb_disk.specs.Moments.{Leaves, Rests};
ghost use Rattle.rb_disk.specs.Ranges.{SameBut, SamePart};
ghost use Rattle.rb_layout.specs.Regions.{file_length, twin_offset, block_offset, block_count};
ghost use Rattle.rb_twin.specs.Batches.{Image, IsNoneOf, IsSpareZero, with_batch, batch_in};
ghost use Rattle.rb_twin.specs.Twins.{home, kept, twin_area, twin_gate, IsTwin, TwinSome, Repaired};

use crate::batch::{AREA, TWIN_IMAGES, clear_batch, image_count, put_image};
use crate::steps::{repair_file, write_batch};
use rb_base::{BlockNo, Failed, NoMemory, OpenFault, UNIT};
use rb_disk::Disk;
use rb_fill::zero_bytes;
use rb_layout::Layout;
use std::alloc::Global;
use std::marker::Model;

/// The batch that the next write brings home: up to eight images of different blocks of a file.
#[derive(Drop)]
pub struct Twin {
    layout: Layout,
    // The bytes of the twin area as a write lays them down. The second of them counts the images.
    area: Vec<u8>,
}

impl Model for Twin {
    ghost use Rattle.rb_twin.specs.Batches.{batch_in};
    ghost use Rattle.rb_twin.specs.Twins.{TwinState, IsTwinMemory};

    ghost Value = { TwinState };

    ghost view = { λ a. record { layout = a.layout; batch = batch_in a.area.items } };

    ghost invariant = { λ a. IsTwinMemory a.layout a.area.items };
}

impl Twin {
    /// An empty batch. It takes all the memory that batches need, or NoMemory where there isn't as much.
    pub fn new(alloc: Global, layout: &Layout) -> Result<Twin, NoMemory>
        ensures { IfOk result (λ twin. twin ≡ record { layout = layout.now; batch = [] }) }
    {
        Ok(Twin {
            layout: *layout,
            area: zero_bytes(alloc, AREA)?,
        })
    }

    /// How many images the batch has, 0 to `TWIN_IMAGES`.
    pub fn len(&self) -> usize
        ensures count { result ≡ length self.now.batch }
        ensures few { result ≤ TWIN_IMAGES }
    {
        image_count(&self.area)
    }

    /// Puts an image of a block of the file behind those of the batch, which has room and none of that block.
    pub fn put(&mut self, block: BlockNo, unit: &[u8])
        requires room { length self.old.batch < TWIN_IMAGES }
        requires differs { IsNoneOf block self.old.batch }
        requires within { block < block_count self.old.layout }
        requires whole { length unit.now ≡ UNIT }
        ensures { self.new ≡ record self.old
            { batch = self.old.batch ++ record { no = block; unit = unit.now } ∷ [] } }
    {
        put_image(&mut self.area, block, unit);
    }

    /// Writes the batch, which isn't empty, to the twin area and then each of its blocks home, with four syncs. After
    /// an Ok every image has all of them at home, and the batch is empty; a crash before leaves a file that keeps all
    /// of these blocks as they were, or all as the batch has them. Behind the shut gate the twin area still has the
    /// batch, and the spare bytes of its header are 0. It is called where no image has an open gate, and each has the
    /// blocks that are read.
    pub fn write<D: Disk>(&mut self, disk: &mut D) -> Result<(), Failed>
        requires some { 0 < length self.old.batch }
        requires whole { D.tells → length (D.content disk.old) ≡ file_length self.old.layout }
        requires shut { D.tells → (c : List ℕ) → D.image disk.old c → twin_gate self.old.layout c ≢ 1 }
        requires synced { D.tells → (c : List ℕ) → D.image disk.old c
            → SamePart (block_offset self.old.layout 0) (file_length self.old.layout) (D.content disk.old) c }
        ensures written { D.tells → OnOk result ((which : ℕ) → home self.old.layout (D.content disk.new) which
            ≡ with_batch self.old.batch which (home self.old.layout (D.content disk.old) which)) }
        ensures shut { D.tells → OnOk result (twin_gate self.old.layout (D.content disk.new) ≡ 0) }
        ensures left { D.tells → OnOk result
            (batch_in (twin_area self.old.layout (D.content disk.new)) ≡ self.old.batch) }
        ensures spare { D.tells → OnOk result (IsSpareZero (twin_area self.old.layout (D.content disk.new))) }
        ensures outside { D.tells → SameBut (twin_offset self.old.layout 0) (file_length self.old.layout)
            (D.content disk.old) (D.content disk.new) }
        ensures durable { D.tells → OnOk result (Only (D.content disk.new) (D.image disk.new)) }
        ensures whole { D.tells → length (D.content disk.new) ≡ file_length self.old.layout }
        ensures any_moment { D.tells → Leaves D.Disk disk.old disk.new
            (TwinSome (D.image disk.old) self.old.layout self.old.batch (D.content disk.old)) }
        ensures emptied { OnOk result (self.new ≡ record self.old { batch = [] }) }
        ensures stays { OnErr result (self.new ≡ self.old) }
        ensures counted { IsCounted (D.faults disk.old) (D.faults disk.new) result }
    {
        write_batch(disk, &self.layout, &self.area)?;
        clear_batch(&mut self.area);
        Ok(())
    }

    /// Brings the blocks of a batch home that a crash left behind an open gate, and shuts it; over a shut gate it makes
    /// no write and no sync. NotAStore is an open gate with no batch behind it. A crash leaves a file that keeps each
    /// block as the one found did. The batch in memory is empty afterwards.
    pub fn repair<D: Disk>(&mut self, disk: &mut D) -> Result<(), OpenFault>
        requires whole { D.tells → length (D.content disk.old) ≡ file_length self.old.layout }
        requires synced { D.tells → (c : List ℕ) → D.image disk.old c
            → SamePart (twin_offset self.old.layout 0) (file_length self.old.layout) (D.content disk.old) c }
        ensures none { D.tells → IsErrOf result OpenFault.NotAStore
            → ¬ IsTwin self.old.layout (D.content disk.old) }
        ensures refused { D.tells → IsErrOf result OpenFault.NotAStore → Rests D.Disk disk.old disk.new }
        ensures foreign { D.tells → ¬ IsTwin self.old.layout (D.content disk.old)
            → Rests D.Disk disk.old disk.new }
        ensures untouched { D.tells → twin_gate self.old.layout (D.content disk.old) ≢ 1
            → Rests D.Disk disk.old disk.new }
        ensures twin { D.tells → OnOk result (IsTwin self.old.layout (D.content disk.old)) }
        ensures shut { D.tells → OnOk result (twin_gate self.old.layout (D.content disk.new) ≢ 1) }
        ensures homes { D.tells → OnOk result ((which : ℕ) → home self.old.layout (D.content disk.new) which
            ≡ kept self.old.layout (D.content disk.old) which) }
        ensures outside { D.tells → SameBut (twin_offset self.old.layout 0) (file_length self.old.layout)
            (D.content disk.old) (D.content disk.new) }
        ensures only { D.tells → OnOk result (Only (D.content disk.old) (D.image disk.old)
            → Only (D.content disk.new) (D.image disk.new)) }
        ensures whole { D.tells → length (D.content disk.new) ≡ file_length self.old.layout }
        ensures any_moment { D.tells → IsTwin self.old.layout (D.content disk.old) → Leaves D.Disk disk.old disk.new
            (Repaired (D.image disk.old) self.old.layout (D.content disk.old)) }
        ensures emptied { self.new ≡ record self.old { batch = [] } }
        ensures no_memory { ¬ IsErrOf result OpenFault.NoMemory }
        ensures counted { IsCountedAs (D.faults disk.old) (D.faults disk.new) (err_is is_failed result) }
    {
        let repaired = repair_file(disk, &self.layout, &mut self.area);
        clear_batch(&mut self.area);
        repaired
    }
}
