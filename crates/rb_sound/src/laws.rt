//! What holds of every file, as clauses for proofs to cite. Nothing calls them.
ghost use Rattle.std.specs.Prelude.{ℕ, ◌+◌, ◌-◌, ◌*◌, ◌<◌, ◌≤◌, List};
ghost use Rattle.rb_base.specs.declared.ids.Uba.{Uba};
ghost use Rattle.rb_base.specs.declared.ids.Xid.{Xid};
ghost use Rattle.rb_base.specs.declared.shape.Shape.{Shape};
ghost use Rattle.rb_base.specs.Blocks.{block_of, fresh_blocks};
ghost use Rattle.rb_heap.specs.Soundness.{IsHomeSound};
ghost use Rattle.rb_segment.specs.Header.{Segment};
ghost use Rattle.rb_sound.specs.Active.{Chain, CouldStand};
ghost use Rattle.rb_sound.specs.Sound.{AreHomesSound, AreSound};

/// Where all blocks of rows are in order, so is the block of each home of each table, which are counted from 1.
pub fn homes_by_table()
    ensures { (shape : Shape) (commit : ℕ) (wrap_of : ℕ → ℕ → ℕ) (blocks : List (List ℕ)) (t h : ℕ)
        → AreHomesSound shape commit wrap_of blocks → 1 ≤ t → t ≤ shape.tables → h < shape.blocks
        → IsHomeSound shape commit wrap_of h (block_of blocks ((t - 1) * shape.blocks + h)) }
{}

/// The blocks of a new file are in order.
pub fn fresh_sound()
    ensures { (shape : Shape) → AreSound shape (fresh_blocks shape) }
{}

/// A chain of live records has at most 320: it goes over as many places as its segment has.
pub fn chains_short()
    ensures { (shape : Shape) (commit : ℕ) (wrap_of : ℕ → ℕ → ℕ) (s : Segment) (x : Xid) (n : ℕ)
        (at : Uba) → Chain (CouldStand shape commit wrap_of) shape s x n at → n ≤ 320 }
{}
