//! What holds of every block and its home, as clauses for proofs to cite. Nothing calls them.
ghost use Rattle.std.specs.Prelude.{◌≡◌, ◌≢◌, ℕ, ◌+◌, ◌^◌, ◌<◌, Bool, List, [], ◌∷◌};
ghost use Rattle.std.specs.Prelude.{◌++◌, length, take, drop, slice_index};
ghost use Rattle.std.specs.List.{All, AllByRecursion};
ghost use Rattle.rb_base.specs.declared.shape.Shape.{Shape};
ghost use Rattle.rb_base.specs.Blocks.{block_of, patched, after_group, fresh_block, fresh_blocks, table_blocks};
ghost use Rattle.rb_base.specs.Blocks.{shape_blocks, AreBlocks, AreWithin};
ghost use Rattle.rb_base.specs.Fields.{number_at};
ghost use Rattle.rb_base.specs.Groups.{Patch, IsPatch};
ghost use Rattle.rb_cell.specs.declared.cell.Cell.{Cell};
ghost use Rattle.rb_cell.specs.Cells.{cell_at, cell_patch, lock_patch, IsCell};
ghost use Rattle.rb_itl.specs.declared.slots.Entry.{Entry};
ghost use Rattle.rb_itl.specs.Entries.{entry_at, IsEntry};
ghost use Rattle.rb_heap.specs.Homes.{Home, home_of, empty_home, home_entry, home_cell, home_rows, row_in, rows_in};
ghost use Rattle.rb_heap.specs.Homes.{with_home_entry, with_home_cell, with_home_lock, is_keyed, entry_patch};
ghost use Rattle.rb_heap.specs.Homes.{home_patches, IsHome, IsFirst, IsNowhere};

use rb_base::UNIT;
use rb_cell::CELLS;
use rb_itl::ENTRIES;

/// What a block's bytes say, at each place. A block of rows of a new file says nothing.
pub fn home_read()
    ensures entry_count { (block : List ℕ) → length (home_of block).entries ≡ ENTRIES }
    ensures cell_count { (block : List ℕ) → length (home_of block).cells ≡ CELLS }
    ensures entry { (block : List ℕ) (i : ℕ) → i < ENTRIES → home_entry (home_of block) i ≡ entry_at block i }
    ensures cell { (block : List ℕ) (c : ℕ) → c < CELLS → home_cell (home_of block) c ≡ cell_at block c }
    ensures sound { (block : List ℕ) → All (λ b. b < 256) block → IsHome (home_of block) }
    ensures fresh { (shape : Shape) (which : ℕ) → which < table_blocks shape
        → home_of (fresh_block shape which) ≡ empty_home }
    ensures new_file { (shape : Shape) (which : ℕ) → which < table_blocks shape
        → home_of (block_of (fresh_blocks shape) which) ≡ empty_home }
{}

/// A block that was patched by a cell, a lock or an entry has a home with that one, and is else as before.
pub fn home_patched()
    ensures cell { (block : List ℕ) (number which c : ℕ) (cell : Cell) → length block ≡ UNIT → c < CELLS
        → IsCell cell → home_of (patched number (cell_patch which c cell) block)
        ≡ with_home_cell (home_of block) c cell }
    ensures lock { (block : List ℕ) (number which c lock : ℕ) → length block ≡ UNIT → c < CELLS
        → home_of (patched number (lock_patch which c lock) block) ≡ with_home_lock (home_of block) c lock }
    ensures entry { (block : List ℕ) (number which i : ℕ) (entry : Entry) → length block ≡ UNIT → i < ENTRIES
        → IsEntry entry → home_of (patched number (entry_patch which i entry) block)
        ≡ with_home_entry (home_of block) i entry }
{}

/// A patch leaves its block's length, kind and own number, and puts the group's log number in front. Those of cells,
/// locks and entries are patches of their block.
pub fn head_patched()
    ensures size { (block : List ℕ) (number : ℕ) (p : Patch) → length block ≡ UNIT → IsPatch p
        → length (patched number p block) ≡ UNIT }
    ensures number { (block : List ℕ) (number : ℕ) (p : Patch) → number < 2 ^ 64
        → number_at (patched number p block) 0 8 ≡ number }
    ensures kind { (block : List ℕ) (number : ℕ) (p : Patch) → length block ≡ UNIT → IsPatch p
        → slice_index (patched number p block) 8 ≡ slice_index block 8 }
    ensures own { (block : List ℕ) (number : ℕ) (p : Patch) → length block ≡ UNIT → IsPatch p
        → number_at (patched number p block) 12 4 ≡ number_at block 12 4 }
    ensures cell { (which c : ℕ) (cell : Cell) → which < 2 ^ 32 → c < CELLS → IsCell cell
        → IsPatch (cell_patch which c cell) }
    ensures lock { (which c lock : ℕ) → which < 2 ^ 32 → c < CELLS → IsPatch (lock_patch which c lock) }
    ensures entry { (which i : ℕ) (entry : Entry) → which < 2 ^ 32 → i < ENTRIES
        → IsPatch (entry_patch which i entry) }
{}

/// After a change, or after the patch of one cell, one lock or one entry alone, the block has the home with it. A block
/// that no patch of a group is of is the same after it, and the file's blocks stay in number and in size.
pub fn home_changed()
    ensures change { (shape : Shape) (blocks : List (List ℕ)) (number which c i : ℕ) (cell : Cell) (entry : Entry)
        → AreBlocks shape blocks → which < shape_blocks shape → c < CELLS → i < ENTRIES → IsCell cell
        → IsEntry entry → home_of (block_of (after_group number (home_patches which c cell i entry) blocks) which)
        ≡ with_home_entry (with_home_cell (home_of (block_of blocks which)) c cell) i entry }
    ensures cell { (shape : Shape) (blocks : List (List ℕ)) (number which c : ℕ) (cell : Cell)
        → AreBlocks shape blocks → which < shape_blocks shape → c < CELLS → IsCell cell
        → home_of (block_of (after_group number (cell_patch which c cell ∷ []) blocks) which)
        ≡ with_home_cell (home_of (block_of blocks which)) c cell }
    ensures lock { (shape : Shape) (blocks : List (List ℕ)) (number which c lock : ℕ) → AreBlocks shape blocks
        → which < shape_blocks shape → c < CELLS
        → home_of (block_of (after_group number (lock_patch which c lock ∷ []) blocks) which)
        ≡ with_home_lock (home_of (block_of blocks which)) c lock }
    ensures entry { (shape : Shape) (blocks : List (List ℕ)) (number which i : ℕ) (entry : Entry)
        → AreBlocks shape blocks → which < shape_blocks shape → i < ENTRIES → IsEntry entry
        → home_of (block_of (after_group number (entry_patch which i entry ∷ []) blocks) which)
        ≡ with_home_entry (home_of (block_of blocks which)) i entry }
    ensures others { (number other : ℕ) (group : List Patch) (blocks : List (List ℕ))
        → AllByRecursion (λ p. p.block ≢ other) group → block_of (after_group number group blocks) other
        ≡ block_of blocks other }
    ensures blocks { (shape : Shape) (number : ℕ) (group : List Patch) (blocks : List (List ℕ))
        → AreBlocks shape blocks → AreWithin shape group → AllByRecursion IsPatch group
        → AreBlocks shape (after_group number group blocks) }
{}

/// Which cell is the first one goes by the cells alone, and there is one or none. A home that can be written still can
/// after a change.
pub fn home_searched()
    ensures by_cells { (test : Cell → Bool) (home other : Home) (c k : ℕ) → home.cells ≡ other.cells
        → IsFirst test home.cells c → IsFirst test other.cells k → c ≡ k }
    ensures entry_apart { (home : Home) (i : ℕ) (entry : Entry)
        → (with_home_entry home i entry).cells ≡ home.cells }
    ensures one_or_none { (test : Cell → Bool) (cells : List Cell) (c : ℕ) → IsFirst test cells c
        → ¬ IsNowhere test cells }
    ensures with_cell { (home : Home) (c : ℕ) (cell : Cell) → IsHome home → IsCell cell
        → IsHome (with_home_cell home c cell) }
    ensures with_entry { (home : Home) (i : ℕ) (entry : Entry) → IsHome home → IsEntry entry
        → IsHome (with_home_entry home i entry) }
{}

/// The rows of a home: an empty one has none, a cell that is set takes its old row's place with its own, where no cell
/// is found by a key no row has it, and neither a lock nor an entry matters.
pub fn home_listed()
    ensures empty { home_rows empty_home ≡ [] }
    ensures at_cell { (home : Home) (c : ℕ) → c < length home.cells
        → home_rows home ≡ rows_in (take c home.cells) ++ row_in (home_cell home c)
        ++ rows_in (drop (c + 1) home.cells) }
    ensures with_cell { (home : Home) (c : ℕ) (cell : Cell) → c < length home.cells
        → home_rows (with_home_cell home c cell) ≡ rows_in (take c home.cells) ++ row_in cell
        ++ rows_in (drop (c + 1) home.cells) }
    ensures none_keyed { (home : Home) (key : ℕ) → length home.cells ≡ CELLS
        → IsNowhere (is_keyed key) home.cells → All (λ row. row.key ≢ key) (home_rows home) }
    ensures with_lock { (home : Home) (c lock : ℕ) → home_rows (with_home_lock home c lock) ≡ home_rows home }
    ensures with_entry { (home : Home) (i : ℕ) (entry : Entry)
        → home_rows (with_home_entry home i entry) ≡ home_rows home }
{}
