//! What a file opens to, as clauses for proofs to cite. Nothing calls them.
ghost use Rattle.std.specs.Prelude.{◌≡◌, ℕ, List};
ghost use Rattle.rb_base.specs.Blocks.{fresh_blocks};
ghost use Rattle.rb_layout.specs.declared.layout.Layout.{Layout};
ghost use Rattle.rb_layout.specs.Regions.{file_version, fresh_file, shape_of};
ghost use Rattle.rb_store.specs.Meaning.{Means, OpensAt};

/// A new file opens to the blocks of a new file, and has no log number yet.
pub fn fresh_opening()
    ensures { (l : Layout) → OpensAt l (fresh_file file_version l) (fresh_blocks (shape_of l)) 0 }
{}

/// A file means one list of blocks, with one last log number, by one layout.
pub fn one_opening()
    ensures layout { (l m : Layout) (file : List ℕ) (first second : List (List ℕ)) (n k : ℕ)
        → Means l file first n → Means m file second k → l ≡ m }
    ensures blocks { (l m : Layout) (file : List ℕ) (first second : List (List ℕ)) (n k : ℕ)
        → Means l file first n → Means m file second k → first ≡ second }
    ensures lsn { (l m : Layout) (file : List ℕ) (first second : List (List ℕ)) (n k : ℕ)
        → Means l file first n → Means m file second k → n ≡ k }
{}
