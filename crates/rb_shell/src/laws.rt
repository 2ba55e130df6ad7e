//! What a new file and an image that a run leaves open to, and in which pieces a run asks for its script, as clauses
//! for readers and proofs to cite. Nothing calls them.
ghost use Rattle.std.specs.Prelude.{◌≡◌, ℕ, List, [], Some};
ghost use Rattle.rb_base.specs.Blocks.{fresh_blocks};
ghost use Rattle.law_crash.specs.Crash.{RestartsAt};
ghost use Rattle.law_crash.specs.Images.{MarksWithin};
ghost use Rattle.rb_layout.specs.Regions.{fresh_file, shape_of};
ghost use Rattle.rb_layout.specs.declared.layout.Layout.{Layout};
ghost use Rattle.rb_model.specs.Book.{Book};
ghost use Rattle.rb_model.specs.Rows.{rows_at};
ghost use Rattle.rb_model.specs.State.{State, opened};
ghost use Rattle.rb_recovery.specs.Opens.{books_of};
ghost use Rattle.rb_shell.specs.Runs.{IsSound};
ghost use Rattle.rb_store.specs.Meaning.{Opens};

use crate::script::SCRIPT_BYTES;
use rb_layout::VERSION;

/// A new file of any layout is sound: a run over it opens with no commit and no row.
pub fn new_file_sound()
    ensures { (l : Layout) → (sound : IsSound (fresh_file VERSION l))
        × (sound.state ≡ opened (shape_of l) 0 [] (books_of (shape_of l) (fresh_blocks (shape_of l))) []) }
{}

/// An image of which `Endures` says that it restarts at a number is sound. A run over it opens with that number and
/// with the rows after the commits up to it, and its segments have made and given up no more than those books say.
pub fn restarts_sound()
    ensures { (l : Layout) (books : List Book) (h : State) (n : ℕ) (image : List ℕ)
        → RestartsAt Opens (Some l.log) books h n image → (sound : IsSound image)
        × (sound.state ≡ opened h.shape n (rows_at h.shape.blocks h.commits n)
        (books_of h.shape sound.store.blocks) [])
        × MarksWithin h.shape books sound.store.blocks }
{}

/// In how large pieces a script is asked for at most.
pub fn script_pieces()
    ensures bytes { SCRIPT_BYTES ≡ 65536 }
{}
