//! What holds of the blocks that the program left and of those that an opening leaves, as clauses for proofs to cite.
//! Nothing calls them.
ghost use Rattle.std.specs.Prelude.{ℕ, List, []};
ghost use Rattle.rb_base.specs.Blocks.{IsShape};
ghost use Rattle.rb_base.specs.declared.shape.Shape.{Shape};
ghost use Rattle.rb_model.specs.State.{opened};
ghost use Rattle.rb_model.specs.Rows.{TableRow};
ghost use Rattle.rb_recovery.specs.Opens.{books_of};
ghost use Rattle.rb_restart.specs.Rollback.{AreIdle};
ghost use Rattle.rb_sound.specs.Sound.{AreSound};
ghost use Rattle.law_blocks.specs.Standing.{SoundAs};
ghost use Rattle.law_blocks.specs.States.{BlocksStand};

/// Blocks that have a number and rows, once what is under way is taken back, are in order: an opening never refuses
/// them for it.
pub fn sound_opens()
    ensures { (shape : Shape) (blocks : List (List ℕ)) (number : ℕ) (rows : List TableRow)
        → SoundAs shape blocks number rows → AreSound shape blocks }
{}

/// Where no transaction runs, they stand for the machine's state that is opened, with the books that the headers tell.
pub fn opened_stands()
    ensures { (shape : Shape) (blocks : List (List ℕ)) (number : ℕ) (rows : List TableRow) → IsShape shape
        → SoundAs shape blocks number rows → AreIdle shape blocks
        → BlocksStand (opened shape number rows (books_of shape blocks) []) [] blocks }
{}
