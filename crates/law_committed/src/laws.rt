//! What holds of the committed cells of a home and of a file, as clauses for proofs to cite. Nothing calls it.
ghost use Rattle.law_committed.specs.Laws.{WalkEndsCommitted, CommittedCellIsOne, CommittedCellsShow, StandingFalls};
ghost use Rattle.law_committed.specs.Laws.{StandingShows, SoundIsCommitted, CommittedAtIsOne, CommittedAreOne};

/// However the live changes of a home are taken back, each cell ends as the cell before in the first live record of it,
/// or as it is where no live record is of it; and that is one cell, as no two transactions that run have changed the
/// same one. So the rows after all commits are those of the committed cells.
pub fn first_laws()
    ensures ends { WalkEndsCommitted }
    ensures one { CommittedCellIsOne }
    ensures rows { CommittedCellsShow }
{}

/// So it is in each home where segments and homes stand. The rows of a sound file are those of the committed cells of
/// all its homes, in scan order, and its blocks alone tell these cells, one for each. There is one such list of rows:
/// no file is sound for two.
pub fn committed_laws()
    ensures falls { StandingFalls }
    ensures homes { StandingShows }
    ensures sound { SoundIsCommitted }
    ensures cells { CommittedAtIsOne }
    ensures rows_one { CommittedAreOne }
{}
