//! What holds of a home that is read at a snapshot, as clauses for proofs to cite. Nothing calls it.
ghost use Rattle.law_read.specs.Laws.{StandingIsRead, FirstAreFew, LiveBegin, QuietIsPassed, ActiveIsTakenBack};
ghost use Rattle.law_read.specs.Laws.{LiveAreTakenBack, CommitsBegin, CommitIsTakenBack, NoneAboveIsRead};
ghost use Rattle.law_read.specs.Laws.{BoundIsWorn, CellsShowRows, QuietIsRead};
ghost use Rattle.law_read.specs.Laws.{WatchBegins, WatchedBoundIsWorn, CommitIsWatched, NoneAboveIsLate};
ghost use Rattle.law_read.specs.Laws.{QuietIsOld, StepsShorten};
ghost use Rattle.law_read.specs.CopyLaws.{CopyAges, CopyBegins, CopyIsRead, CopyIsWorn, CopyOutlivesCommit};
ghost use Rattle.law_read.specs.CopyLaws.{CopyShows, EndIsCopied, NoneIsUnseen, UnseenIsPlain};

/// Each record that is taken back makes its chain shorter or ends it, over whatever bytes. A home that stands can be
/// read. The live changes are taken back entry by entry, and none of their records is gone;
/// then the commits above the snapshot, the greatest number first. In the end the cells show the rows at the snapshot,
/// what is kept lies over them as the reader's first changes do, and as many records were taken back as changes stand
/// above the snapshot. Where that can't be done, a segment lost what was needed, above the snapshot. A home in which
/// nothing is active or above the snapshot shows these rows as it is. The chains of the commits above it also tell
/// which of these was the first to change a key: the last one that is seen to do so.
pub fn rebuild_laws()
    ensures shorter { StepsShorten }
    ensures read { StandingIsRead × FirstAreFew }
    ensures live { LiveBegin × QuietIsPassed }
    ensures active { ActiveIsTakenBack }
    ensures taken_back { LiveAreTakenBack }
    ensures commits { CommitsBegin }
    ensures commit { CommitIsTakenBack }
    ensures answered { NoneAboveIsRead }
    ensures bound { BoundIsWorn }
    ensures shown { CellsShowRows }
    ensures quiet { QuietIsRead }
    ensures watch { WatchBegins × WatchedBoundIsWorn }
    ensures watched { CommitIsWatched }
    ensures late { NoneAboveIsLate × QuietIsOld }
{}

/// A home from which all above a number was taken back can be kept at that number. It shows the rows at it, and can be
/// taken further back as the block can: to the same rows, by the records that are left, and where that can't be done
/// the block can't be taken back either. It stays so, whatever is written to its block: as records go, as looks become
/// bounds, and as commits are made. A reader that has no changes in the block sees these rows alone.
pub fn copy_laws()
    ensures made { EndIsCopied }
    ensures shown { CopyShows }
    ensures begins { CopyBegins }
    ensures read { CopyIsRead }
    ensures worn { CopyIsWorn }
    ensures aged { CopyAges }
    ensures committed { CopyOutlivesCommit }
    ensures plain { UnseenIsPlain }
    ensures unseen { NoneIsUnseen }
{}
