//! What holds of the changes of one home, as clauses for proofs to cite. Nothing calls it.
ghost use Rattle.law_home.specs.Laws.{FreshStands, CleanedStands, WrittenStands, PutBackStands, CommittedStands};
ghost use Rattle.law_home.specs.Laws.{AgedStands, LooksMakeAges, EndsAtOneHome, ShowsRows, AnewStands, HeldIsLocked};
ghost use Rattle.law_home.specs.Laws.{HeldByOne, LockedIsHeld, RowsByHome, LivesByHome, ChangesByHome, ShowsLive};

/// An empty home stands, and it stands after each step: as it is cleaned, written or put back, as a session commits,
/// and as records go and looks age. Its cells have the rows after all commits with the live changes over them, and as
/// those are taken back it ends at one home. A key with live changes is locked in its cell by the one session that
/// holds it. What concerns a home follows from its own changes alone.
pub fn walk_laws()
    ensures fresh { FreshStands }
    ensures cleaned { CleanedStands }
    ensures written { WrittenStands }
    ensures put_back { PutBackStands }
    ensures committed { CommittedStands }
    ensures aged { AgedStands }
    ensures looks { LooksMakeAges }
    ensures end { EndsAtOneHome }
    ensures rows { ShowsLive × ShowsRows }
    ensures anew { AnewStands }
    ensures held { HeldIsLocked × HeldByOne × LockedIsHeld }
    ensures home { RowsByHome × LivesByHome × ChangesByHome }
{}
