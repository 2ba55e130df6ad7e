//! What holds of segments as they grow older, and of homes that are kept meanwhile, as clauses for proofs to cite.
//! Nothing calls it.
ghost use Rattle.law_aging.specs.Laws.{WriteAges, BackAges, CommitAges, EndAges, AgesSame, AgesJoin};
ghost use Rattle.law_aging.specs.Laws.{AgesKeepCopy, CommitKeepsCopy};

/// Each kind of group leaves the segments older, and so do no group and many. A kept home stands for what it stood for
/// as they do, whichever block is patched, and as a session commits.
pub fn aging_laws()
    ensures written { WriteAges }
    ensures put_back { BackAges }
    ensures committed { CommitAges }
    ensures ended { EndAges }
    ensures same { AgesSame }
    ensures joined { AgesJoin }
    ensures kept { AgesKeepCopy }
    ensures outlives { CommitKeepsCopy }
{}
