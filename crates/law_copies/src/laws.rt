//! What holds of a table of kept homes as the engine's calls change the blocks of a file, as clauses for proofs to
//! cite. Nothing calls it.
ghost use Rattle.law_copies.specs.Laws.{NoneStand, SameKeeps, AgesKeep, BackAges, EndAges};
ghost use Rattle.law_copies.specs.Laws.{WriteKeeps, BackKeeps, CommitKeeps, EndKeeps, BuildKeeps, StandsFor};

/// Each home that is kept stands for what the state had there, whatever a call makes of the blocks: a write, the put
/// back of a change, a commit, the end of a transaction, or one that leaves the segments as they are. So do those that
/// a reader's build leaves, and its history has them.
pub fn outliving_laws()
    ensures none { NoneStand }
    ensures same { SameKeeps }
    ensures aged { AgesKeep }
    ensures back_ages { BackAges }
    ensures end_ages { EndAges }
    ensures written { WriteKeeps }
    ensures put_back { BackKeeps }
    ensures committed { CommitKeeps }
    ensures ended { EndKeeps }
    ensures built { BuildKeeps }
    ensures stands { StandsFor }
{}
