//! What holds of a block that groups are rolled forward over, as clauses for proofs to cite. Nothing calls it.
ghost use Rattle.law_redo.specs.Laws.{RolledAgain, RolledJoined, RolledFront, RolledAbove};
ghost use Rattle.law_redo.specs.Laws.{RolledNoLower, RolledNoHigher, AfterBelow};
ghost use Rattle.law_redo.specs.Laws.{BlockAfter, BlocksAfter, AfterKeepsHead, RolledKeepsHead};

/// Groups that are rolled forward once more change nothing, and those that a block has already do no harm: so homes may
/// be newer than the head of the log, each by a number of its own. Over a block below all of them they are all made.
pub fn rolling_again()
    ensures again { RolledAgain }
    ensures joined { RolledJoined }
    ensures front { RolledFront }
    ensures above { RolledAbove }
{}

/// The number in front of a block never falls, and stays at or below the last group's.
pub fn rolling_numbers()
    ensures no_lower { RolledNoLower }
    ensures no_higher { RolledNoHigher }
    ensures below { AfterBelow }
{}

/// What groups make of all blocks they make of each by itself, its head among it.
pub fn block_by_block()
    ensures one { BlockAfter }
    ensures several { BlocksAfter }
{}

/// Groups leave the kind and the number of a block, and its length.
pub fn heads_stay()
    ensures after { AfterKeepsHead }
    ensures rolled { RolledKeepsHead }
{}
