//! What holds of the segments, homes and blocks that stand for commits and live changes, as clauses for proofs to cite.
//! Nothing calls it.
ghost use Rattle.law_blocks.specs.BlockLaws.{CleanKeepsBlocks, BackKeepsBlocks, CommitKeepsBlocks, EndKeepsBlocks};
ghost use Rattle.law_blocks.specs.BlockLaws.{CleanKeepsMachine, BackKeepsMachine, CommitKeepsMachine};
ghost use Rattle.law_blocks.specs.BlockLaws.{EndKeepsMachine, WriteKeepsMachine};
ghost use Rattle.law_blocks.specs.FirstWrite.{FirstWrite};
ghost use Rattle.law_blocks.specs.StandingLaws.{WriteStands, BackStands, CommitStands, EndStands};
ghost use Rattle.law_blocks.specs.StandingLaws.{WriteKeepsState, BackKeepsState, CommitKeepsState, EndKeepsState};
ghost use Rattle.law_blocks.specs.StandingLaws.{ForgottenStands, FreshStands, FreshStateStands, FreshIsMet};
ghost use Rattle.law_blocks.specs.StandingLaws.{OwedRises, OwedFallsByBack, OwedFallsByEnd, OwedFallsByCommit};
ghost use Rattle.law_blocks.specs.StandingLaws.{ChosenReads, AddressTellsPlace, AddressReadsRecord};
ghost use Rattle.law_blocks.specs.StandingLaws.{BlocksStandAsValues, CommitIsLogged};

/// What segments and homes stand for is kept by each kind of group: a write has one live change more, a put back one
/// less, a commit makes them the newest commit, and the end of a slot needs none to be left. The machine's state with
/// its books goes along. A new file stands, and so does one whose past is forgotten. What is owed, the groups that
/// would put back all that is live, rises and falls with the live changes. What a write chooses by its rules is what
/// keeps its home. The address of a live change reads its record in the blocks of a file. A new file can be written, so
/// what is asked of a write can be met.
pub fn standing_laws()
    ensures written { WriteStands }
    ensures put_back { BackStands }
    ensures committed { CommitStands }
    ensures ended { EndStands }
    ensures state_written { WriteKeepsState }
    ensures write_met { FirstWrite }
    ensures state_put_back { BackKeepsState }
    ensures state_committed { CommitKeepsState }
    ensures state_ended { EndKeepsState }
    ensures forgotten { ForgottenStands }
    ensures fresh { FreshStands }
    ensures state_fresh { FreshStateStands × FreshIsMet }
    ensures owed_written { OwedRises }
    ensures owed_put_back { OwedFallsByBack }
    ensures owed_ended { OwedFallsByEnd }
    ensures owed_committed { OwedFallsByCommit }
    ensures chosen { ChosenReads }
    ensures place { AddressTellsPlace }
    ensures addresses { AddressReadsRecord }
    ensures blocks { BlocksStandAsValues }
    ensures logged { CommitIsLogged }
{}

/// What the blocks of a file stand for is kept by each kind of group: a cleaning leaves it, a put back takes the newest
/// live change of a slot away, a commit makes the slot's live changes the newest commit, and the end of a slot needs
/// none to be left. The machine's state goes along, and with it a write makes its change the session's last one.
pub fn block_laws()
    ensures cleaned { CleanKeepsBlocks }
    ensures put_back { BackKeepsBlocks }
    ensures committed { CommitKeepsBlocks }
    ensures ended { EndKeepsBlocks }
    ensures state_cleaned { CleanKeepsMachine }
    ensures state_put_back { BackKeepsMachine }
    ensures state_committed { CommitKeepsMachine }
    ensures state_ended { EndKeepsMachine }
    ensures state_written { WriteKeepsMachine }
{}
