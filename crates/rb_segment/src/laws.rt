//! What holds of the numbers in every file's headers, and of the moves of every segment, as clauses for proofs to cite.
//! Nothing calls them.
ghost use Rattle.std.specs.Prelude.{◌≡◌, ℕ, ◌<◌, ◌≤◌, List};
ghost use Rattle.rb_base.specs.declared.shape.Shape.{Shape};
ghost use Rattle.std.specs.List.{AllByRecursion};
ghost use Rattle.rb_base.specs.Blocks.{block_of, after_group, header_block, shape_blocks, written_to};
ghost use Rattle.rb_base.specs.Blocks.{AreBlocks, StaysBehind};
ghost use Rattle.rb_base.specs.Groups.{Patch};
ghost use Rattle.rb_segment.specs.Header.{header_of};
ghost use Rattle.rb_txntable.specs.Slots.{slot_newest};
ghost use Rattle.rb_segment.specs.MoveLaws as moves;
ghost use Rattle.rb_segment.specs.Segments.{commit_scn};

use crate::headers::SEGMENTS;
use crate::record::{RECORD_BYTES, TURN_BYTES};
use rb_base::SLOTS;

/// The commit number of a file is the least that no table slot's newest is above.
pub fn commit_greatest()
    ensures none_above { (shape : Shape) (blocks : List (List ℕ)) (g i : ℕ) → g < shape.segments → i < SLOTS
        → slot_newest (block_of blocks (header_block shape g)) i ≤ commit_scn shape blocks }
    ensures least { (shape : Shape) (blocks : List (List ℕ)) (n : ℕ)
        → ((g i : ℕ) → g < shape.segments → i < SLOTS → slot_newest (block_of blocks (header_block shape g)) i
        ≤ n) → commit_scn shape blocks ≤ n }
{}

/// After a group of patches a header says what its block says with the patches of that block written over it. So a call
/// that moves a copy of a header, and adds the same bytes to a group, tells what the file's header is after that group.
pub fn header_changed()
    ensures { (shape : Shape) (blocks : List (List ℕ)) (number which : ℕ) (patches : List Patch)
        → AreBlocks shape blocks → which < shape_blocks shape → AllByRecursion StaysBehind patches
        → header_of (block_of (after_group number patches blocks) which)
        ≡ header_of (written_to which patches (block_of blocks which)) }
{}

/// A file has at most sixteen segments.
pub fn most_segments()
    ensures most { SEGMENTS ≡ 16 }
{}

/// How many bytes of a group the patches of a turn take, and those of a record with its slot, head and count.
pub fn group_sizes()
    ensures turn { TURN_BYTES ≡ 52 }
    ensures record { RECORD_BYTES ≡ 300 }
{}

/// Which records a segment has after each move: an added one is the next, a turn drops those of its extent's old turn,
/// and nothing else changes what record a number names. The extents stay a ring.
pub fn records_told()
    ensures added { moves.AddedIsNext }
    ensures added_others { moves.AddedLeavesOthers }
    ensures turned { moves.TurnedDropsOld }
    ensures turned_others { moves.TurnedLeavesOthers }
    ensures others { moves.OtherMovesLeaveRecords }
    ensures turned_ring { moves.TurnedIsRing }
    ensures added_ring { moves.AddedIsRing }
{}

/// Each move only ages its segment: what it tells a reader afterwards, it told before or has become a bound of it, and
/// a transaction that goes on keeps its records. A commit gives its transaction that number.
pub fn ages_told()
    ensures claimed { moves.ClaimAges }
    ensures turned { moves.TurnAges }
    ensures added { moves.AddAges }
    ensures written { moves.WriteAges }
    ensures put_back { moves.BackAges }
    ensures ended { moves.EndAges }
    ensures committed { moves.CommitCommits }
{}

/// Each move of a header is one of the book that it tells, and the header says as the book does when the book is full
/// and which slot a transaction takes.
pub fn books_told()
    ensures claimed { moves.ClaimedTellsTaken }
    ensures needs { moves.NeedsWhereFull }
    ensures turned { moves.TurnedTellsTurned }
    ensures added { moves.AddedTellsMark }
    ensures written { moves.WrittenTellsMarked }
    ensures committed { moves.CommittedTellsFinished }
    ensures ended { moves.EndedTellsLeft }
    ensures put_back { moves.BackTellsSame }
    ensures full { moves.FullWhereNoneMayTurn }
    ensures next_full { moves.FullIsNextFull }
    ensures chosen { moves.ClaimsFirstFree }
{}

/// A new file's segments are in order and tell the book of a new file, and so does each header in order tell a book,
/// where no transaction runs.
pub fn first_books()
    ensures in_order { moves.FreshInOrder }
    ensures fresh { moves.FreshTellsFresh }
    ensures idle { moves.IdleTellsBook }
{}
