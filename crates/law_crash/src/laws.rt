//! What holds of images, as clauses for proofs to cite. Nothing calls it.
ghost use Rattle.std.specs.Prelude.{◌≡◌, ◌≢◌, ◌≤◌, ℕ, List, Option, Some, false};
ghost use Rattle.rb_base.specs.declared.ids.Xid.{Xid};
ghost use Rattle.law_crash.specs.Between.{IsCommit};
ghost use Rattle.law_crash.specs.Crash.{AtEnd, Restarts, Survives};
ghost use Rattle.law_crash.specs.Keeps.{BackKeeps, CleanKeeps, CommitKeeps, EndKeeps, WriteKeeps};
ghost use Rattle.law_crash.specs.ImageLaws.{LaterHasCommits, LaterHasState, StandingHasState, StateIsSeen};
ghost use Rattle.rb_model.specs.Calls.{Action, Call, Write};
ghost use Rattle.rb_model.specs.Rows.{last_scn, rows_at};
ghost use Rattle.rb_model.specs.State.{State};
ghost use Rattle.rb_segment.specs.Segments.{commit_scn};
ghost use Rattle.law_blocks.specs.Standing.{SoundAs};
ghost use Rattle.law_blocks.specs.States.{BlocksStand};

use rb_base::Store;

/// Blocks that stand for a state have the rows after its commits, once what is under way is put back, and so they have
/// the state. A later state has all commits of an earlier one, and what blocks have of that. What blocks have tells
/// which rows and how great marks are found in them.
pub fn image_laws()
    ensures sound { (h : State) (xids : List Xid) (blocks : List (List ℕ)) → BlocksStand h xids blocks
        → commit_scn h.shape blocks ≡ last_scn h.commits
        → SoundAs h.shape blocks (last_scn h.commits) (rows_at h.shape.blocks h.commits (last_scn h.commits)) }
    ensures had { StandingHasState }
    ensures later { LaterHasState }
    ensures commits { LaterHasCommits }
    ensures seen { StateIsSeen }
{}

/// What slot entries tell isn't forgotten. A commit and an end leave every block of rows as it is. A put back changes
/// one entry, to what its record keeps; a write takes one over, and cleans others of its home; a cleaning cleans those
/// of its block. So an entry that tells a number goes on telling it, but for the one that a write takes over or a put
/// back gives back.
pub fn keep_laws()
    ensures commit { CommitKeeps }
    ensures end { EndKeeps }
    ensures back { BackKeeps }
    ensures write { WriteKeeps }
    ensures clean { CleanKeeps }
{}

/// An image of an engine that goes on restarts to its state, and so does one of an engine that a fault stopped in
/// a call that is neither a commit nor a write. What calls leave one after the other, the second of an engine that goes
/// on, is what they leave together.
pub fn crash_laws<S: Store>()
    ensures whole { (slots : Option ℕ) (fault : Option Call) (h : State) (i : S.image) → h.stopped ≡ false
        → AtEnd S.opens slots fault h i → Restarts S.opens slots h i }
    ensures other { (slots : Option ℕ) (fault : Option Call) (h : State) (i : S.image)
        → ((s : ℕ) → ¬ IsCommit s fault)
        → ((s table key : ℕ) (action : Action) → fault ≢ Some (Write s table key action))
        → AtEnd S.opens slots fault h i → Restarts S.opens slots h i }
    ensures joined { (slots : Option ℕ) (first fault : Option Call) (h m h2 : State) (old mid new : S)
        → m.stopped ≡ false → Survives S.Store slots first h m old mid
        → Survives S.Store slots fault m h2 mid new → Survives S.Store slots fault h h2 old new }
{}
