//! `Store`: the blocks of a file, read and patched by groups, as the engine and what it stands on call them.
ghost use Rattle.std.specs.Prelude.{◌≡◌, ◌+◌, ◌^◌, ◌<◌, ◌≤◌, ◌∷◌, ◌++◌, ℕ, []};
ghost use Rattle.std.specs.Prelude.{List, length};
ghost use Rattle.std.specs.Prelude.{Bool, true, false, is_some, Option, Some, OnOk};
ghost use Rattle.std.specs.Result.{is_err};
ghost use Rattle.rb_base.specs.Blocks.{block_of, after_group, after_groups, shape_blocks};
ghost use Rattle.rb_base.specs.Blocks.{AreBlocks, AreWithin, IsShape};
ghost use Rattle.rb_base.specs.Counts.{IsCounted};
ghost use Rattle.rb_base.specs.Groups.{Patch};
ghost use Rattle.rb_base.specs.Moments.{LeavesOnly};
ghost use Rattle.rb_base.specs.Stores.{OpensToSome, Settles};
ghost use Rattle.rb_base.specs.declared.shape.Shape.{Shape};

use crate::faults::Failed;
use crate::group::Group;
use crate::ids::{BlockNo, Lsn};
use crate::shape::Shape;
use crate::sizes::UNIT;

/// The blocks of a file. Each change of them is a group of patches, which has the next log number. A group waits until
/// it is made last, by a flush or by any call before: any call may make groups that wait last, in order from the first.
/// A store of which a call has failed is no more to be called.
pub trait Store {
    /// Whether it tells its blocks.
    ghost tells: { Type 0 };

    /// Whether it tells what a crash leaves. A store in memory alone keeps nothing.
    ghost keeps: { Type 0 };

    /// How many blocks of each kind there are.
    ghost shape_of: { Self → Shape };

    /// How many slots its log has, where there is an end of it.
    ghost slots: { Self → Option ℕ };

    /// The blocks as it reads them: those that are stable, patched by the groups that wait.
    ghost blocks: { Self → List (List ℕ) };

    /// The groups that wait until they are made last, the oldest first.
    ghost pending: { Self → List (List Patch) };

    /// The last log number given.
    ghost lsn: { Self → ℕ };

    /// The block that was loaded.
    ghost loaded: { Self → Option ℕ };

    /// Whether a call has answered `Failed`.
    ghost failed: { Self → Bool };

    /// How often its disk has failed, up to 2^64 - 1.
    ghost faults: { Self → ℕ };

    /// What a crash leaves, as the bytes of a file.
    ghost image: { Type 0 };

    /// What a crash now may leave.
    ghost left: { Self → image → Type 0 };

    /// This moment, a number that doesn't fall.
    ghost moment: { Self → ℕ };

    /// What a crash at some moment since that one may have left.
    ghost left_since: { Self → ℕ → image → Type 0 };

    /// From the one to the other its calls made no group last of themselves: none but those that the store itself had
    /// to.
    ghost holds_back: { Self → Self → Type 0 };

    /// To which blocks and which last log number an image opens, in a file of that shape and as many slots.
    ghost opens: { Shape → Option ℕ → image → List (List ℕ) → ℕ → Type 0 };

    /// These blocks are stable, with this last log number: each image that a crash now may leave opens to them.
    ghost stable: { Self → List (List ℕ) → ℕ → Type 0 };

    /// Its shape, which never changes.
    fn shape(&self) -> Shape
        ensures shape { result ≡ shape_of self.now }
        ensures in_range { IsShape result };

    /// Brings a block of the file, so that `block` gives it.
    fn load(&mut self, no: BlockNo) -> Result<(), Failed>
        requires going { failed self.old ≡ false }
        requires there { no < shape_blocks (shape_of self.old) }
        ensures loaded { OnOk result (loaded self.new ≡ Some no) }
        ensures shape { shape_of self.new ≡ shape_of self.old }
        ensures slots { slots self.new ≡ slots self.old }
        ensures lsn { lsn self.new ≡ lsn self.old }
        ensures blocks { tells → OnOk result (blocks self.new ≡ blocks self.old) }
        ensures whole { tells → OnOk result (AreBlocks (shape_of self.new) (blocks self.new)) }
        ensures holds_back { OnOk result (holds_back self.old self.new) }
        ensures settles { keeps → OnOk result ((b : List (List ℕ)) (n : ℕ) → stable self.old b n
            → Settles n (pending self.old) b (stable self.new) (pending self.new)) }
        ensures any_moment { keeps → (b : List (List ℕ)) (n : ℕ) → stable self.old b n
            → LeavesOnly moment left_since self.old self.new
            (OpensToSome (opens (shape_of self.old) (slots self.old)) n (pending self.old) b) }
        ensures failed { failed self.new ≡ is_err result }
        ensures counted { IsCounted (faults self.old) (faults self.new) result };

    /// The block that was loaded, 2,048 bytes. The last of the calls that change the store was a `load` that answered
    /// Ok.
    fn block(&self) -> &[u8]
        requires loaded { is_some (loaded self.now) ≡ true }
        ensures length { length result.now ≡ UNIT }
        ensures block { tells → (no : ℕ) → loaded self.now ≡ Some no
            → result.now ≡ block_of (blocks self.now) no };

    /// Patches blocks of the file by a group, to which it gives the next log number. A crash may leave the group from
    /// the call on, behind all that waited.
    fn apply(&mut self, group: &Group) -> Result<(), Failed>
        requires going { failed self.old ≡ false }
        requires some { 0 < length group.now }
        requires within { AreWithin (shape_of self.old) group.now }
        requires few { lsn self.old < 2 ^ 62 }
        ensures lsn { OnOk result (lsn self.new ≡ lsn self.old + 1) }
        ensures blocks { tells → OnOk result (blocks self.new
            ≡ after_group (lsn self.old + 1) group.now (blocks self.old)) }
        ensures holds_back { OnOk result (holds_back self.old self.new) }
        ensures settles { keeps → OnOk result ((b : List (List ℕ)) (n : ℕ) → stable self.old b n
            → Settles n (pending self.old ++ group.now ∷ []) b (stable self.new) (pending self.new)) }
        ensures any_moment { keeps → (b : List (List ℕ)) (n : ℕ) → stable self.old b n
            → LeavesOnly moment left_since self.old self.new
            (OpensToSome (opens (shape_of self.old) (slots self.old)) n (pending self.old ++ group.now ∷ []) b) }
        ensures shape { shape_of self.new ≡ shape_of self.old }
        ensures slots { slots self.new ≡ slots self.old }
        ensures failed { failed self.new ≡ is_err result }
        ensures counted { IsCounted (faults self.old) (faults self.new) result };

    /// Makes the groups that wait last. After an Ok none waits, and a crash leaves all of them. Where it is stopped, a
    /// crash leaves some of them, in order from the first.
    fn flush(&mut self) -> Result<(), Failed>
        requires going { failed self.old ≡ false }
        ensures flushed { keeps → OnOk result (pending self.new ≡ []) }
        ensures settles { keeps → OnOk result ((b : List (List ℕ)) (n : ℕ) → stable self.old b n
            → Settles n (pending self.old) b (stable self.new) (pending self.new)) }
        ensures any_moment { keeps → (b : List (List ℕ)) (n : ℕ) → stable self.old b n
            → LeavesOnly moment left_since self.old self.new
            (OpensToSome (opens (shape_of self.old) (slots self.old)) n (pending self.old) b) }
        ensures shape { shape_of self.new ≡ shape_of self.old }
        ensures slots { slots self.new ≡ slots self.old }
        ensures lsn { lsn self.new ≡ lsn self.old }
        ensures blocks { tells → OnOk result (blocks self.new ≡ blocks self.old) }
        ensures failed { failed self.new ≡ is_err result }
        ensures counted { IsCounted (faults self.old) (faults self.new) result };

    /// Does what `flush` does, and makes the log short where the store can.
    fn checkpoint(&mut self) -> Result<(), Failed>
        requires going { failed self.old ≡ false }
        ensures flushed { keeps → OnOk result (pending self.new ≡ []) }
        ensures settles { keeps → OnOk result ((b : List (List ℕ)) (n : ℕ) → stable self.old b n
            → Settles n (pending self.old) b (stable self.new) (pending self.new)) }
        ensures any_moment { keeps → (b : List (List ℕ)) (n : ℕ) → stable self.old b n
            → LeavesOnly moment left_since self.old self.new
            (OpensToSome (opens (shape_of self.old) (slots self.old)) n (pending self.old) b) }
        ensures shape { shape_of self.new ≡ shape_of self.old }
        ensures slots { slots self.new ≡ slots self.old }
        ensures lsn { lsn self.new ≡ lsn self.old }
        ensures blocks { tells → OnOk result (blocks self.new ≡ blocks self.old) }
        ensures failed { failed self.new ≡ is_err result }
        ensures counted { IsCounted (faults self.old) (faults self.new) result };

    /// The last log number given. Each `apply` that answers Ok adds 1, and no other call changes it.
    fn logged(&self) -> Lsn
        ensures { result ≡ lsn self.now };

    /// An image that a crash now may leave opens to what is stable.
    ghost stable_left: { (store : Self) (b : List (List ℕ)) (n : ℕ) (i : image) → keeps → stable store b n
        → left store i
        → opens (shape_of store) (slots store) i b n };

    /// The groups that wait have the numbers behind it.
    ghost stable_numbered: { (store : Self) (b : List (List ℕ)) (n : ℕ) → keeps → stable store b n
        → n + length (pending store) ≡ lsn store };

    /// Patched by the groups that wait it is what the store reads.
    ghost stable_patched: { (store : Self) (b : List (List ℕ)) (n : ℕ) → keeps → stable store b n
        → blocks store ≡ after_groups (n + 1) (pending store) b };

    /// This moment is one of those since an earlier one.
    ghost now_counts: { (store : Self) (t : ℕ) (i : image) → keeps → t ≤ moment store → left store i
        → left_since store t i };

    /// Where no call is made, none is made last.
    ghost holds_back_same: { (store : Self) → holds_back store store };

    /// What two runs of calls held back, both together did.
    ghost holds_back_joined: { (a b c : Self) → holds_back a b → holds_back b c → holds_back a c };

    /// Since this moment there is no other.
    ghost only_now: { (store : Self) (i : image) → keeps → left_since store (moment store) i → left store i };
}
