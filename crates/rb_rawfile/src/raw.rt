//! `RawFile`: what a system does with the bytes of a file. `FileDisk` makes a disk of one.
ghost use Rattle.std.specs.Prelude.{◌≡◌, ◌+◌, ◌-◌, ◌^◌, ◌<◌, ◌≤◌, ℕ, List, length, min};
ghost use Rattle.std.specs.Prelude.{IfOk, OnOk, OnErr};
ghost use Rattle.rb_base.specs.Fields.{part};
ghost use Rattle.rb_base.specs.Moments.{NoMore, Passes};
ghost use Rattle.rb_disk.specs.DiskModel.{Torn, Follows};
ghost use Rattle.rb_rawfile.specs.RawModel.{Began, HasLength, IsSettled, Wrote, with_range_of};

use crate::Cause;

/// A file as systems have it. A crash may leave any byte in a place that was written since the last sync that
/// succeeded: that place is unsettled. A sync that fails may lose what was written there: what is read stays, and a
/// later sync answers Ok without writing it, unless it is written again before.
pub trait RawFile {
    /// Whether it tells its bytes. Where it doesn't, nothing is said of it.
    ghost tells: { Type 0 };

    /// The bytes that it reads as.
    ghost content: { Self → List ℕ };

    /// The images that a crash now may leave.
    ghost image: { Self → List ℕ → Type 0 };

    /// This moment, a number that doesn't fall.
    ghost moment: { Self → ℕ };

    /// The images that a crash at some moment since that one may have left.
    ghost image_since: { Self → ℕ → List ℕ → Type 0 };

    /// The places that a crash may leave with any byte.
    ghost unsettled: { Self → ℕ → Type 0 };

    /// The places that no sync settles before they are written again.
    ghost lost: { Self → ℕ → Type 0 };

    /// How many of its calls have failed, up to 2^64 - 1.
    ghost faults: { Self → ℕ };

    /// How many bytes there are.
    fn len(&mut self) -> Result<u64, Cause>
        ensures value { tells → IfOk result (λ n. n ≡ length (content self.old)) }
        ensures content { tells → content self.new ≡ content self.old }
        ensures images { tells → NoMore (image self.old) (image self.new) }
        ensures time { tells → Passes (moment self.old) (moment self.new) (image_since self.old)
            (image_since self.new) (image self.new) }
        ensures places { tells → NoMore (unsettled self.old) (unsettled self.new) }
        ensures losses { tells → NoMore (lost self.old) (lost self.new) }
        ensures faulted { tells → OnErr result (faults self.new ≡ min (faults self.old + 1) (2 ^ 64 - 1)) }
        ensures no_fault { tells → OnOk result (faults self.new ≡ faults self.old) };

    /// Reads as many bytes as `into` has, from `at`, or fails.
    fn read_at(&mut self, at: u64, into: &mut [u8]) -> Result<(), Cause>
        ensures value { tells → OnOk result (into.new ≡ part (content self.old) at (length into.old)) }
        ensures content { tells → content self.new ≡ content self.old }
        ensures images { tells → NoMore (image self.old) (image self.new) }
        ensures time { tells → Passes (moment self.old) (moment self.new) (image_since self.old)
            (image_since self.new) (image self.new) }
        ensures places { tells → NoMore (unsettled self.old) (unsettled self.new) }
        ensures losses { tells → NoMore (lost self.old) (lost self.new) }
        ensures faulted { tells → OnErr result (faults self.new ≡ min (faults self.old + 1) (2 ^ 64 - 1)) }
        ensures no_fault { tells → OnOk result (faults self.new ≡ faults self.old) };

    /// Writes all the bytes over what is there and past the end, or a first part of them and fails. It begins within
    /// the length or at it. Either way the whole range is unsettled. But bytes that are what is read there change
    /// nothing: a crash may leave no more, and no place is unsettled that wasn't.
    fn write_at(&mut self, at: u64, bytes: &[u8]) -> Result<(), Cause>
        requires { tells → at ≤ length (content self.old) }
        ensures written { tells → OnOk result (Wrote at bytes.now (content self.old) (content self.new)
            (lost self.old) (lost self.new)) }
        ensures begun { tells → OnErr result (Began at bytes.now (content self.old) (content self.new)
            (lost self.old) (lost self.new)) }
        ensures images { tells → Follows (Torn at (length bytes.now)) (image self.old) (image self.new) }
        ensures time { tells → Passes (moment self.old) (moment self.new) (image_since self.old)
            (image_since self.new) (image self.new) }
        ensures places { tells → NoMore (with_range_of at (length bytes.now) (unsettled self.old))
            (unsettled self.new) }
        ensures same { tells → bytes.now ≡ part (content self.old) at (length bytes.now)
            → NoMore (image self.old) (image self.new) }
        ensures same_places { tells → bytes.now ≡ part (content self.old) at (length bytes.now)
            → NoMore (unsettled self.old) (unsettled self.new) }
        ensures faulted { tells → OnErr result (faults self.new ≡ min (faults self.old + 1) (2 ^ 64 - 1)) }
        ensures no_fault { tells → OnOk result (faults self.new ≡ faults self.old) };

    /// Settles the bytes that are read, but for what was lost. Says nothing of the length.
    fn sync(&mut self) -> Result<(), Cause>
        ensures settled { tells → OnOk result (IsSettled (lost self.old) (content self.old) (image self.new)) }
        ensures content { tells → content self.new ≡ content self.old }
        ensures images { tells → NoMore (image self.old) (image self.new) }
        ensures time { tells → Passes (moment self.old) (moment self.new) (image_since self.old)
            (image_since self.new) (image self.new) }
        ensures places { tells → OnOk result (NoMore (lost self.old) (unsettled self.new)) }
        ensures losses { tells → OnOk result (NoMore (lost self.old) (lost self.new)) }
        ensures unsettled { tells → OnErr result (NoMore (unsettled self.old) (unsettled self.new)) }
        ensures may_lose { tells → OnErr result (NoMore (unsettled self.old) (lost self.new)) }
        ensures faulted { tells → OnErr result (faults self.new ≡ min (faults self.old + 1) (2 ^ 64 - 1)) }
        ensures no_fault { tells → OnOk result (faults self.new ≡ faults self.old) };

    /// Settles the length too, and that the folder has the file under its name.
    fn sync_all(&mut self) -> Result<(), Cause>
        ensures settled { tells → OnOk result (IsSettled (lost self.old) (content self.old) (image self.new)) }
        ensures long { tells → OnOk result (HasLength (length (content self.old)) (image self.new)) }
        ensures content { tells → content self.new ≡ content self.old }
        ensures images { tells → NoMore (image self.old) (image self.new) }
        ensures time { tells → Passes (moment self.old) (moment self.new) (image_since self.old)
            (image_since self.new) (image self.new) }
        ensures places { tells → OnOk result (NoMore (lost self.old) (unsettled self.new)) }
        ensures losses { tells → OnOk result (NoMore (lost self.old) (lost self.new)) }
        ensures unsettled { tells → OnErr result (NoMore (unsettled self.old) (unsettled self.new)) }
        ensures may_lose { tells → OnErr result (NoMore (unsettled self.old) (lost self.new)) }
        ensures faulted { tells → OnErr result (faults self.new ≡ min (faults self.old + 1) (2 ^ 64 - 1)) }
        ensures no_fault { tells → OnOk result (faults self.new ≡ faults self.old) };

    /// What is lost is unsettled.
    ghost loses_unsettled: { (file : Self) (place : ℕ) → tells → lost file place → unsettled file place };

    /// A file has fewer than 2^63 bytes.
    ghost fits: { (file : Self) → tells → length (content file) < 2 ^ 63 };

    /// What it reads as is one of its images.
    ghost reads_an_image: { (file : Self) → tells → image file (content file) };

    /// This moment is one of those since an earlier one.
    ghost now_counts: { (file : Self) (t : ℕ) (c : List ℕ) → tells → t ≤ moment file → image file c
        → image_since file t c };

    /// Since this moment there is no other.
    ghost only_now: { (file : Self) (c : List ℕ) → tells → image_since file (moment file) c → image file c };
}
