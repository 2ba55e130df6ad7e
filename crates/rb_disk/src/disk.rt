//! `Disk`: four calls of a device and their meaning. The layout, the log and the shell call it.
ghost use Rattle.std.specs.Prelude.{◌≡◌, ◌+◌, ◌≤◌, ℕ, List, length, IfOk, OnOk, OnErr};
ghost use Rattle.rb_base.specs.Counts.{IsCounted};
ghost use Rattle.rb_base.specs.Fields.{part, overwritten};
ghost use Rattle.rb_base.specs.Moments.{NoMore, Passes};
ghost use Rattle.rb_disk.specs.DiskModel.{Torn, Follows, Only};

use rb_base::Failed;

/// A device of bytes. Between two syncs a crash may leave any bytes in each range that was written, and of a
/// file that grew any length from the last synced one to the longest written. A sync that succeeds leaves only
/// what is read. A write that fails counts as written; any other call that fails leaves all as it was.
pub trait Disk {
    /// Whether it tells its bytes. Where it doesn't, only the count of faults has a meaning.
    ghost tells: { Type 0 };

    /// The bytes that it reads as.
    ghost content: { Self → List ℕ };

    /// The images that a crash now may leave.
    ghost image: { Self → List ℕ → Type 0 };

    /// This moment, a number that doesn't fall.
    ghost moment: { Self → ℕ };

    /// The images that a crash at some moment since that one may have left.
    ghost image_since: { Self → ℕ → List ℕ → Type 0 };

    /// How often it has failed, up to 2^64 - 1.
    ghost faults: { Self → ℕ };

    /// How many bytes there are.
    fn len(&mut self) -> Result<u64, Failed>
        ensures value { tells → IfOk result (λ n. n ≡ length (content self.old)) }
        ensures content { tells → content self.new ≡ content self.old }
        ensures images { tells → NoMore (image self.old) (image self.new) }
        ensures time { tells → Passes (moment self.old) (moment self.new) (image_since self.old)
            (image_since self.new) (image self.new) }
        ensures counted { IsCounted (faults self.old) (faults self.new) result };

    /// Reads as many bytes as `into` has, from `at`. They lie within the length.
    fn read_at(&mut self, at: u64, into: &mut [u8]) -> Result<(), Failed>
        requires { tells → at + length into.old ≤ length (content self.old) }
        ensures value { tells → OnOk result (into.new ≡ part (content self.old) at (length into.old)) }
        ensures content { tells → content self.new ≡ content self.old }
        ensures images { tells → NoMore (image self.old) (image self.new) }
        ensures time { tells → Passes (moment self.old) (moment self.new) (image_since self.old)
            (image_since self.new) (image self.new) }
        ensures counted { IsCounted (faults self.old) (faults self.new) result };

    /// Writes over what is there and past the end. It begins within the length or at it. Until a sync answers
    /// Ok, a crash may leave any bytes in the range.
    fn write_at(&mut self, at: u64, bytes: &[u8]) -> Result<(), Failed>
        requires { tells → at ≤ length (content self.old) }
        ensures written { tells → OnOk result (content self.new ≡ overwritten (content self.old) at bytes.now) }
        ensures torn { tells → OnErr result (Torn at (length bytes.now) (content self.old) (content self.new)) }
        ensures images { tells → Follows (Torn at (length bytes.now)) (image self.old) (image self.new) }
        ensures time { tells → Passes (moment self.old) (moment self.new) (image_since self.old)
            (image_since self.new) (image self.new) }
        ensures counted { IsCounted (faults self.old) (faults self.new) result };

    /// After an Ok a crash leaves what is read.
    fn sync(&mut self) -> Result<(), Failed>
        ensures durable { tells → OnOk result (Only (content self.old) (image self.new)) }
        ensures content { tells → content self.new ≡ content self.old }
        ensures images { tells → NoMore (image self.old) (image self.new) }
        ensures time { tells → Passes (moment self.old) (moment self.new) (image_since self.old)
            (image_since self.new) (image self.new) }
        ensures counted { IsCounted (faults self.old) (faults self.new) result };

    /// What it reads as is one of its images.
    ghost reads_an_image: { (disk : Self) → tells → image disk (content disk) };

    /// This moment is one of those since an earlier one.
    ghost now_counts: { (disk : Self) (t : ℕ) (c : List ℕ) → tells → t ≤ moment disk → image disk c
        → image_since disk t c };

    /// Since this moment there is no other.
    ghost only_now: { (disk : Self) (c : List ℕ) → tells → image_since disk (moment disk) c → image disk c };
}
