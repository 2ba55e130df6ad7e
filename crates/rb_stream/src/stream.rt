//! `Source` and `Sink`: one call each that moves bytes, with its meaning. The shell reads the script and writes the
//! replies by them.
ghost use Rattle.std.specs.Prelude.{ℕ, ◌≤◌, List, length, IfOk};
ghost use Rattle.rb_base.specs.Counts.{IsCounted};
ghost use Rattle.rb_stream.specs.StreamModel.{Takes, Puts};

use rb_base::Failed;

/// Bytes that come.
pub trait Source {
    /// Whether it tells its bytes. Where it doesn't, only the count of faults has a meaning.
    ghost tells: { Type 0 };

    /// The bytes that are left.
    ghost left: { Self → List ℕ };

    /// How often it has failed, up to 2^64 - 1.
    ghost faults: { Self → ℕ };

    /// Takes the first bytes that are left into the front of a buffer, and answers how many: at most the
    /// buffer's length, and for a buffer with room 0 only at the end. A failed call takes none.
    fn take(&mut self, into: &mut [u8]) -> Result<usize, Failed>
        ensures taken { tells → Takes (left self.old) (left self.new) into.old into.new result }
        ensures within { IfOk result (λ n. n ≤ length into.old) }
        ensures counted { IsCounted (faults self.old) (faults self.new) result };
}

/// Bytes that go.
pub trait Sink {
    /// Whether it tells its bytes. Where it doesn't, only the count of faults has a meaning.
    ghost tells: { Type 0 };

    /// The bytes that it holds.
    ghost held: { Self → List ℕ };

    /// How often it has failed, up to 2^64 - 1.
    ghost faults: { Self → ℕ };

    /// Adds a piece at the end. A failed call adds a front of it.
    fn put(&mut self, bytes: &[u8]) -> Result<(), Failed>
        ensures added { tells → Puts (held self.old) (held self.new) bytes.now result }
        ensures counted { IsCounted (faults self.old) (faults self.new) result };

    /// Shows whoever watches how far a long run is: so many of so many commands are done. That adds nothing to the
    /// bytes, and nothing depends on it.
    fn show_progress(&self, done: u32, all: u32);
}
