//! `Unsynced`: what may have been written since the last sync. `FileDisk` writes it again where a sync fails.
ghost use Rattle.std.specs.Prelude.{◌≡◌, ◌<◌, ◌≤◌, ◌↔◌, ℕ, IsTrue, All, length};
ghost use Rattle.rb_filedisk.specs.Faults.{InPieces, RoseBy, Tells, lost_of};
ghost use Rattle.rb_filedisk.specs.Unsynced.{written, touches, joined};

use crate::rewrite::write_range_again;
use arrayvec::ArrayVec;
use rb_rawfile::RawFile;

/// The bytes from an offset up to another one.
#[derive(Clone, Copy, Default)]
pub struct Range {
    /// The offset of the first byte.
    pub start: u64,
    /// The offset just past the last byte.
    pub end: u64,
}

impl Range {
    // So many bytes from an offset on.
    fn of_write(at: u64, count: usize) -> Range
        ensures { result ≡ written at count }
    {
        Range {
            start: at,
            end: at.saturating_add(count as u64),
        }
    }

    // Whether two ranges overlap or follow each other, so that no byte lies between them.
    fn touches(self, other: Range) -> bool
        ensures { result ≡ touches self other }
    {
        self.start <= other.end && other.start <= self.end
    }

    // The bytes of two ranges, and those between them.
    fn span_with(self, other: Range) -> Range
        ensures { result ≡ joined self other }
    {
        Range {
            start: self.start.min(other.start),
            end: self.end.max(other.end),
        }
    }
}

/// The bytes that may be unsettled, as up to 128 ranges in the order of their writes.
#[derive(Drop)]
pub struct Unsynced {
    ranges: ArrayVec<Range, 128>,
}

impl Unsynced {
    ghost use Rattle.rb_filedisk.specs.Rests.{Rests};
    ghost use Rattle.rb_filedisk.specs.Unsynced.{ranges_of, HasOne, IsNothing, IsWhole, IsWith};

    /// Every byte that a file may have.
    pub fn whole() -> Self
        ensures { IsWhole result }
    {
        let mut ranges = ArrayVec::new();
        ranges.push(Range {
            start: 0,
            end: u64::MAX,
        });
        Unsynced { ranges }
    }

    /// Takes in so many bytes from an offset on.
    pub fn add(&mut self, at: u64, count: usize)
        ensures { IsWith at count self.old self.new }
    {
        let written = Range::of_write(at, count);
        let full = self.ranges.is_full();
        match self.ranges.pop() {
            // Where there is no room the last range grows over the gap, so that no byte is forgotten. The gap is
            // written again with it: bytes that are there already change nothing.
            Some(last) if full || last.touches(written) => {
                self.ranges.push(last.span_with(written));
            }
            Some(last) => {
                self.ranges.push(last);
                self.ranges.push(written);
            }
            None => self.ranges.push(written),
        }
    }

    /// Forgets every byte.
    pub fn forget(&mut self)
        ensures { IsNothing self.new }
    {
        self.ranges.clear();
    }

    /// Whether no byte lies past this length.
    pub fn is_within(&self, len: u64) -> bool
        ensures { IsTrue result ↔ All (λ range. range.end ≤ len) (ranges_of self.now) }
    {
        self.ranges.as_slice().iter().all(|range| range.end <= len)
    }

    /// Reads the bytes, as far as a file of this length goes, and writes them again. After a sync that failed the
    /// system counts them as written, and the next sync would answer Ok without writing them; now it writes them.
    /// Whether all of them were: what can't be read isn't written. Behind a fault it goes on, with the next piece.
    pub fn write_again<F: RawFile>(&self, len: u64, file: &mut F) -> bool
        requires { F.tells → len ≡ length (F.content file.old) }
        ensures rests { F.tells → Rests F.RawFile file.old file.new }
        ensures found { F.tells → IsTrue result → (place : ℕ)
            → lost_of (HasOne (ranges_of self.now)) len (F.lost file.new) place → ⊥ }
        ensures counted { F.tells → Tells (F.faults file.old) (F.faults file.new) result }
        ensures others { F.tells → (n : ℕ) → RoseBy n (F.faults file.old) (F.faults file.new)
            → InPieces n (lost_of (HasOne (ranges_of self.now)) len (F.lost file.new)) }
    {
        let mut all = true;
        for range in self.ranges.as_slice() {
            all = write_range_again(*range, len, file) && all;
        }
        all
    }
}
