//! How bytes that a failed sync may have lost are written again. `Unsynced` calls it for each of its ranges.
ghost use Rattle.std.specs.Prelude.{◌≡◌, ◌+◌, ◌-◌, ◌^◌, ◌<◌, ◌≤◌, ℕ, min, length};
ghost use Rattle.std.specs.Prelude.{IsTrue, OnOk, OnErr};
ghost use Rattle.rb_rawfile.specs.RawModel.{IsOf};
ghost use Rattle.rb_filedisk.specs.Faults.{InPieces, RoseBy, Tells, lost_of};
ghost use Rattle.rb_filedisk.specs.Rests.{Rests};
ghost use Rattle.rb_filedisk.specs.Unsynced.{Has};

use crate::unsynced::Range;
use rb_rawfile::{Cause, RawFile};

// How many bytes are read and written again at a time.
const PIECE: usize = 4096;

/// Reads the bytes of a range, as far as a file of this length goes, and writes them again. Whether all of them were.
pub fn write_range_again<F: RawFile>(range: Range, len: u64, file: &mut F) -> bool
    requires { F.tells → len ≡ length (F.content file.old) }
    ensures rests { F.tells → Rests F.RawFile file.old file.new }
    ensures found { F.tells → IsTrue result → (place : ℕ)
        → lost_of (Has range) len (F.lost file.new) place → ⊥ }
    ensures counted { F.tells → Tells (F.faults file.old) (F.faults file.new) result }
    ensures others { F.tells → (n : ℕ) → RoseBy n (F.faults file.old) (F.faults file.new)
        → InPieces n (lost_of (Has range) len (F.lost file.new)) }
{
    let end = range.end.min(len);
    let mut piece = [0; PIECE];
    let mut at = range.start;
    let mut all = true;
    while at < end {
        let count = (end - at).min(PIECE as u64) as usize;
        all = write_piece_again(file, at, &mut piece[..count]).is_ok() && all;
        at += count as u64;
    }
    all
}

// Reads as many bytes as the piece has, and writes them again.
fn write_piece_again<F: RawFile>(file: &mut F, at: u64, piece: &mut [u8]) -> Result<(), Cause>
    requires { F.tells → at + length piece.old ≤ length (F.content file.old) }
    ensures rests { F.tells → Rests F.RawFile file.old file.new }
    ensures found { F.tells → OnOk result ((place : ℕ) → IsOf at (length piece.old) place
        → F.lost file.new place → ⊥) }
    ensures faulted { F.tells → OnErr result (F.faults file.new ≡ min (F.faults file.old + 1) (2 ^ 64 - 1)) }
    ensures no_fault { F.tells → OnOk result (F.faults file.new ≡ F.faults file.old) }
{
    file.read_at(at, piece)?;
    file.write_at(at, piece)
}
