//! Goes over the headers of all segments: the greatest commit number in them, and how often each table slot had been
//! taken. An opening calls it.
ghost use Rattle.std.specs.Prelude.{◌≡◌, ℕ, ◌<◌, false, not, [], IfOk, slice_index};
ghost use Rattle.std.specs.Result.{is_err};
ghost use Rattle.rb_base.specs.Blocks.{block_of, header_block, IsShape};
ghost use Rattle.rb_base.specs.Logs.{Logs};
ghost use Rattle.rb_txntable.specs.Slots.{header_newest};
ghost use Rattle.rb_segment.specs.Segments.{commit_scn, wrap_at, wrap_in};

use rb_base::{Failed, SLOTS, Scn, Shape, Store};
use rb_txntable::{newest_in, wraps_in};

/// The most segments of a file.
pub const SEGMENTS: usize = 16;

/// The greatest commit number given in a table slot of segment `g`.
fn header_newest<S: Store>(store: &mut S, shape: Shape, g: u16) -> Result<Scn, Failed>
    requires going { S.failed store.old ≡ false }
    requires shape { shape ≡ S.shape_of store.old }
    requires in_range { IsShape shape }
    requires there { g < shape.segments }
    ensures logs { Logs S.Store store.old store.new [] (not (is_err result)) }
    ensures told { S.tells → IfOk result (λ newest. newest
        ≡ header_newest (block_of (S.blocks store.old) (header_block shape g))) }
{
    store.load(shape.header_block(g))?;
    Ok(newest_in(store.block()))
}

/// The greatest commit number that a table slot of the file has.
pub fn commit_scn_of<S: Store>(store: &mut S) -> Result<Scn, Failed>
    requires { S.failed store.old ≡ false }
    ensures logs { Logs S.Store store.old store.new [] (not (is_err result)) }
    ensures told { S.tells → IfOk result (λ commit. commit
        ≡ commit_scn (S.shape_of store.old) (S.blocks store.old)) }
{
    let shape = store.shape();
    let mut commit: Scn = 0;
    for g in 0..shape.segments {
        commit = commit.max(header_newest(store, shape, g)?);
    }
    Ok(commit)
}

/// How often each table slot of segment `g` had been taken.
fn header_wraps<S: Store>(store: &mut S, shape: Shape, g: u16) -> Result<[u64; SLOTS], Failed>
    requires going { S.failed store.old ≡ false }
    requires shape { shape ≡ S.shape_of store.old }
    requires in_range { IsShape shape }
    requires there { g < shape.segments }
    ensures logs { Logs S.Store store.old store.new [] (not (is_err result)) }
    ensures told { S.tells → IfOk result (λ wraps. (i : ℕ) → i < SLOTS
        → slice_index wraps i ≡ wrap_at shape (S.blocks store.old) g i) }
{
    store.load(shape.header_block(g))?;
    Ok(wraps_in(store.block()))
}

/// How often each table slot of each segment had been taken, with zeros behind the segments that there are.
pub fn wraps_of<S: Store>(store: &mut S) -> Result<[[u64; SLOTS]; SEGMENTS], Failed>
    requires { S.failed store.old ≡ false }
    ensures logs { Logs S.Store store.old store.new [] (not (is_err result)) }
    ensures told { S.tells → IfOk result (λ wraps. (seg slot : ℕ) → seg < (S.shape_of store.old).segments
        → slot < SLOTS → wrap_in wraps seg slot ≡ wrap_at (S.shape_of store.old) (S.blocks store.old) seg slot) }
{
    let shape = store.shape();
    let mut wraps = [[0; SLOTS]; SEGMENTS];
    for g in 0..shape.segments {
        wraps[g as usize] = header_wraps(store, shape, g)?;
    }
    Ok(wraps)
}
