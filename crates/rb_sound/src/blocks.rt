//! Tests the blocks of a file. The engine's opening calls it.
ghost use Rattle.std.specs.Prelude.{◌≡◌, ◌↔◌, ◌%◌, ◌<◌, true, false, not, [], IfOk};
ghost use Rattle.std.specs.Result.{is_err};
ghost use Rattle.rb_base.specs.Blocks.{block_of, header_block, table_blocks, IsShape};
ghost use Rattle.rb_base.specs.Logs.{Logs};
ghost use Rattle.rb_heap.specs.Soundness.{IsHomeSound};
ghost use Rattle.rb_segment.specs.Segments.{wrap_in};
ghost use Rattle.rb_sound.specs.Sound.{IsSegment, AreSegmentsSound, AreHomesSound, AreSound};

use crate::active::active_sound;
use crate::home::{Limits, home_sound};
use crate::segment::segment_sound;
use rb_base::{BlockNo, Failed, Scn, Shape, Store};
use rb_segment::{commit_scn_of, wraps_of};

/// Whether the header of segment `g` is in order.
fn header_sound<S: Store>(store: &mut S, shape: Shape, g: u16, commit: Scn) -> Result<bool, Failed>
    requires going { S.failed store.old ≡ false }
    requires shape { shape ≡ S.shape_of store.old }
    requires in_range { IsShape shape }
    requires there { g < shape.segments }
    ensures told { S.tells → IfOk result (λ sound. sound ≡ true
        ↔ IsSegment commit (block_of (S.blocks store.old) (header_block shape g))) }
    ensures logs { Logs S.Store store.old store.new [] (not (is_err result)) }
{
    store.load(shape.header_block(g))?;
    Ok(segment_sound(store.block(), commit))
}

/// Whether the header of each segment is in order, in a file of that commit number.
fn segments_sound<S: Store>(store: &mut S, commit: Scn) -> Result<bool, Failed>
    requires { S.failed store.old ≡ false }
    ensures told { S.tells → IfOk result (λ sound. sound ≡ true
        ↔ AreSegmentsSound (S.shape_of store.old) commit (S.blocks store.old)) }
    ensures logs { Logs S.Store store.old store.new [] (not (is_err result)) }
{
    let shape = store.shape();
    for g in 0..shape.segments {
        if !header_sound(store, shape, g, commit)? {
            return Ok(false);
        }
    }
    Ok(true)
}

/// Whether block `no` of the tables is in order.
fn rows_sound<S: Store>(store: &mut S, no: BlockNo, limits: &Limits) -> Result<bool, Failed>
    requires going { S.failed store.old ≡ false }
    requires shape { limits.now.shape ≡ S.shape_of store.old }
    requires in_range { IsShape limits.now.shape }
    requires there { no < table_blocks limits.now.shape }
    ensures told { S.tells → IfOk result (λ sound. sound ≡ true
        ↔ IsHomeSound limits.now.shape limits.now.commit (wrap_in limits.now.wraps) (no % limits.now.shape.blocks)
        (block_of (S.blocks store.old) no)) }
    ensures logs { Logs S.Store store.old store.new [] (not (is_err result)) }
{
    store.load(no)?;
    Ok(home_sound(store.block(), no % limits.shape.blocks, limits))
}

/// Whether each block of rows is in order.
fn homes_sound<S: Store>(store: &mut S, limits: &Limits) -> Result<bool, Failed>
    requires going { S.failed store.old ≡ false }
    requires shape { limits.now.shape ≡ S.shape_of store.old }
    requires in_range { IsShape limits.now.shape }
    ensures told { S.tells → IfOk result (λ sound. sound ≡ true
        ↔ AreHomesSound limits.now.shape limits.now.commit (wrap_in limits.now.wraps) (S.blocks store.old)) }
    ensures logs { Logs S.Store store.old store.new [] (not (is_err result)) }
{
    for no in 0..limits.shape.table_blocks() {
        if !rows_sound(store, no, limits)? {
            return Ok(false);
        }
    }
    Ok(true)
}

/// Whether the blocks of the file are in order: the header of each segment, each block of rows, and the live records of
/// each Active table slot.
pub fn blocks_sound<S: Store>(store: &mut S) -> Result<bool, Failed>
    requires { S.failed store.old ≡ false }
    ensures told { S.tells → IfOk result (λ sound. sound ≡ true
        ↔ AreSound (S.shape_of store.old) (S.blocks store.old)) }
    ensures logs { Logs S.Store store.old store.new [] (not (is_err result)) }
{
    let commit = commit_scn_of(store)?;
    if !segments_sound(store, commit)? {
        return Ok(false);
    }
    let limits = Limits {
        shape: store.shape(),
        commit,
        wraps: wraps_of(store)?,
    };
    if !homes_sound(store, &limits)? {
        return Ok(false);
    }
    active_sound(store, &limits)
}
