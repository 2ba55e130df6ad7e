//! The numbers of the frames, and empty frames. `Frames::new` takes both.
ghost use Rattle.std.specs.Prelude.{◌≡◌, ◌≤◌, ℕ, length, replicate, false, [], IfOk};
ghost use Rattle.std.specs.List.{AllByRecursion};
ghost use Rattle.std.specs.Map.{keys_of};
ghost use Rattle.rb_base.specs.declared.sizes.TheConstants.{UNIT};
ghost use Rattle.rb_cache.specs.Slots.{IsEmptyFrame, numbers_below};

use crate::frame::{Frame, NO_BLOCK};
use lru::LruCache;
use rb_base::{NoMemory, UNIT};
use std::alloc::Global;
use std::num::NonZeroUsize;

/// So many frames that hold nothing.
pub fn empty_frames(alloc: Global, count: u16) -> Result<Vec<Frame>, NoMemory>
    ensures count { IfOk result (λ frames. length frames.items ≡ count) }
    ensures empty { IfOk result (λ frames. AllByRecursion IsEmptyFrame frames.items) }
{
    let Ok(mut frames) = Vec::with_capacity(alloc, usize::from(count)) else {
        return Err(NoMemory);
    };
    for _ in 0..count {
        frames.push_reserved(Frame {
            block: NO_BLOCK,
            bytes: [0; UNIT],
            dirty: false,
        });
    }
    Ok(frames)
}

/// The numbers below that one, each once.
pub fn all_numbers(alloc: Global, count: u16) -> Result<LruCache<u16, ()>, NoMemory>
    requires some { 1 ≤ count }
    ensures numbers { IfOk result (λ order. keys_of order.entries ≡ numbers_below count) }
{
    let Some(most) = NonZeroUsize::new(usize::from(count)) else {
        unreachable!()
    };
    let Ok(mut order) = LruCache::new(alloc, most) else {
        return Err(NoMemory);
    };
    for number in 0..count {
        let Ok(_) = order.put(number, ()) else {
            return Err(NoMemory);
        };
    }
    Ok(order)
}
