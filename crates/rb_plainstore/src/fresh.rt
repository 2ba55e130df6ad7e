//! The blocks of a new file in memory. `PlainStore::new` makes them.
ghost use Rattle.std.specs.Prelude.{◌≡◌, IfOk};
ghost use Rattle.rb_base.specs.Blocks.{IsShape, fresh_blocks as fresh_blocks_of};

use rb_base::{NoMemory, Shape, UNIT};
use rb_layout::fresh_block;
use std::alloc::Global;

/// All blocks of a new file.
pub(crate) fn fresh_blocks(alloc: Global, shape: Shape) -> Result<Vec<[u8; UNIT]>, NoMemory>
    requires { IsShape shape }
    ensures { IfOk result (λ blocks. blocks.items ≡ fresh_blocks_of shape) }
{
    let count = shape.block_count();
    let Ok(mut blocks) = Vec::with_capacity(alloc, count as usize) else {
        return Err(NoMemory);
    };
    for no in 0..count {
        blocks.push_reserved(fresh_block(shape, no));
    }
    Ok(blocks)
}
