//! What each block is for, and what it is in a new file. `format` and stores call it.
ghost use Rattle.std.specs.Prelude.{◌≡◌, ◌-◌, replicate};
ghost use Rattle.rb_base.specs.Blocks.{IsShape, block_kind, fresh_rest, fresh_block as fresh_block_of};
ghost use Rattle.rb_base.specs.Blocks.{fresh_head as fresh_head_of};
ghost use Rattle.rb_layout.specs.Kinds.{kind_number};

use rb_base::{BLOCK_HEAD, BlockNo, SEGMENT_BLOCKS, Shape, UNIT, put_u32, put_u64};

/// Where a block's kind stands.
const KIND_AT: usize = 8;

/// Where a block's own number stands.
const NUMBER_AT: usize = 12;

/// Where the first two extents stand in a segment's header, behind its head.
const EXTENTS_AT: [usize; 2] = [1024, 1056];

/// What a block is for.
#[derive(Clone, Copy, Debug, PartialEq, Eq)]
pub enum BlockKind {
    /// Rows of a table.
    Rows = 1,
    /// The header of a rollback segment.
    Segment = 2,
    /// Undo records of a segment.
    Undo = 3,
}

impl BlockKind {
    /// The number by which a block names its kind.
    pub fn number(self) -> u8
        ensures { result ≡ kind_number self }
    {
        self as u8
    }
}

/// What block `no` is for.
pub fn kind_of(shape: Shape, no: BlockNo) -> BlockKind
    requires { IsShape shape }
    ensures { kind_number result ≡ block_kind shape no }
{
    let table_blocks = shape.table_blocks();
    if no < table_blocks {
        BlockKind::Rows
    } else if (no - table_blocks) % SEGMENT_BLOCKS == 0 {
        BlockKind::Segment
    } else {
        BlockKind::Undo
    }
}

/// The head of a block that no group has patched.
fn fresh_head(kind: BlockKind, no: BlockNo) -> [u8; BLOCK_HEAD]
    ensures { result ≡ fresh_head_of (kind_number kind) no }
{
    let mut head = [0; BLOCK_HEAD];
    head[KIND_AT] = kind.number();
    put_u32(&mut head, NUMBER_AT, no);
    head
}

/// Writes what a fresh block of this kind has behind its head, over zeros: in a segment the turns of its first two
/// extents.
fn put_rest(rest: &mut [u8], kind: BlockKind)
    requires { rest.old ≡ replicate (UNIT - BLOCK_HEAD) 0 }
    ensures { rest.new ≡ fresh_rest (kind_number kind) }
{
    match kind {
        BlockKind::Segment => {
            put_u64(rest, EXTENTS_AT[0], 2);
            put_u64(rest, EXTENTS_AT[1], 1);
        }
        BlockKind::Rows | BlockKind::Undo => {}
    }
}

/// Block `no` of a new file: its head, and in a segment's header the turns of two extents. No group has patched it.
pub fn fresh_block(shape: Shape, no: BlockNo) -> [u8; UNIT]
    requires { IsShape shape }
    ensures { result ≡ fresh_block_of shape no }
{
    let mut block = [0; UNIT];
    let kind = kind_of(shape, no);
    block[..BLOCK_HEAD].copy_from_slice(&fresh_head(kind, no));
    put_rest(&mut block[BLOCK_HEAD..], kind);
    block
}
