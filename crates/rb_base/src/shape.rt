//! How many blocks of each kind a file has, and where they stand: those of the tables first, and behind them those of
//! the segments. Each layer over blocks asks it.
ghost use Rattle.std.specs.Prelude.{◌≡◌, ◌<◌, ◌≤◌};
ghost use Rattle.rb_base.specs.Blocks.{header_block, home_block, shape_blocks, table_blocks, IsShape};

use crate::ids::BlockNo;
use crate::sizes::SEGMENT_BLOCKS;

/// How many tables, blocks per table and rollback segments a file has.
#[derive(Clone, Copy, Debug, PartialEq, Eq)]
pub struct Shape {
    /// 1 to 16, numbered from 1.
    pub tables: u16,
    /// Blocks of each table, 1 to 4,096.
    pub blocks: u32,
    /// 1 to 16, numbered from 0.
    pub segments: u16,
}

impl Shape {
    /// How many blocks the tables have. They are the first of the file.
    pub fn table_blocks(self) -> u32
        requires { IsShape self }
        ensures blocks { result ≡ table_blocks self }
        ensures few { result ≤ 65536 }
    {
        u32::from(self.tables) * self.blocks
    }

    /// How many blocks there are.
    pub fn block_count(self) -> u32
        requires { IsShape self }
        ensures blocks { result ≡ shape_blocks self }
        ensures few { result ≤ 66064 }
    {
        self.table_blocks() + SEGMENT_BLOCKS * u32::from(self.segments)
    }

    /// The block of the header of segment `g`, from 0 on.
    pub fn header_block(self, g: u16) -> BlockNo
        requires shape { IsShape self }
        requires there { g < self.segments }
        ensures number { result ≡ header_block self g }
        ensures there { result < shape_blocks self }
    {
        self.table_blocks() + SEGMENT_BLOCKS * u32::from(g)
    }

    /// The block in which row `key` of a table, from 1 on, has its place.
    pub fn home_block(self, table: u16, key: u64) -> BlockNo
        requires shape { IsShape self }
        requires table { (1 ≤ table) × (table ≤ self.tables) }
        ensures number { result ≡ home_block self table key }
        ensures there { result < table_blocks self }
    {
        u32::from(table - 1) * self.blocks + (key % u64::from(self.blocks)) as u32
    }
}
