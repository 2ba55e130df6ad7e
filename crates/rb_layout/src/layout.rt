//! `Layout`: the four numbers of a file and the offsets that they give. The log, the shell and `format` ask it.
ghost use Rattle.std.specs.Prelude.{◌≡◌, ◌+◌, ◌*◌, ◌<◌, ◌≤◌, ◌↔◌, ◌++◌, length, drop};
ghost use Rattle.std.specs.Prelude.{IsSome, IfSome};

use rb_base::{Shape, UNIT, put_u16, put_u32};

/// The version of the files: 1. Their blocks stand at home, and their log, which goes round, has the groups that may
/// not be in these.
pub const VERSION: u32 = 1;

/// How many bytes of the first unit say what file it is.
pub const IDENTITY: usize = 24;

const UNIT_BYTES: u64 = UNIT as u64;

const MARK: [u8; 8] = *b"RBS7FILE";

// Units before the log, and of the twin area.
const BEFORE_LOG: u64 = 4;

const TWIN: u64 = 9;

/// The numbers that say where each part of a file lies.
#[derive(Clone, Copy, Debug, PartialEq, Eq)]
pub struct Layout {
    /// Tables, 1 to 16.
    pub tables: u16,
    /// Blocks of each table, 1 to 4,096.
    pub blocks: u32,
    /// Rollback segments, 1 to 16.
    pub segments: u16,
    /// Log slots, 64 to 4,096.
    pub log: u32,
    pub ghost few_tables: { (1 ≤ tables) × (tables ≤ 16) },
    pub ghost few_blocks: { (1 ≤ blocks) × (blocks ≤ 4096) },
    pub ghost few_segments: { (1 ≤ segments) × (segments ≤ 16) },
    pub ghost few_slots: { (64 ≤ log) × (log ≤ 4096) },
}

/// Where the log begins: the slot of its first group and that group's log number.
#[derive(Clone, Copy, Debug, PartialEq, Eq)]
pub struct Head {
    /// A log slot, below the layout's number of them.
    pub slot: u32,
    /// The log number of the group that stands, or will stand, there.
    pub number: u64,
}

impl Layout {
    ghost use Rattle.rb_layout.specs.Ranges.{InRange};
    ghost use Rattle.rb_base.specs.Blocks.{IsShape};
    ghost use Rattle.rb_layout.specs.Regions.{file_version, file_length, log_offset, twin_offset, block_count};
    ghost use Rattle.rb_layout.specs.Regions.{block_offset, identity, shape_of};

    /// A layout of these numbers, or None where one is out of its range.
    pub fn new(tables: u16, blocks: u32, segments: u16, log: u32) -> Option<Layout>
        ensures in_range { IsSome result ↔ InRange tables blocks segments log }
        ensures tables { IfSome result (λ l. l.tables ≡ tables) }
        ensures blocks { IfSome result (λ l. l.blocks ≡ blocks) }
        ensures segments { IfSome result (λ l. l.segments ≡ segments) }
        ensures log { IfSome result (λ l. l.log ≡ log) }
    {
        if tables < 1 || tables > 16 || blocks < 1 || blocks > 4096 {
            return None;
        }
        if segments < 1 || segments > 16 || log < 64 || log > 4096 {
            return None;
        }
        Some(Layout {
            tables,
            blocks,
            segments,
            log,
        })
    }

    /// How many bytes the file has.
    pub fn length(&self) -> u64
        ensures { result ≡ file_length self.now }
    {
        let blocks = self.shape().block_count();
        UNIT_BYTES * (BEFORE_LOG + u64::from(self.log) + TWIN + u64::from(blocks))
    }

    /// Where a log slot begins.
    pub fn log_at(&self, slot: u32) -> u64
        requires { slot < self.now.log }
        ensures { result ≡ log_offset slot }
    {
        UNIT_BYTES * (BEFORE_LOG + u64::from(slot))
    }

    /// Where a part of the twin area begins: 0 is the header, 1 to 8 are the images.
    pub fn twin_at(&self, part: u32) -> u64
        requires { part < 9 }
        ensures { result ≡ twin_offset self.now part }
    {
        UNIT_BYTES * (BEFORE_LOG + u64::from(self.log) + u64::from(part))
    }

    /// Where a block begins.
    pub fn block_at(&self, no: u32) -> u64
        requires { no < block_count self.now }
        ensures { result ≡ block_offset self.now no }
    {
        UNIT_BYTES * (BEFORE_LOG + u64::from(self.log) + TWIN + u64::from(no))
    }

    /// The tables, blocks and segments.
    pub fn shape(&self) -> Shape
        ensures shape { result ≡ shape_of self.now }
        ensures in_range { IsShape result }
    {
        let Layout {
            tables,
            blocks,
            segments,
            log: _,
        } = *self;
        Shape {
            tables,
            blocks,
            segments,
        }
    }

    /// Writes what the file is into the first 24 bytes, and nothing else.
    pub fn put_identity(&self, into: &mut [u8])
        requires { 24 ≤ length into.old }
        ensures bytes { into.new ≡ identity VERSION self.now ++ drop 24 into.old }
        ensures version { VERSION ≡ file_version }
    {
        into[..8].copy_from_slice(&MARK);
        put_u32(into, 8, VERSION);
        put_u16(into, 12, self.tables);
        put_u16(into, 14, self.segments);
        put_u32(into, 16, self.blocks);
        put_u32(into, 20, self.log);
    }
}
