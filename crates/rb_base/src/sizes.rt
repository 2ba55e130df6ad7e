//! The sizes and limits of the file's form. Every layer uses them, in code and in contracts.

/// Bytes in a unit, the size of each region of the file and of each block.
pub const UNIT: usize = 2048;

/// The bytes in front of each block that no group patches: its log number, its kind and its own number.
pub const BLOCK_HEAD: usize = 32;

/// The blocks of a segment: its header and eight extents of four.
pub const SEGMENT_BLOCKS: u32 = 33;

/// The table slots of a segment. They are the first in its header.
pub const SLOTS: usize = 16;

/// The bytes of a table slot.
pub const SLOT_BYTES: usize = 64;

/// The state of a table slot whose transaction runs. Any other is of one that ended, or of none.
pub const ACTIVE: u8 = 1;

/// Where in its table slot the bits stand that tell which extents hold a record of the transaction.
pub const TOUCHED_AT: usize = 1;

/// Where in its table slot the number stands that the extent of the transaction's first record has.
pub const FIRST_AT: usize = 48;

/// The most patches of a group.
pub const GROUP_PATCHES: usize = 40;

/// The most bytes of a group's spelling.
pub const GROUP_BYTES: usize = 2000;

/// The most bytes of a row's value.
pub const VALUE_BYTES: usize = 80;

/// As many groups, and the log numbers are used up.
pub const WORN: u64 = 1 << 60;
