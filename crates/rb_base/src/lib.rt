//! What every crate of the workspace shares: faults, ids, the fields of a unit, addresses of undo records, groups of
//! patches and their twins in copies of blocks, the store that they patch, and decimal numbers.
#![tactic(auto)]

mod addresses;
mod bytes;
mod copy;
mod decimal;
mod faults;
mod fields;
mod group;
mod ids;
mod laws;
mod shape;
mod sizes;
mod store;
mod workspace;

pub use addresses::{put_uba, uba_at};
pub use bytes::array_of;
pub use copy::{copy_block, set};
pub use decimal::parse_decimal;
pub use faults::{Failed, NoMemory, OpenFault};
pub use fields::{put_u16, put_u32, put_u64, u16_at, u32_at, u64_at};
pub use group::Group;
pub use ids::{BlockNo, Lsn, Scn, Uba, Xid};
pub use laws::{form_sizes, one_block, parts_written};
pub use shape::Shape;
pub use sizes::{
    ACTIVE, BLOCK_HEAD, FIRST_AT, GROUP_BYTES, GROUP_PATCHES, SEGMENT_BLOCKS, SLOT_BYTES, SLOTS,
    TOUCHED_AT, UNIT, VALUE_BYTES, WORN,
};
pub use store::Store;
pub use workspace::Workspace;
