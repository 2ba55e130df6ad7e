//! The ten records of an undo block: each keeps what a change of a row found, so that the change can be taken back.
//! They are read from the bytes of the block; and here are the place and the bytes of each, which go into a group with
//! the change.
#![tactic(auto)]

mod bytes;
mod laws;
mod read;
mod record;

pub use bytes::undo_bytes;
pub use laws::{undo_apart, undo_sizes};
pub use read::undo_at;
pub use record::{
    CELL_BEFORE_BYTES, ENTRY_BEFORE_BYTES, GONE, HELD, PUT, UNDO_BYTES, UNDO_RECORDS, UndoRecord,
    undo_place,
};
