//! The slot entries of a heap block: which transactions changed it, and what became of them. They are read from the
//! block's bytes; and here are the place and the bytes of each, which writes of rows, rollbacks and cleanings put into
//! a block. An opening tests them.
#![tactic(auto)]

mod bytes;
mod laws;
mod read;
mod slots;

pub use bytes::entry_bytes;
pub use laws::{entries_apart, entry_sizes};
pub use read::{entry, entry_from};
pub use slots::{
    BOUND, CHAIN_RECORDS, ENTRIES, ENTRY_BYTES, EXACT, Entry, FREE, OPEN, entry_place,
};
