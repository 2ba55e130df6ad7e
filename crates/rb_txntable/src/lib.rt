//! The sixteen table slots of a segment's header: each is a place for one transaction at a time, and tells how the last
//! one stands. They are read from the header's bytes; and here are the place and the bytes of each, which rb_segment
//! puts into a header as a transaction begins, changes a row or ends.
#![tactic(auto)]

mod bytes;
mod choice;
mod laws;
mod looks;
mod outcome;
mod read;
mod slots;

pub use bytes::slot_bytes;
pub use choice::{active, choose};
pub use laws::{slots_apart, table_sizes};
pub use looks::Look;
pub use outcome::{look, running};
pub use read::slot_at;
pub use slots::{
    COMMITTED, ENDED, TableSlot, newest_in, slot_before, slot_newest, slot_place, slot_sound,
    slot_state, slot_wrap, wraps_in,
};
