//! A disk in memory for tests: it keeps a record of its calls, fails where it is told to, and gives the images
//! that a crash may leave.
#![tactic(auto)]

mod bytes;
mod call;
mod memory;
mod pick;

pub use bytes::{overwrite, with_room};
pub use call::Call;
pub use memory::MemDisk;
pub use pick::Pick;
