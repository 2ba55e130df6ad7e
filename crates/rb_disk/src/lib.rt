//! The disk that the store stands on, as a trait with what a crash may leave.
#![tactic(auto)]

mod disk;
mod range;

pub use disk::Disk;
pub use range::write_synced;
