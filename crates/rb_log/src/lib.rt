//! The redo log, which goes round: groups of patches in the log slots of a file, each there whole or not at all after
//! a crash.
#![tactic(auto)]

mod flush;
mod laws;
mod log;
mod places;
mod sizes;
mod unit;
mod waiting;

pub use laws::flush_sizes;
pub use log::Log;
pub use sizes::{FLUSH_BYTES, FLUSH_SLOTS};
