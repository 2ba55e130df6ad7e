//! Rolls back what was under way in a file that is opened: each transaction that runs is put back, change by change,
//! and its table slot ends. rb_recovery calls it.
#![tactic(auto)]

mod ending;
mod rollback;
mod transaction;

pub use ending::is_rolled_back;
pub use rollback::roll_back_all;
