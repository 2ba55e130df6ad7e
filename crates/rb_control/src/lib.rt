//! The control copies of a file: where its log begins, and how that moves. The store asks them.
#![tactic(auto)]

mod control;
mod laws;

pub use control::{advance, read};
pub use laws::move_steps;
