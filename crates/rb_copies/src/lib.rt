//! Homes that were taken back to a commit number once, kept in memory for later readers. It knows no block's bytes and
//! no record. It is for a fetch.
#![tactic(auto)]

mod homes;
mod table;
#[cfg(test)]
mod tests;

pub use homes::{CopyKey, KeptHome};
pub use table::{COPIES, Copies};
