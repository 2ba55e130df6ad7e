//! Blocks of a file in memory, of which the least recently used give way: a cache over the log and the twin area.
#![tactic(auto)]

mod cache;
mod frame;
mod frames;
mod order;

pub use cache::Cache;
