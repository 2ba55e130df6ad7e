//! Groups rolled forward over one block, as an opening and a cache of blocks do it: definitions and laws.
#![tactic(auto)]

mod laws;

pub use laws::{block_by_block, heads_stay, rolling_again, rolling_numbers};
