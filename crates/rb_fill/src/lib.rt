//! Buffers of zeros. The log, the twin area, the cache and the shell take theirs here, all at an opening.
#![tactic(auto)]

mod fill;

pub use fill::{zero_bytes, zero_numbers};
