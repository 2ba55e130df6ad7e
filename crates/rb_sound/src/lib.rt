//! Whether the blocks of a file are in order: the header of each segment, each block of rows, and the live records of
//! each Active table slot. An opening asks it, and its laws say what leaves them so.
#![tactic(auto)]

mod active;
mod blocks;
mod empty;
mod home;
mod laws;
mod segment;

pub use blocks::blocks_sound;
pub use home::{Limits, home_sound};
pub use laws::{chains_short, fresh_sound, homes_by_table};
pub use segment::segment_sound;
