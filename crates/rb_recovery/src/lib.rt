//! What an opening does with the blocks of a file: it tests them, and puts back what was under way. The opening of an
//! engine calls it.
#![tactic(auto)]

mod laws;
mod open;

pub use laws::{opened_stands, sound_opens};
pub use open::open_blocks;
