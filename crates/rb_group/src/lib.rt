//! The bytes of a group of patches, written and read. The log keeps the changes of blocks so.
#![tactic(auto)]

mod read;
mod write;

pub use read::{decode, one_spelling};
pub use write::encode;
