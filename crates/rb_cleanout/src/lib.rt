//! Cleans a block of rows of the transactions that have ended: each of their slot entries tells when its transaction
//! committed, and the locks that name it are cleared. No row changes, and no undo record. Writes of rows and later
//! readers call it.
#![tactic(auto)]

mod blocks;
mod entries;
mod locks;

pub use blocks::{CLEAN_BYTES, CLEAN_PATCHES, clean, clean_copy, plan_clean};
pub use entries::look_up;
