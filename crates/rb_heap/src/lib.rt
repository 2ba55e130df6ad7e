//! The homes of a heap block: what its bytes say of its slot entries and its cells, which cell has a key, which is
//! free, and what patches make of them. What stands above reasons about homes and never about bytes.
#![tactic(auto)]

mod choice;
mod laws;
mod search;
mod write;

pub use choice::choose;
pub use laws::{head_patched, home_changed, home_listed, home_patched, home_read, home_searched};
pub use search::{find, free_cell};
pub use write::change;
