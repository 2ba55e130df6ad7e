//! Where the parts of a file lie: the numbers that its first unit keeps, the offset of each part, and the blocks of a
//! new file.
#![tactic(auto)]

mod fresh;
mod layout;
mod read;

pub use fresh::{BlockKind, fresh_block, kind_of};
pub use layout::{Head, IDENTITY, Layout, VERSION};
pub use read::one_layout;
