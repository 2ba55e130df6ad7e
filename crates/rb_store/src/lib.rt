//! Makes the file of a store, and opens `LogStore` over it: a store whose blocks stand at home in the file, and are
//! read and written through a cache.
#![tactic(auto)]

mod cached_file;
mod freeing;
mod headers;
mod laws;
mod new_file;
mod opening;
mod patching;
mod pieces;
mod rolling;
mod scanning;
mod store;
mod store_open;

pub use laws::{fresh_opening, one_opening};
pub use new_file::{FormatFault, format};
pub use store::LogStore;
