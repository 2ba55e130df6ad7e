//! Where the script comes from and where the replies go, as traits, and streams in memory and of std; and who watches.
#![tactic(auto)]

mod memory;
mod plan;
mod standard;
mod stream;
mod watcher;

pub use memory::{MemSink, MemSource};
pub use standard::{StdSink, StdSource};
pub use stream::{Sink, Source};
pub use watcher::{Nobody, Watcher};
