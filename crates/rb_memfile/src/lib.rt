//! A raw file in memory for tests: it fails where it is told to, and a sync that fails drops what was written, as
//! systems' do.
#![tactic(auto)]

mod marks;
mod memory;
mod past;
mod place;

pub use memory::MemFile;
pub use place::Place;
