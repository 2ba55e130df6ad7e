//! The file of a path as a disk. The program stands on it.
#![tactic(auto)]

mod file;
mod hold;
mod open;
mod rewrite;
mod synced;
mod system;
mod unsynced;

pub use file::FileDisk;
pub use hold::Hold;
pub use system::SystemFile;
