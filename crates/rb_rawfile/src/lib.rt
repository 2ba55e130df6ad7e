//! What a system does with the bytes of a file, as a trait. The disk of the program stands on it, over the file of a
//! path; tests have such a file in memory.
#![tactic(auto)]

mod cause;
mod raw;

pub use cause::Cause;
pub use raw::RawFile;
