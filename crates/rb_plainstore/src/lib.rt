//! A store that keeps all blocks of a file in memory, and nothing behind it. Tests run the engine over it, and compare
//! the store over a file with it.
#![tactic(auto)]

mod fresh;
mod laws;
mod patching;
mod plain;

pub use laws::never_fails;
pub use plain::PlainStore;
