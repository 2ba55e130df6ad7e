//! Homes that are kept in memory, as the engine's calls change the blocks of a file. Here are definitions and, as laws,
//! what is proved of them.
#![tactic(auto)]

mod laws;

pub use laws::outliving_laws;
