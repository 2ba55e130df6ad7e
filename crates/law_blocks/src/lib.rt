//! What the blocks of a file stand for: commits behind a base and the live changes of each table slot. Here are
//! definitions and, as laws, what is proved of them: all code over a store says by them what it does.
#![tactic(auto)]

mod laws;

pub use laws::{block_laws, standing_laws};
