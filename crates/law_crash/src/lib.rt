//! What a store's blocks and what a crash leaves of them have of a state of the machine: definitions, and laws of how
//! that goes on. The engine's calls say what they do by them. There is no code.
#![tactic(auto)]

mod laws;

pub use laws::{crash_laws, image_laws, keep_laws};
