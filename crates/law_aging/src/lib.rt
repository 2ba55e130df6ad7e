//! What the segments of a file say as they grow older, and homes that are kept at a number meanwhile. Here are
//! definitions and, as laws, what is proved of them.
#![tactic(auto)]

mod laws;

pub use laws::aging_laws;
