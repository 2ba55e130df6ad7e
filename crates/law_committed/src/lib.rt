//! What the cells of a home, and the rows of a file, were before all that is under way, said without a walk: each cell
//! by one record, the first live one of it. Here are definitions and, as laws, that the walk comes to the same.
#![tactic(auto)]

mod laws;

pub use laws::{committed_laws, first_laws};
