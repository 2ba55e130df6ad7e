//! What the changes of one home stand for: its entries and cells, and the walk that takes the changes back, first the
//! live ones and then commit by commit, down to the rows of each commit number. Here are definitions and, as laws, what
//! is proved of them: law_blocks says by them what all blocks of a file stand for.
#![tactic(auto)]

mod laws;

pub use laws::walk_laws;
