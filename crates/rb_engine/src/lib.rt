//! The engine over a store of blocks: sixteen sessions that insert, update, delete, lock, wait for one another, commit,
//! roll back, also to a savepoint, and read by cursors or by key, each in its mode. The shell runs the lines of a
//! script by it.
#![tactic(auto)]

mod activity;
mod ahead;
mod checks;
mod cursors;
mod dead;
mod engine;
mod fetch;
mod finish;
mod get;
mod late;
mod marks;
mod memory;
mod modes;
mod open;
mod queue;
mod resume;
mod savepoints;
mod scan;
mod sweep;
mod write;

pub use ahead::Ahead;
pub use engine::Engine;
