//! Puts back the newest live change of a transaction: its cell and its slot entry become what its undo record kept, and
//! the transaction has one live record less. A rollback calls it, and so does an opening that finds a transaction under
//! way.
#![tactic(auto)]

mod find;
mod put_back;

pub use put_back::back;
