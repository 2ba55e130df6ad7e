//! Writes rows with undo: one attempt is one change, as one group that cleans the row's block, adds an undo record to a
//! rollback segment and changes the cell and the slot entry; or it is a refusal, and no group. And finds who holds a
//! key. rb_steps and rb_engine call it.
#![tactic(auto)]

mod ask;
mod change;
mod holder;
mod home;
mod segment;
mod undo;

pub use ask::{Ask, AttemptFault};
pub use change::attempt;
pub use holder::holder_of;
