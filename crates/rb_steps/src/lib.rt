//! What the calls of a session do to a store that keeps undo: one group each, with the machine's next state. It has no
//! memory of a session; rb_engine has that, and calls it.
#![tactic(auto)]

mod clean;
mod finish;
mod laws;
mod rollback;
mod write;

pub use clean::clean_step;
pub use finish::{commit_step, end_step};
pub use laws::step_laws;
pub use rollback::back_step;
pub use write::write_step;
