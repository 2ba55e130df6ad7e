//! Who waits for whom: the queue of sessions whose write found its key held by another one. It knows no row and no
//! transaction. It is for the engine.
#![tactic(auto)]

mod laws;
mod waits;

pub use laws::queue_laws;
pub use waits::{WAITERS, Waits};
