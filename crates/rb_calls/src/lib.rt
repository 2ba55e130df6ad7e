//! Makes the calls of a command on the engine, and tells their answers. The shell and the generator run commands by it.
#![tactic(auto)]

mod answers;
mod calls;
mod resumes;

pub use answers::{answer_to_write, goes_on};
pub use calls::{answer, answer_ahead, calls_of};
pub use resumes::{Listener, MOST_READY, resume_ready};
