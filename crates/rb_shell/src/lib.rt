//! The program but its outside: reads the words of the command line, and does what they ask over a source, a sink
//! and a disk.
#![tactic(auto)]

mod command;
mod generation;
mod laws;
mod line;
mod replies;
mod script;
mod status;

pub use command::run;
pub use laws::{new_file_sound, restarts_sound, script_pieces};
pub use line::step;
pub use rb_engine::Engine;
pub use status::Status;
