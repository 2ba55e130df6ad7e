//! Cuts the bytes of a source into lines and hands each to a line runner. The shell runs a script by it.
#![tactic(auto)]

mod lines;
mod partial;
mod runner;

pub use lines::{LinesEnd, run_lines};
pub use runner::{LineRunner, StepFault};
