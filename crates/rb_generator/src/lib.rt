//! The generator: commands of eight sessions, drawn from a number and made on the engine. Their answers are counted,
//! and one line tells the counts. The shell calls it.
#![tactic(auto)]

mod commands;
mod counts;
mod draws;
mod generator;
mod summary;

pub use counts::Counts;
pub use generator::generate;
pub use summary::print_summary;
