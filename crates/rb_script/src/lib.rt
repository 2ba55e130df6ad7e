//! The lines of a script: which command a line spells, and the text of each reply. The shell calls it.
#![tactic(auto)]

mod command;
mod grammar;
mod reply;
mod text;
mod words;

pub use command::{Command, Request, one_spelling};
pub use grammar::parse;
pub use reply::{Reply, print};
pub use text::{put, put_part};
