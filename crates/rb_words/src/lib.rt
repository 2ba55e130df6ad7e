//! What the words of the command line ask for, read by `clap`. The shell calls it, and `main` for what asks
//! of the program itself.
#![tactic(auto)]

mod numbers;
mod parts;
mod question;
mod words;

pub use question::{Question, parse_question};
pub use words::{Request, parse_words};
