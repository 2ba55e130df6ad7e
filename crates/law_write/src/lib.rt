//! The tests of a write, in the order in which they count: what a cleaned home and a segment's header say of them, and
//! what the machine says. Here are definitions and, as laws, what is proved of them: rb_steps shows by them that
//! a refusal is the machine's.
#![tactic(auto)]

mod laws;

pub use laws::verdict_laws;
