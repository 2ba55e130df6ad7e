//! What the table of sessions is to the machine's state, by the blocks of a file: whose transaction each id is, and
//! which changes each cursor sees (its read view). Here are definitions and, as laws, what is proved of them; rb_engine
//! has the code. (Oracle7 Server Concepts, *Multiversion Consistency Model*.)
#![tactic(auto)]

mod laws;

pub use laws::view_laws;
