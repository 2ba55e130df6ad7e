//! Dead transactions: how the machine's state loses them, and that it doesn't matter in which order; and which entries
//! of a home are theirs. Here are, as laws, what is proved of them, and the definitions of entries.
#![tactic(auto)]

mod laws;

pub use laws::{dead_laws, entry_laws, owed_laws, room_laws};
