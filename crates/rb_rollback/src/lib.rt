//! The rollback of a transaction over a store that keeps undo, whole or in part: so many groups, and what a crash in
//! one of them leaves. It has no memory of a session; rb_engine has that, and calls it.
#![tactic(auto)]

mod back;

pub use back::{put_all_back, put_back};
