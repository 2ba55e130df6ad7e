//! Dead transactions over a store that keeps undo: those that run in the blocks of a file and are of no session in the
//! table. They are put back whole where they stand in the way of a home or a segment, or up to so many changes. The
//! engine's writes and its sweep make these calls.
#![tactic(auto)]

mod home;
mod slot;
mod sweeping;
mod taking;

pub use home::{clear_home, first_dead};
pub use slot::{Dead, dead_in_slot};
pub use sweeping::{clear_segment, sweep};
pub use taking::take_dead;
