//! A rollback segment as a whole. Its header says the number of the file's last commit, and how often each table slot
//! had been taken; the engine's opening asks for these, and rb_sound as it tests the blocks of a file. And the calls by
//! which transactions move a segment: each changes a copy of the header and adds the same bytes to a group. Writes of
//! rows, rollbacks, commits and restarts call them.
#![tactic(auto)]

mod copy;
mod finish;
mod headers;
mod laws;
mod record;
mod stamp;
mod take;
mod turn;

pub use finish::{commit, end, take_back};
pub use headers::{SEGMENTS, commit_scn_of, wraps_of};
pub use laws::{
    ages_told, books_told, commit_greatest, first_books, group_sizes, header_changed,
    most_segments, records_told,
};
pub use record::{RECORD_BYTES, TURN_BYTES, add_record};
pub use take::claim;
pub use turn::RollbackFull;
