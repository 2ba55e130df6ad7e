//! Consistent read: a home of rows is rebuilt as it was at a commit number, in memory, by the undo records of the
//! changes that stand above it. Nothing in the file is changed. (Oracle7 Server Concepts, *Multiversion Consistency
//! Model*.)
#![tactic(auto)]

mod blocks;
mod chains;
mod copies;
mod faults;
mod going;
mod kept;
mod late;
mod nexts;
mod pages;
mod plain;
mod reads;
mod records;
mod restore;
mod rows;
mod scratch;
mod segments;
mod shared;
mod steps;
mod stores;
mod told;
mod visible;
mod watch;

pub use blocks::build;
pub use faults::CrFault;
pub use kept::KEPT_ROWS;
pub use late::changed_after;
pub use nexts::next_at;
pub use pages::{Page, next_on_page};
pub use records::SegmentRecord;
pub use restore::rebuild;
pub use rows::Wanted;
pub use scratch::{Scratch, Snapshot};
pub use segments::Segments;
pub use shared::build_with;
pub use steps::Steps;
pub use told::next_told;
