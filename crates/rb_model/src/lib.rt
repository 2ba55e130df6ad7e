//! The abstract machine of numbered commits, in `specs/`, and the plain types of the engine's calls.
#![tactic(auto)]

mod activity;
mod laws;
mod marks;
mod mode;
mod name;
mod op;
mod outcome;
mod refusal;
mod row;
mod wrote;

pub use activity::{Activity, Wait};
pub use laws::{book_laws, key_laws, safe_laws};
pub use marks::Marks;
pub use mode::{Isolation, Mode};
pub use name::Name;
pub use op::Op;
pub use outcome::Outcome;
pub use refusal::Refusal;
pub use row::{Fetched, Row};
pub use wrote::Wrote;
