//! How a transaction stands, as far as its table slot still tells. Whoever meets a slot entry in a block asks for it.
use rb_base::Scn;

/// How a transaction stands, as far as its table slot still tells.
#[derive(Clone, Copy, Debug, PartialEq, Eq)]
pub enum Look {
    /// It runs.
    Active,
    /// It committed at this number.
    At(Scn),
    /// It ended, and where it committed, at this number or at one before.
    Before(Scn),
}
