//! The faults that the layers hand up to each other. The shell turns them into statuses.
ghost use Rattle.std.specs.Prelude.{◌≡◌};

use thiserror::Error;

/// A call of the outside (disk, source or sink) failed. The object that was called has counted it.
#[derive(Clone, Copy, Debug, PartialEq, Eq, Error)]
#[error("a call of the outside failed")]
pub struct Failed;

/// Memory ran out. No clause ties this answer to a refused growth.
#[derive(Clone, Copy, Debug, PartialEq, Eq, Error)]
#[error("out of memory")]
pub struct NoMemory;

/// Why a file wasn't opened.
#[derive(Clone, Copy, Debug, PartialEq, Eq, Error)]
pub enum OpenFault {
    /// Memory ran out.
    #[error("out of memory")]
    NoMemory,
    /// A call of the disk failed.
    #[error("a call of the disk failed")]
    Failed,
    /// The bytes are those of no store of this form.
    #[error("not a store")]
    NotAStore,
}

impl From<Failed> for OpenFault {
    ghost use Rattle.rb_base.specs.declared.faults.OpenFault.TheVariants.{Failed};

    ghost from_gives = { λ _ fault. fault ≡ Failed };

    fn from(_failed: Failed) -> OpenFault {
        OpenFault::Failed
    }
}
