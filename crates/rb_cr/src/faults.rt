//! Why a home couldn't be rebuilt. Whoever reads by a rebuild hands it on.
ghost use Rattle.std.specs.Prelude.{◌≡◌};

use rb_base::{Failed, Scn};
use thiserror::Error;

/// Why a rebuild ended before its snapshot.
#[derive(Clone, Copy, Debug, PartialEq, Eq, Error)]
pub enum CrFault {
    /// A call of the outside failed. The object that was called has counted it.
    #[error("a call of the outside failed")]
    Failed,
    /// What the snapshot needs was given up (Oracle7's "snapshot too old").
    #[error("snapshot {scn} is older than what is kept, from {lost} on")]
    TooOld {
        /// The snapshot.
        scn: Scn,
        /// The greatest commit number of which the segment concerned has given something up, above the snapshot.
        lost: Scn,
    },
}

impl From<Failed> for CrFault {
    ghost use Rattle.rb_cr.specs.declared.faults.CrFault.TheVariants.{Failed};

    ghost from_gives = { λ _ fault. fault ≡ Failed };

    fn from(_failed: Failed) -> CrFault {
        CrFault::Failed
    }
}
