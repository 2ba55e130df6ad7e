//! What a transaction has of its mode as it sets it, and the snapshot of a query of it. The engine sets modes and opens
//! queries by them.
ghost use Rattle.std.specs.Prelude.{◌≡◌};
ghost use Rattle.rb_model.specs.Isolation as machine;

use rb_base::Scn;
use rb_model::{Isolation, Mode};

/// What a transaction has of a mode that it sets when the last commit has the number `now`.
pub fn isolation_at(mode: Mode, now: Scn) -> Isolation
    ensures { result ≡ machine.isolation_at now mode }
{
    match mode {
        Mode::ReadCommitted => Isolation::ReadCommitted,
        Mode::ReadOnly => Isolation::ReadOnly { snapshot: now },
        Mode::Serializable => Isolation::Serializable { snapshot: now },
    }
}

/// The last commit number that a query sees which is opened when the last commit has the number `now`.
pub fn snapshot_at(isolation: Isolation, now: Scn) -> Scn
    ensures { result ≡ machine.snapshot_at now isolation }
{
    match isolation {
        Isolation::ReadCommitted => now,
        Isolation::ReadOnly { snapshot } | Isolation::Serializable { snapshot } => snapshot,
    }
}
