//! What a rebuild asks of the rollback segments. A store answers it.
ghost use Rattle.std.specs.Prelude.{◌≡◌, ℕ, Bool, false, true, not, IfOk};
ghost use Rattle.std.specs.Result.{is_err};
ghost use Rattle.rb_cr.specs.Calls.{OnlyReads, Said};
ghost use Rattle.rb_cr.specs.Records.{walk_found};
ghost use Rattle.law_blocks.specs.Says.{place_of};

use crate::records::SegmentRecord;
use rb_base::{Failed, Scn, Uba, Xid};
use rb_txntable::Look;

/// The segments of a file. A call may fail, and after one that did none may be made.
pub trait Segments {
    /// Whether they tell what they hold.
    ghost tells: { Type 0 };

    /// How many blocks of each kind the file has, and what the segments say.
    ghost says: { Self → Said };

    /// A call may be made: none has failed.
    ghost ready: { Self → Type 0 };

    /// How often their disk has failed, up to 2^64 - 1.
    ghost faults: { Self → ℕ };

    /// Between these moments calls were made that read alone, and the last of them answered Ok or failed.
    ghost calls: { Self → Self → Bool → Type 0 };

    /// The record of the place that an address names, if it is still there.
    fn record(&mut self, address: Uba) -> Result<Option<SegmentRecord>, Failed>
        requires { ready self.old }
        ensures told { tells → IfOk result (λ found. walk_found (says self.old).shape found
            ≡ (says self.old).env.store (place_of (says self.old).shape address)) }
        ensures reads { OnlyReads tells says ready faults calls self.old self.new (not (is_err result)) };

    /// How a transaction stands, as far as its segment still tells.
    fn look(&mut self, xid: Xid) -> Result<Look, Failed>
        requires { ready self.old }
        ensures told { tells → IfOk result (λ look. look ≡ (says self.old).env.look xid) }
        ensures reads { OnlyReads tells says ready faults calls self.old self.new (not (is_err result)) };

    /// The greatest commit number of which a segment has given something up.
    fn lost(&mut self, seg: u16) -> Result<Scn, Failed>
        requires { ready self.old }
        ensures told { tells → IfOk result (λ lost. lost ≡ (says self.old).env.lost seg) }
        ensures reads { OnlyReads tells says ready faults calls self.old self.new (not (is_err result)) };

    /// No call is none.
    ghost no_call: { (segments : Self) → ready segments → calls segments segments true };

    /// Calls after others are calls.
    ghost more_calls: { (old mid new : Self) (going : Bool) → calls old mid true → calls mid new going
        → calls old new going };
}
