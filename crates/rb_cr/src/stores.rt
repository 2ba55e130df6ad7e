//! Any store as the segments that a rebuild asks. `build` rebuilds the homes of a store by it.
ghost use Rattle.std.specs.Prelude.{◌≡◌, false, []};
ghost use Rattle.rb_base.specs.Blocks.{AreBlocks};
ghost use Rattle.rb_base.specs.Logs.{Logs, more_logs, no_logs};
ghost use Rattle.law_blocks.specs.Standing.{env_of};

use crate::reads::{read_look, read_lost, read_record};
use crate::records::SegmentRecord;
use crate::segments::Segments;
use rb_base::{Failed, Scn, Store, Uba, Xid};
use rb_txntable::Look;

impl<S: Store> Segments for S {
    ghost tells = { S.tells };

    ghost says = { λ store. record {
      shape = S.shape_of store;
      env = env_of (S.shape_of store) (S.blocks store);
    } };

    ghost ready = { λ store. (S.failed store ≡ false)
        × (S.tells → AreBlocks (S.shape_of store) (S.blocks store)) };

    ghost faults = { S.faults };

    ghost calls = { λ old new going. Logs S.Store old new [] going };

    ghost no_call = { λ store ready. no_logs _ store ready.0 };

    ghost more_calls = { λ old mid new going first second. more_logs _ old mid new [] [] going first second };

    fn record(&mut self, address: Uba) -> Result<Option<SegmentRecord>, Failed> {
        read_record(self, address)
    }

    fn look(&mut self, xid: Xid) -> Result<Look, Failed> {
        read_look(self, xid)
    }

    fn lost(&mut self, seg: u16) -> Result<Scn, Failed> {
        read_lost(self, seg)
    }
}
