//! Ends the table slot of a transaction of which no change is live. The rollback of a slot calls it.
ghost use Rattle.std.specs.Prelude.{IsTrue, ◌≡◌, ◌↔◌, ◌+◌, ◌*◌, ◌^◌, ◌<◌};
ghost use Rattle.std.specs.Prelude.{false, not, length};
ghost use Rattle.std.specs.Result.{is_err};
ghost use Rattle.rb_base.specs.Blocks.{IsShape};
ghost use Rattle.rb_restart.specs.Steps.{HasLive, IsIdle, Rolls};
ghost use Rattle.rb_segment.specs.Calls.{Runs};
ghost use Rattle.rb_segment.specs.Header.{header_of, slot_in};

use rb_base::{Failed, SLOTS, Shape, Store, UNIT, Workspace, Xid, copy_block};
use rb_segment::end;
use rb_txntable::running;

/// Whether the transaction runs and has no live record. Its slot may end then.
pub fn is_rolled_back(header: &[u8], xid: Xid) -> bool
    requires header { length header.now ≡ UNIT }
    requires slot { xid.slot < SLOTS }
    ensures { IsTrue result ↔ (Runs (header_of header.now) xid
        × ((slot_in (header_of header.now) xid.slot).live ≡ 0)) }
{
    matches!(running(header, xid), Some(slot) if slot.live == 0)
}

/// Ends the slot of a transaction that runs and has no live change, by one group. What the workspace
/// has is open. Nothing is done where that isn't so, in a damaged file alone.
pub fn end_slot<S: Store>(
    store: &mut S,
    shape: Shape,
    xid: Xid,
    workspace: &mut Workspace,
) -> Result<(), Failed>
    requires going { S.failed store.old ≡ false }
    requires shape { shape ≡ S.shape_of store.old }
    requires in_range { IsShape shape }
    requires there { xid.seg < shape.segments }
    requires slot { xid.slot < SLOTS }
    requires few { S.lsn store.old < 2 ^ 62 }
    ensures { Rolls S.Store shape store.old store.new 1 (not (is_err result))
        (λ now. HasLive shape (S.blocks store.old) xid 0 → IsIdle shape now (16 * xid.seg + xid.slot)) }
{
    let header = &mut workspace.header;
    copy_block(store, shape.header_block(xid.seg), header)?;
    if !is_rolled_back(header, xid) {
        return Ok(());
    }
    workspace.group.clear();
    end(header, &shape, xid, &mut workspace.group);
    store.apply(&workspace.group)
}
