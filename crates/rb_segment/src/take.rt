//! A transaction takes a table slot of its segment. The first write of a transaction calls it.
ghost use Rattle.std.specs.Prelude.{◌≡◌, ◌≢◌, ◌+◌, ◌^◌, ◌<◌, ◌≤◌, ℕ, ◌++◌, length};
ghost use Rattle.rb_base.specs.Blocks.{header_block, written_to, IsShape};
ghost use Rattle.rb_base.specs.Groups.{group_length};
ghost use Rattle.rb_segment.specs.Calls.{claim_patches, IsYoung, Runs};
ghost use Rattle.rb_segment.specs.Header.{header_of, slot_in};
ghost use Rattle.rb_segment.specs.Moves.{claimed, claimed_slot, MayClaim};

use crate::copy::{set_lost, set_slot};
use rb_base::{
    ACTIVE, GROUP_BYTES, GROUP_PATCHES, Group, SLOT_BYTES, SLOTS, Shape, UNIT, Uba, Xid,
};
use rb_ring::{lost, writes};
use rb_txntable::{TableSlot, choose, slot_at};

/// The slot as a transaction takes it. A count of transactions at its end stays there.
fn claimed_slot(header: &[u8], slot: TableSlot) -> TableSlot
    requires header { length header.now ≡ UNIT }
    ensures active { result.state ≡ ACTIVE }
    ensures slot { slot.wrap < 2 ^ 63 → result ≡ claimed_slot (header_of header.now) slot }
{
    TableSlot {
        state: ACTIVE,
        touched: 0,
        live: 0,
        wrap: slot.wrap.saturating_add(1),
        before: slot.newest,
        newest_at: Uba {
            block: 0,
            rec: 0,
            ord: 0,
        },
        start: writes(header),
        ..slot
    }
}

/// A transaction takes a table slot of segment `seg`, whose header this is a copy of: of those that none has the one
/// with the least newest commit number, the lowest of these. What that slot told of its last commit is lost. A slot
/// that none has is there. The copy is changed, and the group has the same bytes as patches; the answer is the
/// transaction's id. (Oracle7 Server Concepts, *Rollback Segments*: the transaction table.)
pub fn claim(header: &mut [u8], shape: &Shape, seg: u16, group: &mut Group) -> Xid
    requires header { length header.old ≡ UNIT }
    requires in_range { IsShape shape.now }
    requires there { seg < shape.now.segments }
    requires idle { (i : ℕ) × (i < SLOTS) × ((slot_in (header_of header.old) i).state ≢ ACTIVE) }
    requires count { length group.old + 2 ≤ GROUP_PATCHES }
    requires room { group_length group.old + (8 + SLOT_BYTES) + (8 + 8) ≤ GROUP_BYTES }
    ensures segment { result.seg ≡ seg }
    ensures chosen { MayClaim (header_of header.old) result.slot }
    ensures runs { Runs (header_of header.new) result }
    ensures wrap { result.wrap ≡ (slot_in (header_of header.new) result.slot).wrap }
    ensures patches { group.new
        ≡ group.old ++ claim_patches (header_block shape.now seg) result.slot (header_of header.new) }
    ensures copy { header.new ≡ written_to (header_block shape.now seg)
        (claim_patches (header_block shape.now seg) result.slot (header_of header.new)) header.old }
    ensures length { length header.new ≡ UNIT }
    ensures moved { IsYoung (header_of header.old)
        → header_of header.new ≡ claimed result.slot (header_of header.old) }
{
    let block = shape.header_block(seg);
    let Some(i) = choose(header) else {
        unreachable!()
    };
    let slot = slot_at(header, i);
    let given_up = lost(header).max(slot.newest);
    let taken = claimed_slot(header, slot);
    set_slot(header, block, group, i, &taken);
    set_lost(header, block, group, given_up);
    Xid {
        seg,
        slot: i as u16,
        wrap: taken.wrap,
    }
}
