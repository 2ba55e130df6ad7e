//! The transaction that writes, and its segment's header: the one that is named, or one that takes a table slot of the
//! segment with the fewest that run. `attempt` calls it.
ghost use Rattle.std.specs.Prelude.{IsTrue, ◌≡◌, ◌≢◌, ◌↔◌, ◌<◌, ◌≤◌, ◌+◌};
ghost use Rattle.std.specs.Prelude.{◌++◌, ℕ};
ghost use Rattle.std.specs.Prelude.{List, [], false, true, not, length, Some, None, IfErr, IfOk, OnErr, OnOk};
ghost use Rattle.std.specs.Result.{is_err};
ghost use Rattle.rb_write.specs.Asks.{header_in, AreYoung, IsFewest, IsWriterOf, MayWrite};
ghost use Rattle.rb_write.specs.Refusals.{has_failed, LacksSlot};
ghost use Rattle.rb_base.specs.Blocks.{block_of, header_block, written_to, IsShape};
ghost use Rattle.rb_base.specs.Groups.{Patch, group_length};
ghost use Rattle.rb_base.specs.Logs.{Logs};
ghost use Rattle.rb_base.specs.declared.ids.Xid.{Xid};
ghost use Rattle.rb_segment.specs.Calls.{claim_patches, Runs};
ghost use Rattle.rb_segment.specs.Header.{header_of, slot_in};
ghost use Rattle.law_blocks.specs.Writing.{AreOfReady};
ghost use Rattle.rb_txntable.specs.Slots.{active_count};

use crate::ask::AttemptFault;
use rb_base::{
    ACTIVE, Failed, GROUP_BYTES, GROUP_PATCHES, Group, SLOT_BYTES, SLOTS, Shape, Store, UNIT, Xid,
};
use rb_segment::claim;
use rb_txntable::{active, choose, running};

/// How many transactions of segment `g` run.
fn active_in<S: Store>(store: &mut S, shape: Shape, g: u16) -> Result<u32, Failed>
    requires going { S.failed store.old ≡ false }
    requires shape { shape ≡ S.shape_of store.old }
    requires in_range { IsShape shape }
    requires there { g < shape.segments }
    ensures logs { Logs S.Store store.old store.new [] (not (is_err result)) }
    ensures few { IfOk result (λ n. n ≤ SLOTS) }
    ensures count { S.tells → IfOk result (λ n. n
        ≡ active_count (block_of (S.blocks store.old) (header_block shape g))) }
{
    store.load(shape.header_block(g))?;
    Ok(active(store.block()))
}

/// The segment with the fewest transactions that run, and of several such the lowest. No header is looked at behind one
/// without any: in most files that is the first.
fn fewest<S: Store>(store: &mut S) -> Result<u16, Failed>
    requires going { S.failed store.old ≡ false }
    ensures logs { Logs S.Store store.old store.new [] (not (is_err result)) }
    ensures within { IfOk result (λ g. g < (S.shape_of store.old).segments) }
    ensures fewest { S.tells → IfOk result (IsFewest (S.shape_of store.old) (S.blocks store.old)) }
{
    let shape = store.shape();
    let mut fewest = 0;
    let mut least = u32::MAX;
    for g in 0..shape.segments {
        let count = active_in(store, shape, g)?;
        if count == 0 {
            return Ok(g);
        }
        if count < least {
            fewest = g;
            least = count;
        }
    }
    Ok(fewest)
}

/// Loads the header of segment `g` into a copy.
fn load_header<S: Store>(store: &mut S, g: u16, header: &mut [u8]) -> Result<(), AttemptFault>
    requires going { S.failed store.old ≡ false }
    requires there { g < (S.shape_of store.old).segments }
    requires header { length header.old ≡ UNIT }
    ensures logs { Logs S.Store store.old store.new [] (not (has_failed result)) }
    ensures failed { OnErr result (has_failed result ≡ true) }
    ensures length { length header.new ≡ UNIT }
    ensures copy { S.tells → OnOk result (header.new
        ≡ block_of (S.blocks store.old) (header_block (S.shape_of store.old) g)) }
{
    let no = store.shape().header_block(g);
    let Ok(()) = store.load(no) else {
        return Err(AttemptFault::Failed);
    };
    header.copy_from_slice(store.block());
    Ok(())
}

/// Whether the transaction runs.
fn runs(header: &[u8], xid: Xid) -> bool
    requires header { length header.now ≡ UNIT }
    requires slot { xid.slot < SLOTS }
    ensures { IsTrue result ↔ Runs (header_of header.now) xid }
{
    running(header, xid).is_some()
}

/// Whether a transaction can take a table slot.
fn is_idle(header: &[u8]) -> bool
    requires { length header.now ≡ UNIT }
    ensures idle { result ≡ true
        → (i : ℕ) × (i < SLOTS) × ((slot_in (header_of header.now) i).state ≢ ACTIVE) }
    ensures full { result ≡ false → active_count header.now ≡ SLOTS }
{
    choose(header).is_some()
}

/// The transaction that has its table slot, and a copy of its segment's header. `RollbackFull` where it doesn't run, as
/// in a damaged file.
fn own_writer<S: Store>(store: &mut S, xid: Xid, header: &mut [u8]) -> Result<Xid, AttemptFault>
    requires going { S.failed store.old ≡ false }
    requires there { xid.seg < (S.shape_of store.old).segments }
    requires slot { xid.slot < SLOTS }
    requires header { length header.old ≡ UNIT }
    ensures logs { Logs S.Store store.old store.new [] (not (has_failed result)) }
    ensures length { length header.new ≡ UNIT }
    ensures failed { S.tells → Runs (header_in (S.shape_of store.old) (S.blocks store.old) xid.seg) xid
        → OnErr result (has_failed result ≡ true) }
    ensures xid { IfOk result (λ x. x ≡ xid) }
    ensures runs { OnOk result (Runs (header_of header.new) xid) }
    ensures copy { S.tells → OnOk result (header.new
        ≡ block_of (S.blocks store.old) (header_block (S.shape_of store.old) xid.seg)) }
{
    load_header(store, xid.seg, header)?;
    if !runs(header, xid) {
        return Err(AttemptFault::RollbackFull {
            seg: xid.seg,
            since: 0,
        });
    }
    Ok(xid)
}

/// A transaction that takes a table slot of the segment with the fewest that run. The copy is that segment's header,
/// with the slot taken, and the group has the patches of that. `NoSlot` where no slot of it is idle.
fn new_writer<S: Store>(
    store: &mut S,
    header: &mut [u8],
    group: &mut Group,
) -> Result<Xid, AttemptFault>
    requires going { S.failed store.old ≡ false }
    requires header { length header.old ≡ UNIT }
    requires count { length group.old + 2 ≤ GROUP_PATCHES }
    requires room { group_length group.old + (8 + SLOT_BYTES) + (8 + 8) ≤ GROUP_BYTES }
    ensures logs { Logs S.Store store.old store.new [] (not (has_failed result)) }
    ensures length { length header.new ≡ UNIT }
    ensures few { length group.new ≤ length group.old + 2 }
    ensures short { group_length group.new ≤ group_length group.old + (8 + SLOT_BYTES) + (8 + 8) }
    ensures refused { S.tells → has_failed result ≡ false → IfErr result (λ fault. (seg : ℕ)
        × (fault ≡ AttemptFault.NoSlot seg) × LacksSlot (S.shape_of store.old) (S.blocks store.old) seg) }
    ensures there { IfOk result (λ x. x.seg < (S.shape_of store.old).segments) }
    ensures runs { IfOk result (Runs (header_of header.new)) }
    ensures patches { IfOk result (λ x. (patches : List Patch)
        × (group.new ≡ group.old ++ patches)
        × (patches ≡ claim_patches (header_block (S.shape_of store.old) x.seg) x.slot (header_of header.new))
        × (S.tells → header.new ≡ written_to (header_block (S.shape_of store.old) x.seg) patches
        (block_of (S.blocks store.old) (header_block (S.shape_of store.old) x.seg)))) }
    ensures writer { S.tells → AreYoung (S.shape_of store.old) (S.blocks store.old)
        → IfOk result (λ x. IsWriterOf (S.shape_of store.old) (S.blocks store.old) None x (header_of header.new)) }
{
    let Ok(seg) = fewest(store) else {
        return Err(AttemptFault::Failed);
    };
    load_header(store, seg, header)?;
    if !is_idle(header) {
        return Err(AttemptFault::NoSlot { seg });
    }
    let shape = store.shape();
    Ok(claim(header, &shape, seg, group))
}

/// The transaction that writes: the one that has its table slot, or one that takes a slot of the segment with the
/// fewest that run. The copy is its segment's header, with the slot taken, and the group has the patches of that.
/// `NoSlot` where no slot of that segment is idle, and `RollbackFull` where the transaction that is named doesn't run,
/// as in a damaged file alone.
pub fn writer<S: Store>(
    store: &mut S,
    own: Option<Xid>,
    header: &mut [u8],
    group: &mut Group,
) -> Result<Xid, AttemptFault>
    requires going { S.failed store.old ≡ false }
    requires header { length header.old ≡ UNIT }
    requires own { (x : Xid) → own ≡ Some x → (x.seg < (S.shape_of store.old).segments) × (x.slot < SLOTS) }
    requires count { length group.old + 2 ≤ GROUP_PATCHES }
    requires room { group_length group.old + (8 + SLOT_BYTES) + (8 + 8) ≤ GROUP_BYTES }
    ensures logs { Logs S.Store store.old store.new [] (not (has_failed result)) }
    ensures length { length header.new ≡ UNIT }
    ensures few { length group.new ≤ length group.old + 2 }
    ensures short { group_length group.new ≤ group_length group.old + (8 + SLOT_BYTES) + (8 + 8) }
    ensures refused { S.tells → MayWrite (S.shape_of store.old) (S.blocks store.old) own
        → has_failed result ≡ false → IfErr result (λ fault. (seg : ℕ) × (fault ≡ AttemptFault.NoSlot seg)
        × (own ≡ None) × LacksSlot (S.shape_of store.old) (S.blocks store.old) seg) }
    ensures there { IfOk result (λ x. x.seg < (S.shape_of store.old).segments) }
    ensures runs { IfOk result (Runs (header_of header.new)) }
    ensures patches { IfOk result (λ x. (patches : List Patch)
        × (group.new ≡ group.old ++ patches)
        × AreOfReady (header_block (S.shape_of store.old) x.seg) x.slot (header_of header.new) patches
        × (S.tells → header.new ≡ written_to (header_block (S.shape_of store.old) x.seg) patches
        (block_of (S.blocks store.old) (header_block (S.shape_of store.old) x.seg)))) }
    ensures writer { S.tells → AreYoung (S.shape_of store.old) (S.blocks store.old)
        → IfOk result (λ x. IsWriterOf (S.shape_of store.old) (S.blocks store.old) own x (header_of header.new)) }
{
    match own {
        Some(xid) => own_writer(store, xid, header),
        None => new_writer(store, header, group),
    }
}
