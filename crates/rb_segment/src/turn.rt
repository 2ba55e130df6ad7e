//! Room for the next record of a segment: its head, or an extent that takes the next turn. Each record that is added
//! asks for it.
ghost use Rattle.std.specs.Prelude.{◌≡◌, ◌+◌, ◌<◌, ◌≤◌, ◌==◌, ◌^◌, ℕ, max};
ghost use Rattle.std.specs.Prelude.{if◌then◌else◌, List, ◌++◌, length, IfErr, OnOk};
ghost use Rattle.std.specs.List.{AllByRecursion};
ghost use Rattle.rb_base.specs.Blocks.{written_to};
ghost use Rattle.rb_base.specs.Copies.{SamePatches};
ghost use Rattle.rb_base.specs.Groups.{Patch, group_length};
ghost use Rattle.rb_segment.specs.Calls.{HasTurned, IsSince, turn_patches};
ghost use Rattle.rb_segment.specs.Header.{Header, header_of, head_turn, slot_in};
ghost use Rattle.rb_segment.specs.Moves.{turned, NoneMayTurn};

use crate::copy::{set_extent, set_head, set_lost};
use rb_base::{ACTIVE, BlockNo, GROUP_BYTES, GROUP_PATCHES, Group, SLOTS, Scn, UNIT};
use rb_ring::{
    EXTENT_RECORDS, EXTENTS, Extent, Turn, extent_at, extent_ord, head_extent, lost, next, writes,
};
use rb_txntable::slot_at;

/// Why a record has no place: all eight extents are in use, and a transaction that runs began in the oldest.
#[derive(Clone, Copy, Debug, PartialEq, Eq)]
pub struct RollbackFull {
    /// The rollback segment.
    pub seg: u16,
    /// How many records it made since the oldest of its transactions began that run.
    pub since: u64,
}

/// The head of the segment. A header out of order may name one that there isn't, and then it is any extent.
pub fn head(header: &[u8]) -> u8
    requires { length header.now ≡ UNIT }
    ensures there { result < EXTENTS }
    ensures head { (header_of header.now).head < EXTENTS → result ≡ (header_of header.now).head }
{
    (head_extent(header) % EXTENTS as u16) as u8
}

/// How many records the segment made since the oldest of its transactions began that run. One runs.
fn since(header: &[u8]) -> u64
    requires header { length header.now ≡ UNIT }
    ensures { (i : ℕ) → i < SLOTS → (slot_in (header_of header.now) i).state ≡ ACTIVE
        → IsSince (header_of header.now) result }
{
    let mut oldest = u64::MAX;
    for i in 0..SLOTS as u8 {
        let slot = slot_at(header, i);
        if slot.state == ACTIVE {
            oldest = oldest.min(slot.start);
        }
    }
    writes(header).saturating_sub(oldest)
}

/// The turn behind the head's. A number at its end stays there.
fn next_turn(header: &[u8]) -> u64
    requires header { length header.now ≡ UNIT }
    ensures { (header_of header.now).head < EXTENTS → head_turn (header_of header.now) < 2 ^ 63
        → result ≡ head_turn (header_of header.now) + 1 }
{
    extent_ord(header, usize::from(head(header))).saturating_add(1)
}

/// The greatest commit number that is lost once this extent gives up its turn. One outside of the ring has none.
fn lost_with(header: &[u8], old: Extent) -> Scn
    requires header { length header.now ≡ UNIT }
    ensures { result ≡ (if old.ord == 0 then (header_of header.now).lost
        else max (header_of header.now).lost old.newest) }
{
    if old.ord == 0 {
        lost(header)
    } else {
        lost(header).max(old.newest)
    }
}

/// Extent `e`, 0 to 7, takes the next turn and becomes the head. What its old turn had is lost.
fn take_turn(header: &mut [u8], block: BlockNo, group: &mut Group, e: u8)
    requires header { length header.old ≡ UNIT }
    requires place { e < EXTENTS }
    requires count { length group.old + 3 ≤ GROUP_PATCHES }
    requires room { group_length group.old + (8 + 16) + (8 + 4) + (8 + 8) ≤ GROUP_BYTES }
    ensures patches { group.new ≡ group.old ++ turn_patches block (header_of header.new) }
    ensures copy { header.new ≡ written_to block (turn_patches block (header_of header.new)) header.old }
    ensures length { length header.new ≡ UNIT }
    ensures empty { (header_of header.new).records ≡ 0 }
    ensures slots { (header_of header.new).slots ≡ (header_of header.old).slots }
    ensures moved { (header_of header.old).head < EXTENTS → head_turn (header_of header.old) < 2 ^ 63
        → header_of header.new ≡ turned e (header_of header.old) }
{
    let taken = Extent {
        ord: next_turn(header),
        newest: 0,
    };
    let given_up = lost_with(header, extent_at(header, e));
    set_extent(header, block, group, e, &taken);
    set_head(header, block, group, e as u16, 0);
    set_lost(header, block, group, given_up);
}

/// Makes room for the next record of segment `seg`: the head has some, or an extent takes the next turn, the oldest if
/// no transaction that runs began in it, else one more. `RollbackFull` where none can, and nothing is changed.
pub fn make_room(
    header: &mut [u8],
    block: BlockNo,
    group: &mut Group,
    seg: u16,
) -> Result<(), RollbackFull>
    requires header { length header.old ≡ UNIT }
    requires count { length group.old + 3 ≤ GROUP_PATCHES }
    requires fits { group_length group.old + (8 + 16) + (8 + 4) + (8 + 8) ≤ GROUP_BYTES }
    ensures length { length header.new ≡ UNIT }
    ensures room { OnOk result ((header_of header.new).records < EXTENT_RECORDS) }
    ensures slots { (header_of header.new).slots ≡ (header_of header.old).slots }
    ensures few { length group.new ≤ length group.old + 3 }
    ensures short { group_length group.new ≤ group_length group.old + (8 + 16) + (8 + 4) + (8 + 8) }
    ensures within { (limit : ℕ) → block < limit → AllByRecursion (λ p. p.block < limit) group.old
        → AllByRecursion (λ p. p.block < limit) group.new }
    ensures turned { OnOk result ((patches : List Patch)
        × SamePatches block header.old header.new group.old group.new patches
        × ((header_of header.old).head < EXTENTS → head_turn (header_of header.old) < 2 ^ 63
        → HasTurned block (header_of header.old) (header_of header.new) patches)) }
    ensures full { IfErr result (λ full. (full.seg ≡ seg) × NoneMayTurn (header_of header.old)
        × IsSince (header_of header.old) full.since × (header.new ≡ header.old) × (group.new ≡ group.old)) }
{
    match next(header) {
        Turn::Same => Ok(()),
        Turn::Reuse { extent } | Turn::Grow { extent } => {
            take_turn(header, block, group, extent);
            Ok(())
        }
        Turn::Full => Err(RollbackFull {
            seg,
            since: since(header),
        }),
    }
}
