//! What a table slot says of a transaction that took it. Whoever meets a slot entry in a block asks by it how the
//! transaction of the entry stands.
ghost use Rattle.std.specs.Prelude.{◌≡◌, ◌<◌, length, MatchOption};
ghost use Rattle.rb_txntable.specs.Looks.{slot_look, IsRunning};
ghost use Rattle.rb_txntable.specs.Slots.{slot_at};

use crate::looks::Look;
use crate::read::slot_at;
use crate::slots::{COMMITTED, TableSlot};
use rb_base::{ACTIVE, SLOTS, UNIT, Xid};
use std::cmp::Ordering;

/// How the transaction stands, as the header of its segment tells. One that is still to take its slot counts as
/// running.
pub fn look(header: &[u8], xid: Xid) -> Look
    requires header { length header.now ≡ UNIT }
    requires place { xid.slot < SLOTS }
    ensures { result ≡ slot_look (slot_at header.now xid.slot) xid.wrap }
{
    let slot = slot_at(header, xid.slot as u8);
    let committed = slot.state == COMMITTED;
    match slot.wrap.cmp(&xid.wrap) {
        Ordering::Less => Look::Active,
        Ordering::Equal if slot.state == ACTIVE => Look::Active,
        Ordering::Equal if committed => Look::At(slot.newest),
        Ordering::Greater if committed => Look::Before(slot.before),
        _ => Look::Before(slot.newest),
    }
}

/// The table slot of a transaction that runs. None exactly where it doesn't: its slot isn't taken, or not by it.
pub fn running(header: &[u8], xid: Xid) -> Option<TableSlot>
    requires header { length header.now ≡ UNIT }
    requires place { xid.slot < SLOTS }
    ensures { MatchOption result (¬ IsRunning (slot_at header.now xid.slot) xid.wrap)
        (λ slot. (slot ≡ slot_at header.now xid.slot) × IsRunning slot xid.wrap) }
{
    let slot = slot_at(header, xid.slot as u8);
    if slot.state == ACTIVE && slot.wrap == xid.wrap {
        Some(slot)
    } else {
        None
    }
}
