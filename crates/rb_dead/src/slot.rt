//! The dead transaction of a table slot. All that puts one back asks for it here.
ghost use Rattle.std.specs.Prelude.{◌≡◌, ◌<◌, ◌+◌, ◌*◌, ℕ, List, []};
ghost use Rattle.std.specs.Prelude.{false, not, Some, IfOk, IfSome};
ghost use Rattle.std.specs.Result.{is_err};
ghost use Rattle.rb_base.specs.Logs.{Logs};
ghost use Rattle.rb_base.specs.declared.ids.Xid.{Xid};
ghost use Rattle.law_blocks.specs.Standing.{env_of};
ghost use Rattle.law_blocks.specs.States.{BlocksStand};
ghost use Rattle.law_sessions.specs.Views.{Remembers};
ghost use Rattle.rb_dead.specs.Takes.{FoundDead};
ghost use Rattle.rb_model.specs.State.{State};

use rb_base::{ACTIVE, Failed, SLOTS, Store, Xid};
use rb_sessions::Sessions;
use rb_txntable::slot_at;

/// A dead transaction: its id, and how many live changes it has.
#[derive(Clone, Copy)]
pub struct Dead {
    pub xid: Xid,
    pub live: u32,
}

/// The transaction that has slot `i` of segment `seg` and is no session's. `None` where the slot is free, or a
/// session's. `Failed` only where a call of the store failed.
pub fn dead_in_slot<S: Store>(
    sessions: &Sessions,
    store: &mut S,
    seg: u16,
    i: u16,
) -> Result<Option<Dead>, Failed>
    requires going { S.failed store.old ≡ false }
    requires there { seg < (S.shape_of store.old).segments }
    requires slot { i < SLOTS }
    ensures logs { Logs S.Store store.old store.new [] (not (is_err result)) }
    ensures place { IfOk result (λ found. IfSome found (λ dead. (dead.xid.seg ≡ seg) × (dead.xid.slot ≡ i))) }
    ensures found { S.tells → (h : State) (xids : List Xid) → S.shape_of store.old ≡ h.shape
        → BlocksStand h xids (S.blocks store.old)
        → Remembers h xids (env_of h.shape (S.blocks store.old)) sessions.now
        → IfOk result (FoundDead h (S.blocks store.old) (SLOTS * seg + i)) }
{
    store.load(store.shape().header_block(seg))?;
    let slot = slot_at(store.block(), i as u8);
    let xid = Xid {
        seg,
        slot: i,
        wrap: slot.wrap,
    };
    if slot.state != ACTIVE || sessions.owner(xid).is_some() {
        return Ok(None);
    }
    Ok(Some(Dead {
        xid,
        live: slot.live,
    }))
}
