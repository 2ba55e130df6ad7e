//! The life of a segment over a copy of its header: where its records go, what is lost, and when it is full. After each
//! call the patches of its group make of the header before what the call made.
ghost use Rattle.std.specs.Prelude.{IsTrue, ◌≡◌, ◌≢◌, ◌<◌, ℕ, length, IfSome};
ghost use Rattle.rb_segment.specs.Calls.{Runs};
ghost use Rattle.rb_segment.specs.Header.{header_of, slot_in};

use rb_base::{ACTIVE, Group, SLOTS, Scn, Shape, UNIT, Uba, Xid};
use rb_ring::{Extent, extent_at, head_extent, head_records, lost, writes};
use rb_segment::{RollbackFull, add_record, claim, commit, end, take_back};
use rb_txntable::{ENDED, TableSlot, choose, slot_at, slot_state};
use rb_undoblock::{PUT, UndoRecord};
use std::process::Abort;

const SHAPE: Shape = Shape {
    tables: 1,
    blocks: 10,
    segments: 1,
};

/// The block of the segment's header.
const HEADER: u32 = 10;

/// A record. The header tells nothing of what is in it.
pub(crate) const UNDO: UndoRecord = UndoRecord {
    wrap: 1,
    key: 2,
    number: 3,
    home: 4,
    table: 1,
    slot: 5,
    kind: PUT,
    entry: 6,
    cell: 7,
    previous: Uba {
        block: 0,
        rec: 0,
        ord: 0,
    },
    entry_before: [0; 48],
    cell_before: [0; 92],
};

/// The header of a new file's segment: extent 0 is the head and has turn 2, and extent 1 has turn 1.
fn fresh() -> [u8; 2048] {
    let mut header = [0; 2048];
    header[1063] = 2;
    header[1095] = 1;
    header
}

/// The header with the bytes of the group's patches of its block.
fn patched(header: &[u8; 2048], group: &Group) -> [u8; 2048] {
    let mut block = *header;
    for p in 0..group.patches() {
        let at = group.patch_at(p) as usize;
        let bytes = group.patch_bytes(p);
        if group.patch_block(p) == HEADER && at + bytes.len() <= 2048 {
            block[at..at + bytes.len()].copy_from_slice(bytes);
        }
    }
    block
}

/// Whether a transaction can take a table slot.
pub(crate) fn is_idle(header: &[u8]) -> bool
    requires { length header.now ≡ UNIT }
    ensures { IsTrue result → (i : ℕ) × (i < SLOTS) × ((slot_in (header_of header.now) i).state ≢ ACTIVE) }
{
    let Some(i) = choose(header) else {
        return false;
    };
    slot_state(header, i as usize) != ACTIVE
}

/// How many live records the transaction has, if it runs.
pub(crate) fn live_of(header: &[u8], xid: Xid) -> Option<u32>
    requires { length header.now ≡ UNIT }
    ensures runs { IfSome result (λ live. Runs (header_of header.now) xid) }
    ensures segment { IfSome result (λ live. xid.seg < 1) }
    ensures live { IfSome result (λ live. live ≡ (slot_in (header_of header.now) xid.slot).live) }
{
    if xid.seg != 0 || xid.slot >= SLOTS as u16 {
        return None;
    }
    let slot = slot_at(header, xid.slot as u8);
    if slot.state != ACTIVE || slot.wrap != xid.wrap {
        return None;
    }
    Some(slot.live)
}

fn begin(rt: &impl Abort, header: &mut [u8; 2048]) -> Xid {
    assert!(rt; is_idle(header));
    let before = *header;
    let mut group = Group::new();
    let xid = claim(header, &SHAPE, 0, &mut group);
    assert!(rt; patched(&before, &group) == *header);
    xid
}

fn add(rt: &impl Abort, header: &mut [u8; 2048], xid: Xid) -> Result<Uba, RollbackFull> {
    assert!(rt; live_of(header, xid).is_some());
    let before = *header;
    let mut group = Group::new();
    let added = add_record(header, &SHAPE, xid, &UNDO, &mut group);
    assert!(rt; patched(&before, &group) == *header);
    added
}

fn put_back(rt: &impl Abort, header: &mut [u8; 2048], xid: Xid, previous: Uba) {
    let Some(live) = live_of(header, xid) else {
        panic!(rt; "the transaction runs");
    };
    assert!(rt; live >= 1);
    let before = *header;
    let mut group = Group::new();
    take_back(header, &SHAPE, xid, previous, &mut group);
    assert!(rt; patched(&before, &group) == *header);
}

fn finish(rt: &impl Abort, header: &mut [u8; 2048], xid: Xid, scn: Scn) {
    let Some(live) = live_of(header, xid) else {
        panic!(rt; "the transaction runs");
    };
    assert!(rt; live >= 1);
    let before = *header;
    let mut group = Group::new();
    commit(header, &SHAPE, xid, scn, &mut group);
    assert!(rt; patched(&before, &group) == *header);
}

fn leave(rt: &impl Abort, header: &mut [u8; 2048], xid: Xid) {
    let Some(live) = live_of(header, xid) else {
        panic!(rt; "the transaction runs");
    };
    assert!(rt; live == 0);
    let before = *header;
    let mut group = Group::new();
    end(header, &SHAPE, xid, &mut group);
    assert!(rt; patched(&before, &group) == *header);
}

/// One transaction of so many records that commits at `scn`. The answer is how many records were made then, and the
/// greatest number that was lost.
fn transaction(rt: &impl Abort, header: &mut [u8; 2048], records: u32, scn: Scn) -> (u64, Scn) {
    let xid = begin(rt, header);
    for _ in 0..records {
        assert!(rt; add(rt, header, xid).is_ok());
    }
    finish(rt, header, xid, scn);
    (writes(header), lost(header))
}

/// Transactions of one record each, which commit at the numbers from `first` up to the one before `behind`.
fn one_each(rt: &impl Abort, header: &mut [u8; 2048], first: Scn, behind: Scn) -> (u64, Scn) {
    for scn in first..behind {
        transaction(rt, header, 1, scn);
    }
    (writes(header), lost(header))
}

// The sixteen slots are taken again before the extents are, so that the commit of sixteen transactions back is lost.
#[test]
fn undo_ring_reuse(rt: HostRuntime) {
    let rows = [
        (1, 17, (16, 0)),
        (17, 18, (17, 1)),
        (18, 41, (40, 24)),
        (41, 42, (41, 25)),
        (42, 81, (80, 64)),
        (81, 82, (81, 65)),
    ];
    let mut header = fresh();
    for (first, behind, told) in rows {
        assert!(rt; one_each(&rt, &mut header, first, behind) == told);
    }
}

// Five transactions, so that no slot is taken again: what the extents give up is lost.
#[test]
fn turns_of_extents(rt: HostRuntime) {
    let rows = [
        (40, 1, (40, 0), 0, 40), // the head is full
        (1, 2, (41, 0), 1, 1), // extent 1 held nothing
        (39, 3, (80, 0), 1, 40), //
        (1, 4, (81, 1), 0, 1), // extent 0 held 1
        (40, 5, (121, 3), 1, 1), // extent 1 held 2 and 3
    ];
    let mut header = fresh();
    for (records, scn, told, head, in_head) in rows {
        assert!(rt; transaction(&rt, &mut header, records, scn) == told);
        assert!(rt; head_extent(&header) == head);
        assert!(rt; head_records(&header) == in_head);
    }
}

// A transaction that made the first record of extent 0 goes on, so that this extent isn't taken again.
#[test]
fn grown_to_eight(rt: HostRuntime) {
    let rows = [
        (1, 40, (40, 24), 0, 40),
        (40, 41, (41, 25), 1, 1),
        (41, 80, (80, 64), 1, 40),
        (80, 81, (81, 65), 2, 1),
        (81, 281, (281, 265), 7, 1),
        (281, 320, (320, 304), 7, 40),
    ];
    let mut header = fresh();
    let xid = begin(&rt, &mut header);
    assert!(rt; add(&rt, &mut header, xid).is_ok());
    for (first, behind, told, head, in_head) in rows {
        assert!(rt; one_each(&rt, &mut header, first, behind) == told);
        assert!(rt; head_extent(&header) == head);
        assert!(rt; head_records(&header) == in_head);
    }
    // It commits at last, and extent 0 gives up that number.
    finish(&rt, &mut header, xid, 320);
    assert!(rt; transaction(&rt, &mut header, 1, 321) == (321, 320));
    assert!(rt; head_extent(&header) == 0);
}

// A transaction begins at number `next` and makes one record; others follow until `made` records were made.
#[test]
fn rollback_full(rt: HostRuntime) {
    for (next, made, since) in [(1, 320, 320), (40, 320, 281), (41, 360, 320)] {
        let full = RollbackFull { seg: 0, since };
        let mut header = fresh();
        one_each(&rt, &mut header, 1, next);
        let xid = begin(&rt, &mut header);
        assert!(rt; add(&rt, &mut header, xid).is_ok());
        assert!(rt; one_each(&rt, &mut header, next, made).0 == made);
        assert!(rt; add(&rt, &mut header, xid) == Err(full));
        // So it is for each transaction.
        let other = begin(&rt, &mut header);
        assert!(rt; add(&rt, &mut header, other) == Err(full));
    }
}

const LAST_OF_HEAD: Uba = Uba {
    block: 14,
    rec: 9,
    ord: 2,
};

const FIRST_OF_NEXT: Uba = Uba {
    block: 15,
    rec: 0,
    ord: 3,
};

#[test]
fn record_put_back(rt: HostRuntime) {
    let mut header = fresh();
    one_each(&rt, &mut header, 1, 40);
    let xid = begin(&rt, &mut header);
    assert!(rt; add(&rt, &mut header, xid) == Ok(LAST_OF_HEAD));
    assert!(rt; add(&rt, &mut header, xid) == Ok(FIRST_OF_NEXT));
    put_back(&rt, &mut header, xid, LAST_OF_HEAD);
    assert!(rt; writes(&header) == 41);
    assert!(rt; head_records(&header) == 1);
    assert!(rt; live_of(&header, xid) == Some(1));
    // Both extents have its number, also the one of the record that was put back.
    finish(&rt, &mut header, xid, 100);
    let extents = [(0, 2, 100), (1, 3, 100), (2, 0, 0)];
    for (e, ord, newest) in extents {
        assert!(rt; extent_at(&header, e) == Extent { ord, newest });
    }
}

// Each slot was taken once, and slot 0 is taken again: what it told is lost, and stays its newest.
#[test]
fn ended_slot(rt: HostRuntime) {
    let mut header = fresh();
    one_each(&rt, &mut header, 1, 17);
    assert!(rt; lost(&header) == 0);
    let xid = begin(&rt, &mut header);
    assert!(rt; lost(&header) == 1);
    leave(&rt, &mut header, xid);
    let ended = TableSlot {
        state: ENDED,
        wrap: 2,
        newest: 1,
        before: 1,
        first: 2,
        start: 16,
        ..TableSlot::default()
    };
    assert!(rt; slot_at(&header, 0) == ended);
    let again = begin(&rt, &mut header);
    assert!(rt; (again.slot, again.wrap) == (0, 3));
    assert!(rt; lost(&header) == 1);
}
