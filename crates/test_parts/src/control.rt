//! The bytes of a file's control copies, which head they say, and what a stop at each call of a move leaves.

use crate::untold::disk_of;
use rb_base::{OpenFault, UNIT, put_u32, put_u64};
use rb_control::{advance, read};
use rb_layout::{Head, Layout};
use rb_memdisk::{MemDisk, Pick};
use std::alloc::Global;
use std::test::Fail;

/// The bytes of the identity, the two copies and the chooser: all that a head is read from.
const FRONT: usize = 8_192;

/// Where the chooser stands.
const CHOOSER: usize = 6_144;

/// The head of a new file, as a copy says it.
const FIRST_COPY: &[u8; 16] = b"\0\0\0\0\0\0\0\0\0\0\0\0\0\0\0\x01";

/// A copy that says slot 63 and number 258.
const LAST_SLOT: &[u8; 16] = b"\0\0\0\x3f\0\0\0\0\0\0\0\0\0\0\x01\x02";

const FIRST: Head = Head { slot: 0, number: 1 };

const SECOND: Head = Head {
    slot: 63,
    number: 258,
};

const THIRD: Head = Head {
    slot: 4,
    number: 263,
};

/// The head of a file that begins so. Its layout has 64 log slots.
fn head_of(alloc: Global, front: &[u8]) -> Result<Result<Head, OpenFault>, Fail> {
    let layout = Layout::new(1, 1, 1, 64).ok_or("a layout")?;
    let mut disk = disk_of(alloc, front, &[])?;
    Ok(read(&mut disk, &layout))
}

/// A file of these two copies, with that chooser.
fn front_of(alloc: Global, copies: [&[u8; 16]; 2], chooser: u8) -> Result<Vec<u8>, Fail> {
    let mut front = vec![in alloc; 0u8; FRONT]?;
    front[UNIT..UNIT + 16].copy_from_slice(copies[0]);
    front[2 * UNIT..2 * UNIT + 16].copy_from_slice(copies[1]);
    front[CHOOSER] = chooser;
    Ok(front)
}

#[test]
fn chosen_heads(rt: HostRuntime) -> Result<(), Fail> {
    let alloc = rt.alloc();
    let fresh = front_of(alloc, [FIRST_COPY, FIRST_COPY], 0)?;
    assert!(rt; head_of(alloc, &fresh)? == Ok(FIRST));
    let rows = [
        (0, FIRST),
        (1, SECOND),
        (2, FIRST),
        (254, FIRST),
        (255, SECOND),
    ];
    for (chooser, head) in rows {
        let front = front_of(alloc, [FIRST_COPY, LAST_SLOT], chooser)?;
        assert!(rt; head_of(alloc, &front)? == Ok(head), "chooser {chooser}");
    }
    Ok(())
}

/// What is read where the chosen copy says this, and the other one the first head.
fn said(alloc: Global, slot: u32, number: u64) -> Result<Result<Head, OpenFault>, Fail> {
    let mut copy = [0; 16];
    put_u32(&mut copy, 0, slot);
    put_u64(&mut copy, 8, number);
    let front = front_of(alloc, [FIRST_COPY, &copy], 1)?;
    head_of(alloc, &front)
}

#[test]
fn least_and_greatest_heads(rt: HostRuntime) -> Result<(), Fail> {
    // The greatest number is 2^61.
    let rows = [
        (0, 1, true),
        (0, 0, false),
        (63, 1, true),
        (64, 1, false),
        (63, 2_305_843_009_213_693_952, true),
        (0, 2_305_843_009_213_693_953, false),
    ];
    for (slot, number, is_one) in rows {
        let expected = if is_one {
            Ok(Head { slot, number })
        } else {
            Err(OpenFault::NotAStore)
        };
        assert!(rt;
            said(rt.alloc(), slot, number)? == expected,
            "slot {slot}, number {number}"
        );
    }
    Ok(())
}

#[test]
fn bytes_of_a_move(rt: HostRuntime) -> Result<(), Fail> {
    let alloc = rt.alloc();
    let layout = Layout::new(1, 1, 1, 64).ok_or("a layout")?;
    let sevens = vec![in alloc; 7u8; FRONT]?;
    let mut disk = disk_of(alloc, &sevens, &[])?;
    // The chooser is odd, so copy 0 is the other one.
    advance(&mut disk, &layout, SECOND)?;
    let bytes = disk.disk.bytes();
    assert!(rt; bytes.get(..UNIT) == sevens.get(..UNIT));
    assert!(rt; bytes.get(UNIT..UNIT + 16) == Some(LAST_SLOT.as_slice()));
    assert!(rt; bytes.get(UNIT + 16..2 * UNIT) == Some([0; UNIT - 16].as_slice()));
    assert!(rt; bytes.get(2 * UNIT..CHOOSER) == sevens.get(2 * UNIT..CHOOSER));
    assert!(rt; bytes.get(CHOOSER) == Some(&0));
    assert!(rt; bytes.get(CHOOSER + 1..) == sevens.get(CHOOSER + 1..));
    Ok(())
}

/// The head where the disk stops after a call, picked so.
fn head_after(
    alloc: Global,
    disk: &MemDisk,
    k: u64,
    pick: Pick,
) -> Result<Result<Head, OpenFault>, Fail> {
    if k > disk.calls() {
        return Err(Fail::new("fewer calls"));
    }
    let image = disk.image(alloc, k, pick)?;
    head_of(alloc, &image)
}

/// The head after the first calls of two moves. Whether a chooser that isn't synced yet counts is said.
fn expected(k: u64, counts: bool) -> Head {
    let synced = k / 5;
    let moves = if k % 5 == 4 && counts {
        synced + 1
    } else {
        synced
    };
    match moves {
        0 => FIRST,
        1 => SECOND,
        _ => THIRD,
    }
}

#[test]
fn stop_at_each_call(rt: HostRuntime) -> Result<(), Fail> {
    let alloc = rt.alloc();
    let layout = Layout::new(1, 1, 1, 64).ok_or("a layout")?;
    let front = front_of(alloc, [FIRST_COPY, FIRST_COPY], 0)?;
    let mut disk = disk_of(alloc, &front, &[])?;
    advance(&mut disk, &layout, SECOND)?;
    advance(&mut disk, &layout, THIRD)?;
    // Of each move: the chooser is read; a copy, and a sync; the chooser, and a sync.
    assert!(rt; disk.disk.calls() == 10);
    for k in 0..11 {
        // The first move makes the chooser odd, the second even.
        let rows = [
            (Pick::Old, false),
            (Pick::New, true),
            (Pick::Fill(1), k < 5),
            (Pick::Fill(2), k > 5),
        ];
        for (pick, counts) in rows {
            assert!(rt;
                head_after(alloc, &disk.disk, k, pick)? == Ok(expected(k, counts)),
                "call {k}"
            );
        }
    }
    Ok(())
}
