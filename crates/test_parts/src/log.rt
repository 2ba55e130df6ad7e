//! Units by their bytes, the calls of a disk that a flush of groups makes, also round the end of the slots, and what a
//! head that moves leaves in a log.
ghost use Rattle.std.specs.Prelude.{◌≡◌, ◌≤◌, [], ◌∷◌, true, IfSome};
ghost use Rattle.rb_base.specs.Counts.{IsCounted};
ghost use Rattle.rb_base.specs.Groups.{patch};

use rb_base::{Failed, Group};
use rb_disk::Disk;
use rb_layout::{Head, Layout};
use rb_log::Log;
use std::test::Fail;

/// What stands before the zeros: gate 1, 11 bytes, number 7, and one patch of block 0, the byte 1 at 416.
const UNIT_BYTES: &[u8; 27] =
    b"\x01\0\0\x0b\0\0\0\0\0\0\0\0\0\0\0\x07\0\x01\0\0\0\0\x01\xa0\0\x01\x01";

/// Where the log begins.
const LOG_BEGIN: usize = 8_192;

/// The bytes of its 64 slots, and behind them the twin area's gate.
const KEPT: usize = 131_073;

/// Where the gate of slot 60 is among them.
const GATE_OF_60: usize = 122_880;

/// A call that writes or syncs, by its place, its count of bytes and its first byte.
#[derive(Clone, Copy, Debug, PartialEq, Eq)]
enum Call {
    None,
    Write(u64, usize, u8),
    Sync,
}

/// Keeps its calls and what they write to the slots, and fails at one of them. Where nothing is written it reads as 9.
#[derive(Drop)]
struct Calls {
    made: [Call; 10],
    count: usize,
    fails_at: usize,
    faults: u64,
    kept: [u8; KEPT],
}

impl Calls {
    fn one_more(&mut self, call: Call) -> Result<(), Failed>
        ensures { IsCounted self.old.faults self.new.faults result }
    {
        let here = self.count;
        self.count = here.saturating_add(1);
        if here < 10 {
            self.made[here] = call;
        }
        if here == self.fails_at || here >= 10 {
            self.faults = self.faults.saturating_add(1);
            return Err(Failed);
        }
        Ok(())
    }
}

/// Keeps what is written to the slots.
fn keep(all: &mut [u8], at: u64, bytes: &[u8]) {
    let from = (at as usize).wrapping_sub(LOG_BEGIN);
    for (place, byte) in bytes.iter().enumerate() {
        if let Some(kept) = all.get_mut(from.wrapping_add(place)) {
            *kept = *byte;
        }
    }
}

/// Reads what is kept of the slots.
fn read_kept(all: &[u8], at: u64, into: &mut [u8]) {
    let from = (at as usize).wrapping_sub(LOG_BEGIN);
    for place in 0..into.len() {
        into[place] = all.get(from.wrapping_add(place)).copied().unwrap_or(9);
    }
}

impl Disk for Calls {
    ghost tells = { ⊥ };

    ghost content = { λ disk. [] };

    ghost image = { λ disk c. ⊥ };

    ghost moment = { λ disk. 0 };

    ghost image_since = { λ disk t c. ⊥ };

    ghost faults = { λ disk. disk.faults };

    ghost reads_an_image = { λ disk told. absurd told };

    ghost now_counts = { λ disk t c told le here. absurd told };

    ghost only_now = { λ disk c told since. absurd told };

    fn len(&mut self) -> Result<u64, Failed> {
        Ok(0)
    }

    fn read_at(&mut self, at: u64, into: &mut [u8]) -> Result<(), Failed> {
        read_kept(&self.kept, at, into);
        Ok(())
    }

    fn write_at(&mut self, at: u64, bytes: &[u8]) -> Result<(), Failed> {
        let first = if bytes.is_empty() { 9 } else { bytes[0] };
        keep(&mut self.kept, at, bytes);
        self.one_more(Call::Write(at, bytes.len(), first))
    }

    fn sync(&mut self) -> Result<(), Failed> {
        self.one_more(Call::Sync)
    }
}

/// The group of one patch of block 0.
fn one_patch(byte: u8) -> Group
    ensures { result ≡ patch 0 416 (byte ∷ []) ∷ [] }
{
    let mut group = Group::new();
    group.push(0, 416, &[byte]);
    group
}

/// A disk that fails at the call of that number, and whose slots hold nothing.
fn new_calls(fails_at: usize) -> Calls {
    Calls {
        made: [Call::None; 10],
        count: 0,
        fails_at,
        faults: 0,
        kept: [9; KEPT],
    }
}

/// The log of 64 slots from a head on, with the groups that are there, or None where there is no such log. It may take
/// groups.
fn log_from(rt: &HostRuntime, disk: &mut Calls, head: Head) -> Option<Log>
    ensures scanned { IfSome result (λ log. log.scanned ≡ true) }
    ensures number { IfSome result (λ log. log.head.number ≤ 1000) }
{
    let layout = Layout::new(1, 1, 1, 64)?;
    if head.slot >= layout.log || head.number > 1000 {
        return None;
    }
    let Ok(mut log) = Log::open(rt.alloc(), disk, &layout, head) else {
        return None;
    };
    let mut group = Group::new();
    for place in 0..64u64 {
        match log.scan(disk, head.number + place, &mut group) {
            Ok(true) => (),
            Ok(false) => return Some(log),
            Err(_) => return None,
        }
    }
    None
}

/// Appends that many groups, whose bytes are 1, 2 and so on.
fn append(log: &mut Log, count: u8) -> Result<(), Fail>
    requires scanned { log.old.scanned ≡ true }
    requires number { log.old.head.number ≤ 1000 }
    ensures scanned { log.new.scanned ≡ true }
    ensures number { log.new.head.number ≤ 1000 }
{
    for i in 0..count {
        if !log.room() {
            return Err(Fail::new("no room"));
        }
        log.append(&one_patch(i + 1));
    }
    Ok(())
}

/// The calls of a flush of groups behind so many others in a log that begins in a slot, and whether it is done, where
/// the call of that number fails.
fn flush_of(
    rt: &HostRuntime,
    slot: u32,
    others: u8,
    count: u8,
    fails_at: usize,
) -> Result<(Calls, bool), Fail> {
    let mut disk = new_calls(10);
    let Some(mut log) = log_from(rt, &mut disk, Head { slot, number: 1 }) else {
        return Err(Fail::new("no log"));
    };
    append(&mut log, others)?;
    log.flush(&mut disk)?;
    disk.count = 0;
    disk.fails_at = fails_at;
    append(&mut log, count)?;
    let answer = log.flush(&mut disk);
    Ok((disk, answer.is_ok()))
}

#[test]
fn unit_of_one_patch(rt: HostRuntime) -> Result<(), Fail> {
    let (disk, is_ok) = flush_of(&rt, 0, 6, 1, 10)?;
    assert!(rt; is_ok);
    // Slot 6, which is the unit of number 7.
    assert!(rt; &disk.kept[12288..12315] == UNIT_BYTES.as_slice());
    assert!(rt; &disk.kept[12315..14336] == [0; 2021].as_slice());
    Ok(())
}

#[test]
fn gates_of_a_run(rt: HostRuntime) -> Result<(), Fail> {
    let (disk, is_ok) = flush_of(&rt, 0, 4, 3, 10)?;
    assert!(rt; is_ok);
    // The gate, the number, the byte of the patch and the end of each unit; then the closed gate, and what isn't
    // touched.
    let first = [(8192, 1), (8207, 5), (8218, 1), (10239, 0)];
    let second = [(10240, 1), (10255, 6), (10266, 2), (12287, 0)];
    let third = [(12288, 1), (12303, 7), (12314, 3), (14335, 0)];
    let after = [(14336, 0), (14337, 9), (16382, 9), (16383, 9)];
    for row in [first, second, third, after] {
        for (place, expected) in row {
            assert!(rt; disk.kept.get(place).copied() == Some(expected));
        }
    }
    Ok(())
}

#[test]
fn bytes_at_the_end(rt: HostRuntime) -> Result<(), Fail> {
    // Slot 63 has number 3. Of three groups its unit is the last: the gate behind it is that of slot 0, and the twin
    // area's keeps its byte.
    let ends = [(129039, 3), (131071, 0), (131072, 9), (0, 0), (1, 9)];
    // Of five the others go round: slot 0 has number 4, and the gate behind the last is that of slot 2.
    let round = [(131072, 9), (0, 1), (15, 4), (4096, 0), (4097, 9)];
    for (count, bytes) in [(3, ends), (5, round)] {
        let (disk, is_ok) = flush_of(&rt, 61, 0, count, 10)?;
        assert!(rt; is_ok);
        for (place, expected) in bytes {
            assert!(rt; disk.kept.get(place).copied() == Some(expected));
        }
    }
    Ok(())
}

/// The calls of a flush of 34 groups after three others.
const TWO_RUNS: [Call; 5] = [
    Call::Write(14337, 65536, 0),
    Call::Write(79873, 4096, 0),
    Call::Sync,
    Call::Write(14336, 1, 1),
    Call::Sync,
];

#[test]
fn two_runs_in_order(rt: HostRuntime) -> Result<(), Fail> {
    for fails_at in 0..6 {
        let (disk, is_ok) = flush_of(&rt, 0, 3, 34, fails_at)?;
        assert!(rt; is_ok == (fails_at == 5));
        let made = 5.min(fails_at + 1);
        assert!(rt; disk.count == made);
        assert!(rt; &disk.made[..made] == &TWO_RUNS[..made]);
    }
    Ok(())
}

/// The calls of a flush of five groups from slot 61 of 64 on. What is written there ends in front of the twin area, and
/// the gate behind it is that of slot 0.
const ROUND_THE_END: [Call; 6] = [
    Call::Write(133121, 6143, 0),
    Call::Write(8192, 1, 1),
    Call::Write(8193, 4096, 0),
    Call::Sync,
    Call::Write(133120, 1, 1),
    Call::Sync,
];

#[test]
fn runs_round_the_end_in_order(rt: HostRuntime) -> Result<(), Fail> {
    for fails_at in 0..7 {
        let (disk, is_ok) = flush_of(&rt, 61, 0, 5, fails_at)?;
        assert!(rt; is_ok == (fails_at == 6));
        let made = 6.min(fails_at + 1);
        assert!(rt; disk.count == made);
        assert!(rt; &disk.made[..made] == &ROUND_THE_END[..made]);
    }
    Ok(())
}

#[test]
fn whole_runs_and_none(rt: HostRuntime) -> Result<(), Fail> {
    for (slot, count, calls) in [
        (0, 0, 0),
        (0, 1, 4),
        (0, 32, 4),
        (0, 33, 5),
        (0, 60, 5),
        (58, 3, 5),
        (58, 40, 7),
    ] {
        let (disk, is_ok) = flush_of(&rt, slot, 3, count, 10)?;
        assert!(rt; is_ok);
        assert!(rt; disk.count == calls);
    }
    Ok(())
}

/// How many groups a log has from a head on, or None where there is no such log.
fn found_from(rt: &HostRuntime, disk: &mut Calls, head: Head) -> Option<u32> {
    let log = log_from(rt, disk, head)?;
    Some(log.used())
}

#[test]
fn scans_from_a_head(rt: HostRuntime) -> Result<(), Fail> {
    let (mut disk, is_ok) = flush_of(&rt, 61, 0, 5, 10)?;
    assert!(rt; is_ok);
    let whole = [(61, 1, Some(5)), (62, 2, Some(4)), (63, 3, Some(3))];
    let behind = [(0, 4, Some(2)), (2, 6, Some(0)), (0, 5, None)];
    for row in [whole, behind] {
        for (slot, number, expected) in row {
            assert!(rt; found_from(&rt, &mut disk, Head { slot, number }) == expected);
        }
    }
    Ok(())
}

/// Frees the slots of all groups: the head goes behind them.
fn release_all(log: &mut Log) -> Head
    requires { log.old.scanned ≡ true }
    ensures scanned { log.new.scanned ≡ true }
{
    let next = log.next();
    log.release(next);
    next
}

/// Where a log goes on that began in a slot, had so many groups and released them; and how many it has then.
fn moved_head(rt: &HostRuntime, slot: u32, count: u8) -> Result<(Head, u32), Fail> {
    let mut disk = new_calls(10);
    let Some(mut log) = log_from(rt, &mut disk, Head { slot, number: 1 }) else {
        return Err(Fail::new("no log"));
    };
    append(&mut log, count)?;
    log.flush(&mut disk)?;
    let next = release_all(&mut log);
    Ok((next, log.used()))
}

#[test]
fn heads_that_move(rt: HostRuntime) -> Result<(), Fail> {
    for (slot, count, expected) in [
        (0, 0, 0),
        (0, 63, 63),
        (61, 2, 63),
        (61, 3, 0),
        (61, 5, 2),
        (61, 63, 60),
    ] {
        let (next, used) = moved_head(&rt, slot, count)?;
        assert!(rt; next.slot == expected);
        assert!(rt; next.number == u64::from(count) + 1);
        assert!(rt; used == 0);
    }
    Ok(())
}

/// Closes the gate behind the groups of a full log, and says whether it was full and that is done.
fn shut_full(log: &mut Log, disk: &mut Calls) -> bool {
    let used = log.used();
    if log.room() || log.pending() > 0 || used == 0 {
        return false;
    }
    log.shut(disk).is_ok()
}

/// The calls of `shut` on the log of a full ring whose last gate was left open, and whether it is done.
fn shut_of(rt: &HostRuntime, count: u8) -> Result<(Calls, bool), Fail> {
    let (mut disk, _) = flush_of(rt, 61, 0, count, 10)?;
    disk.kept[GATE_OF_60] = 1;
    let Some(mut log) = log_from(
        rt,
        &mut disk,
        Head {
            slot: 61,
            number: 1,
        },
    ) else {
        return Err(Fail::new("no log"));
    };
    disk.count = 0;
    let is_shut = shut_full(&mut log, &mut disk);
    Ok((disk, is_shut))
}

#[test]
fn shut_closes_one_gate(rt: HostRuntime) -> Result<(), Fail> {
    for (count, full, gate) in [(63, true, 0), (62, false, 1)] {
        let (disk, is_shut) = shut_of(&rt, count)?;
        assert!(rt; is_shut == full);
        assert!(rt; disk.kept[GATE_OF_60] == gate);
    }
    Ok(())
}

#[test]
fn shut_is_a_write_and_a_sync(rt: HostRuntime) -> Result<(), Fail> {
    let (disk, _) = shut_of(&rt, 63)?;
    assert!(rt; disk.count == 2);
    assert!(rt; &disk.made[..2] == [Call::Write(131072, 1, 0), Call::Sync].as_slice());
    Ok(())
}
