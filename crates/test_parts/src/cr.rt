//! Homes of a small file as they were at snapshots: rows that records of undo bring back, the reader's own changes over
//! them, and snapshots that are too old; and which readers a kept home serves, what it spares, and until when.
ghost use Rattle.std.specs.Prelude.{◌≡◌, ◌<◌, ◌≤◌, false};

use crate::loads::Loads;
use crate::writers::{SHAPE, Writers, apply, copy_of};
use arrayvec::ArrayVec;
use rb_base::{BlockNo, Group, Lsn, Scn, Shape, Store, array_of, u64_at};
use rb_cell::{CELLS, Cell, EMPTY, ROW, STUB, cells};
use rb_copies::{COPIES, Copies, CopyKey, KeptHome};
use rb_cr::{CrFault, Scratch, Snapshot, Steps, build, build_with};
use rb_itl::{ENTRIES, EXACT, Entry, OPEN, entry};
use rb_model::{Op, Row};
use std::array;
use std::marker::Brand;
use std::sync::ledger::{Blank, Ledger};
use std::test::Fail;

/// Rebuilds a home, with the help of kept ones where a table of them is given, and counts the records in a ledger.
fn counted<S: Store, L: Ledger>(
    store: &mut S,
    home: BlockNo,
    snapshot: Snapshot,
    scratch: &mut Scratch,
    copies: Option<&mut Copies>,
    blank: Blank,
) -> Result<(), CrFault>
    requires going { S.failed store.old ≡ false }
    requires name { blank.name ≡ L.name }
    requires parts { blank.parts ≡ L.parts }
    requires some { 0 < blank.parts }
{
    if home >= store.shape().block_count() {
        return Err(CrFault::Failed);
    }
    let mut steps = Steps::<L>::new(blank);
    match copies {
        None => build(store, home, &snapshot, scratch, &mut steps),
        Some(copies) => build_with(store, home, &snapshot, scratch, copies, &mut steps),
    }
}

/// Rebuilds a home as a session sees it at a number with the first changes of its latest transaction, which may have
/// committed since. Session 0 has none.
fn built(
    writers: &mut Writers,
    home: BlockNo,
    scn: Scn,
    s: u16,
    upto: u32,
    scratch: &mut Scratch,
) -> Result<(), CrFault> {
    let snapshot = Snapshot {
        scn,
        own: writers.id(s),
        upto,
    };
    counted::<_, Brand>(
        &mut writers.store,
        home,
        snapshot,
        scratch,
        None,
        Blank::new(1),
    )
}

/// Rebuilds home 0 as such a reader sees it, with the help of kept homes.
fn built_with(
    writers: &mut Writers,
    scn: Scn,
    s: u16,
    upto: u32,
    scratch: &mut Scratch,
    copies: &mut Copies,
) -> Result<(), CrFault> {
    let snapshot = Snapshot {
        scn,
        own: writers.id(s),
        upto,
    };
    counted::<_, Brand>(
        &mut writers.store,
        0,
        snapshot,
        scratch,
        Some(copies),
        Blank::new(1),
    )
}

/// Whether the rows of a home that was rebuilt are exactly these, in this order.
fn shows(scratch: &Scratch, rows: &[(u64, &[u8])]) -> bool {
    let mut row = Row {
        key: 0,
        value: ArrayVec::new(),
    };
    let mut after = None;
    for (key, value) in rows {
        let is_next = scratch.next(after, 0, u64::MAX, &mut row);
        if !is_next || row.key != *key || row.value.as_slice() != *value {
            return false;
        }
        after = Some(*key);
    }
    !scratch.next(after, 0, u64::MAX, &mut row)
}

/// What a reader of home 0 sees: its number, its session with how many of its changes, and the rows.
type Sight = (Scn, u16, u32, &'static [(u64, &'static [u8])]);

/// Whether a reader of home 0 sees those rows, with the help of kept homes.
fn sees(writers: &mut Writers, scratch: &mut Scratch, copies: &mut Copies, sight: &Sight) -> bool {
    let (scn, s, upto, rows) = sight;
    built_with(writers, *scn, *s, *upto, scratch, copies).is_ok() && shows(scratch, rows)
}

/// Whether each reader of home 0 sees those rows, where what is built for one is kept for all.
fn see_with(
    writers: &mut Writers,
    scratch: &mut Scratch,
    copies: &mut Copies,
    sights: &[Sight],
) -> bool {
    for sight in sights {
        if !sees(writers, scratch, copies, sight) {
            return false;
        }
    }
    true
}

/// Whether each reader of home 0 sees those rows, and sees the same with a table that keeps nothing.
fn see(writers: &mut Writers, scratch: &mut Scratch, sights: &[Sight]) -> bool {
    for (scn, s, upto, rows) in sights {
        let is_built = built(writers, 0, *scn, *s, *upto, scratch).is_ok();
        if !is_built || !shows(scratch, rows) {
            return false;
        }
    }
    see_with(writers, scratch, &mut Copies::none(), sights)
}

/// Whether the lines are done over a new file, and each reader sees its rows then, also twice with a table that keeps
/// homes.
fn tells(rt: &HostRuntime, lines: &[u8], sights: &[Sight]) -> Result<bool, Fail> {
    let mut writers = Writers::new(rt.alloc(), SHAPE)?;
    let mut scratch = Scratch::new(rt.alloc())?;
    let mut copies = Copies::new(rt.alloc(), COPIES)?;
    Ok(
        writers.lines(lines)
            && see(&mut writers, &mut scratch, sights)
            && see_with(&mut writers, &mut scratch, &mut copies, sights)
            && see_with(&mut writers, &mut scratch, &mut copies, sights),
    )
}

#[test]
fn snapshot_before_an_update(rt: HostRuntime) -> Result<(), Fail> {
    let scratch = Scratch::new(rt.alloc())?;
    assert!(rt; shows(&scratch, &[]));
    let lines = b"insert 1 1 0 a\ncommit 1\nupdate 1 1 0 b\ncommit 1\n";
    let sights: [Sight; 3] = [
        (1, 0, 0, &[(0, b"a")]),
        (2, 0, 0, &[(0, b"b")]),
        (0, 0, 0, &[]),
    ];
    assert!(rt; tells(&rt, lines, &sights)?);
    Ok(())
}

// The eight entries tell of commits 9 and 2 to 8. The reader's own change takes the entry of commit 2, so its record
// has what that entry was, and the way back to commit 1 leads through it.
const EIGHT_ENTRIES: &[u8] = b"\
insert 1 1 2 a
insert 1 1 4 b
commit 1
update 1 1 4 z
commit 1
update 1 1 4 z
commit 1
update 1 1 4 z
commit 1
update 1 1 4 z
commit 1
update 1 1 4 z
commit 1
update 1 1 4 z
commit 1
update 1 1 4 z
commit 1
update 1 1 4 z
commit 1
update 2 1 2 x
";

#[test]
fn own_entry_is_not_the_end(rt: HostRuntime) -> Result<(), Fail> {
    let sights: [Sight; 3] = [
        (1, 2, 1, &[(2, b"x"), (4, b"b")]),
        (1, 2, 0, &[(2, b"a"), (4, b"b")]),
        (9, 0, 0, &[(2, b"a"), (4, b"z")]),
    ];
    assert!(rt; tells(&rt, EIGHT_ENTRIES, &sights)?);
    Ok(())
}

/// So many commits of a session, each with an update of one key. Answers whether all were made.
fn commit_updates(writers: &mut Writers, key: u64, count: u32) -> bool {
    for _ in 0..count {
        let is_done = writers.write(1, 1, key, Some(Op::Update(b"u"))).is_ok();
        if !is_done || writers.commit(1).is_err() {
            return false;
        }
    }
    true
}

// Sixteen transactions later the slot of commit 1 is taken again: all that is known is that it committed by 1.
#[test]
fn bound_above_the_snapshot(rt: HostRuntime) -> Result<(), Fail> {
    let mut writers = Writers::new(rt.alloc(), SHAPE)?;
    let mut scratch = Scratch::new(rt.alloc())?;
    assert!(rt; writers.lines(b"insert 1 1 0 a\ncommit 1\ninsert 1 1 1 b\ncommit 1\n"));
    assert!(rt; commit_updates(&mut writers, 1, 15));
    let old = CrFault::TooOld { scn: 0, lost: 1 };
    assert!(rt; built(&mut writers, 0, 0, 0, 0, &mut scratch) == Err(old));
    let sights: [Sight; 2] = [(1, 0, 0, &[(0, b"a")]), (17, 0, 0, &[(0, b"a")])];
    assert!(rt; see(&mut writers, &mut scratch, &sights));
    assert!(rt; built(&mut writers, 1, 17, 0, 0, &mut scratch).is_ok());
    assert!(rt; shows(&scratch, &[(1, b"u")]));
    Ok(())
}

// Seventy-nine records lead back to commit 1. The next one takes the place of the first, and its transaction takes the
// slot of commit 65: so much is lost. Records 41 to 81 are there still, and a reader at 40 needs no other.
#[test]
fn extent_taken_again(rt: HostRuntime) -> Result<(), Fail> {
    let mut writers = Writers::new(rt.alloc(), SHAPE)?;
    let mut scratch = Scratch::new(rt.alloc())?;
    assert!(rt; writers.lines(b"insert 1 1 0 a\ncommit 1\n"));
    assert!(rt; commit_updates(&mut writers, 0, 79));
    assert!(rt; see(&mut writers, &mut scratch, &[(1, 0, 0, &[(0, b"a")])]));
    assert!(rt; writers.line(b"update 1 1 0 v").is_ok());
    for scn in [1, 39] {
        let old = CrFault::TooOld { scn, lost: 65 };
        assert!(rt; built(&mut writers, 0, scn, 0, 0, &mut scratch) == Err(old));
    }
    let sights: [Sight; 2] = [(40, 0, 0, &[(0, b"u")]), (80, 0, 0, &[(0, b"u")])];
    assert!(rt; see(&mut writers, &mut scratch, &sights));
    Ok(())
}

/// A table of one block, and a segment.
const ONE_BLOCK: Shape = Shape {
    tables: 1,
    blocks: 1,
    segments: 1,
};

/// A file of eighty commits: the first made row 1 `a`, and each of the others set it to `u`.
fn eighty_commits(rt: &HostRuntime) -> Result<Loads, Fail> {
    let mut writers = Writers::new(rt.alloc(), ONE_BLOCK)?;
    if !writers.lines(b"insert 1 1 1 a\ncommit 1\n") || !commit_updates(&mut writers, 1, 79) {
        return Err(Fail::new("a write was refused"));
    }
    let Writers { store, .. } = writers;
    Ok(Loads::new(store))
}

/// How many records are taken back, each of which is a load of its block, until a home shows this row alone to a reader
/// at that number, with the help of kept homes where a table of them is given. None where it doesn't.
fn records_back(
    loads: &mut Loads,
    home: BlockNo,
    scratch: &mut Scratch,
    copies: Option<&mut Copies>,
    scn: Scn,
    row: (u64, &[u8]),
) -> Option<u32> {
    let snapshot = Snapshot {
        scn,
        own: None,
        upto: 0,
    };
    let built = counted::<_, Brand>(loads, home, snapshot, scratch, copies, Blank::new(1));
    if built.is_err() || !shows(scratch, &[row]) {
        return None;
    }
    Some(loads.take())
}

// Seventy-nine records lead back to commit 1. The home that is kept at 40 spares the forty above it, and then the one
// at 1 spares all.
#[test]
fn build_from_copy(rt: HostRuntime) -> Result<(), Fail> {
    let mut loads = eighty_commits(&rt)?;
    let mut scratch = Scratch::new(rt.alloc())?;
    let mut copies = Copies::new(rt.alloc(), COPIES)?;
    let builds: [(Scn, &[u8], u32); 3] = [(40, b"u", 40), (1, b"a", 39), (1, b"a", 0)];
    for (scn, value, count) in builds {
        let back = records_back(
            &mut loads,
            0,
            &mut scratch,
            Some(&mut copies),
            scn,
            (1, value),
        );
        assert!(rt; back == Some(count), "{count} records back to {scn}");
    }
    let mut none = Copies::none();
    assert!(rt;
        records_back(&mut loads, 0, &mut scratch, Some(&mut none), 1, (1, b"a")) == Some(79)
    );
    assert!(rt; records_back(&mut loads, 0, &mut scratch, None, 1, (1, b"a")) == Some(79));
    Ok(())
}

/// A table of one block more than homes are kept, and a segment.
const MANY_BLOCKS: Shape = Shape {
    tables: 1,
    blocks: 33,
    segments: 1,
};

/// Makes the same write of one key in each home of such a table, and commits. Answers whether all was done.
fn commit_in_each(writers: &mut Writers, op: Op<'_>) -> bool {
    for key in 0..u64::from(MANY_BLOCKS.blocks) {
        if writers.write(1, 1, key, Some(op)).is_err() {
            return false;
        }
    }
    writers.commit(1).is_ok()
}

// Each home shows `a` at commit 1, behind one record. The home that is kept of block 32 takes the place of that of
// block 0, and the one that is built of block 0 again that of block 1.
#[test]
fn oldest_kept_home_gives_way(rt: HostRuntime) -> Result<(), Fail> {
    let mut writers = Writers::new(rt.alloc(), MANY_BLOCKS)?;
    assert!(rt; commit_in_each(&mut writers, Op::Insert(b"a")));
    assert!(rt; commit_in_each(&mut writers, Op::Update(b"b")));
    let Writers { store, .. } = writers;
    let mut loads = Loads::new(store);
    let mut scratch = Scratch::new(rt.alloc())?;
    let mut copies = Copies::new(rt.alloc(), COPIES)?;
    for home in 0..MANY_BLOCKS.blocks {
        let row = (u64::from(home), b"a".as_slice());
        let back = records_back(&mut loads, home, &mut scratch, Some(&mut copies), 1, row);
        assert!(rt; back == Some(1), "home {home}");
    }
    let again: [(BlockNo, u32); 6] = [(32, 0), (2, 0), (0, 1), (2, 0), (1, 1), (3, 1)];
    for (home, count) in again {
        let row = (u64::from(home), b"a".as_slice());
        let back = records_back(&mut loads, home, &mut scratch, Some(&mut copies), 1, row);
        assert!(rt; back == Some(count), "home {home} again");
    }
    Ok(())
}

/// A home to be kept of a block with this log number. It has a row 0 of this byte, which no writer made: a reader sees
/// it only where its build began here.
fn marked_home(number: Lsn, mark: u8) -> KeptHome {
    KeptHome {
        number,
        entries: [Entry::default(); ENTRIES as usize],
        cells: array::from_fn(|c| Cell {
            state: if c == 0 { ROW } else { EMPTY },
            lock: 0,
            key: 0,
            value: array_of(&[mark]),
        }),
    }
}

/// A table of such homes of block 0 at these commit numbers, with the number as the byte.
fn marked_homes(rt: &HostRuntime, number: Lsn, kept: &[u8]) -> Result<Copies, Fail> {
    let mut copies = Copies::new(rt.alloc(), COPIES)?;
    for mark in kept {
        let scn = u64::from(*mark);
        copies.keep(CopyKey { block: 0, scn }, marked_home(number, *mark));
    }
    Ok(copies)
}

/// A history of home 0, in the middle of which marked homes of it are kept, and what readers see at its end.
#[derive(Clone, Copy)]
struct Case {
    /// The lines before.
    before: &'static [u8],
    /// The commit numbers at which homes are kept then.
    kept: &'static [u8],
    /// The lines behind.
    behind: &'static [u8],
    /// The readers, to whom the home that serves shows the number at which it is kept.
    sights: &'static [Sight],
}

/// Whether each reader of a case sees its rows. What is built for one isn't kept for the next.
fn are_served(rt: &HostRuntime, case: &Case) -> Result<bool, Fail> {
    let mut writers = Writers::new(rt.alloc(), SHAPE)?;
    let mut scratch = Scratch::new(rt.alloc())?;
    let is_done = writers.lines(case.before);
    let number = u64_at(&copy_of(&mut writers.store, 0)?, 0);
    if !is_done || !writers.lines(case.behind) {
        return Ok(false);
    }
    for sight in case.sights {
        let mut copies = marked_homes(rt, number, case.kept)?;
        if !sees(&mut writers, &mut scratch, &mut copies, sight) {
            return Ok(false);
        }
    }
    Ok(true)
}

// Session 2 has a change in home 0, and session 3 has one elsewhere.
const TWO_CHANGES: &[u8] = b"\
insert 1 1 2 a
commit 1
insert 2 1 4 b
insert 3 1 5 c
";

const THREE_COMMITS: &[u8] = b"\
insert 1 1 2 a
commit 1
update 1 1 2 b
commit 1
update 1 1 2 c
commit 1
";

const CASES: [Case; 6] = [
    // A reader that sees a change of its own in the home, and three that don't.
    Case {
        before: TWO_CHANGES,
        kept: &[1],
        behind: b"",
        sights: &[
            (1, 2, 1, &[(2, b"a"), (4, b"b")]),
            (1, 2, 0, &[(0, &[1])]),
            (1, 3, 1, &[(0, &[1])]),
            (1, 0, 0, &[(0, &[1])]),
        ],
    },
    // The same ones, whose changes were committed since. Nothing tells any more that the third has none in the home.
    Case {
        before: TWO_CHANGES,
        kept: &[1],
        behind: b"commit 2\ncommit 3\n",
        sights: &[
            (1, 2, 1, &[(2, b"a"), (4, b"b")]),
            (1, 2, 0, &[(0, &[1])]),
            (1, 3, 1, &[(2, b"a")]),
            (1, 0, 0, &[(0, &[1])]),
        ],
    },
    // The block was written since, and the change goes on; or was committed.
    Case {
        before: b"insert 1 1 2 a\ncommit 1\n",
        kept: &[1],
        behind: b"update 1 1 2 b\n",
        sights: &[(1, 0, 0, &[(2, b"a")]), (1, 1, 1, &[(2, b"b")])],
    },
    Case {
        before: b"insert 1 1 2 a\ncommit 1\n",
        kept: &[1],
        behind: b"update 1 1 2 b\ncommit 1\n",
        sights: &[(1, 0, 0, &[(2, b"a")]), (2, 0, 0, &[(2, b"b")])],
    },
    // Another block was.
    Case {
        before: b"insert 1 1 2 a\ncommit 1\n",
        kept: &[1],
        behind: b"insert 1 1 3 b\ncommit 1\n",
        sights: &[(1, 0, 0, &[(0, &[1])])],
    },
    // The least number serves from the reader's on, and none below it.
    Case {
        before: THREE_COMMITS,
        kept: &[3, 2],
        behind: b"",
        sights: &[
            (1, 0, 0, &[(0, &[2])]),
            (2, 0, 0, &[(0, &[2])]),
            (3, 0, 0, &[(0, &[3])]),
            (4, 0, 0, &[(2, b"c")]),
        ],
    },
];

#[test]
fn readers_that_kept_homes_serve(rt: HostRuntime) -> Result<(), Fail> {
    for i in 0..CASES.len() {
        assert!(rt; are_served(&rt, &CASES[i])?, "case {i}");
    }
    Ok(())
}

// The record that leads back to commit 1 is gone by commit 81. The home that was kept before serves still, as no group
// wrote its block. Once one does, the reader is as old as it is without that home.
#[test]
fn kept_home_outlives_undo(rt: HostRuntime) -> Result<(), Fail> {
    let mut writers = Writers::new(rt.alloc(), SHAPE)?;
    let mut scratch = Scratch::new(rt.alloc())?;
    let mut copies = Copies::new(rt.alloc(), COPIES)?;
    let sight: Sight = (1, 0, 0, &[(0, b"a")]);
    assert!(rt; writers.lines(b"insert 1 1 0 a\ncommit 1\nupdate 1 1 0 b\ncommit 1\n"));
    assert!(rt; sees(&mut writers, &mut scratch, &mut copies, &sight));
    assert!(rt; writers.lines(b"insert 1 1 1 z\ncommit 1\n"));
    assert!(rt; commit_updates(&mut writers, 1, 78));
    assert!(rt; sees(&mut writers, &mut scratch, &mut copies, &sight));
    let old = CrFault::TooOld { scn: 1, lost: 65 };
    assert!(rt; built(&mut writers, 0, 1, 0, 0, &mut scratch) == Err(old));
    let mut none = Copies::none();
    assert!(rt; built_with(&mut writers, 1, 0, 0, &mut scratch, &mut none) == Err(old));
    assert!(rt; writers.line(b"update 1 1 0 c").is_ok());
    let older = CrFault::TooOld { scn: 1, lost: 66 };
    assert!(rt; built_with(&mut writers, 1, 0, 0, &mut scratch, &mut copies) == Err(older));
    Ok(())
}

// Commit 2 has two records, the last at this place of the first undo block.
const TWO_UPDATES: &[u8] = b"\
insert 1 1 2 a
commit 1
update 1 1 2 b
update 1 1 2 c
commit 1
";

const LAST_RECORD: u16 = 416;

/// Whether a reader at commit 1 is told that it is too old, once these bytes stand in the first undo block.
fn is_too_old_by(rt: &HostRuntime, at: u16, bytes: [u8; 4]) -> Result<bool, Fail>
    requires { (32 ≤ at) × (at ≤ 2044) }
{
    let mut writers = Writers::new(rt.alloc(), SHAPE)?;
    let mut scratch = Scratch::new(rt.alloc())?;
    let undo = writers.store.shape().header_block(0) + 1;
    let mut group = Group::new();
    group.push(undo, at, &bytes);
    let is_damaged = writers.lines(TWO_UPDATES) && apply(&mut writers.store, &group).is_ok();
    let old = CrFault::TooOld { scn: 1, lost: 0 };
    Ok(is_damaged && built(&mut writers, 0, 1, 0, 0, &mut scratch) == Err(old))
}

/// What of the last record may be damaged: the block that it names, the record that it leads to, or the length of the
/// chain that it keeps.
#[derive(Copy, Clone)]
enum Field {
    Block,
    Newest,
    Length,
}

/// Where four bytes of that field stand in the first undo block.
fn place(field: Field) -> u16
    ensures { (32 ≤ result) × (result ≤ 2044) }
{
    match field {
        Field::Block => LAST_RECORD + 20,
        Field::Newest => LAST_RECORD + 76,
        Field::Length => LAST_RECORD + 88,
    }
}

// Each with whether the way back ends there: the first of each field is what the record has.
const DAMAGES: [(Field, [u8; 4], bool); 7] = [
    (Field::Block, [0, 0, 0, 0], false),
    (Field::Block, [0, 0, 0, 1], true),
    (Field::Newest, [0, 1, 0, 0], false),
    (Field::Newest, [0, 2, 0, 0], true),
    (Field::Length, [0, 0, 0, 1], false),
    (Field::Length, [0, 0, 0, 2], true),
    (Field::Length, [255, 255, 255, 255], true),
];

// A record that names another block, leads to itself, or keeps a chain that isn't shorter isn't taken back.
#[test]
fn record_that_leads_nowhere(rt: HostRuntime) -> Result<(), Fail> {
    for (field, bytes, is_end) in &DAMAGES {
        let is_too_old = is_too_old_by(&rt, place(*field), *bytes)?;
        assert!(rt; is_too_old == *is_end);
    }
    Ok(())
}

#[test]
fn texts_of_faults(rt: HostRuntime) -> Result<(), Fail> {
    let old = CrFault::TooOld { scn: 1, lost: 65 };
    let text = format!(in rt.alloc(); "{old}; {}", CrFault::Failed)?;
    let expected =
        "snapshot 1 is older than what is kept, from 65 on; a call of the outside failed";
    assert!(rt; text.as_str() == expected);
    Ok(())
}

/// Whether an entry and a cell of a home are so.
fn stands(
    home: &[u8; 2048],
    i: u8,
    kind: u8,
    number: Scn,
    length: u32,
    state: u8,
    lock: u8,
) -> bool {
    if i >= ENTRIES || i >= CELLS {
        return false;
    }
    let (entry, cell) = (entry(home, i), cells(home, i));
    entry.kind == kind
        && entry.number == number
        && entry.length == length
        && cell.state == state
        && cell.lock == lock
}

// The home of docs/UNDO.md: two commits and two transactions that run.
const WORKED_HOME: &[u8] = b"\
insert 1 1 2 a
insert 1 1 4 b
commit 1
update 1 1 4 z
commit 1
update 1 1 2 x
delete 1 1 4
insert 2 1 6 c
";

#[test]
fn worked_home(rt: HostRuntime) -> Result<(), Fail> {
    let mut writers = Writers::new(rt.alloc(), SHAPE)?;
    let mut scratch = Scratch::new(rt.alloc())?;
    assert!(rt; writers.lines(WORKED_HOME));
    let home = copy_of(&mut writers.store, 0)?;
    let rows = [
        (0, EXACT, 1, 2, ROW, 3),
        (1, EXACT, 2, 1, STUB, 3),
        (2, OPEN, 0, 2, ROW, 4),
        (3, OPEN, 0, 1, EMPTY, 0),
    ];
    for (i, kind, number, length, state, lock) in rows {
        assert!(rt; stands(&home, i, kind, number, length, state, lock), "{i}");
    }
    let sights: [Sight; 3] = [
        (1, 1, 1, &[(2, b"x"), (4, b"b")]),
        (2, 1, 2, &[(2, b"x")]),
        (2, 0, 0, &[(2, b"a"), (4, b"z")]),
    ];
    assert!(rt; see(&mut writers, &mut scratch, &sights));
    Ok(())
}

const OWN_CHANGES: &[u8] = b"\
insert 1 1 2 a
commit 1
insert 2 1 4 b
delete 2 1 2
update 2 1 4 c
insert 2 1 2 d
";

// It may have committed since.
#[test]
fn own_changes_up_to_one(rt: HostRuntime) -> Result<(), Fail> {
    let sights: [Sight; 5] = [
        (1, 2, 0, &[(2, b"a")]),
        (1, 2, 1, &[(2, b"a"), (4, b"b")]),
        (1, 2, 2, &[(4, b"b")]),
        (1, 2, 3, &[(4, b"c")]),
        (1, 2, 4, &[(2, b"d"), (4, b"c")]),
    ];
    let mut writers = Writers::new(rt.alloc(), SHAPE)?;
    let mut scratch = Scratch::new(rt.alloc())?;
    assert!(rt; writers.lines(OWN_CHANGES) && see(&mut writers, &mut scratch, &sights));
    assert!(rt; writers.commit(2).is_ok() && see(&mut writers, &mut scratch, &sights));
    Ok(())
}

/// Whether the next row of a home that was rebuilt has this key, or there is none and the row is left as it was.
fn goes_on(scratch: &Scratch, after: Option<u64>, lo: u64, hi: u64, key: Option<u64>) -> bool {
    let mut row = Row {
        key: 77,
        value: ArrayVec::new(),
    };
    scratch.next(after, lo, hi, &mut row) == key.is_some() && row.key == key.unwrap_or(77)
}

// A row that is kept stands among those of the cells.
#[test]
fn next_in_order_and_bounds(rt: HostRuntime) -> Result<(), Fail> {
    let lines =
        b"insert 1 1 8 a\ncommit 1\ninsert 1 1 2 a\ncommit 1\ninsert 1 1 14 a\ncommit 1\ninsert 2 1 6 b\n";
    let mut writers = Writers::new(rt.alloc(), SHAPE)?;
    let mut scratch = Scratch::new(rt.alloc())?;
    let sights: [Sight; 1] = [(3, 2, 1, &[(2, b"a"), (6, b"b"), (8, b"a"), (14, b"a")])];
    assert!(rt; writers.lines(lines) && see(&mut writers, &mut scratch, &sights));
    let rows = [
        (None, 0, 99, Some(2)),
        (None, 2, 2, Some(2)),
        (None, 3, 99, Some(6)),
        (Some(2), 0, 99, Some(6)),
        (Some(6), 7, 99, Some(8)),
        (Some(8), 0, 13, None),
        (Some(14), 0, 99, None),
        (None, 9, 8, None),
    ];
    for (after, lo, hi, key) in rows {
        assert!(rt; goes_on(&scratch, after, lo, hi, key));
    }
    Ok(())
}
