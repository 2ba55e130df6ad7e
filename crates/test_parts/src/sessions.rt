//! The table of sessions by hand: two sessions write and open cursors, and what a rollback of the one and a commit of
//! the other leave of them; what a rollback to a savepoint does; and the writes with which sessions wait.
ghost use Rattle.std.specs.Prelude.{◌≤◌};

use rb_base::Xid;
use rb_model::{Isolation, Name, Op};
use rb_sessions::{Cursor, Pending, Session, Sessions};
use std::alloc::Global;
use std::test::Fail;

/// The transaction of session 1.
const FIRST: Xid = Xid {
    seg: 0,
    slot: 3,
    wrap: 1,
};

/// That of session 16.
const LAST: Xid = Xid {
    seg: 0,
    slot: 4,
    wrap: 1,
};

fn name(text: &[u8]) -> Result<Name, Fail> {
    let Some(name) = Name::new(text) else {
        return Err(Fail::new("no name"));
    };
    Ok(name)
}

/// A cursor of the present transaction that sees so many changes of it.
fn seeing(own: Option<Xid>, upto: u32) -> Cursor {
    Cursor {
        table: 1,
        hi: 9,
        scn: 5,
        own,
        upto,
        present: true,
        ..Cursor::default()
    }
}

/// The cursor behind the end of its transaction.
fn passed(cursor: Cursor) -> Cursor {
    Cursor {
        present: false,
        ..cursor
    }
}

/// Opens a cursor of session `s`, where there is room.
fn open(table: &mut Sessions, s: u16, name: &Name, cursor: Cursor) -> Result<(), Fail>
    requires { (1 ≤ s) × (s ≤ 16) }
{
    if table.session(s).cursors >= 16 {
        return Err(Fail::new("no room"));
    }
    table.open_cursor(s, name, cursor);
    Ok(())
}

/// A table of sessions that have done nothing.
fn new_table(alloc: Global) -> Result<Sessions, Fail> {
    Sessions::new(alloc).map_err(|_| Fail::new("no memory"))
}

/// A table in which session 1 has a cursor opened before its only change and one after it, and session 16 one that sees
/// both changes of its transaction.
fn written(alloc: Global, early: &Name, late: &Name) -> Result<Sessions, Fail> {
    let mut table = new_table(alloc)?;
    open(&mut table, 1, early, seeing(None, 0))?;
    table.wrote(1, FIRST);
    open(&mut table, 1, late, seeing(Some(FIRST), 1))?;
    table.wrote(16, LAST);
    table.wrote(16, LAST);
    open(&mut table, 16, late, seeing(Some(LAST), 2))?;
    Ok(table)
}

/// A session with a transaction of that id and length, without savepoints, and so many cursors.
fn session(own: Option<Xid>, length: u32, cursors: u8) -> Session {
    Session {
        isolation: Isolation::ReadCommitted,
        own,
        length,
        savepoints: 0,
        cursors,
    }
}

#[test]
fn one_rolls_back(rt: HostRuntime) -> Result<(), Fail> {
    let (early, late) = (name(b"early")?, name(b"late")?);
    let mut table = written(rt.alloc(), &early, &late)?;
    assert!(rt; table.session(1) == session(Some(FIRST), 1, 2));
    assert!(rt; (table.owner(FIRST), table.owner(LAST)) == (Some(1), Some(16)));
    table.rollback(1);
    assert!(rt; table.session(1) == session(None, 0, 1));
    assert!(rt; table.cursor(1, &early) == Some(passed(seeing(None, 0))));
    assert!(rt; table.cursor(1, &late) == None);
    assert!(rt; table.session(16) == session(Some(LAST), 2, 1));
    assert!(rt; table.cursor(16, &late) == Some(seeing(Some(LAST), 2)));
    assert!(rt; (table.owner(FIRST), table.owner(LAST)) == (None, Some(16)));
    Ok(())
}

#[test]
fn one_commits(rt: HostRuntime) -> Result<(), Fail> {
    let (early, late) = (name(b"early")?, name(b"late")?);
    let mut table = written(rt.alloc(), &early, &late)?;
    if let Some(place) = table.cursor_place(1, &late) {
        table.took_at(1, place, 7);
    }
    table.commit(1);
    let given = Cursor {
        last: Some(7),
        ..seeing(Some(FIRST), 1)
    };
    assert!(rt; table.session(1) == session(None, 0, 2));
    assert!(rt; table.cursor(1, &late) == Some(passed(given)));
    assert!(rt; table.cursor(1, &early) == Some(passed(seeing(None, 0))));
    assert!(rt; table.cursor(16, &late) == Some(seeing(Some(LAST), 2)));
    table.wrote(1, LAST);
    table.rollback(1);
    assert!(rt; table.session(1) == session(None, 0, 2));
    table.close_cursor(1, &early);
    assert!(rt; table.cursor(1, &early) == None);
    assert!(rt; table.cursor(1, &late) == Some(passed(given)));
    Ok(())
}

/// Sets a savepoint of session `s`, where there is room for one of any name.
fn set(table: &mut Sessions, s: u16, name: &Name) -> Result<(), Fail>
    requires { (1 ≤ s) × (s ≤ 16) }
{
    if table.session(s).savepoints >= 16 {
        return Err(Fail::new("no room"));
    }
    table.set_savepoint(s, name);
    Ok(())
}

// Session 1 has a savepoint before its change and one behind it, which two changes more follow. Session 16 has its own.
#[test]
fn one_rolls_back_to_a_savepoint(rt: HostRuntime) -> Result<(), Fail> {
    let (early, late) = (name(b"early")?, name(b"late")?);
    let mut table = new_table(rt.alloc())?;
    set(&mut table, 1, &early)?;
    table.wrote(1, FIRST);
    set(&mut table, 1, &late)?;
    open(&mut table, 1, &early, seeing(Some(FIRST), 1))?;
    table.wrote(1, FIRST);
    open(&mut table, 1, &late, seeing(Some(FIRST), 2))?;
    table.wrote(1, FIRST);
    table.wrote(16, LAST);
    set(&mut table, 16, &late)?;
    let marked = |length, savepoints, cursors| Session {
        savepoints,
        ..session(Some(FIRST), length, cursors)
    };
    assert!(rt; table.session(1) == marked(3, 2, 2));
    assert!(rt; (table.savepoint(1, &early), table.savepoint(1, &late)) == (Some(0), Some(1)));
    table.rollback_to(1, &late);
    assert!(rt; table.session(1) == marked(1, 2, 1));
    assert!(rt; table.cursor(1, &early) == Some(seeing(Some(FIRST), 1)));
    assert!(rt; table.cursor(1, &late) == None);
    // Set again, the early one is the later of both.
    table.wrote(1, FIRST);
    set(&mut table, 1, &early)?;
    assert!(rt; (table.session(1), table.savepoint(1, &early)) == (marked(2, 2, 1), Some(2)));
    table.rollback_to(1, &late);
    assert!(rt; (table.session(1), table.savepoint(1, &early)) == (marked(1, 1, 1), None));
    // A name that isn't set changes nothing.
    table.rollback_to(1, &early);
    assert!(rt; table.session(1) == marked(1, 1, 1));
    assert!(rt; table.owner(FIRST) == Some(1));
    table.commit(1);
    assert!(rt; table.session(1) == session(None, 0, 1));
    assert!(rt; table.savepoint(16, &late) == Some(1));
    Ok(())
}

// Back at a savepoint before its first change, a transaction is left with its id.
#[test]
fn nothing_is_left_but_the_transaction(rt: HostRuntime) -> Result<(), Fail> {
    let first = name(b"first")?;
    let mut table = new_table(rt.alloc())?;
    set(&mut table, 1, &first)?;
    table.wrote(1, FIRST);
    table.rollback_to(1, &first);
    let left = Session {
        savepoints: 1,
        ..session(Some(FIRST), 0, 0)
    };
    assert!(rt; table.session(1) == left);
    assert!(rt; table.owner(FIRST) == Some(1));
    table.rollback(1);
    assert!(rt; table.session(1) == session(None, 0, 0));
    assert!(rt; table.savepoint(1, &first) == None);
    Ok(())
}

// A session that has never waited keeps no write; each other one its own, until it waits with another. The end of a
// transaction leaves it.
#[test]
fn writes_are_kept(rt: HostRuntime) -> Result<(), Fail> {
    let mut table = new_table(rt.alloc())?;
    table.hold(1, Pending::new(2, 7, Some(Op::Insert(b"ab"))));
    table.hold(16, Pending::new(1, 9, Some(Op::Update(b""))));
    table.hold(15, Pending::new(1, 8, Some(Op::Delete)));
    table.commit(16);
    let (Some(first), Some(last)) = (table.held(1), table.held(16)) else {
        return Err(Fail::new("no write"));
    };
    assert!(rt; (first.table, first.key) == (2, 7));
    assert!(rt; matches!(first.op(), Some(Op::Insert(b"ab"))));
    assert!(rt; (last.table, last.key) == (1, 9));
    assert!(rt; matches!(last.op(), Some(Op::Update(b""))));
    table.hold(16, Pending::new(2, 18446744073709551615, None));
    let (Some(next), Some(last)) = (table.held(15), table.held(16)) else {
        return Err(Fail::new("no write"));
    };
    assert!(rt; matches!(next.op(), Some(Op::Delete)));
    assert!(rt; (last.table, last.key) == (2, 18446744073709551615));
    assert!(rt; last.op().is_none() && table.held(2).is_none());
    Ok(())
}
