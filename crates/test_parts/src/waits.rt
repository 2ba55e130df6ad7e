//! The queue of waiting sessions by hand: which waits would close a ring, and who is ready first.

use rb_waits::Waits;
use std::test::Fail;

// Session 1 waits for 2, and 2 for 3.
#[test]
fn rings_are_found(rt: HostRuntime) -> Result<(), Fail> {
    let mut queue = Waits::new();
    queue.wait(1, 2);
    queue.wait(2, 3);
    // Who is to wait for whom, and whether that closes a ring: of two, of three, and none.
    let rows = [(3, 2, true), (3, 1, true), (4, 1, false), (4, 3, false)];
    for (s, u, closes) in rows {
        assert!(rt; (s, u, queue.would_close(s, u)) == (s, u, closes));
    }
    queue.free(3);
    assert!(rt; (queue.ready(), queue.would_close(3, 2)) == (Some(2), false));
    Ok(())
}

// Three wait for session 1, in the order of their numbers. The first of them leaves before 1 commits.
#[test]
fn first_come_first_ready(rt: HostRuntime) -> Result<(), Fail> {
    let mut queue = Waits::new();
    queue.wait(2, 1);
    queue.wait(3, 1);
    queue.wait(4, 1);
    queue.leave(2);
    assert!(rt; (queue.waits(2), queue.waits(3), queue.ready()) == (false, true, None));
    queue.free(1);
    assert!(rt; queue.ready() == Some(3));
    queue.leave(3);
    assert!(rt; queue.ready() == Some(4));
    // Session 3 holds the row now, for which 4 waits behind all.
    queue.leave(4);
    queue.wait(4, 3);
    assert!(rt; (queue.waits(4), queue.ready()) == (true, None));
    Ok(())
}
