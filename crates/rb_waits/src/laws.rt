//! What holds of queues, as clauses for proofs to cite. Nothing calls it.
ghost use Rattle.rb_waits.specs.Room.{HasRoom, WaitKeeps, LeaveKeeps, FreeKeeps, WaitAdds, LeftIsOut, OthersStay};
ghost use Rattle.rb_waits.specs.Room.{FreedStay, ReadyIsThere, FewReady, ReadyLeaves, NoneReady, WaitNotReady};

use crate::waits::WAITERS;

/// A queue in which each session stands once has at most sixteen, and fewer where a session isn't in it: so there is
/// room for that one. Each call of `Waits` leaves it so, and says who is in it then. The first ready session is in it,
/// and once that has left fewer are ready.
pub fn queue_laws()
    ensures room { HasRoom WAITERS }
    ensures wait { WaitKeeps }
    ensures leave { LeaveKeeps }
    ensures free { FreeKeeps }
    ensures adds { WaitAdds }
    ensures out { LeftIsOut }
    ensures others { OthersStay }
    ensures freed { FreedStay }
    ensures there { ReadyIsThere }
    ensures few { FewReady }
    ensures fewer { ReadyLeaves }
    ensures nobody { NoneReady }
    ensures unready { WaitNotReady }
{}
