//! What holds of dead transactions as they go, and of the entries that they have in homes, as clauses for proofs to
//! cite. Nothing calls it.
ghost use Rattle.law_dead.specs.Laws.{GoesFirst, NoneIsLeft, ClearedIsClear, ClearedHoldsNone, ClearedKeepsRows};
ghost use Rattle.law_dead.specs.Laws.{FewestStays, SweptCounts, SweptKeepsRows};
ghost use Rattle.law_dead.specs.Laws.{CallsLeaveDead, CallsOweSame};
ghost use Rattle.law_dead.specs.Laws.{HolderStays, KeyTestsStay, ClearedIsLiving, ClearedKeepsFull};
ghost use Rattle.law_dead.specs.Laws.{OwesNone, CalmHome, CalmSegment, CalmSweep, OwesSame};
ghost use Rattle.law_dead.specs.Laws.{DeadHasEntry, EntryIsDead};

/// Whichever of the dead that go from a home is put back first, what is left behind all of them is the same. Behind
/// them none is left there, so no key of the home is held by a dead one; and where none goes nothing changes. The
/// segment in which a session begins is the same once its dead are gone. A sweep takes as many changes as it may, or
/// all that there are. No row and no commit changes. Every other call leaves each of the dead its slot and its changes,
/// so it takes as many groups as before to put them back.
pub fn dead_laws()
    ensures first { GoesFirst }
    ensures none { NoneIsLeft }
    ensures clear { ClearedIsClear }
    ensures holder { ClearedHoldsNone }
    ensures rows { ClearedKeepsRows }
    ensures fewest { FewestStays }
    ensures swept { SweptCounts }
    ensures swept_rows { SweptKeepsRows }
    ensures leave { CallsLeaveDead }
    ensures owe { CallsOweSame }
{}

/// A segment that is cleared has no slot of a dead transaction left, and where it had none nothing changes. What the
/// tests of a write ask of its key says the same then, and who holds it, where no dead transaction has a live change in
/// the key's home.
pub fn room_laws()
    ensures tests { KeyTestsStay }
    ensures held { HolderStays }
    ensures living { ClearedIsLiving }
    ensures full { ClearedKeepsFull }
{}

/// Where the dead owe no group none of them is left, so clearing a home or a segment changes nothing, and a sweep takes
/// nothing. They owe as many as before where each has the slot and the changes that it had.
pub fn owed_laws()
    ensures none { OwesNone }
    ensures home { CalmHome }
    ensures segment { CalmSegment }
    ensures sweep { CalmSweep }
    ensures same { OwesSame }
{}

/// A dead transaction has a live change in a home exactly where an entry of the home is Open, of a transaction that
/// runs and is none of the sixteen sessions'.
pub fn entry_laws()
    ensures has { DeadHasEntry }
    ensures is_dead { EntryIsDead }
{}
