//! What holds of a table of sessions that remembers a state, as clauses for proofs to cite. Nothing calls it.
ghost use Rattle.law_sessions.specs.Laws.{ClosedIsRemembered, CommittedIsRemembered};
ghost use Rattle.law_sessions.specs.Laws.{CursorIsNamed, CursorIsTold, CursorReads};
ghost use Rattle.law_sessions.specs.Laws.{CutIsRemembered, EndedIsRemembered, FetchEnds, FetchGives, FirstIsRemembered};
ghost use Rattle.law_sessions.specs.Laws.{HeldIsRemembered, IsolatedIsRemembered, LateIsMachines, LostIsBooks};
ghost use Rattle.law_sessions.specs.Laws.{OpenedIsRemembered, QueueIsRemembered, RolledBackIsRemembered};
ghost use Rattle.law_sessions.specs.Laws.{SavepointIsRemembered, TakenIsRemembered, WriteReads, WrittenIsRemembered};

/// A table of sessions remembers each next state: after a write, a commit, the end of a transaction and a rollback,
/// after a mode or a savepoint is set and after a rollback to one, as a session waits or leaves the queue, and after a
/// cursor is opened, gives a row or is closed; a new one remembers the state that a file opens to. What a cursor is
/// asked for is the machine's: each home may be read for it, the least row behind the last one in the first home that
/// has one is the machine's next row, and where none has one it is the end. Where a cursor sees changes of a
/// transaction that goes on, that one made none above. The home of a key may be read for a write, and the first commit
/// above a snapshot that changed the key there is the machine's. What a segment lost is what its book says.
pub fn view_laws()
    ensures first { FirstIsRemembered }
    ensures written { WrittenIsRemembered }
    ensures committed { CommittedIsRemembered }
    ensures ended { EndedIsRemembered }
    ensures rolled_back { RolledBackIsRemembered }
    ensures isolated { IsolatedIsRemembered }
    ensures savepoint { SavepointIsRemembered }
    ensures cut { CutIsRemembered }
    ensures queue { QueueIsRemembered }
    ensures held { HeldIsRemembered }
    ensures opened { OpenedIsRemembered }
    ensures taken { TakenIsRemembered }
    ensures closed { ClosedIsRemembered }
    ensures named { CursorIsNamed }
    ensures reads { CursorReads }
    ensures told { CursorIsTold }
    ensures gives { FetchGives }
    ensures ends { FetchEnds }
    ensures write { WriteReads }
    ensures late { LateIsMachines }
    ensures lost { LostIsBooks }
{}
