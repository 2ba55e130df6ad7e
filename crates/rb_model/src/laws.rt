//! What holds of a segment's book, of what is acknowledged and of calls of one key, as clauses for proofs to cite.
//! Nothing calls it.
ghost use Rattle.rb_model.specs.BookLaws.{FreshIsSound, TakenIsSound, MarkedIsSound, FinishedIsSound, LeftIsSound};
ghost use Rattle.rb_model.specs.BookLaws.{CountsRecords, KeepsLost, DropsOneTurn, DropsNoOwnersTurn, ReusesOneSlot};
ghost use Rattle.rb_model.specs.BookLaws.{BeginsThere, BeginsAtOne, FullSince, KeepsSlots, KeepsNewest};
ghost use Rattle.rb_model.specs.KeyLaws.{GetIsOneFetch, UpsertIsEither};
ghost use Rattle.rb_model.specs.Out.{outside_by};
ghost use Rattle.rb_model.specs.Safe.{CheckpointIsSafe, KeepsSafe, LaterIsNotSafe, LinesKeepSafe, ToldIsSafe};

/// A new book is sound, and each move keeps a book so. Records and what is lost never become fewer. What is lost rises
/// only to the number of the oldest turn, in which no owner has made a record, or of the slot that is taken, which is
/// the least of the free ones. One segment and slot is the one that a session takes, and in a full book an owner began
/// 281 to 320 records ago.
pub fn book_laws()
    ensures fresh { FreshIsSound }
    ensures taken { TakenIsSound }
    ensures marked { MarkedIsSound }
    ensures finished { FinishedIsSound }
    ensures left { LeftIsSound }
    ensures counted { CountsRecords }
    ensures lost { KeepsLost }
    ensures slots { KeepsSlots }
    ensures newest { KeepsNewest }
    ensures turn { DropsOneTurn }
    ensures owned { DropsNoOwnersTurn }
    ensures slot { ReusesOneSlot }
    ensures begun { BeginsThere }
    ensures one { BeginsAtOne }
    ensures since { FullSince }
{}

/// What acknowledges commits: the answers `committed` and `flushed`, which tell the number of the last one, and that of
/// a checkpoint. A later commit acknowledges nothing, and nothing that is acknowledged is taken back, by a call or by
/// the lines of a script.
pub fn safe_laws()
    ensures told { ToldIsSafe }
    ensures checkpoint { CheckpointIsSafe }
    ensures later { LaterIsNotSafe }
    ensures call { KeepsSafe }
    ensures lines { LinesKeepSafe (outside_by (λ h blocks call snapshot lost. Unit {0})
        (λ m groups m2. Unit {0}) (λ m call answer m2. Unit {0})) }
{}

/// A read of one key is a fetch by a cursor over that key alone, and an upsert the insert or the update that its row
/// asks for.
pub fn key_laws()
    ensures read { GetIsOneFetch }
    ensures either { UpsertIsEither }
{}
