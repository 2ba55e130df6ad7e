//! What holds of the tests of a write where the blocks of a file stand for the machine's state, as clauses for proofs
//! to cite. Nothing calls it.
ghost use Rattle.law_write.specs.VerdictLaws.{VerdictIsMachines, CleanVerdictIsMachines, CleanHomeIsBlocks};
ghost use Rattle.law_write.specs.VerdictLaws.{FullIsBooks, SinceIsBooks, SinceInRange};
ghost use Rattle.law_write.specs.VerdictLaws.{BooksAreSound, FreeSlotsAlike, OwnersAlike, BeginsWhereChosen};

/// The first test of a write that applies, by the key's cleaned home and a segment's header, is the machine's: another
/// session that holds the key, a row that is there or isn't, a home without a cell or an entry, a segment without a
/// place for a record. The number that `RollbackFull` tells is the book's, 281 to 320, and so is whether there is a
/// place. Header and book say the same of which slots are free, with which newest number, and of how many are owned: so
/// a session begins where the machine's does.
pub fn verdict_laws()
    ensures verdict { VerdictIsMachines }
    ensures clean_verdict { CleanVerdictIsMachines }
    ensures clean_home { CleanHomeIsBlocks }
    ensures full { FullIsBooks }
    ensures since { SinceIsBooks × SinceInRange }
    ensures sound { BooksAreSound }
    ensures free { FreeSlotsAlike }
    ensures owners { OwnersAlike }
    ensures begun { BeginsWhereChosen }
{}
