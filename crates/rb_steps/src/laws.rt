//! What the engine's calls of the store are to the machine, as clauses for proofs to cite. Nothing calls it.
ghost use Rattle.rb_steps.specs.StepLaws.{RefusedAsMachine, DoneAsMachine, HolderIsMachines, WritesAtSome};
ghost use Rattle.rb_steps.specs.StepLaws.{LivingLeaveSlot, SlotIsRoom};

/// An attempt's refusal is the first test of the machine that applies, and after a write that is done the blocks stand
/// for the machine's next state. Who holds a key by its block is who does in the machine. A session that is about to
/// write has a segment to do so, and a slot there where no owner is one of the dead. Its slot is all that it needs
/// there but a place for the record.
pub fn step_laws()
    ensures refused { RefusedAsMachine }
    ensures done { DoneAsMachine }
    ensures holder { HolderIsMachines }
    ensures somewhere { WritesAtSome }
    ensures living { LivingLeaveSlot }
    ensures room { SlotIsRoom }
{}
