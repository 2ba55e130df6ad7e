//! The groups that wait for a flush, in units as they are written. `Log` puts them there, and its flush sets the gates
//! after them.
ghost use Rattle.std.specs.Prelude.{◌≡◌, ◌+◌, ◌-◌, ◌<◌, ◌≤◌, [], ◌∷◌, ◌++◌, ℕ};
ghost use Rattle.std.specs.Prelude.{drop, length, take, min, slice_index_or, vec_capacity};
ghost use Rattle.rb_base.specs.Groups.{IsGroup};
ghost use Rattle.rb_log.specs.GroupSlots.{group_unit};
ghost use Rattle.rb_log.specs.WaitingUnits.{body_of, bodies_of, gate_after, AreSpare, IsSpare};

use crate::unit::{GROUP, LENGTH, NUMBER};
use rb_base::{Group, UNIT, put_u16, put_u64, u16_at};
use rb_group::encode;

/// Sees to it that there is a unit at a place, at most one behind those that are there. It keeps those in front.
pub(crate) fn reach(units: &mut Vec<[u8; UNIT]>, place: usize)
    requires near { place ≤ length units.old.items }
    requires room { place < vec_capacity units.old }
    ensures there { place < length units.new.items }
    ensures kept { take place units.new.items ≡ take place units.old.items }
    ensures spare { AreSpare (bodies_of units.old.items) → AreSpare (bodies_of units.new.items) }
    ensures capacity { vec_capacity units.new ≡ vec_capacity units.old }
{
    if place == units.as_slice().len() {
        units.push_reserved([0; UNIT]);
    }
}

/// Fills a unit with a group's, all but its own gate, and a closed gate after it. Of the group that the unit had before
/// it clears what goes on behind the new one; the rest of the unit is 0 already.
pub(crate) fn put_body(bytes: &mut [u8], number: u64, group: &Group)
    requires whole { length bytes.old ≡ UNIT }
    requires spare { IsSpare (body_of bytes.old) }
    requires valid { IsGroup group.now }
    requires some { 0 < length group.now }
    ensures { bytes.new ≡ drop 1 (group_unit 0 number group.now) ++ 0 ∷ [] }
{
    let before = usize::from(u16_at(bytes, LENGTH - 1));
    let length = encode(group, &mut bytes[GROUP - 1..UNIT - 1]);
    let end = before.max(length);
    bytes[GROUP - 1 + length..GROUP - 1 + end].fill(0);
    bytes[UNIT - 1] = 0;
    put_u16(bytes, LENGTH - 1, length as u16);
    put_u64(bytes, NUMBER - 1, number);
}

/// Sets the gate after each unit of a flush: it is open where another one follows.
pub(crate) fn set_gates(units: &mut [[u8; UNIT]])
    ensures bodies { bodies_of units.new ≡ bodies_of units.old }
    ensures gates { (k : ℕ) → k < length units.old
        → gate_after (slice_index_or units.new k []) ≡ min 1 (length units.old - (k + 1)) }
    ensures whole { (k : ℕ) → k < length units.new → length (slice_index_or units.new k []) ≡ UNIT }
{
    let count = units.len();
    for i in 0..count {
        units[i][UNIT - 1] = u8::from(i + 1 < count);
    }
}
