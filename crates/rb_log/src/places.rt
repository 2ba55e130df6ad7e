//! Which slot of the file a place of the log is: the log goes round. `Log` and its flush count in places, and ask here
//! where they read or write.
ghost use Rattle.std.specs.Prelude.{◌≡◌, ◌<◌, ◌≤◌};
ghost use Rattle.rb_log.specs.Slots.{slot_of};

use rb_layout::{Head, Layout};

/// The slot of a place: place 0 is the head's slot, and behind the last slot of the file comes the first.
pub fn slot_behind(layout: &Layout, head: Head, place: u32) -> u32
    requires slot { head.slot < layout.now.log }
    requires place { place < layout.now.log }
    ensures slot { result ≡ slot_of layout.now head place }
    ensures below { result < layout.now.log }
{
    let slot = head.slot + place;
    if slot < layout.log {
        slot
    } else {
        slot - layout.log
    }
}
