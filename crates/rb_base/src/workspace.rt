//! `Workspace`: where a step of a session makes its group. The engine has one, and lends it to each step.

use crate::group::Group;
use crate::sizes::UNIT;

/// The group that a step makes, and copies of the two blocks that it changes. What a step leaves here is open: the next
/// one writes over it. So no step fills some 6,600 bytes with zeros first.
#[derive(Drop)]
pub struct Workspace {
    /// The patches.
    pub group: Group,
    /// A block of rows.
    pub home: [u8; UNIT],
    /// The header of a segment.
    pub header: [u8; UNIT],
}

impl Workspace {
    /// One with no patch and blocks of zeros.
    pub fn new() -> Workspace {
        Workspace {
            group: Group::new(),
            home: [0; UNIT],
            header: [0; UNIT],
        }
    }
}
