//! An undo record as a segment gives it. A rebuild takes it back.
use rb_undoblock::UndoRecord;

/// An undo record, and the segment in which it stands.
#[derive(Clone, Copy, Debug, PartialEq, Eq)]
pub struct SegmentRecord {
    /// The segment, from 0 on.
    pub seg: u16,
    /// The record.
    pub undo: UndoRecord,
}
