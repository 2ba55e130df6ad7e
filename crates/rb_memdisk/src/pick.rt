//! Which of the images that a crash may leave is wanted. Tests pass it to `MemDisk::image`.

/// What a crash did with the ranges that no sync has covered.
#[derive(Clone, Copy, Debug, PartialEq, Eq)]
pub enum Pick {
    /// They hold the last synced bytes, and the length is the synced one.
    Old,
    /// All is as it was read then.
    New,
    /// Each byte of them is this one, and the length is the longest written.
    Fill(u8),
}
