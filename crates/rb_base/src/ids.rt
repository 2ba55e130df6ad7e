//! Numbers that name things in a file. Every layer uses them.

/// A commit number: 1, 2, 3, .. without gaps; 0 stands for no commit.
pub type Scn = u64;

/// A log number: 1, 2, 3, .. without gaps.
pub type Lsn = u64;

/// A block of the file, counted from 0.
pub type BlockNo = u32;

/// The identity of a transaction: a slot of a rollback segment, and how often that slot had been taken.
#[derive(Clone, Copy, Debug, Default, PartialEq, Eq)]
pub struct Xid {
    /// The rollback segment, from 0 on.
    pub seg: u16,
    /// The slot of its transaction table, 0 to 15.
    pub slot: u16,
    /// The slot's count of transactions, from 1 on.
    pub wrap: u64,
}

/// The address of an undo record. An `ord` of 0 is no address.
#[derive(Clone, Copy, Debug, Default, PartialEq, Eq)]
pub struct Uba {
    /// The undo block.
    pub block: u32,
    /// The record in it, 0 to 9.
    pub rec: u16,
    /// The number that its extent had as the record was made.
    pub ord: u64,
}
