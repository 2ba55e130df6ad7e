//! The store over a cache beside one in memory: what its calls answer at several frames, and what its file opens to
//! behind a stop at each call of the disk. It has tests alone, and nothing calls it.
#![tactic(auto)]

#[cfg(test)]
mod groups;
#[cfg(test)]
mod stores;
