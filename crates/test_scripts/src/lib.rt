//! The worked rows: scripts and command lines, and what the program answers them over files in memory; and the stores
//! and engines that it stands on, side by side. It has tests alone, and nothing calls it.
#![tactic(auto)]

#[cfg(test)]
mod command_lines;
#[cfg(test)]
mod commits;
#[cfg(test)]
mod constructors;
#[cfg(test)]
mod dialogues;
#[cfg(test)]
mod doubles;
#[cfg(test)]
mod engines;
#[cfg(test)]
mod failures;
#[cfg(test)]
mod generated;
#[cfg(test)]
mod isolation;
#[cfg(test)]
mod keys;
#[cfg(test)]
mod laps;
#[cfg(test)]
mod later;
#[cfg(test)]
mod lost;
#[cfg(test)]
mod mixtures;
#[cfg(test)]
mod queues;
#[cfg(test)]
mod restarts;
#[cfg(test)]
mod savepoints;
#[cfg(test)]
mod stealing;
#[cfg(test)]
mod stops;
#[cfg(test)]
mod stores;
#[cfg(test)]
mod stories;
#[cfg(test)]
mod tests;
#[cfg(test)]
mod under_way;
