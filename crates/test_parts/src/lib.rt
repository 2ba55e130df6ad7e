//! The lower crates by worked values: bytes, lines and calls, and what each part makes of them. It has tests alone, one
//! module for a crate, and nothing calls it.
#![tactic(auto)]

#[cfg(test)]
mod attempt;
#[cfg(test)]
mod base;
#[cfg(test)]
mod cell;
#[cfg(test)]
mod control;
#[cfg(test)]
mod cr;
#[cfg(test)]
mod dead;
#[cfg(test)]
mod filedisk;
#[cfg(test)]
mod group;
#[cfg(test)]
mod heap;
#[cfg(test)]
mod itl;
#[cfg(test)]
mod layout;
#[cfg(test)]
mod loads;
#[cfg(test)]
mod log;
#[cfg(test)]
mod memdisk;
#[cfg(test)]
mod opening;
#[cfg(test)]
mod patches;
#[cfg(test)]
mod plainstore;
#[cfg(test)]
mod rawfile;
#[cfg(test)]
mod ring;
#[cfg(test)]
mod script;
#[cfg(test)]
mod segment;
#[cfg(test)]
mod sessions;
#[cfg(test)]
mod sound;
#[cfg(test)]
mod stream;
#[cfg(test)]
mod twin;
#[cfg(test)]
mod txntable;
#[cfg(test)]
mod undo;
#[cfg(test)]
mod undoblock;
#[cfg(test)]
mod untold;
#[cfg(test)]
mod waits;
#[cfg(test)]
mod words;
#[cfg(test)]
mod writers;
