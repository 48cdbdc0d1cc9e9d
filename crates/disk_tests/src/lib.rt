//! Tests of the public calls of the crates that write and read the four files, from the disk in memory to the store. They are
//! proved over the contracts of these calls, and not with their bodies once more.
#![tactic(auto)]

#[cfg(test)]
mod journal;
#[cfg(test)]
mod outside;
#[cfg(test)]
mod pieces;
#[cfg(test)]
mod stores;
