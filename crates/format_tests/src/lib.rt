//! Tests of the public calls of the crates below the machine: of paths, hashes, the journal's and the checkpoint's bytes, JSON
//! and HTTP. They are proved over the contracts of these calls, and not with their bodies once more.
#![tactic(auto)]

#[cfg(test)]
mod answers;
#[cfg(test)]
mod arguments;
#[cfg(test)]
mod commands;
#[cfg(test)]
mod hashes;
#[cfg(test)]
mod model;
#[cfg(test)]
mod paths;
#[cfg(test)]
mod replies;
#[cfg(test)]
mod request_table;
#[cfg(test)]
mod requests;
#[cfg(test)]
mod routes;
#[cfg(test)]
mod rows;
#[cfg(test)]
mod texts;
