//! Tests of the public calls of the machine and of the rules by which a connection calls it. They are proved over the contracts
//! of these calls, and not with their bodies once more.
#![tactic(auto)]

#[cfg(test)]
mod paths;
#[cfg(test)]
mod rows;
#[cfg(test)]
mod rules;
#[cfg(test)]
mod uploads;
