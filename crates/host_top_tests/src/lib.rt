//! Tests of `host_top`'s public calls. They are a crate of their own, so that they are proved over its contracts and not with
//! its bodies once more.
#![tactic(auto)]

#[cfg(test)]
mod tests;
