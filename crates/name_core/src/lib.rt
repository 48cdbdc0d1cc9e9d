//! The machine's image: an immutable state, with the commands that were applied since it was made.
//!
//! What an image stands for is the state that it starts from and the list of these commands; its state is their fold
//! by the step of the machine, never a second truth. The body is a plain one: lists, which share their items, and the
//! long ones their full chunks, with the lists that are made of them at each change. Each namespace keeps the tree that
//! its changes make, so a path is looked up without reading the changes again, and the machine the end of its pieces.
#![tactic(auto)]

mod chunks;
mod commits;
mod ends;
mod faults;
mod files;
mod image;
mod keys;
mod looks;
mod machine;
mod nodes;
mod places;
mod row_rules;
mod rows;
mod shared;
mod space;
mod trees;
mod uploads;
mod verdicts;
mod writing;

pub use faults::{LookFault, RowsFault};
pub use image::Image;
