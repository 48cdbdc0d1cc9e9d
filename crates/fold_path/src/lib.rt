//! The texts of paths: which are malformed, what each other one stands for, and how a name's case is folded.
//!
//! `parse` answers `Malformed` for just the texts that the path rule of fh_model (`specs/PathRule.antt`) lists, and gives for
//! each other one what it stands for, with the names as they were written and as they are compared. A name is
//! compared by its folded text: Unicode's full default case folding. Names are not normalized, so a text that
//! composes its marks in another way is another name. What a path finds in a tree is not asked here.
#![tactic(auto)]

mod fault;
mod folding;
mod names;
mod numbers;
mod reading;

pub use fault::PathFault;
pub use folding::fold;
pub use numbers::{is_lower_hex, revision};
pub use reading::parse;
