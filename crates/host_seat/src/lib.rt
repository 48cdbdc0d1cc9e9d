//! The seats at the machine: the way by which a connection sees it and lets its commands enter.
//!
//! A `View` gives the image as it is, and a `Port` also lets commands in. Each tells what it has seen, a state and the
//! commands that entered since, and each of its calls has its point there. What it may have done besides, such as what a
//! crash may leave of its disk, is its own matter and is told by its relation `went`. Nothing here speaks of requests or
//! replies.
#![tactic(auto)]

mod direct;
mod port;
mod view;

pub use direct::Direct;
pub use port::{CommitFault, FetchFault, Port};
pub use view::View;
