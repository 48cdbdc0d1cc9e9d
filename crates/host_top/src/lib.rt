//! The top calls of the program: each does all that one command of `filehost` does, over the words of the command
//! line and the disk, source, sink and clock that it is lent.
#![tactic(auto)]

mod pipe;
mod status;
mod words;

pub use pipe::run_pipe;
pub use status::{Status, exit_code, status_line};
pub use words::{Plan, WordsFault, read_words};
