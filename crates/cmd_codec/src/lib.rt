//! Commands as bytes: the body of a journal record that carries a command.
//!
//! | part | bytes |
//! |---|---|
//! | kind | 1 byte, the number of the act |
//! | seat | `u64` |
//! | at | the moment in seconds as a `u64`, at most 253,402,300,799 |
//! | fields | those of the act, in the order of its declaration |
//!
//! | kind | act | fields |
//! |---|---|---|
//! | 1 | make folder | user `u64`, path text, rename truth value |
//! | 2 | upload | user `u64`, commit, drafted `u32`, last piece if there is one |
//!
//! A commit is a path text, a mode, the truth values rename and strict, and the client's moment if there is one. A mode
//! is one byte: 0 for add, 1 for overwrite, or 2 for update with the rev as a `u64` behind it.
//!
//! Numbers have the highest byte first; how the other fields are spelled, `byte_formats` says.
//!
//! A command has at most one spelling. `decode` gives back what `encode` wrote, and gives nothing else: where the
//! bytes are no spelling it names the first byte with which no spelling begins. What a command means, and whether it
//! is accepted, is not decided here.
#![tactic(auto)]

mod kinds;
mod reading;
mod spelling;
mod writing;

pub use reading::decode;
pub use spelling::has_spelling;
pub use writing::encode;
