//! One connection: requests in, the machine's replies out.
//!
//! `serve_conn` reads requests from a source until it ends or a request asks that the connection end, lets the command
//! of each enter through a port or looks at the machine, and writes its reply to a sink. A content is sent one block
//! after another, so that no more than one is held. Its contract says all that it did as a list of turns: the requests
//! whose bytes were read, the point of the port's history at which each was answered, what was written, what became of
//! the block file, and why the connection ended. It promises nothing of how long a port, a source or a sink takes.
#![tactic(auto)]

mod answering;
mod bodies;
mod conn;
mod finding;
mod receiving;
mod sending;
mod serving;

pub use conn::{Conn, ConnEnd};
pub use serving::serve_conn;
