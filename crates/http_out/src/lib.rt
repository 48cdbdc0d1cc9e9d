//! The texts of replies: a status line, header lines, an empty line and the body.
//!
//! ```text
//! HTTP/1.1 STATUS PHRASE
//! Content-Type: TYPE
//! Content-Length: BYTES
//! Dropbox-API-Result: JSON     a download's alone
//! Connection: close            where the connection ends
//!
//! BODY
//! ```
//!
//! Each line ends in CR LF. The phrase of a status is the `http` crate's. `specs/Reply.antt` is the definition, and
//! every call gives exactly its text. The replies that tell of a fault of the disk or of want of memory are constant
//! texts, so that they can be had where no memory is left. What a body says is its writer's affair.
#![tactic(auto)]

mod constant;
mod head;
mod replying;
mod safe;

pub use constant::{
    BAD_REQUEST, BODY_TOO_LARGE, HEAD_TOO_LARGE, INVALID_TOKEN, METHOD_NOT_ALLOWED, UNKNOWN_ROUTE,
    disk_fault, out_of_memory,
};
pub use replying::{BodyKind, download_head, is_reply_status, reply};
pub use safe::header_safe;
