//! HTTP/1.1 requests, read from a source of bytes however they are cut.
//!
//! A [`Reader`] reads one request after another from a connection: `next` reads a head, and `body` its body in
//! portions. The bytes are
//!
//! ```text
//! *( head body )
//! head     as httparse reads it, version 1.0 or 1.1, 16,384 bytes and 64 field lines at most
//! body     nothing                                              neither header stands
//!          so many bytes                                        Content-Length: 1*18DIGIT
//!          *( size-line size-bytes CR LF ) zero-line trailers   Transfer-Encoding: chunked
//! ```
//!
//! What it promises: each answer is by the definitions in specs/ (`HeadCall`, `BodyCall`) of the bytes at hand, and so
//! the same however the source cuts them. The bytes of a connection split into requests and one ending in one way
//! (`one_reading`). A fault of the source is told at the call in which it came. Where the bytes held are enough for an
//! answer, the source is left alone (`Suffices`, `EndsNow`). After `NoMemory` no byte is lost, and the call may be made
//! again. A reader holds one head and one buffer of its size, never a body: content goes into the caller's buffer in
//! the pieces in which it arrives.
//!
//! What it doesn't: it knows no routes but the four that may have content, reads no argument, and writes nothing,
//! `100 Continue` neither. The limit of 64 field lines is tested once the whole head has come. A head, a chunk line or
//! trailers that the bytes leave unfinished are cut where httparse's grammar lets them go on, also where none of the
//! ways to go on keeps within a limit.
#![tactic(auto)]

mod all;
mod bodies;
mod chunks;
mod fields;
mod head;
mod heads;
mod held;
mod laws;
mod limits;
mod parts;
mod place;
mod reader;

pub use all::{BodyEnd, Outcome, read_all, read_content};
pub use bodies::BodyStep;
pub use head::{Head, Length};
pub use heads::Step;
pub use laws::{endings_stand, limits_are, one_body, one_ending, one_reading};
pub use limits::{
    BODY_MAX_BYTES, CHUNK_LINE_MAX_BYTES, CONTENT_MAX_BYTES, HEAD_MAX_BYTES, HEAD_MAX_LINES,
    LENGTH_MAX_DIGITS,
};
pub use parts::is_content_target;
pub use place::{Place, State};
pub use reader::Reader;
