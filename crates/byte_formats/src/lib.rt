//! The fields that the bodies of records are made of, and the laws of formats.
//!
//! | field | bytes |
//! |---|---|
//! | number | `u32` of 4 bytes or `u64` of 8, the highest byte first |
//! | moment | a `u64` in seconds, at most 253,402,300,799 |
//! | truth value | 1 byte: 0 or 1 |
//! | text | how many bytes it has as a `u32`, and the bytes, which are UTF-8 |
//! | field that may be absent | 1 byte 0, or 1 byte 1 and the field |
//! | list | how many items it has as a `u32`, and the items |
//! | piece | place `u64`, length `u32` from 1 to 4,194,304, and the 32 bytes of the digest |
//!
//! A format says how the values of a type are spelled as bytes. Each value has at most one spelling, what is spelled
//! is read back, and where bytes are no spelling the first bad byte is known: the first one with which no spelling
//! begins. These laws are proved once for each field and for each way to make a format of others, so that a crate
//! with a format of its own cites them (`proofs/Laws`).
//!
//! Readers take from the front of the bytes and give back the rest. They say where they stop by how many bytes are
//! left from the first bad one on, which stays true as it is handed up; a place is made of it once, at the top.
//! Nothing here knows of commands or rows.
#![tactic(auto)]

mod fault;
mod field;
mod flag;
mod list;
mod moment;
mod number;
mod optional;
mod piece;
mod stop;
mod text;

pub use fault::CodecFault;
pub use field::{Field, put_byte};
pub use moment::{moment_at, optional_moment_at};
pub use stop::Stop;
