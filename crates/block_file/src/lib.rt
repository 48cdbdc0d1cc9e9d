//! The block file: the pieces of files, each of 1 to 4,194,304 bytes, one behind another without a header.
//!
//! `put` writes the bytes of a piece and syncs them, so that they are durable before anything names the piece; `get`
//! reads a piece back. After a `put` that is `Ok`, the piece's bytes are read back, also after any crash. While it
//! runs, and where it fails, only the range from its place on may hold anything, so that no piece below is touched. The
//! file is extended by zeros now and then, as a sync is quicker where it changes no length.
//! Which pieces are in use is not known here: whoever calls `put` says where the file's use ends. `put_hashed` is `put`
//! for bytes whose digest is known. No call takes memory, and none changes another file.
#![tactic(auto)]

mod pieces;

pub use pieces::{PutFault, get, put, put_hashed};
