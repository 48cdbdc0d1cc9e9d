//! The content hash of a file, taken as its bytes come.
//!
//! A content is cut into blocks of 4,194,304 bytes, the last of which may be shorter. Its hash is the SHA-256 digest of
//! the joined SHA-256 digests of the blocks. An empty content has no blocks, so its hash is the digest of nothing.
//!
//! A `Hasher` takes a content in any cutting. `Hasher::fill` tells the digest of each block as it becomes whole, and
//! `Hasher::last_digest` that of a last block that is shorter, so that one pass gives the hash and the digests of the
//! blocks. `of_digests` makes the hash of these digests alone, and `of_block` does both for a content of one block. No
//! call takes memory, and none refuses.
#![tactic(auto)]

mod block;
mod hasher;
mod joined;

pub use block::of_block;
pub use hasher::{Filled, Hasher};
pub use joined::of_digests;
