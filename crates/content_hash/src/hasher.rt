ghost use Rattle.std.specs.Prelude.{◌≡◌, ◌++◌, ◌<◌, ◌≤◌, ℕ, List, [], length, map, take, IfNone};
ghost use Rattle.sha2.specs.Sha256.{sha256};
ghost use Rattle.fh_model.specs.declared.limits.TheConstants.{BLOCK_BYTES};
ghost use Rattle.fh_model.specs.Content.{whole_blocks, last_block, last_part, content_hash};
ghost use Rattle.content_hash.specs.Digests.{listed};

use fh_model::{BLOCK_BYTES, Bytes32};
use sha2::{Digest, Sha256};

/// How much of a slice was taken in, and what became whole by it.
#[derive(Clone, Copy, Debug, PartialEq, Eq)]
pub struct Filled {
    /// The bytes that were taken, from the slice's start.
    pub taken: usize,

    /// The digest of the block that they made whole.
    pub digest: Option<Bytes32>,
}

/// A content, as far as its bytes have come.
#[derive(Drop)]
pub struct Hasher {
    /// Has been fed the digests of the whole blocks.
    blocks: Sha256,

    /// Has been fed the bytes behind the whole blocks.
    part: Sha256,

    /// How many these are.
    part_len: usize,
    ghost short: { part_len < BLOCK_BYTES },
}

impl Hasher {
    ghost use Rattle.content_hash.specs.Hashing.{HasTaken};

    /// The hasher of the empty content.
    pub fn new() -> Hasher
        ensures { HasTaken result [] }
    {
        Hasher {
            blocks: Sha256::new(),
            part: Sha256::new(),
            part_len: 0,
        }
    }

    /// Takes in more bytes.
    pub fn update(&mut self, bytes: &[u8])
        ensures { (content : List ℕ) → HasTaken self.old content → HasTaken self.new (content ++ bytes.now) }
    {
        let mut rest = bytes;
        while !rest.is_empty() {
            let filled = self.fill(rest);
            rest = &rest[filled.taken..];
        }
    }

    /// Takes in the first of these bytes, up to the end of the block at hand. Tells how many they were, and the digest
    /// of the block where it is whole now.
    pub fn fill(&mut self, bytes: &[u8]) -> Filled
        ensures within { result.taken ≤ length bytes.now }
        ensures some { 0 < length bytes.now → 0 < result.taken }
        // Where no block became whole, all bytes were taken.
        ensures all { IfNone result.digest (result.taken ≡ length bytes.now) }
        ensures content { (content : List ℕ) → HasTaken self.old content → HasTaken self.new (content ++ take result.taken bytes.now) }
        ensures digest { (content : List ℕ) → HasTaken self.old content
            → map sha256 (whole_blocks (content ++ take result.taken bytes.now)) ≡ map sha256 (whole_blocks content) ++ listed result.digest }
    {
        let room = BLOCK_BYTES - self.part_len;
        let taken = bytes.len().min(room);
        self.part.update(&bytes[..taken]);
        if taken < room {
            self.part_len += taken;
            return Filled {
                taken,
                digest: None,
            };
        }
        let digest = self.part.finalize_reset();
        self.part_len = 0;
        self.blocks.update(digest.as_slice());
        Filled {
            taken,
            digest: Some(Bytes32 { bytes: digest }),
        }
    }

    /// The digest of the bytes behind the last whole block. None where there are none.
    pub fn last_digest(&self) -> Option<Bytes32>
        ensures { (content : List ℕ) → HasTaken self.now content → listed result ≡ map sha256 (last_block (last_part content)) }
    {
        if self.part_len == 0 {
            return None;
        }
        let Ok(part) = self.part.clone() else {
            unreachable!();
        };
        Some(Bytes32 {
            bytes: part.finalize(),
        })
    }

    /// The content hash of what was taken in so far.
    pub fn digest(&self) -> Bytes32
        ensures { (content : List ℕ) → HasTaken self.now content → result.bytes ≡ content_hash content }
    {
        let Ok(mut blocks) = self.blocks.clone() else {
            unreachable!();
        };
        if let Some(last) = self.last_digest() {
            blocks.update(last.bytes.as_slice());
        }
        Bytes32 {
            bytes: blocks.finalize(),
        }
    }
}
