ghost use Rattle.std.specs.Prelude.{◌≡◌, Ok};

use crate::{Copies, Items, NoMemory};

/// The 32 bytes of a SHA-256 digest.
#[derive(Clone, Copy, Debug, PartialEq, Eq)]
pub struct Bytes32 {
    pub bytes: [u8; 32],
}

/// Where one block of a file stands: `len` bytes of the block file from `place` on, and their digest.
#[derive(Clone, Copy, Debug, PartialEq, Eq)]
pub struct Piece {
    /// In bytes from the start of the block file.
    pub place: u64,

    /// 1 to `BLOCK_BYTES`.
    pub len: u32,

    /// The SHA-256 digest of the bytes.
    pub digest: Bytes32,
}

/// The pieces of a file, in the order of its content.
pub type Pieces = Items<Piece>;

impl Copies for Bytes32 {
    fn copy(&self) -> Result<Bytes32, NoMemory>
        ensures { result ≡ Ok self.now }
    {
        Ok(*self)
    }
}

impl Copies for Piece {
    fn copy(&self) -> Result<Piece, NoMemory>
        ensures { result ≡ Ok self.now }
    {
        Ok(*self)
    }
}
