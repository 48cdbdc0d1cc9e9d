ghost use Rattle.std.specs.Prelude.{◌≡◌, Ok};

use crate::{Copies, Items, NoMemory, Piece};

/// A piece of a session, as the block with this number.
#[derive(Clone, Copy, Debug, PartialEq, Eq)]
pub struct BlockPiece {
    /// From 0 on.
    pub block: u64,
    pub piece: Piece,
}

/// The pieces of a session, with rising numbers of their blocks.
pub type BlockPieces = Items<BlockPiece>;

/// Data that was uploaded and is of no file yet.
#[derive(Debug, Drop)]
pub struct Session {
    pub number: u64,

    /// The number of the user whose session it is.
    pub user: u64,

    /// Whether its blocks may come in any order.
    pub concurrent: bool,

    /// Whether its last data came.
    pub closed: bool,

    /// The moment at which it was started, in seconds.
    pub start: u64,

    /// In bytes.
    pub size: u64,
    pub pieces: BlockPieces,
}

impl Copies for BlockPiece {
    fn copy(&self) -> Result<BlockPiece, NoMemory>
        ensures { result ≡ Ok self.now }
    {
        Ok(*self)
    }
}

impl Copies for Session {
    fn copy(&self) -> Result<Session, NoMemory> {
        let pieces = self.pieces.copy()?;
        Ok(Session { pieces, ..*self })
    }
}
