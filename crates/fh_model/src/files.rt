use crate::{Bytes32, Copies, Names, NoMemory, Pieces};

/// One version of a file.
#[derive(Debug, Drop)]
pub struct FileMeta {
    /// The number of the file, which its next versions keep.
    pub id: u64,

    /// The number of this version.
    pub rev: u64,

    /// In bytes: the sum of the pieces' lengths.
    pub size: u64,

    /// The content hash.
    pub hash: Bytes32,

    /// The moment that the client gave, in seconds.
    pub client: u64,

    /// The moment of the command that wrote it, in seconds.
    pub server: u64,

    /// All whole blocks but the last. An empty file has none.
    pub pieces: Pieces,
}

/// A version of a file that is kept for good, with the place at which it was put.
#[derive(Debug, Drop)]
pub struct Revision {
    /// The number of the namespace.
    pub ns: u64,

    /// The names from its root.
    pub names: Names,
    pub file: FileMeta,
}

impl Copies for FileMeta {
    fn copy(&self) -> Result<FileMeta, NoMemory> {
        let pieces = self.pieces.copy()?;
        Ok(FileMeta { pieces, ..*self })
    }
}

impl Copies for Revision {
    fn copy(&self) -> Result<Revision, NoMemory> {
        let names = self.names.copy()?;
        let file = self.file.copy()?;
        Ok(Revision {
            ns: self.ns,
            names,
            file,
        })
    }
}
