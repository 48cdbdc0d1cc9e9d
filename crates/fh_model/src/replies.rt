use crate::{FileMeta, Names, Tags};

/// What a client is told of a place, with the names of the user's view.
#[derive(Debug, Drop)]
pub enum Entry {
    File { names: Names, meta: FileMeta },
    Folder { names: Names, id: u64 },
}

/// Why a command was refused, and what the refusal names.
#[derive(Debug, Drop)]
pub struct Refusal {
    pub tags: Tags,

    /// The session that keeps the data of an upload.
    pub session: Option<u64>,

    /// The offset that would have been right.
    pub offset: Option<u64>,
}

/// The machine's reply to a command.
#[derive(Debug, Drop)]
pub enum Reply {
    Entry(Entry),
    Refused(Refusal),
}
