/// What stands in the way of a write.
#[derive(Clone, Copy, Debug, PartialEq, Eq)]
pub enum Kind {
    File,

    /// A folder or a mount point.
    Folder,
}

/// What becomes of a commit at its place.
#[derive(Clone, Copy, Debug, PartialEq, Eq)]
pub enum Verdict {
    /// The file is written.
    Write,

    /// The file that stands there has this content already, and stays.
    Same,

    /// It is refused.
    Conflict(Kind),
}
