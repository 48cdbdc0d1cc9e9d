use fh_model::{Entry, Refusal};

/// What the body of a reply tells.
#[derive(Debug, Drop)]
pub enum Answer {
    /// An entry with its tag.
    Tagged(Entry),

    /// An entry without its tag.
    Plain(Entry),

    /// An entry under `metadata`, with its tag or without.
    Wrapped { entry: Entry, tagged: bool },

    /// Why a request was refused.
    Error(Refusal),
}
