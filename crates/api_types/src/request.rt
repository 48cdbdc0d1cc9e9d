use fh_model::{Bytes32, Commit, Text};

/// A request whose argument keeps the rules of its route, with the fields of that route in their order.
#[derive(Debug, Drop)]
pub enum Request {
    /// Make a folder at a path, under another name where the place is taken and `autorename` is set.
    CreateFolder {
        path: Text,
        autorename: bool,
    },

    /// Tell what stands at a path.
    GetMetadata {
        path: Text,
    },

    /// Make a file of the content that comes with the request. Where `content_hash` is given, it has to be the content's.
    Upload {
        commit: Commit,
        content_hash: Option<Bytes32>,
    },

    /// Send the content of the file at a path.
    Download {
        path: Text,
    },
}
