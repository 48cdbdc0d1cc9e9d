/// How the body of a request is framed.
#[derive(Clone, Copy, Debug, Drop, PartialEq, Eq)]
pub enum Length {
    /// There is no body.
    Absent,
    /// So many bytes, by `Content-Length`.
    Known(u64),
    /// Chunks, by `Transfer-Encoding: chunked`.
    Chunked,
}

/// What the head of a request says.
#[derive(Debug, Drop)]
pub struct Head {
    pub method: Vec<u8>,
    pub target: Vec<u8>,
    /// The token behind `Bearer` and one space in the first `Authorization`.
    pub token: Option<Vec<u8>>,
    /// The value of the first `Dropbox-API-Arg`.
    pub arg: Option<Vec<u8>>,
    pub length: Length,
    /// Whether the client waits for `100 Continue` before it sends the body.
    pub interim: bool,
    /// Whether the connection ends with this request's reply.
    pub last: bool,
}
