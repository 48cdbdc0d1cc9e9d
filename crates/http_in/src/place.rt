/// A place inside a body. A budget is how many bytes of content may still come.
#[derive(Clone, Copy, Debug, Drop, PartialEq, Eq)]
pub enum Place {
    /// So many bytes of content are left, and then the body ends.
    Known(u64),
    /// A chunk line comes. The budget is for it and the chunks behind it.
    Line(u64),
    /// So many bytes of a chunk are left. The budget is for the chunks behind it.
    Chunk(u64, u64),
    /// The CR LF behind the bytes of a chunk comes.
    ChunkEnd(u64),
    /// The trailers come, behind the chunk of no bytes.
    Trailers,
    /// The head states more bytes than the body may have.
    Over,
}

/// Where a reader stands.
#[derive(Clone, Copy, Debug, Drop, PartialEq, Eq)]
pub enum State {
    /// Before a head: `next` may be called.
    Between,
    /// At a place inside a body: `body` may be called.
    Inside(Place),
    /// Behind an ending: nothing more is read.
    Ended,
}
