ghost use Rattle.std.specs.Prelude.{◌≡◌, IfOk, IfErr};

use fh_model::NoMemory;
use http_in::Reader;
use std::alloc::{AllocError, Global};

/// How a connection ended.
#[derive(Clone, Copy, Debug, PartialEq, Eq)]
pub enum ConnEnd {
    /// The input ended behind a request, or was empty, or a request asked that the connection end.
    Ended,

    /// The input ended inside a request.
    Cut,

    /// The bytes begin no request, or pass a limit.
    Bad,

    /// The source failed.
    ReadFault,

    /// The sink failed.
    WriteFault,

    /// The disk failed as a command was to enter, or as a content was sent.
    DiskFault,

    /// Memory was wanting.
    NoMemory,

    /// As many requests were answered as a connection may have.
    Spent,
}

impl From<NoMemory> for ConnEnd {
    ghost use Rattle.session_http.specs.declared.conn.ConnEnd.TheVariants as end;

    ghost from_gives = { λ _ found. found ≡ end.NoMemory };

    fn from(_: NoMemory) -> Self {
        ConnEnd::NoMemory
    }
}

impl From<AllocError> for ConnEnd {
    ghost use Rattle.session_http.specs.declared.conn.ConnEnd.TheVariants as end;

    ghost from_gives = { λ _ found. found ≡ end.NoMemory };

    fn from(_: AllocError) -> Self {
        ConnEnd::NoMemory
    }
}

/// A connection: where its requests come from, where its replies go, and what was read of it and not yet answered.
#[derive(Drop)]
pub struct Conn<S, K> {
    pub(crate) source: S,
    pub(crate) sink: K,
    pub(crate) reader: Reader,

    /// The room for the body of a request, which is used again for the next.
    pub(crate) buffer: Vec<u8>,

    /// How many requests were answered.
    pub(crate) answered: u64,
    pub(crate) alloc: Global,
}

impl<S, K> Conn<S, K> {
    ghost use Rattle.session_http.specs.Conn.{source_of, sink_of, IsNew};

    /// A new connection over its two ends. Where memory is wanting they come back.
    pub fn new(alloc: Global, source: S, sink: K) -> Result<Conn<S, K>, (S, K)>
        ensures ends { IfOk result (λ conn. (source_of conn ≡ source) × (sink_of conn ≡ sink)) }
        ensures unread { IfOk result IsNew }
        ensures err { IfErr result (λ ends. (ends.0 ≡ source) × (ends.1 ≡ sink)) }
    {
        match Reader::new(alloc) {
            Ok(reader) => Ok(Conn {
                source,
                sink,
                reader,
                buffer: Vec::new(alloc),
                answered: 0,
                alloc,
            }),
            Err(NoMemory) => Err((source, sink)),
        }
    }

    /// The two ends.
    pub fn into_ends(self) -> (S, K)
        ensures source { result.0 ≡ source_of self }
        ensures sink { result.1 ≡ sink_of self }
    {
        let Conn { source, sink, .. } = self;
        (source, sink)
    }
}
