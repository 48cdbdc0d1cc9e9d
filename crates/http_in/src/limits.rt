/// The most bytes of a request's head, and of the trailers of a chunked body.
pub const HEAD_MAX_BYTES: usize = 16_384;

/// The most field lines of a head, and of trailers.
pub const HEAD_MAX_LINES: usize = 64;

/// The most bytes of a chunk line before its CR LF.
pub const CHUNK_LINE_MAX_BYTES: usize = 4_096;

/// The most digits of a `Content-Length`.
pub const LENGTH_MAX_DIGITS: usize = 18;

/// The most bytes of a body on a route without content.
pub const BODY_MAX_BYTES: u64 = 1_048_576;

/// The most bytes of a body on a route that uploads content.
pub const CONTENT_MAX_BYTES: u64 = 157_286_400;
