//! The bodies that no request changes, and the replies that take no memory.
ghost use Rattle.std.specs.Prelude.{◌≡◌, codes};
ghost use Rattle.http_out.specs.Reply.{reply_text};
ghost use Rattle.http_out.specs.declared.replying.BodyKind.TheVariants.{Plain};

/// The body of 400 where the bytes of a request are no request.
pub const BAD_REQUEST: &str = "bad request";

/// The body of 401, which is JSON.
pub const INVALID_TOKEN: &str =
    "{\"error\":{\".tag\":\"invalid_access_token\"},\"error_summary\":\"invalid_access_token/...\"}";

/// The body of 404.
pub const UNKNOWN_ROUTE: &str = "unknown route";

/// The body of 405.
pub const METHOD_NOT_ALLOWED: &str = "method not allowed";

/// The body of 413.
pub const BODY_TOO_LARGE: &str = "body too large";

/// The body of 431.
pub const HEAD_TOO_LARGE: &str = "head too large";

/// The reply where the disk failed, which takes no memory. `close` says that the connection ends after it.
pub fn disk_fault(close: bool) -> &'static [u8]
    ensures { result.now ≡ reply_text 500 Plain (codes "disk fault") close }
{
    if close {
        b"HTTP/1.1 500 Internal Server Error\r\nContent-Type: text/plain; charset=utf-8\r\nContent-Length: 10\r\nConnection: close\r\n\r\ndisk fault"
    } else {
        b"HTTP/1.1 500 Internal Server Error\r\nContent-Type: text/plain; charset=utf-8\r\nContent-Length: 10\r\n\r\ndisk fault"
    }
}

/// The reply where memory ran out, which takes none. `close` says that the connection ends after it.
pub fn out_of_memory(close: bool) -> &'static [u8]
    ensures { result.now ≡ reply_text 503 Plain (codes "out of memory") close }
{
    if close {
        b"HTTP/1.1 503 Service Unavailable\r\nContent-Type: text/plain; charset=utf-8\r\nContent-Length: 13\r\nConnection: close\r\n\r\nout of memory"
    } else {
        b"HTTP/1.1 503 Service Unavailable\r\nContent-Type: text/plain; charset=utf-8\r\nContent-Length: 13\r\n\r\nout of memory"
    }
}
