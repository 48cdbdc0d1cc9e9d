ghost use Rattle.std.specs.Prelude.{◌≡◌, IfOk};
ghost use Rattle.http_out.specs.Reply.{IsReplyStatus, download_head_text, is_reply_status, reply_text, type_of};

use crate::head::{push_download_end, push_end, push_start};
use fh_model::{NoMemory, Text};
use std::alloc::Global;

/// What the body of a reply is.
#[derive(Clone, Copy, Debug, PartialEq, Eq)]
pub enum BodyKind {
    Json,
    Plain,
}

impl BodyKind {
    fn content_type(self) -> &'static str
        ensures { result.now ≡ type_of self }
    {
        match self {
            BodyKind::Json => "application/json",
            BodyKind::Plain => "text/plain; charset=utf-8",
        }
    }
}

/// The room for a head, which none passes, but for a download's metadata.
const HEAD_ROOM_BYTES: usize = 160;

/// Whether replies have this status.
pub fn is_reply_status(status: u16) -> bool
    ensures { result ≡ is_reply_status status }
{
    matches!(
        status,
        200 | 400 | 401 | 404 | 405 | 409 | 413 | 431 | 500 | 503
    )
}

/// The whole text of a reply. `close` says that the connection ends after it.
pub fn reply(
    alloc: Global,
    status: u16,
    kind: BodyKind,
    body: &[u8],
    close: bool,
) -> Result<Vec<u8>, NoMemory>
    requires { IsReplyStatus status }
    ensures { IfOk result (λ text. text.items ≡ reply_text status kind body.now close) }
{
    let mut out = Vec::with_capacity(alloc, body.len().saturating_add(HEAD_ROOM_BYTES))?;
    push_start(
        alloc,
        &mut out,
        status,
        kind.content_type(),
        body.len() as u64,
    )?;
    push_end(&mut out, close)?;
    out.extend_from_slice(body)?;
    Ok(out)
}

/// The text of a download's reply up to its body of `size` bytes. `metadata` is the file's metadata as header-safe JSON.
pub fn download_head(
    alloc: Global,
    metadata: &Text,
    size: u64,
    close: bool,
) -> Result<Vec<u8>, NoMemory>
    ensures { IfOk result (λ text. text.items ≡ download_head_text metadata.now size close) }
{
    let room = metadata.as_bytes().len().saturating_add(HEAD_ROOM_BYTES);
    let mut out = Vec::with_capacity(alloc, room)?;
    push_start(alloc, &mut out, 200, "application/octet-stream", size)?;
    push_download_end(&mut out, metadata.as_str(), close)?;
    Ok(out)
}
