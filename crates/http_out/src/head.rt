//! The lines of a head, each put at the end of a text.
ghost use Rattle.std.specs.Prelude.{◌≡◌, ◌++◌, OnOk, codes, decimal, unwrap_or, []};
ghost use Rattle.http.specs.StatusCode.{reason_phrase};
ghost use Rattle.http_out.specs.Reply.{IsReplyStatus, body_lines, close_line, download_end, end_text, line, start_text, status_line};

use fh_model::NoMemory;
use http::StatusCode;
use std::alloc::Global;

fn phrase_of(status: u16) -> &'static str
    requires { IsReplyStatus status }
    ensures { result.now ≡ unwrap_or (reason_phrase status) [] }
{
    match StatusCode::from_u16(status) {
        Ok(code) => code.canonical_reason().unwrap_or(""),
        Err(_) => unreachable!(),
    }
}

#[tactic(auto, unfolding(crate::specs::Reply::status_line))]
fn push_status(alloc: Global, out: &mut Vec<u8>, status: u16) -> Result<(), NoMemory>
    requires { IsReplyStatus status }
    ensures { OnOk result (out.new.items ≡ out.old.items ++ status_line status) }
{
    let phrase = phrase_of(status);
    let text = format!(in alloc; "HTTP/1.1 {status} {phrase}\r\n")?;
    out.extend_from_slice(text.as_bytes())?;
    Ok(())
}

#[tactic(auto, unfolding(crate::specs::Reply::line))]
fn push_line(out: &mut Vec<u8>, name: &str, value: &str) -> Result<(), NoMemory>
    ensures { OnOk result (out.new.items ≡ out.old.items ++ line name.now value.now) }
{
    out.extend_from_slice(name.as_bytes())?;
    out.extend_from_slice(b": ".as_slice())?;
    out.extend_from_slice(value.as_bytes())?;
    out.extend_from_slice(b"\r\n".as_slice())?;
    Ok(())
}

fn push_length(alloc: Global, out: &mut Vec<u8>, size: u64) -> Result<(), NoMemory>
    ensures { OnOk result (out.new.items ≡ out.old.items ++ line (codes "Content-Length") (decimal size)) }
{
    let text = size.to_string(alloc)?;
    push_line(out, "Content-Length", text.as_str())
}

/// The lines that tell of the body.
#[tactic(auto, unfolding(crate::specs::Reply::body_lines))]
fn push_body_lines(alloc: Global, out: &mut Vec<u8>, kind: &str, size: u64) -> Result<(), NoMemory>
    ensures { OnOk result (out.new.items ≡ out.old.items ++ body_lines kind.now size) }
{
    push_line(out, "Content-Type", kind)?;
    push_length(alloc, out, size)?;
    Ok(())
}

/// The status line and the lines that tell of the body.
#[tactic(auto, unfolding(crate::specs::Reply::start_text))]
pub(crate) fn push_start(
    alloc: Global,
    out: &mut Vec<u8>,
    status: u16,
    kind: &str,
    size: u64,
) -> Result<(), NoMemory>
    requires { IsReplyStatus status }
    ensures { OnOk result (out.new.items ≡ out.old.items ++ start_text status kind.now size) }
{
    push_status(alloc, out, status)?;
    push_body_lines(alloc, out, kind, size)
}

#[tactic(auto, unfolding(crate::specs::Reply::close_line))]
fn push_close(out: &mut Vec<u8>, close: bool) -> Result<(), NoMemory>
    ensures { OnOk result (out.new.items ≡ out.old.items ++ close_line close) }
{
    if close {
        push_line(out, "Connection", "close")?;
    }
    Ok(())
}

/// The line that tells of the connection's end, where it ends, and the empty line.
#[tactic(auto, unfolding(crate::specs::Reply::end_text))]
pub(crate) fn push_end(out: &mut Vec<u8>, close: bool) -> Result<(), NoMemory>
    ensures { OnOk result (out.new.items ≡ out.old.items ++ end_text close) }
{
    push_close(out, close)?;
    out.extend_from_slice(b"\r\n".as_slice())?;
    Ok(())
}

/// The line with a download's metadata, and the head's end.
#[tactic(auto, unfolding(crate::specs::Reply::download_end))]
pub(crate) fn push_download_end(
    out: &mut Vec<u8>,
    metadata: &str,
    close: bool,
) -> Result<(), NoMemory>
    ensures { OnOk result (out.new.items ≡ out.old.items ++ download_end metadata.now close) }
{
    push_line(out, "Dropbox-API-Result", metadata)?;
    push_end(out, close)?;
    Ok(())
}
