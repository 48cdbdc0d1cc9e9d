ghost use Rattle.std.specs.Prelude.{◌≡◌, ℕ, ◌≤◌, ◌<◌, ◌+◌, ◌&&◌, ◌||◌, ◌==◌, length, map, All, IfOk, OnOk, option_map, option_and_then, codes, take, drop};
ghost use Rattle.httparse.specs.Spans.{IsHeaderWithin, header_bytes};
ghost use Rattle.http_in.specs.Framing.{number_after, stated_length, framing_by, framing_in};
ghost use Rattle.http_in.specs.Parts.{is_content_target, limit_of, token_of, says, awaits, IsPartsOf};
ghost use Rattle.http_in.specs.Fields.{find_field};
ghost use Rattle.http_in.specs.PartsRead.{IsPartsRead};

use crate::fields::{is_name, read_values};
use crate::head::{Head, Length};
use crate::limits::{BODY_MAX_BYTES, CONTENT_MAX_BYTES, LENGTH_MAX_DIGITS};
use httparse::spans::HeaderSpan;
use std::alloc::{AllocError, Global};

/// The number that 1 to 18 digits write.
pub(crate) fn read_length(value: &[u8]) -> Option<u64>
    ensures { result ≡ stated_length value.now }
{
    if value.is_empty() || value.len() > LENGTH_MAX_DIGITS {
        return None;
    }
    let mut number: u64 = 0;
    for digit in value {
        if !digit.is_ascii_digit() {
            return None;
        }
        number = number * 10 + (*digit - 48) as u64;
    }
    Some(number)
}

/// The framing by the first `Content-Length`, whether it stands once, and the first `Transfer-Encoding`.
fn frame(stated: Option<&[u8]>, once: bool, coded: Option<&[u8]>) -> Option<Length>
    ensures { result ≡ framing_by (option_map (λ v. v.now) stated.entry) once (option_map (λ v. v.now) coded.entry) }
{
    match stated {
        None => match coded {
            None => Some(Length::Absent),
            Some(coding) => {
                if is_name(coding, b"chunked".as_slice()) {
                    Some(Length::Chunked)
                } else {
                    None
                }
            }
        },
        Some(value) => match coded {
            None => {
                if !once {
                    return None;
                }
                match read_length(value) {
                    None => None,
                    Some(number) => Some(Length::Known(number)),
                }
            }
            Some(_) => None,
        },
    }
}

/// Whether the bodies of this route are the content of a file.
pub fn is_content_target(target: &[u8]) -> bool
    ensures { result ≡ is_content_target target.now }
{
    target == b"/2/files/upload".as_slice()
        || target == b"/2/files/upload_session/start".as_slice()
        || target == b"/2/files/upload_session/append_v2".as_slice()
        || target == b"/2/files/upload_session/finish".as_slice()
}

/// How many bytes the body of a request for this target may have.
pub(crate) fn body_limit(target: &[u8]) -> u64
    ensures { result ≡ limit_of target.now }
{
    if is_content_target(target) {
        CONTENT_MAX_BYTES
    } else {
        BODY_MAX_BYTES
    }
}

/// The token behind `Bearer` and a space.
pub(crate) fn read_token(value: &[u8]) -> Option<&[u8]>
    ensures { option_map (λ v. v.now) result ≡ token_of value.now }
{
    let count = value.len().min(7);
    if is_name(&value[..count], b"Bearer ".as_slice()) {
        Some(&value[count..])
    } else {
        None
    }
}

/// Whether the value is that word.
fn is_said(word: &[u8], value: Option<&[u8]>) -> bool
    ensures { result ≡ says word.now (option_map (λ v. v.now) value.entry) }
{
    match value {
        None => false,
        Some(text) => is_name(text, word),
    }
}

/// Whether a body comes that states neither no bytes nor more than the route takes. The route is looked at only where
/// a number of bytes is stated.
fn is_awaited(target: &[u8], length: Length) -> bool
    ensures { result ≡ awaits (limit_of target.now) length }
{
    match length {
        Length::Absent => false,
        Length::Known(number) => number > 0 && number <= body_limit(target),
        Length::Chunked => true,
    }
}

/// Whether the client waits for `100 Continue`.
fn is_interim(minor: u8, expects: bool, awaited: bool) -> bool
    ensures { result ≡ ((minor == 1) && expects && awaited) }
{
    minor == 1 && expects && awaited
}

/// Whether the connection ends with the reply.
fn is_last(minor: u8, closes: bool) -> bool
    ensures { result ≡ ((minor == 0) || closes) }
{
    minor == 0 || closes
}

/// A copy of the value, if there is one.
fn copy_some(alloc: Global, value: Option<&[u8]>) -> Result<Option<Vec<u8>>, AllocError>
    ensures { IfOk result (λ o. option_map (λ v. v.items) o ≡ option_map (λ v. v.now) value.entry) }
{
    match value {
        None => Ok(None),
        Some(text) => {
            let copy = Vec::from_slice(alloc, text)?;
            Ok(Some(copy))
        }
    }
}

/// The token of the value, if there is one.
fn token_behind(value: Option<&[u8]>) -> Option<&[u8]>
    ensures { option_map (λ v. v.now) result ≡ option_and_then token_of (option_map (λ v. v.now) value.entry) }
{
    match value {
        None => None,
        Some(text) => read_token(text),
    }
}

/// What the fields came to.
#[derive(Drop)]
pub(crate) enum Parts {
    Whole(Head),
    Misframed,
    NoMemory,
}

/// The parts of a head.
pub(crate) fn read_parts(
    alloc: Global,
    method: &[u8],
    target: &[u8],
    minor: u8,
    held: &[u8],
    spans: &[HeaderSpan],
) -> Parts
    requires { All (IsHeaderWithin (length held.now)) spans.now }
    ensures { IsPartsRead method.now target.now minor (map (header_bytes held.now) spans.now) result }
{
    let values = read_values(held, spans);
    let once = values.lengths < 2;
    let Some(length) = frame(values.length, once, values.coding) else {
        return Parts::Misframed;
    };
    let expects = is_said(b"100-continue".as_slice(), values.expect);
    let closes = is_said(b"close".as_slice(), values.connection);
    let awaited = is_awaited(target, length);
    let Ok(method) = Vec::from_slice(alloc, method) else {
        return Parts::NoMemory;
    };
    let Ok(target) = Vec::from_slice(alloc, target) else {
        return Parts::NoMemory;
    };
    let Ok(token) = copy_some(alloc, token_behind(values.authorization)) else {
        return Parts::NoMemory;
    };
    let Ok(arg) = copy_some(alloc, values.arg) else {
        return Parts::NoMemory;
    };
    Parts::Whole(Head {
        method,
        target,
        token,
        arg,
        length,
        interim: is_interim(minor, expects, awaited),
        last: is_last(minor, closes),
    })
}
