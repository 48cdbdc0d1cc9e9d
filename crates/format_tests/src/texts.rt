use byte_formats::{Field, Stop};
use fh_model::Text;
use std::test::*;

/// The bytes, and the place of the first bad one where they are no text.
static TEXTS: [(&[u8], Option<usize>); 20] = [
    (b"", None),
    (b"/Docs", None),
    // The first and the last characters of each length but the first of one byte.
    (
        b"\x7F\xC2\x80\xDF\xBF\xE0\xA0\x80\xEF\xBF\xBF\xF0\x90\x80\x80\xF4\x8F\xBF\xBF",
        None,
    ),
    // A first byte with too few bytes after it in the text.
    (b"\xC3", Some(0)),
    (b"ab\xE2\x82", Some(2)),
    (b"\xF0\x9F\x98", Some(0)),
    // Bytes that begin no character.
    (b"a\x80", Some(1)),
    (b"\xC0\x80", Some(0)),
    (b"\xC1\xBF", Some(0)),
    (b"\xF5\x80\x80\x80", Some(0)),
    (b"\xF8\x88\x80\x80\x80", Some(0)),
    (b"\xFF", Some(0)),
    // Characters in more bytes than they need.
    (b"\xE0\x9F\xBF", Some(1)),
    (b"\xF0\x8F\xBF\xBF", Some(1)),
    // A surrogate, and a number above the last character.
    (b"\xED\xA0\x80", Some(1)),
    (b"\xF4\x90\x80\x80", Some(1)),
    // A character that another one cuts off.
    (b"\xC3a", Some(1)),
    (b"\xE2\x82a", Some(2)),
    (b"\xF0\x9F\x98a", Some(3)),
    (b"\xED\x9F\xBF\xEE\x80\x80\xC2", Some(6)),
];

/// The bytes behind their length, as a text is spelled.
fn spelled(rt: HostRuntime, bytes: &[u8]) -> Result<Vec<u8>, Fail> {
    let len = u32::try_from(bytes.len())?;
    let mut body = Vec::new(rt.alloc());
    body.extend_from_slice(&len.to_be_bytes())?;
    body.extend_from_slice(bytes)?;
    Ok(body)
}

/// Fails where a text has other bytes than these.
fn expect_bytes(text: &Text, bytes: &[u8]) -> Result<(), Fail> {
    if text.as_bytes() != bytes {
        return Err("another text".into());
    }
    Ok(())
}

/// The place of the first byte with which these begin no text, none where they are one.
fn first_bad(rt: HostRuntime, bytes: &[u8]) -> Result<Option<usize>, Fail> {
    let body = spelled(rt, bytes)?;
    match Text::read(rt.alloc(), &body) {
        Ok((text, [])) => {
            expect_bytes(&text, bytes)?;
            Ok(None)
        }
        Ok(_) => Err("bytes behind the text".into()),
        Err(Stop::Bad(left)) if left <= bytes.len() => Ok(Some(bytes.len() - left)),
        Err(Stop::Bad(_)) => Err("a place in front of the text".into()),
        Err(Stop::NoMemory) => Err("out of memory".into()),
    }
}

#[test]
fn a_text_is_utf8(rt: HostRuntime) -> Result<(), Fail> {
    for (bytes, bad) in &TEXTS {
        let found = first_bad(rt, bytes)?;
        assert!(rt; found == *bad, "{bytes:?}");
    }
    Ok(())
}
