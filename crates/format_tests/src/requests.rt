ghost use Rattle.std.specs.Prelude.{◌≡◌};
ghost use Rattle.http_in.specs.Steps.{state_after};
ghost use Rattle.http_in.specs.declared.place.State.{State};

use fh_world::{Failed, MemSource, Source};
use http_in::{
    BodyEnd, BodyStep, HEAD_MAX_BYTES, HEAD_MAX_LINES, Head, Length, Outcome, Reader, State, Step,
    read_all,
};
use std::alloc::{AllocError, Global};
use std::test::Fail;

/// Bytes of which a first piece comes, and then pieces of a size. The end is a fault where it is to be one.
#[derive(Drop)]
struct Pieces<'a> {
    bytes: &'a [u8],
    first: usize,
    size: usize,
    breaks: bool,
    faults: u64,
}

impl Source for Pieces<'_> {
    ghost use Rattle.std.specs.Prelude.{[], None};

    ghost place = { λ _. [] };

    ghost given = { λ _. None };

    ghost left = { λ _. None };

    ghost faults = { λ s. s.faults };

    fn read(&mut self, buf: &mut [u8]) -> Result<usize, Failed> {
        let all = self.bytes;
        if all.is_empty() && self.breaks {
            self.faults = self.faults.saturating_add(1);
            return Err(Failed);
        }
        let piece = if self.first > 0 {
            self.first
        } else {
            self.size.max(1)
        };
        let count = all.len().min(buf.len()).min(piece);
        let (front, rest) = all.split_at(count);
        buf[..count].copy_from_slice(front);
        self.bytes = rest;
        self.first = self.first.saturating_sub(count);
        Ok(count)
    }
}

/// Whether the text comes to this, where a first piece and then pieces of a size come.
fn comes_to(
    alloc: Global,
    text: &[u8],
    first: usize,
    size: usize,
    whole: u64,
    outcome: Outcome,
    content: &[u8],
) -> bool {
    let mut source = Pieces {
        bytes: text,
        first,
        size,
        breaks: false,
        faults: 0,
    };
    let Ok(mut reader) = Reader::new(alloc) else {
        return false;
    };
    let mut found = Vec::new(alloc);
    let mut buf = [0u8; 7];
    let came = read_all(&mut reader, &mut source, &mut buf[..7], &mut found);
    came.0 == whole && came.1 == outcome && found.as_slice() == content
}

/// Whether it does so cut into two anywhere, and in single bytes.
pub(crate) fn always(
    alloc: Global,
    text: &[u8],
    whole: u64,
    outcome: Outcome,
    content: &[u8],
) -> bool {
    for first in 0..=text.len() {
        if !comes_to(alloc, text, first, usize::MAX, whole, outcome, content) {
            return false;
        }
    }
    comes_to(alloc, text, 1, 1, whole, outcome, content)
}

/// Whether it does so in pieces of 4,096 bytes and in single bytes.
fn in_large_and_small(
    alloc: Global,
    text: &[u8],
    whole: u64,
    outcome: Outcome,
    content: &[u8],
) -> bool {
    comes_to(alloc, text, 0, 4_096, whole, outcome, content)
        && comes_to(alloc, text, 0, 1, whole, outcome, content)
}

/// The front, so many times the middle, and the back.
fn filled(
    alloc: Global,
    front: &[u8],
    middle: &[u8],
    count: usize,
    back: &[u8],
) -> Result<Vec<u8>, AllocError> {
    let mut text = Vec::new(alloc);
    text.extend_from_slice(front)?;
    for _ in 0..count {
        text.extend_from_slice(middle)?;
    }
    text.extend_from_slice(back)?;
    Ok(text)
}

/// A text by its front, its middle, how many times that comes, and its back.
type Parts<'a> = (&'a [u8], &'a [u8], usize, &'a [u8]);

/// Whether the text comes to this, with no content, in large pieces and in single bytes.
fn comes(alloc: Global, parts: &Parts, whole: u64, outcome: Outcome) -> Result<bool, Fail> {
    let (front, middle, count, back) = *parts;
    let text = filled(alloc, front, middle, count, back)?;
    Ok(in_large_and_small(alloc, &text, whole, outcome, b""))
}

/// Whether one text is a whole request, and the other comes to this in its place.
fn is_limit(alloc: Global, last: &Parts, over: &Parts, outcome: Outcome) -> Result<bool, Fail> {
    Ok(comes(alloc, last, 1, Outcome::End)? && comes(alloc, over, 0, outcome)?)
}

/// The front of a head, which has 19 bytes.
const IN_LINE: &[u8] = b"GET / HTTP/1.1\r\na: ";

/// The end of the last line of a head, and the line that ends it, which have 4 bytes.
const LAST: &[u8] = b"\r\n\r\n";

#[test]
fn a_head_has_at_most_16384_bytes(rt: HostRuntime) -> Result<(), Fail> {
    let last = (IN_LINE, b"x".as_slice(), 16_361usize, LAST);
    let over = (IN_LINE, b"x".as_slice(), 16_362usize, LAST);
    assert!(rt; is_limit(rt.alloc(), &last, &over, Outcome::HeadTooLarge)?);
    let text = filled(rt.alloc(), IN_LINE, b"x", 16_365, b"")?;
    assert!(rt; text.len() == HEAD_MAX_BYTES);
    assert!(rt; in_large_and_small(rt.alloc(), &text, 0, Outcome::HeadTooLarge, b""));
    Ok(())
}

#[test]
fn a_head_has_at_most_64_lines(rt: HostRuntime) -> Result<(), Fail> {
    let front = b"GET / HTTP/1.1\r\n".as_slice();
    let last = (
        front,
        b"a: b\r\n".as_slice(),
        HEAD_MAX_LINES,
        b"\r\n".as_slice(),
    );
    let over = (front, b"a: b\r\n".as_slice(), 65usize, b"\r\n".as_slice());
    assert!(rt; is_limit(rt.alloc(), &last, &over, Outcome::HeadTooLarge)?);
    Ok(())
}

#[test]
fn trailers_have_the_limits_of_a_head(rt: HostRuntime) -> Result<(), Fail> {
    let outcome = Outcome::InBody(BodyEnd::TooLarge);
    let front = b"GET / HTTP/1.1\r\nTransfer-Encoding: chunked\r\n\r\n0\r\n".as_slice();
    let last = (front, b"a: b\r\n".as_slice(), 64usize, b"\r\n".as_slice());
    let over = (front, b"a: b\r\n".as_slice(), 65usize, b"\r\n".as_slice());
    assert!(rt; is_limit(rt.alloc(), &last, &over, outcome)?);
    let front = b"GET / HTTP/1.1\r\nTransfer-Encoding: chunked\r\n\r\n0\r\na: ".as_slice();
    // 3 bytes before, and 4 behind
    let last = (front, b"x".as_slice(), 16_377usize, LAST);
    let over = (front, b"x".as_slice(), 16_378usize, LAST);
    assert!(rt; is_limit(rt.alloc(), &last, &over, outcome)?);
    Ok(())
}

#[test]
fn a_chunk_line_has_at_most_4096_bytes(rt: HostRuntime) -> Result<(), Fail> {
    let front = b"GET / HTTP/1.1\r\nTransfer-Encoding: chunked\r\n\r\n0;".as_slice();
    let last = (front, b"x".as_slice(), 4_094usize, LAST);
    let over = (front, b"x".as_slice(), 4_095usize, LAST);
    let outcome = Outcome::InBody(BodyEnd::Bad);
    assert!(rt; is_limit(rt.alloc(), &last, &over, outcome)?);
    Ok(())
}

/// The head that the text begins with, in single bytes.
fn head_of(alloc: Global, text: &[u8]) -> Option<Head> {
    let mut source = Pieces {
        bytes: text,
        first: 0,
        size: 1,
        breaks: false,
        faults: 0,
    };
    let Ok(mut reader) = Reader::new(alloc) else {
        return None;
    };
    match reader.next(&mut source) {
        Step::Head(head) => Some(head),
        _ => None,
    }
}

/// Whether the value is this one, if there is to be one.
fn is_value(value: &Option<Vec<u8>>, wanted: Option<&[u8]>) -> bool {
    match value {
        None => wanted.is_none(),
        Some(bytes) => wanted.is_some_and(|text| bytes.as_slice() == text),
    }
}

/// Whether the text is a head of a `POST /` with this token and this argument.
fn asks(alloc: Global, text: &[u8], token: Option<&[u8]>, argument: Option<&[u8]>) -> bool {
    match head_of(alloc, text) {
        Some(head) => {
            head.method.as_slice() == b"POST".as_slice()
                && head.target.as_slice() == b"/".as_slice()
                && is_value(&head.token, token)
                && is_value(&head.arg, argument)
        }
        None => false,
    }
}

/// A head with the token and the argument that stand in it.
static ASKING: [(&[u8], Option<&[u8]>, Option<&[u8]>); 5] = [
    (
        b"POST / HTTP/1.1\r\nauthorization: bEARER ab-c\r\nDROPBOX-API-ARG: {}\r\n\r\n",
        Some(b"ab-c"),
        Some(b"{}"),
    ),
    (
        b"POST / HTTP/1.1\r\nAuthorization: Bearer a\r\nAuthorization: Bearer b\r\n\r\n",
        Some(b"a"),
        None,
    ),
    (
        b"POST / HTTP/1.1\r\nAuthorization: Bearer  a\r\nDropbox-API-Arg:\r\n\r\n",
        Some(b" a"),
        Some(b""),
    ),
    (
        b"POST / HTTP/1.1\r\nAuthorization: Basic a\r\n\r\n",
        None,
        None,
    ),
    (
        b"POST / HTTP/1.1\r\nAuthorization: Bearer\r\n\r\n",
        None,
        None,
    ),
];

#[test]
fn a_head_says_who_asks_for_what(rt: HostRuntime) {
    for (text, token, argument) in &ASKING {
        assert!(rt; asks(rt.alloc(), text, *token, *argument), "at {text:?}");
    }
}

/// A head, the length that it states, whether an interim reply is due, and whether the connection ends with it.
static GOING_ON: [(&[u8], Length, bool, bool); 10] = [
    (
        b"POST / HTTP/1.1\r\nexpect: 100-Continue\r\nContent-Length: 2\r\n\r\nhi",
        Length::Known(2),
        true,
        false,
    ),
    (
        b"POST / HTTP/1.1\r\nExpect: 100-continue\r\nTransfer-Encoding: chunked\r\n\r\n",
        Length::Chunked,
        true,
        false,
    ),
    (
        b"POST / HTTP/1.0\r\nExpect: 100-continue\r\nContent-Length: 2\r\n\r\nhi",
        Length::Known(2),
        false,
        true,
    ),
    (
        b"POST / HTTP/1.1\r\nExpect: 100-continue\r\n\r\n",
        Length::Absent,
        false,
        false,
    ),
    (
        b"POST / HTTP/1.1\r\nExpect: 100-continue\r\nContent-Length: 0\r\n\r\n",
        Length::Known(0),
        false,
        false,
    ),
    (
        b"POST / HTTP/1.1\r\nExpect: 100-continue\r\nContent-Length: 1048577\r\n\r\n",
        Length::Known(1_048_577),
        false,
        false,
    ),
    (
        b"POST /2/files/upload HTTP/1.1\r\nExpect: 100-continue\r\nContent-Length: 1048577\r\n\r\n",
        Length::Known(1_048_577),
        true,
        false,
    ),
    (
        b"POST / HTTP/1.1\r\nExpect: 100-continue, x\r\nContent-Length: 2\r\n\r\nhi",
        Length::Known(2),
        false,
        false,
    ),
    (
        b"POST / HTTP/1.1\r\nConnection: CLOSE\r\n\r\n",
        Length::Absent,
        false,
        true,
    ),
    (
        b"POST / HTTP/1.1\r\nConnection: close, te\r\n\r\n",
        Length::Absent,
        false,
        false,
    ),
];

/// Whether the text is a head that says so.
fn goes_on(alloc: Global, text: &[u8], length: Length, interim: bool, last: bool) -> bool {
    head_of(alloc, text).is_some_and(|head| head.length == length
        && head.interim == interim
        && head.last == last)
}

#[test]
fn a_head_says_how_the_connection_goes_on(rt: HostRuntime) {
    for (text, length, interim, last) in &GOING_ON {
        assert!(rt;
            goes_on(rt.alloc(), text, *length, *interim, *last),
            "at {text:?}"
        );
    }
}

#[test]
fn a_fault_in_mid_stream_is_answered_at_that_call(rt: HostRuntime) -> Result<(), Fail> {
    let alloc = rt.alloc();
    let text =
        b"POST / HTTP/1.1\r\nTransfer-Encoding: chunked\r\n\r\n5\r\nhello\r\n0\r\n\r\n".as_slice();
    for end in 0..=text.len() {
        let mut source = Pieces {
            bytes: &text[..end],
            first: 0,
            size: 3,
            breaks: true,
            faults: 0,
        };
        let mut reader = Reader::new(alloc)?;
        let mut found = Vec::new(alloc);
        let mut buf = [0u8; 7];
        let (_, outcome) = read_all(&mut reader, &mut source, &mut buf[..7], &mut found);
        assert!(rt;
            outcome == Outcome::ReadFault || outcome == Outcome::InBody(BodyEnd::ReadFault)
        );
        assert!(rt; source.faults == 1);
        assert!(rt; b"hello".starts_with(found.as_slice()));
    }
    Ok(())
}

/// `next`, and once more where memory ran out.
fn next_again<S: Source>(reader: &mut Reader, source: &mut S) -> Step
    requires { reader.old.state ≡ State.Between }
    ensures { reader.new.state ≡ state_after result }
{
    match reader.next(source) {
        Step::NoMemory => reader.next(source),
        step => step,
    }
}

/// Whether the first body is `hello`, where a call is made again after want of memory; none where there is no reader.
fn hello_again(alloc: Global, text: &[u8]) -> Option<bool> {
    let mut source = Pieces {
        bytes: text,
        first: 0,
        size: 4_096,
        breaks: false,
        faults: 0,
    };
    let Ok(mut reader) = Reader::new(alloc) else {
        return None;
    };
    let Step::Head(_head) = next_again(&mut reader, &mut source) else {
        return Some(false);
    };
    let mut buf = [0u8; 7];
    let step = match reader.body(&mut source, &mut buf[..7]) {
        BodyStep::NoMemory => reader.body(&mut source, &mut buf[..7]),
        step => step,
    };
    Some(step == BodyStep::Bytes(5) && buf.starts_with(b"hello"))
}

#[test]
fn want_of_memory_loses_no_byte(rt: HostRuntime) {
    let text = b"POST / HTTP/1.1\r\nTransfer-Encoding: chunked\r\n\r\n5\r\nhello\r\n0\r\n\r\n";
    if let Some(same) = hello_again(rt.alloc(), text) {
        assert!(rt; same);
    }
}

#[test]
fn a_source_in_memory_is_read_to_its_end(rt: HostRuntime) -> Result<(), Fail> {
    let alloc = rt.alloc();
    let text = b"GET / HTTP/1.1\r\nContent-Length: 2\r\n\r\nhi".as_slice();
    let mut source = MemSource::new(Vec::from_slice(alloc, text)?, 5);
    let mut reader = Reader::new(alloc)?;
    let mut found = Vec::new(alloc);
    let mut buf = [0u8; 7];
    let came = read_all(&mut reader, &mut source, &mut buf[..7], &mut found);
    assert!(rt; came.0 == 1 && came.1 == Outcome::End);
    assert!(rt; found.as_slice() == b"hi".as_slice());
    Ok(())
}
