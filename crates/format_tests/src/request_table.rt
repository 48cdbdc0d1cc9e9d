use crate::requests::always;
use http_in::{BodyEnd, Outcome};
use std::alloc::Global;
use std::test::*;

/// The bytes of a connection, how many requests are whole in them, how they end, and the contents behind one another.
type Case = (&'static [u8], u64, Outcome, &'static [u8]);

/// The first bytes that come to something else in some pieces, if there are any.
fn first_misread(alloc: Global, cases: &[Case]) -> Option<&'static [u8]> {
    for (text, whole, outcome, content) in cases {
        if !always(alloc, text, *whole, *outcome, content) {
            return Some(*text);
        }
    }
    None
}

static LENGTHS: [Case; 12] = [
    (
        b"POST / HTTP/1.1\r\nContent-Length: 5\r\n\r\nhello",
        1,
        Outcome::End,
        b"hello",
    ),
    (
        b"POST / HTTP/1.1\r\nContent-Length: 5\r\n\r\nhelloGET / HTTP/1.0\r\n\r\n",
        2,
        Outcome::End,
        b"hello",
    ),
    (
        b"POST / HTTP/1.1\r\nContent-Length: \t5 \t\r\n\r\nhello",
        1,
        Outcome::End,
        b"hello",
    ),
    (
        b"POST / HTTP/1.1\r\nContent-Length: 000000000000000005\r\n\r\nhello",
        1,
        Outcome::End,
        b"hello",
    ),
    (
        b"POST / HTTP/1.1\r\nContent-Length: 0000000000000000005\r\n\r\nhello",
        0,
        Outcome::Bad,
        b"",
    ),
    (
        b"POST / HTTP/1.1\r\nContent-Length: +5\r\n\r\nhello",
        0,
        Outcome::Bad,
        b"",
    ),
    (
        b"POST / HTTP/1.1\r\nContent-Length: -5\r\n\r\nhello",
        0,
        Outcome::Bad,
        b"",
    ),
    (
        b"POST / HTTP/1.1\r\nContent-Length: 1 2\r\n\r\nhello",
        0,
        Outcome::Bad,
        b"",
    ),
    (
        b"POST / HTTP/1.1\r\nContent-Length: 5, 5\r\n\r\nhello",
        0,
        Outcome::Bad,
        b"",
    ),
    (
        b"POST / HTTP/1.1\r\nContent-Length: 0x5\r\n\r\nhello",
        0,
        Outcome::Bad,
        b"",
    ),
    (
        b"POST / HTTP/1.1\r\nContent-Length: a\r\n\r\nhello",
        0,
        Outcome::Bad,
        b"",
    ),
    (
        b"POST / HTTP/1.1\r\nContent-Length:\r\n\r\nhello",
        0,
        Outcome::Bad,
        b"",
    ),
];

#[test]
fn lengths_are_one_number_of_1_to_18_digits(rt: HostRuntime) -> Result<(), Fail> {
    assert_eq!(rt; first_misread(rt.alloc(), &LENGTHS), None);
    Ok(())
}

static LENGTH_LINES: [Case; 13] = [
    (
        b"POST / HTTP/1.1\r\nContent-Length: 5\r\nContent-Length: 5\r\n\r\nhello",
        0,
        Outcome::Bad,
        b"",
    ),
    (
        b"POST / HTTP/1.1\r\nContent-Length: 5\r\ncontent-length: 6\r\n\r\nhello!",
        0,
        Outcome::Bad,
        b"",
    ),
    (
        b"POST / HTTP/1.1\r\nContent-Length: 5\r\nTransfer-Encoding: chunked\r\n\r\n0\r\n\r\n",
        0,
        Outcome::Bad,
        b"",
    ),
    (
        b"POST / HTTP/1.1\r\nTransfer-Encoding: chunked\r\nContent-Length: 5\r\n\r\n0\r\n\r\n",
        0,
        Outcome::Bad,
        b"",
    ),
    (
        b"POST / HTTP/1.1\r\nContent-Length : 5\r\n\r\nhello",
        0,
        Outcome::Bad,
        b"",
    ),
    (
        b"POST / HTTP/1.1\r\n Content-Length: 5\r\n\r\nhello",
        0,
        Outcome::Bad,
        b"",
    ),
    (
        b"POST / HTTP/1.1\r\nContent-Length: 6\r\n\r\nhello",
        0,
        Outcome::InBody(BodyEnd::Cut),
        b"hello",
    ),
    (
        b"POST / HTTP/1.1\r\nContent-Length: 5\r\n\r\nhello\r\n",
        1,
        Outcome::Cut,
        b"hello",
    ),
    (
        b"POST / HTTP/1.1\r\nContent-Length: 5\r\n\r\nhello\r\n\nGET / HTTP/1.1\r\n\r\n",
        2,
        Outcome::End,
        b"hello",
    ),
    (
        b"POST / HTTP/1.1\r\nContent-Length: 1048577\r\n\r\nhello",
        0,
        Outcome::InBody(BodyEnd::TooLarge),
        b"",
    ),
    (
        b"POST / HTTP/1.1\r\nContent-Length: 1048576\r\n\r\nhello",
        0,
        Outcome::InBody(BodyEnd::Cut),
        b"hello",
    ),
    (
        b"POST /2/files/upload HTTP/1.1\r\nContent-Length: 157286400\r\n\r\nhello",
        0,
        Outcome::InBody(BodyEnd::Cut),
        b"hello",
    ),
    (
        b"POST /2/files/upload HTTP/1.1\r\nContent-Length: 157286401\r\n\r\nhello",
        0,
        Outcome::InBody(BodyEnd::TooLarge),
        b"",
    ),
];

#[test]
fn a_length_stands_once_and_alone(rt: HostRuntime) -> Result<(), Fail> {
    assert_eq!(rt; first_misread(rt.alloc(), &LENGTH_LINES), None);
    Ok(())
}

static CODINGS: [Case; 11] = [
    (
        b"POST / HTTP/1.1\r\nTransfer-Encoding: ChunKED\r\n\r\n5\r\nhello\r\n0\r\n\r\n",
        1,
        Outcome::End,
        b"hello",
    ),
    (
        b"POST / HTTP/1.1\r\nTransfer-Encoding: chunked, chunked\r\n\r\n0\r\n\r\n",
        0,
        Outcome::Bad,
        b"",
    ),
    (
        b"POST / HTTP/1.1\r\nTransfer-Encoding: gzip, chunked\r\n\r\n0\r\n\r\n",
        0,
        Outcome::Bad,
        b"",
    ),
    (
        b"POST / HTTP/1.1\r\nTransfer-Encoding: identity\r\n\r\n",
        0,
        Outcome::Bad,
        b"",
    ),
    (
        b"POST / HTTP/1.1\r\nTransfer-Encoding: xchunked\r\n\r\n0\r\n\r\n",
        0,
        Outcome::Bad,
        b"",
    ),
    (
        b"POST / HTTP/1.1\r\nTransfer-Encoding: \r\n\r\n0\r\n\r\n",
        0,
        Outcome::Bad,
        b"",
    ),
    (
        b"POST / HTTP/1.1\r\nTransfer-Encoding: \"chunked\"\r\n\r\n0\r\n\r\n",
        0,
        Outcome::Bad,
        b"",
    ),
    (
        b"POST / HTTP/1.1\r\nTransfer-Encoding: chunked;q=1\r\n\r\n0\r\n\r\n",
        0,
        Outcome::Bad,
        b"",
    ),
    (
        b"POST / HTTP/1.1\r\nTransfer-Encoding: chunked\r\nTransfer-Encoding: identity\r\n\r\n0\r\n\r\n",
        1,
        Outcome::End,
        b"",
    ),
    (
        b"POST / HTTP/1.1\r\nTransfer-Encoding: identity\r\nTransfer-Encoding: chunked\r\n\r\n0\r\n\r\n",
        0,
        Outcome::Bad,
        b"",
    ),
    (
        b"POST / HTTP/1.0\r\nTransfer-Encoding: chunked\r\n\r\n5\r\nhello\r\n0\r\n\r\n",
        1,
        Outcome::End,
        b"hello",
    ),
];

#[test]
fn the_one_coding_is_chunked(rt: HostRuntime) -> Result<(), Fail> {
    assert_eq!(rt; first_misread(rt.alloc(), &CODINGS), None);
    Ok(())
}

static HEAD_LINES: [Case; 12] = [
    (b"GET / HTTP/1.1\nHost: a\n\n", 1, Outcome::End, b""),
    (
        b"POST / HTTP/1.1\nContent-Length: 5\n\nhello",
        1,
        Outcome::End,
        b"hello",
    ),
    (
        b"GET / HTTP/1.1\r\nHost: a\r\n b\r\n\r\n",
        0,
        Outcome::Bad,
        b"",
    ),
    (
        b"GET / HTTP/1.1\r\nHost: a\r\n\tb: c\r\n\r\n",
        0,
        Outcome::Bad,
        b"",
    ),
    (
        b"GET / HTTP/1.1\r\nHost: a\0b\r\n\r\n",
        0,
        Outcome::Bad,
        b"",
    ),
    (b"GET / HTTP/1.1\r\nHo\0st: a\r\n\r\n", 0, Outcome::Bad, b""),
    (b"GET /\0 HTTP/1.1\r\nHost: a\r\n\r\n", 0, Outcome::Bad, b""),
    (
        b"GET / HTTP/1.1\r\nHost: a\rb\r\n\r\n",
        0,
        Outcome::Bad,
        b"",
    ),
    (b"GET / HTTP/1.1\r\nHost: a\r\r\n\r\n", 0, Outcome::Bad, b""),
    (
        b"GET / HTTP/1.1\r\nHost: \x07\r\n\r\n",
        0,
        Outcome::Bad,
        b"",
    ),
    (
        b"GET / HTTP/1.1\r\nHost: \x7f\r\n\r\n",
        0,
        Outcome::Bad,
        b"",
    ),
    (
        b"GET / HTTP/1.1\r\nHost: \xff\r\n\r\n",
        1,
        Outcome::End,
        b"",
    ),
];

#[test]
fn lines_of_a_head_end_in_lf_and_never_fold(rt: HostRuntime) -> Result<(), Fail> {
    assert_eq!(rt; first_misread(rt.alloc(), &HEAD_LINES), None);
    Ok(())
}

static REQUEST_LINES: [Case; 12] = [
    (b"GET  / HTTP/1.1\r\n\r\n", 0, Outcome::Bad, b""),
    (b"GET / HTTP/1.2\r\n\r\n", 0, Outcome::Bad, b""),
    (b"GET / HTTP/2.0\r\n\r\n", 0, Outcome::Bad, b""),
    (b"GET / http/1.1\r\n\r\n", 0, Outcome::Bad, b""),
    (b"GET /\r\n\r\n", 0, Outcome::Bad, b""),
    (b"GET / HTTP/1.1 \r\n\r\n", 0, Outcome::Bad, b""),
    (b"GET /a b HTTP/1.1\r\n\r\n", 0, Outcome::Bad, b""),
    (b" GET / HTTP/1.1\r\n\r\n", 0, Outcome::Bad, b""),
    (b"GET /\xff HTTP/1.1\r\n\r\n", 0, Outcome::Bad, b""),
    (b"GET / HTTP/1.1\r\nHost a\r\n\r\n", 0, Outcome::Bad, b""),
    (b"GET / HTTP/1.1\r\n: a\r\n\r\n", 0, Outcome::Bad, b""),
    (b"\r\n\n\r\nGET / HTTP/1.1\r\n\r\n", 1, Outcome::End, b""),
];

#[test]
fn a_request_line_has_three_words(rt: HostRuntime) -> Result<(), Fail> {
    assert_eq!(rt; first_misread(rt.alloc(), &REQUEST_LINES), None);
    Ok(())
}

static CUT_HEADS: [Case; 8] = [
    (b"", 0, Outcome::End, b""),
    (b"\r\n", 0, Outcome::Cut, b""),
    (b"G", 0, Outcome::Cut, b""),
    (b"GET / HTTP/1.1\r\nHost: a", 0, Outcome::Cut, b""),
    (b"GET / HTTP/1.1\r\n\r", 0, Outcome::Cut, b""),
    (
        b"GET / HTTP/1.1\r\n\r\nGET / HTTP/1.1\r\n\r\n",
        2,
        Outcome::End,
        b"",
    ),
    (
        b"GET / HTTP/1.1\r\n\r\nGET / HTTP/1.1\r\n",
        1,
        Outcome::Cut,
        b"",
    ),
    (b"GET / HTTP/1.1\r\n\r\n(", 1, Outcome::Bad, b""),
];

#[test]
fn bytes_that_end_in_a_head_are_cut(rt: HostRuntime) -> Result<(), Fail> {
    assert_eq!(rt; first_misread(rt.alloc(), &CUT_HEADS), None);
    Ok(())
}

static CHUNK_LINES: [Case; 14] = [
    (
        b"POST / HTTP/1.1\r\nTransfer-Encoding: chunked\r\n\r\n5;x=y\r\nhello\r\n0\r\n\r\n",
        1,
        Outcome::End,
        b"hello",
    ),
    (
        b"POST / HTTP/1.1\r\nTransfer-Encoding: chunked\r\n\r\n5 ;x\r\nhello\r\n0;last\r\n\r\n",
        1,
        Outcome::End,
        b"hello",
    ),
    (
        b"POST / HTTP/1.1\r\nTransfer-Encoding: chunked\r\n\r\n5 \t\r\nhello\r\n0\r\n\r\n",
        1,
        Outcome::End,
        b"hello",
    ),
    (
        b"POST / HTTP/1.1\r\nTransfer-Encoding: chunked\r\n\r\n5;a\0b\r\nhello\r\n0\r\n\r\n",
        1,
        Outcome::End,
        b"hello",
    ),
    (
        b"POST / HTTP/1.1\r\nTransfer-Encoding: chunked\r\n\r\n0000000000000005\r\nhello\r\n0\r\n\r\n",
        1,
        Outcome::End,
        b"hello",
    ),
    (
        b"POST / HTTP/1.1\r\nTransfer-Encoding: chunked\r\n\r\n00000000000000005\r\nhello\r\n0\r\n\r\n",
        0,
        Outcome::InBody(BodyEnd::Bad),
        b"",
    ),
    (
        b"POST / HTTP/1.1\r\nTransfer-Encoding: chunked\r\n\r\n5\nhello\r\n0\r\n\r\n",
        0,
        Outcome::InBody(BodyEnd::Bad),
        b"",
    ),
    (
        b"POST / HTTP/1.1\r\nTransfer-Encoding: chunked\r\n\r\n5;x\nhello\r\n0\r\n\r\n",
        0,
        Outcome::InBody(BodyEnd::Bad),
        b"",
    ),
    (
        b"POST / HTTP/1.1\r\nTransfer-Encoding: chunked\r\n\r\n5;x\rhello\r\n0\r\n\r\n",
        0,
        Outcome::InBody(BodyEnd::Bad),
        b"",
    ),
    (
        b"POST / HTTP/1.1\r\nTransfer-Encoding: chunked\r\n\r\n 5\r\nhello\r\n0\r\n\r\n",
        0,
        Outcome::InBody(BodyEnd::Bad),
        b"",
    ),
    (
        b"POST / HTTP/1.1\r\nTransfer-Encoding: chunked\r\n\r\n0x5\r\nhello\r\n0\r\n\r\n",
        0,
        Outcome::InBody(BodyEnd::Bad),
        b"",
    ),
    (
        b"POST / HTTP/1.1\r\nTransfer-Encoding: chunked\r\n\r\n+5\r\nhello\r\n0\r\n\r\n",
        0,
        Outcome::InBody(BodyEnd::Bad),
        b"",
    ),
    (
        b"POST / HTTP/1.1\r\nTransfer-Encoding: chunked\r\n\r\n\r\nhello\r\n0\r\n\r\n",
        0,
        Outcome::InBody(BodyEnd::Bad),
        b"",
    ),
    (
        b"POST / HTTP/1.1\r\nTransfer-Encoding: chunked\r\n\r\n5 5\r\nhello\r\n0\r\n\r\n",
        0,
        Outcome::InBody(BodyEnd::Bad),
        b"",
    ),
];

#[test]
fn a_chunk_line_is_digits_and_perhaps_an_extension(rt: HostRuntime) -> Result<(), Fail> {
    assert_eq!(rt; first_misread(rt.alloc(), &CHUNK_LINES), None);
    Ok(())
}

static CHUNK_ENDS: [Case; 14] = [
    (
        b"POST / HTTP/1.1\r\nTransfer-Encoding: chunked\r\n\r\n2\r\nhe\r\n3\r\nllo\r\n0\r\n\r\n",
        1,
        Outcome::End,
        b"hello",
    ),
    (
        b"POST / HTTP/1.1\r\nTransfer-Encoding: chunked\r\n\r\n5\r\nhello0\r\n\r\n",
        0,
        Outcome::InBody(BodyEnd::Bad),
        b"hello",
    ),
    (
        b"POST / HTTP/1.1\r\nTransfer-Encoding: chunked\r\n\r\n5\r\nhello\n0\r\n\r\n",
        0,
        Outcome::InBody(BodyEnd::Bad),
        b"hello",
    ),
    (
        b"POST / HTTP/1.1\r\nTransfer-Encoding: chunked\r\n\r\n5\r\nhello\rX0\r\n\r\n",
        0,
        Outcome::InBody(BodyEnd::Bad),
        b"hello",
    ),
    (
        b"POST / HTTP/1.1\r\nTransfer-Encoding: chunked\r\n\r\n5\r\nhello",
        0,
        Outcome::InBody(BodyEnd::Cut),
        b"hello",
    ),
    (
        b"POST / HTTP/1.1\r\nTransfer-Encoding: chunked\r\n\r\n5\r\nhello\r",
        0,
        Outcome::InBody(BodyEnd::Cut),
        b"hello",
    ),
    (
        b"POST / HTTP/1.1\r\nTransfer-Encoding: chunked\r\n\r\n5\r\nhel",
        0,
        Outcome::InBody(BodyEnd::Cut),
        b"hel",
    ),
    (
        b"POST / HTTP/1.1\r\nTransfer-Encoding: chunked\r\n\r\n5\r\nhello\r\n0\r\n",
        0,
        Outcome::InBody(BodyEnd::Cut),
        b"hello",
    ),
    (
        b"POST / HTTP/1.1\r\nTransfer-Encoding: chunked\r\n\r\nffffffff",
        0,
        Outcome::InBody(BodyEnd::Cut),
        b"",
    ),
    (
        b"POST / HTTP/1.1\r\nTransfer-Encoding: chunked\r\n\r\nffffffffffffffff\r\nhello\r\n0\r\n",
        0,
        Outcome::InBody(BodyEnd::TooLarge),
        b"",
    ),
    (
        b"POST / HTTP/1.1\r\nTransfer-Encoding: chunked\r\n\r\n100001\r\nhello\r\n0\r\n",
        0,
        Outcome::InBody(BodyEnd::TooLarge),
        b"",
    ),
    (
        b"POST / HTTP/1.1\r\nTransfer-Encoding: chunked\r\n\r\n100000\r\nhello",
        0,
        Outcome::InBody(BodyEnd::Cut),
        b"hello",
    ),
    (
        b"POST / HTTP/1.1\r\nTransfer-Encoding: chunked\r\n\r\n5\r\nhello\r\nffffc\r\nx",
        0,
        Outcome::InBody(BodyEnd::TooLarge),
        b"hello",
    ),
    (
        b"POST / HTTP/1.1\r\nTransfer-Encoding: chunked\r\n\r\n5\r\nhello\r\nffffb\r\nx",
        0,
        Outcome::InBody(BodyEnd::Cut),
        b"hellox",
    ),
];

#[test]
fn chunks_end_in_cr_lf_and_keep_within_the_limit(rt: HostRuntime) -> Result<(), Fail> {
    assert_eq!(rt; first_misread(rt.alloc(), &CHUNK_ENDS), None);
    Ok(())
}

static TRAILERS: [Case; 10] = [
    (
        b"POST / HTTP/1.1\r\nTransfer-Encoding: chunked\r\n\r\n00\r\n\r\n",
        1,
        Outcome::End,
        b"",
    ),
    (
        b"POST / HTTP/1.1\r\nTransfer-Encoding: chunked\r\n\r\n0\r\n\n",
        1,
        Outcome::End,
        b"",
    ),
    (
        b"POST / HTTP/1.1\r\nTransfer-Encoding: chunked\r\n\r\n0\r\nContent-Length: 5\r\n\r\n",
        1,
        Outcome::End,
        b"",
    ),
    (
        b"POST / HTTP/1.1\r\nTransfer-Encoding: chunked\r\n\r\n0\r\nA: b\nC: d\r\n\r\n",
        1,
        Outcome::End,
        b"",
    ),
    (
        b"POST / HTTP/1.1\r\nTransfer-Encoding: chunked\r\n\r\n0\r\nA: b\r\n c\r\n\r\n",
        0,
        Outcome::InBody(BodyEnd::Bad),
        b"",
    ),
    (
        b"POST / HTTP/1.1\r\nTransfer-Encoding: chunked\r\n\r\n0\r\nA : b\r\n\r\n",
        0,
        Outcome::InBody(BodyEnd::Bad),
        b"",
    ),
    (
        b"POST / HTTP/1.1\r\nTransfer-Encoding: chunked\r\n\r\n0\r\nA\r\n\r\n",
        0,
        Outcome::InBody(BodyEnd::Bad),
        b"",
    ),
    (
        b"POST / HTTP/1.1\r\nTransfer-Encoding: chunked\r\n\r\n0\r\nA: b\r\n",
        0,
        Outcome::InBody(BodyEnd::Cut),
        b"",
    ),
    (
        b"POST / HTTP/1.1\r\nTransfer-Encoding: chunked\r\n\r\n0\r\n\r\nGET / HTTP/1.1\r\n\r\n",
        2,
        Outcome::End,
        b"",
    ),
    (
        b"POST / HTTP/1.1\r\nTransfer-Encoding: chunked\r\n\r\n0\r\nA: b\r\n\r\nGET / HTTP/1.1\r\n\r\n",
        2,
        Outcome::End,
        b"",
    ),
];

#[test]
fn trailers_are_lines_of_a_head_and_are_ignored(rt: HostRuntime) -> Result<(), Fail> {
    assert_eq!(rt; first_misread(rt.alloc(), &TRAILERS), None);
    Ok(())
}
