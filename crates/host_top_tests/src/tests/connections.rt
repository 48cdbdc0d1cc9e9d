//! How a connection goes on and ends: framing, limits, versions, faults.
use super::{
    CLOSE, DOCS, DOCS_AGAIN, MADE, PIPE, TAKEN, joined, run, run_over, tells_first, words_of,
};
use fh_world::{Failed, FakeClock, MemDisk, MemSink, Sink, Source};
use host_top::{Status, run_pipe};
use std::alloc::{AllocError, Global};
use std::test::*;

const BAD_REQUEST: &[u8] =
    b"HTTP/1.1 400 Bad Request\r\nContent-Type: text/plain; charset=utf-8\r\nContent-Length: 11\r\nConnection: close\r\n\r\nbad request";

const BODY_TOO_LARGE: &[u8] =
    b"HTTP/1.1 413 Payload Too Large\r\nContent-Type: text/plain; charset=utf-8\r\nContent-Length: 14\r\nConnection: close\r\n\r\nbody too large";

const HEAD_TOO_LARGE: &[u8] =
    b"HTTP/1.1 431 Request Header Fields Too Large\r\nContent-Type: text/plain; charset=utf-8\r\nContent-Length: 14\r\nConnection: close\r\n\r\nhead too large";

const CONTENT_TOO_LARGE: &[u8] =
    b"HTTP/1.1 409 Conflict\r\nContent-Type: application/json\r\nContent-Length: 78\r\nConnection: close\r\n\r\n{\"error\":{\".tag\":\"payload_too_large\"},\"error_summary\":\"payload_too_large/...\"}";

/// The folder's reply behind which the connection ends.
const MADE_LAST: &[u8] =
    b"HTTP/1.1 200 OK\r\nContent-Type: application/json\r\nContent-Length: 99\r\nConnection: close\r\n\r\n{\"metadata\":{\"id\":\"id:0000000000000001\",\"name\":\"Docs\",\"path_display\":\"/Docs\",\"path_lower\":\"/docs\"}}";

const UNKNOWN_ROUTE: &[u8] =
    b"HTTP/1.1 404 Not Found\r\nContent-Type: text/plain; charset=utf-8\r\nContent-Length: 13\r\n\r\nunknown route";

const CONTINUE: &[u8] = b"HTTP/1.1 100 Continue\r\n\r\n";

const BAD_JSON: &[u8] =
    b"HTTP/1.1 400 Bad Request\r\nContent-Type: text/plain; charset=utf-8\r\nContent-Length: 64\r\n\r\nError in call to API function \"files/create_folder_v2\": bad json";

#[test]
fn a_folder_is_made_once_however_its_name_is_cased(rt: HostRuntime) -> Result<(), Fail> {
    let is_told = tells_first(&rt, &[DOCS, DOCS_AGAIN], Status::Done, &[MADE, TAKEN])?;
    assert!(rt; is_told);
    Ok(())
}

/// An input, how the connection ends, and the two parts of its output.
type Case = (&'static [u8], Status, &'static [u8], &'static [u8]);

/// Each reads nothing behind a request that ends the connection, though a request stands there.
static INPUTS: [Case; 19] = [
    (b"", Status::Done, b"", b""),
    (
        b"POST /2/files/create_folder_v2 HTTP/1.0\r\nAuthorization: Bearer rootroot\r\nContent-Length: 16\r\n\r\n{\"path\":\"/Docs\"}GET / HTTP/1.1\r\n\r\n",
        Status::Done,
        MADE_LAST,
        b"",
    ),
    (
        b"POST /2/files/create_folder_v2 HTTP/1.1\r\nConnection: Close\r\nAuthorization: Bearer rootroot\r\nContent-Length: 16\r\n\r\n{\"path\":\"/Docs\"}GET / HTTP/1.1\r\n\r\n",
        Status::Done,
        MADE_LAST,
        b"",
    ),
    (
        b"POST /2/files/create_folder_v2 HTTP/1.1\r\nConnection: close, te\r\nAuthorization: Bearer rootroot\r\nContent-Length: 16\r\n\r\n{\"path\":\"/Docs\"}GET / HTTP/1.1\r\n\r\n",
        Status::Done,
        MADE,
        UNKNOWN_ROUTE,
    ),
    (
        b"POST /2/files/create_folder_v2 HTTP/1.1\r\nHost: localhost:8080\r\nUser-Agent: curl/8.5.0\r\nAccept: */*\r\nauthorization: bearer rootroot\r\nTransfer-Encoding: Chunked\r\n\r\n7;a=b\r\n{\"path\"\r\n9\r\n:\"/Docs\"}\r\n0\r\nTrailer: x\r\n\r\nGET / HTTP/1.1\r\n\r\n",
        Status::Done,
        MADE,
        UNKNOWN_ROUTE,
    ),
    (
        b"POST /2/files/create_folder_v2 HTTP/1.1\r\nAuthorization: Bearer rootroot\r\nContent-Length: 16\r\nExpect: 100-Continue\r\n\r\n{\"path\":\"/Docs\"}",
        Status::Done,
        CONTINUE,
        MADE,
    ),
    (
        b"POST /2/files/create_folder_v2 HTTP/1.1\r\nAuthorization: Bearer rootroot\r\nContent-Length: 16\r\nExpect: 100-continue\r\n\r\n{\"pat",
        Status::Cut,
        CONTINUE,
        b"",
    ),
    (
        b"GET / HTTP/1.1\r\nContent-Length: 0\r\nExpect: 100-continue\r\n\r\n",
        Status::Done,
        UNKNOWN_ROUTE,
        b"",
    ),
    (
        b"POST /2/files/upload HTTP/1.1\r\nAuthorization: Bearer rootroot\r\nContent-Length: 157286401\r\nExpect: 100-continue\r\n\r\nhello",
        Status::Bad,
        CONTENT_TOO_LARGE,
        b"",
    ),
    (
        b"POST /2/files/nothing HTTP/1.1\r\nContent-Length: 1048577\r\n\r\n",
        Status::Bad,
        BODY_TOO_LARGE,
        b"",
    ),
    (
        b"POST /2/files/nothing HTTP/1.1\r\nContent-Length: 1048576\r\n\r\n",
        Status::Cut,
        b"",
        b"",
    ),
    (
        b"POST /2/files/get_metadata HTTP/1.1\r\nTransfer-Encoding: chunked\r\nExpect: 100-continue\r\n\r\n1\r\nx\r\n100000\r\n",
        Status::Bad,
        CONTINUE,
        BODY_TOO_LARGE,
    ),
    (
        b"POST /2/files/nothing HTTP/1.1\r\nTransfer-Encoding: chunked\r\n\r\nx\r\nGET / HTTP/1.1\r\n\r\n",
        Status::Bad,
        BAD_REQUEST,
        b"",
    ),
    (
        b"POST / HTTP/1.1\r\nContent-Length: 5\r\nContent-Length: 5\r\n\r\nhello",
        Status::Bad,
        BAD_REQUEST,
        b"",
    ),
    (
        b"POST / HTTP/1.1\r\nContent-Length: 5\r\nTransfer-Encoding: chunked\r\n\r\nhello",
        Status::Bad,
        BAD_REQUEST,
        b"",
    ),
    (
        b"POST / HTTP/1.1\r\nContent-Length: +5\r\n\r\nhello",
        Status::Bad,
        BAD_REQUEST,
        b"",
    ),
    (b"GET / HTTP/2.0\r\n\r\n", Status::Bad, BAD_REQUEST, b""),
    (
        b"GET / HTTP/1.1\r\n\r\n\0",
        Status::Bad,
        UNKNOWN_ROUTE,
        BAD_REQUEST,
    ),
    (b"GET /2", Status::Cut, b"", b""),
];

#[test]
fn requests_are_framed_and_connections_end(rt: HostRuntime) -> Result<(), Fail> {
    for (input, end, first, second) in &INPUTS {
        let is_told = tells_first(&rt, &[*input], *end, &[*first, *second])?;
        assert!(rt; is_told, "at {input:?}");
    }
    Ok(())
}

/// How many bytes the value of a line has, how many such lines come, and how the reply to their head begins. The head has
/// 18 bytes besides these lines, and each line 5 besides its value.
static LIMITS: [(usize, usize, &[u8]); 4] = [
    (1, 64, UNKNOWN_ROUTE),
    (1, 65, HEAD_TOO_LARGE),
    (250, 64, UNKNOWN_ROUTE),
    (251, 64, HEAD_TOO_LARGE),
];

/// So many lines of a head, each with a value of so many bytes.
fn lines_of(alloc: Global, value: usize, lines: usize) -> Result<String, AllocError> {
    let value = "x".repeat(alloc, value)?;
    let line = format!(in alloc; "a: {value}\r\n")?;
    Ok(line.repeat(alloc, lines)?)
}

/// Whether the reply to a head with these lines begins with these bytes.
fn begins_with(rt: &HostRuntime, lines: &str, front: &[u8]) -> Result<bool, Fail> {
    let parts = [b"GET / HTTP/1.1\r\n", lines.as_bytes(), b"\r\n", DOCS];
    let input = joined(rt.alloc(), &parts)?;
    let (_, sink) = run(rt, &input)?;
    Ok(sink.bytes().starts_with(front))
}

#[test]
fn a_head_past_a_limit_is_told(rt: HostRuntime) -> Result<(), Fail> {
    for (value, count, told) in &LIMITS {
        let lines = lines_of(rt.alloc(), *value, *count)?;
        let is_told = begins_with(&rt, lines.as_str(), told)?;
        assert!(rt; is_told, "at {count}");
    }
    Ok(())
}

/// Whether an input that is cut tells so, unless it is cut behind the first request, which is answered where it is whole.
fn says_so(rt: &HostRuntime, input: &[u8]) -> Result<bool, Fail> {
    let is_whole = input.len() == DOCS.len();
    let end = if is_whole { Status::Done } else { Status::Cut };
    let is_answered = DOCS.len() <= input.len();
    let output = if is_answered { MADE } else { b"".as_slice() };
    tells_first(rt, &[input], end, &[output])
}

#[test]
fn an_input_cut_at_any_byte_says_so(rt: HostRuntime) -> Result<(), Fail> {
    let input = joined(rt.alloc(), &[DOCS, DOCS_AGAIN])?;
    for end in 1..input.len() {
        let is_said = says_so(&rt, &input[..end])?;
        assert!(rt; is_said, "at {end}");
    }
    Ok(())
}

/// The request with a zero at a place.
fn strange(alloc: Global, place: usize) -> Result<Vec<u8>, AllocError> {
    let mut request = Vec::from_slice(alloc, DOCS)?;
    if let Some(byte) = request.get_mut(place) {
        *byte = 0;
    }
    Ok(request)
}

/// Whether a second request with a zero at a place is a bad one, or its body is no JSON where it stands in that.
fn is_refused(rt: &HostRuntime, place: usize) -> Result<bool, Fail> {
    let second = strange(rt.alloc(), place)?;
    let (end, told) = if place < DOCS.len() - 16 {
        (Status::Bad, BAD_REQUEST)
    } else {
        (Status::Done, BAD_JSON)
    };
    tells_first(rt, &[DOCS, &second], end, &[MADE, told])
}

#[test]
fn a_strange_byte_is_bad_in_a_head_and_no_json_in_a_body(rt: HostRuntime) -> Result<(), Fail> {
    for place in 0..DOCS.len() {
        let is_refused = is_refused(&rt, place)?;
        assert!(rt; is_refused, "at {place}");
    }
    Ok(())
}

/// One run over an empty disk, where the reads and the writes with these numbers fail.
fn run_failing(
    rt: &HostRuntime,
    input: &[u8],
    reads: &[u64],
    writes: &[u64],
) -> Result<(Status, MemSink), Fail> {
    let mut disk = MemDisk::new(rt.alloc())?;
    run_over(rt, &mut disk, &PIPE, input, reads, writes)
}

/// Where the replies went before the fault of the read with this number. It fails where the run ends otherwise.
fn until_read(rt: &HostRuntime, input: &[u8], call: u64) -> Result<MemSink, Fail> {
    let (status, sink) = run_failing(rt, input, &[call], &[])?;
    if status != Status::ReadFault {
        return Err("no read fault".into());
    }
    Ok(sink)
}

/// Whether these bytes are told before the fault of the read with this number.
fn tells_until_read(
    rt: &HostRuntime,
    input: &[u8],
    call: u64,
    output: &[u8],
) -> Result<bool, Fail> {
    let sink = until_read(rt, input, call)?;
    Ok(sink.bytes() == output)
}

#[test]
fn a_read_fault_at_any_call_leaves_whole_replies(rt: HostRuntime) -> Result<(), Fail> {
    let input = joined(rt.alloc(), &[DOCS, DOCS_AGAIN])?;
    let calls = input.len().div_ceil(7);
    for call in 0..calls {
        let is_answered = DOCS.len() <= call * 7;
        let output = if is_answered { MADE } else { b"".as_slice() };
        let is_told = tells_until_read(&rt, &input, call as u64 + 1, output)?;
        assert!(rt; is_told, "behind {call} calls");
    }
    until_read(&rt, &input, calls as u64 + 1)?;
    Ok(())
}

/// Whether these bytes are told before the fault of the write with this number.
fn tells_until_write(
    rt: &HostRuntime,
    input: &[u8],
    call: u64,
    output: &[u8],
) -> Result<bool, Fail> {
    let (status, sink) = run_failing(rt, input, &[], &[call])?;
    Ok(status == Status::WriteFault && sink.bytes() == output)
}

#[test]
fn a_write_fault_at_any_call_leaves_whole_replies(rt: HostRuntime) -> Result<(), Fail> {
    let input = joined(rt.alloc(), &[DOCS, DOCS_AGAIN])?;
    let first = tells_until_write(&rt, &input, 1, b"")?;
    let second = tells_until_write(&rt, &input, 2, MADE)?;
    assert!(rt; first && second);
    Ok(())
}

const ANY: &[u8] = b"GET / HTTP/1.1\r\n\r\n";

/// The same request again and again, so many times.
#[derive(Drop)]
struct Repeated {
    left: u64,
}

impl Source for Repeated {
    ghost use Rattle.std.specs.Prelude.{[], None};

    ghost place = { λ _. [] };

    ghost given = { λ _. None };

    ghost left = { λ _. None };

    ghost faults = { λ _. 0 };

    fn read(&mut self, buf: &mut [u8]) -> Result<usize, Failed> {
        if self.left == 0 || buf.len() < ANY.len() {
            return Ok(0);
        }
        self.left -= 1;
        buf[..ANY.len()].copy_from_slice(ANY);
        Ok(ANY.len())
    }
}

/// Where replies are counted by their bytes alone.
#[derive(Drop)]
struct Counted {
    bytes: u64,
}

impl Sink for Counted {
    ghost use Rattle.std.specs.Prelude.{[], None};

    ghost place = { λ _. [] };

    ghost held = { λ _. None };

    ghost faults = { λ _. 0 };

    fn write(&mut self, bytes: &[u8]) -> Result<(), Failed> {
        self.bytes = self.bytes.wrapping_add(bytes.len() as u64);
        Ok(())
    }
}

/// How a run over an empty disk between these ends.
fn repeat(alloc: Global, source: &mut Repeated, sink: &mut Counted) -> Result<Status, Fail> {
    let words = words_of(alloc, &PIPE)?;
    let mut disk = MemDisk::new(alloc)?;
    let mut clock = FakeClock::new(0);
    Ok(run_pipe(alloc, &words, &mut disk, source, sink, &mut clock))
}

#[test]
fn a_connection_is_spent_after_a_million_requests(rt: HostRuntime) -> Result<(), Fail> {
    let mut source = Repeated { left: 1_000_001 };
    let mut sink = Counted { bytes: 0 };
    let status = repeat(rt.alloc(), &mut source, &mut sink)?;
    assert!(rt; status == Status::Spent);
    assert!(rt; source.left == 1);
    let told = 1_000_000 * UNKNOWN_ROUTE.len() + CLOSE.len();
    assert!(rt; sink.bytes == told as u64);
    Ok(())
}
