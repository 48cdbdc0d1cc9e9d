//! What no clause says: that memory is there, that each call succeeds on a happy path, and the worked examples.
mod connections;
mod contents;
mod requests;
mod stores;
mod words;

use fh_world::{Disk, FakeClock, MemDisk, MemSink, MemSource};
use host_top::{Status, run_pipe, status_line};
use std::alloc::{AllocError, Global};
use std::test::Fail;

pub(crate) const PIPE: [&str; 5] = ["pipe", "--store", ".", "--admin", "rootroot"];

pub(crate) const DOCS: &[u8] =
    b"POST /2/files/create_folder_v2 HTTP/1.1\r\nAuthorization: Bearer rootroot\r\nContent-Length: 16\r\n\r\n{\"path\":\"/Docs\"}";

pub(crate) const DOCS_AGAIN: &[u8] =
    b"POST /2/files/create_folder_v2 HTTP/1.1\r\nAuthorization: Bearer rootroot\r\nContent-Length: 16\r\n\r\n{\"path\":\"/docs\"}";

pub(crate) const MADE: &[u8] =
    b"HTTP/1.1 200 OK\r\nContent-Type: application/json\r\nContent-Length: 99\r\n\r\n{\"metadata\":{\"id\":\"id:0000000000000001\",\"name\":\"Docs\",\"path_display\":\"/Docs\",\"path_lower\":\"/docs\"}}";

pub(crate) const TAKEN: &[u8] =
    b"HTTP/1.1 409 Conflict\r\nContent-Type: application/json\r\nContent-Length: 124\r\n\r\n{\"error\":{\".tag\":\"path\",\"path\":{\".tag\":\"conflict\",\"conflict\":{\".tag\":\"folder\"}}},\"error_summary\":\"path/conflict/folder/...\"}";

/// The line that says that a connection ends.
pub(crate) const CLOSE: &[u8] = b"Connection: close\r\n";

pub(crate) fn words_of(alloc: Global, texts: &[&str]) -> Result<Vec<String>, AllocError> {
    let mut words = Vec::new(alloc);
    for text in texts {
        words.push(String::from_str(alloc, text)?)?;
    }
    Ok(words)
}

pub(crate) fn joined(alloc: Global, parts: &[&[u8]]) -> Result<Vec<u8>, AllocError> {
    let mut bytes = Vec::new(alloc);
    for part in parts {
        bytes.extend_from_slice(part)?;
    }
    Ok(bytes)
}

/// Whether the bytes are these parts, one behind another.
pub(crate) fn are_parts(bytes: &[u8], parts: &[&[u8]]) -> bool {
    let mut rest = bytes;
    for part in parts {
        match rest.strip_prefix(*part) {
            Some(left) => rest = left,
            None => return false,
        }
    }
    rest.is_empty()
}

/// Whether the line of a status is this one.
pub(crate) fn has_line(alloc: Global, status: Status, line: &str) -> Result<bool, Fail> {
    let text = status_line(alloc, &status)?;
    Ok(text.as_str() == line)
}

/// One run over an empty disk and ends in memory.
pub(crate) fn run(rt: &HostRuntime, input: &[u8]) -> Result<(Status, MemSink), Fail> {
    let mut disk = MemDisk::new(rt.alloc())?;
    run_over(rt, &mut disk, &PIPE, input, &[], &[])
}

/// Whether a run over an empty disk, whose input is these parts, ends so and tells these parts.
pub(crate) fn tells_first(
    rt: &HostRuntime,
    input: &[&[u8]],
    end: Status,
    output: &[&[u8]],
) -> Result<bool, Fail> {
    let mut disk = MemDisk::new(rt.alloc())?;
    tells(rt, &mut disk, input, end, output)
}

/// Whether a run over a disk, whose input is these parts, ends so and tells these parts.
pub(crate) fn tells<D: Disk>(
    rt: &HostRuntime,
    disk: &mut D,
    input: &[&[u8]],
    end: Status,
    output: &[&[u8]],
) -> Result<bool, Fail> {
    let input = joined(rt.alloc(), input)?;
    let (status, sink) = run_over(rt, disk, &PIPE, &input, &[], &[])?;
    Ok(status == end && are_parts(sink.bytes(), output))
}

/// Whether a run over a disk, whose first read and first write fail, ends so and tells nothing.
pub(crate) fn ends_untold<D: Disk>(
    rt: &HostRuntime,
    disk: &mut D,
    words: &[&str],
    end: Status,
) -> Result<bool, Fail> {
    let (status, sink) = run_over(rt, disk, words, DOCS, &[1], &[1])?;
    Ok(status == end && sink.bytes().is_empty())
}

/// The input in pieces of 7 bytes, where the reads with these numbers fail.
fn source_of(alloc: Global, input: &[u8], failing: &[u64]) -> Result<MemSource, Fail> {
    let mut source = MemSource::new(Vec::from_slice(alloc, input)?, 7);
    source.fail_calls(failing)?;
    Ok(source)
}

/// An end in memory, where the writes with these numbers fail.
fn sink_of(alloc: Global, failing: &[u64]) -> Result<MemSink, Fail> {
    let mut sink = MemSink::new(alloc);
    sink.fail_calls(failing)?;
    Ok(sink)
}

/// How a run over a disk between two ends in memory ends.
pub(crate) fn run_between<D: Disk>(
    alloc: Global,
    disk: &mut D,
    words: &[&str],
    source: &mut MemSource,
    sink: &mut MemSink,
) -> Result<Status, Fail> {
    let words = words_of(alloc, words)?;
    let mut clock = FakeClock::new(1_700_000_000);
    Ok(run_pipe(alloc, &words, disk, source, sink, &mut clock))
}

/// One run over a disk and ends in memory. The input comes in pieces of 7 bytes.
pub(crate) fn run_over<D: Disk>(
    rt: &HostRuntime,
    disk: &mut D,
    words: &[&str],
    input: &[u8],
    failing_reads: &[u64],
    failing_writes: &[u64],
) -> Result<(Status, MemSink), Fail> {
    let mut source = source_of(rt.alloc(), input, failing_reads)?;
    let mut sink = sink_of(rt.alloc(), failing_writes)?;
    let status = run_between(rt.alloc(), disk, words, &mut source, &mut sink)?;
    Ok((status, sink))
}
