//! Contents: what is told of an upload, and what is sent of it again.
use super::requests::{Case, NOT_FOUND, Told, input_of, output_of, reply, request};
use super::{DOCS, MADE, PIPE, are_parts, has_line, run_between};
use fh_model::BLOCK_BYTES;
use fh_world::{FileNo, MemDisk, MemSink, MemSource};
use host_top::{Status, exit_code};
use std::alloc::{AllocError, Global};
use std::test::*;

const UPLOAD_EMPTY: &str =
    "POST /2/files/upload HTTP/1.1\r\nAuthorization: Bearer rootroot\r\nDropbox-API-Arg: {\"path\":\"/e.bin\"}\r\n";

const EMPTY: &str =
    "{\"client_modified\":\"2023-11-14T22:13:20Z\",\"content_hash\":\"e3b0c44298fc1c149afbf4c8996fb92427ae41e4649b934ca495991b7852b855\",\"id\":\"id:0000000000000001\",\"is_downloadable\":true,\"name\":\"e.bin\",\"path_display\":\"/e.bin\",\"path_lower\":\"/e.bin\",\"rev\":\"0000000000000001\",\"server_modified\":\"2023-11-14T22:13:20Z\",\"size\":0}";

const DOWNLOAD_EMPTY: &str =
    "POST /2/files/download HTTP/1.1\r\nAuthorization: Bearer rootroot\r\nDropbox-API-Arg: {\"path\":\"/e.bin\"}\r\n";

const EMPTY_SENT: &[u8] =
    b"HTTP/1.1 200 OK\r\nContent-Type: application/octet-stream\r\nContent-Length: 0\r\nDropbox-API-Result: {\"client_modified\":\"2023-11-14T22:13:20Z\",\"content_hash\":\"e3b0c44298fc1c149afbf4c8996fb92427ae41e4649b934ca495991b7852b855\",\"id\":\"id:0000000000000001\",\"is_downloadable\":true,\"name\":\"e.bin\",\"path_display\":\"/e.bin\",\"path_lower\":\"/e.bin\",\"rev\":\"0000000000000001\",\"server_modified\":\"2023-11-14T22:13:20Z\",\"size\":0}\r\n\r\n";

const UPLOAD_HELLO: &str =
    "POST /2/files/upload HTTP/1.1\r\nAuthorization: Bearer rootroot\r\nDropbox-API-Arg: {\"path\":\"/a.txt\"}\r\n";

const HELLO: &str =
    "{\"client_modified\":\"2023-11-14T22:13:20Z\",\"content_hash\":\"9595c9df90075148eb06860365df33584b75bff782a510c6cd4883a419833d50\",\"id\":\"id:0000000000000001\",\"is_downloadable\":true,\"name\":\"a.txt\",\"path_display\":\"/a.txt\",\"path_lower\":\"/a.txt\",\"rev\":\"0000000000000001\",\"server_modified\":\"2023-11-14T22:13:20Z\",\"size\":5}";

const DOWNLOAD_HELLO: &str =
    "POST /2/files/download HTTP/1.1\r\nAuthorization: Bearer rootroot\r\nDropbox-API-Arg: {\"path\":\"/A.TXT\"}\r\n";

const DOWNLOAD_REV: &str =
    "POST /2/files/download HTTP/1.1\r\nAuthorization: Bearer rootroot\r\nDropbox-API-Arg: {\"path\":\"rev:0000000000000001\"}\r\n";

const HELLO_SENT: &[u8] =
    b"HTTP/1.1 200 OK\r\nContent-Type: application/octet-stream\r\nContent-Length: 5\r\nDropbox-API-Result: {\"client_modified\":\"2023-11-14T22:13:20Z\",\"content_hash\":\"9595c9df90075148eb06860365df33584b75bff782a510c6cd4883a419833d50\",\"id\":\"id:0000000000000001\",\"is_downloadable\":true,\"name\":\"a.txt\",\"path_display\":\"/a.txt\",\"path_lower\":\"/a.txt\",\"rev\":\"0000000000000001\",\"server_modified\":\"2023-11-14T22:13:20Z\",\"size\":5}\r\n\r\nhello";

const UPLOAD_ZEROS: &str =
    "POST /2/files/upload HTTP/1.1\r\nAuthorization: Bearer rootroot\r\nDropbox-API-Arg: {\"path\":\"/z.bin\"}\r\n";

const ZEROS: &str =
    "{\"client_modified\":\"2023-11-14T22:13:20Z\",\"content_hash\":\"c7e946d101855255d919ef0c70718633adf77d3dfb3adeeecf5d0cb4e951be58\",\"id\":\"id:0000000000000001\",\"is_downloadable\":true,\"name\":\"z.bin\",\"path_display\":\"/z.bin\",\"path_lower\":\"/z.bin\",\"rev\":\"0000000000000001\",\"server_modified\":\"2023-11-14T22:13:20Z\",\"size\":4194304}";

const DOWNLOAD_ZEROS: &str =
    "POST /2/files/download HTTP/1.1\r\nAuthorization: Bearer rootroot\r\nDropbox-API-Arg: {\"path\":\"/z.bin\"}\r\n";

const ZEROS_HEAD: &[u8] =
    b"HTTP/1.1 200 OK\r\nContent-Type: application/octet-stream\r\nContent-Length: 4194304\r\nDropbox-API-Result: {\"client_modified\":\"2023-11-14T22:13:20Z\",\"content_hash\":\"c7e946d101855255d919ef0c70718633adf77d3dfb3adeeecf5d0cb4e951be58\",\"id\":\"id:0000000000000001\",\"is_downloadable\":true,\"name\":\"z.bin\",\"path_display\":\"/z.bin\",\"path_lower\":\"/z.bin\",\"rev\":\"0000000000000001\",\"server_modified\":\"2023-11-14T22:13:20Z\",\"size\":4194304}\r\n\r\n";

const TOO_LARGE: &str =
    "{\"error\":{\".tag\":\"payload_too_large\"},\"error_summary\":\"payload_too_large/...\"}";

const MISMATCH: &str =
    "{\"error\":{\".tag\":\"content_hash_mismatch\"},\"error_summary\":\"content_hash_mismatch/...\"}";

const NOT_FILE: &str =
    "{\"error\":{\".tag\":\"path\",\"path\":{\".tag\":\"not_file\"}},\"error_summary\":\"path/not_file/...\"}";

/// One run over a disk in memory. The input comes in large pieces.
fn serve(rt: &HostRuntime, disk: &mut MemDisk, input: &[u8]) -> Result<(Status, MemSink), Fail> {
    let alloc = rt.alloc();
    let mut source = MemSource::new(Vec::from_slice(alloc, input)?, 65_536);
    let mut sink = MemSink::new(alloc);
    let status = run_between(alloc, disk, &PIPE, &mut source, &mut sink)?;
    Ok((status, sink))
}

/// Requests by their first lines and their bodies, one behind another.
fn requests_of(alloc: Global, requests: &[(&str, &[u8])]) -> Result<Vec<u8>, AllocError> {
    let mut bytes = Vec::new(alloc);
    for (lines, body) in requests {
        bytes.extend_from_slice(&request(alloc, *lines, *body)?)?;
    }
    Ok(bytes)
}

/// Whether a run over the disk with these requests reads them all, and tells these parts.
fn serves(
    rt: &HostRuntime,
    disk: &mut MemDisk,
    requests: &[(&str, &[u8])],
    output: &[&[u8]],
) -> Result<bool, Fail> {
    let input = requests_of(rt.alloc(), requests)?;
    let (status, sink) = serve(rt, disk, &input)?;
    Ok(status == Status::Done && are_parts(sink.bytes(), output))
}

#[test]
fn a_content_may_be_empty(rt: HostRuntime) -> Result<(), Fail> {
    let told = reply(rt.alloc(), Told::Done(EMPTY))?;
    let mut disk = MemDisk::new(rt.alloc())?;
    let is_served = serves(
        &rt,
        &mut disk,
        &[(UPLOAD_EMPTY, b""), (DOWNLOAD_EMPTY, b"")],
        &[told.as_bytes(), EMPTY_SENT],
    )?;
    assert!(rt; is_served && disk.bytes(FileNo::Blocks).is_empty());
    Ok(())
}

#[test]
fn a_content_that_stands_there_is_told_again(rt: HostRuntime) -> Result<(), Fail> {
    let told = reply(rt.alloc(), Told::Done(HELLO))?;
    let mut disk = MemDisk::new(rt.alloc())?;
    let is_served = serves(
        &rt,
        &mut disk,
        &[(UPLOAD_HELLO, b"hello"), (UPLOAD_HELLO, b"hello")],
        &[told.as_bytes(), told.as_bytes()],
    )?;
    assert!(rt; is_served);
    Ok(())
}

/// The disk of a store with one upload.
fn with_hello(rt: &HostRuntime) -> Result<MemDisk, Fail> {
    let mut disk = MemDisk::new(rt.alloc())?;
    let upload = request(rt.alloc(), UPLOAD_HELLO, b"hello")?;
    serve(rt, &mut disk, &upload)?;
    Ok(disk)
}

#[test]
fn a_later_run_sends_what_was_uploaded(rt: HostRuntime) -> Result<(), Fail> {
    let mut disk = with_hello(&rt)?;
    let is_served = serves(
        &rt,
        &mut disk,
        &[(DOWNLOAD_HELLO, b""), (DOWNLOAD_REV, b"")],
        &[HELLO_SENT, HELLO_SENT],
    )?;
    assert!(rt; is_served);
    Ok(())
}

/// Whether one content is stored and sent again, and the other is too large.
fn serves_the_first<'a>(
    rt: &HostRuntime,
    disk: &mut MemDisk,
    whole: &'a [u8],
    more: &'a [u8],
) -> Result<bool, Fail> {
    let made = reply(rt.alloc(), Told::Done(ZEROS))?;
    let refused = reply(rt.alloc(), Told::Refused(TOO_LARGE))?;
    serves(
        rt,
        disk,
        &[
            (UPLOAD_ZEROS, whole),
            (UPLOAD_HELLO, more),
            (DOWNLOAD_ZEROS, b""),
        ],
        &[made.as_bytes(), refused.as_bytes(), ZEROS_HEAD, whole],
    )
}

#[test]
fn a_content_has_one_block_at_most(rt: HostRuntime) -> Result<(), Fail> {
    let block = vec![in rt.alloc(); 0u8; BLOCK_BYTES]?;
    let more = vec![in rt.alloc(); 0u8; BLOCK_BYTES + 1]?;
    let mut disk = MemDisk::new(rt.alloc())?;
    let is_served = serves_the_first(&rt, &mut disk, &block, &more)?;
    assert!(rt; is_served && disk.bytes(FileNo::Blocks) == block.as_slice());
    Ok(())
}

/// Requests that are refused where `/Docs` is a folder.
static REFUSED: [Case; 6] = [
    (
        "POST /2/files/upload HTTP/1.1\r\nAuthorization: Bearer rootroot\r\n",
        "hello",
        Told::Complaint(
            "Error in call to API function \"files/upload\": missing header Dropbox-API-Arg",
        ),
    ),
    (
        "POST /2/files/upload HTTP/1.1\r\nAuthorization: Bearer rootroot\r\nDropbox-API-Arg: {\"path\":\"/a.txt\",\"content_hash\":\"0000000000000000000000000000000000000000000000000000000000000000\"}\r\n",
        "hello",
        Told::Refused(MISMATCH),
    ),
    (
        "POST /2/files/upload HTTP/1.1\r\nAuthorization: Bearer rootroot\r\nDropbox-API-Arg: {\"path\":\"/a.txt\",\"client_modified\":\"2023-02-29T00:00:00Z\"}\r\n",
        "hello",
        Told::Complaint(
            "Error in call to API function \"files/upload\": bad field client_modified",
        ),
    ),
    (
        "POST /2/files/upload HTTP/1.1\r\nAuthorization: Bearer rootroot\r\nDropbox-API-Arg: {\"path\":\"/a.txt\",\"mode\":\"overwrite\"}\r\n",
        "hello",
        Told::Complaint("Error in call to API function \"files/upload\": bad field mode"),
    ),
    (
        "POST /2/files/download HTTP/1.1\r\nAuthorization: Bearer rootroot\r\nDropbox-API-Arg: {\"path\":\"/a.txt\"}\r\n",
        "",
        Told::Refused(NOT_FOUND),
    ),
    (
        "POST /2/files/download HTTP/1.1\r\nAuthorization: Bearer rootroot\r\nDropbox-API-Arg: {\"path\":\"/docs\"}\r\n",
        "",
        Told::Refused(NOT_FILE),
    ),
];

/// Whether the folder is made in a run over the disk, and each request behind it is refused so.
fn refuses_all(rt: &HostRuntime, disk: &mut MemDisk) -> Result<bool, Fail> {
    let input = input_of(rt.alloc(), DOCS, &REFUSED)?;
    let output = output_of(rt.alloc(), MADE, &REFUSED)?;
    let (status, sink) = serve(rt, disk, &input)?;
    Ok(status == Status::Done && sink.bytes() == output.as_slice())
}

#[test]
fn a_refusal_leaves_no_content(rt: HostRuntime) -> Result<(), Fail> {
    let mut disk = MemDisk::new(rt.alloc())?;
    let is_refused = refuses_all(&rt, &mut disk)?;
    assert!(rt; is_refused && disk.bytes(FileNo::Blocks).is_empty());
    Ok(())
}

/// The disk of a store whose one content is cut.
fn with_cut_hello(rt: &HostRuntime) -> Result<MemDisk, Fail> {
    let whole = with_hello(rt)?;
    Ok(MemDisk::with(
        rt.alloc(),
        whole.bytes(FileNo::Head),
        whole.bytes(FileNo::SlotA),
        b"",
        b"hell",
    )?)
}

/// How a run over the disk ends to which the content is uploaded again. It fails where anything is told.
fn untold_end(rt: &HostRuntime, disk: &mut MemDisk) -> Result<Status, Fail> {
    let upload = request(rt.alloc(), UPLOAD_HELLO, b"hello")?;
    let (status, sink) = serve(rt, disk, &upload)?;
    if !sink.bytes().is_empty() {
        return Err("a reply".into());
    }
    Ok(status)
}

/// Whether a run over the disk ends where the record of the upload is damaged, and tells nothing.
fn is_damaged(rt: &HostRuntime, disk: &mut MemDisk) -> Result<bool, Fail> {
    let status = untold_end(rt, disk)?;
    let is_told = has_line(rt.alloc(), status, "filehost: damaged at byte 124")?;
    Ok(is_told && exit_code(status) == 3)
}

#[test]
fn a_store_whose_content_is_cut_is_damaged(rt: HostRuntime) -> Result<(), Fail> {
    let mut disk = with_cut_hello(&rt)?;
    let is_damaged = is_damaged(&rt, &mut disk)?;
    assert!(rt; is_damaged && disk.bytes(FileNo::Blocks) == b"hell".as_slice());
    Ok(())
}
