//! What each request is told: the order of refusals, arguments, and what paths lead to.
use super::{DOCS, MADE, joined, run, tells_first};
use fh_world::MemSink;
use host_top::Status;
use std::alloc::{AllocError, Global};
use std::test::*;

/// What a request is told.
#[derive(Clone, Copy)]
pub(crate) enum Told {
    /// 200 with this body.
    Done(&'static str),

    /// 400 with this text.
    Complaint(&'static str),

    /// 401.
    NoToken,

    /// 404.
    NoRoute,

    /// 405.
    NotPost,

    /// 409 with this body.
    Refused(&'static str),
}

const INVALID_TOKEN: &str =
    "{\"error\":{\".tag\":\"invalid_access_token\"},\"error_summary\":\"invalid_access_token/...\"}";

const MADE_A: &str =
    "{\"metadata\":{\"id\":\"id:0000000000000001\",\"name\":\"a\",\"path_display\":\"/a\",\"path_lower\":\"/a\"}}";

const MALFORMED: &str =
    "{\"error\":{\".tag\":\"path\",\"path\":{\".tag\":\"malformed_path\"}},\"error_summary\":\"path/malformed_path/...\"}";

pub(crate) const NOT_FOUND: &str =
    "{\"error\":{\".tag\":\"path\",\"path\":{\".tag\":\"not_found\"}},\"error_summary\":\"path/not_found/...\"}";

const CONFLICT: &str =
    "{\"error\":{\".tag\":\"path\",\"path\":{\".tag\":\"conflict\",\"conflict\":{\".tag\":\"folder\"}}},\"error_summary\":\"path/conflict/folder/...\"}";

const MAKE_BAD_JSON: &str = "Error in call to API function \"files/create_folder_v2\": bad json";

const MAKE_BAD_PATH: &str =
    "Error in call to API function \"files/create_folder_v2\": bad field path";

const MAKE_BAD_AUTORENAME: &str =
    "Error in call to API function \"files/create_folder_v2\": bad field autorename";

const LOOK_BAD_JSON: &str = "Error in call to API function \"files/get_metadata\": bad json";

const LOOK_BAD_PATH: &str = "Error in call to API function \"files/get_metadata\": bad field path";

const MAKE: &str = "POST /2/files/create_folder_v2 HTTP/1.1\r\nAuthorization: Bearer rootroot\r\n";

const LOOK: &str = "POST /2/files/get_metadata HTTP/1.1\r\nAuthorization: Bearer rootroot\r\n";

/// A request of these first lines, with the length of its body.
pub(crate) fn request(alloc: Global, lines: &str, body: &[u8]) -> Result<Vec<u8>, AllocError> {
    let length = body.len();
    let head = format!(in alloc; "{lines}Content-Length: {length}\r\n\r\n")?;
    joined(alloc, &[head.as_bytes(), body])
}

/// The text of a reply behind which the connection goes on.
pub(crate) fn reply(alloc: Global, told: Told) -> Result<String, AllocError> {
    let json = "application/json";
    let plain = "text/plain; charset=utf-8";
    let (line, kind, body) = match told {
        Told::Done(body) => ("200 OK", json, body),
        Told::Complaint(body) => ("400 Bad Request", plain, body),
        Told::NoToken => ("401 Unauthorized", json, INVALID_TOKEN),
        Told::NoRoute => ("404 Not Found", plain, "unknown route"),
        Told::NotPost => ("405 Method Not Allowed", plain, "method not allowed"),
        Told::Refused(body) => ("409 Conflict", json, body),
    };
    let length = body.len();
    let text = format!(in alloc;
        "HTTP/1.1 {line}\r\nContent-Type: {kind}\r\nContent-Length: {length}\r\n\r\n{body}"
    )?;
    Ok(text)
}

/// First lines of a request, its body, and what is told of it.
pub(crate) type Case = (&'static str, &'static str, Told);

/// The input in front, and behind it the requests.
pub(crate) fn input_of(alloc: Global, front: &[u8], cases: &[Case]) -> Result<Vec<u8>, AllocError> {
    let mut input = Vec::from_slice(alloc, front)?;
    for (lines, body, _) in cases {
        input.extend_from_slice(&request(alloc, *lines, body.as_bytes())?)?;
    }
    Ok(input)
}

/// The output in front, and behind it what is told of the requests.
pub(crate) fn output_of(
    alloc: Global,
    front: &[u8],
    cases: &[Case],
) -> Result<Vec<u8>, AllocError> {
    let mut output = Vec::from_slice(alloc, front)?;
    for (_, _, told) in cases {
        output.extend_from_slice(reply(alloc, *told)?.as_bytes())?;
    }
    Ok(output)
}

/// Requests that are told the earliest of the refusals that could be told.
static REFUSED: [Case; 15] = [
    ("GET /2/files/nothing HTTP/1.1\r\n", "{", Told::NoRoute),
    (
        "POST /2/files/nothing HTTP/1.1\r\nAuthorization: Bearer rootroot\r\n",
        "",
        Told::NoRoute,
    ),
    (
        "POST /2/files/create_folder_v2/ HTTP/1.1\r\nAuthorization: Bearer rootroot\r\n",
        "{\"path\":\"/a\"}",
        Told::NoRoute,
    ),
    (
        "POST /2/files/uploads HTTP/1.1\r\nAuthorization: Bearer rootroot\r\n",
        "hello",
        Told::NoRoute,
    ),
    (
        "GET /2/files/create_folder_v2 HTTP/1.1\r\n",
        "{",
        Told::NotPost,
    ),
    (
        "post /2/files/get_metadata HTTP/1.1\r\nAuthorization: Bearer rootroot\r\n",
        "{\"path\":\"/a\"}",
        Told::NotPost,
    ),
    (
        "POST /2/files/create_folder_v2 HTTP/1.1\r\n",
        "{",
        Told::NoToken,
    ),
    (
        "POST /2/files/create_folder_v2 HTTP/1.1\r\nAuthorization: Bearer rootroo\r\n",
        "{\"path\":\"/a\"}",
        Told::NoToken,
    ),
    (
        "POST /2/files/create_folder_v2 HTTP/1.1\r\nAuthorization: Bearer rootroot1\r\n",
        "{\"path\":\"/a\"}",
        Told::NoToken,
    ),
    (
        "POST /2/files/create_folder_v2 HTTP/1.1\r\nAuthorization: Bearer  rootroot\r\n",
        "{\"path\":\"/a\"}",
        Told::NoToken,
    ),
    (
        "POST /2/files/get_metadata HTTP/1.1\r\nAuthorization: Basic rootroot\r\n",
        "{\"path\":\"/a\"}",
        Told::NoToken,
    ),
    (MAKE, "{", Told::Complaint(MAKE_BAD_JSON)),
    (LOOK, "{", Told::Complaint(LOOK_BAD_JSON)),
    (MAKE, "{\"path\":\"a\"}", Told::Refused(MALFORMED)),
    (LOOK, "{\"path\":\"/a\"}", Told::Refused(NOT_FOUND)),
];

/// Whether a request is told so, and the folder is made behind it.
fn is_told_first(rt: &HostRuntime, lines: &str, body: &[u8], told: Told) -> Result<bool, Fail> {
    let input = request(rt.alloc(), lines, body)?;
    let output = reply(rt.alloc(), told)?;
    tells_first(
        rt,
        &[&input, DOCS],
        Status::Done,
        &[output.as_bytes(), MADE],
    )
}

#[test]
fn the_first_refusal_is_told_and_the_body_is_dropped(rt: HostRuntime) -> Result<(), Fail> {
    for (lines, body, told) in &REFUSED {
        let is_told = is_told_first(&rt, *lines, body.as_bytes(), *told)?;
        assert!(rt; is_told, "at {lines} {body}");
    }
    Ok(())
}

/// A body of `create_folder_v2`, and what is told of it.
static ARGUMENTS: [(&[u8], Told); 16] = [
    (b"{\"path\":\"/a\"}", Told::Done(MADE_A)),
    (b" {\"\\u0070ath\" : \"/\\u0061\"}\n", Told::Done(MADE_A)),
    (
        b"{\"path\":\"/a\",\"autorename\":null,\"x\":[1e5,{\"path\":-1.5}]}",
        Told::Done(MADE_A),
    ),
    (b"{\"path\":7,\"path\":\"/a\"}", Told::Done(MADE_A)),
    (
        b"{\"path\":\"/a\",\"path\":7}",
        Told::Complaint(MAKE_BAD_PATH),
    ),
    (b"", Told::Complaint(MAKE_BAD_PATH)),
    (b"null", Told::Complaint(MAKE_BAD_PATH)),
    (b"[\"/a\"]", Told::Complaint(MAKE_BAD_PATH)),
    (b"{\"path\":null}", Told::Complaint(MAKE_BAD_PATH)),
    (b"{\"autorename\":true}", Told::Complaint(MAKE_BAD_PATH)),
    (
        b"{\"path\":\"/a\",\"autorename\":true}",
        Told::Complaint(MAKE_BAD_AUTORENAME),
    ),
    (
        b"{\"path\":\"/a\",\"autorename\":0}",
        Told::Complaint(MAKE_BAD_AUTORENAME),
    ),
    (b"{\"path\":\"/a\"} x", Told::Complaint(MAKE_BAD_JSON)),
    (b"{\"path\":\"/\xff\"}", Told::Complaint(MAKE_BAD_JSON)),
    (b"{\"path\":\"\"}", Told::Refused(MALFORMED)),
    (b"{\"path\":\"/a/../b\"}", Told::Refused(MALFORMED)),
];

/// Whether a request to make a folder is told so.
fn is_told(rt: &HostRuntime, body: &[u8], told: Told) -> Result<bool, Fail> {
    let input = request(rt.alloc(), MAKE, body)?;
    let output = reply(rt.alloc(), told)?;
    tells_first(rt, &[&input], Status::Done, &[output.as_bytes()])
}

#[test]
fn an_argument_is_read_or_told_by_its_first_bad_field(rt: HostRuntime) -> Result<(), Fail> {
    for (body, told) in &ARGUMENTS {
        let is_told = is_told(&rt, *body, *told)?;
        assert!(rt; is_told, "at {body:?}");
    }
    Ok(())
}

/// Requests one after another on one connection.
static STORY: [Case; 12] = [
    (
        MAKE,
        "{\"path\":\"/straße\"}",
        Told::Done(
            "{\"metadata\":{\"id\":\"id:0000000000000001\",\"name\":\"straße\",\"path_display\":\"/straße\",\"path_lower\":\"/strasse\"}}",
        ),
    ),
    (MAKE, "{\"path\":\"/STRASSE\"}", Told::Refused(CONFLICT)),
    (
        LOOK,
        "{\"path\":\"/STRASSE\"}",
        Told::Done(
            "{\".tag\":\"folder\",\"id\":\"id:0000000000000001\",\"name\":\"straße\",\"path_display\":\"/straße\",\"path_lower\":\"/strasse\"}",
        ),
    ),
    (
        MAKE,
        "{\"path\":\"/Strasse/b/C\"}",
        Told::Done(
            "{\"metadata\":{\"id\":\"id:0000000000000003\",\"name\":\"C\",\"path_display\":\"/straße/b/C\",\"path_lower\":\"/strasse/b/c\"}}",
        ),
    ),
    (
        LOOK,
        "{\"path\":\"id:0000000000000002\"}",
        Told::Done(
            "{\".tag\":\"folder\",\"id\":\"id:0000000000000002\",\"name\":\"b\",\"path_display\":\"/straße/b\",\"path_lower\":\"/strasse/b\"}",
        ),
    ),
    (
        LOOK,
        "{\"path\":\"ns:1/STRASSE/B\"}",
        Told::Done(
            "{\".tag\":\"folder\",\"id\":\"id:0000000000000002\",\"name\":\"b\",\"path_display\":\"/straße/b\",\"path_lower\":\"/strasse/b\"}",
        ),
    ),
    (LOOK, "{\"path\":\"/b\"}", Told::Refused(NOT_FOUND)),
    (LOOK, "{\"path\":\"ns:2/b\"}", Told::Refused(NOT_FOUND)),
    (LOOK, "{\"path\":\"b\"}", Told::Refused(MALFORMED)),
    (LOOK, "{\"path\":\"/\"}", Told::Refused(MALFORMED)),
    (LOOK, "{\"path\":\"\"}", Told::Complaint(LOOK_BAD_PATH)),
    (LOOK, "{\"path\":\"ns:1\"}", Told::Complaint(LOOK_BAD_PATH)),
];

#[test]
fn paths_lead_to_what_was_made(rt: HostRuntime) -> Result<(), Fail> {
    let input = input_of(rt.alloc(), b"", &STORY)?;
    let output = output_of(rt.alloc(), b"", &STORY)?;
    let is_told = tells_first(&rt, &[&input], Status::Done, &[&output])?;
    assert!(rt; is_told);
    Ok(())
}

/// A body that nests so many arrays in a field that isn't looked at.
fn nesting(alloc: Global, arrays: usize) -> Result<String, AllocError> {
    let opened = "[".repeat(alloc, arrays)?;
    let closed = "]".repeat(alloc, arrays)?;
    let text = format!(in alloc; "{{\"path\":\"/a\",\"x\":{opened}{closed}}}")?;
    Ok(text)
}

/// Whether so many arrays are told so.
fn are_told(rt: &HostRuntime, arrays: usize, told: Told) -> Result<bool, Fail> {
    let body = nesting(rt.alloc(), arrays)?;
    is_told(rt, body.as_bytes(), told)
}

/// A request to make a folder with a name of so many letters.
fn naming(alloc: Global, letters: usize) -> Result<Vec<u8>, AllocError> {
    let name = "x".repeat(alloc, letters)?;
    let body = format!(in alloc; "{{\"path\":\"/{name}\"}}")?;
    request(alloc, MAKE, body.as_bytes())
}

/// Where the replies of a run over an empty disk went. It fails where the run doesn't end well.
fn told_of(rt: &HostRuntime, input: &[u8]) -> Result<MemSink, Fail> {
    let (status, sink) = run(rt, input)?;
    if status != Status::Done {
        return Err("another end".into());
    }
    Ok(sink)
}

/// Whether a request is told that its path is malformed.
fn is_malformed(rt: &HostRuntime, input: &[u8]) -> Result<bool, Fail> {
    let malformed = reply(rt.alloc(), Told::Refused(MALFORMED))?;
    let sink = told_of(rt, input)?;
    Ok(sink.bytes() == malformed.as_bytes())
}

#[test]
fn names_and_levels_have_limits(rt: HostRuntime) -> Result<(), Fail> {
    let deepest = are_told(&rt, 126, Told::Done(MADE_A))?;
    let deeper = are_told(&rt, 127, Told::Complaint(MAKE_BAD_JSON))?;
    assert!(rt; deepest && deeper);
    let longest = is_malformed(&rt, &naming(rt.alloc(), 255)?)?;
    let longer = is_malformed(&rt, &naming(rt.alloc(), 256)?)?;
    assert!(rt; !longest && longer);
    Ok(())
}
