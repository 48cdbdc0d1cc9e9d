use http_out::{
    BAD_REQUEST, BODY_TOO_LARGE, BodyKind, HEAD_TOO_LARGE, INVALID_TOKEN, METHOD_NOT_ALLOWED,
    UNKNOWN_ROUTE, disk_fault, download_head, header_safe, is_reply_status, out_of_memory, reply,
};
use std::alloc::Global;
use std::test::*;

/// A status, the kind of its body, the body, whether the connection ends, and the lines that are told.
type Case = (u16, BodyKind, &'static str, bool, &'static str);

const MADE: &str =
    "{\"metadata\":{\"id\":\"id:0000000000000001\",\"name\":\"Docs\",\"path_display\":\"/Docs\",\"path_lower\":\"/docs\"}}";

const TAKEN: &str =
    "{\"error\":{\".tag\":\"path\",\"path\":{\".tag\":\"conflict\",\"conflict\":{\".tag\":\"folder\"}}},\"error_summary\":\"path/conflict/folder/...\"}";

static REPLIES: [Case; 10] = [
    (
        200,
        BodyKind::Json,
        MADE,
        false,
        "HTTP/1.1 200 OK\r\nContent-Type: application/json\r\nContent-Length: 99\r\n\r\n",
    ),
    (
        400,
        BodyKind::Plain,
        BAD_REQUEST,
        true,
        "HTTP/1.1 400 Bad Request\r\nContent-Type: text/plain; charset=utf-8\r\nContent-Length: 11\r\nConnection: close\r\n\r\n",
    ),
    (
        401,
        BodyKind::Json,
        INVALID_TOKEN,
        false,
        "HTTP/1.1 401 Unauthorized\r\nContent-Type: application/json\r\nContent-Length: 84\r\n\r\n",
    ),
    (
        404,
        BodyKind::Plain,
        UNKNOWN_ROUTE,
        false,
        "HTTP/1.1 404 Not Found\r\nContent-Type: text/plain; charset=utf-8\r\nContent-Length: 13\r\n\r\n",
    ),
    (
        405,
        BodyKind::Plain,
        METHOD_NOT_ALLOWED,
        true,
        "HTTP/1.1 405 Method Not Allowed\r\nContent-Type: text/plain; charset=utf-8\r\nContent-Length: 18\r\nConnection: close\r\n\r\n",
    ),
    (
        409,
        BodyKind::Json,
        TAKEN,
        false,
        "HTTP/1.1 409 Conflict\r\nContent-Type: application/json\r\nContent-Length: 124\r\n\r\n",
    ),
    (
        413,
        BodyKind::Plain,
        BODY_TOO_LARGE,
        true,
        "HTTP/1.1 413 Payload Too Large\r\nContent-Type: text/plain; charset=utf-8\r\nContent-Length: 14\r\nConnection: close\r\n\r\n",
    ),
    (
        431,
        BodyKind::Plain,
        HEAD_TOO_LARGE,
        true,
        "HTTP/1.1 431 Request Header Fields Too Large\r\nContent-Type: text/plain; charset=utf-8\r\nContent-Length: 14\r\nConnection: close\r\n\r\n",
    ),
    (
        500,
        BodyKind::Plain,
        "disk fault",
        false,
        "HTTP/1.1 500 Internal Server Error\r\nContent-Type: text/plain; charset=utf-8\r\nContent-Length: 10\r\n\r\n",
    ),
    (
        503,
        BodyKind::Plain,
        "out of memory",
        true,
        "HTTP/1.1 503 Service Unavailable\r\nContent-Type: text/plain; charset=utf-8\r\nContent-Length: 13\r\nConnection: close\r\n\r\n",
    ),
];

/// Whether the whole reply is these lines and the body.
fn is_told(alloc: Global, case: &Case) -> bool {
    let (status, kind, body, close, lines) = case;
    if !is_reply_status(*status) {
        return false;
    }
    let Ok(text) = reply(alloc, *status, *kind, body.as_bytes(), *close) else {
        return false;
    };
    text.strip_prefix(lines.as_bytes()) == Some(body.as_bytes())
}

/// The first status that is told otherwise, if there is one.
fn first_untold(alloc: Global) -> Option<u16> {
    for case in &REPLIES {
        if !is_told(alloc, case) {
            return Some(case.0);
        }
    }
    None
}

#[test]
fn a_reply_has_its_lines_and_its_body(rt: HostRuntime) -> Result<(), Fail> {
    assert_eq!(rt; first_untold(rt.alloc()), None);
    Ok(())
}

#[test]
fn no_reply_has_another_status(rt: HostRuntime) -> Result<(), Fail> {
    for status in [0u16, 100, 199, 201, 204, 402, 403, 410, 429, 501, 504, 999] {
        assert!(rt; !is_reply_status(status));
    }
    Ok(())
}

#[test]
fn the_constant_replies_are_those_that_are_made(rt: HostRuntime) -> Result<(), Fail> {
    for close in [false, true] {
        let disk = reply(rt.alloc(), 500, BodyKind::Plain, b"disk fault", close).ok();
        assert!(rt; disk.is_some_and(|made| made.as_slice() == disk_fault(close)));
        let memory = reply(rt.alloc(), 503, BodyKind::Plain, b"out of memory", close).ok();
        assert!(rt; memory.is_some_and(|made| made.as_slice() == out_of_memory(close)));
    }
    Ok(())
}

#[test]
fn a_download_tells_its_metadata(rt: HostRuntime) -> Result<(), Fail> {
    let metadata = header_safe(rt.alloc(), "{\"name\":\"Caf\u{e9}.txt\"}")
        .ok()
        .ok_or("out of memory")?;
    let text = download_head(rt.alloc(), &metadata, 5, true)
        .ok()
        .ok_or("out of memory")?;
    assert_eq!(rt;
        text.as_slice(),
        b"HTTP/1.1 200 OK\r\nContent-Type: application/octet-stream\r\nContent-Length: 5\r\nDropbox-API-Result: {\"name\":\"Caf\\u00e9.txt\"}\r\nConnection: close\r\n\r\n".as_slice()
    );
    Ok(())
}

/// A text and its header-safe form.
static SAFE: [(&str, &str); 7] = [
    ("", ""),
    ("{\"a\\n\":[1, ~]}", "{\"a\\n\":[1, ~]}"),
    ("\u{7f}", "\\u007f"),
    ("\u{80}\u{e9}\u{abcd}", "\\u0080\\u00e9\\uabcd"),
    ("\u{ffff}", "\\uffff"),
    ("\u{10000}\u{1f600}x", "\\ud800\\udc00\\ud83d\\ude00x"),
    ("\u{10ffff}", "\\udbff\\udfff"),
];

/// Whether the text has this form.
fn is_safe(alloc: Global, json: &str, want: &str) -> bool {
    match header_safe(alloc, json) {
        Ok(safe) => safe.as_str() == want,
        Err(_) => false,
    }
}

#[test]
fn each_character_from_7f_on_is_escaped(rt: HostRuntime) -> Result<(), Fail> {
    for (json, want) in &SAFE {
        assert!(rt; is_safe(rt.alloc(), *json, *want), "of {json:?}");
    }
    Ok(())
}
