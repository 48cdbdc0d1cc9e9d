use crate::rows::{applied, fresh, text};
use api_types::{Answer, Route};
use content_hash::Hasher;
use fh_model::{Act, BLOCK_BYTES, Cmd, Commit, FileMeta, Mode, Names, Piece, Refusal, Reply, Text};
use http_in::{Head, Length};
use name_core::Image;
use session_rules::*;
use std::test::*;

const ADMIN_WORD: &str = "rootroot";

/// A method, a target, a token, and what is decided by them.
type HeadCase = (&'static [u8], &'static [u8], Option<&'static [u8]>, Caller);

const MAKE: &[u8] = b"/2/files/create_folder_v2";

const LOOK: &[u8] = b"/2/files/get_metadata";

const UPLOAD: &[u8] = b"/2/files/upload";

static HEADS: [HeadCase; 11] = [
    (
        b"POST",
        MAKE,
        Some(b"rootroot"),
        Caller::User(Route::CreateFolder, 1),
    ),
    (
        b"POST",
        LOOK,
        Some(b"rootroot"),
        Caller::User(Route::GetMetadata, 1),
    ),
    (
        b"POST",
        LOOK,
        Some(b"rootroo"),
        Caller::Bearer(Route::GetMetadata),
    ),
    (
        b"POST",
        LOOK,
        Some(b"rootroot1"),
        Caller::Bearer(Route::GetMetadata),
    ),
    (b"POST", MAKE, None, Caller::Refused(HeadFault::NoToken)),
    (b"GET", MAKE, None, Caller::Refused(HeadFault::NotPost)),
    (
        b"post",
        MAKE,
        Some(b"rootroot"),
        Caller::Refused(HeadFault::NotPost),
    ),
    (
        b"GET",
        b"/2/files/nothing",
        None,
        Caller::Refused(HeadFault::UnknownRoute),
    ),
    (
        b"POST",
        b"/2/files/upload_session/start",
        Some(b"rootroot"),
        Caller::Refused(HeadFault::UnknownRoute),
    ),
    (
        b"POST",
        UPLOAD,
        Some(b"rootroot"),
        Caller::User(Route::Upload, 1),
    ),
    (
        b"POST",
        b"/2/files/download",
        Some(b"second-user"),
        Caller::Bearer(Route::Download),
    ),
];

fn head_of(rt: HostRuntime, case: &HeadCase) -> Result<Head, Fail> {
    let alloc = rt.alloc();
    let token = match case.2 {
        Some(token) => Some(Vec::from_slice(alloc, token)?),
        None => None,
    };
    Ok(Head {
        method: Vec::from_slice(alloc, case.0)?,
        target: Vec::from_slice(alloc, case.1)?,
        token,
        arg: None,
        length: Length::Absent,
        interim: false,
        last: false,
    })
}

/// Whether that is decided of a head.
fn is_decided(rt: HostRuntime, admin: &Text, case: &HeadCase) -> Result<bool, Fail> {
    let head = head_of(rt, case)?;
    Ok(call_of(admin, &head) == case.3)
}

#[test]
fn heads_are_refused_in_order(rt: HostRuntime) -> Result<(), Fail> {
    let admin = text(rt, ADMIN_WORD)?;
    for case in &HEADS {
        let is_decided = is_decided(rt, &admin, case)?;
        assert!(rt; is_decided);
    }
    Ok(())
}

/// A body of `get_metadata`, and the plain text of its refusal.
static COMPLAINTS: [(&str, &str); 3] = [
    (
        "{",
        "Error in call to API function \"files/get_metadata\": bad json",
    ),
    (
        "{\"path\":\"\"}",
        "Error in call to API function \"files/get_metadata\": bad field path",
    ),
    (
        "[]",
        "Error in call to API function \"files/get_metadata\": bad field path",
    ),
];

/// Whether a request is refused for its argument, with this text.
fn is_refused(wish: &Wish, text: &str) -> bool {
    match wish {
        Wish::Refused(complaint) => complaint.as_slice() == text.as_bytes(),
        _ => false,
    }
}

/// Whether a request with this argument and this body is refused for its argument, with this text.
fn complains(
    rt: HostRuntime,
    route: Route,
    arg: Option<&[u8]>,
    body: &[u8],
    text: &str,
) -> Result<bool, Fail> {
    let wish = wish_of(rt.alloc(), route, 1, arg, Some(body))?;
    Ok(is_refused(&wish, text))
}

#[test]
fn bad_arguments_are_told(rt: HostRuntime) -> Result<(), Fail> {
    let arg = Some(b"{\"path\":\"/a\"}".as_slice());
    for (body, text) in &COMPLAINTS {
        let is_told = complains(rt, Route::GetMetadata, arg, body.as_bytes(), *text)?;
        assert!(rt; is_told);
    }
    Ok(())
}

/// The header's argument of an upload, if there is one, and the plain text of its refusal.
static UPLOAD_COMPLAINTS: [(Option<&[u8]>, &str); 5] = [
    (
        None,
        "Error in call to API function \"files/upload\": missing header Dropbox-API-Arg",
    ),
    (
        Some(b""),
        "Error in call to API function \"files/upload\": bad field path",
    ),
    (
        Some(b"{"),
        "Error in call to API function \"files/upload\": bad json",
    ),
    (
        Some(b"{\"path\":\"/a.txt\",\"client_modified\":\"2023-02-29T00:00:00Z\"}"),
        "Error in call to API function \"files/upload\": bad field client_modified",
    ),
    (
        Some(b"{\"path\":\"/a.txt\",\"mode\":\"overwrite\"}"),
        "Error in call to API function \"files/upload\": bad field mode",
    ),
];

#[test]
fn the_argument_of_an_upload_stands_in_its_header(rt: HostRuntime) -> Result<(), Fail> {
    for (arg, text) in &UPLOAD_COMPLAINTS {
        let is_told = complains(rt, Route::Upload, *arg, b"{\"path\":\"/a.txt\"}", *text)?;
        assert!(rt; is_told);
    }
    Ok(())
}

/// The text of an answer.
fn told(rt: HostRuntime, answer: &Answer) -> Result<String, Fail> {
    let text = answer_reply(rt.alloc(), answer, false)?;
    Ok(String::from_utf8(text).ok().ok_or("an answer is text")?)
}

/// The text of the answer that a wish comes to, or nothing where it enters.
fn text_of(rt: HostRuntime, wish: &Wish) -> Result<Option<String>, Fail> {
    match wish {
        Wish::Answered(answer) => Ok(Some(told(rt, answer)?)),
        Wish::Enter { .. } => Ok(None),
        _ => Err("another wish".into()),
    }
}

/// What an upload with this argument and this content comes to: the text of its answer, or nothing where it enters.
fn answered(rt: HostRuntime, arg: &str, body: Option<&[u8]>) -> Result<Option<String>, Fail> {
    let wish = wish_of(rt.alloc(), Route::Upload, 1, Some(arg.as_bytes()), body)?;
    text_of(rt, &wish)
}

/// Whether a text ends with this, or false where there is none. It fails where another text is told.
fn ends_with(text: &Option<String>, end: &str) -> Result<bool, Fail> {
    match text {
        Some(text) if text.as_str().ends_with(end) => Ok(true),
        Some(text) => Err(text.as_str().into()),
        None => Ok(false),
    }
}

/// Whether an upload with this argument and this content is answered by a text with this end, or enters.
fn is_told(rt: HostRuntime, arg: &str, body: Option<&[u8]>, end: &str) -> Result<bool, Fail> {
    let text = answered(rt, arg, body)?;
    ends_with(&text, end)
}

/// The argument of an upload that announces the hash of `hello`.
const RIGHT_HASH: &str =
    "{\"path\":\"/a.txt\",\"content_hash\":\"9595c9df90075148eb06860365df33584b75bff782a510c6cd4883a419833d50\"}";

/// The argument of an upload that announces a hash that `hello` hasn't.
const WRONG_HASH: &str =
    "{\"path\":\"/a.txt\",\"content_hash\":\"0000000000000000000000000000000000000000000000000000000000000000\"}";

const MISMATCH: &str =
    "{\"error\":{\".tag\":\"content_hash_mismatch\"},\"error_summary\":\"content_hash_mismatch/...\"}";

#[test]
fn a_content_is_the_one_that_was_announced(rt: HostRuntime) -> Result<(), Fail> {
    let right = is_told(rt, RIGHT_HASH, Some(b"hello"), MISMATCH)?;
    let wrong = is_told(rt, WRONG_HASH, Some(b"hello"), MISMATCH)?;
    assert!(rt; !right && wrong);
    Ok(())
}

/// Whether an upload of this content is told that it is too large, or enters where it isn't.
fn is_too_large(rt: HostRuntime, body: Option<&[u8]>) -> Result<bool, Fail> {
    is_told(
        rt,
        "{\"path\":\"/a.txt\"}",
        body,
        "\"payload_too_large/...\"}",
    )
}

fn zeros(rt: HostRuntime, count: usize) -> Result<Vec<u8>, Fail> {
    Ok(vec![in rt.alloc(); 0u8; count]?)
}

/// Whether an upload of so many bytes is told that it is too large, or enters where it isn't.
fn are_too_many(rt: HostRuntime, count: usize) -> Result<bool, Fail> {
    let content = zeros(rt, count)?;
    is_too_large(rt, Some(&content))
}

#[test]
fn a_content_has_one_block_at_most(rt: HostRuntime) -> Result<(), Fail> {
    let whole = are_too_many(rt, BLOCK_BYTES)?;
    let more = are_too_many(rt, BLOCK_BYTES + 1)?;
    let gone = is_too_large(rt, None)?;
    assert!(rt; !whole && more && gone);
    Ok(())
}

/// The lines and the body of the reply to an upload that is too large.
const TOO_LARGE: (&[u8], &[u8]) = (
    b"HTTP/1.1 409 Conflict\r\nContent-Type: application/json\r\nContent-Length: 78\r\nConnection: close\r\n\r\n",
    b"{\"error\":{\".tag\":\"payload_too_large\"},\"error_summary\":\"payload_too_large/...\"}",
);

/// Whether the reply to a body that is too large begins and ends with these bytes.
fn is_refusal(rt: HostRuntime, target: &[u8], front: &[u8], back: &[u8]) -> Result<bool, Fail> {
    let reply = body_too_large_reply(rt.alloc(), target)?;
    Ok(reply.starts_with(front) && reply.ends_with(back))
}

#[test]
fn a_large_upload_is_told_as_json(rt: HostRuntime) -> Result<(), Fail> {
    let upload = is_refusal(rt, UPLOAD, TOO_LARGE.0, TOO_LARGE.1)?;
    let other = is_refusal(rt, LOOK, b"HTTP/1.1 413 ", b"")?;
    assert!(rt; upload && other);
    Ok(())
}

const CAFE: &str =
    "{\"client_modified\":\"2023-11-14T22:13:20Z\",\"content_hash\":\"9595c9df90075148eb06860365df33584b75bff782a510c6cd4883a419833d50\",\"id\":\"id:0000000000000001\",\"is_downloadable\":true,\"name\":\"Caf\u{e9}.txt\",\"path_display\":\"/Caf\u{e9}.txt\",\"path_lower\":\"/caf\u{e9}.txt\",\"rev\":\"0000000000000001\",\"server_modified\":\"2023-11-14T22:13:20Z\",\"size\":5}";

/// An upload of `hello`.
fn hello(rt: HostRuntime) -> Result<Cmd, Fail> {
    let mut hasher = Hasher::new();
    hasher.update(b"hello");
    let digest = hasher.last_digest().ok_or("no digest")?;
    let commit = Commit {
        path: text(rt, "/Caf\u{e9}.txt")?,
        mode: Mode::Add,
        rename: false,
        strict: false,
        client: None,
    };
    let act = Act::Upload {
        user: 1,
        commit,
        drafted: 0,
        last: Some(Piece {
            place: 0,
            len: 5,
            digest,
        }),
    };
    Ok(Cmd {
        seat: 1,
        at: 1_700_000_000,
        act,
    })
}

/// The image of a new store after a command, and its reply.
fn first(rt: HostRuntime, cmd: &Cmd) -> Result<(Image, Reply), Fail> {
    let empty = fresh(rt)?;
    applied(&empty, cmd)
}

/// The image after the upload.
fn uploaded(rt: HostRuntime) -> Result<Image, Fail> {
    let cmd = hello(rt)?;
    let (image, _) = first(rt, &cmd)?;
    Ok(image)
}

/// What a new store answers to a command.
fn first_answer(rt: HostRuntime, cmd: &Cmd) -> Result<Answer, Fail> {
    let (_, reply) = first(rt, cmd)?;
    Ok(act_answer(form_of(&cmd.act), reply))
}

/// The answer to the upload.
fn answer_to_hello(rt: HostRuntime) -> Result<Answer, Fail> {
    let cmd = hello(rt)?;
    first_answer(rt, &cmd)
}

/// The text of the answer to the upload.
fn told_of_hello(rt: HostRuntime) -> Result<String, Fail> {
    let answer = answer_to_hello(rt)?;
    told(rt, &answer)
}

#[test]
fn an_upload_is_told(rt: HostRuntime) -> Result<(), Fail> {
    let told = told_of_hello(rt)?;
    assert!(rt; told.as_str().ends_with(CAFE));
    Ok(())
}

/// What stands in front of the metadata's hash, and behind it from the name on, in the head of its download.
const SENT: (&[u8], &[u8]) = (
    b"HTTP/1.1 200 OK\r\nContent-Type: application/octet-stream\r\nContent-Length: 5\r\nDropbox-API-Result: {\"client_modified\":\"2023-11-14T22:13:20Z\",",
    b"\"name\":\"Caf\\u00e9.txt\",\"path_display\":\"/Caf\\u00e9.txt\",\"path_lower\":\"/caf\\u00e9.txt\",\"rev\":\"0000000000000001\",\"server_modified\":\"2023-11-14T22:13:20Z\",\"size\":5}\r\nConnection: close\r\n\r\n",
);

/// What a path leads to whose content is asked for.
fn loaded(rt: HostRuntime, image: &Image, path: &str) -> Result<Load, Fail> {
    Ok(load_of(rt.alloc(), image, 1, &text(rt, path)?)?)
}

/// The head of the download of the first version of a file, which fails for another version.
fn first_head(rt: HostRuntime, names: Names, meta: FileMeta) -> Result<Vec<u8>, Fail> {
    if meta.rev != 1 {
        return Err("another version".into());
    }
    Ok(load_head(rt.alloc(), names, meta, true)?)
}

/// The head of the download of a path, which fails where the path has no content or another version.
fn sent_head(rt: HostRuntime, image: &Image, path: &str) -> Result<Vec<u8>, Fail> {
    match loaded(rt, image, path)? {
        Load::File { names, meta } => first_head(rt, names, meta),
        Load::Answered(_) => Err("no content".into()),
    }
}

/// Whether the head of the download of a path is the one of the upload.
fn is_sent(rt: HostRuntime, image: &Image, path: &str) -> Result<bool, Fail> {
    let head = sent_head(rt, image, path)?;
    Ok(head.starts_with(SENT.0) && head.ends_with(SENT.1))
}

/// Fails where the upload isn't sent by its path, its rev or its id.
fn expect_sent(rt: HostRuntime, image: &Image) -> Result<(), Fail> {
    let by_path = is_sent(rt, image, "/caf\u{e9}.txt")?;
    let by_rev = is_sent(rt, image, "rev:0000000000000001")?;
    let by_id = is_sent(rt, image, "id:0000000000000001")?;
    if !(by_path && by_rev && by_id) {
        return Err("another head".into());
    }
    Ok(())
}

#[test]
fn a_download_is_sent_by_path_rev_and_id(rt: HostRuntime) -> Result<(), Fail> {
    let image = uploaded(rt)?;
    expect_sent(rt, &image)
}

/// A path that has no content, and the last tag of the refusal.
static NO_CONTENTS: [(&str, &str); 5] = [
    ("", "not_file"),
    ("/", "malformed_path"),
    ("/nothing", "not_found"),
    ("/caf\u{e9}.txt/x", "not_found"),
    ("rev:0000000000000002", "not_found"),
];

/// Whether a refusal's last tag is this one.
fn ends_in(refusal: &Refusal, tag: &str) -> bool {
    refusal
        .tags
        .as_slice()
        .last()
        .is_some_and(|last| last.as_str() == tag)
}

/// Whether there is no content to be sent, and the refusal's last tag is this one.
fn is_no_content(load: &Load, tag: &str) -> bool {
    match load {
        Load::Answered(Answer::Error(refusal)) => ends_in(refusal, tag),
        _ => false,
    }
}

/// Whether a path is refused for its content, with this last tag.
fn has_no_content(rt: HostRuntime, image: &Image, path: &str, tag: &str) -> Result<bool, Fail> {
    let load = loaded(rt, image, path)?;
    Ok(is_no_content(&load, tag))
}

/// Fails with the first of these paths that has a content, or is refused otherwise.
fn expect_no_contents(rt: HostRuntime, image: &Image) -> Result<(), Fail> {
    for (path, tag) in &NO_CONTENTS {
        if !has_no_content(rt, image, path, tag)? {
            return Err((*path).into());
        }
    }
    Ok(())
}

#[test]
fn nothing_else_has_a_content(rt: HostRuntime) -> Result<(), Fail> {
    let image = uploaded(rt)?;
    expect_no_contents(rt, &image)
}
