use api_json::write;
use api_types::Answer;
use fh_model::{Bytes32, Entry, FileMeta, Items, Name, Refusal, Text};
use hex::FromHex;
use serde_json::Value;
use std::alloc::{AllocError, Global};
use std::test::*;

fn text(alloc: Global, text: &str) -> Result<Text, AllocError> {
    Ok(Text::new(String::from_str(alloc, text)?))
}

/// A folder with these shown and folded names, and number 171.
fn folder(alloc: Global, names: &[(&str, &str)]) -> Result<Entry, AllocError> {
    let mut list = Vec::new(alloc);
    for (shown, folded) in names {
        let shown = text(alloc, *shown)?;
        let folded = text(alloc, *folded)?;
        list.push(Name { shown, folded })?;
    }
    Ok(Entry::Folder {
        names: Items::new(list),
        id: 171,
    })
}

fn refusal(
    alloc: Global,
    tags: &[&str],
    session: Option<u64>,
    offset: Option<u64>,
) -> Result<Answer, AllocError> {
    let mut list = Vec::new(alloc);
    for tag in tags {
        list.push(text(alloc, *tag)?)?;
    }
    Ok(Answer::Error(Refusal {
        tags: Items::new(list),
        session,
        offset,
    }))
}

/// What `serde_json` writes of what it reads in these bytes.
fn written_again(alloc: Global, body: &[u8]) -> Result<String, Fail> {
    let value = Value::from_slice(alloc, body).ok().ok_or("no JSON")?;
    Ok(value.to_string(alloc)?)
}

/// What is written of an answer, if it is what `serde_json` writes again of what it reads there.
fn written(alloc: Global, answer: &Answer) -> Result<String, Fail> {
    let body = write(alloc, answer).ok().ok_or("out of memory")?;
    let again = written_again(alloc, &body)?;
    if again.as_bytes() != body.as_slice() {
        return Err("not as serde_json writes it".into());
    }
    Ok(again)
}

/// Fails where another text is written of an answer, and tells it.
fn expect(alloc: Global, answer: &Answer, want: &str) -> Result<(), Fail> {
    let text = written(alloc, answer)?;
    if text.as_str() != want {
        return Err(text.as_str().into());
    }
    Ok(())
}

#[test]
fn a_folder_is_told_with_its_tag(rt: HostRuntime) -> Result<(), Fail> {
    let alloc = rt.alloc();
    let tagged = Answer::Tagged(folder(alloc, &[("Docs", "docs"), ("A", "a")])?);
    expect(
        alloc,
        &tagged,
        "{\".tag\":\"folder\",\"id\":\"id:00000000000000ab\",\"name\":\"A\",\"path_display\":\"/Docs/A\",\"path_lower\":\"/docs/a\"}",
    )
}

#[test]
fn a_folder_is_told_under_metadata(rt: HostRuntime) -> Result<(), Fail> {
    let alloc = rt.alloc();
    let wrapped = Answer::Wrapped {
        entry: folder(alloc, &[("Docs", "docs")])?,
        tagged: false,
    };
    expect(
        alloc,
        &wrapped,
        "{\"metadata\":{\"id\":\"id:00000000000000ab\",\"name\":\"Docs\",\"path_display\":\"/Docs\",\"path_lower\":\"/docs\"}}",
    )
}

#[test]
fn a_folder_is_told_under_metadata_with_its_tag(rt: HostRuntime) -> Result<(), Fail> {
    let alloc = rt.alloc();
    let both = Answer::Wrapped {
        entry: folder(alloc, &[("Docs", "docs")])?,
        tagged: true,
    };
    expect(
        alloc,
        &both,
        "{\"metadata\":{\".tag\":\"folder\",\"id\":\"id:00000000000000ab\",\"name\":\"Docs\",\"path_display\":\"/Docs\",\"path_lower\":\"/docs\"}}",
    )
}

/// The file of the worked example, an empty one, at the path `/E.bin`.
fn file(alloc: Global) -> Result<Entry, Fail> {
    let shown = text(alloc, "E.bin")?;
    let folded = text(alloc, "e.bin")?;
    let mut names = Vec::new(alloc);
    names.push(Name { shown, folded })?;
    let bytes = <[u8; 32] as FromHex>::from_hex(
        "e3b0c44298fc1c149afbf4c8996fb92427ae41e4649b934ca495991b7852b855",
    ).ok()
        .ok_or("no digest")?;
    Ok(Entry::File {
        names: Items::new(names),
        meta: FileMeta {
            id: 1,
            rev: 171,
            size: 0,
            hash: Bytes32 { bytes },
            client: 0,
            server: 1_700_000_000,
            pieces: Items::empty(alloc),
        },
    })
}

const FILE_FIELDS: &str =
    "\"client_modified\":\"1970-01-01T00:00:00Z\",\"content_hash\":\"e3b0c44298fc1c149afbf4c8996fb92427ae41e4649b934ca495991b7852b855\",\"id\":\"id:0000000000000001\",\"is_downloadable\":true,\"name\":\"E.bin\",\"path_display\":\"/E.bin\",\"path_lower\":\"/e.bin\",\"rev\":\"00000000000000ab\",\"server_modified\":\"2023-11-14T22:13:20Z\",\"size\":0}";

/// Fails where another text than this front with the fields of the file is written of an answer.
fn expect_file(alloc: Global, answer: &Answer, front: &str) -> Result<(), Fail> {
    let want = format!(in alloc; "{front}{FILE_FIELDS}")?;
    expect(alloc, answer, want.as_str())
}

fn expect_plain_file(alloc: Global) -> Result<(), Fail> {
    let plain = Answer::Plain(file(alloc)?);
    expect_file(alloc, &plain, "{")
}

fn expect_tagged_file(alloc: Global) -> Result<(), Fail> {
    let tagged = Answer::Tagged(file(alloc)?);
    expect_file(alloc, &tagged, "{\".tag\":\"file\",")
}

#[test]
fn a_file_is_told_with_its_tag_or_without(rt: HostRuntime) -> Result<(), Fail> {
    expect_plain_file(rt.alloc())?;
    expect_tagged_file(rt.alloc())
}

#[test]
fn a_name_is_escaped(rt: HostRuntime) -> Result<(), Fail> {
    let alloc = rt.alloc();
    let name = "\"\\\u{1}\u{8}\t\n\u{c}\r\u{1f} \u{7f}\u{e9}\u{1f600}";
    let answer = Answer::Tagged(folder(alloc, &[(name, "x")])?);
    expect(
        alloc,
        &answer,
        "{\".tag\":\"folder\",\"id\":\"id:00000000000000ab\",\"name\":\"\\\"\\\\\\u0001\\b\\t\\n\\f\\r\\u001f \u{7f}\u{e9}\u{1f600}\",\"path_display\":\"/\\\"\\\\\\u0001\\b\\t\\n\\f\\r\\u001f \u{7f}\u{e9}\u{1f600}\",\"path_lower\":\"/x\"}",
    )
}

/// Fails where another text is written of a refusal.
fn expect_refusal(
    alloc: Global,
    tags: &[&str],
    session: Option<u64>,
    offset: Option<u64>,
    want: &str,
) -> Result<(), Fail> {
    let answer = refusal(alloc, tags, session, offset)?;
    expect(alloc, &answer, want)
}

#[test]
fn tags_nest(rt: HostRuntime) -> Result<(), Fail> {
    expect_refusal(
        rt.alloc(),
        &["payload_too_large"],
        None,
        None,
        "{\"error\":{\".tag\":\"payload_too_large\"},\"error_summary\":\"payload_too_large/...\"}",
    )?;
    expect_refusal(
        rt.alloc(),
        &["path", "conflict", "folder"],
        None,
        None,
        "{\"error\":{\".tag\":\"path\",\"path\":{\".tag\":\"conflict\",\"conflict\":{\".tag\":\"folder\"}}},\"error_summary\":\"path/conflict/folder/...\"}",
    )
}

#[test]
fn a_refused_upload_names_its_session(rt: HostRuntime) -> Result<(), Fail> {
    expect_refusal(
        rt.alloc(),
        &["path", "conflict", "file"],
        Some(1),
        None,
        "{\"error\":{\".tag\":\"path\",\"reason\":{\".tag\":\"conflict\",\"conflict\":{\".tag\":\"file\"}},\"upload_session_id\":\"us:0000000000000001\"},\"error_summary\":\"path/conflict/file/...\"}",
    )
}

#[test]
fn a_refusal_names_the_right_offset(rt: HostRuntime) -> Result<(), Fail> {
    expect_refusal(
        rt.alloc(),
        &["incorrect_offset"],
        None,
        Some(11),
        "{\"error\":{\".tag\":\"incorrect_offset\",\"correct_offset\":11},\"error_summary\":\"incorrect_offset/...\"}",
    )
}

#[test]
fn the_last_of_the_tags_holds_the_offset(rt: HostRuntime) -> Result<(), Fail> {
    expect_refusal(
        rt.alloc(),
        &["lookup_failed", "incorrect_offset"],
        None,
        Some(u64::MAX),
        "{\"error\":{\".tag\":\"lookup_failed\",\"lookup_failed\":{\".tag\":\"incorrect_offset\",\"correct_offset\":18446744073709551615}},\"error_summary\":\"lookup_failed/incorrect_offset/...\"}",
    )
}
