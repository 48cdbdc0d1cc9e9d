use crate::rows::{expect_settled, fresh, judged, put_number, put_shown, text};
use fh_model::{Act, Cmd, Found, Members, Name, Node, Row, Text};
use name_core::{Image, LookFault};
use std::test::*;

/// A path that a folder is made at, and the reply: the new id with the shown names, or the tags of the refusal.
static MADE: [(&str, &str); 21] = [
    ("/straße", "1/straße"),
    ("/STRASSE", "path.conflict.folder."),
    ("/Strasse/B/c", "3/straße/B/c"),
    ("/strasse/b/C/D", "4/straße/B/c/D"),
    ("ns:1/x", "5/x"),
    ("/p/q/r/s", "9/p/q/r/s"),
    ("/p/Q/T", "10/p/q/T"),
    ("id:0000000000000001", "path.conflict.folder."),
    ("id:000000000000000a", "path.conflict.folder."),
    ("ns:1", "path.conflict.folder."),
    ("ns:2/x", "path.malformed_path."),
    ("", "path.malformed_path."),
    ("/", "path.malformed_path."),
    ("x", "path.malformed_path."),
    ("/x/", "path.malformed_path."),
    ("/x/../y", "path.malformed_path."),
    ("id:", "path.malformed_path."),
    ("id:000000000000000A", "path.malformed_path."),
    ("id:0000000000000011", "path.malformed_path."),
    ("rev:0000000000000001", "path.malformed_path."),
    ("ns:", "path.malformed_path."),
];

/// A path and what it leads to after these: the id with the shown and the folded names, or the fault.
static FOUND: [(&str, &str); 19] = [
    ("/STRASSE", "1/straße/strasse"),
    ("/STRASSE/b", "2/straße/B/strasse/b"),
    ("id:0000000000000002", "2/straße/B/strasse/b"),
    ("ns:1/P/q", "7/p/q/p/q"),
    ("id:0000000000000006", "6/p/p"),
    ("/p/q/r", "8/p/q/r/p/q/r"),
    ("", "root"),
    ("ns:1", "root"),
    ("/y", "not found"),
    ("/x/y", "not found"),
    ("ns:2", "not found"),
    ("ns:2/x", "not found"),
    ("id:0000000000000000", "not found"),
    ("id:0000000000000001/x", "not found"),
    ("rev:0000000000000001", "not found"),
    ("rev:00000001", "malformed"),
    ("/x/", "malformed"),
    ("ns:0000000000000000001/x", "malformed"),
    ("ids", "malformed"),
];

fn make(rt: HostRuntime, user: u64, path: &str) -> Result<Cmd, Fail> {
    let act = Act::MakeFolder {
        user,
        path: text(rt, path)?,
        rename: false,
    };
    Ok(Cmd {
        seat: 1,
        at: 7,
        act,
    })
}

fn put_folded(line: &mut String, names: &[Name]) -> Result<(), Fail> {
    for name in names {
        line.push_str("/")?;
        line.push_str(name.folded.as_str())?;
    }
    Ok(())
}

fn put_found(line: &mut String, there: &Found) -> Result<(), Fail> {
    match &there.node {
        Some(Node::Folder { id }) => {
            put_number(line, *id)?;
            put_shown(line, there.names.as_slice())?;
            put_folded(line, there.place.names.as_slice())
        }
        Some(Node::File(_)) => Ok(line.push_str("file")?),
        Some(Node::Mount { .. }) => Ok(line.push_str("mount")?),
        None => Ok(line.push_str("root")?),
    }
}

fn word_of(fault: LookFault) -> &'static str {
    match fault {
        LookFault::Malformed => "malformed",
        LookFault::NotFound => "not found",
        LookFault::NoMemory => "out of memory",
    }
}

fn looked(rt: HostRuntime, image: &Image, user: u64, path: &str) -> Result<String, Fail> {
    let mut line = String::new(rt.alloc());
    match image.resolve(user, &text(rt, path)?) {
        Ok(there) => put_found(&mut line, &there)?,
        Err(fault) => line.push_str(word_of(fault))?,
    }
    Ok(line)
}

/// The image after a folder is made. It fails where another reply is wanted.
fn made_at(rt: HostRuntime, image: &Image, path: &str, want: &str) -> Result<Image, Fail> {
    let cmd = make(rt, 1, path)?;
    judged(rt, image, &cmd, want)
}

/// The image after the folders of the first table. It fails with the first path that is answered otherwise.
fn made(rt: HostRuntime) -> Result<Image, Fail> {
    let mut image = fresh(rt)?;
    for (path, want) in &MADE {
        image = made_at(rt, &image, *path, *want)?;
    }
    Ok(image)
}

/// Fails where a user's path leads elsewhere, and tells where.
fn expect_look(
    rt: HostRuntime,
    image: &Image,
    user: u64,
    path: &str,
    want: &str,
) -> Result<(), Fail> {
    let told = looked(rt, image, user, path)?;
    if told.as_str() != want {
        return Err(told.as_str().into());
    }
    Ok(())
}

/// Fails with the first path of the second table that leads elsewhere.
fn look_at_all(rt: HostRuntime, image: &Image) -> Result<(), Fail> {
    for (path, want) in &FOUND {
        expect_look(rt, image, 1, path, want)?;
    }
    Ok(())
}

/// Fails where a folder that isn't made is refused otherwise.
fn expect_refusal(
    rt: HostRuntime,
    image: &Image,
    user: u64,
    path: &str,
    want: &str,
) -> Result<(), Fail> {
    let cmd = make(rt, user, path)?;
    expect_settled(rt, image, &cmd, want)
}

#[test]
fn paths_lead_to_one_place_however_they_are_cased(rt: HostRuntime) -> Result<(), Fail> {
    let image = made(rt)?;
    assert!(rt; image.kept() == 6);
    look_at_all(rt, &image)
}

/// Fails where a user that isn't there finds or makes something.
fn expect_nothing(rt: HostRuntime, image: &Image, user: u64) -> Result<(), Fail> {
    expect_look(rt, image, user, "", "not found")?;
    expect_look(rt, image, user, "/x/", "malformed")?;
    expect_refusal(rt, image, user, "/x/", "user.not_found.")
}

#[test]
fn an_unknown_user_finds_nothing(rt: HostRuntime) -> Result<(), Fail> {
    let image = fresh(rt)?;
    expect_nothing(rt, &image, 2)
}

fn space(rt: HostRuntime, number: u64) -> Row {
    Row::Namespace {
        number,
        shared: false,
        floor: 0,
        length: 0,
        members: Members::empty(rt.alloc()),
    }
}

fn user(number: u64, token: Option<Text>) -> Row {
    Row::User {
        number,
        home: number,
        token,
    }
}

fn counters() -> Row {
    Row::Counters {
        rev: 1,
        id: 1,
        session: 1,
        user: 3,
        namespace: 3,
        moment: 0,
    }
}

/// Of two users with a home each, of whom the second has a token, the row at the index.
fn row_of_two(rt: HostRuntime, index: u64) -> Result<Row, Fail> {
    match index {
        0 => Ok(counters()),
        1 => Ok(user(1, None)),
        2 => Ok(user(2, Some(text(rt, "abcdefgh")?))),
        3 => Ok(space(rt, 1)),
        _ => Ok(space(rt, 2)),
    }
}

fn rows_of_two(rt: HostRuntime) -> Result<Vec<Row>, Fail> {
    let mut rows = Vec::new(rt.alloc());
    for index in 0..5 {
        rows.push(row_of_two(rt, index)?)?;
    }
    Ok(rows)
}

/// Tokens, and the users that have them.
static TOKENS: [(&str, Option<u64>); 3] = [
    ("abcdefgh", Some(2)),
    ("abcdefg", None),
    ("abcdefghi", None),
];

fn two_users(rt: HostRuntime) -> Result<Image, Fail> {
    Ok(Image::from_rows(rt.alloc(), &rows_of_two(rt)?)?)
}

/// Fails with the first of the tokens that is another user's.
fn expect_tokens(image: &Image) -> Result<(), Fail> {
    for (token, user) in &TOKENS {
        if image.token_user(token.as_bytes()) != *user {
            return Err((*token).into());
        }
    }
    Ok(())
}

/// Fails where another than the two users has a home, or one of the tokens is another user's.
fn expect_users(image: &Image) -> Result<(), Fail> {
    if image.home_of(2) != Some(2) || image.home_of(3) != None {
        return Err("another home".into());
    }
    expect_tokens(image)
}

#[test]
fn a_token_is_of_one_user_as_a_whole(rt: HostRuntime) -> Result<(), Fail> {
    let image = two_users(rt)?;
    expect_users(&image)
}
