use crate::rows::{applied, expect_settled, fresh, judged, text};
use fh_model::{Act, Bytes32, Cmd, Commit, Found, Mode, Node, Piece};
use name_core::Image;
use std::test::*;

/// An upload by its path, the rev that it replaces, and how many bytes it has. Those of one length have one content.
#[derive(Clone, Copy)]
enum Sketch {
    Add(&'static str, u32),
    Strict(&'static str, u32),
    Overwrite(&'static str, u32),
    Update(&'static str, u64, u32),
    StrictUpdate(&'static str, u64, u32),
}

/// Uploads one after another, and their replies.
static UPLOADS: [(Sketch, &str); 15] = [
    (Sketch::Add("/a.txt", 5), "1.1/a.txt 5"),
    (Sketch::Add("/A.TXT", 5), "1.1/a.txt 5"),
    (Sketch::Strict("/a.txt", 5), "us1 path.conflict.file."),
    (Sketch::Add("/a.txt", 6), "us2 path.conflict.file."),
    (Sketch::Update("/a.txt", 1, 6), "2.1/a.txt 6"),
    (Sketch::Update("/a.txt", 1, 7), "us3 path.conflict.file."),
    (Sketch::Overwrite("/a.txt", 7), "3.1/a.txt 7"),
    (Sketch::Add("/x/y/b", 0), "4.4/x/y/b 0"),
    (Sketch::StrictUpdate("/c", 9, 1), "us4 path.conflict.file."),
    (Sketch::Update("/c", 9, 1), "5.5/c 1"),
    (Sketch::Add("/c/d", 1), "us5 path.conflict.file_ancestor."),
    (Sketch::Add("/X", 1), "us6 path.conflict.folder."),
    (Sketch::Add("ns:1", 1), "us7 path.conflict.folder."),
    (Sketch::Add("", 1), "us8 path.malformed_path."),
    (
        Sketch::Add("rev:0000000000000001", 1),
        "us9 path.malformed_path.",
    ),
];

/// The sketch in full: its path, mode, strictness and length.
fn parts_of(sketch: Sketch) -> (&'static str, Mode, bool, u32) {
    match sketch {
        Sketch::Add(path, len) => (path, Mode::Add, false, len),
        Sketch::Strict(path, len) => (path, Mode::Add, true, len),
        Sketch::Overwrite(path, len) => (path, Mode::Overwrite, false, len),
        Sketch::Update(path, rev, len) => (path, Mode::Update(rev), false, len),
        Sketch::StrictUpdate(path, rev, len) => (path, Mode::Update(rev), true, len),
    }
}

/// The piece of so many bytes. All have one digest, as their lengths tell them apart.
fn piece_of(len: u32) -> Option<Piece> {
    if len == 0 {
        return None;
    }
    Some(Piece {
        place: 0,
        len,
        digest: Bytes32 { bytes: [9; 32] },
    })
}

fn upload(rt: HostRuntime, user: u64, sketch: Sketch, drafted: u32) -> Result<Cmd, Fail> {
    let (path, mode, strict, len) = parts_of(sketch);
    let commit = Commit {
        path: text(rt, path)?,
        mode,
        rename: false,
        strict,
        client: None,
    };
    let act = Act::Upload {
        user,
        commit,
        drafted,
        last: piece_of(len),
    };
    Ok(Cmd {
        seat: 1,
        at: 7,
        act,
    })
}

/// The image after an upload. It fails where another reply is wanted.
fn answered(rt: HostRuntime, image: &Image, sketch: Sketch, want: &str) -> Result<Image, Fail> {
    let cmd = upload(rt, 1, sketch, 0)?;
    judged(rt, image, &cmd, want)
}

/// The image after an upload, whatever it is told.
fn entered(rt: HostRuntime, image: &Image, sketch: Sketch, drafted: u32) -> Result<Image, Fail> {
    let cmd = upload(rt, 1, sketch, drafted)?;
    let (next, _) = applied(image, &cmd)?;
    Ok(next)
}

/// The image after the uploads. It fails with the first reply that is another.
fn uploaded(rt: HostRuntime) -> Result<Image, Fail> {
    let mut image = fresh(rt)?;
    for (sketch, want) in &UPLOADS {
        image = answered(rt, &image, *sketch, *want)?;
    }
    Ok(image)
}

/// Revs of these uploads, and the size of the version that has each.
static SIZES: [(u64, Option<u64>); 5] = [
    (1, Some(5)),
    (2, Some(6)),
    (5, Some(1)),
    (6, None),
    (0, None),
];

fn size_of(image: &Image, rev: u64) -> Option<u64> {
    match image.meta(rev) {
        Some(meta) => Some(meta.size),
        None => None,
    }
}

/// Fails with the first rev whose version has another size.
fn expect_sizes(image: &Image, sizes: &[(u64, Option<u64>)]) -> Result<(), Fail> {
    for (rev, size) in sizes {
        if size_of(image, *rev) != *size {
            return Err((*rev).into());
        }
    }
    Ok(())
}

fn is_version(there: &Found, rev: u64, size: u64) -> bool {
    match &there.node {
        Some(Node::File(meta)) => meta.rev == rev && meta.size == size,
        Some(_) => false,
        None => false,
    }
}

/// Whether a path leads to the version with this rev and this size.
fn leads_to(rt: HostRuntime, image: &Image, path: &str, rev: u64, size: u64) -> Result<bool, Fail> {
    let there = image.resolve(1, &text(rt, path)?)?;
    Ok(is_version(&there, rev, size))
}

/// Fails where not all the uploads and their versions are kept, or one of `/a.txt` isn't found by its rev or the path.
fn expect_versions(rt: HostRuntime, image: &Image) -> Result<(), Fail> {
    let first = leads_to(rt, image, "rev:0000000000000001", 1, 5)?;
    let now = leads_to(rt, image, "/a.txt", 3, 7)?;
    if !(first && now) || image.kept() != 15 {
        return Err("another version".into());
    }
    expect_sizes(image, &SIZES)
}

#[test]
fn uploads_are_judged_and_each_version_is_kept(rt: HostRuntime) -> Result<(), Fail> {
    let image = uploaded(rt)?;
    expect_versions(rt, &image)
}

/// Revs of one file, each version of which has as many bytes as its rev says.
static MANY: [(u64, Option<u64>); 4] = [
    (1, Some(1)),
    (128, Some(128)),
    (129, Some(129)),
    (300, Some(300)),
];

/// The image after 300 versions of one file, the first of which has one byte and each other one more.
fn overwritten(rt: HostRuntime) -> Result<Image, Fail> {
    let mut image = fresh(rt)?;
    for len in 1..301 {
        image = entered(rt, &image, Sketch::Overwrite("/a.txt", len), 0)?;
    }
    Ok(image)
}

#[test]
fn each_of_many_versions_is_kept(rt: HostRuntime) -> Result<(), Fail> {
    let image = overwritten(rt)?;
    expect_sizes(&image, &MANY)
}

/// Fails where an upload by a user isn't refused with this tag. One of user 1 names a piece of a draft that isn't there.
fn expect_refusal(
    rt: HostRuntime,
    image: &Image,
    user: u64,
    sketch: Sketch,
    tag: &str,
) -> Result<(), Fail> {
    let cmd = upload(rt, user, sketch, u32::from(user == 1))?;
    expect_settled(rt, image, &cmd, tag)
}

/// Fails where an image keeps something.
fn expect_empty(image: &Image) -> Result<(), Fail> {
    if image.kept() != 0 {
        return Err(image.kept().into());
    }
    Ok(())
}

/// Fails where something is kept of a piece of a draft that isn't there, or where that, or an upload by a user that isn't there,
/// is told otherwise.
fn expect_nothing(rt: HostRuntime, image: &Image) -> Result<(), Fail> {
    expect_refusal(rt, image, 1, Sketch::Add("/a", 1), "draft_gap.")?;
    expect_refusal(rt, image, 2, Sketch::Add("/a", 0), "user.not_found.")?;
    let next = entered(rt, image, Sketch::Add("/a", 1), 1)?;
    expect_empty(&next)
}

#[test]
fn data_that_is_no_file_changes_nothing(rt: HostRuntime) -> Result<(), Fail> {
    let image = fresh(rt)?;
    expect_nothing(rt, &image)
}
