//! Rows and images, and the calls that other tests make too. Nothing is said of what these give, so that no proof of a
//! test computes with the machine.
use fh_model::{Act, Cmd, Entry, FileMeta, Members, Name, Refusal, Reply, Row, Text};
use name_core::{Image, RowsFault};
use std::alloc::Global;
use std::test::*;

/// The image of a new store.
pub(crate) fn fresh(rt: HostRuntime) -> Result<Image, Fail> {
    Ok(Image::empty(rt.alloc())?)
}

/// The image after a command, and the reply.
pub(crate) fn applied(image: &Image, cmd: &Cmd) -> Result<(Image, Reply), Fail> {
    Ok(image.apply(cmd)?)
}

/// The reply to a command that isn't to enter.
fn settled(image: &Image, cmd: &Cmd) -> Result<Reply, Fail> {
    Ok(image.settle(cmd)?)
}

pub(crate) fn text(rt: HostRuntime, text: &str) -> Result<Text, Fail> {
    Ok(Text::new(String::from_str(rt.alloc(), text)?))
}

pub(crate) fn put_number(line: &mut String, number: u64) -> Result<(), Fail> {
    write!(line, "{number}")?;
    Ok(())
}

pub(crate) fn put_shown(line: &mut String, names: &[Name]) -> Result<(), Fail> {
    for name in names {
        line.push_str("/")?;
        line.push_str(name.shown.as_str())?;
    }
    Ok(())
}

fn put_file(line: &mut String, names: &[Name], meta: &FileMeta) -> Result<(), Fail> {
    put_number(line, meta.rev)?;
    line.push_str(".")?;
    put_number(line, meta.id)?;
    put_shown(line, names)?;
    line.push_str(" ")?;
    put_number(line, meta.size)
}

fn put_folder(line: &mut String, names: &[Name], id: u64) -> Result<(), Fail> {
    put_number(line, id)?;
    put_shown(line, names)
}

fn put_session(line: &mut String, session: Option<u64>) -> Result<(), Fail> {
    let Some(session) = session else {
        return Ok(());
    };
    line.push_str("us")?;
    put_number(line, session)?;
    line.push_str(" ")?;
    Ok(())
}

fn put_refusal(line: &mut String, refusal: &Refusal) -> Result<(), Fail> {
    put_session(line, refusal.session)?;
    for tag in refusal.tags.as_slice() {
        line.push_str(tag.as_str())?;
        line.push_str(".")?;
    }
    Ok(())
}

fn put_reply(line: &mut String, reply: &Reply) -> Result<(), Fail> {
    match reply {
        Reply::Entry(Entry::File { names, meta }) => put_file(line, names.as_slice(), meta),
        Reply::Entry(Entry::Folder { names, id }) => put_folder(line, names.as_slice(), *id),
        Reply::Refused(refusal) => put_refusal(line, refusal),
    }
}

/// A reply as a text: of a folder the id and the shown names, of a file the rev, the id, the shown names and the size,
/// of a refusal the session that has the data and the tags.
fn replied(rt: HostRuntime, reply: &Reply) -> Result<String, Fail> {
    let mut line = String::new(rt.alloc());
    put_reply(&mut line, reply)?;
    Ok(line)
}

/// Fails where another reply is wanted, and tells the one that came.
fn expect_reply(rt: HostRuntime, reply: &Reply, want: &str) -> Result<(), Fail> {
    let told = replied(rt, reply)?;
    if told.as_str() != want {
        return Err(told.as_str().into());
    }
    Ok(())
}

/// The image after a command. It fails where another reply is wanted.
pub(crate) fn judged(rt: HostRuntime, image: &Image, cmd: &Cmd, want: &str) -> Result<Image, Fail> {
    let (next, reply) = applied(image, cmd)?;
    expect_reply(rt, &reply, want)?;
    Ok(next)
}

/// Fails where another reply to a command that isn't to enter is wanted.
pub(crate) fn expect_settled(
    rt: HostRuntime,
    image: &Image,
    cmd: &Cmd,
    want: &str,
) -> Result<(), Fail> {
    let reply = settled(image, cmd)?;
    expect_reply(rt, &reply, want)
}

/// A row in few words.
#[derive(Clone, Copy)]
enum Sketch {
    /// Counters whose next user has this number.
    Counters(u64),

    /// A user's number and its home.
    User(u64, u64),

    /// A namespace's number, its length and its members.
    Space(u64, u64, &'static [u64]),
}

fn row_of(alloc: Global, sketch: Sketch) -> Result<Row, Fail> {
    Ok(match sketch {
        Sketch::Counters(user) => Row::Counters {
            rev: 1,
            id: 1,
            session: 1,
            user,
            namespace: 2,
            moment: 0,
        },
        Sketch::User(number, home) => Row::User {
            number,
            home,
            token: None,
        },
        Sketch::Space(number, length, members) => Row::Namespace {
            number,
            shared: false,
            floor: 0,
            length,
            members: Members::new(Vec::from_slice(alloc, members)?),
        },
    })
}

fn rows_of(alloc: Global, sketches: &[Sketch]) -> Result<Vec<Row>, Fail> {
    let mut rows = Vec::new(alloc);
    for sketch in sketches {
        rows.push(row_of(alloc, *sketch)?)?;
    }
    Ok(rows)
}

/// Rows, and the first of them that breaks a rule.
static BROKEN: [(&[Sketch], usize); 10] = [
    (
        &[
            Sketch::User(1, 1),
            Sketch::Counters(2),
            Sketch::Space(1, 0, &[]),
        ],
        1,
    ),
    (&[Sketch::Counters(2), Sketch::Counters(3)], 1),
    (&[Sketch::User(1, 1), Sketch::Space(1, 0, &[])], 2),
    (
        &[
            Sketch::Counters(9),
            Sketch::User(2, 1),
            Sketch::User(2, 1),
            Sketch::Space(1, 0, &[]),
        ],
        2,
    ),
    (
        &[
            Sketch::Counters(1),
            Sketch::User(1, 1),
            Sketch::Space(1, 0, &[]),
        ],
        1,
    ),
    (
        &[
            Sketch::Counters(2),
            Sketch::User(1, 3),
            Sketch::Space(1, 0, &[]),
        ],
        1,
    ),
    (
        &[
            Sketch::Counters(2),
            Sketch::User(1, 1),
            Sketch::Space(1, 4, &[]),
        ],
        2,
    ),
    (
        &[
            Sketch::Counters(2),
            Sketch::User(1, 1),
            Sketch::Space(1, 0, &[1, 1]),
        ],
        2,
    ),
    (
        &[
            Sketch::Counters(2),
            Sketch::User(1, 1),
            Sketch::Space(1, 0, &[5]),
        ],
        2,
    ),
    (
        &[
            Sketch::Counters(2),
            Sketch::User(1, 1),
            Sketch::Space(1, 0, &[]),
            Sketch::Space(2, 0, &[]),
        ],
        3,
    ),
];

fn fresh_rows(rt: HostRuntime) -> Result<Vec<Row>, Fail> {
    let image = fresh(rt)?;
    Ok(image.rows()?)
}

/// The image of the rows of a new store, of which there are three.
fn reopened(rt: HostRuntime) -> Result<Image, Fail> {
    let rows = fresh_rows(rt)?;
    if rows.len() != 3 {
        return Err("not three rows".into());
    }
    Ok(Image::from_rows(rt.alloc(), &rows)?)
}

fn make_docs(rt: HostRuntime) -> Result<Cmd, Fail> {
    let path = text(rt, "/Docs")?;
    let act = Act::MakeFolder {
        user: 1,
        path,
        rename: false,
    };
    Ok(Cmd {
        seat: 1,
        at: 7,
        act,
    })
}

fn is_entry(reply: &Reply) -> bool {
    matches!(reply, Reply::Entry(_))
}

/// The image after a command, which fails where it is refused.
fn entered(image: &Image, cmd: &Cmd) -> Result<Image, Fail> {
    let (next, reply) = applied(image, cmd)?;
    if !is_entry(&reply) {
        return Err("refused".into());
    }
    Ok(next)
}

fn is_refused(image: &Image, cmd: &Cmd) -> Result<bool, Fail> {
    let reply = settled(image, cmd)?;
    Ok(!is_entry(&reply))
}

/// How many commands an image keeps that was told to forget them.
fn kept_after_forgetting(image: &Image) -> Result<usize, Fail> {
    let forgotten = image.forget()?;
    Ok(forgotten.kept())
}

/// How many commands a copy keeps that was told to forget them.
fn kept_by_copy(image: &Image) -> Result<usize, Fail> {
    let copy = image.copy()?;
    kept_after_forgetting(&copy)
}

/// Whether an image is at a moment, keeps the one command, refuses it when it comes again, and can forget it.
fn keeps_one(image: &Image, cmd: &Cmd, moment: u64) -> Result<bool, Fail> {
    let is_refused = is_refused(image, cmd)?;
    let left = kept_by_copy(image)?;
    Ok(image.moment() == moment && image.kept() == 1 && is_refused && left == 0)
}

/// Whether the image behind a command is at a moment, and keeps it as its one command.
fn makes_one(image: &Image, cmd: &Cmd, moment: u64) -> Result<bool, Fail> {
    let next = entered(image, cmd)?;
    keeps_one(&next, cmd, moment)
}

/// Fails where an image keeps something at first, or then anything but the one command that makes a folder.
fn expect_first(rt: HostRuntime, image: &Image) -> Result<(), Fail> {
    let cmd = make_docs(rt)?;
    if image.kept() != 0 || image.moment() != 0 || !makes_one(image, &cmd, 7)? {
        return Err("another image".into());
    }
    Ok(())
}

/// Why the rows are no state.
fn fault_of(alloc: Global, rows: &[Row]) -> Option<RowsFault> {
    Image::from_rows(alloc, rows).err()
}

#[test]
fn the_rows_of_a_new_store_are_read_back(rt: HostRuntime) -> Result<(), Fail> {
    let image = reopened(rt)?;
    expect_first(rt, &image)
}

#[test]
fn the_first_row_that_breaks_a_rule_is_named(rt: HostRuntime) -> Result<(), Fail> {
    let alloc = rt.alloc();
    for (sketches, row) in &BROKEN {
        let rows = rows_of(alloc, sketches)?;
        assert!(rt; fault_of(alloc, &rows) == Some(RowsFault::Bad { row: *row }));
    }
    Ok(())
}
