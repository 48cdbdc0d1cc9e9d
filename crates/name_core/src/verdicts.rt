//! The verdict on a commit.
ghost use Rattle.std.specs.Prelude.{◌≡◌, option_copied};
ghost use Rattle.fh_model.specs.Verdicts.{is_identical, on_absent, on_other, target_of, verdict};

use crate::shared::Shared;
use fh_model::{Bytes32, Commit, FileMeta, Item, Kind, Mode, Node, Verdict};

fn is_identical(meta: &FileMeta, size: u64, hash: &Bytes32) -> bool
    ensures { result ≡ is_identical meta.now size hash.now }
{
    meta.size == size && meta.hash.bytes == hash.bytes
}

fn on_absent(mode: &Mode, strict: bool) -> Verdict
    ensures { result ≡ on_absent mode.now strict }
{
    match mode {
        Mode::Add => Verdict::Write,
        Mode::Overwrite => Verdict::Write,
        Mode::Update(_) => {
            if strict {
                Verdict::Conflict(Kind::File)
            } else {
                Verdict::Write
            }
        }
    }
}

fn on_other(mode: &Mode, meta: &FileMeta) -> Verdict
    ensures { result ≡ on_other mode.now meta.now }
{
    match mode {
        Mode::Add => Verdict::Conflict(Kind::File),
        Mode::Overwrite => Verdict::Write,
        Mode::Update(rev) => {
            if *rev == meta.rev {
                Verdict::Write
            } else {
                Verdict::Conflict(Kind::File)
            }
        }
    }
}

/// What becomes of a commit of such data over what stands at its place.
pub(crate) fn verdict(
    item: Option<&Shared<Item>>,
    commit: &Commit,
    size: u64,
    hash: &Bytes32,
) -> Verdict
    ensures { result ≡ verdict (target_of (option_copied item.entry)) commit.now.mode commit.now.strict size hash.now }
{
    let Some(item) = item else {
        return on_absent(&commit.mode, commit.strict);
    };
    match &item.node {
        Node::File(meta) => {
            if is_identical(meta, size, hash) && !commit.strict {
                Verdict::Same
            } else {
                on_other(&commit.mode, meta)
            }
        }
        Node::Folder { .. } => Verdict::Conflict(Kind::Folder),
        Node::Mount { .. } => Verdict::Conflict(Kind::Folder),
    }
}
