//! The words of the command line and the lines of the statuses.
use super::{ends_untold, has_line, words_of};
use fh_world::MemDisk;
use host_top::{Plan, Status, read_words};
use std::test::*;

/// Words that are not in the form.
static NO_FORMS: [&[&str]; 8] = [
    &["pipe"],
    &[],
    &["tree", "--store", ".", "--admin", "rootroot"],
    &["pipe", "--admin", "rootroot", "--store", "."],
    &["pipe", "--store", ".", "--admin", "rootroo"],
    &["pipe", "--store", ".", "--admin", "root root"],
    &["pipe", "--store", ".", "--admin", "rootroot", "more"],
    &["pipe", "--store", ".", "--admin"],
];

/// Whether a run with these words reads and writes nothing.
fn touch_nothing(rt: &HostRuntime, words: &[&str]) -> Result<bool, Fail> {
    let mut disk = MemDisk::new(rt.alloc())?;
    ends_untold(rt, &mut disk, words, Status::Usage)
}

#[test]
fn words_out_of_form_touch_nothing(rt: HostRuntime) -> Result<(), Fail> {
    for words in &NO_FORMS {
        assert!(rt; touch_nothing(&rt, *words)?);
    }
    assert!(rt; has_line(rt.alloc(), Status::Usage, "filehost: usage")?);
    Ok(())
}

/// Whether the plan is to serve this store for this admin word.
fn is_pipe(plan: &Plan, folder: &str, word: &str) -> bool {
    match plan {
        Plan::Pipe { store, admin } => store.as_str() == folder && admin.as_str() == word,
    }
}

#[test]
fn words_in_form_are_read(rt: HostRuntime) -> Result<(), Fail> {
    let longest = "0123456789abcdefghijklmnopqrstuvwxyzABCDEFGHIJKLMNOPQRSTUVWXYZ-_";
    let words = words_of(rt.alloc(), &["pipe", "--store", "a b", "--admin", longest])?;
    let plan = read_words(rt.alloc(), &words).ok().ok_or("no plan")?;
    assert!(rt; is_pipe(&plan, "a b", longest));
    Ok(())
}
