use fh_model::{Key, Name, Names, PathArg, Text};
use fold_path::{PathFault, fold, parse};
use std::cmp::Ordering;
use std::test::*;

/// A text with its form, its number and how many names it has, or none where it is malformed.
type Case = (&'static str, Option<(&'static str, u64, usize)>);

/// What stands first, what is repeated, how often, what stands last, and the names, if it is a path.
type Limit = (
    &'static str,
    &'static str,
    usize,
    &'static str,
    Option<usize>,
);

/// A slash and 63 letters.
const SHORT_NAME: &str = "/aaaaaaaaaaaaaaaaaaaaaaaaaaaaaaaaaaaaaaaaaaaaaaaaaaaaaaaaaaaaaaa";

/// A slash and 31 letters of 2 bytes, each of which folds to 6.
const GROWING_NAME: &str = "/ΐΐΐΐΐΐΐΐΐΐΐΐΐΐΐΐΐΐΐΐΐΐΐΐΐΐΐΐΐΐΐ";

/// A slash and 28 such letters.
const LAST_GROWING_NAME: &str = "/ΐΐΐΐΐΐΐΐΐΐΐΐΐΐΐΐΐΐΐΐΐΐΐΐΐΐΐΐ";

/// One byte more.
const LONGER_GROWING_NAME: &str = "/ΐΐΐΐΐΐΐΐΐΐΐΐΐΐΐΐΐΐΐΐΐΐΐΐΐΐΐΐa";

fn text(rt: HostRuntime, text: &str) -> Result<Text, Fail> {
    Ok(Text::new(String::from_str(rt.alloc(), text)?))
}

fn named(names: &[Name]) -> (&'static str, u64, usize) {
    ("names", 0, names.len())
}

/// The form, the number and how many names there are, or none where the text is malformed.
fn told(rt: HostRuntime, path: &Text) -> Result<Option<(&'static str, u64, usize)>, Fail> {
    match parse(rt.alloc(), path) {
        Ok(PathArg::Names(names)) => Ok(Some(named(names.as_slice()))),
        Ok(PathArg::Id(number)) => Ok(Some(("id", number, 0))),
        Ok(PathArg::Rev(number)) => Ok(Some(("rev", number, 0))),
        Ok(PathArg::Ns(number, names)) => Ok(Some(("ns", number, names.as_slice().len()))),
        Err(PathFault::Malformed) => Ok(None),
        Err(PathFault::NoMemory) => Err("out of memory".into()),
    }
}

/// The first text that is told otherwise, if there is one.
fn first_untold(rt: HostRuntime, cases: &[Case]) -> Result<Option<&'static str>, Fail> {
    for (path, want) in cases {
        if told(rt, &text(rt, path)?)? != *want {
            return Ok(Some(*path));
        }
    }
    Ok(None)
}

fn key_of(rt: HostRuntime, names: &[Name]) -> Result<Key, Fail> {
    Ok(Key::of(rt.alloc(), names).ok().ok_or("out of memory")?)
}

fn names_of(rt: HostRuntime, path: &str) -> Result<Names, Fail> {
    let path = text(rt, path)?;
    match parse(rt.alloc(), &path) {
        Ok(PathArg::Names(names)) => Ok(names),
        _ => Err("no names".into()),
    }
}

fn key(rt: HostRuntime, path: &str) -> Result<Key, Fail> {
    let names = names_of(rt, path)?;
    key_of(rt, names.as_slice())
}

static LIMITS: [Limit; 16] = [
    ("/", "a", 255, "", Some(1)),
    ("/", "a", 256, "", None),
    ("/", "é", 127, "a", Some(1)),
    ("/", "é", 127, "aa", None),
    ("/b/", "€", 85, "/c", Some(3)),
    ("/b/", "€", 85, "a/c", None),
    ("", "/a", 64, "", Some(64)),
    ("", "/a", 65, "", None),
    ("", SHORT_NAME, 64, "", Some(64)),
    ("", SHORT_NAME, 64, "a", None),
    ("", GROWING_NAME, 21, LAST_GROWING_NAME, Some(22)),
    ("", GROWING_NAME, 21, LONGER_GROWING_NAME, None),
    ("", GROWING_NAME, 22, "", None),
    ("ns:1", "/a", 64, "", Some(64)),
    ("ns:1", "/a", 65, "", None),
    ("id:", "/", 4093, "", Some(0)),
];

/// The names of the repeated text, or none where it is malformed.
fn names_in(rt: HostRuntime, case: &Limit) -> Result<Option<usize>, Fail> {
    let (first, unit, count, last, _) = case;
    let unit = unit.repeat(rt.alloc(), *count)?;
    let path = format!(in rt.alloc(); "{first}{unit}{last}")?;
    Ok(told(rt, &Text::new(path))?.map(|told| told.2))
}

/// The place of the first case that has other names, if there is one.
fn first_unkept(rt: HostRuntime, cases: &[Limit]) -> Result<Option<usize>, Fail> {
    for (place, case) in cases.iter().enumerate() {
        if names_in(rt, case)? != case.4 {
            return Ok(Some(place));
        }
    }
    Ok(None)
}

#[test]
fn each_limit_is_kept_and_not_passed(rt: HostRuntime) -> Result<(), Fail> {
    assert_eq!(rt; first_unkept(rt, &LIMITS)?, None);
    Ok(())
}

static FORMS: [Case; 20] = [
    ("", Some(("names", 0, 0))),
    ("/a", Some(("names", 0, 1))),
    ("/Caf\u{e9} (2).txt/\u{1f600}", Some(("names", 0, 2))),
    ("/.../.a/a./ ", Some(("names", 0, 4))),
    ("/id:1/ns:1", Some(("names", 0, 2))),
    ("/", None),
    ("//", None),
    ("//a", None),
    ("/a/", None),
    ("/a//b", None),
    ("/.", None),
    ("/..", None),
    ("/a/../b", None),
    ("/a/./b", None),
    ("/a\0b", None),
    ("\0", None),
    ("a", None),
    ("a/b", None),
    ("ID:0000000000000001", None),
    ("id", None),
];

#[test]
fn a_text_has_one_form_or_is_malformed(rt: HostRuntime) -> Result<(), Fail> {
    assert_eq!(rt; first_untold(rt, &FORMS)?, None);
    Ok(())
}

static NUMBERS: [Case; 17] = [
    ("id:", Some(("id", 0, 0))),
    ("id:0000000000000001", Some(("id", 1, 0))),
    ("id:ffffffffffffffff", Some(("id", u64::MAX, 0))),
    ("id:000000000000001", Some(("id", 0, 0))),
    ("id:00000000000000001", Some(("id", 0, 0))),
    ("id:000000000000000A", Some(("id", 0, 0))),
    ("id:+000000000000001", Some(("id", 0, 0))),
    ("id:0000000000000001/x", Some(("id", 0, 0))),
    ("id:X/../y", Some(("id", 0, 0))),
    ("rev:", None),
    ("rev:12345678", None),
    ("rev:123456789", Some(("rev", 0, 0))),
    ("rev:00000000000000ab", Some(("rev", 171, 0))),
    ("rev:00000000000000ab0", Some(("rev", 0, 0))),
    ("rev:00000000000000AB", None),
    ("rev:00000000000000ag", None),
    ("rev:00000000000000ab/x", None),
];

#[test]
fn items_and_revisions_are_told_by_their_digits(rt: HostRuntime) -> Result<(), Fail> {
    assert_eq!(rt; first_untold(rt, &NUMBERS)?, None);
    Ok(())
}

static NAMESPACES: [Case; 16] = [
    ("ns:", None),
    ("ns:/a", None),
    ("ns:1", Some(("ns", 1, 0))),
    ("ns:0", Some(("ns", 0, 0))),
    ("ns:007/a", Some(("ns", 7, 1))),
    (
        "ns:999999999999999999",
        Some(("ns", 999_999_999_999_999_999, 0)),
    ),
    (
        "ns:999999999999999999/a/b",
        Some(("ns", 999_999_999_999_999_999, 2)),
    ),
    ("ns:0000000000000000001", None),
    ("ns:1234567890123456789/a", None),
    ("ns:1/", None),
    ("ns:1//a", None),
    ("ns:1/..", None),
    ("ns:1a", None),
    ("ns:+1", None),
    ("ns:-1/a", None),
    ("NS:1", None),
];

#[test]
fn namespaces_have_1_to_18_digits(rt: HostRuntime) -> Result<(), Fail> {
    assert_eq!(rt; first_untold(rt, &NAMESPACES)?, None);
    Ok(())
}

/// Names and their folded texts.
static FOLDED: [(&str, &str); 12] = [
    ("", ""),
    ("README.txt", "readme.txt"),
    ("straße", "strasse"),
    ("STRASSE", "strasse"),
    ("STRAẞE", "strasse"),
    ("ﬃ", "ffi"),
    ("\u{212a}", "k"),
    ("\u{0130}", "i\u{0307}"),
    ("\u{0390}", "\u{03b9}\u{0308}\u{0301}"),
    ("ΣΊΣΥΦΟΣ", "σίσυφοσ"),
    ("Жук", "жук"),
    ("e\u{0301}", "e\u{0301}"),
];

/// The first name with another folded text, if there is one.
fn first_unfolded(
    rt: HostRuntime,
    cases: &[(&'static str, &'static str)],
) -> Result<Option<&'static str>, Fail> {
    for (name, want) in cases {
        let folded = fold(rt.alloc(), &text(rt, name)?)
            .ok()
            .ok_or("out of memory")?;
        if folded.as_str() != *want {
            return Ok(Some(*name));
        }
    }
    Ok(None)
}

#[test]
fn names_are_folded_in_full(rt: HostRuntime) -> Result<(), Fail> {
    assert_eq!(rt; first_unfolded(rt, &FOLDED)?, None);
    Ok(())
}

/// Whether a name has these texts.
fn is_named(name: &Name, shown: &str, folded: &str) -> bool {
    name.shown.as_str() == shown && name.folded.as_str() == folded
}

/// Whether these are the two names of the path, as they were written and as they are folded.
fn are_kept(names: &[Name]) -> bool {
    let [street, file] = names else {
        return false;
    };
    is_named(street, "Straße", "strasse") && is_named(file, "Übersicht.TXT", "übersicht.txt")
}

#[test]
fn names_keep_the_case_in_which_they_were_written(rt: HostRuntime) -> Result<(), Fail> {
    let names = names_of(rt, "/Straße/Übersicht.TXT")?;
    assert!(rt; are_kept(names.as_slice()));
    Ok(())
}

/// Two paths and their order. In the order of the joined texts a blank and a dash would come before the slash.
static ORDERED: [(&str, &str, Ordering); 11] = [
    ("", "", Ordering::Equal),
    ("/straße", "/STRASSE", Ordering::Equal),
    ("/A/b", "/a/B", Ordering::Equal),
    ("", "/a", Ordering::Less),
    ("/a", "/a/b", Ordering::Less),
    ("/a/x", "/a b", Ordering::Less),
    ("/a/x", "/a-b", Ordering::Less),
    ("/a/x/y", "/a/x y", Ordering::Less),
    ("/a", "/Z", Ordering::Less),
    ("/z", "/é", Ordering::Less),
    ("/b", "/a/z", Ordering::Greater),
];

/// The order of two paths.
fn order(rt: HostRuntime, path: &str, other: &str) -> Result<Ordering, Fail> {
    let left = key(rt, path)?;
    let right = key(rt, other)?;
    Ok(left.cmp(&right))
}

/// The first path that stands in another order, if there is one.
fn first_misplaced(
    rt: HostRuntime,
    cases: &[(&'static str, &'static str, Ordering)],
) -> Result<Option<&'static str>, Fail> {
    for (path, other, want) in cases {
        if order(rt, path, other)? != *want {
            return Ok(Some(*path));
        }
    }
    Ok(None)
}

#[test]
fn keys_are_in_order_name_by_name(rt: HostRuntime) -> Result<(), Fail> {
    assert_eq!(rt; first_misplaced(rt, &ORDERED)?, None);
    Ok(())
}

/// A path, another, and whether the first is under it.
static UNDER: [(&str, &str, bool); 10] = [
    ("/a", "", true),
    ("/a/b/c", "/A", true),
    ("/a/b/c", "/a/B", true),
    ("/strasse/x", "/Straße", true),
    ("", "", false),
    ("/a", "/a", false),
    ("/a", "/a/b", false),
    ("/ab", "/a", false),
    ("/a b/c", "/a", false),
    ("/a/b", "/b", false),
];

/// Whether the first path is under the second.
fn is_under(rt: HostRuntime, path: &str, base: &str) -> Result<bool, Fail> {
    let upper = key(rt, base)?;
    let lower = key(rt, path)?;
    Ok(lower.is_under(&upper))
}

/// The first path of which it is told otherwise, if there is one.
fn first_not_under(
    rt: HostRuntime,
    cases: &[(&'static str, &'static str, bool)],
) -> Result<Option<&'static str>, Fail> {
    for (path, base, want) in cases {
        if is_under(rt, path, base)? != *want {
            return Ok(Some(*path));
        }
    }
    Ok(None)
}

#[test]
fn a_key_is_under_its_proper_prefixes(rt: HostRuntime) -> Result<(), Fail> {
    assert_eq!(rt; first_not_under(rt, &UNDER)?, None);
    Ok(())
}
