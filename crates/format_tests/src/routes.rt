use api_types::{Route, read_stamp, stamp};
use fh_model::{LAST_SECOND, Text};
use std::alloc::Global;
use std::test::*;

static TARGETS: [(&str, Option<Route>); 13] = [
    ("/2/files/create_folder_v2", Some(Route::CreateFolder)),
    ("/2/files/get_metadata", Some(Route::GetMetadata)),
    ("/2/files/upload", Some(Route::Upload)),
    ("/2/files/download", Some(Route::Download)),
    ("/2/files/uploads", None),
    ("/2/files/down", None),
    ("", None),
    ("/2/files/get_metadata/", None),
    ("/2/files/get_metadat", None),
    ("/2/files/Get_metadata", None),
    ("/2/files/get_metadata?arg=1", None),
    ("files/get_metadata", None),
    ("/2/files/create_folder", None),
];

/// The first target of another route, if there is one.
fn first_misrouted() -> Option<&'static str> {
    for (target, route) in &TARGETS {
        if Route::of(target.as_bytes()) != *route {
            return Some(*target);
        }
    }
    None
}

#[test]
fn a_target_is_a_route_byte_by_byte(rt: HostRuntime) -> Result<(), Fail> {
    assert_eq!(rt; first_misrouted(), None);
    assert_eq!(rt; Route::GetMetadata.target(), "/2/files/get_metadata");
    assert_eq!(rt; Route::GetMetadata.function(), "files/get_metadata");
    Ok(())
}

/// A moment and its text.
static STAMPS: [(u64, &str); 15] = [
    (0, "1970-01-01T00:00:00Z"),
    (59, "1970-01-01T00:00:59Z"),
    (3_599, "1970-01-01T00:59:59Z"),
    (86_399, "1970-01-01T23:59:59Z"),
    (86_400, "1970-01-02T00:00:00Z"),
    (5_097_600, "1970-03-01T00:00:00Z"),
    (31_536_000, "1971-01-01T00:00:00Z"),
    (68_169_600, "1972-02-29T00:00:00Z"),
    (68_256_000, "1972-03-01T00:00:00Z"),
    (951_782_400, "2000-02-29T00:00:00Z"),
    (1_700_000_000, "2023-11-14T22:13:20Z"),
    (1_735_689_599, "2024-12-31T23:59:59Z"),
    (4_107_542_400, "2100-03-01T00:00:00Z"),
    (4_107_542_399, "2100-02-28T23:59:59Z"),
    (LAST_SECOND, "9999-12-31T23:59:59Z"),
];

/// The first moment that is written or read otherwise, if there is one.
fn first_mistold(alloc: Global) -> Option<u64> {
    for (seconds, text) in &STAMPS {
        let Ok(shown) = stamp(alloc, *seconds) else {
            return Some(*seconds);
        };
        if shown.as_str() != *text || read_stamp(&shown) != Some(*seconds) {
            return Some(*seconds);
        }
    }
    None
}

#[test]
fn a_moment_is_written_and_read(rt: HostRuntime) -> Result<(), Fail> {
    assert_eq!(rt; first_mistold(rt.alloc()), None);
    Ok(())
}

static NO_STAMPS: [&str; 30] = [
    "",
    "2023-11-14",
    "2023-11-14T22:13:20",
    "2023-11-14T22:13:20z",
    "2023-11-14t22:13:20Z",
    "2023-11-14 22:13:20Z",
    "2023-11-14T22:13:20Z ",
    " 2023-11-14T22:13:20Z",
    "2023-11-14T22:13:20.0Z",
    "2023-11-14T22:13:20+00:00",
    "2023/11/14T22:13:20Z",
    "2023-11-14T22-13-20Z",
    "2023-11-14T2:13:20ZZ",
    "23-11-14T22:13:20ZZZ",
    "2023-1a-14T22:13:20Z",
    "2023-+1-14T22:13:20Z",
    "2023-00-14T22:13:20Z",
    "2023-13-14T22:13:20Z",
    "2023-11-00T22:13:20Z",
    "2023-11-31T22:13:20Z",
    "2023-02-29T00:00:00Z",
    "2100-02-29T00:00:00Z",
    "2024-02-30T00:00:00Z",
    "2023-11-14T24:00:00Z",
    "2023-11-14T23:60:00Z",
    "2023-11-14T23:59:60Z",
    "1969-12-31T23:59:59Z",
    "0000-01-01T00:00:00Z",
    "0001-01-01T00:00:00Z",
    "9999-99-99T99:99:99Z",
];

/// Whether the text is read as a moment.
fn is_read(alloc: Global, text: &str) -> Result<bool, Fail> {
    let shown = Text::new(String::from_str(alloc, text)?);
    Ok(read_stamp(&shown).is_some())
}

/// The first of these texts that is read, if there is one.
fn first_read(alloc: Global) -> Result<Option<&'static str>, Fail> {
    for text in &NO_STAMPS {
        if is_read(alloc, *text)? {
            return Ok(Some(*text));
        }
    }
    Ok(None)
}

#[test]
fn no_other_text_is_read(rt: HostRuntime) -> Result<(), Fail> {
    assert_eq!(rt; first_read(rt.alloc())?, None);
    Ok(())
}

#[test]
fn a_moment_past_the_year_9999_has_no_date(rt: HostRuntime) -> Result<(), Fail> {
    for seconds in [LAST_SECOND + 1, u64::MAX] {
        let shown = stamp(rt.alloc(), seconds).ok().ok_or("out of memory")?;
        assert_eq!(rt; shown.as_bytes().len(), 10usize);
        assert_eq!(rt; read_stamp(&shown), None);
    }
    Ok(())
}
