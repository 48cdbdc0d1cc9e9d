use api_json::{ArgumentFault, FieldName, ReadFault, complaint, read};
use api_types::{Request, Route};
use fh_model::Mode;
use std::alloc::Global;
use std::test::*;

/// What reading came to.
#[derive(Clone, Copy, Debug, PartialEq, Eq)]
enum Told {
    Made,
    Found,
    Uploaded,
    Loaded,
    BadJson,
    Bad(FieldName),
    NoMemory,
}

fn outcome_of(alloc: Global, route: Route, bytes: &[u8]) -> Told {
    match read(alloc, route, bytes) {
        Ok(Request::CreateFolder { .. }) => Told::Made,
        Ok(Request::GetMetadata { .. }) => Told::Found,
        Ok(Request::Upload { .. }) => Told::Uploaded,
        Ok(Request::Download { .. }) => Told::Loaded,
        Err(ReadFault::BadJson) => Told::BadJson,
        Err(ReadFault::BadField { name }) => Told::Bad(name),
        Err(ReadFault::NoMemory) => Told::NoMemory,
    }
}

static MAKES: [(&str, Told); 27] = [
    ("{\"path\":\"/a\"}", Told::Made),
    (" {\"\\u0070ath\" :\n\"/\\u0061\"}\t", Told::Made),
    ("{\"path\":\"\"}", Told::Made),
    ("{\"path\":\"/a\",\"autorename\":false}", Told::Made),
    ("{\"path\":\"/a\",\"autorename\":null}", Told::Made),
    (
        "{\"path\":\"/a\",\"x\":[1e5,{\"path\":7}],\"y\":null,\"include_deleted\":true}",
        Told::Made,
    ),
    ("{\"path\":7,\"path\":\"/a\"}", Told::Made),
    ("{\"path\":\"/a\",\"path\":7}", Told::Bad(FieldName::Path)),
    (
        "{\"path\":\"/a\",\"autorename\":true,\"autorename\":false}",
        Told::Made,
    ),
    (
        "{\"path\":\"/a\",\"autorename\":true}",
        Told::Bad(FieldName::Autorename),
    ),
    (
        "{\"path\":\"/a\",\"autorename\":0}",
        Told::Bad(FieldName::Autorename),
    ),
    (
        "{\"path\":\"/a\",\"autorename\":\"false\"}",
        Told::Bad(FieldName::Autorename),
    ),
    ("{\"autorename\":true}", Told::Bad(FieldName::Path)),
    ("{\"path\":null}", Told::Bad(FieldName::Path)),
    ("{\"path\":[\"/a\"]}", Told::Bad(FieldName::Path)),
    ("{\"Path\":\"/a\"}", Told::Bad(FieldName::Path)),
    ("{}", Told::Bad(FieldName::Path)),
    ("", Told::Bad(FieldName::Path)),
    ("null", Told::Bad(FieldName::Path)),
    ("[\"/a\"]", Told::Bad(FieldName::Path)),
    ("5", Told::Bad(FieldName::Path)),
    ("{", Told::BadJson),
    (" ", Told::BadJson),
    ("{\"path\":\"/a\"} x", Told::BadJson),
    ("{\"path\":\"/a\",}", Told::BadJson),
    ("{\"path\":\"\\ud800\"}", Told::BadJson),
    ("{\"path\":\"/a\",\"x\":1e999}", Told::BadJson),
];

static FINDS: [(&str, Told); 12] = [
    ("{\"path\":\"/a\"}", Told::Found),
    ("{\"path\":\"/\"}", Told::Found),
    (
        "{\"path\":\"/a\",\"include_deleted\":false,\"autorename\":true}",
        Told::Found,
    ),
    (
        "{\"path\":\"/a\",\"include_deleted\":true}",
        Told::Bad(FieldName::IncludeDeleted),
    ),
    (
        "{\"path\":\"\",\"include_deleted\":true}",
        Told::Bad(FieldName::Path),
    ),
    ("{\"path\":\"ns:1\"}", Told::Bad(FieldName::Path)),
    (
        "{\"path\":\"ns:123456789012345678\"}",
        Told::Bad(FieldName::Path),
    ),
    ("{\"path\":\"ns:1234567890123456789\"}", Told::Found),
    ("{\"path\":\"ns:\"}", Told::Found),
    ("{\"path\":\"ns:1a\"}", Told::Found),
    ("{\"path\":\"ns:1/a\"}", Told::Found),
    ("{\"path\":\"NS:1\"}", Told::Found),
];

static UPLOADS: [(&str, Told); 36] = [
    ("{\"path\":\"/a.txt\"}", Told::Uploaded),
    (
        "{\"path\":\"/a\",\"mode\":null,\"autorename\":null,\"client_modified\":null,\"strict_conflict\":null,\"content_hash\":null}",
        Told::Uploaded,
    ),
    (
        "{\"path\":\"/a\",\"mode\":\"add\",\"autorename\":false,\"mute\":7,\"strict_conflict\":false}",
        Told::Uploaded,
    ),
    (
        "{\"path\":\"/a\",\"mode\":{\".tag\":\"add\"}}",
        Told::Uploaded,
    ),
    (
        "{\"path\":\"/a\",\"mode\":{\".tag\":\"add\",\"update\":5}}",
        Told::Uploaded,
    ),
    (
        "{\"path\":\"/a\",\"client_modified\":\"2023-11-14T22:13:20Z\"}",
        Told::Uploaded,
    ),
    (
        "{\"path\":\"/a\",\"client_modified\":\"9999-12-31T23:59:59Z\"}",
        Told::Uploaded,
    ),
    (
        "{\"path\":\"/a\",\"content_hash\":\"9595c9df90075148eb06860365df33584b75bff782a510c6cd4883a419833d50\"}",
        Told::Uploaded,
    ),
    ("{\"path\":\"\"}", Told::Uploaded),
    ("", Told::Bad(FieldName::Path)),
    ("null", Told::Bad(FieldName::Path)),
    ("{\"mode\":7}", Told::Bad(FieldName::Path)),
    (
        "{\"path\":\"/a\",\"mode\":\"overwrite\"}",
        Told::Bad(FieldName::Mode),
    ),
    (
        "{\"path\":\"/a\",\"mode\":\"Add\"}",
        Told::Bad(FieldName::Mode),
    ),
    (
        "{\"path\":\"/a\",\"mode\":\"update\"}",
        Told::Bad(FieldName::Mode),
    ),
    (
        "{\"path\":\"/a\",\"mode\":{\"tag\":\"add\"}}",
        Told::Bad(FieldName::Mode),
    ),
    (
        "{\"path\":\"/a\",\"mode\":[\"add\"]}",
        Told::Bad(FieldName::Mode),
    ),
    (
        "{\"path\":\"/a\",\"mode\":true}",
        Told::Bad(FieldName::Mode),
    ),
    (
        "{\"path\":\"/a\",\"mode\":\"overwrite\",\"autorename\":true}",
        Told::Bad(FieldName::Mode),
    ),
    (
        "{\"path\":\"/a\",\"autorename\":true,\"client_modified\":5}",
        Told::Bad(FieldName::Autorename),
    ),
    (
        "{\"path\":\"/a\",\"client_modified\":\"2023-02-29T00:00:00Z\",\"strict_conflict\":true}",
        Told::Bad(FieldName::ClientModified),
    ),
    (
        "{\"path\":\"/a\",\"client_modified\":\"2023-11-14T22:13:20+00:00\"}",
        Told::Bad(FieldName::ClientModified),
    ),
    (
        "{\"path\":\"/a\",\"client_modified\":\"\"}",
        Told::Bad(FieldName::ClientModified),
    ),
    (
        "{\"path\":\"/a\",\"client_modified\":1700000000}",
        Told::Bad(FieldName::ClientModified),
    ),
    (
        "{\"path\":\"/a\",\"strict_conflict\":true,\"content_hash\":\"\"}",
        Told::Bad(FieldName::StrictConflict),
    ),
    (
        "{\"path\":\"/a\",\"strict_conflict\":0}",
        Told::Bad(FieldName::StrictConflict),
    ),
    (
        "{\"path\":\"/a\",\"content_hash\":\"\"}",
        Told::Bad(FieldName::ContentHash),
    ),
    (
        "{\"path\":\"/a\",\"content_hash\":\"9595C9df90075148eb06860365df33584b75bff782a510c6cd4883a419833d50\"}",
        Told::Bad(FieldName::ContentHash),
    ),
    (
        "{\"path\":\"/a\",\"content_hash\":\"9595c9df90075148eb06860365df33584b75bff782a510c6cd4883a419833d5\"}",
        Told::Bad(FieldName::ContentHash),
    ),
    (
        "{\"path\":\"/a\",\"content_hash\":\"9595c9df90075148eb06860365df33584b75bff782a510c6cd4883a419833d500\"}",
        Told::Bad(FieldName::ContentHash),
    ),
    (
        "{\"path\":\"/a\",\"content_hash\":\"9595c9df90075148eb06860365df33584b75bff782a510c6cd4883a419833d5g\"}",
        Told::Bad(FieldName::ContentHash),
    ),
    (
        "{\"path\":\"/a\",\"content_hash\":0}",
        Told::Bad(FieldName::ContentHash),
    ),
    ("{", Told::BadJson),
    ("{\"path\":\"/a\"} {}", Told::BadJson),
    ("\"/a\"", Told::Bad(FieldName::Path)),
    ("{\"path\":5}", Told::Bad(FieldName::Path)),
];

static DOWNLOADS: [(&str, Told); 5] = [
    ("{\"path\":\"rev:0000000000000001\"}", Told::Loaded),
    ("{\"path\":\"\"}", Told::Loaded),
    ("{\"path\":\"ns:1\",\"rev\":null}", Told::Loaded),
    ("", Told::Bad(FieldName::Path)),
    ("{\"path\":[]}", Told::Bad(FieldName::Path)),
];

/// The first text that comes to something else, if there is one.
fn first_untold(
    alloc: Global,
    route: Route,
    cases: &[(&'static str, Told)],
) -> Option<&'static str> {
    for (text, want) in cases {
        if outcome_of(alloc, route, text.as_bytes()) != *want {
            return Some(*text);
        }
    }
    None
}

#[test]
fn an_argument_makes_a_request_or_names_its_first_bad_field(rt: HostRuntime) -> Result<(), Fail> {
    assert_eq!(rt; first_untold(rt.alloc(), Route::CreateFolder, &MAKES), None);
    assert_eq!(rt; first_untold(rt.alloc(), Route::GetMetadata, &FINDS), None);
    assert_eq!(rt; first_untold(rt.alloc(), Route::Upload, &UPLOADS), None);
    assert_eq!(rt; first_untold(rt.alloc(), Route::Download, &DOWNLOADS), None);
    Ok(())
}

#[test]
fn an_argument_is_utf8(rt: HostRuntime) -> Result<(), Fail> {
    let outcome = |bytes: &[u8]| outcome_of(rt.alloc(), Route::CreateFolder, bytes);
    assert_eq!(rt; outcome(b"{\"path\":\"/\xc3\xa9\"}"), Told::Made);
    assert_eq!(rt; outcome(b"{\"path\":\"/\xc3\"}"), Told::BadJson);
    assert_eq!(rt; outcome(b"{\"path\":\"/a\"}\xff"), Told::BadJson);
    Ok(())
}

/// An argument with a field that nests this many arrays.
fn nesting(alloc: Global, arrays: usize) -> Result<String, Fail> {
    let opened = "[".repeat(alloc, arrays)?;
    let closed = "]".repeat(alloc, arrays)?;
    Ok(format!(in alloc; "{{\"path\":\"/a\",\"x\":{opened}{closed}}}")?)
}

#[test]
fn an_argument_has_127_levels_at_most(rt: HostRuntime) -> Result<(), Fail> {
    let deepest = nesting(rt.alloc(), 126)?;
    assert_eq!(rt;
        outcome_of(rt.alloc(), Route::CreateFolder, deepest.as_bytes()),
        Told::Made
    );
    let deeper = nesting(rt.alloc(), 127)?;
    assert_eq!(rt;
        outcome_of(rt.alloc(), Route::CreateFolder, deeper.as_bytes()),
        Told::BadJson
    );
    Ok(())
}

#[test]
fn a_request_has_the_values_of_its_fields(rt: HostRuntime) -> Result<(), Fail> {
    let Ok(Request::CreateFolder { path, autorename }) = read(
        rt.alloc(),
        Route::CreateFolder,
        b"{\"path\":\"/Caf\\u00e9\\n\"}",
    ) else {
        return Err("no request".into());
    };
    assert_eq!(rt; path.as_str(), "/Caf\u{e9}\n");
    assert!(rt; !autorename);
    Ok(())
}

#[test]
fn an_upload_has_its_moment_and_its_hash(rt: HostRuntime) -> Result<(), Fail> {
    let Ok(
        Request::Upload {
            commit,
            content_hash,
        },
    ) = read(
        rt.alloc(),
        Route::Upload,
        b"{\"path\":\"/a.txt\",\"client_modified\":\"2000-02-29T00:00:01Z\",\"content_hash\":\"000102030405060708090a0b0c0d0e0f101112131415161718191a1b1c1d1eff\"}",
    )
    else {
        return Err("no request".into());
    };
    let is_at = commit.path.as_str() == "/a.txt" && commit.client == Some(951_782_401);
    let is_plain = commit.mode == Mode::Add && !commit.rename && !commit.strict;
    let ends = content_hash.map(|hash| (hash.bytes[0], hash.bytes[30], hash.bytes[31]));
    assert!(rt; is_at && is_plain && ends == Some((0, 30, 255)));
    Ok(())
}

#[test]
fn a_complaint_names_the_function_and_the_fault(rt: HostRuntime) -> Result<(), Fail> {
    let cases = [
        (
            ArgumentFault::BadJson,
            "Error in call to API function \"files/get_metadata\": bad json",
        ),
        (
            ArgumentFault::BadField {
                name: FieldName::IncludeDeleted,
            },
            "Error in call to API function \"files/get_metadata\": bad field include_deleted",
        ),
        (
            ArgumentFault::MissingHeader,
            "Error in call to API function \"files/get_metadata\": missing header Dropbox-API-Arg",
        ),
    ];
    for (fault, want) in cases {
        let text = complaint(rt.alloc(), Route::GetMetadata, fault)
            .ok()
            .ok_or("out of memory")?;
        assert_eq!(rt; text.as_slice(), want.as_bytes());
    }
    Ok(())
}
