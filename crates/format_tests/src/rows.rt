use byte_formats::CodecFault;
use fh_model::{Members, Row, Text};
use state_rows::{decode_row, encode_row};
use std::test::*;

/// The next numbers 1 to 5 and the second 1,700,000,000.
const COUNTERS: [u8; 49] = [
    128, 0, 0, 0, 0, 0, 0, 0, 1, 0, 0, 0, 0, 0, 0, 0, 2, 0, 0, 0, 0, 0, 0, 0, 3, 0, 0, 0, 0, 0, 0,
    0, 4, 0, 0, 0, 0, 0, 0, 0, 5, 0, 0, 0, 0, 0x65, 0x53, 0xF1, 0,
];

/// User 2, whose home is namespace 7, with the token `tok-0002`.
const USER: [u8; 30] = [
    129, 0, 0, 0, 0, 0, 0, 0, 2, 0, 0, 0, 0, 0, 0, 0, 7, 1, 0, 0, 0, 8, 0x74, 0x6F, 0x6B, 0x2D,
    0x30, 0x30, 0x30, 0x32,
];

/// User 1, whose home is namespace 1, without a token.
const FIRST_USER: [u8; 18] = [129, 0, 0, 0, 0, 0, 0, 0, 1, 0, 0, 0, 0, 0, 0, 0, 1, 0];

/// The shared namespace 3 with the changes from 4 to 260, and its members 2 and 1.
const NAMESPACE: [u8; 46] = [
    130, 0, 0, 0, 0, 0, 0, 0, 3, 1, 0, 0, 0, 0, 0, 0, 0, 4, 0, 0, 0, 0, 0, 0, 1, 4, 0, 0, 0, 2, 0,
    0, 0, 0, 0, 0, 0, 2, 0, 0, 0, 0, 0, 0, 0, 1,
];

fn read(rt: HostRuntime, bytes: &[u8]) -> Result<Row, Fail> {
    Ok(
        decode_row(rt.alloc(), bytes)
            .ok()
            .ok_or("the bytes spell a row")?,
    )
}

#[test]
#[tactic(auto, unfolding(state_rows::specs::Rows::checkpoint_row, state_rows::specs::Rows::counters_row, state_rows::specs::Rows::next_numbers))]
fn counters_are_written(rt: HostRuntime) -> Result<(), Fail> {
    let row = Row::Counters {
        rev: 1,
        id: 2,
        session: 3,
        user: 4,
        namespace: 5,
        moment: 1_700_000_000,
    };
    let body = encode_row(rt.alloc(), &row).ok().ok_or("out of memory")?;
    assert!(rt; body.as_slice() == COUNTERS.as_slice());
    Ok(())
}

#[test]
fn counters_are_read(rt: HostRuntime) -> Result<(), Fail> {
    let is_read = match &read(rt, &COUNTERS)? {
        Row::Counters {
            rev,
            id,
            session,
            user,
            namespace,
            moment,
        } => {
            [*rev, *id, *session, *user, *namespace] == [1, 2, 3, 4, 5] && *moment == 1_700_000_000
        }
        _ => false,
    };
    assert!(rt; is_read);
    Ok(())
}

#[test]
#[tactic(auto, unfolding(state_rows::specs::Rows::checkpoint_row, state_rows::specs::Rows::user_row))]
fn a_user_is_written(rt: HostRuntime) -> Result<(), Fail> {
    let token = Text::new(String::from_str(rt.alloc(), "tok-0002")?);
    let row = Row::User {
        number: 2,
        home: 7,
        token: Some(token),
    };
    let body = encode_row(rt.alloc(), &row).ok().ok_or("out of memory")?;
    assert!(rt; body.as_slice() == USER.as_slice());
    Ok(())
}

/// Whether the bytes spell a user of this number with this home and this token.
fn is_user(
    rt: HostRuntime,
    bytes: &[u8],
    want: (u64, u64),
    word: Option<&str>,
) -> Result<bool, Fail> {
    match &read(rt, bytes)? {
        Row::User {
            number,
            home,
            token,
        } => Ok((*number, *home) == want && token.as_ref().map(|token| token.as_str()) == word),
        _ => Ok(false),
    }
}

#[test]
fn users_are_read(rt: HostRuntime) -> Result<(), Fail> {
    let with = is_user(rt, &USER, (2, 7), Some("tok-0002"))?;
    let without = is_user(rt, &FIRST_USER, (1, 1), None)?;
    assert!(rt; with && without);
    Ok(())
}

#[test]
#[tactic(auto, unfolding(state_rows::specs::Rows::checkpoint_row, state_rows::specs::Rows::namespace_row))]
fn a_namespace_is_written(rt: HostRuntime) -> Result<(), Fail> {
    let mut members = Members::empty(rt.alloc());
    members.push(2).ok().ok_or("out of memory")?;
    members.push(1).ok().ok_or("out of memory")?;
    let row = Row::Namespace {
        number: 3,
        shared: true,
        floor: 4,
        length: 260,
        members,
    };
    let body = encode_row(rt.alloc(), &row).ok().ok_or("out of memory")?;
    assert!(rt; body.as_slice() == NAMESPACE.as_slice());
    Ok(())
}

#[test]
fn a_namespace_is_read(rt: HostRuntime) -> Result<(), Fail> {
    let is_read = match &read(rt, &NAMESPACE)? {
        Row::Namespace {
            number,
            shared,
            floor,
            length,
            members,
        } => {
            (*number, *shared, *floor, *length) == (3, true, 4, 260)
                && members.as_slice() == [2, 1].as_slice()
        }
        _ => false,
    };
    assert!(rt; is_read);
    Ok(())
}

/// A row, the place of a byte that is changed, what it becomes, and the first bad place.
static CHANGED: [(&[u8], usize, u8, usize); 10] = [
    (&COUNTERS, 0, 127, 0),
    (&COUNTERS, 0, 131, 0),
    (&COUNTERS, 0, 1, 0),
    (&COUNTERS, 0, 129, 18),
    (&USER, 17, 2, 17),
    (&USER, 17, 0, 18),
    (&USER, 21, 9, 30),
    (&USER, 29, 0xE2, 29),
    (&NAMESPACE, 9, 2, 9),
    (&NAMESPACE, 29, 1, 38),
];

/// The bytes with one of them changed.
fn with_byte(rt: HostRuntime, bytes: &[u8], place: usize, byte: u8) -> Result<Vec<u8>, Fail> {
    let mut body = Vec::from_slice(rt.alloc(), bytes)?;
    match body.get_mut(place) {
        Some(changed) => *changed = byte,
        None => return Err("no such byte".into()),
    }
    Ok(body)
}

/// Whether the bytes are no row, and this is the first place that says so.
fn is_bad_at(rt: HostRuntime, bytes: &[u8], place: usize) -> bool {
    decode_row(rt.alloc(), bytes).err() == Some(CodecFault::Bad { place })
}

#[test]
fn the_first_bad_byte_is_named(rt: HostRuntime) -> Result<(), Fail> {
    for (row, place, byte, bad) in &CHANGED {
        let body = with_byte(rt, row, *place, *byte)?;
        assert!(rt; is_bad_at(rt, &body, *bad), "byte {byte} at {place}");
    }
    Ok(())
}

#[test]
fn a_cut_row_is_bad_at_its_end(rt: HostRuntime) {
    for row in [
        COUNTERS.as_slice(),
        USER.as_slice(),
        FIRST_USER.as_slice(),
        NAMESPACE.as_slice(),
    ] {
        for (len, _) in row.iter().enumerate() {
            assert!(rt; is_bad_at(rt, &row[..len], len), "{len} bytes");
        }
    }
}
