ghost use Rattle.std.specs.Prelude.{◌<◌};

use byte_formats::CodecFault;
use cmd_codec::{decode, encode};
use fh_model::{Act, Bytes32, Cmd, Commit, Mode, Piece, Text};
use std::test::*;

/// User 1 makes `/Docs` at seat 1 and at the second 1,700,000,000, without a vacant name.
const DOCS: [u8; 35] = [
    1, 0, 0, 0, 0, 0, 0, 0, 1, 0, 0, 0, 0, 0x65, 0x53, 0xF1, 0, 0, 0, 0, 0, 0, 0, 0, 1, 0, 0, 0, 5,
    0x2F, 0x44, 0x6F, 0x63, 0x73, 0,
];

#[test]
#[tactic(auto, unfolding(cmd_codec::specs::Commands::command, cmd_codec::specs::Commands::make_folder))]
fn a_command_is_written(rt: HostRuntime) -> Result<(), Fail> {
    let path = Text::new(String::from_str(rt.alloc(), "/Docs")?);
    let act = Act::MakeFolder {
        user: 1,
        path,
        rename: false,
    };
    let cmd = Cmd {
        seat: 1,
        at: 1_700_000_000,
        act,
    };
    let body = encode(rt.alloc(), &cmd).ok().ok_or("out of memory")?;
    assert!(rt; body.as_slice() == DOCS.as_slice());
    Ok(())
}

#[test]
fn a_command_is_read(rt: HostRuntime) -> Result<(), Fail> {
    let read = decode(rt.alloc(), &DOCS)
        .ok()
        .ok_or("the body spells a command")?;
    let is_docs = match &read.act {
        Act::MakeFolder { user, path, rename } => {
            *user == 1 && path.as_str() == "/Docs" && !*rename
        }
        Act::Upload { .. } => false,
    };
    assert!(rt; is_docs && read.seat == 1 && read.at == 1_700_000_000);
    Ok(())
}

/// Whether the bytes are no command, and this is the first place that says so.
fn is_bad_at(rt: HostRuntime, bytes: &[u8], place: usize) -> bool {
    decode(rt.alloc(), bytes).err() == Some(CodecFault::Bad { place })
}

/// The bytes of `DOCS` with one of them changed.
fn with_byte(place: usize, byte: u8) -> [u8; 35]
    requires { place < 35 }
{
    let mut body = DOCS;
    body[place] = byte;
    body
}

#[test]
fn the_first_bad_byte_is_named(rt: HostRuntime) -> Result<(), Fail> {
    let cases = [
        // An act of no kind.
        (0, 0, 0),
        (0, 17, 0),
        (0, 129, 0),
        // A moment whose fourth byte is over the limit's.
        (12, 59, 12),
        // A path of more bytes than there are.
        (28, 7, 35),
        // A path of one byte less, whose last byte stands for the truth value.
        (28, 4, 33),
        // A path that ends in the middle of a character, and one that is no UTF-8.
        (33, 0xC3, 33),
        (30, 0x80, 30),
        // A truth value that is neither.
        (34, 2, 34),
    ];
    for (place, byte, bad) in cases {
        let is_bad = is_bad_at(rt, &with_byte(place, byte), bad);
        assert!(rt; is_bad, "byte {byte} at {place}");
    }
    Ok(())
}

#[test]
fn a_cut_body_is_bad_at_its_end(rt: HostRuntime) {
    for len in 0..DOCS.len() {
        assert!(rt; is_bad_at(rt, &DOCS[..len], len), "{len} bytes");
    }
}

#[test]
fn a_longer_body_is_bad_behind_the_command(rt: HostRuntime) -> Result<(), Fail> {
    let mut longer = Vec::from_slice(rt.alloc(), &DOCS)?;
    longer.push(0)?;
    assert!(rt; is_bad_at(rt, &longer, 35));
    Ok(())
}

/// `DOCS` at another second.
fn docs_at(second: u64) -> [u8; 35] {
    let mut body = DOCS;
    body[9..17].copy_from_slice(&second.to_be_bytes());
    body
}

#[test]
fn the_last_second_is_a_moment(rt: HostRuntime) -> Result<(), Fail> {
    let read = decode(rt.alloc(), &docs_at(253_402_300_799))
        .ok()
        .ok_or("the last second is a moment")?;
    assert!(rt; read.at == 253_402_300_799);
    assert!(rt; is_bad_at(rt, &docs_at(253_402_300_800), 16));
    Ok(())
}

/// User 1 uploads 5 bytes, which stand at the start of the block file, to `/a` at seat 1 and at the second
/// 1,700,000,000.
const UPLOAD: [u8; 84] = [
    2, 0, 0, 0, 0, 0, 0, 0, 1, 0, 0, 0, 0, 0x65, 0x53, 0xF1, 0, 0, 0, 0, 0, 0, 0, 0, 1, 0, 0, 0, 2,
    0x2F, 0x61, 0, 0, 0, 0, 0, 0, 0, 0, 1, 0, 0, 0, 0, 0, 0, 0, 0, 0, 0, 0, 5, 9, 9, 9, 9, 9, 9, 9,
    9, 9, 9, 9, 9, 9, 9, 9, 9, 9, 9, 9, 9, 9, 9, 9, 9, 9, 9, 9, 9, 9, 9, 9, 9,
];

/// The piece that `UPLOAD` names.
const LAST: Piece = Piece {
    place: 0,
    len: 5,
    digest: Bytes32 { bytes: [9; 32] },
};

/// The bytes of `UPLOAD` with one of them changed.
fn upload_with(place: usize, byte: u8) -> [u8; 84]
    requires { place < 84 }
{
    let mut body = UPLOAD;
    body[place] = byte;
    body
}

#[test]
#[tactic(auto, unfolding(cmd_codec::specs::Commands::command, cmd_codec::specs::Commands::upload))]
fn an_upload_is_written(rt: HostRuntime) -> Result<(), Fail> {
    let commit = Commit {
        path: Text::new(String::from_str(rt.alloc(), "/a")?),
        mode: Mode::Add,
        rename: false,
        strict: false,
        client: None,
    };
    let act = Act::Upload {
        user: 1,
        commit,
        drafted: 0,
        last: Some(LAST),
    };
    let cmd = Cmd {
        seat: 1,
        at: 1_700_000_000,
        act,
    };
    let body = encode(rt.alloc(), &cmd).ok().ok_or("out of memory")?;
    assert!(rt; body.as_slice() == UPLOAD.as_slice());
    Ok(())
}

#[test]
fn an_upload_is_read(rt: HostRuntime) -> Result<(), Fail> {
    let read = decode(rt.alloc(), &UPLOAD)
        .ok()
        .ok_or("the body spells a command")?;
    let is_upload = match &read.act {
        Act::MakeFolder { .. } => false,
        Act::Upload { commit, last, .. } => commit.path.as_str() == "/a" && *last == Some(LAST),
    };
    assert!(rt; is_upload);
    Ok(())
}

#[test]
fn the_first_bad_byte_of_an_upload_is_named(rt: HostRuntime) -> Result<(), Fail> {
    let cases = [
        // A mode that is none of the three.
        (31, 3, 31),
        // Truth values that are neither.
        (32, 2, 32),
        (33, 2, 33),
        // A client's moment, and a piece, that are neither there nor absent.
        (34, 2, 34),
        (39, 2, 39),
        // A piece of more than a block, by each byte that can say so.
        (48, 1, 48),
        (49, 0x41, 49),
        (49, 0x40, 51),
        // A piece of no bytes.
        (51, 0, 51),
    ];
    for (place, byte, bad) in cases {
        let is_bad = is_bad_at(rt, &upload_with(place, byte), bad);
        assert!(rt; is_bad, "byte {byte} at {place}");
    }
    Ok(())
}

#[test]
fn a_piece_may_be_a_whole_block(rt: HostRuntime) -> Result<(), Fail> {
    let mut body = upload_with(49, 0x40);
    body[51] = 0;
    assert!(rt; decode(rt.alloc(), &body).is_ok());
    Ok(())
}
