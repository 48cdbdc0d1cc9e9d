use block_file::{PutFault, get, put, put_hashed};
use fh_model::{BLOCK_BYTES, Bytes32, Piece};
use fh_world::{Disk, Failed, FileDisk, FileNo, FuseDisk, MemDisk};
use std::alloc::Global;
use std::fs;
use std::test::*;

/// A digest as 64 hex digits.
fn spelled(alloc: Global, digest: &Bytes32) -> Result<String, Fail> {
    let mut text = String::new(alloc);
    for byte in &digest.bytes {
        write!(text, "{byte:02x}")?;
    }
    Ok(text)
}

/// The bytes of a piece, or none where it doesn't lie in the file.
fn bytes_of(alloc: Global, disk: &mut MemDisk, piece: &Piece) -> Result<Option<Vec<u8>>, Fail> {
    let Some(end) = piece.place.checked_add(u64::from(piece.len)) else {
        return Ok(None);
    };
    if (disk.bytes(FileNo::Blocks).len() as u64) < end {
        return Ok(None);
    }
    let mut buf = vec![in alloc; 0u8; piece.len as usize]?;
    get(disk, piece, &mut buf)?;
    Ok(Some(buf))
}

/// Whether the piece has these bytes.
fn has(alloc: Global, disk: &mut MemDisk, piece: &Piece, want: &[u8]) -> Result<bool, Fail> {
    match bytes_of(alloc, disk, piece)? {
        None => Ok(false),
        Some(bytes) => Ok(bytes.as_slice() == want),
    }
}

/// Whether a piece has this digest.
fn has_digest(alloc: Global, piece: &Piece, want: &str) -> Result<bool, Fail> {
    let digits = spelled(alloc, &piece.digest)?;
    Ok(digits.as_str() == want)
}

/// Whether the bytes are put behind the last ones as a piece with this digest, and read again. It fails where they are not
/// the bytes of a piece.
fn is_put(alloc: Global, disk: &mut MemDisk, bytes: &[u8], want: &str) -> Result<bool, Fail> {
    if bytes.is_empty() || bytes.len() > BLOCK_BYTES {
        return Err("no bytes of a block".into());
    }
    let end = disk.bytes(FileNo::Blocks).len() as u64;
    let piece = put(disk, end, bytes)?;
    let is_behind = piece.place == end && piece.len as usize == bytes.len();
    Ok(is_behind && has_digest(alloc, &piece, want)? && has(alloc, disk, &piece, bytes)?)
}

/// Whether two short pieces are put one behind the other.
fn are_put(alloc: Global, disk: &mut MemDisk) -> Result<bool, Fail> {
    let first = is_put(
        alloc,
        disk,
        b"hello",
        "2cf24dba5fb0a30e26e83b2ac5b9e29e1b161e5c1fa7425e73043362938b9824",
    )?;
    let second = is_put(
        alloc,
        disk,
        b"a longer piece",
        "2ae797d582676cd11e76b1c6d64c1033c473aae391ef52ba125da5ef9d16bfd7",
    )?;
    Ok(first && second)
}

/// Whether a block of zeros is put behind them.
fn are_zeros_put(alloc: Global, disk: &mut MemDisk) -> Result<bool, Fail> {
    let zeros = vec![in alloc; 0u8; BLOCK_BYTES]?;
    is_put(
        alloc,
        disk,
        &zeros,
        "bb9f8df61474d25e71fa00722318cd387396ca1736605e1248821cc0de3d3af8",
    )
}

#[test]
fn pieces_stand_one_behind_another(rt: HostRuntime) -> Result<(), Fail> {
    let mut disk = MemDisk::new(rt.alloc())?;
    assert!(rt; are_put(rt.alloc(), &mut disk)? && are_zeros_put(rt.alloc(), &mut disk)?);
    let blocks = disk.bytes(FileNo::Blocks);
    assert!(rt; blocks.starts_with(b"helloa longer piece\0") && blocks.ends_with(b"\0\0"));
    assert!(rt; disk.bytes(FileNo::Head).is_empty() && disk.bytes(FileNo::SlotA).is_empty());
    Ok(())
}

/// Whether a piece has these bytes after a crash by this choice.
fn is_left(
    alloc: Global,
    disk: &MemDisk,
    choice: u64,
    piece: &Piece,
    bytes: &[u8],
) -> Result<bool, Fail> {
    let mut image = disk.crashed(choice)?;
    has(alloc, &mut image, piece, bytes)
}

/// The first choice by which a crash leaves other bytes in a piece, if there is one.
fn first_loss(
    alloc: Global,
    disk: &MemDisk,
    piece: &Piece,
    bytes: &[u8],
) -> Result<Option<u64>, Fail> {
    for choice in 0..64 {
        if !is_left(alloc, disk, choice, piece, bytes)? {
            return Ok(Some(choice));
        }
    }
    Ok(None)
}

/// The bytes of two pieces, one behind the other.
type Pair<'a> = (&'a [u8], &'a [u8]);

/// The first of the pieces, the second where it was put, and what the disk holds, where it stops after so many calls. It
/// fails where the bytes are not those of pieces.
fn stopped(
    alloc: Global,
    calls: u64,
    pair: &Pair,
) -> Result<(Piece, Option<Piece>, MemDisk), Fail> {
    let (below, above) = *pair;
    if below.is_empty() || above.is_empty() || below.len().max(above.len()) > BLOCK_BYTES {
        return Err("no bytes of a piece".into());
    }
    let mut fuse = FuseDisk::new(MemDisk::new(alloc)?, calls);
    let first = put(&mut fuse, 0, below)?;
    let second = put(&mut fuse, below.len() as u64, above).ok();
    Ok((first, second, fuse.into_inner()))
}

/// Whether each crash of the disk leaves the bytes of the pieces that were put.
fn are_left(
    alloc: Global,
    disk: &MemDisk,
    first: &Piece,
    second: &Option<Piece>,
    pair: &Pair,
) -> Result<bool, Fail> {
    let below = first_loss(alloc, disk, first, pair.0)?;
    let above = match second {
        Some(piece) => first_loss(alloc, disk, piece, pair.1)?,
        None => None,
    };
    Ok(below.is_none() && above.is_none())
}

/// How long the block file is where the disk stops after so many calls. It fails where the second piece is put though it
/// isn't to be, or the other way round, and where a crash leaves other bytes of a piece that was put.
fn length_after(alloc: Global, calls: u64, pair: &Pair, is_put: bool) -> Result<usize, Fail> {
    let (first, second, disk) = stopped(alloc, calls, pair)?;
    if second.is_some() != is_put || !are_left(alloc, &disk, &first, &second, pair)? {
        return Err("a piece is lost".into());
    }
    Ok(disk.bytes(FileNo::Blocks).len())
}

#[test]
fn a_stop_at_any_call_keeps_the_pieces_below(rt: HostRuntime) -> Result<(), Fail> {
    let pair = (b"first".as_slice(), b"the second piece".as_slice());
    for calls in 2..6 {
        length_after(rt.alloc(), calls, &pair, calls >= 4)?;
    }
    Ok(())
}

#[test]
fn pieces_of_a_file_that_is_extended_are_kept(rt: HostRuntime) -> Result<(), Fail> {
    let long = [7u8; 600];
    let pair = (long.as_slice(), b"second".as_slice());
    for calls in 3..6 {
        let len = length_after(rt.alloc(), calls, &pair, calls >= 5)?;
        assert!(rt; len == 65_536, "after {calls} calls");
    }
    Ok(())
}

/// Whether the fault of a call with this number is told, and made good by one more try.
fn is_made_good(alloc: Global, number: u64) -> Result<bool, Fail> {
    let mut disk = MemDisk::new(alloc)?;
    disk.fail_calls(&[number])?;
    let is_told = put(&mut disk, 0, b"bytes").err() == Some(PutFault::Disk);
    let piece = put(&mut disk, 0, b"bytes")?;
    Ok(is_told && has(alloc, &mut disk, &piece, b"bytes")?)
}

/// Whether the fault of the call that reads a piece is told.
fn is_read_fault_told(alloc: Global) -> Result<bool, Fail> {
    let mut disk = MemDisk::new(alloc)?;
    disk.fail_calls(&[3])?;
    let piece = put(&mut disk, 0, b"bytes")?;
    let mut buf = [0u8; 5];
    Ok(get(&mut disk, &piece, &mut buf).is_err())
}

#[test]
fn a_fault_is_made_good_by_one_more_try(rt: HostRuntime) -> Result<(), Fail> {
    let alloc = rt.alloc();
    for number in 1..3 {
        assert!(rt; is_made_good(alloc, number)?, "call {number}");
    }
    assert!(rt; is_read_fault_told(alloc)?);
    Ok(())
}

/// Two pieces of the same bytes in the folder, the second by the digest of the first.
fn put_twice(rt: HostRuntime, folder: &str) -> Result<(Piece, Piece), PutFault> {
    let mut disk = FileDisk::open(&rt, folder);
    let first = put(&mut disk, 0, b"first")?;
    let again = put_hashed(&mut disk, 5, b"first", first.digest)?;
    Ok((first, again))
}

/// Whether the piece in the folder has these bytes.
fn is_first(rt: HostRuntime, folder: &str, piece: &Piece) -> Result<bool, Failed> {
    if piece.len != 5 {
        return Ok(false);
    }
    let mut disk = FileDisk::open(&rt, folder);
    let mut buf = [0u8; 5];
    get(&mut disk, piece, &mut buf)?;
    Ok(buf == *b"first")
}

#[test]
fn a_piece_in_a_folder_is_read_again(rt: HostRuntime) -> Result<(), Fail> {
    fs::create_dir(&rt, "pieces")?;
    let (first, again) = put_twice(rt, "pieces")?;
    let is_first = is_first(rt, "pieces", &again)?;
    assert!(rt; is_first && again.place == 5 && again.digest == first.digest);
    Ok(())
}
