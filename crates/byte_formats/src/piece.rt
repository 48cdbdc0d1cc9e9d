ghost use Rattle.std.specs.Prelude.{◌≡◌, ◌↔◌, ◌<◌, ◌≤◌, ◌++◌, ⊤, false, IsTrue, IsErrOf, OnOk, length};
ghost use Rattle.byte_formats.specs.Fields.{IsBytes, octets};
ghost use Rattle.byte_formats.specs.Formats.{byte_where_at};
ghost use Rattle.byte_formats.specs.Given.{Gives};
ghost use Rattle.byte_formats.specs.Pieces.{digest_format, least_behind, most_behind, piece_format, piece_len};
ghost use Rattle.byte_formats.specs.Texts.{between};
ghost use Rattle.fh_model.specs.declared.limits.TheConstants.{BLOCK_BYTES};

use crate::{Field, Stop};
use fh_model::{BLOCK_BYTES, Bytes32, NoMemory, Piece};
use std::alloc::Global;

/// Takes a byte of the range.
fn byte_in(bytes: &[u8], least: u8, most: u8) -> Result<(u8, &[u8]), Stop>
    ensures given { Gives (λ x. (x.0, x.1.now)) result (byte_where_at (between least most) bytes.now) }
    ensures memory { IsErrOf result Stop.NoMemory → ⊥ }
{
    match bytes {
        [] => Err(Stop::Bad(0)),
        [byte, rest @ ..] => {
            if least <= *byte && *byte <= most {
                Ok((*byte, rest))
            } else {
                Err(Stop::Bad(bytes.len()))
            }
        }
    }
}

/// The second byte of `BLOCK_BYTES`, behind which no other byte may be over 0.
const SECOND_MOST: u8 = 0x40;

/// The most that a byte may be behind the second one.
fn most_behind(second: u8) -> u8
    ensures { result ≡ most_behind second }
{
    if second == SECOND_MOST { 0 } else { 255 }
}

/// The least that the last byte may be: a length is not 0.
fn least_behind(second: u8, third: u8) -> u8
    ensures { result ≡ least_behind second third }
{
    if second == 0 && third == 0 { 1 } else { 0 }
}

/// Takes the length of a piece: a number from 1 to `BLOCK_BYTES`.
#[tactic(auto, unfolding(crate::specs::Pieces::piece_len))]
fn len_at(bytes: &[u8]) -> Result<(u32, &[u8]), Stop>
    ensures given { Gives (λ x. (x.0, x.1.now)) result (piece_len.read bytes.now) }
    ensures memory { IsErrOf result Stop.NoMemory → ⊥ }
{
    let (first, rest) = byte_in(bytes, 0, 0)?;
    let (second, rest) = byte_in(rest, 0, SECOND_MOST)?;
    let (third, rest) = byte_in(rest, 0, most_behind(second))?;
    let (last, rest) = byte_in(rest, least_behind(second, third), most_behind(second))?;
    Ok((u32::from_be_bytes([first, second, third, last]), rest))
}

/// Puts the length of a piece at the end.
#[tactic(auto, unfolding(crate::specs::Pieces::piece_len))]
fn put_len(out: &mut Vec<u8>, len: u32) -> Result<(), NoMemory>
    ensures { OnOk result (out.new.items ≡ out.old.items ++ piece_len.spell len) }
{
    len.put(out)
}

fn are_octets(bytes: &[u8]) -> bool
    ensures len { IsTrue result ↔ (length bytes.now ≡ 32) }
    ensures octets { IsBytes bytes.now }
{
    bytes.len() == 32
}

/// Whether there are 32 bytes, as there always are.
fn are_digest(bytes: &[u8; 32]) -> bool
    ensures always { IsTrue result }
    ensures fit { (octets 32).fits bytes.now }
{
    are_octets(bytes)
}

impl Field for Bytes32 {
    ghost spells = { digest_format.spell };

    ghost fits = { digest_format.fits };

    ghost reads = { digest_format.read };

    ghost is_short = { λ _. ⊤ };

    ghost asks_memory = { false };

    fn read(_alloc: Global, bytes: &[u8]) -> Result<(Bytes32, &[u8]), Stop> {
        if bytes.len() < 32 {
            return Err(Stop::Bad(0));
        }
        let (front, rest) = bytes.split_at(32);
        let mut digest = [0; 32];
        digest.copy_from_slice(front);
        Ok((Bytes32 { bytes: digest }, rest))
    }

    fn put(&self, out: &mut Vec<u8>) -> Result<(), NoMemory> {
        out.extend_from_slice(&self.bytes)?;
        Ok(())
    }

    fn has_spelling(&self) -> bool {
        are_digest(&self.bytes)
    }
}

impl Field for Piece {
    ghost spells = { piece_format.spell };

    ghost fits = { piece_format.fits };

    ghost reads = { piece_format.read };

    ghost is_short = { λ piece. (0 < piece.len) × (piece.len ≤ BLOCK_BYTES) };

    ghost asks_memory = { false };

    #[tactic(auto, unfolding(crate::specs::Pieces::piece_format))]
    fn read(alloc: Global, bytes: &[u8]) -> Result<(Piece, &[u8]), Stop> {
        let (place, rest) = u64::read(alloc, bytes)?;
        let (len, rest) = len_at(rest)?;
        let (digest, rest) = Bytes32::read(alloc, rest)?;
        Ok((Piece { place, len, digest }, rest))
    }

    #[tactic(auto, unfolding(crate::specs::Pieces::piece_format))]
    fn put(&self, out: &mut Vec<u8>) -> Result<(), NoMemory> {
        self.place.put(out)?;
        put_len(out, self.len)?;
        self.digest.put(out)
    }

    #[tactic(auto, unfolding(crate::specs::Pieces::piece_format), using(crate::proofs::PieceLaws::len_fits))]
    fn has_spelling(&self) -> bool {
        self.place.has_spelling()
            && 0 < self.len
            && self.len as usize <= BLOCK_BYTES
            && self.digest.has_spelling()
    }
}
