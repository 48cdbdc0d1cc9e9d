//! The data of a command.
ghost use Rattle.std.specs.Prelude.{◌≡◌, ◌++◌, ◌+◌, ◌<◌, ◌^◌, ◌≤◌, ℕ, List, length, max, take, IsTrue, IfErr, IfSome, OnOk};
ghost use Rattle.std.specs.Option.{option_to_list};
ghost use Rattle.cmd_codec.specs.Commands.{HasSpelling, IsBlock};
ghost use Rattle.fh_model.specs.Content.{IsDigestOf};
ghost use Rattle.fh_model.specs.Pieces.{data_of, named_in, piece_of, with_piece};
ghost use Rattle.fh_world.specs.Causes.{HasCause, CountsOnce};
ghost use Rattle.fh_world.specs.Disk.{LeavesOnly, LeavesTorn, Writes};
ghost use Rattle.fh_world.specs.declared.FileNo.TheVariants.{Blocks};
ghost use Rattle.sha2.specs.Sha256.{sha256};
ghost use Rattle.store_core.specs.Store.{HoldsBlocks};

use crate::CommitFault;
use block_file::{PutFault, put_hashed};
use fh_model::{Act, BLOCK_BYTES, Bytes32, Cmd, Piece};
use fh_world::{Disk, ROOM_BYTES};
use sha2::{Digest, Sha256};

/// The digest of the bytes, which is taken where it isn't known.
fn digest_of(bytes: &[u8], known: Option<Bytes32>) -> Bytes32
    requires { IsDigestOf bytes.now known }
    ensures { result.bytes ≡ sha256 bytes.now }
{
    match known {
        Some(digest) => digest,
        None => Bytes32 {
            bytes: Sha256::digest(bytes),
        },
    }
}

/// The piece of the bytes at a place, none where there are none.
pub(crate) fn piece_of(place: u64, bytes: &[u8], digest: Option<Bytes32>) -> Option<Piece>
    requires few { length bytes.now ≤ BLOCK_BYTES }
    requires digest { IsDigestOf bytes.now digest }
    ensures piece { result ≡ piece_of place bytes.now }
    ensures block { IfSome result IsBlock }
{
    match bytes {
        [] => None,
        [_, ..] => Some(Piece {
            place,
            len: bytes.len() as u32,
            digest: digest_of(bytes, digest),
        }),
    }
}

/// The command with its data at a place, whatever it named before, and the piece of its data.
pub(crate) fn placed(
    cmd: Cmd,
    place: u64,
    bytes: &[u8],
    digest: Option<Bytes32>,
) -> (Cmd, Option<Piece>)
    requires few { length bytes.now ≤ BLOCK_BYTES }
    requires digest { IsDigestOf bytes.now digest }
    ensures cmd { result.0 ≡ record cmd { act = with_piece (piece_of place bytes.now) cmd.act } }
    ensures piece { result.1 ≡ piece_of place (data_of cmd.act bytes.now) }
    ensures named { named_in result.0.act ≡ option_to_list result.1 }
    ensures spelled { HasSpelling cmd → HasSpelling result.0 }
{
    let Cmd { seat, at, act } = cmd;
    match act {
        Act::MakeFolder { user, path, rename } => {
            let act = Act::MakeFolder { user, path, rename };
            (Cmd { seat, at, act }, None)
        }
        Act::Upload {
            user,
            commit,
            drafted,
            ..
        } => {
            let last = piece_of(place, bytes, digest);
            let act = Act::Upload {
                user,
                commit,
                drafted,
                last,
            };
            (Cmd { seat, at, act }, last)
        }
    }
}

/// Puts the data behind the pieces of the state, where there is any. A fault leaves what stands in front of it.
pub(crate) fn put<D: Disk>(
    disk: &mut D,
    end: u64,
    piece: &Option<Piece>,
    content: &[u8],
) -> Result<(), CommitFault>
    requires piece { piece.now ≡ piece_of end content.now }
    requires few { length content.now ≤ BLOCK_BYTES }
    requires within { IsTrue D.tells → end ≤ length (D.seen disk.old Blocks) }
    ensures limit { OnOk result (0 < length content.now → end + length content.now ≤ 2 ^ 62) }
    ensures held { OnOk result (0 < length content.now → IsTrue D.tells → HoldsBlocks D.Disk disk.new (end + length content.now) (end + length content.now)) }
    ensures bytes { OnOk result (IsTrue D.tells → take (end + length content.now) (D.seen disk.new Blocks) ≡ take end (D.seen disk.old Blocks) ++ content.now) }
    ensures writes { IsTrue D.tells → Writes Blocks end (max (length content.now) ROOM_BYTES) (D.seen disk.old) (D.seen disk.new) (D.may_leave disk.old) (D.may_leave disk.new) }
    ensures any_moment { IsTrue D.tells → LeavesOnly D.moment D.left_since disk.old disk.new (LeavesTorn Blocks end (max (length content.now) ROOM_BYTES) (D.may_leave disk.old)) }
    ensures place { D.place disk.new ≡ D.place disk.old }
    ensures cause { HasCause (D.faults disk.old) (D.faults disk.new) result }
    ensures once { CountsOnce (D.faults disk.old) (D.faults disk.new) result }
    ensures disk { IfErr result (λ fault. fault ≡ CommitFault.Disk) }
{
    let Some(piece) = piece else {
        return Ok(());
    };
    match put_hashed(disk, end, content, piece.digest) {
        Ok(_) => Ok(()),
        Err(PutFault::Disk) => Err(CommitFault::Disk),
    }
}
