ghost use Rattle.std.specs.Prelude.{◌≡◌, ◌+◌, ◌<◌, ◌^◌, ◌≤◌, ℕ, List, length, max, IsTrue, IfOk, OnOk};
ghost use Rattle.sha2.specs.Sha256.{sha256};
ghost use Rattle.fh_world.specs.Causes.{HasCause, CountsOnce};
ghost use Rattle.fh_world.specs.Disk.{Only, Rests, Writes, LeavesOnly, LeavesTorn};
ghost use Rattle.fh_world.specs.declared.FileNo.{FileNo};
ghost use Rattle.fh_world.specs.declared.FileNo.TheVariants.{Blocks};
ghost use Rattle.fh_model.specs.declared.Piece.{Piece};
ghost use Rattle.fh_model.specs.Content.{slice_of, LiesIn};
ghost use Rattle.block_file.specs.Stored.{IsPieceOf, Stored};

use fh_model::{BLOCK_BYTES, Bytes32, Piece};
use fh_world::{Disk, Failed, FileNo, ROOM_BYTES, extend_ahead, write_through};
use sha2::{Digest, Sha256};

/// A longer piece is put without room, which would be written twice for the sake of a few pieces.
const SMALL_PIECE_BYTES: usize = 8_192;

/// Why a piece wasn't put.
#[derive(Clone, Copy, Debug, PartialEq, Eq)]
pub enum PutFault {
    /// The disk failed.
    Disk,
}

impl From<Failed> for PutFault {
    fn from(_: Failed) -> Self {
        PutFault::Disk
    }
}

/// Puts 1 to `BLOCK_BYTES` bytes at `end`, which is at most the file's length in bytes, and syncs them. After `Ok`
/// the piece's bytes are read back, also after a crash. A crash at any moment of the call, and a fault, leave the file
/// from before but for what stands in the bytes' range, or in the first `ROOM_BYTES` from `end` on.
pub fn put<D: Disk>(disk: &mut D, end: u64, bytes: &[u8]) -> Result<Piece, PutFault>
    requires some { 0 < length bytes.now }
    requires few { length bytes.now ≤ BLOCK_BYTES }
    requires within { IsTrue D.tells → end ≤ length (D.seen disk.old Blocks) }
    ensures piece { IfOk result (λ piece. IsPieceOf piece end bytes.now) }
    ensures limit { OnOk result (end + length bytes.now ≤ 2 ^ 62) }
    ensures stored { IfOk result (λ piece. IsTrue D.tells → Stored D.Disk disk.new piece bytes.now) }
    ensures durable { OnOk result (Only (D.seen disk.new Blocks) (D.may_leave disk.new Blocks)) }
    // A fault changes no piece below `end` either.
    ensures below { IsTrue D.tells → (piece : Piece) (bytes : List ℕ) → piece.place + piece.len ≤ end
        → Stored D.Disk disk.old piece bytes → Stored D.Disk disk.new piece bytes }
    ensures writes { IsTrue D.tells → Writes Blocks end (max (length bytes.now) ROOM_BYTES) (D.seen disk.old) (D.seen disk.new) (D.may_leave disk.old) (D.may_leave disk.new) }
    ensures any_moment { IsTrue D.tells → LeavesOnly D.moment D.left_since disk.old disk.new (LeavesTorn Blocks end (max (length bytes.now) ROOM_BYTES) (D.may_leave disk.old)) }
    ensures place { D.place disk.new ≡ D.place disk.old }
    ensures cause { HasCause (D.faults disk.old) (D.faults disk.new) result }
    ensures once { CountsOnce (D.faults disk.old) (D.faults disk.new) result }
{
    let digest = Bytes32 {
        bytes: Sha256::digest(bytes),
    };
    put_hashed(disk, end, bytes, digest)
}

/// `put` for bytes with this digest, which are not hashed again.
pub fn put_hashed<D: Disk>(
    disk: &mut D,
    end: u64,
    bytes: &[u8],
    digest: Bytes32,
) -> Result<Piece, PutFault>
    requires some { 0 < length bytes.now }
    requires few { length bytes.now ≤ BLOCK_BYTES }
    requires within { IsTrue D.tells → end ≤ length (D.seen disk.old Blocks) }
    requires hashed { digest.bytes ≡ sha256 bytes.now }
    ensures piece { IfOk result (λ piece. IsPieceOf piece end bytes.now) }
    ensures limit { OnOk result (end + length bytes.now ≤ 2 ^ 62) }
    ensures stored { IfOk result (λ piece. IsTrue D.tells → Stored D.Disk disk.new piece bytes.now) }
    ensures durable { OnOk result (Only (D.seen disk.new Blocks) (D.may_leave disk.new Blocks)) }
    // A fault changes no piece below `end` either.
    ensures below { IsTrue D.tells → (piece : Piece) (bytes : List ℕ) → piece.place + piece.len ≤ end
        → Stored D.Disk disk.old piece bytes → Stored D.Disk disk.new piece bytes }
    ensures writes { IsTrue D.tells → Writes Blocks end (max (length bytes.now) ROOM_BYTES) (D.seen disk.old) (D.seen disk.new) (D.may_leave disk.old) (D.may_leave disk.new) }
    ensures any_moment { IsTrue D.tells → LeavesOnly D.moment D.left_since disk.old disk.new (LeavesTorn Blocks end (max (length bytes.now) ROOM_BYTES) (D.may_leave disk.old)) }
    ensures place { D.place disk.new ≡ D.place disk.old }
    ensures cause { HasCause (D.faults disk.old) (D.faults disk.new) result }
    ensures once { CountsOnce (D.faults disk.old) (D.faults disk.new) result }
{
    make_room(disk, end, bytes.len())?;
    write_through(disk, FileNo::Blocks, end, bytes)?;
    Ok(Piece {
        place: end,
        len: bytes.len() as u32,
        digest,
    })
}

/// Extends the file ahead, where the piece is small.
fn make_room<D: Disk>(disk: &mut D, end: u64, count: usize) -> Result<(), Failed>
    requires within { IsTrue D.tells → end ≤ length (D.seen disk.old Blocks) }
    ensures writes { IsTrue D.tells → Writes Blocks end ROOM_BYTES (D.seen disk.old) (D.seen disk.new) (D.may_leave disk.old) (D.may_leave disk.new) }
    ensures any_moment { IsTrue D.tells → LeavesOnly D.moment D.left_since disk.old disk.new (LeavesTorn Blocks end ROOM_BYTES (D.may_leave disk.old)) }
    ensures place { D.place disk.new ≡ D.place disk.old }
    ensures cause { HasCause (D.faults disk.old) (D.faults disk.new) result }
    ensures once { CountsOnce (D.faults disk.old) (D.faults disk.new) result }
{
    if SMALL_PIECE_BYTES < count {
        return Ok(());
    }
    extend_ahead(disk, FileNo::Blocks, end, count)
}

/// Fills the buffer, which has the piece's length, with the bytes of a piece that lies in the file. Nothing is changed.
pub fn get<D: Disk>(disk: &mut D, piece: &Piece, buf: &mut [u8]) -> Result<(), Failed>
    requires lies { IsTrue D.tells → LiesIn (D.seen disk.old Blocks) piece.now }
    requires room { length buf.old ≡ piece.now.len }
    ensures bytes { OnOk result (IsTrue D.tells → buf.new ≡ slice_of (D.seen disk.old Blocks) piece.now) }
    ensures rests { Rests (D.seen disk.old) (D.seen disk.new) (D.may_leave disk.old) (D.may_leave disk.new) }
    ensures any_moment { LeavesOnly D.moment D.left_since disk.old disk.new (λ image. (g : FileNo) → D.may_leave disk.old g (image g)) }
    ensures place { D.place disk.new ≡ D.place disk.old }
    ensures cause { HasCause (D.faults disk.old) (D.faults disk.new) result }
    ensures once { CountsOnce (D.faults disk.old) (D.faults disk.new) result }
{
    disk.read_at(FileNo::Blocks, piece.place, buf)
}
