ghost use Rattle.std.specs.Prelude.{◌≡◌, ◌≤◌, length, IsTrue};
ghost use Rattle.fh_world.specs.Causes.{HasCause, CountsOnce};
ghost use Rattle.fh_world.specs.Disk.{Writes, LeavesOnly, LeavesTorn};

use crate::{Disk, Failed, FileNo};

/// How many zeros a file is extended by at once, in bytes.
pub const ROOM_BYTES: usize = 65_536;

const ROOM: [u8; ROOM_BYTES] = [0; ROOM_BYTES];

/// Where a file is extended for the first time, in bytes. Before it, as in a new store, a file is as long as what was
/// written.
const FIRST_ROOM_AT: u64 = 512;

/// Extends a file that ends at `end` by zeros where so many bytes behind its end reach the next place at which this is
/// done, so that what comes into them changes no length of the file, which its sync would have to write too. The length
/// isn't asked for: that alone makes the next sync write more. Nothing is synced.
pub fn extend_ahead<D: Disk>(
    disk: &mut D,
    file: FileNo,
    end: u64,
    count: usize,
) -> Result<(), Failed>
    requires { IsTrue D.tells → end ≤ length (D.seen disk.old file) }
    ensures writes { IsTrue D.tells → Writes file end ROOM_BYTES (D.seen disk.old) (D.seen disk.new) (D.may_leave disk.old) (D.may_leave disk.new) }
    ensures any_moment { IsTrue D.tells → LeavesOnly D.moment D.left_since disk.old disk.new (LeavesTorn file end ROOM_BYTES (D.may_leave disk.old)) }
    ensures place { D.place disk.new ≡ D.place disk.old }
    ensures cause { HasCause (D.faults disk.old) (D.faults disk.new) result }
    ensures once { CountsOnce (D.faults disk.old) (D.faults disk.new) result }
{
    if !reaches_room(end, count as u64) {
        return Ok(());
    }
    disk.write_at(file, end, &ROOM)
}

/// Whether so many bytes from a place on reach one at which a file is extended: the first such place, or a multiple of
/// the room.
fn reaches_room(from: u64, count: u64) -> bool {
    let next = from.saturating_add(count);
    let step = ROOM_BYTES as u64;
    (from < FIRST_ROOM_AT && FIRST_ROOM_AT <= next) || from / step < next / step
}
