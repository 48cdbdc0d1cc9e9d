ghost use Rattle.std.specs.Prelude.{◌≡◌, ◌+◌, ◌^◌, ◌≤◌, length, IsTrue, OnOk};
ghost use Rattle.fh_world.specs.Causes.{HasCause, CountsOnce};
ghost use Rattle.fh_world.specs.Disk.{Overwritten, Only, Writes, LeavesOnly, LeavesTorn};

use crate::{Disk, Failed, FileNo};

/// Writes the bytes at a place of a file and syncs the file, so that after `Ok` a crash leaves what a read gives. A
/// crash at any moment of the call leaves the file from before, but for what stands in the range, and so does a
/// fault.
pub fn write_through<D: Disk>(
    disk: &mut D,
    file: FileNo,
    at: u64,
    bytes: &[u8],
) -> Result<(), Failed>
    requires { IsTrue D.tells → at ≤ length (D.seen disk.old file) }
    ensures written { OnOk result (IsTrue D.tells → Overwritten at bytes.now (D.seen disk.old file) (D.seen disk.new file)) }
    ensures durable { OnOk result (Only (D.seen disk.new file) (D.may_leave disk.new file)) }
    ensures limit { OnOk result (at + length bytes.now ≤ 2 ^ 62) }
    ensures writes { IsTrue D.tells → Writes file at (length bytes.now) (D.seen disk.old) (D.seen disk.new) (D.may_leave disk.old) (D.may_leave disk.new) }
    ensures any_moment { IsTrue D.tells → LeavesOnly D.moment D.left_since disk.old disk.new (LeavesTorn file at (length bytes.now) (D.may_leave disk.old)) }
    ensures place { D.place disk.new ≡ D.place disk.old }
    ensures cause { HasCause (D.faults disk.old) (D.faults disk.new) result }
    ensures once { CountsOnce (D.faults disk.old) (D.faults disk.new) result }
{
    disk.write_at(file, at, bytes)?;
    disk.sync(file)
}
