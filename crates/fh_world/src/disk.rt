ghost use Rattle.std.specs.Borrow.{GName};
ghost use Rattle.std.specs.Prelude.{◌≡◌, ◌∷◌, ◌+◌, ◌^◌, ◌<◌, ◌≤◌, ℕ, Bool, List, length, take, drop, IsTrue, IfOk, OnOk};
ghost use Rattle.fh_world.specs.declared.disk.FileNo.{FileNo};
ghost use Rattle.fh_world.specs.Causes.{HasCause, CountsOnce};
ghost use Rattle.fh_world.specs.Disk.{Files, Overwritten, Only, Rests, Writes, Elapses};

use crate::Failed;

/// The files of a store.
#[derive(Clone, Copy, Debug, PartialEq, Eq)]
pub enum FileNo {
    /// Which slot counts.
    Head,
    /// One of the two files of records.
    SlotA,
    /// The other.
    SlotB,
    /// The contents of the host's files.
    Blocks,
}

/// Four files of bytes, of which a crash may tear what was written since the last sync.
pub trait Disk {
    /// The `&mut`s through which it is held. They stay.
    ghost place: { Self → List GName };

    /// Whether it tells what its files hold. A disk over real files can't.
    ghost tells: { Bool };

    /// What a read gives.
    ghost seen: { Self → Files };

    /// What a crash at this moment may leave of each file. The files are torn independently of one another.
    ghost may_leave: { Self → FileNo → List ℕ → Type 0 };

    /// The moment, as a number that doesn't fall.
    ghost moment: { Self → ℕ };

    /// What a crash at some moment from that one on might have left, during a call or between two.
    ghost left_since: { Self → ℕ → Files → Type 0 };

    /// How often it has failed.
    ghost faults: { Self → ℕ };

    /// Fills the buffer with the file's bytes from a place on, in bytes from the file's start.
    fn read_at(&mut self, file: FileNo, at: u64, buf: &mut [u8]) -> Result<(), Failed>
        requires { IsTrue tells → at + length buf.old ≤ length (seen self.old file) }
        ensures bytes { OnOk result (IsTrue tells → buf.new ≡ take (length buf.old) (drop at (seen self.old file))) }
        ensures rests { Rests (seen self.old) (seen self.new) (may_leave self.old) (may_leave self.new) }
        ensures time { Elapses (moment self.old) (moment self.new) (left_since self.old) (left_since self.new) (may_leave self.new) }
        ensures place { place self.new ≡ place self.old }
        ensures cause { HasCause (faults self.old) (faults self.new) result }
        ensures once { CountsOnce (faults self.old) (faults self.new) result };

    /// Writes over what is there, and past the end. Until a sync, a crash may leave anything in the range. A write
    /// that would end past 2^62 bytes fails and changes nothing.
    fn write_at(&mut self, file: FileNo, at: u64, bytes: &[u8]) -> Result<(), Failed>
        requires { IsTrue tells → at ≤ length (seen self.old file) }
        ensures written { OnOk result (IsTrue tells → Overwritten at bytes.now (seen self.old file) (seen self.new file)) }
        ensures limit { OnOk result (at + length bytes.now ≤ 2 ^ 62) }
        ensures past { 2 ^ 62 < at + length bytes.now → Rests (seen self.old) (seen self.new) (may_leave self.old) (may_leave self.new) }
        ensures writes { IsTrue tells → Writes file at (length bytes.now) (seen self.old) (seen self.new) (may_leave self.old) (may_leave self.new) }
        ensures time { Elapses (moment self.old) (moment self.new) (left_since self.old) (left_since self.new) (may_leave self.new) }
        ensures place { place self.new ≡ place self.old }
        ensures cause { HasCause (faults self.old) (faults self.new) result }
        ensures once { CountsOnce (faults self.old) (faults self.new) result };

    /// After it, a crash leaves what a read gives of the file.
    fn sync(&mut self, file: FileNo) -> Result<(), Failed>
        ensures durable { OnOk result (Only (seen self.old file) (may_leave self.new file)) }
        ensures rests { Rests (seen self.old) (seen self.new) (may_leave self.old) (may_leave self.new) }
        ensures time { Elapses (moment self.old) (moment self.new) (left_since self.old) (left_since self.new) (may_leave self.new) }
        ensures place { place self.new ≡ place self.old }
        ensures cause { HasCause (faults self.old) (faults self.new) result }
        ensures once { CountsOnce (faults self.old) (faults self.new) result };

    /// The file's length in bytes, at most 2^62. It fails on a longer file.
    fn len(&mut self, file: FileNo) -> Result<u64, Failed>
        ensures len { IfOk result (λ n. IsTrue tells → n ≡ length (seen self.old file)) }
        ensures limit { IfOk result (λ n. n ≤ 2 ^ 62) }
        ensures rests { Rests (seen self.old) (seen self.new) (may_leave self.old) (may_leave self.new) }
        ensures time { Elapses (moment self.old) (moment self.new) (left_since self.old) (left_since self.new) (may_leave self.new) }
        ensures place { place self.new ≡ place self.old }
        ensures cause { HasCause (faults self.old) (faults self.new) result }
        ensures once { CountsOnce (faults self.old) (faults self.new) result };

    /// A process that dies leaves what it has written.
    ghost seen_may_stay: { (disk : Self) (g : FileNo) → IsTrue tells → may_leave disk g (seen disk g) };

    /// This moment is one of those since an earlier one.
    ghost counts_now: { (disk : Self) (t : ℕ) (image : Files) → t ≤ moment disk → ((g : FileNo) → may_leave disk g (image g)) → left_since disk t image };

    /// Since this moment there is no other.
    ghost only_now: { (disk : Self) (image : Files) → left_since disk (moment disk) image → (g : FileNo) → may_leave disk g (image g) };
}

impl<D: Disk> Disk for &mut D {
    ghost place = { λ d. d.ghost_name ∷ D.place d.now };

    ghost tells = { D.tells };

    ghost seen = { λ d. D.seen d.now };

    ghost may_leave = { λ d. D.may_leave d.now };

    ghost moment = { λ d. D.moment d.now };

    ghost left_since = { λ d. D.left_since d.now };

    ghost faults = { λ d. D.faults d.now };

    ghost seen_may_stay = { λ d. D.seen_may_stay d.now };

    ghost counts_now = { λ d. D.counts_now d.now };

    ghost only_now = { λ d. D.only_now d.now };

    fn read_at(&mut self, file: FileNo, at: u64, buf: &mut [u8]) -> Result<(), Failed> {
        Disk::read_at(&mut **self, file, at, buf)
    }

    fn write_at(&mut self, file: FileNo, at: u64, bytes: &[u8]) -> Result<(), Failed> {
        Disk::write_at(&mut **self, file, at, bytes)
    }

    fn sync(&mut self, file: FileNo) -> Result<(), Failed> {
        Disk::sync(&mut **self, file)
    }

    fn len(&mut self, file: FileNo) -> Result<u64, Failed> {
        Disk::len(&mut **self, file)
    }
}
