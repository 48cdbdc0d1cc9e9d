//! The head file.
ghost use Rattle.std.specs.Prelude.{◌≡◌, ◌≤◌, ◌==◌, not, get_or, length, IsTrue, IfOk, OnOk};
ghost use Rattle.fh_world.specs.Causes.{HasCause, CountsOnce};
ghost use Rattle.fh_world.specs.declared.FileNo.{FileNo};
ghost use Rattle.fh_world.specs.Disk.{Only, Rests, LeavesOnly};
ghost use Rattle.gate_journal.specs.Journal.{AnyMoment, Keeps};
ghost use Rattle.store_core.specs.declared.head.HeadRead.TheVariants.{New};
ghost use Rattle.store_core.specs.Head.{head_in, slot_named, first_other, IsShut, IsNewOrNames};
ghost use Rattle.store_core.specs.Store.{NamesSlot};

use fh_world::{Disk, Failed, FileNo, write_through};

/// The length of a head in bytes.
pub(crate) const HEAD_BYTES: usize = 18;

/// The byte of a gate that stands open.
const OPEN_GATE: u8 = 0xa5;

/// The byte that closes a gate. Any but the open one does.
const CLOSED_GATE: u8 = 0;

/// The byte that names slot B. Any other names slot A.
const SLOT_B: u8 = 2;

/// What stands behind the gate.
const STORE_TEXT: [u8; 16] = *b"filehost store 1";

/// What stands behind the gate of a head that names slot A.
const TEXT_OF_SLOT_A: [u8; 17] = *b"filehost store 1\x01";

/// What the head file says.
#[derive(Clone, Copy, Debug, PartialEq, Eq)]
pub enum HeadRead {
    /// The store isn't made yet.
    New,
    /// It is another program's file, from this byte on.
    NotAStore { place: u64 },
    /// This slot counts.
    Names { slot: FileNo },
}

/// What the bytes of a head file say that isn't too long.
pub(crate) fn read_bytes(bytes: &[u8]) -> HeadRead
    requires { length bytes.now ≤ 18 }
    ensures { result ≡ head_in bytes.now }
{
    if bytes.len() < HEAD_BYTES {
        return HeadRead::New;
    }
    let Some((gate, text)) = bytes.split_first() else {
        return HeadRead::New;
    };
    if *gate != OPEN_GATE {
        return HeadRead::New;
    }
    match first_other(&STORE_TEXT, text) {
        Some(place) => HeadRead::NotAStore { place },
        None => HeadRead::Names {
            slot: slot_named(text[16]),
        },
    }
}

fn slot_named(byte: u8) -> FileNo
    ensures { result ≡ slot_named byte }
{
    if byte == SLOT_B {
        FileNo::SlotB
    } else {
        FileNo::SlotA
    }
}

/// The place in a head of the first byte behind the gate that isn't the text's.
fn first_other(text: &[u8], bytes: &[u8]) -> Option<u64>
    ensures { result ≡ first_other 1 text.now bytes.now }
{
    let mut place = 1;
    let mut rest = bytes;
    for code in text {
        match rest {
            [] => return Some(place),
            [byte, next @ ..] => {
                if byte != code {
                    return Some(place);
                }
                rest = next;
            }
        }
        place += 1;
    }
    None
}

/// Reads the head.
pub(crate) fn read<D: Disk>(disk: &mut D) -> Result<HeadRead, Failed>
    ensures read { IfOk result (λ read. IsTrue D.tells → read ≡ head_in (D.seen disk.old FileNo.Head)) }
    ensures rests { Rests (D.seen disk.old) (D.seen disk.new) (D.may_leave disk.old) (D.may_leave disk.new) }
    ensures any_moment { LeavesOnly D.moment D.left_since disk.old disk.new (λ image. (g : FileNo) → D.may_leave disk.old g (image g)) }
    ensures place { D.place disk.new ≡ D.place disk.old }
    ensures cause { HasCause (D.faults disk.old) (D.faults disk.new) result }
    ensures once { CountsOnce (D.faults disk.old) (D.faults disk.new) result }
{
    let len = disk.len(FileNo::Head)?;
    if len > HEAD_BYTES as u64 {
        return Ok(HeadRead::NotAStore {
            place: HEAD_BYTES as u64,
        });
    }
    let mut bytes = [0u8; HEAD_BYTES];
    let front = &mut bytes[..len as usize];
    disk.read_at(FileNo::Head, 0, front)?;
    Ok(read_bytes(front))
}

/// Writes a head that names slot A, where there is none: closed first, so that a crash before the end leaves none.
pub(crate) fn write_head<D: Disk>(disk: &mut D) -> Result<(), Failed>
    requires unmade { IsTrue D.tells → head_in (D.seen disk.old FileNo.Head) ≡ New }
    requires durable { IsTrue D.tells → Only (D.seen disk.old FileNo.Head) (D.may_leave disk.old FileNo.Head) }
    ensures named { OnOk result (IsTrue D.tells → NamesSlot D.Disk disk.new FileNo.SlotA) }
    ensures seen { IsTrue D.tells → IsNewOrNames (D.seen disk.new FileNo.Head) }
    ensures any_moment { IsTrue D.tells → AnyMoment D.Disk disk.old disk.new FileNo.Head IsNewOrNames }
    ensures others { IsTrue D.tells → Keeps D.Disk FileNo.Head disk.old disk.new }
    ensures place { D.place disk.new ≡ D.place disk.old }
    ensures cause { HasCause (D.faults disk.old) (D.faults disk.new) result }
    ensures once { CountsOnce (D.faults disk.old) (D.faults disk.new) result }
{
    shut(disk)?;
    write_through(disk, FileNo::Head, 1, &TEXT_OF_SLOT_A)?;
    write_through(disk, FileNo::Head, 0, &[OPEN_GATE])?;
    Ok(())
}

/// Closes the gate where it is absent or open.
fn shut<D: Disk>(disk: &mut D) -> Result<(), Failed>
    requires unmade { IsTrue D.tells → head_in (D.seen disk.old FileNo.Head) ≡ New }
    requires durable { IsTrue D.tells → Only (D.seen disk.old FileNo.Head) (D.may_leave disk.old FileNo.Head) }
    ensures shut { OnOk result (IsTrue D.tells → IsShut (D.seen disk.new FileNo.Head)) }
    ensures durable { OnOk result (IsTrue D.tells → Only (D.seen disk.new FileNo.Head) (D.may_leave disk.new FileNo.Head)) }
    ensures seen { IsTrue D.tells → head_in (D.seen disk.new FileNo.Head) ≡ New }
    ensures any_moment { IsTrue D.tells → AnyMoment D.Disk disk.old disk.new FileNo.Head (λ c. head_in c ≡ New) }
    ensures others { IsTrue D.tells → Keeps D.Disk FileNo.Head disk.old disk.new }
    ensures place { D.place disk.new ≡ D.place disk.old }
    ensures cause { HasCause (D.faults disk.old) (D.faults disk.new) result }
    ensures once { CountsOnce (D.faults disk.old) (D.faults disk.new) result }
{
    if is_shut(disk)? {
        return Ok(());
    }
    write_through(disk, FileNo::Head, 0, &[CLOSED_GATE])?;
    Ok(())
}

/// Whether there is a gate, and it is closed.
fn is_shut<D: Disk>(disk: &mut D) -> Result<bool, Failed>
    ensures shut { IfOk result (λ shut. IsTrue D.tells → shut ≡ not (get_or (D.seen disk.old FileNo.Head) 0 165 == 165)) }
    ensures rests { Rests (D.seen disk.old) (D.seen disk.new) (D.may_leave disk.old) (D.may_leave disk.new) }
    ensures any_moment { LeavesOnly D.moment D.left_since disk.old disk.new (λ image. (g : FileNo) → D.may_leave disk.old g (image g)) }
    ensures place { D.place disk.new ≡ D.place disk.old }
    ensures cause { HasCause (D.faults disk.old) (D.faults disk.new) result }
    ensures once { CountsOnce (D.faults disk.old) (D.faults disk.new) result }
{
    if disk.len(FileNo::Head)? == 0 {
        return Ok(false);
    }
    let mut gate = [OPEN_GATE];
    disk.read_at(FileNo::Head, 0, &mut gate)?;
    Ok(gate[0] != OPEN_GATE)
}
