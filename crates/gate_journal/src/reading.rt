ghost use Rattle.std.specs.Prelude.{◌≡◌, ◌<◌, ◌≤◌, ◌+◌, ◌^◌, ℕ, false, length, IsTrue, IfOk, OnOk, IfSome, IfNone, IsErrOf};
ghost use Rattle.std.specs.Int.{w64, to_be_bytes, from_be_bytes};
ghost use Rattle.fh_world.specs.declared.FileNo.{FileNo};
ghost use Rattle.fh_world.specs.Causes.{Rose, CountsOnce};
ghost use Rattle.fh_world.specs.Disk.{Only, Rests, LeavesOnly};
ghost use Rattle.gate_journal.specs.Journal.{slot_of, is_pending, Settled};
ghost use Rattle.gate_journal.specs.Slot.{found, Held, Broken, records, length_field, AllShort, IsWhole, IsAtRest};

use crate::journal::OPEN_GATE;
use crate::{Journal, OpenFault, Record, frame};
use fh_world::{Disk, FileNo};
use std::alloc::{AllocError, Global};

/// The records of a slot, and its journal. `Damaged` comes where the file has no byte behind the open-gated record at
/// that place, or at 0 where it has no byte at all. The slot is synced before it is read, so that a crash leaves what
/// was read, also where a run before stopped between a write and its sync. Nothing that a read gives is changed.
pub fn open<D: Disk>(
    alloc: Global,
    disk: &mut D,
    slot: FileNo,
) -> Result<(Journal, Vec<Record>), OpenFault>
    ensures held { IfOk result (λ opened. IsTrue D.tells → found (D.seen disk.old slot) ≡ Held opened.1.items) }
    ensures settled { IfOk result (λ opened. IsTrue D.tells → Settled D.Disk disk.new opened.0 opened.1.items) }
    ensures idle { IfOk result (λ opened. is_pending opened.0 ≡ false) }
    ensures slot { IfOk result (λ opened. slot_of opened.0 ≡ slot) }
    ensures damaged { (place : ℕ) → IsErrOf result (OpenFault.Damaged place) → IsTrue D.tells → found (D.seen disk.old slot) ≡ Broken place }
    ensures rests { Rests (D.seen disk.old) (D.seen disk.new) (D.may_leave disk.old) (D.may_leave disk.new) }
    ensures any_moment { LeavesOnly D.moment D.left_since disk.old disk.new (λ image. (g : FileNo) → D.may_leave disk.old g (image g)) }
    ensures place { D.place disk.new ≡ D.place disk.old }
    ensures later { D.faults disk.old ≤ D.faults disk.new }
    ensures cause { IsErrOf result OpenFault.Disk → Rose (D.faults disk.old) (D.faults disk.new) }
    ensures once { CountsOnce (D.faults disk.old) (D.faults disk.new) result }
    // A fault of the disk is never told as one of these.
    ensures memory { IsErrOf result OpenFault.NoMemory → D.faults disk.new ≡ D.faults disk.old }
    ensures damage { (place : ℕ) → IsErrOf result (OpenFault.Damaged place) → D.faults disk.new ≡ D.faults disk.old }
{
    let bytes = read_synced(alloc, disk, slot)?;
    let (records, end) = parse(alloc, &bytes)?;
    Ok((Journal::behind(slot, end as u64), records))
}

/// The bytes of a slot, which is synced first, so that a crash leaves them.
fn read_synced<D: Disk>(alloc: Global, disk: &mut D, slot: FileNo) -> Result<Vec<u8>, OpenFault>
    ensures bytes { IfOk result (λ bytes. IsTrue D.tells → bytes.items ≡ D.seen disk.old slot) }
    ensures limit { IfOk result (λ bytes. length bytes.items ≤ 2 ^ 62) }
    ensures durable { OnOk result (Only (D.seen disk.old slot) (D.may_leave disk.new slot)) }
    ensures rests { Rests (D.seen disk.old) (D.seen disk.new) (D.may_leave disk.old) (D.may_leave disk.new) }
    ensures any_moment { LeavesOnly D.moment D.left_since disk.old disk.new (λ image. (g : FileNo) → D.may_leave disk.old g (image g)) }
    ensures place { D.place disk.new ≡ D.place disk.old }
    ensures later { D.faults disk.old ≤ D.faults disk.new }
    ensures cause { IsErrOf result OpenFault.Disk → Rose (D.faults disk.old) (D.faults disk.new) }
    ensures once { CountsOnce (D.faults disk.old) (D.faults disk.new) result }
    ensures memory { IsErrOf result OpenFault.NoMemory → D.faults disk.new ≡ D.faults disk.old }
    ensures no_damage { (place : ℕ) → IsErrOf result (OpenFault.Damaged place) → ⊥ }
{
    disk.sync(slot)?;
    let len = disk.len(slot)?;
    let mut bytes = vec![in alloc; 0u8; len as usize]?;
    disk.read_at(slot, 0, &mut bytes)?;
    Ok(bytes)
}

/// The records of a slot's bytes, and the place of the gate behind them.
pub(crate) fn parse(alloc: Global, bytes: &[u8]) -> Result<(Vec<Record>, usize), OpenFault>
    ensures held { IfOk result (λ parsed. found bytes.now ≡ Held parsed.0.items) }
    ensures rest { IfOk result (λ parsed. IsAtRest parsed.0.items bytes.now) }
    ensures short { IfOk result (λ parsed. AllShort parsed.0.items) }
    ensures place { IfOk result (λ parsed. parsed.1 ≡ length (records parsed.0.items)) }
    ensures within { IfOk result (λ parsed. parsed.1 < length bytes.now) }
    ensures damaged { (place : ℕ) → IsErrOf result (OpenFault.Damaged place) → found bytes.now ≡ Broken place }
    ensures no_disk { IsErrOf result OpenFault.Disk → ⊥ }
{
    let mut records = Vec::new(alloc);
    let mut place = 0;
    let mut rest = bytes;
    while let Some((gate, after)) = rest.split_first() {
        if *gate != OPEN_GATE {
            return Ok((records, place));
        }
        let Some((body, next)) = whole_body(after) else {
            return Err(OpenFault::Damaged {
                place: place as u64,
            });
        };
        records.push(frame(alloc, body)?).map_err(AllocError::from)?;
        place += 9 + body.len();
        rest = next;
    }
    Err(OpenFault::Damaged {
        place: place as u64,
    })
}

/// The body that stands whole behind a gate, and what follows it. None where nothing does.
fn whole_body(after: &[u8]) -> Option<(&[u8], &[u8])>
    ensures whole { IfSome result (λ parts. IsWhole parts.0.now parts.1.now after.now) }
    ensures broken { IfNone result (length after.now ≤ 8 + length_field after.now) }
{
    let (field, behind) = after.split_first_chunk::<8>()?;
    let len = body_len(field);
    if behind.len() as u64 <= len {
        return None;
    }
    Some(behind.split_at(len as usize))
}

/// The length that a field of a record spells.
fn body_len(field: &[u8; 8]) -> u64
    ensures value { result ≡ from_be_bytes w64 field.now }
    ensures spelled { to_be_bytes w64 result ≡ field.now }
{
    u64::from_be_bytes(*field)
}
