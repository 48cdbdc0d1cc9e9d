ghost use Rattle.std.specs.Prelude.{◌≡◌, ◌≤◌, ◌++◌, ◌∷◌, [], false, IsTrue, IfOk, IsErrOf};
ghost use Rattle.fh_world.specs.Causes.{Rose, CountsOnce};
ghost use Rattle.gate_journal.specs.Slot.{records, IsAny};
ghost use Rattle.gate_journal.specs.Journal.{slot_of, is_pending, Settled, AnyMoment, Keeps};

use crate::journal::OPEN_GATE;
use crate::{Journal, LayFault, Record};
use fh_world::{Disk, FileNo, write_through};
use std::alloc::{AllocError, Global};

/// Writes these rows into a slot, in place of what it stood for. A fault of the disk may leave anything in the slot,
/// and want of memory leaves the disk as it was.
pub fn lay<D: Disk>(
    alloc: Global,
    disk: &mut D,
    slot: FileNo,
    rows: &[Record],
) -> Result<Journal, LayFault>
    ensures settled { IfOk result (λ journal. IsTrue D.tells → Settled D.Disk disk.new journal rows.now) }
    ensures idle { IfOk result (λ journal. is_pending journal ≡ false) }
    ensures slot { IfOk result (λ journal. slot_of journal ≡ slot) }
    ensures any_moment { IsTrue D.tells → AnyMoment D.Disk disk.old disk.new slot IsAny }
    ensures others { IsTrue D.tells → Keeps D.Disk slot disk.old disk.new }
    ensures memory { IsErrOf result LayFault.NoMemory → disk.new ≡ disk.old }
    ensures place { D.place disk.new ≡ D.place disk.old }
    ensures later { D.faults disk.old ≤ D.faults disk.new }
    ensures cause { IsErrOf result LayFault.Disk → Rose (D.faults disk.old) (D.faults disk.new) }
    ensures once { CountsOnce (D.faults disk.old) (D.faults disk.new) result }
{
    let bytes = spell(alloc, rows)?;
    write_through(disk, slot, 0, &bytes)?;
    Ok(Journal::behind(slot, bytes.len() as u64 - 1))
}

/// The rows with open gates, and a closed one behind them.
fn spell(alloc: Global, rows: &[Record]) -> Result<Vec<u8>, AllocError>
    ensures { IfOk result (λ bytes. bytes.items ≡ records rows.now ++ 0 ∷ []) }
{
    let mut bytes = Vec::new(alloc);
    for row in rows {
        bytes.push(OPEN_GATE)?;
        bytes.extend_from_slice(row.behind_gate())?;
    }
    bytes.push(0)?;
    Ok(bytes)
}
