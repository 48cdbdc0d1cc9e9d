//! How a new store is made.
ghost use Rattle.std.specs.Prelude.{◌≡◌, ◌≢◌, ◌<◌, ◌≤◌, ◌∷◌, [], ℕ, false, length, map, List, IsTrue, IfOk, OnOk, Ok, Err, IsErrOf};
ghost use Rattle.std.specs.Prelude.{All};
ghost use Rattle.fh_model.specs.History.{state_of};
ghost use Rattle.fh_model.specs.Rows.{rows_of};
ghost use Rattle.fh_model.specs.State.{opening};
ghost use Rattle.fh_world.specs.Causes.{CountsOnce, HasCause, Rose};
ghost use Rattle.fh_world.specs.declared.FileNo.{FileNo};
ghost use Rattle.fh_world.specs.Disk.{Only, LeavesOnly};
ghost use Rattle.gate_journal.specs.Journal.{is_pending, KeepsOthers};
ghost use Rattle.state_rows.specs.Rows.{HasSpelling};
ghost use Rattle.store_core.specs.Bodies.{bodies_from};
ghost use Rattle.store_core.specs.declared.head.HeadRead.TheVariants.{New};
ghost use Rattle.store_core.specs.declared.bodies.Body.TheVariants as body;
ghost use Rattle.store_core.specs.Head.{head_in};
ghost use Rattle.store_core.specs.Files.{IsNewOrMade};
ghost use Rattle.store_core.specs.Store.{IsSettledStore};

use crate::StoreFault;
use crate::head::write_head;
use fh_model::{NoMemory, Row};
use fh_world::{Disk, FileNo};
use gate_journal::{Journal, LayFault, Record, frame, lay};
use name_core::Image;
use state_rows::encode_row;
use std::alloc::Global;

/// Makes the store where there is none: the rows of the opening state in slot A, and a head that names it.
pub(crate) fn make<D: Disk>(alloc: Global, disk: &mut D) -> Result<(Journal, Image), StoreFault>
    requires unmade { IsTrue D.tells → head_in (D.seen disk.old FileNo.Head) ≡ New }
    requires durable { IsTrue D.tells → Only (D.seen disk.old FileNo.Head) (D.may_leave disk.old FileNo.Head) }
    ensures image { IfOk result (λ made. (made.1.start ≡ opening) × (made.1.history ≡ [])) }
    ensures idle { IfOk result (λ made. is_pending made.0 ≡ false) }
    ensures settled { IfOk result (λ made. IsTrue D.tells → IsSettledStore D.Disk disk.new made.0 opening) }
    ensures outside { (place : ℕ) → (IsErrOf result (StoreFault.Damaged place) → ⊥) × (IsErrOf result (StoreFault.NotAStore place) → ⊥) }
    ensures seen { IsTrue D.tells → IsNewOrMade (D.seen disk.new) }
    ensures any_moment { IsTrue D.tells → LeavesOnly D.moment D.left_since disk.old disk.new IsNewOrMade }
    ensures place { D.place disk.new ≡ D.place disk.old }
    ensures later { D.faults disk.old ≤ D.faults disk.new }
    ensures cause { IsErrOf result StoreFault.Disk → Rose (D.faults disk.old) (D.faults disk.new) }
    ensures once { CountsOnce (D.faults disk.old) (D.faults disk.new) result }
    ensures quiet { ¬ IsErrOf result StoreFault.Disk → D.faults disk.new ≡ D.faults disk.old }
{
    let image = Image::empty(alloc)?;
    let records = opening_records(alloc, &image)?;
    let journal = match lay(alloc, disk, FileNo::SlotA, &records) {
        Ok(journal) => journal,
        Err(LayFault::Disk) => return Err(StoreFault::Disk),
        Err(LayFault::NoMemory) => return Err(StoreFault::NoMemory),
    };
    write_head(disk)?;
    Ok((journal, image))
}

/// The records of a new store.
fn opening_records(alloc: Global, image: &Image) -> Result<Vec<Record>, NoMemory>
    requires { state_of image.now ≡ opening }
    ensures { IfOk result (λ records. bodies_from 0 records.items ≡ Ok (map body.Row (rows_of opening))) }
{
    let rows = image.rows()?;
    records_of(alloc, &rows)
}

/// A record for each row.
fn records_of(alloc: Global, rows: &[Row]) -> Result<Vec<Record>, NoMemory>
    requires { All HasSpelling rows.now }
    ensures { IfOk result (λ records. bodies_from 0 records.items ≡ Ok (map body.Row rows.now)) }
{
    let mut records = Vec::new(alloc);
    for row in rows {
        let bytes = encode_row(alloc, row)?;
        records.push(frame(alloc, &bytes)?)?;
    }
    Ok(records)
}
