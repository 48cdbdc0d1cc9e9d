//! How a store is opened.
ghost use Rattle.std.specs.Prelude.{◌≡◌, ◌⊎◌, ◌≤◌, ◌^◌, ℕ, [], List, false, IsTrue, IfOk, IfErr, OnOk, OnErr, IsErrOf, Ok, Err};
ghost use Rattle.fh_model.specs.Pieces.{end_in};
ghost use Rattle.fh_world.specs.Causes.{HasCause, CountsOnce, Rose};
ghost use Rattle.fh_world.specs.declared.FileNo.{FileNo};
ghost use Rattle.fh_world.specs.Disk.{Only, Rests, LeavesOnly};
ghost use Rattle.gate_journal.specs.Journal.{is_pending};
ghost use Rattle.store_core.specs.Files.{contents, StandsOrNew, KeepsMeaning};
ghost use Rattle.store_core.specs.Open.{IsSaid, LeavesMeaning};
ghost use Rattle.store_core.specs.Store.{IsSettledStore};

use crate::head::{self, HeadRead};
use crate::making::make;
use crate::{StoreFault, slot};
use fh_world::{Disk, Failed, FileNo};
use gate_journal::Journal;
use name_core::Image;
use std::alloc::Global;

/// Syncs the files, and reads the store or makes a new one: its journal, and its image, which keeps no command.
pub(crate) fn open_on<D: Disk>(alloc: Global, disk: &mut D) -> Result<(Journal, Image), StoreFault>
    ensures history { IfOk result (λ opened. opened.1.history ≡ []) }
    ensures idle { IfOk result (λ opened. is_pending opened.0 ≡ false) }
    ensures end { IfOk result (λ opened. end_in opened.1.start ≤ 2 ^ 62) }
    ensures settled { IfOk result (λ opened. IsTrue D.tells → IsSettledStore D.Disk disk.new opened.0 opened.1.start) }
    ensures found { IfOk result (λ opened. IsTrue D.tells → StandsOrNew (D.seen disk.old) opened.1.start) }
    ensures refused { IfErr result (λ fault. IsTrue D.tells → IsSaid (contents (D.seen disk.old)) fault) }
    ensures meaning { IsTrue D.tells → KeepsMeaning (D.seen disk.old) (D.seen disk.new) }
    ensures any_moment { IsTrue D.tells → LeavesOnly D.moment D.left_since disk.old disk.new (LeavesMeaning (D.may_leave disk.old) (D.seen disk.old)) }
    ensures place { D.place disk.new ≡ D.place disk.old }
    ensures later { D.faults disk.old ≤ D.faults disk.new }
    ensures cause { IsErrOf result StoreFault.Disk → Rose (D.faults disk.old) (D.faults disk.new) }
    ensures once { CountsOnce (D.faults disk.old) (D.faults disk.new) result }
    ensures quiet { ¬ IsErrOf result StoreFault.Disk → D.faults disk.new ≡ D.faults disk.old }
{
    sync_all(disk)?;
    match head::read(disk)? {
        HeadRead::New => make(alloc, disk),
        HeadRead::NotAStore { place } => Err(StoreFault::NotAStore { place }),
        HeadRead::Names { slot } => slot::read(alloc, disk, slot),
    }
}

/// Syncs the four files.
fn sync_all<D: Disk>(disk: &mut D) -> Result<(), Failed>
    ensures durable { OnOk result ((g : FileNo) → Only (D.seen disk.old g) (D.may_leave disk.new g)) }
    ensures rests { Rests (D.seen disk.old) (D.seen disk.new) (D.may_leave disk.old) (D.may_leave disk.new) }
    ensures any_moment { LeavesOnly D.moment D.left_since disk.old disk.new (λ image. (g : FileNo) → D.may_leave disk.old g (image g)) }
    ensures place { D.place disk.new ≡ D.place disk.old }
    ensures cause { HasCause (D.faults disk.old) (D.faults disk.new) result }
    ensures once { CountsOnce (D.faults disk.old) (D.faults disk.new) result }
{
    disk.sync(FileNo::Head)?;
    disk.sync(FileNo::SlotA)?;
    disk.sync(FileNo::SlotB)?;
    disk.sync(FileNo::Blocks)?;
    Ok(())
}
