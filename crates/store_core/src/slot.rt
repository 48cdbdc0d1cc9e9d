//! The slot that counts.
ghost use Rattle.std.specs.Prelude.{◌≡◌, ◌<◌, ◌^◌, ◌≤◌, ◌∷◌, [], ℕ, false, length, List, IsTrue, IfOk, Ok, Err, IsErrOf};
ghost use Rattle.fh_model.specs.History.{state_of, state_after};
ghost use Rattle.fh_model.specs.Pieces.{end_in, ends_within, lies_within};
ghost use Rattle.fh_world.specs.Causes.{CountsOnce, Rose};
ghost use Rattle.fh_world.specs.declared.FileNo.{FileNo};
ghost use Rattle.fh_world.specs.declared.FileNo.TheVariants.{Blocks};
ghost use Rattle.fh_world.specs.Disk.{Rests, LeavesOnly};
ghost use Rattle.gate_journal.specs.Journal.{slot_of, is_pending};
ghost use Rattle.gate_journal.specs.Slot.{records as spelled};
ghost use Rattle.store_core.specs.Bodies.{state_in_time, first_beyond, read_bodies, read_slot, place_of};
ghost use Rattle.store_core.specs.Open.{ReadsSlot};
ghost use Rattle.store_core.specs.Store.{StandFor};

use crate::StoreFault;
use crate::bodies::{RecordFault, bodies_of, parts_of};
use fh_model::{Act, Cmd, LAST_SECOND, NoMemory, Piece, Row};
use fh_world::{Disk, FileNo};
use gate_journal::{Journal, OpenFault, Record, open};
use name_core::{Image, RowsFault};
use std::alloc::Global;

/// Reads the slot over the block file: its journal, and the image of the state that its records stand for, which keeps
/// no command.
pub(crate) fn read<D: Disk>(
    alloc: Global,
    disk: &mut D,
    slot: FileNo,
) -> Result<(Journal, Image), StoreFault>
    ensures image { IfOk result (λ opened. opened.1.history ≡ []) }
    ensures end { IfOk result (λ opened. end_in opened.1.start ≤ 2 ^ 62) }
    ensures idle { IfOk result (λ opened. is_pending opened.0 ≡ false) }
    ensures slot { IfOk result (λ opened. slot_of opened.0 ≡ slot) }
    ensures reads { IfOk result (λ opened. IsTrue D.tells → ReadsSlot D.Disk disk.old disk.new slot opened.0 (length (D.seen disk.old Blocks)) opened.1.start) }
    ensures damaged { (place : ℕ) → IsErrOf result (StoreFault.Damaged place) → IsTrue D.tells → read_slot (length (D.seen disk.old Blocks)) (D.seen disk.old slot) ≡ Err place }
    ensures only { (place : ℕ) → IsErrOf result (StoreFault.NotAStore place) → ⊥ }
    ensures rests { Rests (D.seen disk.old) (D.seen disk.new) (D.may_leave disk.old) (D.may_leave disk.new) }
    ensures any_moment { LeavesOnly D.moment D.left_since disk.old disk.new (λ image. (g : FileNo) → D.may_leave disk.old g (image g)) }
    ensures place { D.place disk.new ≡ D.place disk.old }
    ensures later { D.faults disk.old ≤ D.faults disk.new }
    ensures cause { IsErrOf result StoreFault.Disk → Rose (D.faults disk.old) (D.faults disk.new) }
    ensures once { CountsOnce (D.faults disk.old) (D.faults disk.new) result }
    ensures quiet { ¬ IsErrOf result StoreFault.Disk → D.faults disk.new ≡ D.faults disk.old }
{
    let len = disk.len(FileNo::Blocks)?;
    read_over(alloc, disk, slot, len)
}

/// Reads the slot over a block file of so many bytes.
fn read_over<D: Disk>(
    alloc: Global,
    disk: &mut D,
    slot: FileNo,
    len: u64,
) -> Result<(Journal, Image), StoreFault>
    ensures image { IfOk result (λ opened. opened.1.history ≡ []) }
    ensures end { IfOk result (λ opened. end_in opened.1.start ≤ len) }
    ensures idle { IfOk result (λ opened. is_pending opened.0 ≡ false) }
    ensures slot { IfOk result (λ opened. slot_of opened.0 ≡ slot) }
    ensures reads { IfOk result (λ opened. IsTrue D.tells → ReadsSlot D.Disk disk.old disk.new slot opened.0 len opened.1.start) }
    ensures damaged { (place : ℕ) → IsErrOf result (StoreFault.Damaged place) → IsTrue D.tells → read_slot len (D.seen disk.old slot) ≡ Err place }
    ensures only { (place : ℕ) → IsErrOf result (StoreFault.NotAStore place) → ⊥ }
    ensures rests { Rests (D.seen disk.old) (D.seen disk.new) (D.may_leave disk.old) (D.may_leave disk.new) }
    ensures any_moment { LeavesOnly D.moment D.left_since disk.old disk.new (λ image. (g : FileNo) → D.may_leave disk.old g (image g)) }
    ensures place { D.place disk.new ≡ D.place disk.old }
    ensures later { D.faults disk.old ≤ D.faults disk.new }
    ensures cause { IsErrOf result StoreFault.Disk → Rose (D.faults disk.old) (D.faults disk.new) }
    ensures once { CountsOnce (D.faults disk.old) (D.faults disk.new) result }
    ensures quiet { ¬ IsErrOf result StoreFault.Disk → D.faults disk.new ≡ D.faults disk.old }
{
    let (journal, records) = match open(alloc, disk, slot) {
        Ok(opened) => opened,
        Err(OpenFault::Disk) => return Err(StoreFault::Disk),
        Err(OpenFault::Damaged { place }) => return Err(StoreFault::Damaged { place }),
        Err(OpenFault::NoMemory) => return Err(StoreFault::NoMemory),
    };
    match image_of(alloc, len, &records) {
        Ok(image) => Ok((journal, image)),
        Err(RecordFault::NoMemory) => Err(StoreFault::NoMemory),
        Err(RecordFault::Bad { index }) => Err(StoreFault::Damaged {
            place: place_of(&records, index),
        }),
    }
}

/// The image of the state that records stand for over a block file of so many bytes. It keeps no command.
fn image_of(alloc: Global, len: u64, records: &[Record]) -> Result<Image, RecordFault>
    ensures history { IfOk result (λ image. image.history ≡ []) }
    ensures stand { IfOk result (λ image. StandFor len records.now image.start) }
    ensures end { IfOk result (λ image. end_in image.start ≤ len) }
    ensures bad { (index : ℕ) → IsErrOf result (RecordFault.Bad index) → read_bodies len records.now ≡ Err index }
{
    let bodies = bodies_of(alloc, records)?;
    let (rows, commands) = parts_of(alloc, bodies)?;
    let image = image_of_rows(alloc, &rows)?;
    if let Some(index) = first_beyond(len, rows.len(), &commands) {
        return Err(RecordFault::Bad { index });
    }
    let image = replayed(image, &commands)?;
    let image = image.forget()?;
    Ok(image)
}

/// The number of the first command that names a piece beyond a block file of so many bytes, where the first of all has
/// this number.
fn first_beyond(len: u64, first: usize, commands: &[Cmd]) -> Option<usize>
    requires { first < 2 ^ 63 }
    ensures { result ≡ first_beyond len first commands.now }
{
    let mut index = first;
    for cmd in commands {
        if !lies_within(len, cmd) {
            return Some(index);
        }
        index += 1;
    }
    None
}

/// Whether each piece that the command names ends within a block file of so many bytes.
fn lies_within(len: u64, cmd: &Cmd) -> bool
    ensures { result ≡ lies_within len cmd.now }
{
    match &cmd.act {
        Act::MakeFolder { .. } => true,
        Act::Upload { last, .. } => match last {
            None => true,
            Some(piece) => ends_within(len, piece),
        },
    }
}

fn ends_within(len: u64, piece: &Piece) -> bool
    ensures { result ≡ ends_within len piece.now }
{
    piece.place <= len && piece.len as u64 <= len - piece.place
}

/// The image of rows whose last moment is one that a clock tells.
fn image_of_rows(alloc: Global, rows: &[Row]) -> Result<Image, RecordFault>
    ensures state { IfOk result (λ image. state_in_time rows.now ≡ Ok (state_of image)) }
    ensures bad { (index : ℕ) → IsErrOf result (RecordFault.Bad index) → state_in_time rows.now ≡ Err index }
{
    let image = match Image::from_rows(alloc, rows) {
        Ok(image) => image,
        Err(RowsFault::NoMemory) => return Err(RecordFault::NoMemory),
        Err(RowsFault::Bad { row }) => return Err(RecordFault::Bad { index: row }),
    };
    if image.moment() > LAST_SECOND {
        return Err(RecordFault::Bad { index: 0 });
    }
    Ok(image)
}

/// The image after commands.
fn replayed(image: Image, commands: &[Cmd]) -> Result<Image, NoMemory>
    ensures { IfOk result (λ after. state_of after ≡ state_after (state_of image) commands.now) }
{
    let mut image = image;
    for cmd in commands {
        let (next, _) = image.apply(cmd)?;
        image = next;
    }
    Ok(image)
}

/// The place of the record with this number, or of the records' end, where a slot holds these records.
fn place_of(records: &[Record], index: usize) -> u64
    ensures { length (spelled records.now) ≤ 2 ^ 62 → result ≡ place_of records.now index }
{
    if index < records.len() {
        length_of(&records[..index])
    } else {
        length_of(records)
    }
}

/// How many bytes records take.
fn length_of(records: &[Record]) -> u64
    ensures { length (spelled records.now) ≤ 2 ^ 62 → result ≡ length (spelled records.now) }
{
    let mut place = 0u64;
    for record in records {
        place = place.saturating_add(9 + record.body().len() as u64);
    }
    place
}
