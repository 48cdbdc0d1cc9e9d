ghost use Rattle.std.specs.Prelude.{◌≡◌, ℕ, List, true, false, IsTrue};
ghost use Rattle.gate_journal.specs.Journal.{is_pending, Settled};

use fh_model::NoMemory;
use fh_world::{Disk, FileDisk, FileNo, FuseDisk, MemDisk};
use gate_journal::{Journal, OpenFault, Record, frame, lay, open};
use std::alloc::Global;
use std::fs;
use std::test::Fail;

/// Three records of different lengths, one of them without a byte.
fn script(alloc: Global) -> Result<Vec<Record>, NoMemory> {
    let mut records = Vec::new(alloc);
    for body in [b"first".as_slice(), b"", b"the third, which is longer"] {
        records.push(frame(alloc, body)?)?;
    }
    Ok(records)
}

/// Lays an empty slot and appends the records. Answers how many were acknowledged, or None where the slot wasn't laid.
fn append_all<D: Disk>(alloc: Global, disk: &mut D, records: &[Record]) -> Option<usize> {
    let mut journal = match lay(alloc, disk, FileNo::SlotA, &[]) {
        Ok(journal) => journal,
        Err(_) => return None,
    };
    for (done, record) in records.iter().enumerate() {
        match journal.append(disk, record) {
            Ok(()) => {}
            Err(_) => return Some(done),
        }
    }
    Some(records.len())
}

/// Appends a record, with one more try after a fault.
fn append_again<D: Disk>(journal: &mut Journal, disk: &mut D, record: &Record) -> bool
    requires idle { is_pending journal.old ≡ false }
    requires settled { IsTrue D.tells → (bodies : List (List ℕ)) × Settled D.Disk disk.old journal.old bodies }
    ensures idle { result ≡ true → is_pending journal.new ≡ false }
    ensures settled { result ≡ true → IsTrue D.tells → (bodies : List (List ℕ)) × Settled D.Disk disk.new journal.new bodies }
{
    match journal.append(disk, record) {
        Ok(()) => return true,
        Err(_) => {}
    }
    if journal.pending() {
        journal.finish(disk).is_ok()
    } else {
        journal.append(disk, record).is_ok()
    }
}

/// The first records, or none where there are fewer.
fn front(records: &[Record], count: usize) -> &[Record] {
    records.get(..count).unwrap_or(&[])
}

/// Whether both are the same bodies.
fn same(left: &[Record], right: &[Record]) -> bool {
    left.len() == right.len() && left.iter().zip(right).all(|(a, b)| a.body() == b.body())
}

/// The records that a crash leaves by this choice.
fn left_by(alloc: Global, disk: &MemDisk, choice: u64) -> Result<Vec<Record>, Fail> {
    let mut image = disk.crashed(choice)?;
    let (_, left) = open(alloc, &mut image, FileNo::SlotA)?;
    Ok(left)
}

/// Whether what a crash leaves by this choice are the records that were acknowledged, so many from the first on, or one more.
fn leaves(
    alloc: Global,
    disk: &MemDisk,
    choice: u64,
    records: &[Record],
    done: usize,
) -> Result<bool, Fail> {
    let left = left_by(alloc, disk, choice)?;
    let before = same(&left, front(records, done));
    Ok(before || same(&left, front(records, done.saturating_add(1))))
}

/// The first of so many choices by which a crash leaves others, if there is one.
fn first_loss(
    alloc: Global,
    disk: &MemDisk,
    choices: u64,
    records: &[Record],
    done: usize,
) -> Result<Option<u64>, Fail> {
    for choice in 0..choices {
        if !leaves(alloc, disk, choice, records, done)? {
            return Ok(Some(choice));
        }
    }
    Ok(None)
}

/// How many of the records were acknowledged on a disk that stops after so many calls, and what it holds; none where the slot
/// wasn't laid.
fn stopped(
    alloc: Global,
    calls: u64,
    records: &[Record],
) -> Result<Option<(usize, MemDisk)>, Fail> {
    let mut fuse = FuseDisk::new(MemDisk::new(alloc)?, calls);
    match append_all(alloc, &mut fuse, records) {
        Some(done) => Ok(Some((done, fuse.into_inner()))),
        None => Ok(None),
    }
}

/// The first choice by which a crash leaves others of the records on a disk that stops after so many calls, if there is one.
fn loss_after(alloc: Global, calls: u64, records: &[Record]) -> Result<Option<u64>, Fail> {
    match stopped(alloc, calls, records)? {
        Some((done, disk)) => first_loss(alloc, &disk, 64, records, done),
        None => Ok(None),
    }
}

#[test]
fn a_stop_at_any_call_leaves_the_records_before_or_with_the_next(
    rt: HostRuntime,
) -> Result<(), Fail> {
    let records = script(rt.alloc())?;
    for calls in 0..15 {
        let loss = loss_after(rt.alloc(), calls, &records)?;
        assert!(rt; loss == None, "after {calls} calls, choice {loss:?}");
    }
    Ok(())
}

/// A record of so many bytes, each of which looks like a gate.
fn record_of(alloc: Global, len: usize) -> Result<Record, NoMemory> {
    let body = vec![in alloc; 0xa5u8; len]?;
    frame(alloc, &body)
}

/// Three records, the first and the last of which take the slot past a step by which it is extended.
fn long_script(alloc: Global) -> Result<Vec<Record>, NoMemory> {
    let mut records = Vec::new(alloc);
    records.push(record_of(alloc, 600)?)?;
    records.push(record_of(alloc, 1)?)?;
    records.push(record_of(alloc, 65_600)?)?;
    Ok(records)
}

/// Whether a disk that stops after so many calls is extended where it has two of the records, and each crash leaves those
/// that were acknowledged, or one more.
fn is_kept(alloc: Global, calls: u64, records: &[Record]) -> Result<bool, Fail> {
    let Some((done, disk)) = stopped(alloc, calls, records)? else {
        return Ok(true);
    };
    let is_extended = done < 2 || 65_000 < disk.bytes(FileNo::SlotA).len();
    Ok(is_extended && first_loss(alloc, &disk, 16, records, done)?.is_none())
}

#[test]
fn a_stop_of_a_slot_that_is_extended_leaves_no_less(rt: HostRuntime) -> Result<(), Fail> {
    let records = long_script(rt.alloc())?;
    for calls in 0..20 {
        let is_kept = is_kept(rt.alloc(), calls, &records)?;
        assert!(rt; is_kept, "after {calls} calls");
    }
    Ok(())
}

/// Whether each crash leaves these records.
fn each_leaves(alloc: Global, disk: &MemDisk, records: &[Record]) -> Result<bool, Fail> {
    for choice in 0..64 {
        if !same(&left_by(alloc, disk, choice)?, records) {
            return Ok(false);
        }
    }
    Ok(true)
}

/// Whether each record is acknowledged, and left by each crash from then on, on a disk whose call with this number fails,
/// where each record is tried once more.
fn is_made_good(alloc: Global, records: &[Record], number: u64) -> Result<bool, Fail> {
    let mut disk = MemDisk::new(alloc)?;
    disk.fail_calls(&[number])?;
    let mut journal = lay(alloc, &mut disk, FileNo::SlotA, &[])?;
    for (done, record) in records.iter().enumerate() {
        if !append_again(&mut journal, &mut disk, record) {
            return Ok(false);
        }
        if !each_leaves(alloc, &disk, front(records, done + 1))? {
            return Ok(false);
        }
    }
    Ok(true)
}

#[test]
fn a_fault_at_any_call_is_made_good_by_one_more_try(rt: HostRuntime) -> Result<(), Fail> {
    let records = script(rt.alloc())?;
    for number in 3..15 {
        let is_made_good = is_made_good(rt.alloc(), &records, number)?;
        assert!(rt; is_made_good, "call {number}");
    }
    Ok(())
}

/// Appends one more record where the slot has these and is open again. Answers whether it had them.
fn append_fourth(alloc: Global, disk: &mut FileDisk, records: &[Record]) -> Result<bool, Fail> {
    let (mut journal, left) = open(alloc, disk, FileNo::SlotA)?;
    if !same(&left, records) || journal.slot() != FileNo::SlotA || journal.pending() {
        return Ok(false);
    }
    journal.append(disk, &frame(alloc, b"fourth")?)?;
    Ok(true)
}

/// How many records a slot has, or why it isn't opened.
fn count_in<D: Disk>(alloc: Global, disk: &mut D, slot: FileNo) -> Result<usize, OpenFault> {
    let (_, records) = open(alloc, disk, slot)?;
    Ok(records.len())
}

/// Whether the records are appended to slot A in the folder.
fn are_appended(rt: HostRuntime, folder: &str, records: &[Record]) -> bool {
    let mut disk = FileDisk::open(&rt, folder);
    append_all(rt.alloc(), &mut disk, records) == Some(records.len())
}

/// Whether slot A in the folder has the records and takes a fourth, and there is no slot B.
fn goes_on(rt: HostRuntime, folder: &str, records: &[Record]) -> Result<bool, Fail> {
    let mut disk = FileDisk::open(&rt, folder);
    if !append_fourth(rt.alloc(), &mut disk, records)? {
        return Ok(false);
    }
    let has_four = count_in(rt.alloc(), &mut disk, FileNo::SlotA) == Ok(4);
    Ok(has_four && count_in(rt.alloc(), &mut disk, FileNo::SlotB) == DAMAGED_AT_ONCE)
}

#[test]
fn a_slot_in_a_folder_is_read_again(rt: HostRuntime) -> Result<(), Fail> {
    let records = script(rt.alloc())?;
    fs::create_dir(&rt, "journal")?;
    let are_appended = are_appended(rt, "journal", &records);
    assert!(rt; are_appended && goes_on(rt, "journal", &records)?);
    Ok(())
}

/// Lays slot B, which is whether it is a closed gate then, and appends a record.
fn append_behind_gate(alloc: Global, disk: &mut MemDisk) -> Result<bool, Fail> {
    let mut journal = lay(alloc, disk, FileNo::SlotB, &[])?;
    let is_gate = disk.bytes(FileNo::SlotB) == [0].as_slice();
    let record = frame(alloc, b"ab")?;
    journal.append(disk, &record)?;
    Ok(is_gate)
}

#[test]
fn a_slot_is_these_bytes(rt: HostRuntime) -> Result<(), Fail> {
    let mut disk = MemDisk::new(rt.alloc())?;
    let is_laid = append_behind_gate(rt.alloc(), &mut disk)?;
    assert!(rt; is_laid);
    assert!(rt; disk.bytes(FileNo::SlotB) == b"\xa5\0\0\0\0\0\0\0\x02ab\0".as_slice());
    Ok(())
}

/// What is answered where the first gate is not there, or nothing whole stands behind it.
const DAMAGED_AT_ONCE: Result<usize, OpenFault> = Err(OpenFault::Damaged { place: 0 });

/// The bytes of a slot, and how many records it has, or why it isn't opened.
static SLOTS: [(&[u8], Result<usize, OpenFault>); 13] = [
    (b"", DAMAGED_AT_ONCE),
    (b"\0", Ok(0)),
    (b"\x5a\xa5", Ok(0)),
    (b"\xa5", DAMAGED_AT_ONCE),
    (b"\xa5\0\0\0\0\0\0\0", DAMAGED_AT_ONCE),
    (b"\xa5\0\0\0\0\0\0\0\0", DAMAGED_AT_ONCE),
    (b"\xa5\0\0\0\0\0\0\0\0\0", Ok(1)),
    (b"\xa5\0\0\0\0\0\0\0\x01x", DAMAGED_AT_ONCE),
    (b"\xa5\0\0\0\0\0\0\0\x01x\xff", Ok(1)),
    (
        b"\xa5\0\0\0\0\0\0\0\x01x\xa5",
        Err(OpenFault::Damaged { place: 10 }),
    ),
    (b"\xa5\0\0\0\0\0\0\0\x02x", DAMAGED_AT_ONCE),
    (b"\xa5\x40\0\0\0\0\0\0\0x\0", DAMAGED_AT_ONCE),
    (b"\xa5\xff\xff\xff\xff\xff\xff\xff\xffx\0", DAMAGED_AT_ONCE),
];

/// Whether a slot of these bytes is answered so, and stays.
fn is_answered(
    alloc: Global,
    bytes: &[u8],
    answer: &Result<usize, OpenFault>,
) -> Result<bool, Fail> {
    let mut disk = MemDisk::with(alloc, b"", bytes, b"", b"")?;
    let found = count_in(alloc, &mut disk, FileNo::SlotA);
    Ok(found == *answer && disk.bytes(FileNo::SlotA) == bytes)
}

#[test]
fn slots_that_are_cut_or_torn_have_their_answers(rt: HostRuntime) -> Result<(), Fail> {
    for (bytes, answer) in &SLOTS {
        let is_answered = is_answered(rt.alloc(), *bytes, answer)?;
        assert!(rt; is_answered, "of {} bytes", bytes.len());
    }
    Ok(())
}
