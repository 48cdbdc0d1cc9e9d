//! What stays on the disk between runs, and after a stop.
use super::{DOCS, DOCS_AGAIN, MADE, PIPE, TAKEN, ends_untold, has_line, joined, run_over, tells};
use fh_model::Row;
use fh_world::{FileNo, FuseDisk, MemDisk};
use host_top::{Status, exit_code};
use std::alloc::Global;
use std::test::*;
use store_core::Store;

const SPENT: &[u8] =
    b"HTTP/1.1 409 Conflict\r\nContent-Type: application/json\r\nContent-Length: 70\r\n\r\n{\"error\":{\".tag\":\"numbers_spent\"},\"error_summary\":\"numbers_spent/...\"}";

/// Whether the head and slot A have so many bytes.
fn has_lengths(disk: &MemDisk, head: usize, slot: usize) -> bool {
    disk.bytes(FileNo::Head).len() == head && disk.bytes(FileNo::SlotA).len() == slot
}

/// Whether a run over a new disk makes a store, and two later runs find what the earlier ones made.
fn is_kept(rt: &HostRuntime, disk: &mut MemDisk) -> Result<bool, Fail> {
    let opens = tells(rt, disk, &[], Status::Done, &[])?;
    let is_new = has_lengths(disk, 18, 125);
    let makes = tells(rt, disk, &[DOCS], Status::Done, &[MADE])?;
    let keeps = tells(rt, disk, &[DOCS_AGAIN], Status::Done, &[TAKEN])?;
    Ok(opens && is_new && makes && keeps && has_lengths(disk, 18, 169))
}

#[test]
fn a_store_is_kept_between_two_runs(rt: HostRuntime) -> Result<(), Fail> {
    let mut disk = MemDisk::new(rt.alloc())?;
    let is_kept = is_kept(&rt, &mut disk)?;
    assert!(rt; is_kept);
    assert!(rt; disk.bytes(FileNo::SlotB).is_empty() && disk.bytes(FileNo::Blocks).is_empty());
    Ok(())
}

/// The bytes of the head of a store.
const HEAD: &[u8] = b"\xa5filehost store 1\x01";

/// A head and a slot A, and how a run over them ends, with its line.
static NO_STORES: [(&[u8], &[u8], Status, &str); 3] = [
    (
        b"\xa5\0\0\0\0\0\0\0\0\0\0\0\0\0\0\0\0\0",
        b"",
        Status::NotAStore { place: 1 },
        "filehost: not a store at byte 1",
    ),
    (
        HEAD,
        b"",
        Status::Damaged { place: 0 },
        "filehost: damaged at byte 0",
    ),
    (
        HEAD,
        b"\xa5\0\0\0\0\0\0\0\x01\x07\0",
        Status::Damaged { place: 0 },
        "filehost: damaged at byte 0",
    ),
];

/// Whether a run over a head and a slot A ends so, tells nothing and leaves them.
fn are_left(rt: &HostRuntime, head: &[u8], slot: &[u8], end: Status) -> Result<bool, Fail> {
    let mut disk = MemDisk::with(rt.alloc(), head, slot, b"", b"")?;
    let is_untold = ends_untold(rt, &mut disk, &PIPE, end)?;
    Ok(is_untold && disk.bytes(FileNo::Head) == head && disk.bytes(FileNo::SlotA) == slot)
}

#[test]
fn files_that_hold_no_store_are_told(rt: HostRuntime) -> Result<(), Fail> {
    for (head, slot, end, line) in &NO_STORES {
        assert!(rt; are_left(&rt, *head, *slot, *end)?);
        assert!(rt; exit_code(*end) == 3 && has_line(rt.alloc(), *end, *line)?);
    }
    Ok(())
}

/// The place of the record that a slot with three rows and one command loses where it is cut to this length.
fn cut_record(length: usize) -> u64 {
    match length {
        0..=58 => 0,
        59..=85 => 58,
        86..=124 => 85,
        _ => 124,
    }
}

/// The slot A that a run with this input leaves on an empty disk.
fn slot_behind(rt: &HostRuntime, input: &[u8]) -> Result<Vec<u8>, Fail> {
    let mut disk = MemDisk::new(rt.alloc())?;
    run_over(rt, &mut disk, &PIPE, input, &[], &[])?;
    Ok(Vec::from_slice(rt.alloc(), disk.bytes(FileNo::SlotA))?)
}

#[test]
fn a_store_cut_at_any_byte_is_damaged_at_its_record(rt: HostRuntime) -> Result<(), Fail> {
    let slot = slot_behind(&rt, DOCS)?;
    assert!(rt; slot.len() == 169);
    for length in 0..slot.len() {
        let place = cut_record(length);
        let is_damaged = are_left(&rt, HEAD, &slot[..length], Status::Damaged { place })?;
        assert!(rt; is_damaged, "cut to {length}");
    }
    Ok(())
}

/// Writes a byte at a place where there is one.
fn put_byte(bytes: &mut [u8], place: usize, byte: u8) {
    match bytes.get_mut(place) {
        Some(found) => *found = byte,
        None => {}
    }
}

/// The slot A of a new store whose ids are spent.
fn spent_slot(rt: &HostRuntime) -> Result<Vec<u8>, Fail> {
    let mut slot = slot_behind(rt, b"")?;
    // The next id stands behind the gate, the length, the kind and the next rev; 2^62 is the first that is spent.
    put_byte(&mut slot, 18, 0x40);
    put_byte(&mut slot, 25, 0);
    Ok(slot)
}

#[test]
fn a_spent_counter_refuses_and_leaves_the_slot(rt: HostRuntime) -> Result<(), Fail> {
    let slot = spent_slot(&rt)?;
    let mut disk = MemDisk::with(rt.alloc(), HEAD, &slot, b"", b"")?;
    let is_refused = tells(&rt, &mut disk, &[DOCS], Status::Done, &[SPENT])?;
    assert!(rt; is_refused && disk.bytes(FileNo::SlotA) == slot.as_slice());
    Ok(())
}

/// What a disk holds where it is opened.
#[derive(Clone, Copy, PartialEq, Eq)]
enum Held {
    /// A new store.
    Before,

    /// The store in which `/Docs` was made at 1,700,000,000.
    After,

    /// Anything else, or no store.
    Other,
}

/// The machine of the counters: the next id and the last moment tell whether the folder was made.
fn counted(counters: &Row) -> Held {
    let Row::Counters {
        rev: 1,
        id,
        session: 1,
        user: 2,
        namespace: 2,
        moment,
    } = counters
    else {
        return Held::Other;
    };
    match (*id, *moment) {
        (1, 0) => Held::Before,
        (2, 1_700_000_000) => Held::After,
        _ => Held::Other,
    }
}

/// The machine of the home: its journal tells whether the folder was made.
fn grown(namespace: &Row) -> Held {
    let Row::Namespace {
        number: 1,
        shared: false,
        floor: 0,
        length,
        members,
    } = namespace
    else {
        return Held::Other;
    };
    if !members.as_slice().is_empty() {
        return Held::Other;
    }
    match *length {
        0 => Held::Before,
        1 => Held::After,
        _ => Held::Other,
    }
}

fn is_first_user(user: &Row) -> bool {
    matches!(
        user,
        Row::User {
            number: 1,
            home: 1,
            token: None,
        }
    )
}

/// What all rows of an image say that the disk holds.
fn held_by(rows: &[Row]) -> Held {
    let [counters, user, namespace] = rows else {
        return Held::Other;
    };
    let found = counted(counters);
    if is_first_user(user) && grown(namespace) == found {
        return found;
    }
    Held::Other
}

/// What the disk holds, by all rows of the reopened image.
fn stands(alloc: Global, disk: MemDisk) -> Held {
    let Ok(store) = Store::open(alloc, disk) else {
        return Held::Other;
    };
    match store.image().rows() {
        Ok(rows) => held_by(&rows),
        Err(_) => Held::Other,
    }
}

/// The first choice by which a crash loses what was acknowledged, or leaves anything else, if there is one.
fn first_loss(alloc: Global, disk: &MemDisk, acknowledged: bool) -> Result<Option<u64>, Fail> {
    for choice in 0..32 {
        let found = stands(alloc, disk.crashed(choice)?);
        let lawful = found == Held::After || (found == Held::Before && !acknowledged);
        if !lawful {
            return Ok(Some(choice));
        }
    }
    Ok(None)
}

/// Whether a run over the disk makes the folder. It fails where the run doesn't end accordingly.
fn acknowledges(rt: &HostRuntime, disk: &mut FuseDisk<MemDisk>) -> Result<bool, Fail> {
    let input = joined(rt.alloc(), &[DOCS, DOCS_AGAIN])?;
    let (status, sink) = run_over(rt, disk, &PIPE, &input, &[], &[])?;
    let acknowledged = sink.bytes().starts_with(MADE);
    match (acknowledged, status) {
        (true, Status::Done) | (false, Status::DiskFault) => Ok(acknowledged),
        _ => Err("another end".into()),
    }
}

/// Whether the folder is made on a disk that stops after so many calls, and what that holds.
fn stopped(rt: &HostRuntime, calls: u64) -> Result<(bool, MemDisk), Fail> {
    let mut fuse = FuseDisk::new(MemDisk::new(rt.alloc())?, calls);
    let acknowledged = acknowledges(rt, &mut fuse)?;
    Ok((acknowledged, fuse.into_inner()))
}

/// The first choice by which a crash loses what was acknowledged on a disk that stops after so many calls, if there is one.
/// It fails where the folder isn't made after 23.
fn loss_after(rt: &HostRuntime, calls: u64) -> Result<Option<u64>, Fail> {
    let (acknowledged, disk) = stopped(rt, calls)?;
    if calls >= 23 && !acknowledged {
        return Err("no folder".into());
    }
    first_loss(rt.alloc(), &disk, acknowledged)
}

#[test]
fn a_stop_at_any_call_of_the_disk_loses_nothing_acknowledged(rt: HostRuntime) -> Result<(), Fail> {
    for calls in 0..24 {
        let loss = loss_after(&rt, calls)?;
        assert!(rt; loss == None, "after {calls} calls, choice {loss:?}");
    }
    Ok(())
}
