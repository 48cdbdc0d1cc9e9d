//! `journal_bench FOLDER COUNT BYTES` lays slot A in a folder and appends records to it, so that a script can time it.
//!
//! Its status is 0 once each of COUNT records of BYTES bytes is acknowledged, 2 where the words are of another form,
//! 4 after a fault of the disk and 5 where memory is wanting. It writes nothing else.
#![tactic(auto)]

ghost use Rattle.std.specs.Prelude.{◌≡◌, ℕ, List, false, IsTrue};
ghost use Rattle.gate_journal.specs.Journal.{is_pending, Settled};

use fh_world::{Disk, FileDisk, FileNo};
use gate_journal::{Journal, LayFault, Record, frame, lay};
use std::process::ExitCode;
use std::{env, io};

/// How a run ended, with its status.
#[derive(Clone, Copy, Debug, PartialEq, Eq)]
enum Status {
    Done = 0,
    Usage = 2,
    DiskFault = 4,
    NoMemory = 5,
}

/// A folder, how many records, and the bytes of each.
#[derive(Drop)]
struct Plan {
    folder: String,
    count: u64,
    bytes: usize,
}

/// The plan that the program's words spell.
fn plan_of(rt: &HostRuntime) -> io::Result<Option<Plan>> {
    let mut words = env::args(rt)?.skip(1);
    let (Some(folder), Some(count), Some(bytes), None) = (
        words.next(),
        words.next(),
        words.next(),
        words.next(),
    ) else {
        return Ok(None);
    };
    let (Ok(count), Ok(bytes)) = (count.parse(), bytes.parse()) else {
        return Ok(None);
    };
    Ok(Some(Plan {
        folder,
        count,
        bytes,
    }))
}

/// Appends the record so many times. False says that the disk failed.
fn append_many<D: Disk>(journal: Journal, disk: &mut D, record: &Record, count: u64) -> bool
    requires idle { is_pending journal ≡ false }
    requires settled { IsTrue D.tells → (bodies : List (List ℕ)) × Settled D.Disk disk.old journal bodies }
{
    let mut journal = journal;
    for _ in 0..count {
        match journal.append(disk, record) {
            Ok(()) => {}
            Err(_) => return false,
        }
    }
    true
}

fn run(rt: &HostRuntime) -> Status {
    let alloc = rt.alloc();
    let Ok(Some(plan)) = plan_of(rt) else {
        return Status::Usage;
    };
    let Ok(body) = vec![in alloc; 0x61u8; plan.bytes] else {
        return Status::NoMemory;
    };
    let Ok(record) = frame(alloc, &body) else {
        return Status::NoMemory;
    };
    let mut disk = FileDisk::open(rt, plan.folder.as_str());
    let journal = match lay(alloc, &mut disk, FileNo::SlotA, &[]) {
        Ok(journal) => journal,
        Err(LayFault::Disk) => return Status::DiskFault,
        Err(LayFault::NoMemory) => return Status::NoMemory,
    };
    if append_many(journal, &mut disk, &record, plan.count) {
        Status::Done
    } else {
        Status::DiskFault
    }
}

fn main(rt: HostRuntime) -> ExitCode {
    ExitCode::from(run(&rt) as u8)
}
