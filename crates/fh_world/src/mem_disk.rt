ghost use Rattle.std.specs.Prelude.{◌≡◌, ◌≢◌, ◌≤◌, ◌++◌, ◌+◌, ◌∷◌, [], ℕ, List, true, length, take, drop, reverse, refl, IfOk, OnOk, OnErr, IsErr};
ghost use Rattle.std.proofs.Common.{sym, subst};
ghost use Rattle.fh_world.specs.declared.disk.FileNo.{FileNo};
ghost use Rattle.fh_world.specs.Disk.{Only};
ghost use Rattle.fh_world.specs.Replay.{content, seen_after, MayLeave, LeftSince, seen_may_leave, left_now, only_left};

use crate::calls::Calls;
use crate::contents::{Contents, Step, overwritten};
use crate::faults::{FILE_MAX_BYTES, counted, fault};
use crate::replay::replayed;
use crate::{Disk, Failed, FileNo};
use fh_model::NoMemory;
use std::alloc::{AllocError, Global};

/// A disk in memory, which keeps each call that changed it, so that a crash may leave all that `Disk` allows. The
/// calls whose numbers are in a list fail, and so does one for which memory is wanting.
#[derive(Drop)]
pub struct MemDisk {
    alloc: Global,
    files: Contents,
    /// The newest comes last.
    steps: Vec<Step>,
    calls: Calls,
    ghost replayed: { (g : FileNo) → content files g ≡ seen_after (reverse steps.items) g },
}

impl MemDisk {
    ghost use Rattle.fh_world.specs.Replay.{four};
    ghost use Rattle.fh_world.specs.Memory.{memory_seen, memory_may_leave, memory_failing};

    /// A disk whose files are empty.
    pub fn new(alloc: Global) -> Result<MemDisk, NoMemory>
        ensures seen { IfOk result (λ disk. (g : FileNo) → memory_seen disk g ≡ []) }
        ensures durable { IfOk result (λ disk. (g : FileNo) → Only (memory_seen disk g) (memory_may_leave disk g)) }
        ensures failing { IfOk result (λ disk. memory_failing disk ≡ []) }
    {
        MemDisk::durable(alloc, Contents::empty(alloc))
    }

    /// A disk whose files have these bytes, which a crash leaves.
    pub fn with(
        alloc: Global,
        head: &[u8],
        slot_a: &[u8],
        slot_b: &[u8],
        blocks: &[u8],
    ) -> Result<MemDisk, NoMemory>
        ensures seen { IfOk result (λ disk. (g : FileNo) → memory_seen disk g ≡ four head.now slot_a.now slot_b.now blocks.now g) }
        ensures durable { IfOk result (λ disk. (g : FileNo) → Only (memory_seen disk g) (memory_may_leave disk g)) }
        ensures failing { IfOk result (λ disk. memory_failing disk ≡ []) }
    {
        let files = Contents {
            head: head.to_vec(alloc)?,
            slot_a: slot_a.to_vec(alloc)?,
            slot_b: slot_b.to_vec(alloc)?,
            blocks: blocks.to_vec(alloc)?,
        };
        MemDisk::durable(alloc, files)
    }

    /// The bytes that a read of this file gives. It counts as no call.
    pub fn bytes(&self, file: FileNo) -> &[u8]
        ensures { result.now ≡ memory_seen self.now file }
    {
        self.files.bytes(file)
    }

    /// Lets the calls with these numbers fail too, the first call being number 1.
    pub fn fail_calls(&mut self, numbers: &[u64]) -> Result<(), NoMemory>
        ensures failing { OnOk result (memory_failing self.new ≡ memory_failing self.old ++ numbers.now) }
        ensures seen { (g : FileNo) → memory_seen self.new g ≡ memory_seen self.old g }
        ensures left { (g : FileNo) (c : List ℕ) → memory_may_leave self.new g c → memory_may_leave self.old g c }
    {
        self.calls.fail(numbers)
    }

    /// A disk that holds what a crash may leave of this one. Two bits of the choice stand for each call that wrote
    /// or synced a file, the newest call's the lowest, and all of them again from the 33rd newest on. Of a write
    /// that no sync followed they say whether it was lost (0), whole (1), cut after its first half (2) or before its
    /// last byte (3).
    pub fn crashed(&self, choice: u64) -> Result<MemDisk, NoMemory>
        ensures left { IfOk result (λ disk. (g : FileNo) → memory_may_leave self.now g (memory_seen disk g)) }
        ensures durable { IfOk result (λ disk. (g : FileNo) → Only (memory_seen disk g) (memory_may_leave disk g)) }
        ensures failing { IfOk result (λ disk. memory_failing disk ≡ []) }
    {
        let image = replayed(self.alloc, &self.steps, choice)?;
        MemDisk::durable(self.alloc, image)
    }

    /// A disk with these contents, each written whole and synced.
    fn durable(alloc: Global, files: Contents) -> Result<MemDisk, NoMemory>
        ensures seen { IfOk result (λ disk. (g : FileNo) → memory_seen disk g ≡ content files g) }
        ensures durable { IfOk result (λ disk. (g : FileNo) → Only (memory_seen disk g) (memory_may_leave disk g)) }
        ensures failing { IfOk result (λ disk. memory_failing disk ≡ []) }
    {
        let mut steps = Vec::new(alloc);
        settle(alloc, &mut steps, FileNo::Head, &files.head)?;
        settle(alloc, &mut steps, FileNo::SlotA, &files.slot_a)?;
        settle(alloc, &mut steps, FileNo::SlotB, &files.slot_b)?;
        settle(alloc, &mut steps, FileNo::Blocks, &files.blocks)?;
        Ok(MemDisk {
            alloc,
            files,
            steps,
            calls: Calls::new(alloc),
        })
    }
}

/// Writes a file that was empty, and syncs it.
fn settle(
    alloc: Global,
    steps: &mut Vec<Step>,
    file: FileNo,
    bytes: &[u8],
) -> Result<(), AllocError>
    ensures seen { OnOk result (seen_after (reverse steps.old.items) file ≡ [] → seen_after (reverse steps.new.items) file ≡ bytes.now) }
    ensures durable { OnOk result (seen_after (reverse steps.old.items) file ≡ [] → Only bytes.now (MayLeave (reverse steps.new.items) file)) }
    ensures others { OnOk result ((g : FileNo) → g ≢ file → seen_after (reverse steps.new.items) g ≡ seen_after (reverse steps.old.items) g) }
    ensures others_left { OnOk result ((g : FileNo) → g ≢ file → (c : List ℕ) → MayLeave (reverse steps.new.items) g c → MayLeave (reverse steps.old.items) g c) }
{
    let copy = bytes.to_vec(alloc)?;
    note(
        steps,
        Step::Written {
            file,
            at: 0,
            bytes: copy,
        },
    )?;
    note(steps, Step::Synced { file })?;
    Ok(())
}

/// Keeps one call more.
fn note(steps: &mut Vec<Step>, step: Step) -> Result<(), AllocError>
    ensures ok { OnOk result (reverse steps.new.items ≡ step ∷ reverse steps.old.items) }
    ensures err { OnErr result (steps.new.items ≡ steps.old.items) }
{
    steps.push(step)?;
    Ok(())
}

impl Disk for MemDisk {
    ghost place = { λ _. [] };

    ghost tells = { true };

    ghost seen = { λ m. content m.files };

    ghost may_leave = { λ m. MayLeave (reverse m.steps.items) };

    ghost moment = { λ m. length (reverse m.steps.items) };

    ghost left_since = { λ m. LeftSince (reverse m.steps.items) };

    ghost faults = { λ m. m.calls.faults };

    ghost seen_may_stay = { λ m g told. subst (MayLeave (reverse m.steps.items) g) (sym (m.replayed g)) (seen_may_leave (reverse m.steps.items) g) };

    ghost counts_now = { λ m. left_now (reverse m.steps.items) };

    ghost only_now = { λ m. only_left (reverse m.steps.items) };

    fn read_at(&mut self, file: FileNo, at: u64, buf: &mut [u8]) -> Result<(), Failed> {
        self.calls.attempt()?;
        let from = at as usize;
        buf.copy_from_slice(&self.files.bytes(file)[from..from + buf.len()]);
        Ok(())
    }

    fn write_at(&mut self, file: FileNo, at: u64, bytes: &[u8]) -> Result<(), Failed> {
        self.calls.attempt()?;
        if at > FILE_MAX_BYTES || bytes.len() as u64 > FILE_MAX_BYTES - at {
            return Err(fault(&mut self.calls.faults));
        }
        let old = self.files.bytes(file);
        let next = counted(
            overwritten(self.alloc, old, at as usize, bytes),
            &mut self.calls.faults,
        )?;
        let copy = counted(bytes.to_vec(self.alloc), &mut self.calls.faults)?;
        let step = Step::Written {
            file,
            at,
            bytes: copy,
        };
        counted(note(&mut self.steps, step), &mut self.calls.faults)?;
        self.files.replace(file, next);
        Ok(())
    }

    fn sync(&mut self, file: FileNo) -> Result<(), Failed> {
        self.calls.attempt()?;
        let step = Step::Synced { file };
        counted(note(&mut self.steps, step), &mut self.calls.faults)?;
        Ok(())
    }

    fn len(&mut self, file: FileNo) -> Result<u64, Failed> {
        self.calls.attempt()?;
        let len = self.files.bytes(file).len() as u64;
        if len > FILE_MAX_BYTES {
            return Err(fault(&mut self.calls.faults));
        }
        Ok(len)
    }
}
