ghost use Rattle.std.specs.Prelude.{◌≡◌, ◌≢◌, ◌≤◌, ◌++◌, ◌+◌, [], length, take, drop, IfOk};
ghost use Rattle.fh_world.specs.declared.disk.FileNo.{FileNo};
ghost use Rattle.fh_world.specs.Replay.{content};

use crate::FileNo;
use std::alloc::{AllocError, Global};

/// The four files of a disk in memory.
#[derive(Drop)]
pub(crate) struct Contents {
    pub(crate) head: Vec<u8>,
    pub(crate) slot_a: Vec<u8>,
    pub(crate) slot_b: Vec<u8>,
    pub(crate) blocks: Vec<u8>,
}

/// A call that changed a file, or that a crash no longer undoes.
#[derive(Drop)]
pub(crate) enum Step {
    Written {
        file: FileNo,
        at: u64,
        bytes: Vec<u8>,
    },
    Synced {
        file: FileNo,
    },
}

impl Contents {
    /// Four files of no bytes.
    pub(crate) fn empty(alloc: Global) -> Contents
        ensures { (g : FileNo) → content result g ≡ [] }
    {
        Contents {
            head: Vec::new(alloc),
            slot_a: Vec::new(alloc),
            slot_b: Vec::new(alloc),
            blocks: Vec::new(alloc),
        }
    }

    /// The bytes of a file.
    pub(crate) fn bytes(&self, file: FileNo) -> &[u8]
        ensures { result.now ≡ content self.now file }
    {
        match file {
            FileNo::Head => &self.head,
            FileNo::SlotA => &self.slot_a,
            FileNo::SlotB => &self.slot_b,
            FileNo::Blocks => &self.blocks,
        }
    }

    /// Puts these bytes in place of a file's.
    pub(crate) fn replace(&mut self, file: FileNo, bytes: Vec<u8>)
        ensures own { content self.new file ≡ bytes.items }
        ensures others { (g : FileNo) → g ≢ file → content self.new g ≡ content self.old g }
    {
        match file {
            FileNo::Head => self.head = bytes,
            FileNo::SlotA => self.slot_a = bytes,
            FileNo::SlotB => self.slot_b = bytes,
            FileNo::Blocks => self.blocks = bytes,
        }
    }
}

/// A file's bytes with these at a place in it.
pub(crate) fn overwritten(
    alloc: Global,
    old: &[u8],
    at: usize,
    bytes: &[u8],
) -> Result<Vec<u8>, AllocError>
    requires { at ≤ length old.now }
    ensures { IfOk result (λ next. next.items ≡ take at old.now ++ bytes.now ++ drop (at + length bytes.now) old.now) }
{
    let mut next = old[..at].to_vec(alloc)?;
    next.extend_from_slice(bytes)?;
    if bytes.len() < old.len() - at {
        next.extend_from_slice(&old[at + bytes.len()..])?;
    }
    Ok(next)
}
