ghost use Rattle.std.specs.Prelude.{◌≡◌};
ghost use Rattle.gate_journal.specs.declared.faults.LayFault.TheVariants as lay_faults;
ghost use Rattle.gate_journal.specs.declared.faults.OpenFault.TheVariants as open_faults;

use fh_model::NoMemory;
use fh_world::Failed;
use std::alloc::AllocError;

/// Why a record wasn't appended.
#[derive(Clone, Copy, Debug, PartialEq, Eq)]
pub enum AppendFault {
    /// The disk failed. Whether the record waits for its gate is told by `Journal::pending`.
    Disk,
}

impl From<Failed> for AppendFault {
    fn from(_: Failed) -> Self {
        AppendFault::Disk
    }
}

/// Why a slot wasn't written anew.
#[derive(Clone, Copy, Debug, PartialEq, Eq)]
pub enum LayFault {
    /// The disk failed. What the slot stands for is open.
    Disk,
    /// Memory ran out before anything was written.
    NoMemory,
}

impl From<Failed> for LayFault {
    ghost from_gives = { λ _ fault. fault ≡ lay_faults.Disk };

    fn from(_: Failed) -> Self {
        LayFault::Disk
    }
}

impl From<AllocError> for LayFault {
    ghost from_gives = { λ _ fault. fault ≡ lay_faults.NoMemory };

    fn from(_: AllocError) -> Self {
        LayFault::NoMemory
    }
}

/// Why a slot's records weren't read.
#[derive(Clone, Copy, Debug, PartialEq, Eq)]
pub enum OpenFault {
    /// The disk failed.
    Disk,
    /// The file has no byte behind the open-gated record at this place, or no byte at all.
    Damaged { place: u64 },
    /// Memory ran out.
    NoMemory,
}

impl From<Failed> for OpenFault {
    ghost from_gives = { λ _ fault. fault ≡ open_faults.Disk };

    fn from(_: Failed) -> Self {
        OpenFault::Disk
    }
}

impl From<AllocError> for OpenFault {
    ghost from_gives = { λ _ fault. fault ≡ open_faults.NoMemory };

    fn from(_: AllocError) -> Self {
        OpenFault::NoMemory
    }
}

impl From<NoMemory> for OpenFault {
    ghost from_gives = { λ _ fault. fault ≡ open_faults.NoMemory };

    fn from(_: NoMemory) -> Self {
        OpenFault::NoMemory
    }
}
