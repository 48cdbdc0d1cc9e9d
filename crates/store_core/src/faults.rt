ghost use Rattle.std.specs.Prelude.{◌≡◌};
ghost use Rattle.store_core.specs.declared.faults.CommitFault.TheVariants as commit_faults;
ghost use Rattle.store_core.specs.declared.faults.FetchFault.TheVariants as fetch_faults;
ghost use Rattle.store_core.specs.declared.faults.StoreFault.TheVariants as store_faults;

use fh_model::NoMemory;
use fh_world::Failed;
use std::alloc::AllocError;

/// Why a store wasn't opened.
#[derive(Clone, Copy, Debug, PartialEq, Eq)]
pub enum StoreFault {
    /// The disk failed.
    Disk,
    /// The head file is another program's, from this byte on.
    NotAStore { place: u64 },
    /// The record at this byte of the slot is damaged, or stands where it may not.
    Damaged { place: u64 },
    /// Memory ran out.
    NoMemory,
}

impl From<Failed> for StoreFault {
    ghost from_gives = { λ _ fault. fault ≡ store_faults.Disk };

    fn from(_: Failed) -> Self {
        StoreFault::Disk
    }
}

impl From<NoMemory> for StoreFault {
    ghost from_gives = { λ _ fault. fault ≡ store_faults.NoMemory };

    fn from(_: NoMemory) -> Self {
        StoreFault::NoMemory
    }
}

impl From<AllocError> for StoreFault {
    ghost from_gives = { λ _ fault. fault ≡ store_faults.NoMemory };

    fn from(_: AllocError) -> Self {
        StoreFault::NoMemory
    }
}

/// Why a command wasn't committed.
#[derive(Clone, Copy, Debug, PartialEq, Eq)]
pub enum CommitFault {
    /// The disk failed. `Store::waits` tells whether the command may be on it.
    Disk,
    /// Memory ran out before anything of the command was written.
    NoMemory,
}

impl From<NoMemory> for CommitFault {
    ghost from_gives = { λ _ fault. fault ≡ commit_faults.NoMemory };

    fn from(_: NoMemory) -> Self {
        CommitFault::NoMemory
    }
}

/// Why a block wasn't fetched.
#[derive(Clone, Copy, Debug, PartialEq, Eq)]
pub enum FetchFault {
    /// There is no version with this rev.
    NoRev,
    /// The version has no block with this number.
    NoBlock,
    /// The disk failed.
    Disk,
    /// Memory ran out.
    NoMemory,
}

impl From<Failed> for FetchFault {
    ghost from_gives = { λ _ fault. fault ≡ fetch_faults.Disk };

    fn from(_: Failed) -> Self {
        FetchFault::Disk
    }
}

impl From<AllocError> for FetchFault {
    ghost from_gives = { λ _ fault. fault ≡ fetch_faults.NoMemory };

    fn from(_: AllocError) -> Self {
        FetchFault::NoMemory
    }
}
