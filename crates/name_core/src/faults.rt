ghost use Rattle.std.specs.Prelude.{◌≡◌};
ghost use Rattle.name_core.specs.declared.faults.LookFault.TheVariants as look_faults;
ghost use Rattle.name_core.specs.declared.faults.RowsFault.TheVariants as rows_faults;

use fh_model::NoMemory;
use std::alloc::{AllocError, AllocFailed};

/// Why rows gave no image.
#[derive(Clone, Copy, Debug, PartialEq, Eq)]
pub enum RowsFault {
    /// The row at this place is the first that breaks a rule. A row of counters that is missing is missed behind the
    /// last row.
    Bad { row: usize },

    /// Memory ran out.
    NoMemory,
}

impl From<NoMemory> for RowsFault {
    ghost from_gives = { λ _ fault. fault ≡ rows_faults.NoMemory };

    fn from(_: NoMemory) -> Self {
        RowsFault::NoMemory
    }
}

impl From<AllocError> for RowsFault {
    ghost from_gives = { λ _ fault. fault ≡ rows_faults.NoMemory };

    fn from(_: AllocError) -> Self {
        RowsFault::NoMemory
    }
}

impl<T: Drop> From<AllocFailed<T>> for RowsFault {
    ghost from_gives = { λ _ fault. fault ≡ rows_faults.NoMemory };

    fn from(_: AllocFailed<T>) -> Self {
        RowsFault::NoMemory
    }
}

/// Why a path led to nothing.
#[derive(Clone, Copy, Debug, PartialEq, Eq)]
pub enum LookFault {
    /// The text is malformed.
    Malformed,

    /// Nothing stands there, or nothing that the user sees.
    NotFound,

    /// Memory ran out.
    NoMemory,
}

impl From<NoMemory> for LookFault {
    ghost from_gives = { λ _ fault. fault ≡ look_faults.NoMemory };

    fn from(_: NoMemory) -> Self {
        LookFault::NoMemory
    }
}
