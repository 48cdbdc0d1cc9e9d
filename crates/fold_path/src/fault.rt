ghost use Rattle.std.specs.Prelude.{◌≡◌};
ghost use Rattle.fold_path.specs.declared.fault.PathFault.TheVariants as fault;

use fh_model::NoMemory;
use thiserror::Error;

/// Why a text was not read as a path.
#[derive(Clone, Copy, Debug, PartialEq, Eq, Error)]
pub enum PathFault {
    /// The text is malformed.
    #[error("malformed path")]
    Malformed,

    /// Memory ran out, which says nothing of the text.
    #[error("no memory")]
    NoMemory,
}

impl From<NoMemory> for PathFault {
    ghost from_gives = { λ _ given. given ≡ fault.NoMemory };

    fn from(_: NoMemory) -> PathFault {
        PathFault::NoMemory
    }
}
