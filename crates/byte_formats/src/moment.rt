ghost use Rattle.std.specs.Prelude.{◌≡◌, IsErrOf};
ghost use Rattle.byte_formats.specs.Fields.{moment, optional, over_at};
ghost use Rattle.byte_formats.specs.Given.{Gives};

use crate::{Field, Stop};
use fh_model::LAST_SECOND;
use std::alloc::Global;

/// How many bytes are left from the first one on that takes a number over the limit.
fn over_at(limit: &[u8], bytes: &[u8]) -> Option<usize>
    ensures { result ≡ over_at limit.now bytes.now }
{
    match limit {
        [] => None,
        [most, limits @ ..] => match bytes {
            [] => None,
            [byte, rest @ ..] => {
                if byte < most {
                    None
                } else if byte == most {
                    over_at(limits, rest)
                } else {
                    Some(bytes.len())
                }
            }
        },
    }
}

/// Takes a moment in seconds from the front of the bytes: a number that is at most `LAST_SECOND`.
#[tactic(auto, unfolding(crate::specs::Fields::moment_at))]
pub fn moment_at(alloc: Global, bytes: &[u8]) -> Result<(u64, &[u8]), Stop>
    ensures given { Gives (λ x. (x.0, x.1.now)) result (moment.read bytes.now) }
    ensures memory { IsErrOf result Stop.NoMemory → ⊥ }
{
    match over_at(&LAST_SECOND.to_be_bytes(), bytes) {
        Some(left) => Err(Stop::Bad(left)),
        None => u64::read(alloc, bytes),
    }
}

/// Takes a moment that may be absent.
pub fn optional_moment_at(alloc: Global, bytes: &[u8]) -> Result<(Option<u64>, &[u8]), Stop>
    ensures given { Gives (λ x. (x.0, x.1.now)) result ((optional moment).read bytes.now) }
    ensures memory { IsErrOf result Stop.NoMemory → ⊥ }
{
    match bytes {
        [] => Err(Stop::Bad(0)),
        [0, rest @ ..] => Ok((None, rest)),
        [1, rest @ ..] => {
            let (moment, rest) = moment_at(alloc, rest)?;
            Ok((Some(moment), rest))
        }
        [_, ..] => Err(Stop::Bad(bytes.len())),
    }
}
