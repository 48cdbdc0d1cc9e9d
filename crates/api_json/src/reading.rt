//! Reads the argument of a request.
ghost use Rattle.std.specs.Prelude.{◌≡◌, ◌≢◌, IfOk, IfErr, Ok, Err, Some, None};
ghost use Rattle.serde_json.specs.View.{view};
ghost use Rattle.api_json.specs.Arguments.{argument_of, read_of};
ghost use Rattle.api_json.specs.declared.reading.ReadFault.TheVariants as fault;

use crate::fields::{FieldName, fields_of};
use crate::requests::request_of;
use crate::values::read_values;
use api_types::{Request, Route};
use fh_model::NoMemory;
use serde_json::Value;
use std::alloc::{AllocError, AllocFailed, Global};
use thiserror::Error;

/// Why an argument was not read.
#[derive(Clone, Copy, Debug, PartialEq, Eq, Error)]
pub enum ReadFault {
    /// The bytes aren't UTF-8, or they are no JSON value of at most 127 levels.
    #[error("bad json")]
    BadJson,

    /// The first field, in the route's order, that breaks its rule.
    #[error("bad field")]
    BadField { name: FieldName },

    /// Memory ran out, which says nothing of the argument.
    #[error("no memory")]
    NoMemory,
}

impl From<NoMemory> for ReadFault {
    ghost from_gives = { λ _ given. given ≡ fault.NoMemory };

    fn from(_: NoMemory) -> ReadFault {
        ReadFault::NoMemory
    }
}

impl From<AllocError> for ReadFault {
    ghost from_gives = { λ _ given. given ≡ fault.NoMemory };

    fn from(_: AllocError) -> ReadFault {
        ReadFault::NoMemory
    }
}

impl<T: Drop> From<AllocFailed<T>> for ReadFault {
    ghost from_gives = { λ _ given. given ≡ fault.NoMemory };

    fn from(_: AllocFailed<T>) -> ReadFault {
        ReadFault::NoMemory
    }
}

/// The value of an argument, in which no bytes count as `null`.
fn read_argument(alloc: Global, bytes: &[u8]) -> Result<Value, ReadFault>
    ensures value { IfOk result (λ value. argument_of bytes.now ≡ Some (view value)) }
    ensures bad { IfErr result (λ found. found ≢ fault.NoMemory → (found ≡ fault.BadJson) × (argument_of bytes.now ≡ None)) }
{
    if bytes.is_empty() {
        return Ok(Value::Null);
    }
    match Value::from_slice(alloc, bytes) {
        Ok(value) => Ok(value),
        Err(error) if error.is_memory() => Err(ReadFault::NoMemory),
        Err(_) => Err(ReadFault::BadJson),
    }
}

/// Reads the argument of a request to a route.
///
/// `BadJson` comes exactly where the bytes aren't UTF-8 or are no JSON value of at most 127 levels, and `BadField`
/// exactly where they are one and a field breaks its rule, with the first such field in the order of the table.
#[tactic(auto, using(crate::proofs::FieldKinds::values_fit))]
pub fn read(alloc: Global, route: Route, bytes: &[u8]) -> Result<Request, ReadFault>
    ensures request { IfOk result (λ request. read_of route bytes.now ≡ Ok request) }
    ensures bad { IfErr result (λ found. found ≢ fault.NoMemory → read_of route bytes.now ≡ Err found) }
{
    let argument = read_argument(alloc, bytes)?;
    let values = read_values(alloc, &argument, fields_of(route))?;
    Ok(request_of(route, values))
}
