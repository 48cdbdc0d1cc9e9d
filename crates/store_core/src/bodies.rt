//! The bodies of a slot's records as rows and commands.
ghost use Rattle.std.specs.Prelude.{◌≡◌, ℕ, false, IfOk, Ok, Err, IsErrOf};
ghost use Rattle.store_core.specs.Bodies.{body_of, bodies_from, parts_from};
ghost use Rattle.store_core.specs.declared.bodies.RecordFault.TheVariants as record_faults;

use byte_formats::CodecFault;
use cmd_codec::decode;
use fh_model::{Cmd, NoMemory, Row};
use gate_journal::Record;
use state_rows::decode_row;
use std::alloc::{AllocError, AllocFailed, Global};

/// What a record's body spells.
#[derive(Debug, Drop)]
pub enum Body {
    Row(Row),
    Command(Cmd),
}

/// Why records weren't read.
#[derive(Clone, Copy, Debug, PartialEq, Eq)]
pub enum RecordFault {
    /// The record with this number is the first that breaks a rule.
    Bad { index: usize },
    NoMemory,
}

impl From<NoMemory> for RecordFault {
    ghost from_gives = { λ _ fault. fault ≡ record_faults.NoMemory };

    fn from(_: NoMemory) -> Self {
        RecordFault::NoMemory
    }
}

impl From<AllocError> for RecordFault {
    ghost from_gives = { λ _ fault. fault ≡ record_faults.NoMemory };

    fn from(_: AllocError) -> Self {
        RecordFault::NoMemory
    }
}

impl<T: Drop> From<AllocFailed<T>> for RecordFault {
    ghost from_gives = { λ _ fault. fault ≡ record_faults.NoMemory };

    fn from(_: AllocFailed<T>) -> Self {
        RecordFault::NoMemory
    }
}

/// What a body spells, None where it spells nothing.
pub(crate) fn body_of(alloc: Global, bytes: &[u8]) -> Result<Option<Body>, NoMemory>
    ensures { IfOk result (λ body. body ≡ body_of bytes.now) }
{
    match decode(alloc, bytes) {
        Ok(cmd) => return Ok(Some(Body::Command(cmd))),
        Err(CodecFault::NoMemory) => return Err(NoMemory),
        Err(CodecFault::Bad { .. }) => {}
    }
    match decode_row(alloc, bytes) {
        Ok(row) => Ok(Some(Body::Row(row))),
        Err(CodecFault::NoMemory) => Err(NoMemory),
        Err(CodecFault::Bad { .. }) => Ok(None),
    }
}

/// What each body spells.
pub(crate) fn bodies_of(alloc: Global, records: &[Record]) -> Result<Vec<Body>, RecordFault>
    ensures read { IfOk result (λ bodies. bodies_from 0 records.now ≡ Ok bodies.items) }
    ensures bad { (index : ℕ) → IsErrOf result (RecordFault.Bad index) → bodies_from 0 records.now ≡ Err index }
{
    let mut bodies = Vec::new(alloc);
    let mut index = 0;
    for record in records {
        match body_of(alloc, record.body())? {
            Some(body) => bodies.push(body)?,
            None => return Err(RecordFault::Bad { index }),
        }
        index += 1;
    }
    Ok(bodies)
}

/// The rows and, behind them, the commands.
pub(crate) fn parts_of(
    alloc: Global,
    bodies: Vec<Body>,
) -> Result<(Vec<Row>, Vec<Cmd>), RecordFault>
    ensures read { IfOk result (λ parts. parts_from false 0 bodies.items ≡ Ok (parts.0.items, parts.1.items)) }
    ensures bad { (index : ℕ) → IsErrOf result (RecordFault.Bad index) → parts_from false 0 bodies.items ≡ Err index }
{
    let mut rows = Vec::new(alloc);
    let mut commands = Vec::new(alloc);
    let mut late = false;
    let mut index = 0;
    for body in bodies {
        match body {
            Body::Row(row) => {
                if late {
                    return Err(RecordFault::Bad { index });
                }
                rows.push(row)?;
            }
            Body::Command(cmd) => {
                late = true;
                commands.push(cmd)?;
            }
        }
        index += 1;
    }
    Ok((rows, commands))
}
