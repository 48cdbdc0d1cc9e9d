ghost use Rattle.std.specs.Prelude.{◌≡◌, ◌⊎◌, ℕ, true, IfOk, IsErrOf, Ok, Err};
ghost use Rattle.byte_formats.specs.Spelling.{Spells, IsFirstBad, whole_at};
ghost use Rattle.byte_formats.specs.Given.{Gives};
ghost use Rattle.byte_formats.specs.declared.fault.CodecFault.TheVariants.{Bad, NoMemory};
ghost use Rattle.fh_model.specs.declared.rows.Row.{Row};
ghost use Rattle.state_rows.specs.Rows.{checkpoint_row, counters_row, fields, is_kind, namespace_row, next_numbers, user_row};

use crate::kinds::{COUNTERS, NAMESPACE, USER, is_kind};
use byte_formats::{CodecFault, Field, Stop};
use fh_model::{Members, Next, Row, Text};
use std::alloc::Global;

#[tactic(auto, unfolding(crate::specs::Rows::next_numbers))]
fn next_numbers_at(alloc: Global, bytes: &[u8]) -> Result<(Next, &[u8]), Stop>
    ensures given { Gives (λ x. (x.0, x.1.now)) result (next_numbers.read bytes.now) }
    ensures memory { IsErrOf result Stop.NoMemory → ⊥ }
{
    let (rev, rest) = u64::read(alloc, bytes)?;
    let (id, rest) = u64::read(alloc, rest)?;
    let (session, rest) = u64::read(alloc, rest)?;
    let (user, rest) = u64::read(alloc, rest)?;
    let (namespace, rest) = u64::read(alloc, rest)?;
    let next = Next {
        rev,
        id,
        session,
        user,
        namespace,
    };
    Ok((next, rest))
}

#[tactic(auto, unfolding(crate::specs::Rows::counters_row))]
fn counters_at(alloc: Global, bytes: &[u8]) -> Result<(Row, &[u8]), Stop>
    ensures given { Gives (λ x. (x.0, x.1.now)) result (counters_row.read bytes.now) }
    ensures memory { IsErrOf result Stop.NoMemory → ⊥ }
{
    let (next, rest) = next_numbers_at(alloc, bytes)?;
    let (moment, rest) = u64::read(alloc, rest)?;
    let row = Row::Counters {
        rev: next.rev,
        id: next.id,
        session: next.session,
        user: next.user,
        namespace: next.namespace,
        moment,
    };
    Ok((row, rest))
}

#[tactic(auto, unfolding(crate::specs::Rows::user_row))]
fn user_at(alloc: Global, bytes: &[u8]) -> Result<(Row, &[u8]), Stop>
    ensures { Gives (λ x. (x.0, x.1.now)) result (user_row.read bytes.now) }
{
    let (number, rest) = u64::read(alloc, bytes)?;
    let (home, rest) = u64::read(alloc, rest)?;
    let (token, rest) = <Option<Text>>::read(alloc, rest)?;
    Ok((
        Row::User {
            number,
            home,
            token,
        },
        rest,
    ))
}

#[tactic(auto, unfolding(crate::specs::Rows::namespace_row))]
fn namespace_at(alloc: Global, bytes: &[u8]) -> Result<(Row, &[u8]), Stop>
    ensures { Gives (λ x. (x.0, x.1.now)) result (namespace_row.read bytes.now) }
{
    let (number, rest) = u64::read(alloc, bytes)?;
    let (shared, rest) = bool::read(alloc, rest)?;
    let (floor, rest) = u64::read(alloc, rest)?;
    let (length, rest) = u64::read(alloc, rest)?;
    let (members, rest) = Members::read(alloc, rest)?;
    let row = Row::Namespace {
        number,
        shared,
        floor,
        length,
        members,
    };
    Ok((row, rest))
}

/// Takes the fields of a row of this kind.
fn fields_at(alloc: Global, kind: u8, bytes: &[u8]) -> Result<(Row, &[u8]), Stop>
    requires { is_kind kind ≡ true }
    ensures { Gives (λ x. (x.0, x.1.now)) result ((fields kind).read bytes.now) }
{
    match kind {
        COUNTERS => counters_at(alloc, bytes),
        USER => user_at(alloc, bytes),
        NAMESPACE => namespace_at(alloc, bytes),
        _ => unreachable!(),
    }
}

#[tactic(auto, unfolding(crate::specs::Rows::checkpoint_row))]
fn row_at(alloc: Global, bytes: &[u8]) -> Result<(Row, &[u8]), Stop>
    ensures { Gives (λ x. (x.0, x.1.now)) result (checkpoint_row.read bytes.now) }
{
    match bytes {
        [] => Err(Stop::Bad(0)),
        [kind, rest @ ..] => {
            if !is_kind(*kind) {
                return Err(Stop::Bad(bytes.len()));
            }
            fields_at(alloc, *kind, rest)
        }
    }
}

/// Takes a row that ends where the bytes do.
fn whole_row(alloc: Global, bytes: &[u8]) -> Result<Row, Stop>
    ensures { Gives (λ row. row) result (whole_at checkpoint_row.read bytes.now) }
{
    let (row, rest) = row_at(alloc, bytes)?;
    if !rest.is_empty() {
        return Err(Stop::Bad(rest.len()));
    }
    Ok(row)
}

/// The row that all of the bytes spell.
///
/// `Bad` comes just where they spell none, with the place of the first bad byte, and `NoMemory` where there is no
/// room for the row.
pub fn decode_row(alloc: Global, bytes: &[u8]) -> Result<Row, CodecFault>
    // What is given is spelled so.
    ensures found { IfOk result (λ found. Spells checkpoint_row bytes.now found) }
    // What is spelled so is given, unless memory runs out.
    ensures only { (spelled : Row) → Spells checkpoint_row bytes.now spelled → (result ≡ Ok spelled) ⊎ (result ≡ Err NoMemory) }
    // The bytes spell nothing, and this is the first bad place.
    ensures bad { (place : ℕ) → result ≡ Err (Bad place) → IsFirstBad checkpoint_row bytes.now place }
{
    match whole_row(alloc, bytes) {
        Ok(row) => Ok(row),
        Err(Stop::NoMemory) => Err(CodecFault::NoMemory),
        Err(Stop::Bad(left)) => Err(CodecFault::Bad {
            place: bytes.len() - left,
        }),
    }
}
