//! Reads the body of a request to its end, and keeps it or drops it.
ghost use Rattle.std.specs.Prelude.{◌≡◌, ◌≢◌, ◌+◌, ◌<◌, ◌≤◌, [], length, vec_capacity};
ghost use Rattle.fh_world.specs.Causes.{Rose};
ghost use Rattle.fh_model.specs.declared.limits.TheConstants.{BLOCK_BYTES};
ghost use Rattle.http_in.specs.Stands.{IsInside};
ghost use Rattle.session_http.specs.Bodies.{BodyRead, KeepsOn, LosesOnly};

use fh_model::BLOCK_BYTES;
use fh_world::Source;
use http_in::{BodyEnd, BodyStep, Reader, State};

/// What is at hand of a body that was read.
#[derive(Clone, Copy, Debug, PartialEq, Eq)]
pub(crate) enum Body {
    /// All of it, in the buffer.
    Whole,

    /// It had more than one block, and was dropped.
    Large,

    /// It was not to be kept, or memory was wanting for it.
    Gone,
}

/// Adds a portion to what is kept. Once more than a block came, or memory was wanting, nothing is kept.
fn keep(body: Body, kept: &mut Vec<u8>, portion: &[u8]) -> Body
    requires few { length kept.old.items ≤ BLOCK_BYTES }
    ensures more { KeepsOn body kept.old.items portion.now result kept.new.items }
    ensures few { length kept.new.items ≤ BLOCK_BYTES }
    ensures loses { LosesOnly body (vec_capacity kept.old) (length kept.old.items + length portion.now) result }
    ensures room { vec_capacity kept.old ≤ vec_capacity kept.new }
{
    if body != Body::Whole {
        return body;
    }
    if portion.len() > BLOCK_BYTES - kept.len() {
        return Body::Large;
    }
    match kept.extend_from_slice(portion) {
        Ok(()) => Body::Whole,
        Err(_) => Body::Gone,
    }
}

/// Reads the body that comes next to its end, in portions of that size. Where it is to be kept its bytes are in the
/// buffer then, which was empty, unless it had more than a block or memory was wanting; all is read nevertheless.
pub(crate) fn read_body<S: Source>(
    reader: &mut Reader,
    source: &mut S,
    portion: &mut [u8],
    keeps: bool,
    buffer: &mut Vec<u8>,
) -> (BodyEnd, Body)
    requires inside { IsInside reader.old.state }
    requires room { 0 < length portion.old }
    requires empty { buffer.old.items ≡ [] }
    ensures read { BodyRead S.given S.left source.old source.new reader.old.held reader.new.held reader.old.state
        keeps (vec_capacity buffer.old) result.1 buffer.new.items result.0 }
    ensures memory { result.0 ≡ BodyEnd.NoMemory → ⊥ }
    ensures few { length buffer.new.items ≤ BLOCK_BYTES }
    ensures done { result.0 ≡ BodyEnd.Done → reader.new.state ≡ State.Between }
    ensures place { S.place source.new ≡ S.place source.old }
    ensures later { S.faults source.old ≤ S.faults source.new }
    ensures fault { result.0 ≡ BodyEnd.ReadFault → Rose (S.faults source.old) (S.faults source.new) }
    ensures told { result.0 ≢ BodyEnd.ReadFault → S.faults source.new ≡ S.faults source.old }
    ensures once { S.faults source.new ≤ S.faults source.old + 1 }
{
    let mut body = if keeps { Body::Whole } else { Body::Gone };
    'portions: for _ in 0..u64::MAX {
        match reader.body(source, portion) {
            BodyStep::Bytes(count) => body = keep(body, buffer, &portion[..count]),
            BodyStep::Done => return (BodyEnd::Done, body),
            BodyStep::Cut => return (BodyEnd::Cut, body),
            BodyStep::Bad => return (BodyEnd::Bad, body),
            BodyStep::TooLarge => return (BodyEnd::TooLarge, body),
            BodyStep::ReadFault => return (BodyEnd::ReadFault, body),
            BodyStep::NoMemory => unreachable!(),
        }
    }
    (BodyEnd::Unread, body)
}
