ghost use Rattle.std.specs.Prelude.{◌≡◌, ◌≢◌, ◌<◌, ◌≤◌, ◌+◌, length};
ghost use Rattle.fh_world.specs.Causes.{Rose};
ghost use Rattle.http_in.specs.BodySteps.{PlaceCall, FitsRoom, EndsHere, state_after_body};
ghost use Rattle.http_in.specs.Reading.{IsGiven};

use crate::chunks::{Move, advance, shrink};
use crate::heads::SPANS;
use crate::held::{Filled, Held};
use crate::limits::HEAD_MAX_BYTES;
use crate::place::{Place, State};
use fh_world::Source;
use httparse::spans::HeaderSpan;

/// What `body` answers.
#[derive(Clone, Copy, Debug, Drop, PartialEq, Eq)]
pub enum BodyStep {
    /// So many bytes at the buffer's start are the next ones of the content.
    Bytes(usize),
    /// The body is read to its end. `next` comes next.
    Done,
    /// The bytes ended inside the body.
    Cut,
    /// Whatever follows, the body breaks its framing here.
    Bad,
    /// The body states more bytes than its limit, or a limit of trailers is passed.
    TooLarge,
    /// The source failed.
    ReadFault,
    /// Memory ran out. It never comes from a reader, which asks for all memory that `body` needs when it is made.
    NoMemory,
}

/// What taking bytes came to.
#[derive(Clone, Copy, Drop)]
enum Given {
    Bytes(usize),
    End,
    Fault,
}

/// The next bytes, at most so many, from those at hand or else from the source.
fn give<S: Source>(held: &mut Held, most: u64, source: &mut S, buf: &mut [u8]) -> Given
    requires most { 0 < most }
    requires room { 0 < length buf.old }
    ensures still { 0 < length held.old → source.new ≡ source.old }
    ensures given { IsGiven S.given S.left source.old source.new held.old held.new result most buf.new }
    ensures within { length held.new ≤ length held.old }
    ensures place { S.place source.new ≡ S.place source.old }
    ensures later { S.faults source.old ≤ S.faults source.new }
    ensures fault { result ≡ Given.Fault → Rose (S.faults source.old) (S.faults source.new) }
    ensures told { result ≢ Given.Fault → S.faults source.new ≡ S.faults source.old }
    ensures once { S.faults source.new ≤ S.faults source.old + 1 }
{
    let room = most.min(buf.len() as u64) as usize;
    if held.is_empty() {
        return match source.read(&mut buf[..room]) {
            Ok(0) => Given::End,
            Ok(count) => Given::Bytes(count),
            Err(_) => Given::Fault,
        };
    }
    let count = room.min(held.len());
    buf[..count].copy_from_slice(&held.as_slice()[..count]);
    held.drop_front(count);
    Given::Bytes(count)
}

/// Reads from a place inside a body on, up to the next bytes of content or the end.
pub(crate) fn read_body<S: Source>(
    held: &mut Held,
    spans: &mut [HeaderSpan],
    place: &mut Place,
    source: &mut S,
    buf: &mut [u8],
) -> BodyStep
    requires within { length held.old ≤ HEAD_MAX_BYTES }
    requires room { length spans.old ≡ SPANS }
    requires some { 0 < length buf.old }
    ensures step { PlaceCall S.given S.left source.old source.new held.old held.new place.old place.new
        result buf.new }
    ensures still { EndsHere place.old held.old → source.new ≡ source.old }
    ensures fits { FitsRoom result (length buf.new) }
    ensures within { length held.new ≤ HEAD_MAX_BYTES }
    ensures place { S.place source.new ≡ S.place source.old }
    ensures later { S.faults source.old ≤ S.faults source.new }
    ensures fault { result ≡ BodyStep.ReadFault → Rose (S.faults source.old) (S.faults source.new) }
    ensures told { result ≢ BodyStep.ReadFault → S.faults source.new ≡ S.faults source.old }
    ensures once { S.faults source.new ≤ S.faults source.old + 1 }
{
    'moves: loop {
        match advance(*place, held, spans) {
            Move::To(next) => *place = next,
            Move::Gives(most) => {
                return match give(held, most, source, buf) {
                    Given::Bytes(count) => {
                        *place = shrink(*place, count as u64);
                        BodyStep::Bytes(count)
                    }
                    Given::End => BodyStep::Cut,
                    Given::Fault => BodyStep::ReadFault,
                };
            }
            Move::Wants => match held.fill(source) {
                Filled::More => {}
                Filled::End => return BodyStep::Cut,
                Filled::Fault => return BodyStep::ReadFault,
            },
            Move::Done => return BodyStep::Done,
            Move::Bad => return BodyStep::Bad,
            Move::TooLarge => return BodyStep::TooLarge,
        }
    }
}

/// Where the answer leaves the reader.
pub(crate) fn settle_body(step: BodyStep, next: Place) -> State
    ensures { result ≡ state_after_body step next }
{
    match step {
        BodyStep::Bytes(_) => State::Inside(next),
        BodyStep::NoMemory => State::Inside(next),
        BodyStep::Done => State::Between,
        BodyStep::Cut => State::Ended,
        BodyStep::Bad => State::Ended,
        BodyStep::TooLarge => State::Ended,
        BodyStep::ReadFault => State::Ended,
    }
}
