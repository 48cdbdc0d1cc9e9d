ghost use Rattle.std.specs.Prelude.{◌≡◌, ◌≢◌, ◌<◌, ◌≤◌, ◌+◌, ◌-◌, ◌^◌, length};
ghost use Rattle.fh_world.specs.Causes.{Rose};
ghost use Rattle.http_in.specs.Stands.{IsInside};
ghost use Rattle.http_in.specs.Readings.{ContentRead, AllRead};

use crate::bodies::BodyStep;
use crate::heads::Step;
use crate::place::State;
use crate::reader::Reader;
use fh_world::Source;

/// How reading a body ended.
#[derive(Clone, Copy, Debug, Drop, PartialEq, Eq)]
pub enum BodyEnd {
    Done,
    Cut,
    Bad,
    TooLarge,
    ReadFault,
    NoMemory,
    /// It gave up, after 2^64 - 1 portions.
    Unread,
}

/// How reading all requests of a source ended.
#[derive(Clone, Copy, Debug, Drop, PartialEq, Eq)]
pub enum Outcome {
    End,
    Cut,
    Bad,
    HeadTooLarge,
    /// In the body of a request, so and not `Done`.
    InBody(BodyEnd),
    ReadFault,
    NoMemory,
    /// It gave up, after 2^64 - 1 requests.
    Unread,
}

/// Reads the body to its end, and adds its bytes to the content.
pub fn read_content<S: Source>(
    reader: &mut Reader,
    source: &mut S,
    buf: &mut [u8],
    content: &mut Vec<u8>,
) -> BodyEnd
    requires inside { IsInside reader.old.state }
    requires room { 0 < length buf.old }
    ensures done { result ≡ BodyEnd.Done → reader.new.state ≡ State.Between }
    ensures read { ContentRead S.given S.left source.old source.new reader.old.held reader.new.held reader.old.state
        content.old.items content.new.items result }
    ensures unread { result ≡ BodyEnd.Unread → length content.old.items + (2 ^ 64 - 1) ≤ length content.new.items }
    ensures fault { result ≡ BodyEnd.ReadFault → Rose (S.faults source.old) (S.faults source.new) }
    ensures told { result ≢ BodyEnd.ReadFault → S.faults source.new ≡ S.faults source.old }
    ensures once { S.faults source.new ≤ S.faults source.old + 1 }
{
    'portions: for _ in 0..u64::MAX {
        match reader.body(source, buf) {
            BodyStep::Bytes(count) => {
                let Ok(()) = content.extend_from_slice(&buf[..count]) else {
                    return BodyEnd::NoMemory;
                };
            }
            BodyStep::Done => return BodyEnd::Done,
            BodyStep::Cut => return BodyEnd::Cut,
            BodyStep::Bad => return BodyEnd::Bad,
            BodyStep::TooLarge => return BodyEnd::TooLarge,
            BodyStep::ReadFault => return BodyEnd::ReadFault,
            BodyStep::NoMemory => return BodyEnd::NoMemory,
        }
    }
    BodyEnd::Unread
}

/// Reads all requests of a source, adds their bodies to the content, and says how many were whole and how it ended.
///
/// So the clauses of `next` and `body` alone say how a connection's bytes split, however they are cut.
pub fn read_all<S: Source>(
    reader: &mut Reader,
    source: &mut S,
    buf: &mut [u8],
    content: &mut Vec<u8>,
) -> (u64, Outcome)
    requires between { reader.old.state ≡ State.Between }
    requires room { 0 < length buf.old }
    ensures read { AllRead S.given S.left source.old source.new reader.old.held content.old.items content.new.items result.0
        result.1 }
    ensures fault { result.1 ≡ Outcome.ReadFault → Rose (S.faults source.old) (S.faults source.new) }
    ensures body_fault { result.1 ≡ Outcome.InBody BodyEnd.ReadFault → Rose (S.faults source.old) (S.faults source.new) }
    ensures told { result.1 ≢ Outcome.ReadFault → result.1 ≢ Outcome.InBody BodyEnd.ReadFault
        → S.faults source.new ≡ S.faults source.old }
    ensures once { S.faults source.new ≤ S.faults source.old + 1 }
{
    'requests: for whole in 0..u64::MAX {
        match reader.next(source) {
            Step::Head(_head) => {
                let end = read_content(reader, source, buf, content);
                let BodyEnd::Done = end else {
                    return (whole, Outcome::InBody(end));
                };
            }
            Step::End => return (whole, Outcome::End),
            Step::Cut => return (whole, Outcome::Cut),
            Step::Bad => return (whole, Outcome::Bad),
            Step::HeadTooLarge => return (whole, Outcome::HeadTooLarge),
            Step::ReadFault => return (whole, Outcome::ReadFault),
            Step::NoMemory => return (whole, Outcome::NoMemory),
        }
    }
    (u64::MAX, Outcome::Unread)
}
