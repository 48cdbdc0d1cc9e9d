ghost use Rattle.std.specs.Prelude.{◌≡◌, ◌≢◌, ◌≤◌, ◌+◌, length, take, map};
ghost use Rattle.httparse.specs.Spans.{IsRequestWithin, span_bytes, header_bytes};
ghost use Rattle.fh_world.specs.Causes.{Rose};
ghost use Rattle.http_in.specs.Verdicts.{IsVerdict, IsTaken};
ghost use Rattle.http_in.specs.Steps.{HeadCall, Suffices, state_after};
ghost use Rattle.http_in.specs.Stands.{place_of};
ghost use Rattle.http_in.specs.Parts.{limit_of};
ghost use Rattle.http_in.specs.PartsRead.{IsPartsRead};

use crate::head::{Head, Length};
use crate::held::{Filled, Held};
use crate::limits::{HEAD_MAX_BYTES, HEAD_MAX_LINES};
use crate::parts::{Parts, body_limit, read_parts};
use crate::place::{Place, State};
use fh_world::Source;
use httparse::Status;
use httparse::spans::{HeaderSpan, RequestSpans, parse_request};
use std::alloc::Global;

/// Room for each field line that so many bytes can hold, at three bytes a line. So httparse never lacks room, and
/// the limit of lines is tested on what it found.
pub(crate) const SPANS: usize = 5_462;

/// What `next` answers.
#[derive(Debug, Drop)]
pub enum Step {
    /// The next head. `body` comes next, also where the head has no body.
    Head(Head),
    /// The bytes ended, and no request was begun.
    End,
    /// The bytes ended inside a head.
    Cut,
    /// Whatever follows, no head begins here, or the head states no framing that is taken.
    Bad,
    /// A limit of heads is passed.
    HeadTooLarge,
    /// The source failed.
    ReadFault,
    /// Memory ran out behind a whole head that states a framing. No byte is lost, and the call may be made again.
    NoMemory,
}

/// What the bytes at hand say of a head.
#[derive(Clone, Copy, Drop)]
enum Verdict {
    Whole(RequestSpans),
    TooLarge,
    Bad,
    Unfinished,
}

fn judge(held: &[u8], spans: &mut [HeaderSpan]) -> Verdict
    requires within { length held.now ≤ HEAD_MAX_BYTES }
    requires room { length spans.old ≡ SPANS }
    ensures verdict { IsVerdict held.now spans.new result }
{
    match parse_request(held, spans) {
        Ok(Status::Complete(head)) => {
            if head.headers <= HEAD_MAX_LINES {
                Verdict::Whole(head)
            } else {
                Verdict::TooLarge
            }
        }
        Ok(Status::Partial) => {
            if held.len() < HEAD_MAX_BYTES {
                Verdict::Unfinished
            } else {
                Verdict::TooLarge
            }
        }
        Err(_) => Verdict::Bad,
    }
}

/// Reads up to the end of the next head, over the bytes that the reader holds.
pub(crate) fn read_head<S: Source>(
    held: &mut Held,
    spans: &mut [HeaderSpan],
    source: &mut S,
) -> Step
    requires within { length held.old ≤ HEAD_MAX_BYTES }
    requires room { length spans.old ≡ SPANS }
    ensures within { length held.new ≤ HEAD_MAX_BYTES }
    ensures step { HeadCall S.given S.left source.old source.new held.old held.new result }
    ensures still { Suffices held.old → source.new ≡ source.old }
    ensures place { S.place source.new ≡ S.place source.old }
    ensures later { S.faults source.old ≤ S.faults source.new }
    ensures fault { result ≡ Step.ReadFault → Rose (S.faults source.old) (S.faults source.new) }
    ensures told { result ≢ Step.ReadFault → S.faults source.new ≡ S.faults source.old }
    ensures once { S.faults source.new ≤ S.faults source.old + 1 }
{
    'reads: loop {
        match judge(held.as_slice(), spans) {
            Verdict::Whole(found) => return take_head(held, spans, &found),
            Verdict::TooLarge => return Step::HeadTooLarge,
            Verdict::Bad => return Step::Bad,
            Verdict::Unfinished => {}
        }
        match held.fill(source) {
            Filled::More => {}
            Filled::End => return if held.is_empty() {
                Step::End
            } else {
                Step::Cut
            },
            Filled::Fault => return Step::ReadFault,
        }
    }
}

/// Takes the head off the front of the bytes.
fn take_head(held: &mut Held, spans: &[HeaderSpan], found: &RequestSpans) -> Step
    requires within { IsRequestWithin held.old spans.now found.now }
    ensures within { length held.new ≤ length held.old }
    ensures taken { IsTaken held.old spans.now found.now result held.new }
{
    match copy_head(held.allocator(), held.as_slice(), spans, found) {
        Parts::Whole(head) => {
            held.drop_front(found.len);
            Step::Head(head)
        }
        Parts::Misframed => Step::Bad,
        Parts::NoMemory => Step::NoMemory,
    }
}

/// The parts of the head that the spans cover.
fn copy_head(alloc: Global, held: &[u8], spans: &[HeaderSpan], found: &RequestSpans) -> Parts
    requires within { IsRequestWithin held.now spans.now found.now }
    ensures { IsPartsRead (span_bytes held.now found.now.method) (span_bytes held.now found.now.path) found.now.version
        (map (header_bytes held.now) (take found.now.headers spans.now)) result }
{
    read_parts(
        alloc,
        found.method.of(held),
        found.path.of(held),
        found.version,
        held,
        &spans[..found.headers],
    )
}

/// Where the body of a request for this target begins. The target is looked at only where there is a body.
fn begin_body(target: &[u8], length: Length) -> Place
    ensures { result ≡ place_of (limit_of target.now) length }
{
    match length {
        Length::Absent => Place::Known(0),
        Length::Known(count) => {
            if count <= body_limit(target) {
                Place::Known(count)
            } else {
                Place::Over
            }
        }
        Length::Chunked => Place::Line(body_limit(target)),
    }
}

/// Where the answer leaves the reader.
pub(crate) fn settle(step: &Step) -> State
    ensures { result ≡ state_after step.now }
{
    match step {
        Step::Head(head) => State::Inside(begin_body(head.target.as_slice(), head.length)),
        Step::NoMemory => State::Between,
        Step::End => State::Ended,
        Step::Cut => State::Ended,
        Step::Bad => State::Ended,
        Step::HeadTooLarge => State::Ended,
        Step::ReadFault => State::Ended,
    }
}
