ghost use Rattle.std.specs.Prelude.{◌≡◌, ◌≢◌, ◌<◌, ◌≤◌, ◌+◌, length, [], IfOk};
ghost use Rattle.fh_world.specs.Causes.{Rose};
ghost use Rattle.http_in.specs.Steps.{HeadCall, Suffices, state_after};
ghost use Rattle.http_in.specs.Stands.{IsInside};
ghost use Rattle.http_in.specs.BodySteps.{BodyCall, FitsRoom, EndsNow};

use crate::bodies::{BodyStep, read_body, settle_body};
use crate::heads::{SPANS, Step, read_head, settle};
use crate::held::Held;
use crate::limits::HEAD_MAX_BYTES;
use crate::place::{Place, State};
use fh_model::NoMemory;
use fh_world::Source;
use httparse::spans::{EMPTY_HEADER_SPAN, HeaderSpan};
use std::alloc::Global;
use std::marker::Model;

/// Reads requests, one after another: each head, and then its body in portions.
///
/// Contracts see the bytes that it read and has not answered yet, `held`, and where it stands, `state`.
#[derive(Drop)]
pub struct Reader {
    held: Held,
    spans: Vec<HeaderSpan>,
    state: State,
}

impl Model for Reader {
    ghost use Rattle.std.specs.Prelude.{◌≡◌, ◌≤◌, length, vec_len};
    ghost use Rattle.http_in.specs.Stands.{Stand};
    ghost use Rattle.http_in.specs.declared.limits.TheConstants.{HEAD_MAX_BYTES};
    ghost use Rattle.http_in.specs.declared.heads.TheConstants.{SPANS};

    ghost Value = { Stand };

    ghost view = { λ r. record { held = r.held; state = r.state } };

    ghost invariant = { λ r. (length r.held ≤ HEAD_MAX_BYTES) × (vec_len r.spans ≡ SPANS) };
}

impl Reader {
    /// A reader that holds no bytes yet. All memory that it holds is asked for here.
    pub fn new(alloc: Global) -> Result<Reader, NoMemory>
        ensures held { IfOk result (λ r. r.held ≡ []) }
        ensures state { IfOk result (λ r. r.state ≡ State.Between) }
    {
        let held = Held::new(alloc)?;
        let spans = vec![in alloc; EMPTY_HEADER_SPAN; SPANS]?;
        Ok(Reader {
            held,
            spans,
            state: State::Between,
        })
    }

    /// Reads up to the end of the next head. Asks that no body is unread and that no answer was an ending.
    pub fn next<S: Source>(&mut self, source: &mut S) -> Step
        requires { self.old.state ≡ State.Between }
        ensures step { HeadCall S.given S.left source.old source.new self.old.held self.new.held result }
        ensures still { Suffices self.old.held → source.new ≡ source.old }
        ensures state { self.new.state ≡ state_after result }
        ensures place { S.place source.new ≡ S.place source.old }
        ensures later { S.faults source.old ≤ S.faults source.new }
        ensures fault { result ≡ Step.ReadFault → Rose (S.faults source.old) (S.faults source.new) }
        ensures told { result ≢ Step.ReadFault → S.faults source.new ≡ S.faults source.old }
        ensures once { S.faults source.new ≤ S.faults source.old + 1 }
    {
        let step = read_head(&mut self.held, &mut self.spans, source);
        self.state = settle(&step);
        step
    }

    /// Reads the next bytes of the body into the buffer. Asks that the body's head was answered, that its end was not,
    /// and that the buffer has room.
    pub fn body<S: Source>(&mut self, source: &mut S, buf: &mut [u8]) -> BodyStep
        requires inside { IsInside self.old.state }
        requires room { 0 < length buf.old }
        ensures step { BodyCall S.given S.left source.old source.new self.old.held self.new.held self.old.state
            self.new.state result buf.new }
        ensures still { EndsNow self.old.state self.old.held → source.new ≡ source.old }
        ensures fits { FitsRoom result (length buf.new) }
        ensures place { S.place source.new ≡ S.place source.old }
        ensures later { S.faults source.old ≤ S.faults source.new }
        ensures fault { result ≡ BodyStep.ReadFault → Rose (S.faults source.old) (S.faults source.new) }
        ensures told { result ≢ BodyStep.ReadFault → S.faults source.new ≡ S.faults source.old }
        ensures once { S.faults source.new ≤ S.faults source.old + 1 }
    {
        let State::Inside(mut place) = self.state else {
            unreachable!();
        };
        // Most requests have no body.
        if let Place::Known(0) = place {
            self.state = State::Between;
            return BodyStep::Done;
        }
        let step = read_body(&mut self.held, &mut self.spans, &mut place, source, buf);
        self.state = settle_body(step, place);
        step
    }
}
