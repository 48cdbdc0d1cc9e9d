//! Reads the next request of a connection, and decides on the way who calls which route.
ghost use Rattle.std.specs.Prelude.{◌≡◌, ◌≢◌, ◌≤◌, ◌+◌, length, true, IsTrue, IfOk, OnOk, OnErr, IfErr, IfSome, option_map, vec_capacity};
ghost use Rattle.fh_model.specs.declared.limits.TheConstants.{BLOCK_BYTES};
ghost use Rattle.fh_world.specs.Bytes.{Holds};
ghost use Rattle.http_in.specs.Parts.{limit_of};
ghost use Rattle.http_in.specs.Stands.{place_of};
ghost use Rattle.session_rules.specs.Connection.{interim_if};
ghost use Rattle.session_rules.specs.Replies.{Said, interim_text, text_of};
ghost use Rattle.session_http.specs.Conn.{source_of, sink_of};
ghost use Rattle.session_http.specs.Faults.{ChangesOnlyAt};
ghost use Rattle.session_http.specs.Points.{called_if, is_called};
ghost use Rattle.session_http.specs.Steps.{Breaks, HearsAll, Opens, SaysLast, Stops};
ghost use Rattle.session_http.specs.Talk.{moment, terms};

use crate::answering::{Call, find_caller};
use crate::bodies::{Body, read_body};
use crate::conn::{Conn, ConnEnd};
use fh_model::{LAST_SECOND, NoMemory, Text};
use fh_world::{Clock, Failed, Sink, Source};
use host_seat::Port;
use http_in::{BodyEnd, Head, State, Step};
use http_out::out_of_memory;
use session_rules::{bad_request_reply, body_too_large_reply, head_too_large_reply, interim};

/// The room for a portion of a body.
const PORTION_BYTES: usize = 4_096;

/// A request that was read whole.
#[derive(Drop)]
pub(crate) struct Heard {
    /// The clock's second as its head was read.
    pub(crate) at: u64,

    /// Who calls, where memory served to find out.
    pub(crate) call: Result<Call, NoMemory>,

    /// Whether the connection ends with its reply.
    pub(crate) last: bool,

    /// The argument in its header.
    pub(crate) arg: Option<Vec<u8>>,

    /// What the connection's buffer has of its body.
    pub(crate) body: Body,
}

/// Writes a text.
pub(crate) fn write<K: Sink>(sink: &mut K, text: &[u8]) -> Result<(), ConnEnd>
    ensures ok { OnOk result (Holds K.held sink.old sink.new text.now) }
    ensures err { OnErr result (Breaks K.held K.faults sink.old sink.new text.now) }
    ensures end { IfErr result (λ end. end ≡ ConnEnd.WriteFault) }
    ensures place { K.place sink.new ≡ K.place sink.old }
    ensures later { K.faults sink.old ≤ K.faults sink.new }
    ensures told { ChangesOnlyAt result ConnEnd.WriteFault (K.faults sink.old) (K.faults sink.new) }
    ensures once { K.faults sink.new ≤ K.faults sink.old + 1 }
{
    match sink.write(text) {
        Ok(()) => Ok(()),
        Err(Failed) => Err(ConnEnd::WriteFault),
    }
}

/// Writes the interim text where a sender waits for it.
#[tactic(auto, using(crate::proofs::Talks::known_none))]
fn greet<K: Sink>(sink: &mut K, waiting: bool) -> Result<(), ConnEnd>
    ensures ok { OnOk result (Holds K.held sink.old sink.new (interim_if waiting)) }
    ensures err { OnErr result (IsTrue waiting × Breaks K.held K.faults sink.old sink.new interim_text) }
    ensures end { IfErr result (λ end. end ≡ ConnEnd.WriteFault) }
    ensures place { K.place sink.new ≡ K.place sink.old }
    ensures later { K.faults sink.old ≤ K.faults sink.new }
    ensures told { ChangesOnlyAt result ConnEnd.WriteFault (K.faults sink.old) (K.faults sink.new) }
    ensures once { K.faults sink.new ≤ K.faults sink.old + 1 }
{
    if waiting {
        return write(sink, interim());
    }
    Ok(())
}

/// Writes the last text of a connection that is read no further: the reply, or that memory was wanting for it.
fn refuse<K: Sink>(sink: &mut K, reply: Result<Vec<u8>, NoMemory>) -> ConnEnd
    ensures said { (it : Said) → IfOk reply (λ text. text.items ≡ text_of it true) → SaysLast K.held K.faults sink.old sink.new it result }
    ensures place { K.place sink.new ≡ K.place sink.old }
    ensures later { K.faults sink.old ≤ K.faults sink.new }
    ensures told { result ≢ ConnEnd.WriteFault → K.faults sink.new ≡ K.faults sink.old }
    ensures once { K.faults sink.new ≤ K.faults sink.old + 1 }
{
    let written = match &reply {
        Ok(text) => write(sink, text),
        Err(NoMemory) => write(sink, out_of_memory(true)),
    };
    match written {
        Ok(()) => ConnEnd::Bad,
        Err(end) => end,
    }
}

/// Whether the body of a request is kept: where a user calls a route.
fn keeps(call: &Result<Call, NoMemory>) -> bool
    ensures { result ≡ is_called (called_if call.now) }
{
    match call {
        Ok(Ok(_)) => true,
        _ => false,
    }
}

/// A head that was read, and what was decided by it.
#[derive(Drop)]
struct Opened {
    head: Head,

    /// The clock's second as it was read.
    at: u64,

    /// Who calls, where memory served to find out.
    call: Result<Call, NoMemory>,
}

/// Reads the next head of a connection, and writes the interim text where it calls for it. Where there is no head it says
/// why the connection ends, and has written its last text.
fn read_head<P: Port, S: Source, K: Sink, C: Clock>(
    port: &mut P,
    conn: &mut Conn<S, K>,
    clock: &mut C,
    admin: &Text,
) -> Result<Opened, ConnEnd>
    requires { conn.old.reader.state ≡ State.Between }
    ensures ok { IfOk result (λ opened. Opens (terms P.alone (C.second clock.old) admin.now)
        (moment P.View S.Source K.Sink port.old (source_of conn.old) (sink_of conn.old) conn.old.answered conn.old.reader.held)
        (moment P.View S.Source K.Sink port.new (source_of conn.new) (sink_of conn.new) conn.new.answered conn.new.reader.held)
        (called_if opened.call) opened.head) }
    ensures err { IfErr result (λ end. Stops (terms P.alone (C.second clock.old) admin.now)
        (moment P.View S.Source K.Sink port.old (source_of conn.old) (sink_of conn.old) conn.old.answered conn.old.reader.held)
        (moment P.View S.Source K.Sink port.new (source_of conn.new) (sink_of conn.new) conn.new.answered conn.new.reader.held) end) }
    ensures range { IfOk result (λ opened. opened.at ≤ LAST_SECOND) }
    ensures timed { IfOk result (λ opened. IfSome (C.second clock.old) (λ s. opened.at ≡ s)) }
    ensures inside { IfOk result (λ opened. conn.new.reader.state ≡ State.Inside (place_of (limit_of opened.head.target.items) opened.head.length)) }
    ensures buffer { conn.new.buffer ≡ conn.old.buffer }
    ensures second { C.second clock.new ≡ C.second clock.old }
    ensures went { P.went port.old port.new }
    ensures source_place { S.place (source_of conn.new) ≡ S.place (source_of conn.old) }
    ensures sink_place { K.place (sink_of conn.new) ≡ K.place (sink_of conn.old) }
    ensures read_told { ChangesOnlyAt result ConnEnd.ReadFault (S.faults (source_of conn.old)) (S.faults (source_of conn.new)) }
    ensures write_told { ChangesOnlyAt result ConnEnd.WriteFault (K.faults (sink_of conn.old)) (K.faults (sink_of conn.new)) }
    ensures disk_told { P.faults port.new ≡ P.faults port.old }
    ensures read_once { S.faults (source_of conn.new) ≤ S.faults (source_of conn.old) + 1 }
    ensures write_once { K.faults (sink_of conn.new) ≤ K.faults (sink_of conn.old) + 1 }
{
    let alloc = conn.alloc;
    let head = match conn.reader.next(&mut conn.source) {
        Step::Head(head) => head,
        Step::End => return Err(ConnEnd::Ended),
        Step::Cut => return Err(ConnEnd::Cut),
        Step::Bad => return Err(refuse(&mut conn.sink, bad_request_reply(alloc))),
        Step::HeadTooLarge => return Err(refuse(&mut conn.sink, head_too_large_reply(alloc))),
        Step::ReadFault => return Err(ConnEnd::ReadFault),
        Step::NoMemory => return Err(ConnEnd::NoMemory),
    };
    let at = clock.seconds();
    let call = find_caller(port, admin, &head);
    match greet(&mut conn.sink, head.interim) {
        Ok(()) => Ok(Opened { head, at, call }),
        Err(end) => Err(end),
    }
}

/// Reads the next request of a connection to its end, and writes the interim text where its head calls for it. Where
/// there is no whole request it says why the connection ends, and has written its last text.
pub(crate) fn receive<P: Port, S: Source, K: Sink, C: Clock>(
    port: &mut P,
    conn: &mut Conn<S, K>,
    clock: &mut C,
    admin: &Text,
) -> Result<Heard, ConnEnd>
    requires { conn.old.reader.state ≡ State.Between }
    // The body of who calls a route is gone only for want of memory: where the buffer had the room it is there.
    ensures ok { IfOk result (λ heard. HearsAll (terms P.alone (C.second clock.old) admin.now)
        (moment P.View S.Source K.Sink port.old (source_of conn.old) (sink_of conn.old) conn.old.answered conn.old.reader.held)
        (moment P.View S.Source K.Sink port.new (source_of conn.new) (sink_of conn.new) conn.new.answered conn.new.reader.held)
        (called_if heard.call) heard.last (option_map (λ bytes. bytes.items) heard.arg) heard.body conn.new.buffer.items (vec_capacity conn.old.buffer)) }
    ensures err { IfErr result (λ end. Stops (terms P.alone (C.second clock.old) admin.now)
        (moment P.View S.Source K.Sink port.old (source_of conn.old) (sink_of conn.old) conn.old.answered conn.old.reader.held)
        (moment P.View S.Source K.Sink port.new (source_of conn.new) (sink_of conn.new) conn.new.answered conn.new.reader.held) end) }
    ensures range { IfOk result (λ heard. heard.at ≤ LAST_SECOND) }
    ensures timed { IfOk result (λ heard. IfSome (C.second clock.old) (λ s. heard.at ≡ s)) }
    ensures between { OnOk result (conn.new.reader.state ≡ State.Between) }
    ensures few { OnOk result (length conn.new.buffer.items ≤ BLOCK_BYTES) }
    ensures second { C.second clock.new ≡ C.second clock.old }
    ensures went { P.went port.old port.new }
    ensures source_place { S.place (source_of conn.new) ≡ S.place (source_of conn.old) }
    ensures sink_place { K.place (sink_of conn.new) ≡ K.place (sink_of conn.old) }
    ensures read_told { ChangesOnlyAt result ConnEnd.ReadFault (S.faults (source_of conn.old)) (S.faults (source_of conn.new)) }
    ensures write_told { ChangesOnlyAt result ConnEnd.WriteFault (K.faults (sink_of conn.old)) (K.faults (sink_of conn.new)) }
    ensures disk_told { P.faults port.new ≡ P.faults port.old }
    ensures read_once { S.faults (source_of conn.new) ≤ S.faults (source_of conn.old) + 1 }
    ensures write_once { K.faults (sink_of conn.new) ≤ K.faults (sink_of conn.old) + 1 }
{
    let alloc = conn.alloc;
    let opened = match read_head(port, conn, clock, admin) {
        Ok(opened) => opened,
        Err(end) => return Err(end),
    };
    let Opened { head, at, call } = opened;
    let mut portion = [0u8; PORTION_BYTES];
    conn.buffer.clear();
    let (end, body) = read_body(
        &mut conn.reader,
        &mut conn.source,
        &mut portion,
        keeps(&call),
        &mut conn.buffer,
    );
    match end {
        BodyEnd::Done => Ok(Heard {
            at,
            call,
            last: head.last,
            arg: head.arg,
            body,
        }),
        BodyEnd::Cut => Err(ConnEnd::Cut),
        BodyEnd::Bad => Err(refuse(&mut conn.sink, bad_request_reply(alloc))),
        BodyEnd::TooLarge => {
            let reply = body_too_large_reply(alloc, &head.target);
            Err(refuse(&mut conn.sink, reply))
        }
        BodyEnd::ReadFault => Err(ConnEnd::ReadFault),
        BodyEnd::NoMemory => unreachable!(),
        BodyEnd::Unread => unreachable!(),
    }
}
