//! Serves the requests of a connection in order.
ghost use Rattle.std.specs.Prelude.{◌≡◌, ◌≢◌, ◌≤◌, ◌<◌, ◌+◌, ◌||◌, ◌==◌, ℕ, [], List, length, Option, IfOk, IfSome, OnOk, IfErr, option_map};
ghost use Rattle.fh_model.specs.declared.limits.TheConstants.{BLOCK_BYTES};
ghost use Rattle.session_http.specs.Bodies.{Holds};
ghost use Rattle.session_http.specs.Conn.{source_of, sink_of, IsNew};
ghost use Rattle.session_http.specs.Ends.{Served};
ghost use Rattle.session_http.specs.Faults.{ChangesOnlyAt};
ghost use Rattle.session_http.specs.Points.{called_if};
ghost use Rattle.session_http.specs.Steps.{GoesOn, Hears, IsServed};
ghost use Rattle.session_http.specs.Talk.{Moment, moment, terms};

use crate::answering::{Answered, respond};
use crate::conn::{Conn, ConnEnd};
use crate::receiving::{Heard, receive, write};
use crate::sending::send;
use fh_model::{LAST_SECOND, NoMemory, REQUESTS_MAX, Text};
use fh_world::{Clock, Sink, Source};
use host_seat::{CommitFault, Port};
use http_in::State;
use http_out::out_of_memory;

/// Whether the connection ends with the reply to the request of this number, counted from 1.
fn is_last(asked: bool, number: u64) -> bool
    ensures { result ≡ (asked || (number == REQUESTS_MAX)) }
{
    asked || number == REQUESTS_MAX
}

/// Answers a request that was heard, and writes its reply.
fn answer<P: Port, S: Source, K: Sink>(
    port: &mut P,
    conn: &mut Conn<S, K>,
    heard: &Heard,
) -> Result<(), ConnEnd>
    requires few { conn.old.answered < REQUESTS_MAX }
    requires second { heard.now.at ≤ LAST_SECOND }
    requires fits { length conn.old.buffer.items ≤ BLOCK_BYTES }
    requires held { (content : List ℕ) × Holds heard.now.body conn.old.buffer.items content }
    ensures served { (second : Option ℕ) (admin : List ℕ) (before : Moment) → IfSome second (λ s. heard.now.at ≡ s)
        → Hears (terms P.alone second admin) before
        (moment P.View S.Source K.Sink port.old (source_of conn.old) (sink_of conn.old) conn.old.answered conn.old.reader.held)
        (called_if heard.now.call) heard.now.last (option_map (λ bytes. bytes.items) heard.now.arg) heard.now.body conn.old.buffer.items
        → IsServed (terms P.alone second admin) before
        (moment P.View S.Source K.Sink port.new (source_of conn.new) (sink_of conn.new) conn.new.answered conn.new.reader.held) heard.now.last result }
    ensures counted { conn.new.answered ≡ conn.old.answered + 1 }
    ensures source { source_of conn.new ≡ source_of conn.old }
    ensures reader { conn.new.reader ≡ conn.old.reader }
    ensures went { P.went port.old port.new }
    ensures port_later { P.faults port.old ≤ P.faults port.new }
    ensures sink_place { K.place (sink_of conn.new) ≡ K.place (sink_of conn.old) }
    ensures sink_later { K.faults (sink_of conn.old) ≤ K.faults (sink_of conn.new) }
    ensures write_told { ChangesOnlyAt result ConnEnd.WriteFault (K.faults (sink_of conn.old)) (K.faults (sink_of conn.new)) }
    ensures disk_told { ChangesOnlyAt result ConnEnd.DiskFault (P.faults port.old) (P.faults port.new) }
    ensures write_once { K.faults (sink_of conn.new) ≤ K.faults (sink_of conn.old) + 1 }
    ensures disk_once { P.faults port.new ≤ P.faults port.old + 1 }
{
    conn.answered += 1;
    let close = is_last(heard.last, conn.answered);
    let call = match heard.call {
        Ok(call) => call,
        Err(NoMemory) => return write(&mut conn.sink, out_of_memory(close)),
    };
    let arg = heard.arg.as_deref();
    let taken = (heard.body, conn.buffer.as_slice());
    match respond(conn.alloc, port, heard.at, call, arg, taken, close) {
        Ok(Answered::Text(text)) => write(&mut conn.sink, &text),
        Ok(Answered::Content { head, rev, count }) => {
            send(port, &mut conn.sink, &head, rev, count)
        }
        Err(CommitFault::NoMemory) => write(&mut conn.sink, out_of_memory(close)),
        Err(CommitFault::Disk) => Err(ConnEnd::DiskFault),
    }
}

/// Serves the next request of a connection, and answers whether it goes on.
fn serve_one<P: Port, S: Source, K: Sink, C: Clock>(
    port: &mut P,
    conn: &mut Conn<S, K>,
    clock: &mut C,
    admin: &Text,
) -> Result<bool, ConnEnd>
    requires between { conn.old.reader.state ≡ State.Between }
    requires few { conn.old.answered < REQUESTS_MAX }
    ensures ok { IfOk result (λ goes. GoesOn (terms P.alone (C.second clock.old) admin.now)
        (moment P.View S.Source K.Sink port.old (source_of conn.old) (sink_of conn.old) conn.old.answered conn.old.reader.held)
        (moment P.View S.Source K.Sink port.new (source_of conn.new) (sink_of conn.new) conn.new.answered conn.new.reader.held) goes) }
    ensures err { IfErr result (λ end. Served (terms P.alone (C.second clock.old) admin.now)
        (moment P.View S.Source K.Sink port.old (source_of conn.old) (sink_of conn.old) conn.old.answered conn.old.reader.held)
        (moment P.View S.Source K.Sink port.new (source_of conn.new) (sink_of conn.new) conn.new.answered conn.new.reader.held) end) }
    ensures between { OnOk result (conn.new.reader.state ≡ State.Between) }
    ensures counted { OnOk result (conn.new.answered ≡ conn.old.answered + 1) }
    ensures second { C.second clock.new ≡ C.second clock.old }
    ensures went { P.went port.old port.new }
    ensures port_later { P.faults port.old ≤ P.faults port.new }
    ensures source_place { S.place (source_of conn.new) ≡ S.place (source_of conn.old) }
    ensures sink_place { K.place (sink_of conn.new) ≡ K.place (sink_of conn.old) }
    ensures source_later { S.faults (source_of conn.old) ≤ S.faults (source_of conn.new) }
    ensures sink_later { K.faults (sink_of conn.old) ≤ K.faults (sink_of conn.new) }
    ensures read_told { ChangesOnlyAt result ConnEnd.ReadFault (S.faults (source_of conn.old)) (S.faults (source_of conn.new)) }
    ensures write_told { ChangesOnlyAt result ConnEnd.WriteFault (K.faults (sink_of conn.old)) (K.faults (sink_of conn.new)) }
    ensures disk_told { ChangesOnlyAt result ConnEnd.DiskFault (P.faults port.old) (P.faults port.new) }
    ensures read_once { S.faults (source_of conn.new) ≤ S.faults (source_of conn.old) + 1 }
    ensures write_once { K.faults (sink_of conn.new) ≤ K.faults (sink_of conn.old) + 1 }
    ensures disk_once { P.faults port.new ≤ P.faults port.old + 1 }
{
    let heard = match receive(port, conn, clock, admin) {
        Ok(heard) => heard,
        Err(end) => return Err(end),
    };
    match answer(port, conn, &heard) {
        Ok(()) => Ok(!heard.last),
        Err(end) => Err(end),
    }
}

/// Serves the requests of a new connection until it ends. `admin` is the token that is looked at first.
pub fn serve_conn<P: Port, S: Source, K: Sink, C: Clock>(
    port: &mut P,
    conn: &mut Conn<S, K>,
    clock: &mut C,
    admin: &Text,
) -> ConnEnd
    requires unread { IsNew conn.old }
    // The requests that were read, the replies that were written, and why it ended.
    ensures served { Served (terms P.alone (C.second clock.old) admin.now)
        (moment P.View S.Source K.Sink port.old (source_of conn.old) (sink_of conn.old) 0 [])
        (moment P.View S.Source K.Sink port.new (source_of conn.new) (sink_of conn.new) conn.new.answered conn.new.reader.held) result }
    ensures went { P.went port.old port.new }
    ensures port_later { P.faults port.old ≤ P.faults port.new }
    // The ends are still those that the connection was given.
    ensures source_place { S.place (source_of conn.new) ≡ S.place (source_of conn.old) }
    ensures sink_place { K.place (sink_of conn.new) ≡ K.place (sink_of conn.old) }
    ensures source_later { S.faults (source_of conn.old) ≤ S.faults (source_of conn.new) }
    ensures sink_later { K.faults (sink_of conn.old) ≤ K.faults (sink_of conn.new) }
    // Each fault is told: a count stands as it was, unless the end is a fault of its own.
    ensures read_told { result ≢ ConnEnd.ReadFault → S.faults (source_of conn.new) ≡ S.faults (source_of conn.old) }
    ensures write_told { result ≢ ConnEnd.WriteFault → K.faults (sink_of conn.new) ≡ K.faults (sink_of conn.old) }
    ensures disk_told { result ≢ ConnEnd.DiskFault → P.faults port.new ≡ P.faults port.old }
    // Nothing is tried again behind a fault.
    ensures read_once { S.faults (source_of conn.new) ≤ S.faults (source_of conn.old) + 1 }
    ensures write_once { K.faults (sink_of conn.new) ≤ K.faults (sink_of conn.old) + 1 }
    ensures disk_once { P.faults port.new ≤ P.faults port.old + 1 }
{
    'requests: while conn.answered < REQUESTS_MAX {
        match serve_one(port, conn, clock, admin) {
            Ok(true) => {}
            Ok(false) if conn.answered < REQUESTS_MAX => return ConnEnd::Ended,
            Ok(false) => return ConnEnd::Spent,
            Err(end) => return end,
        }
    }
    ConnEnd::Spent
}
