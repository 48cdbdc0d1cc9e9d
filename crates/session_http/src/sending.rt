//! Sends the content of a file, one block after another.
ghost use Rattle.std.specs.Prelude.{◌≡◌, ◌≤◌, ◌+◌, ℕ, IsTrue, IfOk, OnOk, IfErr};
ghost use Rattle.fh_model.specs.declared.files.FileMeta.{FileMeta};
ghost use Rattle.fh_model.specs.History.{state_of};
ghost use Rattle.host_seat.specs.Port.{IsBlock, KeepsPieces, OthersEnter, block_at};
ghost use Rattle.session_http.specs.Faults.{ChangesOnlyAt};
ghost use Rattle.session_http.specs.Sending.{BreaksOff, HasBlock, IsCause, IsVersion, SendsOn};

use crate::conn::ConnEnd;
use crate::receiving::write;
use fh_world::Sink;
use host_seat::{FetchFault, Port};

/// Fetches a block of a version that the machine keeps.
fn fetch<P: Port>(port: &mut P, rev: u64, block: u32) -> Result<Vec<u8>, ConnEnd>
    requires { HasBlock (state_of (P.seen port.old)) rev block }
    ensures point { OthersEnter P.alone (P.seen port.old) (P.seen port.new) }
    ensures bytes { IfOk result (λ bytes. IsBlock (block_at (P.seen port.new) rev block) (P.blocks port.new) bytes.items) }
    ensures end { (before now : ℕ) → IfErr result (λ end. IsCause end (P.faults port.old) (P.faults port.new) before now) }
    ensures below { IsTrue P.alone → KeepsPieces (state_of (P.seen port.old)) (P.blocks port.old) (P.blocks port.new) }
    ensures waits { P.waits port.new ≡ P.waits port.old }
    ensures number { P.number port.new ≡ P.number port.old }
    ensures later { P.faults port.old ≤ P.faults port.new }
    ensures told { ChangesOnlyAt result ConnEnd.DiskFault (P.faults port.old) (P.faults port.new) }
    ensures once { P.faults port.new ≤ P.faults port.old + 1 }
    ensures went { P.went port.old port.new }
{
    match port.fetch(rev, block) {
        Ok(bytes) => Ok(bytes),
        Err(FetchFault::Disk) => Err(ConnEnd::DiskFault),
        Err(FetchFault::NoMemory) => Err(ConnEnd::NoMemory),
        Err(FetchFault::NoRev) => unreachable!(),
        Err(FetchFault::NoBlock) => unreachable!(),
    }
}

/// Writes the head of a reply, and behind it the content of a version that the machine keeps, which has so many blocks.
/// At no time more than one of them is held.
pub(crate) fn send<P: Port, K: Sink>(
    port: &mut P,
    sink: &mut K,
    head: &[u8],
    rev: u64,
    count: u32,
) -> Result<(), ConnEnd>
    requires version { (meta : FileMeta) × IsVersion (state_of (P.seen port.old)) meta rev count }
    ensures ok { (meta : FileMeta) → IsVersion (state_of (P.seen port.old)) meta rev count
        → OnOk result (SendsOn P.alone (P.seen port.old) (P.seen port.new) (P.blocks port.old) (P.blocks port.new) K.held sink.old sink.new head.now meta.pieces) }
    ensures err { (meta : FileMeta) → IsVersion (state_of (P.seen port.old)) meta rev count
        → IfErr result (λ end. BreaksOff end P.alone (P.seen port.old) (P.seen port.new) (P.blocks port.old) (P.blocks port.new) K.held sink.old sink.new head.now meta.pieces) }
    ensures end { IfErr result (λ end. IsCause end (P.faults port.old) (P.faults port.new) (K.faults sink.old) (K.faults sink.new)) }
    ensures waits { P.waits port.new ≡ P.waits port.old }
    ensures number { P.number port.new ≡ P.number port.old }
    ensures port_later { P.faults port.old ≤ P.faults port.new }
    ensures went { P.went port.old port.new }
    ensures place { K.place sink.new ≡ K.place sink.old }
    ensures later { K.faults sink.old ≤ K.faults sink.new }
    ensures disk_told { ChangesOnlyAt result ConnEnd.DiskFault (P.faults port.old) (P.faults port.new) }
    ensures write_told { ChangesOnlyAt result ConnEnd.WriteFault (K.faults sink.old) (K.faults sink.new) }
    ensures disk_once { P.faults port.new ≤ P.faults port.old + 1 }
    ensures write_once { K.faults sink.new ≤ K.faults sink.old + 1 }
{
    match write(sink, head) {
        Ok(()) => {}
        Err(end) => return Err(end),
    }
    'pieces: for block in 0..count {
        let bytes = match fetch(port, rev, block) {
            Ok(bytes) => bytes,
            Err(end) => return Err(end),
        };
        match write(sink, &bytes) {
            Ok(()) => port.give_back(bytes),
            Err(end) => return Err(end),
        }
    }
    Ok(())
}
