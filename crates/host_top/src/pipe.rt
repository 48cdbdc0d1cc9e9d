ghost use Rattle.std.specs.Prelude.{◌≡◌, ◌≢◌, ◌⊎◌, ◌≤◌, ◌+◌, [], List, ℕ, None, IsTrue, map, string_bytes};
ghost use Rattle.fh_model.specs.State.{State};
ghost use Rattle.fh_world.specs.Bytes.{Moves, Holds};
ghost use Rattle.fh_world.specs.Causes.{Rose};
ghost use Rattle.session_http.specs.Spell.{Spells};
ghost use Rattle.session_http.specs.declared.conn.ConnEnd.{ConnEnd};
ghost use Rattle.store_core.specs.Files.{contents, StandsOrNew};
ghost use Rattle.host_top.specs.Pipe.{EndsSo, PipeRan, StoreServed, TellsContents};
ghost use Rattle.host_top.specs.Status.{status_of, refusal_of};
ghost use Rattle.host_top.specs.Words.{IsToken, IsPipe};

use crate::{Plan, Status, WordsFault, read_words};
use fh_model::Text;
use fh_world::{Clock, Disk, Sink, Source};
use host_seat::Direct;
use session_http::{Conn, ConnEnd, serve_conn};
use std::alloc::Global;
use store_core::{Store, StoreFault};

/// `filehost pipe`: opens the store on the disk, or makes a new one where there is none, and serves one connection
/// from the input to the output, over the words of the command line.
pub fn run_pipe<D: Disk, S: Source, K: Sink, C: Clock>(
    alloc: Global,
    words: &[String],
    disk: &mut D,
    input: &mut S,
    output: &mut K,
    clock: &mut C,
) -> Status
    // Usage comes exactly where the words are not in the form, and then nothing is touched.
    ensures usage { result ≡ Status.Usage → (store admin : List ℕ) → IsPipe (map string_bytes words.now) store admin → ⊥ }
    ensures form { ((store admin : List ℕ) → IsPipe (map string_bytes words.now) store admin → ⊥) → (result ≡ Status.Usage) }
    ensures untouched { result ≡ Status.Usage → Moves S.given S.left input.old input.new [] × Holds K.held output.old output.new [] × (disk.new ≡ disk.old) }
    // What was written are the machine's replies to the requests that were read, each at its point of one history from
    // the state that the files stood for; whenever a crash comes, they stand for the machine after a prefix of that
    // history, and after the call for all of it, with a block file that has the data of what was uploaded, in which each
    // content that was sent still stands; each other status has its cause.
    ensures ran { (store admin : List ℕ) → IsPipe (map string_bytes words.now) store admin → PipeRan D.Disk S.Source K.Sink (C.second clock.old) admin disk.old disk.new input.old input.new output.old output.new result }
    // Another program's files and a damaged record are told exactly where they are.
    ensures contents { (store admin : List ℕ) → IsPipe (map string_bytes words.now) store admin → IsTrue D.tells → TellsContents (contents (D.seen disk.old)) result }
    // Over a store, where nothing fails, the status is that of the input's ending, or memory was wanting.
    ensures complete { (store admin : List ℕ) (ending : ConnEnd) (start : State) → IsPipe (map string_bytes words.now) store admin → IsTrue D.tells → StandsOrNew (D.seen disk.old) start → (sent : Spells (S.left input.old) ending) → (Rose (S.faults input.old) (S.faults input.new) → ⊥) → (Rose (K.faults output.old) (K.faults output.new) → ⊥) → (Rose (D.faults disk.old) (D.faults disk.new) → ⊥) → EndsSo result ending sent.rest }
    // A fault is told only where it came.
    ensures read { result ≡ Status.ReadFault → Rose (S.faults input.old) (S.faults input.new) }
    ensures write { result ≡ Status.WriteFault → Rose (K.faults output.old) (K.faults output.new) }
    ensures disk { result ≡ Status.DiskFault → Rose (D.faults disk.old) (D.faults disk.new) }
    // And each fault that came is told: a count stands as it was, unless the status is its own fault.
    ensures read_told { result ≢ Status.ReadFault → S.faults input.new ≡ S.faults input.old }
    ensures write_told { result ≢ Status.WriteFault → K.faults output.new ≡ K.faults output.old }
    ensures disk_told { result ≢ Status.DiskFault → D.faults disk.new ≡ D.faults disk.old }
    // Nothing is tried again behind a fault.
    ensures read_once { S.faults input.new ≤ S.faults input.old + 1 }
    ensures write_once { K.faults output.new ≤ K.faults output.old + 1 }
    ensures disk_once { D.faults disk.new ≤ D.faults disk.old + 1 }
    ensures disk_place { D.place disk.new ≡ D.place disk.old }
    ensures input_place { S.place input.new ≡ S.place input.old }
    ensures output_place { K.place output.new ≡ K.place output.old }
{
    serve_words(alloc, words, disk, input, output, clock)
}

/// Opens the store and serves one connection as the words say.
fn serve_words<D: Disk, S: Source, K: Sink, C: Clock>(
    alloc: Global,
    words: &[String],
    disk: &mut D,
    input: &mut S,
    output: &mut K,
    clock: &mut C,
) -> Status
    ensures usage { result ≡ Status.Usage → (store admin : List ℕ) → IsPipe (map string_bytes words.now) store admin → ⊥ }
    ensures form { ((store admin : List ℕ) → IsPipe (map string_bytes words.now) store admin → ⊥) → (result ≡ Status.Usage) }
    ensures untouched { result ≡ Status.Usage → Moves S.given S.left input.old input.new [] × Holds K.held output.old output.new [] × (disk.new ≡ disk.old) }
    ensures ran { (store admin : List ℕ) → IsPipe (map string_bytes words.now) store admin → PipeRan D.Disk S.Source K.Sink (C.second clock.old) admin disk.old disk.new input.old input.new output.old output.new result }
    ensures read { result ≡ Status.ReadFault → Rose (S.faults input.old) (S.faults input.new) }
    ensures write { result ≡ Status.WriteFault → Rose (K.faults output.old) (K.faults output.new) }
    ensures disk { result ≡ Status.DiskFault → Rose (D.faults disk.old) (D.faults disk.new) }
    ensures read_told { result ≢ Status.ReadFault → S.faults input.new ≡ S.faults input.old }
    ensures write_told { result ≢ Status.WriteFault → K.faults output.new ≡ K.faults output.old }
    ensures disk_told { result ≢ Status.DiskFault → D.faults disk.new ≡ D.faults disk.old }
    ensures read_once { S.faults input.new ≤ S.faults input.old + 1 }
    ensures write_once { K.faults output.new ≤ K.faults output.old + 1 }
    ensures disk_once { D.faults disk.new ≤ D.faults disk.old + 1 }
    ensures disk_place { D.place disk.new ≡ D.place disk.old }
    ensures input_place { S.place input.new ≡ S.place input.old }
    ensures output_place { K.place output.new ≡ K.place output.old }
{
    let plan = match read_words(alloc, words) {
        Ok(plan) => plan,
        Err(WordsFault::Usage) => return Status::Usage,
        Err(WordsFault::NoMemory) => return Status::NoMemory,
    };
    let Plan::Pipe { admin, .. } = plan;
    serve_lent(alloc, disk, input, output, clock, &admin)
}

/// Serves one connection over a disk and ends that it is lent.
fn serve_lent<D: Disk, S: Source, K: Sink, C: Clock>(
    alloc: Global,
    disk: &mut D,
    input: &mut S,
    output: &mut K,
    clock: &mut C,
    admin: &Text,
) -> Status
    requires { IsToken admin.now }
    ensures usage { result ≡ Status.Usage → ⊥ }
    ensures ran { PipeRan D.Disk S.Source K.Sink (C.second clock.old) admin.now disk.old disk.new input.old input.new output.old output.new result }
    ensures read { result ≡ Status.ReadFault → Rose (S.faults input.old) (S.faults input.new) }
    ensures write { result ≡ Status.WriteFault → Rose (K.faults output.old) (K.faults output.new) }
    ensures disk { result ≡ Status.DiskFault → Rose (D.faults disk.old) (D.faults disk.new) }
    ensures read_told { result ≢ Status.ReadFault → S.faults input.new ≡ S.faults input.old }
    ensures write_told { result ≢ Status.WriteFault → K.faults output.new ≡ K.faults output.old }
    ensures disk_told { result ≢ Status.DiskFault → D.faults disk.new ≡ D.faults disk.old }
    ensures read_once { S.faults input.new ≤ S.faults input.old + 1 }
    ensures write_once { K.faults output.new ≤ K.faults output.old + 1 }
    ensures disk_once { D.faults disk.new ≤ D.faults disk.old + 1 }
    ensures disk_place { D.place disk.new ≡ D.place disk.old }
    ensures input_place { S.place input.new ≡ S.place input.old }
    ensures output_place { K.place output.new ≡ K.place output.old }
{
    let (status, _, _, _) = serve_disk(alloc, disk, input, output, clock, admin);
    status
}

/// Serves one connection over a disk and ends that it owns meanwhile.
fn serve_disk<D: Disk, S: Source, K: Sink, C: Clock>(
    alloc: Global,
    disk: D,
    input: S,
    output: K,
    clock: &mut C,
    admin: &Text,
) -> (Status, D, S, K)
    requires { IsToken admin.now }
    ensures ran { PipeRan D.Disk S.Source K.Sink (C.second clock.old) admin.now disk result.1 input result.2 output result.3 result.0 }
    ensures read { result.0 ≡ Status.ReadFault → Rose (S.faults input) (S.faults result.2) }
    ensures write { result.0 ≡ Status.WriteFault → Rose (K.faults output) (K.faults result.3) }
    ensures disk { result.0 ≡ Status.DiskFault → Rose (D.faults disk) (D.faults result.1) }
    ensures read_told { result.0 ≢ Status.ReadFault → S.faults result.2 ≡ S.faults input }
    ensures write_told { result.0 ≢ Status.WriteFault → K.faults result.3 ≡ K.faults output }
    ensures disk_told { result.0 ≢ Status.DiskFault → D.faults result.1 ≡ D.faults disk }
    ensures read_once { S.faults result.2 ≤ S.faults input + 1 }
    ensures write_once { K.faults result.3 ≤ K.faults output + 1 }
    ensures disk_once { D.faults result.1 ≤ D.faults disk + 1 }
    ensures disk_place { D.place result.1 ≡ D.place disk }
    ensures input_place { S.place result.2 ≡ S.place input }
    ensures output_place { K.place result.3 ≡ K.place output }
{
    open_and_serve(alloc, disk, input, output, clock, admin)
}

/// Opens the store and serves one connection over it.
fn open_and_serve<D: Disk, S: Source, K: Sink, C: Clock>(
    alloc: Global,
    disk: D,
    input: S,
    output: K,
    clock: &mut C,
    admin: &Text,
) -> (Status, D, S, K)
    requires { IsToken admin.now }
    ensures ran { PipeRan D.Disk S.Source K.Sink (C.second clock.old) admin.now disk result.1 input result.2 output result.3 result.0 }
    ensures read_told { result.0 ≢ Status.ReadFault → S.faults result.2 ≡ S.faults input }
    ensures write_told { result.0 ≢ Status.WriteFault → K.faults result.3 ≡ K.faults output }
    ensures disk_told { result.0 ≢ Status.DiskFault → D.faults result.1 ≡ D.faults disk }
    ensures read_once { S.faults result.2 ≤ S.faults input + 1 }
    ensures write_once { K.faults result.3 ≤ K.faults output + 1 }
    ensures disk_once { D.faults result.1 ≤ D.faults disk + 1 }
    ensures disk_place { D.place result.1 ≡ D.place disk }
    ensures input_place { S.place result.2 ≡ S.place input }
    ensures output_place { K.place result.3 ≡ K.place output }
{
    let store = match Store::open(alloc, disk) {
        Ok(store) => store,
        Err((disk, fault)) => return (refusal_of(fault), disk, input, output),
    };
    let (status, store, input, output) = serve_store(alloc, store, input, output, clock, admin);
    (status, store.into_disk(), input, output)
}

/// Serves one connection over a store.
fn serve_store<D: Disk, S: Source, K: Sink, C: Clock>(
    alloc: Global,
    store: Store<D>,
    input: S,
    output: K,
    clock: &mut C,
    admin: &Text,
) -> (Status, Store<D>, S, K)
    requires { IsToken admin.now }
    ensures served { StoreServed D.Disk S.Source K.Sink (C.second clock.old) admin.now store result.1 input result.2 output result.3 result.0 }
    ensures read_told { result.0 ≢ Status.ReadFault → S.faults result.2 ≡ S.faults input }
    ensures write_told { result.0 ≢ Status.WriteFault → K.faults result.3 ≡ K.faults output }
    ensures disk_told { result.0 ≢ Status.DiskFault → D.faults result.1.disk ≡ D.faults store.disk }
    ensures read_once { S.faults result.2 ≤ S.faults input + 1 }
    ensures write_once { K.faults result.3 ≤ K.faults output + 1 }
    ensures disk_once { D.faults result.1.disk ≤ D.faults store.disk + 1 }
    ensures input_place { S.place result.2 ≡ S.place input }
    ensures output_place { K.place result.3 ≡ K.place output }
{
    let mut port = Direct::new(store);
    let mut conn = match Conn::new(alloc, input, output) {
        Ok(conn) => conn,
        Err((input, output)) => return (Status::NoMemory, port.into_store(), input, output),
    };
    let end = serve_conn(&mut port, &mut conn, clock, admin);
    let (input, output) = conn.into_ends();
    (status_of(end), port.into_store(), input, output)
}

/// The status of a connection's end.
fn status_of(end: ConnEnd) -> Status
    ensures { result ≡ status_of end }
{
    match end {
        ConnEnd::Ended => Status::Done,
        ConnEnd::Cut => Status::Cut,
        ConnEnd::Bad => Status::Bad,
        ConnEnd::ReadFault => Status::ReadFault,
        ConnEnd::WriteFault => Status::WriteFault,
        ConnEnd::DiskFault => Status::DiskFault,
        ConnEnd::NoMemory => Status::NoMemory,
        ConnEnd::Spent => Status::Spent,
    }
}

/// The status of a store that isn't opened.
fn refusal_of(fault: StoreFault) -> Status
    ensures { result ≡ refusal_of fault }
{
    match fault {
        StoreFault::Disk => Status::DiskFault,
        StoreFault::NotAStore { place } => Status::NotAStore { place },
        StoreFault::Damaged { place } => Status::Damaged { place },
        StoreFault::NoMemory => Status::NoMemory,
    }
}
