ghost use Rattle.std.specs.Prelude.{◌≡◌, None, IfOk, OnSome};

use cmd_codec::{encode, has_spelling};
use fh_model::{
    Act, BLOCK_BYTES, Cmd, Commit, Entry, LAST_SECOND, Members, Mode, NoMemory, Reply, Row,
    SPENT_AT, Text,
};
use fh_world::{Disk, FileDisk, FileNo, FuseDisk, MemDisk};
use gate_journal::{Record, frame, lay};
use state_rows::{encode_row, has_spelling as row_has_spelling};
use std::alloc::Global;
use std::fs;
use std::test::Fail;
use store_core::{FetchFault, Store, StoreFault};

/// The second of the example in the formats.
const AT: u64 = 1_700_000_000;

fn folder(alloc: Global, path: &str) -> Result<Cmd, NoMemory> {
    let path = Text::new(String::from_str(alloc, path)?);
    Ok(Cmd {
        seat: 1,
        at: AT,
        act: Act::MakeFolder {
            user: 1,
            path,
            rename: false,
        },
    })
}

/// The store of a disk that has one.
fn opened<D: Disk + Drop>(alloc: Global, disk: D) -> Result<Store<D>, Fail>
    ensures { IfOk result (λ store. store.waiting ≡ None) }
{
    Ok(Store::open(alloc, disk).ok().ok_or("the store opens")?)
}

fn is_entry(reply: &Reply) -> bool {
    matches!(reply, Reply::Entry(_))
}

/// Makes a folder, and answers whether it was made. None stands for a fault.
fn make<D: Disk>(alloc: Global, store: &mut Store<D>, path: &str) -> Option<bool>
    requires { store.old.waiting ≡ None }
    ensures { OnSome result (store.new.waiting ≡ None) }
{
    let cmd = folder(alloc, path).ok()?;
    if !has_spelling(&cmd) {
        return None;
    }
    let reply = store.commit(cmd, b"", None).ok()?;
    Some(is_entry(&reply))
}

fn upload(alloc: Global, path: &str) -> Result<Cmd, NoMemory> {
    let path = Text::new(String::from_str(alloc, path)?);
    let commit = Commit {
        path,
        mode: Mode::Add,
        rename: false,
        strict: false,
        client: None,
    };
    Ok(Cmd {
        seat: 1,
        at: AT,
        act: Act::Upload {
            user: 1,
            commit,
            drafted: 0,
            last: None,
        },
    })
}

/// The rev of a file, 0 of a refusal.
fn rev_of(reply: &Reply) -> Option<u64> {
    match reply {
        Reply::Entry(Entry::File { meta, .. }) => Some(meta.rev),
        Reply::Entry(Entry::Folder { .. }) => None,
        Reply::Refused(_) => Some(0),
    }
}

/// Uploads the bytes, and answers the rev that was written, or 0 for a refusal. None stands for a fault.
fn send<D: Disk>(alloc: Global, store: &mut Store<D>, path: &str, bytes: &[u8]) -> Option<u64>
    requires { store.old.waiting ≡ None }
    ensures { OnSome result (store.new.waiting ≡ None) }
{
    let cmd = upload(alloc, path).ok()?;
    if !has_spelling(&cmd) || bytes.len() > BLOCK_BYTES {
        return None;
    }
    let reply = store.commit(cmd, bytes, None).ok()?;
    rev_of(&reply)
}

/// Whether the reply to a command would be an entry.
fn would_enter<D: Disk>(store: &Store<D>, cmd: &Cmd) -> Result<bool, NoMemory> {
    let reply = store.image().settle(cmd)?;
    Ok(is_entry(&reply))
}

/// Whether a folder could be made at the path.
fn is_free<D: Disk>(alloc: Global, store: &Store<D>, path: &str) -> Result<bool, NoMemory> {
    let cmd = folder(alloc, path)?;
    would_enter(store, &cmd)
}

/// Folders that are made one after another, of which the second is refused.
static FOLDERS: [&str; 3] = ["/Docs", "/docs", "/e"];

/// Makes the folders up to the first fault, and answers how many were acknowledged.
fn make_all<D: Disk>(alloc: Global, store: &mut Store<D>) -> u64 {
    let mut made: u64 = 0;
    for path in &FOLDERS {
        if store.waits() {
            break;
        }
        match make(alloc, store, *path) {
            Some(true) => made = made.saturating_add(1),
            Some(false) => {}
            None => break,
        }
    }
    made
}

/// How many folders were acknowledged on this disk, and the disk.
fn run(alloc: Global, disk: FuseDisk<MemDisk>) -> (u64, FuseDisk<MemDisk>) {
    match Store::open(alloc, disk) {
        Ok(store) => {
            let mut store = store;
            let made = make_all(alloc, &mut store);
            (made, store.into_disk())
        }
        Err((disk, _)) => (0, disk),
    }
}

/// How many folders were acknowledged on a disk that stops after so many calls, and what it holds.
fn stopped(alloc: Global, calls: u64) -> Result<(u64, MemDisk), Fail> {
    let (made, fuse) = run(alloc, FuseDisk::new(MemDisk::new(alloc)?, calls));
    Ok((made, fuse.into_inner()))
}

/// How many of the folders stand in a store, where those that do are the first of them.
fn standing<D: Disk>(alloc: Global, store: &Store<D>) -> Result<Option<u64>, Fail> {
    let docs = !is_free(alloc, store, "/docs")?;
    let e = !is_free(alloc, store, "/E")?;
    Ok(match (docs, e) {
        (false, false) => Some(0),
        (true, false) => Some(1),
        (true, true) => Some(2),
        (false, true) => None,
    })
}

/// How many of the folders stand after a crash of the disk by this choice.
fn left_standing(alloc: Global, disk: &MemDisk, choice: u64) -> Result<Option<u64>, Fail> {
    let store = opened(alloc, disk.crashed(choice)?)?;
    standing(alloc, &store)
}

/// Whether these folders may stand where so many were acknowledged: so many, or one more, and both where the disk stopped
/// after no fewer than 23 calls.
fn may_stand(found: Option<u64>, calls: u64, made: u64) -> bool {
    let is_next = found == Some(made) || found == Some(made.saturating_add(1));
    is_next && (calls < 23 || found == Some(2))
}

/// The first choice by which a crash leaves folders that may not stand, if there is one.
fn first_astray(alloc: Global, disk: &MemDisk, calls: u64, made: u64) -> Result<Option<u64>, Fail> {
    for choice in 0..64 {
        let found = left_standing(alloc, disk, choice)?;
        if !may_stand(found, calls, made) {
            return Ok(Some(choice));
        }
    }
    Ok(None)
}

/// The first choice by which a crash leaves folders that may not stand where the disk stopped after so many calls, if there
/// is one.
fn astray_after(alloc: Global, calls: u64) -> Result<Option<u64>, Fail> {
    let (made, disk) = stopped(alloc, calls)?;
    first_astray(alloc, &disk, calls, made)
}

#[test]
fn a_stop_at_any_call_leaves_what_was_acknowledged(rt: HostRuntime) -> Result<(), Fail> {
    for calls in 0..25 {
        let astray = astray_after(rt.alloc(), calls)?;
        assert!(rt; astray == None, "after {calls} calls, choice {astray:?}");
    }
    Ok(())
}

/// Uploads one after another: a path with its bytes, and the rev that is written, 0 where it is refused and its bytes
/// are left in a session.
static UPLOADS: [(&str, &[u8], u64); 5] = [
    ("/a.txt", b"hello", 1),
    ("/a.txt", b"another", 0),
    ("/a.txt", b"hello", 1),
    ("/empty", b"", 2),
    ("/b", b"world", 3),
];

/// Uploads one after another up to the first fault, and answers how many were acknowledged. None stands for one that was
/// answered otherwise.
fn send_all<D: Disk>(alloc: Global, store: &mut Store<D>) -> Option<usize> {
    let mut done: usize = 0;
    for (path, bytes, want) in &UPLOADS {
        if store.waits() {
            break;
        }
        match send(alloc, store, path, bytes) {
            Some(rev) => {
                if rev != *want {
                    return None;
                }
            }
            None => break,
        }
        done = done.saturating_add(1);
    }
    Some(done)
}

/// How many of the uploads were acknowledged on this disk, and the disk.
fn run_uploads(alloc: Global, disk: FuseDisk<MemDisk>) -> (Option<usize>, FuseDisk<MemDisk>) {
    match Store::open(alloc, disk) {
        Ok(store) => {
            let mut store = store;
            let done = send_all(alloc, &mut store);
            (done, store.into_disk())
        }
        Err((disk, _)) => (Some(0), disk),
    }
}

/// How many of the uploads were acknowledged on a disk that stops after so many calls, and what it holds.
fn stopped_uploads(alloc: Global, calls: u64) -> Result<(usize, MemDisk), Fail> {
    let (done, fuse) = run_uploads(alloc, FuseDisk::new(MemDisk::new(alloc)?, calls));
    let Some(done) = done else {
        return Err("another reply".into());
    };
    Ok((done, fuse.into_inner()))
}

/// Whether the version is there with these bytes.
fn has<D: Disk>(store: &mut Store<D>, rev: u64, bytes: &[u8]) -> bool {
    match store.fetch(rev, 0) {
        Ok(found) => {
            let same = found.as_slice() == bytes;
            // So that the next one is fetched into its room.
            store.give_back(found);
            same
        }
        Err(FetchFault::NoBlock) => bytes.is_empty(),
        Err(_) => false,
    }
}

/// Whether each version that was acknowledged is there with its bytes, and each that isn't there wasn't.
fn keeps<D: Disk>(store: &mut Store<D>, done: usize) -> bool {
    for (index, (_, bytes, rev)) in UPLOADS.iter().enumerate() {
        let known = store.image().meta(*rev).is_some();
        if *rev != 0 && (known || index < done) && !has(store, *rev, bytes) {
            return false;
        }
    }
    true
}

/// Whether the store that is left after a crash of the disk by this choice keeps what was acknowledged.
fn is_kept(alloc: Global, disk: &MemDisk, choice: u64, done: usize) -> Result<bool, Fail> {
    let mut store = opened(alloc, disk.crashed(choice)?)?;
    Ok(keeps(&mut store, done))
}

/// The first choice by which a crash loses what was acknowledged, if there is one.
fn first_loss(alloc: Global, disk: &MemDisk, done: usize) -> Result<Option<u64>, Fail> {
    for choice in 0..64 {
        if !is_kept(alloc, disk, choice, done)? {
            return Ok(Some(choice));
        }
    }
    Ok(None)
}

/// The first choice by which a crash loses what was acknowledged where the disk stopped after so many calls, if there is
/// one. It fails where not all the uploads were acknowledged after 44.
fn loss_after(alloc: Global, calls: u64) -> Result<Option<u64>, Fail> {
    let (done, disk) = stopped_uploads(alloc, calls)?;
    if calls >= 44 && done != 5 {
        return Err(done.into());
    }
    first_loss(alloc, &disk, done)
}

#[test]
fn uploads_survive_a_stop_at_any_call(rt: HostRuntime) -> Result<(), Fail> {
    for calls in 0..46 {
        let loss = loss_after(rt.alloc(), calls)?;
        assert!(rt; loss == None, "after {calls} calls, choice {loss:?}");
    }
    Ok(())
}

/// A store on a new disk, to which `hello` was uploaded at `/a.txt`.
fn with_hello(alloc: Global) -> Result<Store<MemDisk>, Fail>
    ensures { IfOk result (λ store. store.waiting ≡ None) }
{
    let mut store = opened(alloc, MemDisk::new(alloc)?)?;
    if send(alloc, &mut store, "/a.txt", b"hello") != Some(1) {
        return Err("not the first version".into());
    }
    Ok(store)
}

/// Versions and numbers of blocks that aren't there where there is one block of one version.
static NO_BLOCKS: [(u64, u32, FetchFault); 3] = [
    (1, 1, FetchFault::NoBlock),
    (0, 0, FetchFault::NoRev),
    (2, 0, FetchFault::NoRev),
];

/// Whether none of these is fetched, and its fault is told.
fn has_no_more(store: &mut Store<MemDisk>) -> bool {
    for (rev, block, fault) in &NO_BLOCKS {
        if store.fetch(*rev, *block).err() != Some(*fault) {
            return false;
        }
    }
    true
}

#[test]
fn a_block_is_fetched_by_its_version_and_number(rt: HostRuntime) -> Result<(), Fail> {
    let mut store = with_hello(rt.alloc())?;
    let is_fetched = has(&mut store, 1, b"hello") && has_no_more(&mut store);
    let disk = store.into_disk();
    assert!(rt; is_fetched && disk.bytes(FileNo::Blocks) == b"hello".as_slice());
    Ok(())
}

/// Why the disk's store isn't opened, none where it is.
fn fault_of(alloc: Global, disk: MemDisk) -> Option<StoreFault> {
    match Store::open(alloc, disk) {
        Ok(_) => None,
        Err((_, fault)) => Some(fault),
    }
}

/// Whether a store whose block file is cut to so many bytes is opened, or where it is damaged.
fn cut(alloc: Global, disk: &MemDisk, len: usize) -> Result<Option<StoreFault>, Fail> {
    let blocks = disk.bytes(FileNo::Blocks);
    let short = MemDisk::with(
        alloc,
        disk.bytes(FileNo::Head),
        disk.bytes(FileNo::SlotA),
        b"",
        &blocks[..len.min(blocks.len())],
    )?;
    Ok(fault_of(alloc, short))
}

/// Whether `/Docs` and then an upload of `world` were acknowledged behind the first version, and nothing waited.
fn go_on(alloc: Global, store: &mut Store<MemDisk>) -> bool
    requires { store.old.waiting ≡ None }
{
    if make(alloc, store, "/Docs") != Some(true) || store.waits() {
        return false;
    }
    send(alloc, store, "/b", b"world") == Some(2)
}

/// The disk of a store with a folder between two uploads.
fn with_two_uploads(alloc: Global) -> Result<MemDisk, Fail> {
    let mut store = with_hello(alloc)?;
    if !go_on(alloc, &mut store) {
        return Err("not acknowledged".into());
    }
    Ok(store.into_disk())
}

/// Lengths of the block file of two uploads of 5 bytes, and the place of the record whose data is cut, if one's is.
static CUTS: [(usize, Option<u64>); 3] = [(4, Some(124)), (9, Some(265)), (10, None)];

/// The fault of a damaged place, if there is one.
fn damaged(place: Option<u64>) -> Option<StoreFault> {
    match place {
        None => None,
        Some(place) => Some(StoreFault::Damaged { place }),
    }
}

/// The first length that is answered otherwise, if there is one.
fn first_uncut(alloc: Global, disk: &MemDisk) -> Result<Option<usize>, Fail> {
    for (len, place) in &CUTS {
        if cut(alloc, disk, *len)? != damaged(*place) {
            return Ok(Some(*len));
        }
    }
    Ok(None)
}

#[test]
fn a_record_whose_data_is_cut_is_damaged(rt: HostRuntime) -> Result<(), Fail> {
    let disk = with_two_uploads(rt.alloc())?;
    let uncut = first_uncut(rt.alloc(), &disk)?;
    assert!(rt; uncut == None, "cut to {uncut:?}");
    Ok(())
}

/// The disk of a new store in which `/Docs` was made.
fn with_docs(alloc: Global) -> Result<MemDisk, Fail> {
    let mut store = opened(alloc, MemDisk::new(alloc)?)?;
    if make(alloc, &mut store, "/Docs") != Some(true) || store.waits() {
        return Err("not made".into());
    }
    Ok(store.into_disk())
}

/// The bytes of the head of a store.
const HEAD: &[u8] = b"\xa5filehost store 1\x01";

/// Whether slot A has 169 bytes and ends with the record of the folder.
fn has_record(slot: &[u8]) -> bool {
    slot.len() == 169
        && slot.ends_with(
            b"\xa5\0\0\0\0\0\0\0\x23\x01\0\0\0\0\0\0\0\x01\0\0\0\0\x65\x53\xf1\0\0\0\0\0\0\0\0\x01\0\0\0\x05/Docs\0\0",
        )
}

#[test]
fn a_store_is_these_files(rt: HostRuntime) -> Result<(), Fail> {
    let disk = with_docs(rt.alloc())?;
    assert!(rt; disk.bytes(FileNo::Head) == HEAD && has_record(disk.bytes(FileNo::SlotA)));
    assert!(rt; disk.bytes(FileNo::SlotB).is_empty() && disk.bytes(FileNo::Blocks).is_empty());
    Ok(())
}

/// Whether `/Docs` is made in the store of a folder, none for a fault.
fn makes_docs(rt: HostRuntime, folder: &str) -> Result<Option<bool>, Fail> {
    let mut store = opened(rt.alloc(), FileDisk::open(&rt, folder))?;
    Ok(make(rt.alloc(), &mut store, "/Docs"))
}

#[test]
fn a_store_in_a_folder_is_opened_again(rt: HostRuntime) -> Result<(), Fail> {
    fs::create_dir(&rt, "stores")?;
    let first = makes_docs(rt, "stores")?;
    let again = makes_docs(rt, "stores")?;
    assert!(rt; first == Some(true) && again == Some(false));
    Ok(())
}

fn counters(id: u64, user: u64, moment: u64) -> Row {
    Row::Counters {
        rev: 1,
        id,
        session: 1,
        user,
        namespace: 2,
        moment,
    }
}

fn user(number: u64, home: u64) -> Row {
    Row::User {
        number,
        home,
        token: None,
    }
}

fn space(alloc: Global, length: u64) -> Row {
    Row::Namespace {
        number: 1,
        shared: false,
        floor: 0,
        length,
        members: Members::empty(alloc),
    }
}

fn row_body(alloc: Global, row: Row) -> Result<Vec<u8>, Fail> {
    if !row_has_spelling(&row) {
        return Ok(Vec::new(alloc));
    }
    let body = encode_row(alloc, &row)?;
    Ok(body)
}

fn cmd_body(alloc: Global) -> Result<Vec<u8>, Fail> {
    let cmd = folder(alloc, "/a")?;
    if !has_spelling(&cmd) {
        return Ok(Vec::new(alloc));
    }
    let body = encode(alloc, &cmd)?;
    Ok(body)
}

/// The body of a record in few words.
#[derive(Clone, Copy)]
enum Sketch {
    /// Counters whose next user has this number, and the last moment.
    Counters(u64, u64),

    /// Counters whose ids are spent.
    Spent,

    /// User 1 with its home.
    User(u64),

    /// Namespace 1 with its length.
    Space(u64),

    /// A command that makes a folder.
    Command,

    /// No spelling.
    Junk,
}

fn body_of(alloc: Global, sketch: Sketch) -> Result<Vec<u8>, Fail> {
    match sketch {
        Sketch::Counters(next, moment) => row_body(alloc, counters(1, next, moment)),
        Sketch::Spent => row_body(alloc, counters(SPENT_AT, 2, 0)),
        Sketch::User(home) => row_body(alloc, user(1, home)),
        Sketch::Space(length) => row_body(alloc, space(alloc, length)),
        Sketch::Command => cmd_body(alloc),
        Sketch::Junk => Ok(Vec::from_slice(alloc, b"x")?),
    }
}

fn record_of(alloc: Global, sketch: Sketch) -> Result<Record, Fail> {
    let body = body_of(alloc, sketch)?;
    Ok(frame(alloc, &body)?)
}

fn records_of(alloc: Global, sketches: &[Sketch]) -> Result<Vec<Record>, Fail> {
    let mut records = Vec::new(alloc);
    for sketch in sketches {
        records.push(record_of(alloc, *sketch)?)?;
    }
    Ok(records)
}

/// A disk on which slot A alone is laid.
fn laid(alloc: Global, records: &[Record]) -> Result<MemDisk, Fail> {
    let mut disk = MemDisk::new(alloc)?;
    lay(alloc, &mut disk, FileNo::SlotA, records)?;
    Ok(disk)
}

/// The disk of a store with these records.
fn disk_of(alloc: Global, sketches: &[Sketch]) -> Result<MemDisk, Fail> {
    let records = records_of(alloc, sketches)?;
    let disk = laid(alloc, &records)?;
    Ok(MemDisk::with(alloc, HEAD, disk.bytes(FileNo::SlotA), b"", b"")?)
}

/// Whether both have the same head and the same slot A.
fn same_files(left: &MemDisk, right: &MemDisk) -> bool {
    left.bytes(FileNo::Head) == right.bytes(FileNo::Head)
        && left.bytes(FileNo::SlotA) == right.bytes(FileNo::SlotA)
}

/// Why the store of a head and a slot A isn't opened, and whether these stayed.
fn refusal(alloc: Global, disk: &MemDisk) -> Result<(Option<StoreFault>, bool), Fail> {
    let head = disk.bytes(FileNo::Head);
    let copy = MemDisk::with(alloc, head, disk.bytes(FileNo::SlotA), b"", b"")?;
    match Store::open(alloc, copy) {
        Ok(_) => Ok((None, true)),
        Err((left, fault)) => Ok((Some(fault), same_files(&left, disk))),
    }
}

/// Why the store of these records isn't opened, and whether its files stayed.
fn refusal_of(alloc: Global, sketches: &[Sketch]) -> Result<(Option<StoreFault>, bool), Fail> {
    let disk = disk_of(alloc, sketches)?;
    refusal(alloc, &disk)
}

const FIRST: Sketch = Sketch::Counters(2, 0);

const SECOND: Sketch = Sketch::User(1);

const THIRD: Sketch = Sketch::Space(0);

/// The records of a slot, and the place of the one that is damaged, if one is. The rows have 58, 27 and 39 bytes.
static SLOTS: [(&[Sketch], Option<u64>); 12] = [
    (&[FIRST, SECOND, THIRD], None),
    (&[FIRST, SECOND, THIRD, Sketch::Command], None),
    (&[SECOND, FIRST, THIRD], Some(27)),
    (&[SECOND, THIRD], Some(66)),
    (&[FIRST, SECOND], Some(58)),
    (&[FIRST, Sketch::User(7), THIRD], Some(58)),
    (&[Sketch::Counters(1, 0), SECOND, THIRD], Some(58)),
    (&[FIRST, SECOND, Sketch::Space(1)], Some(85)),
    (&[FIRST, SECOND, THIRD, Sketch::Command, SECOND], Some(165)),
    (&[SECOND, FIRST, Sketch::Junk], Some(85)),
    (&[Sketch::Counters(2, LAST_SECOND), SECOND, THIRD], None),
    (
        &[Sketch::Counters(2, LAST_SECOND + 1), SECOND, THIRD],
        Some(0),
    ),
];

#[test]
fn records_that_break_a_rule_have_their_places(rt: HostRuntime) -> Result<(), Fail> {
    for (sketches, place) in &SLOTS {
        let (found, stayed) = refusal_of(rt.alloc(), sketches)?;
        assert!(rt; stayed && found == damaged(*place));
    }
    Ok(())
}

/// Heads, and why they are no store's or the store is damaged, if that is so.
static HEADS: [(&[u8], Option<StoreFault>); 8] = [
    (b"", None),
    (b"\xa5filehost", None),
    (b"\0filehost store 2\x01", None),
    (
        b"\xa5filehost store 2\x01",
        Some(StoreFault::NotAStore { place: 16 }),
    ),
    (
        b"\xa5Filehost store 1\x01",
        Some(StoreFault::NotAStore { place: 1 }),
    ),
    (
        b"\xa5filehost store 1\x01x",
        Some(StoreFault::NotAStore { place: 18 }),
    ),
    (HEAD, Some(StoreFault::Damaged { place: 0 })),
    (
        b"\xa5filehost store 1\x02",
        Some(StoreFault::Damaged { place: 0 }),
    ),
];

/// Why the store of a head alone isn't opened, and whether the head stayed.
fn refusal_at(alloc: Global, head: &[u8]) -> Result<(Option<StoreFault>, bool), Fail> {
    let disk = MemDisk::with(alloc, head, b"", b"", b"")?;
    refusal(alloc, &disk)
}

#[test]
fn heads_have_their_answers(rt: HostRuntime) -> Result<(), Fail> {
    for (head, answer) in &HEADS {
        let (found, stayed) = refusal_at(rt.alloc(), head)?;
        assert!(rt; stayed && found == *answer, "of {} bytes", head.len());
    }
    Ok(())
}

#[test]
fn a_spent_counter_refuses_and_writes_nothing(rt: HostRuntime) -> Result<(), Fail> {
    let disk = disk_of(rt.alloc(), &[Sketch::Spent, SECOND, THIRD])?;
    let mut store = opened(rt.alloc(), disk)?;
    let made = make(rt.alloc(), &mut store, "/Docs");
    let left = store.into_disk();
    assert!(rt; made == Some(false) && left.bytes(FileNo::SlotA).len() == 125);
    Ok(())
}
