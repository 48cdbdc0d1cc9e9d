//! The store.
ghost use Rattle.std.specs.Prelude.{◌≡◌, ◌≢◌, ◌⊎◌, ◌≤◌, ℕ, [], true, false, is_some, length, List, Option, None, Some, IsTrue, IfOk, IfErr, OnOk, OnErr, IsErrOf};
ghost use Rattle.std.specs.Option.{option_to_list};
ghost use Rattle.byte_formats.specs.Spelling.{Spells};
ghost use Rattle.cmd_codec.specs.Commands.{HasSpelling, command};
ghost use Rattle.fh_model.specs.Content.{IsDigestOf};
ghost use Rattle.fh_model.specs.History.{state_of, next_of, reply_of};
ghost use Rattle.fh_model.specs.Pieces.{AreHeld, SamePieces, blocks_with, block_in, data_of, end_in, named_in, piece_of};
ghost use Rattle.fh_model.specs.Step.{step};
ghost use Rattle.fh_world.specs.Causes.{CountsOnce, Rose};
ghost use Rattle.fh_world.specs.declared.FileNo.TheVariants.{Blocks};
ghost use Rattle.fh_world.specs.Disk.{LeavesOnly, Rests};
ghost use Rattle.store_core.specs.Commit.{BeginsWith, StandsAround, IsAsBefore, IsFinished, IsFaulted, IsFetched, placed_in};
ghost use Rattle.store_core.specs.Files.{contents, StandsOrNew, KeepsMeaning};
ghost use Rattle.store_core.specs.Open.{disk_left, IsSaid, LeavesMeaning};
ghost use Rattle.store_core.specs.Store.{IsKept, StandsFor, finished};

use crate::opening::open_on;
use crate::putting::{placed, put};
use crate::{CommitFault, FetchFault, StoreFault};
use block_file::get;
use cmd_codec::encode;
use fh_model::{BLOCK_BYTES, Bytes32, Cmd, NoMemory, Piece, Reply};
use fh_world::Disk;
use gate_journal::{AppendFault, Journal, Record, frame};
use name_core::Image;
use std::alloc::{AllocError, Global};
use std::marker::Model;
use std::mem::replace;

/// A store over the disk that it owns. Contracts see the disk, the image, and the command that waits: the one that a
/// fault stopped while it was let in, so that it may or may not be on the disk.
#[derive(Drop)]
pub struct Store<D: Disk> {
    alloc: Global,
    disk: D,
    journal: Journal,
    image: Image,
    waiting: Option<Cmd>,

    /// The room of the next block that is fetched: that of one that was given back, or none.
    spare: Vec<u8>,
}

impl<D: Disk> Model for Store<D> {
    ghost use Rattle.store_core.specs.Store.{Opened, IsSound};

    ghost Value = { Opened D };

    ghost view = { λ s. record { disk = s.disk; image = s.image; waiting = s.waiting } };

    ghost invariant = { λ s. IsSound D.Disk s.disk s.journal s.image s.waiting };
}

impl<D: Disk> Store<D> {
    /// Opens the store that the disk holds, or makes a new one where there is none yet. The four files are synced
    /// first, so that a crash leaves what is read. Where the store isn't opened the disk comes back, and stands for
    /// what it stood for, but that a new store may have been made.
    pub fn open(alloc: Global, disk: D) -> Result<Store<D>, (D, StoreFault)>
        ensures image { IfOk result (λ store. (store.image.history ≡ []) × (store.waiting ≡ None)) }
        ensures found { IfOk result (λ store. IsTrue D.tells → StandsOrNew (D.seen disk) store.image.start) }
        ensures kept { IfOk result (λ store. IsTrue D.tells → IsKept D.Disk store) }
        ensures refused { IfErr result (λ refused. IsTrue D.tells → IsSaid (contents (D.seen disk)) refused.1) }
        ensures meaning { IsTrue D.tells → KeepsMeaning (D.seen disk) (D.seen (disk_left result)) }
        ensures any_moment { IsTrue D.tells → LeavesOnly D.moment D.left_since disk (disk_left result) (LeavesMeaning (D.may_leave disk) (D.seen disk)) }
        ensures place { D.place (disk_left result) ≡ D.place disk }
        ensures later { D.faults disk ≤ D.faults (disk_left result) }
        ensures cause { IfErr result (λ refused. refused.1 ≡ StoreFault.Disk → Rose (D.faults disk) (D.faults refused.0)) }
        ensures once { CountsOnce (D.faults disk) (D.faults (disk_left result)) result }
        // A fault of the disk is told as nothing else.
        ensures quiet { IfErr result (λ refused. refused.1 ≢ StoreFault.Disk → D.faults refused.0 ≡ D.faults disk) }
    {
        let mut disk = disk;
        match open_on(alloc, &mut disk) {
            Ok((journal, image)) => Ok(Store {
                alloc,
                disk,
                journal,
                image,
                waiting: None,
                spare: Vec::new(alloc),
            }),
            Err(fault) => Err((disk, fault)),
        }
    }

    /// Lets a command in with its data, at most `BLOCK_BYTES` bytes, where none waits. Its `at` is at most
    /// `LAST_SECOND`, and its texts are shorter than 2^32 bytes. The piece of the data is set here: what the act names
    /// isn't read. `digest` is that of the data where it is known, so that no byte is hashed twice. A refusal that
    /// changes nothing writes nothing. At `Ok` of any other each crash leaves the command, and the block file has its
    /// data behind the pieces of the state before. At `Disk` it is not let in, or waits.
    pub fn commit(
        &mut self,
        cmd: Cmd,
        bytes: &[u8],
        digest: Option<Bytes32>,
    ) -> Result<Reply, CommitFault>
        requires idle { self.old.waiting ≡ None }
        requires spelled { HasSpelling cmd }
        requires few { length bytes.now ≤ BLOCK_BYTES }
        requires digest { IsDigestOf bytes.now digest }
        ensures reply { IfOk result (λ reply. reply ≡ reply_of (finished self.old) (placed_in self.old bytes.now cmd)) }
        ensures image { OnOk result ((self.new.image ≡ next_of (finished self.old) (placed_in self.old bytes.now cmd)) × (self.new.waiting ≡ None)) }
        ensures fault { OnErr result (IsFaulted self.old (placed_in self.old bytes.now cmd) self.new) }
        ensures memory { IsErrOf result CommitFault.NoMemory → self.new ≡ self.old }
        ensures refused { (step (state_of self.old.image) (placed_in self.old bytes.now cmd)).enters ≡ false → self.new ≡ self.old }
        // The data of a command that entered, or that waits, stands behind the pieces of the state before.
        ensures stored { OnOk result ((step (state_of self.old.image) (placed_in self.old bytes.now cmd)).enters ≡ true → IsTrue D.tells → BeginsWith (blocks_with (state_of self.old.image) (data_of cmd.act bytes.now) (D.seen self.old.disk Blocks)) (D.seen self.new.disk Blocks)) }
        ensures left { OnErr result (is_some self.new.waiting ≡ true → IsTrue D.tells → BeginsWith (blocks_with (state_of self.old.image) (data_of cmd.act bytes.now) (D.seen self.old.disk Blocks)) (D.seen self.new.disk Blocks)) }
        // And whatever happens, these pieces keep their bytes.
        ensures below { IsTrue D.tells → SamePieces (state_of self.old.image) (D.seen self.new.disk Blocks) (D.seen self.old.disk Blocks) }
        // Where each piece had bytes of its digest, each has.
        ensures held { IsTrue D.tells → AreHeld (state_of self.old.image) (D.seen self.old.disk Blocks) → AreHeld (state_of self.new.image) (D.seen self.new.disk Blocks) }
        ensures kept { IsTrue D.tells → IsKept D.Disk self.new }
        ensures any_moment { IsTrue D.tells → LeavesOnly D.moment D.left_since self.old.disk self.new.disk (StandsAround self.old (placed_in self.old bytes.now cmd) (D.seen self.new.disk Blocks)) }
        // Where it was not let in and doesn't wait, no crash at any moment leaves it.
        ensures unwritten { OnErr result (self.new.waiting ≡ None → IsTrue D.tells → LeavesOnly D.moment D.left_since self.old.disk self.new.disk (λ files. StandsFor files self.old.image self.old.waiting (D.seen self.new.disk Blocks))) }
        ensures place { D.place self.new.disk ≡ D.place self.old.disk }
        ensures later { D.faults self.old.disk ≤ D.faults self.new.disk }
        ensures cause { IsErrOf result CommitFault.Disk → Rose (D.faults self.old.disk) (D.faults self.new.disk) }
        ensures once { CountsOnce (D.faults self.old.disk) (D.faults self.new.disk) result }
    {
        let place = self.next_place();
        let content = cmd.act.data_in(bytes);
        self.let_in(placed(cmd, place, bytes, digest), content)
    }

    /// Where the next data goes, where no command waits.
    fn next_place(&self) -> u64
        requires { self.now.waiting ≡ None }
        ensures place { result ≡ end_in (state_of self.now.image) }
        ensures within { IsTrue D.tells → end_in (state_of self.now.image) ≤ length (D.seen self.now.disk Blocks) }
    {
        self.image.end()
    }

    /// Lets in a command that names its data, which is given with its piece.
    fn let_in(&mut self, placed: (Cmd, Option<Piece>), content: &[u8]) -> Result<Reply, CommitFault>
        requires idle { self.old.waiting ≡ None }
        requires spelled { HasSpelling placed.0 }
        requires piece { placed.1 ≡ piece_of (end_in (state_of self.old.image)) content.now }
        requires named { named_in placed.0.act ≡ option_to_list placed.1 }
        requires few { length content.now ≤ BLOCK_BYTES }
        ensures reply { IfOk result (λ reply. reply ≡ reply_of (finished self.old) placed.0) }
        ensures image { OnOk result ((self.new.image ≡ next_of (finished self.old) placed.0) × (self.new.waiting ≡ None)) }
        ensures fault { OnErr result (IsFaulted self.old placed.0 self.new) }
        ensures memory { IsErrOf result CommitFault.NoMemory → self.new ≡ self.old }
        ensures refused { (step (state_of self.old.image) placed.0).enters ≡ false → self.new ≡ self.old }
        ensures stored { OnOk result ((step (state_of self.old.image) placed.0).enters ≡ true → IsTrue D.tells → BeginsWith (blocks_with (state_of self.old.image) content.now (D.seen self.old.disk Blocks)) (D.seen self.new.disk Blocks)) }
        ensures left { OnErr result (is_some self.new.waiting ≡ true → IsTrue D.tells → BeginsWith (blocks_with (state_of self.old.image) content.now (D.seen self.old.disk Blocks)) (D.seen self.new.disk Blocks)) }
        ensures below { IsTrue D.tells → SamePieces (state_of self.old.image) (D.seen self.new.disk Blocks) (D.seen self.old.disk Blocks) }
        ensures kept { IsTrue D.tells → IsKept D.Disk self.new }
        ensures any_moment { IsTrue D.tells → LeavesOnly D.moment D.left_since self.old.disk self.new.disk (StandsAround self.old placed.0 (D.seen self.new.disk Blocks)) }
        ensures unwritten { OnErr result (self.new.waiting ≡ None → IsTrue D.tells → LeavesOnly D.moment D.left_since self.old.disk self.new.disk (λ files. StandsFor files self.old.image self.old.waiting (D.seen self.new.disk Blocks))) }
        ensures place { D.place self.new.disk ≡ D.place self.old.disk }
        ensures later { D.faults self.old.disk ≤ D.faults self.new.disk }
        ensures cause { IsErrOf result CommitFault.Disk → Rose (D.faults self.old.disk) (D.faults self.new.disk) }
        ensures once { CountsOnce (D.faults self.old.disk) (D.faults self.new.disk) result }
    {
        let (cmd, piece) = placed;
        let (next, reply) = self.image.apply(&cmd)?;
        if next.kept() == self.image.kept() {
            return Ok(reply);
        }
        let framed = framed_command(self.alloc, &cmd)?;
        self.append(cmd, next, &framed, &piece, content)?;
        Ok(reply)
    }

    /// Puts the data of a command that enters, appends its record, and takes the image that it makes.
    fn append(
        &mut self,
        cmd: Cmd,
        next: Image,
        framed: &Record,
        piece: &Option<Piece>,
        content: &[u8],
    ) -> Result<(), CommitFault>
        requires idle { self.old.waiting ≡ None }
        requires enters { (step (state_of self.old.image) cmd).enters ≡ true }
        requires next { next ≡ next_of self.old.image cmd }
        requires spelled { Spells command framed.now cmd }
        requires piece { piece.now ≡ piece_of (end_in (state_of self.old.image)) content.now }
        requires named { named_in cmd.act ≡ option_to_list piece.now }
        requires few { length content.now ≤ BLOCK_BYTES }
        ensures entered { OnOk result ((self.new.image ≡ next) × (self.new.waiting ≡ None)) }
        ensures fault { OnErr result (IsFaulted self.old cmd self.new) }
        ensures stored { OnOk result (IsTrue D.tells → BeginsWith (blocks_with (state_of self.old.image) content.now (D.seen self.old.disk Blocks)) (D.seen self.new.disk Blocks)) }
        ensures left { OnErr result (is_some self.new.waiting ≡ true → IsTrue D.tells → BeginsWith (blocks_with (state_of self.old.image) content.now (D.seen self.old.disk Blocks)) (D.seen self.new.disk Blocks)) }
        ensures below { IsTrue D.tells → SamePieces (state_of self.old.image) (D.seen self.new.disk Blocks) (D.seen self.old.disk Blocks) }
        ensures kept { IsTrue D.tells → IsKept D.Disk self.new }
        ensures any_moment { IsTrue D.tells → LeavesOnly D.moment D.left_since self.old.disk self.new.disk (StandsAround self.old cmd (D.seen self.new.disk Blocks)) }
        ensures unwritten { OnErr result (self.new.waiting ≡ None → IsTrue D.tells → LeavesOnly D.moment D.left_since self.old.disk self.new.disk (λ files. StandsFor files self.old.image self.old.waiting (D.seen self.new.disk Blocks))) }
        ensures place { D.place self.new.disk ≡ D.place self.old.disk }
        ensures later { D.faults self.old.disk ≤ D.faults self.new.disk }
        ensures cause { OnErr result (Rose (D.faults self.old.disk) (D.faults self.new.disk)) }
        ensures once { CountsOnce (D.faults self.old.disk) (D.faults self.new.disk) result }
        ensures disk { IfErr result (λ fault. fault ≡ CommitFault.Disk) }
    {
        put(&mut self.disk, self.image.end(), piece, content)?;
        match self.journal.append(&mut self.disk, framed) {
            Ok(()) => {
                self.image = next;
                Ok(())
            }
            Err(AppendFault::Disk) => {
                if !self.journal.pending() {
                    return Err(CommitFault::Disk);
                }
                self.waiting = Some(cmd);
                Err(CommitFault::Disk)
            }
        }
    }

    /// The bytes of a block of the version with this rev, deleted or not; its blocks are counted from 0. `NoRev` comes
    /// exactly where there is no such version, and `NoBlock` where it has no such block. The store stays as it is.
    pub fn fetch(&mut self, rev: u64, block: u32) -> Result<Vec<u8>, FetchFault>
        ensures bytes { IfOk result (λ bytes. IsFetched D.tells (block_in (state_of self.old.image) rev block) (D.seen self.old.disk Blocks) bytes.items) }
        ensures no_rev { IsErrOf result FetchFault.NoRev → block_in (state_of self.old.image) rev block ≡ None }
        ensures no_block { IsErrOf result FetchFault.NoBlock → block_in (state_of self.old.image) rev block ≡ Some None }
        ensures image { (self.new.image ≡ self.old.image) × (self.new.waiting ≡ self.old.waiting) }
        ensures rests { Rests (D.seen self.old.disk) (D.seen self.new.disk) (D.may_leave self.old.disk) (D.may_leave self.new.disk) }
        ensures kept { IsTrue D.tells → IsKept D.Disk self.new }
        ensures any_moment { IsTrue D.tells → LeavesOnly D.moment D.left_since self.old.disk self.new.disk (λ files. StandsFor files self.old.image self.old.waiting (D.seen self.new.disk Blocks)) }
        ensures place { D.place self.new.disk ≡ D.place self.old.disk }
        ensures later { D.faults self.old.disk ≤ D.faults self.new.disk }
        ensures cause { IsErrOf result FetchFault.Disk → Rose (D.faults self.old.disk) (D.faults self.new.disk) }
        ensures once { CountsOnce (D.faults self.old.disk) (D.faults self.new.disk) result }
        ensures quiet { ¬ IsErrOf result FetchFault.Disk → D.faults self.new.disk ≡ D.faults self.old.disk }
    {
        let piece = piece_at(&self.image, rev, block)?;
        let spare = replace(&mut self.spare, Vec::new(self.alloc));
        let mut bytes = room_of(self.alloc, piece.len as usize, spare)?;
        get(&mut self.disk, &piece, &mut bytes)?;
        Ok(bytes)
    }

    /// Takes the bytes of a block back, so that the next one is fetched into their room. The store stays as it is.
    pub fn give_back(&mut self, bytes: Vec<u8>)
        ensures { self.new ≡ self.old }
    {
        self.spare = bytes;
    }

    /// Whether a command waits.
    pub fn waits(&self) -> bool
        ensures { result ≡ is_some self.now.waiting }
    {
        self.waiting.is_some()
    }

    /// The image. Whatever a crash leaves of the disk now stands for it, or for it with the command that waits.
    pub fn image(&self) -> &Image
        ensures image { result.now ≡ self.now.image }
        ensures kept { IsTrue D.tells → IsKept D.Disk self.now }
    {
        &self.image
    }

    /// Gives the disk back, as the store's calls left it.
    pub fn into_disk(self) -> D
        ensures disk { result ≡ self.disk }
        ensures kept { IsTrue D.tells → IsKept D.Disk self }
    {
        let Store { disk, .. } = self;
        disk
    }
}

/// The piece that holds a block of a version.
fn piece_at(image: &Image, rev: u64, block: u32) -> Result<Piece, FetchFault>
    ensures piece { IfOk result (λ piece. block_in (state_of image.now) rev block ≡ Some (Some piece)) }
    ensures no_rev { IsErrOf result FetchFault.NoRev → block_in (state_of image.now) rev block ≡ None }
    ensures no_block { IsErrOf result FetchFault.NoBlock → block_in (state_of image.now) rev block ≡ Some None }
    ensures only { OnErr result ((IsErrOf result FetchFault.NoRev) ⊎ (IsErrOf result FetchFault.NoBlock)) }
{
    let Some(meta) = image.meta(rev) else {
        return Err(FetchFault::NoRev);
    };
    match meta.pieces.as_slice().get(block as usize) {
        Some(piece) => Ok(*piece),
        None => Err(FetchFault::NoBlock),
    }
}

/// A buffer of so many bytes. That of another one is used again where it is as large: to fill a new one with zeros takes
/// a fifth to a third of the time that it takes to read a block into it.
fn room_of(alloc: Global, len: usize, spare: Vec<u8>) -> Result<Vec<u8>, AllocError>
    ensures { IfOk result (λ bytes. length bytes.items ≡ len) }
{
    if spare.capacity() < len {
        drop(spare);
        return vec![in alloc; 0u8; len];
    }
    let mut bytes = spare;
    bytes.resize(len, 0)?;
    Ok(bytes)
}

/// The record of a command.
fn framed_command(alloc: Global, cmd: &Cmd) -> Result<Record, NoMemory>
    requires { HasSpelling cmd.now }
    ensures { IfOk result (λ framed. Spells command framed cmd.now) }
{
    let body = encode(alloc, cmd)?;
    frame(alloc, &body)
}
