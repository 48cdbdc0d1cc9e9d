ghost use Rattle.std.specs.Prelude.{◌≡◌, [], List, Option};
ghost use Rattle.fh_world.specs.Causes.{Rose};

use crate::{CommitFault, FetchFault, Port, View};
use fh_model::{Act, Bytes32, Cmd, NoMemory, Reply};
use fh_world::Disk;
use name_core::Image;
use store_core::Store;

/// The seat's number of a port that nobody shares.
const SEAT: u64 = 1;

/// A store that serves one connection at a time, and which it owns.
#[derive(Drop)]
pub struct Direct<D: Disk> {
    store: Store<D>,
}

impl<D: Disk> Direct<D> {
    ghost use Rattle.host_seat.specs.Direct.{store_of};

    pub fn new(store: Store<D>) -> Direct<D>
        ensures { store_of result ≡ store }
    {
        Direct { store }
    }

    /// Gives the store back.
    pub fn into_store(self) -> Store<D>
        ensures { result ≡ store_of self }
    {
        let Direct { store } = self;
        store
    }
}

impl<D: Disk> View for Direct<D> {
    ghost use Rattle.std.specs.Prelude.{true};
    ghost use Rattle.fh_world.specs.declared.FileNo.TheVariants.{Blocks};
    ghost use Rattle.host_seat.specs.Direct.{Ran, told_by, waiting_in};
    ghost use Rattle.host_seat.specs.RunLaws.{ran_nothing, ran_on};

    ghost went = { λ old new. Ran D.Disk old.store new.store };

    ghost seen = { λ direct. direct.store.image };

    ghost waits = { λ direct. waiting_in direct.store.waiting };

    ghost blocks = { λ direct. told_by D.tells (D.seen direct.store.disk Blocks) };

    ghost number = { λ _. 1 };

    ghost faults = { λ direct. D.faults direct.store.disk };

    ghost alone = { true };

    ghost nothing = { λ direct. ran_nothing (record { place = D.place; tells = D.tells; seen = D.seen; may_leave = D.may_leave; moment = D.moment; left_since = D.left_since; faults = D.faults }) D.only_now direct.store };

    ghost on = { λ a b c first second. ran_on (record { place = D.place; tells = D.tells; seen = D.seen; may_leave = D.may_leave; moment = D.moment; left_since = D.left_since; faults = D.faults }) a.store b.store c.store first second };

    #[tactic(auto, using(crate::proofs::Commits::looks_alone, crate::proofs::Commits::stays_alone))]
    fn look(&mut self) -> Result<Image, NoMemory> {
        let image = self.store.image().copy()?;
        Ok(image)
    }
}

impl<D: Disk> Port for Direct<D> {
    /// Where a command waits for the disk nothing more is let in: the answer is want of memory, the one that is free.
    fn commit(
        &mut self,
        at: u64,
        act: Act,
        bytes: &[u8],
        digest: Option<Bytes32>,
    ) -> Result<Reply, CommitFault> {
        if self.store.waits() {
            return Err(CommitFault::NoMemory);
        }
        let cmd = Cmd {
            seat: SEAT,
            at,
            act,
        };
        match self.store.commit(cmd, bytes, digest) {
            Ok(reply) => Ok(reply),
            Err(store_core::CommitFault::Disk) => Err(CommitFault::Disk),
            Err(store_core::CommitFault::NoMemory) => Err(CommitFault::NoMemory),
        }
    }
    /// The block is read from the disk, also where a command waits.
    fn fetch(&mut self, rev: u64, block: u32) -> Result<Vec<u8>, FetchFault> {
        match self.store.fetch(rev, block) {
            Ok(bytes) => Ok(bytes),
            Err(store_core::FetchFault::NoRev) => Err(FetchFault::NoRev),
            Err(store_core::FetchFault::NoBlock) => Err(FetchFault::NoBlock),
            Err(store_core::FetchFault::Disk) => Err(FetchFault::Disk),
            Err(store_core::FetchFault::NoMemory) => Err(FetchFault::NoMemory),
        }
    }

    fn give_back(&mut self, bytes: Vec<u8>) {
        self.store.give_back(bytes);
    }
}
