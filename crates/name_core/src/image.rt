ghost use Rattle.std.specs.Prelude.{◌≡◌, ◌≤◌, ◌^◌, ◌∷◌, ◌++◌, ℕ, [], IfOk, IsTrue, Ok, Err, Some, IsErrOf, option_copied, length};
ghost use Rattle.fh_model.specs.declared.changes.Node.TheVariants.{File};
ghost use Rattle.fh_model.specs.declared.files.FileMeta.{FileMeta};
ghost use Rattle.fh_model.specs.Files.{has_its_size};
ghost use Rattle.fh_model.specs.KeptFiles.{IsKept};
ghost use Rattle.fh_model.specs.Pieces.{end_in};
ghost use Rattle.fh_model.specs.Rows.{rows_of, state_of_rows};
ghost use Rattle.fh_model.specs.State.{opening, token_user, home_of, meta_of};
ghost use Rattle.fh_model.specs.Step.{step};
ghost use Rattle.fh_model.specs.Resolve.{resolve, found, malformed, not_found};
ghost use Rattle.fh_model.specs.History.{Kept, state_of, next_of, reply_of};

use crate::chunks::Chunks;
use crate::machine::{Done, Machine};
use crate::shared::Shared;
use crate::{LookFault, RowsFault};
use fh_model::{Cmd, Copies, FileMeta, Found, NoMemory, Reply, Row, Text};
use std::alloc::Global;
use std::marker::Model;

/// A state of the machine that never changes, with the commands that were applied since it was made by `empty`,
/// `from_rows` or `forget`. Contracts see the state that it started from and these commands.
#[derive(Drop)]
pub struct Image {
    start: Shared<Machine>,
    machine: Shared<Machine>,
    history: Chunks<Cmd>,
}

impl Model for Image {
    ghost use Rattle.fh_model.specs.History.{Kept};
    ghost use Rattle.name_core.specs.Images.{IsImage};

    ghost Value = { Kept };

    ghost view = { λ image. record { start = image.start; history = image.history } };

    ghost invariant = { λ image. IsImage image.start image.history image.machine };
}

impl Image {
    /// The image of a new store.
    #[tactic(auto, using(fh_model::proofs::KeptFileLaws::opening_keeps_files))]
    pub fn empty(alloc: Global) -> Result<Image, NoMemory>
        ensures start { IfOk result (λ image. image.start ≡ opening) }
        ensures history { IfOk result (λ image. image.history ≡ []) }
    {
        let machine = Shared::new(alloc, Machine::opening(alloc)?)?;
        let start = machine.copy()?;
        let history = Chunks::empty(alloc)?;
        Ok(Image {
            start,
            machine,
            history,
        })
    }

    /// The state that the rows of a checkpoint stand for, keeping no command. `Bad` comes where a rule is broken.
    pub fn from_rows(alloc: Global, rows: &[Row]) -> Result<Image, RowsFault>
        ensures start { IfOk result (λ image. state_of_rows rows.now ≡ Ok image.start) }
        ensures history { IfOk result (λ image. image.history ≡ []) }
        ensures bad { (row : ℕ) → IsErrOf result (RowsFault.Bad row) → state_of_rows rows.now ≡ Err row }
    {
        let machine = Shared::new(alloc, Machine::from_rows(alloc, rows)?)?;
        let start = machine.copy()?;
        let history = Chunks::empty(alloc)?;
        Ok(Image {
            start,
            machine,
            history,
        })
    }

    /// The rows of the state: its counters, its users and its namespaces, without their changes.
    pub fn rows(&self) -> Result<Vec<Row>, NoMemory>
        ensures { IfOk result (λ rows. rows.items ≡ rows_of (state_of self.now)) }
    {
        self.machine.rows()
    }

    /// The same state, keeping no command.
    pub fn forget(&self) -> Result<Image, NoMemory>
        ensures start { IfOk result (λ image. image.start ≡ state_of self.now) }
        ensures history { IfOk result (λ image. image.history ≡ []) }
    {
        let alloc = self.machine.alloc();
        let start = self.machine.copy()?;
        let machine = self.machine.copy()?;
        let history = Chunks::empty(alloc)?;
        Ok(Image {
            start,
            machine,
            history,
        })
    }

    /// How many commands were applied.
    pub fn kept(&self) -> usize
        ensures { result ≡ length self.now.history }
    {
        self.history.len()
    }

    /// The last moment of the state.
    pub fn moment(&self) -> u64
        ensures { result ≡ (state_of self.now).moment }
    {
        self.machine.moment()
    }

    /// An equal image. Takes no memory, but may be refused where the image has as many copies as can be counted.
    pub fn copy(&self) -> Result<Image, NoMemory>
        ensures { IfOk result (λ copy. copy ≡ self.now) }
    {
        Ok(Image {
            start: self.start.copy()?,
            machine: self.machine.copy()?,
            history: self.history.copy()?,
        })
    }

    /// The image after a command, and the reply. Where the command is refused and does not enter, it is the same.
    pub fn apply(&self, cmd: &Cmd) -> Result<(Image, Reply), NoMemory>
        ensures image { IfOk result (λ done. done.0 ≡ next_of self.now cmd.now) }
        ensures reply { IfOk result (λ done. done.1 ≡ reply_of self.now cmd.now) }
    {
        let Done { next, reply } = self.machine.step(cmd)?;
        let image = match next {
            Some(machine) => self.behind(cmd, machine)?,
            None => self.copy()?,
        };
        Ok((image, reply))
    }

    /// The image with one command more, which leaves this machine.
    #[tactic(auto, using(fh_model::proofs::Runs::state_after_more))]
    fn behind(&self, cmd: &Cmd, machine: Machine) -> Result<Image, NoMemory>
        requires { machine ≡ (step (state_of self.now) cmd.now).state }
        ensures start { IfOk result (λ image. image.start ≡ self.now.start) }
        ensures history { IfOk result (λ image. image.history ≡ self.now.history ++ cmd.now ∷ []) }
    {
        let alloc = machine.alloc();
        let machine = Shared::new(alloc, machine)?;
        let start = self.start.copy()?;
        let history = self.history.and(Shared::new(alloc, cmd.copy()?)?)?;
        Ok(Image {
            start,
            machine,
            history,
        })
    }

    /// The reply that a command would be given.
    pub fn settle(&self, cmd: &Cmd) -> Result<Reply, NoMemory>
        ensures { IfOk result (λ reply. reply ≡ reply_of self.now cmd.now) }
    {
        let done = self.machine.step(cmd)?;
        Ok(done.reply)
    }

    /// What the path of a user leads to, as the user sees it. `Malformed` comes exactly where the text is, and
    /// `NotFound` where it leads to nothing: for a user that there isn't, each path does. A file that is found is the
    /// version that is kept under its rev, and its size is the sum of its pieces' lengths.
    pub fn resolve(&self, user: u64, path: &Text) -> Result<Found, LookFault>
        ensures found { IfOk result (λ there. resolve (state_of self.now) user path.now ≡ found there) }
        ensures file { IfOk result (λ there. (meta : FileMeta) → there.node ≡ Some (File meta) → IsKept (state_of self.now) meta × IsTrue (has_its_size meta)) }
        ensures malformed { IsErrOf result LookFault.Malformed → resolve (state_of self.now) user path.now ≡ malformed }
        ensures missing { IsErrOf result LookFault.NotFound → resolve (state_of self.now) user path.now ≡ not_found }
    {
        self.machine.resolve(user, path)
    }

    /// The number of the user whose token these bytes are, which takes no memory.
    pub fn token_user(&self, token: &[u8]) -> Option<u64>
        ensures { result ≡ token_user (state_of self.now) token.now }
    {
        self.machine.token_user(token)
    }

    /// The number of the user's home, none exactly where there is no such user. Takes no memory.
    pub fn home_of(&self, user: u64) -> Option<u64>
        ensures { result ≡ home_of (state_of self.now) user }
    {
        self.machine.home_of(user)
    }

    /// The version of a file with this rev, deleted or not. Takes no memory.
    pub fn meta(&self, rev: u64) -> Option<&FileMeta>
        ensures { option_copied result ≡ meta_of (state_of self.now) rev }
    {
        self.machine.meta(rev)
    }

    /// The greatest end of a piece in the state, 0 where there is none: where the next data goes, in bytes from the
    /// start of the block file. Takes no memory.
    pub fn end(&self) -> u64
        requires { end_in (state_of self.now) ≤ 2 ^ 62 }
        ensures { result ≡ end_in (state_of self.now) }
    {
        self.machine.end()
    }
}
