ghost use Rattle.std.specs.Prelude.{◌≡◌, ◌≤◌, length, Ok};
ghost use Rattle.fh_model.specs.Pieces.{data_of};

use crate::{Copies, NoMemory, Piece, Text};

/// How a commit treats a file that stands at its path.
#[derive(Clone, Copy, Debug, PartialEq, Eq)]
pub enum Mode {
    /// Other contents are not replaced.
    Add,

    /// They are.
    Overwrite,

    /// They are where this is their rev.
    Update(u64),
}

/// Where an upload becomes a file, and how.
#[derive(Debug, Drop)]
pub struct Commit {
    pub path: Text,
    pub mode: Mode,

    /// Asks for a vacant name where there is a conflict.
    pub rename: bool,

    /// Whether equal contents conflict as others do.
    pub strict: bool,

    /// The moment that the client gives the file, in seconds: at most `LAST_SECOND`.
    pub client: Option<u64>,
}

/// What a command asks for.
#[derive(Debug, Drop)]
pub enum Act {
    /// Makes a folder at the path, for the user. `rename` asks for a vacant name where it is taken.
    MakeFolder {
        user: u64,
        path: Text,
        rename: bool,
    },

    /// Makes a file of data, for the user: of the first `drafted` pieces of the seat's draft, and of `last` behind
    /// them.
    Upload {
        user: u64,
        commit: Commit,
        drafted: u32,
        last: Option<Piece>,
    },
}

/// An act with the seat that it comes from and the clock's second at which it came.
#[derive(Debug, Drop)]
pub struct Cmd {
    pub seat: u64,
    pub at: u64,
    pub act: Act,
}

impl Act {
    /// What of the bytes of a request is the act's data: all of an upload's, and none of another's.
    pub fn data_in<'a>(&self, bytes: &'a [u8]) -> &'a [u8]
        ensures data { result.now ≡ data_of self.now bytes.now }
        ensures no_more { length result.now ≤ length bytes.now }
    {
        match self {
            Act::MakeFolder { .. } => &[],
            Act::Upload { .. } => bytes,
        }
    }
}

impl Copies for Mode {
    fn copy(&self) -> Result<Mode, NoMemory>
        ensures { result ≡ Ok self.now }
    {
        Ok(*self)
    }
}

impl Copies for Commit {
    fn copy(&self) -> Result<Commit, NoMemory> {
        let path = self.path.copy()?;
        Ok(Commit { path, ..*self })
    }
}

impl Copies for Act {
    fn copy(&self) -> Result<Act, NoMemory> {
        match self {
            Act::MakeFolder { user, path, rename } => {
                let path = path.copy()?;
                Ok(Act::MakeFolder {
                    user: *user,
                    path,
                    rename: *rename,
                })
            }
            Act::Upload {
                user,
                commit,
                drafted,
                last,
            } => {
                let commit = commit.copy()?;
                Ok(Act::Upload {
                    user: *user,
                    commit,
                    drafted: *drafted,
                    last: *last,
                })
            }
        }
    }
}

impl Copies for Cmd {
    fn copy(&self) -> Result<Cmd, NoMemory> {
        let act = self.act.copy()?;
        Ok(Cmd { act, ..*self })
    }
}
