ghost use Rattle.std.specs.Prelude.{◌≡◌};

use crate::View;
use fh_model::{Act, Bytes32, NoMemory, Reply};

/// Why a command was not let in.
#[derive(Clone, Copy, Debug, PartialEq, Eq)]
pub enum CommitFault {
    /// The disk failed. The command may wait for it.
    Disk,

    /// Memory was wanting.
    NoMemory,
}

impl From<NoMemory> for CommitFault {
    ghost use Rattle.host_seat.specs.declared.port.CommitFault.TheVariants as fault;

    ghost from_gives = { λ _ found. found ≡ fault.NoMemory };

    fn from(_: NoMemory) -> Self {
        CommitFault::NoMemory
    }
}

/// Why a block was not fetched.
#[derive(Clone, Copy, Debug, PartialEq, Eq)]
pub enum FetchFault {
    /// There is no version with this rev.
    NoRev,

    /// The version has no block with this number.
    NoBlock,

    /// The disk failed.
    Disk,

    /// Memory was wanting.
    NoMemory,
}

/// The way from a connection to the machine.
pub trait Port: View {
    ghost use Rattle.std.specs.Prelude.{◌≡◌, ◌∷◌, ◌≤◌, [], length, List, Option, Some, None, IfOk, OnOk, OnErr, IsErrOf, IsTrue};
    ghost use Rattle.cmd_codec.specs.Commands.{HasSpelling};
    ghost use Rattle.fh_model.specs.declared.limits.TheConstants.{BLOCK_BYTES};
    ghost use Rattle.fh_model.specs.Content.{IsDigestOf};
    ghost use Rattle.fh_model.specs.History.{state_of};
    ghost use Rattle.fh_world.specs.Causes.{CountsOnce, Rose};
    ghost use Rattle.host_seat.specs.Port.{Commits, OthersEnter, Leaves, KeepsPieces, PutsData, IsBlock, block_at, placed_at};

    /// Lets the command of an act enter with its data, or refuses it, at a point that begins with all that was seen.
    /// `at` is the clock's second, at most `LAST_SECOND`, the act's texts are shorter than 2^32 bytes, and `bytes` are
    /// its data, at most `BLOCK_BYTES` of them; `digest` is theirs where it is known. At a fault nothing of its own
    /// entered, but at `Disk` its command may be left waiting.
    fn commit(
        &mut self,
        at: u64,
        act: Act,
        bytes: &[u8],
        digest: Option<Bytes32>,
    ) -> Result<Reply, CommitFault>
        requires spelled { HasSpelling (record { seat = Self.number self.old; at = at; act = act }) }
        requires few { length bytes.now ≤ BLOCK_BYTES }
        requires digest { IsDigestOf bytes.now digest }
        ensures point { IfOk result (λ reply. Commits Self.alone (Self.seen self.old) (Self.seen self.new) (record { seat = Self.number self.old; at = at; act = act }) bytes.now reply) }
        ensures settled { OnOk result (Leaves (Self.waits self.old) [] (Self.waits self.new)) }
        ensures fault { OnErr result (OthersEnter Self.alone (Self.seen self.old) (Self.seen self.new)) }
        ensures disk { IsErrOf result CommitFault.Disk → Rose (Self.faults self.old) (Self.faults self.new) × Leaves (Self.waits self.old) (placed_at (Self.seen self.old) bytes.now (record { seat = Self.number self.old; at = at; act = act }) ∷ []) (Self.waits self.new) }
        ensures memory { IsErrOf result CommitFault.NoMemory → Leaves (Self.waits self.old) [] (Self.waits self.new) }
        ensures stored { OnOk result (IsTrue Self.alone → PutsData (state_of (Self.seen self.old)) (record { seat = Self.number self.old; at = at; act = act }) bytes.now (Self.blocks self.old) (Self.blocks self.new)) }
        ensures below { IsTrue Self.alone → KeepsPieces (state_of (Self.seen self.old)) (Self.blocks self.old) (Self.blocks self.new) }
        ensures number { Self.number self.new ≡ Self.number self.old }
        ensures later { Self.faults self.old ≤ Self.faults self.new }
        // A fault of the disk is told as nothing else, and nothing is tried behind it.
        ensures once { CountsOnce (Self.faults self.old) (Self.faults self.new) result }
        ensures quiet { ¬ IsErrOf result CommitFault.Disk → Self.faults self.new ≡ Self.faults self.old }
        ensures went { Self.went self.old self.new };

    /// The bytes of a block of a version of a file, at a point that begins with all that was seen. `NoRev` comes exactly
    /// where there is no version with this rev there, and `NoBlock` where it has no block with this number, counted
    /// from 0. Nothing of its own enters.
    fn fetch(&mut self, rev: u64, block: u32) -> Result<Vec<u8>, FetchFault>
        ensures point { OthersEnter Self.alone (Self.seen self.old) (Self.seen self.new) }
        ensures bytes { IfOk result (λ bytes. IsBlock (block_at (Self.seen self.new) rev block) (Self.blocks self.new) bytes.items) }
        ensures no_rev { IsErrOf result FetchFault.NoRev → block_at (Self.seen self.new) rev block ≡ None }
        ensures no_block { IsErrOf result FetchFault.NoBlock → block_at (Self.seen self.new) rev block ≡ Some None }
        ensures disk { IsErrOf result FetchFault.Disk → Rose (Self.faults self.old) (Self.faults self.new) }
        ensures below { IsTrue Self.alone → KeepsPieces (state_of (Self.seen self.old)) (Self.blocks self.old) (Self.blocks self.new) }
        ensures waits { Self.waits self.new ≡ Self.waits self.old }
        ensures number { Self.number self.new ≡ Self.number self.old }
        ensures later { Self.faults self.old ≤ Self.faults self.new }
        // A fault of the disk is told as nothing else, and nothing is tried behind it.
        ensures once { CountsOnce (Self.faults self.old) (Self.faults self.new) result }
        ensures quiet { ¬ IsErrOf result FetchFault.Disk → Self.faults self.new ≡ Self.faults self.old }
        ensures went { Self.went self.old self.new };

    /// Takes the bytes of a block back, so that another one can be fetched into their room. The port stays as it is.
    fn give_back(&mut self, bytes: Vec<u8>)
        ensures { self.new ≡ self.old };
}
