//! The durable store: the machine's image, kept on a disk by a journal of gated records.
//!
//! A store owns a `Disk`, whose four files it reads and writes so:
//!
//! | file | bytes |
//! |---|---|
//! | head | a gate (`a5` is open, any other byte is closed), the text `filehost store 1`, and a byte that names the slot that counts: 2 is slot B, any other is slot A |
//! | slot A, slot B | gated records: rows of a state, and behind them the commands that entered since |
//! | blocks | the data of the commands, one piece behind another |
//!
//! 1. A head of fewer than 18 bytes, or of 18 bytes with a closed gate, is none yet: opening makes the store. A longer
//!    one is `NotAStore` at 18, and one with an open gate and another text at the first byte that differs.
//! 2. `Damaged` names the first record of the slot that breaks a rule. All records are tested of one rule before the
//!    next: the file has a byte behind each (at 0 where it has none at all), each body spells a row or a command, no
//!    row comes after a command, the rows keep their rules, the last moment is one that a clock tells, and no command
//!    names a piece that ends beyond the block file.
//! 3. To make a store, slot A is laid with the rows of the opening state; the head's gate is closed where it isn't,
//!    the rest is written behind it, and the gate is opened, each with a sync.
//!
//! `open` syncs the files first, so that a crash leaves what it reads. `commit` puts the data of a command at the
//! greatest end of a piece in the state, syncs it, and then appends the record, so that no record names data that may be
//! lost. It makes the next image and the record before its first write. Whatever a crash leaves, at any moment of a
//! call, stands for the state before the command or after it, and has the bytes of that state's pieces; after `Ok` it
//! stands for the latter, which the type of a store keeps from then on. A fault at the gate leaves a command that waits,
//! and may or may not be on the disk. `fetch` reads a block of any version of a file that was ever put.
//!
//! What isn't said: that a real disk tears only what `Disk` says; that memory is there; and that bytes in the block file
//! that were wrong before the store was opened are found, since opening doesn't read them. A store with a command that
//! waits isn't written any more in this version.
#![tactic(auto)]

mod bodies;
mod faults;
mod head;
mod making;
mod opening;
mod putting;
mod slot;
mod store;

pub use bodies::{Body, RecordFault};
pub use faults::{CommitFault, FetchFault, StoreFault};
pub use head::HeadRead;
pub use store::Store;
