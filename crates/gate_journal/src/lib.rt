//! One slot of gated records: a journal that survives a crash at any moment.
//!
//! A slot is one file of a `Disk`. Its bytes are records from place 0 on:
//!
//! | bytes | what they are |
//! |---|---|
//! | 1 | the gate: `a5` is open, any other byte is closed |
//! | 8 | the length of the body in bytes, the most significant byte first |
//! | length | the body |
//!
//! 1. The records are those up to the first gate that isn't open.
//! 2. A file of no bytes is damaged at 0. An open-gated record behind which the file has no further byte is damaged
//!    at its place, so also one that passes the file's end.
//! 3. To append, the length, the body and one zero byte, which closes the gate behind, are written behind the closed
//!    gate, and the file is synced; then the gate is opened and the file synced again.
//! 4. What lies behind the first gate that isn't open counts for nothing. Whenever a record reaches byte 512 of the slot, or
//!    a multiple of 65,536, 65,536 zeros are written behind the gate first, since a sync is quicker where it changes no
//!    length.
//!
//! So after a crash at any moment of `append` the slot stands for the records before, or for these and the new one;
//! after `Ok` it stands for the latter. A fault before the gate is written leaves what the slot stands for. A fault
//! from then on leaves a record that waits: `pending` tells it, and `finish` writes and syncs the gate again, as
//! often as it takes. `append` and `finish` take no memory. No call changes another file.
//!
//! What isn't said: that a real disk tears a write only as `Disk` says; and which bodies are records of a host.
#![tactic(auto)]

mod faults;
mod journal;
mod laying;
mod reading;
mod record;

pub use faults::{AppendFault, LayFault, OpenFault};
pub use journal::Journal;
pub use laying::lay;
pub use reading::open;
pub use record::{Record, frame};
