//! The outside as the host sees it: a disk of four files, a source and a sink of bytes, and a clock.
//!
//! Each is a trait whose clauses say what its calls do. `Disk` says what a read gives, what a crash at this moment
//! may leave of each file, and what a crash at any moment since an earlier one might have left; `Source` and `Sink`
//! say which bytes were given, are left and are held; each of the three counts its faults, and answers `Failed`
//! only in a call in which that count rose. `write_through` is the one way in which the host changes what a
//! file holds: it writes a range and syncs it. `extend_ahead` writes zeros behind a file's end now and then, which makes
//! the syncs that follow cheaper.
//!
//! `MemDisk`, `FuseDisk`, `MemSource`, `MemSink` and `FakeClock` are forms in memory whose calls can be made to
//! fail. `FileDisk`, `StdSource`, `StdSink` and `RealClock` stand over the system. They are proved against the
//! same traits, count their faults, and tell nothing of what a file, a socket or the system's clock holds: that a
//! real disk keeps the meaning of a crash is not promised here.
#![tactic(auto)]

mod ahead;
mod calls;
mod clock;
mod contents;
mod disk;
mod faults;
mod file_disk;
mod fuse;
mod mem_disk;
mod mem_sink;
mod mem_source;
mod replay;
mod sink;
mod source;
mod std_ends;
mod through;

pub use ahead::{ROOM_BYTES, extend_ahead};
pub use clock::{Clock, FakeClock, RealClock};
pub use disk::{Disk, FileNo};
pub use faults::Failed;
pub use file_disk::FileDisk;
pub use fuse::FuseDisk;
pub use mem_disk::MemDisk;
pub use mem_sink::MemSink;
pub use mem_source::MemSource;
pub use sink::Sink;
pub use source::Source;
pub use std_ends::{StdSink, StdSource};
pub use through::write_through;
