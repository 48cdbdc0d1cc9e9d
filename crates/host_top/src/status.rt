ghost use Rattle.std.specs.Prelude.{◌≡◌, IfOk, IsOk};
ghost use Rattle.host_top.specs.Status.{code_of, line_of};

use fh_model::{NoMemory, Text};
use std::alloc::Global;

/// How a run of the program ended.
#[derive(Clone, Copy, Debug, PartialEq, Eq)]
pub enum Status {
    /// The input was read to its end, or to a request that ends the connection.
    Done,

    /// The words of the command line are not in the form.
    Usage,

    /// The head file is another program's, from this byte on.
    NotAStore { place: u64 },

    /// The record at this byte of the store's slot is damaged, or stands where it may not.
    Damaged { place: u64 },

    /// The disk failed as the store was opened, as a command was to enter, or as a content was sent.
    DiskFault,

    /// Memory was wanting.
    NoMemory,

    /// The source failed.
    ReadFault,

    /// The sink failed.
    WriteFault,

    /// The input ended inside a request.
    Cut,

    /// The input has bytes that begin no request, or that pass a limit.
    Bad,

    /// As many requests were answered as one connection may have.
    Spent,
}

/// The line of a status on standard error, without its end; no text where all was done, which takes no memory.
pub fn status_line(alloc: Global, status: &Status) -> Result<Text, NoMemory>
    ensures line { IfOk result (λ line. line ≡ line_of status.now) }
    ensures done { status.now ≡ Status.Done → IsOk result }
{
    let line = match status {
        Status::Done => String::new(alloc),
        Status::Usage => String::from_str(alloc, "filehost: usage")?,
        Status::NotAStore { place } => format!(in alloc; "filehost: not a store at byte {place}")?,
        Status::Damaged { place } => format!(in alloc; "filehost: damaged at byte {place}")?,
        Status::DiskFault => String::from_str(alloc, "filehost: disk fault")?,
        Status::NoMemory => String::from_str(alloc, "filehost: out of memory")?,
        Status::ReadFault => String::from_str(alloc, "filehost: read fault")?,
        Status::WriteFault => String::from_str(alloc, "filehost: write fault")?,
        Status::Cut => String::from_str(alloc, "filehost: input cut")?,
        Status::Bad => String::from_str(alloc, "filehost: bad request")?,
        Status::Spent => String::from_str(alloc, "filehost: too many requests")?,
    };
    Ok(Text::new(line))
}

/// The code with which the program ends.
pub fn exit_code(status: Status) -> u8
    ensures { result ≡ code_of status }
{
    match status {
        Status::Done => 0,
        Status::Usage => 2,
        Status::NotAStore { .. } | Status::Damaged { .. } => 3,
        Status::DiskFault => 4,
        Status::NoMemory => 5,
        Status::ReadFault => 6,
        Status::WriteFault => 7,
        Status::Cut => 8,
        Status::Bad => 9,
        Status::Spent => 10,
    }
}
