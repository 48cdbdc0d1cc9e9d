ghost use Rattle.std.specs.Prelude.{◌≡◌, [], false};
ghost use Rattle.std.proofs.lemmas.Bool.{false≢true};
ghost use Rattle.fh_world.specs.declared.disk.FileNo.TheVariants.{Head};
ghost use Rattle.fh_world.specs.Causes.{HasCause, CountsOnce};

use crate::faults::{FILE_MAX_BYTES, counted, fault};
use crate::{Disk, Failed, FileNo};
use std::fs::{File, OpenOptions};
use std::io;
use std::os::unix::fs::FileExt;
use std::rt::Files;

/// A disk over the files `head`, `slot_a`, `slot_b` and `blocks` of one folder. It counts its faults, and tells
/// nothing of what its files hold.
#[derive(Drop)]
pub struct FileDisk {
    /// None where the folder or one of its files couldn't be opened: then each call fails.
    files: Option<OpenFiles>,
    faults: u64,
}

/// The files of a folder, open to be read and written.
#[derive(Drop)]
struct OpenFiles {
    head: File,
    slot_a: File,
    slot_b: File,
    blocks: File,
}

impl FileDisk {
    ghost use Rattle.fh_world.specs.Adapters.{disk_faults};

    /// The files of a folder that is there, each made where it isn't. Where one of them can't be opened, the disk's
    /// first call fails, and so does each one after it.
    pub fn open<R: Files<File = File> + AllocGlobal>(rt: &R, folder: &str) -> FileDisk
        ensures { disk_faults result ≡ 0 }
    {
        FileDisk {
            files: OpenFiles::of(rt, folder).ok(),
            faults: 0,
        }
    }
}

impl OpenFiles {
    fn of<R: Files<File = File> + AllocGlobal>(rt: &R, folder: &str) -> io::Result<OpenFiles> {
        let files = OpenFiles {
            head: open_file(rt, folder, "head")?,
            slot_a: open_file(rt, folder, "slot_a")?,
            slot_b: open_file(rt, folder, "slot_b")?,
            blocks: open_file(rt, folder, "blocks")?,
        };
        // A file that was made, by this run or by one that was stopped, is found again after a crash only once
        // its folder was synced.
        OpenOptions::new().read(true).open(rt, folder)?.sync_all()?;
        Ok(files)
    }

    fn file(&self, file: FileNo) -> &File {
        match file {
            FileNo::Head => &self.head,
            FileNo::SlotA => &self.slot_a,
            FileNo::SlotB => &self.slot_b,
            FileNo::Blocks => &self.blocks,
        }
    }
}

/// Opens a file of the folder, which is made where it isn't there.
fn open_file<R: Files<File = File> + AllocGlobal>(
    rt: &R,
    folder: &str,
    name: &str,
) -> io::Result<File> {
    let path = format!(in rt.alloc(); "{folder}/{name}")?;
    OpenOptions::new()
        .read(true)
        .write(true)
        .create(true)
        .open(rt, path.as_str())
}

/// The open file of this number, or a fault where none is open.
fn opened<'a>(
    files: &'a Option<OpenFiles>,
    file: FileNo,
    faults: &mut u64,
) -> Result<&'a File, Failed>
    ensures cause { HasCause faults.old faults.new result }
    ensures once { CountsOnce faults.old faults.new result }
{
    match files {
        Some(files) => Ok(files.file(file)),
        None => Err(fault(faults)),
    }
}

impl Disk for FileDisk {
    ghost place = { λ _. [] };

    ghost tells = { false };

    ghost seen = { λ _ _. [] };

    ghost may_leave = { λ _ _ _. ⊥ };

    ghost moment = { λ _. 0 };

    ghost left_since = { λ _ _ _. ⊥ };

    ghost faults = { λ d. d.faults };

    ghost seen_may_stay = { λ _ _ told. absurd (false≢true told) };

    ghost counts_now = { λ _ _ _ _ now. now Head };

    ghost only_now = { λ _ _ left _. left };

    fn read_at(&mut self, file: FileNo, at: u64, buf: &mut [u8]) -> Result<(), Failed> {
        let file = opened(&self.files, file, &mut self.faults)?;
        counted(file.read_exact_at(buf, at), &mut self.faults)
    }

    fn write_at(&mut self, file: FileNo, at: u64, bytes: &[u8]) -> Result<(), Failed> {
        if at > FILE_MAX_BYTES || bytes.len() as u64 > FILE_MAX_BYTES - at {
            return Err(fault(&mut self.faults));
        }
        let file = opened(&self.files, file, &mut self.faults)?;
        counted(file.write_all_at(bytes, at), &mut self.faults)
    }

    fn sync(&mut self, file: FileNo) -> Result<(), Failed> {
        let file = opened(&self.files, file, &mut self.faults)?;
        counted(file.sync_data(), &mut self.faults)
    }

    fn len(&mut self, file: FileNo) -> Result<u64, Failed> {
        let file = opened(&self.files, file, &mut self.faults)?;
        let len = counted(file.metadata(), &mut self.faults)?.len();
        if len > FILE_MAX_BYTES {
            return Err(fault(&mut self.faults));
        }
        Ok(len)
    }
}
