ghost use Rattle.std.specs.Prelude.{◌≡◌, ◌+◌, ◌-◌, ◌↔◌, ℕ, IsErr};
ghost use Rattle.fh_world.specs.Causes.{HasCause, CountsOnce};

use crate::faults::fault;
use crate::{Disk, Failed, FileNo};

/// A disk that stops: it passes so many calls on, and fails each one after.
#[derive(Drop)]
pub struct FuseDisk<D: Disk> {
    inner: D,
    calls_left: u64,
    refused: u64,
}

impl<D: Disk> FuseDisk<D> {
    ghost use Rattle.fh_world.specs.Memory.{inner_of, calls_left_of, fuse_faults};

    /// Passes `calls` calls on to this disk.
    pub fn new(disk: D, calls: u64) -> FuseDisk<D>
        ensures inner { inner_of result ≡ disk }
        ensures calls { calls_left_of result ≡ calls }
        ensures faults { fuse_faults D.Disk result ≡ D.faults disk }
    {
        FuseDisk {
            inner: disk,
            calls_left: calls,
            refused: 0,
        }
    }

    /// The disk as the calls that were passed on left it.
    pub fn into_inner(self) -> D
        ensures { result ≡ inner_of self }
    {
        let FuseDisk { inner, .. } = self;
        inner
    }
}

/// Takes one of the calls that are left, and fails where none is.
fn spend(calls_left: &mut u64, refused: &mut u64) -> Result<(), Failed>
    ensures cause { HasCause refused.old refused.new result }
    ensures once { CountsOnce refused.old refused.new result }
    ensures blown { IsErr result ↔ (calls_left.old ≡ 0) }
    ensures spent { calls_left.new ≡ calls_left.old - 1 }
{
    if *calls_left == 0 {
        return Err(fault(refused));
    }
    *calls_left -= 1;
    Ok(())
}

impl<D: Disk> Disk for FuseDisk<D> {
    ghost place = { λ f. D.Disk.place f.inner };

    ghost tells = { D.Disk.tells };

    ghost seen = { λ f. D.Disk.seen f.inner };

    ghost may_leave = { λ f. D.Disk.may_leave f.inner };

    ghost moment = { λ f. D.Disk.moment f.inner };

    ghost left_since = { λ f. D.Disk.left_since f.inner };

    ghost faults = { λ f. D.Disk.faults f.inner + f.refused };

    ghost seen_may_stay = { λ f. D.Disk.seen_may_stay f.inner };

    ghost counts_now = { λ f. D.Disk.counts_now f.inner };

    ghost only_now = { λ f. D.Disk.only_now f.inner };

    fn read_at(&mut self, file: FileNo, at: u64, buf: &mut [u8]) -> Result<(), Failed> {
        spend(&mut self.calls_left, &mut self.refused)?;
        self.inner.read_at(file, at, buf)
    }

    fn write_at(&mut self, file: FileNo, at: u64, bytes: &[u8]) -> Result<(), Failed> {
        spend(&mut self.calls_left, &mut self.refused)?;
        self.inner.write_at(file, at, bytes)
    }

    fn sync(&mut self, file: FileNo) -> Result<(), Failed> {
        spend(&mut self.calls_left, &mut self.refused)?;
        self.inner.sync(file)
    }

    fn len(&mut self, file: FileNo) -> Result<u64, Failed> {
        spend(&mut self.calls_left, &mut self.refused)?;
        self.inner.len(file)
    }
}
