ghost use Rattle.std.specs.Prelude.{◌≡◌, [], None};

use crate::faults::counted;
use crate::{Failed, Sink, Source};
use std::io::{Read, Write};

/// Any reader as a source, which tells nothing of its bytes. A call of the reader that fails is one fault.
#[derive(Drop)]
pub struct StdSource<R> {
    inner: R,
    faults: u64,
}

impl<R> StdSource<R> {
    ghost use Rattle.fh_world.specs.Adapters.{source_faults};

    /// A source over this reader.
    pub fn new(inner: R) -> StdSource<R>
        ensures { source_faults result ≡ 0 }
    {
        StdSource { inner, faults: 0 }
    }
}

impl<R: Read> Source for StdSource<R> {
    ghost place = { λ _. [] };

    ghost given = { λ _. None };

    ghost left = { λ _. None };

    ghost faults = { λ s. s.faults };

    fn read(&mut self, buf: &mut [u8]) -> Result<usize, Failed> {
        counted(self.inner.read(buf), &mut self.faults)
    }
}

/// Any writer as a sink, which tells nothing of its bytes. A write that takes nothing of a piece that isn't empty
/// is a fault, as is one that fails, or a flush that does.
#[derive(Drop)]
pub struct StdSink<W> {
    inner: W,
    faults: u64,
}

impl<W> StdSink<W> {
    ghost use Rattle.fh_world.specs.Adapters.{sink_faults};

    /// A sink over this writer.
    pub fn new(inner: W) -> StdSink<W>
        ensures { sink_faults result ≡ 0 }
    {
        StdSink { inner, faults: 0 }
    }
}

impl<W: Write> Sink for StdSink<W> {
    ghost place = { λ _. [] };

    ghost held = { λ _. None };

    ghost faults = { λ s. s.faults };

    fn write(&mut self, bytes: &[u8]) -> Result<(), Failed> {
        counted(self.inner.write_all(bytes), &mut self.faults)?;
        counted(self.inner.flush(), &mut self.faults)
    }
}
