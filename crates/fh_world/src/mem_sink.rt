ghost use Rattle.std.specs.Prelude.{◌≡◌, ◌++◌, [], ℕ, List, Option, Some, OnOk};

use crate::calls::Calls;
use crate::faults::counted;
use crate::{Failed, Sink};
use fh_model::NoMemory;
use std::alloc::Global;

/// Bytes in memory. The calls whose numbers are in a list fail, and so does one for which memory is wanting.
#[derive(Drop)]
pub struct MemSink {
    bytes: Vec<u8>,
    calls: Calls,
}

impl MemSink {
    ghost use Rattle.fh_world.specs.Memory.{sink_bytes, sink_failing};

    /// A sink that holds nothing.
    pub fn new(alloc: Global) -> MemSink
        ensures bytes { sink_bytes result ≡ [] }
        ensures failing { sink_failing result ≡ [] }
    {
        MemSink {
            bytes: Vec::new(alloc),
            calls: Calls::new(alloc),
        }
    }

    /// The bytes that it holds.
    pub fn bytes(&self) -> &[u8]
        ensures { result.now ≡ sink_bytes self.now }
    {
        self.bytes.as_slice()
    }

    /// Lets the calls with these numbers fail too, the first call being number 1.
    pub fn fail_calls(&mut self, numbers: &[u64]) -> Result<(), NoMemory>
        ensures bytes { sink_bytes self.new ≡ sink_bytes self.old }
        ensures failing { OnOk result (sink_failing self.new ≡ sink_failing self.old ++ numbers.now) }
    {
        self.calls.fail(numbers)
    }
}

impl Sink for MemSink {
    ghost place = { λ _. [] };

    ghost held = { λ k. Some k.bytes.items };

    ghost faults = { λ k. k.calls.faults };

    fn write(&mut self, bytes: &[u8]) -> Result<(), Failed> {
        self.calls.attempt()?;
        counted(self.bytes.extend_from_slice(bytes), &mut self.calls.faults)?;
        Ok(())
    }
}
