ghost use Rattle.std.specs.Prelude.{◌≡◌, ◌++◌, ◌<◌, ◌≤◌, ◌+◌, [], List, ℕ, Option, Some, length, take, drop, OnOk};

use crate::calls::Calls;
use crate::{Failed, Source};
use fh_model::NoMemory;

/// Bytes in memory, given a piece at a time. The calls whose numbers are in a list fail.
#[derive(Drop)]
pub struct MemSource {
    bytes: Vec<u8>,
    at: usize,
    piece: usize,
    calls: Calls,
    ghost in_bytes: { at ≤ length bytes.items },
    ghost has_piece: { 0 < piece },
}

impl MemSource {
    ghost use Rattle.fh_world.specs.Memory.{source_given, source_left, source_piece, source_failing};

    /// A source of these bytes that gives at most `piece` of them in one call.
    pub fn new(bytes: Vec<u8>, piece: usize) -> MemSource
        requires { 0 < piece }
        ensures given { source_given result ≡ [] }
        ensures left { source_left result ≡ bytes.items }
        ensures piece { source_piece result ≡ piece }
        ensures failing { source_failing result ≡ [] }
    {
        let calls = Calls::new(*bytes.allocator());
        MemSource {
            bytes,
            at: 0,
            piece,
            calls,
        }
    }

    /// Lets the calls with these numbers fail too, the first call being number 1.
    pub fn fail_calls(&mut self, numbers: &[u64]) -> Result<(), NoMemory>
        ensures given { source_given self.new ≡ source_given self.old }
        ensures left { source_left self.new ≡ source_left self.old }
        ensures piece { source_piece self.new ≡ source_piece self.old }
        ensures failing { OnOk result (source_failing self.new ≡ source_failing self.old ++ numbers.now) }
    {
        self.calls.fail(numbers)
    }
}

/// Copies the bytes of `from` that follow the first `at`, at most `piece`, to the start of `buf`, and answers
/// how many.
fn copy_from(from: &[u8], at: usize, piece: usize, buf: &mut [u8]) -> usize
    requires at { at ≤ length from.now }
    requires piece { 0 < piece }
    requires room { 0 < length buf.old }
    ensures rest { at + result ≤ length from.now }
    ensures room { result ≤ length buf.new }
    ensures few { result ≤ piece }
    ensures copied { take result buf.new ≡ take result (drop at from.now) }
    ensures end { result ≡ 0 → drop at from.now ≡ [] }
{
    let rest = &from[at..];
    let count = rest.len().min(buf.len()).min(piece);
    buf[..count].copy_from_slice(&rest[..count]);
    count
}

impl Source for MemSource {
    ghost place = { λ _. [] };

    ghost given = { λ s. Some (take s.at s.bytes.items) };

    ghost left = { λ s. Some (drop s.at s.bytes.items) };

    ghost faults = { λ s. s.calls.faults };

    fn read(&mut self, buf: &mut [u8]) -> Result<usize, Failed> {
        self.calls.attempt()?;
        let count = copy_from(&self.bytes, self.at, self.piece, buf);
        self.at += count;
        Ok(count)
    }
}
