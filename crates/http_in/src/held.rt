ghost use Rattle.std.specs.Prelude.{◌≡◌, ◌≢◌, ◌<◌, ◌≤◌, ◌+◌, ◌-◌, ◌==◌, [], length, take, drop, slice_range, vec_len, IfOk};
ghost use Rattle.std.specs.Io.KnownBytes.{IsAtEnd};
ghost use Rattle.fh_world.specs.Causes.{Rose};
ghost use Rattle.http_in.specs.Input.{Fills};

use crate::limits::HEAD_MAX_BYTES;
use fh_model::NoMemory;
use fh_world::Source;
use std::alloc::Global;
use std::marker::Model;

/// The bytes that were read and are not answered yet, at most `HEAD_MAX_BYTES`. Contracts see their list.
///
/// They stand at `start..end` of a buffer of that size. So bytes are taken off their front without moving the others,
/// and a read goes straight behind them.
#[derive(Drop)]
pub(crate) struct Held {
    buffer: Vec<u8>,
    start: usize,
    end: usize,
}

impl Model for Held {
    ghost use Rattle.std.specs.Prelude.{◌≡◌, ◌≤◌, ℕ, List, slice_range, vec_len};
    ghost use Rattle.http_in.specs.declared.limits.TheConstants.{HEAD_MAX_BYTES};

    ghost Value = { List ℕ };

    ghost view = { λ h. slice_range h.buffer.items h.start h.end };

    ghost invariant = { λ h. (h.start ≤ h.end) × (h.end ≤ HEAD_MAX_BYTES) × (vec_len h.buffer ≡ HEAD_MAX_BYTES) };
}

/// What a read added to the bytes at hand.
#[derive(Clone, Copy, Drop)]
pub(crate) enum Filled {
    More,
    End,
    Fault,
}

impl Held {
    /// No bytes. The buffer is asked for here.
    pub(crate) fn new(alloc: Global) -> Result<Held, NoMemory>
        ensures { IfOk result (λ h. h ≡ []) }
    {
        let buffer = vec![in alloc; 0u8; HEAD_MAX_BYTES]?;
        Ok(Held {
            buffer,
            start: 0,
            end: 0,
        })
    }

    pub(crate) fn allocator(&self) -> Global {
        *self.buffer.allocator()
    }

    pub(crate) fn len(&self) -> usize
        ensures { result ≡ length self.now }
    {
        self.end - self.start
    }

    pub(crate) fn is_empty(&self) -> bool
        ensures { result ≡ (length self.now == 0) }
    {
        self.start == self.end
    }

    pub(crate) fn as_slice(&self) -> &[u8]
        ensures value { result.now ≡ self.now }
    {
        &self.buffer[self.start..self.end]
    }

    /// Drops the first `count` bytes.
    pub(crate) fn drop_front(&mut self, count: usize)
        requires { count ≤ length self.old }
        ensures { self.new ≡ drop count self.old }
    {
        self.start += count;
    }

    /// Reads some more bytes behind those at hand.
    pub(crate) fn fill<S: Source>(&mut self, source: &mut S) -> Filled
        requires { length self.old < HEAD_MAX_BYTES }
        ensures bytes { Fills S.given S.left source.old source.new self.old self.new }
        ensures more { result ≡ Filled.More → length self.old < length self.new }
        ensures within { length self.new ≤ HEAD_MAX_BYTES }
        ensures end { result ≡ Filled.End → IsAtEnd (S.left source.new) × (self.new ≡ self.old) }
        ensures place { S.place source.new ≡ S.place source.old }
        ensures later { S.faults source.old ≤ S.faults source.new }
        ensures fault { result ≡ Filled.Fault → Rose (S.faults source.old) (S.faults source.new) × (self.new ≡ self.old) }
        ensures told { result ≢ Filled.Fault → S.faults source.new ≡ S.faults source.old }
        ensures once { S.faults source.new ≤ S.faults source.old + 1 }
    {
        move_to_front(&mut self.buffer, self.start, self.end);
        self.end -= self.start;
        self.start = 0;
        let Ok(count) = source.read(&mut self.buffer[self.end..]) else {
            return Filled::Fault;
        };
        if count == 0 {
            return Filled::End;
        }
        self.end += count;
        Filled::More
    }
}

/// Moves the bytes at `start..end` to the front, so that all room is behind them.
fn move_to_front(buffer: &mut Vec<u8>, start: usize, end: usize)
    requires order { start ≤ end }
    requires within { end ≤ vec_len buffer.old }
    ensures moved { take (end - start) buffer.new.items ≡ slice_range buffer.old.items start end }
    ensures len { vec_len buffer.new ≡ vec_len buffer.old }
{
    if start > 0 {
        buffer.copy_within(start..end, 0);
    }
}
