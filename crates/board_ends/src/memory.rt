//! A source and a sink over memory, with faults at chosen calls.

ghost use Rattle.std.specs.Prelude.{◌≡◌, ◌+◌, ◌<◌, ◌≤◌, ◌++◌, ◌||◌, [], min, length, take, drop, Some, IfOk, OnOk, OnErr, IsOk, is_err};
ghost use Rattle.board_ends.specs.Counts.{one_more, Rose};
ghost use Rattle.board_ends.specs.CallNumbers.{from_first, is_listed, after_call};
ghost use Rattle.board_ends.specs.Ends.{Gave, Took, KeepsSafe, IsSafeHeld, IsSynced, IsAtEnd};
ghost use Rattle.board_ends.specs.Memory.{source_end, sink_end, given_count, taken_count, is_full};

use crate::calls::Calls;
use crate::ends::{Failed, Journal, Sink, Source};
use board_base::{Bytes, List};
use std::alloc::{AllocError, Global};
use std::marker::Model;

/// A source that gives these bytes, and fails at chosen reads.
#[derive(Drop)]
pub struct MemSource {
    bytes: Bytes,
    given: usize,
    chunk: usize,
    reads: Calls,
    faults: u64,
}

impl Model for MemSource {
    ghost use Rattle.std.specs.Prelude.{◌≤◌, length, drop};
    ghost use Rattle.board_ends.specs.Memory.{MemSourceState};

    ghost Value = { MemSourceState };

    ghost view = { λ s. record {
      left = drop s.given s.bytes;
      chunk = s.chunk;
      reads = s.reads;
      faults = s.faults;
    } };

    ghost invariant = { λ s. (s.given ≤ length s.bytes) × (1 ≤ s.chunk) };
}

impl MemSource {
    /// A source of these bytes, which gives at most `chunk` of them at once. The reads with
    /// these numbers, from 0, fail. It takes no memory.
    pub fn new(bytes: Bytes, chunk: usize, fails: List<u64>) -> MemSource
        requires { 1 ≤ chunk }
        ensures { result ≡ record {
          left = bytes;
          chunk = chunk;
          reads = from_first fails;
          faults =
              0;
        } }
    {
        MemSource {
            bytes,
            given: 0,
            chunk,
            reads: Calls::new(fails),
            faults: 0,
        }
    }
}

impl Source for MemSource {
    ghost seen = { source_end };

    fn read(&mut self, buf: &mut [u8]) -> Result<usize, Failed>
        ensures fails { is_err result ≡ is_listed self.old.reads }
        ensures count { IfOk result (λ n. n ≡ given_count self.old (length buf.old)) }
        ensures bytes { IfOk result (λ n. take n buf.new ≡ take n self.old.left) }
        ensures ok { IfOk result (λ n. self.new ≡ record self.old {
          left = drop n self.old.left;
          reads = after_call self.old.reads;
        }) }
        ensures err { OnErr result (self.new ≡ record self.old {
          reads = after_call self.old.reads;
          faults = one_more self.old.faults;
        }) }

        ensures bound { IfOk result (λ n. n ≤ length buf.new) }
        ensures given { IfOk result (λ n. Gave (source_end self.old) (source_end self.new)
            (take n buf.new)) }
        ensures end { IfOk result (λ n. n ≡ 0 → 0 < length buf.old
            → IsAtEnd (source_end self.new)) }
        ensures failed { OnErr result (Rose self.old.faults self.new.faults) }
        ensures unmoved { OnErr result (Some self.new.left ≡ Some self.old.left) }
        ensures counted { self.old.faults ≤ self.new.faults }
    {
        let is_listed = self.reads.is_listed();
        self.reads.advance();
        if is_listed {
            self.faults = self.faults.saturating_add(1);
            return Err(Failed);
        }
        let n = copy_front(&self.bytes.as_slice()[self.given..], buf, self.chunk);
        self.given += n;
        Ok(n)
    }
}

/// Copies the first bytes, at most so many, to the front of the other list as far as it goes,
/// and says how many.
pub(crate) fn copy_front(from: &[u8], to: &mut [u8], most: usize) -> usize
    ensures count { result ≡ min (length to.old) (min most (length from.now)) }
    ensures copied { take result to.new ≡ take result from.now }
{
    let n = to.len().min(most.min(from.len()));
    to[..n].copy_from_slice(&from[..n]);
    n
}

/// A sink that keeps what it takes, and fails at chosen writes and where its room is full. Its
/// bytes are safe at once.
#[derive(Drop)]
pub struct MemSink {
    held: Vec<u8>,
    chunk: usize,
    room: usize,
    writes: Calls,
    faults: u64,
}

impl Model for MemSink {
    ghost use Rattle.std.specs.Prelude.{◌≤◌, vec_len, vec_capacity};
    ghost use Rattle.board_ends.specs.Memory.{MemSinkState};

    ghost Value = { MemSinkState };

    ghost view = { λ s. record {
      held = s.held.items;
      chunk = s.chunk;
      room = s.room;
      writes = s.writes;
      faults = s.faults;
    } };

    ghost invariant = { λ s. (vec_len s.held ≤ s.room) × (s.room ≤ vec_capacity s.held)
        × (1 ≤ s.chunk) };
}

impl MemSink {
    /// A sink that takes at most `chunk` bytes at once, and `room` bytes in all, for which it
    /// takes the memory now. The writes with these numbers, from 0, fail.
    pub fn new(
        alloc: Global,
        chunk: usize,
        room: usize,
        fails: List<u64>,
    ) -> Result<MemSink, AllocError>
        requires { 1 ≤ chunk }
        ensures { IfOk result (λ sink. sink
            ≡ record {
              held = [];
              chunk = chunk;
              room = room;
              writes = from_first fails;
              faults =
                  0;
            }) }
    {
        Ok(MemSink {
            held: Vec::with_capacity(alloc, room)?,
            chunk,
            room,
            writes: Calls::new(fails),
            faults: 0,
        })
    }

    /// The bytes that it holds.
    pub fn held(&self) -> &[u8]
        ensures { result.now ≡ self.now.held }
    {
        self.held.as_slice()
    }

    /// Counts one more fault.
    pub(crate) fn count_fault(&mut self)
        ensures one_more { self.new ≡ record self.old { faults = one_more self.old.faults } }
        ensures counted { self.old.faults ≤ self.new.faults }
    {
        self.faults = self.faults.saturating_add(1);
    }
}

impl Sink for MemSink {
    ghost seen = { sink_end };

    fn write(&mut self, piece: &[u8]) -> Result<usize, Failed>
        ensures fails { is_err result ≡ (is_listed self.old.writes || is_full self.old piece.now) }
        ensures count { IfOk result (λ n. n ≡ taken_count self.old piece.now) }
        ensures ok { IfOk result (λ n. self.new ≡ record self.old {
          held = self.old.held ++ take n piece.now;
          writes = after_call self.old.writes;
        }) }
        ensures err { OnErr result (self.new ≡ record self.old {
          writes = after_call self.old.writes;
          faults = one_more self.old.faults;
        }) }

        ensures bound { IfOk result (λ n. n ≤ length piece.now) }
        ensures some { IfOk result (λ n. 0 < length piece.now → 0 < n) }
        ensures taken { IfOk result (λ n. Took (sink_end self.old) (sink_end self.new)
            (take n piece.now)) }
        ensures failed { OnErr result (Rose self.old.faults self.new.faults) }
        ensures unmoved { OnErr result (Some self.new.held ≡ Some self.old.held) }
        ensures safe { KeepsSafe (sink_end self.old) (sink_end self.new) }
        ensures safe_held { IsSafeHeld (sink_end self.new) }
        ensures counted { self.old.faults ≤ self.new.faults }
    {
        let is_listed = self.writes.is_listed();
        self.writes.advance();
        let space = self.room - self.held.len();
        if is_listed || (!piece.is_empty() && space == 0) {
            self.count_fault();
            return Err(Failed);
        }
        let n = piece.len().min(self.chunk.min(space));
        self.held.extend_from_slice(&piece[..n]).unwrap();
        Ok(n)
    }
}

impl Journal for MemSink {
    fn sync(&mut self) -> Result<(), Failed>
        ensures sure { IsOk result }
        ensures kept { self.new ≡ self.old }

        ensures ok { OnOk result (IsSynced (sink_end self.new)) }
        ensures failed { OnErr result (Rose self.old.faults self.new.faults) }
        ensures held { Some self.new.held ≡ Some self.old.held }
        ensures safe { KeepsSafe (sink_end self.old) (sink_end self.new) }
        ensures safe_held { IsSafeHeld (sink_end self.new) }
        ensures counted { self.old.faults ≤ self.new.faults }
    {
        Ok(())
    }
}
