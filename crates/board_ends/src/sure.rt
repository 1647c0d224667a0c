//! A source and a sink that never fail.

ghost use Rattle.std.specs.Prelude.{◌≡◌, ◌<◌, ◌≤◌, min, length, take, drop, Some, IfOk, OnOk, IsOk, OnErr};
ghost use Rattle.board_ends.specs.Counts.{Rose};
ghost use Rattle.board_ends.specs.Ends.{Gave, Took, KeepsSafe, IsSafeHeld, IsSynced, IsAtEnd};
ghost use Rattle.board_ends.specs.Sure.{sure_source_end, sure_sink_end};

use crate::ends::{Failed, Journal, Sink, Source};
use crate::memory::copy_front;
use board_base::Bytes;
use std::marker::Model;

/// A source that gives these bytes, and never fails.
#[derive(Drop)]
pub struct SureSource {
    bytes: Bytes,
    given: usize,
    chunk: usize,
}

impl Model for SureSource {
    ghost use Rattle.std.specs.Prelude.{◌≤◌, length, drop};
    ghost use Rattle.board_ends.specs.Sure.{SureSourceState};

    ghost Value = { SureSourceState };

    ghost view = { λ s. record { left = drop s.given s.bytes; chunk = s.chunk } };

    ghost invariant = { λ s. (s.given ≤ length s.bytes) × (1 ≤ s.chunk) };
}

impl SureSource {
    /// A source of these bytes, which gives at most `chunk` of them at once. It takes no memory.
    pub fn new(bytes: Bytes, chunk: usize) -> SureSource
        requires { 1 ≤ chunk }
        ensures { result ≡ record { left = bytes; chunk = chunk } }
    {
        SureSource {
            bytes,
            given: 0,
            chunk,
        }
    }
}

impl Source for SureSource {
    ghost seen = { sure_source_end };

    fn read(&mut self, buf: &mut [u8]) -> Result<usize, Failed>
        ensures sure { IsOk result }
        ensures count { IfOk result (λ n. n
            ≡ min (length buf.old) (min self.old.chunk (length self.old.left))) }
        ensures bytes { IfOk result (λ n. take n buf.new ≡ take n self.old.left) }
        ensures ok { IfOk result (λ n. self.new ≡ record self.old { left = drop n self.old.left }) }

        ensures bound { IfOk result (λ n. n ≤ length buf.new) }
        ensures given { IfOk result (λ n. Gave (sure_source_end self.old) (sure_source_end self.new)
            (take n buf.new)) }
        ensures end { IfOk result (λ n. n ≡ 0 → 0 < length buf.old
            → IsAtEnd (sure_source_end self.new)) }
        ensures failed { OnErr result (Rose 0 0) }
        ensures unmoved { OnErr result (Some self.new.left ≡ Some self.old.left) }
        ensures counted { 0 ≤ 0 }
    {
        let n = copy_front(&self.bytes.as_slice()[self.given..], buf, self.chunk);
        self.given += n;
        Ok(n)
    }
}

/// A sink that takes all that it is given, keeps none of it, and never fails.
#[derive(Drop)]
pub struct SureSink {
    chunk: usize,
}

impl Model for SureSink {
    ghost use Rattle.std.specs.Prelude.{ℕ, ◌≤◌};

    ghost Value = { ℕ };

    ghost view = { λ s. s.chunk };

    ghost invariant = { λ s. 1 ≤ s.chunk };
}

impl SureSink {
    /// A sink that takes at most `chunk` bytes at once.
    pub fn new(chunk: usize) -> SureSink
        requires { 1 ≤ chunk }
        ensures { result ≡ chunk }
    {
        SureSink { chunk }
    }
}

impl Sink for SureSink {
    ghost seen = { sure_sink_end };

    fn write(&mut self, piece: &[u8]) -> Result<usize, Failed>
        ensures sure { IsOk result }
        ensures count { IfOk result (λ n. n ≡ min (length piece.now) self.old) }
        ensures kept { self.new ≡ self.old }

        ensures bound { IfOk result (λ n. n ≤ length piece.now) }
        ensures some { IfOk result (λ n. 0 < length piece.now → 0 < n) }
        ensures taken { IfOk result (λ n. Took (sure_sink_end self.old) (sure_sink_end self.new)
            (take n piece.now)) }
        ensures failed { OnErr result (Rose 0 0) }
        ensures unmoved { OnErr result ((sure_sink_end self.new).held
            ≡ (sure_sink_end self.old).held) }
        ensures safe { KeepsSafe (sure_sink_end self.old) (sure_sink_end self.new) }
        ensures safe_held { IsSafeHeld (sure_sink_end self.new) }
        ensures counted { 0 ≤ 0 }
    {
        Ok(piece.len().min(self.chunk))
    }
}

impl Journal for SureSink {
    fn sync(&mut self) -> Result<(), Failed>
        ensures sure { IsOk result }
        ensures kept { self.new ≡ self.old }

        ensures ok { OnOk result (IsSynced (sure_sink_end self.new)) }
        ensures failed { OnErr result (Rose 0 0) }
        ensures held { (sure_sink_end self.new).held ≡ (sure_sink_end self.old).held }
        ensures safe { KeepsSafe (sure_sink_end self.old) (sure_sink_end self.new) }
        ensures safe_held { IsSafeHeld (sure_sink_end self.new) }
        ensures counted { 0 ≤ 0 }
    {
        Ok(())
    }
}
