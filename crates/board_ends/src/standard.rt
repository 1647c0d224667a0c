//! std's readers and writers as a source and a sink.

ghost use Rattle.std.specs.Prelude.{◌≡◌, ◌<◌, ◌≤◌, IfOk, OnOk, OnErr, length, take};
ghost use Rattle.board_ends.specs.Counts.{one_more, Rose};
ghost use Rattle.board_ends.specs.Ends.{Gave, Took, KeepsSafe, IsSafeHeld, IsSynced, IsAtEnd, untold_source, untold_sink};

use crate::ends::{Failed, Journal, Sink, Source};
use std::io::{ErrorKind, Read, Write};
use std::marker::Model;

/// How often an interrupted call is tried again.
const RETRIES: usize = 1000;

/// A source over a reader. It tells no content. A read that is interrupted is tried again at most
/// 1,000 times.
#[derive(Drop)]
pub struct StdSource<R> {
    inner: R,
    faults: u64,
}

impl<R> Model for StdSource<R> {
    ghost use Rattle.std.specs.Prelude.{ℕ};

    ghost Value = { ℕ };

    ghost view = { λ s. s.faults };
}

impl<R: Read> StdSource<R> {
    /// A source over this reader, whose count of faults is 0.
    pub fn new(inner: R) -> StdSource<R>
        ensures { result ≡ 0 }
    {
        StdSource { inner, faults: 0 }
    }
}

impl<R: Read> Source for StdSource<R> {
    ghost seen = { untold_source };

    fn read(&mut self, buf: &mut [u8]) -> Result<usize, Failed>
        ensures same { OnOk result (self.new ≡ self.old) }
        ensures one_more { OnErr result (self.new ≡ one_more self.old) }

        ensures bound { IfOk result (λ n. n ≤ length buf.new) }
        ensures given { IfOk result (λ n. Gave (untold_source self.old) (untold_source self.new)
            (take n buf.new)) }
        ensures end { IfOk result (λ n. n ≡ 0 → 0 < length buf.old
            → IsAtEnd (untold_source self.new)) }
        ensures failed { OnErr result (Rose self.old self.new) }
        ensures unmoved { OnErr result ((untold_source self.new).left
            ≡ (untold_source self.old).left) }
        ensures counted { self.old ≤ self.new }
    {
        let read = read_retrying(&mut self.inner, buf);
        if read.is_err() {
            self.faults = self.faults.saturating_add(1);
        }
        read
    }
}

/// Reads once, and again where the read was interrupted.
fn read_retrying<R: Read>(inner: &mut R, buf: &mut [u8]) -> Result<usize, Failed>
    ensures { IfOk result (λ n. n ≤ length buf.new) }
{
    for _ in 0..=RETRIES {
        match inner.read(buf) {
            Ok(n) => return Ok(n),
            Err(error) if error.kind() == ErrorKind::Interrupted => {}
            Err(_) => break,
        }
    }
    Err(Failed)
}

/// A sink over a writer, and a journal through the writer's flush. It tells no content. A call that
/// is interrupted is tried again at most 1,000 times, and a write that takes no byte of a piece
/// that has one is a failure.
#[derive(Drop)]
pub struct StdSink<W> {
    inner: W,
    faults: u64,
}

impl<W> Model for StdSink<W> {
    ghost use Rattle.std.specs.Prelude.{ℕ};

    ghost Value = { ℕ };

    ghost view = { λ s. s.faults };
}

impl<W: Write> StdSink<W> {
    /// A sink over this writer, whose count of faults is 0.
    pub fn new(inner: W) -> StdSink<W>
        ensures { result ≡ 0 }
    {
        StdSink { inner, faults: 0 }
    }

    /// Flushes the writer. A flush that is interrupted is tried again at most 1,000 times, and no
    /// other failed one ever is.
    pub fn flush(&mut self) -> Result<(), Failed>
        ensures same { OnOk result (self.new ≡ self.old) }
        ensures one_more { OnErr result (self.new ≡ one_more self.old) }
        ensures counted { self.old ≤ self.new }
    {
        let flushed = flush_retrying(&mut self.inner);
        if flushed.is_err() {
            self.faults = self.faults.saturating_add(1);
        }
        flushed
    }
}

impl<W: Write> Sink for StdSink<W> {
    ghost seen = { untold_sink };

    fn write(&mut self, piece: &[u8]) -> Result<usize, Failed>
        ensures same { OnOk result (self.new ≡ self.old) }
        ensures one_more { OnErr result (self.new ≡ one_more self.old) }

        ensures bound { IfOk result (λ n. n ≤ length piece.now) }
        ensures some { IfOk result (λ n. 0 < length piece.now → 0 < n) }
        ensures taken { IfOk result (λ n. Took (untold_sink self.old) (untold_sink self.new)
            (take n piece.now)) }
        ensures failed { OnErr result (Rose self.old self.new) }
        ensures unmoved { OnErr result ((untold_sink self.new).held ≡ (untold_sink self.old).held) }
        ensures safe { KeepsSafe (untold_sink self.old) (untold_sink self.new) }
        ensures safe_held { IsSafeHeld (untold_sink self.new) }
        ensures counted { self.old ≤ self.new }
    {
        let written = write_retrying(&mut self.inner, piece);
        if written.is_err() {
            self.faults = self.faults.saturating_add(1);
        }
        written
    }
}

/// Writes once, and again where the write was interrupted. To take no byte of a piece that has one
/// is a failure.
fn write_retrying<W: Write>(inner: &mut W, piece: &[u8]) -> Result<usize, Failed>
    ensures bound { IfOk result (λ n. n ≤ length piece.now) }
    ensures some { IfOk result (λ n. 0 < length piece.now → 0 < n) }
{
    for _ in 0..=RETRIES {
        match inner.write(piece) {
            Ok(0) if !piece.is_empty() => break,
            Ok(n) => return Ok(n),
            Err(error) if error.kind() == ErrorKind::Interrupted => {}
            Err(_) => break,
        }
    }
    Err(Failed)
}

impl<W: Write> Journal for StdSink<W> {
    fn sync(&mut self) -> Result<(), Failed>
        ensures same { OnOk result (self.new ≡ self.old) }
        ensures one_more { OnErr result (self.new ≡ one_more self.old) }

        ensures ok { OnOk result (IsSynced (untold_sink self.new)) }
        ensures failed { OnErr result (Rose self.old self.new) }
        ensures held { (untold_sink self.new).held ≡ (untold_sink self.old).held }
        ensures safe { KeepsSafe (untold_sink self.old) (untold_sink self.new) }
        ensures safe_held { IsSafeHeld (untold_sink self.new) }
        ensures counted { self.old ≤ self.new }
    {
        self.flush()
    }
}

/// Flushes once, and again where the flush was interrupted.
fn flush_retrying<W: Write>(inner: &mut W) -> Result<(), Failed> {
    for _ in 0..=RETRIES {
        match inner.flush() {
            Ok(()) => return Ok(()),
            Err(error) if error.kind() == ErrorKind::Interrupted => {}
            Err(_) => break,
        }
    }
    Err(Failed)
}
