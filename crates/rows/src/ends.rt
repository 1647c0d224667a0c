//! Reading up to a limit, and the ends over the system, which try again what was interrupted.

ghost use Rattle.std.specs.Prelude.{◌≤◌, ◌<◌, IfOk};

use board_base::{Bytes, List, Stop};
use board_ends::{
    Failed, Journal, MemSource, ReadError, Sink, Source, StdSink, StdSource, read_all, write_all,
};
use std::alloc::Global;
use std::io;
use std::io::{ErrorKind, Read, Write};
use std::test::Fail;

const TEXT: &[u8] = b"0123456789";

/// Whether the text is read from a source that gives three bytes at once.
fn reads_text(alloc: Global, limit: usize) -> Result<bool, Stop<ReadError>>
    requires { limit < 4294967295 }
{
    let bytes = Bytes::from_slice(alloc, TEXT)?;
    let mut source = MemSource::new(bytes, 3, List::new(alloc));
    let all = read_all(alloc, &mut source, limit)?;
    Ok(all.as_slice() == TEXT)
}

#[test]
fn reading_ends_at_the_byte_after_the_limit(rt: HostRuntime) {
    assert_eq!(rt;
        reads_text(rt.alloc(), 9),
        Err(Stop::Fault(ReadError::TooLong))
    );
    assert_eq!(rt; reads_text(rt.alloc(), 10), Ok(true));
}

/// A reader and writer that is interrupted so many times, and then gives this answer.
#[derive(Drop)]
struct Interrupted {
    times: u32,
    answer: Option<usize>,
}

impl Interrupted {
    fn answer(&mut self, most: usize) -> io::Result<usize>
        ensures { IfOk result (λ n. n ≤ most) }
    {
        if self.times > 0 {
            self.times -= 1;
            return Err(ErrorKind::Interrupted.into());
        }
        match self.answer {
            Some(n) => Ok(n.min(most)),
            None => Err(ErrorKind::Other.into()),
        }
    }
}

impl Read for Interrupted {
    fn read(&mut self, buf: &mut [u8]) -> io::Result<usize> {
        self.answer(buf.len())
    }
}

impl Write for Interrupted {
    fn write(&mut self, buf: &[u8]) -> io::Result<usize> {
        self.answer(buf.len())
    }

    fn flush(&mut self) -> io::Result<()> {
        self.answer(0)?;
        Ok(())
    }
}

#[test]
fn a_std_source_retries_and_fails(rt: HostRuntime) -> Result<(), Fail> {
    let mut source = StdSource::new(TEXT);
    let all = read_all(rt.alloc(), &mut source, 10)?;
    assert!(rt; all.as_slice() == TEXT);
    for (times, answer, read) in [
        (1000u32, Some(3usize), Ok(3)),
        (1000, Some(0), Ok(0)),
        (1001, Some(3), Err(Failed)),
        (0, None, Err(Failed)),
    ] {
        let mut source = StdSource::new(Interrupted { times, answer });
        assert!(rt; source.read(&mut [0; 8]) == read);
    }
    Ok(())
}

#[test]
fn a_std_sink_retries_and_fails(rt: HostRuntime) -> Result<(), Fail> {
    let mut out = Vec::new(rt.alloc());
    let written = write_all(&mut StdSink::new(&mut out), TEXT);
    assert!(rt; written.is_ok() && out.as_slice() == TEXT);
    for (times, answer, piece, written) in [
        (1000u32, Some(3usize), "hello", Ok(3)),
        (0, Some(0), "hello", Err(Failed)),
        (0, Some(0), "", Ok(0)),
        (1001, Some(3), "hello", Err(Failed)),
        (0, None, "hello", Err(Failed)),
    ] {
        let mut sink = StdSink::new(Interrupted { times, answer });
        assert!(rt; sink.write(piece.as_bytes()) == written);
    }
    Ok(())
}

#[test]
fn a_std_sink_is_flushed_once_unless_interrupted(rt: HostRuntime) {
    for (times, answer, synced) in [
        (1000u32, Some(0usize), Ok(())),
        (1001, Some(0), Err(Failed)),
        (0, None, Err(Failed)),
    ] {
        let mut sink = StdSink::new(Interrupted { times, answer });
        assert!(rt; sink.sync() == synced);
    }
}
