//! The standard output, whose bytes can be made safe.

use libc::{STDOUT_FILENO, fdatasync};
use std::io;
use std::io::{ErrorKind, Write};

/// The writer of the standard output. Its flush returns when what was written has reached the disk,
/// and fails where the standard output is no file on one.
#[derive(Drop)]
pub struct Output<W> {
    inner: W,
}

impl<W: Write> Output<W> {
    /// Over the writer of the standard output.
    pub fn new(inner: W) -> Output<W> {
        Output { inner }
    }
}

impl<W: Write> Write for Output<W> {
    fn write(&mut self, buf: &[u8]) -> io::Result<usize> {
        self.inner.write(buf)
    }

    /// The standard output keeps nothing back itself: what was written went to the system.
    fn flush(&mut self) -> io::Result<()> {
        self.inner.flush()?;
        if fdatasync(STDOUT_FILENO) == 0 {
            Ok(())
        } else {
            Err(ErrorKind::Other.into())
        }
    }
}
