//! The stream in memory of a link.

ghost use Rattle.std.specs.Prelude.{◌≡◌};
ghost use Rattle.ws_links.specs.inner.Held.{reader_half};

use crate::buffer::Buffer;
use std::alloc::Global;
use std::io::{self, ErrorKind, Read, Write};

/// How many bytes are handed over at once.
pub(crate) const READ: usize = 4096;

/// How many pieces are handed over in one turn.
pub(crate) const PIECES: usize = 64;

/// What came over a socket, and what is to be written.
///
/// Bytes are handed over frame by frame, so a reader that has read a whole frame holds nothing
/// but fragments.
#[derive(Drop)]
pub(crate) struct Mem {
    /// What came and wasn't handed over yet.
    pub(crate) input: Buffer,
    /// What is to be written.
    pub(crate) output: Vec<u8>,
    // How many bytes of the present frame are still to be handed over.
    ahead: usize,
    // How many of them were.
    frame: usize,
    // How many bytes of fragments the reader may hold.
    fragments: usize,
    /// The most bytes of a frame that the reader was handed, and some for each read.
    pub(crate) most: usize,
    /// How many pieces may be handed over in this turn. If none, more may be there.
    pub(crate) pieces: usize,
}

impl Mem {
    pub(crate) fn new(alloc: Global) -> Mem {
        Mem {
            input: Buffer::new(alloc),
            output: Vec::new(alloc),
            ahead: 0,
            frame: 0,
            fragments: 0,
            most: 0,
            pieces: 0,
        }
    }

    /// The reader is done with a ping or a pong.
    pub(crate) fn end_control(&mut self) {
        self.frame = 0;
    }

    /// The reader is done with a message, and holds nothing.
    pub(crate) fn end_message(&mut self) {
        self.frame = 0;
        self.fragments = 0;
    }

    /// Half of the room that the reader may have, whose buffers grow to the double at most.
    pub(crate) fn reader_half(&self) -> usize
        ensures { result ≡ reader_half self.now }
    {
        self.most.saturating_add(self.fragments)
    }

    /// Whether a frame is under way. The next one begins once its head is there.
    fn has_frame(&mut self) -> bool {
        if self.ahead == 0 {
            let Some(length) = frame_length(self.input.as_slice()) else {
                return false;
            };
            self.fragments = self.fragments.saturating_add(self.frame);
            self.frame = 0;
            self.ahead = length;
        }
        true
    }

    /// So many bytes of a frame were handed over.
    fn hand_over(&mut self, count: usize) {
        self.input.leave(count);
        self.pieces = self.pieces.saturating_sub(1);
        self.ahead = self.ahead.saturating_sub(count);
        self.frame = self.frame.saturating_add(count);
        self.most = self.most.max(self.frame.saturating_add(2 * READ));
    }
}

impl Read for Mem {
    /// Would block at the end of what came, and once a turn has had its pieces.
    fn read(&mut self, piece: &mut [u8]) -> io::Result<usize> {
        if self.pieces == 0 || !self.has_frame() || self.input.is_empty() {
            return Err(io::Error::from(ErrorKind::WouldBlock));
        }
        let input = self.input.as_slice();
        let mut frame = input.get(..self.ahead).unwrap_or(input);
        let count = frame.read(piece)?;
        self.hand_over(count);
        Ok(count)
    }
}

impl Write for Mem {
    fn write(&mut self, bytes: &[u8]) -> io::Result<usize> {
        self.output.write(bytes)
    }

    fn flush(&mut self) -> io::Result<()> {
        Ok(())
    }
}

/// How many bytes the frame has that begins here, if its head is whole: RFC 6455, section 5.2.
fn frame_length(input: &[u8]) -> Option<usize> {
    let second = usize::from(*input.get(1)?);
    let (mask, small) = (second / 128 * 4, second % 128);
    let (head, mut length) = match small {
        126 => (4, 0),
        127 => (10, 0),
        _ => (2, small),
    };
    for digit in input.get(2..head)? {
        length = length
            .saturating_mul(256)
            .saturating_add(usize::from(*digit));
    }
    Some(length.saturating_add(head + mask))
}
