//! Texts as frames.

ghost use Rattle.std.specs.Prelude.{◌≡◌, drop, IsTrue, IfOk};
ghost use Rattle.tungstenite.specs.Socket.{content_of};
ghost use Rattle.ws_links.specs.inner.Texts.{content_of_text, frame_of_text};

use crate::mem::READ;
use board_base::Stop;
use board_ends::Failed;
use std::alloc::{AllocError, Global};
use std::rc::Rc;
use tungstenite::{Duplex, Error, Message, NoMask, Role, WebSocket, WebSocketConfig};

/// How many bytes the head of a frame has at most.
const HEAD: usize = 14;

/// How many bytes of memory a frame takes besides its own.
pub(crate) const PLACE: usize = 64;

/// How many bytes of frames that may have left are looked through at least.
const SOME: usize = 1 << 20;

/// Makes frames of texts, and keeps them until they have left over each link.
#[derive(Drop)]
pub(crate) struct Frames {
    alloc: Global,
    // In the order in which they were made. A text goes to many links in a row, so that its frame
    // is the last one.
    made: Vec<Frame>,
    // How many bytes of memory they hold.
    held: usize,
    // How many were held after it was looked last which have left.
    kept: usize,
}

/// A frame: its head, and then its text.
#[derive(Drop)]
struct Frame {
    bytes: Rc<Vec<u8>>,
    head: usize,
    ghost whole: { bytes.value.items ≡ frame_of_text (drop head bytes.value.items) },
}

/// What frames and messages may be.
pub(crate) fn config() -> WebSocketConfig {
    WebSocketConfig::default()
        .max_frame_size(Some(64 << 20))
        .max_message_size(Some(64 << 20))
        .read_buffer_size(READ)
}

impl Frames {
    pub(crate) fn new(alloc: Global) -> Frames {
        Frames {
            alloc,
            made: Vec::new(alloc),
            held: 0,
            kept: 0,
        }
    }

    /// How many bytes of memory they hold, each once.
    pub(crate) fn held(&self) -> usize {
        self.held
    }

    /// A text frame of these bytes, or a binary one where they aren't UTF-8.
    pub(crate) fn frame_of(&mut self, text: &[u8]) -> Result<Rc<Vec<u8>>, Stop<Failed>>
        ensures { IfOk result (λ frame. frame.value.items ≡ frame_of_text text.now) }
    {
        if let Some(last) = self.made.last()
            && last.is_of(text)
        {
            return Ok(last.bytes.clone()?);
        }
        if self.held / 2 > self.kept.saturating_add(SOME) {
            self.sweep();
        }
        let frame = make_frame(self.alloc, text)?;
        let bytes = frame.bytes.clone()?;
        let space = space_of(&bytes);
        self.made.push(frame)?;
        self.held = self.held.saturating_add(space);
        Ok(bytes)
    }

    /// Lets go of the frames that have left over each link.
    pub(crate) fn sweep(&mut self) {
        self.made.retain(|frame| Rc::strong_count(&frame.bytes) > 1);
        let mut held: usize = 0;
        for frame in &self.made {
            held = held.saturating_add(space_of(&frame.bytes));
        }
        self.held = held;
        self.kept = held;
    }
}

impl Frame {
    /// Whether this text stands in it.
    fn is_of(&self, text: &[u8]) -> bool
        ensures { IsTrue result → self.now.bytes.value.items ≡ frame_of_text text.now }
    {
        are_same(rest_of(&self.bytes, self.head), text)
    }
}

/// The bytes of a frame but the first so many.
pub(crate) fn rest_of(frame: &Rc<Vec<u8>>, left: usize) -> &[u8]
    ensures { result.now ≡ drop left frame.now.value.items }
{
    match frame.get(left..) {
        Some(rest) => rest,
        None => &[],
    }
}

/// Whether these are the same bytes.
fn are_same(left: &[u8], right: &[u8]) -> bool
    ensures { IsTrue result → left.now ≡ right.now }
{
    left == right
}

/// How many bytes of memory a frame takes.
pub(crate) fn space_of(frame: &Rc<Vec<u8>>) -> usize {
    frame.capacity().saturating_add(PLACE)
}

/// The frame of a text.
fn make_frame(alloc: Global, text: &[u8]) -> Result<Frame, Stop<Failed>>
    ensures { IfOk result (λ frame. frame.bytes.value.items ≡ frame_of_text text.now) }
{
    let bytes = framed(alloc, text)?;
    let head = bytes.len().saturating_sub(text.len());
    Ok(Frame {
        bytes: Rc::new(alloc, bytes)?,
        head,
    })
}

/// The bytes of the frame of a text.
fn framed(alloc: Global, text: &[u8]) -> Result<Vec<u8>, Stop<Failed>>
    ensures { IfOk result (λ bytes. bytes.items ≡ frame_of_text text.now) }
{
    let message = message_of(alloc, text)?;
    let stream = Duplex {
        reader: [].as_slice(),
        writer: Vec::with_capacity(alloc, text.len().saturating_add(HEAD))?,
    };
    let mut socket = WebSocket::from_raw_socket(
        alloc,
        stream,
        NoMask,
        Role::Server,
        Some(config()),
    );
    match socket.send(message) {
        Ok(()) => Ok(socket.into_inner().writer),
        Err(Error::OutOfMemory | Error::Io(_)) => Err(Stop::Memory),
        Err(_) => Err(Stop::Fault(Failed)),
    }
}

/// The message that carries a text.
fn message_of(alloc: Global, text: &[u8]) -> Result<Message, AllocError>
    ensures { IfOk result (λ message. content_of message ≡ content_of_text text.now) }
{
    match str::from_utf8(text) {
        Ok(text) => Message::text(alloc, text),
        Err(_) => Message::binary(alloc, text),
    }
}
