//! One link, whose handshake is whole.

ghost use Rattle.std.specs.Prelude.{◌≡◌};
ghost use Rattle.ws_links.specs.inner.Held.{held_by};
ghost use Rattle.ws_links.specs.inner.Sums.{held_with};

use crate::frames::config;
use crate::greeting::Greeted;
use crate::mem::{Mem, PIECES};
use crate::outbox::Outbox;
use crate::quiet::seconds_between;
use crate::signal::{Signal, may_go_on};
use board_base::{Bytes, Stop};
use board_ends::Failed;
use mio::net::TcpStream;
use std::alloc::{AllocError, Global};
use std::io::{ErrorKind, Read};
use std::mem;
use std::net::Shutdown;
use std::rc::Rc;
use std::time::Instant;
use tungstenite::{
    Bytes as Shared, CloseCode, CloseFrame, Error, Message, NoMask, Role, Utf8Bytes, WebSocket,
};

/// How many bytes are read from a link at once.
pub(crate) const PIECE: usize = 65_536;

/// A reader that may have had room for twice this is made anew once it holds nothing.
const ROOM: usize = 65_536;

/// How many unsent bytes of one link are kept before it counts as gone.
const KEPT: usize = 128 << 20;

/// After how many seconds without a byte a link is pinged.
const SILENCE: u64 = 20;

/// How many seconds a ping has to be answered.
const ANSWER: u64 = 15;

/// How many pings in a row may stay without an answer.
const PINGS: u64 = 2;

/// How many seconds a link that was told to close is listened to, so that its peer is told.
const FAREWELL: u64 = 5;

/// How many pieces that came are thrown away where the room ends.
const LAST: usize = 64;

/// The protocol over a stream in memory.
type Reader = WebSocket<Mem, NoMask>;

/// A link: its socket, the protocol with what came, and what is to leave.
#[derive(Drop)]
pub(crate) struct Link {
    alloc: Global,
    pub(crate) number: u64,
    pub(crate) token: usize,
    socket: TcpStream,
    reader: Reader,
    // A text that was read, until its copy is made.
    text: Option<Message>,
    // Whether another whole frame may have come.
    has_more: bool,
    outbox: Outbox,
    // When a byte came last, or it began.
    heard: Option<Instant>,
    // How many pings were sent since.
    pings: u64,
    // The peer took bytes after it had taken none, which it can't do dead.
    took: bool,
    reads: bool,
    // The peer sends no more.
    ends: bool,
    is_ended: bool,
    // It was told to close, and its peer may not know.
    lingers: bool,
}

impl Link {
    pub(crate) fn new(
        alloc: Global,
        number: u64,
        greeted: Greeted,
        now: Option<Instant>,
    ) -> Result<Link, AllocError> {
        let Greeted {
            token,
            socket,
            rest,
            ends,
        } = greeted;
        let mut stream = Mem::new(alloc);
        stream.input.extend(&rest)?;
        Ok(Link {
            alloc,
            number,
            token,
            socket,
            reader: reader_of(alloc, stream),
            text: None,
            has_more: true,
            outbox: Outbox::new(alloc),
            heard: now,
            pings: 0,
            took: false,
            reads: true,
            ends,
            is_ended: false,
            lingers: false,
        })
    }

    /// The system told what the socket is ready for.
    pub(crate) fn wake(&mut self, signal: Signal) {
        self.reads = self.reads || signal.reads;
        self.ends = self.ends || signal.ends;
        if signal.writes {
            self.took = self.took || self.outbox.is_blocked();
            self.outbox.wake();
        }
    }

    /// Whether a turn may bring something.
    pub(crate) fn wants_turn(&self) -> bool {
        self.is_ended || self.has_more || self.may_read()
    }

    /// Whether something may be written.
    pub(crate) fn wants_flush(&self) -> bool {
        self.outbox.wants_turn()
    }

    /// Whether more may have come.
    pub(crate) fn reads(&self) -> bool {
        self.reads
    }

    /// Whether all that came was looked at, and the peer takes what it is sent.
    fn may_read(&self) -> bool {
        self.reads && !self.has_more && !self.is_full()
    }

    /// How many bytes of memory it holds, what came and what is to leave, each frame as if it stood
    /// here alone.
    pub(crate) fn held(&self) -> usize
        ensures { result ≡ held_by self.now }
    {
        let stream = self.reader.get_ref();
        held_with(
            stream.input.held(),
            stream.reader_half(),
            self.outbox.held(),
        )
    }

    /// How many bytes of memory it holds besides the frames, which it shares with other links.
    pub(crate) fn own(&self) -> usize {
        let stream = self.reader.get_ref();
        held_with(stream.input.held(), stream.reader_half(), self.outbox.own())
    }

    /// Whether it keeps too much that its peer doesn't take.
    pub(crate) fn is_full(&self) -> bool {
        self.outbox.held() > KEPT
    }

    /// It ends at its next turn, and holds nothing any more.
    pub(crate) fn end(&mut self) {
        self.is_ended = true;
        self.text = None;
        self.reader = reader_of(self.alloc, Mem::new(self.alloc));
        self.outbox = Outbox::new(self.alloc);
    }

    /// Gives the next text or binary message, if one is whole. `Fault` where the link ended.
    pub(crate) fn take_turn(
        &mut self,
        now: Option<Instant>,
        piece: &mut [u8],
    ) -> Result<Option<Bytes>, Stop<Failed>> {
        if self.is_ended {
            return Err(Stop::Fault(Failed));
        }
        if let Some(text) = self.next_text()? {
            return Ok(Some(text));
        }
        if self.may_read() && self.read(now, piece)? {
            return self.next_text();
        }
        Ok(None)
    }

    /// Writes what is kept, small frames put together in this piece. Where the peer takes nothing
    /// any more, what it sent before is read to its end.
    pub(crate) fn flush(&mut self, now: Option<Instant>, piece: &mut [u8]) {
        if self.took {
            self.took = false;
            self.heard = now;
            self.pings = 0;
        }
        self.outbox.flush(self.alloc, &self.socket, piece);
        if self.outbox.is_broken() {
            self.reads = true;
            self.ends = true;
        }
    }

    /// Reads once into the input, and tells whether anything came. Room is made before the bytes
    /// are taken from the socket, so that none is lost for want of memory.
    fn read(&mut self, now: Option<Instant>, piece: &mut [u8]) -> Result<bool, Stop<Failed>> {
        let input = &mut self.reader.get_mut().input;
        input.reserve(piece.len())?;
        let mut socket = &self.socket;
        match socket.read(piece) {
            Ok(0) => Err(Stop::Fault(Failed)),
            Ok(count) => {
                input.extend(&piece[..count])?;
                self.reads = self.ends || count == piece.len();
                self.heard = now;
                self.pings = 0;
                self.has_more = true;
                Ok(true)
            }
            Err(error) if may_go_on(error.kind()) && !self.outbox.is_broken() => {
                self.reads = error.kind() == ErrorKind::Interrupted;
                input.leave(0);
                Ok(false)
            }
            Err(_) => Err(Stop::Fault(Failed)),
        }
    }

    /// The next text among some of the frames that came.
    fn next_text(&mut self) -> Result<Option<Bytes>, Stop<Failed>> {
        self.reader.get_mut().pieces = PIECES;
        for _ in 0..PIECES {
            if let Some(text) = self.take_text()? {
                return Ok(Some(text));
            }
            if !self.has_more {
                return Ok(None);
            }
            self.take_message()?;
        }
        Ok(None)
    }

    /// The text that was read, copied. For want of memory it stays.
    fn take_text(&mut self) -> Result<Option<Bytes>, AllocError> {
        let bytes = match &self.text {
            Some(Message::Text(text)) => text.as_bytes().as_slice(),
            Some(Message::Binary(bytes)) => bytes.as_slice(),
            _ => return Ok(None),
        };
        let text = Bytes::from_slice(self.alloc, bytes)?;
        self.text = None;
        self.reader.get_mut().end_message();
        self.renew();
        Ok(Some(text))
    }

    /// Makes a large reader anew, which holds nothing.
    fn renew(&mut self) {
        if self.reader.get_ref().most > ROOM {
            let fresh = reader_of(self.alloc, Mem::new(self.alloc));
            let mut stream = mem::replace(&mut self.reader, fresh).into_inner();
            stream.most = 0;
            self.reader = reader_of(self.alloc, stream);
        }
    }

    /// Takes the next message, as far as it came. `Fault` where it ends the link.
    fn take_message(&mut self) -> Result<(), Stop<Failed>> {
        match self.reader.read() {
            Ok(message) => self.keep(message),
            Err(Error::Io(error)) if error.kind() == ErrorKind::WouldBlock => {
                self.has_more = self.reader.get_ref().pieces == 0;
                Ok(self.post()?)
            }
            Err(error) => Err(self.break_off(error)),
        }
    }

    /// Keeps a text, and is done with any other message. A close was answered, and ends the link.
    fn keep(&mut self, message: Message) -> Result<(), Stop<Failed>> {
        match message {
            Message::Text(_) | Message::Binary(_) => {
                self.text = Some(message);
                Ok(())
            }
            Message::Ping(_) | Message::Pong(_) => {
                self.reader.get_mut().end_control();
                Ok(self.post()?)
            }
            Message::Close(_) => {
                let _ = self.post();
                self.part();
                Err(Stop::Fault(Failed))
            }
        }
    }

    /// What the protocol writes joins the replies. For want of memory it stays.
    fn post(&mut self) -> Result<(), AllocError> {
        let _ = self.reader.flush();
        let stream = self.reader.get_mut();
        self.outbox.reply(&stream.output)?;
        stream.output = Vec::new(self.alloc);
        Ok(())
    }

    /// Tells the peer of its breach, and ends. Without memory for a message it just ends.
    fn break_off(&mut self, error: Error) -> Stop<Failed> {
        let code = match error {
            Error::Protocol(_) => CloseCode::Protocol,
            Error::Utf8 => CloseCode::Invalid,
            Error::Capacity(_) => CloseCode::Size,
            Error::Io(_) => return Stop::Memory,
            Error::OutOfMemory => {
                self.end();
                return Stop::Memory;
            }
            _ => return Stop::Fault(Failed),
        };
        self.say_goodbye(code);
        self.part();
        Stop::Fault(Failed)
    }

    /// Ends, and listens for a while, so that the peer gets what it was told last: a socket that is
    /// closed with bytes that weren't read takes it back.
    fn part(&mut self) {
        self.flush(self.heard, &mut []);
        self.end();
        let _ = self.socket.shutdown(Shutdown::Write);
        self.lingers = true;
    }

    /// Sends a close, as far as the socket takes it at once.
    pub(crate) fn say_goodbye(&mut self, code: CloseCode) {
        if self.is_ended {
            return;
        }
        self.flush(self.heard, &mut []);
        let reason = Utf8Bytes::new();
        let _ = self.reader.close(Some(CloseFrame { code, reason }));
        let _ = self.post();
        self.flush(self.heard, &mut []);
    }

    /// Ends as the room does: what has come is thrown away, so that the peer gets the close.
    pub(crate) fn hang_up(&mut self, now: Option<Instant>, piece: &mut [u8]) {
        self.part();
        self.reads = true;
        for _ in 0..LAST {
            if self.reads && self.lingers {
                self.drain(now, piece);
            }
        }
    }

    /// Whether its peer may not have got what it was told last.
    pub(crate) fn lingers(&self) -> bool {
        self.lingers
    }

    /// What a link that was told to close still gets is thrown away.
    pub(crate) fn drain(&mut self, now: Option<Instant>, piece: &mut [u8]) {
        if self.reads {
            let mut socket = &self.socket;
            match socket.read(piece) {
                Ok(0) => self.lingers = false,
                Ok(_) => {}
                Err(error) if may_go_on(error.kind()) => {
                    self.reads = error.kind() == ErrorKind::Interrupted;
                }
                Err(_) => self.lingers = false,
            }
        }
        if seconds_between(self.heard, now) >= FAREWELL {
            self.lingers = false;
        }
    }

    /// Pings a silent peer, and ends where it doesn't answer.
    pub(crate) fn tend(&mut self, now: Option<Instant>) {
        let patience = self.pings.saturating_mul(ANSWER).saturating_add(SILENCE);
        if seconds_between(self.heard, now) < patience {
            return;
        }
        if self.pings >= PINGS {
            self.end();
        } else if self.ping().is_ok() {
            self.pings = self.pings.saturating_add(1);
        }
    }

    fn ping(&mut self) -> Result<(), AllocError> {
        match self.reader.send(Message::Ping(Shared::new())) {
            Ok(()) => self.post(),
            Err(_) => Err(AllocError),
        }
    }

    /// Keeps the frame until what is kept is written, which is at once where that is much. For want
    /// of memory nothing is kept of it. `Fault` where the link ended.
    pub(crate) fn send(&mut self, frame: Rc<Vec<u8>>) -> Result<(), Stop<Failed>> {
        if self.is_ended || self.is_full() || !self.reader.can_write() {
            return Err(Stop::Fault(Failed));
        }
        if !self.outbox.is_broken() {
            self.outbox.add(frame)?;
            if self.outbox.held() > PIECE {
                self.flush(self.heard, &mut []);
            }
        }
        Ok(())
    }
}

/// The protocol of a server over this stream.
fn reader_of(alloc: Global, stream: Mem) -> Reader {
    WebSocket::from_raw_socket(alloc, stream, NoMask, Role::Server, Some(config()))
}

/// How many bytes are held: what came, twice the half of the reader, and what is to leave.
fn held_with(input: usize, half: usize, outbox: usize) -> usize
    ensures { result ≡ held_with input half outbox }
{
    input
        .saturating_add(half)
        .saturating_add(half)
        .saturating_add(outbox)
}
