//! A handshake that isn't whole yet.

use crate::handshake::{Answer, UNAVAILABLE, answer_to};
use crate::quiet::seconds_between;
use crate::signal::{Signal, may_go_on};
use mio::net::TcpStream;
use std::alloc::{AllocError, Global};
use std::io::{ErrorKind, Read, Write};
use std::net::Shutdown;
use std::time::Instant;

/// How many seconds a handshake may take.
const PATIENCE: u64 = 10;

/// How many bytes are read at once.
const PIECE: usize = 4096;

/// A connection whose handshake isn't whole.
#[derive(Drop)]
pub(crate) struct Greeting {
    alloc: Global,
    pub(crate) token: usize,
    socket: TcpStream,
    head: Vec<u8>,
    since: Option<Instant>,
    // When a byte came last, or it began.
    heard: Option<Instant>,
    reads: bool,
    ends: bool,
    // It was refused, and its peer may not know.
    lingers: bool,
    is_over: bool,
}

/// A connection whose handshake is whole.
#[derive(Drop)]
pub(crate) struct Greeted {
    pub(crate) token: usize,
    pub(crate) socket: TcpStream,
    /// What came behind the handshake.
    pub(crate) rest: Vec<u8>,
    /// The peer sends no more.
    pub(crate) ends: bool,
}

impl Greeting {
    pub(crate) fn new(
        alloc: Global,
        token: usize,
        socket: TcpStream,
        now: Option<Instant>,
    ) -> Greeting {
        Greeting {
            alloc,
            token,
            socket,
            head: Vec::new(alloc),
            since: now,
            heard: now,
            reads: true,
            ends: false,
            lingers: false,
            is_over: false,
        }
    }

    /// The system told what the socket is ready for.
    pub(crate) fn wake(&mut self, signal: Signal) {
        self.reads = self.reads || signal.reads;
        self.ends = self.ends || signal.ends;
    }

    /// Whether there may be something to read.
    pub(crate) fn wants_turn(&self) -> bool {
        self.reads || self.is_over
    }

    /// Whether it has failed or was refused.
    pub(crate) fn is_over(&self) -> bool {
        self.is_over
    }

    /// Whether it takes too long.
    pub(crate) fn is_late(&self, now: Option<Instant>) -> bool {
        seconds_between(self.since, now) >= PATIENCE
    }

    /// When a byte came last, and never where it was refused: who is the first here gives way
    /// first.
    pub(crate) fn rank(&self) -> Option<Instant> {
        if self.lingers { None } else { self.heard }
    }

    /// It gives way to another.
    pub(crate) fn give_way(&mut self) {
        if !self.lingers {
            self.refuse(UNAVAILABLE);
        }
        self.is_over = true;
    }

    /// Answers so, and listens for a while, so that the peer gets the answer: a socket that is
    /// closed with bytes that weren't read takes it back.
    fn refuse(&mut self, reply: &[u8]) {
        let mut socket = &self.socket;
        let _ = socket.write(reply);
        let _ = self.socket.shutdown(Shutdown::Write);
        self.head = Vec::new(self.alloc);
        self.lingers = true;
    }

    /// Reads once, and tells whether the handshake is whole by then: how many bytes it has.
    pub(crate) fn go_on(&mut self, now: Option<Instant>) -> Result<Option<usize>, AllocError> {
        if self.is_over || !self.reads || !self.read(now)? {
            return Ok(None);
        }
        match answer_to(self.alloc, &self.head)? {
            Answer::Wait => Ok(None),
            Answer::Welcome(reply, count) => {
                let mut socket = &self.socket;
                if socket.write(&reply).is_ok_and(|sent| sent == reply.len()) {
                    return Ok(Some(count));
                }
                self.is_over = true;
                Ok(None)
            }
            Answer::Refuse(reply) => {
                self.refuse(reply);
                Ok(None)
            }
        }
    }

    /// Reads once, and tells whether anything came.
    fn read(&mut self, now: Option<Instant>) -> Result<bool, AllocError> {
        let mut piece = [0; PIECE];
        if !self.lingers {
            self.head.reserve(PIECE)?;
        }
        let mut socket = &self.socket;
        match socket.read(&mut piece) {
            Ok(0) => self.is_over = true,
            Ok(_) if self.lingers => {}
            Ok(count) => {
                self.head.extend_from_slice(&piece[..count])?;
                self.heard = now;
                return Ok(true);
            }
            Err(error) if may_go_on(error.kind()) => {
                self.reads = error.kind() == ErrorKind::Interrupted;
            }
            Err(_) => self.is_over = true,
        }
        Ok(false)
    }

    /// The connection, behind a handshake of so many bytes.
    pub(crate) fn greeted(self, count: usize) -> Greeted {
        let Greeting {
            alloc: _,
            token,
            socket,
            head,
            since: _,
            heard: _,
            reads: _,
            ends,
            lingers: _,
            is_over: _,
        } = self;
        let mut rest = head;
        rest.drain(..count.min(rest.len()));
        Greeted {
            token,
            socket,
            rest,
            ends,
        }
    }
}
