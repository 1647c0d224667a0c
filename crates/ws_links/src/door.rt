//! Where connections come in, and what the system tells of sockets.

use board_base::Stop;
use board_ends::Failed;
use mio::net::{TcpListener, TcpStream};
use mio::{Events, Interest, Poll, Token};
use std::alloc::Global;
use std::io::{self, ErrorKind};
use std::net::{Ipv4Addr, Net, SocketAddr};
use std::time::Duration;

/// How many sockets the system tells of at once.
const EVENTS: usize = 256;

/// What names the listener.
const LISTENER: usize = 0;

/// Errors of an accept that pass: no file descriptor and no memory of the system, no right, and
/// what happened to a connection before it was let in.
const PASSING: [i32; 16] = [
    23, 24, 12, 105, 1, 71, 92, 95, 100, 101, 103, 104, 110, 112, 113, 64,
];

/// The listener, and the set of all sockets.
#[derive(Drop)]
pub(crate) struct Door {
    poll: Poll,
    events: Events,
    listener: TcpListener,
    // Somebody may wait to be let in.
    has_callers: bool,
    // Who waits can't be let in.
    is_stuck: bool,
}

impl Door {
    /// Listens on this port of the loopback.
    pub(crate) fn new(alloc: Global, net: &impl Net, port: u16) -> Result<Door, Stop<Failed>> {
        let poll = Poll::new(net).map_err(|error| stop_of(&error))?;
        let events = Events::with_capacity(alloc, EVENTS)?;
        let listener = listen(&poll, net, port)?;
        Ok(Door {
            poll,
            events,
            listener,
            has_callers: true,
            is_stuck: false,
        })
    }

    /// Listens on this port in place of the one before.
    pub(crate) fn move_to(&mut self, net: &impl Net, port: u16) -> Result<(), Stop<Failed>> {
        self.listener = listen(&self.poll, net, port)?;
        self.has_callers = true;
        Ok(())
    }

    /// Waits until a socket is ready, as long as this at most.
    pub(crate) fn wait(&mut self, pause: Duration) -> Result<(), Stop<Failed>> {
        self.is_stuck = false;
        self.poll
            .poll(&mut self.events, Some(pause))
            .map_err(|error| stop_of(&error))?;
        for event in &self.events {
            if event.token().0 == LISTENER {
                self.has_callers = true;
            }
        }
        Ok(())
    }

    /// What the last wait told of sockets.
    pub(crate) fn events(&self) -> &Events {
        &self.events
    }

    /// Whether somebody may be let in.
    pub(crate) fn wants_turn(&self) -> bool {
        self.has_callers && !self.is_stuck
    }

    /// Lets one connection in.
    pub(crate) fn accept(&mut self) -> Result<Option<TcpStream>, Stop<Failed>> {
        match self.listener.accept() {
            Ok((socket, _)) => Ok(Some(socket)),
            Err(error) if error.kind() == ErrorKind::WouldBlock => {
                self.has_callers = false;
                Ok(None)
            }
            Err(error) if is_passing(&error) => {
                self.is_stuck = true;
                Ok(None)
            }
            Err(error) => Err(stop_of(&error)),
        }
    }

    /// Has the system tell of this socket.
    pub(crate) fn watch(&self, socket: &mut TcpStream, token: usize) -> io::Result<()> {
        self.poll.registry().register(
            socket,
            Token(token),
            Interest::READABLE | Interest::WRITABLE,
        )
    }
}

/// A listener on this port of the loopback, of which the system tells.
fn listen(poll: &Poll, net: &impl Net, port: u16) -> Result<TcpListener, Stop<Failed>> {
    let place = SocketAddr::from((Ipv4Addr::LOCALHOST, port));
    let mut listener = TcpListener::bind(net, place).map_err(|error| stop_of(&error))?;
    poll.registry()
        .register(&mut listener, Token(LISTENER), Interest::READABLE)
        .map_err(|error| stop_of(&error))?;
    Ok(listener)
}

/// Whether an accept may succeed later.
fn is_passing(error: &io::Error) -> bool {
    error.kind() == ErrorKind::Interrupted
        || error
            .raw_os_error()
            .is_some_and(|code| PASSING.contains(&code))
}

/// Want of memory is that; any other error is a fault of the links.
fn stop_of(error: &io::Error) -> Stop<Failed> {
    if error.kind() == ErrorKind::OutOfMemory {
        Stop::Memory
    } else {
        Stop::Fault(Failed)
    }
}
