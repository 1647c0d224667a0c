//! The handshakes that wait.

use crate::greeting::{Greeted, Greeting};
use crate::signal::Signal;
use mio::net::TcpStream;
use std::alloc::{AllocError, Global};
use std::time::Instant;

/// How many handshakes may wait.
const WAITING: usize = 64;

/// The handshakes that wait.
#[derive(Drop)]
pub(crate) struct Waiting {
    alloc: Global,
    greetings: Vec<Greeting>,
    // The index of the one that is looked at first.
    turn: usize,
}

impl Waiting {
    pub(crate) fn new(alloc: Global) -> Waiting {
        Waiting {
            alloc,
            greetings: Vec::new(alloc),
            turn: 0,
        }
    }

    /// Room for one more. Where too many wait, the one that has been silent for the longest time
    /// gives way.
    pub(crate) fn make_room(&mut self) -> Result<(), AllocError> {
        if self.greetings.len() >= WAITING
            && let Some(silent) = self
                .greetings
                .iter_mut()
                .min_by_key(|greeting| greeting.rank())
        {
            silent.give_way();
            self.drop_done(None);
        }
        self.greetings.reserve(1)
    }

    /// A connection begins its handshake.
    pub(crate) fn add(
        &mut self,
        token: usize,
        socket: TcpStream,
        now: Option<Instant>,
    ) -> Result<(), AllocError> {
        Ok(
            self.greetings
                .push(Greeting::new(self.alloc, token, socket, now))?,
        )
    }

    /// The system told what the socket with this token is ready for.
    pub(crate) fn wake(&mut self, token: usize, signal: Signal) {
        if let Some(greeting) = self
            .greetings
            .iter_mut()
            .find(|greeting| greeting.token == token)
        {
            greeting.wake(signal);
        }
    }

    /// Whether a turn of a handshake may bring something.
    pub(crate) fn want_turn(&self) -> bool {
        self.greetings.iter().any(|greeting| greeting.wants_turn())
    }

    /// Takes handshakes on, beginning with the one after that looked at last, until one is whole.
    pub(crate) fn greet(&mut self, now: Option<Instant>) -> Result<Option<Greeted>, AllocError> {
        for _ in 0..self.greetings.len() {
            if self.turn >= self.greetings.len() {
                self.turn = 0;
            }
            let Some(greeting) = self.greetings.get_mut(self.turn) else {
                return Ok(None);
            };
            if let Some(count) = greeting.go_on(now)? {
                if self.turn < self.greetings.len() {
                    return Ok(Some(self.greetings.remove(self.turn).greeted(count)));
                }
                return Ok(None);
            }
            self.turn += 1;
        }
        self.drop_done(None);
        Ok(None)
    }

    /// Drops the handshakes that are over, or take too long.
    pub(crate) fn drop_done(&mut self, now: Option<Instant>) {
        self.greetings
            .retain(|greeting| !greeting.is_over() && !greeting.is_late(now));
    }
}
