//! The sockets of a room: where connections come in, the handshakes that wait, and the links.

use crate::door::Door;
use crate::members::Members;
use crate::quiet::{Quiet, seconds_between};
use crate::signal::Signal;
use crate::waiting::Waiting;
use board_base::{Bytes, Stop};
use board_ends::{Failed, LinkEvent};
use std::alloc::{AllocError, Global};
use std::net::Net;
use std::time::{Clock, Duration, Instant};

/// How many milliseconds are waited at most if nothing is ready. All that is done by the clock is done
/// to the second.
const WAIT: u64 = 1000;

/// How many times in one call what is ready is looked through: more than go into a millisecond,
/// after which it is Idle.
const ROUNDS: usize = 4096;

/// How many events are given before what is kept is written, and the system is asked what else is
/// ready.
const EVENTS: usize = 64;

/// A text of so many bytes counts as two events, one of twice as many as three.
const LONG: usize = 4096;

/// How many seconds pass between two looks at who is silent.
const LOOK: u64 = 1;

/// The sockets of a room.
pub(crate) struct Server<R> {
    handle: R,
    alloc: Global,
    // None until it listens.
    door: Option<Door>,
    waiting: Waiting,
    members: Members,
    // The last token that was given.
    token: usize,
    // Whether the last event was of a link.
    was_link: bool,
    quiet: Quiet,
    // How many events were given since the system was asked, long texts as several.
    given: usize,
    now: Option<Instant>,
    // When it was looked last at who is silent.
    looked: Option<Instant>,
}

impl<R: Net + Clock + Drop> Server<R> {
    pub(crate) fn new(alloc: Global, handle: R) -> Result<Server<R>, AllocError> {
        Ok(Server {
            handle,
            alloc,
            door: None,
            waiting: Waiting::new(alloc),
            members: Members::new(alloc)?,
            token: 0,
            was_link: false,
            quiet: Quiet::new(),
            given: EVENTS,
            now: None,
            looked: None,
        })
    }

    /// Listens on this port of the loopback.
    pub(crate) fn listen(&mut self, port: u16) -> Result<(), Stop<Failed>> {
        match &mut self.door {
            Some(door) => door.move_to(&self.handle, port),
            None => {
                self.door = Some(Door::new(self.alloc, &self.handle, port)?);
                Ok(())
            }
        }
    }

    /// The next event. Where nothing is ready it waits a while, and is Idle for each millisecond in
    /// which nothing came.
    pub(crate) fn next(&mut self) -> Result<LinkEvent, Stop<Failed>> {
        if self.quiet.tell() {
            return Ok(LinkEvent::Idle);
        }
        if self.given >= EVENTS {
            self.wait(false)?;
        }
        for _ in 0..ROUNDS {
            if let Some(event) = self.look()? {
                self.given = self.given.saturating_add(weight_of(&event));
                self.quiet = Quiet::new();
                return Ok(event);
            }
            if self.quiet.tell() {
                return Ok(LinkEvent::Idle);
            }
            self.wait(true)?;
        }
        Ok(LinkEvent::Idle)
    }

    /// Writes what is kept, and asks the system which sockets are ready. Where none is it may rest
    /// until one is.
    fn wait(&mut self, may_rest: bool) -> Result<(), Stop<Failed>> {
        self.members.flush(self.now);
        let pause = if may_rest && !self.wants_turn() {
            WAIT
        } else {
            0
        };
        let Some(door) = &mut self.door else {
            return Ok(());
        };
        self.given = 0;
        if pause > 0 {
            self.now = Instant::now(&self.handle).ok();
            self.quiet.measure(self.now);
        }
        door.wait(Duration::from_millis(pause))?;
        for event in door.events() {
            let (token, signal) = (event.token().0, Signal::of(event));
            self.waiting.wake(token, signal);
            self.members.wake(token, signal);
        }
        self.now = Instant::now(&self.handle).ok();
        self.quiet.measure(self.now);
        Ok(())
    }

    /// Whether more is ready.
    fn wants_turn(&self) -> bool {
        let has_callers = match &self.door {
            Some(door) => door.wants_turn(),
            None => false,
        };
        has_callers || self.waiting.want_turn() || self.members.want_turn()
    }

    /// The first event of what is ready. Newcomers and links come first in turn.
    fn look(&mut self) -> Result<Option<LinkEvent>, Stop<Failed>> {
        self.accept()?;
        self.tend();
        let first = self.look_at(!self.was_link)?;
        if first.is_some() {
            return Ok(first);
        }
        self.look_at(self.was_link)
    }

    /// The first event of newcomers, or of links.
    fn look_at(&mut self, newcomers: bool) -> Result<Option<LinkEvent>, Stop<Failed>> {
        let event = if newcomers {
            self.greet()?
        } else {
            self.members.serve(self.now)?
        };
        if event.is_some() {
            self.was_link = !newcomers;
        }
        Ok(event)
    }

    /// Lets one connection in to its handshake.
    fn accept(&mut self) -> Result<(), Stop<Failed>> {
        let Some(door) = &mut self.door else {
            return Ok(());
        };
        if !door.wants_turn() {
            return Ok(());
        }
        let Some(mut socket) = door.accept()? else {
            return Ok(());
        };
        self.waiting.make_room()?;
        let _ = socket.set_nodelay(true);
        self.token = self.token.saturating_add(1);
        if door.watch(&mut socket, self.token).is_ok() {
            self.waiting.add(self.token, socket, self.now)?;
        }
        Ok(())
    }

    /// Takes handshakes on, until one is whole.
    fn greet(&mut self) -> Result<Option<LinkEvent>, Stop<Failed>> {
        self.members.reserve()?;
        match self.waiting.greet(self.now)? {
            Some(greeted) => Ok(Some(self.members.open(greeted, self.now)?)),
            None => Ok(None),
        }
    }

    /// Once a second: who takes too long for a handshake is dropped, and who is silent is pinged.
    fn tend(&mut self) {
        if self.looked.is_some() && seconds_between(self.looked, self.now) < LOOK {
            return;
        }
        self.looked = self.now;
        self.waiting.drop_done(self.now);
        self.members.tend(self.now);
    }

    /// Sends a text over a link. `Fault` where the link is gone, or keeps too much; it is closed
    /// then.
    pub(crate) fn send(&mut self, number: u64, text: &Bytes) -> Result<(), Stop<Failed>> {
        self.members.send(number, text)
    }
}

/// How many events one counts as.
fn weight_of(event: &LinkEvent) -> usize {
    match event {
        LinkEvent::Text(_, text) => (text.as_slice().len() / LONG).saturating_add(1),
        LinkEvent::Opened(_) | LinkEvent::Closed(_) | LinkEvent::Idle => 1,
    }
}

impl<R: Drop> Drop for Server<R> {
    /// All links are told that the room ends.
    fn drop(self) {
        let Server {
            handle: _,
            alloc: _,
            door: _,
            waiting: _,
            mut members,
            token: _,
            was_link: _,
            quiet: _,
            given: _,
            now,
            looked: _,
        } = self;
        members.say_goodbye(now);
    }
}
