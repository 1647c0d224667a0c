//! The links of a room.

ghost use Rattle.std.specs.Prelude.{IfSome};
ghost use Rattle.ws_links.specs.inner.Held.{HoldsMost};

use crate::frames::{Frames, PLACE};
use crate::greeting::Greeted;
use crate::link::{Link, PIECE};
use crate::signal::Signal;
use board_base::{Bytes, Stop};
use board_ends::{Failed, LinkEvent};
use std::alloc::{AllocError, Global};
use std::time::Instant;
use tungstenite::CloseCode;

/// How many bytes of memory all links hold at most, what came and what is to leave.
const HELD: usize = 1 << 30;

/// How many bytes of memory one turn of a link takes at most: the room for what came, and for a
/// message of fragments, may double.
const GROWTH: usize = 256 << 20;

/// How many bytes the longest text has for which there is ever room.
const LONGEST: usize = HELD - GROWTH;

/// How many links that were broken off are listened to.
const LEAVERS: usize = 64;

/// The links of a room.
#[derive(Drop)]
pub(crate) struct Members {
    alloc: Global,
    // Where bytes are read into.
    piece: Vec<u8>,
    // In the order of their numbers.
    links: Vec<Link>,
    // Links that were broken off, the oldest first.
    leavers: Vec<Link>,
    opened: u64,
    // The index of the link that is looked at first.
    turn: usize,
    // How many bytes of memory all links hold at most, besides the frames.
    own: usize,
    frames: Frames,
}

impl Members {
    pub(crate) fn new(alloc: Global) -> Result<Members, AllocError> {
        Ok(Members {
            alloc,
            piece: vec![in alloc; 0; PIECE]?,
            links: Vec::new(alloc),
            leavers: Vec::new(alloc),
            opened: 0,
            turn: 0,
            own: 0,
            frames: Frames::new(alloc),
        })
    }

    /// Room for one link more.
    pub(crate) fn reserve(&mut self) -> Result<(), AllocError> {
        self.links.reserve(1)
    }

    /// A link is opened.
    pub(crate) fn open(
        &mut self,
        greeted: Greeted,
        now: Option<Instant>,
    ) -> Result<LinkEvent, AllocError> {
        let number = self.opened;
        self.links
            .push(Link::new(self.alloc, number, greeted, now)?)?;
        self.opened = number.saturating_add(1);
        Ok(LinkEvent::Opened(number))
    }

    /// The system told what the socket with this token is ready for.
    pub(crate) fn wake(&mut self, token: usize, signal: Signal) {
        if let Some(link) = self
            .links
            .iter_mut()
            .chain(self.leavers.iter_mut())
            .find(|link| link.token == token)
        {
            link.wake(signal);
        }
    }

    /// Whether a turn of a link may bring something.
    pub(crate) fn want_turn(&self) -> bool {
        self.links
            .iter()
            .any(|link| link.wants_turn() || link.wants_flush())
            || self.leavers.iter().any(|link| link.reads())
    }

    /// Writes what is kept for each link.
    pub(crate) fn flush(&mut self, now: Option<Instant>) {
        for link in &mut self.links {
            if link.wants_flush() {
                link.flush(now, &mut self.piece);
            }
        }
    }

    /// Reads once from each link that is ready, until one has an event: beginning with the link
    /// after the one served last. Where none is ready nothing is counted.
    pub(crate) fn serve(
        &mut self,
        now: Option<Instant>,
    ) -> Result<Option<LinkEvent>, Stop<Failed>> {
        if !self.want_turn() {
            return Ok(None);
        }
        self.drain(now);
        self.own = self.links_own();
        for _ in 0..self.links.len() {
            self.relieve(GROWTH);
            if self.turn >= self.links.len() {
                self.turn = 0;
            }
            let Some(link) = self.links.get_mut(self.turn) else {
                return Ok(None);
            };
            self.turn += 1;
            if !link.wants_turn() {
                continue;
            }
            let outcome = link.take_turn(now, &mut self.piece);
            let number = link.number;
            self.own = self.own.saturating_add(link.own());
            match outcome {
                Ok(None) => {}
                Ok(Some(text)) => return Ok(Some(LinkEvent::Text(number, text))),
                Err(Stop::Fault(Failed)) => {
                    self.close(number);
                    return Ok(Some(LinkEvent::Closed(number)));
                }
                Err(Stop::Memory) => return Err(Stop::Memory),
            }
        }
        Ok(None)
    }

    /// Sends a text over a link. `Fault` if the link is gone, if it keeps too much, or if there is
    /// never room for the text. The link is closed then.
    pub(crate) fn send(&mut self, number: u64, text: &Bytes) -> Result<(), Stop<Failed>> {
        if text.as_slice().len() > LONGEST {
            self.close(number);
            return Err(Stop::Fault(Failed));
        }
        self.relieve(text.as_slice().len().saturating_add(GROWTH));
        let frame = self.frames.frame_of(text.as_slice())?;
        self.own = self.own.saturating_add(PLACE);
        let Ok(at) = self.links.binary_search_by_key(&number, |link| link.number) else {
            return Err(Stop::Fault(Failed));
        };
        let Some(link) = self.links.get_mut(at) else {
            return Err(Stop::Fault(Failed));
        };
        let sent = link.send(frame);
        if let Err(Stop::Fault(Failed)) = sent {
            self.close(number);
        }
        sent
    }

    /// Closes a link. One that was broken off is listened to for a while.
    fn close(&mut self, number: u64) {
        let Some(at) = self.links.iter().position(|link| link.number == number) else {
            return;
        };
        if at >= self.links.len() {
            return;
        }
        let link = self.links.remove(at);
        if at < self.turn {
            self.turn -= 1;
        }
        if link.lingers() && self.leavers.len() < LEAVERS {
            let _ = self.leavers.push(link);
        }
    }

    /// Pings the silent, and ends those that don't answer.
    pub(crate) fn tend(&mut self, now: Option<Instant>) {
        for link in &mut self.links {
            link.tend(now);
        }
        self.frames.sweep();
        self.drain(now);
    }

    /// Reads from those that were broken off, and is done with those that took the reason.
    fn drain(&mut self, now: Option<Instant>) {
        for link in &mut self.leavers {
            link.drain(now, &mut self.piece);
        }
        self.leavers.retain(|link| link.lingers());
    }

    /// Ends the links that hold most, until so many bytes more may be held.
    fn relieve(&mut self, more: usize) {
        for _ in 0..self.links.len() {
            if self.has_room(more) {
                return;
            }
            self.frames.sweep();
            self.own = self.links_own();
            if self.has_room(more) {
                return;
            }
            if let Some(most) = index_of_most(&self.links)
                && let Some(link) = self.links.get_mut(most)
            {
                link.end();
            }
        }
        self.frames.sweep();
        self.own = self.links_own();
    }

    /// Whether so many bytes more may be held.
    fn has_room(&self, more: usize) -> bool {
        let held = self.own.saturating_add(self.frames.held());
        held.saturating_add(more) <= HELD
    }

    fn links_own(&self) -> usize {
        let mut own: usize = 0;
        for link in &self.links {
            own = own.saturating_add(link.own());
        }
        own
    }

    /// Tells all links that the room ends.
    pub(crate) fn say_goodbye(&mut self, now: Option<Instant>) {
        for link in &mut self.links {
            link.say_goodbye(CloseCode::Away);
        }
        for link in &mut self.links {
            link.hang_up(now, &mut self.piece);
        }
    }
}

/// The index of the link that holds most.
fn index_of_most(links: &[Link]) -> Option<usize>
    ensures { IfSome result (HoldsMost links.now) }
{
    let mut most = 0;
    for at in 0..links.len() {
        if links[at].held() > links[most].held() {
            most = at;
        }
    }
    if links.is_empty() { None } else { Some(most) }
}
