//! What is counted while a room is served.

ghost use Rattle.std.specs.Prelude.{◌≡◌, ℕ, ◌<◌, ◌≤◌, ◌+◌, IsTrue, IsFalse};
ghost use Rattle.board_ends.specs.Events.{opening_of};
ghost use Rattle.room_core.specs.Serving.{end_by, step_count, idles_after};

use crate::limits::{RoomLimits, ServeEnd};
use board_ends::LinkEvent;

/// What was counted since a room is served: links opened, events stepped, and answers Idle last in
/// a row.
#[derive(Drop)]
pub struct Tally {
    pub opened: u64,
    pub stepped: u64,
    pub idles: u64,
}

impl Tally {
    /// Before the first event.
    pub fn new() -> Tally
        ensures { result ≡ record { opened = 0; stepped = 0; idles = 0 } }
    {
        Tally {
            opened: 0,
            stepped: 0,
            idles: 0,
        }
    }

    /// Counts an event that is stepped.
    pub fn count(&mut self, event: &LinkEvent, limits: &RoomLimits)
        requires opened { self.old.opened + opening_of event.now ≤ limits.now.links }
        requires stepped { self.old.stepped < limits.now.events }
        requires idles { self.old.idles < limits.now.idle }
        ensures opened { self.new.opened ≡ self.old.opened + opening_of event.now }
        ensures stepped { self.new.stepped ≡ self.old.stepped + step_count event.now }
        ensures idles { self.new.idles ≡ idles_after self.old.idles event.now }
    {
        match event {
            LinkEvent::Idle => self.idles = one_more(self.idles, limits.idle),
            LinkEvent::Opened(_) => {
                self.opened = one_more(self.opened, limits.links);
                self.stepped = one_more(self.stepped, limits.events);
                self.idles = 0;
            }
            LinkEvent::Text(..) | LinkEvent::Closed(_) => {
                self.stepped = one_more(self.stepped, limits.events);
                self.idles = 0;
            }
        }
    }

    /// What ends the room by now.
    pub fn end(&self, limits: &RoomLimits, joined: &[u64]) -> Option<ServeEnd>
        ensures { result ≡ end_by limits.now self.now.opened self.now.stepped self.now.idles
            joined.now }
    {
        if self.opened > 0 && joined.is_empty() {
            Some(ServeEnd::AllClosed)
        } else if self.stepped >= limits.events {
            Some(ServeEnd::EventsFull)
        } else if self.idles >= limits.idle {
            Some(ServeEnd::Idle)
        } else {
            None
        }
    }
}

/// One more than a count that is below its limit.
fn one_more(count: u64, limit: u64) -> u64
    requires { count < limit }
    ensures { result ≡ count + 1 }
{
    count + 1
}

/// Whether the event opens a link.
pub fn opens_link(event: &LinkEvent) -> bool
    ensures opens { IsTrue result → (link : ℕ) × (event.now ≡ LinkEvent.Opened link) }
    ensures other { IsFalse result → opening_of event.now ≡ 0 }
{
    match event {
        LinkEvent::Opened(_) => true,
        LinkEvent::Text(..) | LinkEvent::Closed(_) | LinkEvent::Idle => false,
    }
}
