//! The texts of a session are taken, one after the other.

ghost use Rattle.std.specs.Prelude.{◌≡◌, ◌≢◌, ◌+◌, ◌≤◌, [], ◌∷◌, ◌++◌, false, is_none, None, Ok, Err, IfSome, OnOk, OnErr};
ghost use Rattle.json_reader.specs.declared.fault.JsonFault.{JsonFault};
ghost use Rattle.session_text.specs.Events.{EventText};
ghost use Rattle.session_text.specs.Facts.{IsSession};
ghost use Rattle.session_text.specs.Sessions as sessions;
ghost use Rattle.session_text.specs.Taken as taken;
ghost use Rattle.session_text.specs.Taken.{TakesText, IsNextFault, texts_in};
ghost use Rattle.session_text.specs.declared.event.Event.{Event};
ghost use Rattle.session_text.specs.declared.fault.TextFault.{TextFault};

use crate::event::Event;
use crate::fault::TextFault;
use crate::happening::read_event;
use crate::header::{Header, read_header};
use crate::session::Session;
use board_base::{List, Stop};
use json_text::Raw;
use std::alloc::Global;
use std::marker::Model;

/// The greatest number of events.
const MOST_EVENTS: usize = 250_000;

/// A session whose texts come one after the other: that of the header, and then those of the
/// events. Contracts see the session so far, or nothing before the header.
///
/// What a text costs doesn't depend on how many came before it.
#[derive(Drop)]
pub struct SessionFeed {
    head: Option<Header>,
    events: Vec<Event>,
    made: u64,
}

impl Model for SessionFeed {
    ghost use Rattle.std.specs.Prelude.{Option};
    ghost use Rattle.session_text.specs.Taken.{session_so_far, IsFeed};
    ghost use Rattle.session_text.specs.declared.session.Session.{Session};

    ghost Value = { Option Session };

    ghost view = { λ f. session_so_far f.head f.events.items };

    ghost invariant = { λ f. IsFeed f.head f.events.items f.made };
}

impl SessionFeed {
    /// Before the header. It takes no memory.
    pub fn new(alloc: Global) -> SessionFeed
        ensures { result ≡ None }
    {
        SessionFeed {
            head: None,
            events: Vec::new(alloc),
            made: 0,
        }
    }

    /// Takes the next text: the header's, or that of the next event. A text with a fault is refused
    /// for its first one, in the order of its members. What was taken stays then, and for want of
    /// memory.
    pub fn take(&mut self, alloc: Global, text: &Raw) -> Result<(), Stop<TextFault>>
        requires { taken.is_full self.old ≡ false }
        ensures taken { OnOk result (TakesText self.old text.now self.new) }
        ensures fault { (fault : TextFault) → result ≡ Err (Stop.Fault fault)
            → IsNextFault self.old text.now fault }
        ensures json { (fault : JsonFault) → result ≢ Err (Stop.Fault (TextFault.Json fault)) }
        ensures err { OnErr result (self.new ≡ self.old) }
    {
        let replicas = match &self.head {
            Some(head) => head.replicas,
            None => {
                self.head = Some(read_header(alloc, text)?);
                return Ok(());
            }
        };
        take_event(alloc, text, replicas, &mut self.events, &mut self.made)
    }

    /// Whether no further event may come.
    pub fn is_full(&self) -> bool
        ensures { result ≡ taken.is_full self.now }
    {
        self.events.len() == MOST_EVENTS
    }

    /// Whether no text was taken.
    pub fn is_empty(&self) -> bool
        ensures { result ≡ is_none self.now }
    {
        self.head.is_none()
    }

    /// How many texts were taken, that of the header among them.
    pub fn texts(&self) -> u64
        ensures { result ≡ texts_in self.now }
    {
        match &self.head {
            Some(_) => self.events.len() as u64 + 1,
            None => 0,
        }
    }

    /// The session, if its header was taken. It takes no memory.
    pub fn finish(self) -> Option<Session>
        ensures session { result ≡ self }
        ensures kept { IfSome result IsSession }
    {
        let SessionFeed {
            head,
            events,
            made: _made,
        } = self;
        let Header {
            replicas,
            seed,
            scene,
        } = head?;
        Some(Session {
            replicas,
            seed,
            scene,
            events: List::from_vec(events),
        })
    }
}

/// Takes the text of an event behind others, by which so many messages were made.
fn take_event(
    alloc: Global,
    text: &Raw,
    replicas: u64,
    events: &mut Vec<Event>,
    made: &mut u64,
) -> Result<(), Stop<TextFault>>
    requires { made.old ≤ MOST_EVENTS }
    ensures taken { OnOk result ((event : Event) × EventText replicas made.old text.now (Ok event)
        × (events.new.items ≡ events.old.items ++ event ∷ [])
        × (made.new ≡ made.old + sessions.messages_of event)) }
    ensures fault { (fault : TextFault) → result ≡ Err (Stop.Fault fault)
        → EventText replicas made.old text.now (Err fault) }
    ensures events { OnErr result (events.new.items ≡ events.old.items) }
    ensures made { OnErr result (made.new ≡ made.old) }
{
    let event = read_event(alloc, text, replicas, *made)?;
    let messages = messages_of(&event);
    events.push(event)?;
    *made += messages;
    Ok(())
}

/// How many messages the event makes.
fn messages_of(event: &Event) -> u64
    ensures { result ≡ sessions.messages_of event.now }
{
    match event {
        Event::Change { .. } | Event::Update { .. } | Event::Undo { .. } | Event::Redo { .. } => 1,
        Event::Deliver { .. } | Event::Hold { .. } | Event::Release { .. } => 0,
    }
}
