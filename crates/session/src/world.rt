//! The replicas of a session, and the messages between them.

ghost use Rattle.std.specs.Prelude.{◌≡◌, ◌+◌, ◌*◌, ◌^◌, ◌<◌, ◌≤◌, [], ◌∷◌, ◌++◌, IfOk, OnOk, replicate, vec_len};
ghost use Rattle.elem.specs.Facts.{greatest_whole};
ghost use Rattle.board_commands.specs.Limits.{IsWithinLimits};
ghost use Rattle.session_text.specs.Facts.{IsAmong, IsEventWithinLimits};
ghost use Rattle.session.specs.inner.Standing.{IsWorldAfter, IsNoted, SeatsStandFor, WorldStandsFor};
ghost use Rattle.session_random.specs.Words.{next_generator, next_word};
ghost use Rattle.session.specs.Worlds.{after_event, after_turn_at, delivered, fresh, given_of, opened, opening_elements, with_refused};

use crate::outcome::Outcome;
use crate::picking::all_picked;
use crate::report::RefusedEvent;
use crate::seat::Seat;
use board_base::List;
use board_commands::{Capture, Command};
use elem::{Element, Stamp};
use history::Direction;
use json_text::Text;
use rand_pcg::Pcg32;
use session_random::{draw_word, generator_of};
use session_text::{Event, Pick, Session};
use std::alloc::{AllocError, Global};

/// The replicas in their order, the messages that were made, what the nonces are drawn from, how
/// many events there were, and those that were refused.
#[derive(Drop)]
pub(crate) struct World {
    pub(crate) seats: Vec<Seat>,
    pub(crate) messages: Vec<List<Element>>,
    pub(crate) generator: Pcg32,
    pub(crate) events: u64,
    pub(crate) refused: Vec<RefusedEvent>,
}

impl World {
    /// Before the first event of a session.
    pub(crate) fn opened(alloc: Global, session: &Session) -> Result<World, AllocError>
        ensures world { IfOk result (λ world. WorldStandsFor world (opened session.now)) }
        ensures seats { IfOk result (λ world. vec_len world.seats ≡ session.now.replicas) }
        ensures events { IfOk result (λ world. world.events ≡ 0) }
    {
        Ok(World {
            seats: seats_of(alloc, session.replicas, opening_elements(session))?,
            messages: Vec::new(alloc),
            generator: generator_of(session.seed),
            events: 0,
            refused: Vec::new(alloc),
        })
    }

    /// Lets an event happen.
    pub(crate) fn step(&mut self, event: &Event) -> Result<(), AllocError>
        requires replicas { vec_len self.old.seats ≤ 64 }
        requires room { self.old.events + 1 < 2 ^ 64 }
        requires among { IsAmong (vec_len self.old.seats) event.now }
        requires within { IsEventWithinLimits event.now }
        ensures { OnOk result (IsWorldAfter self.old (after_event event.now) self.new) }
    {
        match event {
            Event::Change {
                at,
                time,
                capture,
                command,
            } => self.change(*at, *time, *capture, command),
            Event::Update { elements } => self.update(elements),
            Event::Deliver { to, picks } => self.deliver(*to, picks),
            Event::Hold { at, id } => self.hold(*at, id),
            Event::Release { at, id } => self.release(*at, id),
            Event::Undo { at, time } => self.turn(Direction::Undo, *at, *time),
            Event::Redo { at, time } => self.turn(Direction::Redo, *at, *time),
        }
    }

    /// A command of a user.
    fn change(
        &mut self,
        at: u64,
        time: u64,
        capture: Capture,
        command: &Command,
    ) -> Result<(), AllocError>
        requires at { at < vec_len self.old.seats }
        requires replicas { vec_len self.old.seats ≤ 64 }
        requires room { self.old.events + 1 < 2 ^ 64 }
        requires time { time ≤ greatest_whole }
        requires limits { IsWithinLimits command.now }
        ensures { OnOk result
            (IsWorldAfter self.old
            (after_event (Event.Change at time capture command.now)) self.new) }
    {
        let nonce = draw(&mut self.generator, at);
        let seat = &mut self.seats[at as usize];
        let outcome = seat.change(command, capture, Stamp { time, nonce })?;
        self.note(outcome)?;
        Ok(())
    }

    /// A user undoes, or redoes, a step.
    fn turn(&mut self, direction: Direction, at: u64, time: u64) -> Result<(), AllocError>
        requires at { at < vec_len self.old.seats }
        requires replicas { vec_len self.old.seats ≤ 64 }
        requires room { self.old.events + 1 < 2 ^ 64 }
        requires time { time ≤ greatest_whole }
        ensures { OnOk result (IsWorldAfter self.old (after_turn_at direction at time) self.new) }
    {
        let nonce = draw(&mut self.generator, at);
        let seat = &mut self.seats[at as usize];
        let outcome = seat.turn(direction, Stamp { time, nonce })?;
        self.note(outcome)?;
        Ok(())
    }

    /// Notes what came of a change, an undo or a redo: the message, and the refusal, if it is one.
    fn note(&mut self, outcome: Outcome) -> Result<(), AllocError>
        requires { self.old.events + 1 < 2 ^ 64 }
        ensures { OnOk result (IsNoted self.old outcome self.new) }
    {
        let event = self.events;
        note_outcome(&mut self.messages, &mut self.refused, event, outcome)?;
        self.events = event + 1;
        Ok(())
    }

    /// Elements from elsewhere are a message.
    fn update(&mut self, elements: &List<Element>) -> Result<(), AllocError>
        requires { self.old.events + 1 < 2 ^ 64 }
        ensures { OnOk result
            (IsWorldAfter self.old (after_event (Event.Update elements.now)) self.new) }
    {
        self.messages
            .push(elements.try_clone_with(Element::try_clone)?)?;
        self.events += 1;
        Ok(())
    }

    /// What is picked of messages comes to a replica.
    fn deliver(&mut self, to: u64, picks: &List<Pick>) -> Result<(), AllocError>
        requires to { to < vec_len self.old.seats }
        requires room { self.old.events + 1 < 2 ^ 64 }
        ensures { OnOk result
            (IsWorldAfter self.old (after_event (Event.Deliver to picks.now)) self.new) }
    {
        let alloc = *self.messages.allocator();
        let list = all_picked(alloc, &self.messages, picks.as_slice())?;
        let seat = &mut self.seats[to as usize];
        seat.deliver(list.as_slice())?;
        self.events += 1;
        Ok(())
    }

    /// A replica takes no updates of an id from now on.
    fn hold(&mut self, at: u64, id: &Text) -> Result<(), AllocError>
        requires at { at < vec_len self.old.seats }
        requires room { self.old.events + 1 < 2 ^ 64 }
        ensures { OnOk result
            (IsWorldAfter self.old (after_event (Event.Hold at id.now)) self.new) }
    {
        let seat = &mut self.seats[at as usize];
        seat.hold(id)?;
        self.events += 1;
        Ok(())
    }

    /// A replica takes updates of an id again.
    fn release(&mut self, at: u64, id: &Text) -> Result<(), AllocError>
        requires at { at < vec_len self.old.seats }
        requires room { self.old.events + 1 < 2 ^ 64 }
        ensures { OnOk result
            (IsWorldAfter self.old (after_event (Event.Release at id.now)) self.new) }
    {
        let seat = &mut self.seats[at as usize];
        seat.release(id);
        self.events += 1;
        Ok(())
    }
}

/// The nonce of the next change, undo or redo at a replica: a word is drawn, and the last six bits
/// are the replica's number.
fn draw(generator: &mut Pcg32, at: u64) -> u64
    requires { at < 64 }
    ensures nonce { result ≡ 64 * next_word generator.old + at }
    ensures drawn { generator.new ≡ next_generator generator.old }
    ensures limit { result ≤ greatest_whole }
{
    64 * draw_word(generator) + at
}

/// Adds the message of an outcome, and the refused event, if it is one.
fn note_outcome(
    messages: &mut Vec<List<Element>>,
    refused: &mut Vec<RefusedEvent>,
    event: u64,
    outcome: Outcome,
) -> Result<(), AllocError>
    ensures message { OnOk result
        (messages.new.items ≡ messages.old.items ++ given_of outcome ∷ []) }
    ensures refused { OnOk result
        (refused.new.items ≡ with_refused event outcome refused.old.items) }
{
    let given = match outcome {
        Outcome::Given(given) => given,
        Outcome::Refused(why) => {
            refused.push(RefusedEvent { event, why })?;
            List::new(*messages.allocator())
        }
    };
    messages.push(given)?;
    Ok(())
}

/// So many replicas to which these elements were delivered.
fn seats_of(alloc: Global, count: u64, elements: &[Element]) -> Result<Vec<Seat>, AllocError>
    ensures seats { IfOk result
        (λ seats. SeatsStandFor seats.items (replicate count (delivered elements.now fresh))) }
    ensures count { IfOk result (λ seats. vec_len seats ≡ count) }
{
    let mut seats = Vec::new(alloc);
    for _ in 0..count {
        let mut seat = Seat::new(alloc);
        seat.deliver(elements)?;
        seats.push(seat)?;
    }
    Ok(seats)
}

/// The elements of a session's scene; none where it has none.
pub(crate) fn opening_elements(session: &Session) -> &[Element]
    ensures { result.now ≡ opening_elements session.now }
{
    match &session.scene {
        Some(scene) => scene.elements.as_slice(),
        None => &[],
    }
}
