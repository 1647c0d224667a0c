//! A living replica.

ghost use Rattle.std.specs.Prelude.{◌≡◌, ◌<◌, ◌≤◌, ◌+◌, ◌*◌, [], true, false, None, codes, length, IfOk, OnErr};
ghost use Rattle.std.specs.Option.{option_map_or};
ghost use Rattle.session_random.specs.Words.{next_generator, next_word};
ghost use Rattle.elem.specs.Facts.{greatest_whole};
ghost use Rattle.elem.specs.Texts.{truth_text};
ghost use Rattle.scene_file.specs.Scenes as scenes;
ghost use Rattle.board_commands.specs.Limits.{IsWithinLimits};
ghost use Rattle.session_text.specs.Lines.{IsLineWithinLimits};
ghost use Rattle.session.specs.Reports.{shown_at};
ghost use Rattle.session.specs.Worlds.{holding, with_id, without_id};
ghost use Rattle.line_replica.specs.Living as living;
ghost use Rattle.line_replica.specs.Living.{Living, of_change, of_taking, of_turn, opened_as, seated, told};
ghost use Rattle.line_replica.specs.Standing.{HasAnswered, IsGiven, LifeStandsFor};

use crate::words::message_faulty;
use crate::{acting, texts};
use board_base::{Bytes, List, Stop};
use board_commands::{Capture, Command};
use elem::{Element, Stamp};
use history::Direction;
use json_text::Text;
use rand_pcg::Pcg32;
use replica::Replica;
use room_msg::{Message, read_message};
use scene_file::{Head, Layout, Scene, state_text};
use session_random::{draw_word, generator_of};
use session_text::{Line, Opening};
use shown_scenes::scene_text;
use std::alloc::{AllocError, Global};
use std::marker::Model;
use view::view_of;

/// A replica that is asked line by line. Contracts see its number, what its nonces are drawn from,
/// the head of the scene that it was opened with, and its replica.
///
/// `specs/Living.antt` says over whole elements what each line makes of it; a clause on a call is
/// for every living replica that it stands for. No line is kept: beside the board and its history
/// nothing grows.
pub struct Life {
    number: u64,
    generator: Pcg32,
    head: Head,
    replica: Replica,
}

// By hand, so that whoever drops a life sees one call and not what it holds.
impl Drop for Life {
    fn drop(self) {
        let Life {
            number: _,
            generator: _generator,
            head: _head,
            replica: _replica,
        } = self;
    }
}

impl Model for Life {
    ghost use Rattle.std.specs.Prelude.{◌<◌};
    ghost use Rattle.line_replica.specs.Standing.{Held};

    ghost Value = { Held };

    ghost view = { λ l. record {
      number = l.number;
      generator = l.generator;
      head = l.head;
      replica = l.replica;
    } };

    ghost invariant = { λ l. l.number < 64 };
}

impl Life {
    /// Opens a replica: the elements of the scene, if there is one, are delivered to it. Fails only
    /// for want of memory.
    pub fn open(alloc: Global, mut opening: Opening) -> Result<Life, AllocError>
        requires { opening.number < 64 }
        ensures { IfOk result (λ life. LifeStandsFor life (opened_as opening)) }
    {
        let number = opening.number;
        let generator = generator_of(opening.seed);
        let (head, elements) = parts_of(alloc, opening.scene.take());
        let mut replica = Replica::new(alloc);
        replica.deliver(elements.as_slice())?;
        Ok(Life {
            number,
            generator,
            head,
            replica,
        })
    }

    /// Lets a line happen, and gives what it is answered with; no line feed ends it. Fails only for
    /// want of memory.
    pub fn answer(&mut self, alloc: Global, line: &Line) -> Result<Bytes, AllocError>
        requires { IsLineWithinLimits line.now }
        ensures answered { IfOk result (λ text. (l : Living) → LifeStandsFor self.old l
            → HasAnswered l line.now text self.new) }
        ensures err { OnErr result (self.new ≡ self.old) }
    {
        match line {
            Line::Change {
                time,
                capture,
                command,
            } => self.change(alloc, *time, *capture, command),
            Line::Undo { time } => self.turn(alloc, Direction::Undo, *time),
            Line::Redo { time } => self.turn(alloc, Direction::Redo, *time),
            Line::Take { elements } => self.take(alloc, elements.as_slice()),
            Line::Receive { text } => self.receive(alloc, text),
            Line::Hold { id } => self.hold(alloc, id),
            Line::Release { id } => self.release(alloc, id),
            Line::Scene => self.scene(alloc),
            Line::State => self.state(alloc),
            Line::Stored { id } => self.stored(alloc, id),
            Line::Lengths => self.lengths(alloc),
            Line::Pending => self.pending(alloc),
        }
    }

    /// A command of the user.
    fn change(
        &mut self,
        alloc: Global,
        time: u64,
        capture: Capture,
        command: &Command,
    ) -> Result<Bytes, AllocError>
        requires time { time ≤ greatest_whole }
        requires limits { IsWithinLimits command.now }
        ensures given { IfOk result (λ text. (l : Living) → LifeStandsFor self.old l
            → IsGiven (of_change command.now capture time l) text self.new) }
        ensures err { OnErr result (self.new ≡ self.old) }
    {
        let (nonce, generator) = drawn(&self.generator, self.number)?;
        let stamp = Stamp { time, nonce };
        let text = acting::change(alloc, &mut self.replica, command, capture, stamp)?;
        self.generator = generator;
        Ok(text)
    }

    /// The user undoes, or redoes, a step.
    fn turn(&mut self, alloc: Global, direction: Direction, time: u64) -> Result<Bytes, AllocError>
        requires { time ≤ greatest_whole }
        ensures given { IfOk result (λ text. (l : Living) → LifeStandsFor self.old l
            → IsGiven (of_turn direction time l) text self.new) }
        ensures err { OnErr result (self.new ≡ self.old) }
    {
        let (nonce, generator) = drawn(&self.generator, self.number)?;
        let stamp = Stamp { time, nonce };
        let text = acting::turn(alloc, &mut self.replica, direction, stamp)?;
        self.generator = generator;
        Ok(text)
    }

    /// Takes elements from elsewhere.
    fn take(&mut self, alloc: Global, elements: &[Element]) -> Result<Bytes, AllocError>
        ensures given { IfOk result (λ text. (l : Living) → LifeStandsFor self.old l
            → IsGiven (of_taking elements.now l) text self.new) }
        ensures err { OnErr result (self.new ≡ self.old) }
    {
        let text = acting::take(alloc, &mut self.replica, elements)?;
        Ok(text)
    }

    /// Takes what a message brings.
    fn receive(&mut self, alloc: Global, text: &Text) -> Result<Bytes, AllocError>
        ensures answered { IfOk result (λ answer. (l : Living) → LifeStandsFor self.old l
            → HasAnswered l (Line.Receive text.now) answer self.new) }
        ensures err { OnErr result (self.new ≡ self.old) }
    {
        match read_message(alloc, text.as_bytes()) {
            Ok(message) => self.take(alloc, brought_by(&message)),
            Err(Stop::Fault(fault)) => message_faulty(alloc, fault),
            Err(Stop::Memory) => Err(AllocError),
        }
    }

    /// Takes no updates of an id from now on.
    fn hold(&mut self, alloc: Global, id: &Text) -> Result<Bytes, AllocError>
        ensures given { IfOk result (λ text. (l : Living) → LifeStandsFor self.old l
            → IsGiven (seated (told (codes "held") (truth_text true))
            (holding (with_id id.now l.seat.state.held) l.seat) l)
            text self.new) }
        ensures err { OnErr result (self.new ≡ self.old) }
    {
        let text = texts::truth_told(alloc, "held", true)?;
        self.replica.hold(id)?;
        Ok(text)
    }

    /// Takes updates of an id again.
    fn release(&mut self, alloc: Global, id: &Text) -> Result<Bytes, AllocError>
        ensures given { IfOk result (λ text. (l : Living) → LifeStandsFor self.old l
            → IsGiven (seated (told (codes "held") (truth_text false))
            (holding (without_id id.now l.seat.state.held) l.seat) l)
            text self.new) }
        ensures err { OnErr result (self.new ≡ self.old) }
    {
        let text = texts::truth_told(alloc, "held", false)?;
        self.replica.release(id);
        Ok(text)
    }

    /// The scene that it shows.
    fn scene(&self, alloc: Global) -> Result<Bytes, AllocError>
        ensures { IfOk result (λ text. (l : Living) → LifeStandsFor self.now l
            → text ≡ told (codes "scene") (scenes.scene_text l.head (shown_at l.seat))) }
    {
        let view = view_of(alloc, self.replica.store())?;
        let scene = scene_text(alloc, &self.head, &view, Layout::Compact)?;
        texts::told(alloc, "scene", scene.as_slice())
    }

    /// All that it stores.
    fn state(&self, alloc: Global) -> Result<Bytes, AllocError>
        ensures { IfOk result (λ text. (l : Living) → LifeStandsFor self.now l
            → text ≡ told (codes "state") (scenes.state_text l.head l.seat.state.stored)) }
    {
        let state = state_text(alloc, &self.head, self.replica.store())?;
        texts::told(alloc, "state", state.as_slice())
    }

    /// The stored element of an id.
    fn stored(&self, alloc: Global, id: &Text) -> Result<Bytes, AllocError>
        ensures { IfOk result (λ text. (l : Living) → LifeStandsFor self.now l
            → text ≡ living.stored_text id.now l.seat.state) }
    {
        texts::stored_text(alloc, self.replica.store().get(id))
    }

    /// How many steps can be undone and redone.
    fn lengths(&self, alloc: Global) -> Result<Bytes, AllocError>
        ensures { IfOk result (λ text. (l : Living) → LifeStandsFor self.now l
            → text ≡ living.lengths_text (length l.seat.state.undo) (length l.seat.state.redo)) }
    {
        let text = texts::lengths_text(alloc, self.replica.undo_len(), self.replica.redo_len())?;
        Ok(text)
    }

    /// Whether something is pending.
    fn pending(&mut self, alloc: Global) -> Result<Bytes, AllocError>
        ensures text { IfOk result (λ text. (l : Living) → LifeStandsFor self.old l
            → text ≡ living.pending_text l.seat.state) }
        ensures kept { self.new ≡ self.old }
    {
        let pending = self.replica.is_pending()?;
        texts::truth_told(alloc, "pending", pending)
    }
}

/// The elements that a message brings; a presence brings none.
fn brought_by(message: &Message) -> &[Element]
    ensures { result.now ≡ living.brought_by message.now }
{
    match message {
        Message::Init(elements) | Message::Update(elements) => elements.as_slice(),
        Message::Presence(_) => &[],
    }
}

/// The nonce of the next change, undo or redo, and the generator then: a word is drawn, and the
/// last six bits are the replica's number.
fn drawn(generator: &Pcg32, number: u64) -> Result<(u64, Pcg32), AllocError>
    requires { number < 64 }
    ensures nonce { IfOk result (λ drawn. drawn.0 ≡ 64 * next_word generator.now + number) }
    ensures limit { IfOk result (λ drawn. drawn.0 ≤ greatest_whole) }
    ensures generator { IfOk result (λ drawn. drawn.1 ≡ next_generator generator.now) }
{
    let mut next = generator.clone()?;
    let nonce = 64 * draw_word(&mut next) + number;
    Ok((nonce, next))
}

/// The head and the elements of the scene, or an empty head and none.
fn parts_of(alloc: Global, scene: Option<Scene>) -> (Head, List<Element>)
    ensures head { result.0
        ≡ option_map_or (λ s. s.head) scene (record { source = None; app_state = []; files = [] }) }
    ensures elements { result.1 ≡ option_map_or (λ s. s.elements) scene [] }
{
    match scene {
        Some(Scene { head, elements }) => (head, elements),
        None => (Head::new(alloc), List::new(alloc)),
    }
}
