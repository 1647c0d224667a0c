//! The events of a session are read.

ghost use Rattle.std.specs.Prelude.{ℕ};
ghost use Rattle.json_text.specs.Members.{pairs};
ghost use Rattle.session_text.specs.Events.{IsHappening, AreDrawnAs, TimeOf, HeldOf, CommandIn, ElementsIn, EventNamed, EventText};
ghost use Rattle.session_text.specs.Reads.{MemberOf};
ghost use Rattle.session_text.specs.inner.Reads.{IsReadResult};
ghost use Rattle.session_text.specs.declared.happening.Happening.TheVariants as happenings;
ghost use Rattle.session_text.specs.declared.name.MemberName.TheVariants as names;

use crate::command::command_of;
use crate::event::Event;
use crate::fault::TextFault;
use crate::fields::{array, capture, number_from, object, text, text_members, whole};
use crate::name::MemberName;
use crate::picking::picks;
use board_base::{List, Stop};
use board_commands::Command;
use elem::Element;
use elem_read::read_elements;
use json_text::{Member, Raw, Text};
use scene_json::has_value;
use std::alloc::Global;

/// Which event it is.
#[derive(Clone, Copy, Debug, PartialEq, Eq)]
pub(crate) enum Happening {
    Change,
    Update,
    Deliver,
    Hold,
    Release,
    Undo,
    Redo,
}

/// The event that a text is, with so many replicas and so many messages made before.
pub(crate) fn read_event(
    alloc: Global,
    value: &Raw,
    replicas: u64,
    made: u64,
) -> Result<Event, Stop<TextFault>>
    ensures { IsReadResult (EventText replicas made value.now) result }
{
    let members = text_members(alloc, value)?;
    let name = which(&members)?;
    event_named(alloc, &members, name, replicas, made)
}

/// Which event the members are. It takes no memory.
#[tactic(auto, unfolding(json_text::specs::Characters::quote))]
fn which(members: &List<Member>) -> Result<Happening, Stop<TextFault>>
    ensures { IsReadResult (MemberOf names.Do IsHappening (pairs members.now)) result }
{
    if has_value(members, "do", "\"change\"") {
        Ok(Happening::Change)
    } else if has_value(members, "do", "\"update\"") {
        Ok(Happening::Update)
    } else if has_value(members, "do", "\"deliver\"") {
        Ok(Happening::Deliver)
    } else if has_value(members, "do", "\"hold\"") {
        Ok(Happening::Hold)
    } else if has_value(members, "do", "\"release\"") {
        Ok(Happening::Release)
    } else if has_value(members, "do", "\"undo\"") {
        Ok(Happening::Undo)
    } else if has_value(members, "do", "\"redo\"") {
        Ok(Happening::Redo)
    } else {
        Err(Stop::Fault(TextFault::Member(MemberName::Do)))
    }
}

/// The event of this name that the members are.
fn event_named(
    alloc: Global,
    members: &List<Member>,
    name: Happening,
    replicas: u64,
    made: u64,
) -> Result<Event, Stop<TextFault>>
    ensures { IsReadResult (EventNamed replicas made (pairs members.now) name) result }
{
    match name {
        Happening::Change => change(alloc, members, replicas),
        Happening::Update => {
            let elements = elements_in(alloc, members)?;
            Ok(Event::Update { elements })
        }
        Happening::Deliver => deliver(alloc, members, replicas, made),
        Happening::Hold => {
            let (at, id) = held(alloc, members, replicas)?;
            Ok(Event::Hold { at, id })
        }
        Happening::Release => {
            let (at, id) = held(alloc, members, replicas)?;
            Ok(Event::Release { at, id })
        }
        Happening::Undo => {
            let (at, time) = time(members, replicas)?;
            Ok(Event::Undo { at, time })
        }
        Happening::Redo => {
            let (at, time) = time(members, replicas)?;
            Ok(Event::Redo { at, time })
        }
    }
}

/// A command at a replica.
fn change(alloc: Global, members: &List<Member>, replicas: u64) -> Result<Event, Stop<TextFault>>
    ensures { (made : ℕ)
        → IsReadResult (EventNamed replicas made (pairs members.now) happenings.Change) result }
{
    let (at, time) = time(members, replicas)?;
    let capture = capture(members)?;
    let command = command_in(alloc, members)?;
    Ok(Event::Change {
        at,
        time,
        capture,
        command,
    })
}

/// What is picked comes to a replica.
fn deliver(
    alloc: Global,
    members: &List<Member>,
    replicas: u64,
    made: u64,
) -> Result<Event, Stop<TextFault>>
    ensures { IsReadResult
        (EventNamed replicas made (pairs members.now) happenings.Deliver) result }
{
    let to = number_from(members, MemberName::To, 0, replicas)?;
    let picks = picks(alloc, members, made)?;
    Ok(Event::Deliver { to, picks })
}

/// A replica and a time. It takes no memory.
fn time(members: &List<Member>, replicas: u64) -> Result<(u64, u64), Stop<TextFault>>
    ensures { IsReadResult (TimeOf replicas (pairs members.now)) result }
{
    let at = number_from(members, MemberName::At, 0, replicas)?;
    let time = whole(members, MemberName::Time)?;
    Ok((at, time))
}

/// A replica and an id.
fn held(
    alloc: Global,
    members: &List<Member>,
    replicas: u64,
) -> Result<(u64, Text), Stop<TextFault>>
    ensures { IsReadResult (HeldOf replicas (pairs members.now)) result }
{
    let at = number_from(members, MemberName::At, 0, replicas)?;
    let id = text(alloc, members, MemberName::Id)?;
    Ok((at, id))
}

/// The command of a change.
pub(crate) fn command_in(alloc: Global, from: &List<Member>) -> Result<Command, Stop<TextFault>>
    ensures { IsReadResult (CommandIn (pairs from.now)) result }
{
    let members = object(alloc, from, MemberName::Command)?;
    command_of(alloc, &members)
}

/// The elements of an update.
pub(crate) fn elements_in(
    alloc: Global,
    members: &List<Member>,
) -> Result<List<Element>, Stop<TextFault>>
    ensures { IsReadResult (ElementsIn (pairs members.now)) result }
{
    let values = array(alloc, members, MemberName::Elements)?;
    drawn(alloc, &values)
}

/// The elements that the values are.
fn drawn(alloc: Global, values: &List<Raw>) -> Result<List<Element>, Stop<TextFault>>
    ensures { IsReadResult (AreDrawnAs values.now) result }
{
    match read_elements(alloc, values) {
        Ok(elements) => Ok(elements),
        Err(Stop::Fault(faulty)) => {
            Err(Stop::Fault(TextFault::Element(faulty.place, faulty.fault)))
        }
        Err(Stop::Memory) => Err(Stop::Memory),
    }
}
