//! The commands of a session.

ghost use Rattle.json_text.specs.Members.{pairs};
ghost use Rattle.session_text.specs.Commands.{IsAsked, IsClipIn, IsDrawnAs, ClipOf, ElementOf, IdsAnd, EndOf, CommandNamed, CommandOf};
ghost use Rattle.session_text.specs.Reads.{MemberOf};
ghost use Rattle.session_text.specs.inner.Reads.{IsReadResult};
ghost use Rattle.session_text.specs.declared.command.Asked.TheVariants as asks;
ghost use Rattle.session_text.specs.declared.name.MemberName.TheVariants as names;

use crate::fault::TextFault;
use crate::fields::{ids, rest, shallow, side, spot, text, value};
use crate::name::MemberName;
use board_base::{List, Stop};
use board_commands::{Command, Side};
use clips::{Clip, read_clip};
use elem::Element;
use elem_read::{ElemFault, read_element};
use json_text::{Member, Raw, Text};
use scene_json::has_value;
use std::alloc::Global;

/// Which command is asked for.
#[derive(Clone, Copy, Debug, PartialEq, Eq)]
pub(crate) enum Asked {
    Create,
    Set,
    Delete,
    Place,
    Bind,
    Unbind,
    Label,
    Unlabel,
    Frame,
    Unframe,
    Group,
    Ungroup,
    Duplicate,
    Paste,
}

/// The command that these members are.
pub(crate) fn command_of(alloc: Global, members: &List<Member>) -> Result<Command, Stop<TextFault>>
    ensures { IsReadResult (CommandOf (pairs members.now)) result }
{
    let name = which(members)?;
    command_named(alloc, members, name)
}

/// Which command the members ask for. It takes no memory.
#[tactic(auto, unfolding(json_text::specs::Characters::quote))]
fn which(members: &List<Member>) -> Result<Asked, Stop<TextFault>>
    ensures { IsReadResult (MemberOf names.Name IsAsked (pairs members.now)) result }
{
    if has_value(members, "name", "\"create\"") {
        Ok(Asked::Create)
    } else if has_value(members, "name", "\"set\"") {
        Ok(Asked::Set)
    } else if has_value(members, "name", "\"delete\"") {
        Ok(Asked::Delete)
    } else if has_value(members, "name", "\"place\"") {
        Ok(Asked::Place)
    } else if has_value(members, "name", "\"bind\"") {
        Ok(Asked::Bind)
    } else if has_value(members, "name", "\"unbind\"") {
        Ok(Asked::Unbind)
    } else if has_value(members, "name", "\"label\"") {
        Ok(Asked::Label)
    } else if has_value(members, "name", "\"unlabel\"") {
        Ok(Asked::Unlabel)
    } else if has_value(members, "name", "\"frame\"") {
        Ok(Asked::Frame)
    } else if has_value(members, "name", "\"unframe\"") {
        Ok(Asked::Unframe)
    } else if has_value(members, "name", "\"group\"") {
        Ok(Asked::Group)
    } else if has_value(members, "name", "\"ungroup\"") {
        Ok(Asked::Ungroup)
    } else if has_value(members, "name", "\"duplicate\"") {
        Ok(Asked::Duplicate)
    } else if has_value(members, "name", "\"paste\"") {
        Ok(Asked::Paste)
    } else {
        Err(Stop::Fault(TextFault::Member(MemberName::Name)))
    }
}

/// The command of this name that the members are.
fn command_named(
    alloc: Global,
    members: &List<Member>,
    name: Asked,
) -> Result<Command, Stop<TextFault>>
    ensures { IsReadResult (CommandNamed (pairs members.now) name) result }
{
    match name {
        Asked::Create => create(alloc, members),
        Asked::Set => set(alloc, members),
        Asked::Delete => {
            let ids = ids(alloc, members)?;
            Ok(Command::Delete { ids })
        }
        Asked::Place => place(alloc, members),
        Asked::Bind => bind(alloc, members),
        Asked::Unbind => {
            let (arrow, side) = end_of(alloc, members)?;
            Ok(Command::Unbind { arrow, side })
        }
        Asked::Label => label(alloc, members),
        Asked::Unlabel => {
            let text = text(alloc, members, MemberName::Text)?;
            Ok(Command::Unlabel { text })
        }
        Asked::Frame => {
            let (ids, frame) = ids_and(alloc, members, MemberName::Frame)?;
            Ok(Command::Frame { ids, frame })
        }
        Asked::Unframe => {
            let ids = ids(alloc, members)?;
            Ok(Command::Unframe { ids })
        }
        Asked::Group => {
            let (ids, group) = ids_and(alloc, members, MemberName::Group)?;
            Ok(Command::Group { ids, group })
        }
        Asked::Ungroup => {
            let (ids, group) = ids_and(alloc, members, MemberName::Group)?;
            Ok(Command::Ungroup { ids, group })
        }
        Asked::Duplicate => duplicate(alloc, members),
        Asked::Paste => paste(alloc, members),
    }
}

/// An element is made.
fn create(alloc: Global, members: &List<Member>) -> Result<Command, Stop<TextFault>>
    ensures { IsReadResult (CommandNamed (pairs members.now) asks.Create) result }
{
    let element = element(alloc, members)?;
    let spot = spot(alloc, members)?;
    Ok(Command::Create { element, spot })
}

/// A member gets a value.
fn set(alloc: Global, members: &List<Member>) -> Result<Command, Stop<TextFault>>
    ensures { IsReadResult (CommandNamed (pairs members.now) asks.Set) result }
{
    let id = text(alloc, members, MemberName::Id)?;
    let member = text(alloc, members, MemberName::Member)?;
    let value = shallow(members)?;
    Ok(Command::Set { id, member, value })
}

/// An element gets a place.
fn place(alloc: Global, members: &List<Member>) -> Result<Command, Stop<TextFault>>
    ensures { IsReadResult (CommandNamed (pairs members.now) asks.Place) result }
{
    let id = text(alloc, members, MemberName::Id)?;
    let spot = spot(alloc, members)?;
    Ok(Command::Place { id, spot })
}

/// An end of an arrow is bound.
fn bind(alloc: Global, members: &List<Member>) -> Result<Command, Stop<TextFault>>
    ensures { IsReadResult (CommandNamed (pairs members.now) asks.Bind) result }
{
    let (arrow, side) = end_of(alloc, members)?;
    let target = text(alloc, members, MemberName::Target)?;
    let rest = rest(alloc, members)?;
    Ok(Command::Bind {
        arrow,
        side,
        target,
        rest,
    })
}

/// A text gets a container.
fn label(alloc: Global, members: &List<Member>) -> Result<Command, Stop<TextFault>>
    ensures { IsReadResult (CommandNamed (pairs members.now) asks.Label) result }
{
    let container = text(alloc, members, MemberName::Container)?;
    let text = text(alloc, members, MemberName::Text)?;
    Ok(Command::Label { container, text })
}

/// Elements of the board are copied.
fn duplicate(alloc: Global, members: &List<Member>) -> Result<Command, Stop<TextFault>>
    ensures { IsReadResult (CommandNamed (pairs members.now) asks.Duplicate) result }
{
    let (ids, prefix) = ids_and(alloc, members, MemberName::Prefix)?;
    let spot = spot(alloc, members)?;
    Ok(Command::Duplicate { ids, prefix, spot })
}

/// The elements of a clip are copied; its files are not used.
fn paste(alloc: Global, members: &List<Member>) -> Result<Command, Stop<TextFault>>
    ensures { IsReadResult (CommandNamed (pairs members.now) asks.Paste) result }
{
    let clip = clip(alloc, members)?;
    let prefix = text(alloc, members, MemberName::Prefix)?;
    let spot = spot(alloc, members)?;
    Ok(Command::Paste {
        elements: clip.elements,
        prefix,
        spot,
    })
}

/// An arrow, and an end of it.
fn end_of(alloc: Global, members: &List<Member>) -> Result<(Text, Side), Stop<TextFault>>
    ensures { IsReadResult (EndOf (pairs members.now)) result }
{
    let arrow = text(alloc, members, MemberName::Arrow)?;
    let side = side(members)?;
    Ok((arrow, side))
}

/// Ids, and the text of this name.
fn ids_and(
    alloc: Global,
    members: &List<Member>,
    name: MemberName,
) -> Result<(List<Text>, Text), Stop<TextFault>>
    ensures { IsReadResult (IdsAnd name (pairs members.now)) result }
{
    let ids = ids(alloc, members)?;
    let text = text(alloc, members, name)?;
    Ok((ids, text))
}

/// The element that is made.
fn element(alloc: Global, members: &List<Member>) -> Result<Element, Stop<TextFault>>
    ensures { IsReadResult (ElementOf (pairs members.now)) result }
{
    let value = value(members, MemberName::Element)?;
    drawn(alloc, &value)
}

/// The element that the value is.
fn drawn(alloc: Global, value: &Raw) -> Result<Element, Stop<TextFault>>
    ensures { IsReadResult (IsDrawnAs value.now) result }
{
    match read_element(alloc, value) {
        Ok(Some(element)) => Ok(element),
        Ok(None) => Err(Stop::Fault(TextFault::Element(0, ElemFault::Kind))),
        Err(Stop::Fault(fault)) => Err(Stop::Fault(TextFault::Element(0, fault))),
        Err(Stop::Memory) => Err(Stop::Memory),
    }
}

/// The clip whose elements are copied.
fn clip(alloc: Global, members: &List<Member>) -> Result<Clip, Stop<TextFault>>
    ensures { IsReadResult (ClipOf (pairs members.now)) result }
{
    let value = value(members, MemberName::Clip)?;
    clip_in(alloc, &value)
}

/// The clip that the value is.
fn clip_in(alloc: Global, value: &Raw) -> Result<Clip, Stop<TextFault>>
    ensures { IsReadResult (IsClipIn value.now) result }
{
    match read_clip(alloc, value) {
        Ok(clip) => Ok(clip),
        Err(Stop::Fault(fault)) => Err(Stop::Fault(TextFault::Clip(fault))),
        Err(Stop::Memory) => Err(Stop::Memory),
    }
}
