//! Calls on one replica, each of which is made again where memory is refused to it.

use crate::elements::elements_of;
use crate::keep::push_keyed;
use board_base::{List, Stop};
use board_commands::{Capture, Command, Spot};
use case_text::{given, listed, push_member_of};
use elem::{Element, Stamp};
use json_text::{Raw, Text};
use replica::{Direction, Replica};
use scene_json::{members, push_comma, push_whole, shaped, value_named};
use std::alloc::{AllocError, Global};

/// What each change stamps with.
const STAMP: Stamp = Stamp { time: 9, nonce: 8 };

/// What is done on a replica.
enum Act {
    /// These elements are delivered.
    Deliver(List<Element>),
    /// Each of these is created above all others.
    Create(List<Element>, Capture),
    /// An entry is undone.
    Undo,
    /// An undo is undone.
    Redo,
}

// By hand, so that whoever drops an act sees one call and not what it holds.
impl Drop for Act {
    fn drop(self) {
        match self {
            Act::Deliver(_list) => {}
            Act::Create(_list, _) => {}
            Act::Undo => {}
            Act::Redo => {}
        }
    }
}

/// Appends how many entries can be undone and redone after each act of a list on one replica, and
/// the id and the key of each element that it shows at the end.
pub fn push_again(alloc: Global, line: &mut Vec<u8>, value: &Raw) -> Result<(), Stop<Text>> {
    let mut replica = Replica::new(alloc);
    push_member_of(line, "told")?;
    line.push(b'[')?;
    for (i, item) in listed(alloc, value)?.as_slice().iter().enumerate() {
        let act = given(act_of(alloc, item)?, "member again")?;
        given(done(&mut replica, &act)?, "member again")?;
        push_comma(line, i)?;
        push_stacks(line, &replica)?;
    }
    line.push(b']')?;
    push_member_of(line, "shown")?;
    push_keyed(line, replica.view().elements())?;
    Ok(())
}

/// Appends how many entries can be undone and redone.
fn push_stacks(line: &mut Vec<u8>, replica: &Replica) -> Result<(), AllocError> {
    line.push(b'[')?;
    push_whole(line, replica.undo_len())?;
    line.push(b',')?;
    push_whole(line, replica.redo_len())?;
    line.push(b']')?;
    Ok(())
}

/// The act that a value is, if it is one.
fn act_of(alloc: Global, value: &Raw) -> Result<Option<Act>, AllocError> {
    if value.as_bytes() == b"\"undo\"".as_slice() {
        return Ok(Some(Act::Undo));
    }
    if value.as_bytes() == b"\"redo\"".as_slice() {
        return Ok(Some(Act::Redo));
    }
    let Some(told) = shaped(members(alloc, value))? else {
        return Ok(None);
    };
    if let Some(list) = value_named(&told, "deliver") {
        return Ok(elements_of(alloc, list)?.map(Act::Deliver));
    }
    if let Some(list) = value_named(&told, "create") {
        return created(alloc, list, Capture::Now);
    }
    match value_named(&told, "later") {
        Some(list) => created(alloc, list, Capture::Later),
        None => Ok(None),
    }
}

/// The creation of the elements of a list, if each item is one.
fn created(alloc: Global, list: &Raw, capture: Capture) -> Result<Option<Act>, AllocError> {
    match elements_of(alloc, list)? {
        Some(elements) => Ok(Some(Act::Create(elements, capture))),
        None => Ok(None),
    }
}

/// Does an act, if it isn't refused. Each call that memory is refused to is made again, once.
fn done(replica: &mut Replica, act: &Act) -> Result<Option<()>, AllocError> {
    match act {
        Act::Deliver(list) => {
            if replica.deliver(list.as_slice()).is_err() {
                replica.deliver(list.as_slice())?;
            }
            Ok(Some(()))
        }
        Act::Create(list, capture) => create_all(replica, list.as_slice(), *capture),
        Act::Undo => turn(replica, Direction::Undo),
        Act::Redo => turn(replica, Direction::Redo),
    }
}

/// Creates elements one after the other, if none is refused.
fn create_all(
    replica: &mut Replica,
    elements: &[Element],
    capture: Capture,
) -> Result<Option<()>, AllocError> {
    for e in elements {
        let found = match create(replica, e, capture) {
            Ok(found) => found,
            Err(AllocError) => create(replica, e, capture)?,
        };
        if found.is_none() {
            return Ok(None);
        }
    }
    Ok(Some(()))
}

/// Creates an element above all others, if that isn't refused.
fn create(replica: &mut Replica, e: &Element, capture: Capture) -> Result<Option<()>, AllocError> {
    let command = Command::Create {
        element: e.try_clone()?,
        spot: Spot::Top,
    };
    match replica.change(&command, capture, STAMP) {
        Ok(_given) => Ok(Some(())),
        Err(Stop::Fault(_)) => Ok(None),
        Err(Stop::Memory) => Err(AllocError),
    }
}

/// Undoes an entry, or an undo, if that isn't refused.
fn turn(replica: &mut Replica, direction: Direction) -> Result<Option<()>, AllocError> {
    let first = replica.turn(direction, STAMP);
    let step = match first {
        Err(Stop::Memory) => replica.turn(direction, STAMP),
        other => other,
    };
    match step {
        Ok(_step) => Ok(Some(())),
        Err(Stop::Fault(_)) => Ok(None),
        Err(Stop::Memory) => Err(AllocError),
    }
}
