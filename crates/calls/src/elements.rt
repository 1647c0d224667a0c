//! Calls on elements and on messages of them.

ghost use Rattle.std.specs.Prelude.{◌≡◌, IsTrue};

use board_base::{List, Stop};
use case_text::{
    bytes_of, given, listed, push_member_of, push_string, push_told, push_truth, push_value,
};
use clash::Clash;
use delta::{Part, apply, are_one_kind, difference, invert};
use elem::{Element, beats, push_element, same, same_but_stamp};
use elem_read::read_element;
use json_text::{Raw, Text};
use room_msg::{Message, message_text, read_message};
use scene_json::push_comma;
use std::alloc::{AllocError, Global};

/// Appends the element that a value is read as, null where it is dropped, or the fault.
pub fn push_element_of(alloc: Global, line: &mut Vec<u8>, value: &Raw) -> Result<(), Stop<Text>> {
    match read_element(alloc, value) {
        Ok(Some(e)) => push_named(line, "element", &e)?,
        Ok(None) => push_value(line, "element", b"null")?,
        Err(Stop::Fault(fault)) => push_string(line, "fault", fault.word())?,
        Err(Stop::Memory) => return Err(Stop::Memory),
    }
    Ok(())
}

/// Appends a further member that is an element.
fn push_named(line: &mut Vec<u8>, name: &str, e: &Element) -> Result<(), AllocError> {
    push_member_of(line, name)?;
    push_element(line, e)
}

/// Appends the text of the message that some bytes are, or the fault.
pub fn push_message(alloc: Global, line: &mut Vec<u8>, value: &Raw) -> Result<(), Stop<Text>> {
    let bytes = given(bytes_of(alloc, value)?, "member message")?;
    match read_message(alloc, bytes.as_slice()) {
        Ok(message) => push_message_text(alloc, line, &message)?,
        Err(Stop::Fault(fault)) => push_string(line, "fault", fault.words(alloc)?.as_str())?,
        Err(Stop::Memory) => return Err(Stop::Memory),
    }
    Ok(())
}

/// Appends the text of a message.
fn push_message_text(
    alloc: Global,
    line: &mut Vec<u8>,
    message: &Message,
) -> Result<(), AllocError> {
    let text = message_text(alloc, message)?;
    push_member_of(line, "message")?;
    push_told(alloc, line, text.as_slice(), b"")
}

/// Appends of each element of a list whether it clashes with an earlier one.
pub fn push_clashes(alloc: Global, line: &mut Vec<u8>, value: &Raw) -> Result<(), Stop<Text>> {
    let elements = given(elements_of(alloc, value)?, "member clashes")?;
    let mut clash = Clash::new(alloc);
    push_member_of(line, "clashes")?;
    line.push(b'[')?;
    for (i, e) in elements.as_slice().iter().enumerate() {
        push_comma(line, i)?;
        let word = if clash.note(e)? { "true" } else { "false" };
        line.extend_from_slice(word.as_bytes())?;
    }
    line.push(b']')?;
    Ok(())
}

/// Appends how two elements compare.
pub fn push_compared(alloc: Global, line: &mut Vec<u8>, value: &Raw) -> Result<(), Stop<Text>> {
    let elements = given(elements_of(alloc, value)?, "member compare")?;
    let [new, old] = elements.as_slice() else {
        return Err(Stop::Fault(Text::fixed("member compare")));
    };
    push_comparison(line, new, old)?;
    Ok(())
}

/// Appends how two elements compare.
fn push_comparison(line: &mut Vec<u8>, new: &Element, old: &Element) -> Result<(), AllocError> {
    push_truth(line, "beats", beats(new, old))?;
    push_truth(line, "same", same(new, old))?;
    push_truth(line, "same_but_stamp", same_but_stamp(new, old))
}

/// Appends what the difference of two elements makes of a third one, or of two elements what the
/// creation of the first one makes of the second; and what the inverse makes of that third one.
pub fn push_applied(alloc: Global, line: &mut Vec<u8>, value: &Raw) -> Result<(), Stop<Text>> {
    let elements = given(elements_of(alloc, value)?, "member apply")?;
    let Some((now, ends)) = elements.as_slice().split_last() else {
        return Err(Stop::Fault(Text::fixed("member apply")));
    };
    let part = given(part_of(alloc, ends)?, "member apply")?;
    given(
        push_made(alloc, line, "applied", &part, now)?,
        "member apply",
    )?;
    given(
        push_made(alloc, line, "undone", &invert(part), now)?,
        "member apply",
    )
}

/// The difference of two elements of one id and kind, or the creation of one.
fn part_of(alloc: Global, ends: &[Element]) -> Result<Option<Part>, AllocError> {
    match ends {
        [old, new] => difference_of(alloc, old, new),
        [new] => Ok(Some(difference(alloc, None, new)?)),
        _ => Ok(None),
    }
}

/// The difference of two elements, if their ids and kinds are the same.
fn difference_of(alloc: Global, old: &Element, new: &Element) -> Result<Option<Part>, AllocError> {
    if is_of(old, new) {
        Ok(Some(difference(alloc, Some(old), new)?))
    } else {
        Ok(None)
    }
}

/// Appends what a part makes of an element, if the part is of its id.
fn push_made(
    alloc: Global,
    line: &mut Vec<u8>,
    name: &str,
    part: &Part,
    now: &Element,
) -> Result<Option<()>, AllocError> {
    match made(alloc, part, now)? {
        Some(made) => {
            push_named(line, name, &made)?;
            Ok(Some(()))
        }
        None => Ok(None),
    }
}

/// What a part makes of an element, if the part is of its id.
fn made(alloc: Global, part: &Part, now: &Element) -> Result<Option<Element>, AllocError> {
    if is_on(part, now) {
        Ok(Some(apply(alloc, part, now)?))
    } else {
        Ok(None)
    }
}

/// Whether the part is of this element's id.
fn is_on(part: &Part, now: &Element) -> bool
    ensures { IsTrue result → part.now.id ≡ now.now.id }
{
    part.id.as_bytes() == now.id.as_bytes()
}

/// The elements of a list, if each item is one.
pub fn elements_of(alloc: Global, value: &Raw) -> Result<Option<List<Element>>, AllocError> {
    let mut elements = Vec::new(alloc);
    for item in listed(alloc, value)?.as_slice() {
        match element_of(alloc, item)? {
            Some(e) => elements.push(e)?,
            None => return Ok(None),
        }
    }
    Ok(Some(List::from_vec(elements)))
}

/// The element that a value is read as, if it is one.
fn element_of(alloc: Global, value: &Raw) -> Result<Option<Element>, AllocError> {
    match read_element(alloc, value) {
        Ok(found) => Ok(found),
        Err(Stop::Fault(_)) => Ok(None),
        Err(Stop::Memory) => Err(AllocError),
    }
}

/// Whether the two have one id and one kind.
fn is_of(old: &Element, new: &Element) -> bool
    ensures { IsTrue result → (old.now.id ≡ new.now.id) × (old.now.kind ≡ new.now.kind) }
{
    old.id.as_bytes() == new.id.as_bytes() && are_one_kind(&old.kind, &new.kind)
}
