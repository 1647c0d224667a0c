//! Reading messages.

ghost use Rattle.std.specs.Prelude.{◌≡◌, ℕ, List as Items, All, Ok, Err, IfOk, MatchOption};
ghost use Rattle.json_text.specs.Members.{pairs};
ghost use Rattle.elem_read.specs.Elements.{AreRead};
ghost use Rattle.elem_read.specs.Reading.{IsWholeElement};
ghost use Rattle.room_msg.specs.Messages.{HasPayload, IsPayloadFault, IsMessageOf, IsMessageFault, StandsAlone, IsReadAs, IsWholeMessage};
ghost use Rattle.room_msg.specs.declared.fault.MsgFault.{MsgFault};

use crate::fault::MsgFault;
use crate::message::Message;
use board_base::{List, Stop};
use elem::Element;
use elem_read::{object_members, read_elements};
use json_reader::{JsonFault, scan};
use json_text::{Member, Raw, skip_space};
use scene_json::{has_value, items, members, shaped, text_named, value_named};
use std::alloc::{AllocError, Global};

/// The message that the bytes are, or their first fault.
pub fn read_message(alloc: Global, bytes: &[u8]) -> Result<Message, Stop<MsgFault>>
    ensures message { IfOk result (λ message. IsReadAs bytes.now (Ok message)) }
    ensures fault { (fault : MsgFault) → result ≡ Err (Stop.Fault fault)
        → IsReadAs bytes.now (Err fault) }
    ensures whole { IfOk result IsWholeMessage }
{
    let value = lone_value(alloc, bytes)?;
    message_of(alloc, value)
}

/// The one value that the bytes are, white space around it.
fn lone_value(alloc: Global, bytes: &[u8]) -> Result<Raw, Stop<MsgFault>>
    ensures alone { IfOk result (StandsAlone bytes.now) }
    ensures fault { (fault : MsgFault) → result ≡ Err (Stop.Fault fault)
        → IsReadAs bytes.now (Err fault) }
{
    let (value, after) = match scan(alloc, bytes, 0) {
        Ok(found) => found,
        Err(Stop::Fault(fault)) => return Err(Stop::Fault(MsgFault::Json(fault))),
        Err(Stop::Memory) => return Err(Stop::Memory),
    };
    let at = skip_space(bytes, after);
    if at < bytes.len() {
        return Err(Stop::Fault(MsgFault::Json(JsonFault::Syntax(at))));
    }
    Ok(value)
}

/// The message that a value is, or its first fault.
fn message_of(alloc: Global, value: Raw) -> Result<Message, Stop<MsgFault>>
    ensures message { IfOk result (IsMessageOf value) }
    ensures fault { (fault : MsgFault) → result ≡ Err (Stop.Fault fault)
        → IsMessageFault value fault }
    ensures whole { IfOk result IsWholeMessage }
{
    let Some(found) = object_members(alloc, &value)? else {
        return Err(Stop::Fault(MsgFault::NotObject));
    };
    if has_value(&found, "type", "\"SCENE_INIT\"") {
        return Ok(Message::Init(elements_of(alloc, &found)?));
    }
    if has_value(&found, "type", "\"SCENE_UPDATE\"") {
        return Ok(Message::Update(elements_of(alloc, &found)?));
    }
    match text_named(alloc, &found, "type")? {
        Some(_tag) => Ok(Message::Presence(value)),
        None => Err(Stop::Fault(MsgFault::Tag)),
    }
}

/// The elements of the payload among these members, or the first fault of it.
fn elements_of(alloc: Global, members: &List<Member>) -> Result<List<Element>, Stop<MsgFault>>
    ensures read { IfOk result (λ elements.
        (values : Items (Items ℕ)) × HasPayload (pairs members.now) values
        × AreRead values elements) }
    ensures fault { (fault : MsgFault) → result ≡ Err (Stop.Fault fault)
        → IsPayloadFault (pairs members.now) fault }
    ensures whole { IfOk result (All IsWholeElement) }
{
    let Some(values) = payload_items(alloc, members)? else {
        return Err(Stop::Fault(MsgFault::Payload));
    };
    match read_elements(alloc, &values) {
        Ok(elements) => Ok(elements),
        Err(Stop::Fault(faulty)) => {
            Err(Stop::Fault(MsgFault::Element(faulty.place, faulty.fault)))
        }
        Err(Stop::Memory) => Err(Stop::Memory),
    }
}

/// The items of the array `elements` of the object `payload`. `None` where there is no such array.
fn payload_items(alloc: Global, from: &List<Member>) -> Result<Option<List<Raw>>, AllocError>
    ensures { IfOk result (λ found. MatchOption found
        ((values : Items (Items ℕ)) → HasPayload (pairs from.now) values → ⊥)
        (HasPayload (pairs from.now))) }
{
    let Some(payload) = value_named(from, "payload") else {
        return Ok(None);
    };
    let Some(inner) = shaped(members(alloc, payload))? else {
        return Ok(None);
    };
    let Some(array) = value_named(&inner, "elements") else {
        return Ok(None);
    };
    shaped(items(alloc, array))
}
