//! The texts of messages.

ghost use Rattle.std.specs.Prelude.{◌≡◌, IfOk};
ghost use Rattle.json_text.specs.Compact.{object_text};
ghost use Rattle.room_msg.specs.Texts as texts;
ghost use Rattle.room_msg.specs.Texts.{tagged_members};

use crate::message::Message;
use board_base::{Bytes, List};
use elem::{Element, push_elements};
use json_text::push_quoted;
use std::alloc::{AllocError, Global};

/// The text of a message: its elements' texts, or the compact text of a presence. Fails only for
/// want of memory.
pub fn message_text(alloc: Global, message: &Message) -> Result<Bytes, AllocError>
    ensures { IfOk result (λ text. text ≡ texts.message_text message.now) }
{
    match message {
        Message::Init(elements) => tagged_text(alloc, "SCENE_INIT", elements),
        Message::Update(elements) => update_text(alloc, elements),
        Message::Presence(value) => Bytes::from_slice(alloc, value.as_bytes()),
    }
}

/// The text of an update with these elements. Fails only for want of memory.
pub fn update_text(alloc: Global, elements: &List<Element>) -> Result<Bytes, AllocError>
    ensures { IfOk result (λ text. text ≡ texts.message_text (Message.Update elements.now)) }
{
    tagged_text(alloc, "SCENE_UPDATE", elements)
}

/// The text of a message of this type with these elements.
fn tagged_text(alloc: Global, tag: &str, elements: &List<Element>) -> Result<Bytes, AllocError>
    ensures { IfOk result (λ text. text ≡ object_text (tagged_members tag.now elements.now)) }
{
    let mut out = Vec::new(alloc);
    out.extend_from_slice(b"{\"type\":")?;
    push_quoted(&mut out, tag)?;
    out.extend_from_slice(b",\"payload\":{\"elements\":[")?;
    push_elements(&mut out, elements.as_slice())?;
    out.extend_from_slice(b"]}}")?;
    Ok(Bytes::from_vec(out))
}
