//! The texts that a room sends.

ghost use Rattle.std.specs.Prelude.{◌≡◌, IfOk};
ghost use Rattle.room_msg.specs.Texts.{message_text};
ghost use Rattle.room_msg.specs.declared.message.Message.{Message};
ghost use Rattle.room_core.specs.Rooms as rooms;
ghost use Rattle.room_core.specs.inner.Kept.{IsInit};

use crate::told_text::KeptText;
use board_base::Bytes;
use elem_store::{Store, push_stored};
use json_text::push_quoted;
use room_msg::MsgFault;
use std::alloc::{AllocError, Global};

/// The text with all stored elements that is kept. It is made and kept if none is.
pub(crate) fn kept_init(
    alloc: Global,
    store: &Store,
    init: &mut Option<KeptText>,
) -> Result<KeptText, AllocError>
    requires kept { IsInit init.old store.now.elements }
    ensures text { IfOk result (λ text. text ≡ message_text (Message.Init store.now.elements)) }
    ensures kept { IsInit init.new store.now.elements }
{
    if let Some(text) = &*init {
        return text.try_clone();
    }
    let text = KeptText::new(alloc, init_text(alloc, store)?)?;
    *init = Some(text.try_clone()?);
    Ok(text)
}

/// The text with all stored elements, in the order of their ids.
fn init_text(alloc: Global, store: &Store) -> Result<Bytes, AllocError>
    ensures { IfOk result (λ text. text ≡ message_text (Message.Init store.now.elements)) }
{
    let mut out = Vec::new(alloc);
    out.extend_from_slice(b"{\"type\":\"SCENE_INIT\",\"payload\":{\"elements\":[")?;
    push_stored(&mut out, store)?;
    out.extend_from_slice(b"]}}")?;
    Ok(Bytes::from_vec(out))
}

/// The text that tells a link of the fault of its message.
pub(crate) fn invalid_text(alloc: Global, fault: MsgFault) -> Result<Bytes, AllocError>
    ensures { IfOk result (λ text. text ≡ rooms.invalid_text fault) }
{
    let words = fault.words(alloc)?;
    let mut out = Vec::new(alloc);
    out.extend_from_slice(b"{\"type\":\"INVALID_RESPONSE\",\"payload\":{\"fault\":")?;
    push_quoted(&mut out, words.as_str())?;
    out.extend_from_slice(b"}}")?;
    Ok(Bytes::from_vec(out))
}
