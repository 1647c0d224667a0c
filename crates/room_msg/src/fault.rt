//! Why bytes are no message.

ghost use Rattle.std.specs.Prelude.{◌≡◌, IfOk, string_bytes};
ghost use Rattle.room_msg.specs.Faults.{message_fault_words};

use elem_read::ElemFault;
use json_reader::JsonFault;
use std::alloc::{AllocError, Global};

/// Why bytes are no message. Of several faults the first in this order counts.
#[derive(Clone, Copy, Debug, PartialEq, Eq, Drop)]
pub enum MsgFault {
    /// The JSON form has this fault. A byte behind the value that isn't white space is bad syntax.
    Json(JsonFault),
    /// The value isn't an object.
    NotObject,
    /// `type` is missing or not a text.
    Tag,
    /// `payload` isn't an object whose `elements` is an array, where the type asks for it.
    Payload,
    /// The element at this place of the array, counted from 0, is the first with a fault, and has
    /// this one.
    Element(u64, ElemFault),
}

impl MsgFault {
    /// What is told of this fault.
    pub fn words(self, alloc: Global) -> Result<String, AllocError>
        ensures { IfOk result (λ words. string_bytes words ≡ message_fault_words self) }
    {
        match self {
            MsgFault::Json(fault) => fault.words(alloc),
            MsgFault::NotObject => String::from_str(alloc, "not an object"),
            MsgFault::Tag => String::from_str(alloc, "type"),
            MsgFault::Payload => String::from_str(alloc, "payload"),
            MsgFault::Element(place, fault) => {
                let word = fault.word();
                format!(in alloc; "element {place}: {word}")
            }
        }
    }
}
