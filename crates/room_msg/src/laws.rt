//! Laws on messages, for all of them. They do nothing when they run.

ghost use Rattle.std.specs.Prelude.{◌≡◌, ℕ, List, Result, Ok};
ghost use Rattle.room_msg.specs.Messages.{IsReadAs, IsWholeMessage};
ghost use Rattle.room_msg.specs.Texts.{message_text};
ghost use Rattle.room_msg.specs.declared.fault.MsgFault.{MsgFault};
ghost use Rattle.room_msg.specs.declared.message.Message.{Message};

/// Bytes are read as one message alone, or have one first fault.
pub fn reading_is_unique()
    ensures { (bytes : List ℕ) (answer other : Result Message MsgFault)
        → IsReadAs bytes answer → IsReadAs bytes other → answer ≡ other }
{}

/// Each list of bytes is read as a message, or has a first fault.
pub fn reading_exists()
    ensures { (bytes : List ℕ) → (answer : Result Message MsgFault) × IsReadAs bytes answer }
{}

/// Every message that is read is whole.
pub fn read_messages_are_whole()
    ensures { (bytes : List ℕ) (message : Message) → IsReadAs bytes (Ok message)
        → IsWholeMessage message }
{}

/// The text of a whole message is read as that message.
pub fn text_is_read_back()
    ensures { (message : Message) → IsWholeMessage message
        → IsReadAs (message_text message) (Ok message) }
{}
