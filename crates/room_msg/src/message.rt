//! A message.

use board_base::List;
use elem::Element;
use json_text::Raw;

/// A message of a room.
#[derive(Drop)]
pub enum Message {
    /// All elements of the room, as one that joins gets them: `SCENE_INIT`.
    Init(List<Element>),
    /// Changed elements: `SCENE_UPDATE`.
    Update(List<Element>),
    /// A message of any other type, whole: what it says is left to those who get it.
    Presence(Raw),
}
