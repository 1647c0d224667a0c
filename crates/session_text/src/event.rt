//! The events of a session.

use board_base::List;
use board_commands::{Capture, Command};
use elem::Element;
use json_text::Text;

/// What is delivered of a message. Messages are counted from 0, and so are the elements of one.
#[derive(Clone, Copy, Debug, PartialEq, Eq)]
pub enum Pick {
    /// All elements of the message with this number.
    All(u64),
    /// Of the message with the first number the element with the second one, if it has so many.
    One(u64, u64),
}

/// An event of a session: what happens at one replica. Replicas are counted from 0.
pub enum Event {
    /// A command of the user there, at a time.
    Change {
        at: u64,
        time: u64,
        capture: Capture,
        command: Command,
    },
    /// Elements from elsewhere, as a message.
    Update {
        elements: List<Element>,
    },
    /// What is picked of messages comes to a replica, as one list.
    Deliver {
        to: u64,
        picks: List<Pick>,
    },
    /// Updates of this element are held off from now on.
    Hold {
        at: u64,
        id: Text,
    },
    /// Updates of this element are taken again.
    Release {
        at: u64,
        id: Text,
    },
    /// The user undoes a step.
    Undo {
        at: u64,
        time: u64,
    },
    /// The user redoes a step.
    Redo {
        at: u64,
        time: u64,
    },
}

// By hand, so that whoever drops an event sees one call and not what it holds.
impl Drop for Event {
    fn drop(self) {
        match self {
            Event::Change {
                at: _,
                time: _,
                capture: _,
                command: _command,
            } => {}
            Event::Update {
                elements: _elements,
            } => {}
            Event::Deliver {
                to: _,
                picks: _picks,
            } => {}
            Event::Hold { at: _, id: _id } => {}
            Event::Release { at: _, id: _id } => {}
            Event::Undo { at: _, time: _ } => {}
            Event::Redo { at: _, time: _ } => {}
        }
    }
}
