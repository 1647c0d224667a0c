//! The commands of a user.

use board_base::List;
use elem::Element;
use json_text::{Member, Raw, Text};

/// How a change goes into the history of whoever makes it.
#[derive(Clone, Copy, Debug, PartialEq, Eq)]
pub enum Capture {
    /// It is an entry, together with what was pending.
    Now,
    /// It is pending until a later change, undo or redo.
    Later,
    /// It is no part of an entry, as what others change.
    Never,
}

/// An end of an arrow.
#[derive(Clone, Copy, Debug, PartialEq, Eq)]
pub enum Side {
    Start,
    End,
}

/// A place in the order of a scene.
pub enum Spot {
    /// Below all others.
    Bottom,
    /// Above all others.
    Top,
    /// Directly above the element of this id.
    After(Text),
}

// By hand, so that whoever drops a spot sees one call and not what it holds.
impl Drop for Spot {
    fn drop(self) {
        match self {
            Spot::Bottom => {}
            Spot::Top => {}
            Spot::After(_text) => {}
        }
    }
}

/// What a user asks of a board. An id is live if its element is stored and isn't deleted.
pub enum Command {
    /// The element becomes a new one, at a place in the order. Its other members are as given.
    Create {
        element: Element,
        spot: Spot,
    },
    /// A member gets a value; null gives the default where there is one.
    Set {
        id: Text,
        member: Text,
        value: Raw,
    },
    /// The elements become deleted, and nothing live names them.
    Delete {
        ids: List<Text>,
    },
    /// The element gets a place in the order.
    Place {
        id: Text,
        spot: Spot,
    },
    /// An end of an arrow is bound to a target, with these further members of the binding.
    Bind {
        arrow: Text,
        side: Side,
        target: Text,
        rest: List<Member>,
    },
    /// An end of an arrow is bound to nothing.
    Unbind {
        arrow: Text,
        side: Side,
    },
    /// The text becomes the one of a container.
    Label {
        container: Text,
        text: Text,
    },
    /// The text has no container.
    Unlabel {
        text: Text,
    },
    /// The elements are in a frame.
    Frame {
        ids: List<Text>,
        frame: Text,
    },
    /// The elements are in no frame.
    Unframe {
        ids: List<Text>,
    },
    /// The elements are in a group.
    Group {
        ids: List<Text>,
        group: Text,
    },
    /// The elements aren't in the group.
    Ungroup {
        ids: List<Text>,
        group: Text,
    },
    /// What the board shows of these elements is copied under a prefix, the copies one above the
    /// other at a place in the order. The prefix stands before each id and each group of a copy;
    /// copies name each other as their originals do.
    Duplicate {
        ids: List<Text>,
        prefix: Text,
        spot: Spot,
    },
    /// The same of given elements, whose ids are distinct.
    Paste {
        elements: List<Element>,
        prefix: Text,
        spot: Spot,
    },
}

// By hand, so that whoever drops a command sees one call and not what it holds.
impl Drop for Command {
    fn drop(self) {
        match self {
            Command::Create {
                element: _element,
                spot: _spot,
            } => {}
            Command::Set {
                id: _id,
                member: _member,
                value: _value,
            } => {}
            Command::Delete { ids: _ids } => {}
            Command::Place {
                id: _id,
                spot: _spot,
            } => {}
            Command::Bind {
                arrow: _arrow,
                side: _,
                target: _target,
                rest: _rest,
            } => {}
            Command::Unbind {
                arrow: _arrow,
                side: _,
            } => {}
            Command::Label {
                container: _container,
                text: _text,
            } => {}
            Command::Unlabel { text: _text } => {}
            Command::Frame {
                ids: _ids,
                frame: _frame,
            } => {}
            Command::Unframe { ids: _ids } => {}
            Command::Group {
                ids: _ids,
                group: _group,
            } => {}
            Command::Ungroup {
                ids: _ids,
                group: _group,
            } => {}
            Command::Duplicate {
                ids: _ids,
                prefix: _prefix,
                spot: _spot,
            } => {}
            Command::Paste {
                elements: _elements,
                prefix: _prefix,
                spot: _spot,
            } => {}
        }
    }
}
