//! Telling parts of elements apart, without memory.

ghost use Rattle.std.specs.Prelude.{◌≡◌, ◌↔◌, ◌<◌, length, IsTrue};
ghost use Rattle.members.specs.Standing.{nth};

use crate::kind::{Kind, Role};
use crate::parts::{Binding, BoundRef};
use crate::shared_members::SharedMembers;
use board_base::List;
use frac_keys::Key;
use json_text::{Raw, Text};
use members::Members;

/// Values that can be told apart without memory.
pub(crate) trait Same {
    /// Whether the two are equal.
    fn same(&self, other: &Self) -> bool
        ensures { IsTrue result ↔ (self.now ≡ other.now) };
}

impl Same for Text {
    fn same(&self, other: &Text) -> bool {
        self.as_bytes() == other.as_bytes()
    }
}

impl Same for Raw {
    fn same(&self, other: &Raw) -> bool {
        self.as_bytes() == other.as_bytes()
    }
}

impl Same for Key {
    fn same(&self, other: &Key) -> bool {
        self.as_bytes() == other.as_bytes()
    }
}

impl Same for SharedMembers {
    fn same(&self, other: &SharedMembers) -> bool {
        let (members, others) = (self.as_members(), other.as_members());
        members.len() == others.len() && same_members(members, others)
    }
}

/// Whether members are equal to as many others.
fn same_members(members: &Members, others: &Members) -> bool
    requires { length members.now ≡ length others.now }
    ensures { IsTrue result ↔ (members.now ≡ others.now) }
{
    for at in 0..members.len() {
        if !same_at(members, others, at) {
            return false;
        }
    }
    true
}

/// Whether the members at an index are equal.
fn same_at(members: &Members, others: &Members, at: usize) -> bool
    requires { (at < length members.now) × (at < length others.now) }
    ensures { IsTrue result ↔ (nth members.now at ≡ nth others.now at) }
{
    members.name(at) == others.name(at) && members.value(at) == others.value(at)
}

impl Same for BoundRef {
    fn same(&self, other: &BoundRef) -> bool {
        self.id.same(&other.id) && self.role == other.role
    }
}

impl Same for Binding {
    fn same(&self, other: &Binding) -> bool {
        self.target.same(&other.target) && self.rest.same(&other.rest)
    }
}

impl Same for Kind {
    fn same(&self, other: &Kind) -> bool {
        match (self, other) {
            (Kind::Rectangle, Kind::Rectangle) => true,
            (Kind::Diamond, Kind::Diamond) => true,
            (Kind::Ellipse, Kind::Ellipse) => true,
            (Kind::Arrow, Kind::Arrow) => true,
            (Kind::Line, Kind::Line) => true,
            (Kind::Freedraw, Kind::Freedraw) => true,
            (Kind::Text, Kind::Text) => true,
            (Kind::Image, Kind::Image) => true,
            (Kind::Frame, Kind::Frame) => true,
            (Kind::Magicframe, Kind::Magicframe) => true,
            (Kind::Iframe, Kind::Iframe) => true,
            (Kind::Embeddable, Kind::Embeddable) => true,
            (Kind::Other(name), Kind::Other(other)) => name.same(other),
            _ => false,
        }
    }
}

impl<T: Same> Same for Option<T> {
    fn same(&self, other: &Option<T>) -> bool {
        match (self, other) {
            (None, None) => true,
            (Some(item), Some(other)) => item.same(other),
            _ => false,
        }
    }
}

impl<T: Same> Same for List<T> {
    fn same(&self, other: &List<T>) -> bool {
        let (items, others) = (self.as_slice(), other.as_slice());
        items.len() == others.len()
            && items
                .iter()
                .zip(others)
                .all(|(item, other)| item.same(other))
    }
}
