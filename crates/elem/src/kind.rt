//! What an element is, and what a listing entry is for.

ghost use Rattle.std.specs.Prelude.{◌≡◌, IfOk};

use json_text::Text;
use std::alloc::AllocError;

/// What an element is.
pub enum Kind {
    Rectangle,
    Diamond,
    Ellipse,
    Arrow,
    Line,
    Freedraw,
    Text,
    Image,
    Frame,
    Magicframe,
    Iframe,
    Embeddable,
    /// Any other type, by its name.
    Other(Text),
}

// By hand, so that whoever drops a kind sees one call and not what it holds.
impl Drop for Kind {
    fn drop(self) {
        match self {
            Kind::Rectangle => {}
            Kind::Diamond => {}
            Kind::Ellipse => {}
            Kind::Arrow => {}
            Kind::Line => {}
            Kind::Freedraw => {}
            Kind::Text => {}
            Kind::Image => {}
            Kind::Frame => {}
            Kind::Magicframe => {}
            Kind::Iframe => {}
            Kind::Embeddable => {}
            Kind::Other(_text) => {}
        }
    }
}

/// What a listing entry is for.
#[derive(Clone, Copy, Debug, PartialEq, Eq)]
pub enum Role {
    /// An arrow, an end of which is bound to the element.
    Arrow,
    /// A text that stands in the element.
    Text,
}

impl Kind {
    /// An equal kind.
    pub fn try_clone(&self) -> Result<Kind, AllocError>
        ensures { IfOk result (λ copy. copy ≡ self.now) }
    {
        match self {
            Kind::Rectangle => Ok(Kind::Rectangle),
            Kind::Diamond => Ok(Kind::Diamond),
            Kind::Ellipse => Ok(Kind::Ellipse),
            Kind::Arrow => Ok(Kind::Arrow),
            Kind::Line => Ok(Kind::Line),
            Kind::Freedraw => Ok(Kind::Freedraw),
            Kind::Text => Ok(Kind::Text),
            Kind::Image => Ok(Kind::Image),
            Kind::Frame => Ok(Kind::Frame),
            Kind::Magicframe => Ok(Kind::Magicframe),
            Kind::Iframe => Ok(Kind::Iframe),
            Kind::Embeddable => Ok(Kind::Embeddable),
            Kind::Other(name) => Ok(Kind::Other(name.try_clone()?)),
        }
    }
}
