//! Telling kinds apart.

ghost use Rattle.std.specs.Prelude.{◌≡◌, ◌↔◌, IsTrue};

use elem::Kind;

/// Whether two kinds are the same. It takes no memory.
pub fn are_one_kind(kind: &Kind, other: &Kind) -> bool
    ensures { IsTrue result ↔ (kind.now ≡ other.now) }
{
    match (kind, other) {
        (Kind::Rectangle, Kind::Rectangle) => true,
        (Kind::Diamond, Kind::Diamond) => true,
        (Kind::Ellipse, Kind::Ellipse) => true,
        (Kind::Arrow, Kind::Arrow) => true,
        (Kind::Line, Kind::Line) => true,
        (Kind::Freedraw, Kind::Freedraw) => true,
        (Kind::Text, Kind::Text) => true,
        (Kind::Image, Kind::Image) => true,
        (Kind::Frame, Kind::Frame) => true,
        (Kind::Magicframe, Kind::Magicframe) => true,
        (Kind::Iframe, Kind::Iframe) => true,
        (Kind::Embeddable, Kind::Embeddable) => true,
        (Kind::Other(name), Kind::Other(other)) => name == other,
        _ => false,
    }
}
