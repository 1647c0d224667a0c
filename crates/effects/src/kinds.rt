//! Tests on what an element is.

ghost use Rattle.std.specs.Prelude.{◌≡◌};
ghost use Rattle.frames_groups.specs.Frames.{is_frame_kind};
ghost use Rattle.links.specs.Names as names;
ghost use Rattle.view.specs.Shown as shown;

use elem::{Element, Kind};

/// Whether an element isn't deleted.
pub(crate) fn is_live(e: &Element) -> bool
    ensures { result ≡ shown.is_live e.now }
{
    !e.deleted
}

/// Whether an element is an arrow.
pub(crate) fn is_arrow(e: &Element) -> bool
    ensures { result ≡ names.is_arrow e.now.kind }
{
    matches!(e.kind, Kind::Arrow)
}

/// Whether an element is a text.
pub(crate) fn is_text(e: &Element) -> bool
    ensures { result ≡ names.is_text e.now.kind }
{
    matches!(e.kind, Kind::Text)
}

/// Whether an element may have a text in it.
pub(crate) fn is_container(e: &Element) -> bool
    ensures { result ≡ names.can_hold_text e.now.kind }
{
    matches!(
        e.kind,
        Kind::Rectangle | Kind::Diamond | Kind::Ellipse | Kind::Arrow
    )
}

/// Whether an element is a frame or a magicframe.
pub(crate) fn is_frame(e: &Element) -> bool
    ensures { result ≡ is_frame_kind e.now.kind }
{
    matches!(e.kind, Kind::Frame | Kind::Magicframe)
}

/// Whether an arrow may be bound to an element.
pub(crate) fn is_target(e: &Element) -> bool
    ensures { result ≡ names.is_target e.now }
{
    can_be_bound_to(&e.kind) && e.container.is_none()
}

/// Whether an arrow may be bound to elements of this kind that have no container.
fn can_be_bound_to(kind: &Kind) -> bool
    ensures { result ≡ names.can_be_bound_to kind.now }
{
    !matches!(
        kind,
        Kind::Arrow | Kind::Line | Kind::Freedraw | Kind::Other(_)
    )
}
