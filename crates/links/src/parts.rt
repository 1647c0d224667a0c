//! What an element is and what it names.

ghost use Rattle.std.specs.Prelude.{◌≡◌, ◌&&◌, is_some};
ghost use Rattle.std.specs.Option.{option_copied};
ghost use Rattle.links.specs.Names as names;
ghost use Rattle.links.specs.Steps as steps;
ghost use Rattle.links.specs.Texts as texts;

use board_base::List;
use elem::{Binding, BoundRef, Element, Kind, Role};
use json_text::Text;

/// The id of an element.
pub(crate) fn id_of(e: &Element) -> &Text
    ensures { result.now ≡ e.now.id }
{
    &e.id
}

/// The container of an element.
pub(crate) fn container_of(e: &Element) -> Option<&Text>
    ensures { option_copied result ≡ e.now.container }
{
    e.container.as_ref()
}

/// The frame of an element.
pub(crate) fn frame_of(e: &Element) -> Option<&Text>
    ensures { option_copied result ≡ e.now.frame }
{
    e.frame.as_ref()
}

/// The listing of an element.
pub(crate) fn bound_of(e: &Element) -> &List<BoundRef>
    ensures { result.now ≡ e.now.bound }
{
    &e.bound
}

/// Whether an element may be the container of a text: a rectangle, a diamond, an ellipse or an
/// arrow. It takes no memory.
pub fn can_hold_text(e: &Element) -> bool
    ensures { result ≡ names.can_hold_text e.now.kind }
{
    matches!(
        e.kind,
        Kind::Rectangle | Kind::Diamond | Kind::Ellipse | Kind::Arrow
    )
}

/// Whether an element is a text. It takes no memory.
pub fn is_text(e: &Element) -> bool
    ensures { result ≡ names.is_text e.now.kind }
{
    matches!(e.kind, Kind::Text)
}

/// Whether an element is an arrow.
pub(crate) fn is_arrow(e: &Element) -> bool
    ensures { result ≡ names.is_arrow e.now.kind }
{
    matches!(e.kind, Kind::Arrow)
}

/// Whether an arrow may be bound to an element: it is of a kind that may be bound to, and has no
/// container. It takes no memory.
pub fn is_target(e: &Element) -> bool
    ensures { result ≡ names.is_target e.now }
{
    let kind = !matches!(
        e.kind,
        Kind::Arrow | Kind::Line | Kind::Freedraw | Kind::Other(_)
    );
    kind && e.container.is_none()
}

/// Whether an entry is for a text.
pub(crate) fn is_for_text(entry: &BoundRef) -> bool
    ensures { result ≡ texts.is_for_text entry.now.role }
{
    matches!(entry.role, Role::Text)
}

/// Whether an element is a text that has a container.
pub(crate) fn is_contained(e: &Element) -> bool
    ensures { result ≡ (names.is_text e.now.kind && is_some e.now.container) }
{
    is_text(e) && container_of(e).is_some()
}

/// Whether an element is a text that names one of this id as its container.
pub(crate) fn names_container(id: &Text, e: &Element) -> bool
    ensures { result ≡ names.names_container id.now e.now }
{
    is_text(e) && container_of(e).is_some_and(|container| id == container)
}

/// Whether an end is bound to an element of this id.
pub(crate) fn end_names(id: &Text, end: &Option<Binding>) -> bool
    ensures { result ≡ names.end_names id.now end.now }
{
    match end {
        Some(binding) => *id == binding.target,
        None => false,
    }
}

/// Whether an element is an arrow with an end that names one of this id.
pub(crate) fn has_end_at(id: &Text, e: &Element) -> bool
    ensures { result ≡ names.has_end_at id.now e.now }
{
    is_arrow(e) && (end_names(id, &e.start_binding) || end_names(id, &e.end_binding))
}

/// Whether an element links to this id: its container or one of its ends names it, whatever its
/// frame. It takes no memory.
pub fn links_to(id: &Text, e: &Element) -> bool
    ensures { result ≡ steps.links_to id.now e.now }
{
    container_of(e).is_some_and(|container| id == container)
        || end_names(id, &e.start_binding)
        || end_names(id, &e.end_binding)
}
