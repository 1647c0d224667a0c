//! Elements in scene order.

ghost use Rattle.std.specs.Prelude.{◌≡◌, OnOk, IfOk};
ghost use Rattle.std.specs.Ordering.{is_lt};
ghost use Rattle.elem.specs.Order.{HaveDistinctIds};
ghost use Rattle.view.specs.Shown.{comes_before, in_scene_order};

use elem::Element;
use std::alloc::AllocError;
use std::cmp::Ordering;

/// Sorts elements of distinct ids by index, none last, and then by id.
pub(crate) fn sort(elements: &mut Vec<Element>) -> Result<(), AllocError>
    requires { HaveDistinctIds elements.old.items }
    ensures { OnOk result (elements.new.items ≡ in_scene_order elements.old.items) }
{
    elements.sort_by(scene_order)
}

/// The order of a scene: by index, none last, and then by id.
pub(crate) fn scene_order(e: &Element, other: &Element) -> Ordering
    ensures { is_lt result ≡ comes_before e.now other.now }
{
    match (&e.index, &other.index) {
        (Some(key), Some(other_key)) => key.cmp(other_key).then(e.id.cmp(&other.id)),
        (Some(_), None) => Ordering::Less,
        (None, Some(_)) => Ordering::Greater,
        (None, None) => e.id.cmp(&other.id),
    }
}
