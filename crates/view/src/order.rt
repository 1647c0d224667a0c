//! Elements in scene order.

ghost use Rattle.std.specs.Prelude.{◌≡◌, true, false, OnOk, IsPermutation};
ghost use Rattle.std.specs.Ordering.{is_lt};
ghost use Rattle.elem.specs.Order.{HaveDistinctIds};
ghost use Rattle.view.specs.Shown.{comes_before, in_scene_order, AreInSceneOrder};
ghost use Rattle.view.specs.inner.Spots.{elements_of};

use elem::Element;
use std::alloc::AllocError;
use std::cmp::Ordering;

/// A stored element, and where it stands in its store.
#[derive(Clone, Copy)]
pub(crate) struct SortedSpot<'a> {
    pub(crate) at: usize,
    pub(crate) element: &'a Element,
}

/// Sorts elements of distinct ids by index, none last, and then by id. The elements themselves stay
/// where they are. The fronts of their keys are sorted first: they stand together in memory, and
/// mostly leave nothing to do but to see that all are in order.
pub(crate) fn sort(spots: &mut Vec<SortedSpot<'_>>) -> Result<(), AllocError>
    requires { HaveDistinctIds (elements_of spots.old.items) }
    ensures sorted { OnOk result (elements_of spots.new.items
        ≡ in_scene_order (elements_of spots.old.items)) }
    ensures permutation { IsPermutation spots.old.items spots.new.items }
{
    spots.sort_by_cached_key(|spot| key_front(spot.element))?;
    spots.sort_by(|spot, other| scene_order(spot.element, other.element))
}

/// The first 16 bytes of an element's key as one number, the first of them the highest, with zeros
/// behind a shorter key; the greatest number where there is no key.
fn key_front(e: &Element) -> u128 {
    let Some(key) = &e.index else {
        return u128::MAX;
    };
    let bytes = key.as_bytes();
    if let Some(front) = bytes.first_chunk() {
        return u128::from_be_bytes(*front);
    }
    let mut front = [0; 16];
    front[..bytes.len()].copy_from_slice(bytes);
    u128::from_be_bytes(front)
}

/// Whether each of the elements comes before those behind it.
pub(crate) fn are_in_order(elements: &[Element]) -> bool
    ensures in_order { result ≡ true → AreInSceneOrder elements.now }
    ensures not_in_order { result ≡ false → AreInSceneOrder elements.now → ⊥ }
{
    elements.is_sorted_by(|e, next| scene_order(e, next).is_lt())
}

/// The order of a scene: by index, none last, and then by id.
fn scene_order(e: &Element, other: &Element) -> Ordering
    ensures { is_lt result ≡ comes_before e.now other.now }
{
    match (&e.index, &other.index) {
        (Some(key), Some(other_key)) => key.cmp(other_key).then(e.id.cmp(&other.id)),
        (Some(_), None) => Ordering::Less,
        (None, Some(_)) => Ordering::Greater,
        (None, None) => e.id.cmp(&other.id),
    }
}
