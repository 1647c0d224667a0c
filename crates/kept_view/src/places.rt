//! Elements by their ids and by their places.

ghost use Rattle.std.specs.Prelude.{◌≡◌, ◌<◌, true, length, option_copied, IfErr, IfOk, IfSome, IsSomeAnd, IsTrue, All, slice_set, vec_len, vec_capacity};
ghost use Rattle.std.specs.Ordering.{nat_cmp};
ghost use Rattle.std.specs.Cmp.Lexicographic.{slice_cmp};
ghost use Rattle.frac_keys.specs.Rising.{are_rising};
ghost use Rattle.elem_store.specs.Places.{IsAt, IsGapFor};
ghost use Rattle.elem_store.specs.Updates as updates;
ghost use Rattle.elem_store.specs.Updates.{ids_of};
ghost use Rattle.kept_view.specs.inner.Putting.{IsWithin, all_put};

use crate::order::scene_order;
use elem::{Element, SharedElement};
use json_text::Text;
use std::cmp::Ordering;

/// An element, and the place at which it is put.
#[derive(Drop)]
pub(crate) struct Put {
    pub(crate) at: usize,
    pub(crate) e: SharedElement,
}

/// The place of the element of an id among elements in the order of their ids, or that which it
/// would have.
pub(crate) fn place_of(elements: &Vec<SharedElement>, id: &Text) -> Result<usize, usize>
    ensures found { IfOk result (IsAt elements.now.items id.now) }
    ensures absent { are_rising (ids_of elements.now.items) ≡ true
        → IfErr result (IsGapFor elements.now.items id.now) }
{
    elements.binary_search_by(|e| id_order(e, id))
}

/// How the id of an element compares with another one.
fn id_order(e: &SharedElement, id: &Text) -> Ordering
    ensures { result ≡ slice_cmp nat_cmp e.now.id id.now }
{
    e.id().as_bytes().cmp(id.as_bytes())
}

/// The element of an id among elements in the order of their ids.
pub(crate) fn element_of<'a>(elements: &'a Vec<SharedElement>, id: &Text) -> Option<&'a Element>
    requires { are_rising (ids_of elements.now.items) ≡ true }
    ensures { option_copied result ≡ updates.element_of elements.now.items id.now }
{
    match shared_of(elements, id) {
        Some(e) => Some(e.get()),
        None => None,
    }
}

/// The same, as it is shared.
pub(crate) fn shared_of<'a>(
    elements: &'a Vec<SharedElement>,
    id: &Text,
) -> Option<&'a SharedElement>
    requires { are_rising (ids_of elements.now.items) ≡ true }
    ensures { option_copied result ≡ updates.element_of elements.now.items id.now }
{
    match place_of(elements, id) {
        Ok(i) => Some(&elements[i]),
        Err(_) => None,
    }
}

/// The place of what is shown of this element among the shown elements, if it is found: they stand
/// in scene order.
pub(crate) fn place_shown(
    live: &Vec<SharedElement>,
    shown: &Vec<SharedElement>,
    e: &Element,
) -> Option<usize>
    ensures { IfSome result (IsAt shown.now.items e.now.id) }
{
    let i = shown.binary_search_by(|s| order_of(live, s, e)).ok()?;
    is_at(shown, i, &e.id).then_some(i)
}

/// Whether the element at this place is of this id.
fn is_at(elements: &Vec<SharedElement>, i: usize, id: &Text) -> bool
    ensures { IsTrue result → IsAt elements.now.items id.now i }
{
    match elements.get(i) {
        Some(e) => has_id(e, id),
        None => false,
    }
}

/// Whether an element is of this id.
fn has_id(e: &SharedElement, id: &Text) -> bool
    ensures { IsTrue result → e.now.id ≡ id.now }
{
    *e.id() == *id
}

/// How the stored element of a shown one compares with another stored one in scene order.
pub(crate) fn order_of(live: &Vec<SharedElement>, shown: &SharedElement, e: &Element) -> Ordering {
    match place_of(live, shown.id()) {
        Ok(i) => scene_order(live[i].get(), e),
        Err(_) => Ordering::Less,
    }
}

/// Puts elements at their places.
pub(crate) fn put_all(elements: &mut Vec<SharedElement>, puts: Vec<Put>)
    requires { All (IsWithin elements.old.items) puts.items }
    ensures items { elements.new.items ≡ all_put puts.items elements.old.items }
    ensures len { vec_len elements.new ≡ vec_len elements.old }
    ensures room { vec_capacity elements.new ≡ vec_capacity elements.old }
{
    for put in puts {
        let Put { at, e } = put;
        replace(elements, at, e);
    }
}

/// Puts the element at this place.
pub(crate) fn replace(elements: &mut Vec<SharedElement>, place: usize, e: SharedElement)
    requires { place < length elements.old.items }
    ensures items { elements.new.items ≡ slice_set elements.old.items place e }
    ensures len { vec_len elements.new ≡ vec_len elements.old }
    ensures room { vec_capacity elements.new ≡ vec_capacity elements.old }
{
    elements[place] = e;
}
