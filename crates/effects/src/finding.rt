//! Shown elements by their ids.

ghost use Rattle.std.specs.Prelude.{◌≡◌, None, Some, option_copied, slice_get, IfNone, IfSome, IsTrue};
ghost use Rattle.std.specs.List.{position};
ghost use Rattle.elem.specs.Order.{has_id};
ghost use Rattle.elem_store.specs.Places.{IsAt};
ghost use Rattle.elem_store.specs.Updates.{element_of};
ghost use Rattle.effects.specs.Lookups.{IsLookup};

use crate::lookup::Lookup;
use elem::{Element, SharedElement};
use elem_store::Store;
use json_text::Text;
use std::cmp::Ordering;

/// Elements are few if all that is shown is more than so many times as much: then each is looked
/// up, and else there is one walk over what is shown.
const FEW: usize = 32;

/// Whether so many elements are few beside all that are shown.
pub(crate) fn are_few(count: usize, lookup: &Lookup<'_>) -> bool {
    count < lookup.shown.len() / FEW
}

/// The shown element of an id, if there is one.
pub(crate) fn shown_element<'a>(lookup: &Lookup<'a>, id: &Text) -> Option<&'a Element>
    requires { IsLookup lookup.now }
    ensures { option_copied result ≡ element_of lookup.now.shown.now id.now }
{
    match shown_place(lookup, id) {
        Some(i) => element_at(lookup.shown, i),
        None => None,
    }
}

/// The element at a place.
pub(crate) fn element_at(elements: &[SharedElement], i: usize) -> Option<&Element>
    ensures { option_copied result ≡ slice_get elements.now i }
{
    match elements.get(i) {
        Some(e) => Some(e.get()),
        None => None,
    }
}

/// The place of the shown element of an id, if there is one.
pub(crate) fn shown_place(lookup: &Lookup<'_>, id: &Text) -> Option<usize>
    ensures found { IfSome result (IsAt lookup.now.shown.now id.now) }
    ensures absent { IfNone result (element_of lookup.now.shown.now id.now ≡ None) }
{
    match found_place(lookup, id) {
        Some(i) => Some(i),
        None => first_place(lookup.shown, id),
    }
}

/// The shown element of an id, if it is found without a walk over what is shown.
pub(crate) fn found_element<'a>(lookup: &Lookup<'a>, id: &Text) -> Option<&'a Element>
    requires { IsLookup lookup.now }
    ensures { IfSome result (λ e. element_of lookup.now.shown.now id.now ≡ Some e.now) }
{
    let i = found_place(lookup, id)?;
    element_at(lookup.shown, i)
}

/// The place of the shown element of an id, if it is found without a walk over what is shown.
pub(crate) fn found_place(lookup: &Lookup<'_>, id: &Text) -> Option<usize>
    ensures { IfSome result (IsAt lookup.now.shown.now id.now) }
{
    match place_by_key(lookup, id) {
        Some(i) => Some(i),
        None => place_by_order(lookup, id),
    }
}

/// The place of the shown element of an id, if it has the key that is stored: the keys of what is
/// shown rise.
fn place_by_key(lookup: &Lookup<'_>, id: &Text) -> Option<usize>
    ensures { IfSome result (IsAt lookup.now.shown.now id.now) }
{
    let e = lookup.store.get(id)?;
    let i = lookup
        .shown
        .binary_search_by(|s| key_order(s.get(), e))
        .ok()?;
    is_at(lookup.shown, i, id).then_some(i)
}

/// The place of the shown element of an id, if it is found by the order in which what is stored
/// stands: what is shown stands in that order.
fn place_by_order(lookup: &Lookup<'_>, id: &Text) -> Option<usize>
    ensures { IfSome result (IsAt lookup.now.shown.now id.now) }
{
    let e = lookup.store.get(id)?;
    let i = lookup
        .shown
        .binary_search_by(|s| stored_order(lookup.store, s.get(), e))
        .ok()?;
    is_at(lookup.shown, i, id).then_some(i)
}

/// How what is stored of a shown element compares with a stored one, by key and then by id.
fn stored_order(store: &Store, s: &Element, e: &Element) -> Ordering {
    match store.get(&s.id) {
        Some(stored) => key_order(stored, e).then(stored.id.cmp(&e.id)),
        None => Ordering::Less,
    }
}

/// How the keys of two elements compare; none is beyond all keys.
fn key_order(e: &Element, other: &Element) -> Ordering {
    match (&e.index, &other.index) {
        (Some(key), Some(other)) => key.as_bytes().cmp(other.as_bytes()),
        (None, Some(_)) => Ordering::Greater,
        (Some(_), None) => Ordering::Less,
        (None, None) => Ordering::Equal,
    }
}

/// Whether the element at this place is of this id.
fn is_at(elements: &[SharedElement], i: usize, id: &Text) -> bool
    ensures { IsTrue result → IsAt elements.now id.now i }
{
    match elements.get(i) {
        Some(e) => has_same_id(e, id),
        None => false,
    }
}

/// Whether an element is of this id.
fn has_same_id(e: &SharedElement, id: &Text) -> bool
    ensures { IsTrue result → e.now.id ≡ id.now }
{
    *e.id() == *id
}

/// The first place of an element of this id, if there is one.
fn first_place(elements: &[SharedElement], id: &Text) -> Option<usize>
    ensures { result ≡ position (has_id id.now) elements.now }
{
    elements.iter().position(|e| has_id(e, id))
}

/// Whether an element is of this id.
fn has_id(e: &SharedElement, id: &Text) -> bool
    ensures { result ≡ has_id id.now e.now }
{
    *id == *e.id()
}
