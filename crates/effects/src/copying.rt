//! The copies that a command makes.

ghost use Rattle.std.specs.Prelude.{◌≡◌, ℕ, List as Items, [], ◌++◌, map, slice_get, IfOk, IfSome, OnOk};
ghost use Rattle.std.specs.List.{cons_option};
ghost use Rattle.std.specs.BTreeSet.{BTreeSet as SetOf, contains};
ghost use Rattle.std.specs.Cmp.Lexicographic.{slice_cmp};
ghost use Rattle.std.specs.Ordering.{nat_cmp};
ghost use Rattle.effects.specs.Copying as copying;
ghost use Rattle.effects.specs.inner.Copied.{ArePlacesOf};
ghost use Rattle.effects.specs.inner.Prepared.{elements_among};
ghost use Rattle.effects.specs.Lookups.{IsLookup};

use crate::finding::{are_few, element_at, found_place};
use crate::lookup::Lookup;
use crate::placing::gap_at;
use crate::preparing::set_of;
use board_base::List;
use board_commands::Spot;
use copies::{copies, keyed_between};
use elem::{Element, SharedElement, Stamp};
use json_text::Text;
use std::alloc::{AllocError, Global};
use std::collections::BTreeSet;

/// The shown elements of these ids, in the order of the scene.
pub(crate) fn shown_among(
    alloc: Global,
    lookup: &Lookup<'_>,
    ids: &List<Text>,
) -> Result<List<Element>, AllocError>
    requires { IsLookup lookup.now }
    ensures { IfOk result (λ list. list ≡ copying.shown_among ids.now lookup.now.shown.now) }
{
    let ids = set_of(alloc, ids)?;
    if are_few(ids.len(), lookup) {
        if let Some(places) = places_found(alloc, lookup, &ids)? {
            return copied_at(alloc, lookup.shown, &places);
        }
    }
    copied_among(alloc, lookup.shown, &ids)
}

/// The places of the shown elements of these ids, if each is found without a walk.
fn places_found(
    alloc: Global,
    lookup: &Lookup<'_>,
    ids: &BTreeSet<Text>,
) -> Result<Option<BTreeSet<usize>>, AllocError>
    requires { IsLookup lookup.now }
    ensures { IfOk result (λ found. IfSome found (λ places.
        ArePlacesOf places ids.now lookup.now.shown.now)) }
{
    let mut places = BTreeSet::new(alloc);
    for id in ids {
        let Some(i) = found_place(lookup, id) else {
            return Ok(None);
        };
        places.insert(i)?;
    }
    Ok(Some(places))
}

/// The elements at these places, copied.
fn copied_at(
    alloc: Global,
    elements: &[SharedElement],
    places: &BTreeSet<usize>,
) -> Result<List<Element>, AllocError>
    ensures { IfOk result (λ list. (ids : SetOf (Items ℕ)) → ArePlacesOf places.now ids elements.now
        → list ≡ elements_among ids elements.now) }
{
    let mut list = Vec::with_capacity(alloc, places.len())?;
    for i in places {
        push_copy(&mut list, elements, *i)?;
    }
    Ok(List::from_vec(list))
}

/// Adds a copy of the element at this place, if there is one.
fn push_copy(
    list: &mut Vec<Element>,
    elements: &[SharedElement],
    i: usize,
) -> Result<(), AllocError>
    ensures { OnOk result (list.new.items
        ≡ list.old.items ++ cons_option (slice_get elements.now i) []) }
{
    match element_at(elements, i) {
        Some(e) => {
            list.push(e.try_clone()?)?;
            Ok(())
        }
        None => Ok(()),
    }
}

/// Those of the elements that are of these ids, copied.
fn copied_among(
    alloc: Global,
    elements: &[SharedElement],
    ids: &BTreeSet<Text>,
) -> Result<List<Element>, AllocError>
    ensures { IfOk result (λ list. list ≡ elements_among ids.now elements.now) }
{
    let mut list = Vec::new(alloc);
    for e in elements {
        if has_id_among(ids, e.get()) {
            list.push(e.get().try_clone()?)?;
        }
    }
    Ok(List::from_vec(list))
}

/// Whether the id of an element is one of these.
pub(crate) fn has_id_among(ids: &BTreeSet<Text>, e: &Element) -> bool
    ensures { result ≡ contains (slice_cmp nat_cmp) ids.now e.now.id }
{
    ids.contains(&e.id)
}

/// The copies of elements under a prefix, one above the other at a spot, as new ones.
pub(crate) fn copies_at(
    alloc: Global,
    lookup: &Lookup<'_>,
    originals: &List<Element>,
    prefix: &Text,
    spot: &Spot,
    stamp: Stamp,
) -> Result<List<Element>, AllocError>
    requires lookup { IsLookup lookup.now }
    ensures { IfOk result
        (λ new. new ≡ copying.copies_at lookup.now.shown.now originals.now prefix.now spot.now
        stamp.time stamp.nonce) }
{
    let gap = gap_at(lookup, spot, None);
    let copies = copies(alloc, originals.as_slice(), prefix)?;
    let copies = keyed_between(alloc, copies, gap.low, gap.high)?;
    all_as_new(alloc, copies, stamp)
}

/// The elements as new ones.
fn all_as_new(
    alloc: Global,
    elements: List<Element>,
    stamp: Stamp,
) -> Result<List<Element>, AllocError>
    ensures { IfOk result (λ new. new ≡ map (copying.as_new stamp.time stamp.nonce) elements) }
{
    let mut new = Vec::with_capacity(alloc, elements.as_slice().len())?;
    for e in elements.into_vec() {
        new.push(as_new(e, stamp))?;
    }
    Ok(List::from_vec(new))
}

/// The element as a new one: live and at the first version, with the stamp of a change.
pub(crate) fn as_new(mut e: Element, stamp: Stamp) -> Element
    ensures { result ≡ copying.as_new stamp.time stamp.nonce e }
{
    e.version = 1;
    e.nonce = stamp.nonce;
    e.updated = stamp.time;
    e.deleted = false;
    e
}
