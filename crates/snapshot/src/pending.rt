//! What has changed from some elements to those that are stored.

ghost use Rattle.std.specs.Prelude.{◌≡◌, ◌⊎◌, ◌++◌, [], ◌∷◌, true, false, List as Items, Some, option_copied, Contains, IfOk, IfSome, OnOk, IsTrue, ◌↔◌};
ghost use Rattle.frac_keys.specs.Keys.{bytes_less};
ghost use Rattle.frac_keys.specs.Rising.{are_rising};
ghost use Rattle.delta.specs.Facts.{part_ids};
ghost use Rattle.delta.specs.Pairs.{Pair, IsChanged, IsUnchanged, EntryStandsFor, pair_with};
ghost use Rattle.elem_store.specs.Updates as updates;
ghost use Rattle.undo_model.specs.Carrying.{with_put, with_all_put};
ghost use Rattle.snapshot.specs.Pending.{pairs_since};
ghost use Rattle.snapshot.specs.Touched.{AreUntouched};
ghost use Rattle.snapshot.specs.inner.Touched.{HasPutStored};

use crate::captured::{find, put};
use delta::{Part, are_one_kind, difference};
use elem::{Element, SharedElement, same, same_but_stamp};
use elem_store::Store;
use json_text::Text;
use std::alloc::{AllocError, Global};
use std::collections::BTreeSet;

/// The parts from the elements to the stored ones.
pub(crate) fn parts_since(
    alloc: Global,
    elements: &Vec<SharedElement>,
    store: &Store,
) -> Result<Vec<Part>, AllocError>
    requires { are_rising (updates.ids_of elements.now.items) ≡ true }
    ensures { IfOk result
        (λ parts. EntryStandsFor parts.items (pairs_since elements.now.items store.now.elements)) }
{
    let mut parts = Vec::new(alloc);
    for i in 0..store.len() {
        if let Some(e) = store.at(i) {
            note(alloc, &mut parts, find(elements, &e.id), e)?;
        }
    }
    Ok(parts)
}

/// The parts from the elements to other ones.
pub(crate) fn parts_to(
    alloc: Global,
    elements: &Vec<SharedElement>,
    news: &Vec<SharedElement>,
) -> Result<Vec<Part>, AllocError>
    requires elements { are_rising (updates.ids_of elements.now.items) ≡ true }
    requires news { are_rising (updates.ids_of news.now.items) ≡ true }
    ensures { IfOk result
        (λ parts. EntryStandsFor parts.items (pairs_since elements.now.items news.now.items)) }
{
    let mut parts = Vec::new(alloc);
    for shared in news {
        let e = shared.get();
        note(alloc, &mut parts, find(elements, &e.id), e)?;
    }
    Ok(parts)
}

/// Adds the part from an element, if there was one, to a new one of a greater id, if it has
/// changed.
fn note(
    alloc: Global,
    parts: &mut Vec<Part>,
    old: Option<&Element>,
    new: &Element,
) -> Result<(), AllocError>
    requires { IfSome (option_copied old) (λ old. old.id ≡ new.now.id) }
    ensures { (pairs : Items Pair) → EntryStandsFor parts.old.items pairs
        → ((pair : Pair) → Contains pairs pair → bytes_less pair.after.id new.now.id ≡ true)
        → OnOk result (EntryStandsFor parts.new.items
        (pairs ++ pair_with (option_copied old.entry) new.now ∷ [])) }
{
    if has_changed(old, new) {
        parts.push(difference(alloc, old, new)?)?;
    }
    Ok(())
}

/// Whether an element has changed, outside the stamp and without a change of its kind.
fn has_changed(old: Option<&Element>, new: &Element) -> bool
    requires { IfSome (option_copied old) (λ old. old.id ≡ new.now.id) }
    ensures changed { IsTrue result ↔ IsChanged (pair_with (option_copied old.entry) new.now) }
    ensures unchanged { result ≡ false → IsUnchanged (pair_with (option_copied old.entry) new.now) }
{
    match old {
        Some(old) => are_one_kind(&old.kind, &new.kind) && !same_but_stamp(old, new),
        None => !new.deleted,
    }
}

/// The ids of the parts.
pub(crate) fn ids_of(alloc: Global, parts: &Vec<Part>) -> Result<Vec<Text>, AllocError>
    ensures { IfOk result (λ ids. ids.items ≡ part_ids parts.now.items) }
{
    let mut ids = Vec::new(alloc);
    for part in parts.as_slice() {
        ids.push(part.id.try_clone()?)?;
    }
    Ok(ids)
}

/// The stored elements, copied.
pub(crate) fn copies_of(alloc: Global, store: &Store) -> Result<Vec<SharedElement>, AllocError>
    ensures exact { IfOk result (λ copies. copies.items ≡ store.now.elements) }
    ensures ordered { IfOk result (λ copies. are_rising (updates.ids_of copies.items) ≡ true) }
{
    let mut copies = Vec::new(alloc);
    for i in 0..store.len() {
        if let Some(e) = store.at(i) {
            copies.push(SharedElement::copy(alloc, e)?)?;
        }
    }
    Ok(copies)
}

/// Copies of the stored elements of these ids that aren't the same among the elements.
pub(crate) fn differing(
    alloc: Global,
    elements: &Vec<SharedElement>,
    store: &Store,
    touched: &BTreeSet<Text>,
) -> Result<Vec<SharedElement>, AllocError>
    requires rise { are_rising (updates.ids_of elements.now.items) ≡ true }
    requires untouched { AreUntouched touched.now.keys elements.now.items store.now.elements }
    ensures over { IfOk result (λ copies. with_all_put copies.items elements.now.items
        ≡ with_all_put store.now.elements elements.now.items) }
    ensures ordered { IfOk result (λ copies. are_rising (updates.ids_of copies.items) ≡ true) }
    ensures stored { are_rising (updates.ids_of store.now.elements) ≡ true }
{
    // No more differ than were touched or are stored.
    let mut copies = Vec::with_capacity(alloc, touched.len().min(store.len()))?;
    for id in touched.iter() {
        put_differing(alloc, &mut copies, find(elements, id), store.get(id))?;
    }
    Ok(copies)
}

/// Puts a copy of what is stored of an id, unless nothing is or the old element is the same.
fn put_differing(
    alloc: Global,
    copies: &mut Vec<SharedElement>,
    old: Option<&Element>,
    stored: Option<&Element>,
) -> Result<(), AllocError>
    requires { are_rising (updates.ids_of copies.old.items) ≡ true }
    ensures { OnOk result
        (HasPutStored copies.old.items (option_copied old.entry)
        (option_copied stored.entry) copies.new.items) }
{
    match (old, stored) {
        (_, None) => Ok(()),
        (Some(old), Some(new)) if same(old, new) => Ok(()),
        (_, Some(new)) => put(copies, SharedElement::copy(alloc, new)?),
    }
}
