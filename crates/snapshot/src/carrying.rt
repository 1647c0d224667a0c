//! Carrying stored changes into elements, so that they are no part of what is captured next.

ghost use Rattle.std.specs.Prelude.{◌≡◌, true, Some, option_copied, IfOk, IfSome, OnOk, OnErr, if◌then◌else◌};
ghost use Rattle.std.specs.Option.{option_map};
ghost use Rattle.frac_keys.specs.Rising.{are_rising};
ghost use Rattle.elem.specs.Facts.{IsElement};
ghost use Rattle.elem_store.specs.Updates as updates;
ghost use Rattle.elem_store.specs.Updates.{element_of, ids_of, is_taken, takings};
ghost use Rattle.undo_model.specs.Carrying.{with_put, with_all_put, carried_over, carried_all};
ghost use Rattle.undo_model.specs.Undoing.{undone};
ghost use Rattle.snapshot.specs.Carried.{IsCarried, HasCarried};
ghost use Rattle.snapshot.specs.inner.Carried.{carried_to};

use crate::captured::{find, put, put_made};
use delta::{apply, are_one_kind, difference};
use elem::{Element, SharedElement, beats};
use elem_store::Store;
use json_text::Text;
use std::alloc::{AllocError, Global};

/// Carries a stored change into the elements.
pub(crate) fn carry(
    alloc: Global,
    elements: &mut Vec<SharedElement>,
    old: Option<&Element>,
    new: &Element,
) -> Result<(), AllocError>
    requires rise { are_rising (ids_of elements.old.items) ≡ true }
    requires id { IfSome (option_copied old) (λ old. old.id ≡ new.now.id) }
    ensures ok { OnOk result
        (HasCarried elements.old.items (option_copied old.entry) new.now elements.new.items) }
    ensures over { OnOk result
        (elements.new.items ≡ carried_over (option_copied old.entry) new.now elements.old.items) }
    ensures err { OnErr result (elements.new.items ≡ elements.old.items) }
{
    let made = carried(alloc, find(elements, &new.id), old, new)?;
    put_made(alloc, elements, made)
}

/// What a stored change makes of the captured element of its id.
fn carried(
    alloc: Global,
    captured: Option<&Element>,
    old: Option<&Element>,
    new: &Element,
) -> Result<Option<Element>, AllocError>
    requires captured_id { IfSome (option_copied captured) (λ captured. captured.id ≡ new.now.id) }
    requires id { IfSome (option_copied old) (λ old. old.id ≡ new.now.id) }
    ensures is { IfOk result
        (IsCarried (option_copied captured.entry) (option_copied old.entry) new.now) }
    ensures to { IfOk result
        (λ made. made ≡ carried_to (option_copied captured.entry)
        (option_copied old.entry) new.now) }
{
    match old {
        Some(old) => changed(alloc, captured, old, new),
        None => Ok(Some(new.try_clone()?)),
    }
}

/// What a change of a stored element makes of the captured one: a new element of another kind takes
/// its place.
fn changed(
    alloc: Global,
    captured: Option<&Element>,
    old: &Element,
    new: &Element,
) -> Result<Option<Element>, AllocError>
    requires captured_id { IfSome (option_copied captured) (λ captured. captured.id ≡ new.now.id) }
    requires id { old.now.id ≡ new.now.id }
    ensures is { IfOk result (IsCarried (option_copied captured.entry) (Some old.now) new.now) }
    ensures to { IfOk result
        (λ made. made ≡ carried_to (option_copied captured.entry) (Some old.now) new.now) }
{
    if are_one_kind(&old.kind, &new.kind) {
        follow(alloc, captured, old, new)
    } else {
        Ok(Some(new.try_clone()?))
    }
}

/// Makes the change from one element to another one of its kind in the captured one, if there is
/// one.
fn follow(
    alloc: Global,
    captured: Option<&Element>,
    old: &Element,
    new: &Element,
) -> Result<Option<Element>, AllocError>
    requires captured_id { IfSome (option_copied captured) (λ captured. captured.id ≡ new.now.id) }
    requires id { old.now.id ≡ new.now.id }
    requires kind { old.now.kind ≡ new.now.kind }
    requires elements { IsElement old.now × IsElement new.now }
    ensures is { IfOk result (IsCarried (option_copied captured.entry) (Some old.now) new.now) }
    ensures to { IfOk result (λ made.
        made ≡ option_map (undone (record { before = new.now; after = old.now }))
        (option_copied captured.entry)) }
{
    let Some(captured) = captured else {
        return Ok(None);
    };
    let part = difference(alloc, Some(old), new)?;
    let made = apply(alloc, &part, captured)?;
    Ok(Some(made))
}

/// The elements that carrying makes of the captured ones, for each of a list that becomes stored.
pub(crate) fn carrying(
    alloc: Global,
    captured: &Vec<SharedElement>,
    store: &Store,
    list: &[Element],
) -> Result<Vec<SharedElement>, AllocError>
    requires { are_rising (ids_of captured.now.items) ≡ true }
    ensures step { IfOk result (λ step. with_all_put step.items captured.now.items
        ≡ carried_all (takings store.now.elements list.now) captured.now.items) }
    ensures ordered { IfOk result (λ step. are_rising (ids_of step.items) ≡ true) }
{
    let mut newer = Vec::new(alloc);
    let mut step = Vec::new(alloc);
    for e in list {
        carry_one(alloc, captured, store, &mut newer, &mut step, e)?;
    }
    Ok(step)
}

/// Carries an element into the step, if it becomes stored over the store with the newer ones.
fn carry_one(
    alloc: Global,
    captured: &Vec<SharedElement>,
    store: &Store,
    newer: &mut Vec<SharedElement>,
    step: &mut Vec<SharedElement>,
    e: &Element,
) -> Result<(), AllocError>
    requires captured { are_rising (ids_of captured.now.items) ≡ true }
    requires newer { are_rising (ids_of newer.old.items) ≡ true }
    requires step { are_rising (ids_of step.old.items) ≡ true }
    ensures newer { let stored = with_all_put newer.old.items store.now.elements in
        OnOk result (newer.new.items
        ≡ (if is_taken stored e.now then with_put e.now newer.old.items else newer.old.items)) }
    ensures step { let stored = with_all_put newer.old.items store.now.elements in
        let now = with_all_put step.old.items captured.now.items in
        OnOk result (with_all_put step.new.items captured.now.items
        ≡ (if is_taken stored e.now then carried_over
        (element_of stored e.now.id) e.now now else now)) }
    ensures ordered { OnOk result (are_rising (ids_of step.new.items) ≡ true) }
    ensures stored { are_rising (ids_of store.now.elements) ≡ true }
{
    let old = stored_over(newer, store, &e.id);
    if !is_newer(e, old) {
        return Ok(());
    }
    let made = carried(alloc, find_over(step, captured, &e.id), old, e)?;
    put_made(alloc, step, made)?;
    put(newer, SharedElement::copy(alloc, e)?)
}

/// The element of this id: a newer one, or what is stored.
fn stored_over<'a>(
    newer: &'a Vec<SharedElement>,
    store: &'a Store,
    id: &Text,
) -> Option<&'a Element>
    requires { are_rising (ids_of newer.now.items) ≡ true }
    ensures element { option_copied result ≡ element_of
        (with_all_put newer.now.items store.now.elements) id.now }
    ensures ordered { are_rising (ids_of store.now.elements) ≡ true }
{
    let stored = store.get(id);
    match find(newer, id) {
        Some(e) => Some(e),
        None => stored,
    }
}

/// The element of this id: that of the step, or the captured one.
fn find_over<'a>(
    step: &'a Vec<SharedElement>,
    captured: &'a Vec<SharedElement>,
    id: &Text,
) -> Option<&'a Element>
    requires step { are_rising (ids_of step.now.items) ≡ true }
    requires captured { are_rising (ids_of captured.now.items) ≡ true }
    ensures { option_copied result ≡ element_of
        (with_all_put step.now.items captured.now.items) id.now }
{
    match find(step, id) {
        Some(e) => Some(e),
        None => find(captured, id),
    }
}

/// Whether the element becomes stored over the old one of its id, if there is one.
fn is_newer(e: &Element, old: Option<&Element>) -> bool
    ensures { result ≡ updates.is_newer e.now (option_copied old.entry) }
{
    match old {
        Some(old) => beats(e, old),
        None => true,
    }
}
