//! The stored elements that an effect concerns, of which each live one may change.

ghost use Rattle.std.specs.Prelude.{◌≡◌, ◌≢◌, ◌++◌, [], Some, None, true, false, find, if◌then◌else◌, IfErr, IfOk, OnOk};
ghost use Rattle.std.specs.List.{cons_option};
ghost use Rattle.std.specs.Option.{option_map};
ghost use Rattle.elem.specs.Facts.{greatest_whole};
ghost use Rattle.elem.specs.Stamp.{stamped};
ghost use Rattle.effects.specs.Changed as changes;
ghost use Rattle.effects.specs.Changed.{OnFault, is_full, refusal_at};
ghost use Rattle.effects.specs.inner.Concerning as concerning;
ghost use Rattle.effects.specs.inner.Concerning.{is_full_at, LeavesOthers};
ghost use Rattle.effects.specs.Differing.{differs};
ghost use Rattle.effects.specs.inner.Prepared.{made_by, IsSoundEffect};
ghost use Rattle.effects.specs.declared.refusal.Refusal.TheVariants as refusals;
ghost use Rattle.elem_store.specs.Updates.{ids_of};
ghost use Rattle.frac_keys.specs.Rising.{are_rising};

use crate::effect::Effect;
use crate::kinds::is_live;
use crate::refusal::Refusal;
use board_base::Stop;
use delta::AtLimit;
use elem::{Element, Stamp, same_but_stamp};
use elem_store::Store;
use json_text::Text;
use std::alloc::{AllocError, Global};
use std::collections::BTreeSet;

/// The changed elements of an effect that leaves all but the elements of these ids as they are, in
/// the order of their ids.
pub(crate) fn changes_of(
    alloc: Global,
    store: &Store,
    effect: &Effect,
    ids: &BTreeSet<Text>,
    stamp: Stamp,
) -> Result<Vec<Element>, Stop<Refusal>>
    requires sound { IsSoundEffect effect.now }
    requires ordered { are_rising (ids_of store.now.elements) ≡ true }
    requires others { LeavesOthers (made_by effect.now) store.now.elements ids.now }
    ensures changed { IfOk result
        (λ changed. changed.items ≡ changes.changes_of
        (made_by effect.now) stamp.time stamp.nonce store.now.elements) }
    ensures none_full { IfOk result
        (λ _. find (is_full (made_by effect.now)) store.now.elements ≡ None) }
    ensures full { IfErr result
        (λ stop. OnFault stop
        (λ refusal. option_map refusal_at
        (find (is_full (made_by effect.now)) store.now.elements) ≡ Some refusal)) }
{
    let mut changed = Vec::new(alloc);
    for id in ids {
        let new = change_at(alloc, store, effect, id, stamp)?;
        note(&mut changed, new)?;
    }
    Ok(changed)
}

/// What an effect makes of the stored element of an id, stamped, if that is live and changes.
fn change_at(
    alloc: Global,
    store: &Store,
    effect: &Effect,
    id: &Text,
    stamp: Stamp,
) -> Result<Option<Element>, Stop<Refusal>>
    requires sound { IsSoundEffect effect.now }
    ensures changed { IfOk result
        (λ new. new ≡ concerning.change_at store.now.elements (made_by effect.now)
        stamp.time stamp.nonce id.now) }
    ensures free { IfOk result (λ _. is_full_at store.now.elements (made_by effect.now) id.now
        ≡ false) }
    ensures full { IfErr result
        (λ stop. OnFault stop (λ refusal.
        (is_full_at store.now.elements (made_by effect.now) id.now ≡ true)
        × (refusal ≡ refusals.VersionFull id.now))) }
{
    match store.get(id) {
        Some(e) => change_of(alloc, effect, e, stamp),
        None => Ok(None),
    }
}

/// Adds an element, if there is one.
fn note(changed: &mut Vec<Element>, new: Option<Element>) -> Result<(), AllocError>
    ensures { OnOk result (changed.new.items ≡ changed.old.items ++ cons_option new []) }
{
    if let Some(new) = new {
        changed.push(new)?;
    }
    Ok(())
}

/// What an effect makes of an element, stamped, if that is live and changes.
fn change_of(
    alloc: Global,
    effect: &Effect,
    e: &Element,
    stamp: Stamp,
) -> Result<Option<Element>, Stop<Refusal>>
    requires sound { IsSoundEffect effect.now }
    ensures changed { IfOk result
        (λ new. new ≡ changes.change_of (made_by effect.now) stamp.time stamp.nonce e.now) }
    ensures free { IfOk result (λ _. is_full (made_by effect.now) e.now ≡ false) }
    ensures full { IfErr result
        (λ stop. OnFault stop (λ refusal. (is_full (made_by effect.now) e.now ≡ true)
        × (refusal ≡ refusal_at e.now))) }
{
    if !is_live(e) {
        return Ok(None);
    }
    let Some(new) = changed(alloc, effect, e)? else {
        return Ok(None);
    };
    Ok(Some(stamped(new, stamp)?))
}

/// What an effect makes of an element, if that changes.
fn changed(alloc: Global, effect: &Effect, e: &Element) -> Result<Option<Element>, AllocError>
    requires sound { IsSoundEffect effect.now }
    ensures { IfOk result
        (λ new. new ≡ (if differs e.now (made_by effect.now e.now) then Some
        (made_by effect.now e.now) else None)) }
{
    let Some(new) = effect.apply(alloc, e)? else {
        return Ok(None);
    };
    if same_but_stamp(e, &new) {
        return Ok(None);
    }
    Ok(Some(new))
}

/// The element with the stamp of a change.
fn stamped(mut e: Element, stamp: Stamp) -> Result<Element, Stop<Refusal>>
    ensures stamped { IfOk result (λ new. new ≡ stamped stamp.time stamp.nonce e) }
    ensures free { IfOk result (λ _. e.version ≢ greatest_whole) }
    ensures full { IfErr result (λ stop. OnFault stop (λ refusal. (e.version ≡ greatest_whole)
        × (refusal ≡ refusal_at e))) }
{
    match delta::stamp(&mut e, stamp) {
        Ok(()) => Ok(e),
        Err(AtLimit) => Err(full_at(&e)),
    }
}

/// The refusal of a change of an element at the greatest version.
fn full_at(e: &Element) -> Stop<Refusal>
    ensures { OnFault result (λ refusal. refusal ≡ refusal_at e.now) }
{
    match e.id.try_clone() {
        Ok(id) => Stop::Fault(Refusal::VersionFull(id)),
        Err(_) => Stop::Memory,
    }
}
