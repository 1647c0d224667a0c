//! Keys of the scene's order: settled ones, and those at a spot.

ghost use Rattle.std.specs.Prelude.{◌≡◌, ◌+◌, ◌<◌, List as Items, [], ◌∷◌, ◌++◌, ◌↔◌, true, IsTrue, IfOk, IfSome, OnOk, Some, drop, length, option_copied, slice_get};
ghost use Rattle.std.specs.BTreeMap.{Updates};
ghost use Rattle.std.specs.Cmp.Lexicographic.{slice_cmp};
ghost use Rattle.std.specs.Option.{unwrap_or};
ghost use Rattle.std.specs.Ordering.{nat_cmp};
ghost use Rattle.frac_keys.specs.Rising.{ends_rise, lies_between};
ghost use Rattle.elem.specs.ElementValue.{ElementValue};
ghost use Rattle.index_repair.specs.Keyed.{HaveRisingKeys};
ghost use Rattle.links.specs.Names.{is_id};
ghost use Rattle.effects.specs.Placing as placing;
ghost use Rattle.effects.specs.Placing.{others, key_within, key_at, gap_of, with_key_of};
ghost use Rattle.effects.specs.Lookups.{IsLookup};
ghost use Rattle.effects.specs.inner.Prepared.{HasKeys, elements_among, settled_in};

use crate::copying::has_id_among;
use crate::finding::{are_few, found_element, shown_place};
use crate::lookup::Lookup;
use board_commands::Spot;
use elem::{Element, SharedElement};
use frac_keys::{Key, between};
use json_text::Text;
use std::alloc::{AllocError, Global};
use std::collections::{BTreeMap, BTreeSet};

/// The keys of elements by their ids.
pub(crate) type Keys = BTreeMap<Text, Option<Key>>;

/// The keys beside a spot: of the element below it and of the one above it.
#[derive(Clone, Copy)]
pub(crate) struct Gap<'a> {
    pub(crate) low: Option<&'a Key>,
    pub(crate) high: Option<&'a Key>,
}

/// The keys with which the elements are shown that may be rekeyed.
pub(crate) fn rekeyed_keys(alloc: Global, lookup: &Lookup<'_>) -> Result<Keys, AllocError>
    requires { IsLookup lookup.now }
    ensures { IfOk result (λ keys. HasKeys keys
        (elements_among lookup.now.rekeyed.now lookup.now.shown.now)) }
{
    if are_few(lookup.rekeyed.len(), lookup) {
        if let Some(keys) = keys_found(alloc, lookup)? {
            return Ok(keys);
        }
    }
    keys_among(alloc, lookup.rekeyed, lookup.shown)
}

/// The same, if each of these elements is found without a walk.
fn keys_found(alloc: Global, lookup: &Lookup<'_>) -> Result<Option<Keys>, AllocError>
    requires { IsLookup lookup.now }
    ensures { IfOk result (λ found. IfSome found (λ keys. HasKeys keys
        (elements_among lookup.now.rekeyed.now lookup.now.shown.now))) }
{
    let mut keys = BTreeMap::new(alloc);
    for id in lookup.rekeyed {
        let Some(e) = found_element(lookup, id) else {
            return Ok(None);
        };
        put_key(&mut keys, id, &e.index)?;
    }
    Ok(Some(keys))
}

/// Puts the key of an id.
fn put_key(keys: &mut Keys, id: &Text, key: &Option<Key>) -> Result<(), AllocError>
    ensures { OnOk result (Updates (slice_cmp nat_cmp) keys.old keys.new id.now (Some key.now)) }
{
    let key = key_copied(key)?;
    keys.insert(id.try_clone()?, key)?;
    Ok(())
}

/// The keys of those of the elements that are of these ids; of one id the first counts.
fn keys_among(
    alloc: Global,
    ids: &BTreeSet<Text>,
    elements: &[SharedElement],
) -> Result<Keys, AllocError>
    ensures { IfOk result (λ keys. HasKeys keys (elements_among ids.now elements.now)) }
{
    let mut keys = BTreeMap::new(alloc);
    if ids.is_empty() {
        return Ok(keys);
    }
    for e in elements {
        note_among(&mut keys, ids, e.get())?;
    }
    Ok(keys)
}

/// Adds the key of one more element, if it is of these ids.
fn note_among(keys: &mut Keys, ids: &BTreeSet<Text>, e: &Element) -> Result<(), AllocError>
    ensures { OnOk result ((elements : Items ElementValue)
        → HasKeys keys.old (elements_among ids.now elements)
        → HasKeys keys.new (elements_among ids.now (elements ++ e.now ∷ []))) }
{
    if has_id_among(ids, e) {
        note_key(keys, e)?;
    }
    Ok(())
}

/// Adds the key of one more element.
fn note_key(keys: &mut Keys, e: &Element) -> Result<(), AllocError>
    ensures { OnOk result ((elements : Items ElementValue) → HasKeys keys.old elements
        → HasKeys keys.new (elements ++ e.now ∷ [])) }
{
    if keys.get(&e.id).is_some() {
        return Ok(());
    }
    let key = key_copied(&e.index)?;
    keys.insert(e.id.try_clone()?, key)?;
    Ok(())
}

/// A key, copied, if there is one.
fn key_copied(key: &Option<Key>) -> Result<Option<Key>, AllocError>
    ensures { IfOk result (λ copy. copy ≡ key.now) }
{
    key.as_ref().map(Key::try_clone).transpose()
}

/// The element with its key among these, or None where it has that.
pub(crate) fn settled(keys: &Keys, e: &Element) -> Result<Option<Element>, AllocError>
    ensures { IfOk result (λ new. unwrap_or new e.now ≡ settled_in keys.now e.now) }
{
    match keys.get(&e.id) {
        Some(key) => with_other_key(key, e),
        None => Ok(None),
    }
}

/// The element with this key, or None where it has it.
fn with_other_key(key: &Option<Key>, e: &Element) -> Result<Option<Element>, AllocError>
    ensures { IfOk result (λ new. unwrap_or new e.now ≡ record e.now { index = key.now }) }
{
    if are_same(key, &e.index) {
        return Ok(None);
    }
    let key = key_copied(key)?;
    Ok(Some(with_index(e.try_clone()?, key)))
}

/// Whether two keys are the same, or none is there.
fn are_same(key: &Option<Key>, other: &Option<Key>) -> bool
    ensures { IsTrue result ↔ (key.now ≡ other.now) }
{
    match (key, other) {
        (None, None) => true,
        (Some(key), Some(other)) => key.as_bytes() == other.as_bytes(),
        _ => false,
    }
}

/// The element with this index.
pub(crate) fn with_index(mut e: Element, index: Option<Key>) -> Element
    ensures { result ≡ record e { index = index } }
{
    e.index = index;
    e
}

/// The element with its key among these, or, if it is of the id, with this one; or None where it
/// has that.
pub(crate) fn placed(
    keys: &Keys,
    id: &Text,
    key: &Option<Key>,
    e: &Element,
) -> Result<Option<Element>, AllocError>
    ensures { IfOk result
        (λ new. unwrap_or new e.now ≡ with_key_of id.now key.now (settled_in keys.now e.now)) }
{
    if *id == e.id {
        return with_other_key(key, e);
    }
    settled(keys, e)
}

/// A key at a spot among the shown elements but the one of this id, if one is given: the old one if
/// it stands there.
pub(crate) fn key_at(
    alloc: Global,
    lookup: &Lookup<'_>,
    spot: &Spot,
    except: Option<&Text>,
    old: &Option<Key>,
) -> Result<Option<Key>, AllocError>
    requires { IsLookup lookup.now }
    ensures exact { IfOk result
        (λ key. key ≡ key_at lookup.now.shown.now spot.now (option_copied except.entry) old.now) }
    ensures inside { IfOk result
        (λ key. IfSome key
        (λ k. lies_between (gap_of lookup.now.shown.now spot.now (option_copied except.entry)).low
        (gap_of lookup.now.shown.now spot.now (option_copied except.entry)).high k ≡ true)) }
{
    let gap = gap_at(lookup, spot, except);
    key_within(alloc, gap.low, gap.high, old)
}

/// A key between two others: the old one if it lies there.
fn key_within(
    alloc: Global,
    low: Option<&Key>,
    high: Option<&Key>,
    old: &Option<Key>,
) -> Result<Option<Key>, AllocError>
    requires { ends_rise (option_copied low) (option_copied high) ≡ true }
    ensures exact { IfOk result
        (λ key. key ≡ key_within
        (record { low = option_copied low.entry; high = option_copied high.entry }) old.now) }
    ensures inside { IfOk result
        (λ key. IfSome key
        (λ k. lies_between (option_copied low.entry) (option_copied high.entry) k ≡ true)) }
{
    if lies_within(low, high, old) {
        return key_copied(old);
    }
    Ok(Some(between(alloc, low, high)?))
}

/// Whether a key lies strictly between two others.
fn lies_within(low: Option<&Key>, high: Option<&Key>, key: &Option<Key>) -> bool
    ensures { result ≡ placing.lies_within
        (record { low = option_copied low.entry; high = option_copied high.entry }) key.now }
{
    match key {
        Some(key) => rise(low, Some(key)) && rise(Some(key), high),
        None => false,
    }
}

/// Whether an end is less than another one; an absent end is beyond all keys.
fn rise(low: Option<&Key>, high: Option<&Key>) -> bool
    ensures { result ≡ ends_rise (option_copied low.entry) (option_copied high.entry) }
{
    match (low, high) {
        (Some(low), Some(high)) => low.as_bytes().cmp(high.as_bytes()).is_lt(),
        _ => true,
    }
}

/// The keys beside a spot among the shown elements but the one of this id, if one is given.
pub(crate) fn gap_at<'a>(lookup: &Lookup<'a>, spot: &Spot, except: Option<&Text>) -> Gap<'a>
    requires { IsLookup lookup.now }
    ensures low { option_copied result.low
        ≡ (gap_of lookup.now.shown.now spot.now (option_copied except.entry)).low }
    ensures high { option_copied result.high
        ≡ (gap_of lookup.now.shown.now spot.now (option_copied except.entry)).high }
    ensures rises { ends_rise (option_copied result.low) (option_copied result.high) ≡ true }
{
    match spot {
        Spot::Bottom => Gap {
            low: None,
            high: first_key(lookup.shown, except),
        },
        Spot::Top => Gap {
            low: last_key(lookup.shown, except),
            high: None,
        },
        Spot::After(below) => gap_above(lookup, below, except),
    }
}

/// The key of the first of the elements but the one of this id.
fn first_key<'a>(elements: &'a [SharedElement], except: Option<&Text>) -> Option<&'a Key>
    ensures { option_copied result
        ≡ placing.first_key (others (option_copied except.entry) elements.now) }
{
    let e = elements.iter().find(|e| !is_of(e, except))?;
    index_of(e)
}

/// The key of the last of the elements but the one of this id.
fn last_key<'a>(elements: &'a [SharedElement], except: Option<&Text>) -> Option<&'a Key>
    ensures { option_copied result
        ≡ placing.last_key (others (option_copied except.entry) elements.now) }
{
    let e = elements.iter().rev().find(|e| !is_of(e, except))?;
    index_of(e)
}

/// The keys of a shown element and of the one above it, among the shown elements but the one of
/// this id.
fn gap_above<'a>(lookup: &Lookup<'a>, below: &Text, except: Option<&Text>) -> Gap<'a>
    requires { IsLookup lookup.now }
    ensures low { option_copied result.low
        ≡ (placing.gap_above below.now
        (others (option_copied except.entry) lookup.now.shown.now)).low }
    ensures high { option_copied result.high
        ≡ (placing.gap_above below.now
        (others (option_copied except.entry) lookup.now.shown.now)).high }
    ensures rises { ends_rise (option_copied result.low) (option_copied result.high) ≡ true }
{
    match shown_place(lookup, below) {
        Some(i) if !is_excepted(below, except) => gap_over(lookup.shown, i, except),
        _ => Gap {
            low: None,
            high: None,
        },
    }
}

/// Whether an id is this one, if one is given.
fn is_excepted(id: &Text, except: Option<&Text>) -> bool
    ensures { result ≡ is_id id.now (option_copied except.entry) }
{
    match except {
        Some(other) => *id == *other,
        None => false,
    }
}

/// The key of the element at a place, and that of the one above it, among the elements but the one
/// of this id.
fn gap_over<'a>(elements: &'a [SharedElement], i: usize, except: Option<&Text>) -> Gap<'a>
    requires keys { HaveRisingKeys elements.now }
    requires within { i < length elements.now }
    ensures low { (e : ElementValue) → slice_get elements.now i ≡ Some e
        → option_copied result.low ≡ e.index }
    ensures high { option_copied result.high
        ≡ placing.first_key (others (option_copied except.entry) (drop (i + 1) elements.now)) }
    ensures rises { ends_rise (option_copied result.low) (option_copied result.high) ≡ true }
{
    let e = &elements[i];
    let (_, above) = elements.split_at(i + 1);
    Gap {
        low: index_of(e),
        high: first_key(above, except),
    }
}

/// Whether an element is of this id, if one is given.
fn is_of(e: &SharedElement, id: Option<&Text>) -> bool
    ensures { result ≡ placing.is_of (option_copied id.entry) e.now }
{
    match id {
        Some(id) => *id == *e.id(),
        None => false,
    }
}

/// The key of an element, if there is one.
fn index_of(e: &SharedElement) -> Option<&Key>
    ensures { option_copied result ≡ e.now.index }
{
    e.get().index.as_ref()
}
