//! The ids of the elements that an effect may change.

ghost use Rattle.std.specs.Prelude.{◌≡◌, ℕ, List as Items, [], ◌∷◌, ◌||◌, Some, true, false, bytes_eq, is_some, IfOk, OnOk};
ghost use Rattle.std.specs.BTreeMap.{get};
ghost use Rattle.std.specs.BTreeSet.{contains};
ghost use Rattle.std.specs.Cmp.Lexicographic.{slice_cmp};
ghost use Rattle.std.specs.Ordering.{nat_cmp};
ghost use Rattle.elem.specs.ElementValue.{ElementValue};
ghost use Rattle.elem_store.specs.Updates.{element_of, is_among};
ghost use Rattle.links.specs.Names.{is_id, target_of};
ghost use Rattle.links.specs.Steps.{names_id};
ghost use Rattle.effects.specs.inner.Concerning.{DeletesLive, HasNamers, HaveLinked, IsWithin, LeavesOthers};
ghost use Rattle.effects.specs.Lookups.{IsLookup};
ghost use Rattle.effects.specs.inner.Prepared.{made_by};

use crate::effect::Effect;
use crate::finding::shown_element;
use crate::linking::{Label, Link};
use crate::lookup::Lookup;
use crate::placing::Keys;
use elem::{Binding, Element};
use json_text::Text;
use links::rows_of;
use std::alloc::{AllocError, Global};
use std::collections::BTreeSet;

/// The ids of the elements that an effect may change: it leaves each other live element as it is.
pub(crate) fn concerned(
    alloc: Global,
    lookup: &Lookup<'_>,
    effect: &Effect,
) -> Result<BTreeSet<Text>, AllocError>
    requires lookup { IsLookup lookup.now }
    requires live { DeletesLive effect.now lookup.now.store.now.elements }
    ensures { IfOk result (LeavesOthers (made_by effect.now) lookup.now.store.now.elements) }
{
    match effect {
        Effect::Settle { keys } => ids_with_keys(alloc, keys),
        Effect::Place { keys, id, .. } => placed_ids(alloc, keys, id),
        Effect::Set { id, .. } => id_alone(alloc, id),
        Effect::Delete { ids } => deleted_ids(alloc, lookup, ids),
        Effect::Link { link } => linked_ids(alloc, link),
        Effect::Label { label } => labelled_ids(alloc, lookup, label),
        Effect::Unlabel { text, old, .. } => unlabelled_ids(alloc, text, old),
        Effect::Frame { ids, .. } => copied(alloc, ids),
        Effect::Group { ids, .. } => copied(alloc, ids),
        Effect::Ungroup { ids, .. } => copied(alloc, ids),
    }
}

/// The ids that have keys here.
fn ids_with_keys(alloc: Global, keys: &Keys) -> Result<BTreeSet<Text>, AllocError>
    ensures { IfOk result (λ ids. (id : Items ℕ) → contains (slice_cmp nat_cmp) ids id
        ≡ is_some (get (slice_cmp nat_cmp) keys.now id)) }
{
    let mut ids = BTreeSet::new(alloc);
    for id in keys.keys() {
        add(&mut ids, id)?;
    }
    Ok(ids)
}

/// The ids that have keys here, and one more.
fn placed_ids(alloc: Global, keys: &Keys, id: &Text) -> Result<BTreeSet<Text>, AllocError>
    ensures { IfOk result (λ ids. (other : Items ℕ) → contains (slice_cmp nat_cmp) ids other
        ≡ (bytes_eq other id.now || is_some (get (slice_cmp nat_cmp) keys.now other))) }
{
    let mut ids = ids_with_keys(alloc, keys)?;
    add(&mut ids, id)?;
    Ok(ids)
}

/// One id alone.
fn id_alone(alloc: Global, id: &Text) -> Result<BTreeSet<Text>, AllocError>
    ensures { IfOk result (λ ids. (other : Items ℕ) → contains (slice_cmp nat_cmp) ids other
        ≡ bytes_eq other id.now) }
{
    let mut ids = BTreeSet::new(alloc);
    add(&mut ids, id)?;
    Ok(ids)
}

/// The ids, copied.
fn copied(alloc: Global, ids: &BTreeSet<Text>) -> Result<BTreeSet<Text>, AllocError>
    ensures { IfOk result (λ copy. (id : Items ℕ) → contains (slice_cmp nat_cmp) copy id
        ≡ contains (slice_cmp nat_cmp) ids.now id) }
{
    let mut copy = BTreeSet::new(alloc);
    add_set(&mut copy, ids)?;
    Ok(copy)
}

/// The ids of an arrow, of what its end names then, and of what it named before.
fn linked_ids(alloc: Global, link: &Link) -> Result<BTreeSet<Text>, AllocError>
    ensures { IfOk result (λ ids. (other : Items ℕ) → contains (slice_cmp nat_cmp) ids other
        ≡ (is_id other link.now.old
        || (is_id other (target_of link.now.binding) || bytes_eq other link.now.arrow))) }
{
    let mut ids = id_alone(alloc, &link.arrow)?;
    add_target(&mut ids, &link.binding)?;
    add_name(&mut ids, &link.old)?;
    Ok(ids)
}

/// The ids of a text, of its container, of the one before, and of who names the container.
fn labelled_ids(
    alloc: Global,
    lookup: &Lookup<'_>,
    label: &Label,
) -> Result<BTreeSet<Text>, AllocError>
    requires { IsLookup lookup.now }
    ensures own { IfOk result (λ ids. (other : Items ℕ) → contains (slice_cmp nat_cmp) ids other
        ≡ false
        → (is_id other label.now.old
        || (bytes_eq other label.now.container || bytes_eq other label.now.text)) ≡ false) }
    ensures namers { IfOk result (HasNamers lookup.now.store.now.elements label.now.container) }
{
    let mut ids = id_alone(alloc, &label.text)?;
    add(&mut ids, &label.container)?;
    add_name(&mut ids, &label.old)?;
    add_all(&mut ids, lookup.names.namers(&label.container))?;
    Ok(ids)
}

/// The ids of a text and of its container.
fn unlabelled_ids(
    alloc: Global,
    text: &Text,
    old: &Option<Text>,
) -> Result<BTreeSet<Text>, AllocError>
    ensures { IfOk result (λ ids. (other : Items ℕ) → contains (slice_cmp nat_cmp) ids other
        ≡ (is_id other old.now || bytes_eq other text.now)) }
{
    let mut ids = id_alone(alloc, text)?;
    add_name(&mut ids, old)?;
    Ok(ids)
}

/// The ids, those that may be unsettled, and who names the elements of the ids or is named by them.
fn deleted_ids(
    alloc: Global,
    lookup: &Lookup<'_>,
    ids: &BTreeSet<Text>,
) -> Result<BTreeSet<Text>, AllocError>
    requires { IsLookup lookup.now }
    ensures own { IfOk result (λ all. (id : Items ℕ) → contains (slice_cmp nat_cmp) all id ≡ false
        → (contains (slice_cmp nat_cmp) lookup.now.unsettled.now id
        || contains (slice_cmp nat_cmp) ids.now id)
        ≡ false) }
    ensures linked { IfOk result
        (HaveLinked lookup.now.store.now.elements lookup.now.shown.now ids.now.keys) }
{
    let mut all = copied(alloc, ids)?;
    add_set(&mut all, lookup.unsettled)?;
    add_linked(alloc, &mut all, lookup, ids)?;
    Ok(all)
}

/// Adds who names the elements of these ids or is named by them.
fn add_linked(
    alloc: Global,
    all: &mut BTreeSet<Text>,
    lookup: &Lookup<'_>,
    ids: &BTreeSet<Text>,
) -> Result<(), AllocError>
    requires { IsLookup lookup.now }
    ensures kept { OnOk result (IsWithin all.old all.new) }
    ensures linked { OnOk result
        (HaveLinked lookup.now.store.now.elements lookup.now.shown.now ids.now.keys all.new) }
{
    for id in ids {
        add_linked_to(alloc, all, lookup, id)?;
    }
    Ok(())
}

/// Adds who names an element, and whom it names where it is shown.
fn add_linked_to(
    alloc: Global,
    all: &mut BTreeSet<Text>,
    lookup: &Lookup<'_>,
    id: &Text,
) -> Result<(), AllocError>
    requires { IsLookup lookup.now }
    ensures kept { OnOk result (IsWithin all.old all.new) }
    ensures linked { OnOk result
        (HaveLinked lookup.now.store.now.elements lookup.now.shown.now (id.now ∷ []) all.new) }
{
    add_all(all, lookup.names.namers(id))?;
    add_named_by(alloc, all, lookup, id)
}

/// Adds what a shown element names.
fn add_named_by(
    alloc: Global,
    all: &mut BTreeSet<Text>,
    lookup: &Lookup<'_>,
    id: &Text,
) -> Result<(), AllocError>
    requires { IsLookup lookup.now }
    ensures kept { OnOk result (IsWithin all.old all.new) }
    ensures named { OnOk result ((e : ElementValue) (other : Items ℕ)
        → element_of lookup.now.shown.now id.now ≡ Some e → names_id other e ≡ true
        → contains (slice_cmp nat_cmp) all.new other ≡ true) }
{
    match shown_element(lookup, id) {
        Some(e) => add_named(alloc, all, e),
        None => Ok(()),
    }
}

/// Adds what an element names.
fn add_named(alloc: Global, ids: &mut BTreeSet<Text>, e: &Element) -> Result<(), AllocError>
    ensures { OnOk result ((id : Items ℕ) → contains (slice_cmp nat_cmp) ids.new id
        ≡ (names_id id e.now || contains (slice_cmp nat_cmp) ids.old id)) }
{
    let rows = rows_of(alloc, e)?;
    for row in rows.as_slice() {
        add(ids, &row.named)?;
    }
    Ok(())
}

/// Adds an id.
fn add(ids: &mut BTreeSet<Text>, id: &Text) -> Result<(), AllocError>
    ensures { OnOk result ((other : Items ℕ) → contains (slice_cmp nat_cmp) ids.new other
        ≡ (bytes_eq other id.now || contains (slice_cmp nat_cmp) ids.old other)) }
{
    ids.insert(id.try_clone()?)?;
    Ok(())
}

/// Adds a name, if there is one.
fn add_name(ids: &mut BTreeSet<Text>, name: &Option<Text>) -> Result<(), AllocError>
    ensures { OnOk result ((other : Items ℕ) → contains (slice_cmp nat_cmp) ids.new other
        ≡ (is_id other name.now || contains (slice_cmp nat_cmp) ids.old other)) }
{
    match name {
        Some(id) => add(ids, id),
        None => Ok(()),
    }
}

/// Adds the target of a binding, if there is one.
fn add_target(ids: &mut BTreeSet<Text>, binding: &Option<Binding>) -> Result<(), AllocError>
    ensures { OnOk result ((other : Items ℕ) → contains (slice_cmp nat_cmp) ids.new other
        ≡ (is_id other (target_of binding.now) || contains (slice_cmp nat_cmp) ids.old other)) }
{
    match binding {
        Some(binding) => add(ids, &binding.target),
        None => Ok(()),
    }
}

/// Adds ids.
fn add_all(ids: &mut BTreeSet<Text>, others: &[Text]) -> Result<(), AllocError>
    ensures { OnOk result ((id : Items ℕ) → contains (slice_cmp nat_cmp) ids.new id
        ≡ (is_among others.now id || contains (slice_cmp nat_cmp) ids.old id)) }
{
    for id in others {
        add(ids, id)?;
    }
    Ok(())
}

/// Adds the ids of a set.
fn add_set(ids: &mut BTreeSet<Text>, others: &BTreeSet<Text>) -> Result<(), AllocError>
    ensures { OnOk result ((id : Items ℕ) → contains (slice_cmp nat_cmp) ids.new id
        ≡ (contains (slice_cmp nat_cmp) others.now id || contains (slice_cmp nat_cmp) ids.old id)) }
{
    for id in others {
        add(ids, id)?;
    }
    Ok(())
}
