//! What a command looks up on the board before its effect is made.

ghost use Rattle.std.specs.Prelude.{◌≡◌, List as Items, Some, None, true, false, Contains, IfOk, IfSome};
ghost use Rattle.json_text.specs.Value.{IsCompact};
ghost use Rattle.elem.specs.ElementValue.{ElementValue};
ghost use Rattle.elem.specs.Facts.{IsBinding};
ghost use Rattle.links.specs.Names.{is_id, target_of};
ghost use Rattle.view.specs.Shown.{is_live};
ghost use Rattle.board_commands.specs.Limits.{IsWithinLimits, IsRest};
ghost use Rattle.effects.specs.inner.Concerning.{DeletesLive};
ghost use Rattle.effects.specs.Copying as copying;
ghost use Rattle.effects.specs.Linking as linking;
ghost use Rattle.effects.specs.Lookups.{IsLookup};
ghost use Rattle.effects.specs.Naming.{apart_from};
ghost use Rattle.effects.specs.Placing.{key_in, with_view_key};
ghost use Rattle.effects.specs.inner.Prepared.{elements_among, made_by, HasIds, HasKeys, IsSoundEffect, Prepares};
ghost use Rattle.effects.specs.Refusals.{first_missing, guarded, missing};
ghost use Rattle.effects.specs.Settings.{is_protected};
ghost use Rattle.board_commands.specs.declared.command.Command.TheVariants as commands;

use crate::copying::shown_among;
use crate::effect::Effect;
use crate::finding::shown_element;
use crate::linking::{Label, Link};
use crate::lookup::Lookup;
use crate::placing::{Keys, key_at, rekeyed_keys};
use board_base::List;
use board_commands::{Command, Side, Spot};
use elem::{Binding, BoundRef, Element, Role, SharedMembers};
use elem_store::Store;
use frac_keys::Key;
use json_text::{Member, Raw, Text};
use std::alloc::{AllocError, Global};
use std::collections::{BTreeMap, BTreeSet};

/// What a command makes of the live elements.
pub(crate) fn prepared(
    alloc: Global,
    lookup: &Lookup<'_>,
    command: &Command,
) -> Result<Effect, AllocError>
    requires live { missing lookup.now.store.now.elements command.now ≡ None }
    requires open { guarded command.now ≡ None }
    requires limits { IsWithinLimits command.now }
    requires lookup { IsLookup lookup.now }
    ensures { IfOk result (Prepares lookup.now.store.now.elements lookup.now.shown.now
        command.now) }
{
    let store = lookup.store;
    match command {
        Command::Create { element, spot } => settle(alloc, lookup, element, spot),
        Command::Set { id, member, value } => set(id, member, value),
        Command::Delete { ids } => delete(alloc, store, ids),
        Command::Place { id, spot } => place(alloc, lookup, id, spot),
        Command::Bind {
            arrow,
            side,
            target,
            rest,
        } => bind(alloc, store, arrow, *side, target, rest),
        Command::Unbind { arrow, side } => unbind(store, arrow, *side),
        Command::Label { container, text } => label(store, container, text),
        Command::Unlabel { text } => unlabel(store, text),
        Command::Frame { ids, frame } => frame_in(alloc, ids, frame),
        Command::Unframe { ids } => unframe(alloc, ids),
        Command::Group { ids, group } => group_in(alloc, ids, group),
        Command::Ungroup { ids, group } => ungroup(alloc, ids, group),
        Command::Duplicate { ids, .. } => {
            let originals = shown_among(alloc, lookup, ids)?;
            settle_for(alloc, lookup, &originals)
        }
        Command::Paste { elements, .. } => settle_for(alloc, lookup, elements),
    }
}

/// The effect of a new element on the others.
fn settle(
    alloc: Global,
    lookup: &Lookup<'_>,
    element: &Element,
    spot: &Spot,
) -> Result<Effect, AllocError>
    requires { IsLookup lookup.now }
    ensures { IfOk result
        (Prepares lookup.now.store.now.elements lookup.now.shown.now
        (commands.Create element.now spot.now)) }
{
    let keys = rekeyed_keys(alloc, lookup)?;
    Ok(Effect::Settle { keys })
}

/// The effect of copies of these elements on the others.
fn settle_for(
    alloc: Global,
    lookup: &Lookup<'_>,
    originals: &List<Element>,
) -> Result<Effect, AllocError>
    requires { IsLookup lookup.now }
    ensures exact { IfOk result (λ made. (e : ElementValue)
        → Contains lookup.now.store.now.elements e
        → is_live e ≡ true
        → made_by made e ≡ with_view_key (copying.settled_for originals.now lookup.now.shown.now)
        e) }
    ensures sound { IfOk result IsSoundEffect }
    ensures live { IfOk result (λ made. DeletesLive made lookup.now.store.now.elements) }
{
    let keys = keys_for(alloc, lookup, originals)?;
    Ok(Effect::Settle { keys })
}

/// The keys of what may be rekeyed, where these are copied; none where nothing is copied.
fn keys_for(
    alloc: Global,
    lookup: &Lookup<'_>,
    originals: &List<Element>,
) -> Result<Keys, AllocError>
    requires { IsLookup lookup.now }
    ensures { IfOk result (λ keys. HasKeys keys
        (copying.settled_for originals.now
        (elements_among lookup.now.rekeyed.now lookup.now.shown.now))) }
{
    if originals.as_slice().is_empty() {
        return Ok(BTreeMap::new(alloc));
    }
    rekeyed_keys(alloc, lookup)
}

/// The effect of giving a member a value.
fn set(id: &Text, member: &Text, value: &Raw) -> Result<Effect, AllocError>
    requires open { is_protected member.now ≡ false }
    requires nests { IsCompact 100 value.now }
    ensures { IfOk result (λ made. (stored view : Items ElementValue)
        → Prepares stored view (commands.Set id.now member.now value.now) made) }
{
    let id = id.try_clone()?;
    let member = member.try_clone()?;
    let value = value.try_clone()?;
    Ok(Effect::Set { id, member, value })
}

/// The effect of deleting elements.
fn delete(alloc: Global, store: &Store, ids: &List<Text>) -> Result<Effect, AllocError>
    requires { first_missing store.now.elements ids.now ≡ None }
    ensures { IfOk result (λ made. (view : Items ElementValue)
        → Prepares store.now.elements view (commands.Delete ids.now) made) }
{
    let ids = set_of(alloc, ids)?;
    Ok(Effect::Delete { ids })
}

/// The effect of putting elements in a frame.
fn frame_in(alloc: Global, ids: &List<Text>, frame: &Text) -> Result<Effect, AllocError>
    ensures { IfOk result (λ made. (stored view : Items ElementValue)
        → Prepares stored view (commands.Frame ids.now frame.now) made) }
{
    let ids = set_of(alloc, ids)?;
    let frame = Some(frame.try_clone()?);
    Ok(Effect::Frame { ids, frame })
}

/// The effect of taking elements out of their frames.
fn unframe(alloc: Global, ids: &List<Text>) -> Result<Effect, AllocError>
    ensures { IfOk result (λ made. (stored view : Items ElementValue)
        → Prepares stored view (commands.Unframe ids.now) made) }
{
    let ids = set_of(alloc, ids)?;
    Ok(Effect::Frame { ids, frame: None })
}

/// The effect of putting elements in a group.
fn group_in(alloc: Global, ids: &List<Text>, group: &Text) -> Result<Effect, AllocError>
    ensures { IfOk result (λ made. (stored view : Items ElementValue)
        → Prepares stored view (commands.Group ids.now group.now) made) }
{
    let ids = set_of(alloc, ids)?;
    let group = group.try_clone()?;
    Ok(Effect::Group { ids, group })
}

/// The effect of taking elements out of a group.
fn ungroup(alloc: Global, ids: &List<Text>, group: &Text) -> Result<Effect, AllocError>
    ensures { IfOk result (λ made. (stored view : Items ElementValue)
        → Prepares stored view (commands.Ungroup ids.now group.now) made) }
{
    let ids = set_of(alloc, ids)?;
    let group = group.try_clone()?;
    Ok(Effect::Ungroup { ids, group })
}

/// The ids as a set.
pub(crate) fn set_of(alloc: Global, ids: &List<Text>) -> Result<BTreeSet<Text>, AllocError>
    ensures { IfOk result (λ set. HasIds set ids.now) }
{
    let mut set = BTreeSet::new(alloc);
    for id in ids.as_slice() {
        set.insert(id.try_clone()?)?;
    }
    Ok(set)
}

/// The effect of placing an element.
fn place(alloc: Global, lookup: &Lookup<'_>, id: &Text, spot: &Spot) -> Result<Effect, AllocError>
    requires { IsLookup lookup.now }
    ensures { IfOk result
        (Prepares lookup.now.store.now.elements lookup.now.shown.now
        (commands.Place id.now spot.now)) }
{
    let keys = rekeyed_keys(alloc, lookup)?;
    let old = shown_key(lookup, id)?;
    let key = key_at(alloc, lookup, spot, Some(id), &old)?;
    let id = id.try_clone()?;
    Ok(Effect::Place { keys, id, key })
}

/// The key of the shown element of an id, if there is one.
fn shown_key(lookup: &Lookup<'_>, id: &Text) -> Result<Option<Key>, AllocError>
    requires { IsLookup lookup.now }
    ensures { IfOk result (λ key. key ≡ key_in lookup.now.shown.now id.now) }
{
    match shown_element(lookup, id) {
        Some(e) => key_of(e),
        None => Ok(None),
    }
}

/// The key of an element, copied, if there is one.
fn key_of(e: &Element) -> Result<Option<Key>, AllocError>
    ensures { IfOk result (λ key. key ≡ e.now.index) }
{
    e.index.as_ref().map(Key::try_clone).transpose()
}

/// The effect of binding an end of an arrow.
fn bind(
    alloc: Global,
    store: &Store,
    arrow: &Text,
    side: Side,
    target: &Text,
    rest: &List<Member>,
) -> Result<Effect, AllocError>
    requires { IsRest rest.now }
    ensures { IfOk result (λ made. (view : Items ElementValue)
        → Prepares store.now.elements view
        (commands.Bind arrow.now side target.now rest.now) made) }
{
    let list = rest.try_clone_with(Member::try_clone)?;
    let binding = Binding {
        target: target.try_clone()?,
        rest: SharedMembers::new(alloc, list)?,
    };
    link(store, arrow, side, Some(binding))
}

/// The effect of unbinding an end of an arrow.
fn unbind(store: &Store, arrow: &Text, side: Side) -> Result<Effect, AllocError>
    ensures { IfOk result (λ made. (view : Items ElementValue)
        → Prepares store.now.elements view (commands.Unbind arrow.now side) made) }
{
    link(store, arrow, side, None)
}

/// The effect of a new binding of an end of an arrow, or none.
fn link(
    store: &Store,
    arrow: &Text,
    side: Side,
    binding: Option<Binding>,
) -> Result<Effect, AllocError>
    requires { IfSome binding IsBinding }
    ensures exact { IfOk result (λ prepared. (e : ElementValue)
        → made_by prepared e ≡ linking.bound_to arrow.now side binding
        (linking.old_target store.now.elements arrow.now side) e) }
    ensures sound { IfOk result IsSoundEffect }
    ensures live { IfOk result (λ prepared. DeletesLive prepared store.now.elements) }
{
    let old = old_target(store, arrow, side)?;
    let old = apart_from_target(&binding, old);
    let entry = entry_of(arrow, Role::Arrow)?;
    let arrow = arrow.try_clone()?;
    let link = Link {
        arrow,
        side,
        binding,
        old,
        entry,
    };
    Ok(Effect::Link { link })
}

/// An entry of a listing.
fn entry_of(id: &Text, role: Role) -> Result<BoundRef, AllocError>
    ensures { IfOk result (λ entry. entry ≡ record { id = id.now; role = role }) }
{
    let id = id.try_clone()?;
    Ok(BoundRef { id, role })
}

/// What the end of the stored arrow alone names.
fn old_target(store: &Store, arrow: &Text, side: Side) -> Result<Option<Text>, AllocError>
    ensures { IfOk result (λ old. old ≡ linking.old_target store.now.elements arrow.now side) }
{
    match store.get(arrow) {
        Some(e) => named_by_end(e, side),
        None => Ok(None),
    }
}

/// What an end of an arrow alone names.
fn named_by_end(e: &Element, side: Side) -> Result<Option<Text>, AllocError>
    ensures { IfOk result (λ named. named ≡ linking.named_by_end side e.now) }
{
    match side {
        Side::Start => named_apart(&e.start_binding, &e.end_binding),
        Side::End => named_apart(&e.end_binding, &e.start_binding),
    }
}

/// What a binding names, unless another one names it, too.
fn named_apart(
    binding: &Option<Binding>,
    other: &Option<Binding>,
) -> Result<Option<Text>, AllocError>
    ensures { IfOk result
        (λ named. named ≡ apart_from (target_of other.now) (target_of binding.now)) }
{
    match binding {
        Some(binding) if !names(other, &binding.target) => Ok(Some(binding.target.try_clone()?)),
        _ => Ok(None),
    }
}

/// Whether a binding names this id.
fn names(binding: &Option<Binding>, id: &Text) -> bool
    ensures { result ≡ is_id id.now (target_of binding.now) }
{
    match binding {
        Some(binding) => *id == binding.target,
        None => false,
    }
}

/// The id, unless it is the target of a binding.
fn apart_from_target(binding: &Option<Binding>, id: Option<Text>) -> Option<Text>
    ensures { result ≡ apart_from (target_of binding.now) id }
{
    match id {
        Some(id) if !names(binding, &id) => Some(id),
        _ => None,
    }
}

/// The effect of a text's new container.
fn label(store: &Store, container: &Text, text: &Text) -> Result<Effect, AllocError>
    ensures { IfOk result (λ made. (view : Items ElementValue)
        → Prepares store.now.elements view (commands.Label container.now text.now) made) }
{
    let old = old_container(store, text)?;
    let old = apart_from_id(container, old);
    let entry = entry_of(text, Role::Text)?;
    let text = text.try_clone()?;
    let container = container.try_clone()?;
    let label = Label {
        text,
        container,
        old,
        entry,
    };
    Ok(Effect::Label { label })
}

/// The id, unless it is this other one.
fn apart_from_id(other: &Text, id: Option<Text>) -> Option<Text>
    ensures { result ≡ apart_from (Some other.now) id }
{
    match id {
        Some(id) if id != *other => Some(id),
        _ => None,
    }
}

/// The effect of taking a text out of its container.
fn unlabel(store: &Store, text: &Text) -> Result<Effect, AllocError>
    ensures { IfOk result (λ made. (view : Items ElementValue)
        → Prepares store.now.elements view (commands.Unlabel text.now) made) }
{
    let old = old_container(store, text)?;
    let entry = entry_of(text, Role::Text)?;
    let text = text.try_clone()?;
    Ok(Effect::Unlabel { text, old, entry })
}

/// What the stored text names as its container.
fn old_container(store: &Store, text: &Text) -> Result<Option<Text>, AllocError>
    ensures { IfOk result (λ old. old ≡ linking.old_container store.now.elements text.now) }
{
    match store.get(text) {
        Some(e) => container_of(e),
        None => Ok(None),
    }
}

/// What an element names as its container.
fn container_of(e: &Element) -> Result<Option<Text>, AllocError>
    ensures { IfOk result (λ container. container ≡ e.now.container) }
{
    e.container.as_ref().map(Text::try_clone).transpose()
}
