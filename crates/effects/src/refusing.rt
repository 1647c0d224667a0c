//! Why a command is refused before anything of it is made.

ghost use Rattle.std.specs.Prelude.{◌≡◌, Some, None, true, false, is_some, [], ◌∷◌, ◌++◌, IfErr, IfOk, OnOk};
ghost use Rattle.elem_store.specs.Updates as updates;
ghost use Rattle.elem_store.specs.Updates.{element_of};
ghost use Rattle.frames_groups.specs.Frames.{is_frame_kind};
ghost use Rattle.links.specs.Arrows.{names_target};
ghost use Rattle.links.specs.Names as names;
ghost use Rattle.effects.specs.Changed.{OnFault};
ghost use Rattle.effects.specs.Lookups.{IsLookup};
ghost use Rattle.effects.specs.Refusals.{refusal_of, existing, first_stored, missing, misfit, guarded, first_missing, first_frame, spot_ids, unless_right, is_kind_of, is_live_id};
ghost use Rattle.board_commands.specs.declared.command.Command.TheVariants as commands;
ghost use Rattle.effects.specs.declared.refusal.Refusal.TheVariants as told;

use crate::finding::shown_element;
use crate::kinds::{is_arrow, is_container, is_frame, is_live, is_target, is_text};
use crate::lookup::Lookup;
use crate::refusal::Refusal;
use crate::setting::is_protected;
use board_base::{List, Stop};
use board_commands::{Command, Spot};
use copies::prefixed;
use elem::Element;
use elem_store::Store;
use json_text::Text;
use std::alloc::{AllocError, Global};

/// Fails with the first cause for which the command is refused.
pub(crate) fn check(
    alloc: Global,
    lookup: &Lookup<'_>,
    command: &Command,
) -> Result<(), Stop<Refusal>>
    requires { IsLookup lookup.now }
    ensures ok { OnOk result
        (refusal_of lookup.now.store.now.elements lookup.now.shown.now command.now ≡ None) }
    ensures refused { IfErr result
        (λ stop. OnFault stop (λ refusal.
        refusal_of lookup.now.store.now.elements lookup.now.shown.now command.now
        ≡ Some refusal)) }
{
    let store = lookup.store;
    check_new(alloc, store, command)?;
    check_live(store, command)?;
    check_kinds(lookup, command)?;
    check_member(command)
}

/// Fails where a new element's id is stored.
fn check_new(alloc: Global, store: &Store, command: &Command) -> Result<(), Stop<Refusal>>
    ensures ok { OnOk result (existing store.now.elements command.now ≡ None) }
    ensures refused { IfErr result
        (λ stop. OnFault stop (λ refusal. existing store.now.elements command.now
        ≡ Some refusal)) }
{
    match command {
        Command::Create { element, .. } => check_absent(store, id_of(element)?),
        Command::Duplicate { ids, prefix, .. } => check_ids_absent(alloc, store, prefix, ids),
        Command::Paste {
            elements,
            prefix,
            ..
        } => {
            let ids = ids_of(alloc, elements)?;
            check_ids_absent(alloc, store, prefix, &ids)
        }
        _ => Ok(()),
    }
}

/// Fails where the id is stored.
fn check_absent(store: &Store, id: Text) -> Result<(), Stop<Refusal>>
    ensures ok { OnOk result (is_some (element_of store.now.elements id) ≡ false) }
    ensures refused { IfErr result
        (λ stop. OnFault stop (λ refusal. (is_some (element_of store.now.elements id) ≡ true)
        × (refusal ≡ told.Exists id))) }
{
    match store.get(&id) {
        Some(_) => Err(Stop::Fault(Refusal::Exists(id))),
        None => Ok(()),
    }
}

/// Fails at the first of these ids that is stored under the prefix.
fn check_ids_absent(
    alloc: Global,
    store: &Store,
    prefix: &Text,
    ids: &List<Text>,
) -> Result<(), Stop<Refusal>>
    ensures ok { OnOk result (first_stored store.now.elements prefix.now ids.now ≡ None) }
    ensures refused { IfErr result
        (λ stop. OnFault stop
        (λ refusal. first_stored store.now.elements prefix.now ids.now ≡ Some refusal)) }
{
    for id in ids.as_slice() {
        check_absent(store, prefixed(alloc, prefix, id)?)?;
    }
    Ok(())
}

/// The ids of elements.
fn ids_of(alloc: Global, elements: &List<Element>) -> Result<List<Text>, AllocError>
    ensures { IfOk result (λ ids. ids ≡ updates.ids_of elements.now) }
{
    let mut ids = Vec::with_capacity(alloc, elements.as_slice().len())?;
    for e in elements.as_slice() {
        ids.push(id_of(e)?)?;
    }
    Ok(List::from_vec(ids))
}

/// The id of an element, copied.
fn id_of(e: &Element) -> Result<Text, AllocError>
    ensures { IfOk result (λ id. id ≡ e.now.id) }
{
    e.id.try_clone()
}

/// Fails where an id that the command names isn't live.
fn check_live(store: &Store, command: &Command) -> Result<(), Stop<Refusal>>
    ensures ok { OnOk result (missing store.now.elements command.now ≡ None) }
    ensures refused { IfErr result
        (λ stop. OnFault stop (λ refusal. missing store.now.elements command.now ≡ Some refusal)) }
{
    match command {
        Command::Create { spot, .. } => check_spot(store, spot),
        Command::Set { id, .. } => check_id(store, id),
        Command::Place { id, spot } => check_place(store, id, spot),
        Command::Bind { arrow, target, .. } => check_two(store, arrow, target),
        Command::Unbind { arrow, .. } => check_id(store, arrow),
        Command::Label { container, text } => check_two(store, container, text),
        Command::Unlabel { text } => check_id(store, text),
        Command::Frame { ids, frame } => check_ids_and(store, ids, frame),
        Command::Delete { ids } => check_ids(store, ids),
        Command::Unframe { ids } => check_ids(store, ids),
        Command::Group { ids, .. } => check_ids(store, ids),
        Command::Ungroup { ids, .. } => check_ids(store, ids),
        Command::Duplicate { ids, spot, .. } => check_ids_at(store, ids, spot),
        Command::Paste { spot, .. } => check_spot(store, spot),
    }
}

/// Fails where no live element has the id.
fn check_id(store: &Store, id: &Text) -> Result<(), Stop<Refusal>>
    ensures ok { OnOk result (first_missing store.now.elements (id.now ∷ []) ≡ None) }
    ensures refused { IfErr result
        (λ stop. OnFault stop
        (λ refusal. first_missing store.now.elements (id.now ∷ []) ≡ Some refusal)) }
{
    if is_live_id(store, id) {
        return Ok(());
    }
    Err(Stop::Fault(Refusal::NoElement(id.try_clone()?)))
}

/// Whether a live element has the id.
fn is_live_id(store: &Store, id: &Text) -> bool
    ensures { result ≡ is_live_id store.now.elements id.now }
{
    match store.get(id) {
        Some(e) => is_live(e),
        None => false,
    }
}

/// Fails at the first of two ids that isn't live.
fn check_two(store: &Store, id: &Text, other: &Text) -> Result<(), Stop<Refusal>>
    ensures ok { OnOk result (first_missing store.now.elements (id.now ∷ other.now ∷ []) ≡ None) }
    ensures refused { IfErr result
        (λ stop. OnFault stop
        (λ refusal. first_missing store.now.elements (id.now ∷ other.now ∷ []) ≡ Some refusal)) }
{
    check_id(store, id)?;
    check_id(store, other)
}

/// Fails at the first of these ids that isn't live.
fn check_ids(store: &Store, ids: &List<Text>) -> Result<(), Stop<Refusal>>
    ensures ok { OnOk result (first_missing store.now.elements ids.now ≡ None) }
    ensures refused { IfErr result
        (λ stop. OnFault stop
        (λ refusal. first_missing store.now.elements ids.now ≡ Some refusal)) }
{
    for id in ids.as_slice() {
        check_id(store, id)?;
    }
    Ok(())
}

/// Fails at the first of these ids and one more that isn't live.
fn check_ids_and(store: &Store, ids: &List<Text>, id: &Text) -> Result<(), Stop<Refusal>>
    ensures ok { OnOk result (first_missing store.now.elements (ids.now ++ id.now ∷ []) ≡ None) }
    ensures refused { IfErr result
        (λ stop. OnFault stop
        (λ refusal. first_missing store.now.elements (ids.now ++ id.now ∷ []) ≡ Some refusal)) }
{
    check_ids(store, ids)?;
    check_id(store, id)
}

/// Fails at the first of these ids, and of that which a spot names, that isn't live.
fn check_ids_at(store: &Store, ids: &List<Text>, spot: &Spot) -> Result<(), Stop<Refusal>>
    ensures ok { OnOk result (first_missing store.now.elements (ids.now ++ spot_ids spot.now)
        ≡ None) }
    ensures refused { IfErr result
        (λ stop. OnFault stop
        (λ refusal. first_missing store.now.elements (ids.now ++ spot_ids spot.now)
        ≡ Some refusal)) }
{
    check_ids(store, ids)?;
    check_spot(store, spot)
}

/// Fails where the id that a spot names isn't live.
fn check_spot(store: &Store, spot: &Spot) -> Result<(), Stop<Refusal>>
    ensures ok { OnOk result (first_missing store.now.elements (spot_ids spot.now) ≡ None) }
    ensures refused { IfErr result
        (λ stop. OnFault stop
        (λ refusal. first_missing store.now.elements (spot_ids spot.now) ≡ Some refusal)) }
{
    match spot {
        Spot::Bottom | Spot::Top => Ok(()),
        Spot::After(id) => check_id(store, id),
    }
}

/// Fails where an element that gets a place, or the one that it is placed above, isn't live, or
/// where they are one.
fn check_place(store: &Store, id: &Text, spot: &Spot) -> Result<(), Stop<Refusal>>
    ensures ok { OnOk result (missing store.now.elements (commands.Place id.now spot.now) ≡ None) }
    ensures refused { IfErr result
        (λ stop. OnFault stop
        (λ refusal. missing store.now.elements (commands.Place id.now spot.now) ≡ Some refusal)) }
{
    check_id(store, id)?;
    check_spot(store, spot)?;
    match spot {
        Spot::After(other) if *id == *other => {
            Err(Stop::Fault(Refusal::NoElement(other.try_clone()?)))
        }
        _ => Ok(()),
    }
}

/// Fails where an element isn't of a kind that the command is for.
fn check_kinds(lookup: &Lookup<'_>, command: &Command) -> Result<(), Stop<Refusal>>
    requires { IsLookup lookup.now }
    ensures ok { OnOk result
        (misfit lookup.now.store.now.elements lookup.now.shown.now command.now ≡ None) }
    ensures refused { IfErr result
        (λ stop. OnFault stop (λ refusal.
        misfit lookup.now.store.now.elements lookup.now.shown.now command.now ≡ Some refusal)) }
{
    let store = lookup.store;
    match command {
        Command::Bind { arrow, target, .. } => {
            check_right(is_arrow_id(store, arrow), arrow)?;
            check_right(is_target_id(lookup, target), target)
        }
        Command::Unbind { arrow, .. } => check_right(is_arrow_id(store, arrow), arrow),
        Command::Label { container, text } => {
            check_right(is_container_id(store, container), container)?;
            check_right(is_text_id(store, text), text)
        }
        Command::Unlabel { text } => check_right(is_text_id(store, text), text),
        Command::Frame { ids, frame } => {
            check_no_frames(store, ids)?;
            check_right(is_frame_id(store, frame), frame)
        }
        _ => Ok(()),
    }
}

/// Fails unless the element of the id is of the right kind.
fn check_right(is_right: bool, id: &Text) -> Result<(), Stop<Refusal>>
    ensures ok { OnOk result (unless_right is_right id.now ≡ None) }
    ensures refused { IfErr result
        (λ stop. OnFault stop (λ refusal. unless_right is_right id.now ≡ Some refusal)) }
{
    if is_right {
        return Ok(());
    }
    Err(Stop::Fault(Refusal::WrongKind(id.try_clone()?)))
}

/// Fails at the first of these ids that is a frame's.
fn check_no_frames(store: &Store, ids: &List<Text>) -> Result<(), Stop<Refusal>>
    ensures ok { OnOk result (first_frame store.now.elements ids.now ≡ None) }
    ensures refused { IfErr result
        (λ stop. OnFault stop (λ refusal. first_frame store.now.elements ids.now ≡ Some refusal)) }
{
    for id in ids.as_slice() {
        check_right(!is_frame_id(store, id), id)?;
    }
    Ok(())
}

/// Whether the stored element of the id is an arrow.
fn is_arrow_id(store: &Store, id: &Text) -> bool
    ensures { result ≡ is_kind_of store.now.elements names.is_arrow id.now }
{
    match store.get(id) {
        Some(e) => is_arrow(e),
        None => false,
    }
}

/// Whether the stored element of the id is a text.
fn is_text_id(store: &Store, id: &Text) -> bool
    ensures { result ≡ is_kind_of store.now.elements names.is_text id.now }
{
    match store.get(id) {
        Some(e) => is_text(e),
        None => false,
    }
}

/// Whether the stored element of the id may have a text in it.
fn is_container_id(store: &Store, id: &Text) -> bool
    ensures { result ≡ is_kind_of store.now.elements names.can_hold_text id.now }
{
    match store.get(id) {
        Some(e) => is_container(e),
        None => false,
    }
}

/// Whether the stored element of the id is a frame or a magicframe.
fn is_frame_id(store: &Store, id: &Text) -> bool
    ensures { result ≡ is_kind_of store.now.elements is_frame_kind id.now }
{
    match store.get(id) {
        Some(e) => is_frame(e),
        None => false,
    }
}

/// Whether the shown element of the id may be bound to.
fn is_target_id(lookup: &Lookup<'_>, id: &Text) -> bool
    requires { IsLookup lookup.now }
    ensures { result ≡ names_target lookup.now.shown.now (Some id.now) }
{
    match shown_element(lookup, id) {
        Some(e) => is_target(e),
        None => false,
    }
}

/// Fails where the member is one that no value can be given.
fn check_member(command: &Command) -> Result<(), Stop<Refusal>>
    ensures ok { OnOk result (guarded command.now ≡ None) }
    ensures refused { IfErr result
        (λ stop. OnFault stop (λ refusal. guarded command.now ≡ Some refusal)) }
{
    match command {
        Command::Set { member, .. } if is_protected(member) => {
            Err(Stop::Fault(Refusal::Protected(member.try_clone()?)))
        }
        _ => Ok(()),
    }
}
