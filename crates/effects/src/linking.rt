//! Ends of arrows that are bound, and texts that get a container.

ghost use Rattle.std.specs.Prelude.{◌≡◌, ◌||◌, not, bytes_eq, IfOk, IfSome};
ghost use Rattle.std.specs.Option.{unwrap_or};
ghost use Rattle.elem.specs.declared.kind.Kind.TheVariants as kinds;
ghost use Rattle.elem.specs.Facts.{IsBinding};
ghost use Rattle.elem.specs.Listings as listings;
ghost use Rattle.links.specs.Entries as entries;
ghost use Rattle.links.specs.Names.{is_id, target_of};
ghost use Rattle.links.specs.Tables.{with_listing_entry};
ghost use Rattle.links.specs.Texts.{is_for_text};
ghost use Rattle.effects.specs.Linking as linking;
ghost use Rattle.effects.specs.Linking.{with_end, without_listing_entry};
ghost use Rattle.effects.specs.inner.Prepared.{linked, put_in, taken_out};

use crate::kinds::{is_arrow, is_text};
use board_base::List;
use board_commands::Side;
use elem::{Binding, BoundRef, Element, Role};
use json_text::Text;
use std::alloc::AllocError;

/// A new binding of an end of an arrow, or none; and what doesn't list the arrow any more.
pub(crate) struct Link {
    pub(crate) arrow: Text,
    pub(crate) side: Side,
    pub(crate) binding: Option<Binding>,
    pub(crate) old: Option<Text>,
    pub(crate) entry: BoundRef,
}

// By hand, so that whoever drops a link sees one call and not what it holds.
impl Drop for Link {
    fn drop(self) {
        let Link {
            arrow: _arrow,
            side: _side,
            binding: _binding,
            old: _old,
            entry: _entry,
        } = self;
    }
}

/// A new container of a text, and what doesn't list the text any more.
pub(crate) struct Label {
    pub(crate) text: Text,
    pub(crate) container: Text,
    pub(crate) old: Option<Text>,
    pub(crate) entry: BoundRef,
}

// By hand, so that whoever drops a label sees one call and not what it holds.
impl Drop for Label {
    fn drop(self) {
        let Label {
            text: _text,
            container: _container,
            old: _old,
            entry: _entry,
        } = self;
    }
}

/// The element after an end of an arrow was bound, or None where it stays as it is.
pub(crate) fn linked(link: &Link, e: &Element) -> Result<Option<Element>, AllocError>
    requires { IfSome link.now.binding IsBinding }
    ensures { IfOk result (λ new. unwrap_or new e.now ≡ linked link.now e.now) }
{
    if !(link.arrow == e.id || is_target_of(&link.binding, &e.id) || is_id(&e.id, &link.old)) {
        return Ok(None);
    }
    let new = with_end_of(&link.arrow, link.side, &link.binding, e.try_clone()?)?;
    let new = listed(&link.binding, &link.entry, new)?;
    Ok(Some(unlisted(&link.old, &link.entry, new)?))
}

/// Whether this is the target of a binding.
fn is_target_of(binding: &Option<Binding>, id: &Text) -> bool
    ensures { result ≡ is_id id.now (target_of binding.now) }
{
    match binding {
        Some(binding) => *id == binding.target,
        None => false,
    }
}

/// Whether there is an id and it is this one.
fn is_id(id: &Text, other: &Option<Text>) -> bool
    ensures { result ≡ is_id id.now other.now }
{
    match other {
        Some(other) => *id == *other,
        None => false,
    }
}

/// The element, whose end gets a binding if it is the arrow.
fn with_end_of(
    arrow: &Text,
    side: Side,
    binding: &Option<Binding>,
    e: Element,
) -> Result<Element, AllocError>
    requires { IfSome binding.now IsBinding }
    ensures { IfOk result (λ new. new ≡ linking.with_end_of arrow.now side binding.now e) }
{
    if !(*arrow == e.id && is_arrow(&e)) {
        return Ok(e);
    }
    let binding = binding.as_ref().map(Binding::try_clone).transpose()?;
    Ok(with_end(side, binding, e))
}

/// The arrow with a binding of an end.
fn with_end(side: Side, binding: Option<Binding>, mut e: Element) -> Element
    requires { IfSome binding (λ binding. (e.kind ≡ kinds.Arrow) × IsBinding binding) }
    ensures { result ≡ with_end side binding e }
{
    match side {
        Side::Start => e.start_binding = binding,
        Side::End => e.end_binding = binding,
    }
    e
}

/// The element, which lists the entry if it is the target of a binding.
fn listed(binding: &Option<Binding>, entry: &BoundRef, e: Element) -> Result<Element, AllocError>
    ensures { IfOk result (λ new. new ≡ linking.listed (target_of binding.now) entry.now e) }
{
    if !is_target_of(binding, &e.id) {
        return Ok(e);
    }
    let bound = with_listing_entry(&e.bound, entry)?;
    Ok(with_bound(e, bound))
}

/// The element, which doesn't list the entry if it is of this id.
fn unlisted(id: &Option<Text>, entry: &BoundRef, e: Element) -> Result<Element, AllocError>
    ensures { IfOk result (λ new. new ≡ linking.unlisted id.now entry.now e) }
{
    if !is_id(&e.id, id) {
        return Ok(e);
    }
    let bound = without_listing_entry(&e.bound, entry)?;
    Ok(with_bound(e, bound))
}

/// The element with this listing.
fn with_bound(mut e: Element, bound: List<BoundRef>) -> Element
    ensures { result ≡ record e { bound = bound } }
{
    e.bound = bound;
    e
}

/// Whether two entries of listings are the same.
fn same_listing_entry(entry: &BoundRef, other: &BoundRef) -> bool
    ensures { result ≡ listings.same_listing_entry entry.now other.now }
{
    same_role(entry.role, other.role) && entry.id == other.id
}

/// Whether two entries are for the same.
fn same_role(role: Role, other: Role) -> bool
    ensures { result ≡ listings.same_role role other }
{
    match (role, other) {
        (Role::Arrow, Role::Arrow) | (Role::Text, Role::Text) => true,
        _ => false,
    }
}

/// Whether entries have this one.
fn lists(bound: &List<BoundRef>, entry: &BoundRef) -> bool
    ensures { result ≡ entries.lists bound.now entry.now }
{
    bound
        .as_slice()
        .iter()
        .any(|other| same_listing_entry(entry, other))
}

/// A listing with an entry, which is added where it is missing.
fn with_listing_entry(
    bound: &List<BoundRef>,
    entry: &BoundRef,
) -> Result<List<BoundRef>, AllocError>
    ensures { IfOk result (λ new. new ≡ with_listing_entry bound.now entry.now) }
{
    let mut new = bound.try_clone_with(BoundRef::try_clone)?;
    if !lists(bound, entry) {
        new.push(entry.try_clone()?).map_err(|(_, error)| error)?;
    }
    Ok(new)
}

/// A listing without an entry.
fn without_listing_entry(
    bound: &List<BoundRef>,
    entry: &BoundRef,
) -> Result<List<BoundRef>, AllocError>
    ensures { IfOk result (λ new. new ≡ without_listing_entry entry.now bound.now) }
{
    let mut new = bound.try_clone_with(BoundRef::try_clone)?.into_vec();
    new.retain(|other| !same_listing_entry(entry, other));
    Ok(List::from_vec(new))
}

/// The element after a text got a container, or None where it stays as it is.
pub(crate) fn put_in(label: &Label, e: &Element) -> Result<Option<Element>, AllocError>
    requires { label.now.entry ≡ entries.text_entry label.now.text }
    ensures { IfOk result (λ new. unwrap_or new e.now ≡ put_in label.now e.now) }
{
    if !(label.text == e.id
        || label.container == e.id
        || is_id(&label.container, &e.container)
        || is_id(&e.id, &label.old))
    {
        return Ok(None);
    }
    let new = with_container_of(&label.text, &label.container, e.try_clone()?)?;
    let new = with_text_of(&label.text, &label.container, &label.entry, new)?;
    Ok(Some(unlisted(&label.old, &label.entry, new)?))
}

/// The element, which names the container if it is the text, and else doesn't.
fn with_container_of(text: &Text, container: &Text, e: Element) -> Result<Element, AllocError>
    ensures { IfOk result (λ new. new ≡ linking.with_container_of text.now container.now e) }
{
    if *text == e.id && is_text(&e) {
        let container = container.try_clone()?;
        return Ok(with_container(e, Some(container)));
    }
    if is_id(container, &e.container) {
        return Ok(with_container(e, None));
    }
    Ok(e)
}

/// The element with this container, or none.
fn with_container(mut e: Element, container: Option<Text>) -> Element
    requires { IfSome container (λ id. e.kind ≡ kinds.Text) }
    ensures { result ≡ record e { container = container } }
{
    e.container = container;
    e
}

/// The element, which lists the text and no other one if it is the container.
fn with_text_of(
    text: &Text,
    container: &Text,
    entry: &BoundRef,
    e: Element,
) -> Result<Element, AllocError>
    requires { entry.now ≡ entries.text_entry text.now }
    ensures { IfOk result (λ new. new ≡ linking.with_text_of text.now container.now e) }
{
    if *container != e.id {
        return Ok(e);
    }
    let alone = without_other_texts(text, &e.bound)?;
    let bound = with_listing_entry(&alone, entry)?;
    Ok(with_bound(e, bound))
}

/// A listing without entries of texts but for one.
fn without_other_texts(text: &Text, bound: &List<BoundRef>) -> Result<List<BoundRef>, AllocError>
    ensures { IfOk result (λ new. new ≡ linking.without_other_texts text.now bound.now) }
{
    let mut new = bound.try_clone_with(BoundRef::try_clone)?.into_vec();
    new.retain(|other| is_no_other_text(text, other));
    Ok(List::from_vec(new))
}

/// Whether an entry is for an arrow, or for this text.
fn is_no_other_text(text: &Text, entry: &BoundRef) -> bool
    ensures { result ≡ (not (is_for_text entry.now.role) || bytes_eq text.now entry.now.id) }
{
    match entry.role {
        Role::Arrow => true,
        Role::Text => *text == entry.id,
    }
}

/// The element after a text lost its container, or None where it stays as it is.
pub(crate) fn taken_out(
    text: &Text,
    old: &Option<Text>,
    entry: &BoundRef,
    e: &Element,
) -> Result<Option<Element>, AllocError>
    ensures { IfOk result
        (λ new. unwrap_or new e.now ≡ taken_out text.now old.now entry.now e.now) }
{
    if !(*text == e.id || is_id(&e.id, old)) {
        return Ok(None);
    }
    let mut new = e.try_clone()?;
    if *text == e.id {
        new = with_container(new, None);
    }
    Ok(Some(unlisted(old, entry, new)?))
}
