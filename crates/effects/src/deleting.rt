//! Elements that are deleted, and those that named them.

ghost use Rattle.std.specs.Prelude.{◌≡◌, true, not, filter, IfOk};
ghost use Rattle.std.specs.BTreeSet.{contains};
ghost use Rattle.std.specs.Cmp.Lexicographic.{slice_cmp};
ghost use Rattle.std.specs.Ordering.{nat_cmp};
ghost use Rattle.std.specs.List.{list_any};
ghost use Rattle.std.specs.Option.{unwrap_or};
ghost use Rattle.links.specs.Names.{target_of};
ghost use Rattle.effects.specs.Deleting as deleting;
ghost use Rattle.effects.specs.Naming.{is_some_that};

use board_base::List;
use elem::{Binding, BoundRef, Element};
use json_text::Text;
use std::alloc::AllocError;
use std::collections::BTreeSet;

/// The element after those of these ids were deleted, or None where it stays as it is.
pub(crate) fn deleted_from(ids: &BTreeSet<Text>, e: &Element) -> Result<Option<Element>, AllocError>
    ensures { IfOk result
        (λ new. unwrap_or new e.now ≡ deleting.deleted_from
        (contains (slice_cmp nat_cmp) ids.now) e.now) }
{
    if is_among(ids, &e.id) {
        return Ok(Some(deleted(e.try_clone()?)));
    }
    if has_gone_names(ids, e) {
        return Ok(Some(without_names(ids, e)?));
    }
    Ok(None)
}

/// Whether an id is one of these.
fn is_among(ids: &BTreeSet<Text>, id: &Text) -> bool
    ensures { result ≡ contains (slice_cmp nat_cmp) ids.now id.now }
{
    ids.contains(id)
}

/// The element without names of these ids.
fn without_names(ids: &BTreeSet<Text>, e: &Element) -> Result<Element, AllocError>
    ensures { IfOk result
        (λ new. new ≡ deleting.without_names (contains (slice_cmp nat_cmp) ids.now) e.now) }
{
    let new = with_bound(e.try_clone()?, kept_entries(ids, &e.bound)?);
    let new = without_container(ids, without_frame(ids, new));
    Ok(without_end(ids, without_start(ids, new)))
}

/// The element, deleted.
fn deleted(mut e: Element) -> Element
    ensures { result ≡ record e { deleted = true } }
{
    e.deleted = true;
    e
}

/// Whether an element names one of these ids.
fn has_gone_names(ids: &BTreeSet<Text>, e: &Element) -> bool
    ensures { result ≡ deleting.has_gone_names (contains (slice_cmp nat_cmp) ids.now) e.now }
{
    is_gone(ids, &e.frame)
        || is_gone(ids, &e.container)
        || is_gone_end(ids, &e.start_binding)
        || is_gone_end(ids, &e.end_binding)
        || has_gone_entry(ids, &e.bound)
}

/// Whether an entry of a listing is of one of these ids.
fn has_gone_entry(ids: &BTreeSet<Text>, entries: &List<BoundRef>) -> bool
    ensures { result ≡ list_any
        (λ entry. contains (slice_cmp nat_cmp) ids.now entry.id) entries.now }
{
    entries
        .as_slice()
        .iter()
        .any(|entry| ids.contains(&entry.id))
}

/// Whether a name is one of these ids.
fn is_gone(ids: &BTreeSet<Text>, name: &Option<Text>) -> bool
    ensures { result ≡ is_some_that (contains (slice_cmp nat_cmp) ids.now) name.now }
{
    match name {
        Some(id) => ids.contains(id),
        None => false,
    }
}

/// Whether the target of a binding is one of these ids.
fn is_gone_end(ids: &BTreeSet<Text>, binding: &Option<Binding>) -> bool
    ensures { result ≡ is_some_that (contains (slice_cmp nat_cmp) ids.now) (target_of binding.now) }
{
    match binding {
        Some(binding) => ids.contains(&binding.target),
        None => false,
    }
}

/// The entries that name none of these ids, copied.
fn kept_entries(
    ids: &BTreeSet<Text>,
    entries: &List<BoundRef>,
) -> Result<List<BoundRef>, AllocError>
    ensures { IfOk result
        (λ kept. kept ≡ deleting.kept_entries (contains (slice_cmp nat_cmp) ids.now) entries.now) }
{
    let mut kept = entries.try_clone_with(BoundRef::try_clone)?.into_vec();
    kept.retain(|entry| !ids.contains(&entry.id));
    Ok(List::from_vec(kept))
}

/// The element with this listing.
fn with_bound(mut e: Element, bound: List<BoundRef>) -> Element
    ensures { result ≡ record e { bound = bound } }
{
    e.bound = bound;
    e
}

/// The element, its frame gone if that is one of these ids.
fn without_frame(ids: &BTreeSet<Text>, mut e: Element) -> Element
    ensures { result ≡ record e {
      frame = deleting.kept_name (contains (slice_cmp nat_cmp) ids.now)
          e.frame;
    } }
{
    if is_gone(ids, &e.frame) {
        e.frame = None;
    }
    e
}

/// The element, its container gone if that is one of these ids.
fn without_container(ids: &BTreeSet<Text>, mut e: Element) -> Element
    ensures { result ≡ record e {
      container =
          deleting.kept_name (contains (slice_cmp nat_cmp) ids.now) e.container;
    } }
{
    if is_gone(ids, &e.container) {
        e.container = None;
    }
    e
}

/// The arrow, the binding of its start gone if its target is one of these ids.
fn without_start(ids: &BTreeSet<Text>, mut e: Element) -> Element
    ensures { result ≡ record e {
      start_binding = deleting.kept_end
          (contains (slice_cmp nat_cmp) ids.now) e.start_binding;
    } }
{
    if is_gone_end(ids, &e.start_binding) {
        e.start_binding = None;
    }
    e
}

/// The arrow, the binding of its end gone if its target is one of these ids.
fn without_end(ids: &BTreeSet<Text>, mut e: Element) -> Element
    ensures { result ≡ record e {
      end_binding = deleting.kept_end
          (contains (slice_cmp nat_cmp) ids.now) e.end_binding;
    } }
{
    if is_gone_end(ids, &e.end_binding) {
        e.end_binding = None;
    }
    e
}
