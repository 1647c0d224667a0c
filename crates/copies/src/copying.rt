//! Copies of elements.

ghost use Rattle.std.specs.Prelude.{◌≡◌, ◌++◌, map, IfOk, IsTrue};
ghost use Rattle.std.specs.BTreeSet.{contains};
ghost use Rattle.std.specs.Cmp.Lexicographic.{slice_cmp};
ghost use Rattle.std.specs.Ordering.{nat_cmp};
ghost use Rattle.std.specs.Str.{IsUtf8};
ghost use Rattle.copies.specs.Copies.{copied_end, copied_entries, copied_entry, copied_name, copies_of, copy_among};

use crate::ids::ids_of;
use board_base::List;
use elem::{Binding, BoundRef, Element};
use json_text::Text;
use std::alloc::{AllocError, Global};
use std::collections::BTreeSet;

/// A copy of each element, in their order: its id and its groups stand under the prefix, and so do
/// the names of elements of the list; other names go. Each copy is as new, and has no key. Fails
/// only for want of memory.
pub fn copies(alloc: Global, list: &[Element], prefix: &Text) -> Result<List<Element>, AllocError>
    ensures exact { IfOk result (λ copies. copies ≡ copies_of list.now prefix.now) }
{
    let ids = ids_of(alloc, list)?;
    let mut copies = Vec::with_capacity(alloc, list.len())?;
    for e in list {
        copies.push(copy(alloc, &ids, prefix, e)?)?;
    }
    Ok(List::from_vec(copies))
}

/// The copy of an element, where the elements of these ids are copied.
#[tactic(auto, unfolding(crate::specs::Copies::copy_among))]
fn copy(
    alloc: Global,
    ids: &BTreeSet<Text>,
    prefix: &Text,
    e: &Element,
) -> Result<Element, AllocError>
    ensures { IfOk result (λ copy. copy ≡ copy_among (contains (slice_cmp nat_cmp) ids.now)
        prefix.now e.now) }
{
    Ok(Element {
        id: prefixed(alloc, prefix, &e.id)?,
        kind: e.kind.try_clone()?,
        version: 1,
        nonce: 0,
        updated: 0,
        deleted: false,
        index: None,
        groups: all_prefixed(alloc, prefix, &e.groups)?,
        frame: copied_name(alloc, ids, prefix, &e.frame)?,
        bound: copied_entries(alloc, ids, prefix, &e.bound)?,
        container: copied_name(alloc, ids, prefix, &e.container)?,
        start_binding: copied_end(alloc, ids, prefix, &e.start_binding)?,
        end_binding: copied_end(alloc, ids, prefix, &e.end_binding)?,
        file: text_clone(&e.file)?,
        rest: e.rest.try_clone()?,
    })
}

/// The text under the prefix. Fails only for want of memory.
pub fn prefixed(alloc: Global, prefix: &Text, text: &Text) -> Result<Text, AllocError>
    ensures { IfOk result (λ new. new ≡ prefix.now ++ text.now) }
{
    let mut bytes = Vec::from_slice(alloc, prefix.as_bytes())?;
    bytes.extend_from_slice(text.as_bytes())?;
    Ok(Text::read(alloc, bytes.as_slice())?.unwrap())
}

/// The texts under the prefix.
fn all_prefixed(alloc: Global, prefix: &Text, texts: &List<Text>) -> Result<List<Text>, AllocError>
    ensures { IfOk result (λ new. new ≡ map (λ text. prefix.now ++ text) texts.now) }
{
    let mut new = Vec::with_capacity(alloc, texts.as_slice().len())?;
    for text in texts.as_slice() {
        new.push(prefixed(alloc, prefix, text)?)?;
    }
    Ok(List::from_vec(new))
}

/// What a copy has in place of the name of an element.
fn copied_name(
    alloc: Global,
    ids: &BTreeSet<Text>,
    prefix: &Text,
    name: &Option<Text>,
) -> Result<Option<Text>, AllocError>
    ensures { IfOk result (λ new. new ≡ copied_name (contains (slice_cmp nat_cmp) ids.now)
        prefix.now name.now) }
{
    match name {
        Some(id) if ids.contains(id) => Ok(Some(prefixed(alloc, prefix, id)?)),
        _ => Ok(None),
    }
}

/// What a copy has in place of a binding.
fn copied_end(
    alloc: Global,
    ids: &BTreeSet<Text>,
    prefix: &Text,
    binding: &Option<Binding>,
) -> Result<Option<Binding>, AllocError>
    ensures { IfOk result (λ new. new ≡ copied_end (contains (slice_cmp nat_cmp) ids.now) prefix.now
        binding.now) }
{
    match binding {
        Some(binding) if ids.contains(&binding.target) => Ok(Some(Binding {
            target: prefixed(alloc, prefix, &binding.target)?,
            rest: binding.rest.try_clone()?,
        })),
        _ => Ok(None),
    }
}

/// What a copy has in place of a listing.
fn copied_entries(
    alloc: Global,
    ids: &BTreeSet<Text>,
    prefix: &Text,
    entries: &List<BoundRef>,
) -> Result<List<BoundRef>, AllocError>
    ensures { IfOk result (λ new. new ≡ copied_entries (contains (slice_cmp nat_cmp) ids.now)
        prefix.now entries.now) }
{
    let mut new = Vec::new(alloc);
    for entry in entries.as_slice() {
        if ids.contains(&entry.id) {
            new.push(copied_entry(alloc, prefix, entry)?)?;
        }
    }
    Ok(List::from_vec(new))
}

/// The entry of the same role under the prefix.
fn copied_entry(alloc: Global, prefix: &Text, entry: &BoundRef) -> Result<BoundRef, AllocError>
    ensures { IfOk result (λ new. new ≡ copied_entry prefix.now entry.now) }
{
    Ok(BoundRef {
        id: prefixed(alloc, prefix, &entry.id)?,
        role: entry.role,
    })
}

/// An equal text, if there is one.
fn text_clone(text: &Option<Text>) -> Result<Option<Text>, AllocError>
    ensures { IfOk result (λ copy. copy ≡ text.now) }
{
    text.as_ref().map(Text::try_clone).transpose()
}
