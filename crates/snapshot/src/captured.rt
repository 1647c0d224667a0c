//! Elements in the order of their ids.

ghost use Rattle.std.specs.Prelude.{◌≡◌, ◌+◌, ◌-◌, ◌<◌, ◌≤◌, true, length, option_copied, IfOk, IfErr, IsOk, OnOk, OnErr, vec_capacity, vec_len};
ghost use Rattle.std.specs.Ordering.{nat_cmp};
ghost use Rattle.std.specs.Cmp.Lexicographic.{slice_cmp};
ghost use Rattle.frac_keys.specs.Rising.{are_rising};
ghost use Rattle.elem_store.specs.Places.{IsAt, IsGapFor};
ghost use Rattle.elem_store.specs.Updates.{element_of, ids_of};
ghost use Rattle.undo_model.specs.Carrying.{with_put, with_all_put};
ghost use Rattle.snapshot.specs.inner.Carried.{with_made};

use elem::{Element, SharedElement};
use json_text::Text;
use std::alloc::{AllocError, Global};
use std::cmp::Ordering;

/// The index at which the element of this id is, or at which it would be.
fn place_of(elements: &Vec<SharedElement>, id: &Text) -> Result<usize, usize>
    requires { are_rising (ids_of elements.now.items) ≡ true }
    ensures found { IfOk result (IsAt elements.now.items id.now) }
    ensures absent { IfErr result (IsGapFor elements.now.items id.now) }
{
    elements.binary_search_by(|e| id_order(e, id))
}

/// How the id of an element compares with another id.
fn id_order(e: &SharedElement, id: &Text) -> Ordering
    ensures { result ≡ slice_cmp nat_cmp e.now.id id.now }
{
    e.id().as_bytes().cmp(id.as_bytes())
}

/// The element of this id.
pub(crate) fn find<'a>(elements: &'a Vec<SharedElement>, id: &Text) -> Option<&'a Element>
    requires { are_rising (ids_of elements.now.items) ≡ true }
    ensures { option_copied result ≡ element_of elements.now.items id.now }
{
    match place_of(elements, id) {
        Ok(i) => Some(elements[i].get()),
        Err(_) => None,
    }
}

/// Puts the element in the place of the one of its id, or adds it. It takes no memory where there
/// is room.
pub(crate) fn put(elements: &mut Vec<SharedElement>, e: SharedElement) -> Result<(), AllocError>
    requires { are_rising (ids_of elements.old.items) ≡ true }
    ensures ok { OnOk result (elements.new.items ≡ with_put e elements.old.items) }
    ensures err { OnErr result (elements.new.items ≡ elements.old.items) }
    ensures room { vec_len elements.old < vec_capacity elements.old → IsOk result }
    ensures count { vec_len elements.new ≤ vec_len elements.old + 1 }
    ensures kept { vec_capacity elements.old ≤ vec_capacity elements.new }
{
    match place_of(elements, e.id()) {
        Ok(i) => elements[i] = e,
        Err(i) => elements.insert(i, e)?,
    }
    Ok(())
}

/// Puts an element, if there is one.
pub(crate) fn put_made(
    alloc: Global,
    elements: &mut Vec<SharedElement>,
    made: Option<Element>,
) -> Result<(), AllocError>
    requires { are_rising (ids_of elements.old.items) ≡ true }
    ensures ok { OnOk result (elements.new.items ≡ with_made made elements.old.items) }
    ensures err { OnErr result (elements.new.items ≡ elements.old.items) }
{
    match made {
        Some(e) => put(elements, SharedElement::new(alloc, e)?),
        None => Ok(()),
    }
}

/// Puts copies of other elements, one after another.
pub(crate) fn put_copies(
    alloc: Global,
    elements: &mut Vec<SharedElement>,
    news: &[Element],
) -> Result<(), AllocError>
    requires { are_rising (ids_of elements.old.items) ≡ true }
    ensures { OnOk result (elements.new.items ≡ with_all_put news.now elements.old.items) }
{
    for e in news {
        put(elements, SharedElement::copy(alloc, e)?)?;
    }
    Ok(())
}

/// Puts other elements, for which there is room, one after another. It takes no memory.
pub(crate) fn put_all(elements: &mut Vec<SharedElement>, news: Vec<SharedElement>)
    requires rise { are_rising (ids_of elements.old.items) ≡ true }
    requires room { length news.items + vec_len elements.old ≤ vec_capacity elements.old }
    ensures { elements.new.items ≡ with_all_put news.items elements.old.items }
{
    for e in news {
        match put(elements, e) {
            Ok(()) => {}
            Err(_) => unreachable!(),
        }
    }
}
