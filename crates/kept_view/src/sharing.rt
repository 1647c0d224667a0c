//! Elements that are shared, with others where they are the same.

ghost use Rattle.std.specs.Prelude.{◌≡◌, true, IfOk};
ghost use Rattle.frac_keys.specs.Rising.{are_rising};
ghost use Rattle.elem_store.specs.Updates.{ids_of};

use crate::places::shared_of;
use elem::{Element, SharedElement, same};
use std::alloc::{AllocError, Global};

/// The element, shared with another one where that is the same.
pub(crate) fn shared_as(
    alloc: Global,
    other: &SharedElement,
    e: Element,
) -> Result<SharedElement, AllocError>
    ensures { IfOk result (λ shared. shared ≡ e) }
{
    if same(other.get(), &e) {
        return other.try_clone();
    }
    SharedElement::new(alloc, e)
}

/// The elements, each to be shared.
pub(crate) fn all_shared(
    alloc: Global,
    elements: Vec<Element>,
) -> Result<Vec<SharedElement>, AllocError>
    ensures { IfOk result (λ shared. shared.items ≡ elements.items) }
{
    let mut shared = Vec::with_capacity(alloc, elements.len())?;
    for e in elements {
        shared.push(SharedElement::new(alloc, e)?)?;
    }
    Ok(shared)
}

/// The elements, each shared with what is held of its id where that is the same.
pub(crate) fn all_shared_with(
    alloc: Global,
    held: &Vec<SharedElement>,
    elements: Vec<Element>,
) -> Result<Vec<SharedElement>, AllocError>
    requires { are_rising (ids_of held.now.items) ≡ true }
    ensures { IfOk result (λ shared. shared.items ≡ elements.items) }
{
    let mut shared = Vec::with_capacity(alloc, elements.len())?;
    for e in elements {
        shared.push(shared_with(alloc, held, e)?)?;
    }
    Ok(shared)
}

/// The element, shared with what is held of its id where that is the same.
fn shared_with(
    alloc: Global,
    held: &Vec<SharedElement>,
    e: Element,
) -> Result<SharedElement, AllocError>
    requires { are_rising (ids_of held.now.items) ≡ true }
    ensures { IfOk result (λ shared. shared ≡ e) }
{
    match shared_of(held, &e.id) {
        Some(other) => shared_as(alloc, other, e),
        None => SharedElement::new(alloc, e),
    }
}

/// The same elements once more. It takes memory for the list alone.
pub(crate) fn shared_again(
    alloc: Global,
    elements: &Vec<SharedElement>,
) -> Result<Vec<SharedElement>, AllocError>
    ensures { IfOk result (λ again. again.items ≡ elements.now.items) }
{
    let mut again = Vec::with_capacity(alloc, elements.len())?;
    for e in elements {
        again.push(e.try_clone()?)?;
    }
    Ok(again)
}
