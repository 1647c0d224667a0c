//! What a room resumes with.

ghost use Rattle.std.specs.Prelude.{◌≡◌, ◌∷◌, List as Items, Some, None, true, option_copied, IfOk, IsTrue};
ghost use Rattle.std.specs.List.{range_with_len};
ghost use Rattle.frac_keys.specs.Rising.{are_rising, ends_rise};
ghost use Rattle.elem.specs.ElementValue.{ElementValue};
ghost use Rattle.elem_store.specs.Updates.{ids_of};
ghost use Rattle.room_disk.specs.Resuming.{greater_key, greatest_key, filled_above, resumed};

use board_base::List;
use elem::Element;
use elem_store::Store;
use frac_keys::{Key, between};
use std::alloc::{AllocError, Global};

/// The store, in which each element without a key has one above the greatest of all, in the order
/// of the ids: so each element lies where it lay. Fails only for want of memory.
pub fn resume(alloc: Global, store: Store) -> Result<Store, AllocError>
    ensures { IfOk result (λ new. new.elements ≡ resumed store.elements) }
{
    let elements = in_order(alloc, store)?;
    let greatest = greatest_key(&elements)?;
    let filled = filled_above(alloc, elements, greatest)?;
    Store::from_updates(alloc, List::from_vec(filled))
}

/// The stored elements, moved out, in the order of the ids.
fn in_order(alloc: Global, store: Store) -> Result<Vec<Element>, AllocError>
    ensures exact { IfOk result (λ elements. elements.items ≡ store.elements) }
    ensures ordered { are_rising (ids_of store.elements) ≡ true }
{
    let indices = all_indices(alloc, store.len())?;
    store.into_elements_at(alloc, &indices)
}

/// All indices of a list of this length, in order.
fn all_indices(alloc: Global, length: usize) -> Result<Vec<usize>, AllocError>
    ensures { IfOk result (λ indices. indices.items ≡ range_with_len 0 length) }
{
    (0..length).collect(alloc)
}

/// The greatest key of the elements, copied.
fn greatest_key(elements: &Vec<Element>) -> Result<Option<Key>, AllocError>
    ensures { IfOk result (λ key. key ≡ greatest_key None elements.now.items) }
{
    let mut greatest = None;
    for e in elements {
        greatest = greater_key(greatest, &e.index);
    }
    greatest.map(Key::try_clone).transpose()
}

/// Of two keys, either of which may be missing, the greater one.
fn greater_key<'a>(low: Option<&'a Key>, key: &'a Option<Key>) -> Option<&'a Key>
    ensures { option_copied result ≡ greater_key (option_copied low.entry) key.now }
{
    match key {
        Some(key) if is_above(low, key) => Some(key),
        _ => low,
    }
}

/// Whether a key is greater than the one given, if there is one.
fn is_above(low: Option<&Key>, key: &Key) -> bool
    ensures { result ≡ ends_rise (option_copied low.entry) (Some key.now) }
{
    let bytes = key.as_bytes();
    match low {
        Some(low) => low.as_bytes() < bytes,
        None => true,
    }
}

/// The elements, of which those without a key get one each, above this one and above one another.
fn filled_above(
    alloc: Global,
    elements: Vec<Element>,
    greatest: Option<Key>,
) -> Result<Vec<Element>, AllocError>
    ensures { IfOk result (λ filled. filled.items ≡ filled_above greatest elements.items) }
{
    let mut last = greatest;
    let mut filled = Vec::with_capacity(alloc, elements.len())?;
    for e in elements {
        filled.push(with_key(alloc, e, &mut last)?)?;
    }
    Ok(filled)
}

/// The element, with the key above the last one where it has none, which then is the last one.
fn with_key(alloc: Global, e: Element, last: &mut Option<Key>) -> Result<Element, AllocError>
    ensures { IfOk result (λ new. (others : Items ElementValue)
        → filled_above last.old (e ∷ others) ≡ new ∷ filled_above last.new others) }
{
    let mut e = e;
    if e.index.is_none() {
        let key = between(alloc, last.as_ref(), None)?;
        *last = Some(key.try_clone()?);
        e.index = Some(key);
    }
    Ok(e)
}
