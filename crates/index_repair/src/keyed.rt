//! Repaired keys for elements that stand in some order.

ghost use Rattle.std.specs.Prelude.{◌≡◌, Some, true, false, map, IfOk};
ghost use Rattle.index_repair.specs.Repair.{repaired};
ghost use Rattle.index_repair.specs.Keyed.{index_of, keyed, with_index, HaveKeysOrNone, HaveRisingKeys};

use crate::{is_above, repair};
use board_base::{List, change_each};
use elem::Element;
use frac_keys::Key;
use std::alloc::{AllocError, Global};

/// The elements in their order, each with the key that repair gives its position, which is its own
/// where all keys rise. Fails only for want of memory.
pub fn with_repaired_keys(alloc: Global, elements: Vec<Element>) -> Result<Vec<Element>, AllocError>
    ensures exact { IfOk result (λ new. new.items
        ≡ keyed elements.items (repaired (map index_of elements.items))) }
    ensures old_keys { IfOk result (λ _. HaveKeysOrNone elements.items) }
{
    if have_rising_keys(&elements) {
        return Ok(elements);
    }
    let keys = repair(alloc, &indices_of(alloc, &elements)?)?;
    let mut keyed = elements;
    change_each(&mut keyed, keys.into_vec(), set_index);
    Ok(keyed)
}

/// Whether each element has a key that is greater than the one before it.
fn have_rising_keys(elements: &Vec<Element>) -> bool
    ensures rising { result ≡ true → HaveRisingKeys elements.now.items }
    ensures not_rising { result ≡ false → HaveRisingKeys elements.now.items → ⊥ }
    ensures keys { result ≡ true → HaveKeysOrNone elements.now.items }
{
    let mut low = None;
    for e in elements {
        match &e.index {
            Some(key) if is_above(low, key) => low = Some(key),
            _ => return false,
        }
    }
    true
}

/// The indices of the elements, copied.
fn indices_of(alloc: Global, elements: &Vec<Element>) -> Result<List<Option<Key>>, AllocError>
    ensures { IfOk result (λ indices. indices ≡ map index_of elements.now.items) }
{
    let mut indices = Vec::with_capacity(alloc, elements.len())?;
    for e in elements {
        indices.push(index_of(e)?)?;
    }
    Ok(List::from_vec(indices))
}

/// The index of an element, copied.
fn index_of(e: &Element) -> Result<Option<Key>, AllocError>
    ensures { IfOk result (λ index. index ≡ index_of e.now) }
{
    e.index.as_ref().map(Key::try_clone).transpose()
}

/// Gives an element this key.
fn set_index(e: &mut Element, key: Key)
    ensures { e.new ≡ with_index e.old key }
{
    e.index = Some(key);
}
