//! Keys for elements that stand one above the other between two.

ghost use Rattle.std.specs.Prelude.{◌≡◌, true, IfOk, length, option_copied};
ghost use Rattle.frac_keys.specs.Between.{keys_between};
ghost use Rattle.frac_keys.specs.Rising.{ends_rise};
ghost use Rattle.index_repair.specs.Keyed.{keyed, with_index};

use board_base::{List, change_each};
use elem::Element;
use frac_keys::{Key, n_between};
use std::alloc::{AllocError, Global};

/// The elements with keys between two ends, in their order; an absent end is beyond all keys. Fails
/// only for want of memory.
pub fn keyed_between(
    alloc: Global,
    elements: List<Element>,
    low: Option<&Key>,
    high: Option<&Key>,
) -> Result<List<Element>, AllocError>
    requires { ends_rise (option_copied low) (option_copied high) ≡ true }
    ensures { IfOk result
        (λ new. new ≡ keyed elements
        (keys_between (option_copied low.entry) (option_copied high.entry) (length elements))) }
{
    let mut elements = elements.into_vec();
    let keys = n_between(alloc, low, high, elements.len())?;
    change_each(&mut elements, keys.into_vec(), set_index);
    Ok(List::from_vec(elements))
}

/// Gives an element this key.
fn set_index(e: &mut Element, key: Key)
    ensures { e.new ≡ with_index e.old key }
{
    e.index = Some(key);
}
