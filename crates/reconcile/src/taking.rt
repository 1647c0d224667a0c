//! Taking a list into a store.

ghost use Rattle.std.specs.Prelude.{◌≡◌, List as Items, ◌++◌, length, IfOk, OnOk, OnErr};
ghost use Rattle.elem.specs.ElementValue.{ElementValue};
ghost use Rattle.elem_store.specs.Updates.{AreStored};
ghost use Rattle.reconcile.specs.Ids.{free_elements};

use crate::held::Held;
use board_base::List;
use elem::Element;
use elem_store::Store;
use std::alloc::{AllocError, Global};

/// Takes the elements whose ids aren't held, in their order, and tells how many these were. Their
/// copies and the room for them are made first, so that for want of memory the stored elements are
/// as before.
pub fn reconcile(
    alloc: Global,
    store: &mut Store,
    list: &[Element],
    held: &Held,
) -> Result<u64, AllocError>
    // What is stored of a list of updates is then stored of the list with these elements at its
    // end.
    ensures stored { OnOk result ((updates : Items ElementValue)
        → AreStored updates store.old.elements
        → AreStored (updates ++ free_elements held.now list.now) store.new.elements) }

    ensures count { IfOk result (λ count. count ≡ length (free_elements held.now list.now)) }
    ensures err { OnErr result (store.new.elements ≡ store.old.elements) }
{
    let copies = free_copies(alloc, list, held)?;
    let count = copies.len();
    store.reserve(count)?;
    store.take_all(List::from_vec(copies));
    Ok(count as u64)
}

/// Copies of the elements whose ids aren't held, in their order.
pub fn free_copies(alloc: Global, list: &[Element], held: &Held) -> Result<Vec<Element>, AllocError>
    ensures { IfOk result (λ copies. copies.items ≡ free_elements held.now list.now) }
{
    let mut copies = Vec::new(alloc);
    for e in list {
        if !held.has(&e.id) {
            copies.push(e.try_clone()?)?;
        }
    }
    Ok(copies)
}
