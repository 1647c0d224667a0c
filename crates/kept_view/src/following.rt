//! What is stored of some ids, and after changes.

ghost use Rattle.std.specs.Prelude.{◌≡◌, ℕ, List as Items, ◌++◌, true, is_some, option_copied, IfOk, IfSome, OnOk};
ghost use Rattle.frac_keys.specs.Rising.{are_rising};
ghost use Rattle.elem_store.specs.Updates.{element_of, ids_of, AreStored, HasTaken};
ghost use Rattle.kept_view.specs.inner.Following.{ArePicked, AreTaken};
ghost use Rattle.kept_view.specs.inner.Replacing.{element_after};

use crate::sharing::all_shared;
use board_base::List;
use elem::{Element, SharedElement};
use elem_store::Store;
use json_text::Text;
use std::alloc::{AllocError, Global};

/// The stored element of this id.
pub(crate) fn stored<'a>(store: &'a Store, id: &Text) -> Option<&'a Element>
    ensures element { option_copied result ≡ element_of store.now.elements id.now }
    ensures ordered { are_rising (ids_of store.now.elements) ≡ true }
{
    store.get(id)
}

/// The stored elements of these ids, in the order of their ids, if each is stored.
pub(crate) fn picked(
    alloc: Global,
    store: &Store,
    ids: &[Text],
) -> Result<Option<Vec<SharedElement>>, AllocError>
    ensures { IfOk result
        (λ found. IfSome found (λ news. ArePicked store.now.elements ids.now news.items)) }
{
    let mut news = Store::new(alloc);
    for id in ids {
        let Some(e) = store.get(id) else {
            return Ok(None);
        };
        put_in(&mut news, e)?;
    }
    Ok(Some(all_shared(alloc, stored_elements(alloc, &news)?)?))
}

/// What is stored of the ids of the changed elements after these are taken, in the order of the
/// ids.
pub(crate) fn taken_of(
    alloc: Global,
    store: &Store,
    changed: &[Element],
) -> Result<Vec<SharedElement>, AllocError>
    ensures { IfOk result (λ news. AreTaken store.now.elements changed.now news.items) }
{
    let mut news = Store::new(alloc);
    for e in changed {
        begin_with(&mut news, store, &e.id)?;
        put_in(&mut news, e)?;
    }
    all_shared(alloc, stored_elements(alloc, &news)?)
}

/// Puts what is stored of an id into the store, if it has no element of this id.
fn begin_with(news: &mut Store, store: &Store, id: &Text) -> Result<(), AllocError>
    ensures same { OnOk result ((other : Items ℕ)
        → element_after store.now.elements news.new.elements other
        ≡ element_after store.now.elements news.old.elements other) }
    ensures known { OnOk result
        (element_of news.new.elements id.now ≡ element_after store.now.elements news.old.elements
        id.now) }
    ensures ordered { are_rising (ids_of store.now.elements) ≡ true }
{
    let stored = store.get(id);
    if is_stored(news, id) {
        return Ok(());
    }
    match stored {
        Some(e) => put_in(news, e),
        None => Ok(()),
    }
}

/// Whether an id is stored.
fn is_stored(store: &Store, id: &Text) -> bool
    ensures { result ≡ is_some (element_of store.now.elements id.now) }
{
    match store.get(id) {
        Some(_) => true,
        None => false,
    }
}

/// Lets the store take a copy of an element.
fn put_in(news: &mut Store, e: &Element) -> Result<(), AllocError>
    ensures { OnOk result (HasTaken news.old.elements e.now news.new.elements) }
{
    news.take(e.try_clone()?).map_err(|(_, error)| error)?;
    Ok(())
}

/// A store of what is stored after the changed elements are taken.
pub(crate) fn store_after(
    alloc: Global,
    store: &Store,
    changed: &[Element],
) -> Result<Store, AllocError>
    ensures stored { IfOk result
        (λ after. AreStored (store.now.elements ++ changed.now) after.elements) }
    ensures ordered { are_rising (ids_of store.now.elements) ≡ true }
{
    let mut updates = stored_elements(alloc, store)?;
    push_copies(&mut updates, changed)?;
    Store::from_updates(alloc, List::from_vec(updates))
}

/// Copies of the stored elements.
fn stored_elements(alloc: Global, store: &Store) -> Result<Vec<Element>, AllocError>
    ensures exact { IfOk result (λ copies. copies.items ≡ store.now.elements) }
    ensures ordered { are_rising (ids_of store.now.elements) ≡ true }
{
    let mut copies = Vec::with_capacity(alloc, store.len())?;
    for i in 0..store.len() {
        if let Some(e) = store.at(i) {
            copies.push(e.try_clone()?)?;
        }
    }
    Ok(copies)
}

/// Appends copies of the elements.
fn push_copies(list: &mut Vec<Element>, elements: &[Element]) -> Result<(), AllocError>
    ensures { OnOk result (list.new.items ≡ list.old.items ++ elements.now) }
{
    for e in elements {
        list.push(e.try_clone()?)?;
    }
    Ok(())
}
