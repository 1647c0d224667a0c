//! Inserting an item into a board.

ghost use Rattle.std.specs.Prelude.{◌≡◌, ◌++◌, ℕ, List as Items, [], not, Some, None, Err, IfOk, OnOk, OnErr};
ghost use Rattle.elem.specs.ElementValue.{ElementValue};
ghost use Rattle.elem_store.specs.Updates.{AreStored};
ghost use Rattle.board_paste.specs.Pasting.{HasJoinedFiles};
ghost use Rattle.library.specs.Best.{item_of};
ghost use Rattle.library.specs.Inserting.{clip_with, first_stored_of, inserted};
ghost use Rattle.library.specs.declared.fault.InsertFault.{InsertFault};
ghost use Rattle.library.specs.declared.item.Item.{Item};

use crate::fault::InsertFault;
use crate::item::Item;
use crate::shelf::Shelf;
use board_base::{List, Stop};
use board_paste::{Exists, paste};
use clips::Clip;
use elem::Element;
use elem_store::Store;
use json_text::Text;
use scene_file::Head;
use std::alloc::{AllocError, Global};

/// Pastes the clip of the item of this id: copies of its elements that aren't deleted. Where it is
/// refused, and for want of memory, the head and the stored elements are as before.
pub fn insert(
    alloc: Global,
    head: &mut Head,
    store: &mut Store,
    shelf: &Shelf,
    id: &Text,
    prefix: &Text,
) -> Result<(), Stop<InsertFault>>
    ensures found { OnOk result ((item : Item) × (item_of shelf.now id.now ≡ Some item)) }

    // What is stored of updates is then stored of these with the copies at their end.
    ensures stored { OnOk result ((item : Item) → item_of shelf.now id.now ≡ Some item
        → (updates : Items ElementValue) → AreStored updates store.old.elements
        → AreStored (updates ++ inserted store.old.elements item prefix.now) store.new.elements) }

    ensures head { OnOk result (HasJoinedFiles head.old [] head.new) }
    ensures new { OnOk result ((item : Item) → item_of shelf.now id.now ≡ Some item
        → first_stored_of store.old.elements item prefix.now ≡ None) }
    ensures no_item { result ≡ Err (Stop.Fault InsertFault.NoItem)
        → item_of shelf.now id.now ≡ None }
    ensures exists { (place : ℕ) → result ≡ Err (Stop.Fault (InsertFault.Exists place))
        → (item : Item) × (item_of shelf.now id.now ≡ Some item)
        × (first_stored_of store.old.elements item prefix.now ≡ Some place) }
    ensures stored_kept { OnErr result (store.new.elements ≡ store.old.elements) }
    ensures head_kept { OnErr result (head.new ≡ head.old) }
{
    let Some(item) = shelf.get(id) else {
        return Err(Stop::Fault(InsertFault::NoItem));
    };
    insert_item(alloc, head, store, item, prefix)
}

/// Pastes the clip of an item.
fn insert_item(
    alloc: Global,
    head: &mut Head,
    store: &mut Store,
    item: &Item,
    prefix: &Text,
) -> Result<(), Stop<InsertFault>>
    ensures stored { OnOk result ((updates : Items ElementValue)
        → AreStored updates store.old.elements
        → AreStored (updates ++ inserted store.old.elements item.now prefix.now)
        store.new.elements) }
    ensures head { OnOk result (HasJoinedFiles head.old [] head.new) }
    ensures new { OnOk result (first_stored_of store.old.elements item.now prefix.now ≡ None) }
    ensures exists { (fault : InsertFault) → result ≡ Err (Stop.Fault fault)
        → (place : ℕ) × (fault ≡ InsertFault.Exists place)
        × (first_stored_of store.old.elements item.now prefix.now ≡ Some place) }
    ensures stored_kept { OnErr result (store.new.elements ≡ store.old.elements) }
    ensures head_kept { OnErr result (head.new ≡ head.old) }
{
    let clip = clip_of(alloc, item.elements.as_slice())?;
    match paste(alloc, head, store, &clip, prefix) {
        Ok(()) => Ok(()),
        Err(Stop::Fault(Exists { place })) => Err(Stop::Fault(InsertFault::Exists(place))),
        Err(Stop::Memory) => Err(Stop::Memory),
    }
}

/// The clip of these elements: copies of those that aren't deleted, with their places, and no
/// files.
fn clip_of(alloc: Global, elements: &[Element]) -> Result<Clip, AllocError>
    ensures { IfOk result (λ clip. clip ≡ clip_with elements.now) }
{
    let mut live = Vec::new(alloc);
    let mut places = Vec::new(alloc);
    for (place, e) in elements.iter().enumerate() {
        if is_live(e) {
            live.push(e.try_clone()?)?;
            places.push(place as u64)?;
        }
    }
    Ok(Clip {
        elements: List::from_vec(live),
        places: List::from_vec(places),
        files: List::new(alloc),
    })
}

/// Whether an element isn't deleted.
fn is_live(e: &Element) -> bool
    ensures { result ≡ not e.now.deleted }
{
    !e.deleted
}
