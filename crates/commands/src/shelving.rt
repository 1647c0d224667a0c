//! Libraries that are made one, and an item of one that is inserted into the scene before it.

ghost use Rattle.std.specs.Prelude.{◌≡◌, ◌++◌, ℕ, Err, IfOk, List as Items};
ghost use Rattle.library.specs.Best.{AreBest};
ghost use Rattle.library.specs.Libraries.{HaveItems, IsLibraryOfAll};
ghost use Rattle.library.specs.Reading.{IsLibraryOf};
ghost use Rattle.library.specs.declared.item.Item.{Item};
ghost use Rattle.commands.specs.Boards.{IsBoardOf};
ghost use Rattle.commands.specs.Faults.{newline};
ghost use Rattle.commands.specs.Fronts.{IsSecondRefusal};
ghost use Rattle.commands.specs.Shelves.{HasSceneAndLibrary, IsInserted, IsInsertRefusal, IsLibrary, IsNoLibrary};
ghost use Rattle.commands.specs.declared.status.InputRefusal.{InputRefusal};

use crate::answer::{board_of, ended, shown_text};
use crate::front::read_front;
use crate::status::InputRefusal;
use crate::words::Insertion;
use board_base::{Bytes, List, Stop};
use json_text::Raw;
use library::{InsertFault, Item, Shelf, insert, library_text, read_library};
use scene_file::{Layout, Scene};
use std::alloc::{AllocError, Global};

/// The text of the library of a shelf's items, and a newline.
pub(crate) fn shelved_text(alloc: Global, shelf: &Shelf) -> Result<Bytes, AllocError>
    ensures { IfOk result (λ text. (texts : Items (Items ℕ)) (items : Items Item)
        → HaveItems texts items → AreBest items shelf.now
        → (written : Items ℕ) × IsLibraryOfAll texts written × (text ≡ written ++ newline)) }
{
    ended(library_text(alloc, shelf)?)
}

/// The text of the scene that the bytes begin with, and into which an item of the library behind it
/// is inserted.
pub(crate) fn inserted(
    alloc: Global,
    bytes: &[u8],
    insertion: &Insertion,
) -> Result<Bytes, Stop<InputRefusal>>
    ensures inserted { IfOk result (IsInserted insertion.now bytes.now) }
    ensures refused { (why : InputRefusal) → result ≡ Err (Stop.Fault why)
        → IsInsertRefusal insertion.now bytes.now why }
{
    let (scene, items) = scene_and_library(alloc, bytes)?;
    let shelf = Shelf::from_items(alloc, items)?;
    let (mut head, mut store) = board_of(alloc, scene)?;
    match insert(
        alloc,
        &mut head,
        &mut store,
        &shelf,
        &insertion.item,
        &insertion.prefix,
    ) {
        Ok(()) => Ok(shown_text(alloc, &head, store, Layout::Compact)?),
        Err(Stop::Fault(InsertFault::NoItem)) => Err(Stop::Fault(InputRefusal::NoItem)),
        Err(Stop::Fault(InsertFault::Exists(place))) => Err(Stop::Fault(InputRefusal::Exists(
            place,
        ))),
        Err(Stop::Memory) => Err(Stop::Memory),
    }
}

/// The scene and the items of the library that the bytes are.
fn scene_and_library(alloc: Global, bytes: &[u8]) -> Result<(Scene, List<Item>), Stop<InputRefusal>>
    ensures found { IfOk result (λ found. HasSceneAndLibrary bytes.now found.0 found.1) }
    ensures refused { (why : InputRefusal) → result ≡ Err (Stop.Fault why)
        → IsSecondRefusal IsLibrary IsNoLibrary bytes.now why }
{
    let front = read_front(alloc, bytes)?;
    let items = items_of(alloc, &front.text)?;
    match front.more {
        Some(at) => Err(Stop::Fault(InputRefusal::Extra(at))),
        None => Ok((front.scene, items)),
    }
}

/// The items of the library that a text is.
fn items_of(alloc: Global, text: &Raw) -> Result<List<Item>, Stop<InputRefusal>>
    ensures items { IfOk result (IsLibraryOf text.now) }
    ensures refused { (why : InputRefusal) → result ≡ Err (Stop.Fault why)
        → IsNoLibrary text.now why }
{
    match read_library(alloc, text) {
        Ok(items) => Ok(items),
        Err(Stop::Fault(fault)) => Err(Stop::Fault(InputRefusal::Library(2, fault))),
        Err(Stop::Memory) => Err(Stop::Memory),
    }
}
