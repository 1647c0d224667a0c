//! Reading libraries.

ghost use Rattle.std.specs.Prelude.{◌≡◌, ℕ, All, Ok, Err, IfOk};
ghost use Rattle.json_text.specs.Members.{pairs};
ghost use Rattle.elem_read.specs.declared.fault.FaultyElement.{FaultyElement};
ghost use Rattle.clips.specs.Placed.{elements_in};
ghost use Rattle.library.specs.Reading.{AreElementsOf, AreItemsIn, IsElementsFault, IsFirst, IsFirstFaultyItem, IsItemFault, IsItemIn, IsItemOf, IsLibFault, IsLibraryOf, IsWholeItem};
ghost use Rattle.library.specs.declared.fault.ItemFault.{ItemFault};
ghost use Rattle.library.specs.declared.fault.LibFault.{LibFault};

use crate::fault::{ItemFault, LibFault};
use crate::forms::{array_named, id_named, status_named, text_or_null_named, time_named};
use crate::item::Item;
use board_base::{List, Stop};
use clips::{Placed, first_repeat, read_placed};
use elem::Element;
use elem_read::{FaultyElement, object_members};
use json_text::{Member, Raw};
use scene_json::has_value;
use std::alloc::{AllocError, Global};

/// The items of the library that a value is, in the array's order, or its first fault.
pub fn read_library(alloc: Global, value: &Raw) -> Result<List<Item>, Stop<LibFault>>
    ensures library { IfOk result (IsLibraryOf value.now) }
    ensures fault { (fault : LibFault) → result ≡ Err (Stop.Fault fault)
        → IsLibFault value.now fault }
    ensures whole { IfOk result (All IsWholeItem) }
{
    let Some(found) = object_members(alloc, value)? else {
        return Err(Stop::Fault(LibFault::NotObject));
    };
    if !has_value(&found, "type", "\"excalidrawlib\"") {
        return Err(Stop::Fault(LibFault::NotLibrary));
    }
    let Some(values) = array_named(alloc, &found, "libraryItems")? else {
        return Err(Stop::Fault(LibFault::Items));
    };
    read_items(alloc, &values)
}

/// The items that the values are, in their order, or the first fault among them.
fn read_items(alloc: Global, values: &List<Raw>) -> Result<List<Item>, Stop<LibFault>>
    ensures read { IfOk result (AreItemsIn values.now) }
    ensures fault { (fault : LibFault) → result ≡ Err (Stop.Fault fault)
        → (place : ℕ) × (why : ItemFault) × (fault ≡ LibFault.Item place why)
        × IsFirstFaultyItem values.now place why }
{
    let mut items = Vec::with_capacity(alloc, values.as_slice().len())?;
    for (place, value) in values.as_slice().iter().enumerate() {
        let item = item_at(alloc, value, place as u64)?;
        items.push(item)?;
    }
    Ok(List::from_vec(items))
}

/// The item that the value at this place is, or its fault there.
fn item_at(alloc: Global, value: &Raw, place: u64) -> Result<Item, Stop<LibFault>>
    ensures read { IfOk result (IsItemIn value.now) }
    ensures fault { (fault : LibFault) → result ≡ Err (Stop.Fault fault)
        → (why : ItemFault) × (fault ≡ LibFault.Item place why) × IsItemFault value.now why }
{
    match read_item(alloc, value) {
        Ok(item) => Ok(item),
        Err(Stop::Fault(fault)) => Err(Stop::Fault(LibFault::Item(place, fault))),
        Err(Stop::Memory) => Err(Stop::Memory),
    }
}

/// The item that the value is, or its first fault.
fn read_item(alloc: Global, value: &Raw) -> Result<Item, Stop<ItemFault>>
    ensures read { IfOk result (IsItemIn value.now) }
    ensures fault { (fault : ItemFault) → result ≡ Err (Stop.Fault fault)
        → IsItemFault value.now fault }
{
    let Some(found) = object_members(alloc, value)? else {
        return Err(Stop::Fault(ItemFault::NotObject));
    };
    read_members(alloc, &found)
}

/// The item that the members say, or their first fault.
fn read_members(alloc: Global, members: &List<Member>) -> Result<Item, Stop<ItemFault>>
    ensures read { IfOk result (IsItemOf (pairs members.now)) }
    ensures fault { (fault : ItemFault) → result ≡ Err (Stop.Fault fault)
        → IsFirst (pairs members.now) fault }
{
    let Some(id) = id_named(alloc, members, "id")? else {
        return Err(Stop::Fault(ItemFault::Id));
    };
    let Some(published) = status_named(members, "status") else {
        return Err(Stop::Fault(ItemFault::Status));
    };
    let Some(created) = time_named(members, "created") else {
        return Err(Stop::Fault(ItemFault::Created));
    };
    let name = text_or_null_named(alloc, members, "name", ItemFault::Name)?;
    let Some(values) = array_named(alloc, members, "elements")? else {
        return Err(Stop::Fault(ItemFault::Elements));
    };
    let elements = read_elements(alloc, &values)?;
    Ok(Item {
        id,
        published,
        created,
        name,
        elements,
    })
}

/// The elements that the values are, without what is dropped; or the first fault among them.
fn read_elements(alloc: Global, values: &List<Raw>) -> Result<List<Element>, Stop<ItemFault>>
    ensures read { IfOk result (AreElementsOf values.now) }
    ensures fault { (fault : ItemFault) → result ≡ Err (Stop.Fault fault)
        → IsElementsFault values.now fault }
{
    let placed = faults_told(read_placed(alloc, values))?;
    match first_repeat(alloc, &placed)? {
        Some(place) => Err(Stop::Fault(ItemFault::Repeated(place))),
        None => Ok(without_places(alloc, placed)?),
    }
}

/// What was read, its fault as an item's.
fn faults_told(
    read: Result<List<Placed>, Stop<FaultyElement>>,
) -> Result<List<Placed>, Stop<ItemFault>>
    ensures read { IfOk result (λ placed. read ≡ Ok placed) }
    ensures fault { (fault : ItemFault) → result ≡ Err (Stop.Fault fault)
        → (faulty : FaultyElement) × (read ≡ Err (Stop.Fault faulty))
        × (fault ≡ ItemFault.Element faulty.place faulty.fault) }
{
    match read {
        Ok(placed) => Ok(placed),
        Err(Stop::Fault(faulty)) => {
            Err(Stop::Fault(ItemFault::Element(faulty.place, faulty.fault)))
        }
        Err(Stop::Memory) => Err(Stop::Memory),
    }
}

/// The elements.
fn without_places(alloc: Global, placed: List<Placed>) -> Result<List<Element>, AllocError>
    ensures { IfOk result (λ elements. elements ≡ elements_in placed) }
{
    let mut elements = Vec::with_capacity(alloc, placed.as_slice().len())?;
    for p in placed.into_vec() {
        elements.push(p.element)?;
    }
    Ok(List::from_vec(elements))
}
