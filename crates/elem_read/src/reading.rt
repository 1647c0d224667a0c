//! Elements, read from values.

ghost use Rattle.std.specs.Prelude.{◌≡◌, ◌↔◌, ◌<◌, ℕ, List as Items, length, IsTrue, MatchOption, IfOk, IfSome, Ok, Err, All};
ghost use Rattle.json_text.specs.Compact.{Member as Pair};
ghost use Rattle.json_text.specs.Members.{pairs};
ghost use Rattle.json_text.specs.Value.{IsCompact};
ghost use Rattle.members.specs.Standing.{nth};
ghost use Rattle.scene_json.specs.Walks.{AreLeft, AreBehind, IsTakenApart};
ghost use Rattle.elem.specs.Forms.{IsObject};
ghost use Rattle.elem_read.specs.Elements.{AreRead, IsFirstFaulty};
ghost use Rattle.elem_read.specs.Reading.{IsSelection, IsElementIn, IsFaultIn, IsWholeElement};
ghost use Rattle.elem_read.specs.declared.fault.ElemFault.{ElemFault};
ghost use Rattle.elem_read.specs.declared.fault.FaultyElement.{FaultyElement};

use crate::element::element_of;
use crate::fault::{ElemFault, FaultyElement};
use crate::near::has_value;
use board_base::{List, Stop};
use elem::Element;
use json_text::Raw;
use members::Members;
use restore_table::into_restored;
use scene_json::{Item, Objects, item_of, nests_at_most};
use std::alloc::{AllocError, Global};

/// How many brackets may be open at once in an element, its own counted.
const DEEPEST: u64 = 120;

/// The element that the value is, the defaults of its missing members filled in. `None` comes
/// exactly where the value is an object whose `type` is the text `selection`, whatever else is in
/// it, and a fault exactly where it is the first.
pub fn read_element(alloc: Global, value: &Raw) -> Result<Option<Element>, Stop<ElemFault>>
    ensures read { IfOk result (λ found. MatchOption found (IsSelection value.now)
        (IsElementIn value.now)) }
    ensures fault { (fault : ElemFault) → result ≡ Err (Stop.Fault fault)
        → IsFaultIn value.now fault }
    ensures whole { IfOk result (λ found. IfSome found IsWholeElement) }
{
    let item = item_of(alloc, value)?;
    read_item(alloc, item)
}

/// The element that an item is.
fn read_item(alloc: Global, item: Item) -> Result<Option<Element>, Stop<ElemFault>>
    requires { (value : Items ℕ) × IsTakenApart value item }
    ensures read { IfOk result (λ found. (value : Items ℕ) → IsTakenApart value item
        → MatchOption found (IsSelection value) (IsElementIn value)) }
    ensures fault { (fault : ElemFault) → result ≡ Err (Stop.Fault fault) → (value : Items ℕ)
        → IsTakenApart value item → IsFaultIn value fault }
    ensures whole { IfOk result (λ found. IfSome found IsWholeElement) }
{
    match item {
        Item::Object(given) => read_members(alloc, given),
        Item::Other => Err(Stop::Fault(ElemFault::NotObject)),
    }
}

/// The element that an object with these members is.
fn read_members(alloc: Global, given: Members) -> Result<Option<Element>, Stop<ElemFault>>
    requires { (value : Items ℕ) × IsObject value (pairs given) }
    ensures read { IfOk result (λ found. (value : Items ℕ) → IsObject value (pairs given)
        → MatchOption found (IsSelection value) (IsElementIn value)) }
    ensures fault { (fault : ElemFault) → result ≡ Err (Stop.Fault fault) → (value : Items ℕ)
        → IsObject value (pairs given) → IsFaultIn value fault }
    ensures whole { IfOk result (λ found. IfSome found IsWholeElement) }
{
    if has_value(&given, "type", "\"selection\"")? {
        return Ok(None);
    }
    if !is_shallow(&given)? {
        return Err(Stop::Fault(ElemFault::Depth));
    }
    let restored = into_restored(alloc, given)?;
    let element = element_of(alloc, restored)?;
    Ok(Some(element))
}

/// Whether an element with these members nests at most as deep as it may.
fn is_shallow(members: &Members) -> Result<bool, AllocError>
    ensures { IfOk result (λ shallow. (value : Items ℕ) → IsObject value (pairs members.now)
        → IsTrue shallow ↔ IsCompact 120 value) }
{
    for at in 0..members.len() {
        if !nests_within(members, at, DEEPEST - 1)? {
            return Ok(false);
        }
    }
    Ok(true)
}

/// Whether at most so many brackets are open at once in the value of the member at an index. Most
/// values aren't looked through, since they have no more bytes than that.
#[tactic(auto, using(crate::proofs::ShortValues::short_nests))]
fn nests_within(members: &Members, at: usize, limit: u64) -> Result<bool, AllocError>
    requires { at < length members.now }
    ensures { IfOk result (λ within. IsTrue within
        ↔ IsCompact limit (nth members.now at).value) }
{
    // Read for what its type keeps: it is compact.
    let _value = members.value(at);
    if members.value_len(at) as u64 <= limit {
        return Ok(true);
    }
    let value = members.to_value(at)?;
    Ok(nests_at_most(&value, limit))
}

/// The elements that the values are, in their order, without what is dropped; or the first faulty
/// one.
pub fn read_elements(
    alloc: Global,
    values: &List<Raw>,
) -> Result<List<Element>, Stop<FaultyElement>>
    ensures read { IfOk result (AreRead values.now) }
    ensures fault { (faulty : FaultyElement) → result ≡ Err (Stop.Fault faulty)
        → IsFirstFaulty values.now faulty.place faulty.fault }
    ensures whole { IfOk result (All IsWholeElement) }
{
    let mut elements = Vec::new(alloc);
    for (place, value) in values.as_slice().iter().enumerate() {
        let read = read_at(alloc, value, place)?;
        if let Some(element) = read {
            elements.push(element)?;
        }
    }
    Ok(List::from_vec(elements))
}

/// The elements that the items left of an array are, in their order, without what is dropped; or
/// the first faulty one. Each item is taken apart as it comes.
pub fn read_array(
    alloc: Global,
    objects: &mut Objects<'_>,
) -> Result<List<Element>, Stop<FaultyElement>>
    ensures read { IfOk result (λ elements. (values : Items (Items ℕ)) → AreLeft objects.old values
        → AreRead values elements) }
    ensures fault { (faulty : FaultyElement) → result ≡ Err (Stop.Fault faulty)
        → (values : Items (Items ℕ)) → AreLeft objects.old values
        → IsFirstFaulty values faulty.place faulty.fault }
    ensures whole { IfOk result (All IsWholeElement) }
    ensures behind { (members : Items Pair) → AreBehind objects.old members
        → AreBehind objects.new members }
{
    let mut elements = Vec::new(alloc);
    let mut place = 0;
    while let Some(item) = objects.next(alloc)? {
        let read = at_place(read_item(alloc, item), place)?;
        if let Some(element) = read {
            elements.push(element)?;
        }
        place += 1;
    }
    Ok(List::from_vec(elements))
}

/// The element that the value at this place is, if it isn't dropped.
fn read_at(alloc: Global, value: &Raw, place: usize) -> Result<Option<Element>, Stop<FaultyElement>>
    ensures read { IfOk result (λ found. MatchOption found (IsSelection value.now)
        (IsElementIn value.now)) }
    ensures fault { (faulty : FaultyElement) → result ≡ Err (Stop.Fault faulty)
        → (faulty.place ≡ place) × IsFaultIn value.now faulty.fault }
{
    at_place(read_element(alloc, value), place)
}

/// What was read at this place.
fn at_place(
    read: Result<Option<Element>, Stop<ElemFault>>,
    place: usize,
) -> Result<Option<Element>, Stop<FaultyElement>>
    ensures read { IfOk result (λ found. read ≡ Ok found) }
    ensures fault { (faulty : FaultyElement) → result ≡ Err (Stop.Fault faulty)
        → (faulty.place ≡ place) × (read ≡ Err (Stop.Fault faulty.fault)) }
{
    match read {
        Ok(found) => Ok(found),
        Err(Stop::Fault(fault)) => {
            let place = place as u64;
            Err(Stop::Fault(FaultyElement { place, fault }))
        }
        Err(Stop::Memory) => Err(Stop::Memory),
    }
}
