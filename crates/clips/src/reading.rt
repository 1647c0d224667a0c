//! Reading clips.

ghost use Rattle.std.specs.Prelude.{◌≡◌, ℕ, List as Items, All, Ok, Err, IfOk, MatchOption, length, not};
ghost use Rattle.std.specs.List.{AllByRecursion};
ghost use Rattle.json_text.specs.Compact.{Member as Pair};
ghost use Rattle.json_text.specs.Members.{pairs};
ghost use Rattle.json_text.specs.Value.{IsCompact};
ghost use Rattle.elem.specs.Order.{HaveDistinctIds};
ghost use Rattle.elem_read.specs.Elements.{IsFirstFaulty};
ghost use Rattle.elem_read.specs.Reading.{IsElementIn, IsFaultIn, IsSelection, IsWholeElement};
ghost use Rattle.elem_read.specs.declared.fault.FaultyElement.{FaultyElement};
ghost use Rattle.clips.specs.Clips.{live_in, IsClipOf, IsClipFault, IsElementsFault};
ghost use Rattle.clips.specs.inner.Clips.{AreLiveOf};
ghost use Rattle.clips.specs.Placed.{elements_in, places_in, AreReadFrom};
ghost use Rattle.clips.specs.declared.fault.ClipFault.{ClipFault};
ghost use Rattle.clips.specs.declared.placed.Placed.{Placed};

use crate::clip::Clip;
use crate::fault::ClipFault;
use crate::given::{items_given, members_given};
use crate::placed::Placed;
use crate::repeats::first_repeat;
use board_base::{List, Stop};
use elem::Element;
use elem_read::{FaultyElement, object_members, read_element};
use json_text::Raw;
use scene_json::has_value;
use std::alloc::{AllocError, Global};

/// The clip that a value is, or its first fault.
pub fn read_clip(alloc: Global, value: &Raw) -> Result<Clip, Stop<ClipFault>>
    ensures clip { IfOk result (IsClipOf value.now) }
    ensures fault { (fault : ClipFault) → result ≡ Err (Stop.Fault fault)
        → IsClipFault value.now fault }
    ensures distinct { IfOk result (λ clip. HaveDistinctIds clip.elements) }
    ensures whole { IfOk result (λ clip. All IsWholeElement clip.elements) }
    ensures files { IfOk result (λ clip. AllByRecursion (λ (file : Pair). IsCompact 126 file.1)
        (pairs clip.files)) }
    ensures places { IfOk result (λ clip. length clip.places ≡ length clip.elements) }
{
    let Some(found) = object_members(alloc, value)? else {
        return Err(Stop::Fault(ClipFault::NotObject));
    };
    if !has_value(&found, "type", "\"excalidraw/clipboard\"") {
        return Err(Stop::Fault(ClipFault::NotClip));
    }
    let Some(values) = items_given(alloc, &found, "elements")? else {
        return Err(Stop::Fault(ClipFault::Elements));
    };
    let Some(files) = members_given(alloc, &found, "files")? else {
        return Err(Stop::Fault(ClipFault::Files));
    };
    let placed = live_elements(alloc, &values)?;
    let parts = parted(alloc, placed)?;
    Ok(Clip {
        elements: parts.0,
        places: parts.1,
        files,
    })
}

/// The elements that the values are, each with its place, without what is dropped and without
/// deleted ones; or the first fault among them.
fn live_elements(alloc: Global, values: &List<Raw>) -> Result<List<Placed>, Stop<ClipFault>>
    ensures read { IfOk result (AreLiveOf values.now) }
    ensures fault { (fault : ClipFault) → result ≡ Err (Stop.Fault fault)
        → IsElementsFault values.now fault }
    ensures whole { IfOk result (λ placed. All IsWholeElement (elements_in placed)) }
{
    let placed = live(faults_told(read_placed(alloc, values))?);
    match first_repeat(alloc, &placed)? {
        Some(place) => Err(Stop::Fault(ClipFault::Repeated(place))),
        None => Ok(placed),
    }
}

/// What was read, its fault as a clip's.
fn faults_told(
    read: Result<List<Placed>, Stop<FaultyElement>>,
) -> Result<List<Placed>, Stop<ClipFault>>
    ensures read { IfOk result (λ placed. read ≡ Ok placed) }
    ensures fault { (fault : ClipFault) → result ≡ Err (Stop.Fault fault)
        → (faulty : FaultyElement) × (read ≡ Err (Stop.Fault faulty))
        × (fault ≡ ClipFault.Element faulty.place faulty.fault) }
{
    match read {
        Ok(placed) => Ok(placed),
        Err(Stop::Fault(faulty)) => {
            Err(Stop::Fault(ClipFault::Element(faulty.place, faulty.fault)))
        }
        Err(Stop::Memory) => Err(Stop::Memory),
    }
}

/// The elements that the values are, in their order, each with its place, without what is dropped;
/// or the first faulty one.
pub fn read_placed(alloc: Global, values: &List<Raw>) -> Result<List<Placed>, Stop<FaultyElement>>
    ensures read { IfOk result (AreReadFrom 0 values.now) }
    ensures fault { (faulty : FaultyElement) → result ≡ Err (Stop.Fault faulty)
        → IsFirstFaulty values.now faulty.place faulty.fault }
    ensures whole { IfOk result (λ placed. All IsWholeElement (elements_in placed)) }
{
    let mut placed = Vec::new(alloc);
    for (place, value) in values.as_slice().iter().enumerate() {
        let read = read_at(alloc, value, place as u64)?;
        if let Some(element) = read {
            placed.push(element)?;
        }
    }
    Ok(List::from_vec(placed))
}

/// The element that the value at this place is, if it isn't dropped.
fn read_at(alloc: Global, value: &Raw, place: u64) -> Result<Option<Placed>, Stop<FaultyElement>>
    ensures read { IfOk result (λ found. MatchOption found (IsSelection value.now)
        (λ p. (p.place ≡ place) × IsElementIn value.now p.element)) }
    ensures fault { (faulty : FaultyElement) → result ≡ Err (Stop.Fault faulty)
        → (faulty.place ≡ place) × IsFaultIn value.now faulty.fault }
{
    match read_element(alloc, value) {
        Ok(Some(element)) => Ok(Some(Placed { place, element })),
        Ok(None) => Ok(None),
        Err(Stop::Fault(fault)) => Err(Stop::Fault(FaultyElement { place, fault })),
        Err(Stop::Memory) => Err(Stop::Memory),
    }
}

/// Those that aren't deleted.
fn live(placed: List<Placed>) -> List<Placed>
    ensures { result ≡ live_in placed }
{
    let mut placed = placed.into_vec();
    placed.retain(|p| is_live(&p.element));
    List::from_vec(placed)
}

/// Whether an element isn't deleted.
fn is_live(e: &Element) -> bool
    ensures { result ≡ not e.now.deleted }
{
    !e.deleted
}

/// The elements, and their places.
fn parted(alloc: Global, placed: List<Placed>) -> Result<(List<Element>, List<u64>), AllocError>
    ensures { IfOk result (λ parts. (parts.0 ≡ elements_in placed) × (parts.1 ≡ places_in placed)) }
{
    let mut elements = Vec::with_capacity(alloc, placed.as_slice().len())?;
    let mut places = Vec::with_capacity(alloc, placed.as_slice().len())?;
    for p in placed.into_vec() {
        places.push(p.place)?;
        elements.push(p.element)?;
    }
    Ok((List::from_vec(elements), List::from_vec(places)))
}
