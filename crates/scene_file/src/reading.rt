//! Reading scenes.

ghost use Rattle.std.specs.Prelude.{◌≡◌, ◌<◌, ◌≤◌, ℕ, List as Items, [], length, drop, Ok, Err, None, IfOk, IfSome, MatchOption, option_copied, is_some};
ghost use Rattle.std.specs.List.{list_all};
ghost use Rattle.json_text.specs.Compact.{Member as Pair};
ghost use Rattle.json_text.specs.Members.{pairs};
ghost use Rattle.elem.specs.ElementValue.{ElementValue};
ghost use Rattle.elem.specs.Forms.{IsObject};
ghost use Rattle.elem_read.specs.declared.fault.FaultyElement.{FaultyElement};
ghost use Rattle.scene_file.specs.Reading.{value_unless_null, loaded, HasMembers, IsSceneOf, IsSceneFault, IsSceneAt, IsSceneFaultAt};
ghost use Rattle.scene_file.specs.inner.Taken.{IsTaken};
ghost use Rattle.scene_file.specs.declared.scene.Scene.{Scene};
ghost use Rattle.scene_file.specs.declared.fault.SceneFault.{SceneFault};

use crate::fault::SceneFault;
use crate::head::head_of;
use crate::scene::Scene;
use board_base::{List, Stop};
use elem::Element;
use elem_read::{FaultyElement, read_array};
use index_repair::with_repaired_keys;
use json_reader::scan;
use json_text::{Member, Raw};
use scene_json::{has_value, is_null, members, members_to, shaped, value_named};
use std::alloc::{AllocError, Global};

/// The scene that stands at an offset, behind white space and in whatever spelling, and the offset
/// after it; or the first fault there.
pub fn read_scene(
    alloc: Global,
    bytes: &[u8],
    at: usize,
) -> Result<(Scene, usize), Stop<SceneFault>>
    requires { at ≤ length bytes.now }
    ensures within { IfOk result (λ found. (at < found.1) × (found.1 ≤ length bytes.now)) }
    ensures scene { IfOk result (λ found. IsSceneAt (drop at bytes.now) found.0
        (drop found.1 bytes.now)) }
    ensures fault { (fault : SceneFault) → result ≡ Err (Stop.Fault fault)
        → IsSceneFaultAt bytes.now at fault }
{
    let (value, end) = match scan(alloc, bytes, at) {
        Ok(found) => found,
        Err(Stop::Fault(fault)) => return Err(Stop::Fault(SceneFault::Json(fault))),
        Err(Stop::Memory) => return Err(Stop::Memory),
    };
    Ok((scene_of(alloc, &value)?, end))
}

/// The scene that a value is, or its first fault.
pub fn scene_of(alloc: Global, value: &Raw) -> Result<Scene, Stop<SceneFault>>
    ensures scene { IfOk result (IsSceneOf value.now) }
    ensures fault { (fault : SceneFault) → result ≡ Err (Stop.Fault fault)
        → IsSceneFault value.now fault }
{
    let Some((found, given)) = taken_apart(alloc, value)? else {
        return Err(Stop::Fault(SceneFault::NotObject));
    };
    if !has_value(&found, "type", "\"excalidraw\"") {
        return Err(Stop::Fault(SceneFault::NotScene));
    }
    let Elements::Read(read) = given else {
        return Err(Stop::Fault(SceneFault::Elements));
    };
    let Some(settings) = members_given(alloc, &found, "appState")? else {
        return Err(Stop::Fault(SceneFault::AppState));
    };
    let Some(entries) = members_given(alloc, &found, "files")? else {
        return Err(Stop::Fault(SceneFault::Files));
    };
    let elements = match read {
        Ok(elements) => loaded(alloc, elements.into_vec())?,
        Err(faulty) => {
            return Err(Stop::Fault(SceneFault::Element(faulty.place, faulty.fault)));
        }
    };
    Ok(Scene {
        head: head_of(alloc, &found, settings, entries)?,
        elements: List::from_vec(elements),
    })
}

/// What came of the elements of a scene's object.
#[derive(Drop)]
enum Elements {
    /// They were read, up to the first faulty one.
    Read(Result<List<Element>, FaultyElement>),
    /// They are in no array.
    NoArray,
}

/// The members of a scene's object, but for an array of elements, and what came of the elements:
/// they are read as they stand, while the object is taken apart. `None` where it is no object.
fn taken_apart(alloc: Global, value: &Raw) -> Result<Option<(List<Member>, Elements)>, AllocError>
    ensures shape { result ≡ Ok None → (members : Items Pair) → IsObject value.now members → ⊥ }
    ensures taken { IfOk result (λ found. IfSome found
        (λ taken. IsTaken value.now (pairs taken.0) taken.1)) }
{
    let Some((before, walk)) = shaped(members_to(alloc, value, "elements"))? else {
        return Ok(None);
    };
    let Some(mut objects) = walk else {
        if given(&before, "elements").is_some() {
            return Ok(Some((before, Elements::NoArray)));
        }
        return Ok(Some((before, Elements::Read(Ok(List::new(alloc))))));
    };
    let read = kept_aside(read_array(alloc, &mut objects))?;
    let found = objects.members_around(alloc, before)?;
    Ok(Some((found, Elements::Read(read))))
}

/// The elements or the first fault among them.
fn kept_aside(
    read: Result<List<Element>, Stop<FaultyElement>>,
) -> Result<Result<List<Element>, FaultyElement>, AllocError>
    ensures read { (elements : Items ElementValue) → result ≡ Ok (Ok elements)
        → read ≡ Ok elements }
    ensures fault { (faulty : FaultyElement) → result ≡ Ok (Err faulty)
        → read ≡ Err (Stop.Fault faulty) }
{
    match read {
        Ok(elements) => Ok(Ok(elements)),
        Err(Stop::Fault(faulty)) => Ok(Err(faulty)),
        Err(Stop::Memory) => Err(AllocError),
    }
}

/// The value of the first member with this name; null counts as missing.
fn given<'a>(members: &'a List<Member>, name: &str) -> Option<&'a Raw>
    ensures { option_copied result ≡ value_unless_null name.now (pairs members.now) }
{
    match value_named(members, name) {
        Some(value) if !is_null(value) => Some(value),
        _ => None,
    }
}

/// The members of the object that is given under a name, none where it is missing. `None` where it
/// is no object.
fn members_given(
    alloc: Global,
    from: &List<Member>,
    name: &str,
) -> Result<Option<List<Member>>, AllocError>
    ensures { IfOk result (λ found. MatchOption found
        ((others : Items Pair) → HasMembers (value_unless_null name.now (pairs from.now)) others
        → ⊥)
        (λ some. HasMembers (value_unless_null name.now (pairs from.now)) (pairs some))) }
{
    match given(from, name) {
        Some(value) => shaped(members(alloc, value)),
        None => Ok(Some(List::new(alloc))),
    }
}

/// The elements with their keys, where each has one, else with the keys of all repaired in this
/// order.
fn loaded(alloc: Global, elements: Vec<Element>) -> Result<Vec<Element>, AllocError>
    ensures { IfOk result (λ new. new.items ≡ loaded elements.items) }
{
    if have_keys(&elements) {
        Ok(elements)
    } else {
        with_repaired_keys(alloc, elements)
    }
}

/// Whether each element has a key.
fn have_keys(elements: &[Element]) -> bool
    ensures { result ≡ list_all (λ e. is_some e.index) elements.now }
{
    elements.iter().all(|e| e.index.is_some())
}
