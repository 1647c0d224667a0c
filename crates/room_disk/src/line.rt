//! Reading one line of a journal.

ghost use Rattle.std.specs.Prelude.{◌≡◌, ◌⊎◌, ◌∷◌, [], ℕ, Ok, Err, IfOk, OnOk};
ghost use Rattle.json_reader.specs.Faults.{IsFirstFault};
ghost use Rattle.json_reader.specs.declared.fault.JsonFault.{JsonFault};
ghost use Rattle.room_msg.specs.Messages.{StandsAlone, HasMore, IsReadAs};
ghost use Rattle.scene_file.specs.declared.fault.SceneFault.{SceneFault};
ghost use Rattle.room_disk.specs.Recovering.{IsSceneReadAs, IsSceneLineFault, IsUpdateLineFault, AreKept};
ghost use Rattle.room_disk.specs.inner.UnderWay.{HasTakenLine};
ghost use Rattle.room_disk.specs.declared.fault.LineFault.{LineFault};

use crate::fault::LineFault;
use board_base::{List, Stop};
use elem::Element;
use elem_store::Store;
use json_reader::{JsonFault, scan};
use json_text::{Raw, skip_space};
use room_msg::{Message, read_message};
use scene_file::{Head, Scene, SceneFault, scene_of};
use std::alloc::Global;

/// The head of a journal's first line, and the store of its elements.
pub(crate) fn open(alloc: Global, line: &[u8]) -> Result<(Head, Store), Stop<LineFault>>
    ensures opened { IfOk result (λ found. AreKept (line.now ∷ []) found.0 found.1.elements) }
    ensures fault { (fault : LineFault) → result ≡ Err (Stop.Fault fault)
        → IsSceneLineFault line.now fault }
{
    match read_opening(alloc, line) {
        Ok(scene) => {
            let store = Store::from_updates(alloc, scene.elements)?;
            Ok((scene.head, store))
        }
        Err(Stop::Fault(fault)) => Err(Stop::Fault(LineFault::Scene(fault))),
        Err(Stop::Memory) => Err(Stop::Memory),
    }
}

/// The one scene that a line is, or its first fault.
fn read_opening(alloc: Global, line: &[u8]) -> Result<Scene, Stop<SceneFault>>
    ensures scene { IfOk result (λ scene. IsSceneReadAs line.now (Ok scene)) }
    ensures fault { (fault : SceneFault) → result ≡ Err (Stop.Fault fault)
        → IsSceneReadAs line.now (Err fault) }
{
    match lone_value(alloc, line) {
        Ok(value) => scene_of(alloc, &value),
        Err(Stop::Fault(fault)) => Err(Stop::Fault(SceneFault::Json(fault))),
        Err(Stop::Memory) => Err(Stop::Memory),
    }
}

/// The one value that a line is, white space around it.
fn lone_value(alloc: Global, line: &[u8]) -> Result<Raw, Stop<JsonFault>>
    ensures alone { IfOk result (StandsAlone line.now) }
    ensures fault { (fault : JsonFault) → result ≡ Err (Stop.Fault fault)
        → IsSceneReadAs line.now (Err (SceneFault.Json fault)) }
{
    let (value, after) = match scan(alloc, line, 0) {
        Ok(found) => found,
        Err(Stop::Fault(fault)) => return Err(Stop::Fault(fault)),
        Err(Stop::Memory) => return Err(Stop::Memory),
    };
    let at = skip_space(line, after);
    if at < line.len() {
        return Err(Stop::Fault(JsonFault::Syntax(at)));
    }
    Ok(value)
}

/// Takes the elements of a further line of a journal, which is an update, into the store.
pub(crate) fn take_update(
    alloc: Global,
    store: &mut Store,
    line: &[u8],
) -> Result<(), Stop<LineFault>>
    ensures taken { OnOk result (HasTakenLine store.old.elements line.now store.new.elements) }
    ensures fault { (fault : LineFault) → result ≡ Err (Stop.Fault fault)
        → IsUpdateLineFault line.now fault }
{
    let elements = read_update(alloc, line)?;
    store.reserve(elements.as_slice().len())?;
    store.take_all(elements);
    Ok(())
}

/// The elements of the update that a line is, or its fault.
fn read_update(alloc: Global, line: &[u8]) -> Result<List<Element>, Stop<LineFault>>
    ensures read { IfOk result (λ elements. IsReadAs line.now (Ok (Message.Update elements))) }
    ensures fault { (fault : LineFault) → result ≡ Err (Stop.Fault fault)
        → IsUpdateLineFault line.now fault }
{
    match read_message(alloc, line) {
        Ok(Message::Update(elements)) => Ok(elements),
        Ok(Message::Init(_) | Message::Presence(_)) => Err(Stop::Fault(LineFault::Other)),
        Err(Stop::Fault(fault)) => Err(Stop::Fault(LineFault::Message(fault))),
        Err(Stop::Memory) => Err(Stop::Memory),
    }
}
