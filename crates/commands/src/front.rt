//! What an input begins with that is to be a scene and a text behind it.

ghost use Rattle.std.specs.Prelude.{◌≡◌, ◌≤◌, Err, IfOk, drop, length};
ghost use Rattle.json_text.specs.Value.{Stands};
ghost use Rattle.json_reader.specs.Faults.{IsFirstFault};
ghost use Rattle.json_reader.specs.declared.fault.JsonFault.{JsonFault};
ghost use Rattle.scene_file.specs.Reading.{IsSceneAt, IsSceneFaultAt};
ghost use Rattle.scene_file.specs.declared.fault.SceneFault.{SceneFault};
ghost use Rattle.commands.specs.Fronts.{HasFront, IsBehind, IsFrontRefusal};
ghost use Rattle.commands.specs.declared.status.InputRefusal.{InputRefusal};

use crate::status::InputRefusal;
use board_base::Stop;
use json_reader::scan;
use json_text::{Raw, skip_space};
use scene_file::{Scene, SceneFault, read_scene};
use std::alloc::Global;

/// A scene, the value behind it, and the place of a further byte behind that which isn't white
/// space, if there is one.
#[derive(Drop)]
pub(crate) struct Front {
    pub(crate) scene: Scene,
    pub(crate) text: Raw,
    pub(crate) more: Option<usize>,
}

/// The scene that the bytes begin with, and the value behind it.
pub(crate) fn read_front(alloc: Global, bytes: &[u8]) -> Result<Front, Stop<InputRefusal>>
    ensures front { IfOk result (λ front. HasFront bytes.now front.scene front.text front.more) }
    ensures refused { (why : InputRefusal) → result ≡ Err (Stop.Fault why)
        → IsFrontRefusal bytes.now why }
{
    let (scene, start) = first_scene(alloc, bytes)?;
    let (text, after) = value_behind(alloc, bytes, start)?;
    Ok(Front {
        scene,
        text,
        more: more_behind(bytes, after),
    })
}

/// The scene that the bytes begin with, and the offset after it.
fn first_scene(alloc: Global, bytes: &[u8]) -> Result<(Scene, usize), Stop<InputRefusal>>
    ensures within { IfOk result (λ found. found.1 ≤ length bytes.now) }
    ensures scene { IfOk result (λ found. IsSceneAt bytes.now found.0 (drop found.1 bytes.now)) }
    ensures refused { (why : InputRefusal) → result ≡ Err (Stop.Fault why)
        → (fault : SceneFault) × (why ≡ InputRefusal.Text 1 fault)
        × IsSceneFaultAt bytes.now 0 fault }
{
    match read_scene(alloc, bytes, 0) {
        Ok(found) => Ok(found),
        Err(Stop::Fault(fault)) => Err(Stop::Fault(InputRefusal::Text(1, fault))),
        Err(Stop::Memory) => Err(Stop::Memory),
    }
}

/// The value that stands behind an offset as the second text, and the offset after it.
fn value_behind(
    alloc: Global,
    bytes: &[u8],
    start: usize,
) -> Result<(Raw, usize), Stop<InputRefusal>>
    requires { start ≤ length bytes.now }
    ensures within { IfOk result (λ found. found.1 ≤ length bytes.now) }
    ensures stands { IfOk result
        (λ found. Stands (drop start bytes.now) found.0 (drop found.1 bytes.now)) }
    ensures refused { (why : InputRefusal) → result ≡ Err (Stop.Fault why)
        → (fault : JsonFault) × (why ≡ InputRefusal.Text 2 (SceneFault.Json fault))
        × IsFirstFault bytes.now start fault }
{
    match scan(alloc, bytes, start) {
        Ok(found) => Ok(found),
        Err(Stop::Fault(fault)) => Err(Stop::Fault(InputRefusal::Text(2, SceneFault::Json(fault)))),
        Err(Stop::Memory) => Err(Stop::Memory),
    }
}

/// The place of the first byte behind an offset that isn't white space, if there is one.
fn more_behind(bytes: &[u8], after: usize) -> Option<usize>
    requires { after ≤ length bytes.now }
    ensures { IsBehind bytes.now after result }
{
    let at = skip_space(bytes, after);
    if at < bytes.len() { Some(at) } else { None }
}
