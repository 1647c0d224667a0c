//! A clip that is pasted into the scene before it.

ghost use Rattle.std.specs.Prelude.{◌≡◌, ℕ, Err, IfOk, length};
ghost use Rattle.json_text.specs.Members.{pairs};
ghost use Rattle.file_table.specs.Table.{EntriesNest};
ghost use Rattle.clips.specs.Clips.{IsClipOf};
ghost use Rattle.commands.specs.Fronts.{IsSecondRefusal};
ghost use Rattle.commands.specs.Pastes.{HasSceneAndClip, IsClip, IsExisting, IsNoClip, IsPasted, IsPastedAs, IsPasteRefusal};
ghost use Rattle.commands.specs.declared.status.InputRefusal.{InputRefusal};

use crate::answer::{board_of, shown_text};
use crate::front::read_front;
use crate::status::InputRefusal;
use board_base::{Bytes, Stop};
use board_paste::{Exists, paste};
use clips::{Clip, read_clip};
use json_text::{Raw, Text};
use scene_file::{Layout, Scene};
use std::alloc::Global;

/// The text of the scene that the bytes begin with, and into which the clip behind it is pasted
/// under the prefix.
pub(crate) fn pasted(
    alloc: Global,
    bytes: &[u8],
    prefix: &Text,
) -> Result<Bytes, Stop<InputRefusal>>
    ensures pasted { IfOk result (IsPasted prefix.now bytes.now) }
    ensures refused { (why : InputRefusal) → result ≡ Err (Stop.Fault why)
        → IsPasteRefusal prefix.now bytes.now why }
{
    let (scene, clip) = scene_and_clip(alloc, bytes)?;
    pasted_into(alloc, scene, &clip, prefix)
}

/// The scene and the clip that the bytes are.
fn scene_and_clip(alloc: Global, bytes: &[u8]) -> Result<(Scene, Clip), Stop<InputRefusal>>
    ensures found { IfOk result (λ found. HasSceneAndClip bytes.now found.0 found.1) }
    ensures places { IfOk result (λ found. length found.1.places ≡ length found.1.elements) }
    ensures files { IfOk result (λ found. EntriesNest 126 (pairs found.1.files)) }
    ensures refused { (why : InputRefusal) → result ≡ Err (Stop.Fault why)
        → IsSecondRefusal IsClip IsNoClip bytes.now why }
{
    let front = read_front(alloc, bytes)?;
    let clip = clip_of(alloc, &front.text)?;
    match front.more {
        Some(at) => Err(Stop::Fault(InputRefusal::Extra(at))),
        None => Ok((front.scene, clip)),
    }
}

/// The clip that a text is.
fn clip_of(alloc: Global, text: &Raw) -> Result<Clip, Stop<InputRefusal>>
    ensures clip { IfOk result (IsClipOf text.now) }
    ensures places { IfOk result (λ clip. length clip.places ≡ length clip.elements) }
    ensures files { IfOk result (λ clip. EntriesNest 126 (pairs clip.files)) }
    ensures refused { (why : InputRefusal) → result ≡ Err (Stop.Fault why)
        → IsNoClip text.now why }
{
    match read_clip(alloc, text) {
        Ok(clip) => Ok(clip),
        Err(Stop::Fault(fault)) => Err(Stop::Fault(InputRefusal::Clip(fault))),
        Err(Stop::Memory) => Err(Stop::Memory),
    }
}

/// The text of the scene that is shown of the scene's board with the copies of a clip, and a
/// newline.
pub(crate) fn pasted_into(
    alloc: Global,
    scene: Scene,
    clip: &Clip,
    prefix: &Text,
) -> Result<Bytes, Stop<InputRefusal>>
    requires places { length clip.now.places ≡ length clip.now.elements }
    requires files { EntriesNest 126 (pairs clip.now.files) }
    ensures pasted { IfOk result (IsPastedAs prefix.now scene clip.now) }
    ensures refused { (why : InputRefusal) → result ≡ Err (Stop.Fault why)
        → (place : ℕ) × (why ≡ InputRefusal.Exists place)
        × IsExisting prefix.now scene clip.now place }
{
    let (mut head, mut store) = board_of(alloc, scene)?;
    match paste(alloc, &mut head, &mut store, clip, prefix) {
        Ok(()) => Ok(shown_text(alloc, &head, store, Layout::Compact)?),
        Err(Stop::Fault(Exists { place })) => Err(Stop::Fault(InputRefusal::Exists(place))),
        Err(Stop::Memory) => Err(Stop::Memory),
    }
}
