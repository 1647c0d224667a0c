//! Laws on what is shown of scenes, for all of them. They do nothing when they run.

ghost use Rattle.std.specs.Prelude.{ℕ, List, All, flat_map, map};
ghost use Rattle.json_text.specs.Value.{IsCompact};
ghost use Rattle.elem.specs.ElementValue.{ElementValue};
ghost use Rattle.elem_read.specs.Reading.{IsWholeElement};
ghost use Rattle.elem_store.specs.Updates.{AreStored};
ghost use Rattle.view.specs.Shown.{live_elements, shown};
ghost use Rattle.scene_file.specs.Heads.{Heading, IsJoinedHead};
ghost use Rattle.scene_file.specs.Reading.{IsSceneOf};
ghost use Rattle.scene_file.specs.Scenes.{scene_text};
ghost use Rattle.scene_file.specs.declared.scene.Scene.{Scene};

/// The text of what is shown of scenes is a compact text, which nests at most 128; so it is written
/// in each layout.
pub fn shown_scene_is_written()
    ensures { (scenes : List Scene) (head : Heading) (stored : List ElementValue)
        → All (λ scene. (text : List ℕ) × IsSceneOf text scene) scenes
        → IsJoinedHead (map (λ (scene : Scene). scene.head) scenes) head
        → AreStored (flat_map (λ (scene : Scene). scene.elements) scenes) stored
        → IsCompact 128 (scene_text head (shown (live_elements stored))) }
{}

/// What is shown of whole elements is whole.
pub fn shown_scenes_are_whole()
    ensures { (live : List ElementValue) → All IsWholeElement live
        → All IsWholeElement (shown live) }
{}
