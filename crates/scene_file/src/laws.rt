//! Laws on scenes and heads, for all of them. They do nothing when they run.

ghost use Rattle.std.specs.Prelude.{◌≡◌, ◌↔◌, ◌⊎◌, ◌<◌, ◌≤◌, ℕ, List, ◌++◌, All, Contains, true, Some, None, drop, length};
ghost use Rattle.json_text.specs.Characters.{is_blank};
ghost use Rattle.json_text.specs.Value.{IsCompact};
ghost use Rattle.elem.specs.ElementValue.{ElementValue};
ghost use Rattle.elem_read.specs.Reading.{IsWholeElement};
ghost use Rattle.elem_store.specs.Updates.{AreStored};
ghost use Rattle.scene_file.specs.Heads.{Heading, HaveSameHeads, IsJoinedHead, IsLeastSource, least_source};
ghost use Rattle.scene_file.specs.Reading.{IsSceneAt, IsSceneFaultAt};
ghost use Rattle.scene_file.specs.Scenes.{scene_text, state_text};
ghost use Rattle.scene_file.specs.Texts.{IsSceneText};
ghost use Rattle.scene_file.specs.Whole.{IsWholeHead, HaveKeys, IsWholeScene, with_named_files};
ghost use Rattle.scene_file.specs.declared.layout.Layout.{Layout};
ghost use Rattle.scene_file.specs.declared.scene.Scene.{Scene};
ghost use Rattle.scene_file.specs.declared.fault.SceneFault.{SceneFault};

/// At most one scene stands at the front of a text: the scene and what follows it are determined.
/// None stands in white space.
pub fn scene_is_unique()
    ensures once { (bytes : List ℕ) (scene other : Scene) (rest next : List ℕ)
        → IsSceneAt bytes scene rest → IsSceneAt bytes other next → (scene ≡ other)
        × (rest ≡ next) }
    ensures none { (bytes : List ℕ) (scene : Scene) (rest : List ℕ)
        → IsSceneAt bytes scene rest → is_blank bytes ≡ true → ⊥ }
{}

/// A text has at most one first fault at an offset, and no scene stands where a fault is.
pub fn fault_is_unique()
    ensures once { (bytes : List ℕ) (at : ℕ) (fault other : SceneFault)
        → IsSceneFaultAt bytes at fault → IsSceneFaultAt bytes at other → fault ≡ other }
    ensures none { (bytes : List ℕ) (at : ℕ) (fault : SceneFault) (scene : Scene) (rest : List ℕ)
        → IsSceneFaultAt bytes at fault → IsSceneAt (drop at bytes) scene rest → ⊥ }
{}

/// At each offset a scene stands, behind white space, or there is a first fault.
pub fn scene_or_fault_exists()
    ensures { (bytes : List ℕ) (at : ℕ) → at ≤ length bytes
        → ((scene : Scene) × (end : ℕ) × (at < end) × (end ≤ length bytes)
        × IsSceneAt (drop at bytes) scene (drop end bytes))
        ⊎ ((fault : SceneFault) × IsSceneFaultAt bytes at fault) }
{}

/// Whatever heads there are, they are joined to a head.
pub fn joined_head_exists()
    ensures { (heads : List Heading) → (head : Heading) × IsJoinedHead heads head }
{}

/// Heads are joined to one head.
pub fn joined_head_is_unique()
    ensures { (heads : List Heading) (head other : Heading)
        → IsJoinedHead heads head → IsJoinedHead heads other → head ≡ other }
{}

/// The joined head depends on the set of heads alone: their order and repeats don't count.
pub fn joined_head_is_of_the_set()
    ensures { (heads others : List Heading) (head : Heading)
        → All IsWholeHead heads → HaveSameHeads heads others → IsJoinedHead heads head
        → IsJoinedHead others head }
{}

/// The source of a joined head is that of a head, and none is less; there is none exactly where no
/// head has one.
pub fn least_source_is_least()
    ensures least { (heads : List Heading) (source : List ℕ) → least_source heads ≡ Some source
        → IsLeastSource heads source }
    ensures none { (heads : List Heading) → (least_source heads ≡ None)
        ↔ ((head : Heading) → Contains heads head → head.source ≡ None) }
{}

/// A compact text of a scene is written in each layout.
pub fn compact_scene_is_written()
    ensures { (layout : Layout) (head : Heading) (elements : List ElementValue)
        → IsCompact 128 (scene_text head elements) → (written : List ℕ)
        × IsSceneText layout head elements written }
{}

/// A scene that is read is whole, and so is what is made of whole scenes: their joined head, and
/// what is stored of their elements.
pub fn scenes_are_whole()
    ensures read { (bytes : List ℕ) (scene : Scene) (rest : List ℕ) → IsSceneAt bytes scene rest
        → IsWholeScene scene }
    ensures joined { (heads : List Heading) (head : Heading)
        → All IsWholeHead heads → IsJoinedHead heads head → IsWholeHead head }
    ensures stored { (updates elements : List ElementValue)
        → All IsWholeElement updates → AreStored updates elements → All IsWholeElement elements }
{}

/// The text of a whole scene, in whatever layout and whatever follows it, is read as that scene:
/// with its elements, and under its head with those of the files that the elements name, which have
/// the same text. The text of all that is stored is read as that, under its whole head.
pub fn texts_are_read_back()
    ensures scene { (layout : Layout) (head : Heading) (elements : List ElementValue)
        (written rest : List ℕ)
        → IsWholeHead head → All IsWholeElement elements → HaveKeys elements
        → IsSceneText layout head elements written
        → IsSceneAt (written ++ rest) (record {
          head = with_named_files head elements;
          elements =
              elements;
        }) rest }
    ensures same { (head : Heading) (elements : List ElementValue)
        → scene_text (with_named_files head elements) elements ≡ scene_text head elements }
    ensures state { (head : Heading) (stored : List ElementValue) (rest : List ℕ)
        → IsWholeHead head → All IsWholeElement stored → HaveKeys stored
        → IsSceneAt (state_text head stored ++ rest) (record { head = head; elements = stored })
        rest }
{}
