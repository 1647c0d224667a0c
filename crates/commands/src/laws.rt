//! Laws on what inputs are answered with, for all inputs. They do nothing when they run.

ghost use Rattle.std.specs.Prelude.{◌≡◌, ◌↔◌, ℕ, List, [], ◌∷◌, ◌++◌, Result, Ok, Err, Some};
ghost use Rattle.elem.specs.ElementValue.{ElementValue};
ghost use Rattle.elem_store.specs.Updates.{AreBest};
ghost use Rattle.library.specs.Libraries.{HaveItems};
ghost use Rattle.library.specs.declared.item.Item.{Item};
ghost use Rattle.scene_file.specs.Heads.{Heading, IsJoinedHead};
ghost use Rattle.scene_file.specs.Texts.{IsSceneText};
ghost use Rattle.scene_file.specs.declared.layout.Layout.{Layout};
ghost use Rattle.scene_file.specs.declared.scene.Scene.{Scene};
ghost use Rattle.scene_file.specs.declared.fault.SceneFault.{SceneFault};
ghost use Rattle.commands.specs.Again.{TakesScenes};
ghost use Rattle.commands.specs.Answers.{IsAnswer};
ghost use Rattle.commands.specs.Boards.{heads_of, updates_of, shown_of};
ghost use Rattle.commands.specs.Checked.{BeginsWithFault, IsBoardChecked};
ghost use Rattle.commands.specs.Drills.{IsDrilled};
ghost use Rattle.commands.specs.Faults.{newline};
ghost use Rattle.commands.specs.Input.{HasScenes};
ghost use Rattle.commands.specs.Services.{IsDrillWithinLimits};
ghost use Rattle.commands.specs.Shelves.{HasTexts};
ghost use Rattle.commands.specs.Words.{asked, words_of, HasNames};
ghost use Rattle.commands.specs.declared.status.InputRefusal.{InputRefusal};
ghost use Rattle.commands.specs.declared.words.ProgramCommand.{ProgramCommand};
ghost use Rattle.commands.specs.declared.words.Drill.{Drill};
ghost use Rattle.commands.specs.declared.words.Request.{Request};

/// A command is asked for by its words, where these may stand for the texts that it has, and by no
/// others.
pub fn words_ask()
    ensures { (command : ProgramCommand) (words : List (List ℕ))
        → (asked words ≡ Some (Request.Answer command))
        ↔ ((words ≡ words_of command) × HasNames command) }
{}

/// Each command that is asked for has an answer to each input, whatever its bytes.
pub fn answer_exists()
    ensures { (command : ProgramCommand) (bytes : List ℕ) → HasNames command
        → (answer : Result (List ℕ) InputRefusal) × IsAnswer command bytes answer }
{
    room_msg::laws::reading_exists();
    room_disk::laws::recovered_is_whole();
}

/// An input has one answer alone.
pub fn answer_is_unique()
    ensures { (command : ProgramCommand) (bytes : List ℕ)
        (answer other : Result (List ℕ) InputRefusal)
        → IsAnswer command bytes answer → IsAnswer command bytes other → answer ≡ other }
{}

/// Scenes are answered with a text by each command that takes any number of them, and one scene by
/// `restore`, too.
pub fn scenes_are_answered()
    ensures scenes { (command : ProgramCommand) (bytes : List ℕ) (scenes : List Scene)
        → TakesScenes command → HasScenes bytes scenes
        → (text : List ℕ) × IsAnswer command bytes (Ok text) }
    ensures scene { (layout : Layout) (bytes : List ℕ) (scene : Scene)
        → HasScenes bytes (scene ∷ [])
        → (text : List ℕ) × IsAnswer (ProgramCommand.Restore layout) bytes (Ok text) }
{}

/// Libraries are answered with a text by `library`.
pub fn libraries_are_answered()
    ensures { (bytes : List ℕ) (texts : List (List ℕ)) (items : List Item)
        → HasTexts bytes texts → HaveItems texts items
        → (text : List ℕ) × IsAnswer ProgramCommand.Library bytes (Ok text) }
{}

/// The best update of each id makes the text of a merge.
pub fn merge_is_of_the_best()
    ensures { (layout : Layout) (bytes text : List ℕ) (scenes : List Scene) (head : Heading)
        (chosen : List ElementValue)
        → HasScenes bytes scenes → IsJoinedHead (heads_of scenes) head
        → AreBest (updates_of scenes) chosen
        → IsAnswer (ProgramCommand.Merge layout) bytes (Ok text)
        → (written : List ℕ) × IsSceneText layout head (shown_of chosen) written
        × (text ≡ written ++ newline) }
{}

/// `check` tells the fault first that a merge is refused for. What a merge answers it tells the
/// board of, and nothing else.
pub fn checks_agree_with_merges()
    ensures fault { (layout : Layout) (bytes text : List ℕ) (number : ℕ) (fault : SceneFault)
        → IsAnswer (ProgramCommand.Merge layout) bytes (Err (InputRefusal.Text number fault))
        → IsAnswer ProgramCommand.Check bytes (Ok text) → BeginsWithFault number fault text }
    ensures board { (layout : Layout) (bytes merged text : List ℕ)
        → IsAnswer (ProgramCommand.Merge layout) bytes (Ok merged)
        → IsAnswer ProgramCommand.Check bytes (Ok text) → IsBoardChecked bytes text }
{}

/// Each drill within its limits tells a text, and one text alone.
pub fn drill_is_told()
    ensures exists { (drill : Drill) → IsDrillWithinLimits drill
        → (text : List ℕ) × IsDrilled drill text }
    ensures unique { (drill : Drill) (text other : List ℕ)
        → IsDrilled drill text → IsDrilled drill other → text ≡ other }
{
    workload::laws::drill_is_read();
}
